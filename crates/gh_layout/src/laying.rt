// The steps of the layout.
ghost use Rattle.std.specs.Prelude.{◌≡◌, [], OnOk};
ghost use Rattle.gh_layout.specs.Layout.{with_token, does_end, blocks_ended, after_line, after_block, closed, after_close, brace_closed, then_opened, row, after_token};
ghost use Rattle.gh_layout.specs.Entries.{in_brackets};
ghost use Rattle.gh_layout.specs.Follows.{Follows};

use crate::entry::{Block, Entry, Opening, Owner};
use crate::role::Role;
use crate::stack::Stack;
use gh_base::{ListOf, NoMemory};
use std::alloc::Global;

/// A token of the file, or an inserted one. The number is the place of the token in the list of tokens, from 0; of
/// an inserted one it is that of the next token, and at the end of the file the number of tokens.
#[derive(Clone, Copy, Debug, PartialEq, Eq)]
pub enum LaidToken {
    /// A token of the file.
    Real(u32),
    /// An inserted `{`.
    Begin(u32),
    /// An inserted `;`.
    Semi(u32),
    /// An inserted `}`.
    End(u32),
}

/// Which implicit blocks on top end.
#[derive(Clone, Copy, Debug, PartialEq, Eq)]
pub enum Ending {
    /// All.
    Always,
    /// Those that end at a `,` in brackets: up to a `let` or `where` block whose item has no `=` yet.
    AtComma,
    /// Those that end at a `where`: blocks of a keyword whose item is empty.
    AtWhere,
}

/// Why a step is not made.
#[derive(Clone, Copy, Debug, PartialEq, Eq)]
pub enum Stop {
    /// The rules have no answer here.
    BadLayout,
    /// A request for memory was not met.
    NoMemory,
}

impl From<NoMemory> for Stop {
    ghost use Rattle.std.specs.Prelude.{◌≡◌};
    ghost use Rattle.gh_layout.specs.declared.laying.Stop.TheVariants as stop;

    ghost from_gives = { λ _ s. s ≡ stop.NoMemory };

    fn from(_: NoMemory) -> Stop {
        Stop::NoMemory
    }
}

/// What stands open, and what is laid so far.
#[derive(Debug, Drop)]
pub struct Laying {
    /// What stands open.
    pub stack: Stack,
    /// What is laid so far.
    pub output: ListOf<LaidToken>,
}

impl Ending {
    // Whether this block ends where it is on top.
    fn does_end(self, block: Block) -> bool
        ensures { result ≡ does_end self block }
    {
        match self {
            Ending::Always => true,
            Ending::AtComma => match block.owner {
                Owner::Let => block.has_equals,
                Owner::Where => block.has_equals,
                Owner::File => true,
                Owner::Of => true,
            },
            Ending::AtWhere => match block.owner {
                Owner::File => false,
                Owner::Let => block.is_empty,
                Owner::Where => block.is_empty,
                Owner::Of => block.is_empty,
            },
        }
    }
}

impl Laying {
    /// Nothing stands open and nothing is laid.
    pub fn new(alloc: Global) -> Laying
        ensures { result ≡ record { stack = []; output = [] } }
    {
        Laying {
            stack: Stack::new(alloc),
            output: ListOf::new(alloc),
        }
    }

    /// Ends implicit blocks on top.
    pub fn end_blocks(&mut self, ending: Ending, place: u32) -> Result<(), NoMemory>
        ensures { OnOk result (self.new ≡ blocks_ended ending place self.old) }
    {
        while let Some(Entry::Implicit(block)) = self.stack.top() {
            if !ending.does_end(block) {
                return Ok(());
            }
            let _ended = self.stack.pop();
            self.output.push(LaidToken::End(place))?;
        }
        Ok(())
    }

    /// Treats the first token of a line, at this column.
    pub fn begin_line(&mut self, column: u32, place: u32) -> Result<(), Stop>
        ensures { Follows (after_line column place self.old) result self.new }
    {
        while let Some(Entry::Implicit(block)) = self.stack.top() {
            if block.column == column {
                self.stack.begin_item();
                self.output.push(LaidToken::Semi(place))?;
                return Ok(());
            }
            if block.column < column {
                return Ok(());
            }
            let _ended = self.stack.pop();
            self.output.push(LaidToken::End(place))?;
        }
        if self.stack.is_within(column) {
            return Err(Stop::BadLayout);
        }
        Ok(())
    }

    /// Begins an implicit block at this column, or lays an empty one.
    pub fn begin_block(&mut self, column: u32, owner: Owner, place: u32) -> Result<(), Stop>
        ensures { Follows (after_block column owner place self.old) result self.new }
    {
        self.output.push(LaidToken::Begin(place))?;
        if self.stack.block_column() < column {
            let block = Block {
                column,
                owner,
                is_empty: true,
                has_equals: false,
            };
            self.stack.push_implicit(block)?;
            return Ok(());
        }
        self.output.push(LaidToken::End(place))?;
        self.begin_line(column, place)
    }

    // Ends the implicit blocks on top, and then this opening, which must be there.
    fn close(&mut self, opening: Opening, place: u32) -> Result<(), Stop>
        ensures { Follows (after_close opening place self.old) result self.new }
    {
        self.end_blocks(Ending::Always, place)?;
        if let Some(Entry::Opened(open, _)) = self.stack.pop() {
            if opening.is(open) {
                return Ok(());
            }
        }
        Err(Stop::BadLayout)
    }

    // Ends the implicit blocks on top, and then the explicit block, which must be there.
    fn close_brace(&mut self, place: u32) -> Result<(), Stop>
        ensures { Follows (row Role.CloseBrace place self.old) result self.new }
    {
        self.end_blocks(Ending::Always, place)?;
        if let Some(Entry::Explicit(_)) = self.stack.pop() {
            return Ok(());
        }
        Err(Stop::BadLayout)
    }

    // Ends the implicit blocks on top, and makes the `if`, which must be there, a `then`.
    fn open_then(&mut self, place: u32) -> Result<(), Stop>
        ensures { Follows (row Role.Then place self.old) result self.new }
    {
        self.end_blocks(Ending::Always, place)?;
        if let Some(Entry::Opened(Opening::If, begin)) = self.stack.pop() {
            self.stack.push_opening(Opening::Then, begin)?;
            return Ok(());
        }
        Err(Stop::BadLayout)
    }

    // Ends the implicit blocks that a comma ends.
    fn end_at_comma(&mut self, place: u32) -> Result<(), NoMemory>
        ensures { OnOk result (row Role.Comma place self.old ≡ Some self.new) }
    {
        if self.stack.in_brackets() {
            self.end_blocks(Ending::AtComma, place)?;
        }
        Ok(())
    }

    // Does what a token does before it is laid.
    fn treat(&mut self, role: Role, place: u32) -> Result<(), Stop>
        ensures { Follows (row role place self.old) result self.new }
    {
        match role {
            Role::OpenBrace => Ok(self.stack.push_explicit(place)?),
            Role::CloseBrace => self.close_brace(place),
            Role::Semicolon => Ok(self.stack.begin_item()),
            Role::Opens(opening) => Ok(self.stack.push_opening(opening, place)?),
            Role::Closes(opening) => self.close(opening, place),
            Role::Of => self.close(Opening::Case, place),
            Role::Then => self.open_then(place),
            Role::Else => self.close(Opening::Then, place),
            Role::In => self.close(Opening::Let, place),
            Role::Comma => Ok(self.end_at_comma(place)?),
            Role::Where => Ok(self.end_blocks(Ending::AtWhere, place)?),
            Role::Equals => Ok(self.stack.note_equals()),
            Role::Module => Ok(()),
            Role::Other => Ok(()),
        }
    }

    /// Treats a token and lays it.
    pub fn lay_token(&mut self, role: Role, place: u32) -> Result<(), Stop>
        ensures { Follows (after_token role place self.old) result self.new }
    {
        if let Err(stop) = self.treat(role, place) {
            return Err(stop);
        }
        if !matches!(role, Role::Semicolon) {
            self.stack.fill_item();
        }
        self.output.push(LaidToken::Real(place))?;
        Ok(())
    }
}
