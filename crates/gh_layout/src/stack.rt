// The stack of what stands open.
ghost use Rattle.std.specs.Prelude.{◌≡◌, [], ◌∷◌, OnOk, MatchOption, true};
ghost use Rattle.gh_layout.specs.Entries.{first_of, block_column, is_within, item_begun, item_filled, equals_noted, in_brackets};

use crate::entry::{Block, Entry, Opening};
use crate::pile::{Kept, Level, Pile};
use gh_base::NoMemory;
use std::alloc::Global;
use std::marker::Model;

/// What stands open: to contracts a list of entries, the topmost first. The topmost block is at hand at once,
/// however many openings stand above it.
#[derive(Debug, Drop)]
pub struct Stack {
    block: Level,
    below: Pile,
}

impl Model for Stack {
    ghost use Rattle.std.specs.Prelude.{◌≡◌, List, true};
    ghost use Rattle.gh_layout.specs.declared.entry.Entry.{Entry};
    ghost use Rattle.gh_layout.specs.Levels.{entries_of, is_kept};

    ghost Value = { List Entry };

    ghost view = { λ s. entries_of s.block s.below };

    ghost invariant = { λ s. is_kept s.block s.below ≡ true };
}

impl Stack {
    /// The empty stack.
    pub fn new(alloc: Global) -> Stack
        ensures { result ≡ [] }
    {
        Stack {
            block: Level::Ground,
            below: Pile::new(alloc),
        }
    }

    /// Puts an opening on top, with its place.
    pub fn push_opening(&mut self, opening: Opening, place: u32) -> Result<(), NoMemory>
        ensures { OnOk result (self.new ≡ Entry.Opened opening place ∷ self.old) }
    {
        self.below.push(Kept::Opened(opening, place))?;
        Ok(())
    }

    /// Puts a block in braces on top, with the place of its `{`.
    pub fn push_explicit(&mut self, place: u32) -> Result<(), NoMemory>
        ensures { OnOk result (self.new ≡ Entry.Explicit place ∷ self.old) }
    {
        self.below.push(Kept::Below(self.block))?;
        self.block = Level::Explicit(place);
        Ok(())
    }

    /// Puts a block on top that lines make.
    pub fn push_implicit(&mut self, block: Block) -> Result<(), NoMemory>
        ensures { OnOk result (self.new ≡ Entry.Implicit block ∷ self.old) }
    {
        let inside = self.in_brackets();
        self.below.push(Kept::Below(self.block))?;
        self.block = Level::Implicit(block, inside);
        Ok(())
    }

    /// What is on top.
    pub fn top(&self) -> Option<Entry>
        ensures { result ≡ first_of self.now }
    {
        match self.below.top() {
            None => None,
            Some(Kept::Opened(opening, place)) => Some(Entry::Opened(opening, place)),
            Some(Kept::Below(_)) => Some(self.block.entry()),
        }
    }

    /// Takes away what is on top.
    pub fn pop(&mut self) -> Option<Entry>
        ensures { MatchOption result ((self.old ≡ []) × (self.new ≡ [])) (λ entry. self.old ≡ entry ∷ self.new) }
    {
        match self.below.pop() {
            None => None,
            Some(Kept::Opened(opening, place)) => Some(Entry::Opened(opening, place)),
            Some(Kept::Below(block)) => {
                let entry = self.block.entry();
                self.block = block;
                Some(entry)
            }
        }
    }

    /// The column of the topmost block, 0 where it is explicit or there is none.
    pub fn block_column(&self) -> u32
        ensures { result ≡ block_column self.now }
    {
        self.block.column()
    }

    /// Whether the topmost block is implicit and this column is not right of it.
    pub fn is_within(&self, column: u32) -> bool
        ensures { result ≡ is_within column self.now }
    {
        self.block.is_within(column)
    }

    /// Whether `(`, `[` or `{|` stands below implicit blocks alone.
    pub fn in_brackets(&self) -> bool
        ensures { result ≡ in_brackets self.now }
    {
        match self.below.top() {
            None => false,
            Some(Kept::Opened(opening, _)) => opening.is_bracket(),
            Some(Kept::Below(_)) => match self.block {
                Level::Ground => false,
                Level::Explicit(_) => false,
                Level::Implicit(_, inside) => inside,
            },
        }
    }

    /// Begins a new item of the topmost block.
    pub fn begin_item(&mut self)
        ensures { self.new ≡ item_begun self.old }
    {
        self.block = self.block.with_new_item();
    }

    /// Notes that the item of the topmost block is not empty.
    pub fn fill_item(&mut self)
        ensures { self.new ≡ item_filled self.old }
    {
        self.block = self.block.with_filled_item();
    }

    /// Notes, where a block is on top, that its item has an `=`.
    pub fn note_equals(&mut self)
        ensures { self.new ≡ equals_noted self.old }
    {
        if let Some(Kept::Below(_)) = self.below.top() {
            self.block = self.block.with_equals();
        }
    }
}
