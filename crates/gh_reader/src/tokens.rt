// The cursor.
ghost use Rattle.std.specs.Prelude.{option_copied, ◌≡◌, [], ◌↔◌, IsTrue};
ghost use Rattle.gh_tree.specs.Read as read;

use crate::span::cover;
use gh_base::{NoMemory, Span};
use gh_tree::{Kind, Sym};
use std::marker::Model;

// How many bytes of the stack the readers of one item may use, of the eight megabytes that a process has.
const STACK: u32 = 7_600_000;

/// The laid tokens that are still to be read.
#[derive(Drop)]
pub struct Tokens<'a> {
    rest: &'a [Sym],
    /// How many bytes of the stack may still be used.
    stack: u32,
}

impl<'a> Model for Tokens<'a> {
    ghost use Rattle.std.specs.Prelude.{List};
    ghost use Rattle.gh_tree.specs.declared.symbol.Sym.{Sym};

    ghost Value = { List Sym };

    ghost view = { λ t. t.rest.now };
}

impl<'a> Tokens<'a> {
    /// All of these.
    pub fn new(rest: &'a [Sym]) -> Tokens<'a>
        ensures { result ≡ rest.now }
    {
        Tokens { rest, stack: STACK }
    }

    /// What is still to be read.
    pub fn rest(&self) -> &'a [Sym]
        ensures { result.now ≡ self.now }
    {
        self.rest
    }

    /// Whether all was read.
    pub fn is_empty(&self) -> bool
        ensures { IsTrue result ↔ (self.now ≡ []) }
    {
        self.rest.is_empty()
    }

    /// What the next token is.
    pub fn kind(&self) -> Option<&'a Kind>
        ensures { option_copied result ≡ read.kind self.now }
    {
        match self.rest {
            [] => None,
            [first, ..] => Some(&first.kind),
        }
    }

    /// What the token behind the next one is.
    pub fn second(&self) -> Option<&'a Kind>
        ensures { option_copied result ≡ read.kind (read.after self.now) }
    {
        match self.rest {
            [_, second, ..] => Some(&second.kind),
            _ => None,
        }
    }

    /// What the third token from here is.
    pub fn third(&self) -> Option<&'a Kind>
        ensures { option_copied result ≡ read.kind (read.after (read.after self.now)) }
    {
        match self.rest {
            [_, _, third, ..] => Some(&third.kind),
            _ => None,
        }
    }

    /// Takes the next token, and gives its bytes.
    pub fn take(&mut self) -> Span
        ensures span { result ≡ read.bytes self.old }
        ensures rest { self.new ≡ read.after self.old }
    {
        match self.rest {
            [] => Span {
                file: 0,
                from: 0,
                to: 0,
            },
            [first, rest @ ..] => {
                self.rest = rest;
                first.span
            }
        }
    }

    /// The bytes of what was read since `before` was the rest. Marks that the layout inserted have none.
    #[tactic(auto, unfolding(gh_tree::specs::Read::covered))]
    pub fn since(&self, before: &[Sym]) -> Span
        ensures { result ≡ read.covered before.now self.now }
    {
        let count = before.len().saturating_sub(self.rest.len());
        cover(&before[..count])
    }

    /// Goes down by one level, whose readers use so many bytes of the stack: want of memory where there are not so many
    /// left. The tokens stay.
    pub fn go_down(&mut self, bytes: u32) -> Result<(), NoMemory>
        ensures { self.new ≡ self.old }
    {
        match self.stack.checked_sub(bytes) {
            None => Err(NoMemory),
            Some(left) => {
                self.stack = left;
                Ok(())
            }
        }
    }

    /// Comes back up from a level of so many bytes. The tokens stay.
    pub fn go_up(&mut self, bytes: u32)
        ensures { self.new ≡ self.old }
    {
        self.stack = self.stack.saturating_add(bytes);
    }
}
