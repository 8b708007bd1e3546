// What the stack keeps below its topmost block.
ghost use Rattle.std.specs.Prelude.{◌≡◌, [], ◌∷◌, OnOk, OnErr, MatchOption};
ghost use Rattle.gh_layout.specs.Entries.{first_of};

use crate::entry::{Block, Entry, Opening};
use gh_base::NoMemory;
use std::alloc::Global;
use std::marker::Model;

/// A block as the stack keeps it.
#[derive(Clone, Copy, Debug, PartialEq, Eq)]
pub enum Level {
    /// No block.
    Ground,
    /// A block in braces, and the place of its `{`.
    Explicit(u32),
    /// A block that lines make, and whether `(`, `[` or `{|` stands below implicit blocks alone under it.
    Implicit(Block, bool),
}

impl Level {
    ghost use Rattle.gh_layout.specs.Levels.{entry_of, level_column, level_within, new_item_of, filled_item_of, equals_item_of};

    /// The entry of the block. There is none of the ground.
    pub fn entry(self) -> Entry
        ensures { result ≡ entry_of self }
    {
        match self {
            Level::Ground => Entry::Explicit(0),
            Level::Explicit(place) => Entry::Explicit(place),
            Level::Implicit(block, _) => Entry::Implicit(block),
        }
    }

    /// The column of an implicit block, and else 0.
    pub fn column(self) -> u32
        ensures { result ≡ level_column self }
    {
        match self {
            Level::Ground => 0,
            Level::Explicit(_) => 0,
            Level::Implicit(block, _) => block.column,
        }
    }

    /// Whether it is an implicit block and this column is not right of it.
    pub fn is_within(self, column: u32) -> bool
        ensures { result ≡ level_within column self }
    {
        match self {
            Level::Ground => false,
            Level::Explicit(_) => false,
            Level::Implicit(block, _) => column <= block.column,
        }
    }

    /// The block with a new item.
    pub fn with_new_item(self) -> Level
        ensures { result ≡ new_item_of self }
    {
        match self {
            Level::Ground => self,
            Level::Explicit(_) => self,
            Level::Implicit(block, inside) => {
                let item = Block {
                    is_empty: true,
                    has_equals: false,
                    ..block
                };
                Level::Implicit(item, inside)
            }
        }
    }

    /// The block with an item that is not empty.
    pub fn with_filled_item(self) -> Level
        ensures { result ≡ filled_item_of self }
    {
        match self {
            Level::Ground => self,
            Level::Explicit(_) => self,
            Level::Implicit(block, inside) => {
                let item = Block {
                    is_empty: false,
                    ..block
                };
                Level::Implicit(item, inside)
            }
        }
    }

    /// The block with an item that has an `=`.
    pub fn with_equals(self) -> Level
        ensures { result ≡ equals_item_of self }
    {
        match self {
            Level::Ground => self,
            Level::Explicit(_) => self,
            Level::Implicit(block, inside) => {
                let item = Block {
                    has_equals: true,
                    ..block
                };
                Level::Implicit(item, inside)
            }
        }
    }
}

/// One thing below the topmost block or above it.
#[derive(Clone, Copy, Debug, PartialEq, Eq)]
pub enum Kept {
    /// An opening and its place.
    Opened(Opening, u32),
    /// The next block below the one that stands here.
    Below(Level),
}

/// A pile, the last thing first to contracts.
#[derive(Debug, Drop)]
pub struct Pile {
    items: Vec<Kept>,
}

impl Model for Pile {
    ghost use Rattle.std.specs.Prelude.{List, reverse};
    ghost use Rattle.gh_layout.specs.declared.pile.Kept.{Kept};

    ghost Value = { List Kept };

    ghost view = { λ p. reverse p.items.items };
}

impl Pile {
    /// The empty pile.
    pub fn new(alloc: Global) -> Pile
        ensures { result ≡ [] }
    {
        Pile {
            items: Vec::new(alloc),
        }
    }

    /// Puts a thing on top.
    pub fn push(&mut self, item: Kept) -> Result<(), NoMemory>
        ensures ok { OnOk result (self.new ≡ item ∷ self.old) }
        ensures err { OnErr result (self.new ≡ self.old) }
    {
        self.items.push(item)?;
        Ok(())
    }

    /// The thing on top.
    pub fn top(&self) -> Option<Kept>
        ensures { result ≡ first_of self.now }
    {
        self.items.last().copied()
    }

    /// Takes the thing on top away.
    pub fn pop(&mut self) -> Option<Kept>
        ensures { MatchOption result ((self.old ≡ []) × (self.new ≡ [])) (λ item. self.old ≡ item ∷ self.new) }
    {
        self.items.pop()
    }
}
