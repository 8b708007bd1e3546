// What a list of operands, or of patterns, is after its parts were arranged.
use crate::part::Part;
use gh_program::{Operands, Pattern};
use sqlite_items::{Boxed, Items};

/// A list of operands, part by part, or what was a tree already.
#[derive(Drop)]
pub enum Walked {
    List(Items<Part>),
    Tree(Boxed<Operands>),
}

/// A list of patterns, part by part, or what was a tree already.
#[derive(Drop)]
pub enum WalkedPattern {
    List(Items<Part>),
    Tree(Boxed<Pattern>),
}
