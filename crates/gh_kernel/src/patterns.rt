// Patterns.
use crate::names::Lit;
use gh_base::{ListOf, Origin};
use sqlite_items::Boxed;

/// A pattern (Haskell 98 Report, 3.17), each node with its note.
#[cycle(pattern)]
#[derive(Drop)]
pub struct Pattern<A> {
    /// What the pattern is.
    pub node: PatternNode<A>,
    /// What is noted of it.
    pub note: A,
}

/// A pattern without its note.
#[cycle(pattern)]
#[derive(Drop)]
pub enum PatternNode<A> {
    /// A variable, by its number.
    PVar(u32),
    /// `_`.
    PWild,
    /// A constructor with a pattern for each field.
    PCon(Origin, ListOf<Pattern<A>>),
    /// A literal.
    PLit(Lit),
    /// A variable, by its number, that stands for what the pattern matches.
    PAs(u32, Boxed<Pattern<A>>),
}
