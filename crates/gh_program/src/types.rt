// Types as they are written, with their names resolved.
use crate::names::Occurrence;
use gh_base::Span;
use sqlite_items::{Boxed, Items};

/// Types with arrows between them.
#[cycle(resolved_types)]
#[derive(Drop)]
pub struct TypeExpr {
    /// Its bytes.
    pub span: Span,
    /// The first type.
    pub first: BType,
    /// The type behind each arrow.
    pub others: Items<BType>,
}

/// A type applied to arguments.
#[cycle(resolved_types)]
#[derive(Drop)]
pub struct BType {
    /// Its bytes.
    pub span: Span,
    /// What is applied.
    pub head: ArgType,
    /// The arguments, of which there may be none.
    pub args: Items<ArgType>,
}

/// A type that may stand as an argument.
#[cycle(resolved_types)]
#[derive(Drop)]
pub enum ArgType {
    /// A datatype or a synonym.
    Con(Occurrence),
    /// A type variable.
    Var(Occurrence),
    /// `()`
    Unit(Span),
    /// `[]`
    NoList(Span),
    /// `(->)`
    NoArrow(Span),
    /// `(,)` and so on, with its number of parts.
    NoTuple(Span, u32),
    /// A type between parentheses.
    Paren(Span, Boxed<TypeExpr>),
    /// A tuple of 2 to 7 parts.
    Tuple(Span, Items<TypeExpr>),
    /// The type of lists of a type.
    List(Span, Boxed<TypeExpr>),
}
