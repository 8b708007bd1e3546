// Types as they are written (Haskell 98 Report, 4.1.2).
use crate::names::Name;
use gh_base::{ListOf, Span};
use sqlite_items::Boxed;

/// Types with arrows between them.
#[cycle(types)]
#[derive(Drop)]
pub struct TypeExpr {
    /// Its bytes.
    pub span: Span,
    /// The first type.
    pub first: BType,
    /// Each arrow, with the type behind it.
    pub arrows: ListOf<Arrow>,
}

/// `->` and a type.
#[cycle(types)]
#[derive(Drop)]
pub struct Arrow {
    /// The arrow.
    pub mark: Span,
    /// The type.
    pub to: BType,
}

/// A type applied to arguments.
#[cycle(types)]
#[derive(Drop)]
pub struct BType {
    /// Its bytes.
    pub span: Span,
    /// What is applied.
    pub head: ArgType,
    /// The arguments, of which there may be none.
    pub args: ListOf<ArgType>,
}

/// A type that may stand as an argument. Where it is more than a name, its span comes first.
#[cycle(types)]
#[derive(Drop)]
pub enum ArgType {
    /// A type's name.
    Con(Name),
    /// A type variable.
    Var(Name),
    /// `()`
    Unit(Span, Span, Span),
    /// `[]`
    NoList(Span, Span, Span),
    /// `(->)`
    NoArrow(Span, Span, Span, Span),
    /// `(,)` and so on, with the commas.
    NoTuple(Span, Span, ListOf<Span>, Span),
    /// A type between parentheses.
    Paren(Span, Span, Boxed<TypeExpr>, Span),
    /// A tuple of 2 to 7 parts.
    Tuple(Span, Span, Boxed<TypeExpr>, ListOf<TypePart>, Span),
    /// The type of lists of a type.
    List(Span, Span, Boxed<TypeExpr>, Span),
}

/// A comma, and a part of a tuple.
#[cycle(types)]
#[derive(Drop)]
pub struct TypePart {
    /// The comma.
    pub mark: Span,
    /// The part.
    pub part: TypeExpr,
}
