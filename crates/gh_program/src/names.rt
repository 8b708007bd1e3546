// Names with what they stand for.
use gh_base::{NameId, Origin, Span};

/// What a name stands for.
#[derive(Clone, Copy, Debug, PartialEq, Eq)]
pub enum Referent {
    /// A definition at the top of a module.
    Top(Origin),
    /// A local one: the number of a variable of a pattern, of a local binding or of a type. Different ones of one top
    /// item have different numbers.
    Local(u32),
}

/// A name where it is defined or used.
#[derive(Clone, Copy, Debug, PartialEq, Eq)]
pub struct Occurrence {
    /// Its bytes, its qualifier and its parentheses or backquotes included.
    pub span: Span,
    /// How it is written, without its qualifier.
    pub name: NameId,
    /// What it stands for.
    pub referent: Referent,
}

/// A constructor as an operand (Haskell 98 Report, 3.2).
#[derive(Clone, Copy, Debug, PartialEq, Eq)]
pub enum GenCon {
    /// A declared constructor.
    Con(Occurrence),
    /// `()`
    Unit(Span),
    /// `[]`
    Nil(Span),
    /// `(,)` and so on, with its number of parts.
    Tuple(Span, u32),
}

/// `infixl`, `infixr` or `infix`.
#[derive(Clone, Copy, Debug, PartialEq, Eq)]
pub enum FixityWord {
    /// `infixl`
    Left,
    /// `infixr`
    Right,
    /// `infix`
    Neither,
}
