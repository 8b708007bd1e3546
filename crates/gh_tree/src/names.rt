// Names, operators and the marks of blocks, as they stand in a tree.
use gh_base::{ListOf, NameId, Span};

/// A name that is one token, with its qualifier where it has one.
#[derive(Clone, Copy, Debug, PartialEq, Eq)]
pub struct Name {
    /// Its bytes, the qualifier included.
    pub span: Span,
    /// Its qualifier.
    pub qualifier: Option<NameId>,
    /// Its last part.
    pub id: NameId,
}

/// A variable (Haskell 98 Report, 3.2): `x`, or `(+)` with its two parentheses.
#[derive(Clone, Copy, Debug, PartialEq, Eq)]
pub enum Var {
    /// A variable name.
    Word(Name),
    /// A variable operator between parentheses.
    Symbol(Span, Name, Span),
}

/// A constructor (Haskell 98 Report, 3.2): `C`, or `(:+)` with its two parentheses.
#[derive(Clone, Copy, Debug, PartialEq, Eq)]
pub enum Con {
    /// A constructor name.
    Word(Name),
    /// A constructor operator between parentheses.
    Symbol(Span, Name, Span),
}

/// An operator that is a variable: `+`, or a name with its two backquotes.
#[derive(Clone, Copy, Debug, PartialEq, Eq)]
pub enum VarOp {
    /// A variable operator.
    Symbol(Name),
    /// A variable name between backquotes.
    Quoted(Span, Name, Span),
}

/// An operator that is a constructor: `:+`, `:`, or a name with its two backquotes.
#[derive(Clone, Copy, Debug, PartialEq, Eq)]
pub enum ConOp {
    /// A constructor operator.
    Symbol(Name),
    /// `:`
    Colon(Span),
    /// A constructor name between backquotes.
    Quoted(Span, Name, Span),
}

/// An operator.
#[derive(Clone, Copy, Debug, PartialEq, Eq)]
pub enum Op {
    /// One that is a variable.
    Var(VarOp),
    /// One that is a constructor.
    Con(ConOp),
}

/// A constructor as an operand (Haskell 98 Report, 3.2).
#[derive(Drop)]
pub enum GenCon {
    /// A declared constructor.
    Con(Con),
    /// `()`, by its span and its two marks.
    Unit(Span, Span, Span),
    /// `[]`, by its span and its two marks.
    Nil(Span, Span, Span),
    /// `(,)` and so on: its span, and its marks with the commas.
    Tuple(Span, Span, ListOf<Span>, Span),
}

/// A mark of a block: `{`, `;` or `}`.
#[derive(Clone, Copy, Debug, PartialEq, Eq)]
pub enum BlockMark {
    /// It stands in the file.
    Written(Span),
    /// The layout inserted it before the token of this place.
    Inserted(u32),
}

/// `infixl`, `infixr` or `infix`.
#[derive(Clone, Copy, Debug, PartialEq, Eq)]
pub enum FixityWord {
    /// `infixl`
    Left(Span),
    /// `infixr`
    Right(Span),
    /// `infix`
    Neither(Span),
}

/// A comma, and a variable.
#[derive(Clone, Copy, Debug, PartialEq, Eq)]
pub struct NextVar {
    /// The comma.
    pub mark: Span,
    /// The variable.
    pub var: Var,
}

/// A comma, and a name.
#[derive(Clone, Copy, Debug, PartialEq, Eq)]
pub struct NextName {
    /// The comma.
    pub mark: Span,
    /// The name.
    pub name: Name,
}

/// A comma, and an operator.
#[derive(Clone, Copy, Debug, PartialEq, Eq)]
pub struct NextOp {
    /// The comma.
    pub mark: Span,
    /// The operator.
    pub op: Op,
}
