// Patterns, and the left sides of functions (Haskell 98 Report, 3.17 and 4.4.3).
use crate::names::{ConOp, GenCon, Var, VarOp};
use gh_base::{ListOf, Span};
use sqlite_items::Boxed;

/// Operands with constructor operators between them.
#[cycle(patterns)]
#[derive(Drop)]
pub struct Pattern {
    /// Its bytes.
    pub span: Span,
    /// The first operand.
    pub first: PatOperand,
    /// Each operator, with the operand behind it.
    pub others: ListOf<NextPattern>,
}

/// An operator, and the operand behind it.
#[cycle(patterns)]
#[derive(Drop)]
pub struct NextPattern {
    /// The operator.
    pub op: ConOp,
    /// The operand.
    pub operand: PatOperand,
}

/// An operand of a pattern.
#[cycle(patterns)]
#[derive(Drop)]
pub enum PatOperand {
    /// A negative integer: its span, the minus sign, and the integer with its bytes.
    Negative(Span, Span, Span, u64),
    /// A pattern that may be an argument.
    Arg(Boxed<ArgPattern>),
    /// A constructor with its arguments, of which there is one at least.
    Con(Span, GenCon, Boxed<ArgPattern>, ListOf<ArgPattern>),
}

/// A pattern that may stand as an argument. Where it is more than a name, its span comes first.
#[cycle(patterns)]
#[derive(Drop)]
pub enum ArgPattern {
    /// A variable.
    Var(Var),
    /// A variable, `@`, and a pattern.
    As(Span, Var, Span, Boxed<ArgPattern>),
    /// `_`
    Wild(Span),
    /// A constructor.
    Con(GenCon),
    /// An integer.
    Int(Span, u64),
    /// A character.
    Char(Span, char),
    /// A string.
    Str(Span, ListOf<char>),
    /// A pattern between parentheses.
    Paren(Span, Span, Boxed<Pattern>, Span),
    /// A tuple of 2 to 7 parts.
    Tuple(Span, Span, Boxed<Pattern>, ListOf<PatPart>, Span),
    /// A list of one part at least.
    List(Span, Span, Boxed<Pattern>, ListOf<PatPart>, Span),
}

/// A comma, and a part of a tuple or list.
#[cycle(patterns)]
#[derive(Drop)]
pub struct PatPart {
    /// The comma.
    pub mark: Span,
    /// The part.
    pub part: Pattern,
}

/// The left side of a function's clause.
#[derive(Drop)]
pub enum FunLhs {
    /// A variable with its arguments, of which there may be none.
    Prefix(Span, Var, ListOf<ArgPattern>),
    /// A variable operator between operands, each side with its constructor operators.
    Infix(Span, PatOperand, ListOf<NextPattern>, VarOp, PatOperand, ListOf<NextPattern>),
    /// A left side between parentheses with arguments, of which there is one at least.
    Nested(Span, Span, Boxed<FunLhs>, Span, Boxed<ArgPattern>, ListOf<ArgPattern>),
}
