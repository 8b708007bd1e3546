// Patterns and the left sides of functions, with their names resolved.
use crate::names::{GenCon, Occurrence};
use gh_base::{ListOf, Span};
use sqlite_items::{Boxed, Items};

/// A pattern. It is arranged where no `Listed` in it has an operator.
#[cycle(resolved_patterns)]
#[derive(Drop)]
pub enum Pattern {
    /// Operands with constructor operators between them, as they are written.
    Listed(Span, PatOperand, Items<NextPattern>),
    /// An operator with its left and its right operand.
    Infix(Span, Boxed<Pattern>, Occurrence, Boxed<Pattern>),
}

/// An operator, and the operand behind it.
#[cycle(resolved_patterns)]
#[derive(Drop)]
pub struct NextPattern {
    /// The operator.
    pub op: Occurrence,
    /// The operand.
    pub operand: PatOperand,
}

/// An operand of a pattern.
#[cycle(resolved_patterns)]
#[derive(Drop)]
pub enum PatOperand {
    /// A negative integer, by its digits.
    Negative(Span, u64),
    /// A pattern that may be an argument.
    Arg(Boxed<ArgPattern>),
    /// A constructor with its arguments, of which there is one at least.
    Con(Span, GenCon, Items<ArgPattern>),
}

/// A pattern that may stand as an argument.
#[cycle(resolved_patterns)]
#[derive(Drop)]
pub enum ArgPattern {
    /// A variable.
    Var(Occurrence),
    /// A variable, `@`, and a pattern.
    As(Span, Occurrence, Boxed<ArgPattern>),
    /// `_`
    Wild(Span),
    /// A constructor.
    Con(GenCon),
    /// An integer.
    Int(Span, u64),
    /// A character.
    Char(Span, char),
    /// A string.
    Str(Span, ListOf<char>),
    /// A pattern between parentheses.
    Paren(Span, Boxed<Pattern>),
    /// A tuple of 2 to 7 parts.
    Tuple(Span, Items<Pattern>),
    /// A list of one part at least.
    List(Span, Items<Pattern>),
}

/// The left side of a function's clause.
#[derive(Drop)]
pub enum FunLhs {
    /// A variable with its arguments, of which there may be none.
    Prefix(Span, Occurrence, Items<ArgPattern>),
    /// A variable operator between two patterns.
    Infix(Span, Pattern, Occurrence, Pattern),
    /// A left side between parentheses with arguments, of which there is one at least.
    Nested(Span, Boxed<FunLhs>, Items<ArgPattern>),
}
