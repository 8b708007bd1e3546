// Expressions, declarations, alternatives and guards, with their names resolved.
use crate::names::{FixityWord, GenCon, Occurrence};
use crate::patterns::{ArgPattern, FunLhs, Pattern};
use crate::types::TypeExpr;
use gh_base::{ListOf, Span};
use sqlite_items::{Boxed, Items};

/// An expression.
#[cycle(resolved_exps)]
#[derive(Drop)]
pub enum Exp {
    /// Operands.
    Plain(Boxed<Operands>),
    /// Operands and their type.
    Typed(Span, Boxed<Operands>, Boxed<TypeExpr>),
}

/// Operands. They are arranged where no `Listed` in them has an operator or a minus sign.
#[cycle(resolved_exps)]
#[derive(Drop)]
pub enum Operands {
    /// Operands with operators between them, as they are written, each with a minus sign or none.
    Listed(Span, Option<Span>, Operand, Items<NextOperand>),
    /// An operator with its left and its right operand.
    Infix(Span, Boxed<Operands>, Occurrence, Boxed<Operands>),
    /// A minus sign, by its bytes, with its operand.
    Negate(Span, Span, Boxed<Operands>),
}

/// An operator, and the operand behind it.
#[cycle(resolved_exps)]
#[derive(Drop)]
pub struct NextOperand {
    /// The operator.
    pub op: Occurrence,
    /// The minus sign of the operand.
    pub minus: Option<Span>,
    /// The operand.
    pub operand: Operand,
}

/// An operand of an expression.
#[cycle(resolved_exps)]
#[derive(Drop)]
pub enum Operand {
    /// An expression with its arguments, of which there may be none.
    Apply(Span, Boxed<Aexp>, Items<Aexp>),
    /// `case`: an expression and alternatives, of which there is one at least.
    Case(Span, Exp, Items<Alt>),
    /// One that goes on to the right as far as it can.
    Open(Boxed<Open>),
}

/// An operand that goes on to the right as far as it can.
#[cycle(resolved_exps)]
#[derive(Drop)]
pub enum Open {
    /// A lambda: patterns, of which there is one at least, and an expression.
    Lambda(Span, Items<ArgPattern>, Exp),
    /// `let`: local declarations and an expression.
    Let(Span, Locals, Exp),
    /// A conditional.
    If(Span, Exp, Exp, Exp),
}

/// What stands between `let` and `in`.
#[cycle(resolved_exps)]
#[derive(Drop)]
pub enum Locals {
    /// Declarations.
    Decls(Items<Decl>),
    /// Local redefinitions of generic functions, of which there is one at least.
    Redefs(Items<Redef>),
}

/// A local redefinition of a generic function at a type variable.
#[cycle(resolved_exps)]
#[derive(Drop)]
pub struct Redef {
    /// Its bytes.
    pub span: Span,
    /// The generic function.
    pub function: Occurrence,
    /// The type variable.
    pub variable: Occurrence,
    /// The expression.
    pub body: Exp,
}

/// A declaration.
#[cycle(resolved_exps)]
#[derive(Drop)]
pub enum Decl {
    /// Variables, of which there is one at least, and their type.
    Signature(Span, ListOf<Occurrence>, Boxed<TypeExpr>),
    /// The fixity of operators: the word, the level, which is 9 where none is written, and the operators.
    Fixity(Span, FixityWord, u64, ListOf<Occurrence>),
    /// A clause of a function, or a variable's binding.
    Function(Span, FunLhs, Rhs),
    /// A pattern that is no variable, and its right side.
    Pattern(Span, Pattern, Rhs),
}

/// The right side of a declaration, with its local declarations.
#[cycle(resolved_exps)]
#[derive(Drop)]
pub enum Rhs {
    /// One expression.
    Plain(Span, Exp, Items<Decl>),
    /// Guards, of which there is one at least.
    Guarded(Span, Items<Guard>, Items<Decl>),
}

/// A guard of a right side or of an alternative.
#[cycle(resolved_exps)]
#[derive(Drop)]
pub struct Guard {
    /// Its bytes.
    pub span: Span,
    /// The condition.
    pub test: Boxed<Operands>,
    /// The expression.
    pub body: Exp,
}

/// An alternative of a `case`, with its local declarations.
#[cycle(resolved_exps)]
#[derive(Drop)]
pub enum Alt {
    /// A pattern and one expression.
    Plain(Span, Pattern, Exp, Items<Decl>),
    /// A pattern and guards, of which there is one at least.
    Guarded(Span, Pattern, Items<Guard>, Items<Decl>),
}

/// An expression that may stand as an argument.
#[cycle(resolved_exps)]
#[derive(Drop)]
pub enum Aexp {
    /// A variable.
    Var(Occurrence),
    /// A call of a generic function at a type.
    Generic(Span, Occurrence, Boxed<TypeExpr>),
    /// A constructor.
    Con(GenCon),
    /// An integer.
    Int(Span, u64),
    /// A character.
    Char(Span, char),
    /// A string.
    Str(Span, ListOf<char>),
    /// An expression between parentheses.
    Paren(Span, Exp),
    /// A tuple of 2 to 7 parts.
    Tuple(Span, Items<Exp>),
    /// A list of one part at least.
    List(Span, Items<Exp>),
    /// Operands and an operator that lacks its right operand. Arranged, the operator is the root.
    Left(Span, Boxed<Operands>, Occurrence),
    /// An operator that lacks its left operand, and operands. Arranged, the operator is the root.
    Right(Span, Occurrence, Boxed<Operands>),
}
