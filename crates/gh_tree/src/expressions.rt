// Expressions, declarations, alternatives and guards (Haskell 98 Report, 3 and 4.4).
use crate::names::{BlockMark, FixityWord, GenCon, Name, NextOp, NextVar, Op, Var};
use crate::patterns::{ArgPattern, FunLhs, Pattern};
use crate::types::TypeExpr;
use gh_base::{ListOf, Span};
use sqlite_items::Boxed;

/// An expression.
#[cycle(exps)]
#[derive(Drop)]
pub enum Exp {
    /// Operands with operators between them.
    Plain(Boxed<OperandList>),
    /// Operands, `::` and a type.
    Typed(Span, Boxed<OperandList>, Span, Boxed<TypeExpr>),
}

/// Operands with operators between them, each with a minus sign or none.
#[cycle(exps)]
#[derive(Drop)]
pub struct OperandList {
    /// Its bytes.
    pub span: Span,
    /// The minus sign of the first operand.
    pub minus: Option<Span>,
    /// The first operand.
    pub first: Operand,
    /// The others.
    pub others: ListOf<NextOperand>,
}

/// An operator, and the operand behind it.
#[cycle(exps)]
#[derive(Drop)]
pub struct NextOperand {
    /// The operator.
    pub op: Op,
    /// The minus sign of the operand.
    pub minus: Option<Span>,
    /// The operand.
    pub operand: Operand,
}

/// An operand of an expression.
#[cycle(exps)]
#[derive(Drop)]
pub enum Operand {
    /// An expression with its arguments, of which there may be none.
    Apply(Span, Boxed<Aexp>, ListOf<Aexp>),
    /// `case`, an expression, `of` and alternatives.
    Case(Span, Span, Exp, Span, Boxed<Alts>),
    /// One that goes on to the right as far as it can.
    Open(Boxed<Open>),
}

/// An operand that goes on to the right as far as it can.
#[cycle(exps)]
#[derive(Drop)]
pub enum Open {
    /// `\`, patterns, of which there is one at least, `->` and an expression.
    Lambda(Span, Span, ArgPattern, ListOf<ArgPattern>, Span, Exp),
    /// `let`, local declarations, `in` and an expression.
    Let(Span, Span, Locals, Span, Exp),
    /// `if`, `then` and `else`, each with an expression.
    If(Span, Span, Exp, Span, Exp, Span, Exp),
}

/// What stands between `let` and `in`.
#[cycle(exps)]
#[derive(Drop)]
pub enum Locals {
    /// Declarations.
    Decls(Boxed<Decls>),
    /// Local redefinitions of generic functions ("Exploring Generic Haskell", on local redefinition).
    Redefs(Boxed<Redefs>),
}

/// A block of local redefinitions.
#[cycle(exps)]
#[derive(Drop)]
pub struct Redefs {
    /// Its bytes.
    pub span: Span,
    /// `{`
    pub open: BlockMark,
    /// The `;` before the first redefinition.
    pub before: ListOf<BlockMark>,
    /// The redefinitions.
    pub redefs: ListOf<RedefItem>,
    /// `}`
    pub close: BlockMark,
}

/// A redefinition, and the `;` behind it up to the next.
#[cycle(exps)]
#[derive(Drop)]
pub struct RedefItem {
    /// The redefinition.
    pub redef: Redef,
    /// Each `;`.
    pub marks: ListOf<BlockMark>,
}

/// `function{|variable|} = expression`
#[cycle(exps)]
#[derive(Drop)]
pub struct Redef {
    /// Its bytes.
    pub span: Span,
    /// The generic function.
    pub function: Var,
    /// `{|`
    pub open: Span,
    /// The type variable.
    pub variable: Name,
    /// `|}`
    pub close: Span,
    /// `=`
    pub equals: Span,
    /// The expression.
    pub body: Exp,
}

/// A block of declarations.
#[cycle(exps)]
#[derive(Drop)]
pub struct Decls {
    /// Its bytes.
    pub span: Span,
    /// `{`
    pub open: BlockMark,
    /// The `;` before the first declaration.
    pub before: ListOf<BlockMark>,
    /// The declarations.
    pub decls: ListOf<DeclItem>,
    /// `}`
    pub close: BlockMark,
}

/// A declaration, and the `;` behind it up to the next.
#[cycle(exps)]
#[derive(Drop)]
pub struct DeclItem {
    /// The declaration.
    pub decl: Decl,
    /// Each `;`.
    pub marks: ListOf<BlockMark>,
}

/// A declaration.
#[cycle(exps)]
#[derive(Drop)]
pub enum Decl {
    /// Variables, `::` and their type.
    Signature(Span, Var, ListOf<NextVar>, Span, Boxed<TypeExpr>),
    /// The fixity of operators: the word, the level with its bytes where one is written, and the operators.
    Fixity(Span, FixityWord, Option<(Span, u64)>, Op, ListOf<NextOp>),
    /// A clause of a function, or a variable's binding.
    Function(Span, FunLhs, Rhs),
    /// A pattern that is no variable, and its right side.
    Pattern(Span, Pattern, Rhs),
}

/// The right side of a declaration.
#[cycle(exps)]
#[derive(Drop)]
pub enum Rhs {
    /// `=`, an expression, and local declarations.
    Plain(Span, Span, Exp, Where),
    /// Guards, of which there is one at least, and local declarations.
    Guarded(Span, Guard, ListOf<Guard>, Where),
}

/// `|`, a condition, `=` and an expression.
#[cycle(exps)]
#[derive(Drop)]
pub struct Guard {
    /// Its bytes.
    pub span: Span,
    /// `|`
    pub bar: Span,
    /// The condition.
    pub test: Boxed<OperandList>,
    /// `=`
    pub mark: Span,
    /// The expression.
    pub body: Exp,
}

/// Local declarations behind a right side or an alternative.
#[cycle(exps)]
#[derive(Drop)]
pub enum Where {
    /// There are none.
    Absent,
    /// `where` and a block of declarations.
    Block(Span, Boxed<Decls>),
}

/// A block of alternatives.
#[cycle(exps)]
#[derive(Drop)]
pub struct Alts {
    /// Its bytes.
    pub span: Span,
    /// `{`
    pub open: BlockMark,
    /// The `;` before the first alternative.
    pub before: ListOf<BlockMark>,
    /// The alternatives.
    pub alts: ListOf<AltItem>,
    /// `}`
    pub close: BlockMark,
}

/// An alternative, and the `;` behind it up to the next.
#[cycle(exps)]
#[derive(Drop)]
pub struct AltItem {
    /// The alternative.
    pub alt: Alt,
    /// Each `;`.
    pub marks: ListOf<BlockMark>,
}

/// An alternative of a `case`.
#[cycle(exps)]
#[derive(Drop)]
pub enum Alt {
    /// A pattern, `->`, an expression, and local declarations.
    Plain(Span, Pattern, Span, Exp, Where),
    /// A pattern, guards, of which there is one at least, and local declarations.
    Guarded(Span, Pattern, AltGuard, ListOf<AltGuard>, Where),
}

/// `|`, a condition, `->` and an expression.
#[cycle(exps)]
#[derive(Drop)]
pub struct AltGuard {
    /// Its bytes.
    pub span: Span,
    /// `|`
    pub bar: Span,
    /// The condition.
    pub test: Boxed<OperandList>,
    /// `->`
    pub mark: Span,
    /// The expression.
    pub body: Exp,
}

/// An expression that may stand as an argument. Where it is more than a name, its span comes first.
#[cycle(exps)]
#[derive(Drop)]
pub enum Aexp {
    /// A variable.
    Var(Var),
    /// A call of a generic function at a type.
    Generic(Span, Var, Span, Boxed<TypeExpr>, Span),
    /// A constructor.
    Con(GenCon),
    /// An integer.
    Int(Span, u64),
    /// A character.
    Char(Span, char),
    /// A string.
    Str(Span, ListOf<char>),
    /// An expression between parentheses.
    Paren(Span, Span, Exp, Span),
    /// A tuple of 2 to 7 parts.
    Tuple(Span, Span, Exp, ListOf<Part>, Span),
    /// A list of one part at least.
    List(Span, Span, Exp, ListOf<Part>, Span),
    /// Operands and an operator that lacks its right operand.
    Left(Span, Span, Boxed<OperandList>, Op, Span),
    /// An operator that lacks its left operand, and operands.
    Right(Span, Span, Op, Boxed<OperandList>, Span),
}

/// A comma, and a part of a tuple or list.
#[cycle(exps)]
#[derive(Drop)]
pub struct Part {
    /// The comma.
    pub mark: Span,
    /// The part.
    pub exp: Exp,
}
