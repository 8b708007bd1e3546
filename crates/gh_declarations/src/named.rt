// What a list of declarations declares, and how a rule on declarations fails.
ghost use Rattle.std.specs.Prelude.{◌≡◌};
ghost use Rattle.gh_declarations.specs.Names as spec;

use gh_base::fixed::COLON;
use gh_base::{NameId, Span};
use gh_tree::{Con, ConOp, Constr, Name, Op, Var, VarOp};

/// A name where it is declared, its parentheses or backquotes included.
#[derive(Clone, Copy)]
pub struct Named {
    /// Its bytes.
    pub span: Span,
    /// Its text.
    pub name: NameId,
}

/// What a name is declared as.
#[derive(Clone, Copy)]
pub enum Sort {
    /// A variable, a constructor or a generic function.
    Value,
    /// A type or a synonym.
    Type,
    /// A name with a type signature.
    Signature,
    /// An operator with a fixity.
    Fixity,
}

/// A clause of a function, or a variable's binding (Haskell 98 Report, 4.4.3).
#[derive(Clone, Copy)]
pub struct Clause {
    /// The bytes of the clause.
    pub span: Span,
    /// The name that it defines.
    pub named: Named,
    /// How many arguments it has.
    pub arguments: usize,
}

/// What one declaration declares, name by name.
#[derive(Clone, Copy)]
pub enum Declared {
    /// A clause of a function, or a variable's binding.
    Clause(Clause),
    /// A name.
    Name(Sort, Named),
    /// No name, but clauses on both sides of it are not adjacent.
    Other,
}

/// A rule on declarations.
#[derive(Clone, Copy)]
pub enum Rule {
    /// A second definition, signature or fixity of one name in a list of declarations.
    Double,
    /// A clause with another number of arguments than the first of its definition.
    Unequal,
    /// A variable twice in one list of patterns, or in the head of one declaration.
    Repeated,
    /// A signature or fixity of a name that its list of declarations does not define.
    Alone,
}

/// A rule that fails, and where.
#[derive(Clone, Copy)]
pub struct Failure {
    /// The rule.
    pub rule: Rule,
    /// The bytes that are refused.
    pub span: Span,
    /// The name that is refused.
    pub name: NameId,
}

/// A rule that fails at a name.
pub fn fails_at(rule: Rule, named: Named) -> Failure
    ensures { result ≡ spec.failure rule named }
{
    Failure {
        rule,
        span: named.span,
        name: named.name,
    }
}

fn alone(name: &Name) -> Named
    ensures { result ≡ spec.alone name.now }
{
    Named {
        span: name.span,
        name: name.id,
    }
}

fn between(start: &Span, name: &Name, end: &Span) -> Named
    ensures { result ≡ spec.between start.now name.now end.now }
{
    Named {
        span: Span {
            file: start.file,
            from: start.from,
            to: end.to,
        },
        name: name.id,
    }
}

/// A name that is one token.
pub fn word(name: &Name) -> Named
    ensures { result ≡ spec.alone name.now }
{
    alone(name)
}

/// A variable, with or without parentheses.
pub fn var(var: &Var) -> Named
    ensures { result ≡ spec.var_named var.now }
{
    match var {
        Var::Word(name) => alone(name),
        Var::Symbol(open, name, close) => between(open, name, close),
    }
}

/// A variable operator, with or without backquotes.
pub fn var_op(op: &VarOp) -> Named
    ensures { result ≡ spec.var_op_named op.now }
{
    match op {
        VarOp::Symbol(name) => alone(name),
        VarOp::Quoted(open, name, close) => between(open, name, close),
    }
}

/// A constructor, with or without parentheses.
pub fn con(con: &Con) -> Named
    ensures { result ≡ spec.con_named con.now }
{
    match con {
        Con::Word(name) => alone(name),
        Con::Symbol(open, name, close) => between(open, name, close),
    }
}

/// A constructor operator, with or without backquotes.
pub fn con_op(op: &ConOp) -> Named
    ensures { result ≡ spec.con_op_named op.now }
{
    match op {
        ConOp::Symbol(name) => alone(name),
        ConOp::Colon(span) => Named {
            span: *span,
            name: COLON,
        },
        ConOp::Quoted(open, name, close) => between(open, name, close),
    }
}

/// An operator.
pub fn op(op: &Op) -> Named
    ensures { result ≡ spec.op_named op.now }
{
    match op {
        Op::Var(op) => var_op(op),
        Op::Con(op) => con_op(op),
    }
}

/// The constructor that a part of a datatype declares.
pub fn constr(constr: &Constr) -> Named
    ensures { result ≡ spec.constr_named constr.now }
{
    match constr {
        Constr::Prefix(_, name, _) => con(name),
        Constr::Infix(_, _, op, _) => con_op(op),
    }
}
