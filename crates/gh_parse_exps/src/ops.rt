// Operators, and which names come next.
ghost use Rattle.std.specs.Prelude.{option_copied, ◌≡◌};
ghost use Rattle.gh_tree.specs.Read as read;
ghost use Rattle.gh_tree.specs.Print as printed;
ghost use Rattle.gh_reader.specs.Reads.{Reads};
ghost use Rattle.gh_parse_exps.specs.Ops as spec;

use crate::marks::backquote;
use gh_base::Span;
use gh_base::fixed::MINUS;
use gh_reader::{Stop, Tokens, gen_con_next, is_close};
use gh_tree::{ConOp, Kind, Name, Op, VarOp};

// Whether this is a variable operator.
fn is_sym(kind: Option<&Kind>) -> bool
    ensures { result ≡ spec.is_sym (option_copied kind.entry) }
{
    matches!(kind, Some(Kind::VarSym(..)))
}

// Whether this is `{|`.
fn is_banana(kind: Option<&Kind>) -> bool
    ensures { result ≡ spec.is_banana (option_copied kind.entry) }
{
    matches!(kind, Some(Kind::OpenBanana))
}

// What the fourth token from here is.
fn fourth<'a>(tokens: &Tokens<'a>) -> Option<&'a Kind>
    ensures { option_copied result ≡ read.kind (read.after (read.after (read.after tokens.now))) }
{
    match tokens.rest() {
        [_, _, _, fourth, ..] => Some(&fourth.kind),
        _ => None,
    }
}

/// Whether a variable comes next, with a qualifier or none.
#[tactic(auto, unfolding(crate::specs::Ops::any_var_next))]
pub fn any_var_next(tokens: &Tokens<'_>) -> bool
    ensures { result ≡ spec.any_var_next tokens.now }
{
    match tokens.kind() {
        Some(Kind::VarId(..)) => true,
        Some(Kind::Open) => is_sym(tokens.second()) && is_close(tokens.third()),
        _ => false,
    }
}

/// Whether a constructor comes next as an operand.
#[tactic(auto, unfolding(crate::specs::Ops::con_next, gh_tree::specs::ReadNames::gen_con_next))]
pub fn con_next(tokens: &Tokens<'_>) -> bool
    ensures { result ≡ spec.con_next tokens.now }
{
    match tokens.kind() {
        Some(Kind::Open) => match tokens.second() {
            Some(Kind::ConSym(..)) => is_close(tokens.third()),
            _ => gen_con_next(tokens),
        },
        _ => gen_con_next(tokens),
    }
}

/// What stands behind a variable that comes next.
#[tactic(auto, unfolding(crate::specs::Ops::behind_var))]
pub fn behind_var<'a>(tokens: &Tokens<'a>) -> Option<&'a Kind>
    ensures { option_copied result ≡ spec.behind_var tokens.now }
{
    match tokens.kind() {
        Some(Kind::Open) => fourth(tokens),
        _ => tokens.second(),
    }
}

/// Whether a variable and `{|` come next.
#[tactic(auto, unfolding(crate::specs::Ops::call_next))]
pub fn call_next(tokens: &Tokens<'_>) -> bool
    ensures { result ≡ spec.call_next tokens.now }
{
    any_var_next(tokens) && is_banana(behind_var(tokens))
}

// Whether an operator begins.
fn is_op(kind: Option<&Kind>) -> bool
    ensures { result ≡ spec.is_op (option_copied kind.entry) }
{
    match kind {
        Some(Kind::VarSym(..)) | Some(Kind::ConSym(..)) => true,
        Some(Kind::Colon) | Some(Kind::Backquote) => true,
        _ => false,
    }
}

// Whether this is a minus sign.
fn is_minus(kind: Option<&Kind>) -> bool
    ensures { result ≡ spec.is_minus (option_copied kind.entry) }
{
    match kind {
        Some(Kind::VarSym(None, name)) => name.0 == MINUS.0,
        _ => false,
    }
}

// What stands behind an operator that comes next.
#[tactic(auto, unfolding(crate::specs::Ops::behind_op))]
fn behind_op<'a>(tokens: &Tokens<'a>) -> Option<&'a Kind>
    ensures { option_copied result ≡ spec.behind_op tokens.now }
{
    match tokens.kind() {
        Some(Kind::Backquote) => fourth(tokens),
        _ => tokens.second(),
    }
}

/// Whether an operator comes next that is not the last of a section.
#[tactic(auto, unfolding(crate::specs::Ops::goes_on))]
pub fn goes_on(tokens: &Tokens<'_>) -> bool
    ensures { result ≡ spec.goes_on tokens.now }
{
    is_op(tokens.kind()) && !is_close(behind_op(tokens))
}

/// Whether an operator comes next that is no minus sign.
pub fn right_next(tokens: &Tokens<'_>) -> bool
    ensures { result ≡ spec.right_next tokens.now }
{
    is_op(tokens.kind()) && !is_minus(tokens.kind())
}

// A name and a backquote.
#[tactic(auto, unfolding(crate::specs::Ops::quoted))]
fn quoted(tokens: &mut Tokens<'_>, left: Span) -> Result<Op, Stop>
    ensures { Reads (spec.quoted left tokens.old) result tokens.new }
{
    match tokens.kind() {
        Some(Kind::VarId(qualifier, id)) => {
            let name = Name {
                span: tokens.take(),
                qualifier: *qualifier,
                id: *id,
            };
            Ok(Op::Var(VarOp::Quoted(left, name, backquote(tokens)?)))
        }
        Some(Kind::ConId(qualifier, id)) => {
            let name = Name {
                span: tokens.take(),
                qualifier: *qualifier,
                id: *id,
            };
            Ok(Op::Con(ConOp::Quoted(left, name, backquote(tokens)?)))
        }
        _ => Err(Stop::NoParse),
    }
}

/// An operator.
#[tactic(auto, unfolding(crate::specs::Ops::op))]
pub fn op(tokens: &mut Tokens<'_>) -> Result<Op, Stop>
    ensures { Reads (spec.op tokens.old) result tokens.new }
{
    match tokens.kind() {
        Some(Kind::VarSym(qualifier, id)) => Ok(Op::Var(VarOp::Symbol(Name {
            span: tokens.take(),
            qualifier: *qualifier,
            id: *id,
        }))),
        Some(Kind::ConSym(qualifier, id)) => Ok(Op::Con(ConOp::Symbol(Name {
            span: tokens.take(),
            qualifier: *qualifier,
            id: *id,
        }))),
        Some(Kind::Colon) => Ok(Op::Con(ConOp::Colon(tokens.take()))),
        Some(Kind::Backquote) => {
            let left = tokens.take();
            quoted(tokens, left)
        }
        _ => Err(Stop::NoParse),
    }
}

// Whether an operator that is a variable has no qualifier.
fn plain_var_op(op: &VarOp) -> bool
    ensures { result ≡ printed.plain_var_op op.now }
{
    match op {
        VarOp::Symbol(name) | VarOp::Quoted(_, name, _) => name.qualifier.is_none(),
    }
}

// Whether an operator that is a constructor has no qualifier.
fn plain_con_op(op: &ConOp) -> bool
    ensures { result ≡ printed.plain_con_op op.now }
{
    match op {
        ConOp::Colon(_) => true,
        ConOp::Symbol(name) | ConOp::Quoted(_, name, _) => name.qualifier.is_none(),
    }
}

// Whether an operator has no qualifier.
fn plain_op(op: &Op) -> bool
    ensures { result ≡ printed.plain_op op.now }
{
    match op {
        Op::Var(op) => plain_var_op(op),
        Op::Con(op) => plain_con_op(op),
    }
}

/// An operator without a qualifier.
#[tactic(auto, unfolding(crate::specs::Ops::defined_op))]
pub fn defined_op(tokens: &mut Tokens<'_>) -> Result<Op, Stop>
    ensures { Reads (spec.defined_op tokens.old) result tokens.new }
{
    let op = op(tokens)?;
    if !plain_op(&op) {
        return Err(Stop::NoParse);
    }
    Ok(op)
}

/// The minus sign before an operand, where one is written.
#[tactic(auto, unfolding(crate::specs::Ops::minus_sign))]
pub fn minus_sign(tokens: &mut Tokens<'_>) -> Option<Span>
    ensures { spec.minus_sign tokens.old ≡ read.taken result tokens.new }
{
    if is_minus(tokens.kind()) {
        return Some(tokens.take());
    }
    None
}
