// The operator that a left side defines.
ghost use Rattle.std.specs.Prelude.{option_copied, ◌≡◌};
ghost use Rattle.gh_tree.specs.Print as printed;
ghost use Rattle.gh_tree.specs.Read as read;
ghost use Rattle.gh_parse_lefts.specs.Operators as spec;
ghost use Rattle.gh_reader.specs.Reads.{Reads};

use gh_base::Span;
use gh_reader::{Stop, Tokens};
use gh_tree::{ConOp, Kind, Name, NextPattern, VarOp};

// Whether this is a variable name without a qualifier.
fn is_var_id(kind: Option<&Kind>) -> bool
    ensures { result ≡ spec.is_var_id (option_copied kind.entry) }
{
    matches!(kind, Some(Kind::VarId(None, _)))
}

/// Whether a variable operator without a qualifier comes next.
#[tactic(auto, unfolding(crate::specs::Operators::var_op_next))]
pub fn var_op_next(tokens: &Tokens<'_>) -> bool
    ensures { result ≡ spec.var_op_next tokens.now }
{
    match tokens.kind() {
        Some(Kind::VarSym(None, _)) => true,
        Some(Kind::Backquote) => is_var_id(tokens.second()),
        _ => false,
    }
}

// A backquote.
fn backquote(tokens: &mut Tokens<'_>) -> Result<Span, Stop>
    ensures { Reads (read.expect read.is_backquote tokens.old) result tokens.new }
{
    match tokens.kind() {
        Some(Kind::Backquote) => Ok(tokens.take()),
        _ => Err(Stop::NoParse),
    }
}

// A variable name without a qualifier.
#[tactic(auto, unfolding(crate::specs::Operators::var_id))]
fn var_id(tokens: &mut Tokens<'_>) -> Result<Name, Stop>
    ensures { Reads (spec.var_id tokens.old) result tokens.new }
{
    match tokens.kind() {
        Some(Kind::VarId(None, id)) => Ok(Name {
            span: tokens.take(),
            qualifier: None,
            id: *id,
        }),
        _ => Err(Stop::NoParse),
    }
}

// A variable name and a backquote.
#[tactic(auto, unfolding(crate::specs::Operators::quoted_var))]
fn quoted_var(tokens: &mut Tokens<'_>, left: Span) -> Result<VarOp, Stop>
    ensures { Reads (spec.quoted_var left tokens.old) result tokens.new }
{
    let name = var_id(tokens)?;
    let right = backquote(tokens)?;
    Ok(VarOp::Quoted(left, name, right))
}

/// A variable operator without a qualifier.
#[tactic(auto, unfolding(crate::specs::Operators::var_op))]
pub fn var_op(tokens: &mut Tokens<'_>) -> Result<VarOp, Stop>
    ensures { Reads (spec.var_op tokens.old) result tokens.new }
{
    match tokens.kind() {
        Some(Kind::VarSym(None, id)) => Ok(VarOp::Symbol(Name {
            span: tokens.take(),
            qualifier: None,
            id: *id,
        })),
        Some(Kind::Backquote) => {
            let left = tokens.take();
            quoted_var(tokens, left)
        }
        _ => Err(Stop::NoParse),
    }
}

// Whether a constructor operator has no qualifier.
fn plain_con_op(op: &ConOp) -> bool
    ensures { result ≡ printed.plain_con_op op.now }
{
    match op {
        ConOp::Symbol(name) => name.qualifier.is_none(),
        ConOp::Colon(_) => true,
        ConOp::Quoted(_, name, _) => name.qualifier.is_none(),
    }
}

/// Whether no operator of these has a qualifier.
pub fn plain_nexts(nexts: &[NextPattern]) -> bool
    ensures { result ≡ printed.plain_nexts nexts.now }
{
    for next in nexts {
        if !plain_con_op(&next.op) {
            return false;
        }
    }
    true
}
