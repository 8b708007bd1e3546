// Variables and constructor operators.
ghost use Rattle.std.specs.Prelude.{option_copied, ◌≡◌};
ghost use Rattle.gh_tree.specs.ReadNames as spec;
ghost use Rattle.gh_reader.specs.Reads.{Reads};

use crate::marks::{backquote, close, is_close};
use crate::stop::Stop;
use crate::tokens::Tokens;
use gh_base::Span;
use gh_tree::{ConOp, Kind, Name, Var};

// Whether this is a variable operator without a qualifier.
fn is_plain_sym(kind: Option<&Kind>) -> bool
    ensures { result ≡ spec.is_plain_sym (option_copied kind.entry) }
{
    matches!(kind, Some(Kind::VarSym(None, _)))
}

// Whether this is a constructor name.
fn is_con_id(kind: Option<&Kind>) -> bool
    ensures { result ≡ spec.is_con_id (option_copied kind.entry) }
{
    matches!(kind, Some(Kind::ConId(..)))
}

/// Whether a variable without a qualifier comes next: `x`, or an operator between parentheses.
#[tactic(auto, unfolding(gh_tree::specs::ReadNames::var_next))]
pub fn var_next(tokens: &Tokens<'_>) -> bool
    ensures { result ≡ spec.var_next tokens.now }
{
    match tokens.kind() {
        Some(Kind::VarId(None, _)) => true,
        Some(Kind::Open) => is_plain_sym(tokens.second()) && is_close(tokens.third()),
        _ => false,
    }
}

/// Whether a constructor operator comes next.
#[tactic(auto, unfolding(gh_tree::specs::ReadNames::con_op_next))]
pub fn con_op_next(tokens: &Tokens<'_>) -> bool
    ensures { result ≡ spec.con_op_next tokens.now }
{
    match tokens.kind() {
        Some(Kind::ConSym(..)) | Some(Kind::Colon) => true,
        Some(Kind::Backquote) => is_con_id(tokens.second()),
        _ => false,
    }
}

// A constructor name.
#[tactic(auto, unfolding(gh_tree::specs::ReadNames::con_id))]
fn con_id(tokens: &mut Tokens<'_>) -> Result<Name, Stop>
    ensures { Reads (spec.con_id tokens.old) result tokens.new }
{
    match tokens.kind() {
        Some(Kind::ConId(qualifier, id)) => Ok(Name {
            span: tokens.take(),
            qualifier: *qualifier,
            id: *id,
        }),
        _ => Err(Stop::NoParse),
    }
}

// A variable operator without a qualifier.
#[tactic(auto, unfolding(gh_tree::specs::ReadNames::plain_sym))]
fn plain_sym(tokens: &mut Tokens<'_>) -> Result<Name, Stop>
    ensures { Reads (spec.plain_sym tokens.old) result tokens.new }
{
    match tokens.kind() {
        Some(Kind::VarSym(None, id)) => Ok(Name {
            span: tokens.take(),
            qualifier: None,
            id: *id,
        }),
        _ => Err(Stop::NoParse),
    }
}

// A variable operator and `)`.
#[tactic(auto, unfolding(gh_tree::specs::ReadNames::symbol_var))]
fn symbol_var(tokens: &mut Tokens<'_>, left: Span) -> Result<Var, Stop>
    ensures { Reads (spec.symbol_var left tokens.old) result tokens.new }
{
    let name = plain_sym(tokens)?;
    let close = close(tokens)?;
    Ok(Var::Symbol(left, name, close))
}

/// A variable without a qualifier.
#[tactic(auto, unfolding(gh_tree::specs::ReadNames::var))]
pub fn var(tokens: &mut Tokens<'_>) -> Result<Var, Stop>
    ensures { Reads (spec.var tokens.old) result tokens.new }
{
    match tokens.kind() {
        Some(Kind::VarId(None, id)) => Ok(Var::Word(Name {
            span: tokens.take(),
            qualifier: None,
            id: *id,
        })),
        Some(Kind::Open) => {
            let left = tokens.take();
            symbol_var(tokens, left)
        }
        _ => Err(Stop::NoParse),
    }
}

// A constructor name and a backquote.
#[tactic(auto, unfolding(gh_tree::specs::ReadNames::quoted_con))]
fn quoted_con(tokens: &mut Tokens<'_>, left: Span) -> Result<ConOp, Stop>
    ensures { Reads (spec.quoted_con left tokens.old) result tokens.new }
{
    let name = con_id(tokens)?;
    let right = backquote(tokens)?;
    Ok(ConOp::Quoted(left, name, right))
}

/// A constructor operator.
#[tactic(auto, unfolding(gh_tree::specs::ReadNames::con_op))]
pub fn con_op(tokens: &mut Tokens<'_>) -> Result<ConOp, Stop>
    ensures { Reads (spec.con_op tokens.old) result tokens.new }
{
    match tokens.kind() {
        Some(Kind::ConSym(qualifier, id)) => Ok(ConOp::Symbol(Name {
            span: tokens.take(),
            qualifier: *qualifier,
            id: *id,
        })),
        Some(Kind::Colon) => Ok(ConOp::Colon(tokens.take())),
        Some(Kind::Backquote) => {
            let left = tokens.take();
            quoted_con(tokens, left)
        }
        _ => Err(Stop::NoParse),
    }
}
