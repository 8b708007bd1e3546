// Names in export lists.
ghost use Rattle.std.specs.Prelude.{◌≡◌};
ghost use Rattle.gh_tree.specs.ReadExports as spec;
ghost use Rattle.gh_reader.specs.Reads.{Reads};

use gh_base::Span;
use gh_reader::{Stop, Tokens, close};
use gh_tree::{Con, Kind, Name, Var};

// A variable operator.
#[tactic(auto, unfolding(gh_tree::specs::ReadExports::sym_name))]
fn sym_name(tokens: &mut Tokens<'_>) -> Result<Name, Stop>
    ensures { Reads (spec.sym_name tokens.old) result tokens.new }
{
    match tokens.kind() {
        Some(Kind::VarSym(qualifier, id)) => Ok(Name {
            span: tokens.take(),
            qualifier: *qualifier,
            id: *id,
        }),
        _ => Err(Stop::NoParse),
    }
}

// A variable operator and `)`.
#[tactic(auto, unfolding(gh_tree::specs::ReadExports::symbol_any))]
fn symbol_any(tokens: &mut Tokens<'_>, left: Span) -> Result<Var, Stop>
    ensures { Reads (spec.symbol_any left tokens.old) result tokens.new }
{
    let name = sym_name(tokens)?;
    let close = close(tokens)?;
    Ok(Var::Symbol(left, name, close))
}

/// A variable, with a qualifier or none.
#[tactic(auto, unfolding(gh_tree::specs::ReadExports::any_var))]
pub fn any_var(tokens: &mut Tokens<'_>) -> Result<Var, Stop>
    ensures { Reads (spec.any_var tokens.old) result tokens.new }
{
    match tokens.kind() {
        Some(Kind::VarId(qualifier, id)) => Ok(Var::Word(Name {
            span: tokens.take(),
            qualifier: *qualifier,
            id: *id,
        })),
        Some(Kind::Open) => {
            let left = tokens.take();
            symbol_any(tokens, left)
        }
        _ => Err(Stop::NoParse),
    }
}

// A constructor operator without a qualifier.
#[tactic(auto, unfolding(gh_tree::specs::ReadExports::plain_con_sym))]
fn plain_con_sym(tokens: &mut Tokens<'_>) -> Result<Name, Stop>
    ensures { Reads (spec.plain_con_sym tokens.old) result tokens.new }
{
    match tokens.kind() {
        Some(Kind::ConSym(None, id)) => Ok(Name {
            span: tokens.take(),
            qualifier: None,
            id: *id,
        }),
        _ => Err(Stop::NoParse),
    }
}

// A constructor operator and `)`.
#[tactic(auto, unfolding(gh_tree::specs::ReadExports::symbol_con))]
fn symbol_con(tokens: &mut Tokens<'_>, left: Span) -> Result<Con, Stop>
    ensures { Reads (spec.symbol_con left tokens.old) result tokens.new }
{
    let name = plain_con_sym(tokens)?;
    let close = close(tokens)?;
    Ok(Con::Symbol(left, name, close))
}

/// A constructor without a qualifier.
#[tactic(auto, unfolding(gh_tree::specs::ReadExports::con))]
pub fn con(tokens: &mut Tokens<'_>) -> Result<Con, Stop>
    ensures { Reads (spec.con tokens.old) result tokens.new }
{
    match tokens.kind() {
        Some(Kind::ConId(None, id)) => Ok(Con::Word(Name {
            span: tokens.take(),
            qualifier: None,
            id: *id,
        })),
        Some(Kind::Open) => {
            let left = tokens.take();
            symbol_con(tokens, left)
        }
        _ => Err(Stop::NoParse),
    }
}

/// A module's name, or another name of its class without a qualifier.
#[tactic(auto, unfolding(gh_tree::specs::ReadExports::module_name))]
pub fn module_name(tokens: &mut Tokens<'_>) -> Result<Name, Stop>
    ensures { Reads (spec.module_name tokens.old) result tokens.new }
{
    match tokens.kind() {
        Some(Kind::ConId(None, id)) => Ok(Name {
            span: tokens.take(),
            qualifier: None,
            id: *id,
        }),
        _ => Err(Stop::NoParse),
    }
}
