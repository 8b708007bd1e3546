// Headers.
ghost use Rattle.std.specs.Prelude.{◌≡◌, MatchResult};
ghost use Rattle.gh_tree.specs.Read as read;
ghost use Rattle.gh_parse_heads.specs.Header as spec;
ghost use Rattle.gh_parse_heads.specs.Header.{Spells, Refuses};
ghost use Rattle.gh_reader.specs.Reads.{Reads};

use crate::lists::exports;
use crate::names::module_name;
use gh_base::Span;
use gh_reader::{Stop, Tokens};
use gh_tree::{Exports, Header, Kind, Sym};
use std::alloc::Global;

// `module`
fn module_mark(tokens: &mut Tokens<'_>) -> Result<Span, Stop>
    ensures { Reads (read.expect spec.is_module tokens.old) result tokens.new }
{
    match tokens.kind() {
        Some(Kind::Module) => Ok(tokens.take()),
        _ => Err(Stop::NoParse),
    }
}

// `where`
fn where_mark(tokens: &mut Tokens<'_>) -> Result<Span, Stop>
    ensures { Reads (read.expect spec.is_where tokens.old) result tokens.new }
{
    match tokens.kind() {
        Some(Kind::Where) => Ok(tokens.take()),
        _ => Err(Stop::NoParse),
    }
}

// An export list, where one comes next.
#[tactic(auto, unfolding(crate::specs::Header::any_exports))]
fn any_exports(alloc: Global, tokens: &mut Tokens<'_>) -> Result<Option<Exports>, Stop>
    ensures { Reads (spec.any_exports tokens.old) result tokens.new }
{
    match tokens.kind() {
        Some(Kind::Open) => Ok(Some(exports(alloc, tokens)?)),
        _ => Ok(None),
    }
}

#[tactic(auto, unfolding(crate::specs::Header::header))]
fn header(alloc: Global, tokens: &mut Tokens<'_>) -> Result<Header, Stop>
    ensures { Reads (spec.header tokens.old) result tokens.new }
{
    let start = tokens.rest();
    let mark = module_mark(tokens)?;
    let name = module_name(tokens)?;
    let exports = any_exports(alloc, tokens)?;
    let begins = where_mark(tokens)?;
    Ok(Header {
        span: tokens.since(start),
        mark,
        name,
        exports,
        begins,
    })
}

/// The one header whose tokens these are, or none where there are none.
pub fn parse_header(alloc: Global, syms: &[Sym]) -> Result<Option<Header>, Stop>
    ensures { MatchResult result (Spells syms.now) (λ e. Refuses e syms.now) }
{
    let mut tokens = Tokens::new(syms);
    if tokens.is_empty() {
        return Ok(None);
    }
    let found = header(alloc, &mut tokens)?;
    if !tokens.is_empty() {
        return Err(Stop::NoParse);
    }
    Ok(Some(found))
}
