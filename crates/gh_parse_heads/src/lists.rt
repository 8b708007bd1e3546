// Export lists.
ghost use Rattle.std.specs.Prelude.{◌≡◌};
ghost use Rattle.gh_tree.specs.Read as read;
ghost use Rattle.gh_tree.specs.ReadExports as spec;
ghost use Rattle.gh_reader.specs.Reads.{Reads};

use crate::names::{any_var, module_name};
use crate::parts::any_parts;
use gh_base::{ListOf, Span};
use gh_reader::{Stop, Tokens, close, is_close, is_comma};
use gh_tree::{Export, ExportList, Exports, Kind, Name, NextExport, Sym};
use std::alloc::Global;

/// `(`
pub fn left_mark(tokens: &mut Tokens<'_>) -> Result<Span, Stop>
    ensures { Reads (read.expect read.is_open tokens.old) result tokens.new }
{
    match tokens.kind() {
        Some(Kind::Open) => Ok(tokens.take()),
        _ => Err(Stop::NoParse),
    }
}

// The constructors of a type, behind its name.
#[tactic(auto, unfolding(gh_tree::specs::ReadExports::con_export))]
fn con_export(
    alloc: Global,
    tokens: &mut Tokens<'_>,
    start: &[Sym],
    name: Name,
) -> Result<Export, Stop>
    ensures { Reads (spec.con_export start.now name tokens.old) result tokens.new }
{
    let parts = any_parts(alloc, tokens)?;
    Ok(Export::Con(tokens.since(start), name, parts))
}

// A module's name, behind `module`.
#[tactic(auto, unfolding(gh_tree::specs::ReadExports::module_export))]
fn module_export(tokens: &mut Tokens<'_>, start: &[Sym], mark: Span) -> Result<Export, Stop>
    ensures { Reads (spec.module_export start.now mark tokens.old) result tokens.new }
{
    let name = module_name(tokens)?;
    Ok(Export::Module(tokens.since(start), mark, name))
}

#[tactic(auto, unfolding(gh_tree::specs::ReadExports::export))]
fn export(alloc: Global, tokens: &mut Tokens<'_>) -> Result<Export, Stop>
    ensures { Reads (spec.export tokens.old) result tokens.new }
{
    let start = tokens.rest();
    match tokens.kind() {
        Some(Kind::ConId(qualifier, id)) => {
            let name = Name {
                span: tokens.take(),
                qualifier: *qualifier,
                id: *id,
            };
            con_export(alloc, tokens, start, name)
        }
        Some(Kind::Module) => {
            let mark = tokens.take();
            module_export(tokens, start, mark)
        }
        _ => Ok(Export::Var(any_var(tokens)?)),
    }
}

// A comma and an export.
#[tactic(auto, unfolding(gh_tree::specs::ReadExports::next_export))]
fn next_export(alloc: Global, tokens: &mut Tokens<'_>) -> Result<NextExport, Stop>
    ensures { Reads (spec.next_export tokens.old) result tokens.new }
{
    let mark = tokens.take();
    let export = export(alloc, tokens)?;
    Ok(NextExport { mark, export })
}

/// Whether a comma comes next, and it is not the last.
pub fn goes_on(tokens: &Tokens<'_>) -> bool
    ensures { result ≡ spec.goes_on tokens.now }
{
    is_comma(tokens.kind()) && !is_close(tokens.second())
}

fn next_exports(alloc: Global, tokens: &mut Tokens<'_>) -> Result<ListOf<NextExport>, Stop>
    ensures { Reads (spec.next_exports tokens.old) result tokens.new }
{
    let mut found = ListOf::new(alloc);
    for _turn in 0..tokens.rest().len() {
        if !goes_on(tokens) {
            return Ok(found);
        }
        found.push(next_export(alloc, tokens)?)?;
    }
    Ok(found)
}

// Exports, of which there is one at least.
#[tactic(auto, unfolding(gh_tree::specs::ReadExports::some_exports))]
fn some_exports(alloc: Global, tokens: &mut Tokens<'_>) -> Result<Option<ExportList>, Stop>
    ensures { Reads (spec.some_exports tokens.old) result tokens.new }
{
    let first = export(alloc, tokens)?;
    let others = next_exports(alloc, tokens)?;
    Ok(Some(ExportList { first, others }))
}

#[tactic(auto, unfolding(gh_tree::specs::ReadExports::export_list))]
fn export_list(alloc: Global, tokens: &mut Tokens<'_>) -> Result<Option<ExportList>, Stop>
    ensures { Reads (spec.export_list tokens.old) result tokens.new }
{
    match tokens.kind() {
        Some(Kind::Close) | Some(Kind::Comma) => Ok(None),
        _ => some_exports(alloc, tokens),
    }
}

/// The comma before the bracket, where there is one.
#[tactic(auto, unfolding(gh_tree::specs::ReadExports::last_comma))]
pub fn last_comma(tokens: &mut Tokens<'_>) -> Option<Span>
    ensures { spec.last_comma tokens.old ≡ read.taken result tokens.new }
{
    match tokens.kind() {
        Some(Kind::Comma) => Some(tokens.take()),
        _ => None,
    }
}

/// An export list.
#[tactic(auto, unfolding(gh_tree::specs::ReadExports::exports))]
pub fn exports(alloc: Global, tokens: &mut Tokens<'_>) -> Result<Exports, Stop>
    ensures { Reads (spec.exports tokens.old) result tokens.new }
{
    let start = tokens.rest();
    let open = left_mark(tokens)?;
    let list = export_list(alloc, tokens)?;
    let comma = last_comma(tokens);
    let close = close(tokens)?;
    Ok(Exports {
        span: tokens.since(start),
        open,
        list,
        comma,
        close,
    })
}
