// Dependencies of generic functions.
ghost use Rattle.gh_tree.specs.Read as read;
ghost use Rattle.gh_reader.specs.Reads.{Reads};
ghost use Rattle.gh_parse_tops.specs.Generics as spec;

use crate::looks::deps_next;
use crate::words::gen_vars;
use gh_base::{ListOf, Span};
use gh_parse_heads::any_var;
use gh_reader::{Stop, Tokens, close, is_comma};
use gh_tree::{Context, Dep, Deps, Kind, NextDep, Sym};
use std::alloc::Global;

// A dependency.
#[tactic(auto, unfolding(crate::specs::Generics::dep))]
fn dep(alloc: Global, tokens: &mut Tokens<'_>) -> Result<Dep, Stop>
    ensures { Reads (spec.dep tokens.old) result tokens.new }
{
    let start = tokens.rest();
    let function = any_var(tokens)?;
    let vars = gen_vars(alloc, tokens)?;
    Ok(Dep {
        span: tokens.since(start),
        function,
        vars,
    })
}

// A comma and a dependency.
#[tactic(auto, unfolding(crate::specs::Generics::next_dep))]
fn next_dep(alloc: Global, tokens: &mut Tokens<'_>) -> Result<NextDep, Stop>
    ensures { Reads (spec.next_dep tokens.old) result tokens.new }
{
    let mark = tokens.take();
    let dep = dep(alloc, tokens)?;
    Ok(NextDep { mark, dep })
}

fn next_deps(alloc: Global, tokens: &mut Tokens<'_>) -> Result<ListOf<NextDep>, Stop>
    ensures { Reads (spec.next_deps tokens.old) result tokens.new }
{
    let mut found = ListOf::new(alloc);
    for _turn in 0..tokens.rest().len() {
        if !is_comma(tokens.kind()) {
            return Ok(found);
        }
        found.push(next_dep(alloc, tokens)?)?;
    }
    Ok(found)
}

// `)`, behind `(`.
#[tactic(auto, unfolding(crate::specs::Generics::no_deps))]
fn no_deps(alloc: Global, tokens: &mut Tokens<'_>, start: &[Sym], left: Span) -> Result<Deps, Stop>
    ensures { Reads (spec.no_deps start.now left tokens.old) result tokens.new }
{
    let close = tokens.take();
    Ok(Deps {
        span: tokens.since(start),
        open: left,
        first: None,
        others: ListOf::new(alloc),
        close,
    })
}

// Dependencies, of which there is one at least, behind `(`.
#[tactic(auto, unfolding(crate::specs::Generics::some_deps))]
fn some_deps(
    alloc: Global,
    tokens: &mut Tokens<'_>,
    start: &[Sym],
    left: Span,
) -> Result<Deps, Stop>
    ensures { Reads (spec.some_deps start.now left tokens.old) result tokens.new }
{
    let first = dep(alloc, tokens)?;
    let others = next_deps(alloc, tokens)?;
    let close = close(tokens)?;
    Ok(Deps {
        span: tokens.since(start),
        open: left,
        first: Some(first),
        others,
        close,
    })
}

// What stands behind `(`.
#[tactic(auto, unfolding(crate::specs::Generics::deps_opened))]
fn deps_opened(
    alloc: Global,
    tokens: &mut Tokens<'_>,
    start: &[Sym],
    left: Span,
) -> Result<Deps, Stop>
    ensures { Reads (spec.deps_opened start.now left tokens.old) result tokens.new }
{
    match tokens.kind() {
        Some(Kind::Close) => no_deps(alloc, tokens, start, left),
        _ => some_deps(alloc, tokens, start, left),
    }
}

// `(`
fn left_mark(tokens: &mut Tokens<'_>) -> Result<Span, Stop>
    ensures { Reads (read.expect read.is_open tokens.old) result tokens.new }
{
    match tokens.kind() {
        Some(Kind::Open) => Ok(tokens.take()),
        _ => Err(Stop::NoParse),
    }
}

// `=>`
fn double_arrow(tokens: &mut Tokens<'_>) -> Result<Span, Stop>
    ensures { Reads (read.expect spec.is_double_arrow tokens.old) result tokens.new }
{
    match tokens.kind() {
        Some(Kind::DoubleArrow) => Ok(tokens.take()),
        _ => Err(Stop::NoParse),
    }
}

// Dependencies between parentheses.
#[tactic(auto, unfolding(crate::specs::Generics::deps))]
fn deps(alloc: Global, tokens: &mut Tokens<'_>) -> Result<Deps, Stop>
    ensures { Reads (spec.deps tokens.old) result tokens.new }
{
    let start = tokens.rest();
    let left = left_mark(tokens)?;
    deps_opened(alloc, tokens, start, left)
}

// Dependencies and `=>`.
#[tactic(auto, unfolding(crate::specs::Generics::some_context))]
fn some_context(alloc: Global, tokens: &mut Tokens<'_>) -> Result<Option<Context>, Stop>
    ensures { Reads (spec.some_context tokens.old) result tokens.new }
{
    let deps = deps(alloc, tokens)?;
    let mark = double_arrow(tokens)?;
    Ok(Some(Context { deps, mark }))
}

/// The dependencies of a generic function, where they are written.
#[tactic(auto, unfolding(crate::specs::Generics::context))]
pub fn context(alloc: Global, tokens: &mut Tokens<'_>) -> Result<Option<Context>, Stop>
    ensures { Reads (spec.context tokens.old) result tokens.new }
{
    if deps_next(tokens) {
        return some_context(alloc, tokens);
    }
    Ok(None)
}
