// The constructors of a type in an export list.
ghost use Rattle.std.specs.Prelude.{◌≡◌};
ghost use Rattle.gh_tree.specs.ReadExports as spec;
ghost use Rattle.gh_reader.specs.Reads.{Reads};

use crate::names::con;
use gh_base::{ListOf, Span};
use gh_reader::{Stop, Tokens, close, is_comma};
use gh_tree::{Kind, NextCon, Parts, Sym};
use std::alloc::Global;

// A comma and a constructor.
#[tactic(auto, unfolding(gh_tree::specs::ReadExports::next_con))]
fn next_con(tokens: &mut Tokens<'_>) -> Result<NextCon, Stop>
    ensures { Reads (spec.next_con tokens.old) result tokens.new }
{
    let mark = tokens.take();
    let con = con(tokens)?;
    Ok(NextCon { mark, con })
}

fn next_cons(alloc: Global, tokens: &mut Tokens<'_>) -> Result<ListOf<NextCon>, Stop>
    ensures { Reads (spec.next_cons tokens.old) result tokens.new }
{
    let mut found = ListOf::new(alloc);
    for _turn in 0..tokens.rest().len() {
        if !is_comma(tokens.kind()) {
            return Ok(found);
        }
        found.push(next_con(tokens)?)?;
    }
    Ok(found)
}

// `..` and `)`, behind `(`.
#[tactic(auto, unfolding(gh_tree::specs::ReadExports::all_parts))]
fn all_parts(tokens: &mut Tokens<'_>, start: &[Sym], left: Span) -> Result<Parts, Stop>
    ensures { Reads (spec.all_parts start.now left tokens.old) result tokens.new }
{
    let mark = tokens.take();
    let close = close(tokens)?;
    Ok(Parts::All(tokens.since(start), left, mark, close))
}

// `)`, behind `(`.
#[tactic(auto, unfolding(gh_tree::specs::ReadExports::empty_parts))]
fn empty_parts(tokens: &mut Tokens<'_>, start: &[Sym], left: Span) -> Result<Parts, Stop>
    ensures { Reads (spec.empty_parts start.now left tokens.old) result tokens.new }
{
    let close = tokens.take();
    Ok(Parts::Empty(tokens.since(start), left, close))
}

// Constructors and `)`, behind `(`.
#[tactic(auto, unfolding(gh_tree::specs::ReadExports::listed_parts))]
fn listed_parts(
    alloc: Global,
    tokens: &mut Tokens<'_>,
    start: &[Sym],
    left: Span,
) -> Result<Parts, Stop>
    ensures { Reads (spec.listed_parts start.now left tokens.old) result tokens.new }
{
    let first = con(tokens)?;
    let others = next_cons(alloc, tokens)?;
    let close = close(tokens)?;
    Ok(Parts::Listed(tokens.since(start), left, first, others, close))
}

// What stands behind `(`.
#[tactic(auto, unfolding(gh_tree::specs::ReadExports::parts_opened))]
fn parts_opened(
    alloc: Global,
    tokens: &mut Tokens<'_>,
    start: &[Sym],
    left: Span,
) -> Result<Parts, Stop>
    ensures { Reads (spec.parts_opened start.now left tokens.old) result tokens.new }
{
    match tokens.kind() {
        Some(Kind::DotDot) => all_parts(tokens, start, left),
        Some(Kind::Close) => empty_parts(tokens, start, left),
        _ => listed_parts(alloc, tokens, start, left),
    }
}

// Constructors in parentheses.
#[tactic(auto, unfolding(gh_tree::specs::ReadExports::some_parts))]
fn some_parts(alloc: Global, tokens: &mut Tokens<'_>) -> Result<Option<Parts>, Stop>
    ensures { Reads (spec.some_parts tokens.old) result tokens.new }
{
    let start = tokens.rest();
    let left = tokens.take();
    Ok(Some(parts_opened(alloc, tokens, start, left)?))
}

/// Constructors in parentheses, where these come next.
#[tactic(auto, unfolding(gh_tree::specs::ReadExports::any_parts))]
pub fn any_parts(alloc: Global, tokens: &mut Tokens<'_>) -> Result<Option<Parts>, Stop>
    ensures { Reads (spec.any_parts tokens.old) result tokens.new }
{
    match tokens.kind() {
        Some(Kind::Open) => some_parts(alloc, tokens),
        _ => Ok(None),
    }
}
