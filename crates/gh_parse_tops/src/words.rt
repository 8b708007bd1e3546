// Parameters of declarations, and variables of generic functions.
ghost use Rattle.std.specs.Prelude.{option_copied, ◌≡◌};
ghost use Rattle.gh_tree.specs.Read as read;
ghost use Rattle.gh_reader.specs.Reads.{Reads};
ghost use Rattle.gh_parse_tops.specs.Generics as spec;

use gh_base::{ListOf, Span};
use gh_parse_exps::{banana, close_banana, word};
use gh_reader::{Stop, Tokens, is_comma};
use gh_tree::{GenVars, Kind, Name, NextName, OtherVars};
use std::alloc::Global;

/// Whether this is a variable without a qualifier that is no operator.
pub fn is_word(kind: Option<&Kind>) -> bool
    ensures { result ≡ spec.is_word (option_copied kind.entry) }
{
    matches!(kind, Some(Kind::VarId(None, _)))
}

/// The parameters of a declaration, of which there may be none.
pub fn words(alloc: Global, tokens: &mut Tokens<'_>) -> Result<ListOf<Name>, Stop>
    ensures { Reads (spec.words tokens.old) result tokens.new }
{
    let mut found = ListOf::new(alloc);
    for _turn in 0..tokens.rest().len() {
        if !is_word(tokens.kind()) {
            return Ok(found);
        }
        found.push(word(tokens)?)?;
    }
    Ok(found)
}

// A comma and a variable.
#[tactic(auto, unfolding(crate::specs::Generics::next_word))]
fn next_word(tokens: &mut Tokens<'_>) -> Result<NextName, Stop>
    ensures { Reads (spec.next_word tokens.old) result tokens.new }
{
    let mark = tokens.take();
    let name = word(tokens)?;
    Ok(NextName { mark, name })
}

fn next_words(alloc: Global, tokens: &mut Tokens<'_>) -> Result<ListOf<NextName>, Stop>
    ensures { Reads (spec.next_words tokens.old) result tokens.new }
{
    let mut found = ListOf::new(alloc);
    for _turn in 0..tokens.rest().len() {
        if !is_comma(tokens.kind()) {
            return Ok(found);
        }
        found.push(next_word(tokens)?)?;
    }
    Ok(found)
}

// `|` and the variables that are not generic.
#[tactic(auto, unfolding(crate::specs::Generics::some_others))]
fn some_others(alloc: Global, tokens: &mut Tokens<'_>) -> Result<Option<OtherVars>, Stop>
    ensures { Reads (spec.some_others tokens.old) result tokens.new }
{
    let mark = tokens.take();
    let first = word(tokens)?;
    let others = next_words(alloc, tokens)?;
    Ok(Some(OtherVars {
        mark,
        first,
        others,
    }))
}

// The variables that are not generic, where there are any.
#[tactic(auto, unfolding(crate::specs::Generics::any_others))]
fn any_others(alloc: Global, tokens: &mut Tokens<'_>) -> Result<Option<OtherVars>, Stop>
    ensures { Reads (spec.any_others tokens.old) result tokens.new }
{
    match tokens.kind() {
        Some(Kind::Bar) => some_others(alloc, tokens),
        _ => Ok(None),
    }
}

/// The variables of a generic function.
#[tactic(auto, unfolding(crate::specs::Generics::gen_vars))]
pub fn gen_vars(alloc: Global, tokens: &mut Tokens<'_>) -> Result<GenVars, Stop>
    ensures { Reads (spec.gen_vars tokens.old) result tokens.new }
{
    let start = tokens.rest();
    let left = banana(tokens)?;
    let first = word(tokens)?;
    let others = next_words(alloc, tokens)?;
    let rest = any_others(alloc, tokens)?;
    let close = close_banana(tokens)?;
    Ok(GenVars {
        span: tokens.since(start),
        open: left,
        first,
        others,
        rest,
        close,
    })
}
