// What signatures and fixities are made of (Haskell 98 Report, 4.4.1 and 4.4.2).
ghost use Rattle.std.specs.Prelude.{option_copied, ◌≡◌};
ghost use Rattle.gh_reader.specs.Reads.{Reads};
ghost use Rattle.gh_parse_exps.specs.Decls as spec;

use crate::ops::{behind_var, defined_op};
use gh_base::{ListOf, Span};
use gh_reader::{Stop, Tokens, is_comma, var, var_next};
use gh_tree::{Decl, FixityWord, Kind, NextOp, NextVar, Sym};
use sqlite_items::Boxed;
use std::alloc::Global;

// The word of a fixity.
#[tactic(auto, unfolding(crate::specs::Decls::fixity_word))]
fn fixity_word(tokens: &mut Tokens<'_>) -> Result<FixityWord, Stop>
    ensures { Reads (spec.fixity_word tokens.old) result tokens.new }
{
    match tokens.kind() {
        Some(Kind::Infixl) => Ok(FixityWord::Left(tokens.take())),
        Some(Kind::Infixr) => Ok(FixityWord::Right(tokens.take())),
        Some(Kind::Infix) => Ok(FixityWord::Neither(tokens.take())),
        _ => Err(Stop::NoParse),
    }
}

// The level of a fixity, where one is written.
#[tactic(auto, unfolding(crate::specs::Decls::level))]
fn level(tokens: &mut Tokens<'_>) -> Result<Option<(Span, u64)>, Stop>
    ensures { Reads (spec.level tokens.old) result tokens.new }
{
    match tokens.kind() {
        Some(Kind::Int(value)) => {
            let span = tokens.take();
            if *value >= 10 {
                return Err(Stop::NoParse);
            }
            Ok(Some((span, *value)))
        }
        _ => Ok(None),
    }
}

// A comma and an operator.
#[tactic(auto, unfolding(crate::specs::Decls::next_op))]
fn next_op(tokens: &mut Tokens<'_>) -> Result<NextOp, Stop>
    ensures { Reads (spec.next_op tokens.old) result tokens.new }
{
    let mark = tokens.take();
    let op = defined_op(tokens)?;
    Ok(NextOp { mark, op })
}

#[inline(never)]
fn next_ops(alloc: Global, tokens: &mut Tokens<'_>) -> Result<ListOf<NextOp>, Stop>
    ensures { Reads (spec.next_ops tokens.old) result tokens.new }
{
    let mut found = ListOf::new(alloc);
    for _turn in 0..tokens.rest().len() {
        if !is_comma(tokens.kind()) {
            return Ok(found);
        }
        found.push(next_op(tokens)?)?;
    }
    Ok(found)
}

/// A fixity.
#[tactic(auto, unfolding(crate::specs::Decls::fixity))]
#[inline(never)]
pub fn fixity(alloc: Global, tokens: &mut Tokens<'_>, start: &[Sym]) -> Result<Boxed<Decl>, Stop>
    ensures { Reads (spec.fixity start.now tokens.old) result tokens.new }
{
    let word = fixity_word(tokens)?;
    let level = level(tokens)?;
    let first = defined_op(tokens)?;
    let others = next_ops(alloc, tokens)?;
    let span = tokens.since(start);
    Ok(Boxed::new(alloc, Decl::Fixity(span, word, level, first, others))?)
}

// A comma and a variable.
#[tactic(auto, unfolding(crate::specs::Decls::next_var))]
fn next_var(tokens: &mut Tokens<'_>) -> Result<NextVar, Stop>
    ensures { Reads (spec.next_var tokens.old) result tokens.new }
{
    let mark = tokens.take();
    let var = var(tokens)?;
    Ok(NextVar { mark, var })
}

/// The other variables of a signature.
#[inline(never)]
pub fn next_vars(alloc: Global, tokens: &mut Tokens<'_>) -> Result<ListOf<NextVar>, Stop>
    ensures { Reads (spec.next_vars tokens.old) result tokens.new }
{
    let mut found = ListOf::new(alloc);
    for _turn in 0..tokens.rest().len() {
        if !is_comma(tokens.kind()) {
            return Ok(found);
        }
        found.push(next_var(tokens)?)?;
    }
    Ok(found)
}

// Whether this stands behind the first variable of a signature alone.
fn signs(kind: Option<&Kind>) -> bool
    ensures { result ≡ spec.signs (option_copied kind.entry) }
{
    matches!(kind, Some(Kind::Comma) | Some(Kind::Colons))
}

/// Whether a signature comes next.
#[tactic(auto, unfolding(crate::specs::Decls::signature_next))]
pub fn signature_next(tokens: &Tokens<'_>) -> bool
    ensures { result ≡ spec.signature_next tokens.now }
{
    var_next(tokens) && signs(behind_var(tokens))
}
