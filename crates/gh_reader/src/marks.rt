// Marks.
ghost use Rattle.std.specs.Prelude.{option_copied, ◌≡◌};
ghost use Rattle.gh_tree.specs.Read as read;
ghost use Rattle.gh_reader.specs.Reads.{Reads};

use crate::stop::Stop;
use crate::tokens::Tokens;
use gh_base::{ListOf, Span};
use gh_tree::Kind;
use std::alloc::Global;

/// Whether this is a comma.
pub fn is_comma(kind: Option<&Kind>) -> bool
    ensures { result ≡ read.is_comma (option_copied kind.entry) }
{
    matches!(kind, Some(Kind::Comma))
}

/// Whether this is `)`.
pub fn is_close(kind: Option<&Kind>) -> bool
    ensures { result ≡ read.is_close (option_copied kind.entry) }
{
    matches!(kind, Some(Kind::Close))
}

/// Whether this is `]`.
pub fn is_close_list(kind: Option<&Kind>) -> bool
    ensures { result ≡ read.is_close_list (option_copied kind.entry) }
{
    matches!(kind, Some(Kind::CloseList))
}

/// `)`
pub fn close(tokens: &mut Tokens<'_>) -> Result<Span, Stop>
    ensures { Reads (read.expect read.is_close tokens.old) result tokens.new }
{
    match tokens.kind() {
        Some(Kind::Close) => Ok(tokens.take()),
        _ => Err(Stop::NoParse),
    }
}

/// `]`
pub fn close_list(tokens: &mut Tokens<'_>) -> Result<Span, Stop>
    ensures { Reads (read.expect read.is_close_list tokens.old) result tokens.new }
{
    match tokens.kind() {
        Some(Kind::CloseList) => Ok(tokens.take()),
        _ => Err(Stop::NoParse),
    }
}

/// A backquote.
pub fn backquote(tokens: &mut Tokens<'_>) -> Result<Span, Stop>
    ensures { Reads (read.expect read.is_backquote tokens.old) result tokens.new }
{
    match tokens.kind() {
        Some(Kind::Backquote) => Ok(tokens.take()),
        _ => Err(Stop::NoParse),
    }
}

/// Commas, of which there may be none.
pub fn commas(alloc: Global, tokens: &mut Tokens<'_>) -> Result<ListOf<Span>, Stop>
    ensures { Reads (read.commas tokens.old) result tokens.new }
{
    let mut found = ListOf::new(alloc);
    for _turn in 0..tokens.rest().len() {
        if !is_comma(tokens.kind()) {
            return Ok(found);
        }
        found.push(tokens.take())?;
    }
    Ok(found)
}
