// Marks.
ghost use Rattle.std.specs.Prelude.{option_copied, ◌≡◌};
ghost use Rattle.gh_tree.specs.Read as read;
ghost use Rattle.gh_reader.specs.Reads.{Reads};
ghost use Rattle.gh_parse_exps.specs.Marks as spec;
ghost use Rattle.gh_parse_exps.specs.Ops as ops;

use gh_base::Span;
use gh_reader::{Stop, Tokens};
use gh_tree::Kind;

/// Whether this is `|`.
pub fn is_bar(kind: Option<&Kind>) -> bool
    ensures { result ≡ spec.is_bar (option_copied kind.entry) }
{
    matches!(kind, Some(Kind::Bar))
}

/// `=`
pub fn equals(tokens: &mut Tokens<'_>) -> Result<Span, Stop>
    ensures { Reads (read.expect spec.is_equals tokens.old) result tokens.new }
{
    match tokens.kind() {
        Some(Kind::Equals) => Ok(tokens.take()),
        _ => Err(Stop::NoParse),
    }
}

/// `|`
pub fn bar(tokens: &mut Tokens<'_>) -> Result<Span, Stop>
    ensures { Reads (read.expect spec.is_bar tokens.old) result tokens.new }
{
    match tokens.kind() {
        Some(Kind::Bar) => Ok(tokens.take()),
        _ => Err(Stop::NoParse),
    }
}

/// `->`
pub fn arrow(tokens: &mut Tokens<'_>) -> Result<Span, Stop>
    ensures { Reads (read.expect read.is_arrow tokens.old) result tokens.new }
{
    match tokens.kind() {
        Some(Kind::Arrow) => Ok(tokens.take()),
        _ => Err(Stop::NoParse),
    }
}

/// `::`
pub fn colons(tokens: &mut Tokens<'_>) -> Result<Span, Stop>
    ensures { Reads (read.expect spec.is_colons tokens.old) result tokens.new }
{
    match tokens.kind() {
        Some(Kind::Colons) => Ok(tokens.take()),
        _ => Err(Stop::NoParse),
    }
}

/// `of`
pub fn of_word(tokens: &mut Tokens<'_>) -> Result<Span, Stop>
    ensures { Reads (read.expect spec.is_of tokens.old) result tokens.new }
{
    match tokens.kind() {
        Some(Kind::Of) => Ok(tokens.take()),
        _ => Err(Stop::NoParse),
    }
}

/// `in`
pub fn in_word(tokens: &mut Tokens<'_>) -> Result<Span, Stop>
    ensures { Reads (read.expect spec.is_in tokens.old) result tokens.new }
{
    match tokens.kind() {
        Some(Kind::In) => Ok(tokens.take()),
        _ => Err(Stop::NoParse),
    }
}

/// `then`
pub fn then_word(tokens: &mut Tokens<'_>) -> Result<Span, Stop>
    ensures { Reads (read.expect spec.is_then tokens.old) result tokens.new }
{
    match tokens.kind() {
        Some(Kind::Then) => Ok(tokens.take()),
        _ => Err(Stop::NoParse),
    }
}

/// `else`
pub fn else_word(tokens: &mut Tokens<'_>) -> Result<Span, Stop>
    ensures { Reads (read.expect spec.is_else tokens.old) result tokens.new }
{
    match tokens.kind() {
        Some(Kind::Else) => Ok(tokens.take()),
        _ => Err(Stop::NoParse),
    }
}

/// `{|`
pub fn banana(tokens: &mut Tokens<'_>) -> Result<Span, Stop>
    ensures { Reads (read.expect ops.is_banana tokens.old) result tokens.new }
{
    match tokens.kind() {
        Some(Kind::OpenBanana) => Ok(tokens.take()),
        _ => Err(Stop::NoParse),
    }
}

/// `|}`
pub fn close_banana(tokens: &mut Tokens<'_>) -> Result<Span, Stop>
    ensures { Reads (read.expect spec.is_close_banana tokens.old) result tokens.new }
{
    match tokens.kind() {
        Some(Kind::CloseBanana) => Ok(tokens.take()),
        _ => Err(Stop::NoParse),
    }
}

/// A backquote.
pub fn backquote(tokens: &mut Tokens<'_>) -> Result<Span, Stop>
    ensures { Reads (read.expect read.is_backquote tokens.old) result tokens.new }
{
    match tokens.kind() {
        Some(Kind::Backquote) => Ok(tokens.take()),
        _ => Err(Stop::NoParse),
    }
}
