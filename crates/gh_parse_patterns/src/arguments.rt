// What patterns are made of, as far as no pattern stands inside.
ghost use Rattle.std.specs.Prelude.{option_copied, ◌≡◌};
ghost use Rattle.gh_tree.specs.ReadPatterns as spec;
ghost use Rattle.gh_reader.specs.Reads.{Reads};

use gh_base::fixed::MINUS;
use gh_base::{NameId, Span};
use gh_reader::{Stop, Tokens, close};
use gh_tree::{ArgPattern, Kind, PatOperand, Pattern, Sym};
use sqlite_items::Boxed;

/// Whether a token begins a pattern that may be an argument.
pub fn begins_arg(kind: Option<&Kind>) -> bool
    ensures { result ≡ spec.begins_arg_by (option_copied kind.entry) }
{
    match kind {
        Some(Kind::VarId(None, _)) | Some(Kind::ConId(..)) => true,
        Some(Kind::Int(_)) | Some(Kind::Char(_)) | Some(Kind::Str(_)) => true,
        Some(Kind::Underscore) | Some(Kind::Open) | Some(Kind::OpenList) => true,
        _ => false,
    }
}

/// `)`, behind `(` and a pattern.
#[tactic(auto, unfolding(gh_tree::specs::ReadPatterns::paren))]
pub fn paren(
    tokens: &mut Tokens<'_>,
    start: &[Sym],
    left: Span,
    first: Boxed<Pattern>,
) -> Result<ArgPattern, Stop>
    ensures { Reads (spec.paren start.now left first tokens.old) result tokens.new }
{
    let close = close(tokens)?;
    Ok(ArgPattern::Paren(tokens.since(start), left, first, close))
}

/// An integer, behind a minus sign.
#[tactic(auto, unfolding(gh_tree::specs::ReadPatterns::negative))]
pub fn negative(tokens: &mut Tokens<'_>, start: &[Sym], minus: Span) -> Result<PatOperand, Stop>
    ensures { Reads (spec.negative start.now minus tokens.old) result tokens.new }
{
    match tokens.kind() {
        Some(Kind::Int(value)) => {
            let integer = tokens.take();
            Ok(PatOperand::Negative(tokens.since(start), minus, integer, *value))
        }
        _ => Err(Stop::NoParse),
    }
}

/// A minus sign and an integer, where the next token is this operator.
#[tactic(auto, unfolding(gh_tree::specs::ReadPatterns::signed))]
pub fn signed(tokens: &mut Tokens<'_>, name: NameId) -> Result<PatOperand, Stop>
    ensures { Reads (spec.signed name tokens.old) result tokens.new }
{
    if name.0 != MINUS.0 {
        return Err(Stop::NoParse);
    }
    let start = tokens.rest();
    let minus = tokens.take();
    negative(tokens, start, minus)
}
