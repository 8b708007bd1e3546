// Constructors as operands.
ghost use Rattle.std.specs.Prelude.{option_copied, ◌≡◌};
ghost use Rattle.gh_tree.specs.ReadNames as spec;
ghost use Rattle.gh_reader.specs.Reads.{Reads};

use crate::marks::{close, close_list, commas, is_close_list};
use crate::stop::Stop;
use crate::tokens::Tokens;
use gh_base::Span;
use gh_tree::{Con, GenCon, Kind, Name, Sym};
use std::alloc::Global;

// Whether a token behind `(` makes of both a constructor's beginning.
fn closes_con(kind: Option<&Kind>) -> bool
    ensures { result ≡ spec.closes_con (option_copied kind.entry) }
{
    matches!(
        kind,
        Some(Kind::Close) | Some(Kind::Comma) | Some(Kind::ConSym(..))
    )
}

/// Whether a constructor as an operand comes next: a name, an operator between parentheses, `()`, `[]`, `(,)` and so on.
#[tactic(auto, unfolding(gh_tree::specs::ReadNames::gen_con_next))]
pub fn gen_con_next(tokens: &Tokens<'_>) -> bool
    ensures { result ≡ spec.gen_con_next tokens.now }
{
    match tokens.kind() {
        Some(Kind::ConId(..)) => true,
        Some(Kind::Open) => closes_con(tokens.second()),
        Some(Kind::OpenList) => is_close_list(tokens.second()),
        _ => false,
    }
}

// `)`, behind `(`.
#[tactic(auto, unfolding(gh_tree::specs::ReadNames::gen_unit))]
fn gen_unit(tokens: &mut Tokens<'_>, start: &[Sym], left: Span) -> Result<GenCon, Stop>
    ensures { Reads (spec.gen_unit start.now left tokens.old) result tokens.new }
{
    let close = tokens.take();
    Ok(GenCon::Unit(tokens.since(start), left, close))
}

// Commas and `)`, behind `(`.
#[tactic(auto, unfolding(gh_tree::specs::ReadNames::gen_tuple))]
fn gen_tuple(
    alloc: Global,
    tokens: &mut Tokens<'_>,
    start: &[Sym],
    left: Span,
) -> Result<GenCon, Stop>
    ensures { Reads (spec.gen_tuple start.now left tokens.old) result tokens.new }
{
    let marks = commas(alloc, tokens)?;
    let close = close(tokens)?;
    let count = marks.as_slice().len();
    if count == 0 || count > 6 {
        return Err(Stop::NoParse);
    }
    Ok(GenCon::Tuple(tokens.since(start), left, marks, close))
}

// `]`, behind `[`.
#[tactic(auto, unfolding(gh_tree::specs::ReadNames::gen_nil))]
fn gen_nil(tokens: &mut Tokens<'_>, start: &[Sym], left: Span) -> Result<GenCon, Stop>
    ensures { Reads (spec.gen_nil start.now left tokens.old) result tokens.new }
{
    let close = close_list(tokens)?;
    Ok(GenCon::Nil(tokens.since(start), left, close))
}

// What stands behind `(`.
#[tactic(auto, unfolding(gh_tree::specs::ReadNames::gen_opened))]
fn gen_opened(
    alloc: Global,
    tokens: &mut Tokens<'_>,
    start: &[Sym],
    left: Span,
) -> Result<GenCon, Stop>
    ensures { Reads (spec.gen_opened start.now left tokens.old) result tokens.new }
{
    match tokens.kind() {
        Some(Kind::Close) => gen_unit(tokens, start, left),
        Some(Kind::Comma) => gen_tuple(alloc, tokens, start, left),
        Some(Kind::ConSym(qualifier, id)) => {
            let name = Name {
                span: tokens.take(),
                qualifier: *qualifier,
                id: *id,
            };
            Ok(GenCon::Con(Con::Symbol(left, name, close(tokens)?)))
        }
        _ => Err(Stop::NoParse),
    }
}

/// A constructor as an operand.
#[tactic(auto, unfolding(gh_tree::specs::ReadNames::gen_con))]
pub fn gen_con(alloc: Global, tokens: &mut Tokens<'_>) -> Result<GenCon, Stop>
    ensures { Reads (spec.gen_con tokens.old) result tokens.new }
{
    let start = tokens.rest();
    match tokens.kind() {
        Some(Kind::ConId(qualifier, id)) => Ok(GenCon::Con(Con::Word(Name {
            span: tokens.take(),
            qualifier: *qualifier,
            id: *id,
        }))),
        Some(Kind::Open) => {
            let left = tokens.take();
            gen_opened(alloc, tokens, start, left)
        }
        Some(Kind::OpenList) => {
            let left = tokens.take();
            gen_nil(tokens, start, left)
        }
        _ => Err(Stop::NoParse),
    }
}
