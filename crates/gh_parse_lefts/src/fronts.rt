// What stands at the front of a left side, and the rules in which no left side stands inside.
ghost use Rattle.std.specs.Prelude.{◌≡◌};
ghost use Rattle.gh_tree.specs.ReadPatterns as patterns;
ghost use Rattle.gh_tree.specs.ReadPatterns.{arg};
ghost use Rattle.gh_parse_lefts.specs.Lefts as spec;
ghost use Rattle.gh_reader.specs.Reads.{Reads};

use crate::sides::{Front, Side, function_of, pattern_of};
use gh_base::Span;
use gh_parse_patterns::{arg, args, begins_arg, operand, pat_parts};
use gh_reader::{Stop, Tokens, close, is_comma, var};
use gh_tree::{ArgPattern, FunLhs, Kind, PatOperand, Pattern, Sym, Var};
use sqlite_items::Boxed;
use std::alloc::Global;

// A variable's arguments.
#[tactic(auto, unfolding(crate::specs::Lefts::prefix))]
fn prefix(
    alloc: Global,
    tokens: &mut Tokens<'_>,
    depth: usize,
    start: &[Sym],
    name: Var,
) -> Result<Front, Stop>
    ensures { Reads (spec.prefix (arg depth) start.now name tokens.old) result tokens.new }
{
    let others = args(alloc, tokens, depth)?;
    let lhs = FunLhs::Prefix(tokens.since(start), name, others);
    Ok(Front::Ended(Boxed::new(alloc, lhs)?))
}

// The pattern behind a variable and `@`.
#[tactic(auto, unfolding(crate::specs::Lefts::named, gh_tree::specs::ReadPatterns::as_end))]
fn named(
    alloc: Global,
    tokens: &mut Tokens<'_>,
    depth: usize,
    start: &[Sym],
    name: Var,
    mark: Span,
) -> Result<Front, Stop>
    ensures { Reads (spec.named (arg depth) start.now name mark tokens.old) result tokens.new }
{
    let inner = arg(alloc, tokens, depth)?;
    let pattern = ArgPattern::As(tokens.since(start), name, mark, inner);
    Ok(Front::Operand(PatOperand::Arg(Boxed::new(alloc, pattern)?)))
}

/// A variable at the front, with its arguments, with `@` and a pattern, or alone.
#[tactic(auto, unfolding(crate::specs::Lefts::var_front))]
#[inline(never)]
pub fn var_front(
    alloc: Global,
    tokens: &mut Tokens<'_>,
    depth: usize,
    start: &[Sym],
) -> Result<Front, Stop>
    ensures { Reads (spec.var_front (arg depth) start.now tokens.old) result tokens.new }
{
    let name = var(tokens)?;
    if matches!(tokens.kind(), Some(Kind::At)) {
        let mark = tokens.take();
        return named(alloc, tokens, depth, start, name, mark);
    }
    if begins_arg(tokens.kind()) {
        return prefix(alloc, tokens, depth, start, name);
    }
    Ok(Front::Alone(name))
}

/// Another operand at the front.
#[tactic(auto, unfolding(crate::specs::Lefts::operand_front))]
#[inline(never)]
pub fn operand_front(alloc: Global, tokens: &mut Tokens<'_>, depth: usize) -> Result<Front, Stop>
    ensures { Reads (spec.operand_front (arg depth) tokens.old) result tokens.new }
{
    Ok(Front::Operand(operand(alloc, tokens, depth)?))
}

// The other parts of a tuple, and `)`.
#[tactic(auto, unfolding(gh_tree::specs::ReadPatterns::enclosed))]
fn enclosed(
    alloc: Global,
    tokens: &mut Tokens<'_>,
    depth: usize,
    start: &[Sym],
    left: Span,
    first: Boxed<Pattern>,
) -> Result<ArgPattern, Stop>
    ensures { Reads (patterns.enclosed (arg depth) start.now left first tokens.old) result tokens.new }
{
    let others = pat_parts(alloc, tokens, depth)?;
    let close = close(tokens)?;
    let count = others.as_slice().len();
    if count == 0 || count > 6 {
        return Err(Stop::NoParse);
    }
    Ok(ArgPattern::Tuple(tokens.since(start), left, first, others, close))
}

// A tuple, behind `(` and its first part.
#[tactic(auto, unfolding(crate::specs::Lefts::tuple_front))]
fn tuple_front(
    alloc: Global,
    tokens: &mut Tokens<'_>,
    depth: usize,
    start: &[Sym],
    left: Span,
    inside: Side,
) -> Result<Front, Stop>
    ensures { Reads (spec.tuple_front (arg depth) start.now left inside tokens.old) result tokens.new }
{
    let first = pattern_of(alloc, inside)?;
    let tuple = enclosed(alloc, tokens, depth, start, left, first)?;
    Ok(Front::Operand(PatOperand::Arg(Boxed::new(alloc, tuple)?)))
}

// The arguments of a left side between parentheses.
#[tactic(auto, unfolding(crate::specs::Lefts::nested))]
fn nested(
    alloc: Global,
    tokens: &mut Tokens<'_>,
    depth: usize,
    start: &[Sym],
    left: Span,
    right: Span,
    inside: Side,
) -> Result<Front, Stop>
    ensures { Reads (spec.nested (arg depth) start.now left right inside tokens.old) result tokens.new }
{
    let lhs = function_of(alloc, inside)?;
    let first = arg(alloc, tokens, depth)?;
    let others = args(alloc, tokens, depth)?;
    let nested = FunLhs::Nested(tokens.since(start), left, lhs, right, first, others);
    Ok(Front::Ended(Boxed::new(alloc, nested)?))
}

// A pattern between parentheses.
#[tactic(auto, unfolding(crate::specs::Lefts::paren_front))]
fn paren_front(
    alloc: Global,
    tokens: &mut Tokens<'_>,
    start: &[Sym],
    left: Span,
    right: Span,
    inside: Side,
) -> Result<Front, Stop>
    ensures { Reads (spec.paren_front start.now left right inside tokens.old) result tokens.new }
{
    let pattern = pattern_of(alloc, inside)?;
    let paren = ArgPattern::Paren(tokens.since(start), left, pattern, right);
    Ok(Front::Operand(PatOperand::Arg(Boxed::new(alloc, paren)?)))
}

// `)`, behind `(` and a left side, and what is made of the two.
#[tactic(auto, unfolding(crate::specs::Lefts::closed))]
fn closed(
    alloc: Global,
    tokens: &mut Tokens<'_>,
    depth: usize,
    start: &[Sym],
    left: Span,
    inside: Side,
) -> Result<Front, Stop>
    ensures { Reads (spec.closed (arg depth) start.now left inside tokens.old) result tokens.new }
{
    let right = close(tokens)?;
    if begins_arg(tokens.kind()) {
        return nested(alloc, tokens, depth, start, left, right, inside);
    }
    paren_front(alloc, tokens, start, left, right, inside)
}

/// What stands behind `(` and a left side.
#[tactic(auto, unfolding(crate::specs::Lefts::behind_inside))]
#[inline(never)]
pub fn behind_inside(
    alloc: Global,
    tokens: &mut Tokens<'_>,
    depth: usize,
    start: &[Sym],
    left: Span,
    inside: Side,
) -> Result<Front, Stop>
    ensures { Reads (spec.behind_inside (arg depth) start.now left inside tokens.old) result tokens.new }
{
    if is_comma(tokens.kind()) {
        return tuple_front(alloc, tokens, depth, start, left, inside);
    }
    closed(alloc, tokens, depth, start, left, inside)
}
