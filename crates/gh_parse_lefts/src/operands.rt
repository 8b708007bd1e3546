// What stands behind the front of a left side: operators with their operands.
ghost use Rattle.std.specs.Prelude.{◌≡◌};
ghost use Rattle.gh_tree.specs.ReadPatterns.{arg};
ghost use Rattle.gh_parse_lefts.specs.Lefts as spec;
ghost use Rattle.gh_reader.specs.Reads.{Reads};

use crate::operators::{plain_nexts, var_op, var_op_next};
use crate::sides::{Front, Side, var_operand};
use gh_base::ListOf;
use gh_parse_patterns::{next_patterns, operand};
use gh_reader::{Stop, Tokens};
use gh_tree::{FunLhs, NextPattern, PatOperand, Pattern, Sym, Var};
use sqlite_items::Boxed;
use std::alloc::Global;

// The operator that is defined, and its right operand.
#[tactic(auto, unfolding(crate::specs::Lefts::infixed))]
fn infixed(
    alloc: Global,
    tokens: &mut Tokens<'_>,
    depth: usize,
    start: &[Sym],
    first: PatOperand,
    others: ListOf<NextPattern>,
) -> Result<Side, Stop>
    ensures { Reads (spec.infixed (arg depth) start.now first others tokens.old) result tokens.new }
{
    let op = var_op(tokens)?;
    let right = operand(alloc, tokens, depth)?;
    let more = next_patterns(alloc, tokens, depth)?;
    if !(plain_nexts(others.as_slice()) && plain_nexts(more.as_slice())) {
        return Err(Stop::NoParse);
    }
    let lhs = FunLhs::Infix(tokens.since(start), first, others, op, right, more);
    Ok(Side::Function(Boxed::new(alloc, lhs)?))
}

// A pattern of these operands.
#[tactic(auto, unfolding(crate::specs::Lefts::patterned))]
fn patterned(
    alloc: Global,
    tokens: &mut Tokens<'_>,
    start: &[Sym],
    first: PatOperand,
    others: ListOf<NextPattern>,
) -> Result<Side, Stop>
    ensures { Reads (spec.patterned start.now first others tokens.old) result tokens.new }
{
    let span = tokens.since(start);
    Ok(Side::Pattern(Boxed::new(
        alloc,
        Pattern {
            span,
            first,
            others,
        },
    )?))
}

// A variable with these operands behind it, of which there may be none.
#[tactic(auto, unfolding(crate::specs::Lefts::alone))]
fn alone(
    alloc: Global,
    tokens: &mut Tokens<'_>,
    start: &[Sym],
    name: Var,
    others: ListOf<NextPattern>,
) -> Result<Side, Stop>
    ensures { Reads (spec.alone start.now name others tokens.old) result tokens.new }
{
    if others.as_slice().is_empty() {
        return Ok(Side::Alone(tokens.since(start), name));
    }
    patterned(alloc, tokens, start, var_operand(alloc, name)?, others)
}

/// What stands behind the front.
#[tactic(auto, unfolding(crate::specs::Lefts::go))]
#[inline(never)]
pub fn go(
    alloc: Global,
    tokens: &mut Tokens<'_>,
    depth: usize,
    start: &[Sym],
    front: Front,
) -> Result<Side, Stop>
    ensures { Reads (spec.go (arg depth) start.now front tokens.old) result tokens.new }
{
    match front {
        Front::Ended(lhs) => Ok(Side::Function(lhs)),
        Front::Alone(name) => {
            let others = next_patterns(alloc, tokens, depth)?;
            if var_op_next(tokens) {
                let first = var_operand(alloc, name)?;
                return infixed(alloc, tokens, depth, start, first, others);
            }
            alone(alloc, tokens, start, name, others)
        }
        Front::Operand(first) => {
            let others = next_patterns(alloc, tokens, depth)?;
            if var_op_next(tokens) {
                return infixed(alloc, tokens, depth, start, first, others);
            }
            patterned(alloc, tokens, start, first, others)
        }
    }
}
