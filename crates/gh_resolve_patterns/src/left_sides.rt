// Left sides of functions.
ghost use Rattle.std.specs.Prelude.{◌≡◌, ◌++◌, ◌∷◌, [], map, IfOk, OnOk};
ghost use Rattle.gh_resolve_names.specs.Misuses.{least};
ghost use Rattle.gh_resolve_patterns.specs.LeftSides as spec;

use crate::patterns::{arg_pattern, arg_patterns, next_patterns, operand};
use crate::spans::list_span;
use crate::variables::{add_argument, add_arguments, add_next_patterns, add_operand};
use gh_base::{ListOf, NoMemory};
use gh_binders::Binders;
use gh_program::{FunLhs, Occurrence, Pattern, add};
use gh_resolve_names::{Context, Misuse, used_var, used_var_op};
use gh_scopes::Used;
use gh_tree::{NextPattern, PatOperand};
use sqlite_items::{Boxed, Items};
use std::alloc::Global;

/// The name of the function that a left side binds.
#[tactic(auto, using(crate::proofs::LeftSidesAt::lhs_used_prefix, crate::proofs::LeftSidesAt::lhs_used_infix, crate::proofs::LeftSidesAt::lhs_used_nested))]
pub fn function_used(node: &gh_tree::FunLhs) -> Used
    ensures { result ≡ spec.lhs_used_of node.now }
{
    match node {
        gh_tree::FunLhs::Prefix(_, var, _) => used_var(*var),
        gh_tree::FunLhs::Infix(_, _, _, op, _, _) => used_var_op(*op),
        gh_tree::FunLhs::Nested(_, _, inner, ..) => function_used(inner.get()),
    }
}

/// Adds the variables of a left side's patterns.
#[tactic(auto, using(crate::proofs::LeftSidesAt::lhs_vars_prefix, crate::proofs::LeftSidesAt::lhs_vars_infix, crate::proofs::LeftSidesAt::lhs_vars_nested, std::proofs::Common::append_assoc))]
pub fn add_left_side(list: &mut ListOf<(u32, u32)>, node: &gh_tree::FunLhs) -> Result<(), NoMemory>
    ensures { OnOk result (list.new ≡ list.old ++ spec.lhs_vars_of node.now) }
{
    match node {
        gh_tree::FunLhs::Prefix(_, _, args) => {
            add_arguments(list, args.as_slice())?;
            Ok(())
        }
        gh_tree::FunLhs::Infix(_, left, nexts, _, right, others) => {
            add_operand(list, left)?;
            add_next_patterns(list, nexts.as_slice())?;
            add_operand(list, right)?;
            add_next_patterns(list, others.as_slice())?;
            Ok(())
        }
        gh_tree::FunLhs::Nested(_, _, inner, _, first, args) => {
            add_left_side(list, inner.get())?;
            add_argument(list, first.get())?;
            add_arguments(list, args.as_slice())?;
            Ok(())
        }
    }
}

#[tactic(auto, using(gh_resolve_names::proofs::Loops::least_append))]
fn side(
    alloc: Global,
    context: &Context,
    locals: &Binders<u32>,
    found: &mut Option<Misuse>,
    first: &PatOperand,
    others: &[NextPattern],
) -> Result<Pattern, NoMemory>
    ensures value { IfOk result (λ made. made ≡ (spec.side context.now locals.now first.now others.now).tree) }
    ensures found { OnOk result (found.new ≡ least found.old (spec.side context.now locals.now first.now others.now).misuses) }
{
    let span = list_span(first, others);
    let first = operand(alloc, context, locals, found, first)?;
    let mut list = Items::new(alloc);
    next_patterns(alloc, context, locals, found, others, &mut list)?;
    Ok(Pattern::Listed(span, first, list))
}

/// A left side, with what its function stands for, and the patterns by the variables inside.
#[tactic(auto, using(crate::proofs::LeftSidesAt::lhs_prefix_tree, crate::proofs::LeftSidesAt::lhs_prefix_misuses, crate::proofs::LeftSidesAt::lhs_infix_tree, crate::proofs::LeftSidesAt::lhs_infix_misuses, crate::proofs::LeftSidesAt::lhs_nested_tree, crate::proofs::LeftSidesAt::lhs_nested_misuses, gh_resolve_names::proofs::Loops::least_append))]
pub fn left_side(
    alloc: Global,
    context: &Context,
    locals: &Binders<u32>,
    found: &mut Option<Misuse>,
    function: Occurrence,
    node: &gh_tree::FunLhs,
) -> Result<FunLhs, NoMemory>
    ensures value { IfOk result (λ made. made ≡ (spec.lhs_out context.now node.now (function, locals.now)).tree) }
    ensures found { OnOk result (found.new ≡ least found.old (spec.lhs_out context.now node.now (function, locals.now)).misuses) }
{
    match node {
        gh_tree::FunLhs::Prefix(span, var, args) => {
            let mut list = Items::new(alloc);
            arg_patterns(alloc, context, locals, found, args.as_slice(), &mut list)?;
            Ok(FunLhs::Prefix(*span, function, list))
        }
        gh_tree::FunLhs::Infix(span, left, nexts, op, right, others) => {
            let left = side(alloc, context, locals, found, left, nexts.as_slice())?;
            let right = side(alloc, context, locals, found, right, others.as_slice())?;
            Ok(FunLhs::Infix(*span, left, function, right))
        }
        gh_tree::FunLhs::Nested(span, _, inner, _, first, args) => {
            let inner = left_side(alloc, context, locals, found, function, inner.get())?;
            let inner = Boxed::new(alloc, inner)?;
            let mut list = Items::new(alloc);
            let made = arg_pattern(alloc, context, locals, found, first.get())?;
            add(&mut list, made)?;
            arg_patterns(alloc, context, locals, found, args.as_slice(), &mut list)?;
            Ok(FunLhs::Nested(*span, inner, list))
        }
    }
}
