// Patterns, with the one origin of each constructor and the binder of each variable.
ghost use Rattle.std.specs.Prelude.{◌≡◌, ◌∷◌, ◌++◌, [], map, suc, IfOk, OnOk};
ghost use Rattle.gh_resolve_names.specs.Misuses.{all_misuses, least, trees};
ghost use Rattle.gh_resolve_patterns.specs.Patterns as spec;

use gh_base::{ListOf, NoMemory};
use gh_binders::Binders;
use gh_program::{ArgPattern, NextPattern, PatOperand, Pattern, add};
use gh_resolve_names::{
    Context, Misuse, bound, constructor_operator, general_constructor, used_var,
};
use sqlite_items::{Boxed, Items};
use std::alloc::Global;

/// A pattern.
#[cycle(patterns)]
#[tactic(auto, using(crate::proofs::PatternsAt::pattern_at_tree, crate::proofs::PatternsAt::pattern_at_misuses, gh_resolve_names::proofs::Loops::least_append))]
pub fn pattern(
    alloc: Global,
    context: &Context,
    locals: &Binders<u32>,
    found: &mut Option<Misuse>,
    node: &gh_tree::Pattern,
) -> Result<Pattern, NoMemory>
    ensures value { IfOk result (λ made. made ≡ (spec.pattern_out context.now node.now locals.now).tree) }
    ensures found { OnOk result (found.new ≡ least found.old (spec.pattern_out context.now node.now locals.now).misuses) }
{
    let first = operand(alloc, context, locals, found, &node.first)?;
    let mut others = Items::new(alloc);
    next_patterns(
        alloc,
        context,
        locals,
        found,
        node.others.as_slice(),
        &mut others,
    )?;
    Ok(Pattern::Listed(node.span, first, others))
}

#[cycle(patterns)]
#[tactic(auto, using(crate::proofs::PatternsAt::next_pattern_at_tree, crate::proofs::PatternsAt::next_pattern_at_misuses, gh_resolve_names::proofs::Loops::least_append))]
fn next_pattern(
    alloc: Global,
    context: &Context,
    locals: &Binders<u32>,
    found: &mut Option<Misuse>,
    node: &gh_tree::NextPattern,
) -> Result<NextPattern, NoMemory>
    ensures value { IfOk result (λ made. made ≡ (spec.next_pattern_out context.now node.now locals.now).tree) }
    ensures found { OnOk result (found.new ≡ least found.old (spec.next_pattern_out context.now node.now locals.now).misuses) }
{
    let op = constructor_operator(context, found, Some(2), node.op);
    let operand = operand(alloc, context, locals, found, &node.operand)?;
    Ok(NextPattern { op, operand })
}

/// Operators, each with the operand behind it.
#[cycle(patterns)]
pub fn next_patterns(
    alloc: Global,
    context: &Context,
    locals: &Binders<u32>,
    found: &mut Option<Misuse>,
    nodes: &[gh_tree::NextPattern],
    list: &mut Items<NextPattern>,
) -> Result<(), NoMemory>
    ensures value { OnOk result (list.new ≡ list.old ++ trees locals.now (map (spec.next_pattern_out context.now) nodes.now)) }
    ensures found { OnOk result (found.new ≡ least found.old (all_misuses locals.now (map (spec.next_pattern_out context.now) nodes.now))) }
{
    for node in nodes {
        let made = next_pattern(alloc, context, locals, found, node)?;
        add(list, made)?;
    }
    Ok(())
}

#[cycle(patterns)]
fn boxed_argument(
    alloc: Global,
    context: &Context,
    locals: &Binders<u32>,
    found: &mut Option<Misuse>,
    node: &gh_tree::ArgPattern,
) -> Result<Boxed<ArgPattern>, NoMemory>
    ensures value { IfOk result (λ made. made ≡ (spec.arg_pattern_out context.now node.now locals.now).tree) }
    ensures found { OnOk result (found.new ≡ least found.old (spec.arg_pattern_out context.now node.now locals.now).misuses) }
{
    let made = arg_pattern(alloc, context, locals, found, node)?;
    Ok(Boxed::new(alloc, made)?)
}

#[cycle(patterns)]
fn boxed_pattern(
    alloc: Global,
    context: &Context,
    locals: &Binders<u32>,
    found: &mut Option<Misuse>,
    node: &gh_tree::Pattern,
) -> Result<Boxed<Pattern>, NoMemory>
    ensures value { IfOk result (λ made. made ≡ (spec.pattern_out context.now node.now locals.now).tree) }
    ensures found { OnOk result (found.new ≡ least found.old (spec.pattern_out context.now node.now locals.now).misuses) }
{
    let made = pattern(alloc, context, locals, found, node)?;
    Ok(Boxed::new(alloc, made)?)
}

fn one_more(count: usize) -> Result<u64, NoMemory>
    ensures { IfOk result (λ n. n ≡ suc count) }
{
    match (count as u64).checked_add(1) {
        Some(count) => Ok(count),
        None => Err(NoMemory),
    }
}

/// An operand of a pattern.
#[cycle(patterns)]
#[tactic(auto, using(crate::proofs::PatternsAt::pat_operand_negative_tree, crate::proofs::PatternsAt::pat_operand_negative_misuses, crate::proofs::PatternsAt::pat_operand_arg_tree, crate::proofs::PatternsAt::pat_operand_arg_misuses, crate::proofs::PatternsAt::pat_operand_con_tree, crate::proofs::PatternsAt::pat_operand_con_misuses, crate::proofs::Lengths::args_length, gh_resolve_names::proofs::Loops::least_append))]
pub fn operand(
    alloc: Global,
    context: &Context,
    locals: &Binders<u32>,
    found: &mut Option<Misuse>,
    node: &gh_tree::PatOperand,
) -> Result<PatOperand, NoMemory>
    ensures value { IfOk result (λ made. made ≡ (spec.pat_operand_out context.now node.now locals.now).tree) }
    ensures found { OnOk result (found.new ≡ least found.old (spec.pat_operand_out context.now node.now locals.now).misuses) }
{
    match node {
        gh_tree::PatOperand::Negative(span, _, _, number) => Ok(PatOperand::Negative(
            *span, *number,
        )),
        gh_tree::PatOperand::Arg(inner) => {
            let inner = boxed_argument(alloc, context, locals, found, inner.get())?;
            Ok(PatOperand::Arg(inner))
        }
        gh_tree::PatOperand::Con(span, con, first, others) => {
            let count = one_more(others.as_slice().len())?;
            let con = general_constructor(context, found, Some(count), con)?;
            let mut list = Items::new(alloc);
            let made = arg_pattern(alloc, context, locals, found, first.get())?;
            add(&mut list, made)?;
            arg_patterns(alloc, context, locals, found, others.as_slice(), &mut list)?;
            Ok(PatOperand::Con(*span, con, list))
        }
    }
}

/// Patterns that are arguments.
#[cycle(patterns)]
pub fn arg_patterns(
    alloc: Global,
    context: &Context,
    locals: &Binders<u32>,
    found: &mut Option<Misuse>,
    nodes: &[gh_tree::ArgPattern],
    list: &mut Items<ArgPattern>,
) -> Result<(), NoMemory>
    ensures value { OnOk result (list.new ≡ list.old ++ trees locals.now (map (spec.arg_pattern_out context.now) nodes.now)) }
    ensures found { OnOk result (found.new ≡ least found.old (all_misuses locals.now (map (spec.arg_pattern_out context.now) nodes.now))) }
{
    for node in nodes {
        let made = arg_pattern(alloc, context, locals, found, node)?;
        add(list, made)?;
    }
    Ok(())
}

#[cycle(patterns)]
fn parts(
    alloc: Global,
    context: &Context,
    locals: &Binders<u32>,
    found: &mut Option<Misuse>,
    nodes: &[gh_tree::PatPart],
    list: &mut Items<Pattern>,
) -> Result<(), NoMemory>
    ensures value { OnOk result (list.new ≡ list.old ++ trees locals.now (map (spec.pat_part_out context.now) nodes.now)) }
    ensures found { OnOk result (found.new ≡ least found.old (all_misuses locals.now (map (spec.pat_part_out context.now) nodes.now))) }
{
    for node in nodes {
        let made = pattern(alloc, context, locals, found, &node.part)?;
        add(list, made)?;
    }
    Ok(())
}

/// A pattern that may stand as an argument.
#[cycle(patterns)]
#[tactic(auto, using(crate::proofs::PatternsAt::arg_pattern_var_tree, crate::proofs::PatternsAt::arg_pattern_var_misuses, crate::proofs::PatternsAt::arg_pattern_as_tree, crate::proofs::PatternsAt::arg_pattern_as_misuses, crate::proofs::PatternsAt::arg_pattern_wild_tree, crate::proofs::PatternsAt::arg_pattern_wild_misuses, crate::proofs::PatternsAt::arg_pattern_con_tree, crate::proofs::PatternsAt::arg_pattern_con_misuses, crate::proofs::PatternsAt::arg_pattern_int_tree, crate::proofs::PatternsAt::arg_pattern_int_misuses, crate::proofs::PatternsAt::arg_pattern_char_tree, crate::proofs::PatternsAt::arg_pattern_char_misuses, crate::proofs::PatternsAt::arg_pattern_str_tree, crate::proofs::PatternsAt::arg_pattern_str_misuses, crate::proofs::PatternsAt::arg_pattern_paren_tree, crate::proofs::PatternsAt::arg_pattern_paren_misuses, crate::proofs::PatternsAt::arg_pattern_tuple_tree, crate::proofs::PatternsAt::arg_pattern_tuple_misuses, crate::proofs::PatternsAt::arg_pattern_list_tree, crate::proofs::PatternsAt::arg_pattern_list_misuses, gh_resolve_names::proofs::Loops::least_append))]
pub fn arg_pattern(
    alloc: Global,
    context: &Context,
    locals: &Binders<u32>,
    found: &mut Option<Misuse>,
    node: &gh_tree::ArgPattern,
) -> Result<ArgPattern, NoMemory>
    ensures value { IfOk result (λ made. made ≡ (spec.arg_pattern_out context.now node.now locals.now).tree) }
    ensures found { OnOk result (found.new ≡ least found.old (spec.arg_pattern_out context.now node.now locals.now).misuses) }
{
    match node {
        gh_tree::ArgPattern::Var(var) => Ok(ArgPattern::Var(bound(
            context,
            locals,
            used_var(*var),
        ))),
        gh_tree::ArgPattern::As(span, var, _, inner) => {
            let inner = boxed_argument(alloc, context, locals, found, inner.get())?;
            Ok(ArgPattern::As(*span, bound(context, locals, used_var(*var)), inner))
        }
        gh_tree::ArgPattern::Wild(span) => Ok(ArgPattern::Wild(*span)),
        gh_tree::ArgPattern::Con(con) => {
            let con = general_constructor(context, found, Some(0), con)?;
            Ok(ArgPattern::Con(con))
        }
        gh_tree::ArgPattern::Int(span, number) => Ok(ArgPattern::Int(*span, *number)),
        gh_tree::ArgPattern::Char(span, character) => Ok(ArgPattern::Char(*span, *character)),
        gh_tree::ArgPattern::Str(span, text) => {
            let text = ListOf::from_slice(alloc, text.as_slice())?;
            Ok(ArgPattern::Str(*span, text))
        }
        gh_tree::ArgPattern::Paren(span, _, inner, _) => {
            let inner = boxed_pattern(alloc, context, locals, found, inner.get())?;
            Ok(ArgPattern::Paren(*span, inner))
        }
        gh_tree::ArgPattern::Tuple(span, _, first, others, _) => {
            let mut list = Items::new(alloc);
            let made = pattern(alloc, context, locals, found, first.get())?;
            add(&mut list, made)?;
            parts(alloc, context, locals, found, others.as_slice(), &mut list)?;
            Ok(ArgPattern::Tuple(*span, list))
        }
        gh_tree::ArgPattern::List(span, _, first, others, _) => {
            let mut list = Items::new(alloc);
            let made = pattern(alloc, context, locals, found, first.get())?;
            add(&mut list, made)?;
            parts(alloc, context, locals, found, others.as_slice(), &mut list)?;
            Ok(ArgPattern::List(*span, list))
        }
    }
}
