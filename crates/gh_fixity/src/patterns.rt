// Patterns and left sides of functions, arranged.
ghost use Rattle.std.specs.Prelude.{◌≡◌, ◌∷◌, ◌++◌, [], map, IfOk, OnOk};
ghost use Rattle.gh_fixity.specs.declared.part.Part.TheVariants as part_spec;
ghost use Rattle.gh_fixity.specs.Finish.{finished_pattern};
ghost use Rattle.gh_fixity.specs.Patterns as spec;
ghost use Rattle.gh_fixity.specs.Walks.{all_clashes, all_trees, least, trees};

use crate::finish::{Sides, State, lhs, plain_pattern};
use crate::part::Part;
use crate::tops::Tops;
use crate::walked::WalkedPattern;
use gh_base::NoMemory;
use gh_program::{ArgPattern, FunLhs, NextPattern, Occurrence, PatOperand, Pattern, backwards};
use sqlite_items::{Boxed, Items};
use std::alloc::Global;

// Each function goes down at most so many levels as `depth` says, and answers `NoMemory` below. No program that is kept in
// memory has so many.

#[cycle(patterns)]
#[tactic(auto, using(crate::proofs::PatternsAt::arg_pattern_var_tree, crate::proofs::PatternsAt::arg_pattern_var_clashes, crate::proofs::PatternsAt::arg_pattern_as_tree, crate::proofs::PatternsAt::arg_pattern_as_clashes, crate::proofs::PatternsAt::arg_pattern_wild_tree, crate::proofs::PatternsAt::arg_pattern_wild_clashes, crate::proofs::PatternsAt::arg_pattern_con_tree, crate::proofs::PatternsAt::arg_pattern_con_clashes, crate::proofs::PatternsAt::arg_pattern_int_tree, crate::proofs::PatternsAt::arg_pattern_int_clashes, crate::proofs::PatternsAt::arg_pattern_char_tree, crate::proofs::PatternsAt::arg_pattern_char_clashes, crate::proofs::PatternsAt::arg_pattern_str_tree, crate::proofs::PatternsAt::arg_pattern_str_clashes, crate::proofs::PatternsAt::arg_pattern_paren_tree, crate::proofs::PatternsAt::arg_pattern_paren_clashes, crate::proofs::PatternsAt::arg_pattern_tuple_tree, crate::proofs::PatternsAt::arg_pattern_tuple_clashes, crate::proofs::PatternsAt::arg_pattern_list_tree, crate::proofs::PatternsAt::arg_pattern_list_clashes, crate::proofs::Loops::least_append))]
fn arg_pattern(
    alloc: Global,
    tops: &Tops,
    state: &mut State,
    depth: u32,
    node: ArgPattern,
) -> Result<ArgPattern, NoMemory>
    ensures value { IfOk result (λ found. found ≡ (spec.arg_pattern_out tops.now node state.old.locals).tree) }
    ensures found { OnOk result (state.new.found ≡ least state.old.found ((spec.arg_pattern_out tops.now node state.old.locals).clashes)) }
    ensures scope { OnOk result (state.new.locals ≡ state.old.locals) }
{
    match node {
        ArgPattern::As(span, name, inner) => {
            let inner = boxed_arg(alloc, tops, state, depth, inner)?;
            Ok(ArgPattern::As(span, name, inner))
        }
        ArgPattern::Paren(span, inner) => {
            let inner = finished(alloc, tops, state, depth, inner)?;
            Ok(ArgPattern::Paren(span, inner))
        }
        ArgPattern::Tuple(span, parts) => {
            let parts = patterns(alloc, tops, state, depth, parts)?;
            Ok(ArgPattern::Tuple(span, parts))
        }
        ArgPattern::List(span, parts) => {
            let parts = patterns(alloc, tops, state, depth, parts)?;
            Ok(ArgPattern::List(span, parts))
        }
        ArgPattern::Var(name) => Ok(ArgPattern::Var(name)),
        ArgPattern::Wild(span) => Ok(ArgPattern::Wild(span)),
        ArgPattern::Con(con) => Ok(ArgPattern::Con(con)),
        ArgPattern::Int(span, value) => Ok(ArgPattern::Int(span, value)),
        ArgPattern::Char(span, value) => Ok(ArgPattern::Char(span, value)),
        ArgPattern::Str(span, text) => Ok(ArgPattern::Str(span, text)),
    }
}

#[cycle(patterns)]
fn boxed_arg(
    alloc: Global,
    tops: &Tops,
    state: &mut State,
    depth: u32,
    node: Boxed<ArgPattern>,
) -> Result<Boxed<ArgPattern>, NoMemory>
    ensures value { IfOk result (λ found. found ≡ (spec.arg_pattern_out tops.now node state.old.locals).tree) }
    ensures found { OnOk result (state.new.found ≡ least state.old.found ((spec.arg_pattern_out tops.now node state.old.locals).clashes)) }
    ensures scope { OnOk result (state.new.locals ≡ state.old.locals) }
{
    if depth == 0 {
        return Err(NoMemory);
    }
    let inner = arg_pattern(alloc, tops, state, depth - 1, node.into_inner())?;
    Ok(Boxed::new(alloc, inner)?)
}

#[cycle(patterns)]
#[tactic(auto, using(crate::proofs::PatternsAt::pat_operand_negative_tree, crate::proofs::PatternsAt::pat_operand_negative_clashes, crate::proofs::PatternsAt::pat_operand_arg_tree, crate::proofs::PatternsAt::pat_operand_arg_clashes, crate::proofs::PatternsAt::pat_operand_con_tree, crate::proofs::PatternsAt::pat_operand_con_clashes, crate::proofs::Loops::least_append))]
fn pat_operand(
    alloc: Global,
    tops: &Tops,
    state: &mut State,
    depth: u32,
    node: PatOperand,
) -> Result<PatOperand, NoMemory>
    ensures value { IfOk result (λ found. found ≡ (spec.pat_operand_out tops.now node state.old.locals).tree) }
    ensures found { OnOk result (state.new.found ≡ least state.old.found ((spec.pat_operand_out tops.now node state.old.locals).clashes)) }
    ensures scope { OnOk result (state.new.locals ≡ state.old.locals) }
{
    match node {
        PatOperand::Negative(span, value) => Ok(PatOperand::Negative(span, value)),
        PatOperand::Arg(inner) => {
            let inner = boxed_arg(alloc, tops, state, depth, inner)?;
            Ok(PatOperand::Arg(inner))
        }
        PatOperand::Con(span, con, parts) => {
            let parts = arg_patterns(alloc, tops, state, depth, parts)?;
            Ok(PatOperand::Con(span, con, parts))
        }
    }
}

// Adds an operator and the operand behind it.
#[cycle(patterns)]
#[tactic(auto, using(crate::proofs::PatternsAt::next_pattern_at_tree, crate::proofs::PatternsAt::next_pattern_at_clashes, crate::proofs::Loops::least_append))]
fn next_pattern(
    alloc: Global,
    tops: &Tops,
    state: &mut State,
    depth: u32,
    parts: &mut Items<Part>,
    node: NextPattern,
) -> Result<(), NoMemory>
    ensures value { OnOk result (parts.new ≡ parts.old ++ (spec.next_pattern_out tops.now node state.old.locals).tree) }
    ensures found { OnOk result (state.new.found ≡ least state.old.found (spec.next_pattern_out tops.now node state.old.locals).clashes) }
    ensures scope { OnOk result (state.new.locals ≡ state.old.locals) }
{
    let NextPattern { op, operand } = node;
    let operand = pat_operand(alloc, tops, state, depth, operand)?;
    put_pattern(parts, op, Boxed::new(alloc, operand)?)
}

fn put_pattern(
    parts: &mut Items<Part>,
    op: Occurrence,
    operand: Boxed<PatOperand>,
) -> Result<(), NoMemory>
    ensures { OnOk result (parts.new ≡ parts.old ++ part_spec.Op op ∷ part_spec.Pattern operand ∷ []) }
{
    parts.push(Part::Op(op))?;
    parts.push(Part::Pattern(operand))?;
    Ok(())
}

#[cycle(patterns)]
fn next_patterns(
    alloc: Global,
    tops: &Tops,
    state: &mut State,
    depth: u32,
    parts: &mut Items<Part>,
    nodes: Items<NextPattern>,
) -> Result<(), NoMemory>
    ensures value { OnOk result (parts.new ≡ parts.old ++ all_trees state.old.locals (map (spec.next_pattern_out tops.now) nodes)) }
    ensures found { OnOk result (state.new.found ≡ least state.old.found (all_clashes state.old.locals (map (spec.next_pattern_out tops.now) nodes))) }
    ensures scope { OnOk result (state.new.locals ≡ state.old.locals) }
{
    let mut waiting = backwards(alloc, nodes)?;
    while let Some(part) = waiting.pop() {
        next_pattern(alloc, tops, state, depth, parts, part)?;
    }
    Ok(())
}

// A list that begins with this operand.
fn first_pattern(alloc: Global, operand: PatOperand) -> Result<Items<Part>, NoMemory>
    ensures { IfOk result (λ parts. parts ≡ part_spec.Pattern operand ∷ []) }
{
    let operand = Boxed::new(alloc, operand)?;
    let mut parts = Items::new(alloc);
    parts.push(Part::Pattern(operand))?;
    Ok(parts)
}

#[cycle(patterns)]
#[tactic(auto, using(crate::proofs::PatternsAt::pattern_listed_tree, crate::proofs::PatternsAt::pattern_listed_clashes, crate::proofs::PatternsAt::pattern_infix_tree, crate::proofs::PatternsAt::pattern_infix_clashes, crate::proofs::Loops::least_append))]
fn pattern_walked(
    alloc: Global,
    tops: &Tops,
    state: &mut State,
    depth: u32,
    node: Pattern,
) -> Result<WalkedPattern, NoMemory>
    ensures value { IfOk result (λ found. found ≡ (spec.pattern_out tops.now node state.old.locals).tree) }
    ensures found { OnOk result (state.new.found ≡ least state.old.found ((spec.pattern_out tops.now node state.old.locals).clashes)) }
    ensures scope { OnOk result (state.new.locals ≡ state.old.locals) }
{
    match node {
        Pattern::Listed(_, operand, others) => {
            let operand = pat_operand(alloc, tops, state, depth, operand)?;
            let mut parts = first_pattern(alloc, operand)?;
            next_patterns(alloc, tops, state, depth, &mut parts, others)?;
            Ok(WalkedPattern::List(parts))
        }
        Pattern::Infix(span, left, op, right) => {
            let left = finished(alloc, tops, state, depth, left)?;
            let right = finished(alloc, tops, state, depth, right)?;
            let node = Boxed::new(alloc, Pattern::Infix(span, left, op, right))?;
            Ok(WalkedPattern::Tree(node))
        }
    }
}

#[cycle(patterns)]
#[tactic(auto, using(crate::proofs::Loops::least_append))]
fn finished(
    alloc: Global,
    tops: &Tops,
    state: &mut State,
    depth: u32,
    node: Boxed<Pattern>,
) -> Result<Boxed<Pattern>, NoMemory>
    ensures value { IfOk result (λ found. found ≡ (finished_pattern tops.now (spec.pattern_out tops.now node) state.old.locals).tree) }
    ensures found { OnOk result (state.new.found ≡ least state.old.found ((finished_pattern tops.now (spec.pattern_out tops.now node) state.old.locals).clashes)) }
    ensures scope { OnOk result (state.new.locals ≡ state.old.locals) }
{
    if depth == 0 {
        return Err(NoMemory);
    }
    let walked = pattern_walked(alloc, tops, state, depth - 1, node.into_inner())?;
    plain_pattern(alloc, tops, state, walked)
}

/// A pattern that stands by itself.
#[cycle(patterns)]
pub fn pattern(
    alloc: Global,
    tops: &Tops,
    state: &mut State,
    depth: u32,
    node: Pattern,
) -> Result<Pattern, NoMemory>
    ensures value { IfOk result (λ found. found ≡ (finished_pattern tops.now (spec.pattern_out tops.now node) state.old.locals).tree) }
    ensures found { OnOk result (state.new.found ≡ least state.old.found ((finished_pattern tops.now (spec.pattern_out tops.now node) state.old.locals).clashes)) }
    ensures scope { OnOk result (state.new.locals ≡ state.old.locals) }
{
    let node = finished(alloc, tops, state, depth, Boxed::new(alloc, node)?)?;
    Ok(node.into_inner())
}

/// The argument patterns with their operator lists arranged, in order.
#[cycle(patterns)]
pub fn arg_patterns(
    alloc: Global,
    tops: &Tops,
    state: &mut State,
    depth: u32,
    node: Items<ArgPattern>,
) -> Result<Items<ArgPattern>, NoMemory>
    ensures value { IfOk result (λ found. found ≡ trees state.old.locals (map (spec.arg_pattern_out tops.now) node)) }
    ensures found { OnOk result (state.new.found ≡ least state.old.found (all_clashes state.old.locals (map (spec.arg_pattern_out tops.now) node))) }
    ensures scope { OnOk result (state.new.locals ≡ state.old.locals) }
{
    let mut waiting = backwards(alloc, node)?;
    let mut done = Items::new(alloc);
    while let Some(part) = waiting.pop() {
        let arranged = arg_pattern(alloc, tops, state, depth, part)?;
        done.push(arranged)?;
    }
    Ok(done)
}

#[cycle(patterns)]
fn patterns(
    alloc: Global,
    tops: &Tops,
    state: &mut State,
    depth: u32,
    node: Items<Pattern>,
) -> Result<Items<Pattern>, NoMemory>
    ensures value { IfOk result (λ found. found ≡ trees state.old.locals (map (finished_pattern tops.now) (map (spec.pattern_out tops.now) node))) }
    ensures found { OnOk result (state.new.found ≡ least state.old.found (all_clashes state.old.locals (map (finished_pattern tops.now) (map (spec.pattern_out tops.now) node)))) }
    ensures scope { OnOk result (state.new.locals ≡ state.old.locals) }
{
    let mut waiting = backwards(alloc, node)?;
    let mut done = Items::new(alloc);
    while let Some(part) = waiting.pop() {
        let arranged = pattern(alloc, tops, state, depth, part)?;
        done.push(arranged)?;
    }
    Ok(done)
}

/// The left side of a function.
#[tactic(auto, using(crate::proofs::PatternsAt::fun_lhs_prefix_tree, crate::proofs::PatternsAt::fun_lhs_prefix_clashes, crate::proofs::PatternsAt::fun_lhs_infix_tree, crate::proofs::PatternsAt::fun_lhs_infix_clashes, crate::proofs::PatternsAt::fun_lhs_nested_tree, crate::proofs::PatternsAt::fun_lhs_nested_clashes, crate::proofs::Loops::least_append))]
pub fn fun_lhs(
    alloc: Global,
    tops: &Tops,
    state: &mut State,
    depth: u32,
    node: FunLhs,
) -> Result<FunLhs, NoMemory>
    ensures value { IfOk result (λ found. found ≡ (spec.fun_lhs_out tops.now node state.old.locals).tree) }
    ensures found { OnOk result (state.new.found ≡ least state.old.found ((spec.fun_lhs_out tops.now node state.old.locals).clashes)) }
    ensures scope { OnOk result (state.new.locals ≡ state.old.locals) }
{
    match node {
        FunLhs::Prefix(span, name, parts) => {
            let parts = arg_patterns(alloc, tops, state, depth, parts)?;
            Ok(FunLhs::Prefix(span, name, parts))
        }
        FunLhs::Infix(span, left, op, right) => {
            let left = pattern_walked(alloc, tops, state, depth, left)?;
            let right = pattern_walked(alloc, tops, state, depth, right)?;
            let Sides { left, right } = lhs(alloc, tops, state, left, op, right)?;
            Ok(FunLhs::Infix(span, left.into_inner(), op, right.into_inner()))
        }
        FunLhs::Nested(span, inner, parts) => {
            if depth == 0 {
                return Err(NoMemory);
            }
            let inner = fun_lhs(alloc, tops, state, depth - 1, inner.into_inner())?;
            let inner = Boxed::new(alloc, inner)?;
            let parts = arg_patterns(alloc, tops, state, depth, parts)?;
            Ok(FunLhs::Nested(span, inner, parts))
        }
    }
}
