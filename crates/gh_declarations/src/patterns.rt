// The variables of patterns and of left sides, and what left sides define.
ghost use Rattle.std.specs.Prelude.{◌≡◌, ◌+◌, ◌++◌, ◌∷◌, [], IfOk, OnOk};
ghost use Rattle.std.specs.List.{flat_map};
ghost use Rattle.gh_declarations.specs.Patterns as spec;

use crate::named::{Named, var, var_op};
use gh_base::{ListOf, NoMemory};
use gh_tree::{ArgPattern, FunLhs, NextPattern, PatOperand, PatPart, Pattern};

/// The name that a left side defines.
#[tactic(auto, using(crate::proofs::PatternsAt::head_prefix, crate::proofs::PatternsAt::head_infix, crate::proofs::PatternsAt::head_nested))]
pub fn head(left: &FunLhs) -> Named
    ensures { result ≡ (spec.head_of left.now).named }
{
    match left {
        FunLhs::Prefix(_, name, _) => var(name),
        FunLhs::Infix(_, _, _, op, _, _) => var_op(op),
        FunLhs::Nested(_, _, inner, _, _, _) => head(inner.get()),
    }
}

fn sum(inside: usize, others: usize) -> Result<usize, NoMemory>
    ensures { IfOk result (λ n. n ≡ inside + (1 + others)) }
{
    let Some(behind) = others.checked_add(1) else {
        return Err(NoMemory);
    };
    let Some(all) = inside.checked_add(behind) else {
        return Err(NoMemory);
    };
    Ok(all)
}

/// How many arguments a left side has.
#[tactic(auto, using(crate::proofs::PatternsAt::arguments_prefix, crate::proofs::PatternsAt::arguments_infix, crate::proofs::PatternsAt::arguments_nested))]
pub fn arguments(left: &FunLhs) -> Result<usize, NoMemory>
    ensures { IfOk result (λ n. n ≡ (spec.head_of left.now).arguments) }
{
    match left {
        FunLhs::Prefix(_, _, args) => Ok(args.as_slice().len()),
        FunLhs::Infix(..) => Ok(2),
        FunLhs::Nested(_, _, inner, _, _, others) => {
            let inside = arguments(inner.get())?;
            sum(inside, others.as_slice().len())
        }
    }
}

/// Adds the variables of a pattern.
#[cycle(patterns)]
#[tactic(auto, using(crate::proofs::PatternsAt::pattern_at, std::proofs::Common::append_assoc))]
pub fn add_pattern(names: &mut ListOf<Named>, node: &Pattern) -> Result<(), NoMemory>
    ensures { OnOk result (names.new ≡ names.old ++ spec.pattern_variables node.now) }
{
    add_operand(names, &node.first)?;
    add_next_patterns(names, node.others.as_slice())?;
    Ok(())
}

#[cycle(patterns)]
#[tactic(auto, using(crate::proofs::PatternsAt::pat_operand_negative, crate::proofs::PatternsAt::pat_operand_arg, crate::proofs::PatternsAt::pat_operand_con, std::proofs::Common::append_assoc))]
fn add_operand(names: &mut ListOf<Named>, node: &PatOperand) -> Result<(), NoMemory>
    ensures { OnOk result (names.new ≡ names.old ++ spec.pat_operand_variables node.now) }
{
    match node {
        PatOperand::Negative(..) => Ok(()),
        PatOperand::Arg(inner) => {
            add_arg_pattern(names, inner.get())?;
            Ok(())
        }
        PatOperand::Con(_, _, first, others) => {
            add_arg_pattern(names, first.get())?;
            add_arg_patterns(names, others.as_slice())?;
            Ok(())
        }
    }
}

/// Adds the variables of an argument.
#[cycle(patterns)]
#[tactic(auto, using(crate::proofs::PatternsAt::arg_pattern_var, crate::proofs::PatternsAt::arg_pattern_as, crate::proofs::PatternsAt::arg_pattern_wild, crate::proofs::PatternsAt::arg_pattern_con, crate::proofs::PatternsAt::arg_pattern_int, crate::proofs::PatternsAt::arg_pattern_char, crate::proofs::PatternsAt::arg_pattern_str, crate::proofs::PatternsAt::arg_pattern_paren, crate::proofs::PatternsAt::arg_pattern_tuple, crate::proofs::PatternsAt::arg_pattern_list, std::proofs::Common::append_assoc))]
pub fn add_arg_pattern(names: &mut ListOf<Named>, node: &ArgPattern) -> Result<(), NoMemory>
    ensures { OnOk result (names.new ≡ names.old ++ spec.arg_pattern_variables node.now) }
{
    match node {
        ArgPattern::Var(name) => {
            names.push(var(name))?;
            Ok(())
        }
        ArgPattern::As(_, name, _, inner) => {
            names.push(var(name))?;
            add_arg_pattern(names, inner.get())?;
            Ok(())
        }
        ArgPattern::Wild(_) => Ok(()),
        ArgPattern::Con(_) => Ok(()),
        ArgPattern::Int(..) => Ok(()),
        ArgPattern::Char(..) => Ok(()),
        ArgPattern::Str(..) => Ok(()),
        ArgPattern::Paren(_, _, inner, _) => {
            add_pattern(names, inner.get())?;
            Ok(())
        }
        ArgPattern::Tuple(_, _, first, others, _) => {
            add_pattern(names, first.get())?;
            add_parts(names, others.as_slice())?;
            Ok(())
        }
        ArgPattern::List(_, _, first, others, _) => {
            add_pattern(names, first.get())?;
            add_parts(names, others.as_slice())?;
            Ok(())
        }
    }
}

#[cycle(patterns)]
#[tactic(auto, using(std::proofs::lemmas::List::flat_map_more))]
fn add_next_patterns(names: &mut ListOf<Named>, parts: &[NextPattern]) -> Result<(), NoMemory>
    ensures { OnOk result (names.new ≡ names.old ++ flat_map spec.next_pattern_variables parts.now) }
{
    for part in parts {
        add_operand(names, &part.operand)?;
    }
    Ok(())
}

/// Adds the variables of arguments.
#[cycle(patterns)]
#[tactic(auto, using(std::proofs::lemmas::List::flat_map_more))]
pub fn add_arg_patterns(names: &mut ListOf<Named>, parts: &[ArgPattern]) -> Result<(), NoMemory>
    ensures { OnOk result (names.new ≡ names.old ++ flat_map spec.arg_pattern_variables parts.now) }
{
    for part in parts {
        add_arg_pattern(names, part)?;
    }
    Ok(())
}

#[cycle(patterns)]
#[tactic(auto, using(std::proofs::lemmas::List::flat_map_more))]
fn add_parts(names: &mut ListOf<Named>, parts: &[PatPart]) -> Result<(), NoMemory>
    ensures { OnOk result (names.new ≡ names.old ++ flat_map spec.pat_part_variables parts.now) }
{
    for part in parts {
        add_pattern(names, &part.part)?;
    }
    Ok(())
}

/// Adds the variables of the arguments of a left side.
#[tactic(auto, using(crate::proofs::PatternsAt::left_prefix, crate::proofs::PatternsAt::left_infix, crate::proofs::PatternsAt::left_nested, std::proofs::Common::append_assoc))]
pub fn add_left(names: &mut ListOf<Named>, left: &FunLhs) -> Result<(), NoMemory>
    ensures { OnOk result (names.new ≡ names.old ++ spec.left_variables left.now) }
{
    match left {
        FunLhs::Prefix(_, _, args) => {
            add_arg_patterns(names, args.as_slice())?;
            Ok(())
        }
        FunLhs::Infix(_, first, others, _, right, behind) => {
            add_operand(names, first)?;
            add_next_patterns(names, others.as_slice())?;
            add_operand(names, right)?;
            add_next_patterns(names, behind.as_slice())?;
            Ok(())
        }
        FunLhs::Nested(_, _, inner, _, first, others) => {
            add_left(names, inner.get())?;
            add_arg_pattern(names, first.get())?;
            add_arg_patterns(names, others.as_slice())?;
            Ok(())
        }
    }
}
