// The variables of patterns.
ghost use Rattle.std.specs.Prelude.{◌≡◌, ◌++◌, ◌∷◌, [], OnOk};
ghost use Rattle.std.specs.List.{flat_map};
ghost use Rattle.gh_modules.specs.Patterns as spec;

use gh_base::{ListOf, NameId, NoMemory};
use gh_tree::{ArgPattern, FunLhs, NextPattern, PatOperand, PatPart, Pattern, Var, VarOp};

/// The name of a variable, with or without parentheses.
pub fn var_name(var: &Var) -> NameId
    ensures { result ≡ spec.var_name var.now }
{
    match var {
        Var::Word(name) => name.id,
        Var::Symbol(_, name, _) => name.id,
    }
}

fn var_op_name(op: &VarOp) -> NameId
    ensures { result ≡ spec.var_op_name op.now }
{
    match op {
        VarOp::Symbol(name) => name.id,
        VarOp::Quoted(_, name, _) => name.id,
    }
}

/// The name that a left side defines.
#[tactic(auto, using(crate::proofs::PatternsAt::head_prefix, crate::proofs::PatternsAt::head_infix, crate::proofs::PatternsAt::head_nested))]
pub fn head_name(left: &FunLhs) -> NameId
    ensures { result ≡ spec.head_name left.now }
{
    match left {
        FunLhs::Prefix(_, var, _) => var_name(var),
        FunLhs::Infix(_, _, _, op, _, _) => var_op_name(op),
        FunLhs::Nested(_, _, inner, _, _, _) => head_name(inner.get()),
    }
}

fn add(names: &mut ListOf<NameId>, name: NameId) -> Result<(), NoMemory>
    ensures { OnOk result (names.new ≡ names.old ++ name ∷ []) }
{
    names.push(name)?;
    Ok(())
}

/// Adds the variables of a pattern.
#[cycle(patterns)]
#[tactic(auto, using(crate::proofs::PatternsAt::pattern_at, std::proofs::Common::append_assoc))]
pub fn add_pattern(names: &mut ListOf<NameId>, node: &Pattern) -> Result<(), NoMemory>
    ensures { OnOk result (names.new ≡ names.old ++ spec.pattern_names node.now) }
{
    add_operand(names, &node.first)?;
    add_next_patterns(names, node.others.as_slice())?;
    Ok(())
}

#[cycle(patterns)]
#[tactic(auto, using(crate::proofs::PatternsAt::pat_operand_negative, crate::proofs::PatternsAt::pat_operand_arg, crate::proofs::PatternsAt::pat_operand_con, std::proofs::Common::append_assoc))]
fn add_operand(names: &mut ListOf<NameId>, node: &PatOperand) -> Result<(), NoMemory>
    ensures { OnOk result (names.new ≡ names.old ++ spec.pat_operand_names node.now) }
{
    match node {
        PatOperand::Negative(..) => Ok(()),
        PatOperand::Arg(inner) => {
            add_arg_pattern(names, inner.get())?;
            Ok(())
        }
        PatOperand::Con(_, _, first, others) => {
            add_arg_pattern(names, first.get())?;
            add_arg_patterns(names, others.as_slice())?;
            Ok(())
        }
    }
}

#[cycle(patterns)]
#[tactic(auto, using(crate::proofs::PatternsAt::arg_pattern_var, crate::proofs::PatternsAt::arg_pattern_as, crate::proofs::PatternsAt::arg_pattern_wild, crate::proofs::PatternsAt::arg_pattern_con, crate::proofs::PatternsAt::arg_pattern_int, crate::proofs::PatternsAt::arg_pattern_char, crate::proofs::PatternsAt::arg_pattern_str, crate::proofs::PatternsAt::arg_pattern_paren, crate::proofs::PatternsAt::arg_pattern_tuple, crate::proofs::PatternsAt::arg_pattern_list, std::proofs::Common::append_assoc))]
fn add_arg_pattern(names: &mut ListOf<NameId>, node: &ArgPattern) -> Result<(), NoMemory>
    ensures { OnOk result (names.new ≡ names.old ++ spec.arg_pattern_names node.now) }
{
    match node {
        ArgPattern::Var(var) => {
            add(names, var_name(var))?;
            Ok(())
        }
        ArgPattern::As(_, var, _, inner) => {
            add(names, var_name(var))?;
            add_arg_pattern(names, inner.get())?;
            Ok(())
        }
        ArgPattern::Wild(_) => Ok(()),
        ArgPattern::Con(_) => Ok(()),
        ArgPattern::Int(..) => Ok(()),
        ArgPattern::Char(..) => Ok(()),
        ArgPattern::Str(..) => Ok(()),
        ArgPattern::Paren(_, _, inner, _) => {
            add_pattern(names, inner.get())?;
            Ok(())
        }
        ArgPattern::Tuple(_, _, first, others, _) => {
            add_pattern(names, first.get())?;
            add_parts(names, others.as_slice())?;
            Ok(())
        }
        ArgPattern::List(_, _, first, others, _) => {
            add_pattern(names, first.get())?;
            add_parts(names, others.as_slice())?;
            Ok(())
        }
    }
}

#[cycle(patterns)]
#[tactic(auto, using(std::proofs::lemmas::List::flat_map_more))]
fn add_next_patterns(names: &mut ListOf<NameId>, parts: &[NextPattern]) -> Result<(), NoMemory>
    ensures { OnOk result (names.new ≡ names.old ++ flat_map spec.next_pattern_names parts.now) }
{
    for part in parts {
        add_operand(names, &part.operand)?;
    }
    Ok(())
}

#[cycle(patterns)]
#[tactic(auto, using(std::proofs::lemmas::List::flat_map_more))]
fn add_arg_patterns(names: &mut ListOf<NameId>, parts: &[ArgPattern]) -> Result<(), NoMemory>
    ensures { OnOk result (names.new ≡ names.old ++ flat_map spec.arg_pattern_names parts.now) }
{
    for part in parts {
        add_arg_pattern(names, part)?;
    }
    Ok(())
}

#[cycle(patterns)]
#[tactic(auto, using(std::proofs::lemmas::List::flat_map_more))]
fn add_parts(names: &mut ListOf<NameId>, parts: &[PatPart]) -> Result<(), NoMemory>
    ensures { OnOk result (names.new ≡ names.old ++ flat_map spec.pat_part_names parts.now) }
{
    for part in parts {
        add_pattern(names, &part.part)?;
    }
    Ok(())
}
