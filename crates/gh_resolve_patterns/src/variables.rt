// The variables of patterns.
ghost use Rattle.std.specs.Prelude.{◌≡◌, ◌++◌, ◌∷◌, [], map, OnOk};
ghost use Rattle.gh_resolve_names.specs.Misuses.{joined};
ghost use Rattle.gh_resolve_names.specs.Standing as standing;
ghost use Rattle.gh_resolve_names.specs.Written as written;
ghost use Rattle.gh_resolve_patterns.specs.Variables as spec;

use gh_base::{ListOf, NoMemory};
use gh_resolve_names::{binder, used_var};
use gh_tree::{ArgPattern, NextPattern, PatOperand, PatPart, Pattern, Var};

fn add(list: &mut ListOf<(u32, u32)>, name: Var) -> Result<(), NoMemory>
    ensures { OnOk result (list.new ≡ list.old ++ standing.binder (written.used_var name) ∷ []) }
{
    list.push(binder(used_var(name)))?;
    Ok(())
}

/// Adds the variables of a pattern.
#[cycle(variables)]
#[tactic(auto, using(crate::proofs::VariablesAt::pattern_vars_at, std::proofs::Common::append_assoc))]
pub fn add_pattern(list: &mut ListOf<(u32, u32)>, node: &Pattern) -> Result<(), NoMemory>
    ensures { OnOk result (list.new ≡ list.old ++ spec.pattern_vars_of node.now) }
{
    add_operand(list, &node.first)?;
    add_next_patterns(list, node.others.as_slice())?;
    Ok(())
}

/// Adds the variables of an operand.
#[cycle(variables)]
#[tactic(auto, using(crate::proofs::VariablesAt::operand_vars_negative, crate::proofs::VariablesAt::operand_vars_arg, crate::proofs::VariablesAt::operand_vars_con, std::proofs::Common::append_assoc))]
pub fn add_operand(list: &mut ListOf<(u32, u32)>, node: &PatOperand) -> Result<(), NoMemory>
    ensures { OnOk result (list.new ≡ list.old ++ spec.operand_vars_of node.now) }
{
    match node {
        PatOperand::Negative(..) => Ok(()),
        PatOperand::Arg(inner) => {
            add_argument(list, inner.get())?;
            Ok(())
        }
        PatOperand::Con(_, _, first, others) => {
            add_argument(list, first.get())?;
            add_arguments(list, others.as_slice())?;
            Ok(())
        }
    }
}

/// Adds the variables of a pattern that may stand as an argument.
#[cycle(variables)]
#[tactic(auto, using(crate::proofs::VariablesAt::arg_vars_var, crate::proofs::VariablesAt::arg_vars_as, crate::proofs::VariablesAt::arg_vars_wild, crate::proofs::VariablesAt::arg_vars_con, crate::proofs::VariablesAt::arg_vars_int, crate::proofs::VariablesAt::arg_vars_char, crate::proofs::VariablesAt::arg_vars_str, crate::proofs::VariablesAt::arg_vars_paren, crate::proofs::VariablesAt::arg_vars_tuple, crate::proofs::VariablesAt::arg_vars_list, std::proofs::Common::append_assoc))]
pub fn add_argument(list: &mut ListOf<(u32, u32)>, node: &ArgPattern) -> Result<(), NoMemory>
    ensures { OnOk result (list.new ≡ list.old ++ spec.arg_vars_of node.now) }
{
    match node {
        ArgPattern::Var(var) => {
            add(list, *var)?;
            Ok(())
        }
        ArgPattern::As(_, var, _, inner) => {
            add(list, *var)?;
            add_argument(list, inner.get())?;
            Ok(())
        }
        ArgPattern::Wild(_) => Ok(()),
        ArgPattern::Con(_) => Ok(()),
        ArgPattern::Int(..) => Ok(()),
        ArgPattern::Char(..) => Ok(()),
        ArgPattern::Str(..) => Ok(()),
        ArgPattern::Paren(_, _, inner, _) => {
            add_pattern(list, inner.get())?;
            Ok(())
        }
        ArgPattern::Tuple(_, _, first, others, _) => {
            add_pattern(list, first.get())?;
            add_parts(list, others.as_slice())?;
            Ok(())
        }
        ArgPattern::List(_, _, first, others, _) => {
            add_pattern(list, first.get())?;
            add_parts(list, others.as_slice())?;
            Ok(())
        }
    }
}

/// Adds the variables of operands behind operators.
#[cycle(variables)]
pub fn add_next_patterns(
    list: &mut ListOf<(u32, u32)>,
    nodes: &[NextPattern],
) -> Result<(), NoMemory>
    ensures { OnOk result (list.new ≡ list.old ++ joined (map spec.next_vars_of nodes.now)) }
{
    for node in nodes {
        add_operand(list, &node.operand)?;
    }
    Ok(())
}

/// Adds the variables of arguments.
#[cycle(variables)]
pub fn add_arguments(list: &mut ListOf<(u32, u32)>, nodes: &[ArgPattern]) -> Result<(), NoMemory>
    ensures { OnOk result (list.new ≡ list.old ++ joined (map spec.arg_vars_of nodes.now)) }
{
    for node in nodes {
        add_argument(list, node)?;
    }
    Ok(())
}

#[cycle(variables)]
fn add_parts(list: &mut ListOf<(u32, u32)>, nodes: &[PatPart]) -> Result<(), NoMemory>
    ensures { OnOk result (list.new ≡ list.old ++ joined (map spec.part_vars_of nodes.now)) }
{
    for node in nodes {
        add_pattern(list, &node.part)?;
    }
    Ok(())
}
