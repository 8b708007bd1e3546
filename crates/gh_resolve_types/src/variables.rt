// The variables of types.
ghost use Rattle.std.specs.Prelude.{◌≡◌, ◌++◌, ◌∷◌, [], map, OnOk};
ghost use Rattle.gh_resolve_names.specs.Misuses.{joined};
ghost use Rattle.gh_resolve_names.specs.Standing as standing;
ghost use Rattle.gh_resolve_names.specs.Written as written;
ghost use Rattle.gh_resolve_types.specs.TypeVariables as spec;

use gh_base::{ListOf, NoMemory};
use gh_resolve_names::{binder, used_name};
use gh_tree::{ArgType, Arrow, BType, TypeExpr, TypePart};

fn add(list: &mut ListOf<(u32, u32)>, name: gh_tree::Name) -> Result<(), NoMemory>
    ensures { OnOk result (list.new ≡ list.old ++ standing.binder (written.used_name name) ∷ []) }
{
    list.push(binder(used_name(name)))?;
    Ok(())
}

/// Adds the variables of a type.
#[cycle(variables)]
#[tactic(auto, using(crate::proofs::VariablesAt::type_vars_at, std::proofs::Common::append_assoc))]
pub fn add_type(list: &mut ListOf<(u32, u32)>, node: &TypeExpr) -> Result<(), NoMemory>
    ensures { OnOk result (list.new ≡ list.old ++ spec.type_vars_of node.now) }
{
    add_btype(list, &node.first)?;
    add_arrows(list, node.arrows.as_slice())?;
    Ok(())
}

#[cycle(variables)]
#[tactic(auto, using(crate::proofs::VariablesAt::btype_vars_at, std::proofs::Common::append_assoc))]
fn add_btype(list: &mut ListOf<(u32, u32)>, node: &BType) -> Result<(), NoMemory>
    ensures { OnOk result (list.new ≡ list.old ++ spec.btype_vars_of node.now) }
{
    add_arg_type(list, &node.head)?;
    add_arg_types(list, node.args.as_slice())?;
    Ok(())
}

/// Adds the variables of a type that may stand as an argument.
#[cycle(variables)]
#[tactic(auto, using(crate::proofs::VariablesAt::arg_vars_con, crate::proofs::VariablesAt::arg_vars_var, crate::proofs::VariablesAt::arg_vars_unit, crate::proofs::VariablesAt::arg_vars_nolist, crate::proofs::VariablesAt::arg_vars_noarrow, crate::proofs::VariablesAt::arg_vars_notuple, crate::proofs::VariablesAt::arg_vars_paren, crate::proofs::VariablesAt::arg_vars_tuple, crate::proofs::VariablesAt::arg_vars_list, std::proofs::Common::append_assoc))]
pub fn add_arg_type(list: &mut ListOf<(u32, u32)>, node: &ArgType) -> Result<(), NoMemory>
    ensures { OnOk result (list.new ≡ list.old ++ spec.arg_vars_of node.now) }
{
    match node {
        ArgType::Con(_) => Ok(()),
        ArgType::Var(name) => {
            add(list, *name)?;
            Ok(())
        }
        ArgType::Unit(..) => Ok(()),
        ArgType::NoList(..) => Ok(()),
        ArgType::NoArrow(..) => Ok(()),
        ArgType::NoTuple(..) => Ok(()),
        ArgType::Paren(_, _, inner, _) => {
            add_type(list, inner.get())?;
            Ok(())
        }
        ArgType::Tuple(_, _, first, others, _) => {
            add_type(list, first.get())?;
            add_parts(list, others.as_slice())?;
            Ok(())
        }
        ArgType::List(_, _, inner, _) => {
            add_type(list, inner.get())?;
            Ok(())
        }
    }
}

#[cycle(variables)]
fn add_arrows(list: &mut ListOf<(u32, u32)>, nodes: &[Arrow]) -> Result<(), NoMemory>
    ensures { OnOk result (list.new ≡ list.old ++ joined (map spec.arrow_vars_of nodes.now)) }
{
    for node in nodes {
        add_btype(list, &node.to)?;
    }
    Ok(())
}

#[cycle(variables)]
fn add_arg_types(list: &mut ListOf<(u32, u32)>, nodes: &[ArgType]) -> Result<(), NoMemory>
    ensures { OnOk result (list.new ≡ list.old ++ joined (map spec.arg_vars_of nodes.now)) }
{
    for node in nodes {
        add_arg_type(list, node)?;
    }
    Ok(())
}

#[cycle(variables)]
fn add_parts(list: &mut ListOf<(u32, u32)>, nodes: &[TypePart]) -> Result<(), NoMemory>
    ensures { OnOk result (list.new ≡ list.old ++ joined (map spec.type_part_vars_of nodes.now)) }
{
    for node in nodes {
        add_type(list, &node.part)?;
    }
    Ok(())
}
