// Types, with the one origin of each name.
ghost use Rattle.std.specs.Prelude.{◌≡◌, ◌∷◌, ◌++◌, [], map, IfOk, OnOk};
ghost use Rattle.gh_resolve_names.specs.Misuses.{all_misuses, least, trees};
ghost use Rattle.gh_resolve_types.specs.Types as spec;

use gh_base::NoMemory;
use gh_binders::Binders;
use gh_program::{ArgType, BType, TypeExpr, add};
use gh_resolve_names::{Context, Misuse, tuple_parts, type_name, type_variable, used_name};
use sqlite_items::{Boxed, Items};
use std::alloc::Global;

// A type that stands before an arrow is not applied to what stands behind the whole.
fn unless_arrow(arrows: &[gh_tree::Arrow], given: u64) -> u64
    ensures { result ≡ spec.unless_arrow arrows.now given }
{
    match arrows {
        [] => given,
        [..] => 0,
    }
}

/// A type, with the number of arguments that stand behind it.
#[cycle(types)]
#[tactic(auto, using(crate::proofs::TypesAt::type_at_tree, crate::proofs::TypesAt::type_at_misuses, crate::proofs::Lengths::unless_mapped, gh_resolve_names::proofs::Loops::least_append))]
pub fn type_expr(
    alloc: Global,
    context: &Context,
    names: &Binders<u32>,
    found: &mut Option<Misuse>,
    given: u64,
    node: &gh_tree::TypeExpr,
) -> Result<TypeExpr, NoMemory>
    ensures value { IfOk result (λ made. made ≡ (spec.type_out context.now node.now (names.now, given)).tree) }
    ensures found { OnOk result (found.new ≡ least found.old (spec.type_out context.now node.now (names.now, given)).misuses) }
{
    let first = btype(
        alloc,
        context,
        names,
        found,
        unless_arrow(node.arrows.as_slice(), given),
        &node.first,
    )?;
    let mut others = Items::new(alloc);
    arrows(
        alloc,
        context,
        names,
        found,
        node.arrows.as_slice(),
        &mut others,
    )?;
    Ok(TypeExpr {
        span: node.span,
        first,
        others,
    })
}

#[cycle(types)]
fn arrows(
    alloc: Global,
    context: &Context,
    names: &Binders<u32>,
    found: &mut Option<Misuse>,
    nodes: &[gh_tree::Arrow],
    list: &mut Items<BType>,
) -> Result<(), NoMemory>
    ensures value { OnOk result (list.new ≡ list.old ++ trees (names.now, 0) (map (spec.arrow_out context.now) nodes.now)) }
    ensures found { OnOk result (found.new ≡ least found.old (all_misuses (names.now, 0) (map (spec.arrow_out context.now) nodes.now))) }
{
    for node in nodes {
        let made = btype(alloc, context, names, found, 0, &node.to)?;
        add(list, made)?;
    }
    Ok(())
}

/// An applied type, with the number of arguments that stand behind it.
#[cycle(types)]
#[tactic(auto, using(crate::proofs::TypesAt::btype_at_tree, crate::proofs::TypesAt::btype_at_misuses, crate::proofs::Lengths::args_length, gh_resolve_names::proofs::Loops::least_append))]
pub fn btype(
    alloc: Global,
    context: &Context,
    names: &Binders<u32>,
    found: &mut Option<Misuse>,
    given: u64,
    node: &gh_tree::BType,
) -> Result<BType, NoMemory>
    ensures value { IfOk result (λ made. made ≡ (spec.btype_out context.now node.now (names.now, given)).tree) }
    ensures found { OnOk result (found.new ≡ least found.old (spec.btype_out context.now node.now (names.now, given)).misuses) }
{
    let count = match (node.args.as_slice().len() as u64).checked_add(given) {
        Some(count) => count,
        None => return Err(NoMemory),
    };
    let head = arg_type(alloc, context, names, found, count, &node.head)?;
    let mut args = Items::new(alloc);
    arg_types(
        alloc,
        context,
        names,
        found,
        node.args.as_slice(),
        &mut args,
    )?;
    Ok(BType {
        span: node.span,
        head,
        args,
    })
}

/// Types that are no heads, one behind another.
#[cycle(types)]
pub fn arg_types(
    alloc: Global,
    context: &Context,
    names: &Binders<u32>,
    found: &mut Option<Misuse>,
    nodes: &[gh_tree::ArgType],
    list: &mut Items<ArgType>,
) -> Result<(), NoMemory>
    ensures value { OnOk result (list.new ≡ list.old ++ trees (names.now, 0) (map (spec.arg_type_out context.now) nodes.now)) }
    ensures found { OnOk result (found.new ≡ least found.old (all_misuses (names.now, 0) (map (spec.arg_type_out context.now) nodes.now))) }
{
    for node in nodes {
        let made = arg_type(alloc, context, names, found, 0, node)?;
        add(list, made)?;
    }
    Ok(())
}

#[cycle(types)]
fn parts(
    alloc: Global,
    context: &Context,
    names: &Binders<u32>,
    found: &mut Option<Misuse>,
    nodes: &[gh_tree::TypePart],
    list: &mut Items<TypeExpr>,
) -> Result<(), NoMemory>
    ensures value { OnOk result (list.new ≡ list.old ++ trees (names.now, 0) (map (spec.type_part_out context.now) nodes.now)) }
    ensures found { OnOk result (found.new ≡ least found.old (all_misuses (names.now, 0) (map (spec.type_part_out context.now) nodes.now))) }
{
    for node in nodes {
        let made = type_expr(alloc, context, names, found, 0, &node.part)?;
        add(list, made)?;
    }
    Ok(())
}

#[cycle(types)]
fn boxed(
    alloc: Global,
    context: &Context,
    names: &Binders<u32>,
    found: &mut Option<Misuse>,
    given: u64,
    node: &gh_tree::TypeExpr,
) -> Result<Boxed<TypeExpr>, NoMemory>
    ensures value { IfOk result (λ made. made ≡ (spec.type_out context.now node.now (names.now, given)).tree) }
    ensures found { OnOk result (found.new ≡ least found.old (spec.type_out context.now node.now (names.now, given)).misuses) }
{
    let made = type_expr(alloc, context, names, found, given, node)?;
    Ok(Boxed::new(alloc, made)?)
}

/// A type that may stand as an argument, with the number of arguments that stand behind it.
#[cycle(types)]
#[tactic(auto, using(crate::proofs::TypesAt::arg_type_con_tree, crate::proofs::TypesAt::arg_type_con_misuses, crate::proofs::TypesAt::arg_type_var_tree, crate::proofs::TypesAt::arg_type_var_misuses, crate::proofs::TypesAt::arg_type_unit_tree, crate::proofs::TypesAt::arg_type_unit_misuses, crate::proofs::TypesAt::arg_type_nolist_tree, crate::proofs::TypesAt::arg_type_nolist_misuses, crate::proofs::TypesAt::arg_type_noarrow_tree, crate::proofs::TypesAt::arg_type_noarrow_misuses, crate::proofs::TypesAt::arg_type_notuple_tree, crate::proofs::TypesAt::arg_type_notuple_misuses, crate::proofs::TypesAt::arg_type_paren_tree, crate::proofs::TypesAt::arg_type_paren_misuses, crate::proofs::TypesAt::arg_type_tuple_tree, crate::proofs::TypesAt::arg_type_tuple_misuses, crate::proofs::TypesAt::arg_type_list_tree, crate::proofs::TypesAt::arg_type_list_misuses, gh_resolve_names::proofs::Loops::least_append))]
pub fn arg_type(
    alloc: Global,
    context: &Context,
    names: &Binders<u32>,
    found: &mut Option<Misuse>,
    given: u64,
    node: &gh_tree::ArgType,
) -> Result<ArgType, NoMemory>
    ensures value { IfOk result (λ made. made ≡ (spec.arg_type_out context.now node.now (names.now, given)).tree) }
    ensures found { OnOk result (found.new ≡ least found.old (spec.arg_type_out context.now node.now (names.now, given)).misuses) }
{
    match node {
        gh_tree::ArgType::Con(name) => Ok(ArgType::Con(type_name(
            context,
            found,
            given,
            used_name(*name),
        ))),
        gh_tree::ArgType::Var(name) => Ok(ArgType::Var(type_variable(
            context,
            names,
            found,
            used_name(*name),
        ))),
        gh_tree::ArgType::Unit(span, ..) => Ok(ArgType::Unit(*span)),
        gh_tree::ArgType::NoList(span, ..) => Ok(ArgType::NoList(*span)),
        gh_tree::ArgType::NoArrow(span, ..) => Ok(ArgType::NoArrow(*span)),
        gh_tree::ArgType::NoTuple(span, _, commas, _) => {
            let count = tuple_parts(commas.as_slice())?;
            Ok(ArgType::NoTuple(*span, count))
        }
        gh_tree::ArgType::Paren(span, _, inner, _) => {
            let inner = boxed(alloc, context, names, found, given, inner.get())?;
            Ok(ArgType::Paren(*span, inner))
        }
        gh_tree::ArgType::Tuple(span, _, first, others, _) => {
            let mut list = Items::new(alloc);
            let made = type_expr(alloc, context, names, found, 0, first.get())?;
            add(&mut list, made)?;
            parts(alloc, context, names, found, others.as_slice(), &mut list)?;
            Ok(ArgType::Tuple(*span, list))
        }
        gh_tree::ArgType::List(span, _, inner, _) => {
            let inner = boxed(alloc, context, names, found, 0, inner.get())?;
            Ok(ArgType::List(*span, inner))
        }
    }
}
