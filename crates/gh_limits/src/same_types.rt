// Whether two types have the same tokens.
ghost use Rattle.std.specs.Prelude.{◌≡◌, ℕ, Bool, map, length};
ghost use Rattle.gh_limits.specs.SameTypes as spec;

use gh_base::NameId;
use gh_tree::{ArgType, Arrow, BType, Name, TypeExpr, TypePart};

fn same_qualifier(a: Option<NameId>, b: Option<NameId>) -> bool
    ensures { result ≡ spec.same_qualifier a b }
{
    match a {
        None => match b {
            None => true,
            Some(_) => false,
        },
        Some(a) => match b {
            None => false,
            Some(b) => a.0 == b.0,
        },
    }
}

fn same_name(a: &Name, b: &Name) -> bool
    ensures { result ≡ spec.same_name a.now b.now }
{
    same_qualifier(a.qualifier, b.qualifier) && a.id.0 == b.id.0
}

/// Whether two types differ in nothing but the places of their tokens.
#[cycle(types)]
#[tactic(auto, using(crate::proofs::SameAt::type_at))]
pub fn same_type(a: &TypeExpr, b: &TypeExpr) -> bool
    ensures { result ≡ spec.same_type a.now b.now }
{
    same_btype(&a.first, &b.first) && same_arrows(a.arrows.as_slice(), b.arrows.as_slice())
}

#[cycle(types)]
#[tactic(auto, using(crate::proofs::SameAt::btype_at))]
fn same_btype(a: &BType, b: &BType) -> bool
    ensures { result ≡ spec.same_btype a.now b.now }
{
    same_arg_type(&a.head, &b.head) && same_arg_types(a.args.as_slice(), b.args.as_slice())
}

#[cycle(types)]
#[tactic(auto, using(crate::proofs::SameAt::arg_type_con, crate::proofs::SameAt::arg_type_var, crate::proofs::SameAt::arg_type_unit, crate::proofs::SameAt::arg_type_no_list, crate::proofs::SameAt::arg_type_no_arrow, crate::proofs::SameAt::arg_type_no_tuple, crate::proofs::SameAt::arg_type_paren, crate::proofs::SameAt::arg_type_tuple, crate::proofs::SameAt::arg_type_list, crate::proofs::SameAt::shape_con, crate::proofs::SameAt::shape_var, crate::proofs::SameAt::shape_unit, crate::proofs::SameAt::shape_no_list, crate::proofs::SameAt::shape_no_arrow, crate::proofs::SameAt::shape_no_tuple, crate::proofs::SameAt::shape_paren, crate::proofs::SameAt::shape_tuple, crate::proofs::SameAt::shape_list))]
fn same_arg_type(a: &ArgType, b: &ArgType) -> bool
    ensures { result ≡ spec.same_arg_type a.now b.now }
{
    match a {
        ArgType::Con(x) => is_con(x, b),
        ArgType::Var(x) => is_var(x, b),
        ArgType::Unit(..) => is_unit(b),
        ArgType::NoList(..) => is_no_list(b),
        ArgType::NoArrow(..) => is_no_arrow(b),
        ArgType::NoTuple(_, _, commas, _) => is_no_tuple(commas.as_slice().len(), b),
        ArgType::Paren(_, _, inner, _) => match b {
            ArgType::Paren(_, _, other, _) => same_type(inner.get(), other.get()),
            _ => false,
        },
        ArgType::Tuple(_, _, first, others, _) => match b {
            ArgType::Tuple(_, _, start, rest, _) => {
                same_type(first.get(), start.get())
                    && same_type_parts(others.as_slice(), rest.as_slice())
            }
            _ => false,
        },
        ArgType::List(_, _, inner, _) => match b {
            ArgType::List(_, _, other, _) => same_type(inner.get(), other.get()),
            _ => false,
        },
    }
}

#[tactic(auto, using(crate::proofs::SameAt::shape_con, crate::proofs::SameAt::shape_var, crate::proofs::SameAt::shape_unit, crate::proofs::SameAt::shape_no_list, crate::proofs::SameAt::shape_no_arrow, crate::proofs::SameAt::shape_no_tuple, crate::proofs::SameAt::shape_paren, crate::proofs::SameAt::shape_tuple, crate::proofs::SameAt::shape_list))]
fn is_con(x: &Name, b: &ArgType) -> bool
    ensures { result ≡ spec.is_con x.now (spec.shape b.now) }
{
    match b {
        ArgType::Con(y) => same_name(x, y),
        _ => false,
    }
}

#[tactic(auto, using(crate::proofs::SameAt::shape_con, crate::proofs::SameAt::shape_var, crate::proofs::SameAt::shape_unit, crate::proofs::SameAt::shape_no_list, crate::proofs::SameAt::shape_no_arrow, crate::proofs::SameAt::shape_no_tuple, crate::proofs::SameAt::shape_paren, crate::proofs::SameAt::shape_tuple, crate::proofs::SameAt::shape_list))]
fn is_var(x: &Name, b: &ArgType) -> bool
    ensures { result ≡ spec.is_var x.now (spec.shape b.now) }
{
    match b {
        ArgType::Var(y) => same_name(x, y),
        _ => false,
    }
}

#[tactic(auto, using(crate::proofs::SameAt::shape_con, crate::proofs::SameAt::shape_var, crate::proofs::SameAt::shape_unit, crate::proofs::SameAt::shape_no_list, crate::proofs::SameAt::shape_no_arrow, crate::proofs::SameAt::shape_no_tuple, crate::proofs::SameAt::shape_paren, crate::proofs::SameAt::shape_tuple, crate::proofs::SameAt::shape_list))]
fn is_unit(b: &ArgType) -> bool
    ensures { result ≡ spec.is_unit (spec.shape b.now) }
{
    matches!(b, ArgType::Unit(..))
}

#[tactic(auto, using(crate::proofs::SameAt::shape_con, crate::proofs::SameAt::shape_var, crate::proofs::SameAt::shape_unit, crate::proofs::SameAt::shape_no_list, crate::proofs::SameAt::shape_no_arrow, crate::proofs::SameAt::shape_no_tuple, crate::proofs::SameAt::shape_paren, crate::proofs::SameAt::shape_tuple, crate::proofs::SameAt::shape_list))]
fn is_no_list(b: &ArgType) -> bool
    ensures { result ≡ spec.is_no_list (spec.shape b.now) }
{
    matches!(b, ArgType::NoList(..))
}

#[tactic(auto, using(crate::proofs::SameAt::shape_con, crate::proofs::SameAt::shape_var, crate::proofs::SameAt::shape_unit, crate::proofs::SameAt::shape_no_list, crate::proofs::SameAt::shape_no_arrow, crate::proofs::SameAt::shape_no_tuple, crate::proofs::SameAt::shape_paren, crate::proofs::SameAt::shape_tuple, crate::proofs::SameAt::shape_list))]
fn is_no_arrow(b: &ArgType) -> bool
    ensures { result ≡ spec.is_no_arrow (spec.shape b.now) }
{
    matches!(b, ArgType::NoArrow(..))
}

#[tactic(auto, using(crate::proofs::SameAt::shape_con, crate::proofs::SameAt::shape_var, crate::proofs::SameAt::shape_unit, crate::proofs::SameAt::shape_no_list, crate::proofs::SameAt::shape_no_arrow, crate::proofs::SameAt::shape_no_tuple, crate::proofs::SameAt::shape_paren, crate::proofs::SameAt::shape_tuple, crate::proofs::SameAt::shape_list))]
fn is_no_tuple(commas: usize, b: &ArgType) -> bool
    ensures { result ≡ spec.is_no_tuple commas (spec.shape b.now) }
{
    match b {
        ArgType::NoTuple(_, _, others, _) => commas == others.as_slice().len(),
        _ => false,
    }
}

#[cycle(types)]
#[tactic(auto, using(crate::proofs::SameAt::arrow_at))]
fn same_arrows(a: &[Arrow], b: &[Arrow]) -> bool
    ensures { result ≡ spec.all_same (map spec.same_arrow a.now) b.now }
{
    if a.len() != b.len() {
        return false;
    }
    for i in 0..a.len() {
        if !same_btype(&a[i].to, &b[i].to) {
            return false;
        }
    }
    true
}

#[cycle(types)]
fn same_arg_types(a: &[ArgType], b: &[ArgType]) -> bool
    ensures { result ≡ spec.all_same (map spec.same_arg_type a.now) b.now }
{
    if a.len() != b.len() {
        return false;
    }
    for i in 0..a.len() {
        if !same_arg_type(&a[i], &b[i]) {
            return false;
        }
    }
    true
}

#[cycle(types)]
#[tactic(auto, using(crate::proofs::SameAt::type_part_at))]
fn same_type_parts(a: &[TypePart], b: &[TypePart]) -> bool
    ensures { result ≡ spec.all_same (map spec.same_type_part a.now) b.now }
{
    if a.len() != b.len() {
        return false;
    }
    for i in 0..a.len() {
        if !same_type(&a[i].part, &b[i].part) {
            return false;
        }
    }
    true
}
