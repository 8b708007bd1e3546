// The pair of conversions at a type, from those at its variables.
ghost use Rattle.std.specs.Prelude.{◌≡◌, map, IfOk};
ghost use Rattle.gh_core.specs.Typing.{a_global, type_of, code_of};
ghost use Rattle.gh_adapt.specs.TypedPairs.{converted_code, head_code, leaf_code, pair_at_code};

use crate::arrows::arrow_pair;
use crate::copies::copy_term;
use crate::select::{id_pair, prelude_type, selected};
use crate::terms::{apply, apply_type};
use crate::ways::Way;
use gh_base::fixed::CON;
use gh_base::{NoMemory, TyCon};
use gh_core::{CoreName, CoreTerm, CoreType};
use gh_kind_index::base_type;
use gh_typeterm::{Kind, Ty, TyNode};
use sqlite_items::Boxed;
use std::alloc::Global;

/// One of the conversions between a type term at the left types and at the right ones, from the pairs at its variables.
pub fn converted(
    alloc: Global,
    way: Way,
    left: &[CoreType],
    right: &[CoreType],
    others: &[CoreType],
    pairs: &[CoreTerm],
    ty: &Ty,
) -> Result<Boxed<CoreTerm>, NoMemory>
    ensures { IfOk result (λ made. code_of made ≡ converted_code way (map type_of left.now) (map type_of right.now) (map type_of others.now) (map code_of pairs.now) ty.now) }
{
    let made = pair_at(alloc, left, right, others, pairs, ty)?;
    let a = base_type(alloc, ty, left, others)?;
    let b = base_type(alloc, ty, right, others)?;
    selected(alloc, way, a.get(), b.get(), made)
}

// The pair at a type term.
fn pair_at(
    alloc: Global,
    left: &[CoreType],
    right: &[CoreType],
    others: &[CoreType],
    pairs: &[CoreTerm],
    ty: &Ty,
) -> Result<Boxed<CoreTerm>, NoMemory>
    ensures { IfOk result (λ made. code_of made ≡ pair_at_code (map type_of left.now) (map type_of right.now) (map type_of others.now) (map code_of pairs.now) ty.now) }
{
    match ty.get() {
        TyNode::Con(c) => head_pair(alloc, *c),
        TyNode::Var(x) => leaf(alloc, left, others, pairs, *x),
        TyNode::App(f, s) => {
            let head = pair_at(alloc, left, right, others, pairs, f)?;
            let a = base_type(alloc, s, left, others)?;
            let b = base_type(alloc, s, right, others)?;
            let head = apply_type(alloc, head, a)?;
            let head = apply_type(alloc, head, b)?;
            let argument = pair_at(alloc, left, right, others, pairs, s)?;
            apply(alloc, head, argument)
        }
        TyNode::Name(_) => id_pair(alloc, &CoreType::Any(Kind::Star)),
    }
}

// The pair at a variable.
fn leaf(
    alloc: Global,
    left: &[CoreType],
    others: &[CoreType],
    pairs: &[CoreTerm],
    x: u32,
) -> Result<Boxed<CoreTerm>, NoMemory>
    ensures { IfOk result (λ made. code_of made ≡ leaf_code (map type_of left.now) (map type_of others.now) (map code_of pairs.now) x) }
{
    if (x as usize) < pairs.len() {
        return copy_term(alloc, &pairs[x as usize]);
    }
    let variable = Ty::var(alloc, x)?;
    let ty = base_type(alloc, &variable, left, others)?;
    id_pair(alloc, ty.get())
}

// The pair at a type constructor.
fn head_pair(alloc: Global, c: TyCon) -> Result<Boxed<CoreTerm>, NoMemory>
    ensures { IfOk result (λ made. code_of made ≡ head_code c) }
{
    match c {
        TyCon::Named(origin) => of_datatype(alloc, TyCon::Named(origin)),
        TyCon::Arrow => arrow_pair(alloc),
        TyCon::Int => id_pair(alloc, &CoreType::Con(TyCon::Int)),
        TyCon::Char => id_pair(alloc, &CoreType::Con(TyCon::Char)),
        TyCon::ConOf(_) => of_datatype(alloc, prelude_type(CON)),
    }
}

fn of_datatype(alloc: Global, c: TyCon) -> Result<Boxed<CoreTerm>, NoMemory>
    ensures { IfOk result (λ made. code_of made ≡ a_global (CoreName.Bimap c)) }
{
    Ok(Boxed::new(alloc, CoreTerm::Global(CoreName::Bimap(c)))?)
}
