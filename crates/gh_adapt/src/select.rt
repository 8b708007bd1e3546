// Pairs of two conversions, and the choice of one.
ghost use Rattle.std.specs.Prelude.{◌≡◌, IfOk, [], ◌∷◌};
ghost use Rattle.gh_core.specs.Typing.{a_lam, a_var, con_branch, prelude_type, type_of, code_of};
ghost use Rattle.gh_adapt.specs.Pairs.{ep, picked};
ghost use Rattle.gh_adapt.specs.Typed.{branch_of};
ghost use Rattle.gh_adapt.specs.TypedPairs.{ep_type, id_code, pair_code, select_code, way_type};

use crate::terms::{alternative, apply, at_two, function, prelude_value, variable};
use crate::ways::Way;
use gh_base::fixed::{EP, PRELUDE};
use gh_base::{ListOf, NameId, NoMemory, Origin, Space, TyCon};
use gh_core::{CoreAlt, CoreTerm, CoreType};
use gh_kind_index::{arrow, copy_type};
use sqlite_items::Boxed;
use std::alloc::Global;

/// The type of this name that the Prelude declares.
pub fn prelude_type(name: NameId) -> TyCon
    ensures { result ≡ prelude_type name }
{
    TyCon::Named(Origin {
        module: PRELUDE,
        space: Space::Types,
        name,
    })
}

/// The type of pairs of conversions between two types.
pub fn ep_type(alloc: Global, a: &CoreType, b: &CoreType) -> Result<Boxed<CoreType>, NoMemory>
    ensures { IfOk result (λ made. type_of made ≡ ep_type (type_of a.now) (type_of b.now)) }
{
    let a = copy_type(alloc, a)?;
    let b = copy_type(alloc, b)?;
    let head = Boxed::new(alloc, CoreType::Con(prelude_type(EP)))?;
    let head = Boxed::new(alloc, CoreType::App(head, a))?;
    Ok(Boxed::new(alloc, CoreType::App(head, b))?)
}

/// The pair of two conversions between two types.
pub fn pair(
    alloc: Global,
    a: &CoreType,
    b: &CoreType,
    forth: Boxed<CoreTerm>,
    back: Boxed<CoreTerm>,
) -> Result<Boxed<CoreTerm>, NoMemory>
    ensures { IfOk result (λ made. code_of made ≡ pair_code (type_of a.now) (type_of b.now) (code_of forth) (code_of back)) }
{
    let a = copy_type(alloc, a)?;
    let b = copy_type(alloc, b)?;
    let head = at_two(alloc, prelude_value(EP), a, b)?;
    let head = apply(alloc, head, forth)?;
    apply(alloc, head, back)
}

/// One of a pair's conversions between two types.
pub fn selected(
    alloc: Global,
    way: Way,
    a: &CoreType,
    b: &CoreType,
    pair: Boxed<CoreTerm>,
) -> Result<Boxed<CoreTerm>, NoMemory>
    ensures { IfOk result (λ made. code_of made ≡ select_code way (type_of a.now) (type_of b.now) (code_of pair)) }
{
    let ty = way_type(alloc, way, a, b)?;
    let mut alternatives = ListOf::new(alloc);
    alternatives.push(choice(alloc, way)?)?;
    let made = CoreTerm::Case(pair, ty.into_inner(), alternatives, None);
    Ok(Boxed::new(alloc, made)?)
}

fn way_type(
    alloc: Global,
    way: Way,
    a: &CoreType,
    b: &CoreType,
) -> Result<Boxed<CoreType>, NoMemory>
    ensures { IfOk result (λ made. type_of made ≡ way_type way (type_of a.now) (type_of b.now)) }
{
    let a = copy_type(alloc, a)?;
    let b = copy_type(alloc, b)?;
    match way {
        Way::Forth => arrow(alloc, a, b),
        Way::Back => arrow(alloc, b, a),
    }
}

fn choice(alloc: Global, way: Way) -> Result<CoreAlt, NoMemory>
    ensures { IfOk result (λ made. branch_of made ≡ con_branch ep (0 ∷ 1 ∷ []) (a_var (picked way))) }
{
    let mut names = ListOf::new(alloc);
    names.push(0)?;
    names.push(1)?;
    let body = variable(alloc, picked(way))?;
    Ok(alternative(prelude_value(EP), names, body))
}

fn picked(way: Way) -> u32
    ensures { result ≡ picked way }
{
    match way {
        Way::Forth => 0,
        Way::Back => 1,
    }
}

/// The pair at a type at which nothing is converted.
pub fn id_pair(alloc: Global, ty: &CoreType) -> Result<Boxed<CoreTerm>, NoMemory>
    ensures { IfOk result (λ made. code_of made ≡ id_code (type_of ty.now)) }
{
    let forth = identity(alloc, ty)?;
    let back = identity(alloc, ty)?;
    pair(alloc, ty, ty, forth, back)
}

fn identity(alloc: Global, ty: &CoreType) -> Result<Boxed<CoreTerm>, NoMemory>
    ensures { IfOk result (λ made. code_of made ≡ a_lam 0 (type_of ty.now) (a_var 0)) }
{
    let value = variable(alloc, 0)?;
    let ty = copy_type(alloc, ty)?;
    function(alloc, 0, ty, value)
}
