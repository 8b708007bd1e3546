// The variables round a term.
ghost use Rattle.std.specs.Prelude.{◌≡◌, ◌∷◌, [], map, slice_get, IfOk, OnOk, Some};
ghost use Rattle.gh_core.specs.Typing.{bindings_of, bound_types, paired, placed, type_of};
ghost use Rattle.gh_core_lint.specs.Bound.{binder_of, Adds};
ghost use Rattle.gh_core_lint.specs.Branches.{binding_code};
ghost use Rattle.gh_core_lint.specs.Faults.{written};
ghost use Rattle.gh_core_lint.specs.Types.{type_at};

use crate::binders::Binders;
use crate::place::place;
use crate::types::Type;
use gh_base::{ListOf, NoMemory};
use gh_core::{CoreTerm, CoreType};
use gh_typeterm::{Kind, copy_kind};
use std::alloc::Global;

/// The variables round a term: those of types with their kinds, and the others with their types.
#[derive(Drop)]
pub struct Scope {
    pub kinds: Binders<Kind>,
    pub vars: Binders<Option<Type>>,
}

// The type of the name at a place, where there is one.
fn type_for(types: &[Type], place: usize) -> Result<Option<Type>, NoMemory>
    ensures { IfOk result (λ found. found ≡ slice_get types.now place) }
{
    if place < types.len() {
        Ok(Some(types[place].share()?))
    } else {
        Ok(None)
    }
}

/// Binds the names of an alternative, the first as the nearest. A name without a type has none.
pub fn bind_names(
    vars: &mut Binders<Option<Type>>,
    names: &[u32],
    types: &[Type],
) -> Result<(), NoMemory>
    ensures { OnOk result (Adds (paired names.now (map type_at types.now)) vars.old vars.new) }
{
    let mut left = names.len();
    while left > 0 {
        left -= 1;
        vars.bind(names[left], type_for(types, left)?)?;
    }
    Ok(())
}

/// Places and binds the variable of a function, and answers its type.
pub fn bind_lam(alloc: Global, scope: &mut Scope, x: u32, ty: &CoreType) -> Result<Type, NoMemory>
    ensures ty { IfOk result (λ from. type_at from ≡ placed scope.old.kinds (type_of ty.now)) }
    ensures bound { IfOk result (λ from. Adds ((x, Some (type_at from)) ∷ []) scope.old.vars scope.new.vars) }
    ensures kinds { OnOk result (scope.new.kinds ≡ scope.old.kinds) }
{
    let from = place(alloc, &scope.kinds, ty)?;
    scope.vars.bind(x, Some(from.share()?))?;
    Ok(from)
}

/// Binds the variable of a function of types.
pub fn bind_tylam(alloc: Global, scope: &mut Scope, x: u32, kind: &Kind) -> Result<(), NoMemory>
    ensures kinds { OnOk result (scope.new.kinds ≡ (x, kind.now) ∷ scope.old.kinds) }
    ensures vars { OnOk result (scope.new.vars ≡ scope.old.vars) }
{
    scope.kinds.bind(x, copy_kind(alloc, kind)?)?;
    Ok(())
}

// The variables of bindings.
fn binders_of(
    alloc: Global,
    bindings: &[(u32, CoreType, CoreTerm)],
) -> Result<ListOf<u32>, NoMemory>
    ensures { IfOk result (λ names. names ≡ map binder_of bindings.now) }
{
    let mut names = ListOf::new(alloc);
    for (name, _, _) in bindings {
        names.push(*name)?;
    }
    Ok(names)
}

// The types of bindings, placed.
fn place_all(
    alloc: Global,
    kinds: &Binders<Kind>,
    bindings: &[(u32, CoreType, CoreTerm)],
) -> Result<ListOf<Type>, NoMemory>
    ensures { IfOk result (λ types. map type_at types ≡ written kinds.now (bindings_of (map binding_code bindings.now))) }
{
    let mut types = ListOf::new(alloc);
    for (_, ty, _) in bindings {
        types.push(place(alloc, kinds, ty)?)?;
    }
    Ok(types)
}

/// Places and binds the variables of bindings, the first as the nearest, and answers their types in order.
pub fn bind_all(
    alloc: Global,
    scope: &mut Scope,
    bindings: &[(u32, CoreType, CoreTerm)],
) -> Result<ListOf<Type>, NoMemory>
    ensures types { IfOk result (λ types. map type_at types ≡ written scope.old.kinds (bindings_of (map binding_code bindings.now))) }
    ensures bound { OnOk result (Adds (bound_types scope.old.kinds (bindings_of (map binding_code bindings.now))) scope.old.vars scope.new.vars) }
    ensures kinds { OnOk result (scope.new.kinds ≡ scope.old.kinds) }
{
    let names = binders_of(alloc, bindings)?;
    let types = place_all(alloc, &scope.kinds, bindings)?;
    bind_names(&mut scope.vars, names.as_slice(), types.as_slice())?;
    Ok(types)
}
