// Base types at types.
ghost use Rattle.std.specs.Prelude.{◌≡◌, ◌-◌, map, IfOk, slice_get, unwrap_or};
ghost use Rattle.gh_core.specs.Typing.{type_of};
ghost use Rattle.gh_core.specs.declared.types.CoreType.TheVariants as ty;
ghost use Rattle.gh_kind_index.specs.KindIndex.{base_at, slot};

use crate::copies::copy_type;
use gh_base::NoMemory;
use gh_core::CoreType;
use gh_typeterm::{Kind, Ty, TyNode};
use sqlite_items::Boxed;
use std::alloc::Global;

/// A base type with a type for each generic variable and for each of the others.
pub fn base_type(
    alloc: Global,
    base: &Ty,
    types: &[CoreType],
    others: &[CoreType],
) -> Result<Boxed<CoreType>, NoMemory>
    ensures { IfOk result (λ made. type_of made ≡ base_at (map type_of types.now) (map type_of others.now) base.now) }
{
    match base.get() {
        TyNode::Con(c) => Ok(Boxed::new(alloc, CoreType::Con(*c))?),
        TyNode::Var(x) => slot(alloc, *x as usize, types, others),
        TyNode::App(f, x) => {
            let f = base_type(alloc, f, types, others)?;
            let x = base_type(alloc, x, types, others)?;
            Ok(Boxed::new(alloc, CoreType::App(f, x))?)
        }
        TyNode::Name(_) => open(alloc),
    }
}

// The type for a variable of a base type.
fn slot(
    alloc: Global,
    x: usize,
    types: &[CoreType],
    others: &[CoreType],
) -> Result<Boxed<CoreType>, NoMemory>
    ensures { IfOk result (λ made. type_of made ≡ slot (map type_of types.now) (map type_of others.now) x) }
{
    if x < types.len() {
        return copy_type(alloc, &types[x]);
    }
    let at = x - types.len();
    if at < others.len() {
        return copy_type(alloc, &others[at]);
    }
    open(alloc)
}

fn open(alloc: Global) -> Result<Boxed<CoreType>, NoMemory>
    ensures { IfOk result (λ made. made ≡ ty.Any Kind.Star) }
{
    Ok(Boxed::new(alloc, CoreType::Any(Kind::Star))?)
}
