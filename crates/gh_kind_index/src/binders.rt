// Variables, arrows and binders of types.
ghost use Rattle.std.specs.Prelude.{◌≡◌, ◌+◌, ◌<◌, ◌^◌, length, map, IfOk};
ghost use Rattle.gh_core.specs.SameType.{applied, free};
ghost use Rattle.gh_core.specs.Typing.{arrow, type_of};
ghost use Rattle.gh_kind_index.specs.KindIndex.{each_applied, for_all, variables_from};

use crate::copies::copy_type;
use gh_base::{ListOf, NoMemory, TyCon};
use gh_core::CoreType;
use gh_typeterm::{Kind, copy_kind};
use sqlite_items::Boxed;
use std::alloc::Global;

/// So many variables, from the one of a level on.
pub fn variables(alloc: Global, level: u32, count: usize) -> Result<ListOf<CoreType>, NoMemory>
    requires { level + count < 2 ^ 32 }
    ensures { IfOk result (λ made. map type_of made ≡ variables_from level count) }
{
    let mut made = ListOf::new(alloc);
    for i in 0..count {
        made.push(CoreType::Var(level + i as u32))?;
    }
    Ok(made)
}

/// Each type applied to a variable, the first to the one of a level, and the others to those after it.
pub fn each_applied(
    alloc: Global,
    types: &[CoreType],
    level: u32,
) -> Result<ListOf<CoreType>, NoMemory>
    requires { level + length types.now < 2 ^ 32 }
    ensures { IfOk result (λ made. map type_of made ≡ each_applied (map type_of types.now) (variables_from level (length types.now))) }
{
    let mut made = ListOf::new(alloc);
    for i in 0..types.len() {
        made.push(applied_to(alloc, &types[i], level + i as u32)?)?;
    }
    Ok(made)
}

fn applied_to(alloc: Global, ty: &CoreType, variable: u32) -> Result<CoreType, NoMemory>
    ensures { IfOk result (λ made. type_of made ≡ applied (type_of ty.now) (free variable)) }
{
    let head = copy_type(alloc, ty)?;
    let argument = Boxed::new(alloc, CoreType::Var(variable))?;
    Ok(CoreType::App(head, argument))
}

/// The type of functions from the one type to the other.
pub fn arrow(
    alloc: Global,
    from: Boxed<CoreType>,
    to: Boxed<CoreType>,
) -> Result<Boxed<CoreType>, NoMemory>
    ensures { IfOk result (λ made. type_of made ≡ arrow (type_of from) (type_of to)) }
{
    let head = Boxed::new(alloc, CoreType::Con(TyCon::Arrow))?;
    let head = Boxed::new(alloc, CoreType::App(head, from))?;
    Ok(Boxed::new(alloc, CoreType::App(head, to))?)
}

/// The type for all types of a kind, which stand for so many variables from the one of a level on.
pub fn quantified(
    alloc: Global,
    kind: &Kind,
    level: u32,
    count: usize,
    body: Boxed<CoreType>,
) -> Result<Boxed<CoreType>, NoMemory>
    requires { level + count < 2 ^ 32 }
    ensures { IfOk result (λ made. type_of made ≡ for_all kind.now level count (type_of body)) }
{
    let mut made = body;
    for i in (0..count).rev() {
        let kind = copy_kind(alloc, kind)?;
        made = Boxed::new(alloc, CoreType::Forall(level + i as u32, kind, made))?;
    }
    Ok(made)
}
