// Types of the terms.
ghost use Rattle.std.specs.Prelude.{◌≡◌, map, IfOk};
ghost use Rattle.gh_core.specs.SameType.{con};
ghost use Rattle.gh_core.specs.Typing.{applied_to, type_of};
ghost use Rattle.gh_typeterm.specs.Representation.{joined, nested};
ghost use Rattle.gh_adapt.specs.Typed.{at, self_type};

use gh_base::{ListOf, NameId, NoMemory, TyCon};
use gh_core::CoreType;
use gh_kind_index::{base_type, copy_type};
use gh_struct_rep::nest;
use gh_typeterm::{DeclData, Ty};
use sqlite_items::Boxed;
use std::alloc::Global;

/// A type term at types for its variables.
pub fn type_at(alloc: Global, arguments: &[CoreType], ty: &Ty) -> Result<Boxed<CoreType>, NoMemory>
    ensures { IfOk result (λ made. type_of made ≡ at (map type_of arguments.now) ty.now) }
{
    let none: ListOf<CoreType> = ListOf::new(alloc);
    base_type(alloc, ty, arguments, none.as_slice())
}

/// Types nested to the right by one of the Prelude, at types for their variables.
pub fn nested_at(
    alloc: Global,
    arguments: &[CoreType],
    join: NameId,
    parts: &[Ty],
) -> Result<Boxed<CoreType>, NoMemory>
    ensures { IfOk result (λ made. type_of made ≡ at (map type_of arguments.now) (nested (joined join) parts.now)) }
{
    let whole = nest(alloc, join, parts)?;
    type_at(alloc, arguments, &whole)
}

/// A datatype at types for its parameters.
pub fn self_type(
    alloc: Global,
    decl: &DeclData,
    arguments: &[CoreType],
) -> Result<Boxed<CoreType>, NoMemory>
    ensures { IfOk result (λ made. type_of made ≡ self_type decl.now (map type_of arguments.now)) }
{
    let mut made = Boxed::new(alloc, CoreType::Con(TyCon::Named(decl.origin)))?;
    for argument in arguments {
        let argument = copy_type(alloc, argument)?;
        made = Boxed::new(alloc, CoreType::App(made, argument))?;
    }
    Ok(made)
}
