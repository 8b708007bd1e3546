// The types that the core of a program speaks of, and the datatype of lists.
ghost use Rattle.std.specs.Prelude.{◌≡◌, IfOk};
ghost use Rattle.gh_bindings.specs.Core.{append_type, cell_fields, character, elements, function_of, list_constructors, list_decl, list_of};

use crate::names::{list_name, prelude_value};
use gh_base::fixed::{CONS, NIL};
use gh_base::{ListOf, NoMemory, TyCon};
use gh_core::CoreType;
use gh_typeterm::{DeclCon, DeclData, Kind, Ty};
use sqlite_items::Boxed;
use std::alloc::Global;

/// The type of characters.
pub fn character() -> CoreType
    ensures { result ≡ character }
{
    CoreType::Con(TyCon::Char)
}

/// The type of lists of these elements.
pub fn list_of(alloc: Global, element: CoreType) -> Result<CoreType, NoMemory>
    ensures { IfOk result (λ ty. ty ≡ list_of element) }
{
    let list = Boxed::new(alloc, CoreType::Con(TyCon::Named(list_name())))?;
    Ok(CoreType::App(list, Boxed::new(alloc, element)?))
}

/// The type of lists of the elements that the type variable 0 stands for.
pub fn elements(alloc: Global) -> Result<CoreType, NoMemory>
    ensures { IfOk result (λ ty. ty ≡ elements) }
{
    list_of(alloc, CoreType::Var(0))
}

// The type of lists of the elements that the type variable 0 stands for, on its own.
fn boxed_elements(alloc: Global) -> Result<Boxed<CoreType>, NoMemory>
    ensures { IfOk result (λ ty. ty ≡ elements) }
{
    Ok(Boxed::new(alloc, elements(alloc)?)?)
}

// The type of functions from one type to another.
fn function_of(
    alloc: Global,
    from: Boxed<CoreType>,
    to: Boxed<CoreType>,
) -> Result<Boxed<CoreType>, NoMemory>
    ensures { IfOk result (λ ty. ty ≡ function_of from to) }
{
    let arrow = Boxed::new(alloc, CoreType::Con(TyCon::Arrow))?;
    let taken = Boxed::new(alloc, CoreType::App(arrow, from))?;
    Ok(Boxed::new(alloc, CoreType::App(taken, to))?)
}

/// `forall a. List a -> List a -> List a`.
pub fn append_type(alloc: Global) -> Result<CoreType, NoMemory>
    ensures { IfOk result (λ ty. ty ≡ append_type) }
{
    let second = function_of(alloc, boxed_elements(alloc)?, boxed_elements(alloc)?)?;
    let first = function_of(alloc, boxed_elements(alloc)?, second)?;
    Ok(CoreType::Forall(0, Kind::Star, first))
}

// The fields of a cell: an element, and a list.
fn cell_fields(alloc: Global) -> Result<ListOf<Ty>, NoMemory>
    ensures { IfOk result (λ fields. fields ≡ cell_fields) }
{
    let mut fields = ListOf::new(alloc);
    fields.push(Ty::var(alloc, 0)?)?;
    let list = Ty::con(alloc, TyCon::Named(list_name()))?;
    fields.push(Ty::app(alloc, list, Ty::var(alloc, 0)?)?)?;
    Ok(fields)
}

// The constructors of lists.
fn list_constructors(alloc: Global) -> Result<ListOf<DeclCon>, NoMemory>
    ensures { IfOk result (λ constructors. constructors ≡ list_constructors) }
{
    let mut constructors = ListOf::new(alloc);
    constructors.push(DeclCon {
        origin: prelude_value(NIL),
        fields: ListOf::new(alloc),
    })?;
    constructors.push(DeclCon {
        origin: prelude_value(CONS),
        fields: cell_fields(alloc)?,
    })?;
    Ok(constructors)
}

/// `data List a = Nil | Cons a (List a)`.
pub fn list_decl(alloc: Global) -> Result<DeclData, NoMemory>
    ensures { IfOk result (λ decl. decl ≡ list_decl) }
{
    let mut params = ListOf::new(alloc);
    params.push(Kind::Star)?;
    Ok(DeclData {
        origin: list_name(),
        is_newtype: false,
        params,
        constructors: list_constructors(alloc)?,
    })
}
