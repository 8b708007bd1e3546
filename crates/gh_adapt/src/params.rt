// The parameters of a datatype's pair.
ghost use Rattle.std.specs.Prelude.{◌≡◌, suc, ◌+◌, map, IfOk, [], ◌∷◌};
ghost use Rattle.gh_core.specs.SameType.{free};
ghost use Rattle.gh_core.specs.Typing.{prelude_type, type_of, code_of};
ghost use Rattle.gh_kernel.specs.declared.functions.GenFun.{GenFun};
ghost use Rattle.gh_typeterm.specs.declared.ty.TyNode.TheVariants as ty;
ghost use Rattle.gh_adapt.specs.TypedPairs.{ep_function, every_second, param_codes, param_type};

use crate::select::prelude_type;
use crate::terms::{number, prelude_value, variable};
use gh_base::fixed::EP;
use gh_base::{ListOf, NameId, NoMemory, Span};
use gh_core::{CoreTerm, CoreType};
use gh_kernel::{Dependency, GenFun};
use gh_kind_index::kind_indexed;
use gh_typeterm::{Kind, Ty};
use sqlite_items::Boxed;
use std::alloc::Global;

/// So many type variables, each second one from this one on.
pub fn every_second(alloc: Global, from: u32, count: usize) -> Result<ListOf<CoreType>, NoMemory>
    ensures { IfOk result (λ made. map type_of made ≡ every_second from count) }
{
    let mut made = ListOf::new(alloc);
    for i in 0..count {
        made.push(type_variable(second(from, i)?))?;
    }
    Ok(made)
}

fn type_variable(x: u32) -> CoreType
    ensures { type_of result ≡ free x }
{
    CoreType::Var(x)
}

// The number that stands so many places, each of two numbers, behind this one.
fn second(from: u32, place: usize) -> Result<u32, NoMemory>
    ensures { IfOk result (λ x. x ≡ from + place + place) }
{
    let place = number(place)?;
    match from.checked_add(place) {
        Some(x) => match x.checked_add(place) {
            Some(x) => Ok(x),
            None => Err(NoMemory),
        },
        None => Err(NoMemory),
    }
}

/// The variables of so many parameters' pairs.
pub fn params(alloc: Global, count: usize) -> Result<ListOf<CoreTerm>, NoMemory>
    ensures { IfOk result (λ made. map code_of made ≡ param_codes 0 count) }
{
    let mut made = ListOf::new(alloc);
    for i in 0..count {
        made.push(variable(alloc, number(i)?)?.into_inner())?;
    }
    Ok(made)
}

/// The type of a parameter's pair between two type variables: that of a component, at the parameter's kind, of the function
/// whose base type is the type of pairs.
pub fn param_type(
    alloc: Global,
    left: u32,
    right: u32,
    kind: &Kind,
) -> Result<Boxed<CoreType>, NoMemory>
    requires { right ≡ left + 1 }
    ensures { IfOk result (λ made. type_of made ≡ param_type left kind.now) }
{
    let functions = ep_functions(alloc)?;
    let function = ep_function(alloc)?;
    let types = two_types(alloc, left, right)?;
    let made = kind_indexed(alloc, &function, &functions, kind, &types)?;
    Ok(Boxed::new(alloc, made)?)
}

fn two_types(alloc: Global, left: u32, right: u32) -> Result<ListOf<CoreType>, NoMemory>
    requires { right ≡ left + 1 }
    ensures { IfOk result (λ made. map type_of made ≡ free left ∷ free (suc left) ∷ []) }
{
    let mut types = ListOf::new(alloc);
    types.push(type_variable(left))?;
    types.push(type_variable(right))?;
    Ok(types)
}

// It depends on itself alone.
fn ep_functions(alloc: Global) -> Result<ListOf<GenFun>, NoMemory>
    ensures { IfOk result (λ made. made ≡ ep_function ∷ []) }
{
    let mut functions = ListOf::new(alloc);
    functions.push(ep_function(alloc)?)?;
    Ok(functions)
}

// The function of which `bimap` is the component.
fn ep_function(alloc: Global) -> Result<GenFun, NoMemory>
    ensures { IfOk result (λ made. made ≡ ep_function) }
{
    let mut dependencies = ListOf::new(alloc);
    dependencies.push(Dependency {
        function: prelude_value(EP),
        generic: two_names(alloc)?,
        other: ListOf::new(alloc),
    })?;
    Ok(GenFun {
        origin: prelude_value(EP),
        span: Span {
            file: 0,
            from: 0,
            to: 0,
        },
        generic: two_names(alloc)?,
        other: ListOf::new(alloc),
        dependencies,
        base: ep_base(alloc)?,
        cases: ListOf::new(alloc),
    })
}

fn two_names(alloc: Global) -> Result<ListOf<NameId>, NoMemory>
    ensures { IfOk result (λ made. made ≡ EP ∷ EP ∷ []) }
{
    let mut names = ListOf::new(alloc);
    names.push(EP)?;
    names.push(EP)?;
    Ok(names)
}

fn ep_base(alloc: Global) -> Result<Ty, NoMemory>
    ensures { IfOk result (λ made. made ≡ ty.App (ty.App (ty.Con (prelude_type EP)) (ty.Var 0)) (ty.Var 1)) }
{
    let head = Ty::con(alloc, prelude_type(EP))?;
    let head = Ty::app(alloc, head, Ty::var(alloc, 0)?)?;
    Ty::app(alloc, head, Ty::var(alloc, 1)?)
}
