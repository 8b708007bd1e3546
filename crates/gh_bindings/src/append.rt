// The definition of `++`.
ghost use Rattle.std.specs.Prelude.{◌≡◌, IfOk, ◌∷◌, []};
ghost use Rattle.gh_core.specs.declared.terms.CoreTerm.TheVariants as core;
ghost use Rattle.gh_core.specs.declared.terms.CoreName.TheVariants.{Plain};
ghost use Rattle.gh_core.specs.Primitives.{cons};
ghost use Rattle.gh_bindings.specs.Meaning.{append};
ghost use Rattle.gh_bindings.specs.Core.{append_case, append_def, cell_at, cons_alternative, cons_body, elements, joined_at, nil_alternative};

use crate::names::prelude_value;
use crate::types::{append_type, elements};
use gh_base::fixed::{APPEND, CONS, NIL};
use gh_base::{ListOf, NoMemory};
use gh_core::{CoreAlt, CoreName, CoreTerm, CoreType, Def};
use gh_typeterm::Kind;
use sqlite_items::Boxed;
use std::alloc::Global;

// A variable.
fn variable(alloc: Global, number: u32) -> Result<Boxed<CoreTerm>, NoMemory>
    ensures { IfOk result (λ term. term ≡ core.Var number) }
{
    Ok(Boxed::new(alloc, CoreTerm::Var(number))?)
}

// A function with its argument.
fn apply(
    alloc: Global,
    function: Boxed<CoreTerm>,
    argument: Boxed<CoreTerm>,
) -> Result<Boxed<CoreTerm>, NoMemory>
    ensures { IfOk result (λ term. term ≡ core.App function argument) }
{
    Ok(Boxed::new(alloc, CoreTerm::App(function, argument))?)
}

// A function with two arguments.
fn apply_two(
    alloc: Global,
    function: Boxed<CoreTerm>,
    first: Boxed<CoreTerm>,
    second: Boxed<CoreTerm>,
) -> Result<Boxed<CoreTerm>, NoMemory>
    ensures { IfOk result (λ term. term ≡ core.App (core.App function first) second) }
{
    let partial = apply(alloc, function, first)?;
    apply(alloc, partial, second)
}

// A function of types at this type.
fn apply_type(
    alloc: Global,
    function: Boxed<CoreTerm>,
    ty: CoreType,
) -> Result<Boxed<CoreTerm>, NoMemory>
    ensures { IfOk result (λ term. term ≡ core.TyApp function ty) }
{
    Ok(Boxed::new(alloc, CoreTerm::TyApp(function, ty))?)
}

// `++`, at an element type.
fn append_at(alloc: Global, ty: CoreType) -> Result<Boxed<CoreTerm>, NoMemory>
    ensures { IfOk result (λ term. term ≡ core.TyApp (core.Global (Plain append)) ty) }
{
    let append = Boxed::new(
        alloc,
        CoreTerm::Global(CoreName::Plain(prelude_value(APPEND))),
    )?;
    apply_type(alloc, append, ty)
}

// The constructor of cells, at an element type.
fn cons_at(alloc: Global, ty: CoreType) -> Result<Boxed<CoreTerm>, NoMemory>
    ensures { IfOk result (λ term. term ≡ core.TyApp (core.Con cons) ty) }
{
    let cons = Boxed::new(alloc, CoreTerm::Con(prelude_value(CONS)))?;
    apply_type(alloc, cons, ty)
}

/// Two terms joined by `++`, at an element type.
pub fn joined_at(
    alloc: Global,
    ty: CoreType,
    left: Boxed<CoreTerm>,
    right: Boxed<CoreTerm>,
) -> Result<Boxed<CoreTerm>, NoMemory>
    ensures { IfOk result (λ term. term ≡ joined_at ty left right) }
{
    let function = append_at(alloc, ty)?;
    apply_two(alloc, function, left, right)
}

// The list with this head and tail, at an element type.
fn cell_at(
    alloc: Global,
    ty: CoreType,
    head: Boxed<CoreTerm>,
    tail: Boxed<CoreTerm>,
) -> Result<Boxed<CoreTerm>, NoMemory>
    ensures { IfOk result (λ term. term ≡ cell_at ty head tail) }
{
    let function = cons_at(alloc, ty)?;
    apply_two(alloc, function, head, tail)
}

// At the empty list: the second argument.
fn nil_alternative(alloc: Global) -> CoreAlt
    ensures { result ≡ nil_alternative }
{
    CoreAlt::Con(prelude_value(NIL), ListOf::new(alloc), CoreTerm::Var(1))
}

// The first field, before the second joined with the second argument.
fn cons_body(alloc: Global) -> Result<Boxed<CoreTerm>, NoMemory>
    ensures { IfOk result (λ term. term ≡ cons_body) }
{
    let tail = variable(alloc, 3)?;
    let second = variable(alloc, 1)?;
    let rest = joined_at(alloc, CoreType::Var(0), tail, second)?;
    let head = variable(alloc, 2)?;
    cell_at(alloc, CoreType::Var(0), head, rest)
}

// At a cell: its head, before its tail joined with the second argument.
fn cons_alternative(alloc: Global) -> Result<CoreAlt, NoMemory>
    ensures { IfOk result (λ alternative. alternative ≡ cons_alternative) }
{
    let fields = ListOf::from_slice(alloc, &[2, 3])?;
    let body = cons_body(alloc)?;
    Ok(CoreAlt::Con(prelude_value(CONS), fields, body.into_inner()))
}

// The alternatives of the case.
fn alternatives(alloc: Global) -> Result<ListOf<CoreAlt>, NoMemory>
    ensures { IfOk result (λ alternatives. alternatives ≡ nil_alternative ∷ cons_alternative ∷ []) }
{
    let mut alternatives = ListOf::new(alloc);
    alternatives.push(nil_alternative(alloc))?;
    alternatives.push(cons_alternative(alloc)?)?;
    Ok(alternatives)
}

// The case on the first argument.
fn append_case(alloc: Global) -> Result<Boxed<CoreTerm>, NoMemory>
    ensures { IfOk result (λ term. term ≡ append_case) }
{
    let alternatives = alternatives(alloc)?;
    let scrutinee = variable(alloc, 0)?;
    let ty = elements(alloc)?;
    Ok(Boxed::new(alloc, CoreTerm::Case(scrutinee, ty, alternatives, None))?)
}

// A function of a list.
fn function(
    alloc: Global,
    variable: u32,
    body: Boxed<CoreTerm>,
) -> Result<Boxed<CoreTerm>, NoMemory>
    ensures { IfOk result (λ term. term ≡ core.Lam variable elements body) }
{
    let ty = elements(alloc)?;
    Ok(Boxed::new(alloc, CoreTerm::Lam(variable, ty, body))?)
}

/// The definition of the Prelude's `++`: a function of a type and two arguments, with a case on the first.
pub fn append_def(alloc: Global) -> Result<Def, NoMemory>
    ensures { IfOk result (λ def. def ≡ append_def) }
{
    let inner = function(alloc, 1, append_case(alloc)?)?;
    let outer = function(alloc, 0, inner)?;
    Ok(Def {
        name: CoreName::Plain(prelude_value(APPEND)),
        ty: append_type(alloc)?,
        term: CoreTerm::TyLam(0, Kind::Star, outer),
    })
}
