// The pair of conversions of a datatype over those of its parameters.
ghost use Rattle.std.specs.Prelude.{◌≡◌, ◌+◌, map, length, IfOk, []};
ghost use Rattle.gh_core.specs.Typing.{a_lam, a_tylam, a_var, an_app, type_of, code_of};
ghost use Rattle.gh_adapt.specs.PairGoes.{BimapGoes};
ghost use Rattle.gh_adapt.specs.Pairs.{bimap_of};
ghost use Rattle.gh_adapt.specs.Typed.{branch_of, self_type};
ghost use Rattle.gh_adapt.specs.TypedPairs.{bimap_code, converted_code, pair_code, source, target, param_codes, param_type, rebuild_code, rebuilding_branch, rebuilt_code, with_params};
ghost use Rattle.gh_adapt.specs.Untyped.{untyped};

use crate::pairs::converted;
use crate::params::{every_second, param_type, params};
use crate::select::pair;
use crate::terms::{
    alternative, apply, case_of, constructor, field_names, function, number, place, type_function,
    types_given, variable,
};
use crate::types::self_type;
use crate::ways::Way;
use gh_base::{ListOf, NoMemory};
use gh_core::{CoreAlt, CoreTerm, CoreType};
use gh_kind_index::copy_type;
use gh_typeterm::{DeclCon, DeclData, Kind, Ty};
use sqlite_items::Boxed;
use std::alloc::Global;

/// The pair of conversions of a datatype, from the pairs at its parameters: each constructor is rebuilt, with its fields
/// converted at their types.
pub fn bimap_term(alloc: Global, decl: &DeclData) -> Result<CoreTerm, NoMemory>
    ensures term { IfOk result (λ made. untyped made ≡ bimap_of decl.now) }

    // At a pair for each parameter, either conversion goes to the case that rebuilds the term that it is applied to.
    ensures goes { IfOk result (λ made. BimapGoes decl.now (untyped made)) }
{
    let made = mapped(alloc, decl)?;
    Ok(made.into_inner())
}

fn mapped(alloc: Global, decl: &DeclData) -> Result<Boxed<CoreTerm>, NoMemory>
    ensures { IfOk result (λ made. code_of made ≡ bimap_code decl.now) }
{
    let count = decl.params.as_slice().len();
    let left = every_second(alloc, 0, count)?;
    let right = every_second(alloc, 1, count)?;
    let body = both(alloc, decl, left.as_slice(), right.as_slice())?;
    with_params(alloc, decl.params.as_slice(), body)
}

// The pair, inside its parameters.
fn both(
    alloc: Global,
    decl: &DeclData,
    left: &[CoreType],
    right: &[CoreType],
) -> Result<Boxed<CoreTerm>, NoMemory>
    ensures { IfOk result (λ made. code_of made ≡ pair_code (self_type decl.now (map type_of left.now)) (self_type decl.now (map type_of right.now))
        (rebuild_code Way.Forth (map type_of left.now) (map type_of right.now) (param_codes 0 (length decl.now.params)) (length decl.now.params) decl.now)
        (rebuild_code Way.Back (map type_of left.now) (map type_of right.now) (param_codes 0 (length decl.now.params)) (length decl.now.params) decl.now)) }
{
    let pairs = params(alloc, decl.params.as_slice().len())?;
    let from = self_type(alloc, decl, left)?;
    let to = self_type(alloc, decl, right)?;
    let forth = rebuild(
        alloc,
        Way::Forth,
        decl,
        left,
        right,
        pairs.as_slice(),
        from.get(),
        to.get(),
    )?;
    let back = rebuild(
        alloc,
        Way::Back,
        decl,
        left,
        right,
        pairs.as_slice(),
        to.get(),
        from.get(),
    )?;
    pair(alloc, from.get(), to.get(), forth, back)
}

// The case that rebuilds each constructor.
fn rebuild(
    alloc: Global,
    way: Way,
    decl: &DeclData,
    left: &[CoreType],
    right: &[CoreType],
    pairs: &[CoreTerm],
    from: &CoreType,
    to: &CoreType,
) -> Result<Boxed<CoreTerm>, NoMemory>
    requires source { type_of from.now ≡ self_type decl.now (source way (map type_of left.now) (map type_of right.now)) }
    requires target { type_of to.now ≡ self_type decl.now (target way (map type_of left.now) (map type_of right.now)) }
    ensures { IfOk result (λ made. code_of made ≡ rebuild_code way (map type_of left.now) (map type_of right.now) (map code_of pairs.now) (length decl.now.params) decl.now) }
{
    let count = decl.params.as_slice().len();
    let constructors = decl.constructors.as_slice();
    let alternatives = rebuilding(alloc, way, constructors, left, right, pairs, count)?;
    let x = number(count)?;
    let value = variable(alloc, x)?;
    let body = case_of(alloc, value, to, alternatives)?;
    let ty = copy_type(alloc, from)?;
    function(alloc, x, ty, body)
}

fn rebuilding(
    alloc: Global,
    way: Way,
    constructors: &[DeclCon],
    left: &[CoreType],
    right: &[CoreType],
    pairs: &[CoreTerm],
    count: usize,
) -> Result<ListOf<CoreAlt>, NoMemory>
    ensures { IfOk result (λ made. map branch_of made ≡ map (rebuilding_branch way (map type_of left.now) (map type_of right.now) (map code_of pairs.now) count) constructors.now) }
{
    let mut made = ListOf::new(alloc);
    for con in constructors {
        made.push(rebuilt(alloc, way, con, left, right, pairs, count)?)?;
    }
    Ok(made)
}

fn rebuilt(
    alloc: Global,
    way: Way,
    con: &DeclCon,
    left: &[CoreType],
    right: &[CoreType],
    pairs: &[CoreTerm],
    count: usize,
) -> Result<CoreAlt, NoMemory>
    ensures { IfOk result (λ made. branch_of made ≡ rebuilding_branch way (map type_of left.now) (map type_of right.now) (map code_of pairs.now) count con.now) }
{
    let names = field_names(alloc, count, con.fields.as_slice().len())?;
    let types = target(way, left, right);
    let head = constructor(alloc, con.origin)?;
    let head = types_given(alloc, head, types)?;
    let body = converted_fields(
        alloc,
        way,
        con.fields.as_slice(),
        left,
        right,
        pairs,
        count,
        head,
    )?;
    Ok(alternative(con.origin, names, body))
}

// The types to which the direction goes.
fn target<'a>(way: Way, left: &'a [CoreType], right: &'a [CoreType]) -> &'a [CoreType]
    ensures { map type_of result.now ≡ target way (map type_of left.now) (map type_of right.now) }
{
    match way {
        Way::Forth => right,
        Way::Back => left,
    }
}

// A constructor applied to its fields, each converted at its type.
fn converted_fields(
    alloc: Global,
    way: Way,
    fields: &[Ty],
    left: &[CoreType],
    right: &[CoreType],
    pairs: &[CoreTerm],
    count: usize,
    head: Boxed<CoreTerm>,
) -> Result<Boxed<CoreTerm>, NoMemory>
    ensures { IfOk result (λ made. code_of made ≡ rebuilt_code way (map type_of left.now) (map type_of right.now) (map code_of pairs.now) (code_of head) count fields.now) }
{
    let mut made = head;
    for i in 0..fields.len() {
        let x = place(count, i)?;
        let field = converted_field(alloc, way, &fields[i], left, right, pairs, x)?;
        made = apply(alloc, made, field)?;
    }
    Ok(made)
}

// A variable converted at its type.
fn converted_field(
    alloc: Global,
    way: Way,
    ty: &Ty,
    left: &[CoreType],
    right: &[CoreType],
    pairs: &[CoreTerm],
    x: u32,
) -> Result<Boxed<CoreTerm>, NoMemory>
    ensures { IfOk result (λ made. code_of made ≡ an_app (converted_code way (map type_of left.now) (map type_of right.now) [] (map code_of pairs.now) ty.now) (a_var x)) }
{
    let none: ListOf<CoreType> = ListOf::new(alloc);
    let chosen = converted(alloc, way, left, right, none.as_slice(), pairs, ty)?;
    let field = variable(alloc, x)?;
    apply(alloc, chosen, field)
}

// Behind each parameter's two types and its pair.
fn with_params(
    alloc: Global,
    kinds: &[Kind],
    body: Boxed<CoreTerm>,
) -> Result<Boxed<CoreTerm>, NoMemory>
    ensures { IfOk result (λ made. code_of made ≡ with_params 0 kinds.now (code_of body)) }
{
    let mut made = body;
    for i in (0..kinds.len()).rev() {
        made = with_param(alloc, number(i)?, &kinds[i], made)?;
    }
    Ok(made)
}

fn with_param(
    alloc: Global,
    i: u32,
    kind: &Kind,
    body: Boxed<CoreTerm>,
) -> Result<Boxed<CoreTerm>, NoMemory>
    ensures { IfOk result (λ made. code_of made ≡ a_tylam (i + i) kind.now (a_tylam (i + i + 1) kind.now (a_lam i (param_type (i + i) kind.now) (code_of body)))) }
{
    let (left, right) = two_variables(i)?;
    let ty = param_type(alloc, left, right, kind)?;
    let made = function(alloc, i, ty, body)?;
    let made = type_function(alloc, right, kind, made)?;
    type_function(alloc, left, kind, made)
}

// The numbers of the two type variables of a parameter.
fn two_variables(i: u32) -> Result<(u32, u32), NoMemory>
    ensures { IfOk result (λ made. (made.0 ≡ i + i) × (made.1 ≡ i + i + 1)) }
{
    match i.checked_add(i) {
        Some(left) => match left.checked_add(1) {
            Some(right) => Ok((left, right)),
            None => Err(NoMemory),
        },
        None => Err(NoMemory),
    }
}
