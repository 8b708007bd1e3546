// From a datatype to its representation.
ghost use Rattle.std.specs.Prelude.{◌≡◌, ◌+◌, ◌<◌, drop, length, map, IfOk, []};
ghost use Rattle.gh_core.specs.Primitives.{prelude_value};
ghost use Rattle.gh_core.specs.Typing.{Program, HasType, placed, a_var, an_app, a_tyapp, a_con, type_of, code_of};
ghost use Rattle.gh_typeterm.specs.Representation.{layer_of};
ghost use Rattle.gh_adapt.specs.Conversions.{from_of};
ghost use Rattle.gh_adapt.specs.Goes.{FromGoes, FromNewtypeGoes};
ghost use Rattle.gh_adapt.specs.Types.{Knows, from_type};
ghost use Rattle.gh_adapt.specs.Untyped.{untyped};
ghost use Rattle.gh_adapt.specs.Typed.{at, at_two, branch_of, case_code, from_branch, from_branches, from_code, injected_code, layer_code, product_at, product_code, sum_at};

use crate::terms::{
    alternative, apply, apply_type, at_two, case_of, constructor, field_names, function, next,
    number, prelude_value, type_functions, variable,
};
use crate::types::{nested_at, self_type, type_at};
use gh_base::fixed::{CON, INL, INR, PROD, PRODUCT, SUM, UNIT};
use gh_base::{ListOf, NoMemory, Origin};
use gh_core::{CoreAlt, CoreTerm, CoreType};
use gh_kind_index::{raised, variables};
use gh_struct_rep::layers;
use gh_typeterm::{DeclCon, DeclData, Ty};
use sqlite_items::Boxed;
use std::alloc::Global;

/// The conversion of a value of a datatype into what represents it.
pub fn from_term(alloc: Global, decl: &DeclData) -> Result<CoreTerm, NoMemory>
    ensures term { IfOk result (λ made. untyped made ≡ from_of decl.now) }

    // Applied to a term that comes to a constructor, it goes to what stands for the constructor, in four reductions beside
    // those of the term. That of a newtype evaluates nothing, and makes three.
    ensures goes { IfOk result (λ made. FromGoes decl.now (untyped made)) }
    ensures newtype { IfOk result (λ made. FromNewtypeGoes decl.now (untyped made)) }

    // It has its type in each program of core that has the datatype and those of representations.
    ensures typed { IfOk result (λ made. (p : Program) → Knows p decl.now → HasType p [] [] (code_of made) (placed [] (from_type decl.now))) }
{
    let made = conversion(alloc, decl)?;
    Ok(made.into_inner())
}

fn conversion(alloc: Global, decl: &DeclData) -> Result<Boxed<CoreTerm>, NoMemory>
    ensures { IfOk result (λ made. code_of made ≡ from_code decl.now) }
{
    let count = decl.params.as_slice().len();
    let _ = raised(0, count)?;
    let arguments = variables(alloc, 0, count)?;
    let layers = layers(alloc, decl.constructors.as_slice())?;
    let body = body(alloc, decl, arguments.as_slice(), layers.as_slice())?;
    let ty = self_type(alloc, decl, arguments.as_slice())?;
    let made = function(alloc, 0, ty, body)?;
    type_functions(alloc, decl.params.as_slice(), made)
}

// The case on the value.
fn body(
    alloc: Global,
    decl: &DeclData,
    arguments: &[CoreType],
    layers: &[Ty],
) -> Result<Boxed<CoreTerm>, NoMemory>
    requires { layers.now ≡ map layer_of decl.now.constructors }
    ensures { IfOk result (λ made. code_of made ≡ case_code (a_var 0) (sum_at (map type_of arguments.now) layers.now)
        (from_branches (map type_of arguments.now) layers.now 0 decl.now.constructors)) }
{
    let ty = nested_at(alloc, arguments, SUM, layers)?;
    let alternatives = alternatives(alloc, arguments, layers, decl.constructors.as_slice())?;
    let here = variable(alloc, 0)?;
    case_of(alloc, here, ty.get(), alternatives)
}

fn alternatives(
    alloc: Global,
    arguments: &[CoreType],
    layers: &[Ty],
    constructors: &[DeclCon],
) -> Result<ListOf<CoreAlt>, NoMemory>
    requires { layers.now ≡ map layer_of constructors.now }
    ensures { IfOk result (λ made. map branch_of made ≡ from_branches (map type_of arguments.now) layers.now 0 constructors.now) }
{
    let mut made = ListOf::new(alloc);
    for index in 0..constructors.len() {
        made.push(from_alternative(alloc, arguments, layers, index, &constructors[index])?)?;
    }
    Ok(made)
}

fn from_alternative(
    alloc: Global,
    arguments: &[CoreType],
    layers: &[Ty],
    index: usize,
    con: &DeclCon,
) -> Result<CoreAlt, NoMemory>
    requires { index < length layers.now }
    ensures { IfOk result (λ made. branch_of made ≡ from_branch (map type_of arguments.now) layers.now index con.now) }
{
    let names = field_names(alloc, 0, con.fields.as_slice().len())?;
    let layer = layer_term(alloc, arguments, con.fields.as_slice())?;
    let body = injected(alloc, arguments, layers, index, layer)?;
    Ok(alternative(con.origin, names, body))
}

// The layer round the product of the fields.
fn layer_term(
    alloc: Global,
    arguments: &[CoreType],
    fields: &[Ty],
) -> Result<Boxed<CoreTerm>, NoMemory>
    ensures { IfOk result (λ made. code_of made ≡ an_app (a_tyapp (a_con (prelude_value CON)) (product_at (map type_of arguments.now) fields.now)) (product_code (map type_of arguments.now) 0 fields.now)) }
{
    let head = constructor(alloc, prelude_value(CON))?;
    let ty = nested_at(alloc, arguments, PROD, fields)?;
    let head = apply_type(alloc, head, ty)?;
    let product = product(alloc, arguments, fields)?;
    apply(alloc, head, product)
}

// The fields nested to the right by the product.
fn product(
    alloc: Global,
    arguments: &[CoreType],
    fields: &[Ty],
) -> Result<Boxed<CoreTerm>, NoMemory>
    ensures { IfOk result (λ made. code_of made ≡ product_code (map type_of arguments.now) 0 fields.now) }
{
    let count = fields.len();
    if count == 0 {
        return constructor(alloc, prelude_value(UNIT));
    }
    let mut made = variable(alloc, number(count)?)?;
    for at in (0..count - 1).rev() {
        let x = next(at)?;
        made = with_field(alloc, arguments, &fields[at], &fields[at + 1..], x, made)?;
    }
    Ok(made)
}

// One field more, before the product of the others.
fn with_field(
    alloc: Global,
    arguments: &[CoreType],
    first: &Ty,
    rest: &[Ty],
    x: u32,
    product: Boxed<CoreTerm>,
) -> Result<Boxed<CoreTerm>, NoMemory>
    ensures { IfOk result (λ made. code_of made ≡ an_app (an_app (at_two (prelude_value PRODUCT) (at (map type_of arguments.now) first.now) (product_at (map type_of arguments.now) rest.now)) (a_var x)) (code_of product)) }
{
    let left = type_at(alloc, arguments, first)?;
    let right = nested_at(alloc, arguments, PROD, rest)?;
    let head = at_two(alloc, prelude_value(PRODUCT), left, right)?;
    let field = variable(alloc, x)?;
    let head = apply(alloc, head, field)?;
    apply(alloc, head, product)
}

// A layer in the sum of all layers.
fn injected(
    alloc: Global,
    arguments: &[CoreType],
    layers: &[Ty],
    index: usize,
    layer: Boxed<CoreTerm>,
) -> Result<Boxed<CoreTerm>, NoMemory>
    requires { index < length layers.now }
    ensures { IfOk result (λ made. code_of made ≡ injected_code (map type_of arguments.now) layers.now index (code_of layer)) }
{
    let mut made = chosen(alloc, arguments, layers, index, layer)?;
    for at in (0..index).rev() {
        let others = &layers[at + 1..];
        made = injection(
            alloc,
            arguments,
            prelude_value(INR),
            &layers[at],
            others,
            made,
        )?;
    }
    Ok(made)
}

// A layer in the sum of it and those after it.
fn chosen(
    alloc: Global,
    arguments: &[CoreType],
    layers: &[Ty],
    index: usize,
    layer: Boxed<CoreTerm>,
) -> Result<Boxed<CoreTerm>, NoMemory>
    requires { index < length layers.now }
    ensures { IfOk result (λ made. code_of made ≡ injected_code (map type_of arguments.now) (drop index layers.now) 0 (code_of layer)) }
{
    if index + 1 == layers.len() {
        return Ok(layer);
    }
    let others = &layers[index + 1..];
    injection(
        alloc,
        arguments,
        prelude_value(INL),
        &layers[index],
        others,
        layer,
    )
}

// One injection into the sum of a layer and others.
fn injection(
    alloc: Global,
    arguments: &[CoreType],
    con: Origin,
    layer: &Ty,
    others: &[Ty],
    content: Boxed<CoreTerm>,
) -> Result<Boxed<CoreTerm>, NoMemory>
    ensures { IfOk result (λ made. code_of made ≡ an_app (at_two con (at (map type_of arguments.now) layer.now) (sum_at (map type_of arguments.now) others.now)) (code_of content)) }
{
    let left = type_at(alloc, arguments, layer)?;
    let right = nested_at(alloc, arguments, SUM, others)?;
    let head = at_two(alloc, con, left, right)?;
    apply(alloc, head, content)
}
