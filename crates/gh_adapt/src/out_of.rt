// From the representation of a datatype to it.
ghost use Rattle.std.specs.Prelude.{◌≡◌, map, IfOk, [], ◌∷◌};
ghost use Rattle.gh_core.specs.Primitives.{prelude_value};
ghost use Rattle.gh_core.specs.Typing.{Program, HasType, placed, a_var, con_branch, type_of, code_of};
ghost use Rattle.gh_adapt.specs.Conversions.{to_of};
ghost use Rattle.gh_adapt.specs.Goes.{ToGoes};
ghost use Rattle.gh_adapt.specs.Types.{Knows, to_type};
ghost use Rattle.gh_adapt.specs.Untyped.{untyped};
ghost use Rattle.gh_adapt.specs.Typed.{apart_code, branch_of, case_code, layer_case_code, one_case, to_case_code, to_code};

use crate::terms::{
    alternative, case_of, constructor, failure, fields_given, function, next, number, one_case,
    prelude_value, type_functions, types_given, variable,
};
use crate::types::{nested_at, self_type};
use gh_base::fixed::{CON, INL, INR, PRODUCT, SUM, UNIT};
use gh_base::{ListOf, NoMemory, Origin};
use gh_core::{CoreAlt, CoreTerm, CoreType};
use gh_kind_index::{raised, variables};
use gh_struct_rep::layers;
use gh_typeterm::{DeclCon, DeclData};
use sqlite_items::Boxed;
use std::alloc::Global;

/// The conversion of what represents a value of a datatype into that value.
pub fn to_term(alloc: Global, decl: &DeclData) -> Result<CoreTerm, NoMemory>
    ensures term { IfOk result (λ made. untyped made ≡ to_of decl.now) }

    // Applied to a term that comes to what stands for a constructor, it goes to the constructor, in at most 400 reductions
    // beside those of the term and of its parts.
    ensures goes { IfOk result (λ made. ToGoes decl.now (untyped made)) }

    // It has its type in each program of core that has the datatype and those of representations.
    ensures typed { IfOk result (λ made. (p : Program) → Knows p decl.now → HasType p [] [] (code_of made) (placed [] (to_type decl.now))) }
{
    let made = conversion(alloc, decl)?;
    Ok(made.into_inner())
}

fn conversion(alloc: Global, decl: &DeclData) -> Result<Boxed<CoreTerm>, NoMemory>
    ensures { IfOk result (λ made. code_of made ≡ to_code decl.now) }
{
    let count = decl.params.as_slice().len();
    let _ = raised(0, count)?;
    let arguments = variables(alloc, 0, count)?;
    let ty = self_type(alloc, decl, arguments.as_slice())?;
    let body = to_case(
        alloc,
        arguments.as_slice(),
        ty.get(),
        decl.constructors.as_slice(),
    )?;
    let layers = layers(alloc, decl.constructors.as_slice())?;
    let ty = nested_at(alloc, arguments.as_slice(), SUM, layers.as_slice())?;
    let made = function(alloc, 0, ty, body)?;
    type_functions(alloc, decl.params.as_slice(), made)
}

// The cases on the sum of these constructors' layers.
fn to_case(
    alloc: Global,
    arguments: &[CoreType],
    ty: &CoreType,
    constructors: &[DeclCon],
) -> Result<Boxed<CoreTerm>, NoMemory>
    ensures { IfOk result (λ made. code_of made ≡ to_case_code (map type_of arguments.now) (type_of ty.now) constructors.now) }
{
    let count = constructors.len();
    if count == 0 {
        return failure(alloc, ty);
    }
    let mut made = layer_case(alloc, arguments, ty, &constructors[count - 1])?;
    for at in (0..count - 1).rev() {
        let layer = layer_case(alloc, arguments, ty, &constructors[at])?;
        made = sum_case(alloc, ty, layer, made)?;
    }
    Ok(made)
}

// The case on a sum.
fn sum_case(
    alloc: Global,
    ty: &CoreType,
    left: Boxed<CoreTerm>,
    right: Boxed<CoreTerm>,
) -> Result<Boxed<CoreTerm>, NoMemory>
    ensures { IfOk result (λ made. code_of made ≡ case_code (a_var 0) (type_of ty.now)
        (con_branch (prelude_value INL) (0 ∷ []) (code_of left) ∷ con_branch (prelude_value INR) (0 ∷ []) (code_of right) ∷ [])) }
{
    let mut alternatives = ListOf::new(alloc);
    alternatives.push(with_one(alloc, prelude_value(INL), 0, left)?)?;
    alternatives.push(with_one(alloc, prelude_value(INR), 0, right)?)?;
    let here = variable(alloc, 0)?;
    case_of(alloc, here, ty, alternatives)
}

// An alternative for a constructor of one field.
fn with_one(
    alloc: Global,
    con: Origin,
    name: u32,
    body: Boxed<CoreTerm>,
) -> Result<CoreAlt, NoMemory>
    ensures { IfOk result (λ made. branch_of made ≡ con_branch con (name ∷ []) (code_of body)) }
{
    let mut names = ListOf::new(alloc);
    names.push(name)?;
    Ok(alternative(con, names, body))
}

// The case on a constructor's layer.
fn layer_case(
    alloc: Global,
    arguments: &[CoreType],
    ty: &CoreType,
    con: &DeclCon,
) -> Result<Boxed<CoreTerm>, NoMemory>
    ensures { IfOk result (λ made. code_of made ≡ layer_case_code (map type_of arguments.now) (type_of ty.now) con.now) }
{
    let count = con.fields.as_slice().len();
    let head = constructor(alloc, con.origin)?;
    let head = types_given(alloc, head, arguments)?;
    let body = fields_given(alloc, head, count)?;
    let (name, body) = apart(alloc, ty, count, body)?;
    let only = with_one(alloc, prelude_value(CON), name, body)?;
    one_case(alloc, ty, only)
}

// The cases that take a product of so many parts apart, and the variable that the product is bound to.
fn apart(
    alloc: Global,
    ty: &CoreType,
    count: usize,
    body: Boxed<CoreTerm>,
) -> Result<(u32, Boxed<CoreTerm>), NoMemory>
    ensures { IfOk result (λ made. (made.0 ≡ (apart_code (type_of ty.now) 0 count (code_of body)).0)
        × (code_of made.1 ≡ (apart_code (type_of ty.now) 0 count (code_of body)).1)) }
{
    if count == 0 {
        let only = alternative(prelude_value(UNIT), ListOf::new(alloc), body);
        return Ok((0, one_case(alloc, ty, only)?));
    }
    let mut name = number(count)?;
    let mut made = body;
    for at in (0..count - 1).rev() {
        made = product_case(alloc, ty, next(at)?, name, made)?;
        name = 0;
    }
    Ok((name, made))
}

// The case on a product.
fn product_case(
    alloc: Global,
    ty: &CoreType,
    first: u32,
    rest: u32,
    body: Boxed<CoreTerm>,
) -> Result<Boxed<CoreTerm>, NoMemory>
    ensures { IfOk result (λ made. code_of made ≡ one_case (type_of ty.now) (con_branch (prelude_value PRODUCT) (first ∷ rest ∷ []) (code_of body))) }
{
    let mut names = ListOf::new(alloc);
    names.push(first)?;
    names.push(rest)?;
    let only = alternative(prelude_value(PRODUCT), names, body);
    one_case(alloc, ty, only)
}
