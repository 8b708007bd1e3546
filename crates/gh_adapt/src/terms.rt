// Terms, form by form.
ghost use Rattle.std.specs.Prelude.{◌≡◌, ◌+◌, map, IfOk, []};
ghost use Rattle.gh_core.specs.Primitives.{prelude_value};
ghost use Rattle.gh_core.specs.Typing.{type_of, code_of, a_stop, a_var, a_con, a_lam, an_app, a_tylam, a_tyapp, con_branch};
ghost use Rattle.gh_adapt.specs.Conversions.{field_names, nowhere};
ghost use Rattle.gh_adapt.specs.Typed.{at_two, branch_of, case_code, fields_given, one_case, tylams, types_given};

use gh_base::fixed::PRELUDE;
use gh_base::{ListOf, NameId, NoMemory, Origin, Space, Span};
use gh_core::{CoreAlt, CoreTerm, CoreType};
use gh_kind_index::copy_type;
use gh_typeterm::{Kind, copy_kind};
use sqlite_items::Boxed;
use std::alloc::Global;

/// The constructor or function of this name that the Prelude defines.
pub fn prelude_value(name: NameId) -> Origin
    ensures { result ≡ prelude_value name }
{
    Origin {
        module: PRELUDE,
        space: Space::Values,
        name,
    }
}

/// A number of a variable; one with more than 32 bits is refused as want of memory.
pub fn number(count: usize) -> Result<u32, NoMemory>
    ensures { IfOk result (λ x. x ≡ count) }
{
    match u32::try_from(count) {
        Ok(x) => Ok(x),
        Err(_) => Err(NoMemory),
    }
}

/// The variable with this number.
pub fn variable(alloc: Global, x: u32) -> Result<Boxed<CoreTerm>, NoMemory>
    ensures { IfOk result (λ made. code_of made ≡ a_var x) }
{
    Ok(Boxed::new(alloc, CoreTerm::Var(x))?)
}

/// The constructor of this origin.
pub fn constructor(alloc: Global, con: Origin) -> Result<Boxed<CoreTerm>, NoMemory>
    ensures { IfOk result (λ made. code_of made ≡ a_con con) }
{
    Ok(Boxed::new(alloc, CoreTerm::Con(con))?)
}

/// A term applied to a term.
pub fn apply(
    alloc: Global,
    function: Boxed<CoreTerm>,
    argument: Boxed<CoreTerm>,
) -> Result<Boxed<CoreTerm>, NoMemory>
    ensures { IfOk result (λ made. code_of made ≡ an_app (code_of function) (code_of argument)) }
{
    Ok(Boxed::new(alloc, CoreTerm::App(function, argument))?)
}

/// A term applied to a type.
pub fn apply_type(
    alloc: Global,
    function: Boxed<CoreTerm>,
    ty: Boxed<CoreType>,
) -> Result<Boxed<CoreTerm>, NoMemory>
    ensures { IfOk result (λ made. code_of made ≡ a_tyapp (code_of function) (type_of ty)) }
{
    Ok(Boxed::new(alloc, CoreTerm::TyApp(function, ty.into_inner()))?)
}

/// A constructor of two type parameters at two types.
pub fn at_two(
    alloc: Global,
    con: Origin,
    a: Boxed<CoreType>,
    b: Boxed<CoreType>,
) -> Result<Boxed<CoreTerm>, NoMemory>
    ensures { IfOk result (λ made. code_of made ≡ at_two con (type_of a) (type_of b)) }
{
    let head = constructor(alloc, con)?;
    let head = apply_type(alloc, head, a)?;
    apply_type(alloc, head, b)
}

/// A term at each of these types.
pub fn types_given(
    alloc: Global,
    term: Boxed<CoreTerm>,
    types: &[CoreType],
) -> Result<Boxed<CoreTerm>, NoMemory>
    ensures { IfOk result (λ made. code_of made ≡ types_given (code_of term) (map type_of types.now)) }
{
    let mut made = term;
    for ty in types {
        let ty = copy_type(alloc, ty)?;
        made = apply_type(alloc, made, ty)?;
    }
    Ok(made)
}

/// A term applied to the variables of so many fields.
pub fn fields_given(
    alloc: Global,
    term: Boxed<CoreTerm>,
    count: usize,
) -> Result<Boxed<CoreTerm>, NoMemory>
    ensures { IfOk result (λ made. code_of made ≡ fields_given (code_of term) 0 count) }
{
    let mut made = term;
    for i in 0..count {
        let field = variable(alloc, next(i)?)?;
        made = apply(alloc, made, field)?;
    }
    Ok(made)
}

/// The variable of a field.
pub fn next(field: usize) -> Result<u32, NoMemory>
    ensures { IfOk result (λ x. x ≡ field + 1) }
{
    match field.checked_add(1) {
        Some(x) => number(x),
        None => Err(NoMemory),
    }
}

/// The variables of so many fields, those before them being as many.
pub fn field_names(alloc: Global, before: usize, count: usize) -> Result<ListOf<u32>, NoMemory>
    ensures { IfOk result (λ names. names ≡ field_names before count) }
{
    let mut names = ListOf::new(alloc);
    for i in 0..count {
        names.push(place(before, i)?)?;
    }
    Ok(names)
}

/// The variable of a field behind so many variables.
pub fn place(before: usize, field: usize) -> Result<u32, NoMemory>
    ensures { IfOk result (λ x. x ≡ before + field + 1) }
{
    match before.checked_add(field) {
        Some(x) => next(x),
        None => Err(NoMemory),
    }
}

/// A function of one variable.
pub fn function(
    alloc: Global,
    x: u32,
    ty: Boxed<CoreType>,
    body: Boxed<CoreTerm>,
) -> Result<Boxed<CoreTerm>, NoMemory>
    ensures { IfOk result (λ made. code_of made ≡ a_lam x (type_of ty) (code_of body)) }
{
    Ok(Boxed::new(alloc, CoreTerm::Lam(x, ty.into_inner(), body))?)
}

/// A function of types of these kinds, whose variables have the numbers from 0 on.
pub fn type_functions(
    alloc: Global,
    kinds: &[Kind],
    body: Boxed<CoreTerm>,
) -> Result<Boxed<CoreTerm>, NoMemory>
    ensures { IfOk result (λ made. code_of made ≡ tylams 0 kinds.now (code_of body)) }
{
    let mut made = body;
    for i in (0..kinds.len()).rev() {
        made = type_function(alloc, number(i)?, &kinds[i], made)?;
    }
    Ok(made)
}

/// A function of one type variable.
pub fn type_function(
    alloc: Global,
    x: u32,
    kind: &Kind,
    body: Boxed<CoreTerm>,
) -> Result<Boxed<CoreTerm>, NoMemory>
    ensures { IfOk result (λ made. code_of made ≡ a_tylam x kind.now (code_of body)) }
{
    let kind = copy_kind(alloc, kind)?;
    Ok(Boxed::new(alloc, CoreTerm::TyLam(x, kind, body))?)
}

/// An alternative for a constructor.
pub fn alternative(con: Origin, names: ListOf<u32>, body: Boxed<CoreTerm>) -> CoreAlt
    ensures { branch_of result ≡ con_branch con names (code_of body) }
{
    CoreAlt::Con(con, names, body.into_inner())
}

/// A case with these alternatives, which fails at the place of no text where none fits.
pub fn case_of(
    alloc: Global,
    scrutinee: Boxed<CoreTerm>,
    ty: &CoreType,
    alternatives: ListOf<CoreAlt>,
) -> Result<Boxed<CoreTerm>, NoMemory>
    ensures { IfOk result (λ made. code_of made ≡ case_code (code_of scrutinee) (type_of ty.now) (map branch_of alternatives)) }
{
    let otherwise = failure(alloc, ty)?;
    let ty = copy_type(alloc, ty)?;
    let made = CoreTerm::Case(scrutinee, ty.into_inner(), alternatives, Some(otherwise));
    Ok(Boxed::new(alloc, made)?)
}

/// The failure at the place of no text.
pub fn failure(alloc: Global, ty: &CoreType) -> Result<Boxed<CoreTerm>, NoMemory>
    ensures { IfOk result (λ made. code_of made ≡ a_stop nowhere (type_of ty.now)) }
{
    let ty = copy_type(alloc, ty)?;
    let place = Span {
        file: 0,
        from: 0,
        to: 0,
    };
    Ok(Boxed::new(alloc, CoreTerm::Stop(place, ty.into_inner()))?)
}

/// A case on the variable 0 with one alternative.
pub fn one_case(alloc: Global, ty: &CoreType, only: CoreAlt) -> Result<Boxed<CoreTerm>, NoMemory>
    ensures { IfOk result (λ made. code_of made ≡ one_case (type_of ty.now) (branch_of only)) }
{
    let mut alternatives = ListOf::new(alloc);
    alternatives.push(only)?;
    let here = variable(alloc, 0)?;
    case_of(alloc, here, ty, alternatives)
}
