// Terms, form by form, and numbers of variables.
ghost use Rattle.std.specs.Prelude.{◌≡◌, ◌+◌, ◌∷◌, [], IfOk, Some, map};
ghost use Rattle.gh_core.specs.Typing.{type_of, code_of, a_case, a_lam, a_letrec, a_var, an_app, branch, con_branch, else_branch, no_binding, branches_of};
ghost use Rattle.gh_core.specs.Primitives.{prelude_value};
ghost use Rattle.gh_match.specs.Compiled.{branch_of, group_code, truth_branches};

use crate::copies::copy_term;
use gh_base::fixed::{FALSE, PRELUDE, TRUE};
use gh_base::{ListOf, NameId, NoMemory, Origin, Space};
use gh_core::{CoreAlt, CoreTerm, CoreType};
use gh_kind_index::copy_type;
use sqlite_items::Boxed;
use std::alloc::Global;

/// The next number; one with more than 32 bits is refused as want of memory.
pub fn next(number: u32) -> Result<u32, NoMemory>
    ensures { IfOk result (λ x. x ≡ number + 1) }
{
    match number.checked_add(1) {
        Some(x) => Ok(x),
        None => Err(NoMemory),
    }
}

/// A number further on by so many; one with more than 32 bits is refused as want of memory.
pub fn sum(number: u32, count: usize) -> Result<u32, NoMemory>
    ensures { IfOk result (λ x. x ≡ number + count) }
{
    match u32::try_from(count) {
        Ok(count) => match number.checked_add(count) {
            Some(x) => Ok(x),
            None => Err(NoMemory),
        },
        Err(_) => Err(NoMemory),
    }
}

/// The variable with this number.
pub fn variable(alloc: Global, x: u32) -> Result<Boxed<CoreTerm>, NoMemory>
    ensures { IfOk result (λ made. code_of made ≡ a_var x) }
{
    Ok(Boxed::new(alloc, CoreTerm::Var(x))?)
}

/// A term applied to a term.
pub fn apply(
    alloc: Global,
    function: Boxed<CoreTerm>,
    argument: Boxed<CoreTerm>,
) -> Result<Boxed<CoreTerm>, NoMemory>
    ensures { IfOk result (λ made. code_of made ≡ an_app (code_of function) (code_of argument)) }
{
    Ok(Boxed::new(alloc, CoreTerm::App(function, argument))?)
}

/// A function of one variable.
pub fn function(
    alloc: Global,
    x: u32,
    ty: Boxed<CoreType>,
    body: Boxed<CoreTerm>,
) -> Result<Boxed<CoreTerm>, NoMemory>
    ensures { IfOk result (λ made. code_of made ≡ a_lam x (type_of ty) (code_of body)) }
{
    Ok(Boxed::new(alloc, CoreTerm::Lam(x, ty.into_inner(), body))?)
}

/// A case on the variable `subject` with one alternative, where the variable `fail` goes on otherwise.
pub fn one_case(
    alloc: Global,
    subject: u32,
    answer: &CoreType,
    alternative: CoreAlt,
    fail: u32,
) -> Result<Boxed<CoreTerm>, NoMemory>
    ensures { IfOk result (λ made. code_of made ≡ a_case (a_var subject) (type_of answer.now) (branch (branch_of alternative) (else_branch (a_var fail)))) }
{
    let alternatives = only(alloc, alternative)?;
    case_of(alloc, subject, answer, alternatives, fail)
}

// The list of one alternative.
fn only(alloc: Global, alternative: CoreAlt) -> Result<ListOf<CoreAlt>, NoMemory>
    ensures { IfOk result (λ made. made ≡ alternative ∷ []) }
{
    let mut made = ListOf::new(alloc);
    made.push(alternative)?;
    Ok(made)
}

// A case on the variable `subject`, where the variable `fail` goes on otherwise.
fn case_of(
    alloc: Global,
    subject: u32,
    answer: &CoreType,
    alternatives: ListOf<CoreAlt>,
    fail: u32,
) -> Result<Boxed<CoreTerm>, NoMemory>
    ensures { IfOk result (λ made. code_of made ≡ a_case (a_var subject) (type_of answer.now) (branches_of (map branch_of alternatives) (Some (a_var fail)))) }
{
    let scrutinee = variable(alloc, subject)?;
    let otherwise = variable(alloc, fail)?;
    let ty = copy_type(alloc, answer)?;
    let made = CoreTerm::Case(scrutinee, ty.into_inner(), alternatives, Some(otherwise));
    Ok(Boxed::new(alloc, made)?)
}

/// A case on a guard.
pub fn decide(
    alloc: Global,
    guard: &CoreTerm,
    answer: &CoreType,
    body: Boxed<CoreTerm>,
    rest: Boxed<CoreTerm>,
) -> Result<Boxed<CoreTerm>, NoMemory>
    ensures { IfOk result (λ made. code_of made ≡ a_case (code_of guard.now) (type_of answer.now) (truth_branches (code_of body) (code_of rest))) }
{
    let mut alternatives = ListOf::new(alloc);
    alternatives.push(truth(alloc, TRUE, body))?;
    alternatives.push(truth(alloc, FALSE, rest))?;
    let guard = copy_term(alloc, guard)?;
    let answer = copy_type(alloc, answer)?.into_inner();
    let made = CoreTerm::Case(guard, answer, alternatives, None);
    Ok(Boxed::new(alloc, made)?)
}

// An alternative for a truth value.
fn truth(alloc: Global, name: NameId, body: Boxed<CoreTerm>) -> CoreAlt
    ensures { branch_of result ≡ con_branch (prelude_value name) [] (code_of body) }
{
    let con = Origin {
        module: PRELUDE,
        space: Space::Values,
        name,
    };
    CoreAlt::Con(con, ListOf::new(alloc), body.into_inner())
}

/// A group of bindings round a term.
pub fn group(
    alloc: Global,
    bindings: &[(u32, CoreType, CoreTerm)],
    body: Boxed<CoreTerm>,
) -> Result<Boxed<CoreTerm>, NoMemory>
    ensures { IfOk result (λ made. code_of made ≡ a_letrec (group_code bindings.now) (code_of body)) }
{
    let copies = copy_group(alloc, bindings)?;
    Ok(Boxed::new(alloc, CoreTerm::LetRec(copies, body))?)
}

fn copy_group(
    alloc: Global,
    bindings: &[(u32, CoreType, CoreTerm)],
) -> Result<ListOf<(u32, CoreType, CoreTerm)>, NoMemory>
    ensures { IfOk result (λ copies. copies ≡ bindings.now) }
{
    let mut copies = ListOf::new(alloc);
    for (name, ty, term) in bindings {
        let ty = copy_type(alloc, ty)?.into_inner();
        copies.push((*name, ty, copy_term(alloc, term)?.into_inner()))?;
    }
    Ok(copies)
}

/// A term in a group without bindings.
pub fn no_group(alloc: Global, body: Boxed<CoreTerm>) -> Result<Boxed<CoreTerm>, NoMemory>
    ensures { IfOk result (λ made. code_of made ≡ a_letrec no_binding (code_of body)) }
{
    let none: ListOf<(u32, CoreType, CoreTerm)> = ListOf::new(alloc);
    Ok(Boxed::new(alloc, CoreTerm::LetRec(none, body))?)
}
