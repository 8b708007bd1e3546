// One row.
ghost use Rattle.std.specs.Prelude.{◌≡◌, ◌+◌, IfOk};
ghost use Rattle.gh_core.specs.Typing.{type_of, code_of, a_var};
ghost use Rattle.gh_kernel.specs.Reading.{patterns_of};
ghost use Rattle.gh_match.specs.Compiled.{all_wrapped, bodies_code, letrecs_code, nested_code, row_code, tests_pats, wrapped, body_code};

use crate::copies::copy_term;
use crate::rows::MatchRow;
use crate::terms::{apply, decide, function, group, no_group, one_case, variable};
use crate::tests::{Test, add_patterns};
use crate::types::noted_type;
use gh_base::{ListOf, NoMemory};
use gh_core::{CoreAlt, CoreTerm, CoreType};
use gh_kernel::{Note, Pattern};
use sqlite_items::Boxed;
use std::alloc::Global;

/// A row on the variables from `subject` on, where those from `free` on are free. Where it fails, the variable `fail` goes on.
pub fn row_term(
    alloc: Global,
    row: &MatchRow,
    answer: &CoreType,
    subject: u32,
    free: u32,
    fail: u32,
) -> Result<Boxed<CoreTerm>, NoMemory>
    ensures { IfOk result (λ made. code_of made ≡ row_code (type_of answer.now) subject free fail row.now) }
{
    let tests = tests_of(alloc, row.patterns.as_slice(), subject, free)?;
    let done = bodies(alloc, row.bodies.as_slice(), answer, fail)?;
    let done = groups(alloc, row.groups.as_slice(), done)?;
    wrap_all(alloc, tests.as_slice(), answer, fail, done)
}

// What is done for the patterns of a row, in order.
fn tests_of(
    alloc: Global,
    patterns: &[Pattern<Note>],
    subject: u32,
    free: u32,
) -> Result<ListOf<Test>, NoMemory>
    ensures { IfOk result (λ tests. tests ≡ tests_pats (patterns_of patterns.now) subject free) }
{
    let mut tests = ListOf::new(alloc);
    add_patterns(alloc, &mut tests, patterns, subject, free)?;
    Ok(tests)
}

// The bodies, from the last to the first.
fn bodies(
    alloc: Global,
    bodies: &[(Option<CoreTerm>, CoreTerm)],
    answer: &CoreType,
    fail: u32,
) -> Result<Boxed<CoreTerm>, NoMemory>
    ensures { IfOk result (λ made. code_of made ≡ bodies_code (type_of answer.now) fail bodies.now) }
{
    let mut made = variable(alloc, fail)?;
    for at in (0..bodies.len()).rev() {
        made = body(alloc, &bodies[at], answer, made)?;
    }
    Ok(made)
}

// A body before those after it.
fn body(
    alloc: Global,
    body: &(Option<CoreTerm>, CoreTerm),
    answer: &CoreType,
    rest: Boxed<CoreTerm>,
) -> Result<Boxed<CoreTerm>, NoMemory>
    ensures { IfOk result (λ made. code_of made ≡ body_code (type_of answer.now) body.now.0 (code_of body.now.1) (code_of rest)) }
{
    let term = copy_term(alloc, &body.1)?;
    match &body.0 {
        None => Ok(term),
        Some(guard) => decide(alloc, guard, answer, term, rest),
    }
}

// The groups round a term; where there are none, one without bindings.
fn groups(
    alloc: Global,
    groups: &[ListOf<(u32, CoreType, CoreTerm)>],
    body: Boxed<CoreTerm>,
) -> Result<Boxed<CoreTerm>, NoMemory>
    ensures { IfOk result (λ made. code_of made ≡ letrecs_code groups.now (code_of body)) }
{
    if groups.is_empty() {
        return no_group(alloc, body);
    }
    let mut made = body;
    for at in (0..groups.len()).rev() {
        made = group(alloc, groups[at].as_slice(), made)?;
    }
    Ok(made)
}

// What is done for the patterns, from the last node to the first, round a term.
fn wrap_all(
    alloc: Global,
    tests: &[Test],
    answer: &CoreType,
    fail: u32,
    body: Boxed<CoreTerm>,
) -> Result<Boxed<CoreTerm>, NoMemory>
    ensures { IfOk result (λ made. code_of made ≡ all_wrapped (type_of answer.now) fail tests.now (code_of body)) }
{
    let mut made = body;
    for at in (0..tests.len()).rev() {
        made = wrap(alloc, &tests[at], answer, fail, made)?;
    }
    Ok(made)
}

fn wrap(
    alloc: Global,
    test: &Test,
    answer: &CoreType,
    fail: u32,
    body: Boxed<CoreTerm>,
) -> Result<Boxed<CoreTerm>, NoMemory>
    ensures { IfOk result (λ made. code_of made ≡ wrapped (type_of answer.now) fail test.now (code_of body)) }
{
    match test {
        Test::Bind(x, ty, subject) => {
            let ty = noted_type(alloc, ty)?;
            let bound = function(alloc, *x, ty, body)?;
            let subject = variable(alloc, *subject)?;
            apply(alloc, bound, subject)
        }
        Test::Built(con, names, subject) => {
            let names = ListOf::from_slice(alloc, names.as_slice())?;
            let alternative = CoreAlt::Con(*con, names, body.into_inner());
            one_case(alloc, *subject, answer, alternative, fail)
        }
        Test::Integer(number, subject) => {
            let alternative = CoreAlt::Int(*number, body.into_inner());
            one_case(alloc, *subject, answer, alternative, fail)
        }
        Test::Character(char, subject) => {
            let alternative = CoreAlt::Char(*char, body.into_inner());
            one_case(alloc, *subject, answer, alternative, fail)
        }
        Test::Never => variable(alloc, fail),
    }
}
