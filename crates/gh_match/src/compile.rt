// Rows, on scrutinees.
ghost use Rattle.std.specs.Prelude.{◌≡◌, ◌+◌, map, IfOk};
ghost use Rattle.gh_core.specs.Typing.{a_lam, an_app, code_of, type_of};
ghost use Rattle.gh_match.specs.Compiled.{applied_code, functions, InHalves, IsCompiled, match_code, tree_code};
ghost use Rattle.gh_match.specs.Follows.{FollowsRows};
ghost use Rattle.gh_match.specs.Sizes.{IsLinear};
ghost use Rattle.gh_match.specs.Numbers.{first_made};

use crate::copies::copy_term;
use crate::numbers::first_made;
use crate::row::row_term;
use crate::rows::MatchRow;
use crate::terms::{apply, function, next, no_group, sum};
use crate::types::noted_type;
use gh_base::{ListOf, NoMemory};
use gh_core::{CoreTerm, CoreType};
use gh_kernel::{Note, Pattern};
use gh_kind_index::copy_type;
use sqlite_items::Boxed;
use std::alloc::Global;

/// The rows on these scrutinees, as one-level cases that answer with a value of type `answer`; `otherwise` goes on where no row is
/// left (Haskell 98 Report, 3.17.2; Augustsson's and Wadler's compiling of rows in Peyton Jones 1987; Maranget 2001, backtracking
/// automata). Each row has a pattern for each scrutinee and at most 64 groups, and no pattern is a literal string. A constructor's
/// pattern is compiled alike for datatypes and newtypes: a case of core forces nothing for a newtype's.
///
/// What comes after a row is bound once, so the answer grows with the rows, and rows nest by halves. The numbers that are made are
/// above all that stand in the rows and in `otherwise`; where they pass 32 bits, the answer is want of memory.
pub fn compile_match(
    alloc: Global,
    scrutinees: &ListOf<CoreTerm>,
    rows: ListOf<MatchRow>,
    answer: &CoreType,
    otherwise: CoreTerm,
) -> Result<CoreTerm, NoMemory>
    // The answer does what the rules of matching do, in every program of core.
    ensures follows { IfOk result (λ made. FollowsRows scrutinees.now rows otherwise made) }

    // Its size is linear in what is given: no body, guard, group or scrutinee stands twice.
    ensures linear { IfOk result (λ made. IsLinear scrutinees.now rows otherwise made) }
{
    let otherwise = Boxed::new(alloc, otherwise)?;
    let made = whole(
        alloc,
        scrutinees.as_slice(),
        rows.as_slice(),
        answer,
        otherwise,
    )?;
    Ok(made.into_inner())
}

fn whole(
    alloc: Global,
    scrutinees: &[CoreTerm],
    rows: &[MatchRow],
    answer: &CoreType,
    otherwise: Boxed<CoreTerm>,
) -> Result<Boxed<CoreTerm>, NoMemory>
    ensures { IfOk result (λ made. IsCompiled (type_of answer.now) rows.now (map code_of scrutinees.now) (code_of otherwise) (code_of made)) }
{
    if rows.len() == 0 {
        return no_group(alloc, otherwise);
    }
    let patterns = rows[0].patterns.as_slice();
    tried(alloc, scrutinees, rows, patterns, answer, otherwise)
}

// Some rows, with the patterns of the first one.
fn tried(
    alloc: Global,
    scrutinees: &[CoreTerm],
    rows: &[MatchRow],
    patterns: &[Pattern<Note>],
    answer: &CoreType,
    otherwise: Boxed<CoreTerm>,
) -> Result<Boxed<CoreTerm>, NoMemory>
    ensures { IfOk result (λ made. InHalves rows.now 32 (λ t. code_of made ≡ match_code (type_of answer.now) (first_made rows.now (code_of otherwise)) (map code_of scrutinees.now) patterns.now t (code_of otherwise))) }
{
    let first = first_number(rows, otherwise.get())?;
    let subject = next(first)?;
    let free = sum(subject, scrutinees.len())?;
    let tree = halves(alloc, rows, answer, subject, free, first, 32)?;
    let bound = functions(alloc, subject, patterns, tree)?;
    let ty = copy_type(alloc, answer)?;
    let body = function(alloc, first, ty, bound)?;
    let last = no_group(alloc, otherwise)?;
    let call = apply(alloc, body, last)?;
    applied(alloc, call, scrutinees)
}

// The first number that is above those in the rows and in what comes after them.
fn first_number(rows: &[MatchRow], otherwise: &CoreTerm) -> Result<u32, NoMemory>
    ensures { IfOk result (λ first. first ≡ first_made rows.now (code_of otherwise.now)) }
{
    match u32::try_from(first_made(rows, otherwise)) {
        Ok(first) => Ok(first),
        Err(_) => Err(NoMemory),
    }
}

// Rows in halves, at most so many levels deep: what comes after the front half is bound to the first free number.
fn halves(
    alloc: Global,
    rows: &[MatchRow],
    answer: &CoreType,
    subject: u32,
    free: u32,
    fail: u32,
    levels: u32,
) -> Result<Boxed<CoreTerm>, NoMemory>
    ensures { IfOk result (λ made. InHalves rows.now levels (λ t. code_of made ≡ tree_code (type_of answer.now) subject t free fail)) }
{
    if rows.is_empty() {
        return Err(NoMemory);
    }
    if rows.len() == 1 {
        return row_term(alloc, &rows[0], answer, subject, free, fail);
    }
    let below = fewer(levels)?;
    let after = next(free)?;
    let (front, back) = rows.split_at(rows.len() / 2);
    let first = halves(alloc, front, answer, subject, after, free, below)?;
    let second = halves(alloc, back, answer, subject, free, fail, below)?;
    let ty = copy_type(alloc, answer)?;
    let bound = function(alloc, free, ty, first)?;
    apply(alloc, bound, second)
}

// One level fewer.
fn fewer(levels: u32) -> Result<u32, NoMemory>
    ensures { IfOk result (λ below. below + 1 ≡ levels) }
{
    match levels.checked_sub(1) {
        Some(below) => Ok(below),
        None => Err(NoMemory),
    }
}

// A function of the scrutinees, each of the type of its pattern.
fn functions(
    alloc: Global,
    subject: u32,
    patterns: &[Pattern<Note>],
    body: Boxed<CoreTerm>,
) -> Result<Boxed<CoreTerm>, NoMemory>
    ensures { IfOk result (λ made. code_of made ≡ functions subject patterns.now (code_of body)) }
{
    match patterns {
        [] => Ok(body),
        [pattern, rest @ ..] => {
            let inner = functions(alloc, next(subject)?, rest, body)?;
            let ty = noted_type(alloc, &pattern.note.ty)?;
            function(alloc, subject, ty, inner)
        }
    }
}

// A term applied to these.
fn applied(
    alloc: Global,
    term: Boxed<CoreTerm>,
    arguments: &[CoreTerm],
) -> Result<Boxed<CoreTerm>, NoMemory>
    ensures { IfOk result (λ made. code_of made ≡ applied_code (code_of term) (map code_of arguments.now)) }
{
    let mut made = term;
    for argument in arguments {
        let argument = copy_term(alloc, argument)?;
        made = apply(alloc, made, argument)?;
    }
    Ok(made)
}
