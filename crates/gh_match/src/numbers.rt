// The first number above all that stand in rows.
ghost use Rattle.std.specs.Prelude.{◌≡◌, ◌+◌, max, map};
ghost use Rattle.gh_core.specs.Typing.{code_of, branches_of, bindings_of};
ghost use Rattle.gh_kernel.specs.Reading.{pattern_of, patterns_of};
ghost use Rattle.gh_match.specs.Compiled.{branch_of};
ghost use Rattle.gh_match.specs.Numbers.{above, above_branch, alternatives_above, bodies_above, else_above, first_made, group_above, groups_above, guard_above, names_above, pat_above, pats_above, row_above, rows_above};

use crate::rows::MatchRow;
use gh_base::ListOf;
use gh_core::{CoreAlt, CoreTerm, CoreType};
use gh_kernel::{Note, Pattern, PatternNode};
use sqlite_items::Boxed;

/// The first number that is above all variables and binders of these rows and of this term.
pub fn first_made(rows: &[MatchRow], otherwise: &CoreTerm) -> u64
    ensures { result ≡ first_made rows.now (code_of otherwise.now) }
{
    larger(rows_above(rows), term_above(otherwise))
}

fn rows_above(rows: &[MatchRow]) -> u64
    ensures { result ≡ rows_above rows.now }
{
    let mut most = 0;
    for at in (0..rows.len()).rev() {
        most = larger(row_above(&rows[at]), most);
    }
    most
}

fn row_above(row: &MatchRow) -> u64
    ensures { result ≡ row_above row.now }
{
    let patterns = patterns_above(row.patterns.as_slice());
    let groups = groups_above(row.groups.as_slice());
    let bodies = bodies_above(row.bodies.as_slice());
    larger(patterns, larger(groups, bodies))
}

fn larger(a: u64, b: u64) -> u64
    ensures { result ≡ max a b }
{
    if a < b { b } else { a }
}

fn after(x: u32) -> u64
    ensures { result ≡ x + 1 }
{
    x as u64 + 1
}

fn names_above(names: &[u32]) -> u64
    ensures { result ≡ names_above names.now }
{
    let mut most = 0;
    for at in (0..names.len()).rev() {
        most = larger(after(names[at]), most);
    }
    most
}

#[cycle(pattern_above)]
fn pattern_above(pattern: &Pattern<Note>) -> u64
    ensures { result ≡ pat_above (pattern_of pattern.now) }
{
    match &pattern.node {
        PatternNode::PVar(x) => after(*x),
        PatternNode::PWild => 0,
        PatternNode::PCon(_, parts) => patterns_above(parts.as_slice()),
        PatternNode::PLit(_) => 0,
        PatternNode::PAs(x, inner) => larger(after(*x), pattern_above(inner.get())),
    }
}

#[cycle(pattern_above)]
fn patterns_above(patterns: &[Pattern<Note>]) -> u64
    ensures { result ≡ pats_above (patterns_of patterns.now) }
{
    let mut most = 0;
    for at in (0..patterns.len()).rev() {
        most = larger(pattern_above(&patterns[at]), most);
    }
    most
}

fn groups_above(groups: &[ListOf<(u32, CoreType, CoreTerm)>]) -> u64
    ensures { result ≡ groups_above groups.now }
{
    let mut most = 0;
    for at in (0..groups.len()).rev() {
        most = larger(group_above(groups[at].as_slice()), most);
    }
    most
}

fn group_above(bindings: &[(u32, CoreType, CoreTerm)]) -> u64
    ensures { result ≡ group_above bindings.now }
{
    let mut most = 0;
    for at in (0..bindings.len()).rev() {
        let name = after(bindings[at].0);
        most = larger(larger(name, term_above(&bindings[at].2)), most);
    }
    most
}

fn bodies_above(bodies: &[(Option<CoreTerm>, CoreTerm)]) -> u64
    ensures { result ≡ bodies_above bodies.now }
{
    let mut most = 0;
    for at in (0..bodies.len()).rev() {
        let guard = guard_above(&bodies[at].0);
        let body = term_above(&bodies[at].1);
        most = larger(larger(guard, body), most);
    }
    most
}

fn guard_above(guard: &Option<CoreTerm>) -> u64
    ensures { result ≡ guard_above guard.now }
{
    match guard {
        Some(guard) => term_above(guard),
        None => 0,
    }
}

#[cycle(term_above)]
fn term_above(term: &CoreTerm) -> u64
    ensures { result ≡ above (code_of term.now) }
{
    match term {
        CoreTerm::Var(x) => after(*x),
        CoreTerm::Lam(x, _, body) => larger(after(*x), term_above(body.get())),
        CoreTerm::App(function, argument) => {
            larger(term_above(function.get()), term_above(argument.get()))
        }
        CoreTerm::TyLam(_, _, body) => term_above(body.get()),
        CoreTerm::TyApp(function, _) => term_above(function.get()),
        CoreTerm::LetRec(bindings, body) => {
            let mut most = term_above(body.get());
            for (name, _, term) in bindings.as_slice() {
                most = larger(most, larger(after(*name), term_above(term)));
            }
            most
        }
        CoreTerm::Case(scrutinee, _, alternatives, otherwise) => {
            let last = otherwise_above(otherwise);
            let alternatives = alternatives_above(alternatives.as_slice(), last);
            larger(term_above(scrutinee.get()), alternatives)
        }
        CoreTerm::Global(_) => 0,
        CoreTerm::Con(_) => 0,
        CoreTerm::Int(_) => 0,
        CoreTerm::Char(_) => 0,
        CoreTerm::Str(_) => 0,
        CoreTerm::Prim(_, _, _) => 0,
        CoreTerm::Stop(_, _) => 0,
    }
}

#[cycle(term_above)]
fn otherwise_above(otherwise: &Option<Boxed<CoreTerm>>) -> u64
    ensures { result ≡ else_above otherwise.now }
{
    match otherwise {
        Some(otherwise) => term_above(otherwise.get()),
        None => 0,
    }
}

// The alternatives of a case, with what its `else` has.
#[cycle(term_above)]
fn alternatives_above(alternatives: &[CoreAlt], last: u64) -> u64
    ensures { result ≡ alternatives_above (map branch_of alternatives.now) last }
{
    let mut most = last;
    for at in (0..alternatives.len()).rev() {
        most = larger(alternative_above(&alternatives[at]), most);
    }
    most
}

#[cycle(term_above)]
fn alternative_above(alternative: &CoreAlt) -> u64
    ensures { result ≡ above_branch (branch_of alternative.now) }
{
    match alternative {
        CoreAlt::Con(_, names, term) => larger(names_above(names.as_slice()), term_above(term)),
        CoreAlt::Int(_, term) => term_above(term),
        CoreAlt::Char(_, term) => term_above(term),
    }
}
