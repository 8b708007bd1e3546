// How one more equation is solved: by pairs of parts that differ, one after another (Robinson).
ghost use Rattle.std.specs.Prelude.{◌≡◌, ◌↔◌, ◌<◌, IfOk, IsTrue, MatchOption, MatchResult, length, false, Some};
ghost use Rattle.gh_unify.specs.Types.{Head, head_of, has, mono, var};
ghost use Rattle.gh_unify.specs.Kept.{AreDrawn, drawn_of, eqs_of, is_rigid};
ghost use Rattle.gh_unify.specs.Causes.{IsFixed};
ghost use Rattle.gh_unify.specs.Steps.{AreFree, Blocked, Differs, IsBound, IsTidy, Reached, Refused, Stuck};
ghost use Rattle.gh_unify.specs.Tables.{with_solved};

use crate::table::{Variable, copy, read, solved};
use crate::unifier::UnifyFault;
use gh_base::NoMemory;
use gh_typeterm::{Ty, TyNode};
use std::alloc::Global;

/// The table with one more equation solved, whatever scope and size the solution has.
pub fn solve(alloc: Global, kept: &[Variable], a: &Ty, b: &Ty) -> Result<Vec<Variable>, UnifyFault>
    requires tidy { IsTidy (eqs_of kept.now) (drawn_of kept.now) }
    requires left { AreDrawn kept.now a.now }
    requires right { AreDrawn kept.now b.now }
    ensures drawn { IfOk result (λ made. drawn_of made.items ≡ drawn_of kept.now) }
    ensures ok { IfOk result (λ made. Reached kept.now a.now b.now made.items) }
    ensures refused { MatchResult result (λ _. Unit {0}) (λ fault. Blocked fault kept.now a.now b.now) }
{
    let Ok(made) = copy(alloc, kept) else {
        return Err(UnifyFault::NoMemory);
    };
    let Ok(left) = read(alloc, kept, a) else {
        return Err(UnifyFault::NoMemory);
    };
    let Ok(right) = read(alloc, kept, b) else {
        return Err(UnifyFault::NoMemory);
    };
    solve_read(alloc, made, left, right)
}

// Whether two types are the same at their heads.
fn same_head(a: &Ty, b: &Ty) -> bool
    ensures { IsTrue result ↔ (head_of (mono a.now) ≡ head_of (mono b.now)) }
{
    match (a.get(), b.get()) {
        (TyNode::Con(x), TyNode::Con(y)) => *x == *y,
        (TyNode::Var(x), TyNode::Var(y)) => *x == *y,
        (TyNode::Name(x), TyNode::Name(y)) => *x == *y,
        (TyNode::App(_, _), TyNode::App(_, _)) => true,
        _ => false,
    }
}

// The first parts of two types that stand in the same place and differ at their heads.
fn difference(a: &Ty, b: &Ty) -> Result<Option<(Ty, Ty)>, NoMemory>
    ensures { IfOk result (λ found. MatchOption found (mono a.now ≡ mono b.now)
        (λ p. Differs (mono a.now) (mono b.now) (mono p.0) (mono p.1))) }
{
    if !same_head(a, b) {
        return Ok(Some((a.share()?, b.share()?)));
    }
    if let (TyNode::App(f, x), TyNode::App(g, y)) = (a.get(), b.get()) {
        if let Some(found) = difference(f, g)? {
            return Ok(Some(found));
        }
        return difference(x, y);
    }
    Ok(None)
}

// The number of a type that is a variable and no rigid one.
fn flexible(kept: &[Variable], term: &Ty) -> Option<u32>
    requires { AreDrawn kept.now term.now }
    ensures { MatchOption result (IsFixed (drawn_of kept.now) (mono term.now))
        (λ v. (mono term.now ≡ var v) × (is_rigid (drawn_of kept.now) v ≡ false) × (v < length kept.now)) }
{
    match term.get() {
        TyNode::Con(_) => None,
        TyNode::Name(_) => None,
        TyNode::App(_, _) => None,
        TyNode::Var(v) => {
            if kept[*v as usize].rigid {
                return None;
            }
            Some(*v)
        }
    }
}

/// Whether a variable occurs.
pub fn occurs(v: u32, term: &Ty) -> bool
    ensures { result ≡ has v (mono term.now) }
{
    match term.get() {
        TyNode::Con(_) => false,
        TyNode::Name(_) => false,
        TyNode::Var(w) => v == *w,
        TyNode::App(head, arg) => {
            if occurs(v, head) {
                return true;
            }
            occurs(v, arg)
        }
    }
}

// The table with a variable solved to another type, in which it must not occur.
fn eliminate(
    alloc: Global,
    kept: &[Variable],
    v: u32,
    term: &Ty,
) -> Result<Vec<Variable>, UnifyFault>
    requires drawn { v < length kept.now }
    requires other { head_of (mono term.now) ≡ Head.a_var v → ⊥ }
    ensures ok { IfOk result (λ made. (made.items ≡ with_solved kept.now v term.now) × (has v (mono term.now) ≡ false)) }
    ensures refused { MatchResult result (λ _. Unit {0}) (λ fault. Stuck fault v term.now) }
{
    if occurs(v, term) {
        let Ok(term) = term.share() else {
            return Err(UnifyFault::NoMemory);
        };
        return Err(UnifyFault::Occurs { var: v, term });
    }
    let Ok(made) = solved(alloc, kept, v, term) else {
        return Err(UnifyFault::NoMemory);
    };
    Ok(made)
}

// The table with two types made equal that differ at their heads.
fn bind(alloc: Global, kept: &[Variable], x: &Ty, y: &Ty) -> Result<Vec<Variable>, UnifyFault>
    requires left { AreDrawn kept.now x.now }
    requires right { AreDrawn kept.now y.now }
    requires heads { head_of (mono x.now) ≡ head_of (mono y.now) → ⊥ }
    ensures ok { IfOk result (λ made. IsBound kept.now x.now y.now made.items) }
    ensures refused { MatchResult result (λ _. Unit {0}) (λ fault. Refused fault kept.now x.now y.now) }
{
    if let Some(v) = flexible(kept, x) {
        return match eliminate(alloc, kept, v, y) {
            Ok(made) => Ok(made),
            Err(fault) => Err(fault),
        };
    }
    if let Some(w) = flexible(kept, y) {
        return match eliminate(alloc, kept, w, x) {
            Ok(made) => Ok(made),
            Err(fault) => Err(fault),
        };
    }
    let Ok(left) = x.share() else {
        return Err(UnifyFault::NoMemory);
    };
    let Ok(right) = y.share() else {
        return Err(UnifyFault::NoMemory);
    };
    Err(UnifyFault::Clash { left, right })
}

// The table with two types made equal in which no solved variable occurs.
fn solve_read(
    alloc: Global,
    table: Vec<Variable>,
    left: Ty,
    right: Ty,
) -> Result<Vec<Variable>, UnifyFault>
    requires tidy { IsTidy (eqs_of table.items) (drawn_of table.items) }
    requires left { AreFree table.items left }
    requires right { AreFree table.items right }
    ensures drawn { IfOk result (λ made. drawn_of made.items ≡ drawn_of table.items) }
    ensures ok { IfOk result (λ made. Reached table.items left right made.items) }
    ensures refused { MatchResult result (λ _. Unit {0}) (λ fault. Blocked fault table.items left right) }
{
    let mut kept = table;
    let mut a = left;
    let mut b = right;
    loop {
        let Ok(found) = difference(&a, &b) else {
            return Err(UnifyFault::NoMemory);
        };
        let Some((x, y)) = found else {
            return Ok(kept);
        };
        match bind(alloc, kept.as_slice(), &x, &y) {
            Ok(made) => {
                kept = made;
            }
            Err(fault) => return Err(fault),
        }
        match read(alloc, kept.as_slice(), &a) {
            Ok(read) => {
                a = read;
            }
            Err(_) => return Err(UnifyFault::NoMemory),
        }
        match read(alloc, kept.as_slice(), &b) {
            Ok(read) => {
                b = read;
            }
            Err(_) => return Err(UnifyFault::NoMemory),
        }
    }
}
