// The least kinds of a list of rules, and the first rule at which there are none.
ghost use Rattle.std.specs.Prelude.{◌≡◌, ℕ, ◌<◌, length, take, IfOk, MatchResult};
ghost use Rattle.std.specs.Prelude.{MatchOption, ◌^◌, ◌+◌, ◌-◌};
ghost use Rattle.gh_kind_unify.specs.declared.cells.Cell.TheVariants.{Free};
ghost use Rattle.gh_kind_unify.specs.Kinds.{AreBelow, HasNone, IsLeastSolution};
ghost use Rattle.gh_kind_unify.specs.Cells.{cell};
ghost use Rattle.gh_kind_unify.specs.Faults.{AreBounds, Fails, Says, StopsFirst};

use crate::build::{Trouble, build};
use crate::cells::Cell;
use crate::order::order;
use crate::rules::Rule;
use crate::settling::settle_all;
use gh_base::NoMemory;
use gh_typeterm::Kind;
use std::alloc::Global;

/// Why no kinds are answered. A place is that of a rule in the list, from 0: the rules before it are met by kinds of at
/// most 63 nodes.
#[derive(Clone, Copy, Debug, PartialEq, Eq)]
pub enum KindFault {
    /// With the rule at this place there are no kinds of any size.
    Clash(u32),
    /// With it there are kinds, and none of at most 63 nodes.
    TooLarge(u32),
    /// A request for memory was not met.
    NoMemory,
}

fn copies(alloc: Global, rules: &[Rule]) -> Result<Vec<Rule>, NoMemory>
    ensures { IfOk result (λ made. made.items ≡ rules.now) }
{
    let mut made = Vec::new(alloc);
    for rule in rules {
        made.push(*rule)?;
    }
    Ok(made)
}

fn cells_of(alloc: Global, count: u32) -> Result<Vec<Cell>, NoMemory>
    ensures length { IfOk result (λ made. length made.items ≡ count) }
    ensures free { IfOk result (λ made. (v : ℕ) → cell made.items v ≡ Free) }
{
    let mut made = Vec::new(alloc);
    for at in 0..count {
        made.push(Cell::Free)?;
    }
    Ok(made)
}

// The cells that say what the rules do. None where no kinds meet the rules, kinds without end taken in.
#[tactic(auto, using(crate::proofs::Failing::free_tidy, crate::proofs::Failing::says_settled, crate::proofs::Failing::none_refuted))]
fn settled(alloc: Global, count: u32, rules: &[Rule]) -> Result<Option<Vec<Cell>>, NoMemory>
    requires { AreBelow count rules.now }
    ensures { IfOk result (λ found. MatchOption found (HasNone rules.now) (λ cells. (length cells.items ≡ count) × Says rules.now cells.items)) }
{
    let mut cells = cells_of(alloc, count)?;
    let todo = copies(alloc, rules)?;
    let met = settle_all(cells.as_mut_slice(), todo)?;
    if met {
        return Ok(Some(cells));
    }
    Ok(None)
}

// The least kinds that meet all of the rules.
#[tactic(auto, using(crate::proofs::Grounding::none_endless, crate::proofs::Grounding::least_solution, crate::proofs::Grounding::fails_stops))]
fn solve(alloc: Global, count: u32, rules: &[Rule]) -> Result<Vec<Kind>, Trouble>
    requires { AreBelow count rules.now }
    ensures ok { IfOk result (λ kinds. IsLeastSolution count rules.now kinds.items) }
    ensures err { MatchResult result (λ _. Unit {0}) (λ t. Fails t count rules.now) }
{
    let Ok(found) = settled(alloc, count, rules) else {
        return Err(Trouble::NoMemory);
    };
    let Some(cells) = found else {
        return Err(Trouble::Clash);
    };
    let Ok(found) = order(alloc, cells.as_slice()) else {
        return Err(Trouble::NoMemory);
    };
    let Some(order) = found else {
        return Err(Trouble::Clash);
    };
    match build(alloc, cells.as_slice(), order.as_slice()) {
        Ok(kinds) => Ok(kinds),
        Err(trouble) => Err(trouble),
    }
}

// How far the rules are known to be met, and from how many on they are not.
#[derive(Clone, Copy, Debug)]
pub struct Bounds {
    /// So many of the first rules are met by kinds in size.
    pub met: usize,
    /// So many are not.
    pub failing: usize,
    /// Why they are not.
    pub why: Trouble,
}

// Bounds that are half as far apart.
#[tactic(auto, using(crate::proofs::Failing::below_take, crate::proofs::Failing::bounds_met, crate::proofs::Failing::bounds_failed))]
fn halved(alloc: Global, count: u32, rules: &[Rule], bounds: Bounds) -> Bounds
    requires below { AreBelow count rules.now }
    requires apart { bounds.met + 1 < bounds.failing }
    requires bounds { AreBounds count rules.now bounds }
    ensures bounds { AreBounds count rules.now result }
    ensures nearer { result.failing - result.met < bounds.failing - bounds.met }
{
    let middle = bounds.met + (bounds.failing - bounds.met) / 2;
    match solve(alloc, count, &rules[..middle]) {
        Ok(_) => Bounds {
            met: middle,
            failing: bounds.failing,
            why: bounds.why,
        },
        Err(why) => Bounds {
            met: bounds.met,
            failing: middle,
            why,
        },
    }
}

// The first rule that is not met, by halves.
#[tactic(auto, using(crate::proofs::Failing::bounds_first, crate::proofs::Failing::first_clash, crate::proofs::Failing::first_larger))]
fn first_failing(alloc: Global, count: u32, rules: &[Rule], why: Trouble) -> KindFault
    requires below { AreBelow count rules.now }
    requires fails { Fails why count rules.now }
    requires short { length rules.now < 2 ^ 32 }
    ensures { StopsFirst count rules.now result }
{
    if rules.is_empty() {
        return KindFault::NoMemory;
    }
    let mut bounds = Bounds {
        met: 0,
        failing: rules.len(),
        why,
    };
    'halves: while bounds.met + 1 < bounds.failing {
        bounds = halved(alloc, count, rules, bounds);
    }
    match bounds.why {
        Trouble::Clash => KindFault::Clash(bounds.met as u32),
        Trouble::TooLarge => KindFault::TooLarge(bounds.met as u32),
        Trouble::NoMemory => KindFault::NoMemory,
    }
}

/// The least kinds that meet the rules, by number: no other kinds that meet them have fewer arrows anywhere, and none
/// has more than 63 nodes. A rule at which there are no such kinds is answered, the first one. The numbers in the rules
/// are below `count`. So the declarations of a group get their kinds together (Haskell 98 Report, 4.6).
///
/// The time is `n log n`, at a refusal too. No call goes as deep as the rules.
pub fn least_kinds(alloc: Global, count: u32, rules: &[Rule]) -> Result<Vec<Kind>, KindFault>
    requires { AreBelow count rules.now }
    ensures ok { IfOk result (λ kinds. IsLeastSolution count rules.now kinds.items) }
    ensures err { MatchResult result (λ _. Unit {0}) (λ fault. StopsFirst count rules.now fault) }
{
    if rules.len() > u32::MAX as usize {
        return Err(KindFault::NoMemory);
    }
    match solve(alloc, count, rules) {
        Ok(kinds) => Ok(kinds),
        Err(trouble) => Err(first_failing(alloc, count, rules, trouble)),
    }
}
