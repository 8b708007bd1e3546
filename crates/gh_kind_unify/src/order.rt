// An order of the unknowns in which each comes behind those that its kind is made of.
ghost use Rattle.std.specs.Prelude.{◌≡◌, ◌≢◌, ◌∷◌, [], ℕ, suc, ◌<◌, true, false, length, IfOk, OnOk, MatchOption};
ghost use Rattle.gh_kind_unify.specs.declared.cells.Cell.TheVariants.{Arrow, Link};
ghost use Rattle.gh_groups.specs.Grouping.{AreBelow};
ghost use Rattle.gh_kind_unify.specs.Cells.{IsTidy, cell};
ghost use Rattle.gh_kind_unify.specs.Orders.{AreEdges, HasOther, IsEndless, IsOrder, singles};

use crate::cells::{Cell, cell_at};
use gh_base::{ListOf, NoMemory};
use gh_groups::groups;
use std::alloc::Global;

#[tactic(auto, using(crate::proofs::Ordering::edges_link, crate::proofs::Ordering::below_link))]
fn link_edges(
    edges: &mut ListOf<(u32, u32)>,
    cells: &[Cell],
    v: u32,
    w: u32,
) -> Result<(), NoMemory>
    requires tidy { IsTidy cells.now }
    requires within { v < length cells.now }
    requires link { cell cells.now v ≡ Link w }
    requires edges { AreEdges cells.now v edges.old }
    requires below { AreBelow (length cells.now) edges.old }
    ensures edges { OnOk result (AreEdges cells.now (suc v) edges.new) }
    ensures below { OnOk result (AreBelow (length cells.now) edges.new) }
{
    edges.push((v, w))?;
    Ok(())
}

#[tactic(auto, using(crate::proofs::Ordering::edges_arrow, crate::proofs::Ordering::below_arrow))]
fn arrow_edges(
    edges: &mut ListOf<(u32, u32)>,
    cells: &[Cell],
    v: u32,
    a: u32,
    b: u32,
) -> Result<(), NoMemory>
    requires tidy { IsTidy cells.now }
    requires within { v < length cells.now }
    requires arrow { cell cells.now v ≡ Arrow a b }
    requires other { (a ≢ v) × (b ≢ v) }
    requires edges { AreEdges cells.now v edges.old }
    requires below { AreBelow (length cells.now) edges.old }
    ensures edges { OnOk result (AreEdges cells.now (suc v) edges.new) }
    ensures below { OnOk result (AreBelow (length cells.now) edges.new) }
{
    edges.push((v, a))?;
    edges.push((v, b))?;
    Ok(())
}

// An edge from one unknown more to each part of its kind. Not where its kind would be a part of itself at once.
#[tactic(auto, using(crate::proofs::Ordering::edges_free, crate::proofs::Ordering::edges_star, crate::proofs::Ordering::endless_here))]
fn add_edges(edges: &mut ListOf<(u32, u32)>, cells: &[Cell], v: u32) -> Result<bool, NoMemory>
    requires tidy { IsTidy cells.now }
    requires within { v < length cells.now }
    requires edges { AreEdges cells.now v edges.old }
    requires below { AreBelow (length cells.now) edges.old }
    ensures edges { IfOk result (λ ends. ends ≡ true → AreEdges cells.now (suc v) edges.new) }
    ensures below { IfOk result (λ ends. ends ≡ true → AreBelow (length cells.now) edges.new) }
    ensures endless { IfOk result (λ ends. ends ≡ false → IsEndless cells.now) }
{
    match cell_at(cells, v) {
        Cell::Free => Ok(true),
        Cell::Star => Ok(true),
        Cell::Arrow(a, b) => {
            if a == v {
                return Ok(false);
            }
            if b == v {
                return Ok(false);
            }
            arrow_edges(edges, cells, v, a, b)?;
            Ok(true)
        }
        Cell::Link(w) => {
            link_edges(edges, cells, v, w)?;
            Ok(true)
        }
    }
}

// An edge from each unknown to each part of its kind. None where a kind would be a part of itself at once.
#[tactic(auto, using(crate::proofs::Ordering::edges_none))]
fn edges(alloc: Global, cells: &[Cell], count: u32) -> Result<Option<ListOf<(u32, u32)>>, NoMemory>
    requires tidy { IsTidy cells.now }
    requires count { count ≡ length cells.now }
    ensures { IfOk result (λ found. MatchOption found (IsEndless cells.now) (λ edges. AreEdges cells.now (length cells.now) edges × AreBelow (length cells.now) edges)) }
{
    let mut edges = ListOf::new(alloc);
    for v in 0..count {
        if !add_edges(&mut edges, cells, v)? {
            return Ok(None);
        }
    }
    Ok(Some(edges))
}

// The one member of a group. None where it has another number of members.
fn only(group: &[u32]) -> Option<u32>
    ensures { MatchOption result ((v : ℕ) → group.now ≡ v ∷ [] → ⊥) (λ v. group.now ≡ v ∷ []) }
{
    if group.len() != 1 {
        return None;
    }
    Some(group[0])
}

// The members of groups that have one each. None where one has another number.
fn members(alloc: Global, groups: &[ListOf<u32>]) -> Result<Option<Vec<u32>>, NoMemory>
    ensures { IfOk result (λ found. MatchOption found (HasOther groups.now) (λ order. groups.now ≡ singles order.items)) }
{
    let mut members = Vec::new(alloc);
    for group in groups {
        match only(group.as_slice()) {
            Some(member) => members.push(member)?,
            None => return Ok(None),
        }
    }
    Ok(Some(members))
}

/// An order of the unknowns in which each comes behind those that its kind is made of. None where a kind would be a
/// part of itself.
#[tactic(auto, using(crate::proofs::Ordering::endless_other, crate::proofs::Ordering::order_of))]
pub fn order(alloc: Global, cells: &[Cell]) -> Result<Option<Vec<u32>>, NoMemory>
    requires tidy { IsTidy cells.now }
    ensures { IfOk result (λ found. MatchOption found (IsEndless cells.now) (λ order. IsOrder cells.now order.items)) }
{
    if cells.len() > u32::MAX as usize {
        return Err(NoMemory);
    }
    let count = cells.len() as u32;
    let Some(edges) = edges(alloc, cells, count)? else {
        return Ok(None);
    };
    let groups = groups(alloc, count, &edges)?;
    let Some(order) = members(alloc, groups.as_slice())? else {
        return Ok(None);
    };
    Ok(Some(order))
}
