// Whether a list of groups is the one that is wanted, by a plan that shows why.
ghost use Rattle.std.specs.Prelude.{◌≡◌, ℕ, ◌+◌, ◌<◌, ◌≤◌, List, IsTrue, IfOk, slice_get, slice_index, length};
ghost use Rattle.gh_groups.specs.Grouping.{IsGrouping, AreBelow, Has, Ascends};
ghost use Rattle.gh_groups.specs.Plans.{Above, Below, VertexOk, GroupOk, OrderOk, Waits, first_in, IsWindow};

use gh_base::{ListOf, NoMemory};
use std::alloc::Global;

// Why a list of groups is the right one.
#[derive(Drop)]
pub(crate) struct Plan {
    // The place of the group of each number, and its place there.
    pub places: Vec<u32>,
    pub indexes: Vec<u32>,
    // For each number that is not its group's first: an edge to a number of the group that is nearer to the first, by rank.
    pub ups: Vec<u32>,
    pub up_ranks: Vec<u32>,
    // And an edge from one.
    pub downs: Vec<u32>,
    pub down_ranks: Vec<u32>,
    // For each group: the edge to the last of the other groups that it refers to.
    pub waits: Vec<u32>,
}

pub(crate) fn nth(numbers: &[u32], at: usize) -> u32
    ensures { result ≡ slice_index numbers.now at }
{
    match numbers.get(at) {
        Some(number) => *number,
        None => 0,
    }
}

fn edge_at(edges: &[(u32, u32)], at: u32) -> Option<(u32, u32)>
    ensures { result ≡ slice_get edges.now at }
{
    edges.get(at as usize).copied()
}

// Whether an edge leads from a number to one of its group that is nearer to the first.
fn goes_up(edges: &[(u32, u32)], places: &[u32], ranks: &[u32], edge: u32, number: u32) -> bool
    ensures { IsTrue result → Above edges.now places.now ranks.now number }
{
    let (from, to) = match edge_at(edges, edge) {
        Some(edge) => edge,
        None => return false,
    };
    if from != number {
        return false;
    }
    if nth(places, to as usize) != nth(places, number as usize) {
        return false;
    }
    if nth(ranks, to as usize) >= nth(ranks, number as usize) {
        return false;
    }
    true
}

// Whether an edge leads to a number from one of its group that is nearer to the first.
fn goes_down(edges: &[(u32, u32)], places: &[u32], ranks: &[u32], edge: u32, number: u32) -> bool
    ensures { IsTrue result → Below edges.now places.now ranks.now number }
{
    let (from, to) = match edge_at(edges, edge) {
        Some(edge) => edge,
        None => return false,
    };
    if to != number {
        return false;
    }
    if nth(places, from as usize) != nth(places, number as usize) {
        return false;
    }
    if nth(ranks, from as usize) >= nth(ranks, number as usize) {
        return false;
    }
    true
}

fn is_vertex_ok(edges: &[(u32, u32)], groups: &[ListOf<u32>], plan: &Plan, number: u32) -> bool
    ensures { IsTrue result → VertexOk edges.now groups.now plan.now.places.items plan.now.up_ranks.items plan.now.down_ranks.items number }
{
    let group = match groups.get(nth(plan.places.as_slice(), number as usize) as usize) {
        Some(group) => group.as_slice(),
        None => return false,
    };
    match group.get(nth(plan.indexes.as_slice(), number as usize) as usize) {
        Some(found) => {
            if *found != number {
                return false;
            }
        }
        None => return false,
    }
    if group[0] == number {
        return true;
    }
    if !goes_up(
        edges,
        plan.places.as_slice(),
        plan.up_ranks.as_slice(),
        nth(plan.ups.as_slice(), number as usize),
        number,
    ) {
        return false;
    }
    if !goes_down(
        edges,
        plan.places.as_slice(),
        plan.down_ranks.as_slice(),
        nth(plan.downs.as_slice(), number as usize),
        number,
    ) {
        return false;
    }
    true
}

fn are_vertices_ok(count: u32, edges: &[(u32, u32)], groups: &[ListOf<u32>], plan: &Plan) -> bool
    ensures { IsTrue result → (v : ℕ) → v < count → VertexOk edges.now groups.now plan.now.places.items plan.now.up_ranks.items plan.now.down_ranks.items v }
{
    for number in 0..count {
        if !is_vertex_ok(edges, groups, plan, number) {
            return false;
        }
    }
    true
}

// Whether each number is above the one before.
fn ascends(group: &[u32]) -> bool
    ensures { IsTrue result → Ascends group.now }
{
    for (at, number) in group.iter().enumerate() {
        if at > 0 && group[at - 1] >= *number {
            return false;
        }
    }
    true
}

fn is_group_ok(count: u32, places: &[u32], place: usize, group: &[u32]) -> bool
    ensures { IsTrue result → GroupOk count places.now place group.now }
{
    if group.is_empty() {
        return false;
    }
    if !ascends(group) {
        return false;
    }
    for number in group {
        if *number >= count {
            return false;
        }
        if nth(places, *number as usize) as usize != place {
            return false;
        }
    }
    true
}

fn are_groups_ok(count: u32, places: &[u32], groups: &[ListOf<u32>]) -> bool
    ensures { IsTrue result → (p : ℕ) (g : List ℕ) → slice_get groups.now p ≡ Some g → GroupOk count places.now p g }
{
    for (place, group) in groups.iter().enumerate() {
        if !is_group_ok(count, places, place, group.as_slice()) {
            return false;
        }
    }
    true
}

// Whether no edge leads to a later group.
fn are_edges_ok(edges: &[(u32, u32)], places: &[u32]) -> bool
    ensures { IsTrue result → (a b : ℕ) → Has edges.now (a, b) → slice_index places.now b ≤ slice_index places.now a }
{
    for edge in edges {
        if nth(places, edge.1 as usize) > nth(places, edge.0 as usize) {
            return false;
        }
    }
    true
}

fn first_of(groups: &[ListOf<u32>], place: usize) -> u32
    ensures { result ≡ first_in (slice_get groups.now place) }
{
    match groups.get(place) {
        Some(group) => nth(group.as_slice(), 0),
        None => 0,
    }
}

// From which place on the groups before a place have lesser first members, by the same of the places before.
fn window(groups: &[ListOf<u32>], windows: &[u32], place: u32) -> u32
    requires { (q : ℕ) → q < place → IsWindow groups.now (slice_index windows.now q) q }
    ensures low { result ≤ place }
    ensures is { IsWindow groups.now result place }
{
    let first = first_of(groups, place as usize);
    let mut low = place;
    'lower: while low > 0 {
        let next = low - 1;
        if first_of(groups, next as usize) >= first {
            return low;
        }
        low = nth(windows, next as usize).min(next);
    }
    low
}

// The place after the group that a group waits for.
fn wait_of(edges: &[(u32, u32)], places: &[u32], wait: u32, place: u32) -> u32
    ensures { (before : ℕ) → before < result → Waits edges.now places.now place before }
{
    let (from, to) = match edge_at(edges, wait) {
        Some(edge) => edge,
        None => return 0,
    };
    if nth(places, from as usize) != place {
        return 0;
    }
    let other = nth(places, to as usize);
    if other == place || other == u32::MAX {
        return 0;
    }
    other + 1
}

fn is_order_ok(
    alloc: Global,
    edges: &[(u32, u32)],
    groups: &[ListOf<u32>],
    plan: &Plan,
) -> Result<bool, NoMemory>
    ensures { IfOk result (λ ok. IsTrue ok → (q : ℕ) → q < length groups.now → OrderOk edges.now groups.now plan.now.places.items q) }
{
    let mut windows = Vec::new(alloc);
    if groups.len() > u32::MAX as usize {
        return Ok(false);
    }
    for place in 0..groups.len() as u32 {
        let low = window(groups, windows.as_slice(), place);
        let wait = nth(plan.waits.as_slice(), place as usize);
        if wait_of(edges, plan.places.as_slice(), wait, place) < low {
            return Ok(false);
        }
        windows.push(low)?;
    }
    Ok(true)
}

// Whether the groups are those of these numbers and edges, in their order. The plan may be any.
pub(crate) fn is_right(
    alloc: Global,
    count: u32,
    edges: &[(u32, u32)],
    groups: &[ListOf<u32>],
    plan: &Plan,
) -> Result<bool, NoMemory>
    requires { AreBelow count edges.now }
    ensures { IfOk result (λ ok. IsTrue ok → IsGrouping count edges.now groups.now) }
{
    if !are_groups_ok(count, plan.places.as_slice(), groups) {
        return Ok(false);
    }
    if !are_vertices_ok(count, edges, groups, plan) {
        return Ok(false);
    }
    if !are_edges_ok(edges, plan.places.as_slice()) {
        return Ok(false);
    }
    Ok(is_order_ok(alloc, edges, groups, plan)?)
}
