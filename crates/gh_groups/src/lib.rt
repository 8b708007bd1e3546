//! Ordered groups of numbers that refer to one another.
#![tactic(auto)]

mod check;
mod plan;

ghost use Rattle.std.specs.Prelude.{IfOk};
ghost use Rattle.gh_groups.specs.Grouping.{AreBelow, HasOneGrouping, IsGrouping};

use check::is_right;
use gh_base::{ListOf, NoMemory};
use plan::search;
use std::alloc::Global;

/// The groups of the numbers below `count`, where an edge `(a, b)` says that `a` refers to `b`. Two numbers share a group
/// exactly where each reaches the other along edges. A group comes after those that it refers to; among those that are
/// ready the one with the least member comes first; the members of a group ascend. This determines the groups. Each number
/// of an edge has to be below `count`. The edges stay as they were.
///
/// So the declarations of a program fall into groups that have to be typed together (Haskell 98 Report, section 4.5.1).
///
/// The time is linear in numbers and edges, but for the set of ready groups, which takes a logarithm. No call goes as
/// deep as the graph. A graph of more than 2^32 - 1 edges is answered by `NoMemory`.
pub fn groups(
    alloc: Global,
    count: u32,
    edges: &ListOf<(u32, u32)>,
) -> Result<ListOf<ListOf<u32>>, NoMemory>
    requires { AreBelow count edges.now }
    ensures { IfOk result (λ groups. IsGrouping count edges.now groups) }
{
    let list = edges.as_slice();
    if list.len() > u32::MAX as usize {
        return Err(NoMemory);
    }
    let (found, plan) = search(alloc, count, list)?;
    if !is_right(alloc, count, list, found.as_slice(), &plan)? {
        return Err(NoMemory);
    }
    Ok(found)
}

/// The law of groups: at most one list of groups has the order that `groups` gives.
pub fn has_one_grouping()
    ensures { HasOneGrouping }
{}
