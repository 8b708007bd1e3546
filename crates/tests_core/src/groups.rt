// Small graphs with their groups, worked out by hand, and large ones.
ghost use Rattle.std.specs.Prelude.{◌<◌, ◌^◌, OnOk, IfOk};
ghost use Rattle.gh_groups.specs.Grouping.{AreBelow};

use gh_base::{ListOf, NoMemory};
use gh_groups::{groups, has_one_grouping};
use std::alloc::Global;
use std::test::Fail;

fn same(found: &ListOf<ListOf<u32>>, wanted: &[&[u32]]) -> bool {
    let list = found.as_slice();
    if list.len() != wanted.len() {
        return false;
    }
    for (at, group) in wanted.iter().enumerate() {
        if list[at].as_slice() != *group {
            return false;
        }
    }
    true
}

#[test]
fn no_numbers(rt: HostRuntime) -> Result<(), Fail> {
    let found = groups(rt.alloc(), 0, &ListOf::new(rt.alloc()))?;
    assert!(rt; found.as_slice().is_empty());
    Ok(())
}

#[test]
fn a_pair_and_one_that_refers_to_it(rt: HostRuntime) -> Result<(), Fail> {
    let edges = ListOf::from_slice(rt.alloc(), &[(0, 1), (1, 0), (2, 0)])?;
    let found = groups(rt.alloc(), 3, &edges)?;
    assert!(rt; same(&found, &[&[0, 1], &[2]]));
    has_one_grouping();
    Ok(())
}

#[test]
fn the_least_of_the_ready_ones(rt: HostRuntime) -> Result<(), Fail> {
    // 0 waits for 4; 1 and 3 are one group, ready at once; 2 refers to itself.
    let edges = ListOf::from_slice(
        rt.alloc(),
        &[(0, 4), (3, 1), (1, 3), (2, 2), (4, 2), (0, 4)],
    )?;
    let found = groups(rt.alloc(), 6, &edges)?;
    assert!(rt; same(&found, &[&[1, 3], &[2], &[4], &[0], &[5]]));
    Ok(())
}

#[test]
fn a_cycle_of_cycles(rt: HostRuntime) -> Result<(), Fail> {
    let edges = ListOf::from_slice(
        rt.alloc(),
        &[
            (5, 0),
            (0, 5),
            (5, 3),
            (3, 4),
            (4, 5),
            (1, 4),
            (2, 1),
            (0, 2),
        ],
    )?;
    let found = groups(rt.alloc(), 7, &edges)?;
    assert!(rt; same(&found, &[&[0, 1, 2, 3, 4, 5], &[6]]));
    Ok(())
}

#[test]
fn a_chain_the_wrong_way_round(rt: HostRuntime) -> Result<(), Fail> {
    let edges = ListOf::from_slice(rt.alloc(), &[(0, 1), (1, 2), (2, 3)])?;
    let found = groups(rt.alloc(), 4, &edges)?;
    assert!(rt; same(&found, &[&[3], &[2], &[1], &[0]]));
    Ok(())
}

// One more edge.
#[tactic(auto, using(gh_groups::proofs::Right::below_more))]
fn put(edges: &mut ListOf<(u32, u32)>, count: u32, from: u32, to: u32) -> Result<(), NoMemory>
    requires low { AreBelow count edges.old }
    requires from { from < count }
    requires to { to < count }
    ensures { OnOk result (AreBelow count edges.new) }
{
    edges.push((from, to))?;
    Ok(())
}

// The edges of a small graph, by one bit for each pair.
fn small(alloc: Global, bits: u32) -> Result<ListOf<(u32, u32)>, NoMemory>
    ensures { IfOk result (λ edges. AreBelow 4 edges) }
{
    let mut edges = ListOf::new(alloc);
    let mut rest = bits;
    for from in 0..4 {
        for to in 0..4 {
            if rest % 2 == 1 {
                put(&mut edges, 4, from, to)?;
            }
            rest /= 2;
        }
    }
    Ok(edges)
}

// A chain from 0 on, or back, or a cycle, or edges by chance.
#[derive(Clone, Copy)]
enum Shape {
    Forward,
    Backward,
    Cycle,
    Chance,
}

fn target(shape: Shape, count: u32, at: u32, chance: u64) -> (u32, u32)
    requires { at < count }
    ensures { (result.0 < count) × (result.1 < count) }
{
    let next = if at + 1 < count { at + 1 } else { at };
    match shape {
        Shape::Forward => (at, next),
        Shape::Backward => (next, at),
        Shape::Cycle => (at, (at + 1) % count),
        Shape::Chance => (
            (chance % u64::from(count)) as u32,
            (chance / 65_536 % u64::from(count)) as u32,
        ),
    }
}

fn large(
    alloc: Global,
    shape: Shape,
    count: u32,
    edges_each: u32,
) -> Result<ListOf<(u32, u32)>, NoMemory>
    requires { count < 2 ^ 31 }
    ensures { IfOk result (λ edges. AreBelow count edges) }
{
    let mut edges = ListOf::new(alloc);
    let mut seed: u64 = 88_172_645_463_325_252;
    for at in 0..count {
        for _ in 0..edges_each {
            seed = seed
                .wrapping_mul(6_364_136_223_846_793_005)
                .wrapping_add(1_442_695_040_888_963_407);
            let (from, to) = target(shape, count, at, seed / 8_192);
            put(&mut edges, count, from, to)?;
        }
    }
    Ok(edges)
}

// Each graph of four numbers, self-references included, has its groups.
#[test]
fn every_small_graph(rt: HostRuntime) -> Result<(), Fail> {
    for bits in 0..65_536u32 {
        let edges = small(rt.alloc(), bits)?;
        let found = groups(rt.alloc(), 4, &edges)?;
        assert!(rt; !found.as_slice().is_empty());
    }
    Ok(())
}

#[test]
fn large_chains(rt: HostRuntime) -> Result<(), Fail> {
    let forward = large(rt.alloc(), Shape::Forward, 100_000, 1)?;
    assert_eq!(rt;
        groups(rt.alloc(), 100_000, &forward)?.as_slice().len(),
        100_000
    );
    let backward = large(rt.alloc(), Shape::Backward, 100_000, 1)?;
    assert_eq!(rt;
        groups(rt.alloc(), 100_000, &backward)?.as_slice().len(),
        100_000
    );
    Ok(())
}

#[test]
fn a_large_cycle(rt: HostRuntime) -> Result<(), Fail> {
    let edges = large(rt.alloc(), Shape::Cycle, 100_000, 1)?;
    assert_eq!(rt; groups(rt.alloc(), 100_000, &edges)?.as_slice().len(), 1);
    Ok(())
}

#[test]
fn large_graphs_by_chance(rt: HostRuntime) -> Result<(), Fail> {
    for edges_each in 1..5 {
        let edges = large(rt.alloc(), Shape::Chance, 100_000, edges_each)?;
        let found = groups(rt.alloc(), 100_000, &edges)?;
        assert!(rt; !found.as_slice().is_empty());
    }
    Ok(())
}
