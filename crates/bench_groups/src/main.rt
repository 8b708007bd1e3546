//! Prints how long `groups` takes for chains, one cycle and graphs by chance, at doubling sizes. Without a word it prints nothing.
#![tactic(auto)]

ghost use Rattle.std.specs.Prelude.{◌<◌, ◌^◌, OnOk, IfOk};
ghost use Rattle.gh_groups.specs.Grouping.{AreBelow};

use gh_base::{ListOf, NoMemory};
use gh_groups::groups;
use std::alloc::Global;
use std::rt::{Clock, Env};
use std::time::Instant;
use std::{env, io};

#[derive(Clone, Copy)]
enum Shape {
    Forward,
    Backward,
    Cycle,
    Chance,
}

impl Shape {
    fn name(self) -> &'static str {
        match self {
            Shape::Forward => "chain",
            Shape::Backward => "chain turned round",
            Shape::Cycle => "cycle",
            Shape::Chance => "by chance",
        }
    }
}

// The edge of a number in a graph of a shape.
fn edge(shape: Shape, count: u32, at: u32, chance: u64) -> (u32, u32)
    requires { at < count }
    ensures { (result.0 < count) × (result.1 < count) }
{
    let next = if at + 1 < count { at + 1 } else { at };
    match shape {
        Shape::Forward => (at, next),
        Shape::Backward => (next, at),
        Shape::Cycle => (at, (at + 1) % count),
        Shape::Chance => (
            (chance % u64::from(count)) as u32,
            (chance / 65_536 % u64::from(count)) as u32,
        ),
    }
}

// One more edge.
#[tactic(auto, using(crate::proofs::Edges::below_more))]
fn put(edges: &mut ListOf<(u32, u32)>, count: u32, from: u32, to: u32) -> Result<(), NoMemory>
    requires low { AreBelow count edges.old }
    requires from { from < count }
    requires to { to < count }
    ensures { OnOk result (AreBelow count edges.new) }
{
    edges.push((from, to))?;
    Ok(())
}

// Two edges for each number.
fn large(alloc: Global, shape: Shape, count: u32) -> Result<ListOf<(u32, u32)>, NoMemory>
    requires { count < 2 ^ 31 }
    ensures { IfOk result (λ edges. AreBelow count edges) }
{
    let mut edges = ListOf::new(alloc);
    let mut seed: u64 = 88_172_645_463_325_252;
    for at in 0..count {
        for _ in 0..2u32 {
            seed = seed
                .wrapping_mul(6_364_136_223_846_793_005)
                .wrapping_add(1_442_695_040_888_963_407);
            let (from, to) = edge(shape, count, at, seed / 8_192);
            put(&mut edges, count, from, to)?;
        }
    }
    Ok(edges)
}

fn measure<R: Clock + Print>(rt: &R, alloc: Global, shape: Shape, count: u32) -> io::Result<()>
    requires { count < 2 ^ 31 }
{
    let edges = match large(alloc, shape, count) {
        Ok(edges) => edges,
        Err(NoMemory) => return rt.println("no memory"),
    };
    let start = Instant::now(rt)?;
    let number = match groups(alloc, count, &edges) {
        Ok(found) => found.as_slice().len(),
        Err(NoMemory) => return rt.println("no memory"),
    };
    let time = start.elapsed(rt)?.as_millis();
    let name = shape.name();
    println!(rt; "{name}: {count} numbers, {number} groups, {time} ms")
}

fn run<R: Clock + Print>(rt: &R, alloc: Global) -> io::Result<()> {
    for shape in [Shape::Forward, Shape::Backward, Shape::Cycle, Shape::Chance] {
        for count in [12_500, 25_000, 50_000, 100_000] {
            measure(rt, alloc, shape, count)?;
        }
    }
    Ok(())
}

fn main(rt: HostRuntime) -> io::Result<()> {
    if env::args(&rt)?.count() > 1 {
        run(&rt, rt.alloc())?;
    }
    Ok(())
}
