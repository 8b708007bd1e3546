//! Prints how long `unify` takes for chains of equations, at doubling sizes. Without a word it prints nothing.
#![tactic(auto)]

mod chain;

use crate::chain::{Chain, Shape};
use gh_base::NoMemory;
use std::alloc::Global;
use std::rt::{Clock, Env};
use std::time::Instant;
use std::{env, io};

// The equations that a chain of this length met, or none without memory.
fn solve(alloc: Global, shape: Shape, count: u32) -> Result<u32, NoMemory> {
    let mut chain = Chain::new(alloc)?;
    let mut met = 0u32;
    for _ in 0..count {
        if chain.grow(shape)? {
            met = met.saturating_add(1);
        }
    }
    Ok(met)
}

fn measure<R: Clock + Print>(rt: &R, alloc: Global, shape: Shape, count: u32) -> io::Result<()> {
    let start = Instant::now(rt)?;
    let met = match solve(alloc, shape, count) {
        Ok(met) => met,
        Err(NoMemory) => return rt.println("no memory"),
    };
    let time = start.elapsed(rt)?.as_millis();
    let name = shape.name();
    println!(rt; "{name}: {met} of {count} equations met, {time} ms")
}

fn run<R: Clock + Print>(rt: &R, alloc: Global) -> io::Result<()> {
    for count in [250, 500, 1_000, 2_000] {
        measure(rt, alloc, Shape::Variables, count)?;
    }
    for count in [62, 124, 248, 496] {
        measure(rt, alloc, Shape::Lists, count)?;
    }
    Ok(())
}

fn main(rt: HostRuntime) -> io::Result<()> {
    if env::args(&rt)?.count() > 1 {
        run(&rt, rt.alloc())?;
    }
    Ok(())
}
