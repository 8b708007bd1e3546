//! Tests of `genhs`, over shelves and outputs in memory.
#![tactic(auto)]

#[cfg(test)]
mod driver;
#[cfg(test)]
mod writes;
