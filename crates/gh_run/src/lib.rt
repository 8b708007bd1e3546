//! A run of `main` within a budget of reductions.
#![tactic(auto)]

mod laws;
mod run;

pub use laws::{core_keeps_meaning, cycles_run_for_ever};
pub use run::{RunFault, run_main};
