//! A machine that makes the reductions of core with environments, and substitutes nothing.
#![tactic(auto)]

mod bind;
mod closure;
mod look;
mod machine;
mod parts;
mod pick;
mod primitive;
mod program;
mod run;
mod stack;
mod step;
mod table;
mod text;
mod turn;

pub use machine::Machine;
pub use turn::{Stop, StopCause, Turn};
