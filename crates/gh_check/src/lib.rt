//! The phases of a check, from the bytes of a file to a program or its first refusal.
#![tactic(auto)]

mod laws;
mod link;
mod phases;

pub use laws::{acceptance_is_exact, scope_is_exact};
pub use phases::{Checked, check};
