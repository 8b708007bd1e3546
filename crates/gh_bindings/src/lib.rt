//! Programs of bindings between names, strings and `++`: what they mean, and their core.
#![tactic(auto)]

mod append;
mod binding;
mod laws;
mod names;
mod program;
mod types;

pub use binding::{Binding, Operand};
pub use laws::{core_goes_on, core_keeps_meaning, none_fails};
pub use program::core_of;
