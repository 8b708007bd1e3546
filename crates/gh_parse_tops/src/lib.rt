//! The reader of declarations of the top.
#![tactic(auto)]

mod constrs;
mod generics;
mod laws;
mod looks;
mod tops;
mod words;

pub use laws::has_one_top;
pub use tops::parse_top;
