//! The type whose values stand for those of a datatype, and where each constructor lies in it.
#![tactic(auto)]

mod injections;
mod nesting;

pub use injections::paths;
pub use nesting::{layers, nest, rep};
