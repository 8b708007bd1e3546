//! Patterns and left sides of functions with their names resolved.
#![tactic(auto)]

mod left_sides;
mod patterns;
mod spans;
mod variables;

pub use left_sides::{add_left_side, function_used, left_side};
pub use patterns::{arg_pattern, arg_patterns, pattern};
pub use variables::{add_argument, add_arguments, add_pattern};
