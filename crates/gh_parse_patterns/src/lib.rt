//! The reader of patterns.
#![tactic(auto)]

mod arguments;
mod patterns;

pub use arguments::begins_arg;
pub use patterns::{arg, args, next_patterns, operand, parse_pattern, pat_parts, pattern};
