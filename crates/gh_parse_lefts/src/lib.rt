//! The reader of the left sides of declarations.
#![tactic(auto)]

mod fronts;
mod laws;
mod operands;
mod operators;
mod reader;
mod sides;

pub use laws::has_one_left;
pub use reader::{left, parse_left};
pub use sides::Left;
