//! The lines on standard error, with places as lines and columns.
#![tactic(auto)]

mod lines;
mod position;
mod source;

pub use lines::{line_room, read_line, refusal_line, stopped_line};
pub use source::Source;
