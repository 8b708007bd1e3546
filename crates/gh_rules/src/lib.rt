//! The rules by which rows are matched, over terms of core, and what it is that a term of core follows them.
#![tactic(auto)]

mod laws;

pub use laws::{matching_laws, rows_follow};
