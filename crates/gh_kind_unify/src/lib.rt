//! The least kinds that meet a list of kinding rules, and the first rule at which there are none.
#![tactic(auto)]

mod build;
mod cells;
mod least;
mod order;
mod rules;
mod settling;

pub use least::{KindFault, least_kinds};
pub use rules::Rule;
