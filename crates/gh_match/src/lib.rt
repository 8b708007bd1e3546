//! Rows of patterns as one-level cases of core, with the meaning of the rows.
#![tactic(auto)]

mod compile;
mod copies;
mod numbers;
mod row;
mod rows;
mod terms;
mod tests;
mod types;

pub use compile::compile_match;
pub use rows::MatchRow;
