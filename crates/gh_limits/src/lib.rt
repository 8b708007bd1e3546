//! The first limit that the tree of a file passes.
#![tactic(auto)]

mod bound;
mod clauses;
mod first;
mod inside;
mod law;
mod places;
mod same_types;
mod tops;

pub use first::limits;
pub use law::answers_the_first;
pub use same_types::same_type;
