//! Unification of type terms: a most general solution of all equations so far, in scope and in size.
#![tactic(auto)]

mod solving;
mod table;
mod unifier;

pub use unifier::{Unifier, UnifyFault};
