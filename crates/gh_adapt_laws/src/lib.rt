//! Laws on conversions at types: what core typing gives them, and what they do at every type in both directions.
#![tactic(auto)]

mod laws;

pub use laws::{conversion_laws, typing_laws};
