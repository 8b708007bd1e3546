//! The check of typed core.
#![tactic(auto)]

mod binders;
mod cases;
mod check;
mod compound;
mod data;
mod fault;
mod fields;
mod forms;
mod index;
mod kinds;
mod known;
mod laws;
mod leaves;
mod place;
mod primitives;
mod program;
mod rules;
mod scope;
mod tables;
mod types;
mod written;

pub use fault::LintFault;
pub use laws::{one_first_fault, typed_without_fault};
pub use program::lint;
