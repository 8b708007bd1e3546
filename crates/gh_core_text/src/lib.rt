//! The text of programs of typed core.
#![tactic(auto)]

mod binders;
mod laws;
mod program;
mod terms;
mod types;

pub use laws::{kinds_by_text, same_types_by_text, types_by_text};
pub use program::core_text;
