//! The first form of programs, taken out of a file's tree: bindings of names to operands that `++` joins.
#![tactic(auto)]

mod bindings;
mod item;
mod laws;
mod operand;
mod program;
mod span;

pub use bindings::Bindings;
pub use laws::{
    bindings_are_spanned, form_is_exact, form_is_unique, names_are_placed, refusal_is_exact,
};
pub use program::{Parsed, form};
