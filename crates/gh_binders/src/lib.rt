//! Binders of numbers, the nearest first, with a look-up of the nearest binder of a number and undo.
#![tactic(auto)]

mod binders;

pub use binders::{Binders, enter};
