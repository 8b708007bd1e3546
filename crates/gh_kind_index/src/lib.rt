//! The kind-indexed types of generic functions.
#![tactic(auto)]

mod above;
mod base;
mod binders;
mod copies;
mod indexed;
mod laws;

pub use above::raised;
pub use base::base_type;
pub use binders::{arrow, quantified, variables};
pub use copies::copy_type;
pub use indexed::kind_indexed;
pub use laws::kind_laws;
