//! Types with their names resolved.
#![tactic(auto)]

mod own;
mod types;
mod variables;

pub use own::own_type;
pub use types::{arg_type, arg_types, btype, type_expr};
pub use variables::{add_arg_type, add_type};
