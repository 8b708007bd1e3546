//! The reader of types.
#![tactic(auto)]

mod types;

pub use types::{arg_type, arg_types, btype, parse_type, type_expr};
