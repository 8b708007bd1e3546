//! Laws on the order of the files and on scopes.
#![tactic(auto)]

mod laws;

pub use laws::{entries_once, every_file, link_order, one_order, scopes_of_exports};
