//! The modules of a program: their order, and what is in scope in each.
#![tactic(auto)]

mod defined;
mod file;
mod items;
mod patterns;
mod program;

pub use file::summary;
pub use gh_scopes::{Linked, Scope, ScopeEntry};
pub use program::link;
