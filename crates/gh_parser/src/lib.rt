//! The reader of files: one tree of the laid tokens of a file, or the first item for which there is none.
#![tactic(auto)]

mod file;
mod items;
mod laws;
mod readers;
mod refusals;

pub use file::parse;
pub use laws::{
    gives_first_fault, gives_its_tree, has_one_decls, has_one_exp, has_one_tree, parses_every_tree,
};
