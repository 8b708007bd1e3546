//! The arrangement of an operator list into a tree, by the fixities of its operators.
#![tactic(auto)]

mod all;
mod binders;
mod exps;
mod finish;
mod grow;
mod item;
mod list_laws;
mod part;
mod patterns;
mod scope;
mod settle;
mod spans;
mod stack;
mod tops;
mod walked;

pub use all::arrange_all;
pub use item::{ArrangeFault, Arranged, Fixity, Item, Side};
pub use list_laws::has_settled_lists;
pub use stack::{arrange, has_one_tree};
