//! The layout of a module: where its blocks begin and end, and where their items part.
#![tactic(auto)]

mod entry;
mod laying;
mod layout;
mod pile;
mod role;
mod stack;

pub use laying::LaidToken;
pub use layout::lay;
