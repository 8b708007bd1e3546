//! The rules on declarations that need no origin of a name, and the first that fails in a file.
#![tactic(auto)]

mod cases;
mod declared;
mod first;
mod inside;
mod law;
mod lists;
mod named;
mod patterns;
mod tops;

pub use first::declaration_fault;
pub use law::answers_the_first;
