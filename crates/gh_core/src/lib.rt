//! Explicitly typed core, its types up to bound names, and core without types.
#![tactic(auto)]

mod erase;
mod erased;
mod same;
mod terms;
mod types;

pub use erase::erase_core;
pub use erased::{Erased, ErasedAlt, ErasedTerm};
pub use same::same_type;
pub use terms::{CoreAlt, CoreName, CoreProgram, CoreTerm, Def};
pub use types::CoreType;
