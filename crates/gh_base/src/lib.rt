//! Names, places, refusals and lists that all phases share.
#![tactic(auto)]

pub mod fixed;
mod laws;
mod list_of;
mod names;
mod no_memory;
mod place;
mod refusal;

pub use fixed::FIXED;
pub use laws::constants_name_their_words;
pub use list_of::{Bytes, ListOf};
pub use names::{NameId, Names};
pub use no_memory::NoMemory;
pub use place::{Origin, Space, Span, TyCon};
pub use refusal::{Fault, Limit, Refusal};
