//! What the program meets of the outside: files that are read by name, and outputs that take bytes.
#![tactic(auto)]

mod book;
mod failing;
mod host;
mod mem_out;
mod mem_shelf;
mod outside;

pub use host::{HostOut, HostShelf};
pub use mem_out::MemOut;
pub use mem_shelf::MemShelf;
pub use outside::{Out, OutFault, Shelf, ShelfFault};
