//! The reader of headers and export lists.
#![tactic(auto)]

mod header;
mod imports;
mod lists;
mod names;
mod one_head;
mod parts;

pub use header::parse_header;
pub use imports::parse_import;
pub use lists::exports;
pub use names::{any_var, con, module_name};
pub use one_head::{has_one_header, has_one_import};
pub use parts::any_parts;
