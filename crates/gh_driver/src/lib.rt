//! The top call: from words and files to output.
#![tactic(auto)]

mod status;
mod top;

pub use gh_check::{acceptance_is_exact, scope_is_exact};
pub use gh_lines::{Source, refusal_line};
pub use gh_run::{core_keeps_meaning, cycles_run_for_ever};
pub use gh_words::{Words, WordsFault, read_words};
pub use status::Status;
pub use top::{Mode, genhs};
