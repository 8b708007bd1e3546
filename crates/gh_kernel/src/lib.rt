//! The kernel language.
#![tactic(auto)]

mod copies;
mod erasing;
mod functions;
mod kernel;
mod laws;
mod meaning;
mod names;
mod patterns;
mod signatures;
mod terms;

pub use erasing::erase;
pub use functions::{Dependency, Extension, GenFun};
pub use kernel::{Binding, CaseBody, Kernel};
pub use laws::{run_laws, substitution_laws, typing_laws};
pub use meaning::{conversion_laws, generic_runs, plain_runs, step_laws};
pub use names::{Head, Lit, TopName, VarName};
pub use patterns::{Pattern, PatternNode};
pub use signatures::{Note, Signed};
pub use terms::{LocalBinding, Row, Term, TermNode};
