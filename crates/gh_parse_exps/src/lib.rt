//! The reader of expressions and declarations.
#![tactic(auto)]

mod aexps;
mod alternatives;
mod blocks;
mod boxes;
mod declarations;
mod exps;
mod finished;
mod held;
mod levels;
mod locals;
mod marks;
mod narrow;
mod operands;
mod ops;
mod reader;
mod signatures;

pub use exps::{decl, decls, exp, parse_exp, rhs};
pub use locals::word;
pub use marks::{banana, close_banana, colons, equals, is_bar};
pub use ops::{any_var_next, call_next};
