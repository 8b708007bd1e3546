//! A cursor over laid tokens, and the readers of names, operators and constructors.
#![tactic(auto)]

mod constructors;
mod marks;
mod names;
mod span;
mod stop;
mod tokens;

pub use constructors::{gen_con, gen_con_next};
pub use marks::{close, close_list, commas, is_close, is_comma};
pub use names::{con_op, con_op_next, var, var_next};
pub use stop::Stop;
pub use tokens::Tokens;
