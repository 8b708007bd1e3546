//! What a name stands for where it is used (Haskell 98 Report, 5.5.1 and chapter 3 on scopes).
#![tactic(auto)]

mod constructors;
mod context;
mod misuse;
mod numbers;
mod types;
mod uses;
mod written;

pub use constructors::{
    colon, constructor, constructor_operator, general_constructor, tuple_parts,
};
pub use context::Context;
pub use misuse::{Misuse, Rule, earlier, number};
pub use numbers::Numbers;
pub use types::type_name;
pub use uses::{
    any_function, binder, bound, generic, in_scope, own, plain, plain_operator, type_variable,
};
pub use written::{between, used_con, used_name, used_var, used_var_op};
