//! From bytes to tokens.
#![tactic(auto)]

mod classes;
mod kinds;
mod lexer;
mod literal;
mod place;
mod scan;
mod scanner;
mod token;

pub use lexer::lex;
pub use token::{NameClass, Token, TokenKind};
