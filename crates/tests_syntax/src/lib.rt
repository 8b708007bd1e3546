//! Tests of the crates from bytes to trees, each over its public calls.
#![tactic(auto)]

#[cfg(test)]
mod declarations;
#[cfg(test)]
mod deep;
#[cfg(test)]
mod layout;
#[cfg(test)]
mod lexer;
#[cfg(test)]
mod limits;
#[cfg(test)]
mod modules;
#[cfg(test)]
mod nested;
#[cfg(test)]
mod parse_exps;
#[cfg(test)]
mod parse_lefts;
#[cfg(test)]
mod parse_patterns;
#[cfg(test)]
mod parse_tops;
#[cfg(test)]
mod parse_types;
#[cfg(test)]
mod parser;
#[cfg(test)]
mod tree;
#[cfg(test)]
mod tree_form;
