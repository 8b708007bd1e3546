//! Tests of the crates on names, type terms, the kernel and core, each over its public calls.
#![tactic(auto)]

#[cfg(test)]
mod adapt;
#[cfg(test)]
mod base;
#[cfg(test)]
mod bindings;
#[cfg(test)]
mod core_lint;
#[cfg(test)]
mod core_terms;
#[cfg(test)]
mod core_text;
#[cfg(test)]
mod fixity;
#[cfg(test)]
mod groups;
#[cfg(test)]
mod kernel;
#[cfg(test)]
mod kind_index;
#[cfg(test)]
mod machine;
#[cfg(test)]
mod outside;
#[cfg(test)]
mod struct_rep;
#[cfg(test)]
mod type_store;
#[cfg(test)]
mod typeterm;
#[cfg(test)]
mod unify;
#[cfg(test)]
mod unify_levels;
#[cfg(test)]
mod unify_trial;
