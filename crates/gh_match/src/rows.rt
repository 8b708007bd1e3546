// Rows.
use gh_base::ListOf;
use gh_core::{CoreTerm, CoreType};
use gh_kernel::{Note, Pattern};

/// A row of a match (Haskell 98 Report, 3.17), its groups, guards and bodies being terms of core already. It matches where each
/// pattern matches the scrutinee at its place, from left to right. Then its groups are entered, and the first body whose guard
/// holds goes on; where none holds, the next row is tried.
#[derive(Drop)]
pub struct MatchRow {
    /// A pattern for each scrutinee.
    pub patterns: ListOf<Pattern<Note>>,
    /// The groups of bindings, each one `letrec`, in the scope of the patterns' variables and of the groups before it.
    pub groups: ListOf<ListOf<(u32, CoreType, CoreTerm)>>,
    /// Each guard, where there is one, with its body.
    pub bodies: ListOf<(Option<CoreTerm>, CoreTerm)>,
}
