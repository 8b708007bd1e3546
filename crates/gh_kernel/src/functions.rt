// Generic functions.
use crate::names::Head;
use gh_base::{ListOf, NameId, Origin, Span};
use gh_typeterm::Ty;

/// A generic function (Löh, Exploring Generic Haskell): its signature, and the heads of its cases.
#[derive(Debug, Drop)]
pub struct GenFun {
    /// Its name.
    pub origin: Origin,
    /// The bytes of its signature.
    pub span: Span,
    /// The generic variables, as written.
    pub generic: ListOf<NameId>,
    /// The non-generic variables, as written.
    pub other: ListOf<NameId>,
    /// The functions that it depends on, in order.
    pub dependencies: ListOf<Dependency>,
    /// The type at which it is used. `Var(0)` and up are the generic variables and then the others; a variable that is
    /// neither has a number above these.
    pub base: Ty,
    /// The head of each case, and for a case that is taken from another function that function.
    pub cases: ListOf<(Head, Option<Origin>)>,
}

/// A dependency of a generic function.
#[derive(Debug, Drop)]
pub struct Dependency {
    /// The function that is depended on.
    pub function: Origin,
    /// The generic variables that it is written with.
    pub generic: ListOf<NameId>,
    /// The non-generic variables that it is written with.
    pub other: ListOf<NameId>,
}

/// `taker extends giver`: the taker takes each case of the giver for whose head it has none.
#[derive(Clone, Copy, Debug, PartialEq, Eq)]
pub struct Extension {
    /// The function that takes cases.
    pub taker: Origin,
    /// The function whose cases are taken.
    pub giver: Origin,
    /// The bytes of the declaration.
    pub span: Span,
}
