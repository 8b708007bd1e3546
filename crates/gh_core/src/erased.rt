// Core without types.
use crate::terms::CoreName;
use gh_base::{ListOf, Origin, Span};
use sqlite_items::Boxed;

/// A program of core without types.
#[derive(Drop)]
pub struct Erased {
    /// The constructors of the newtypes.
    pub newtypes: ListOf<Origin>,
    /// The definitions with their names.
    pub defs: ListOf<(CoreName, ErasedTerm)>,
    /// The term that is run.
    pub main: ErasedTerm,
}

/// A term of core without types. A variable is a number, bound by the nearest enclosing binder with that number.
#[cycle(erased_term)]
#[derive(Drop)]
pub enum ErasedTerm {
    /// A variable.
    Var(u32),
    /// A definition of the program.
    Global(CoreName),
    /// A constructor.
    Con(Origin),
    /// An integer of 64 bits.
    Int(i64),
    /// A character.
    Char(char),
    /// A string, which counts as its list of characters.
    Str(ListOf<char>),
    /// A primitive with the place of its name.
    Prim(Origin, Span),
    /// A function of one variable.
    Lam(u32, Boxed<ErasedTerm>),
    /// A function with its argument.
    App(Boxed<ErasedTerm>, Boxed<ErasedTerm>),
    /// Bindings that all may use one another, and the term in which they stand.
    LetRec(ListOf<(u32, ErasedTerm)>, Boxed<ErasedTerm>),
    /// A case: its scrutinee, its alternatives, and what else it goes on with.
    Case(Boxed<ErasedTerm>, ListOf<ErasedAlt>, Option<Boxed<ErasedTerm>>),
    /// The failure of a match at this place.
    Stop(Span),
}

/// An alternative of a case.
#[cycle(erased_term)]
#[derive(Drop)]
pub enum ErasedAlt {
    /// A constructor with the variables of its fields, and the term that it goes on with.
    Con(Origin, ListOf<u32>, ErasedTerm),
    /// An integer, and the term.
    Int(i64, ErasedTerm),
    /// A character, and the term.
    Char(char, ErasedTerm),
}
