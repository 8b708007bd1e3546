// Terms and programs of typed core.
use crate::types::CoreType;
use gh_base::{ListOf, NameId, Origin, Span, TyCon};
use gh_typeterm::{DeclData, Kind};
use sqlite_items::Boxed;

/// A term of typed core. A variable is a number, bound by the nearest enclosing binder of its sort with that number.
#[cycle(core_term)]
#[derive(Drop)]
pub enum CoreTerm {
    /// A variable.
    Var(u32),
    /// A definition of the program.
    Global(CoreName),
    /// A constructor.
    Con(Origin),
    /// An integer of 64 bits.
    Int(i64),
    /// A character.
    Char(char),
    /// A string, which counts as its list of characters.
    Str(ListOf<char>),
    /// A primitive with the place of its name; `error` has its result's type besides.
    Prim(Origin, Span, Option<CoreType>),
    /// A function: its variable, the variable's type, and its body.
    Lam(u32, CoreType, Boxed<CoreTerm>),
    /// A function with its argument.
    App(Boxed<CoreTerm>, Boxed<CoreTerm>),
    /// A function of types: its variable, the variable's kind, and its body.
    TyLam(u32, Kind, Boxed<CoreTerm>),
    /// A function of types with its argument.
    TyApp(Boxed<CoreTerm>, CoreType),
    /// Bindings that all may use one another, each with its variable and type, and the term in which they stand.
    LetRec(ListOf<(u32, CoreType, CoreTerm)>, Boxed<CoreTerm>),
    /// A case: its scrutinee, its result's type, its alternatives, and what else it goes on with.
    Case(Boxed<CoreTerm>, CoreType, ListOf<CoreAlt>, Option<Boxed<CoreTerm>>),
    /// The failure of a match at this place, at this type.
    Stop(Span, CoreType),
}

/// An alternative of a case.
#[cycle(core_term)]
#[derive(Drop)]
pub enum CoreAlt {
    /// A constructor with the variables of its fields, and the term that it goes on with.
    Con(Origin, ListOf<u32>, CoreTerm),
    /// An integer, and the term.
    Int(i64, CoreTerm),
    /// A character, and the term.
    Char(char, CoreTerm),
}

/// The name of a definition of core.
#[derive(Clone, Copy, Debug, PartialEq, Eq)]
pub enum CoreName {
    /// A plain binding of the top level.
    Plain(Origin),
    /// The hidden binding of a pattern, by its module and its number there, from 0.
    Hidden(NameId, u32),
    /// The component of a generic function at a type constructor.
    Component(Origin, TyCon),
    /// The conversion of a datatype into its structural representation.
    From(TyCon),
    /// The conversion of a datatype from its structural representation.
    To(TyCon),
    /// The map of a datatype over pairs of conversions.
    Bimap(TyCon),
}

/// A definition of core.
#[derive(Drop)]
pub struct Def {
    /// Its name.
    pub name: CoreName,
    /// Its type.
    pub ty: CoreType,
    /// Its term.
    pub term: CoreTerm,
}

/// A program of typed core.
#[derive(Drop)]
pub struct CoreProgram {
    /// Its datatypes.
    pub decls: ListOf<DeclData>,
    /// Its definitions.
    pub defs: ListOf<Def>,
    /// The term that is run.
    pub main: CoreTerm,
}
