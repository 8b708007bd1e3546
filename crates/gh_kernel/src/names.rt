// Names, literals and heads of cases.
use gh_base::{ListOf, NameId, Origin, TyCon};

/// The name of a binding of the top level.
#[derive(Clone, Copy, Debug, PartialEq, Eq)]
pub enum TopName {
    /// A name that the module defines, or a primitive of the Prelude.
    Named(Origin),
    /// The hidden binding of a pattern, by its module and its number there, from 0.
    Hidden(NameId, u32),
}

/// A variable in a term.
#[derive(Clone, Copy, Debug, PartialEq, Eq)]
pub enum VarName {
    /// A local variable, by its number. Local variables of one top binding or case body have different numbers.
    Local(u32),
    /// A name of the top level.
    Top(TopName),
}

/// A literal (Haskell 98 Report, 2.5 and 2.6).
#[derive(Debug, Drop)]
pub enum Lit {
    /// An integer of 64 bits.
    Int(i64),
    /// A character.
    Char(char),
    /// A string, which counts as the list of its characters.
    Str(ListOf<char>),
}

/// The head of a case of a generic function.
#[derive(Clone, Copy, Debug, PartialEq, Eq)]
pub enum Head {
    /// A type constructor.
    Of(TyCon),
    /// The layer of every constructor. The case's term is a function of the description of the constructor at hand.
    Layer,
    /// A head that is none.
    Bad,
}
