// Places in files, and where a name comes from.
use crate::names::NameId;

/// The bytes from `from` up to, and without, `to` of a file, counted from 0. File 0 is the Prelude, and the files
/// of the command line count from 1.
#[derive(Clone, Copy, Debug, PartialEq, Eq)]
pub struct Span {
    /// The number of the file.
    pub file: u32,
    /// The first byte.
    pub from: u32,
    /// The byte after the last.
    pub to: u32,
}

/// The two spaces of names (Haskell 98 Report, 1.4).
#[derive(Clone, Copy, Debug, PartialEq, Eq)]
pub enum Space {
    /// Variables and constructors.
    Values,
    /// Type constructors and synonyms.
    Types,
}

/// Where a name is defined (Haskell 98 Report, 5.5.1: two names are the same entity where their origins are equal).
#[derive(Clone, Copy, Debug, PartialEq, Eq)]
pub struct Origin {
    /// The name of the module that defines it.
    pub module: NameId,
    /// The space in which it stands.
    pub space: Space,
    /// Its name there, without a qualifier.
    pub name: NameId,
}

/// The head of a type: a declared type, a built-in one, or the layer of a constructor.
#[derive(Clone, Copy, Debug, PartialEq, Eq)]
pub enum TyCon {
    /// A declared type, a list, a tuple or the empty tuple.
    Named(Origin),
    /// The function arrow.
    Arrow,
    /// The 64-bit integers.
    Int,
    /// The Unicode scalar values.
    Char,
    /// The layer that carries the name and arity of this constructor in a structural representation.
    ConOf(Origin),
}
