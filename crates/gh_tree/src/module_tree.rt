// The tree of a file (Haskell 98 Report, 5.1).
use crate::names::{BlockMark, Name};
use crate::tops::{Exports, Import, Top};
use gh_base::{ListOf, Span};
use sqlite_items::Boxed;

/// The tree of a file, with the names as they stand there: a number and a qualifier or none.
#[derive(Drop)]
pub struct ModuleTree {
    /// Its bytes.
    pub span: Span,
    /// The header. A file without one is the module `Main`, and exports `main` alone.
    pub header: Option<Header>,
    /// `{`
    pub open: BlockMark,
    /// The first item.
    pub first: Item,
    /// The others, each with its `;`.
    pub others: ListOf<NextItem>,
    /// `}`
    pub close: BlockMark,
}

/// `module`, a name, exports and `where`.
#[derive(Drop)]
pub struct Header {
    /// Its bytes.
    pub span: Span,
    /// `module`
    pub mark: Span,
    /// The module's name.
    pub name: Name,
    /// The export list.
    pub exports: Option<Exports>,
    /// `where`
    pub begins: Span,
}

/// A part of the body between two `;`.
#[derive(Drop)]
pub enum Item {
    /// Nothing.
    Empty,
    /// An import.
    Import(Boxed<Import>),
    /// A declaration of the top.
    Top(Boxed<Top>),
}

/// `;` and an item.
#[derive(Drop)]
pub struct NextItem {
    /// `;`
    pub mark: BlockMark,
    /// The item.
    pub item: Item,
}
