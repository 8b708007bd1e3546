// What linking reads of a file.
use gh_base::{ListOf, NameId, Origin, Space, Span};

/// A name as it is used: its bytes with parentheses and qualifier, its qualifier, and its last part.
#[derive(Clone, Copy)]
pub struct Used {
    /// Its bytes.
    pub span: Span,
    /// Its qualifier.
    pub qualifier: Option<NameId>,
    /// Its last part.
    pub name: NameId,
}

/// A name that a file defines at its top (Haskell 98 Report, 4.1 and 4.2). Its origin is the file's module, with this
/// space and name.
#[derive(Clone, Copy)]
pub struct Definition {
    /// Its space.
    pub space: Space,
    /// The name.
    pub name: NameId,
    /// The type whose constructor it is, if it is one.
    pub owner: Option<NameId>,
}

/// What a part of an export or import list names.
#[derive(Clone, Copy)]
pub enum ListedKind {
    /// A variable.
    Value,
    /// A type.
    Type,
    /// All that is in scope with a module's name and without it.
    Module,
}

/// Which constructors of a type are named with it.
#[derive(Drop)]
pub enum Parts {
    /// Nothing stands behind the type.
    Bare,
    /// `(..)`
    All,
    /// These.
    Listed(ListOf<Used>),
}

/// A part of an export or import list (Haskell 98 Report, 5.2 and 5.3.1).
#[derive(Drop)]
pub struct Listed {
    /// Its bytes.
    pub span: Span,
    /// What it names.
    pub kind: ListedKind,
    /// The name: a variable, a type or a module.
    pub name: Used,
    /// The constructors of a type.
    pub parts: Parts,
}

/// What an import takes of the exports of its module (Haskell 98 Report, 5.3.1).
#[derive(Drop)]
pub enum Selection {
    /// All.
    Whole,
    /// What these name.
    Only(ListOf<Listed>),
    /// All but what these name.
    Hiding(ListOf<Listed>),
}

/// An import (Haskell 98 Report, 5.3).
#[derive(Drop)]
pub struct Import {
    /// Its bytes.
    pub span: Span,
    /// The module.
    pub name: NameId,
    /// Whether its names come with a qualifier alone.
    pub qualified: bool,
    /// The qualifier: the name behind `as`, or that of the module.
    pub qualifier: NameId,
    /// What it takes.
    pub selection: Selection,
}

/// What linking reads of a file.
#[derive(Drop)]
pub struct Summary {
    /// The name of its module.
    pub name: NameId,
    /// The bytes of that name.
    pub span: Span,
    /// The names that it defines, in the order of the text.
    pub definitions: ListOf<Definition>,
    /// Its imports in their order.
    pub imports: ListOf<Import>,
    /// Its export list. Without one it exports all that it defines.
    pub exports: Option<ListOf<Listed>>,
}

/// A name in scope (Haskell 98 Report, 5.5.1): with this qualifier, or without one, this name stands for this origin.
#[derive(Clone, Copy, Debug, PartialEq, Eq)]
pub struct ScopeEntry {
    /// The qualifier.
    pub qualifier: Option<NameId>,
    /// The name behind it. It is that of the origin.
    pub name: NameId,
    /// What it stands for.
    pub origin: Origin,
}

/// What is in scope in a module.
#[derive(Drop)]
pub struct Scope {
    /// Each entry once: those of its own definitions in the order of the text, then those of its imports in their order.
    pub entries: ListOf<ScopeEntry>,
}

/// The modules of a program, linked.
#[derive(Drop)]
pub struct Linked {
    /// The numbers of the files, each once, the Prelude first and each behind those that it imports.
    pub order: ListOf<u32>,
    /// The scope of each file, by its number.
    pub scopes: ListOf<Scope>,
}
