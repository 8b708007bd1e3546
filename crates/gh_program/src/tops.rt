// Top declarations and whole programs, with their names resolved.
use crate::expressions::{Decl, Rhs};
use crate::names::Occurrence;
use crate::patterns::ArgPattern;
use crate::types::{ArgType, BType, TypeExpr};
use gh_base::{ListOf, NameId, Origin, Span};
use sqlite_items::Items;

/// A program: its modules in link order, the Prelude first.
#[derive(Drop)]
pub struct Resolved {
    /// The modules.
    pub modules: Items<ResolvedModule>,
    /// The plain `main` that the module Main exports, where there is one.
    pub main: Option<Origin>,
}

/// A module.
#[derive(Drop)]
pub struct ResolvedModule {
    /// Its name.
    pub name: NameId,
    /// The number of its file.
    pub file: u32,
    /// Its declarations, in the order of the file.
    pub tops: Items<Top>,
}

/// A declaration of the top.
#[derive(Drop)]
pub enum Top {
    /// A type synonym: its name, its parameters and its right side.
    Synonym(Span, Occurrence, ListOf<Occurrence>, TypeExpr),
    /// A datatype: its name, its parameters and its constructors, of which there is one at least.
    Data(Span, Occurrence, ListOf<Occurrence>, Items<Constr>),
    /// A newtype: its name, its parameters, its constructor and the field.
    Newtype(Span, Occurrence, ListOf<Occurrence>, Occurrence, ArgType),
    /// The signature of a generic function: its variables, its dependencies and its type.
    Signature(Span, Occurrence, GenVars, Items<Dep>, TypeExpr),
    /// A case of a generic function: its head, its arguments and its right side.
    Case(Span, Occurrence, TypeExpr, Items<ArgPattern>, Rhs),
    /// A generic function that extends another.
    Extends(Span, Occurrence, Occurrence),
    /// A declaration.
    Decl(Decl),
}

/// The variables of a generic function.
#[derive(Drop)]
pub struct GenVars {
    /// Its bytes.
    pub span: Span,
    /// The generic ones, of which there is one at least.
    pub generic: ListOf<Occurrence>,
    /// Those that are not generic.
    pub other: ListOf<Occurrence>,
}

/// A dependency: a generic function and its variables.
#[derive(Drop)]
pub struct Dep {
    /// Its bytes.
    pub span: Span,
    /// The function.
    pub function: Occurrence,
    /// The variables.
    pub vars: GenVars,
}

/// A constructor of a datatype.
#[derive(Drop)]
pub enum Constr {
    /// A constructor and its fields.
    Prefix(Span, Occurrence, Items<ArgType>),
    /// A constructor operator between its two fields.
    Infix(Span, BType, Occurrence, BType),
}
