// Exports, imports and top declarations (Haskell 98 Report, 4.1 to 4.3 and 5; generic declarations after "Exploring
// Generic Haskell").
use crate::expressions::{Decl, Rhs};
use crate::names::{Con, ConOp, Name, NextName, Var};
use crate::patterns::ArgPattern;
use crate::types::{ArgType, BType, TypeExpr};
use gh_base::{ListOf, Span};

/// An export list.
#[derive(Drop)]
pub struct Exports {
    /// Its bytes.
    pub span: Span,
    /// `(`
    pub open: Span,
    /// The exports, where there are any.
    pub list: Option<ExportList>,
    /// A comma before the `)`.
    pub comma: Option<Span>,
    /// `)`
    pub close: Span,
}

/// Exports, of which there is one at least.
#[derive(Drop)]
pub struct ExportList {
    /// The first.
    pub first: Export,
    /// The others.
    pub others: ListOf<NextExport>,
}

/// A comma, and an export.
#[derive(Drop)]
pub struct NextExport {
    /// The comma.
    pub mark: Span,
    /// The export.
    pub export: Export,
}

/// An export.
#[derive(Drop)]
pub enum Export {
    /// A variable.
    Var(Var),
    /// A type, with its constructors where they are listed.
    Con(Span, Name, Option<Parts>),
    /// `module` and a module's name.
    Module(Span, Span, Name),
}

/// The constructors of a type in an export or import.
#[derive(Drop)]
pub enum Parts {
    /// `(..)`, by its span and its three marks.
    All(Span, Span, Span, Span),
    /// `()`, by its span and its two marks: the type alone.
    Empty(Span, Span, Span),
    /// A list of one constructor at least.
    Listed(Span, Span, Con, ListOf<NextCon>, Span),
}

/// A comma, and a constructor.
#[derive(Drop)]
pub struct NextCon {
    /// The comma.
    pub mark: Span,
    /// The constructor.
    pub con: Con,
}

/// An import.
#[derive(Drop)]
pub struct Import {
    /// Its bytes.
    pub span: Span,
    /// `import`
    pub mark: Span,
    /// `qualified`, where it is written.
    pub qualified: Option<Span>,
    /// The module.
    pub name: Name,
    /// The name that the module has here.
    pub alias: Option<Alias>,
    /// What is imported or hidden.
    pub list: Option<ImportList>,
}

/// `as` and a module's name.
#[derive(Drop)]
pub struct Alias {
    /// `as`
    pub mark: Span,
    /// The name.
    pub name: Name,
}

/// What is imported, or hidden.
#[derive(Drop)]
pub struct ImportList {
    /// `hiding`, where it is written.
    pub hiding: Option<Span>,
    /// `(`
    pub open: Span,
    /// The entities, where there are any.
    pub list: Option<Entities>,
    /// A comma before the `)`.
    pub comma: Option<Span>,
    /// `)`
    pub close: Span,
}

/// Entities, of which there is one at least.
#[derive(Drop)]
pub struct Entities {
    /// The first.
    pub first: Entity,
    /// The others.
    pub others: ListOf<NextEntity>,
}

/// A comma, and an entity.
#[derive(Drop)]
pub struct NextEntity {
    /// The comma.
    pub mark: Span,
    /// The entity.
    pub entity: Entity,
}

/// What an import names.
#[derive(Drop)]
pub enum Entity {
    /// A variable.
    Var(Var),
    /// A type, with its constructors where they are listed.
    Con(Span, Name, Option<Parts>),
}

/// A declaration of the top.
#[derive(Drop)]
pub enum Top {
    /// `type`, a name, parameters, `=` and a type.
    Synonym(Span, Span, Name, ListOf<Name>, Span, TypeExpr),
    /// `data`, a name, parameters, `=` and constructors, of which there is one at least.
    Data(Span, Span, Name, ListOf<Name>, Span, Constr, ListOf<NextConstr>),
    /// `newtype`, a name, parameters, `=`, a constructor and its field.
    Newtype(Span, Span, Name, ListOf<Name>, Span, Con, ArgType),
    /// The signature of a generic function: its variables, `::`, its dependencies and its type.
    Signature(Span, Var, GenVars, Span, Option<Context>, TypeExpr),
    /// A case of a generic function: the type in `{|` and `|}`, arguments and a right side.
    Case(Span, Var, Span, TypeExpr, Span, ListOf<ArgPattern>, Rhs),
    /// A generic function that extends another.
    Extends(Span, Var, Span, Var),
    /// A declaration.
    Decl(Decl),
}

/// The variables of a generic function: those that are generic, and those that are not.
#[derive(Drop)]
pub struct GenVars {
    /// Its bytes.
    pub span: Span,
    /// `{|`
    pub open: Span,
    /// The first generic variable.
    pub first: Name,
    /// The other generic ones.
    pub others: ListOf<NextName>,
    /// Those that are not generic.
    pub rest: Option<OtherVars>,
    /// `|}`
    pub close: Span,
}

/// `|` and variables, of which there is one at least.
#[derive(Drop)]
pub struct OtherVars {
    /// `|`
    pub mark: Span,
    /// The first variable.
    pub first: Name,
    /// The others.
    pub others: ListOf<NextName>,
}

/// Dependencies and `=>`.
#[derive(Drop)]
pub struct Context {
    /// The dependencies.
    pub deps: Deps,
    /// `=>`
    pub mark: Span,
}

/// Dependencies between parentheses.
#[derive(Drop)]
pub struct Deps {
    /// Its bytes.
    pub span: Span,
    /// `(`
    pub open: Span,
    /// The first dependency, where there is one.
    pub first: Option<Dep>,
    /// The others.
    pub others: ListOf<NextDep>,
    /// `)`
    pub close: Span,
}

/// A dependency: a generic function and its variables.
#[derive(Drop)]
pub struct Dep {
    /// Its bytes.
    pub span: Span,
    /// The function.
    pub function: Var,
    /// The variables.
    pub vars: GenVars,
}

/// A comma, and a dependency.
#[derive(Drop)]
pub struct NextDep {
    /// The comma.
    pub mark: Span,
    /// The dependency.
    pub dep: Dep,
}

/// A constructor of a datatype.
#[derive(Drop)]
pub enum Constr {
    /// A constructor and its fields.
    Prefix(Span, Con, ListOf<ArgType>),
    /// A constructor operator between its two fields.
    Infix(Span, BType, ConOp, BType),
}

/// `|` and a constructor.
#[derive(Drop)]
pub struct NextConstr {
    /// `|`
    pub mark: Span,
    /// The constructor.
    pub constr: Constr,
}
