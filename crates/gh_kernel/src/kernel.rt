// Programs of the kernel language.
use crate::functions::{Extension, GenFun};
use crate::names::{Head, TopName};
use crate::signatures::Signed;
use crate::terms::Term;
use gh_base::{ListOf, NameId, Origin, Span};

/// A program in the kernel language, each node with its note.
#[derive(Drop)]
pub struct Kernel<A> {
    /// The numbers of the files in link order: each after those that it imports, the Prelude first.
    pub order: ListOf<u32>,
    /// The plain binding that Main exports as `main`, where there is one.
    pub main: Option<Origin>,
    /// The plain bindings of the top level in groups, each after those that it refers to, module by module in link
    /// order.
    pub groups: ListOf<ListOf<Binding<A>>>,
    /// The generic functions, each with its own cases alone.
    pub functions: ListOf<GenFun>,
    /// The cases of the generic functions, in link order and by place.
    pub cases: ListOf<CaseBody<A>>,
    /// The default cases that functions take from one another.
    pub extensions: ListOf<Extension>,
}

/// A plain binding of the top level.
#[derive(Drop)]
pub struct Binding<A> {
    /// Its name.
    pub name: TopName,
    /// Its type signature, where there is one.
    pub signature: Option<Signed>,
    /// What it is bound to.
    pub term: Term<A>,
    /// What is noted of the binding.
    pub note: A,
}

/// A case of a generic function.
#[derive(Drop)]
pub struct CaseBody<A> {
    /// The function.
    pub function: Origin,
    /// The type constructor that the case is for.
    pub head: Head,
    /// The parameters of the head, as written. In the term the parameter at place `i`, from 0, is the type name `i`.
    pub names: ListOf<NameId>,
    /// What the function is there. In a typing its rigid variables are 0 and up: at each parameter in order one for each
    /// generic variable, and then one for each non-generic variable.
    pub term: Term<A>,
    /// The bytes of the case.
    pub span: Span,
}
