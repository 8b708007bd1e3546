// Terms.
use crate::names::{Lit, VarName};
use crate::patterns::Pattern;
use crate::signatures::Signed;
use gh_base::{ListOf, NameId, Origin, Span};
use gh_typeterm::Ty;
use sqlite_items::Boxed;

/// A term of the kernel language, each node with its note.
#[cycle(term)]
#[derive(Drop)]
pub struct Term<A> {
    /// What the term is.
    pub node: TermNode<A>,
    /// What is noted of it.
    pub note: A,
}

/// A term without its note. The kernel is what the Haskell 98 Report's translations (3 and 4.4.3) leave of expressions
/// and bindings, with generic calls and local redefinitions (Löh, Exploring Generic Haskell).
#[cycle(term)]
#[derive(Drop)]
pub enum TermNode<A> {
    /// A variable.
    Var(VarName),
    /// A constructor.
    Con(Origin),
    /// A literal.
    Lit(Lit),
    /// A function of one variable, by its number.
    Lam(u32, Boxed<Term<A>>),
    /// A function with its argument.
    App(Boxed<Term<A>>, Boxed<Term<A>>),
    /// Groups of bindings, each after those that it refers to, and the term in which they stand. All the groups are one
    /// recursive scope.
    Let(ListOf<ListOf<LocalBinding<A>>>, Boxed<Term<A>>),
    /// A case over any number of terms: the first row that matches them all goes on.
    Case(ListOf<Term<A>>, ListOf<Row<A>>),
    /// A generic function at a type.
    Call(Origin, Ty),
    /// A local redefinition: the number and the name of its type name; each function with the bytes of its
    /// redefinition and its term at that name; and the term in which they hold.
    Redef(u32, NameId, ListOf<(Origin, Span, Term<A>)>, Boxed<Term<A>>),
    /// A term with its type annotation.
    Ann(Boxed<Term<A>>, Signed),
}

/// A row of a case. It matches where each pattern matches the term at its place, from left to right. Then its groups of
/// bindings are entered, and the first body whose guard holds goes on; where none holds, the next row is tried.
#[cycle(term)]
#[derive(Drop)]
pub struct Row<A> {
    /// A pattern for each term of the case.
    pub patterns: ListOf<Pattern<A>>,
    /// The groups of the row's `where`, one recursive scope.
    pub groups: ListOf<ListOf<LocalBinding<A>>>,
    /// Each guard, where there is one, with its body.
    pub bodies: ListOf<(Option<Term<A>>, Term<A>)>,
}

/// A binding of a local variable.
#[cycle(term)]
#[derive(Drop)]
pub struct LocalBinding<A> {
    /// The variable's number.
    pub name: u32,
    /// Its type signature, where there is one.
    pub signature: Option<Signed>,
    /// What it is bound to.
    pub term: Term<A>,
    /// What is noted of the binding.
    pub note: A,
}
