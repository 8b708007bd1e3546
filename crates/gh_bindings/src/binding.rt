// Bindings of names to joined operands.
use gh_base::{ListOf, NameId, Span};

/// What is joined by `++`.
#[derive(Drop)]
pub enum Operand {
    /// A variable's name, and the bytes where it stands.
    Name(NameId, Span),
    /// A string, by its characters.
    Text(ListOf<char>),
}

/// A binding `name = operand ++ operand ..`.
#[derive(Drop)]
pub struct Binding {
    /// The name that is bound.
    pub name: NameId,
    /// The bytes of the whole binding, from its name to the end of its last operand.
    pub span: Span,
    /// The operands, in order. No operand at all stands for the empty string.
    pub operands: ListOf<Operand>,
}
