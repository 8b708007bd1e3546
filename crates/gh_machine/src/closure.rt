// What the machine keeps.
use crate::primitive::{Binary, Literal, Unary};
use gh_base::{Origin, Span};
use gh_core::ErasedTerm;

/// A term that is not evaluated yet. An environment is a number: 0 is empty, and `e` is what stands up to cell `e - 1`.
#[derive(Clone, Copy)]
pub enum Closure<'a> {
    /// A term in an environment. In a cell, a `letrec` stands for all its names.
    Term(u32, &'a ErasedTerm),
    /// What stands under the constructor of a newtype in the scrutinee of this case, in an environment.
    Contents(u32, &'a ErasedTerm),
    /// A string from this character on.
    Rest(u32, &'a ErasedTerm),
    /// A character of a string.
    Letter(u32, &'a ErasedTerm),
    /// The decimal text of an integer from this character on.
    Digits(u32, i64),
    /// A character of the decimal text of an integer.
    Digit(u32, i64),
}

/// A name over an environment, or all names of a `letrec` over its own.
#[derive(Clone, Copy)]
pub struct Cell<'a> {
    pub value: Closure<'a>,
    pub name: u32,
    /// The environment below; `GROUP` for the names of a `letrec`, whose environment is the value's.
    pub parent: u32,
}

// What a cell takes in memory, in bytes.
const CELL_SIZE: usize = size_of::<Cell<'static>>();

const _: () = prove!(CELL_SIZE == 24);

/// No environment.
pub const GROUP: u32 = u32::MAX;

/// The term that is demanded.
#[derive(Clone, Copy)]
pub enum Demand<'a> {
    At(Closure<'a>),
    /// A binding of a `letrec` by its place from 0, in its bindings, in an environment.
    Binding(u32, usize, &'a ErasedTerm),
    /// An answer of a primitive.
    Value(Literal),
    Con(Origin),
}

/// What waits for the term that is demanded.
#[derive(Clone, Copy)]
pub enum Frame<'a> {
    /// It is applied to this.
    Arg(Closure<'a>),
    /// One of this case's alternatives goes on, in an environment.
    OfCase(u32, &'a ErasedTerm),
    /// What stands under this constructor of a newtype goes on.
    Under(Origin),
    /// It is the operand of a primitive.
    Only(Unary, Span),
    /// It is the first operand, and this the second.
    First(Binary, Span, Closure<'a>),
    /// It is the second operand, and this the first.
    Second(Binary, Span, Literal),
    /// It is a character to print, and these come after it.
    Printing(Closure<'a>),
}
