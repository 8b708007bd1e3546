// Operator lists, and the trees that arrange them.
use gh_base::Span;
use sqlite_items::Boxed;

/// The side to which an operator associates.
#[derive(Clone, Copy, Debug, PartialEq, Eq)]
pub enum Side {
    /// `infixl`.
    Left,
    /// `infixr`.
    Right,
    /// `infix`.
    Neither,
}

/// The fixity of an operator: its side, and its level from 0 to 9. A higher level binds tighter.
#[derive(Clone, Copy, Debug, PartialEq, Eq)]
pub struct Fixity {
    pub side: Side,
    pub level: u8,
}

/// One part of an operator list.
#[derive(Clone, Copy, Debug, PartialEq, Eq)]
pub enum Item {
    /// An operand, by a number of the caller's.
    Leaf(u32),
    /// A prefix minus, with its bytes.
    Minus(Span),
    /// An operator between two operands, with its bytes.
    Op(Fixity, Span),
}

/// A tree over an operator list. Its numbers are places in the list, from 0.
#[derive(Debug, Drop)]
pub enum Arranged {
    /// The operand at a place.
    Leaf(u32),
    /// A prefix minus over its operand. It stands directly before the operand's first item.
    Minus(Boxed<Arranged>),
    /// The operator at a place, with its left and its right operand.
    Pair(u32, Boxed<Arranged>, Boxed<Arranged>),
}

/// Why a list was not arranged.
#[derive(Clone, Copy, Debug, PartialEq, Eq)]
pub enum ArrangeFault {
    /// No tree arranges the list. Both numbers are places in it, from 0.
    Clash { left: u32, right: u32 },
    /// A request for memory was not met.
    NoMemory,
}
