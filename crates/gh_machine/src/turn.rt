// How a run stands.
use gh_base::Span;

/// Why a run fails.
#[derive(Clone, Copy, Debug, PartialEq, Eq)]
pub enum StopCause {
    /// `error` was called.
    ErrorCalled,
    /// No row of a match was left.
    NoMatch,
    /// A quotient or remainder by zero.
    DivideByZero,
    /// A number is no character's.
    NoCharacter,
}

/// A failure, and the place of the primitive or match that failed.
#[derive(Clone, Copy, Debug, PartialEq, Eq)]
pub struct Stop {
    /// Why it failed.
    pub cause: StopCause,
    /// Where, in bytes of a file.
    pub span: Span,
}

/// How a run stands.
#[derive(Clone, Copy, Debug, PartialEq, Eq)]
pub enum Turn {
    /// It goes on.
    Running,
    /// The whole list was printed.
    Ended,
    /// It failed.
    Failed(Stop),
}
