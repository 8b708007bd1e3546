// Kinding rules.

/// A rule on the kinds of unknowns, which go by number.
#[derive(Clone, Copy, Debug, PartialEq, Eq)]
pub enum Rule {
    /// The unknown has the kind `*`.
    Star(u32),
    /// Two unknowns have the same kind.
    Same(u32, u32),
    /// The first unknown is applied to the second, which gives the third: its kind is the arrow from the second's kind
    /// to the third's (Haskell 98 Report, 4.6).
    Applies(u32, u32, u32),
}
