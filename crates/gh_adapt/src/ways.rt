// The two directions of a pair of conversions.

/// From a pair's left type to its right one, or back.
#[derive(Clone, Copy)]
pub enum Way {
    /// From left to right.
    Forth,
    /// From right to left.
    Back,
}
