// How many bytes of the stack one level of each form may use: the readers from one expression or block to the next inside
// it, the measure of its depth, and its dropping. They are what was measured of the compiled program, rounded up.

/// Behind `(`, to `)`.
pub const PARENTHESES: u32 = 3000;
/// Behind `[`.
pub const LIST: u32 = 3000;
/// Behind a comma.
pub const PART: u32 = 3780;
/// Behind `(` and an operator.
pub const SECTION: u32 = 3000;
/// Behind the patterns of a lambda.
pub const LAMBDA: u32 = 2200;
/// The body of a `let`.
pub const LET_BODY: u32 = 2200;
/// A redefinition.
pub const REDEFINITION: u32 = 3100;
/// The parts of a conditional.
pub const CONDITIONAL: u32 = 2300;
/// What a `case` looks at.
pub const SCRUTINEE: u32 = 2200;
/// The expression of an alternative.
pub const ALTERNATIVE: u32 = 3300;
/// The condition of an alternative, and the expression behind it.
pub const ALTERNATIVE_GUARD: u32 = 3750;
/// The right side of a declaration.
pub const BINDING: u32 = 3700;
/// The condition of a declaration, and the expression behind it.
pub const GUARD: u32 = 3790;
/// Behind `where`.
pub const LOCALS: u32 = 3000;
/// An operand behind an operator, besides what nests in it.
pub const OPERAND: u32 = 700;
