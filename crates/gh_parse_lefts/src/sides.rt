// What a left side is, while and after it is read.
ghost use Rattle.std.specs.Prelude.{◌≡◌, Some};
ghost use Rattle.gh_parse_lefts.specs.Lefts as spec;
ghost use Rattle.gh_parse_lefts.specs.Wholes.{Gives};

use gh_base::{ListOf, Span};
use gh_reader::Stop;
use gh_tree::{ArgPattern, FunLhs, PatOperand, Pattern, Var};
use sqlite_items::Boxed;
use std::alloc::Global;

/// The left side of a declaration that has a right side (Haskell 98 Report, 4.4.3).
#[derive(Drop)]
pub enum Left {
    /// That of a function's clause, or of the binding of one variable.
    Function(FunLhs),
    /// A pattern that is more than a variable.
    Pattern(Pattern),
}

/// A left side as it was read. One variable stands for a pattern as well as for a function without arguments.
#[derive(Drop)]
pub enum Side {
    /// One variable and no more, with its bytes.
    Alone(Span, Var),
    /// A function's left side that is more than a variable.
    Function(Boxed<FunLhs>),
    /// A pattern that is more than a variable.
    Pattern(Boxed<Pattern>),
}

/// What stands at the front of a left side.
#[derive(Drop)]
pub enum Front {
    /// A function's left side with its arguments, which ends there.
    Ended(Boxed<FunLhs>),
    /// One variable.
    Alone(Var),
    /// An operand of a pattern that is more than a variable.
    Operand(PatOperand),
}

/// One variable as an operand of a pattern.
pub fn var_operand(alloc: Global, name: Var) -> Result<PatOperand, Stop>
    ensures { Gives (Some (spec.var_operand name)) result }
{
    Ok(PatOperand::Arg(Boxed::new(alloc, ArgPattern::Var(name))?))
}

// One variable as a pattern.
fn var_pattern(alloc: Global, span: Span, name: Var) -> Result<Boxed<Pattern>, Stop>
    ensures { Gives (Some (spec.var_pattern span name)) result }
{
    let first = var_operand(alloc, name)?;
    let others = ListOf::new(alloc);
    Ok(Boxed::new(
        alloc,
        Pattern {
            span,
            first,
            others,
        },
    )?)
}

// One variable as a function's left side, which has no arguments.
fn var_lhs(alloc: Global, span: Span, name: Var) -> Result<Boxed<FunLhs>, Stop>
    ensures { Gives (Some (spec.var_lhs span name)) result }
{
    let args = ListOf::new(alloc);
    Ok(Boxed::new(alloc, FunLhs::Prefix(span, name, args))?)
}

/// The pattern that a left side stands for, where there is one.
pub fn pattern_of(alloc: Global, side: Side) -> Result<Boxed<Pattern>, Stop>
    ensures { Gives (spec.pattern_of side) result }
{
    match side {
        Side::Alone(span, name) => var_pattern(alloc, span, name),
        Side::Function(_) => Err(Stop::NoParse),
        Side::Pattern(pattern) => Ok(pattern),
    }
}

/// The function's left side that a left side stands for, where there is one.
pub fn function_of(alloc: Global, side: Side) -> Result<Boxed<FunLhs>, Stop>
    ensures { Gives (spec.function_of side) result }
{
    match side {
        Side::Alone(span, name) => var_lhs(alloc, span, name),
        Side::Function(lhs) => Ok(lhs),
        Side::Pattern(_) => Err(Stop::NoParse),
    }
}

/// The left side of a declaration that a left side stands for.
pub fn left_of(alloc: Global, side: Side) -> Result<Left, Stop>
    ensures { Gives (Some (spec.left_of side)) result }
{
    match side {
        Side::Alone(span, name) => {
            let lhs = FunLhs::Prefix(span, name, ListOf::new(alloc));
            Ok(Left::Function(lhs))
        }
        Side::Function(lhs) => Ok(Left::Function(lhs.into_inner())),
        Side::Pattern(pattern) => Ok(Left::Pattern(pattern.into_inner())),
    }
}
