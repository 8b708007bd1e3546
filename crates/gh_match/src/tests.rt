// What is done for each node of a pattern, in the order in which the nodes are met.
ghost use Rattle.std.specs.Prelude.{◌≡◌, ◌+◌, ◌++◌, ◌∷◌, [], IfOk};
ghost use Rattle.gh_kernel.specs.Reading.{pattern_of, patterns_of};
ghost use Rattle.gh_match.specs.Compiled.{gain, gains, numbers, tests_pat, tests_pats, literal_test, width};

use crate::terms::{next, sum};
use gh_base::{ListOf, NoMemory, Origin};
use gh_kernel::{Lit, Note, Pattern, PatternNode};
use gh_typeterm::Ty;
use std::alloc::Global;

/// What is done for a node of a pattern. Each has last the number of the variable that stands for what the node meets.
#[derive(Drop)]
pub enum Test {
    /// The pattern's variable is bound, at this type.
    Bind(u32, Ty, u32),
    /// It must be this constructor, whose fields get these numbers.
    Built(Origin, ListOf<u32>, u32),
    /// It must be this integer.
    Integer(i64, u32),
    /// It must be this character.
    Character(char, u32),
    /// Nothing matches: the literal is a string, which no program's pattern is.
    Never,
}

/// Adds what is done for the nodes of a pattern that meets the variable `subject`; the variables from `free` on are free. The
/// answer is the first that is free afterwards.
#[cycle(flatten)]
pub fn add_pattern(
    alloc: Global,
    tests: &mut ListOf<Test>,
    pattern: &Pattern<Note>,
    subject: u32,
    free: u32,
) -> Result<u32, NoMemory>
    ensures { IfOk result (λ after. (tests.new ≡ tests.old ++ tests_pat (pattern_of pattern.now) subject free) × (after ≡ free + gain (pattern_of pattern.now))) }
{
    match &pattern.node {
        PatternNode::PVar(x) => {
            add_binding(tests, *x, &pattern.note, subject)?;
            Ok(free)
        }
        PatternNode::PWild => Ok(free),
        PatternNode::PCon(con, parts) => {
            add_constructor(alloc, tests, *con, parts.as_slice(), subject, free)
        }
        PatternNode::PLit(lit) => {
            tests.push(literal_test(lit, subject))?;
            Ok(free)
        }
        PatternNode::PAs(x, inner) => {
            add_binding(tests, *x, &pattern.note, subject)?;
            add_pattern(alloc, tests, inner.get(), subject, free)
        }
    }
}

// The same for a constructor with a pattern for each field.
#[cycle(flatten)]
fn add_constructor(
    alloc: Global,
    tests: &mut ListOf<Test>,
    con: Origin,
    parts: &[Pattern<Note>],
    subject: u32,
    free: u32,
) -> Result<u32, NoMemory>
    ensures { IfOk result (λ after. (tests.new ≡ tests.old ++ Test.Built con (numbers free (width (patterns_of parts.now))) subject ∷ tests_pats (patterns_of parts.now) free (free + width (patterns_of parts.now))) × (after ≡ free + (width (patterns_of parts.now) + gains (patterns_of parts.now)))) }
{
    let after = sum(free, parts.len())?;
    let names = numbers(alloc, free, parts.len())?;
    tests.push(Test::Built(con, names, subject))?;
    add_patterns(alloc, tests, parts, free, after)
}

/// The same for patterns that meet the variables from `subject` on.
#[cycle(flatten)]
pub fn add_patterns(
    alloc: Global,
    tests: &mut ListOf<Test>,
    patterns: &[Pattern<Note>],
    subject: u32,
    free: u32,
) -> Result<u32, NoMemory>
    ensures { IfOk result (λ after. (tests.new ≡ tests.old ++ tests_pats (patterns_of patterns.now) subject free) × (after ≡ free + gains (patterns_of patterns.now))) }
{
    let mut at = subject;
    let mut after = free;
    for pattern in patterns {
        after = add_pattern(alloc, tests, pattern, at, after)?;
        at = next(at)?;
    }
    Ok(after)
}

fn add_binding(tests: &mut ListOf<Test>, x: u32, note: &Note, subject: u32) -> Result<(), NoMemory>
    ensures { IfOk result (λ _. tests.new ≡ tests.old ++ Test.Bind x note.now.ty subject ∷ []) }
{
    let ty = note.ty.share()?;
    tests.push(Test::Bind(x, ty, subject))
}

fn literal_test(lit: &Lit, subject: u32) -> Test
    ensures { result ≡ literal_test lit.now subject }
{
    match lit {
        Lit::Int(number) => Test::Integer(*number, subject),
        Lit::Char(char) => Test::Character(*char, subject),
        Lit::Str(_) => Test::Never,
    }
}

// So many numbers from this one on.
fn numbers(alloc: Global, from: u32, count: usize) -> Result<ListOf<u32>, NoMemory>
    ensures { IfOk result (λ made. made ≡ numbers from count) }
{
    let mut made = ListOf::new(alloc);
    for at in 0..count {
        made.push(sum(from, at)?)?;
    }
    Ok(made)
}
