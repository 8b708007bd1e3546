// The primitives.
ghost use Rattle.std.specs.Prelude.{◌≡◌, option_map, map};
ghost use Rattle.gh_core.specs.Primitives as p;
ghost use Rattle.gh_machine.specs.Values.{literal_of, unary_of, binary_of, primitive_of, entry_of, outcome_of};

use crate::turn::StopCause;
use gh_base::fixed::{
    CHR, EQ_CHAR, EQUAL, ERROR, FALSE, LESS, MINUS, ORD, PLUS, PRELUDE, QUOT, REM, SHOW_INT, TIMES,
    TRUE,
};
use gh_base::{NameId, Origin, Space};

/// An integer or a character.
#[derive(Clone, Copy, PartialEq, Eq)]
pub enum Literal {
    Int(i64),
    Char(char),
}

/// The primitives of one operand.
#[derive(Clone, Copy)]
pub enum Unary {
    Ord,
    Chr,
    ShowInt,
}

/// The primitives of two operands.
#[derive(Clone, Copy)]
pub enum Binary {
    Plus,
    Minus,
    Times,
    Quot,
    Rem,
    Equal,
    Less,
    EqChar,
}

/// The primitives of the Prelude, by their number of operands.
#[derive(Clone, Copy)]
pub enum Primitive {
    Error,
    Unary(Unary),
    Binary(Binary),
}

/// What a primitive makes of its operands.
#[derive(Clone, Copy)]
pub enum Outcome {
    Value(Literal),
    Con(Origin),
    Digits(i64),
    Fails(StopCause),
    Nothing,
}

/// The value of this name in the module Prelude.
pub fn prelude_value(name: NameId) -> Origin
    ensures { result ≡ p.prelude_value name }
{
    Origin {
        module: PRELUDE,
        space: Space::Values,
        name,
    }
}

/// The primitive that an origin stands for, if it stands for one.
pub fn primitive_named(origin: Origin) -> Option<Primitive>
    ensures { option_map primitive_of result ≡ p.named p.primitives origin }
{
    let table = [
        (PLUS, Primitive::Binary(Binary::Plus)),
        (MINUS, Primitive::Binary(Binary::Minus)),
        (TIMES, Primitive::Binary(Binary::Times)),
        (QUOT, Primitive::Binary(Binary::Quot)),
        (REM, Primitive::Binary(Binary::Rem)),
        (EQUAL, Primitive::Binary(Binary::Equal)),
        (LESS, Primitive::Binary(Binary::Less)),
        (EQ_CHAR, Primitive::Binary(Binary::EqChar)),
        (ORD, Primitive::Unary(Unary::Ord)),
        (CHR, Primitive::Unary(Unary::Chr)),
        (SHOW_INT, Primitive::Unary(Unary::ShowInt)),
        (ERROR, Primitive::Error),
    ];
    first_named(&table, origin)
}

// The first primitive of this name in a table.
fn first_named(table: &[(NameId, Primitive)], origin: Origin) -> Option<Primitive>
    ensures { option_map primitive_of result ≡ p.named (map entry_of table.now) origin }
{
    for (name, primitive) in table {
        if prelude_value(*name) == origin {
            return Some(*primitive);
        }
    }
    None
}

fn truth(holds: bool) -> Outcome
    ensures { outcome_of result ≡ p.truth holds }
{
    Outcome::Con(prelude_value(if holds { TRUE } else { FALSE }))
}

fn number(n: i64) -> Outcome
    ensures { outcome_of result ≡ p.number n }
{
    Outcome::Value(Literal::Int(n))
}

fn character(n: i64) -> Outcome
    ensures { outcome_of result ≡ p.character n }
{
    if n < 0 || n > 1_114_111 {
        return Outcome::Fails(StopCause::NoCharacter);
    }
    match char::from_u32(n as u32) {
        Some(c) => Outcome::Value(Literal::Char(c)),
        None => Outcome::Fails(StopCause::NoCharacter),
    }
}

/// What a primitive answers for its operand, or why it fails.
pub fn unary_outcome(primitive: Unary, operand: Literal) -> Outcome
    ensures { outcome_of result ≡ p.unary_outcome (unary_of primitive) (literal_of operand) }
{
    match (primitive, operand) {
        (Unary::Ord, Literal::Char(c)) => number(c as i64),
        (Unary::Ord, Literal::Int(_)) => Outcome::Nothing,
        (Unary::Chr, Literal::Int(n)) => character(n),
        (Unary::Chr, Literal::Char(_)) => Outcome::Nothing,
        (Unary::ShowInt, Literal::Int(n)) => Outcome::Digits(n),
        (Unary::ShowInt, Literal::Char(_)) => Outcome::Nothing,
    }
}

fn quotient(m: i64, n: i64) -> Outcome
    ensures { outcome_of result ≡ p.on_integers p.quot m n }
{
    if n == 0 {
        return Outcome::Fails(StopCause::DivideByZero);
    }
    number(m.wrapping_div(n))
}

fn remainder(m: i64, n: i64) -> Outcome
    ensures { outcome_of result ≡ p.on_integers p.rem m n }
{
    if n == 0 {
        return Outcome::Fails(StopCause::DivideByZero);
    }
    number(m.wrapping_rem(n))
}

fn on_integers(primitive: Binary, m: i64, n: i64) -> Outcome
    ensures { outcome_of result ≡ p.on_integers (binary_of primitive) m n }
{
    match primitive {
        Binary::Plus => number(m.wrapping_add(n)),
        Binary::Minus => number(m.wrapping_sub(n)),
        Binary::Times => number(m.wrapping_mul(n)),
        Binary::Quot => quotient(m, n),
        Binary::Rem => remainder(m, n),
        Binary::Equal => truth(m == n),
        Binary::Less => truth(m < n),
        Binary::EqChar => Outcome::Nothing,
    }
}

fn on_characters(primitive: Binary, c: char, d: char) -> Outcome
    ensures { outcome_of result ≡ p.on_characters (binary_of primitive) c d }
{
    match primitive {
        Binary::EqChar => truth(c == d),
        Binary::Plus => Outcome::Nothing,
        Binary::Minus => Outcome::Nothing,
        Binary::Times => Outcome::Nothing,
        Binary::Quot => Outcome::Nothing,
        Binary::Rem => Outcome::Nothing,
        Binary::Equal => Outcome::Nothing,
        Binary::Less => Outcome::Nothing,
    }
}

/// What a primitive answers for its operands, or why it fails.
pub fn binary_outcome(primitive: Binary, first: Literal, second: Literal) -> Outcome
    ensures { outcome_of result ≡ p.binary_outcome (binary_of primitive) (literal_of first) (literal_of second) }
{
    match (first, second) {
        (Literal::Int(m), Literal::Int(n)) => on_integers(primitive, m, n),
        (Literal::Char(c), Literal::Char(d)) => on_characters(primitive, c, d),
        (Literal::Int(_), Literal::Char(_)) => Outcome::Nothing,
        (Literal::Char(_), Literal::Int(_)) => Outcome::Nothing,
    }
}
