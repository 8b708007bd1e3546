// Operator lists of a program, part by part.
ghost use Rattle.std.specs.Prelude.{◌≡◌, map, IfOk};
ghost use Rattle.gh_fixity.specs.Fixities.{colon_fixity, declared_or_default, fixity_of};
ghost use Rattle.gh_fixity.specs.Scopes.{item_of as local_of};
ghost use Rattle.gh_fixity.specs.Parts.{part_sign, item_of, sign_name, sign_span, name_at, span_at, clash_at};

use crate::binders::Binders;
use crate::item::{Fixity, Item, Side};
use crate::tops::Tops;
use gh_base::fixed::{COLON, MINUS};
use gh_base::{ListOf, NameId, NoMemory, Span};
use gh_program::{Occurrence, Operand, PatOperand, Referent};
use sqlite_items::Boxed;
use std::alloc::Global;

/// One part of a list of operands or of patterns.
#[derive(Drop)]
pub enum Part {
    // An operand of an expression.
    Operand(Boxed<Operand>),
    // An operand of a pattern.
    Pattern(Boxed<PatOperand>),
    // A prefix minus, by its bytes.
    Minus(Span),
    // An operator.
    Op(Occurrence),
}

/// What a part is for the arrangement of its list.
#[derive(Clone, Copy, Debug, PartialEq, Eq)]
pub enum Sign {
    // An operand, or the one that a section lacks.
    Leaf,
    // A prefix minus, by its bytes.
    Minus(Span),
    // An operator.
    Op(Occurrence),
}

/// Two operators that clash, or of which the first is a root in place of the second, which has this span.
#[derive(Clone, Copy, Debug, PartialEq, Eq)]
pub struct Clash {
    pub span: Span,
    pub left: NameId,
    pub right: NameId,
}

const START: Span = Span {
    file: 0,
    from: 0,
    to: 0,
};

fn or_default(fixity: Option<Fixity>) -> Fixity
    ensures { result ≡ declared_or_default fixity }
{
    match fixity {
        Some(fixity) => fixity,
        None => Fixity {
            side: Side::Left,
            level: 9,
        },
    }
}

fn colon() -> Fixity
    ensures { result ≡ colon_fixity }
{
    Fixity {
        side: Side::Right,
        level: 5,
    }
}

fn local_fixity(locals: &Binders<Fixity>, number: u32) -> Option<Fixity>
    ensures { result ≡ local_of locals.now number }
{
    locals.of(number).copied()
}

/// The fixity of an operator.
pub fn fixity(tops: &Tops, locals: &Binders<Fixity>, op: Occurrence) -> Fixity
    ensures { result ≡ fixity_of tops.now locals.now op }
{
    if op.name.0 == COLON.0 {
        return colon();
    }
    match op.referent {
        Referent::Top(origin) => or_default(tops.of(origin)),
        Referent::Local(number) => or_default(local_fixity(locals, number)),
    }
}

fn sign_for(part: &Part) -> Sign
    ensures { result ≡ part_sign part.now }
{
    match part {
        Part::Operand(_) => Sign::Leaf,
        Part::Pattern(_) => Sign::Leaf,
        Part::Minus(span) => Sign::Minus(*span),
        Part::Op(op) => Sign::Op(*op),
    }
}

/// What the parts are for the arrangement of their list.
pub fn signs(alloc: Global, parts: &[Part]) -> Result<ListOf<Sign>, NoMemory>
    ensures { IfOk result (λ signs. signs ≡ map part_sign parts.now) }
{
    let mut signs = ListOf::new(alloc);
    for part in parts {
        signs.push(sign_for(part))?;
    }
    Ok(signs)
}

fn item(tops: &Tops, locals: &Binders<Fixity>, sign: Sign) -> Item
    ensures { result ≡ item_of tops.now locals.now sign }
{
    match sign {
        Sign::Leaf => Item::Leaf(0),
        Sign::Minus(span) => Item::Minus(span),
        Sign::Op(op) => Item::Op(fixity(tops, locals, op), op.span),
    }
}

/// The list as `arrange` takes it.
pub fn items(
    alloc: Global,
    tops: &Tops,
    locals: &Binders<Fixity>,
    signs: &[Sign],
) -> Result<ListOf<Item>, NoMemory>
    ensures { IfOk result (λ items. items ≡ map (item_of tops.now locals.now) signs.now) }
{
    let mut items = ListOf::new(alloc);
    for sign in signs {
        items.push(item(tops, locals, *sign))?;
    }
    Ok(items)
}

fn name(sign: Sign) -> NameId
    ensures { result ≡ sign_name sign }
{
    match sign {
        Sign::Op(op) => op.name,
        Sign::Minus(_) => MINUS,
        Sign::Leaf => MINUS,
    }
}

fn span(sign: Sign) -> Span
    ensures { result ≡ sign_span sign }
{
    match sign {
        Sign::Op(op) => op.span,
        Sign::Minus(span) => span,
        Sign::Leaf => START,
    }
}

fn name_there(signs: &[Sign], place: u32) -> NameId
    ensures { result ≡ name_at signs.now place }
{
    match signs.get(place as usize) {
        Some(sign) => name(*sign),
        None => MINUS,
    }
}

fn span_there(signs: &[Sign], place: u32) -> Span
    ensures { result ≡ span_at signs.now place }
{
    match signs.get(place as usize) {
        Some(sign) => span(*sign),
        None => START,
    }
}

/// What clashes at these two places.
pub fn clash_there(signs: &[Sign], left: u32, right: u32) -> Clash
    ensures { result ≡ clash_at signs.now left right }
{
    Clash {
        span: span_there(signs, right),
        left: name_there(signs, left),
        right: name_there(signs, right),
    }
}
