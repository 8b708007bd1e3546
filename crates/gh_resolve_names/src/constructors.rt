// Constructors, with the number of fields that a pattern gives them.
ghost use Rattle.std.specs.Prelude.{◌≡◌, Some, IfOk, OnOk, length, option_map, suc};
ghost use Rattle.gh_resolve_names.specs.Misuses.{least};
ghost use Rattle.gh_resolve_names.specs.Standing as spec;

use crate::context::Context;
use crate::misuse::{Misuse, Rule};
use crate::uses::{in_scope, note, occurrence, own_referent};
use crate::written::{between, used_con, used_name};
use gh_base::{NameId, NoMemory, Origin, Space, Span};
use gh_program::{GenCon, Occurrence, Referent};
use gh_scopes::Used;
use gh_tree::ConOp;

fn differs(known: Option<u64>, given: Option<u64>) -> bool
    ensures { result ≡ spec.differs known given }
{
    match known {
        None => false,
        Some(known) => match given {
            None => false,
            Some(given) => !(known == given),
        },
    }
}

fn note_fields(found: &mut Option<Misuse>, name: Used, differs: bool)
    ensures { found.new ≡ least found.old (spec.fields_misuse name differs) }
{
    if differs {
        note(found, Rule::Fields, name);
    }
}

fn with_fields(
    context: &Context,
    found: &mut Option<Misuse>,
    name: Used,
    given: Option<u64>,
    origin: Result<Origin, Rule>,
) -> Occurrence
    ensures value { result ≡ (spec.with_fields context.now name given origin).tree }
    ensures found { found.new ≡ least found.old (spec.with_fields context.now name given origin).misuses }
{
    match origin {
        Err(rule) => {
            note(found, rule, name);
            occurrence(name, own_referent(context, Space::Values, name.name))
        }
        Ok(origin) => {
            note_fields(found, name, differs(context.fields.of(origin), given));
            occurrence(name, Referent::Top(origin))
        }
    }
}

/// A constructor, with the number of fields that a pattern gives it.
pub fn constructor(
    context: &Context,
    found: &mut Option<Misuse>,
    given: Option<u64>,
    name: Used,
) -> Occurrence
    ensures value { result ≡ (spec.constructor_use context.now given name).tree }
    ensures found { found.new ≡ least found.old (spec.constructor_use context.now given name).misuses }
{
    let origin = in_scope(context, Space::Values, name);
    with_fields(context, found, name, given, origin)
}

/// `:`, which always is the constructor of lists.
pub fn colon(span: Span) -> Occurrence
    ensures { result ≡ spec.colon_occurrence span }
{
    Occurrence {
        span,
        name: gh_base::fixed::COLON,
        referent: Referent::Top(Origin {
            module: gh_base::fixed::PRELUDE,
            space: Space::Values,
            name: gh_base::fixed::COLON,
        }),
    }
}

/// An operator that is a constructor, with the number of fields that a pattern gives it. `:` always is the constructor of
/// lists.
pub fn constructor_operator(
    context: &Context,
    found: &mut Option<Misuse>,
    given: Option<u64>,
    op: ConOp,
) -> Occurrence
    ensures value { result ≡ (spec.constructor_operator_use context.now given op).tree }
    ensures found { found.new ≡ least found.old (spec.constructor_operator_use context.now given op).misuses }
{
    match op {
        ConOp::Symbol(name) => constructor(context, found, given, used_name(name)),
        ConOp::Colon(span) => colon(span),
        ConOp::Quoted(before, name, behind) => {
            constructor(context, found, given, between(before, name, behind))
        }
    }
}

fn tuple_name(parts: u64) -> NameId
    ensures { result ≡ spec.tuple_name parts }
{
    match parts {
        2 => gh_base::fixed::TUPLE_2_SYNTAX,
        3 => gh_base::fixed::TUPLE_3_SYNTAX,
        4 => gh_base::fixed::TUPLE_4_SYNTAX,
        5 => gh_base::fixed::TUPLE_5_SYNTAX,
        6 => gh_base::fixed::TUPLE_6_SYNTAX,
        _ => gh_base::fixed::TUPLE_7_SYNTAX,
    }
}

fn built_in(span: Span, name: NameId) -> Used
    ensures { result ≡ spec.built_in span name }
{
    Used {
        span,
        qualifier: None,
        name,
    }
}

/// How many parts a tuple with these commas has.
pub fn tuple_parts(commas: &[Span]) -> Result<u32, NoMemory>
    ensures { IfOk result (λ n. n ≡ suc (length commas.now)) }
{
    let count = commas.len();
    if count >= 4294967295 {
        return Err(NoMemory);
    }
    Ok(count as u32 + 1)
}

/// A constructor as an operand, with the number of fields that a pattern gives it.
pub fn general_constructor(
    context: &Context,
    found: &mut Option<Misuse>,
    given: Option<u64>,
    con: &gh_tree::GenCon,
) -> Result<GenCon, NoMemory>
    ensures value { IfOk result (λ made. made ≡ (spec.general_use context.now given con.now).tree) }
    ensures found { OnOk result (found.new ≡ least found.old (spec.general_use context.now given con.now).misuses) }
{
    match con {
        gh_tree::GenCon::Con(con) => {
            let name = constructor(context, found, given, used_con(*con));
            Ok(GenCon::Con(name))
        }
        gh_tree::GenCon::Unit(span, ..) => {
            let name = built_in(*span, gh_base::fixed::EMPTY_PARENTHESES);
            note_fields(found, name, differs(Some(0), given));
            Ok(GenCon::Unit(*span))
        }
        gh_tree::GenCon::Nil(span, ..) => {
            let name = built_in(*span, gh_base::fixed::EMPTY_BRACKETS);
            note_fields(found, name, differs(Some(0), given));
            Ok(GenCon::Nil(*span))
        }
        gh_tree::GenCon::Tuple(span, _, commas, _) => {
            let parts = tuple_parts(commas.as_slice())?;
            let name = built_in(*span, tuple_name(parts as u64));
            note_fields(found, name, differs(Some(parts as u64), given));
            Ok(GenCon::Tuple(*span, parts))
        }
    }
}
