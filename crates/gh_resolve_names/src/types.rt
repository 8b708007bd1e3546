// Names of types, with the number of their arguments.
ghost use Rattle.std.specs.Prelude.{◌≡◌, Some, option_map};
ghost use Rattle.gh_resolve_names.specs.Misuses.{least};
ghost use Rattle.gh_resolve_names.specs.Standing as spec;

use crate::context::Context;
use crate::misuse::{Misuse, Rule};
use crate::uses::{in_scope, note, occurrence, own_referent};
use gh_base::{Origin, Space};
use gh_program::{Occurrence, Referent};
use gh_scopes::Used;

fn lacks(parameters: Option<u64>, given: u64) -> bool
    ensures { result ≡ spec.lacks parameters given }
{
    match parameters {
        None => false,
        Some(parameters) => given < parameters,
    }
}

fn note_arguments(found: &mut Option<Misuse>, name: Used, lacks: bool)
    ensures { found.new ≡ least found.old (spec.arguments_misuse name lacks) }
{
    if lacks {
        note(found, Rule::Arguments, name);
    }
}

fn with_arguments(
    context: &Context,
    found: &mut Option<Misuse>,
    name: Used,
    given: u64,
    origin: Result<Origin, Rule>,
) -> Occurrence
    ensures value { result ≡ (spec.with_arguments context.now name given origin).tree }
    ensures found { found.new ≡ least found.old (spec.with_arguments context.now name given origin).misuses }
{
    match origin {
        Err(rule) => {
            note(found, rule, name);
            occurrence(name, own_referent(context, Space::Types, name.name))
        }
        Ok(origin) => {
            note_arguments(found, name, lacks(context.synonyms.of(origin), given));
            occurrence(name, Referent::Top(origin))
        }
    }
}

/// The name of a type, with the number of its arguments: the one origin in scope. A synonym has at least as many
/// arguments as parameters.
pub fn type_name(
    context: &Context,
    found: &mut Option<Misuse>,
    given: u64,
    name: Used,
) -> Occurrence
    ensures value { result ≡ (spec.type_use context.now given name).tree }
    ensures found { found.new ≡ least found.old (spec.type_use context.now given name).misuses }
{
    let origin = in_scope(context, Space::Types, name);
    with_arguments(context, found, name, given, origin)
}
