// What a name stands for where it is used.
ghost use Rattle.std.specs.Prelude.{◌≡◌, ◌∷◌, []};
ghost use Rattle.gh_resolve_names.specs.Misuses.{least};
ghost use Rattle.gh_resolve_names.specs.Standing as spec;

use crate::context::Context;
use crate::misuse::{Misuse, Rule, earlier};
use crate::written::used_var_op;
use gh_base::{NameId, Origin, Space};
use gh_binders::Binders;
use gh_program::{Occurrence, Referent};
use gh_scopes::{Found, Used};
use gh_tree::VarOp;

fn own_origin(context: &Context, space: Space, name: NameId) -> Origin
    ensures { result ≡ spec.own_origin context.now space name }
{
    Origin {
        module: context.home,
        space,
        name,
    }
}

/// What the definition of a name in its own module is.
pub fn own_referent(context: &Context, space: Space, name: NameId) -> Referent
    ensures { result ≡ spec.own_referent context.now space name }
{
    Referent::Top(own_origin(context, space, name))
}

fn one_origin(found: Option<Found>) -> Result<Origin, Rule>
    ensures { result ≡ spec.one_origin found }
{
    match found {
        None => Err(Rule::Unknown),
        Some(found) => {
            if found.many {
                Err(Rule::Ambiguous)
            } else {
                Ok(found.origin)
            }
        }
    }
}

/// The one origin that the scope of the module gives.
pub fn in_scope(context: &Context, space: Space, name: Used) -> Result<Origin, Rule>
    ensures { result ≡ spec.in_scope context.now space name }
{
    one_origin(context.scope.find(name.qualifier, space, name.name))
}

fn local_of(locals: &Binders<u32>, name: Used) -> Option<u32>
    ensures { result ≡ spec.local_of locals.now name.qualifier name.name }
{
    match name.qualifier {
        None => locals.of(name.name.0).copied(),
        Some(_) => None,
    }
}

fn plain_origin(context: &Context, origin: Result<Origin, Rule>) -> Result<Referent, Rule>
    ensures { result ≡ spec.plain_origin context.now origin }
{
    match origin {
        Err(rule) => Err(rule),
        Ok(origin) => {
            let is_generic = context.functions.has(origin);
            if is_generic {
                Err(Rule::Unknown)
            } else {
                Ok(Referent::Top(origin))
            }
        }
    }
}

fn plain_stands(context: &Context, locals: &Binders<u32>, name: Used) -> Result<Referent, Rule>
    ensures { result ≡ spec.plain_stands context.now locals.now name }
{
    match local_of(locals, name) {
        Some(number) => Ok(Referent::Local(number)),
        None => plain_origin(context, in_scope(context, Space::Values, name)),
    }
}

fn generic_origin(context: &Context, origin: Result<Origin, Rule>) -> Result<Referent, Rule>
    ensures { result ≡ spec.generic_origin context.now origin }
{
    match origin {
        Err(rule) => Err(rule),
        Ok(origin) => {
            if context.functions.has(origin) {
                Ok(Referent::Top(origin))
            } else {
                Err(Rule::Unknown)
            }
        }
    }
}

fn generic_stands(context: &Context, locals: &Binders<u32>, name: Used) -> Result<Referent, Rule>
    ensures { result ≡ spec.generic_stands context.now locals.now name }
{
    match local_of(locals, name) {
        Some(_) => Err(Rule::Unknown),
        None => generic_origin(context, in_scope(context, Space::Values, name)),
    }
}

fn top_stands(context: &Context, space: Space, name: Used) -> Result<Referent, Rule>
    ensures { result ≡ spec.top_stands context.now space name }
{
    match in_scope(context, space, name) {
        Err(rule) => Err(rule),
        Ok(origin) => Ok(Referent::Top(origin)),
    }
}

fn variable_stands(locals: &Binders<u32>, name: Used) -> Result<Referent, Rule>
    ensures { result ≡ spec.variable_stands locals.now name }
{
    match local_of(locals, name) {
        None => Err(Rule::Unknown),
        Some(number) => Ok(Referent::Local(number)),
    }
}

/// A name with what it stands for.
pub fn occurrence(name: Used, referent: Referent) -> Occurrence
    ensures { result ≡ spec.occurrence name referent }
{
    Occurrence {
        span: name.span,
        name: name.name,
        referent,
    }
}

/// The first wrong use, where this one breaks a rule.
pub fn note(found: &mut Option<Misuse>, rule: Rule, name: Used)
    ensures { found.new ≡ least found.old (spec.misuse rule name ∷ []) }
{
    *found = earlier(
        *found,
        Misuse {
            rule,
            span: name.span,
            name: name.name,
        },
    );
}

fn occurs(
    context: &Context,
    found: &mut Option<Misuse>,
    space: Space,
    name: Used,
    stands: Result<Referent, Rule>,
) -> Occurrence
    ensures value { result ≡ (spec.occurs context.now space name stands).tree }
    ensures found { found.new ≡ least found.old (spec.occurs context.now space name stands).misuses }
{
    match stands {
        Ok(referent) => occurrence(name, referent),
        Err(rule) => {
            note(found, rule, name);
            occurrence(name, own_referent(context, space, name.name))
        }
    }
}

/// A plain variable in an expression: the innermost local binder, or else the one origin in scope, which is no generic
/// function.
pub fn plain(
    context: &Context,
    locals: &Binders<u32>,
    found: &mut Option<Misuse>,
    name: Used,
) -> Occurrence
    ensures value { result ≡ (spec.plain_use context.now locals.now name).tree }
    ensures found { found.new ≡ least found.old (spec.plain_use context.now locals.now name).misuses }
{
    let stands = plain_stands(context, locals, name);
    occurs(context, found, Space::Values, name, stands)
}

/// An operator that is a variable.
pub fn plain_operator(
    context: &Context,
    locals: &Binders<u32>,
    found: &mut Option<Misuse>,
    op: VarOp,
) -> Occurrence
    ensures value { result ≡ (spec.operator_use context.now locals.now op).tree }
    ensures found { found.new ≡ least found.old (spec.operator_use context.now locals.now op).misuses }
{
    plain(context, locals, found, used_var_op(op))
}

/// A generic function where it is called or redefined, or where a case of it stands. A local variable hides it.
pub fn generic(
    context: &Context,
    locals: &Binders<u32>,
    found: &mut Option<Misuse>,
    name: Used,
) -> Occurrence
    ensures value { result ≡ (spec.generic_use context.now locals.now name).tree }
    ensures found { found.new ≡ least found.old (spec.generic_use context.now locals.now name).misuses }
{
    let stands = generic_stands(context, locals, name);
    occurs(context, found, Space::Values, name, stands)
}

/// A function of the top of a module, plain or generic.
pub fn any_function(context: &Context, found: &mut Option<Misuse>, name: Used) -> Occurrence
    ensures value { result ≡ (spec.function_use context.now name).tree }
    ensures found { found.new ≡ least found.old (spec.function_use context.now name).misuses }
{
    let stands = top_stands(context, Space::Values, name);
    occurs(context, found, Space::Values, name, stands)
}

/// A type variable: its innermost binder.
pub fn type_variable(
    context: &Context,
    locals: &Binders<u32>,
    found: &mut Option<Misuse>,
    name: Used,
) -> Occurrence
    ensures value { result ≡ (spec.variable_use context.now locals.now name).tree }
    ensures found { found.new ≡ least found.old (spec.variable_use context.now locals.now name).misuses }
{
    let stands = variable_stands(locals, name);
    occurs(context, found, Space::Types, name, stands)
}

/// The binder that a name is where it is bound: its number is the first byte of that place.
pub fn binder(name: Used) -> (u32, u32)
    ensures { result ≡ spec.binder name }
{
    (name.name.0, name.span.from)
}

/// A value where it is bound, or in a signature or a fixity: the innermost local binder of its name, or else the definition
/// of the module.
pub fn bound(context: &Context, locals: &Binders<u32>, name: Used) -> Occurrence
    ensures { result ≡ spec.bound_name context.now locals.now name }
{
    match locals.of(name.name.0) {
        None => occurrence(name, own_referent(context, Space::Values, name.name)),
        Some(number) => occurrence(name, Referent::Local(*number)),
    }
}

/// A name that a declaration of the top defines.
pub fn own(context: &Context, space: Space, name: Used) -> Occurrence
    ensures { result ≡ spec.own_name context.now space name }
{
    occurrence(name, own_referent(context, space, name.name))
}
