// The rules of nodes whose parts have their types.
ghost use Rattle.std.specs.Prelude.{◌≡◌, [], length, map, IfOk, MatchResult, OnOk, Some, None};
ghost use Rattle.gh_typeterm.specs.declared.kind.Kind.{Kind};
ghost use Rattle.gh_typeterm.specs.declared.kind.Kind.TheVariants as kind;
ghost use Rattle.gh_core.specs.Primitives.{named, primitives};
ghost use Rattle.gh_core.specs.SameType.{Nameless, forall};
ghost use Rattle.gh_core.specs.Typing.{arrow, con_of, con_type_of, global_type, opened, result_of, var_type, HasKind, PrimHas};
ghost use Rattle.gh_core_lint.specs.Faults.{broken, repeated, AppFails, FirstClash};
ghost use Rattle.gh_core_lint.specs.Programs.{program_of};
ghost use Rattle.gh_core_lint.specs.Stops.{vars_of, Blames, IsFunction};
ghost use Rattle.gh_core_lint.specs.Types.{type_at};

use crate::binders::Binders;
use crate::data::{is_con, type_of_con};
use crate::kinds::{Round, has_kind};
use crate::known::Known;
use crate::place::place;
use crate::primitives::{primitive_named, string_type, type_of_primitive};
use crate::types::{Node, Type, make_arrow, open, same};
use gh_base::{NoMemory, Origin, TyCon};
use gh_core::{CoreName, CoreType};
use gh_typeterm::Kind;
use std::alloc::Global;

/// Why a check stops: a rule of a node does not hold, two types differ at a node, or there is no memory.
#[derive(Drop)]
pub enum Stop {
    Broken(u32),
    Clash(u32, Type, Type),
    NoMemory,
}

impl From<NoMemory> for Stop {
    ghost use Rattle.std.specs.Prelude.{◌≡◌};
    ghost use Rattle.gh_core_lint.specs.declared.rules.Stop.TheVariants as stop;

    ghost from_gives = { λ _ e. e ≡ stop.NoMemory };

    fn from(_: NoMemory) -> Stop {
        Stop::NoMemory
    }
}

/// A variable has a type.
pub fn var_rule(vars: &Binders<Option<Type>>, x: u32, node: u32) -> Result<Type, Stop>
    ensures ok { IfOk result (λ ty. var_type (vars_of vars.now) x ≡ Some (type_at ty)) }
    ensures err { MatchResult result (λ _. Unit {0}) (λ s. Blames s (λ f. (var_type (vars_of vars.now) x ≡ None) × (f ≡ broken node))) }
{
    match vars.of(x) {
        Some(found) => match found {
            Some(ty) => Ok(ty.share()?),
            None => Err(Stop::Broken(node)),
        },
        None => Err(Stop::Broken(node)),
    }
}

/// There is a definition of this name.
pub fn global_rule(known: &Known, name: CoreName, node: u32) -> Result<Type, Stop>
    ensures ok { IfOk result (λ ty. global_type (program_of known.now).globals name ≡ Some (type_at ty)) }
    ensures err { MatchResult result (λ _. Unit {0}) (λ s. Blames s (λ f. (global_type (program_of known.now).globals name ≡ None) × (f ≡ broken node))) }
{
    match known.global(name)? {
        Some(ty) => Ok(ty),
        None => Err(Stop::Broken(node)),
    }
}

/// There is a constructor of this name.
pub fn con_rule(alloc: Global, known: &Known, origin: Origin, node: u32) -> Result<Type, Stop>
    ensures ok { IfOk result (λ ty. con_type_of (con_of (program_of known.now).decls origin) ≡ Some (type_at ty)) }
    ensures err { MatchResult result (λ _. Unit {0}) (λ s. Blames s (λ f. (con_type_of (con_of (program_of known.now).decls origin) ≡ None) × (f ≡ broken node))) }
{
    match known.constructor(origin) {
        Some((decl, con)) => Ok(type_of_con(alloc, decl, con)?),
        None => Err(Stop::Broken(node)),
    }
}

/// A written type is one of values.
pub fn value_rule(
    alloc: Global,
    known: &Known,
    kinds: &Binders<Kind>,
    ty: &Type,
    node: u32,
) -> Result<(), Stop>
    ensures ok { OnOk result (HasKind (program_of known.now).decls kinds.now [] (type_at ty.now) kind.Star) }
    ensures err { MatchResult result (λ _. Unit {0}) (λ s. Blames s (λ f. (HasKind (program_of known.now).decls kinds.now [] (type_at ty.now) kind.Star → ⊥) × (f ≡ broken node))) }
{
    if has_kind(alloc, known, kinds, &Round::Outside, ty, &Kind::Star)? {
        Ok(())
    } else {
        Err(Stop::Broken(node))
    }
}

/// The type of a primitive, `error` alone having its result's type written with it.
pub fn prim_rule(
    alloc: Global,
    known: &Known,
    kinds: &Binders<Kind>,
    origin: Origin,
    written: &Option<CoreType>,
    node: u32,
) -> Result<Type, Stop>
    ensures ok { IfOk result (λ ty. PrimHas (program_of known.now) kinds.now (named primitives origin) (result_of written.now) (type_at ty)) }
    ensures err { MatchResult result (λ _. Unit {0}) (λ s. Blames s (λ f. ((t : Nameless) → PrimHas (program_of known.now) kinds.now (named primitives origin) (result_of written.now) t → ⊥) × (f ≡ broken node))) }
{
    let primitive = match primitive_named(origin) {
        Some(primitive) => primitive,
        None => return Err(Stop::Broken(node)),
    };
    match (type_of_primitive(alloc, primitive)?, written) {
        (Some(ty), None) => Ok(ty),
        (None, Some(written)) => {
            let to = place(alloc, kinds, written)?;
            value_rule(alloc, known, kinds, &to, node)?;
            Ok(make_arrow(alloc, string_type(alloc)?, to)?)
        }
        _ => Err(Stop::Broken(node)),
    }
}

fn function_parts(ty: &Type) -> Result<Option<(Type, Type)>, NoMemory>
    ensures { IfOk result (λ made. IsFunction (type_at ty.now) made) }
{
    let (part, to) = match ty.get() {
        Node::App(part, to) => (part, to),
        _ => return Ok(None),
    };
    match part.get() {
        Node::App(head, from) => {
            if is_con(head, TyCon::Arrow) {
                Ok(Some((from.share()?, to.share()?)))
            } else {
                Ok(None)
            }
        }
        _ => Ok(None),
    }
}

/// An application is of a function to an argument of its type.
pub fn app_rule(function: &Type, argument: &Type, node: u32) -> Result<Type, Stop>
    ensures ok { IfOk result (λ ty. type_at function.now ≡ arrow (type_at argument.now) (type_at ty)) }
    ensures err { MatchResult result (λ _. Unit {0}) (λ s. Blames s (AppFails (type_at function.now) (type_at argument.now) node)) }
{
    match function_parts(function)? {
        Some((from, to)) => {
            if same(&from, argument) {
                Ok(to)
            } else {
                let found = argument.share()?;
                Err(Stop::Clash(node, from, found))
            }
        }
        None => Err(Stop::Broken(node)),
    }
}

/// A type application is of a type function to a type of its kind.
pub fn tyapp_rule(
    alloc: Global,
    known: &Known,
    kinds: &Binders<Kind>,
    function: &Type,
    by: &Type,
    node: u32,
) -> Result<Type, Stop>
    ensures ok { IfOk result (λ ty. (k : Kind) × (b : Nameless) × (type_at function.now ≡ forall k b)
        × HasKind (program_of known.now).decls kinds.now [] (type_at by.now) k × (type_at ty ≡ opened 0 (type_at by.now) b)) }
    ensures err { MatchResult result (λ _. Unit {0}) (λ s. Blames s (λ f. ((k : Kind) (b : Nameless) → type_at function.now ≡ forall k b
        → HasKind (program_of known.now).decls kinds.now [] (type_at by.now) k → ⊥) × (f ≡ broken node))) }
{
    match function.get() {
        Node::Forall(kind, body) => {
            if has_kind(alloc, known, kinds, &Round::Outside, by, kind)? {
                Ok(open(alloc, 0, by, body)?)
            } else {
                Err(Stop::Broken(node))
            }
        }
        _ => Err(Stop::Broken(node)),
    }
}

/// Types are equal place by place.
pub fn equal_rule(wanted: &[Type], found: &[Type], node: u32) -> Result<(), Stop>
    requires { length wanted.now ≡ length found.now }
    ensures ok { OnOk result (map type_at wanted.now ≡ map type_at found.now) }
    ensures err { MatchResult result (λ _. Unit {0}) (λ s. Blames s (FirstClash (map type_at wanted.now) (map type_at found.now) node)) }
{
    for place in 0..wanted.len() {
        if !same(&wanted[place], &found[place]) {
            return Err(Stop::Clash(node, wanted[place].share()?, found[place].share()?));
        }
    }
    Ok(())
}

/// All types are one.
pub fn alike_rule(wanted: &Type, found: &[Type], node: u32) -> Result<(), Stop>
    ensures ok { OnOk result (repeated (type_at wanted.now) (map type_at found.now) ≡ map type_at found.now) }
    ensures err { MatchResult result (λ _. Unit {0}) (λ s. Blames s (FirstClash (repeated (type_at wanted.now) (map type_at found.now)) (map type_at found.now) node)) }
{
    for place in 0..found.len() {
        if !same(wanted, &found[place]) {
            return Err(Stop::Clash(node, wanted.share()?, found[place].share()?));
        }
    }
    Ok(())
}
