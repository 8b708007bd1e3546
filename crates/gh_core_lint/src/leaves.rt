// The terms that have no terms in them.
ghost use Rattle.std.specs.Prelude.{◌≡◌, ◌+◌, IfOk, MatchResult, Some, None};
ghost use Rattle.gh_core.specs.Primitives.{named, primitives};
ghost use Rattle.gh_core.specs.SameType.{Nameless};
ghost use Rattle.gh_core.specs.Typing as t;
ghost use Rattle.gh_core_lint.specs.declared.rules.Stop.TheVariants as stop;
ghost use Rattle.gh_core_lint.specs.Faults.{broken};
ghost use Rattle.gh_core_lint.specs.Programs.{program_of};
ghost use Rattle.gh_core_lint.specs.Stops.{vars_of, Blames};
ghost use Rattle.gh_core_lint.specs.Types.{type_at};

use crate::binders::Binders;
use crate::forms::{Typed, rooted};
use crate::known::Known;
use crate::primitives::{char_type, int_type, string_type};
use crate::rules::{Stop, con_rule, global_rule, prim_rule, var_rule};
use crate::types::Type;
use gh_base::Origin;
use gh_core::{CoreName, CoreType};
use gh_typeterm::Kind;
use std::alloc::Global;

/// A variable.
pub fn var_node(vars: &Binders<Option<Type>>, x: u32, node: u32) -> Result<Typed, Stop>
    ensures ty { IfOk result (λ made. t.var_type (vars_of vars.now) x ≡ Some (type_at made.ty)) }
    ensures next { IfOk result (λ made. made.next ≡ node + 1) }
    ensures fault { MatchResult result (λ _. Unit {0}) (λ s. Blames s (λ f. (t.var_type (vars_of vars.now) x ≡ None) × (f ≡ broken node))) }
{
    let ty = var_rule(vars, x, node)?;
    Ok(rooted(ty, node)?)
}

/// A definition.
pub fn global_node(known: &Known, name: CoreName, node: u32) -> Result<Typed, Stop>
    ensures ty { IfOk result (λ made. t.global_type (program_of known.now).globals name ≡ Some (type_at made.ty)) }
    ensures next { IfOk result (λ made. made.next ≡ node + 1) }
    ensures fault { MatchResult result (λ _. Unit {0}) (λ s. Blames s (λ f. (t.global_type (program_of known.now).globals name ≡ None) × (f ≡ broken node))) }
{
    let ty = global_rule(known, name, node)?;
    Ok(rooted(ty, node)?)
}

/// A constructor.
pub fn con_node(alloc: Global, known: &Known, con: Origin, node: u32) -> Result<Typed, Stop>
    ensures ty { IfOk result (λ made. t.con_type_of (t.con_of (program_of known.now).decls con) ≡ Some (type_at made.ty)) }
    ensures next { IfOk result (λ made. made.next ≡ node + 1) }
    ensures fault { MatchResult result (λ _. Unit {0}) (λ s. Blames s (λ f. (t.con_type_of (t.con_of (program_of known.now).decls con) ≡ None) × (f ≡ broken node))) }
{
    let ty = con_rule(alloc, known, con, node)?;
    Ok(rooted(ty, node)?)
}

/// An integer.
pub fn int_node(alloc: Global, node: u32) -> Result<Typed, Stop>
    ensures ty { IfOk result (λ made. type_at made.ty ≡ t.int_type) }
    ensures next { IfOk result (λ made. made.next ≡ node + 1) }
    ensures memory { MatchResult result (λ _. Unit {0}) (λ s. s ≡ stop.NoMemory) }
{
    Ok(rooted(int_type(alloc)?, node)?)
}

/// A character.
pub fn char_node(alloc: Global, node: u32) -> Result<Typed, Stop>
    ensures ty { IfOk result (λ made. type_at made.ty ≡ t.char_type) }
    ensures next { IfOk result (λ made. made.next ≡ node + 1) }
    ensures memory { MatchResult result (λ _. Unit {0}) (λ s. s ≡ stop.NoMemory) }
{
    Ok(rooted(char_type(alloc)?, node)?)
}

/// A string.
pub fn string_node(alloc: Global, node: u32) -> Result<Typed, Stop>
    ensures ty { IfOk result (λ made. type_at made.ty ≡ t.string_type) }
    ensures next { IfOk result (λ made. made.next ≡ node + 1) }
    ensures memory { MatchResult result (λ _. Unit {0}) (λ s. s ≡ stop.NoMemory) }
{
    Ok(rooted(string_type(alloc)?, node)?)
}

/// A primitive.
pub fn prim_node(
    alloc: Global,
    known: &Known,
    kinds: &Binders<Kind>,
    origin: Origin,
    written: &Option<CoreType>,
    node: u32,
) -> Result<Typed, Stop>
    ensures ty { IfOk result (λ made. t.PrimHas (program_of known.now) kinds.now (named primitives origin) (t.result_of written.now) (type_at made.ty)) }
    ensures next { IfOk result (λ made. made.next ≡ node + 1) }
    ensures fault { MatchResult result (λ _. Unit {0}) (λ s. Blames s (λ f. ((ty : Nameless) → t.PrimHas (program_of known.now) kinds.now (named primitives origin) (t.result_of written.now) ty → ⊥) × (f ≡ broken node))) }
{
    let ty = prim_rule(alloc, known, kinds, origin, written, node)?;
    Ok(rooted(ty, node)?)
}
