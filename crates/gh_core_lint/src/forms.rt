// The forms of terms, whose parts have their types.
ghost use Rattle.std.specs.Prelude.{◌≡◌, ◌+◌, [], length, map, option_map, IfOk, MatchResult, OnOk};
ghost use Rattle.gh_typeterm.specs.declared.kind.Kind.{Kind};
ghost use Rattle.gh_typeterm.specs.declared.kind.Kind.TheVariants as kind;
ghost use Rattle.gh_core.specs.SameType.{Nameless, forall};
ghost use Rattle.gh_core.specs.Typing.{arrow, bindings_of, branches_of, closed_over, code_of, opened, placed, type_of, HasKind, IsValueType};
ghost use Rattle.gh_core_lint.specs.declared.rules.Stop.TheVariants as stop;
ghost use Rattle.gh_core_lint.specs.Branches.{alt_code, binding_code};
ghost use Rattle.gh_core_lint.specs.Data.{IsSeen};
ghost use Rattle.gh_core_lint.specs.Faults.{broken, repeated, written, AppFails, AreValues, CaseFails, IsCase, LetFails, TyAppFails, WrittenFails};
ghost use Rattle.gh_core_lint.specs.Programs.{program_of};
ghost use Rattle.gh_core_lint.specs.Stops.{Blames};
ghost use Rattle.gh_core_lint.specs.Types.{type_at};

use crate::binders::Binders;
use crate::compound::{case_rule, let_rule};
use crate::data::Sort;
use crate::known::Known;
use crate::place::place;
use crate::rules::{Stop, app_rule, tyapp_rule, value_rule};
use crate::types::{Type, close, make_arrow, make_forall};
use gh_base::{ListOf, NoMemory};
use gh_core::{CoreAlt, CoreTerm, CoreType};
use gh_typeterm::Kind;
use sqlite_items::Boxed;
use std::alloc::Global;

/// A term's type, and the number of the node after it.
#[derive(Drop)]
pub struct Typed {
    pub ty: Type,
    pub next: u32,
}

/// The types of several terms, and the number of the node after them.
#[derive(Drop)]
pub struct Parts {
    pub types: ListOf<Type>,
    pub next: u32,
}

/// The type of the term whose root has this number.
pub fn rooted(ty: Type, root: u32) -> Result<Typed, NoMemory>
    ensures ty { IfOk result (λ made. made.ty ≡ ty) }
    ensures next { IfOk result (λ made. made.next ≡ root + 1) }
{
    match root.checked_add(1) {
        Some(next) => Ok(Typed { ty, next }),
        None => Err(NoMemory),
    }
}

/// A function, from the type of its variable to that of its body.
pub fn lam_node(
    alloc: Global,
    known: &Known,
    kinds: &Binders<Kind>,
    from: Type,
    to: Typed,
) -> Result<Typed, Stop>
    ensures kind { OnOk result (HasKind (program_of known.now).decls kinds.now [] (type_at from) kind.Star) }
    ensures ty { IfOk result (λ made. type_at made.ty ≡ arrow (type_at from) (type_at to.ty)) }
    ensures next { IfOk result (λ made. made.next ≡ to.next + 1) }
    ensures fault { MatchResult result (λ _. Unit {0}) (λ s. Blames s (λ f. (HasKind (program_of known.now).decls kinds.now [] (type_at from) kind.Star → ⊥) × (f ≡ broken to.next))) }
{
    value_rule(alloc, known, kinds, &from, to.next)?;
    Ok(rooted(make_arrow(alloc, from, to.ty)?, to.next)?)
}

/// A function with its argument.
pub fn app_node(function: Typed, argument: Typed) -> Result<Typed, Stop>
    ensures ty { IfOk result (λ made. type_at function.ty ≡ arrow (type_at argument.ty) (type_at made.ty)) }
    ensures next { IfOk result (λ made. made.next ≡ argument.next + 1) }
    ensures fault { MatchResult result (λ _. Unit {0}) (λ s. Blames s (AppFails (type_at function.ty) (type_at argument.ty) argument.next)) }
{
    let ty = app_rule(&function.ty, &argument.ty, argument.next)?;
    Ok(rooted(ty, argument.next)?)
}

/// A function of types, whose variable has this level.
pub fn tylam_node(alloc: Global, level: usize, kind: &Kind, body: Typed) -> Result<Typed, Stop>
    ensures ty { IfOk result (λ made. type_at made.ty ≡ forall kind.now (closed_over level 0 (type_at body.ty))) }
    ensures next { IfOk result (λ made. made.next ≡ body.next + 1) }
    ensures memory { MatchResult result (λ _. Unit {0}) (λ s. s ≡ stop.NoMemory) }
{
    let inner = close(alloc, level, 0, &body.ty)?;
    Ok(rooted(make_forall(alloc, kind, inner)?, body.next)?)
}

/// A function of types with its argument.
pub fn tyapp_node(
    alloc: Global,
    known: &Known,
    kinds: &Binders<Kind>,
    function: Typed,
    ty: &CoreType,
) -> Result<Typed, Stop>
    ensures ty { IfOk result (λ made. (k : Kind) × (b : Nameless) × (type_at function.ty ≡ forall k b)
        × HasKind (program_of known.now).decls kinds.now [] (placed kinds.now (type_of ty.now)) k
        × (type_at made.ty ≡ opened 0 (placed kinds.now (type_of ty.now)) b)) }
    ensures next { IfOk result (λ made. made.next ≡ function.next + 1) }
    ensures fault { MatchResult result (λ _. Unit {0}) (λ s. Blames s (TyAppFails (program_of known.now) kinds.now (type_at function.ty) (type_of ty.now) function.next)) }
{
    let by = place(alloc, kinds, ty)?;
    let made = tyapp_rule(alloc, known, kinds, &function.ty, &by, function.next)?;
    Ok(rooted(made, function.next)?)
}

/// Bindings round a term. `wanted` are their written types in order, and `found` those of their terms.
pub fn letrec_node(
    alloc: Global,
    known: &Known,
    kinds: &Binders<Kind>,
    bindings: &[(u32, CoreType, CoreTerm)],
    wanted: ListOf<Type>,
    found: ListOf<Type>,
    body: Typed,
) -> Result<Typed, Stop>
    requires wanted { map type_at wanted ≡ written kinds.now (bindings_of (map binding_code bindings.now)) }
    requires many { length wanted ≡ length found }
    ensures rule { OnOk result (AreValues (program_of known.now) kinds.now (bindings_of (map binding_code bindings.now))
        × (written kinds.now (bindings_of (map binding_code bindings.now)) ≡ map type_at found)) }
    ensures ty { IfOk result (λ made. made.ty ≡ body.ty) }
    ensures next { IfOk result (λ made. made.next ≡ body.next + 1) }
    ensures fault { MatchResult result (λ _. Unit {0}) (λ s. Blames s (LetFails (program_of known.now) kinds.now (bindings_of (map binding_code bindings.now)) (map type_at found) body.next)) }
{
    let found = found.as_slice();
    let_rule(
        alloc,
        known,
        kinds,
        bindings,
        wanted.as_slice(),
        found,
        body.next,
    )?;
    Ok(rooted(body.ty, body.next)?)
}

/// A case whose scrutinee has this type, and whose results have these.
pub fn case_node(
    alloc: Global,
    known: &Known,
    kinds: &Binders<Kind>,
    scrutinee: Type,
    sort: Sort,
    ty: &CoreType,
    alternatives: &[CoreAlt],
    otherwise: &Option<Boxed<CoreTerm>>,
    found: Parts,
) -> Result<Typed, Stop>
    requires { IsSeen (program_of known.now).decls (type_at scrutinee) sort }
    ensures rule { IfOk result (λ made. IsCase (program_of known.now) kinds.now (type_at scrutinee) (type_of ty.now) (branches_of (map alt_code alternatives.now) (option_map code_of otherwise.now))
        × (type_at made.ty ≡ placed kinds.now (type_of ty.now)) × (repeated (type_at made.ty) (map type_at found.types) ≡ map type_at found.types)) }
    ensures next { IfOk result (λ made. made.next ≡ found.next + 1) }
    ensures fault { MatchResult result (λ _. Unit {0}) (λ s. Blames s (CaseFails (program_of known.now) kinds.now (type_at scrutinee) (type_of ty.now) (branches_of (map alt_code alternatives.now) (option_map code_of otherwise.now)) (map type_at found.types) found.next)) }
{
    let types = found.types.as_slice();
    let made = case_rule(
        alloc,
        known,
        kinds,
        &scrutinee,
        &sort,
        ty,
        alternatives,
        otherwise,
        types,
        found.next,
    )?;
    Ok(rooted(made, found.next)?)
}

/// The failure of a match, at a type.
pub fn stop_node(
    alloc: Global,
    known: &Known,
    kinds: &Binders<Kind>,
    ty: &CoreType,
    node: u32,
) -> Result<Typed, Stop>
    ensures kind { OnOk result (IsValueType (program_of known.now) kinds.now (type_of ty.now)) }
    ensures ty { IfOk result (λ made. type_at made.ty ≡ placed kinds.now (type_of ty.now)) }
    ensures next { IfOk result (λ made. made.next ≡ node + 1) }
    ensures fault { MatchResult result (λ _. Unit {0}) (λ s. Blames s (WrittenFails (program_of known.now) kinds.now (type_of ty.now) node)) }
{
    let ty = place(alloc, kinds, ty)?;
    value_rule(alloc, known, kinds, &ty, node)?;
    Ok(rooted(ty, node)?)
}
