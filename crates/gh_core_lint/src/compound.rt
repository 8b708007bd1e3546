// The rules of a case and of recursive bindings, whose parts have their types.
ghost use Rattle.std.specs.Prelude.{◌≡◌, ◌↔◌, List, [], length, map, option_map, IfOk, IsTrue, MatchResult, OnOk};
ghost use Rattle.gh_typeterm.specs.declared.decl.DeclData.{DeclData};
ghost use Rattle.gh_typeterm.specs.declared.kind.Kind.TheVariants as kind;
ghost use Rattle.gh_core.specs.SameType.{Nameless};
ghost use Rattle.gh_core.specs.Typing.{bindings_of, branches_of, code_of, placed, type_of, HasKind, IsCovered, IsScrutinee};
ghost use Rattle.gh_core_lint.specs.Branches.{alt_code, binding_code};
ghost use Rattle.gh_core_lint.specs.Data.{IsSeen};
ghost use Rattle.gh_core_lint.specs.Faults.{repeated, written, AllFit, AreValues, CaseFails, IsCase, LetFails};
ghost use Rattle.gh_core_lint.specs.Kinds.{AreStars};
ghost use Rattle.gh_core_lint.specs.Programs.{program_of};
ghost use Rattle.gh_core_lint.specs.Stops.{Blames};
ghost use Rattle.gh_core_lint.specs.Types.{type_at};

use crate::binders::Binders;
use crate::cases::{all_fit, covered};
use crate::data::Sort;
use crate::kinds::is_value_type;
use crate::known::Known;
use crate::place::place;
use crate::rules::{Stop, alike_rule, equal_rule};
use crate::types::Type;
use gh_base::NoMemory;
use gh_core::{CoreAlt, CoreTerm, CoreType};
use gh_typeterm::Kind;
use sqlite_items::Boxed;
use std::alloc::Global;

// Whether a case can take a type of this sort.
fn is_scrutinee(sort: &Sort) -> bool
    ensures { (decls : List DeclData) (s : Nameless) → IsSeen decls s sort.now → IsTrue result ↔ IsScrutinee decls s }
{
    match sort {
        Sort::Data(_, _) => true,
        Sort::Int => true,
        Sort::Char => true,
        Sort::Other => false,
    }
}

// Whether a case goes on with its `else` or with one of its alternatives.
fn goes_on(
    alloc: Global,
    known: &Known,
    scrutinee: &Type,
    sort: &Sort,
    alternatives: &[CoreAlt],
    otherwise: &Option<Boxed<CoreTerm>>,
) -> Result<bool, NoMemory>
    requires { IsSeen (program_of known.now).decls (type_at scrutinee.now) sort.now }
    ensures { IfOk result (λ holds. IsTrue holds ↔ IsCovered (program_of known.now).decls (type_at scrutinee.now)
        (branches_of (map alt_code alternatives.now) (option_map code_of otherwise.now))) }
{
    match otherwise {
        Some(_) => Ok(true),
        None => covered(alloc, known, scrutinee, sort, alternatives),
    }
}

// Whether a case takes its scrutinee's type apart and its written type is one of values.
fn is_case(
    alloc: Global,
    known: &Known,
    kinds: &Binders<Kind>,
    scrutinee: &Type,
    sort: &Sort,
    made: &Type,
    alternatives: &[CoreAlt],
    otherwise: &Option<Boxed<CoreTerm>>,
) -> Result<bool, NoMemory>
    requires { IsSeen (program_of known.now).decls (type_at scrutinee.now) sort.now }
    ensures { IfOk result (λ holds. IsTrue holds ↔ (HasKind (program_of known.now).decls kinds.now [] (type_at made.now) kind.Star
        × IsScrutinee (program_of known.now).decls (type_at scrutinee.now)
        × AllFit (program_of known.now) (type_at scrutinee.now) (branches_of (map alt_code alternatives.now) (option_map code_of otherwise.now))
        × IsCovered (program_of known.now).decls (type_at scrutinee.now) (branches_of (map alt_code alternatives.now) (option_map code_of otherwise.now)))) }
{
    if !is_value_type(alloc, known, kinds, made)? {
        return Ok(false);
    }
    if !is_scrutinee(sort) {
        return Ok(false);
    }
    if !all_fit(known, scrutinee, sort, alternatives) {
        return Ok(false);
    }
    goes_on(alloc, known, scrutinee, sort, alternatives, otherwise)
}

/// A case takes its scrutinee's type apart and gives one type of values, which it answers. `found` are the types of the
/// results, the last of them that of `else` where there is one.
pub fn case_rule(
    alloc: Global,
    known: &Known,
    kinds: &Binders<Kind>,
    scrutinee: &Type,
    sort: &Sort,
    ty: &CoreType,
    alternatives: &[CoreAlt],
    otherwise: &Option<Boxed<CoreTerm>>,
    found: &[Type],
    node: u32,
) -> Result<Type, Stop>
    requires { IsSeen (program_of known.now).decls (type_at scrutinee.now) sort.now }
    ensures ok { IfOk result (λ made. IsCase (program_of known.now) kinds.now (type_at scrutinee.now) (type_of ty.now) (branches_of (map alt_code alternatives.now) (option_map code_of otherwise.now))
        × (type_at made ≡ placed kinds.now (type_of ty.now)) × (repeated (type_at made) (map type_at found.now) ≡ map type_at found.now)) }
    ensures err { MatchResult result (λ _. Unit {0}) (λ s. Blames s (CaseFails (program_of known.now) kinds.now (type_at scrutinee.now) (type_of ty.now) (branches_of (map alt_code alternatives.now) (option_map code_of otherwise.now)) (map type_at found.now) node)) }
{
    let made = place(alloc, kinds, ty)?;
    if !is_case(
        alloc,
        known,
        kinds,
        scrutinee,
        sort,
        &made,
        alternatives,
        otherwise,
    )? {
        return Err(Stop::Broken(node));
    }
    alike_rule(&made, found, node)?;
    Ok(made)
}

// Whether types are all of values.
fn all_values(
    alloc: Global,
    known: &Known,
    kinds: &Binders<Kind>,
    types: &[Type],
) -> Result<bool, NoMemory>
    ensures { IfOk result (λ holds. IsTrue holds ↔ AreStars (program_of known.now).decls kinds.now (map type_at types.now)) }
{
    for place in 0..types.len() {
        if !is_value_type(alloc, known, kinds, &types[place])? {
            return Ok(false);
        }
    }
    Ok(true)
}

/// Bindings have their written types, which are types of values. `wanted` are the written types in order.
pub fn let_rule(
    alloc: Global,
    known: &Known,
    kinds: &Binders<Kind>,
    bindings: &[(u32, CoreType, CoreTerm)],
    wanted: &[Type],
    found: &[Type],
    node: u32,
) -> Result<(), Stop>
    requires wanted { map type_at wanted.now ≡ written kinds.now (bindings_of (map binding_code bindings.now)) }
    requires many { length wanted.now ≡ length found.now }
    ensures ok { OnOk result (AreValues (program_of known.now) kinds.now (bindings_of (map binding_code bindings.now))
        × (written kinds.now (bindings_of (map binding_code bindings.now)) ≡ map type_at found.now)) }
    ensures err { MatchResult result (λ _. Unit {0}) (λ s. Blames s (LetFails (program_of known.now) kinds.now (bindings_of (map binding_code bindings.now)) (map type_at found.now) node)) }
{
    if !all_values(alloc, known, kinds, wanted)? {
        return Err(Stop::Broken(node));
    }
    equal_rule(wanted, found, node)
}
