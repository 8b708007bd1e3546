// The check of terms.
ghost use Rattle.std.specs.Prelude.{◌≡◌, ◌+◌, ◌++◌, [], map, option_map, List, IfOk, MatchResult, OnOk, None};
ghost use Rattle.gh_core.specs.SameType.{Nameless};
ghost use Rattle.gh_core.specs.Typing.{a_case, a_letrec, bindings_of, branches_of, code_of, type_of, HasType};
ghost use Rattle.gh_core_lint.specs.Branches.{alt_code, binding_code};
ghost use Rattle.gh_core_lint.specs.Data.{IsSeen};
ghost use Rattle.gh_core_lint.specs.Faults.{nodes, nodes_bound, nodes_branch, nodes_chosen, BindingFails, BindingsHave, BodyFails, BranchFails, BranchHas, BranchesHave, Fails};
ghost use Rattle.gh_core_lint.specs.Programs.{program_of};
ghost use Rattle.gh_core_lint.specs.Stops.{vars_of, Blames};
ghost use Rattle.gh_core_lint.specs.Types.{type_at};

use crate::cases::fields_for;
use crate::data::{Sort, sort_of};
use crate::forms::{
    Parts, Typed, app_node, case_node, lam_node, letrec_node, stop_node, tyapp_node, tylam_node,
};
use crate::known::Known;
use crate::leaves::{char_node, con_node, global_node, int_node, prim_node, string_node, var_node};
use crate::rules::Stop;
use crate::scope::{Scope, bind_all, bind_lam, bind_names, bind_tylam};
use crate::types::Type;
use gh_base::ListOf;
use gh_core::{CoreAlt, CoreTerm, CoreType};
use sqlite_items::Boxed;
use std::alloc::Global;

/// The type of a term whose first node has this number.
#[cycle(check)]
pub fn check(
    alloc: Global,
    known: &Known,
    scope: &mut Scope,
    node: u32,
    term: &CoreTerm,
) -> Result<Typed, Stop>
    ensures typed { IfOk result (λ r. HasType (program_of known.now) scope.old.kinds (vars_of scope.old.vars) (code_of term.now) (type_at r.ty)) }
    ensures next { IfOk result (λ r. r.next ≡ node + nodes (code_of term.now)) }
    ensures scope { OnOk result (scope.new ≡ scope.old) }
    ensures fault { MatchResult result (λ _. Unit {0}) (λ s. Blames s (Fails (program_of known.now) scope.old.kinds (vars_of scope.old.vars) node (code_of term.now))) }
{
    match term {
        CoreTerm::Var(x) => var_node(&scope.vars, *x, node),
        CoreTerm::Global(name) => global_node(known, *name, node),
        CoreTerm::Con(con) => con_node(alloc, known, *con, node),
        CoreTerm::Int(_) => int_node(alloc, node),
        CoreTerm::Char(_) => char_node(alloc, node),
        CoreTerm::Str(_) => string_node(alloc, node),
        CoreTerm::Prim(origin, _, written) => {
            prim_node(alloc, known, &scope.kinds, *origin, written, node)
        }
        CoreTerm::Lam(x, ty, body) => {
            let count = scope.vars.count();
            let from = bind_lam(alloc, scope, *x, ty)?;
            let to = check(alloc, known, scope, node, body.get())?;
            scope.vars.keep(count);
            lam_node(alloc, known, &scope.kinds, from, to)
        }
        CoreTerm::App(function, argument) => {
            let function = check(alloc, known, scope, node, function.get())?;
            let argument = check(alloc, known, scope, function.next, argument.get())?;
            app_node(function, argument)
        }
        CoreTerm::TyLam(x, kind, body) => {
            let count = scope.kinds.count();
            bind_tylam(alloc, scope, *x, kind)?;
            let body = check(alloc, known, scope, node, body.get())?;
            scope.kinds.keep(count);
            tylam_node(alloc, count, kind, body)
        }
        CoreTerm::TyApp(function, ty) => {
            let function = check(alloc, known, scope, node, function.get())?;
            tyapp_node(alloc, known, &scope.kinds, function, ty)
        }
        CoreTerm::LetRec(bindings, body) => {
            check_letrec(alloc, known, scope, node, bindings.as_slice(), body.get())
        }
        CoreTerm::Case(scrutinee, ty, alternatives, otherwise) => {
            let scrutinee = scrutinee.get();
            check_case(
                alloc,
                known,
                scope,
                node,
                scrutinee,
                ty,
                alternatives.as_slice(),
                otherwise,
            )
        }
        CoreTerm::Stop(_, ty) => stop_node(alloc, known, &scope.kinds, ty, node),
    }
}

// The type of a term with bindings round it.
#[cycle(check)]
fn check_letrec(
    alloc: Global,
    known: &Known,
    scope: &mut Scope,
    node: u32,
    bindings: &[(u32, CoreType, CoreTerm)],
    body: &CoreTerm,
) -> Result<Typed, Stop>
    ensures typed { IfOk result (λ r. HasType (program_of known.now) scope.old.kinds (vars_of scope.old.vars) (a_letrec (bindings_of (map binding_code bindings.now)) (code_of body.now)) (type_at r.ty)) }
    ensures next { IfOk result (λ r. r.next ≡ node + nodes (a_letrec (bindings_of (map binding_code bindings.now)) (code_of body.now))) }
    ensures scope { OnOk result (scope.new ≡ scope.old) }
    ensures fault { MatchResult result (λ _. Unit {0}) (λ s. Blames s (Fails (program_of known.now) scope.old.kinds (vars_of scope.old.vars) node (a_letrec (bindings_of (map binding_code bindings.now)) (code_of body.now)))) }
{
    let count = scope.vars.count();
    let wanted = bind_all(alloc, scope, bindings)?;
    let parts = check_bindings(alloc, known, scope, node, bindings)?;
    let body = check(alloc, known, scope, parts.next, body)?;
    scope.vars.keep(count);
    letrec_node(
        alloc,
        known,
        &scope.kinds,
        bindings,
        wanted,
        parts.types,
        body,
    )
}

// The types of the terms of bindings.
#[cycle(check)]
fn check_bindings(
    alloc: Global,
    known: &Known,
    scope: &mut Scope,
    node: u32,
    bindings: &[(u32, CoreType, CoreTerm)],
) -> Result<Parts, Stop>
    ensures typed { IfOk result (λ r. BindingsHave (program_of known.now) scope.old.kinds (vars_of scope.old.vars) (bindings_of (map binding_code bindings.now)) (map type_at r.types)) }
    ensures next { IfOk result (λ r. r.next ≡ node + nodes_bound (bindings_of (map binding_code bindings.now))) }
    ensures scope { OnOk result (scope.new ≡ scope.old) }
    ensures fault { MatchResult result (λ _. Unit {0}) (λ s. Blames s (BindingFails (program_of known.now) scope.old.kinds (vars_of scope.old.vars) node (bindings_of (map binding_code bindings.now)))) }
{
    let mut types = ListOf::new(alloc);
    let mut next = node;
    for (_, _, term) in bindings {
        let one = check(alloc, known, scope, next, term)?;
        types.push(one.ty)?;
        next = one.next;
    }
    Ok(Parts { types, next })
}

// The type of a case.
#[cycle(check)]
fn check_case(
    alloc: Global,
    known: &Known,
    scope: &mut Scope,
    node: u32,
    scrutinee: &CoreTerm,
    ty: &CoreType,
    alternatives: &[CoreAlt],
    otherwise: &Option<Boxed<CoreTerm>>,
) -> Result<Typed, Stop>
    ensures typed { IfOk result (λ r. HasType (program_of known.now) scope.old.kinds (vars_of scope.old.vars) (a_case (code_of scrutinee.now) (type_of ty.now) (branches_of (map alt_code alternatives.now) (option_map code_of otherwise.now))) (type_at r.ty)) }
    ensures next { IfOk result (λ r. r.next ≡ node + nodes (a_case (code_of scrutinee.now) (type_of ty.now) (branches_of (map alt_code alternatives.now) (option_map code_of otherwise.now)))) }
    ensures scope { OnOk result (scope.new ≡ scope.old) }
    ensures fault { MatchResult result (λ _. Unit {0}) (λ s. Blames s (Fails (program_of known.now) scope.old.kinds (vars_of scope.old.vars) node (a_case (code_of scrutinee.now) (type_of ty.now) (branches_of (map alt_code alternatives.now) (option_map code_of otherwise.now))))) }
{
    let of = check(alloc, known, scope, node, scrutinee)?;
    let sort = sort_of(alloc, known, &of.ty)?;
    let parts = check_alternatives(alloc, known, scope, of.next, alternatives, &of.ty, &sort)?;
    let parts = check_else(alloc, known, scope, otherwise, parts)?;
    case_node(
        alloc,
        known,
        &scope.kinds,
        of.ty,
        sort,
        ty,
        alternatives,
        otherwise,
        parts,
    )
}

// The types of the results of alternatives.
#[cycle(check)]
fn check_alternatives(
    alloc: Global,
    known: &Known,
    scope: &mut Scope,
    node: u32,
    alternatives: &[CoreAlt],
    scrutinee: &Type,
    sort: &Sort,
) -> Result<Parts, Stop>
    requires { IsSeen (program_of known.now).decls (type_at scrutinee.now) sort.now }
    ensures typed { IfOk result (λ r. BranchesHave (program_of known.now) scope.old.kinds (vars_of scope.old.vars) (type_at scrutinee.now) (branches_of (map alt_code alternatives.now) None) (map type_at r.types)) }
    ensures next { IfOk result (λ r. r.next ≡ node + nodes_chosen (branches_of (map alt_code alternatives.now) None)) }
    ensures scope { OnOk result (scope.new ≡ scope.old) }
    ensures fault { MatchResult result (λ _. Unit {0}) (λ s. Blames s (BranchFails (program_of known.now) scope.old.kinds (vars_of scope.old.vars) (type_at scrutinee.now) node (branches_of (map alt_code alternatives.now) None))) }
{
    let mut types = ListOf::new(alloc);
    let mut next = node;
    for alternative in alternatives {
        let one = check_alternative(alloc, known, scope, next, alternative, scrutinee, sort)?;
        types.push(one.ty)?;
        next = one.next;
    }
    Ok(Parts { types, next })
}

// The type of the result of an alternative.
#[cycle(check)]
fn check_alternative(
    alloc: Global,
    known: &Known,
    scope: &mut Scope,
    node: u32,
    alternative: &CoreAlt,
    scrutinee: &Type,
    sort: &Sort,
) -> Result<Typed, Stop>
    requires { IsSeen (program_of known.now).decls (type_at scrutinee.now) sort.now }
    ensures typed { IfOk result (λ r. BranchHas (program_of known.now) scope.old.kinds (vars_of scope.old.vars) (type_at scrutinee.now) (alt_code alternative.now) (type_at r.ty)) }
    ensures next { IfOk result (λ r. r.next ≡ node + nodes_branch (alt_code alternative.now)) }
    ensures scope { OnOk result (scope.new ≡ scope.old) }
    ensures fault { MatchResult result (λ _. Unit {0}) (λ s. Blames s (BodyFails (program_of known.now) scope.old.kinds (vars_of scope.old.vars) (type_at scrutinee.now) node (alt_code alternative.now))) }
{
    match alternative {
        CoreAlt::Con(con, names, term) => {
            let count = scope.vars.count();
            let types = fields_for(alloc, known, scrutinee, sort, *con)?;
            bind_names(&mut scope.vars, names.as_slice(), types.as_slice())?;
            let one = check(alloc, known, scope, node, term)?;
            scope.vars.keep(count);
            Ok(one)
        }
        CoreAlt::Int(_, term) => check(alloc, known, scope, node, term),
        CoreAlt::Char(_, term) => check(alloc, known, scope, node, term),
    }
}

// The types of the results of a case, those before its `else` being these.
#[cycle(check)]
fn check_else(
    alloc: Global,
    known: &Known,
    scope: &mut Scope,
    otherwise: &Option<Boxed<CoreTerm>>,
    parts: Parts,
) -> Result<Parts, Stop>
    ensures typed { IfOk result (λ r. (vs : List Nameless) × (map type_at r.types ≡ map type_at parts.types ++ vs)
        × ((s : Nameless) → BranchesHave (program_of known.now) scope.old.kinds (vars_of scope.old.vars) s (branches_of [] (option_map code_of otherwise.now)) vs)) }
    ensures next { IfOk result (λ r. r.next ≡ parts.next + nodes_chosen (branches_of [] (option_map code_of otherwise.now))) }
    ensures scope { OnOk result (scope.new ≡ scope.old) }
    ensures fault { MatchResult result (λ _. Unit {0}) (λ s. Blames s (λ f. (t : Nameless) → BranchFails (program_of known.now) scope.old.kinds (vars_of scope.old.vars) t parts.next (branches_of [] (option_map code_of otherwise.now)) f)) }
{
    match otherwise {
        Some(term) => {
            let one = check(alloc, known, scope, parts.next, term.get())?;
            let mut types = parts.types;
            types.push(one.ty)?;
            Ok(Parts {
                types,
                next: one.next,
            })
        }
        None => Ok(parts),
    }
}
