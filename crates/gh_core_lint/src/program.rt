// The check of programs.
ghost use Rattle.std.specs.Prelude.{◌≡◌, [], IfOk, MatchResult, OnOk};
ghost use Rattle.gh_core.specs.Typing.{code_of, string_type, Code, DefTyped, DefsTyped, HasType, IsTyped};
ghost use Rattle.gh_core_lint.specs.Faults.{nodes, DefFails, DefsFail, Fails, ProgramFails, RootFails};
ghost use Rattle.gh_core_lint.specs.Programs.{program_of};
ghost use Rattle.gh_core_lint.specs.Reports.{Tells};
ghost use Rattle.gh_core_lint.specs.Stops.{Blames};
ghost use Rattle.gh_core_lint.specs.Types.{type_at};

use crate::binders::Binders;
use crate::check::check;
use crate::fault::{LintFault, report};
use crate::fields::fields_fit;
use crate::forms::Typed;
use crate::known::Known;
use crate::place::place;
use crate::primitives::string_type;
use crate::rules::{Stop, value_rule};
use crate::scope::Scope;
use crate::types::{Type, same};
use gh_core::{CoreProgram, CoreTerm, Def};
use std::alloc::Global;

// The type of a closed term.
fn check_closed(alloc: Global, known: &Known, term: &CoreTerm) -> Result<Typed, Stop>
    ensures typed { IfOk result (λ r. HasType (program_of known.now) [] [] (code_of term.now) (type_at r.ty)) }
    ensures next { IfOk result (λ r. r.next ≡ nodes (code_of term.now)) }
    ensures fault { MatchResult result (λ _. Unit {0}) (λ s. Blames s (Fails (program_of known.now) [] [] 0 (code_of term.now))) }
{
    let mut scope = Scope {
        kinds: Binders::new(alloc),
        vars: Binders::new(alloc),
    };
    check(alloc, known, &mut scope, 0, term)
}

// A closed term has this type.
fn root_rule(alloc: Global, known: &Known, term: &CoreTerm, wanted: &Type) -> Result<(), Stop>
    ensures ok { OnOk result (HasType (program_of known.now) [] [] (code_of term.now) (type_at wanted.now)) }
    ensures err { MatchResult result (λ _. Unit {0}) (λ s. Blames s (RootFails (program_of known.now) (code_of term.now) (type_at wanted.now))) }
{
    let found = check_closed(alloc, known, term)?;
    if same(wanted, &found.ty) {
        Ok(())
    } else {
        Err(Stop::Clash(found.next.saturating_sub(1), wanted.share()?, found.ty))
    }
}

// A definition has its type, which is one of values.
fn def_rule(alloc: Global, known: &Known, def: &Def) -> Result<(), Stop>
    ensures ok { OnOk result (DefTyped (program_of known.now) def.now) }
    ensures err { MatchResult result (λ _. Unit {0}) (λ s. Blames s (DefFails (program_of known.now) def.now)) }
{
    let none = Binders::new(alloc);
    let ty = place(alloc, &none, &def.ty)?;
    value_rule(alloc, known, &none, &ty, 0)?;
    root_rule(alloc, known, &def.term, &ty)
}

// The definitions of a program have their types.
fn check_defs(alloc: Global, known: &Known, defs: &[Def]) -> Result<(), LintFault>
    ensures ok { OnOk result (DefsTyped (program_of known.now) defs.now) }
    ensures err { MatchResult result (λ _. Unit {0}) (λ r. (main : Code) → Tells r (DefsFail (program_of known.now) 0 defs.now main)) }
{
    for place in 0..defs.len() {
        match def_rule(alloc, known, &defs[place]) {
            Ok(()) => {}
            Err(stop) => return Err(report(alloc, place, &stop)),
        }
    }
    Ok(())
}

// The term that is run is a string.
fn main_rule(alloc: Global, known: &Known, main: &CoreTerm) -> Result<(), Stop>
    ensures ok { OnOk result (HasType (program_of known.now) [] [] (code_of main.now) string_type) }
    ensures err { MatchResult result (λ _. Unit {0}) (λ s. Blames s (RootFails (program_of known.now) (code_of main.now) string_type)) }
{
    let wanted = string_type(alloc)?;
    root_rule(alloc, known, main, &wanted)
}

// The term that is run is a string. It counts as the definition after the last.
fn check_main(alloc: Global, known: &Known, main: &CoreTerm, count: usize) -> Result<(), LintFault>
    ensures ok { OnOk result (HasType (program_of known.now) [] [] (code_of main.now) string_type) }
    ensures err { MatchResult result (λ _. Unit {0}) (λ r. Tells r (λ at f. (at ≡ count) × RootFails (program_of known.now) (code_of main.now) string_type f)) }
{
    match main_rule(alloc, known, main) {
        Ok(()) => Ok(()),
        Err(stop) => Err(report(alloc, count, &stop)),
    }
}

// The terms of a program have their types.
fn check_terms(alloc: Global, known: &Known, program: &CoreProgram) -> Result<(), LintFault>
    ensures ok { OnOk result (DefsTyped (program_of known.now) program.now.defs × HasType (program_of known.now) [] [] (code_of program.now.main) string_type) }
    ensures err { MatchResult result (λ _. Unit {0}) (λ r. Tells r (DefsFail (program_of known.now) 0 program.now.defs (code_of program.now.main))) }
{
    let defs = program.defs.as_slice();
    match check_defs(alloc, known, defs) {
        Ok(()) => check_main(alloc, known, &program.main, defs.len()),
        Err(fault) => Err(fault),
    }
}

/// Whether a program of core is typed: by the rules of the higher-order polymorphic lambda calculus, with recursive
/// bindings, one-level cases and primitives, and `main` being a string. Otherwise the answer is the first fault: the
/// definitions count in order and `main` after the last, and nodes after their parts. A term counts before it is compared
/// with the type of its definition. Where a rule fails in both ways at a node, the fault is `Broken`.
///
/// `NoMemory` comes where there is no memory, or where a number in the answer is none of 32 bits.
pub fn lint(alloc: Global, program: &CoreProgram) -> Result<(), LintFault>
    ensures typed { OnOk result (IsTyped program.now) }
    ensures fault { MatchResult result (λ _. Unit {0}) (λ r. Tells r (ProgramFails program.now)) }
{
    let known = match Known::new(alloc, program)? {
        Some(known) => known,
        None => return Err(LintFault::Broken { def: 0, node: 0 }),
    };
    if !fields_fit(alloc, &known)? {
        return Err(LintFault::Broken { def: 0, node: 0 });
    }
    check_terms(alloc, &known, program)
}
