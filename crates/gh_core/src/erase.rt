// Core programs without their types.
ghost use Rattle.std.specs.Prelude.{◌≡◌, ◌++◌, IfOk, map};
ghost use Rattle.gh_core.specs.Erase.{erased, erased_alt, erased_def, erased_program, newtypes_in, newtypes_of};

use crate::erased::{Erased, ErasedAlt, ErasedTerm};
use crate::terms::{CoreAlt, CoreName, CoreProgram, CoreTerm, Def};
use gh_base::{ListOf, NoMemory, Origin};
use gh_typeterm::DeclData;
use sqlite_items::Boxed;
use std::alloc::Global;

/// The same program without types: functions of types and their applications give way to the terms in them. The
/// newtypes' constructors stand in the order of their declarations.
pub fn erase_core(alloc: Global, program: &CoreProgram) -> Result<Erased, NoMemory>
    ensures { IfOk result (λ made. made ≡ erased_program program.now) }
{
    let newtypes = newtypes(alloc, program.decls.as_slice())?;
    let defs = erase_defs(alloc, program.defs.as_slice())?;
    let main = erase_term(alloc, &program.main)?;
    Ok(Erased {
        newtypes,
        defs,
        main,
    })
}

// The constructors of the declarations that are newtypes.
fn newtypes(alloc: Global, decls: &[DeclData]) -> Result<ListOf<Origin>, NoMemory>
    ensures { IfOk result (λ made. made ≡ newtypes_of decls.now) }
{
    let mut made = ListOf::new(alloc);
    for decl in decls {
        add_newtype(&mut made, decl)?;
    }
    Ok(made)
}

// Adds the constructors of a declaration that is a newtype.
fn add_newtype(made: &mut ListOf<Origin>, decl: &DeclData) -> Result<(), NoMemory>
    ensures { IfOk result (λ _. made.new ≡ made.old ++ newtypes_in decl.now.is_newtype decl.now.constructors) }
{
    if !decl.is_newtype {
        return Ok(());
    }
    for con in decl.constructors.as_slice() {
        made.push(con.origin)?;
    }
    Ok(())
}

fn erase_defs(alloc: Global, defs: &[Def]) -> Result<ListOf<(CoreName, ErasedTerm)>, NoMemory>
    ensures { IfOk result (λ made. made ≡ map erased_def defs.now) }
{
    let mut made = ListOf::new(alloc);
    for def in defs {
        made.push((def.name, erase_term(alloc, &def.term)?))?;
    }
    Ok(made)
}

#[cycle(erase)]
#[tactic(auto, using(crate::proofs::Shapes::letrec_out))]
fn erase_term(alloc: Global, term: &CoreTerm) -> Result<ErasedTerm, NoMemory>
    ensures { IfOk result (λ made. made ≡ erased term.now) }
{
    match term {
        CoreTerm::Var(x) => Ok(ErasedTerm::Var(*x)),
        CoreTerm::Global(name) => Ok(ErasedTerm::Global(*name)),
        CoreTerm::Con(con) => Ok(ErasedTerm::Con(*con)),
        CoreTerm::Int(number) => Ok(ErasedTerm::Int(*number)),
        CoreTerm::Char(char) => Ok(ErasedTerm::Char(*char)),
        CoreTerm::Str(chars) => Ok(ErasedTerm::Str(ListOf::from_slice(alloc, chars.as_slice())?)),
        CoreTerm::Prim(prim, place, _) => Ok(ErasedTerm::Prim(*prim, *place)),
        CoreTerm::Lam(x, _, body) => {
            let body = Boxed::new(alloc, erase_term(alloc, body.get())?)?;
            Ok(ErasedTerm::Lam(*x, body))
        }
        CoreTerm::App(function, argument) => {
            let function = Boxed::new(alloc, erase_term(alloc, function.get())?)?;
            let argument = Boxed::new(alloc, erase_term(alloc, argument.get())?)?;
            Ok(ErasedTerm::App(function, argument))
        }
        CoreTerm::TyLam(_, _, body) => Ok(erase_term(alloc, body.get())?),
        CoreTerm::TyApp(function, _) => Ok(erase_term(alloc, function.get())?),
        CoreTerm::LetRec(bindings, body) => {
            let mut made = ListOf::new(alloc);
            for (name, _, term) in bindings.as_slice() {
                made.push((*name, erase_term(alloc, term)?))?;
            }
            let body = Boxed::new(alloc, erase_term(alloc, body.get())?)?;
            Ok(ErasedTerm::LetRec(made, body))
        }
        CoreTerm::Case(scrutinee, _, alternatives, otherwise) => {
            let scrutinee = Boxed::new(alloc, erase_term(alloc, scrutinee.get())?)?;
            let alternatives = erase_alternatives(alloc, alternatives.as_slice())?;
            let otherwise = match otherwise {
                Some(otherwise) => Some(Boxed::new(alloc, erase_term(alloc, otherwise.get())?)?),
                None => None,
            };
            Ok(ErasedTerm::Case(scrutinee, alternatives, otherwise))
        }
        CoreTerm::Stop(place, _) => Ok(ErasedTerm::Stop(*place)),
    }
}

#[cycle(erase)]
fn erase_alternatives(
    alloc: Global,
    alternatives: &[CoreAlt],
) -> Result<ListOf<ErasedAlt>, NoMemory>
    ensures { IfOk result (λ made. made ≡ map erased_alt alternatives.now) }
{
    let mut made = ListOf::new(alloc);
    for alternative in alternatives {
        made.push(erase_alternative(alloc, alternative)?)?;
    }
    Ok(made)
}

#[cycle(erase)]
fn erase_alternative(alloc: Global, alternative: &CoreAlt) -> Result<ErasedAlt, NoMemory>
    ensures { IfOk result (λ made. made ≡ erased_alt alternative.now) }
{
    match alternative {
        CoreAlt::Con(con, names, term) => {
            let names = ListOf::from_slice(alloc, names.as_slice())?;
            Ok(ErasedAlt::Con(*con, names, erase_term(alloc, term)?))
        }
        CoreAlt::Int(number, term) => Ok(ErasedAlt::Int(*number, erase_term(alloc, term)?)),
        CoreAlt::Char(char, term) => Ok(ErasedAlt::Char(*char, erase_term(alloc, term)?)),
    }
}
