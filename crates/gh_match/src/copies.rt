// Copies of terms.
ghost use Rattle.std.specs.Prelude.{◌≡◌, IfOk};

use gh_base::{ListOf, NoMemory};
use gh_core::{CoreAlt, CoreTerm};
use gh_kind_index::copy_type;
use gh_typeterm::copy_kind;
use sqlite_items::Boxed;
use std::alloc::Global;

/// A copy of a term. Want of memory is the only refusal.
#[cycle(copy)]
pub fn copy_term(alloc: Global, term: &CoreTerm) -> Result<Boxed<CoreTerm>, NoMemory>
    ensures { IfOk result (λ copy. copy ≡ term.now) }
{
    match term {
        CoreTerm::Var(x) => Ok(Boxed::new(alloc, CoreTerm::Var(*x))?),
        CoreTerm::Global(name) => Ok(Boxed::new(alloc, CoreTerm::Global(*name))?),
        CoreTerm::Con(con) => Ok(Boxed::new(alloc, CoreTerm::Con(*con))?),
        CoreTerm::Int(number) => Ok(Boxed::new(alloc, CoreTerm::Int(*number))?),
        CoreTerm::Char(char) => Ok(Boxed::new(alloc, CoreTerm::Char(*char))?),
        CoreTerm::Str(chars) => {
            let chars = ListOf::from_slice(alloc, chars.as_slice())?;
            Ok(Boxed::new(alloc, CoreTerm::Str(chars))?)
        }
        CoreTerm::Prim(prim, place, ty) => {
            let ty = match ty {
                Some(ty) => Some(copy_type(alloc, ty)?.into_inner()),
                None => None,
            };
            Ok(Boxed::new(alloc, CoreTerm::Prim(*prim, *place, ty))?)
        }
        CoreTerm::Lam(x, ty, body) => {
            let body = copy_term(alloc, body.get())?;
            let ty = copy_type(alloc, ty)?.into_inner();
            Ok(Boxed::new(alloc, CoreTerm::Lam(*x, ty, body))?)
        }
        CoreTerm::App(function, argument) => {
            let function = copy_term(alloc, function.get())?;
            let argument = copy_term(alloc, argument.get())?;
            Ok(Boxed::new(alloc, CoreTerm::App(function, argument))?)
        }
        CoreTerm::TyLam(x, kind, body) => {
            let body = copy_term(alloc, body.get())?;
            let kind = copy_kind(alloc, kind)?;
            Ok(Boxed::new(alloc, CoreTerm::TyLam(*x, kind, body))?)
        }
        CoreTerm::TyApp(function, ty) => {
            let function = copy_term(alloc, function.get())?;
            let ty = copy_type(alloc, ty)?.into_inner();
            Ok(Boxed::new(alloc, CoreTerm::TyApp(function, ty))?)
        }
        CoreTerm::LetRec(bindings, body) => {
            let mut copies = ListOf::new(alloc);
            for (name, ty, term) in bindings.as_slice() {
                let ty = copy_type(alloc, ty)?.into_inner();
                copies.push((*name, ty, copy_term(alloc, term)?.into_inner()))?;
            }
            let body = copy_term(alloc, body.get())?;
            Ok(Boxed::new(alloc, CoreTerm::LetRec(copies, body))?)
        }
        CoreTerm::Case(scrutinee, ty, alternatives, otherwise) => {
            let scrutinee = copy_term(alloc, scrutinee.get())?;
            let ty = copy_type(alloc, ty)?.into_inner();
            let alternatives = copy_alternatives(alloc, alternatives.as_slice())?;
            let otherwise = match otherwise {
                Some(otherwise) => Some(copy_term(alloc, otherwise.get())?),
                None => None,
            };
            Ok(Boxed::new(
                alloc,
                CoreTerm::Case(scrutinee, ty, alternatives, otherwise),
            )?)
        }
        CoreTerm::Stop(place, ty) => {
            let ty = copy_type(alloc, ty)?.into_inner();
            Ok(Boxed::new(alloc, CoreTerm::Stop(*place, ty))?)
        }
    }
}

#[cycle(copy)]
fn copy_alternatives(alloc: Global, alternatives: &[CoreAlt]) -> Result<ListOf<CoreAlt>, NoMemory>
    ensures { IfOk result (λ copy. copy ≡ alternatives.now) }
{
    let mut copies = ListOf::new(alloc);
    for alternative in alternatives {
        copies.push(copy_alternative(alloc, alternative)?)?;
    }
    Ok(copies)
}

#[cycle(copy)]
fn copy_alternative(alloc: Global, alternative: &CoreAlt) -> Result<CoreAlt, NoMemory>
    ensures { IfOk result (λ copy. copy ≡ alternative.now) }
{
    match alternative {
        CoreAlt::Con(con, names, term) => {
            let names = ListOf::from_slice(alloc, names.as_slice())?;
            Ok(CoreAlt::Con(*con, names, copy_term(alloc, term)?.into_inner()))
        }
        CoreAlt::Int(number, term) => Ok(CoreAlt::Int(
            *number,
            copy_term(alloc, term)?.into_inner(),
        )),
        CoreAlt::Char(char, term) => Ok(CoreAlt::Char(*char, copy_term(alloc, term)?.into_inner())),
    }
}
