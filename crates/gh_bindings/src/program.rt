// The core of a program of bindings.
ghost use Rattle.std.specs.Prelude.{◌≡◌, IfOk, ◌∷◌, [], map};
ghost use Rattle.gh_bindings.specs.Core.{append_def, binding_def, core_program, joined_term, list_decl, operand_term};

use crate::append::{append_def, joined_at};
use crate::binding::{Binding, Operand};
use crate::names::main_value;
use crate::types::{character, list_decl, list_of};
use gh_base::fixed::MAIN;
use gh_base::{ListOf, NoMemory};
use gh_core::{CoreName, CoreProgram, CoreTerm, Def};
use gh_typeterm::DeclData;
use sqlite_items::Boxed;
use std::alloc::Global;

/// The core of a program of bindings: the datatype of lists; the definition of the Prelude's `++`, a function of two
/// arguments with a case on the first; and one definition for each binding, in order, whose operands are joined from the
/// right by `++`. Its main is the global of the name `main`, bound or not. Want of memory is the only refusal.
pub fn core_of(alloc: Global, bindings: &[Binding]) -> Result<CoreProgram, NoMemory>
    ensures program { IfOk result (λ core. core ≡ core_program bindings.now) }
{
    let decls = datatypes(alloc)?;
    let defs = definitions(alloc, bindings)?;
    let main = CoreTerm::Global(CoreName::Plain(main_value(MAIN)));
    Ok(CoreProgram { decls, defs, main })
}

fn datatypes(alloc: Global) -> Result<ListOf<DeclData>, NoMemory>
    ensures { IfOk result (λ decls. decls ≡ list_decl ∷ []) }
{
    let mut decls = ListOf::new(alloc);
    decls.push(list_decl(alloc)?)?;
    Ok(decls)
}

// The definition of `++`, and one for each binding.
fn definitions(alloc: Global, bindings: &[Binding]) -> Result<ListOf<Def>, NoMemory>
    ensures { IfOk result (λ defs. defs ≡ append_def ∷ map binding_def bindings.now) }
{
    let mut defs = ListOf::new(alloc);
    defs.push(append_def(alloc)?)?;
    for binding in bindings {
        defs.push(binding_def(alloc, binding)?)?;
    }
    Ok(defs)
}

// The definition of a binding, which is a list of characters.
fn binding_def(alloc: Global, binding: &Binding) -> Result<Def, NoMemory>
    ensures { IfOk result (λ def. def ≡ binding_def binding.now) }
{
    let ty = list_of(alloc, character())?;
    let term = joined_term(alloc, binding.operands.as_slice())?;
    Ok(Def {
        name: CoreName::Plain(main_value(binding.name)),
        ty,
        term: term.into_inner(),
    })
}

// The operands joined from the right; none stands for the empty string.
fn joined_term(alloc: Global, operands: &[Operand]) -> Result<Boxed<CoreTerm>, NoMemory>
    ensures { IfOk result (λ term. term ≡ joined_term operands.now) }
{
    let count = operands.len();
    if count == 0 {
        return Ok(Boxed::new(alloc, CoreTerm::Str(ListOf::new(alloc)))?);
    }
    let mut term = operand_term(alloc, &operands[count - 1])?;
    for at in (0..count - 1).rev() {
        let left = operand_term(alloc, &operands[at])?;
        term = joined_at(alloc, character(), left, term)?;
    }
    Ok(term)
}

fn operand_term(alloc: Global, operand: &Operand) -> Result<Boxed<CoreTerm>, NoMemory>
    ensures { IfOk result (λ term. term ≡ operand_term operand.now) }
{
    let term = match operand {
        Operand::Name(name, _) => CoreTerm::Global(CoreName::Plain(main_value(*name))),
        Operand::Text(chars) => CoreTerm::Str(ListOf::from_slice(alloc, chars.as_slice())?),
    };
    Ok(Boxed::new(alloc, term)?)
}
