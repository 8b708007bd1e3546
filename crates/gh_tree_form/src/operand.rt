// Operands, and operands with `++` between them (Haskell 98 Report, 3.4).
ghost use Rattle.std.specs.Prelude.{◌≡◌, IfOk};
ghost use Rattle.gh_tree_form.specs.Form as spec;

use gh_base::fixed::APPEND;
use gh_base::{ListOf, NoMemory};
use gh_bindings::Operand;
use gh_tree::{Aexp, Name, NextOperand, Op, OperandList, Var, VarOp};
use std::alloc::Global;

/// The name of a variable that is a word without a qualifier.
pub fn word_of(var: &Var) -> Option<Name>
    ensures { result ≡ spec.word_of var.now }
{
    match var {
        Var::Word(name) => {
            if name.qualifier.is_none() {
                Some(*name)
            } else {
                None
            }
        }
        Var::Symbol(..) => None,
    }
}

// The operand that a variable is.
fn name_operand(name: Option<Name>) -> Option<Operand>
    ensures { result ≡ spec.name_operand name }
{
    match name {
        None => None,
        Some(name) => Some(Operand::Name(name.id, name.span)),
    }
}

// The operand that stands without arguments.
#[tactic(auto, using(crate::proofs::Shapes::argument_var, crate::proofs::Shapes::argument_generic, crate::proofs::Shapes::argument_con, crate::proofs::Shapes::argument_int, crate::proofs::Shapes::argument_char, crate::proofs::Shapes::argument_str, crate::proofs::Shapes::argument_paren, crate::proofs::Shapes::argument_tuple, crate::proofs::Shapes::argument_list, crate::proofs::Shapes::argument_left, crate::proofs::Shapes::argument_right))]
fn argument_of(alloc: Global, node: &Aexp) -> Result<Option<Operand>, NoMemory>
    ensures { IfOk result (λ o. o ≡ spec.argument_of node.now) }
{
    match node {
        Aexp::Var(var) => Ok(name_operand(word_of(var))),
        Aexp::Str(_, chars) => {
            let chars = ListOf::from_slice(alloc, chars.as_slice())?;
            Ok(Some(Operand::Text(chars)))
        }
        Aexp::Generic(..) => Ok(None),
        Aexp::Con(_) => Ok(None),
        Aexp::Int(..) => Ok(None),
        Aexp::Char(..) => Ok(None),
        Aexp::Paren(..) => Ok(None),
        Aexp::Tuple(..) => Ok(None),
        Aexp::List(..) => Ok(None),
        Aexp::Left(..) => Ok(None),
        Aexp::Right(..) => Ok(None),
    }
}

// An operand of the form.
#[tactic(auto, using(crate::proofs::Shapes::operand_apply, crate::proofs::Shapes::operand_case, crate::proofs::Shapes::operand_open))]
fn operand_of(alloc: Global, node: &gh_tree::Operand) -> Result<Option<Operand>, NoMemory>
    ensures { IfOk result (λ o. o ≡ spec.operand_of node.now) }
{
    match node {
        gh_tree::Operand::Apply(_, head, arguments) => match arguments.as_slice() {
            [] => Ok(argument_of(alloc, head.get())?),
            [_first, ..] => Ok(None),
        },
        gh_tree::Operand::Case(..) => Ok(None),
        gh_tree::Operand::Open(_) => Ok(None),
    }
}

// Whether an operator is `++`.
fn is_append(op: &Op) -> bool
    ensures { result ≡ spec.is_append op.now }
{
    match op {
        Op::Var(VarOp::Symbol(name)) => name.qualifier.is_none() && name.id.0 == APPEND.0,
        Op::Var(VarOp::Quoted(..)) => false,
        Op::Con(_) => false,
    }
}

// An operand behind `++`.
#[tactic(auto, unfolding(crate::specs::Form::next_of))]
fn next_of(alloc: Global, node: &NextOperand) -> Result<Option<Operand>, NoMemory>
    ensures { IfOk result (λ o. o ≡ spec.next_of node.now) }
{
    if is_append(&node.op) && node.minus.is_none() {
        return Ok(operand_of(alloc, &node.operand)?);
    }
    Ok(None)
}

// These operands, behind those that are known.
fn operands_from(
    known: ListOf<Operand>,
    alloc: Global,
    others: &[NextOperand],
) -> Result<Option<ListOf<Operand>>, NoMemory>
    ensures { IfOk result (λ os. os ≡ spec.operands_from known others.now) }
{
    let mut known = known;
    for next in others {
        match next_of(alloc, next)? {
            Some(operand) => known.push(operand)?,
            None => return Ok(None),
        }
    }
    Ok(Some(known))
}

/// Operands with `++` between them.
#[tactic(auto, unfolding(crate::specs::Form::operands_of))]
pub fn operands_of(alloc: Global, node: &OperandList) -> Result<Option<ListOf<Operand>>, NoMemory>
    ensures { IfOk result (λ os. os ≡ spec.operands_of node.now) }
{
    if node.minus.is_some() {
        return Ok(None);
    }
    match operand_of(alloc, &node.first)? {
        None => Ok(None),
        Some(first) => {
            let mut known = ListOf::new(alloc);
            known.push(first)?;
            Ok(operands_from(known, alloc, node.others.as_slice())?)
        }
    }
}
