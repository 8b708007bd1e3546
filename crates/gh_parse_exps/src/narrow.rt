// What an expression is: whether it has a type, and whether its last operand goes on to the right.
ghost use Rattle.std.specs.Prelude.{◌≡◌, map};
ghost use Rattle.gh_tree.specs.Print as printed;
ghost use Rattle.gh_parse_exps.specs.Decls as spec;

use gh_tree::{Exp, NextOperand, Operand, OperandList};
use sqlite_items::Boxed;

/// Whether an operand goes on to the right as far as it can.
#[tactic(auto, using(crate::proofs::IsOpen::apply_closed, crate::proofs::IsOpen::case_closed, crate::proofs::IsOpen::open_is))]
pub fn is_open(operand: &Operand) -> bool
    ensures { result ≡ (printed.operand operand.now).is_open }
{
    match operand {
        Operand::Apply(..) | Operand::Case(..) => false,
        Operand::Open(_) => true,
    }
}

// Whether the operand behind an operator does.
#[tactic(auto, using(crate::proofs::IsOpen::next_open))]
fn next_is_open(next: &NextOperand) -> bool
    ensures { result ≡ (printed.next_operand next.now).is_open }
{
    is_open(&next.operand)
}

/// Whether only the last of operands goes on to the right, where `was` says whether the one before them does.
pub fn closed_before(was: bool, others: &[NextOperand]) -> bool
    ensures { result ≡ printed.closed_before was (map printed.next_operand others.now) }
{
    let mut before = was;
    for i in 0..others.len() {
        if before {
            return false;
        }
        before = next_is_open(&others[i]);
    }
    true
}

// Whether the last of operands goes on to the right, where `was` says whether the one before them does.
fn last_open(was: bool, others: &[NextOperand]) -> bool
    ensures { result ≡ printed.last_open was (map printed.next_operand others.now) }
{
    let mut last = was;
    for i in 0..others.len() {
        last = next_is_open(&others[i]);
    }
    last
}

/// Whether the last operand goes on to the right.
#[tactic(auto, using(crate::proofs::IsOpen::operands_open))]
pub fn operands_open(operands: &OperandList) -> bool
    ensures { result ≡ (printed.operands operands.now).is_open }
{
    last_open(is_open(&operands.first), operands.others.as_slice())
}

/// The operands of an expression that has no type.
#[tactic(auto, using(crate::proofs::IsOpen::plain_plain, crate::proofs::IsOpen::plain_typed))]
pub fn plain_of(exp: Exp) -> Option<Boxed<OperandList>>
    ensures { result ≡ spec.plain_of exp }
{
    match exp {
        Exp::Plain(operands) => Some(operands),
        Exp::Typed(..) => None,
    }
}
