// The names that a program uses.
ghost use Rattle.std.specs.Prelude.{◌≡◌, Some, None};
ghost use Rattle.gh_check.specs.Check.{linked_of};
ghost use Rattle.gh_check.specs.Scope.{unknown_use, first_in, first_unknown};

use crate::phases::Checked;
use gh_base::Refusal;
use gh_base::fixed::MAIN;
use gh_bindings::Operand;
use gh_tree_form::Bindings;

// The refusal of an operand that is a name without a binding.
fn unknown_use(bindings: &Bindings, operand: &Operand) -> Option<Refusal>
    ensures { result ≡ unknown_use bindings.now operand.now }
{
    match operand {
        Operand::Text(_) => None,
        Operand::Name(name, span) => {
            if bindings.has(*name) {
                return None;
            }
            Some(Refusal::UnknownName {
                span: *span,
                name: *name,
            })
        }
    }
}

// The refusal of the first of them.
#[tactic(auto, using(crate::proofs::Links::first_found, crate::proofs::Links::first_missed))]
fn first_in(bindings: &Bindings, operands: &[Operand]) -> Option<Refusal>
    ensures { result ≡ first_in bindings.now operands.now }
{
    for operand in operands {
        if let Some(refusal) = unknown_use(bindings, operand) {
            return Some(refusal);
        }
    }
    None
}

// The refusal of the first name of the program that has no binding.
#[tactic(auto, using(crate::proofs::Links::first_found, crate::proofs::Links::first_missed))]
fn first_unknown(bindings: &Bindings) -> Option<Refusal>
    ensures { result ≡ first_unknown bindings.now bindings.now }
{
    for binding in bindings.as_slice() {
        if let Some(refusal) = first_in(bindings, binding.operands.as_slice()) {
            return Some(refusal);
        }
    }
    None
}

/// The program, or its refusal: it binds no `main`, or uses a name without a binding. It takes no memory.
#[tactic(auto, unfolding(crate::specs::Check::linked_of))]
pub fn link(bindings: Bindings) -> Checked
    ensures { result ≡ linked_of bindings }
{
    if !bindings.has(MAIN) {
        return Checked::Refused(Refusal::NoMain);
    }
    match first_unknown(&bindings) {
        Some(refusal) => Checked::Refused(refusal),
        None => Checked::Program(bindings),
    }
}
