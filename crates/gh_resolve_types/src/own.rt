// Types whose variables are all their own.
ghost use Rattle.std.specs.Prelude.{◌≡◌, ◌++◌, [], IfOk, OnOk};
ghost use Rattle.gh_resolve_names.specs.Misuses.{least};
ghost use Rattle.gh_resolve_types.specs.Types as spec;

use crate::types::type_expr;
use crate::variables::add_type;
use gh_base::{ListOf, NoMemory};
use gh_binders::{Binders, enter};
use gh_program::TypeExpr;
use gh_resolve_names::{Context, Misuse};
use std::alloc::Global;

/// The type of a signature or of an annotation. All its variables are its own (Haskell 98 Report, 4.4.1), each with the
/// number of the first byte of its first place.
#[tactic(auto, using(crate::proofs::Lengths::append_none))]
pub fn own_type(
    alloc: Global,
    context: &Context,
    found: &mut Option<Misuse>,
    node: &gh_tree::TypeExpr,
) -> Result<TypeExpr, NoMemory>
    ensures value { IfOk result (λ made. made ≡ (spec.own_type context.now node.now).tree) }
    ensures found { OnOk result (found.new ≡ least found.old (spec.own_type context.now node.now).misuses) }
{
    let mut variables = ListOf::new(alloc);
    add_type(&mut variables, node)?;
    let mut names = Binders::new(alloc);
    enter(&mut names, variables.as_slice())?;
    type_expr(alloc, context, &names, found, 0, node)
}
