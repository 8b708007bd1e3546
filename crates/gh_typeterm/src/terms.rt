// Size, equality and substitution of type terms.
ghost use Rattle.std.specs.Prelude.{◌≡◌, ◌≤◌, ◌↔◌, IfOk, IsTrue, unwrap_or};
ghost use Rattle.std.specs.Option.{SomeIff};
ghost use Rattle.gh_typeterm.specs.Terms.{size_of, substituted, listed};

use crate::shared::Shared;
use crate::ty::{Ty, TyNode};
use gh_base::{ListOf, NoMemory};
use std::alloc::Global;

/// The number of nodes of a term, a shared part counted as often as it stands in the tree; none where that number
/// passes `most`. It looks at no more than `most` nodes, and takes no memory.
pub fn size(term: &Ty, most: u32) -> Option<u32>
    ensures { SomeIff result (size_of term.now ≤ most) (size_of term.now) }
{
    if most == 0 {
        return None;
    }
    match term.get() {
        TyNode::App(head, arg) => {
            let left = size(head, most - 1)?;
            let right = size(arg, most - 1 - left)?;
            Some(1 + left + right)
        }
        TyNode::Con(_) => Some(1),
        TyNode::Var(_) => Some(1),
        TyNode::Name(_) => Some(1),
    }
}

/// Whether two terms are equal as trees. It takes no memory.
pub fn same(a: &Ty, b: &Ty) -> bool
    ensures { IsTrue result ↔ (a.now ≡ b.now) }
{
    match (a.get(), b.get()) {
        (TyNode::Con(x), TyNode::Con(y)) => *x == *y,
        (TyNode::Var(x), TyNode::Var(y)) => *x == *y,
        (TyNode::Name(x), TyNode::Name(y)) => *x == *y,
        (TyNode::App(f, x), TyNode::App(g, y)) => same(f, g) && same(x, y),
        _ => false,
    }
}

/// The term with each variable that is listed replaced by its first term there. Variables that are not listed,
/// constructors and type names stay. A part in which nothing is replaced is shared with the old term.
pub fn substitute(alloc: Global, term: &Ty, by: &ListOf<(u32, Ty)>) -> Result<Ty, NoMemory>
    ensures { IfOk result (λ made. made ≡ substituted by.now term.now) }
{
    match changed(alloc, term, by.as_slice())? {
        Some(made) => Ok(made),
        None => term.share(),
    }
}

// The term after the replacements, or none where nothing in it is replaced.
fn changed(alloc: Global, term: &Ty, by: &[(u32, Ty)]) -> Result<Option<Ty>, NoMemory>
    ensures { IfOk result (λ made. unwrap_or made term.now ≡ substituted by.now term.now) }
{
    match term.get() {
        TyNode::Con(_) => Ok(None),
        TyNode::Name(_) => Ok(None),
        TyNode::Var(number) => first_listed(by, *number),
        TyNode::App(head, arg) => {
            let new_head = changed(alloc, head, by)?;
            let new_arg = changed(alloc, arg, by)?;
            rebuilt(alloc, head, new_head, arg, new_arg)
        }
    }
}

fn first_listed(by: &[(u32, Ty)], number: u32) -> Result<Option<Ty>, NoMemory>
    ensures { IfOk result (λ found. found ≡ listed by.now number) }
{
    for (at, term) in by {
        if *at == number {
            return Ok(Some(term.share()?));
        }
    }
    Ok(None)
}

// The application of the new parts, each old part standing where there is no new one.
fn rebuilt(
    alloc: Global,
    head: &Ty,
    new_head: Option<Ty>,
    arg: &Ty,
    new_arg: Option<Ty>,
) -> Result<Option<Ty>, NoMemory>
    ensures { IfOk result (λ made. unwrap_or made (TyNode.App head.now arg.now)
        ≡ TyNode.App (unwrap_or new_head head.now) (unwrap_or new_arg arg.now)) }
{
    match (new_head, new_arg) {
        (None, None) => Ok(None),
        (Some(new_head), None) => Ok(Some(Ty::app(alloc, new_head, arg.share()?)?)),
        (None, Some(new_arg)) => Ok(Some(Ty::app(alloc, head.share()?, new_arg)?)),
        (Some(new_head), Some(new_arg)) => Ok(Some(Ty::app(alloc, new_head, new_arg)?)),
    }
}
