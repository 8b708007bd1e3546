// Large nodes of a tree, built and kept in functions of their own: a frame of the recursion has no room for one.
ghost use Rattle.std.specs.Prelude.{◌≡◌, ◌++◌, ◌∷◌, [], IfOk};
ghost use Rattle.gh_parse_exps.specs.Decls as spec;
ghost use Rattle.gh_parse_exps.specs.Exps as exps;

use crate::held::kept;
use gh_base::{ListOf, NoMemory, Span};
use gh_parse_lefts::Left;
use gh_tree::{Alt, AltItem, BlockMark, Decl, DeclItem, Rhs};
use sqlite_items::Boxed;
use std::alloc::Global;

/// A declaration of these parts.
#[inline(never)]
pub fn boxed_decl(
    alloc: Global,
    left: Boxed<Left>,
    span: Span,
    right: Boxed<Rhs>,
) -> Result<Boxed<Decl>, NoMemory>
    ensures { IfOk result (λ d. d ≡ spec.decl_of left span right) }
{
    match left.into_inner() {
        Left::Function(left) => Ok(Boxed::new(
            alloc,
            Decl::Function(span, left, right.into_inner()),
        )?),
        Left::Pattern(left) => Ok(Boxed::new(
            alloc,
            Decl::Pattern(span, left, right.into_inner()),
        )?),
    }
}

/// A declaration with each `;` behind it.
#[inline(never)]
pub fn boxed_decl_item(
    alloc: Global,
    decl: Boxed<Decl>,
    marks: ListOf<BlockMark>,
) -> Result<Boxed<DeclItem>, NoMemory>
    ensures { IfOk result (λ x. x ≡ spec.decl_item_of decl marks) }
{
    Ok(Boxed::new(
        alloc,
        DeclItem {
            decl: decl.into_inner(),
            marks,
        },
    )?)
}

/// One declaration more.
#[inline(never)]
pub fn kept_decl(
    found: ListOf<DeclItem>,
    item: Boxed<DeclItem>,
) -> Result<ListOf<DeclItem>, NoMemory>
    ensures { IfOk result (λ all. all ≡ found ++ item ∷ []) }
{
    kept(found, item.into_inner())
}

/// An alternative with each `;` behind it.
#[inline(never)]
pub fn boxed_alt_item(
    alloc: Global,
    alt: Boxed<Alt>,
    marks: ListOf<BlockMark>,
) -> Result<Boxed<AltItem>, NoMemory>
    ensures { IfOk result (λ x. x ≡ exps.alt_item_of alt marks) }
{
    Ok(Boxed::new(
        alloc,
        AltItem {
            alt: alt.into_inner(),
            marks,
        },
    )?)
}

/// One alternative more.
#[inline(never)]
pub fn kept_alt(found: ListOf<AltItem>, item: Boxed<AltItem>) -> Result<ListOf<AltItem>, NoMemory>
    ensures { IfOk result (λ all. all ≡ found ++ item ∷ []) }
{
    kept(found, item.into_inner())
}
