// The kinds of types.
ghost use Rattle.std.specs.Prelude.{◌≡◌, ◌↔◌, [], slice_get, IfOk, IsTrue, Some};
ghost use Rattle.gh_typeterm.specs.declared.kind.Kind.TheVariants as kind;
ghost use Rattle.gh_core.specs.Typing.{arrow_kinds, con_kind, kind_at, HasKind};
ghost use Rattle.gh_core_lint.specs.Kinds.{round, IsApplied, IsKind, IsStar};
ghost use Rattle.gh_core_lint.specs.Programs.{program_of};
ghost use Rattle.gh_core_lint.specs.Types.{type_at};

use crate::binders::Binders;
use crate::known::Known;
use crate::types::{Node, Type};
use gh_base::{NoMemory, TyCon};
use gh_typeterm::{Kind, copy_kind, same_kind};
use sqlite_items::Boxed;
use std::alloc::Global;

/// The kinds of the binders of a type round a part of it: those of a datatype's parameters, the last being the nearest, or
/// of a `forall`.
#[derive(Drop)]
pub enum Round<'a> {
    Outside,
    Params(&'a [Kind]),
    Inside(&'a Kind, &'a Round<'a>),
}

fn make_arrow(alloc: Global, from: Kind, to: Kind) -> Result<Kind, NoMemory>
    ensures { IfOk result (λ made. made ≡ kind.Arrow from to) }
{
    let from = Boxed::new(alloc, from)?;
    let to = Boxed::new(alloc, to)?;
    Ok(Kind::Arrow(from, to))
}

// The kind of a datatype with these parameters.
fn params_kind(alloc: Global, params: &[Kind]) -> Result<Kind, NoMemory>
    ensures { IfOk result (λ made. made ≡ arrow_kinds params.now) }
{
    let mut made = Kind::Star;
    let mut left = params.len();
    while left > 0 {
        left -= 1;
        let param = copy_kind(alloc, &params[left])?;
        made = make_arrow(alloc, param, made)?;
    }
    Ok(made)
}

fn kind_of_con(alloc: Global, known: &Known, c: TyCon) -> Result<Option<Kind>, NoMemory>
    ensures { IfOk result (λ made. made ≡ con_kind (program_of known.now).decls c) }
{
    match c {
        TyCon::Named(origin) => match known.datatype(origin) {
            Some(decl) => Ok(Some(params_kind(alloc, decl.params.as_slice())?)),
            None => Ok(None),
        },
        TyCon::Arrow => {
            let inner = make_arrow(alloc, Kind::Star, Kind::Star)?;
            Ok(Some(make_arrow(alloc, Kind::Star, inner)?))
        }
        TyCon::Int => Ok(Some(Kind::Star)),
        TyCon::Char => Ok(Some(Kind::Star)),
        TyCon::ConOf(_) => Ok(None),
    }
}

fn kind_inside(alloc: Global, inner: &Round, index: usize) -> Result<Option<Kind>, NoMemory>
    ensures { IfOk result (λ made. made ≡ slice_get (round inner.now) index) }
{
    match inner {
        Round::Outside => Ok(None),
        Round::Params(kinds) => {
            if index < kinds.len() {
                Ok(Some(copy_kind(alloc, &kinds[kinds.len() - 1 - index])?))
            } else {
                Ok(None)
            }
        }
        Round::Inside(kind, outer) => {
            if index == 0 {
                Ok(Some(copy_kind(alloc, *kind)?))
            } else {
                kind_inside(alloc, &**outer, index - 1)
            }
        }
    }
}

fn kind_outside(
    alloc: Global,
    kinds: &Binders<Kind>,
    level: usize,
) -> Result<Option<Kind>, NoMemory>
    ensures { IfOk result (λ made. made ≡ kind_at kinds.now level) }
{
    match kinds.at(level) {
        Some(kind) => Ok(Some(copy_kind(alloc, kind)?)),
        None => Ok(None),
    }
}

// The kind of a type of one kind applied to one of another.
fn applied_kind(
    alloc: Global,
    function: &Option<Kind>,
    argument: &Option<Kind>,
) -> Result<Option<Kind>, NoMemory>
    ensures { IfOk result (λ made. IsApplied function.now argument.now made) }
{
    match (function, argument) {
        (Some(Kind::Arrow(from, to)), Some(argument)) => {
            if same_kind(from.get(), argument) {
                Ok(Some(copy_kind(alloc, to.get())?))
            } else {
                Ok(None)
            }
        }
        _ => Ok(None),
    }
}

fn star_only(kind: Option<Kind>) -> Option<Kind>
    ensures { IsStar kind result }
{
    match kind {
        Some(Kind::Star) => Some(Kind::Star),
        _ => None,
    }
}

fn kind_of(
    alloc: Global,
    known: &Known,
    kinds: &Binders<Kind>,
    inner: &Round,
    ty: &Type,
) -> Result<Option<Kind>, NoMemory>
    ensures { IfOk result (λ made. IsKind (program_of known.now).decls kinds.now (round inner.now) (type_at ty.now) made) }
{
    match ty.get() {
        Node::Bound(index) => kind_inside(alloc, &*inner, *index),
        Node::Free(level) => kind_outside(alloc, kinds, *level),
        Node::Con(c) => kind_of_con(alloc, known, *c),
        Node::App(f, x) => {
            let function = kind_of(alloc, known, kinds, &*inner, f)?;
            let argument = kind_of(alloc, known, kinds, &*inner, x)?;
            applied_kind(alloc, &function, &argument)
        }
        Node::Forall(kind, body) => {
            let under = Round::Inside(kind, &*inner);
            let body = kind_of(alloc, known, kinds, &under, body)?;
            Ok(star_only(body))
        }
        Node::Any(kind) => Ok(Some(copy_kind(alloc, kind)?)),
    }
}

/// Whether a type has a kind.
pub fn has_kind(
    alloc: Global,
    known: &Known,
    kinds: &Binders<Kind>,
    inner: &Round,
    ty: &Type,
    kind: &Kind,
) -> Result<bool, NoMemory>
    ensures { IfOk result (λ holds. IsTrue holds ↔ HasKind (program_of known.now).decls kinds.now (round inner.now) (type_at ty.now) kind.now) }
{
    match kind_of(alloc, known, kinds, &*inner, ty)? {
        Some(found) => Ok(same_kind(&found, kind)),
        None => Ok(false),
    }
}

/// Whether a type inside type variables is of values.
pub fn is_value_type(
    alloc: Global,
    known: &Known,
    kinds: &Binders<Kind>,
    ty: &Type,
) -> Result<bool, NoMemory>
    ensures { IfOk result (λ holds. IsTrue holds ↔ HasKind (program_of known.now).decls kinds.now [] (type_at ty.now) kind.Star) }
{
    has_kind(alloc, known, kinds, &Round::Outside, ty, &Kind::Star)
}
