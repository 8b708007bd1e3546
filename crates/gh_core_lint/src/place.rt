// Written types inside type variables.
ghost use Rattle.std.specs.Prelude.{◌≡◌, length, IfOk};
ghost use Rattle.gh_core.specs.SameType.{nameless, nameless_var};
ghost use Rattle.gh_core.specs.Typing.{layered, level_in, placed, type_of};
ghost use Rattle.gh_core_lint.specs.Types.{indexed, numbers, type_at};

use crate::binders::Binders;
use crate::types::{
    Type, make_any, make_app, make_bound, make_con, make_forall, make_free, next, plus,
};
use gh_base::fixed::{CON, PRELUDE};
use gh_base::{NoMemory, Origin, Space, TyCon};
use gh_core::CoreType;
use gh_typeterm::Kind;
use std::alloc::Global;

// The binders of a type round a part of it, the nearest first, each by its number.
#[derive(Drop)]
enum Foralls<'a> {
    Outside,
    Inside(u32, &'a Foralls<'a>),
}

/// The layer of a constructor is one type for all constructors.
pub fn layer(c: TyCon) -> TyCon
    ensures { result ≡ layered c }
{
    match c {
        TyCon::ConOf(_) => TyCon::Named(Origin {
            module: PRELUDE,
            space: Space::Types,
            name: CON,
        }),
        TyCon::Named(origin) => TyCon::Named(origin),
        TyCon::Arrow => TyCon::Arrow,
        TyCon::Int => TyCon::Int,
        TyCon::Char => TyCon::Char,
    }
}

// How many binders of the type stand between a variable and its own; none for a free one.
fn index_of(inner: &Foralls, number: u32) -> Result<Option<usize>, NoMemory>
    ensures { IfOk result (λ found. indexed found number ≡ nameless_var (numbers inner.now) number) }
{
    match inner {
        Foralls::Outside => Ok(None),
        Foralls::Inside(binder, outer) => {
            if *binder == number {
                return Ok(Some(0));
            }
            match index_of(&**outer, number)? {
                Some(index) => Ok(Some(next(index)?)),
                None => Ok(None),
            }
        }
    }
}

// The level of a variable that no binder of the type binds.
fn level_of(kinds: &Binders<Kind>, number: u32) -> Result<usize, NoMemory>
    ensures { IfOk result (λ level. level ≡ level_in kinds.now number (length kinds.now)) }
{
    match kinds.place(number) {
        Some(place) => Ok(place),
        None => plus(kinds.count(), number as usize),
    }
}

fn variable(
    alloc: Global,
    kinds: &Binders<Kind>,
    inner: &Foralls,
    number: u32,
) -> Result<Type, NoMemory>
    ensures { IfOk result (λ made. type_at made ≡ placed kinds.now (nameless_var (numbers inner.now) number)) }
{
    match index_of(inner, number)? {
        Some(index) => make_bound(alloc, index),
        None => make_free(alloc, level_of(kinds, number)?),
    }
}

fn place_under(
    alloc: Global,
    kinds: &Binders<Kind>,
    inner: &Foralls,
    ty: &CoreType,
) -> Result<Type, NoMemory>
    ensures { IfOk result (λ made. type_at made ≡ placed kinds.now (nameless ty.now (numbers inner.now))) }
{
    match ty {
        CoreType::Var(number) => variable(alloc, kinds, &*inner, *number),
        CoreType::Con(c) => make_con(alloc, layer(*c)),
        CoreType::App(f, x) => {
            let f = place_under(alloc, kinds, &*inner, f.get())?;
            let x = place_under(alloc, kinds, &*inner, x.get())?;
            make_app(alloc, f, x)
        }
        CoreType::Forall(number, kind, body) => {
            let under = Foralls::Inside(*number, &*inner);
            let body = place_under(alloc, kinds, &under, body.get())?;
            make_forall(alloc, kind, body)
        }
        CoreType::Any(kind) => make_any(alloc, kind),
    }
}

/// A written type, its free variables at their levels.
pub fn place(alloc: Global, kinds: &Binders<Kind>, ty: &CoreType) -> Result<Type, NoMemory>
    ensures { IfOk result (λ made. type_at made ≡ placed kinds.now (type_of ty.now)) }
{
    place_under(alloc, kinds, &Foralls::Outside, ty)
}
