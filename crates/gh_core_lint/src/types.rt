// Types without names of bound variables.
ghost use Rattle.std.specs.Prelude.{◌≡◌, ◌↔◌, ◌+◌, suc, IfOk, IsTrue};
ghost use Rattle.gh_core.specs.SameType.{bound, free, con, applied, forall, any};
ghost use Rattle.gh_core.specs.Typing.{arrow, opened, closed_over};
ghost use Rattle.gh_core_lint.specs.Types.{type_at};

use gh_base::{NoMemory, TyCon};
use gh_typeterm::{Kind, Shared, copy_kind, same_kind};
use std::alloc::Global;

/// A type. Its parts may be shared in memory.
pub type Type = Shared<Node>;

/// A variable that a `forall` of the type binds is the number of binders between it and its own. One of the binders round
/// the type is its level, which is how many of them are further out.
#[derive(Drop)]
pub enum Node {
    Bound(usize),
    Free(usize),
    Con(TyCon),
    App(Type, Type),
    Forall(Kind, Type),
    Any(Kind),
}

/// The next number.
pub fn next(number: usize) -> Result<usize, NoMemory>
    ensures { IfOk result (λ made. made ≡ suc number) }
{
    match number.checked_add(1) {
        Some(made) => Ok(made),
        None => Err(NoMemory),
    }
}

/// The sum of two numbers.
pub fn plus(a: usize, b: usize) -> Result<usize, NoMemory>
    ensures { IfOk result (λ made. made ≡ a + b) }
{
    match a.checked_add(b) {
        Some(made) => Ok(made),
        None => Err(NoMemory),
    }
}

/// The type that is this constructor.
pub fn make_con(alloc: Global, c: TyCon) -> Result<Type, NoMemory>
    ensures { IfOk result (λ made. type_at made ≡ con c) }
{
    Shared::new(alloc, Node::Con(c))
}

/// The type that is the variable of the binder inside the type itself that so many binders are nearer than.
pub fn make_bound(alloc: Global, index: usize) -> Result<Type, NoMemory>
    ensures { IfOk result (λ made. type_at made ≡ bound index) }
{
    Shared::new(alloc, Node::Bound(index))
}

/// The type that is the variable of a type function round the node, by its level from 0.
pub fn make_free(alloc: Global, level: usize) -> Result<Type, NoMemory>
    ensures { IfOk result (λ made. type_at made ≡ free level) }
{
    Shared::new(alloc, Node::Free(level))
}

/// The application of a type to a type.
pub fn make_app(alloc: Global, f: Type, x: Type) -> Result<Type, NoMemory>
    ensures { IfOk result (λ made. type_at made ≡ applied (type_at f) (type_at x)) }
{
    Shared::new(alloc, Node::App(f, x))
}

/// The type that quantifies a variable of this kind over the body.
pub fn make_forall(alloc: Global, kind: &Kind, body: Type) -> Result<Type, NoMemory>
    ensures { IfOk result (λ made. type_at made ≡ forall kind.now (type_at body)) }
{
    Shared::new(alloc, Node::Forall(copy_kind(alloc, kind)?, body))
}

/// The closed type of this kind that is equal to itself alone.
pub fn make_any(alloc: Global, kind: &Kind) -> Result<Type, NoMemory>
    ensures { IfOk result (λ made. type_at made ≡ any kind.now) }
{
    Shared::new(alloc, Node::Any(copy_kind(alloc, kind)?))
}

/// The type of functions between two types.
pub fn make_arrow(alloc: Global, from: Type, to: Type) -> Result<Type, NoMemory>
    ensures { IfOk result (λ made. type_at made ≡ arrow (type_at from) (type_at to)) }
{
    let head = make_con(alloc, TyCon::Arrow)?;
    let part = make_app(alloc, head, from)?;
    make_app(alloc, part, to)
}

/// Whether two types are equal.
pub fn same(a: &Type, b: &Type) -> bool
    ensures { IsTrue result ↔ (type_at a.now ≡ type_at b.now) }
{
    match (a.get(), b.get()) {
        (Node::Bound(x), Node::Bound(y)) => *x == *y,
        (Node::Free(x), Node::Free(y)) => *x == *y,
        (Node::Con(x), Node::Con(y)) => *x == *y,
        (Node::App(f, x), Node::App(g, y)) => same(f, g) && same(x, y),
        (Node::Forall(k, x), Node::Forall(l, y)) => same_kind(k, l) && same(x, y),
        (Node::Any(k), Node::Any(l)) => same_kind(k, l),
        _ => false,
    }
}

/// The body of a `forall` at a type.
pub fn open(alloc: Global, depth: usize, by: &Type, ty: &Type) -> Result<Type, NoMemory>
    ensures { IfOk result (λ made. type_at made ≡ opened depth (type_at by.now) (type_at ty.now)) }
{
    match ty.get() {
        Node::Bound(index) => {
            if *index == depth {
                by.share()
            } else {
                ty.share()
            }
        }
        Node::App(f, x) => {
            let f = open(alloc, depth, by, f)?;
            let x = open(alloc, depth, by, x)?;
            make_app(alloc, f, x)
        }
        Node::Forall(kind, body) => {
            let body = open(alloc, next(depth)?, by, body)?;
            make_forall(alloc, kind, body)
        }
        Node::Free(_) => ty.share(),
        Node::Con(_) => ty.share(),
        Node::Any(_) => ty.share(),
    }
}

/// A type as the body of a `forall` that binds the variable of a level.
pub fn close(alloc: Global, level: usize, depth: usize, ty: &Type) -> Result<Type, NoMemory>
    ensures { IfOk result (λ made. type_at made ≡ closed_over level depth (type_at ty.now)) }
{
    match ty.get() {
        Node::Free(at) => {
            if *at == level {
                make_bound(alloc, depth)
            } else {
                ty.share()
            }
        }
        Node::App(f, x) => {
            let f = close(alloc, level, depth, f)?;
            let x = close(alloc, level, depth, x)?;
            make_app(alloc, f, x)
        }
        Node::Forall(kind, body) => {
            let body = close(alloc, level, next(depth)?, body)?;
            make_forall(alloc, kind, body)
        }
        Node::Bound(_) => ty.share(),
        Node::Con(_) => ty.share(),
        Node::Any(_) => ty.share(),
    }
}
