// Types of the check as written ones.
ghost use Rattle.std.specs.Prelude.{◌≡◌, ◌<◌, max, IfOk};
ghost use Rattle.gh_core.specs.SameType.{bound, free, nameless, nameless_var};
ghost use Rattle.gh_core.specs.Typing.{type_of};
ghost use Rattle.gh_core_lint.specs.Types.{type_at};
ghost use Rattle.gh_core_lint.specs.Written.{numbered_from, AllBelow};

use crate::types::{Node, Type, next, plus};
use gh_base::NoMemory;
use gh_core::CoreType;
use gh_typeterm::copy_kind;
use sqlite_items::Boxed;
use std::alloc::Global;

/// The same number in 32 bits.
pub fn narrow(number: usize) -> Result<u32, NoMemory>
    ensures { IfOk result (λ made. made ≡ number) }
{
    match u32::try_from(number) {
        Ok(made) => Ok(made),
        Err(_) => Err(NoMemory),
    }
}

fn greater(a: usize, b: usize) -> usize
    ensures { result ≡ max a b }
{
    if a < b { b } else { a }
}

// A number above all levels in a type.
fn above(ty: &Type) -> Result<usize, NoMemory>
    ensures { IfOk result (λ base. AllBelow base (type_at ty.now)) }
{
    match ty.get() {
        Node::Free(level) => next(*level),
        Node::App(f, x) => {
            let f = above(f)?;
            let x = above(x)?;
            Ok(greater(f, x))
        }
        Node::Forall(_, body) => above(body),
        Node::Bound(_) => Ok(0),
        Node::Con(_) => Ok(0),
        Node::Any(_) => Ok(0),
    }
}

// A variable that a binder of the type binds. One that none binds is in no type that has a kind, and cannot be written.
fn write_bound(base: usize, depth: usize, index: usize) -> Result<CoreType, NoMemory>
    ensures { IfOk result (λ made. nameless made (numbered_from base depth) ≡ bound index) }
{
    if index < depth {
        Ok(CoreType::Var(narrow(plus(base, depth - 1 - index)?)?))
    } else {
        Err(NoMemory)
    }
}

// A variable of a level.
fn write_free(base: usize, depth: usize, level: usize) -> Result<CoreType, NoMemory>
    requires { level < base }
    ensures { IfOk result (λ made. nameless made (numbered_from base depth) ≡ free level) }
{
    Ok(CoreType::Var(narrow(level)?))
}

// A part of a type under so many binders, which are numbered from a number on.
fn write_under(alloc: Global, base: usize, depth: usize, ty: &Type) -> Result<CoreType, NoMemory>
    requires { AllBelow base (type_at ty.now) }
    ensures { IfOk result (λ made. nameless made (numbered_from base depth) ≡ type_at ty.now) }
{
    match ty.get() {
        Node::Bound(index) => write_bound(base, depth, *index),
        Node::Free(level) => write_free(base, depth, *level),
        Node::Con(c) => Ok(CoreType::Con(*c)),
        Node::App(f, x) => {
            let f = Boxed::new(alloc, write_under(alloc, base, depth, f)?)?;
            let x = Boxed::new(alloc, write_under(alloc, base, depth, x)?)?;
            Ok(CoreType::App(f, x))
        }
        Node::Forall(kind, body) => {
            let number = narrow(plus(base, depth)?)?;
            let body = Boxed::new(alloc, write_under(alloc, base, next(depth)?, body)?)?;
            Ok(CoreType::Forall(number, copy_kind(alloc, kind)?, body))
        }
        Node::Any(kind) => Ok(CoreType::Any(copy_kind(alloc, kind)?)),
    }
}

/// A type as a written one, its variables being their levels.
pub fn written(alloc: Global, ty: &Type) -> Result<CoreType, NoMemory>
    ensures { IfOk result (λ made. type_of made ≡ type_at ty.now) }
{
    let base = above(ty)?;
    write_under(alloc, base, 0, ty)
}
