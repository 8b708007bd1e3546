// Types up to bound names.
ghost use Rattle.std.specs.Prelude.{◌≡◌, ◌↔◌, IsTrue};
ghost use Rattle.gh_core.specs.SameType.{IsSame, nameless, nameless_var};
ghost use Rattle.gh_core.specs.Scopes.{lefts, rights};

use crate::types::CoreType;
use gh_typeterm::same_kind;

/// The binders round two types, the nearest first, each by its number in the one and in the other.
#[derive(Drop)]
enum Scope<'a> {
    Outside,
    Inside(u32, u32, &'a Scope<'a>),
}

/// Whether two types are equal up to the names of their bound variables. It takes no memory.
pub fn same_type(a: &CoreType, b: &CoreType) -> bool
    ensures { IsTrue result ↔ IsSame a.now b.now }
{
    same_under(&Scope::Outside, a, b)
}

// Whether two types are equal where the binders round them are those of the scope.
fn same_under(scope: &Scope, a: &CoreType, b: &CoreType) -> bool
    ensures { IsTrue result ↔ (nameless a.now (lefts scope.now) ≡ nameless b.now (rights scope.now)) }
{
    match (a, b) {
        (CoreType::Var(x), CoreType::Var(y)) => same_variable(&*scope, *x, *y),
        (CoreType::Con(c), CoreType::Con(d)) => *c == *d,
        (CoreType::App(f, x), CoreType::App(g, y)) => {
            same_under(&*scope, f.get(), g.get()) && same_under(&*scope, x.get(), y.get())
        }
        (CoreType::Forall(x, k, s), CoreType::Forall(y, l, t)) => {
            same_kind(k, l) && same_under(&Scope::Inside(*x, *y, &*scope), s.get(), t.get())
        }
        (CoreType::Any(k), CoreType::Any(l)) => same_kind(k, l),
        _ => false,
    }
}

// Whether two variables are bound by the same binder of the scope, or are free and equal.
fn same_variable(scope: &Scope, x: u32, y: u32) -> bool
    ensures { IsTrue result ↔ (nameless_var (lefts scope.now) x ≡ nameless_var (rights scope.now) y) }
{
    match scope {
        Scope::Outside => x == y,
        Scope::Inside(left, right, outer) => {
            if x == *left || y == *right {
                x == *left && y == *right
            } else {
                same_variable(&**outer, x, y)
            }
        }
    }
}
