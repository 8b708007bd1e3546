// The pair at an arrow, from those at its two sides.
ghost use Rattle.std.specs.Prelude.{◌≡◌, ◌+◌, ◌<◌, IfOk};
ghost use Rattle.gh_core.specs.SameType.{free};
ghost use Rattle.gh_core.specs.Typing.{arrow, a_lam, a_tylam, a_var, an_app, type_of, code_of};
ghost use Rattle.gh_adapt.specs.TypedPairs.{arrow_code, arrow_side_code, ep_type, pair_code, select_code};
ghost use Rattle.gh_typeterm.specs.declared.kind.Kind.TheVariants as kind;

use crate::select::{ep_type, pair, selected};
use crate::terms::{apply, function, type_function, variable};
use crate::ways::Way;
use gh_base::NoMemory;
use gh_core::{CoreTerm, CoreType};
use gh_kind_index::arrow;
use gh_typeterm::Kind;
use sqlite_items::Boxed;
use std::alloc::Global;

/// The pair at the arrow: a function of two pairs, each behind its two types.
pub fn arrow_pair(alloc: Global) -> Result<Boxed<CoreTerm>, NoMemory>
    ensures { IfOk result (λ made. code_of made ≡ arrow_code) }
{
    let sides = sides(alloc)?;
    let inner = of_pair(alloc, 1, 2, 3, sides)?;
    of_pair(alloc, 0, 0, 1, inner)
}

// A function of two types and of a pair between them.
fn of_pair(
    alloc: Global,
    x: u32,
    a: u32,
    b: u32,
    body: Boxed<CoreTerm>,
) -> Result<Boxed<CoreTerm>, NoMemory>
    ensures { IfOk result (λ made. code_of made ≡ a_tylam a kind.Star (a_tylam b kind.Star (a_lam x (ep_type (free a) (free b)) (code_of body)))) }
{
    let ty = ep_type(alloc, &CoreType::Var(a), &CoreType::Var(b))?;
    let made = function(alloc, x, ty, body)?;
    let made = type_function(alloc, b, &Kind::Star, made)?;
    type_function(alloc, a, &Kind::Star, made)
}

fn sides(alloc: Global) -> Result<Boxed<CoreTerm>, NoMemory>
    ensures { IfOk result (λ made. code_of made ≡ pair_code (arrow (free 0) (free 2)) (arrow (free 1) (free 3)) (arrow_side_code Way.Forth) (arrow_side_code Way.Back)) }
{
    let left = functions(alloc, 0, 2)?;
    let right = functions(alloc, 1, 3)?;
    let forth = side(alloc, Way::Forth)?;
    let back = side(alloc, Way::Back)?;
    pair(alloc, left.get(), right.get(), forth, back)
}

// The type of functions from the one variable to the other.
fn functions(alloc: Global, from: u32, to: u32) -> Result<Boxed<CoreType>, NoMemory>
    ensures { IfOk result (λ made. type_of made ≡ arrow (free from) (free to)) }
{
    let from = Boxed::new(alloc, CoreType::Var(from))?;
    let to = Boxed::new(alloc, CoreType::Var(to))?;
    arrow(alloc, from, to)
}

fn side(alloc: Global, way: Way) -> Result<Boxed<CoreTerm>, NoMemory>
    ensures { IfOk result (λ made. code_of made ≡ arrow_side_code way) }
{
    match way {
        Way::Forth => around(alloc, Way::Forth, Way::Back, 0, 2, 1),
        Way::Back => around(alloc, Way::Back, Way::Forth, 1, 3, 0),
    }
}

// A function goes to one that converts what it is given the other way, and what it answers.
fn around(
    alloc: Global,
    way: Way,
    other: Way,
    from: u32,
    to: u32,
    given: u32,
) -> Result<Boxed<CoreTerm>, NoMemory>
    ensures { IfOk result (λ made. code_of made ≡ a_lam 2 (arrow (free from) (free to)) (a_lam 3 (free given)
        (an_app (select_code way (free 2) (free 3) (a_var 1)) (an_app (a_var 2) (an_app (select_code other (free 0) (free 1) (a_var 0)) (a_var 3)))))) }
{
    let argument = converted(alloc, other, 0, 0, 3)?;
    let answer = apply(alloc, variable(alloc, 2)?, argument)?;
    let body = at_pair(alloc, way, 1, 2, answer)?;
    let ty = Boxed::new(alloc, CoreType::Var(given))?;
    let body = function(alloc, 3, ty, body)?;
    let ty = functions(alloc, from, to)?;
    function(alloc, 2, ty, body)
}

// One of a pair's conversions applied to a variable.
fn converted(
    alloc: Global,
    way: Way,
    pair: u32,
    a: u32,
    x: u32,
) -> Result<Boxed<CoreTerm>, NoMemory>
    requires { a < 4 }
    ensures { IfOk result (λ made. code_of made ≡ an_app (select_code way (free a) (free (a + 1)) (a_var pair)) (a_var x)) }
{
    at_pair(alloc, way, pair, a, variable(alloc, x)?)
}

// One of a pair's conversions applied to a term.
fn at_pair(
    alloc: Global,
    way: Way,
    pair: u32,
    a: u32,
    term: Boxed<CoreTerm>,
) -> Result<Boxed<CoreTerm>, NoMemory>
    requires { a < 4 }
    ensures { IfOk result (λ made. code_of made ≡ an_app (select_code way (free a) (free (a + 1)) (a_var pair)) (code_of term)) }
{
    let pair = variable(alloc, pair)?;
    let chosen = selected(alloc, way, &CoreType::Var(a), &CoreType::Var(a + 1), pair)?;
    apply(alloc, chosen, term)
}
