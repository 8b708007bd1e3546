// Numbers above those of all free variables.
ghost use Rattle.std.specs.Prelude.{◌≡◌, ◌≤◌, ◌+◌, ◌<◌, ◌^◌, cond, map, IfOk, IsTrue, ◌↔◌, suc, max};
ghost use Rattle.gh_core.specs.Closing.{is_in};
ghost use Rattle.gh_core.specs.SameType.{nameless, nameless_var};
ghost use Rattle.gh_core.specs.Typing.{type_of};
ghost use Rattle.gh_kind_index.specs.Levels.{above, above_all};
ghost use Rattle.gh_kind_index.specs.Binders.{names_of};

use gh_base::NoMemory;
use gh_core::CoreType;

/// The binders of a type round a part of it, the nearest first.
#[derive(Drop)]
pub enum Round<'a> {
    Outside,
    Inside(u32, &'a Round<'a>),
}

// Whether a variable is bound by one of the binders.
fn is_bound(round: &Round, x: u32) -> bool
    ensures { result ≡ is_in (names_of round.now) x }
{
    match round {
        Round::Outside => false,
        Round::Inside(binder, outer) => x == *binder || is_bound(&**outer, x),
    }
}

// The first number above a free variable; a bound one has none.
fn above_variable(round: &Round, x: u32) -> Result<u32, NoMemory>
    ensures { IfOk result (λ level. level ≡ above (nameless_var (names_of round.now) x)) }
{
    if is_bound(&*round, x) {
        return Ok(0);
    }
    raised(x, 1)
}

// The first number above all free variables of a type inside binders.
fn above_in(round: &Round, ty: &CoreType) -> Result<u32, NoMemory>
    ensures { IfOk result (λ level. level ≡ above (nameless ty.now (names_of round.now))) }
{
    match ty {
        CoreType::Var(x) => above_variable(&*round, *x),
        CoreType::Con(_) => Ok(0),
        CoreType::App(f, x) => {
            let left = above_in(&*round, f.get())?;
            let right = above_in(&*round, x.get())?;
            Ok(larger(left, right))
        }
        CoreType::Forall(x, _, body) => above_in(&Round::Inside(*x, &*round), body.get()),
        CoreType::Any(_) => Ok(0),
    }
}

fn larger(a: u32, b: u32) -> u32
    ensures { result ≡ max a b }
{
    if a < b { b } else { a }
}

/// The first number above all free variables of these types. It is refused as want of memory where it has no 32 bits.
pub fn above_all(types: &[CoreType]) -> Result<u32, NoMemory>
    ensures { IfOk result (λ level. level ≡ above_all (map type_of types.now)) }
{
    let mut level = 0;
    for at in (0..types.len()).rev() {
        level = larger(above_in(&Round::Outside, &types[at])?, level);
    }
    Ok(level)
}

/// A level that is further in by so many; a number with more than 32 bits is refused as want of memory.
pub fn raised(level: u32, count: usize) -> Result<u32, NoMemory>
    ensures { IfOk result (λ inside. inside ≡ level + count) }
{
    match u32::try_from(count) {
        Ok(count) => match level.checked_add(count) {
            Some(inside) => Ok(inside),
            None => Err(NoMemory),
        },
        Err(_) => Err(NoMemory),
    }
}
