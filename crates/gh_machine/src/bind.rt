// Names over an environment.
ghost use Rattle.std.specs.Prelude.{◌≡◌, ℕ, ◌+◌, ◌-◌, ◌<◌, ◌≤◌, ◌^◌, [], List, length, vec_len, vec_capacity};
ghost use Rattle.gh_core.specs.Closing.{Env, put, put_all};
ghost use Rattle.gh_core.specs.Reduce.{args_of};
ghost use Rattle.gh_core.specs.Reading.{term_of};
ghost use Rattle.gh_core.specs.Bindings.{binding_count};
ghost use Rattle.gh_machine.specs.Unload.{IsFine, env_in, envs_of, env_of, closed_in, group, binds_in};
ghost use Rattle.gh_machine.specs.Stacks.{stack_in, AreWithin};
ghost use Rattle.gh_machine.specs.Reach.{reach_of, IsNear, AreNear};
ghost use Rattle.gh_machine.specs.Sound.{IsBound};

use crate::closure::{Cell, Closure, Frame, GROUP};
use crate::pick::count_bindings;
use crate::stack::{add, arg_at};
use gh_core::ErasedTerm;

/// The environment with one name more.
pub fn bind<'a>(cells: &mut Vec<Cell<'a>>, name: u32, parent: u32, value: Closure<'a>) -> u32
    requires fine { IsFine cells.old.items }
    requires parent { parent ≤ length cells.old.items }
    requires value { env_of value ≤ length cells.old.items }
    requires few { vec_len cells.old < 2 ^ 32 - 2 }
    requires room { vec_len cells.old < vec_capacity cells.old }
    ensures bound { IsBound cells.old.items cells.new.items result (put (env_in (envs_of cells.old.items) parent) name (closed_in (envs_of cells.old.items) value.entry)) }
    ensures near { (n : ℕ) → IsNear n cells.old.items → reach_of value.entry ≤ n → IsNear n cells.new.items }
    ensures len { vec_len cells.new ≡ vec_len cells.old + 1 }
    ensures capacity { vec_capacity cells.old ≤ vec_capacity cells.new }
{
    add(
        cells,
        Cell {
            value,
            name,
            parent,
        },
    );
    cells.len() as u32
}

/// The environment with all names of a `letrec`, in one cell. Without bindings it stays, and takes none.
pub fn bind_group<'a>(cells: &mut Vec<Cell<'a>>, env: u32, term: &'a ErasedTerm) -> u32
    requires fine { IsFine cells.old.items }
    requires within { env ≤ length cells.old.items }
    requires few { vec_len cells.old < 2 ^ 32 - 2 }
    requires room { vec_len cells.old < vec_capacity cells.old }
    ensures bound { IsBound cells.old.items cells.new.items result (group (binds_in (term_of term.now)) (env_in (envs_of cells.old.items) env)) }
    ensures near { (n : ℕ) → IsNear n cells.old.items → IsNear n cells.new.items }
    ensures names { vec_len cells.new ≤ vec_len cells.old + binding_count (binds_in (term_of term.now)) }
    ensures len { vec_len cells.new ≤ vec_len cells.old + 1 }
    ensures capacity { vec_capacity cells.old ≤ vec_capacity cells.new }
{
    if count_bindings(term) == 0 {
        return env;
    }
    add(
        cells,
        Cell {
            value: Closure::Term(env, term),
            name: 0,
            parent: GROUP,
        },
    );
    cells.len() as u32
}

/// The environment with a name for each argument that waits. Of equal names the first counts, so the last is bound first.
pub fn bind_args<'a>(cells: &mut Vec<Cell<'a>>, names: &[u32], stack: &[Frame<'a>], env: u32) -> u32
    requires fine { IsFine cells.old.items }
    requires within { env ≤ length cells.old.items }
    requires stack { AreWithin (length cells.old.items) stack.now }
    requires count { (envs : List Env) → length (args_of (stack_in envs [] stack.now)) ≡ length names.now }
    requires few { vec_len cells.old + length names.now < 2 ^ 32 - 1 }
    requires room { vec_len cells.old + length names.now ≤ vec_capacity cells.old }
    ensures bound { IsBound cells.old.items cells.new.items result (put_all (env_in (envs_of cells.old.items) env) names.now (args_of (stack_in (envs_of cells.old.items) [] stack.now))) }
    ensures near { (n : ℕ) → IsNear n cells.old.items → AreNear n stack.now → IsNear n cells.new.items }
    ensures len { vec_len cells.new ≡ vec_len cells.old + length names.now }
    ensures capacity { vec_capacity cells.old ≤ vec_capacity cells.new }
{
    let mut top = env;
    let mut left = names.len();
    while left > 0 {
        left -= 1;
        let name = names[left];
        match arg_at(stack, left) {
            Some(value) => top = bind(cells, name, top, value),
            None => unreachable!(),
        }
    }
    top
}
