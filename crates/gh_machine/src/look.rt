// What stands for a name.
ghost use Rattle.std.specs.Prelude.{◌≡◌, ◌<◌, ◌≤◌, ℕ, List, length, map, MatchOption};
ghost use Rattle.gh_machine.specs.Unload.{IsFine, env_in, env_of, envs_of, code_in, binds_in, group, place_of, demand_env, demand_code, demanded_in, IsFree, IsVariable};
ghost use Rattle.gh_machine.specs.Reach.{demand_reach, IsNear};
ghost use Rattle.gh_core.specs.Closing.{Env, close};
ghost use Rattle.gh_core.specs.Reduce.{opened};
ghost use Rattle.gh_core.specs.Read.{bind_of};

use crate::closure::{Cell, Closure, Demand, GROUP};
use gh_core::ErasedTerm;

/// What stands for a name in an environment.
pub fn find<'a>(cells: &[Cell<'a>], name: u32, env: u32) -> Option<Demand<'a>>
    requires fine { IsFine cells.now }
    requires within { env ≤ length cells.now }
    ensures value { MatchOption result (env_in (envs_of cells.now) env name ≡ None) (λ c. env_in (envs_of cells.now) env name ≡ Some (demanded_in (envs_of cells.now) c)) }
    ensures below { MatchOption result Unit (λ c. demand_env c < env) }
    ensures near { MatchOption result Unit (λ c. (n : ℕ) → IsNear n cells.now → demand_reach c ≤ n) }
{
    let mut at = env;
    while at > 0 {
        let cell = &cells[at as usize - 1];
        if cell.parent == GROUP {
            match find_in(cell.value, name) {
                Some(next) => return Some(next),
                None => {}
            }
            at = env_under(cell.value);
        } else {
            if cell.name == name {
                return Some(Demand::At(cell.value));
            }
            at = cell.parent;
        }
    }
    None
}

/// The environment of a closure.
pub fn env_under(value: Closure) -> u32
    ensures { result ≡ env_of value.entry }
{
    match value {
        Closure::Term(env, _) => env,
        Closure::Contents(env, _) => env,
        Closure::Rest(_, _) => 0,
        Closure::Letter(_, _) => 0,
        Closure::Digits(_, _) => 0,
        Closure::Digit(_, _) => 0,
    }
}

// What stands for a name in the bindings of a letrec.
fn find_in<'a>(value: Closure<'a>, name: u32) -> Option<Demand<'a>>
    ensures value { MatchOption result ((ρ : Env) → group (binds_in (code_in value.entry)) ρ name ≡ ρ name) (λ c. (demand_env c ≡ env_of value.entry) × ((ρ : Env) → group (binds_in (code_in value.entry)) ρ name ≡ Some (close (demand_code c) ρ))) }
    ensures near { MatchOption result Unit (λ c. demand_reach c ≡ 0) }
{
    let Closure::Term(env, term) = value else {
        return None;
    };
    let ErasedTerm::LetRec(bindings, _) = term else {
        return None;
    };
    match place(bindings.as_slice(), name) {
        Some(index) => Some(Demand::Binding(env, index, term)),
        None => None,
    }
}

/// The first binding of a name.
fn place(bindings: &[(u32, ErasedTerm)], name: u32) -> Option<usize>
    ensures value { result ≡ place_of (map bind_of bindings.now) name }
    ensures within { MatchOption result Unit (λ i. i < length bindings.now) }
{
    for (index, binding) in bindings.iter().enumerate() {
        if binding.0 == name {
            return Some(index);
        }
    }
    None
}

/// The same term, and no name that is bound.
pub fn resolve<'a>(cells: &[Cell<'a>], demand: Demand<'a>) -> Demand<'a>
    requires fine { IsFine cells.now }
    requires within { demand_env demand ≤ length cells.now }
    ensures same { opened (demanded_in (envs_of cells.now) result) ≡ opened (demanded_in (envs_of cells.now) demand.entry) }
    ensures within { demand_env result ≤ demand_env demand.entry }
    ensures near { (n : ℕ) → IsNear n cells.now → demand_reach demand.entry ≤ n → demand_reach result ≤ n }
    ensures free { IsFree (envs_of cells.now) result }
{
    let mut at = demand;
    while let Some(name) = demanded_name(at) {
        match find(cells, name.number, name.env) {
            Some(next) => at = next,
            None => return at,
        }
    }
    at
}

/// A variable in an environment.
#[derive(Clone, Copy)]
struct Variable {
    number: u32,
    env: u32,
}

// The variable that is demanded, if it is one.
fn demanded_name(demand: Demand) -> Option<Variable>
    ensures { MatchOption result ((envs : List Env) → IsFree envs demand.entry) (λ v. IsVariable demand.entry v.number v.env) }
{
    match demand {
        Demand::At(value) => name_in(value),
        Demand::Binding(_, _, _) => None,
        Demand::Value(_) => None,
        Demand::Con(_) => None,
    }
}

fn name_in(value: Closure) -> Option<Variable>
    ensures { MatchOption result ((envs : List Env) → IsFree envs (Demand.At value.entry)) (λ v. IsVariable (Demand.At value.entry) v.number v.env) }
{
    match value {
        Closure::Term(env, ErasedTerm::Var(number)) => Some(Variable {
            number: *number,
            env,
        }),
        Closure::Term(_, _) => None,
        Closure::Contents(_, _) => None,
        Closure::Rest(_, _) => None,
        Closure::Letter(_, _) => None,
        Closure::Digits(_, _) => None,
        Closure::Digit(_, _) => None,
    }
}
