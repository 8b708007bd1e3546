// Rules, one after another, until the cells say all that they do.
ghost use Rattle.std.specs.Prelude.{◌≡◌, ◌++◌, ◌<◌, length, true, false, IfOk, OnOk};
ghost use Rattle.gh_kind_unify.specs.declared.rules.Rule.TheVariants.{Star, Same, Applies};
ghost use Rattle.gh_kind_unify.specs.Kinds.{AreBelow, IsBelow};
ghost use Rattle.gh_kind_unify.specs.Cells.{IsNoLink, IsTidy, cell};
ghost use Rattle.gh_kind_unify.specs.Settling.{Goes, Refutes, Settled, rest};

use crate::cells::{Cell, cell_at, find, put};
use crate::rules::Rule;
use gh_base::NoMemory;

/// What is left of a rule.
#[derive(Clone, Copy, Debug)]
pub enum More {
    /// Nothing can meet it.
    Clash,
    /// Nothing is left.
    Nothing,
    /// One rule.
    One(Rule),
    /// Two rules.
    Two(Rule, Rule),
}

// An unknown that is no link has the kind `*`.
fn is_star(cells: &mut [Cell], root: u32) -> More
    requires tidy { IsTidy cells.old }
    requires root { root < length cells.old }
    requires last { IsNoLink (cell cells.old root) }
    ensures { Goes cells.old cells.new (Star root) result }
{
    match cell_at(cells, root) {
        Cell::Free => {
            put(cells, root, Cell::Star);
            More::Nothing
        }
        Cell::Star => More::Nothing,
        Cell::Arrow(_, _) => More::Clash,
        Cell::Link(_) => More::Clash,
    }
}

// Two unknowns have the same kind, the greater of which is no link.
fn join(cells: &mut [Cell], low: u32, high: u32) -> More
    requires tidy { IsTidy cells.old }
    requires order { low < high }
    requires high { high < length cells.old }
    requires last { IsNoLink (cell cells.old high) }
    ensures { Goes cells.old cells.new (Same low high) result }
{
    let gone = cell_at(cells, high);
    put(cells, high, Cell::Link(low));
    match gone {
        Cell::Free => More::Nothing,
        Cell::Star => More::One(Rule::Star(low)),
        Cell::Arrow(a, b) => More::One(Rule::Applies(low, a, b)),
        Cell::Link(_) => More::Clash,
    }
}

// An unknown that is no link is applied to another, which gives a third.
fn applies(cells: &mut [Cell], root: u32, x: u32, r: u32) -> More
    requires tidy { IsTidy cells.old }
    requires below { IsBelow (length cells.old) (Applies root x r) }
    requires last { IsNoLink (cell cells.old root) }
    ensures { Goes cells.old cells.new (Applies root x r) result }
{
    match cell_at(cells, root) {
        Cell::Free => {
            put(cells, root, Cell::Arrow(x, r));
            More::Nothing
        }
        Cell::Star => More::Clash,
        Cell::Arrow(a, b) => More::Two(Rule::Same(x, a), Rule::Same(r, b)),
        Cell::Link(_) => More::Clash,
    }
}

fn settle_star(cells: &mut [Cell], v: u32) -> More
    requires tidy { IsTidy cells.old }
    requires below { v < length cells.old }
    ensures { Goes cells.old cells.new (Star v) result }
{
    let root = find(cells, v);
    is_star(cells, root)
}

fn settle_same(cells: &mut [Cell], v: u32, w: u32) -> More
    requires tidy { IsTidy cells.old }
    requires below { IsBelow (length cells.old) (Same v w) }
    ensures { Goes cells.old cells.new (Same v w) result }
{
    let first = find(cells, v);
    let second = find(cells, w);
    if first < second {
        return join(cells, first, second);
    }
    if second < first {
        return join(cells, second, first);
    }
    More::Nothing
}

fn settle_applies(cells: &mut [Cell], f: u32, x: u32, r: u32) -> More
    requires tidy { IsTidy cells.old }
    requires below { IsBelow (length cells.old) (Applies f x r) }
    ensures { Goes cells.old cells.new (Applies f x r) result }
{
    let root = find(cells, f);
    applies(cells, root, x, r)
}

// What is left of a rule once the cells say a part of it.
fn settle(cells: &mut [Cell], rule: Rule) -> More
    requires tidy { IsTidy cells.old }
    requires below { IsBelow (length cells.old) rule }
    ensures { Goes cells.old cells.new rule result }
{
    match rule {
        Rule::Star(v) => settle_star(cells, v),
        Rule::Same(v, w) => settle_same(cells, v, w),
        Rule::Applies(f, x, r) => settle_applies(cells, f, x, r),
    }
}

// Puts what is left of a rule behind the others.
fn add(todo: &mut Vec<Rule>, more: More) -> Result<(), NoMemory>
    ensures { OnOk result (todo.new.items ≡ todo.old.items ++ rest more) }
{
    match more {
        More::Clash => {}
        More::Nothing => {}
        More::One(rule) => todo.push(rule)?,
        More::Two(rule, other) => {
            todo.push(rule)?;
            todo.push(other)?;
        }
    }
    Ok(())
}

/// Whether there are kinds that meet all rules and what the cells say, kinds without end taken in. The cells say then
/// what the rules do.
#[tactic(auto, using(crate::proofs::Turns::settling_first, crate::proofs::Turns::taken_below, crate::proofs::Turns::settling_next, crate::proofs::Turns::settling_refuted, crate::proofs::Turns::settling_done))]
pub fn settle_all(cells: &mut [Cell], rules: Vec<Rule>) -> Result<bool, NoMemory>
    requires tidy { IsTidy cells.old }
    requires below { AreBelow (length cells.old) rules.items }
    ensures yes { IfOk result (λ met. met ≡ true → Settled cells.old rules.items cells.new) }
    ensures no { IfOk result (λ met. met ≡ false → Refutes cells.old rules.items) }
{
    let mut todo = rules;
    'next: while let Some(rule) = todo.pop() {
        let more = settle(cells, rule);
        if let More::Clash = more {
            return Ok(false);
        }
        add(&mut todo, more)?;
    }
    Ok(true)
}
