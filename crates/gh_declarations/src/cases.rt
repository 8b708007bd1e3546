// Cases of generic functions, clause by clause.
ghost use Rattle.std.specs.Prelude.{◌≡◌, ◌++◌, map, OnOk};
ghost use Rattle.gh_declarations.specs.Tops as spec;

use crate::named::{Failure, Rule, var};
use gh_base::{ListOf, NoMemory};
use gh_limits::same_type;
use gh_tree::{Item, NextItem, Top};

fn same_case(first: &Top, top: &Top) -> bool
    ensures { result ≡ spec.same_case first.now top.now }
{
    match first {
        Top::Case(_, function, _, head, _, _, _) => match top {
            Top::Case(_, other, _, text, _, _, _) => {
                var(function).name.0 == var(other).name.0 && same_type(head, text)
            }
            _ => false,
        },
        _ => false,
    }
}

fn case_goes_on(first: &Item, top: &Top) -> bool
    ensures { result ≡ spec.case_goes_on first.now top.now }
{
    match first {
        Item::Top(first) => same_case(first.get(), top),
        _ => false,
    }
}

// The first clause of the case that stands open behind an item.
fn first_case<'a>(first: &'a Item, item: &'a Item) -> &'a Item
    ensures { result.now ≡ spec.first_case first.now item.now }
{
    match item {
        Item::Top(top) => {
            if case_goes_on(first, top.get()) {
                first
            } else {
                item
            }
        }
        _ => first,
    }
}

fn case_arguments(top: &Top) -> usize
    ensures { result ≡ spec.case_arguments top.now }
{
    match top {
        Top::Case(_, _, _, _, _, args, _) => args.as_slice().len(),
        _ => 0,
    }
}

fn first_arguments(first: &Item) -> usize
    ensures { result ≡ spec.first_arguments first.now }
{
    match first {
        Item::Top(top) => case_arguments(top.get()),
        _ => 0,
    }
}

fn add_unequal_clause(failures: &mut ListOf<Failure>, top: &Top) -> Result<(), NoMemory>
    ensures { OnOk result (failures.new ≡ failures.old ++ spec.unequal_clause top.now) }
{
    match top {
        Top::Case(span, name, _, _, _, _, _) => {
            failures.push(Failure {
                rule: Rule::Unequal,
                span: *span,
                name: var(name).name,
            })?;
            Ok(())
        }
        _ => Ok(()),
    }
}

fn add_unequal_top(failures: &mut ListOf<Failure>, first: &Item, top: &Top) -> Result<(), NoMemory>
    ensures { OnOk result (failures.new ≡ failures.old ++ spec.unequal_top first.now top.now) }
{
    if case_goes_on(first, top) {
        if first_arguments(first) == case_arguments(top) {
            return Ok(());
        }
        return add_unequal_clause(failures, top);
    }
    Ok(())
}

// Adds a failure where an item is one more clause of a case, with another number of arguments than the first.
fn add_unequal_case(
    failures: &mut ListOf<Failure>,
    first: &Item,
    item: &Item,
) -> Result<(), NoMemory>
    ensures { OnOk result (failures.new ≡ failures.old ++ spec.unequal_case first.now item.now) }
{
    match item {
        Item::Top(top) => add_unequal_top(failures, first, top.get()),
        _ => Ok(()),
    }
}

/// Adds the failures of the cases among items, behind one with which a case may stand open.
pub fn add_next_cases(
    failures: &mut ListOf<Failure>,
    first: &Item,
    items: &[NextItem],
) -> Result<(), NoMemory>
    ensures { OnOk result (failures.new ≡ failures.old ++ spec.case_failures first.now (map spec.item_at items.now)) }
{
    let mut first = first;
    for next in items {
        add_unequal_case(failures, first, &next.item)?;
        first = first_case(first, &next.item);
    }
    Ok(())
}
