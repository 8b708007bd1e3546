// The rules on one list of declarations.
ghost use Rattle.std.specs.Prelude.{◌≡◌, ◌++◌, ◌∷◌, [], None, ℕ, map, nat_eq, if◌then◌else◌, IfOk, OnOk};
ghost use Rattle.std.specs.List.{list_any, flat_map};
ghost use Rattle.indexmap.specs.IndexSet.{insert_key};
ghost use Rattle.gh_declarations.specs.Lists as spec;
ghost use Rattle.gh_declarations.specs.Names as names;
ghost use Rattle.gh_declarations.specs.declared.named.Rule.TheVariants as rules;

use crate::named::{Clause, Declared, Failure, Named, Rule, Sort, fails_at};
use gh_base::{ListOf, NoMemory};
use indexmap::IndexSet;
use std::alloc::Global;

// A name that stands a second time fails; and it is seen.
fn see(
    seen: &mut IndexSet<u32>,
    failures: &mut ListOf<Failure>,
    rule: Rule,
    named: &Named,
) -> Result<(), NoMemory>
    ensures failures { OnOk result (failures.new ≡ failures.old ++ (if list_any (nat_eq named.now.name.0) seen.old.keys then names.failure rule named.now ∷ [] else [])) }
    ensures seen { OnOk result (seen.new.keys ≡ insert_key nat_eq seen.old.keys named.now.name.0) }
{
    if seen.insert(named.name.0)? {
        return Ok(());
    }
    failures.push(fails_at(rule, *named))?;
    Ok(())
}

/// Adds a failure of a rule for each name that stands in a list a second time.
pub fn add_second_times(
    alloc: Global,
    failures: &mut ListOf<Failure>,
    rule: Rule,
    list: &[Named],
) -> Result<(), NoMemory>
    ensures { OnOk result (failures.new ≡ failures.old ++ spec.fail_again rule list.now) }
{
    let mut seen = IndexSet::new(alloc);
    for named in list {
        see(&mut seen, failures, rule, named)?;
    }
    Ok(())
}

// Whether a clause goes on with the definition that begins with another.
fn goes_on(first: Option<Clause>, clause: Clause) -> bool
    ensures { result ≡ spec.goes_on first clause }
{
    match first {
        None => false,
        Some(first) => first.named.name.0 == clause.named.name.0 && 0 < first.arguments,
    }
}

// The first clause of the definition that stands open behind a declaration.
fn first_behind(first: Option<Clause>, declared: &Declared) -> Option<Clause>
    ensures { result ≡ spec.first_behind first declared.now }
{
    match declared {
        Declared::Clause(clause) => {
            if goes_on(first, *clause) {
                return first;
            }
            Some(*clause)
        }
        Declared::Name(_, _) => None,
        Declared::Other => None,
    }
}

fn add_value_if(list: &mut ListOf<Named>, sort: Sort, named: Named) -> Result<(), NoMemory>
    ensures { OnOk result (list.new ≡ list.old ++ spec.value_if sort named) }
{
    match sort {
        Sort::Value => {
            list.push(named)?;
            Ok(())
        }
        Sort::Type => Ok(()),
        Sort::Signature => Ok(()),
        Sort::Fixity => Ok(()),
    }
}

fn add_value(
    list: &mut ListOf<Named>,
    first: Option<Clause>,
    declared: &Declared,
) -> Result<(), NoMemory>
    ensures { OnOk result (list.new ≡ list.old ++ spec.value_of first declared.now) }
{
    match declared {
        Declared::Clause(clause) => {
            if goes_on(first, *clause) {
                return Ok(());
            }
            list.push(clause.named)?;
            Ok(())
        }
        Declared::Name(sort, named) => {
            add_value_if(list, *sort, *named)?;
            Ok(())
        }
        Declared::Other => Ok(()),
    }
}

fn values(alloc: Global, declared: &[Declared]) -> Result<ListOf<Named>, NoMemory>
    ensures { IfOk result (λ r. r ≡ spec.values declared.now) }
{
    let mut list = ListOf::new(alloc);
    let mut first = None;
    for one in declared {
        add_value(&mut list, first, one)?;
        first = first_behind(first, one);
    }
    Ok(list)
}

fn number_of_sort(sort: Sort) -> u32
    ensures { result ≡ spec.number_of_sort sort }
{
    match sort {
        Sort::Value => 0,
        Sort::Type => 1,
        Sort::Signature => 2,
        Sort::Fixity => 3,
    }
}

fn add_sorted_of(list: &mut ListOf<Named>, sort: Sort, declared: Declared) -> Result<(), NoMemory>
    ensures { OnOk result (list.new ≡ list.old ++ spec.sorted_of sort declared) }
{
    match declared {
        Declared::Clause(_) => Ok(()),
        Declared::Name(other, named) => {
            if number_of_sort(sort) == number_of_sort(other) {
                list.push(named)?;
                return Ok(());
            }
            Ok(())
        }
        Declared::Other => Ok(()),
    }
}

#[tactic(auto, using(std::proofs::lemmas::List::flat_map_more))]
fn add_sorted(list: &mut ListOf<Named>, sort: Sort, declared: &[Declared]) -> Result<(), NoMemory>
    ensures { OnOk result (list.new ≡ list.old ++ spec.sorted sort declared.now) }
{
    for one in declared {
        add_sorted_of(list, sort, *one)?;
    }
    Ok(())
}

fn add_doubles_of(
    alloc: Global,
    failures: &mut ListOf<Failure>,
    sort: Sort,
    declared: &[Declared],
) -> Result<(), NoMemory>
    ensures { OnOk result (failures.new ≡ failures.old ++ spec.fail_again rules.Double (spec.sorted sort declared.now)) }
{
    let mut list = ListOf::new(alloc);
    add_sorted(&mut list, sort, declared)?;
    add_second_times(alloc, failures, Rule::Double, list.as_slice())?;
    Ok(())
}

fn add_doubles(
    alloc: Global,
    failures: &mut ListOf<Failure>,
    declared: &[Declared],
    values: &[Named],
) -> Result<(), NoMemory>
    requires { values.now ≡ spec.values declared.now }
    ensures { OnOk result (failures.new ≡ failures.old ++ spec.doubles declared.now) }
{
    add_second_times(alloc, failures, Rule::Double, values)?;
    add_doubles_of(alloc, failures, Sort::Type, declared)?;
    add_doubles_of(alloc, failures, Sort::Signature, declared)?;
    add_doubles_of(alloc, failures, Sort::Fixity, declared)?;
    Ok(())
}

fn add_text(set: &mut IndexSet<u32>, named: &Named) -> Result<(), NoMemory>
    ensures { OnOk result (set.new.keys ≡ insert_key nat_eq set.old.keys named.now.name.0) }
{
    set.insert(named.name.0)?;
    Ok(())
}

// The texts of these names.
fn texts(alloc: Global, list: &[Named]) -> Result<IndexSet<u32>, NoMemory>
    ensures { IfOk result (λ set. (k : ℕ) → list_any (nat_eq k) set.keys ≡ spec.has list.now k) }
{
    let mut set = IndexSet::new(alloc);
    for named in list {
        add_text(&mut set, named)?;
    }
    Ok(set)
}

fn add_if_undefined(
    failures: &mut ListOf<Failure>,
    defined: &IndexSet<u32>,
    named: &Named,
) -> Result<(), NoMemory>
    ensures { OnOk result (failures.new ≡ failures.old ++ (if list_any (nat_eq named.now.name.0) defined.now.keys then [] else names.failure rules.Alone named.now ∷ [])) }
{
    if defined.contains(&named.name.0) {
        return Ok(());
    }
    failures.push(fails_at(Rule::Alone, *named))?;
    Ok(())
}

fn add_undefined(
    alloc: Global,
    failures: &mut ListOf<Failure>,
    values: &[Named],
    list: &[Named],
) -> Result<(), NoMemory>
    ensures { OnOk result (failures.new ≡ failures.old ++ map (names.failure rules.Alone) (spec.undefined values.now list.now)) }
{
    let defined = texts(alloc, values)?;
    for named in list {
        add_if_undefined(failures, &defined, named)?;
    }
    Ok(())
}

fn add_alones(
    alloc: Global,
    failures: &mut ListOf<Failure>,
    declared: &[Declared],
    values: &[Named],
) -> Result<(), NoMemory>
    requires { values.now ≡ spec.values declared.now }
    ensures { OnOk result (failures.new ≡ failures.old ++ spec.alones declared.now) }
{
    let mut list = ListOf::new(alloc);
    add_sorted(&mut list, Sort::Signature, declared)?;
    add_sorted(&mut list, Sort::Fixity, declared)?;
    add_undefined(alloc, failures, values, list.as_slice())?;
    Ok(())
}

fn add_unequal_to(
    failures: &mut ListOf<Failure>,
    first: Option<Clause>,
    clause: Clause,
) -> Result<(), NoMemory>
    ensures { OnOk result (failures.new ≡ failures.old ++ spec.unequal_to first clause) }
{
    let Some(first) = first else {
        return Ok(());
    };
    if first.arguments == clause.arguments {
        return Ok(());
    }
    failures.push(Failure {
        rule: Rule::Unequal,
        span: clause.span,
        name: clause.named.name,
    })?;
    Ok(())
}

fn add_unequal_of(
    failures: &mut ListOf<Failure>,
    first: Option<Clause>,
    declared: &Declared,
) -> Result<(), NoMemory>
    ensures { OnOk result (failures.new ≡ failures.old ++ spec.unequal_of first declared.now) }
{
    match declared {
        Declared::Clause(clause) => {
            if goes_on(first, *clause) {
                add_unequal_to(failures, first, *clause)?;
                return Ok(());
            }
            Ok(())
        }
        Declared::Name(_, _) => Ok(()),
        Declared::Other => Ok(()),
    }
}

fn add_unequal(failures: &mut ListOf<Failure>, declared: &[Declared]) -> Result<(), NoMemory>
    ensures { OnOk result (failures.new ≡ failures.old ++ spec.unequal_behind None declared.now) }
{
    let mut first = None;
    for one in declared {
        add_unequal_of(failures, first, one)?;
        first = first_behind(first, one);
    }
    Ok(())
}

/// Adds the failures of the rules on a list of declarations. It looks each name up a bounded number of times.
#[tactic(auto, using(std::proofs::Common::append_assoc))]
pub fn add_list_failures(
    alloc: Global,
    failures: &mut ListOf<Failure>,
    declared: &[Declared],
) -> Result<(), NoMemory>
    ensures { OnOk result (failures.new ≡ failures.old ++ spec.list_failures declared.now) }
{
    let values = values(alloc, declared)?;
    add_doubles(alloc, failures, declared, values.as_slice())?;
    add_alones(alloc, failures, declared, values.as_slice())?;
    add_unequal(failures, declared)?;
    Ok(())
}
