// The first rule on declarations that fails in a file.
ghost use Rattle.std.specs.Prelude.{◌≡◌, ◌++◌, None, IfOk, OnOk};
ghost use Rattle.std.specs.List.{flat_map};
ghost use Rattle.gh_declarations.specs.Lists as lists;
ghost use Rattle.gh_declarations.specs.Tops as spec;

use crate::cases::add_next_cases;
use crate::lists::add_list_failures;
use crate::named::{Declared, Failure, Rule};
use crate::tops::{add_built_in, add_item, add_item_declared};
use gh_base::{ListOf, NameId, NoMemory, Refusal, Span};
use gh_tree::{ModuleTree, NextItem};
use std::alloc::Global;

#[tactic(auto, using(std::proofs::lemmas::List::flat_map_more))]
fn add_next_declared(
    alloc: Global,
    list: &mut ListOf<Declared>,
    items: &[NextItem],
) -> Result<(), NoMemory>
    ensures { OnOk result (list.new ≡ list.old ++ flat_map (λ x. spec.declared_in_item (spec.item_at x)) items.now) }
{
    for next in items {
        add_item_declared(alloc, list, &next.item)?;
    }
    Ok(())
}

#[tactic(auto, using(std::proofs::Common::append_assoc, crate::proofs::Steps::over_items))]
fn add_text_declared(
    alloc: Global,
    list: &mut ListOf<Declared>,
    tree: &ModuleTree,
) -> Result<(), NoMemory>
    ensures { OnOk result (list.new ≡ list.old ++ flat_map spec.declared_in_item (spec.items_of tree.now)) }
{
    add_item_declared(alloc, list, &tree.first)?;
    add_next_declared(alloc, list, tree.others.as_slice())?;
    Ok(())
}

fn declared(alloc: Global, file: u32, tree: &ModuleTree) -> Result<ListOf<Declared>, NoMemory>
    ensures { IfOk result (λ r. r ≡ spec.declared_at_top file (spec.items_of tree.now)) }
{
    let mut list = ListOf::new(alloc);
    if file == 0 {
        add_built_in(&mut list)?;
        add_text_declared(alloc, &mut list, tree)?;
        return Ok(list);
    }
    add_text_declared(alloc, &mut list, tree)?;
    Ok(list)
}

fn add_top_list(
    alloc: Global,
    failures: &mut ListOf<Failure>,
    file: u32,
    tree: &ModuleTree,
) -> Result<(), NoMemory>
    ensures { OnOk result (failures.new ≡ failures.old ++ lists.list_failures (spec.declared_at_top file (spec.items_of tree.now))) }
{
    let list = declared(alloc, file, tree)?;
    add_list_failures(alloc, failures, list.as_slice())?;
    Ok(())
}

fn add_cases(failures: &mut ListOf<Failure>, tree: &ModuleTree) -> Result<(), NoMemory>
    ensures { OnOk result (failures.new ≡ failures.old ++ spec.cases_of tree.now) }
{
    add_next_cases(failures, &tree.first, tree.others.as_slice())?;
    Ok(())
}

#[tactic(auto, using(std::proofs::lemmas::List::flat_map_more))]
fn add_next_items(
    alloc: Global,
    failures: &mut ListOf<Failure>,
    items: &[NextItem],
) -> Result<(), NoMemory>
    ensures { OnOk result (failures.new ≡ failures.old ++ flat_map (λ x. spec.failures_in_item (spec.item_at x)) items.now) }
{
    for next in items {
        add_item(alloc, failures, &next.item)?;
    }
    Ok(())
}

#[tactic(auto, using(std::proofs::Common::append_assoc, crate::proofs::Steps::over_items))]
fn add_items(
    alloc: Global,
    failures: &mut ListOf<Failure>,
    tree: &ModuleTree,
) -> Result<(), NoMemory>
    ensures { OnOk result (failures.new ≡ failures.old ++ flat_map spec.failures_in_item (spec.items_of tree.now)) }
{
    add_item(alloc, failures, &tree.first)?;
    add_next_items(alloc, failures, tree.others.as_slice())?;
    Ok(())
}

#[tactic(auto, using(std::proofs::Common::append_assoc))]
fn failures(alloc: Global, file: u32, tree: &ModuleTree) -> Result<ListOf<Failure>, NoMemory>
    ensures { IfOk result (λ r. r ≡ spec.failures_of file tree.now) }
{
    let mut list = ListOf::new(alloc);
    add_top_list(alloc, &mut list, file, tree)?;
    add_cases(&mut list, tree)?;
    add_items(alloc, &mut list, tree)?;
    Ok(list)
}

fn number_of(rule: Rule) -> u32
    ensures { result ≡ spec.number_of rule }
{
    match rule {
        Rule::Double => 18,
        Rule::Unequal => 19,
        Rule::Repeated => 20,
        Rule::Alone => 22,
    }
}

fn is_before(a: Failure, b: Failure) -> bool
    ensures { result ≡ spec.is_before a b }
{
    a.span.from < b.span.from
        || (a.span.from == b.span.from && number_of(a.rule) < number_of(b.rule))
}

fn earlier(found: Option<Failure>, other: Failure) -> Option<Failure>
    ensures { result ≡ spec.earlier found other }
{
    match found {
        None => Some(other),
        Some(found) => {
            if is_before(other, found) {
                Some(other)
            } else {
                Some(found)
            }
        }
    }
}

fn first_of(failures: &[Failure]) -> Option<Failure>
    ensures { result ≡ spec.first_of None failures.now }
{
    let mut found = None;
    for failure in failures {
        found = earlier(found, *failure);
    }
    found
}

fn refusal_by(rule: Rule, span: Span, name: NameId) -> Refusal
    ensures { result ≡ spec.refusal_by rule span name }
{
    match rule {
        Rule::Double => Refusal::DoubleDefinition { span, name },
        Rule::Unequal => Refusal::UnequalArity { span, name },
        Rule::Repeated => Refusal::RepeatedVariable { span, name },
        Rule::Alone => Refusal::SignatureAlone { span, name },
    }
}

fn refused(found: Option<Failure>) -> Option<Refusal>
    ensures { result ≡ spec.refused found }
{
    match found {
        None => None,
        Some(found) => Some(refusal_by(found.rule, found.span, found.name)),
    }
}

/// The first of the rules on declarations that fails in the file of this number, as a refusal, or none where no rule
/// fails (Haskell 98 Report, 3.17, 4.4.2 and 4.4.3). The rules, with the bytes that are refused:
///
/// - `DoubleDefinition`: a name is defined, has a signature or has a fixity for the second time in one list of
///   declarations, of the top or local: the name there. Clauses of one function that stand next to each other are one
///   definition where the first has arguments.
/// - `UnequalArity`: a clause, of a function or of a case of a generic function, has another number of arguments than
///   the first of its definition: the clause.
/// - `RepeatedVariable`: a variable stands twice in one list of patterns, or among the parameters of one `type`, `data`
///   or `newtype`: the variable there.
/// - `SignatureAlone`: a name has a signature or a fixity in a list of declarations that does not define it: the name
///   there.
///
/// The first is the one with the least first byte, and of these the one with the least number. File 0 is the Prelude,
/// whose primitives are definitions of its top. The one other answer is that there is no memory. It looks at each token
/// and looks each name up a bounded number of times.
pub fn declaration_fault(
    alloc: Global,
    file: u32,
    tree: &ModuleTree,
) -> Result<Option<Refusal>, NoMemory>
    ensures { IfOk result (λ fault. fault ≡ spec.fault_of file tree.now) }
{
    let list = failures(alloc, file, tree)?;
    Ok(refused(first_of(list.as_slice())))
}
