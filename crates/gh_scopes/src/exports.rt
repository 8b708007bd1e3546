// What a module exports.
ghost use Rattle.std.specs.Prelude.{◌≡◌, ◌++◌, [], IfOk, OnOk};
ghost use Rattle.gh_scopes.specs.Found.{found_use};
ghost use Rattle.gh_scopes.specs.Exports as spec;

use crate::by_qualifier::ByQualifier;
use crate::given::Given;
use crate::keys::{entry, same_origin};
use crate::once::{Once, own_alone};
use crate::owners::Owners;
use crate::picked::{add_type, first_bad, put_some};
use crate::qualifiers::Qualifiers;
use crate::table::{Table, origin_of, table_of, with_all};
use crate::tables::Found;
use crate::types::{Listed, ListedKind, Summary, Used};
use gh_base::{ListOf, NameId, NoMemory, Origin, Refusal, Space};
use std::alloc::Global;

fn unknown(name: Used) -> Refusal
    ensures { result ≡ spec.unknown name }
{
    Refusal::UnknownName {
        span: name.span,
        name: name.name,
    }
}

fn use_fault(name: Used, found: Option<Found>) -> Option<Refusal>
    ensures { result ≡ spec.use_fault name found }
{
    match found {
        None => Some(unknown(name)),
        Some(found) => {
            if found.many {
                Some(Refusal::AmbiguousName {
                    span: name.span,
                    name: name.name,
                })
            } else {
                None
            }
        }
    }
}

fn module_fault(is_there: bool, name: Used) -> Option<Refusal>
    ensures { result ≡ spec.module_fault is_there name }
{
    if is_there { None } else { Some(unknown(name)) }
}

// What is found for a name of an export list.
fn looked(table: &Table, space: Space, name: Used) -> Option<Found>
    ensures { result ≡ found_use table.now name.qualifier space name.name }
{
    table.find(name.qualifier, space, name.name)
}

fn head_fault(qualifiers: &Qualifiers, table: &Table, listed: &Listed) -> Option<Refusal>
    ensures { result ≡ spec.head_fault qualifiers.now.summary.now table.now listed.now }
{
    let name = listed.name;
    match listed.kind {
        ListedKind::Value => use_fault(name, looked(table, Space::Values, name)),
        ListedKind::Type => use_fault(name, looked(table, Space::Types, name)),
        ListedKind::Module => module_fault(qualifiers.has(name.name), name),
    }
}

// What a part of an export list names.
fn named(
    alloc: Global,
    owners: &Owners,
    modules: &ByQualifier,
    table: &Table,
    listed: &Listed,
) -> Result<ListOf<Origin>, NoMemory>
    requires { table.now ≡ modules.now.once.now }
    ensures { IfOk result (λ list. list ≡ spec.named owners.now.summaries.now modules.now.once.now listed.now) }
{
    let mut list = ListOf::new(alloc);
    let name = listed.name;
    match listed.kind {
        ListedKind::Value => {
            put_some(&mut list, origin_of(looked(table, Space::Values, name)))?;
            Ok(list)
        }
        ListedKind::Type => {
            let owner = origin_of(looked(table, Space::Types, name));
            add_type(&mut list, owners, table, owner, &listed.parts)?;
            Ok(list)
        }
        ListedKind::Module => {
            list.extend_from_slice(modules.origins(name.name))?;
            Ok(list)
        }
    }
}

fn unknown_part(name: Option<Used>) -> Option<Refusal>
    ensures { result ≡ spec.unknown_part name }
{
    match name {
        None => None,
        Some(name) => Some(unknown(name)),
    }
}

fn tail_fault(owners: &Owners, table: &Table, listed: &Listed) -> Option<Refusal>
    ensures { result ≡ spec.tail_fault owners.now.summaries.now table.now listed.now }
{
    match listed.kind {
        ListedKind::Value => None,
        ListedKind::Type => match origin_of(looked(table, Space::Types, listed.name)) {
            None => None,
            Some(owner) => unknown_part(first_bad(owners, table, owner, &listed.parts)),
        },
        ListedKind::Module => None,
    }
}

// The origin that a name has among the exports so far, or among the new ones.
fn stands_for(exported: &Table, new: &Table, origin: Origin) -> Option<Origin>
    ensures { result ≡ spec.stands_for exported.now new.now origin }
{
    match exported.exported(origin.space, origin.name) {
        Some(other) => Some(other),
        None => new.exported(origin.space, origin.name),
    }
}

// What an item adds to the exports so far, or a name that would have two origins.
fn added(
    alloc: Global,
    exported: &Table,
    origins: &[Origin],
) -> Result<Result<Table, NameId>, NoMemory>
    ensures { IfOk result (λ r. r ≡ spec.added exported.now (Ok []) origins.now) }
{
    let mut new = Table::new(alloc);
    for origin in origins {
        match stands_for(exported, &new, *origin) {
            None => {
                new = new.with(entry(None, *origin))?;
            }
            Some(other) => {
                if !same_origin(other, *origin) {
                    return Ok(Err(origin.name));
                }
            }
        }
    }
    Ok(Ok(new))
}

fn no_more(entries: Table, refusal: Refusal) -> Given
    ensures { result ≡ spec.no_more entries refusal }
{
    Given {
        entries,
        fault: Some(refusal),
    }
}

fn after_tail(exported: Table, new: Table, fault: Option<Refusal>) -> Result<Given, NoMemory>
    ensures { IfOk result (λ g. g ≡ spec.after_tail exported new fault) }
{
    match fault {
        Some(refusal) => Ok(no_more(exported, refusal)),
        None => {
            let entries = with_all(exported, new.as_slice())?;
            Ok(Given {
                entries,
                fault: None,
            })
        }
    }
}

fn after_names(
    owners: &Owners,
    table: &Table,
    exported: Table,
    listed: &Listed,
    new: Result<Table, NameId>,
) -> Result<Given, NoMemory>
    ensures { IfOk result (λ g. g ≡ spec.after_names owners.now.summaries.now table.now exported listed.now new) }
{
    match new {
        Err(name) => Ok(no_more(
            exported,
            Refusal::AmbiguousName {
                span: listed.span,
                name,
            },
        )),
        Ok(new) => after_tail(exported, new, tail_fault(owners, table, listed)),
    }
}

// The exports with those of an item.
#[tactic(auto, unfolding(crate::specs::Exports::with_item))]
fn with_item(
    alloc: Global,
    owners: &Owners,
    qualifiers: &Qualifiers,
    modules: &ByQualifier,
    table: &Table,
    exported: Table,
    listed: &Listed,
) -> Result<Given, NoMemory>
    requires { table.now ≡ modules.now.once.now }
    ensures { IfOk result (λ g. g ≡ spec.with_item owners.now.summaries.now qualifiers.now.summary.now modules.now.once.now exported listed.now) }
{
    match head_fault(qualifiers, table, listed) {
        Some(refusal) => Ok(no_more(exported, refusal)),
        None => {
            let origins = named(alloc, owners, modules, table, listed)?;
            let new = added(alloc, &exported, origins.as_slice())?;
            after_names(owners, table, exported, listed, new)
        }
    }
}

fn and_fault(fault: Option<Refusal>, given: Given) -> Given
    ensures { result ≡ spec.and_fault fault given }
{
    match fault {
        None => given,
        Some(refusal) => no_more(given.entries, refusal),
    }
}

fn with_next(
    alloc: Global,
    owners: &Owners,
    qualifiers: &Qualifiers,
    modules: &ByQualifier,
    table: &Table,
    given: Given,
    listed: &Listed,
) -> Result<Given, NoMemory>
    requires { table.now ≡ modules.now.once.now }
    ensures { IfOk result (λ g. g ≡ spec.with_next owners.now.summaries.now qualifiers.now.summary.now modules.now.once.now given listed.now) }
{
    let Given { entries, fault } = given;
    let next = with_item(alloc, owners, qualifiers, modules, table, entries, listed)?;
    Ok(and_fault(fault, next))
}

fn with_items(
    alloc: Global,
    owners: &Owners,
    qualifiers: &Qualifiers,
    modules: &ByQualifier,
    table: &Table,
    listed: &[Listed],
) -> Result<Given, NoMemory>
    requires { table.now ≡ modules.now.once.now }
    ensures { IfOk result (λ g. g ≡ spec.with_items owners.now.summaries.now qualifiers.now.summary.now modules.now.once.now spec.nothing listed.now) }
{
    let mut given = Given {
        entries: Table::new(alloc),
        fault: None,
    };
    for one in listed {
        given = with_next(alloc, owners, qualifiers, modules, table, given, one)?;
    }
    Ok(given)
}

fn of_list(
    alloc: Global,
    owners: &Owners,
    summary: &Summary,
    once: &Once,
    listed: &[Listed],
) -> Result<Given, NoMemory>
    ensures { IfOk result (λ g. g ≡ spec.with_items owners.now.summaries.now summary.now once.now spec.nothing listed.now) }
{
    let table = table_of(alloc, once.as_slice())?;
    let modules = ByQualifier::new(alloc, once)?;
    let qualifiers = Qualifiers::new(alloc, summary)?;
    with_items(alloc, owners, &qualifiers, &modules, &table, listed)
}

fn of_own(alloc: Global, summary: &Summary) -> Result<Given, NoMemory>
    ensures { IfOk result (λ g. g ≡ spec.own_exports summary.now) }
{
    let own = own_alone(alloc, summary.name, summary.definitions.as_slice())?;
    let entries = table_of(alloc, own.as_slice())?;
    Ok(Given {
        entries,
        fault: None,
    })
}

/// The exports of a module, and the first fault of its list.
#[tactic(auto, unfolding(crate::specs::Exports::exports_of))]
pub fn exports_of(
    alloc: Global,
    owners: &Owners,
    summary: &Summary,
    once: &Once,
) -> Result<Given, NoMemory>
    ensures { IfOk result (λ g. g ≡ spec.exports_of owners.now.summaries.now summary.now once.now) }
{
    match &summary.exports {
        None => of_own(alloc, summary),
        Some(listed) => of_list(alloc, owners, summary, once, listed.as_slice()),
    }
}
