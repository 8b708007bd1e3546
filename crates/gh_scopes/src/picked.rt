// What the parts of import and export lists name.
ghost use Rattle.std.specs.Prelude.{◌≡◌, ◌++◌, ◌∷◌, [], OnOk, IfOk};
ghost use Rattle.std.specs.List.{flat_map};
ghost use Rattle.gh_scopes.specs.Graph.{first_some};
ghost use Rattle.gh_scopes.specs.Keys.{type_key};
ghost use Rattle.gh_scopes.specs.Imports as spec;
ghost use Rattle.gh_scopes.specs.Tables.{IsPicked};

use crate::keys::{Key, origin_key};
use crate::owners::{Owners, constructor_of};
use crate::sets::put_key;
use crate::table::Table;
use crate::types::{Listed, ListedKind, Parts, Used};
use gh_base::{ListOf, NoMemory, Origin, Refusal, Space};
use std::alloc::Global;
use std::collections::HashSet;

// One more, if it is kept.
fn keep(list: &mut ListOf<Origin>, is_kept: bool, origin: Origin) -> Result<(), NoMemory>
    ensures { OnOk result (list.new ≡ list.old ++ spec.kept is_kept origin) }
{
    if is_kept {
        list.push(origin)?;
    }
    Ok(())
}

/// One more, if there is one.
pub fn put_some(list: &mut ListOf<Origin>, origin: Option<Origin>) -> Result<(), NoMemory>
    ensures { OnOk result (list.new ≡ list.old ++ spec.to_list origin) }
{
    if let Some(origin) = origin {
        list.push(origin)?;
    }
    Ok(())
}

// Whether a listed name is a constructor of the type and among these entries.
fn is_part(owners: &Owners, table: &Table, owner: Origin, name: &Used) -> bool
    ensures { result ≡ spec.is_part owners.now.summaries.now table.now owner name.now }
{
    owners.is_one(owner, name.name) && table.has(constructor_of(owner, name.name))
}

#[tactic(auto, using(std::proofs::lemmas::List::flat_map_more))]
fn add_exported_parts(
    list: &mut ListOf<Origin>,
    owners: &Owners,
    table: &Table,
    owner: Origin,
) -> Result<(), NoMemory>
    ensures { OnOk result (list.new ≡ list.old ++ flat_map (spec.exported_part table.now owner) (spec.constructors owners.now.summaries.now (type_key owner.«module» owner.name))) }
{
    let names = owners.constructors(owner);
    for name in names {
        let origin = constructor_of(owner, *name);
        keep(list, table.has(origin), origin)?;
    }
    Ok(())
}

#[tactic(auto, using(std::proofs::lemmas::List::flat_map_more))]
fn add_listed_parts(
    list: &mut ListOf<Origin>,
    owners: &Owners,
    table: &Table,
    owner: Origin,
    names: &[Used],
) -> Result<(), NoMemory>
    ensures { OnOk result (list.new ≡ list.old ++ flat_map (spec.listed_part owners.now.summaries.now table.now owner) names.now) }
{
    for name in names {
        let is_kept = is_part(owners, table, owner, name);
        keep(list, is_kept, constructor_of(owner, name.name))?;
    }
    Ok(())
}

fn add_parts(
    list: &mut ListOf<Origin>,
    owners: &Owners,
    table: &Table,
    owner: Origin,
    parts: &Parts,
) -> Result<(), NoMemory>
    ensures { OnOk result (list.new ≡ list.old ++ spec.part_origins owners.now.summaries.now table.now owner parts.now) }
{
    match parts {
        Parts::Bare => Ok(()),
        Parts::All => add_exported_parts(list, owners, table, owner),
        Parts::Listed(names) => add_listed_parts(list, owners, table, owner, names.as_slice()),
    }
}

/// A type, if there is one, and its constructors that are named with it.
pub fn add_type(
    list: &mut ListOf<Origin>,
    owners: &Owners,
    table: &Table,
    owner: Option<Origin>,
    parts: &Parts,
) -> Result<(), NoMemory>
    ensures { OnOk result (list.new ≡ list.old ++ spec.with_parts owners.now.summaries.now table.now parts.now owner) }
{
    match owner {
        None => Ok(()),
        Some(owner) => {
            list.push(owner)?;
            add_parts(list, owners, table, owner, parts)?;
            Ok(())
        }
    }
}

#[tactic(auto, using(crate::proofs::Lists::first_more, crate::proofs::Lists::first_here))]
fn first_bad_of(owners: &Owners, table: &Table, owner: Origin, names: &[Used]) -> Option<Used>
    ensures { result ≡ first_some (spec.bad_part owners.now.summaries.now table.now owner) names.now }
{
    for name in names {
        if !is_part(owners, table, owner, name) {
            return Some(*name);
        }
    }
    None
}

/// The first listed name that is no constructor of the type among these entries.
pub fn first_bad(owners: &Owners, table: &Table, owner: Origin, parts: &Parts) -> Option<Used>
    ensures { result ≡ spec.first_bad owners.now.summaries.now table.now owner parts.now }
{
    match parts {
        Parts::Bare => None,
        Parts::All => None,
        Parts::Listed(names) => first_bad_of(owners, table, owner, names.as_slice()),
    }
}

// A constructor that a type alone names behind `hiding`.
fn alone_too(hiding: bool, table: &Table, name: Used, parts: &Parts) -> Option<Origin>
    ensures { result ≡ spec.alone_too hiding table.now name parts.now }
{
    if !hiding {
        return None;
    }
    match parts {
        Parts::Bare => table.exported(Space::Values, name.name),
        Parts::All => None,
        Parts::Listed(_) => None,
    }
}

// What a part of an import list names among the exports of its module.
fn add_picked(
    list: &mut ListOf<Origin>,
    hiding: bool,
    owners: &Owners,
    table: &Table,
    listed: &Listed,
) -> Result<(), NoMemory>
    ensures { OnOk result (list.new ≡ list.old ++ spec.picked hiding owners.now.summaries.now table.now listed.now) }
{
    match listed.kind {
        ListedKind::Value => {
            put_some(list, table.exported(Space::Values, listed.name.name))?;
            Ok(())
        }
        ListedKind::Type => {
            let owner = table.exported(Space::Types, listed.name.name);
            add_type(list, owners, table, owner, &listed.parts)?;
            put_some(list, alone_too(hiding, table, listed.name, &listed.parts))?;
            Ok(())
        }
        ListedKind::Module => Ok(()),
    }
}

/// What an import list names among the exports of its module.
#[tactic(auto, using(std::proofs::lemmas::List::flat_map_more))]
pub fn picked(
    alloc: Global,
    hiding: bool,
    owners: &Owners,
    table: &Table,
    listed: &[Listed],
) -> Result<ListOf<Origin>, NoMemory>
    ensures { IfOk result (λ list. list ≡ flat_map (spec.picked hiding owners.now.summaries.now table.now) listed.now) }
{
    let mut list = ListOf::new(alloc);
    for one in listed {
        add_picked(&mut list, hiding, owners, table, one)?;
    }
    Ok(list)
}

/// The set of these origins.
#[tactic(auto, using(crate::proofs::Steps::picked_step))]
pub fn set_of(alloc: Global, origins: &[Origin]) -> Result<HashSet<Key>, NoMemory>
    ensures { IfOk result (λ set. IsPicked set origins.now) }
{
    let mut set = HashSet::new(alloc);
    for origin in origins {
        put_key(&mut set, origin_key(*origin))?;
    }
    Ok(set)
}

fn not_exported(name: Used) -> Refusal
    ensures { result ≡ spec.not_exported name }
{
    Refusal::NotExported {
        span: name.span,
        name: name.name,
    }
}

fn missing_unless(is_there: bool, name: Used) -> Option<Refusal>
    ensures { result ≡ spec.missing_unless is_there name }
{
    if is_there {
        None
    } else {
        Some(not_exported(name))
    }
}

fn missing_part(name: Option<Used>) -> Option<Refusal>
    ensures { result ≡ spec.missing_part name }
{
    match name {
        None => None,
        Some(name) => Some(not_exported(name)),
    }
}

fn missing(hiding: bool, owners: &Owners, table: &Table, listed: &Listed) -> Option<Refusal>
    ensures { result ≡ spec.missing hiding owners.now.summaries.now table.now listed.now }
{
    let name = listed.name;
    match listed.kind {
        ListedKind::Value => {
            missing_unless(table.exported(Space::Values, name.name).is_some(), name)
        }
        ListedKind::Type => match table.exported(Space::Types, name.name) {
            None => {
                let other = alone_too(hiding, table, name, &listed.parts);
                missing_unless(other.is_some(), name)
            }
            Some(owner) => missing_part(first_bad(owners, table, owner, &listed.parts)),
        },
        ListedKind::Module => None,
    }
}

/// The first part of an import list that names what its module does not export.
#[tactic(auto, using(crate::proofs::Lists::first_more, crate::proofs::Lists::first_here))]
pub fn first_missing(
    hiding: bool,
    owners: &Owners,
    table: &Table,
    listed: &[Listed],
) -> Option<Refusal>
    ensures { result ≡ first_some (spec.missing hiding owners.now.summaries.now table.now) listed.now }
{
    for one in listed {
        if let Some(refusal) = missing(hiding, owners, table, one) {
            return Some(refusal);
        }
    }
    None
}
