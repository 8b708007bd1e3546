// The constructors of types.
ghost use Rattle.std.specs.Prelude.{◌≡◌, ◌++◌, [], map, unwrap_or, OnOk, IfOk};
ghost use Rattle.std.specs.HashMap.{get};
ghost use Rattle.std.specs.List.{flat_map};
ghost use Rattle.gh_scopes.specs.Keys.{Key, same_key, type_key};
ghost use Rattle.gh_scopes.specs.Imports as spec;
ghost use Rattle.gh_scopes.specs.Tables.{IsOwners};

use crate::keys::{Key, same_origin, type_key};
use crate::lists_by_key::put_at;
use crate::types::{Definition, Summary};
use gh_base::{ListOf, NameId, NoMemory, Origin, Space};
use std::alloc::Global;
use std::collections::HashMap;

fn own_definition(
    alloc: Global,
    table: &mut HashMap<Key, ListOf<NameId>>,
    home: NameId,
    definition: &Definition,
) -> Result<(), NoMemory>
    ensures { OnOk result ((k : Key) → unwrap_or (get same_key table.new k) [] ≡ unwrap_or (get same_key table.old k) [] ++ spec.owned k home definition.now) }
{
    match definition.owner {
        None => Ok(()),
        Some(owner) => {
            put_at(alloc, table, type_key(home, owner), definition.name)?;
            Ok(())
        }
    }
}

#[tactic(auto, using(std::proofs::lemmas::List::flat_map_more))]
fn own_definitions(
    alloc: Global,
    table: &mut HashMap<Key, ListOf<NameId>>,
    home: NameId,
    definitions: &[Definition],
) -> Result<(), NoMemory>
    ensures { OnOk result ((k : Key) → unwrap_or (get same_key table.new k) [] ≡ unwrap_or (get same_key table.old k) [] ++ flat_map (spec.owned k home) definitions.now) }
{
    for definition in definitions {
        own_definition(alloc, table, home, definition)?;
    }
    Ok(())
}

fn owned_by_all(
    alloc: Global,
    summaries: &[Summary],
) -> Result<HashMap<Key, ListOf<NameId>>, NoMemory>
    ensures { IfOk result (λ table. IsOwners table summaries.now) }
{
    let mut table = HashMap::new(alloc);
    for summary in summaries {
        own_definitions(
            alloc,
            &mut table,
            summary.name,
            summary.definitions.as_slice(),
        )?;
    }
    Ok(table)
}

/// What each file says to the others, and the constructors of each type.
#[derive(Drop)]
pub struct Owners<'a> {
    pub summaries: &'a [Summary],
    table: HashMap<Key, ListOf<NameId>>,
    ghost owners_are: { IsOwners table summaries.now },
}

/// The origin of a constructor of a type.
pub fn constructor_of(owner: Origin, name: NameId) -> Origin
    ensures { result ≡ spec.constructor_of owner name }
{
    Origin {
        module: owner.module,
        space: Space::Values,
        name,
    }
}

impl<'a> Owners<'a> {
    /// The constructors of all types that these files define.
    pub fn new(alloc: Global, summaries: &'a [Summary]) -> Result<Owners<'a>, NoMemory>
        ensures { IfOk result (λ it. it.summaries.now ≡ summaries.now) }
    {
        let table = owned_by_all(alloc, summaries)?;
        Ok(Owners { summaries, table })
    }

    /// The names of the constructors of a type, in the order of the text.
    pub fn constructors(&self, owner: Origin) -> &[NameId]
        ensures { result.now ≡ spec.constructors self.now.summaries.now (type_key owner.«module» owner.name) }
    {
        match self.table.get(&type_key(owner.module, owner.name)) {
            Some(list) => list.as_slice(),
            None => &[],
        }
    }

    /// Whether a type has a constructor of this name.
    pub fn is_one(&self, owner: Origin, name: NameId) -> bool
        ensures { result ≡ spec.is_one_of (spec.constructors_of self.now.summaries.now owner) (spec.constructor_of owner name) }
    {
        is_among(owner, self.constructors(owner), constructor_of(owner, name))
    }
}

fn is_among(owner: Origin, names: &[NameId], origin: Origin) -> bool
    ensures { result ≡ spec.is_one_of (map (spec.constructor_of owner) names.now) origin }
{
    for name in names {
        if same_origin(constructor_of(owner, *name), origin) {
            return true;
        }
    }
    false
}
