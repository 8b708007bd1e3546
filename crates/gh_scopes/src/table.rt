// Entries in tables by use and by origin.
ghost use Rattle.std.specs.Prelude.{◌≡◌, ◌++◌, [], ◌∷◌, cond, Some, OnOk, IfOk};
ghost use Rattle.std.specs.HashMap.{get};
ghost use Rattle.gh_scopes.specs.Keys.{Key, same_key};
ghost use Rattle.gh_scopes.specs.Found as spec;
ghost use Rattle.gh_scopes.specs.Tables.{IsAnywhere, IsNames};

use crate::keys::{Key, origin_key, serves, use_key};
use crate::sets::{has_key, put_key};
use crate::tables::Found;
use crate::types::ScopeEntry;
use gh_base::{ListOf, NameId, NoMemory, Origin, Space};
use std::alloc::Global;
use std::collections::{HashMap, HashSet};
use std::marker::Model;

fn one_more(found: Option<Found>, origin: Origin) -> Found
    ensures { result ≡ spec.one_more found origin }
{
    match found {
        None => Found {
            origin,
            many: false,
        },
        Some(found) => Found {
            origin: found.origin,
            many: true,
        },
    }
}

fn find_in(names: &HashMap<Key, Found>, key: Key) -> Option<Found>
    ensures { result ≡ get same_key names.now key }
{
    names.get(&key).copied()
}

fn put_name(names: &mut HashMap<Key, Found>, key: Key, origin: Origin) -> Result<(), NoMemory>
    ensures { OnOk result ((k : Key) → get same_key names.new k ≡ cond (same_key key k) (Some (spec.one_more (get same_key names.old key) origin)) (get same_key names.old k)) }
{
    let found = one_more(find_in(names, key), origin);
    names.insert(key, found)?;
    Ok(())
}

/// Entries, and tables of them. Contracts see the entries.
#[derive(Drop)]
pub struct Table {
    entries: ListOf<ScopeEntry>,
    names: HashMap<Key, Found>,
    anywhere: HashSet<Key>,
    ghost names_are: { IsNames names entries },
    ghost anywhere_are: { IsAnywhere anywhere entries },
}

impl Model for Table {
    ghost use Rattle.std.specs.Prelude.{List};
    ghost use Rattle.gh_scopes.specs.declared.types.ScopeEntry.{ScopeEntry};

    ghost Value = { List ScopeEntry };

    ghost view = { λ it. it.entries };
}

impl Table {
    /// No entries.
    pub fn new(alloc: Global) -> Table
        ensures { result ≡ [] }
    {
        Table {
            entries: ListOf::new(alloc),
            names: HashMap::new(alloc),
            anywhere: HashSet::new(alloc),
        }
    }

    /// One more entry.
    #[tactic(auto, using(crate::proofs::Steps::names_step, crate::proofs::Steps::anywhere_step))]
    pub fn with(self, entry: ScopeEntry) -> Result<Table, NoMemory>
        ensures { IfOk result (λ it. it ≡ self ++ entry ∷ []) }
    {
        let Table {
            mut entries,
            mut names,
            mut anywhere,
        } = self;
        put_name(&mut names, serves(entry), entry.origin)?;
        put_key(&mut anywhere, origin_key(entry.origin))?;
        entries.push(entry)?;
        Ok(Table {
            entries,
            names,
            anywhere,
        })
    }

    /// What the entries have for a use.
    pub fn find(&self, qualifier: Option<NameId>, space: Space, name: NameId) -> Option<Found>
        ensures { result ≡ spec.found_use self.now qualifier space name }
    {
        find_in(&self.names, use_key(qualifier, space, name))
    }

    /// The origin that stands first under a name without a qualifier.
    pub fn exported(&self, space: Space, name: NameId) -> Option<Origin>
        ensures { result ≡ spec.exported self.now space name }
    {
        origin_of(self.find(None, space, name))
    }

    /// Whether an origin is in scope under some name.
    pub fn has(&self, origin: Origin) -> bool
        ensures { result ≡ spec.has self.now origin }
    {
        has_key(&self.anywhere, origin_key(origin))
    }

    /// The entries in their order.
    pub fn as_slice(&self) -> &[ScopeEntry]
        ensures { result.now ≡ self.now }
    {
        self.entries.as_slice()
    }
}

/// The origin that was found.
pub fn origin_of(found: Option<Found>) -> Option<Origin>
    ensures { result ≡ spec.origin_found found }
{
    match found {
        None => None,
        Some(found) => Some(found.origin),
    }
}

/// With these entries behind its own.
pub fn with_all(table: Table, entries: &[ScopeEntry]) -> Result<Table, NoMemory>
    ensures { IfOk result (λ it. it ≡ table ++ entries.now) }
{
    let mut table = table;
    for entry in entries {
        table = table.with(*entry)?;
    }
    Ok(table)
}

/// A table of these entries.
pub fn table_of(alloc: Global, entries: &[ScopeEntry]) -> Result<Table, NoMemory>
    ensures { IfOk result (λ it. it ≡ entries.now) }
{
    with_all(Table::new(alloc), entries)
}
