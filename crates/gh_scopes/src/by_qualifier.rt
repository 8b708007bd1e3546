// What `module` exports with each qualifier.
ghost use Rattle.std.specs.Prelude.{◌≡◌, ◌++◌, [], unwrap_or, OnOk, IfOk};
ghost use Rattle.std.specs.HashMap.{get};
ghost use Rattle.gh_base.specs.declared.names.NameId.{NameId};
ghost use Rattle.gh_scopes.specs.Keys as keys;
ghost use Rattle.gh_scopes.specs.Exports as spec;
ghost use Rattle.gh_scopes.specs.Tables.{IsByQualifier};

use crate::keys::{Key, entry, qualifier_key};
use crate::lists_by_key::put_at;
use crate::once::Once;
use crate::types::ScopeEntry;
use gh_base::{ListOf, NameId, NoMemory, Origin};
use std::alloc::Global;
use std::collections::HashMap;

// One more entry: with its qualifier, if its origin is in scope without one too.
fn put_entry(
    alloc: Global,
    table: &mut HashMap<Key, ListOf<Origin>>,
    once: &Once,
    one: ScopeEntry,
) -> Result<(), NoMemory>
    ensures { OnOk result ((q : NameId) → unwrap_or (get keys.same_key table.new (keys.qualifier_key q)) [] ≡ unwrap_or (get keys.same_key table.old (keys.qualifier_key q)) [] ++ spec.exported_by once.now q one) }
{
    match one.qualifier {
        None => Ok(()),
        Some(qualifier) => {
            if once.has(entry(None, one.origin)) {
                put_at(alloc, table, qualifier_key(qualifier), one.origin)?;
            }
            Ok(())
        }
    }
}

#[tactic(auto, using(std::proofs::lemmas::List::flat_map_more))]
fn table_of(alloc: Global, once: &Once) -> Result<HashMap<Key, ListOf<Origin>>, NoMemory>
    ensures { IfOk result (λ table. IsByQualifier table once.now) }
{
    let mut table = HashMap::new(alloc);
    let entries = once.as_slice();
    for one in entries {
        put_entry(alloc, &mut table, once, *one)?;
    }
    Ok(table)
}

/// Entries, each once, and what `module` exports of them with each qualifier.
#[derive(Drop)]
pub struct ByQualifier<'a> {
    pub once: &'a Once,
    table: HashMap<Key, ListOf<Origin>>,
    ghost exports_are: { IsByQualifier table once.now },
}

impl<'a> ByQualifier<'a> {
    /// The table of these entries.
    pub fn new(alloc: Global, once: &'a Once) -> Result<ByQualifier<'a>, NoMemory>
        ensures { IfOk result (λ it. it.once.now ≡ once.now) }
    {
        let table = table_of(alloc, once)?;
        Ok(ByQualifier { once, table })
    }

    /// What `module` exports with this qualifier, in the order of the entries.
    pub fn origins(&self, qualifier: NameId) -> &[Origin]
        ensures { result.now ≡ spec.module_origins self.now.once.now qualifier }
    {
        match self.table.get(&qualifier_key(qualifier)) {
            Some(list) => list.as_slice(),
            None => &[],
        }
    }
}
