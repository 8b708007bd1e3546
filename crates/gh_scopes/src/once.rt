// Entries, each once.
ghost use Rattle.std.specs.Prelude.{◌≡◌, ◌++◌, ◌∷◌, [], map, OnOk, IfOk};
ghost use Rattle.std.specs.List.{flat_map};
ghost use Rattle.gh_scopes.specs.Found.{among, once, with_entry, with_entries};
ghost use Rattle.gh_scopes.specs.Imports as spec;
ghost use Rattle.gh_scopes.specs.Tables.{IsSeen};

use crate::keys::{Key, entry, entry_key};
use crate::sets::{has_key, put_key};
use crate::types::{Definition, ScopeEntry};
use gh_base::{ListOf, NameId, NoMemory, Origin};
use std::alloc::Global;
use std::collections::HashSet;
use std::marker::Model;

/// Entries, each once, and the set of their keys. Contracts see the entries.
#[derive(Drop)]
pub struct Once {
    entries: ListOf<ScopeEntry>,
    seen: HashSet<Key>,
    ghost seen_are: { IsSeen seen entries },
}

impl Model for Once {
    ghost use Rattle.std.specs.Prelude.{List};
    ghost use Rattle.gh_scopes.specs.declared.types.ScopeEntry.{ScopeEntry};

    ghost Value = { List ScopeEntry };

    ghost view = { λ it. it.entries };
}

impl Once {
    /// No entries.
    pub fn new(alloc: Global) -> Once
        ensures { result ≡ [] }
    {
        Once {
            entries: ListOf::new(alloc),
            seen: HashSet::new(alloc),
        }
    }

    /// Whether an entry is there.
    pub fn has(&self, entry: ScopeEntry) -> bool
        ensures { result ≡ among self.now entry }
    {
        has_key(&self.seen, entry_key(entry))
    }

    /// One more, if it is not there.
    pub fn with(self, entry: ScopeEntry) -> Result<Once, NoMemory>
        ensures { IfOk result (λ it. it ≡ with_entry self entry) }
    {
        if self.has(entry) {
            return Ok(self);
        }
        self.with_new(entry)
    }

    #[tactic(auto, using(crate::proofs::Steps::seen_step))]
    fn with_new(self, entry: ScopeEntry) -> Result<Once, NoMemory>
        ensures { IfOk result (λ it. it ≡ self ++ entry ∷ []) }
    {
        let Once {
            mut entries,
            mut seen,
        } = self;
        put_key(&mut seen, entry_key(entry))?;
        entries.push(entry)?;
        Ok(Once { entries, seen })
    }

    /// The entries in their order.
    pub fn as_slice(&self) -> &[ScopeEntry]
        ensures { result.now ≡ self.now }
    {
        self.entries.as_slice()
    }

    /// The entries in their order.
    pub fn into_entries(self) -> ListOf<ScopeEntry>
        ensures { result ≡ self }
    {
        let Once { entries, seen } = self;
        drop(seen);
        entries
    }
}

/// What one definition or export gives.
pub fn with_given(
    it: Once,
    qualified: bool,
    qualifier: NameId,
    origin: Origin,
) -> Result<Once, NoMemory>
    ensures { IfOk result (λ r. r ≡ with_entries it (spec.given_origin qualified qualifier origin)) }
{
    if qualified {
        return it.with(entry(Some(qualifier), origin));
    }
    let it = it.with(entry(None, origin))?;
    it.with(entry(Some(qualifier), origin))
}

fn own_origin(home: NameId, definition: &Definition) -> Origin
    ensures { result ≡ spec.own_origin home definition.now }
{
    Origin {
        module: home,
        space: definition.space,
        name: definition.name,
    }
}

/// What a module defines, with and without its name as a qualifier.
#[tactic(auto, using(crate::proofs::Entered::entered_more))]
pub fn with_own(it: Once, home: NameId, definitions: &[Definition]) -> Result<Once, NoMemory>
    ensures { IfOk result (λ r. r ≡ with_entries it (flat_map (spec.own_given home) definitions.now)) }
{
    let mut it = it;
    for definition in definitions {
        it = with_given(it, false, home, own_origin(home, definition))?;
    }
    Ok(it)
}

/// What a module defines, without qualifiers.
pub fn own_alone(alloc: Global, home: NameId, definitions: &[Definition]) -> Result<Once, NoMemory>
    ensures { IfOk result (λ r. r ≡ once (map (spec.own_entry home) definitions.now)) }
{
    let mut it = Once::new(alloc);
    for definition in definitions {
        it = it.with(entry(None, own_origin(home, definition)))?;
    }
    Ok(it)
}
