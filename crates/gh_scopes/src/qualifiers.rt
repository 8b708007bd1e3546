// The names that `module` may stand before in an export list.
ghost use Rattle.std.specs.Prelude.{◌≡◌, ◌||◌, OnOk, IfOk};
ghost use Rattle.std.specs.HashSet.{contains};
ghost use Rattle.std.specs.List.{list_any};
ghost use Rattle.gh_base.specs.declared.names.NameId.{NameId};
ghost use Rattle.gh_scopes.specs.Keys as keys;
ghost use Rattle.gh_scopes.specs.Exports as spec;
ghost use Rattle.gh_scopes.specs.Tables.{IsQualifiers};

use crate::keys::{Key, qualifier_key};
use crate::sets::{has_key, put_key};
use crate::types::{Import, Summary};
use gh_base::{NameId, NoMemory};
use std::alloc::Global;
use std::collections::HashSet;

fn put_import(set: &mut HashSet<Key>, import: &Import) -> Result<(), NoMemory>
    ensures { OnOk result ((q : NameId) → contains keys.same_key set.new (keys.qualifier_key q) ≡ (contains keys.same_key set.old (keys.qualifier_key q) || spec.has_qualifier q import.now)) }
{
    put_key(set, qualifier_key(import.qualifier))?;
    Ok(())
}

fn put_imports(set: &mut HashSet<Key>, imports: &[Import]) -> Result<(), NoMemory>
    ensures { OnOk result ((q : NameId) → contains keys.same_key set.new (keys.qualifier_key q) ≡ (contains keys.same_key set.old (keys.qualifier_key q) || list_any (spec.has_qualifier q) imports.now)) }
{
    for import in imports {
        put_import(set, import)?;
    }
    Ok(())
}

fn set_of(alloc: Global, summary: &Summary) -> Result<HashSet<Key>, NoMemory>
    ensures { IfOk result (λ set. IsQualifiers set summary.now) }
{
    let mut set = HashSet::new(alloc);
    put_key(&mut set, qualifier_key(summary.name))?;
    put_imports(&mut set, summary.imports.as_slice())?;
    Ok(set)
}

/// What a file says to the others, and the names that `module` may stand before in its export list.
#[derive(Drop)]
pub struct Qualifiers<'a> {
    pub summary: &'a Summary,
    set: HashSet<Key>,
    ghost qualifiers_are: { IsQualifiers set summary.now },
}

impl<'a> Qualifiers<'a> {
    /// The name of this module and the qualifiers of its imports.
    pub fn new(alloc: Global, summary: &'a Summary) -> Result<Qualifiers<'a>, NoMemory>
        ensures { IfOk result (λ it. it.summary.now ≡ summary.now) }
    {
        let set = set_of(alloc, summary)?;
        Ok(Qualifiers { summary, set })
    }

    /// Whether `module` may stand before this name.
    pub fn has(&self, name: NameId) -> bool
        ensures { result ≡ spec.is_qualifier self.now.summary.now name }
    {
        has_key(&self.set, qualifier_key(name))
    }
}
