// What imports give, and what they miss.
ghost use Rattle.std.specs.Prelude.{◌≡◌, List, [], cond, IfOk};
ghost use Rattle.std.specs.Option.{option_copied};
ghost use Rattle.gh_base.specs.declared.place.Origin.{Origin};
ghost use Rattle.gh_scopes.specs.Tables.{IsPicked};
ghost use Rattle.std.specs.List.{flat_map};
ghost use Rattle.gh_scopes.specs.Found.{with_entries};
ghost use Rattle.gh_scopes.specs.Imports as spec;

use crate::graph::file_of;
use crate::keys::{Key, origin_key};
use crate::once::{Once, with_given, with_own};
use crate::owners::Owners;
use crate::picked::{first_missing, picked, set_of};
use crate::sets::has_key;
use crate::table::Table;
use crate::types::{Import, Listed, ScopeEntry, Selection, Summary};
use gh_base::{NoMemory, Origin, Refusal};
use std::alloc::Global;
use std::collections::HashSet;

// All exports of a module.
#[tactic(auto, using(crate::proofs::Entered::entered_more))]
fn with_whole(it: Once, import: &Import, entries: &[ScopeEntry]) -> Result<Once, NoMemory>
    ensures { IfOk result (λ r. r ≡ with_entries it (flat_map (spec.given import.now.qualified import.now.qualifier) entries.now)) }
{
    let mut it = it;
    for entry in entries {
        it = with_given(it, import.qualified, import.qualifier, entry.origin)?;
    }
    Ok(it)
}

fn is_wanted(set: &HashSet<Key>, hiding: bool, origin: Origin) -> bool
    ensures { (os : List Origin) → IsPicked set.now os → result ≡ spec.is_wanted hiding os origin }
{
    let is_there = has_key(set, origin_key(origin));
    if hiding { !is_there } else { is_there }
}

// One more export, if it is wanted.
fn with_wanted(it: Once, import: &Import, wanted: bool, origin: Origin) -> Result<Once, NoMemory>
    ensures { IfOk result (λ r. r ≡ with_entries it (cond wanted (spec.given_origin import.now.qualified import.now.qualifier origin) [])) }
{
    if wanted {
        return with_given(it, import.qualified, import.qualifier, origin);
    }
    Ok(it)
}

// Those of the exports that are among these origins, or those that are not.
#[tactic(auto, using(crate::proofs::Entered::entered_more))]
fn with_chosen(
    alloc: Global,
    it: Once,
    import: &Import,
    hiding: bool,
    origins: &[Origin],
    entries: &[ScopeEntry],
) -> Result<Once, NoMemory>
    ensures { IfOk result (λ r. r ≡ with_entries it (flat_map (spec.wanted_from import.now hiding origins.now) entries.now)) }
{
    let set = set_of(alloc, origins)?;
    let mut it = it;
    for entry in entries {
        let wanted = is_wanted(&set, hiding, entry.origin);
        it = with_wanted(it, import, wanted, entry.origin)?;
    }
    Ok(it)
}

fn with_listed(
    alloc: Global,
    it: Once,
    owners: &Owners,
    import: &Import,
    hiding: bool,
    listed: &[Listed],
    table: &Table,
) -> Result<Once, NoMemory>
    ensures { IfOk result (λ r. r ≡ with_entries it (flat_map (spec.wanted_from import.now hiding (flat_map (spec.picked hiding owners.now.summaries.now table.now) listed.now)) table.now)) }
{
    let origins = picked(alloc, hiding, owners, table, listed)?;
    with_chosen(
        alloc,
        it,
        import,
        hiding,
        origins.as_slice(),
        table.as_slice(),
    )
}

fn with_import_from(
    alloc: Global,
    it: Once,
    owners: &Owners,
    import: &Import,
    table: &Table,
) -> Result<Once, NoMemory>
    ensures { IfOk result (λ r. r ≡ with_entries it (spec.gives_from owners.now.summaries.now table.now import.now)) }
{
    match &import.selection {
        Selection::Whole => with_whole(it, import, table.as_slice()),
        Selection::Only(listed) => {
            with_listed(alloc, it, owners, import, false, listed.as_slice(), table)
        }
        Selection::Hiding(listed) => {
            with_listed(alloc, it, owners, import, true, listed.as_slice(), table)
        }
    }
}

// The exports of the module of an import, if they are there.
fn exports_for<'a>(
    summaries: &[Summary],
    exports: &'a [Table],
    import: &Import,
) -> Option<&'a Table>
    ensures { spec.or_none (option_copied result) ≡ spec.exports_for summaries.now exports.now import.now }
{
    exports.get(file_of(summaries, import.name)?)
}

fn with_import(
    alloc: Global,
    it: Once,
    owners: &Owners,
    exports: &[Table],
    import: &Import,
) -> Result<Once, NoMemory>
    ensures { IfOk result (λ r. r ≡ with_entries it (spec.import_gives owners.now.summaries.now exports.now import.now)) }
{
    match exports_for(owners.summaries, exports, import) {
        Some(table) => with_import_from(alloc, it, owners, import, table),
        None => Ok(it),
    }
}

#[tactic(auto, using(crate::proofs::Entered::entered_more))]
fn with_imports(
    alloc: Global,
    it: Once,
    owners: &Owners,
    exports: &[Table],
    imports: &[Import],
) -> Result<Once, NoMemory>
    ensures { IfOk result (λ r. r ≡ with_entries it (flat_map (spec.import_gives owners.now.summaries.now exports.now) imports.now)) }
{
    let mut it = it;
    for import in imports {
        it = with_import(alloc, it, owners, exports, import)?;
    }
    Ok(it)
}

/// The scope of a module.
#[tactic(auto, unfolding(crate::specs::Imports::scope_of))]
pub fn scope_of(
    alloc: Global,
    owners: &Owners,
    exports: &[Table],
    summary: &Summary,
) -> Result<Once, NoMemory>
    ensures { IfOk result (λ r. r ≡ spec.scope_of owners.now.summaries.now exports.now summary.now) }
{
    let it = with_own(
        Once::new(alloc),
        summary.name,
        summary.definitions.as_slice(),
    )?;
    with_imports(alloc, it, owners, exports, summary.imports.as_slice())
}

fn selection_fault(owners: &Owners, table: &Table, selection: &Selection) -> Option<Refusal>
    ensures { result ≡ spec.selection_fault owners.now.summaries.now table.now selection.now }
{
    match selection {
        Selection::Whole => None,
        Selection::Only(listed) => first_missing(false, owners, table, listed.as_slice()),
        Selection::Hiding(listed) => first_missing(true, owners, table, listed.as_slice()),
    }
}

fn import_fault(
    none: &Table,
    owners: &Owners,
    exports: &[Table],
    import: &Import,
) -> Option<Refusal>
    requires { none.now ≡ [] }
    ensures { result ≡ spec.import_fault owners.now.summaries.now exports.now import.now }
{
    match exports_for(owners.summaries, exports, import) {
        Some(table) => selection_fault(owners, table, &import.selection),
        None => selection_fault(owners, none, &import.selection),
    }
}

/// The first name in the imports of a module that is not exported there.
#[tactic(auto, unfolding(crate::specs::Imports::imports_fault))]
pub fn imports_fault(
    alloc: Global,
    owners: &Owners,
    exports: &[Table],
    summary: &Summary,
) -> Option<Refusal>
    ensures { result ≡ spec.imports_fault owners.now.summaries.now exports.now summary.now }
{
    let none = Table::new(alloc);
    let imports = summary.imports.as_slice();
    for import in imports {
        if let Some(refusal) = import_fault(&none, owners, exports, import) {
            return Some(refusal);
        }
    }
    None
}
