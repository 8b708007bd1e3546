// What tells entries and names apart.
ghost use Rattle.std.specs.Prelude.{◌≡◌};
ghost use Rattle.gh_scopes.specs.Keys as spec;
ghost use Rattle.gh_scopes.specs.Found.{entry};

use crate::types::ScopeEntry;
use gh_base::{NameId, Origin, Space};

/// A qualifier's kind and number, a module, a space and a name.
pub type Key = (u32, (u32, (u32, (u32, u32))));

fn space_number(space: Space) -> u32
    ensures { result ≡ spec.space_number space }
{
    match space {
        Space::Values => 0,
        Space::Types => 1,
    }
}

fn qualifier_kind(qualifier: Option<NameId>) -> u32
    ensures { result ≡ spec.qualifier_kind qualifier }
{
    match qualifier {
        None => 0,
        Some(_) => 1,
    }
}

fn qualifier_number(qualifier: Option<NameId>) -> u32
    ensures { result ≡ spec.qualifier_number qualifier }
{
    match qualifier {
        None => 0,
        Some(name) => name.0,
    }
}

/// The key that tells entries apart.
#[tactic(auto, unfolding(crate::specs::Keys::entry_key))]
pub fn entry_key(entry: ScopeEntry) -> Key
    ensures { result ≡ spec.entry_key entry }
{
    let origin = entry.origin;
    (
        qualifier_kind(entry.qualifier),
        (
            qualifier_number(entry.qualifier),
            (origin.module.0, (space_number(origin.space), origin.name.0)),
        ),
    )
}

/// The key of a use of a name: qualifier, space and name.
#[tactic(auto, unfolding(crate::specs::Keys::use_key))]
pub fn use_key(qualifier: Option<NameId>, space: Space, name: NameId) -> Key
    ensures { result ≡ spec.use_key qualifier space name }
{
    (
        qualifier_kind(qualifier),
        (
            qualifier_number(qualifier),
            (0, (space_number(space), name.0)),
        ),
    )
}

/// The key of the uses that an entry stands for.
#[tactic(auto, unfolding(crate::specs::Keys::serves))]
pub fn serves(entry: ScopeEntry) -> Key
    ensures { result ≡ spec.serves entry }
{
    use_key(entry.qualifier, entry.origin.space, entry.origin.name)
}

/// The key of an origin: module, space and name.
#[tactic(auto, unfolding(crate::specs::Keys::origin_key))]
pub fn origin_key(origin: Origin) -> Key
    ensures { result ≡ spec.origin_key origin }
{
    (
        0,
        (
            0,
            (origin.module.0, (space_number(origin.space), origin.name.0)),
        ),
    )
}

/// The key of a type by its module and name.
#[tactic(auto, unfolding(crate::specs::Keys::type_key))]
pub fn type_key(home: NameId, name: NameId) -> Key
    ensures { result ≡ spec.type_key home name }
{
    (0, (0, (home.0, (1, name.0))))
}

/// The key of a qualifier.
#[tactic(auto, unfolding(crate::specs::Keys::qualifier_key))]
pub fn qualifier_key(name: NameId) -> Key
    ensures { result ≡ spec.qualifier_key name }
{
    (0, (name.0, (0, (0, 0))))
}

fn same_three(a: (u32, (u32, u32)), b: (u32, (u32, u32))) -> bool
    ensures { result ≡ spec.same_three a b }
{
    a.0 == b.0 && a.1.0 == b.1.0 && a.1.1 == b.1.1
}

/// Whether two keys are equal.
pub fn same_key(a: Key, b: Key) -> bool
    ensures { result ≡ spec.same_key a b }
{
    a.0 == b.0 && a.1.0 == b.1.0 && same_three(a.1.1, b.1.1)
}

/// Whether two origins are equal.
pub fn same_origin(a: Origin, b: Origin) -> bool
    ensures { result ≡ spec.same_origin a b }
{
    same_key(origin_key(a), origin_key(b))
}

/// This name with this qualifier stands for this origin.
pub fn entry(qualifier: Option<NameId>, origin: Origin) -> ScopeEntry
    ensures { result ≡ entry qualifier origin }
{
    ScopeEntry {
        qualifier,
        name: origin.name,
        origin,
    }
}
