// Sets of keys.
ghost use Rattle.std.specs.Prelude.{◌≡◌, cond, true, OnOk};
ghost use Rattle.std.specs.HashSet.{contains};
ghost use Rattle.gh_scopes.specs.Keys.{Key, same_key};

use crate::keys::Key;
use gh_base::NoMemory;
use std::collections::HashSet;

/// Whether a set has a key.
pub fn has_key(set: &HashSet<Key>, key: Key) -> bool
    ensures { result ≡ contains same_key set.now key }
{
    set.contains(&key)
}

/// Puts a key into a set.
pub fn put_key(set: &mut HashSet<Key>, key: Key) -> Result<(), NoMemory>
    ensures { OnOk result ((k : Key) → contains same_key set.new k ≡ cond (same_key key k) true (contains same_key set.old k)) }
{
    set.insert(key)?;
    Ok(())
}
