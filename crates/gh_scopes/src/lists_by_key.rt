// Tables of lists by keys. A key that is not there has the empty list.
ghost use Rattle.std.specs.Prelude.{◌≡◌, ◌++◌, ◌∷◌, [], cond, unwrap_or, None, OnOk};
ghost use Rattle.std.specs.HashMap.{get};
ghost use Rattle.gh_scopes.specs.Keys.{Key, same_key};

use crate::keys::Key;
use gh_base::{ListOf, NoMemory};
use std::alloc::Global;
use std::collections::HashMap;

fn taken_out<T: Drop>(alloc: Global, table: &mut HashMap<Key, ListOf<T>>, key: Key) -> ListOf<T>
    ensures list { result ≡ unwrap_or (get same_key table.old key) [] }
    ensures others { (k : Key) → get same_key table.new k ≡ cond (same_key key k) None (get same_key table.old k) }
{
    match table.remove(&key) {
        Some(list) => list,
        None => ListOf::new(alloc),
    }
}

/// One more item in the list of a key.
pub fn put_at<T: Drop>(
    alloc: Global,
    table: &mut HashMap<Key, ListOf<T>>,
    key: Key,
    item: T,
) -> Result<(), NoMemory>
    ensures { OnOk result ((k : Key) → unwrap_or (get same_key table.new k) [] ≡ unwrap_or (get same_key table.old k) [] ++ cond (same_key key k) (item ∷ []) []) }
{
    let mut list = taken_out(alloc, table, key);
    list.push(item)?;
    table.insert(key, list)?;
    Ok(())
}
