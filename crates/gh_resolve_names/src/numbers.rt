// A number for each of some definitions.
ghost use Rattle.std.specs.Prelude.{◌≡◌, ◌∷◌, [], IsSome, OnOk, option_map, reverse};
ghost use Rattle.std.specs.HashMap.{get};
ghost use Rattle.gh_resolve_names.specs.Numbered.{OriginKey as TheKey, is_among, number_at, number_of, origin_key, same_key, space_number};

use gh_base::{NoMemory, Origin, Space};
use std::alloc::Global;
use std::collections::HashMap;
use std::marker::Model;

// What tells definitions apart: the module, the space, and the name.
type OriginKey = (u32, (u32, u32));

fn space(space: Space) -> u32
    ensures { result ≡ space_number space }
{
    match space {
        Space::Values => 0,
        Space::Types => 1,
    }
}

fn key(origin: Origin) -> OriginKey
    ensures { result ≡ origin_key origin }
{
    (origin.module.0, (space(origin.space), origin.name.0))
}

/// Numbers of definitions, by their origins. Contracts see them as pairs, the last one that was put first.
#[derive(Drop)]
pub struct Numbers {
    put: Vec<(OriginKey, u64)>,
    table: HashMap<OriginKey, u64>,
    ghost agrees: { (k : TheKey) → get same_key table k ≡ number_at (reverse put.items) k },
}

impl Model for Numbers {
    ghost use Rattle.std.specs.Prelude.{reverse};
    ghost use Rattle.gh_resolve_names.specs.Numbered.{Numbered};

    ghost Value = { Numbered };

    ghost view = { λ t. reverse t.put.items };
}

impl Numbers {
    /// No number.
    pub fn new(alloc: Global) -> Numbers
        ensures { result ≡ [] }
    {
        Numbers {
            put: Vec::new(alloc),
            table: HashMap::new(alloc),
        }
    }

    /// The number of a definition, where it has one.
    pub fn of(&self, origin: Origin) -> Option<u64>
        ensures { result ≡ number_of self.now origin }
    {
        self.table.get(&key(origin)).copied()
    }

    /// Whether a definition has a number.
    pub fn has(&self, origin: Origin) -> bool
        ensures { result ≡ is_among self.now origin }
    {
        self.of(origin).is_some()
    }

    fn put_key(&mut self, key: OriginKey, number: u64) -> Result<(), NoMemory>
        ensures { OnOk result (self.new ≡ (key, number) ∷ self.old) }
    {
        self.put.push((key, number))?;
        match self.table.insert(key, number) {
            Ok(_) => Ok(()),
            Err(_) => {
                self.put.pop();
                Err(NoMemory)
            }
        }
    }

    /// Gives a definition a number. Where there is no memory, the table stays as it was.
    pub fn put(&mut self, origin: Origin, number: u64) -> Result<(), NoMemory>
        ensures { OnOk result (self.new ≡ (origin_key origin, number) ∷ self.old) }
    {
        self.put_key(key(origin), number)
    }
}
