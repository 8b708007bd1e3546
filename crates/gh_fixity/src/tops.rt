// The fixities of names at the top of modules.
ghost use Rattle.std.specs.Prelude.{◌≡◌, ◌∷◌, [], OnOk, reverse};
ghost use Rattle.std.specs.HashMap.{get};
ghost use Rattle.gh_fixity.specs.Fixities.{OriginKey as TheKey, origin_key, same_key, space_number, top_fixity, with_top, with_tops};

use crate::item::Fixity;
use gh_base::{NoMemory, Origin, Space};
use gh_program::{Occurrence, Referent};
use std::alloc::Global;
use std::collections::HashMap;
use std::marker::Model;

// What tells names apart: the module, the space, and the name.
type OriginKey = (u32, (u32, u32));

fn space(space: Space) -> u32
    ensures { result ≡ space_number space }
{
    match space {
        Space::Values => 0,
        Space::Types => 1,
    }
}

fn key(origin: Origin) -> OriginKey
    ensures { result ≡ origin_key origin }
{
    (origin.module.0, (space(origin.space), origin.name.0))
}

/// Fixities by what a name is. Contracts see the declarations, the last one first.
#[derive(Drop)]
pub struct Tops {
    declared: Vec<(OriginKey, Fixity)>,
    table: HashMap<OriginKey, Fixity>,
    ghost agrees: { (k : TheKey) → get same_key table k ≡ top_fixity (reverse declared.items) k },
}

impl Model for Tops {
    ghost use Rattle.std.specs.Prelude.{reverse};
    ghost use Rattle.gh_fixity.specs.Fixities.{TopFixities};

    ghost Value = { TopFixities };

    ghost view = { λ t. reverse t.declared.items };
}

impl Tops {
    /// No fixity of a name of the top.
    pub fn new(alloc: Global) -> Tops
        ensures { result ≡ [] }
    {
        Tops {
            declared: Vec::new(alloc),
            table: HashMap::new(alloc),
        }
    }

    /// The fixity that was declared for a name.
    pub fn of(&self, origin: Origin) -> Option<Fixity>
        ensures { result ≡ top_fixity self.now (origin_key origin) }
    {
        self.table.get(&key(origin)).copied()
    }

    fn put(&mut self, key: OriginKey, fixity: Fixity) -> Result<(), NoMemory>
        ensures { OnOk result (self.new ≡ (key, fixity) ∷ self.old) }
    {
        self.declared.push((key, fixity))?;
        match self.table.insert(key, fixity) {
            Ok(_) => Ok(()),
            Err(_) => {
                self.declared.pop();
                Err(NoMemory)
            }
        }
    }

    fn declare(&mut self, fixity: Fixity, op: Occurrence) -> Result<(), NoMemory>
        ensures { OnOk result (self.new ≡ with_top fixity self.old op.referent) }
    {
        match op.referent {
            Referent::Top(origin) => self.put(key(origin), fixity),
            Referent::Local(_) => Ok(()),
        }
    }

    /// Adds the fixity of each of these operators that is defined at the top of a module.
    pub fn declare_all(&mut self, fixity: Fixity, ops: &[Occurrence]) -> Result<(), NoMemory>
        ensures { OnOk result (self.new ≡ with_tops fixity self.old ops.now) }
    {
        for op in ops {
            self.declare(fixity, *op)?;
        }
        Ok(())
    }
}
