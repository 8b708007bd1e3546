// The binders round a part of a term or type.
ghost use Rattle.std.specs.Prelude.{◌≡◌, ◌++◌, ◌∷◌, ◌<◌, ◌-◌, ◌^◌, ℕ, [], length, map, take, nat_eq, IsSome, OnOk};
ghost use Rattle.std.specs.HashMap.{get};
ghost use Rattle.std.specs.Map.{update};
ghost use Rattle.gh_core.specs.Levels.{bound_at, level_of, within, within_list};
ghost use Rattle.gh_core_text.specs.Entries.{before_of, befores, scope_of};

use gh_base::NoMemory;
use std::alloc::Global;
use std::collections::HashMap;
use std::marker::Model;

/// Binders, each a number with its level. The last is the nearest. The level of a number is looked up in a table, to
/// which each binder that ends gives back what its number had before.
#[derive(Drop)]
pub struct Binders {
    entries: Vec<(u32, usize, Option<usize>)>,
    nearest: HashMap<u32, usize>,
    ghost agrees: { (x : ℕ) → get nat_eq nearest x ≡ bound_at (scope_of entries.items) x },
    ghost undo: { map before_of entries.items ≡ befores [] entries.items },
}

impl Model for Binders {
    ghost use Rattle.std.specs.Prelude.{List, ℕ};
    ghost use Rattle.gh_core_text.specs.Entries.{scope_of};

    ghost Value = { List (ℕ × ℕ) };

    ghost view = { λ b. scope_of b.entries.items };
}

impl Binders {
    /// No binder.
    pub fn new(alloc: Global) -> Binders
        ensures { result ≡ [] }
    {
        Binders {
            entries: Vec::new(alloc),
            nearest: HashMap::new(alloc),
        }
    }

    /// A binder of this number with this level becomes the nearest one. Where there is no memory for it, the binders
    /// stay as they were.
    pub fn bind_at(&mut self, number: u32, level: usize) -> Result<(), NoMemory>
        ensures { OnOk result (self.new ≡ self.old ++ (number, level) ∷ []) }
    {
        let before = self.nearest.get(&number).copied();
        self.entries.push((number, level, before))?;
        match self.nearest.insert(number, level) {
            Ok(_) => Ok(()),
            Err(_) => {
                self.entries.pop();
                Err(NoMemory)
            }
        }
    }

    /// A binder of this number becomes the nearest one; its level is the count of the binders before it.
    pub fn bind(&mut self, number: u32) -> Result<(), NoMemory>
        ensures { OnOk result (self.new ≡ within self.old number) }
    {
        let count = self.count();
        self.bind_at(number, count)
    }

    /// Binds the numbers of one list.
    pub fn bind_list(&mut self, numbers: &[u32]) -> Result<(), NoMemory>
        ensures { OnOk result (self.new ≡ within_list self.old numbers.now) }
    {
        let count = self.count();
        for taken in 0..numbers.len() {
            let at = numbers.len() - 1 - taken;
            self.bind_at(numbers[at], count + at)?;
        }
        Ok(())
    }

    // Takes the last binder away.
    fn unbind(&mut self)
        requires { 0 < length self.old }
        ensures { self.new ≡ take (length self.old - 1) self.old }
    {
        if let Some((number, _, before)) = self.entries.pop() {
            put_back(&mut self.nearest, number, before);
        }
    }

    /// Leaves the first binders only.
    pub fn keep(&mut self, count: usize)
        ensures { self.new ≡ take count self.old }
    {
        let extra = self.count().saturating_sub(count);
        for done in 0..extra {
            self.unbind();
        }
    }

    /// How many binders there are, which is the level of the next one.
    pub fn count(&self) -> usize
        ensures value { result ≡ length self.now }
        ensures most { result < 2 ^ 63 }
    {
        self.entries.len()
    }

    /// The level of a variable: the number of binders before its own.
    pub fn level(&self, number: u32) -> u64
        ensures { result ≡ level_of self.now number }
    {
        match self.nearest.get(&number) {
            Some(level) => *level as u64,
            None => self.count() as u64 + number as u64,
        }
    }
}

// Gives a number the level that it had before, or none.
fn put_back(table: &mut HashMap<u32, usize>, number: u32, before: Option<usize>)
    requires { IsSome (get nat_eq table.old number) }
    ensures { (x : ℕ) → get nat_eq table.new x ≡ update nat_eq (get nat_eq table.old) number before x }
{
    match before {
        Some(level) => {
            if let Some(place) = table.get_mut(&number) {
                *place = level;
            }
        }
        None => {
            table.remove(&number);
        }
    }
}
