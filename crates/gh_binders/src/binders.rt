// Binders, and the table of the nearest binder of each number.
ghost use Rattle.std.specs.Prelude.{◌≡◌, ◌∷◌, ◌++◌, ◌<◌, ◌-◌, ◌^◌, ℕ, [], length, drop, map, nat_eq, reverse, IsSome, OnOk};
ghost use Rattle.std.specs.HashMap.{get};
ghost use Rattle.std.specs.Map.{update};
ghost use Rattle.std.specs.Option.{option_copied};
ghost use Rattle.gh_binders.specs.Nearest.{before_of, befores, binds_of, item_at, item_of, place_in};

use gh_base::NoMemory;
use std::alloc::Global;
use std::collections::HashMap;
use std::marker::Model;

/// Binders, the nearest first: each a number with what is known of it. The last entry is the nearest binder. The place of
/// the nearest binder of a number is looked up in a table, to which each binder that ends gives back what its number had
/// before.
#[derive(Drop)]
pub struct Binders<T> {
    entries: Vec<(u32, T, Option<usize>)>,
    nearest: HashMap<u32, usize>,
    ghost agrees: { (x : ℕ) → get nat_eq nearest x ≡ place_in (binds_of entries.items) x },
    ghost undo: { map before_of (reverse entries.items) ≡ befores (reverse entries.items) },
}

impl<T> Model for Binders<T> {
    ghost use Rattle.std.specs.Prelude.{List, ℕ};
    ghost use Rattle.gh_binders.specs.Nearest.{binds_of};

    ghost Value = { List (ℕ × T) };

    ghost view = { λ b. binds_of b.entries.items };
}

impl<T> Binders<T> {
    /// No binder.
    pub fn new(alloc: Global) -> Binders<T>
        ensures { result ≡ [] }
    {
        Binders {
            entries: Vec::new(alloc),
            nearest: HashMap::new(alloc),
        }
    }

    /// How many binders there are.
    pub fn count(&self) -> usize
        ensures value { result ≡ length self.now }
        ensures most { result < 2 ^ 63 }
    {
        self.entries.len()
    }

    /// How many binders are further out than the nearest one of this number.
    pub fn place(&self, number: u32) -> Option<usize>
        ensures { result ≡ place_in self.now number }
    {
        self.nearest.get(&number).copied()
    }

    /// What is known of the binder that so many are further out than.
    pub fn at(&self, place: usize) -> Option<&T>
        ensures { option_copied result ≡ item_at self.now place }
    {
        if place < self.entries.len() {
            Some(&self.entries[place].1)
        } else {
            None
        }
    }

    /// What is known of the nearest binder of this number.
    pub fn of(&self, number: u32) -> Option<&T>
        ensures { option_copied result ≡ item_of self.now number }
    {
        match self.place(number) {
            Some(place) => self.at(place),
            None => None,
        }
    }
}

impl<T: Drop> Binders<T> {
    /// A further binder of this number becomes the nearest one. Where there is no memory for it, the binders stay as
    /// they were.
    pub fn bind(&mut self, number: u32, item: T) -> Result<(), NoMemory>
        ensures { OnOk result (self.new ≡ (number, item) ∷ self.old) }
    {
        let count = self.count();
        let before = self.place(number);
        self.entries.push((number, item, before))?;
        match self.nearest.insert(number, count) {
            Ok(_) => Ok(()),
            Err(_) => {
                self.entries.pop();
                Err(NoMemory)
            }
        }
    }

    // Takes the nearest binder away.
    fn unbind(&mut self)
        requires { 0 < length self.old }
        ensures { self.new ≡ drop 1 self.old }
    {
        if let Some((number, _, before)) = self.entries.pop() {
            put_back(&mut self.nearest, number, before);
        }
    }

    /// Leaves the binders that stand outside of all others only.
    pub fn keep(&mut self, count: usize)
        ensures { self.new ≡ drop (length self.old - count) self.old }
    {
        let extra = self.count().saturating_sub(count);
        for done in 0..extra {
            self.unbind();
        }
    }
}

// Gives a number the place that it had before, or none.
fn put_back(table: &mut HashMap<u32, usize>, number: u32, before: Option<usize>)
    requires { IsSome (get nat_eq table.old number) }
    ensures { (x : ℕ) → get nat_eq table.new x ≡ update nat_eq (get nat_eq table.old) number before x }
{
    match before {
        Some(level) => {
            if let Some(place) = table.get_mut(&number) {
                *place = level;
            }
        }
        None => {
            table.remove(&number);
        }
    }
}

/// Binders of a list, of which the first becomes the nearest. Where there is no memory, some of them may have been added.
pub fn enter(binders: &mut Binders<u32>, added: &[(u32, u32)]) -> Result<(), NoMemory>
    ensures { OnOk result (binders.new ≡ added.now ++ binders.old) }
{
    let count = added.len();
    for done in 0..count {
        let (number, item) = added[count - 1 - done];
        binders.bind(number, item)?;
    }
    Ok(())
}
