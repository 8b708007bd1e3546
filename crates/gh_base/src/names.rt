// The table of names: one number for each text.
ghost use Rattle.std.specs.Prelude.{◌≡◌, ℕ, ◌<◌, ◌≤◌, ◌^◌, Some, slice_get, length, map, [], IfOk, OnOk, OnErr};
ghost use Rattle.gh_base.specs.Fixed.{fixed_texts};
ghost use Rattle.gh_base.specs.Ids.{text_in};
ghost use Rattle.gh_base.specs.Stored.{texts};
ghost use Rattle.gh_base.specs.Table.{with_text, with_all, place_of, IsGrown};

use crate::fixed::FIXED;
use crate::no_memory::NoMemory;
use indexmap::IndexSet;
use std::alloc::Global;
use std::marker::Model;

/// The number of a text in its table of names, from 0. The texts of `FIXED` have their places there as numbers.
#[derive(Clone, Copy, Debug, PartialEq, Eq)]
pub struct NameId(pub u32);

/// A table of names. Contracts see it as the list of its texts; the place of a text is its number.
#[derive(Drop)]
pub struct Names {
    alloc: Global,
    texts: IndexSet<Vec<u8>>,
}

impl Model for Names {
    ghost use Rattle.std.specs.Prelude.{List, ℕ, map};

    ghost Value = { List (List ℕ) };

    ghost use Rattle.gh_base.specs.Stored.{IsTable};

    ghost view = { λ n. map (λ v. v.items) n.texts.keys };

    ghost invariant = { λ n. IsTable n.texts };
}

// The most names that a table may hold: as many as there are numbers.
const LIMIT: usize = 1 << 32;

// Adds a text to the set of a table where it is new, and says where it stands.
fn add_text(alloc: Global, set: &mut IndexSet<Vec<u8>>, text: &[u8]) -> Result<NameId, NoMemory>
    requires { length set.old.keys ≤ 2 ^ 32 }
    ensures table { OnOk result (texts set.new.keys ≡ with_text (texts set.old.keys) text.now) }
    ensures place { IfOk result (λ id. place_of (texts set.new.keys) text.now ≡ Some id.0) }
    ensures found { IfOk result (λ id. slice_get (texts set.new.keys) id.0 ≡ Some text.now) }
    ensures few { length set.new.keys ≤ 2 ^ 32 }
    ensures err { OnErr result (set.new.keys ≡ set.old.keys) }
{
    if let Some(at) = set.get_index_of(text) {
        return Ok(NameId(at as u32));
    }
    let at = set.len();
    if at >= LIMIT {
        return Err(NoMemory);
    }
    let owned = text.to_vec(alloc)?;
    set.insert(owned)?;
    Ok(NameId(at as u32))
}

// Adds these texts one after another.
fn add_all(alloc: Global, set: &mut IndexSet<Vec<u8>>, all: &[&[u8]]) -> Result<(), NoMemory>
    requires { length set.old.keys ≤ 2 ^ 32 }
    ensures table { OnOk result (texts set.new.keys ≡ with_all (texts set.old.keys) (map (λ t. t.now) all.now)) }
    ensures few { length set.new.keys ≤ 2 ^ 32 }
{
    for text in all {
        add_text(alloc, set, text)?;
    }
    Ok(())
}

// The set of a table that has the fixed texts alone.
fn fixed_set(alloc: Global) -> Result<IndexSet<Vec<u8>>, NoMemory>
    ensures table { IfOk result (λ set. texts set.keys ≡ fixed_texts) }
    ensures few { IfOk result (λ set. length set.keys ≤ 2 ^ 32) }
{
    let mut set = IndexSet::new(alloc);
    add_all(alloc, &mut set, &FIXED)?;
    Ok(set)
}

impl Names {
    /// A table of the fixed texts, in their order.
    pub fn new(alloc: Global) -> Result<Names, NoMemory>
        ensures { IfOk result (λ names. names ≡ fixed_texts) }
    {
        let texts = fixed_set(alloc)?;
        Ok(Names { alloc, texts })
    }

    /// Each table begins with the fixed texts, whatever was added since. It does nothing.
    pub fn begins_with_fixed(&self)
        ensures { IsGrown fixed_texts self.now }
    {
        let _ = &self.texts;
    }

    /// The number of a text: its place in the table, at whose end it is added where it is new. A table of 2^32 names
    /// takes no new text, and answers `NoMemory`. After `NoMemory` the table is as it was.
    #[tactic(auto, using(crate::proofs::Wanted::text_from_place, std::proofs::lemmas::Option::slice_get_within, crate::specs::Table::grown_with, crate::specs::Table::grown_same))]
    pub fn intern(&mut self, text: &[u8]) -> Result<NameId, NoMemory>
        // A known text leaves the table as it is, and a new one goes last.
        ensures table { OnOk result (self.new ≡ with_text self.old text.now) }
        // The number is the first place of the text, so one text has one number.
        ensures place { IfOk result (λ id. place_of self.new text.now ≡ Some id.0) }
        ensures text { IfOk result (λ id. text_in self.new id ≡ text.now) }
        ensures known { IfOk result (λ id. id.0 < length self.new) }
        ensures grows { IsGrown self.old self.new }
        ensures most { OnOk result (length self.new ≤ 2 ^ 32) }
        ensures err { OnErr result (self.new ≡ self.old) }
    {
        self.add(text)
    }

    fn add(&mut self, text: &[u8]) -> Result<NameId, NoMemory>
        ensures table { OnOk result (self.new ≡ with_text self.old text.now) }
        ensures place { IfOk result (λ id. place_of self.new text.now ≡ Some id.0) }
        ensures found { IfOk result (λ id. slice_get self.new id.0 ≡ Some text.now) }
        ensures most { length self.new ≤ 2 ^ 32 }
        ensures err { OnErr result (self.new ≡ self.old) }
    {
        add_text(self.alloc, &mut self.texts, text)
    }

    /// The text of a number of this table. It takes no memory.
    pub fn text(&self, id: NameId) -> &[u8]
        requires { id.0 < length self.now }
        ensures { slice_get self.now id.0 ≡ Some result.now }
    {
        match self.texts.get_index(id.0 as usize) {
            Some(text) => text.as_slice(),
            None => unreachable!(),
        }
    }
}
