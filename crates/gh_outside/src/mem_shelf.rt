// A shelf in memory.
ghost use Rattle.std.specs.Prelude.{◌≡◌, ◌≢◌, ◌≤◌, ℕ, List, [], Some, None, ◌++◌, ◌∷◌, Contains, IfOk, OnOk, IsErr, IsSome, option_map, take, length, IsErrOf};
ghost use Rattle.gh_outside.specs.Outside.{Rose, Reads, Counted, Asks};
ghost use Rattle.gh_outside.specs.Shelves.{file_of};

use crate::book::{ask, count, note};
use crate::failing::is_listed;
use crate::outside::{Shelf, ShelfFault};
use gh_base::{Bytes, ListOf, NoMemory};
use std::alloc::Global;

/// Files in memory, by name. The reading calls whose numbers, from 0, are among `failing` fail.
#[derive(Drop)]
pub struct MemShelf {
    alloc: Global,
    files: ListOf<(Bytes, Bytes)>,
    failing: ListOf<u32>,
    calls: u64,
    asked: ListOf<Bytes>,
    book: ListOf<Bytes>,
}

impl MemShelf {
    ghost use Rattle.gh_outside.specs.MemShelf.{held_by, faults_of, failing_of, calls_of, asked_of};

    /// A shelf of these files, each a name and its bytes. Of two files of one name the first is held. It takes no memory.
    pub fn new(alloc: Global, files: ListOf<(Bytes, Bytes)>, failing: ListOf<u32>) -> MemShelf
        ensures held { (n : List ℕ) → held_by result n ≡ file_of files n }
        ensures failing { failing_of result ≡ failing }
        ensures faultless { (n : List ℕ) → faults_of result n ≡ 0 }
        ensures calls { calls_of result ≡ 0 }
        ensures asked { asked_of result ≡ [] }
    {
        MemShelf {
            alloc,
            files,
            failing,
            calls: 0,
            asked: ListOf::new(alloc),
            book: ListOf::new(alloc),
        }
    }

    /// How often reading under a name has failed.
    pub fn faults(&self, name: &[u8]) -> usize
        ensures { result ≡ faults_of self.now name.now }
    {
        count(self.book.as_slice(), name)
    }
}

/// The first file of that name.
fn find<'a>(files: &'a [(Bytes, Bytes)], name: &[u8]) -> Option<&'a Bytes>
    ensures { option_map (λ b. b.now) result ≡ file_of files.now name.now }
{
    for (at, bytes) in files {
        if at.as_slice() == name {
            return Some(bytes);
        }
    }
    None
}

/// The first bytes of a list.
fn front(alloc: Global, bytes: &[u8], most: u64) -> Result<Bytes, NoMemory>
    ensures { IfOk result (λ b. b ≡ take most bytes.now) }
{
    if (bytes.len() as u64) <= most {
        ListOf::from_slice(alloc, bytes)
    } else {
        ListOf::from_slice(alloc, &bytes[..most as usize])
    }
}

impl Shelf for MemShelf {
    ghost use Rattle.std.specs.Prelude.{true};
    ghost use Rattle.gh_outside.specs.MemShelf.{held_by, faults_of, failing_of, calls_of, asked_of};

    ghost tells = { λ s. true };

    ghost held = { λ s n. held_by s n };

    ghost faults = { λ s n. faults_of s n };

    ghost asked = { λ s. asked_of s };

    fn read_file(&mut self, name: &Bytes, most: u64) -> Result<Bytes, ShelfFault>
        ensures most { IfOk result (λ b. length b ≤ most) }
        ensures bytes { IfOk result (λ b. Reads (held_by self.old name.now) most b) }
        ensures held { (n : List ℕ) → held_by self.new n ≡ held_by self.old n }
        ensures failed { IsErrOf result ShelfFault.Failed → Rose (faults_of self.old name.now) (faults_of self.new name.now) }
        ensures later { faults_of self.old name.now ≤ faults_of self.new name.now }
        ensures others { (n : List ℕ) → n ≢ name.now → faults_of self.new n ≡ faults_of self.old n }
        ensures failing { failing_of self.new ≡ failing_of self.old }
        ensures asked { Asks (asked_of self.old) name.now (IsErrOf result ShelfFault.NoMemory) (asked_of self.new) }
        ensures calls { Counted (calls_of self.old) (calls_of self.new) }
        // A listed call gives nothing.
        ensures listed { Contains (failing_of self.old) (calls_of self.old) → IsErr result }
        // Every other call of a name that is held gives its bytes, where there is memory.
        ensures unlisted { ¬ Contains (failing_of self.old) (calls_of self.old) → IsSome (held_by self.old name.now) → ¬ IsErrOf result ShelfFault.Failed }
        ensures steady { ¬ Contains (failing_of self.old) (calls_of self.old) → IsSome (held_by self.old name.now) → (n : List ℕ) → faults_of self.new n ≡ faults_of self.old n }
        ensures given { OnOk result ((n : List ℕ) → faults_of self.new n ≡ faults_of self.old n) }
    {
        let call = self.calls;
        self.calls = call.saturating_add(1);
        ask(self.alloc, &mut self.asked, name.as_slice())?;
        if !is_listed(self.failing.as_slice(), call) {
            if let Some(bytes) = find(self.files.as_slice(), name.as_slice()) {
                return Ok(front(self.alloc, bytes.as_slice(), most)?);
            }
        }
        note(self.alloc, &mut self.book, name.as_slice())?;
        Err(ShelfFault::Failed)
    }
}
