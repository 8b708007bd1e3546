// Books of names: those that were asked for, and those under which reading has failed.
ghost use Rattle.std.specs.Prelude.{◌≡◌, ◌≢◌, ◌+◌, ℕ, List, [], ◌∷◌, ◌++◌, OnOk, OnErr};
ghost use Rattle.gh_outside.specs.Shelves.{times};

use gh_base::{Bytes, ListOf, NoMemory};
use std::alloc::Global;

/// Notes one more failure under a name. Without memory nothing changes.
#[tactic(auto, using(crate::proofs::Times::times_pushed, crate::proofs::Times::times_pushed_other))]
pub fn note(alloc: Global, book: &mut ListOf<Bytes>, name: &[u8]) -> Result<(), NoMemory>
    ensures more { OnOk result (times name.now book.new ≡ times name.now book.old + 1) }
    ensures others { (n : List ℕ) → n ≢ name.now → times n book.new ≡ times n book.old }
    ensures err { OnErr result (book.new ≡ book.old) }
{
    let name = ListOf::from_slice(alloc, name)?;
    book.push(name)
}

/// Writes a name behind those that were asked for. Without memory nothing changes.
pub fn ask(alloc: Global, asked: &mut ListOf<Bytes>, name: &[u8]) -> Result<(), NoMemory>
    ensures ok { OnOk result (asked.new ≡ asked.old ++ name.now ∷ []) }
    ensures err { OnErr result (asked.new ≡ asked.old) }
{
    let name = ListOf::from_slice(alloc, name)?;
    asked.push(name)
}

/// How often a name stands in a book.
pub fn count(book: &[Bytes], name: &[u8]) -> usize
    ensures { result ≡ times name.now book.now }
{
    let mut count: usize = 0;
    for noted in book {
        if noted.as_slice() == name {
            count += 1;
        }
    }
    count
}
