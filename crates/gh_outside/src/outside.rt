// Shelves of files, and outputs.
ghost use Rattle.std.specs.Prelude.{◌≡◌, ◌≢◌, ◌≤◌, ℕ, List, Option, Bool, IsTrue, length, IfOk, OnOk, OnErr, IsErr, IsErrOf};
ghost use Rattle.gh_outside.specs.Outside.{Rose, Reads, Appends, AppendsFront, Asks};

use gh_base::{Bytes, NoMemory};
use thiserror::Error;

/// Why a file is not read.
#[derive(Clone, Copy, Debug, PartialEq, Eq, Error)]
pub enum ShelfFault {
    /// The file is not there, or reading it failed.
    #[error("cannot read")]
    Failed,
    /// A request for memory was not met.
    #[error("out of memory")]
    NoMemory,
}

impl From<NoMemory> for ShelfFault {
    ghost use Rattle.std.specs.Prelude.{◌≡◌};
    ghost use Rattle.gh_outside.specs.declared.outside.ShelfFault.TheVariants as fault;

    ghost from_gives = { λ _ e. e ≡ fault.NoMemory };

    fn from(_: NoMemory) -> ShelfFault {
        ShelfFault::NoMemory
    }
}

/// Why bytes are not taken.
#[derive(Clone, Copy, Debug, PartialEq, Eq, Error)]
pub enum OutFault {
    /// Writing failed, or took nothing.
    #[error("cannot write")]
    Failed,
}

/// Files that are read by name.
pub trait Shelf {
    /// Whether it tells what it holds.
    ghost tells: { Self → Bool };

    /// What it holds under a name.
    ghost held: { Self → List ℕ → Option (List ℕ) };

    /// How often reading under a name has failed.
    ghost faults: { Self → List ℕ → ℕ };

    /// The names that were asked for, in their order.
    ghost asked: { Self → List (List ℕ) };

    /// The first `most` bytes of the file of that name, or all of it where it has fewer. A name that is not held is a
    /// failure. A failure raises the count of that name, and of no other. The name goes behind those that were asked for.
    fn read_file(&mut self, name: &Bytes, most: u64) -> Result<Bytes, ShelfFault>
        ensures most { IfOk result (λ b. length b ≤ most) }
        ensures bytes { IfOk result (λ b. IsTrue (tells self.old) → Reads (held self.old name.now) most b) }
        ensures tells { tells self.new ≡ tells self.old }
        ensures held { (n : List ℕ) → held self.new n ≡ held self.old n }
        ensures failed { IsErrOf result ShelfFault.Failed → Rose (faults self.old name.now) (faults self.new name.now) }
        ensures later { faults self.old name.now ≤ faults self.new name.now }
        ensures others { (n : List ℕ) → n ≢ name.now → faults self.new n ≡ faults self.old n }
        // No name but this one is asked for.
        ensures asked { Asks (asked self.old) name.now (IsErrOf result ShelfFault.NoMemory) (asked self.new) };
}

/// What takes bytes, in order.
pub trait Out {
    /// What was written, where it tells.
    ghost written: { Self → Option (List ℕ) };

    /// How often writing has failed.
    ghost faults: { Self → ℕ };

    /// Writes a piece at the end. After a failure a prefix of the piece was written, and the count of failures rose.
    fn put(&mut self, piece: &[u8]) -> Result<(), OutFault>
        ensures ok { OnOk result (Appends (written self.old) piece.now (written self.new)) }
        ensures err { OnErr result (AppendsFront (written self.old) piece.now (written self.new)) }
        ensures failed { IsErrOf result OutFault.Failed → Rose (faults self.old) (faults self.new) }
        ensures later { faults self.old ≤ faults self.new };
}
