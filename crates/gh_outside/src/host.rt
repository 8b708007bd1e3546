// The files and streams of the host: the trusted edge. No contract says what they hold.
ghost use Rattle.std.specs.Prelude.{◌≤◌, length, IfOk};

use crate::book::{ask, note};
use crate::outside::{Out, OutFault, Shelf, ShelfFault};
use gh_base::{Bytes, ListOf};
use std::alloc::Global;
use std::io::{Read, Write};
use std::rt::Files;
use std::{fs, str};

/// The files of the host, by path. It tells no content, and keeps the names that were asked for and those of failures.
#[derive(Drop)]
pub struct HostShelf<R: Files + Drop> {
    rt: R,
    alloc: Global,
    asked: ListOf<Bytes>,
    book: ListOf<Bytes>,
}

impl<R: Files + Drop> HostShelf<R> {
    /// A shelf over the files that `rt` reaches.
    pub fn new(rt: R, alloc: Global) -> HostShelf<R> {
        HostShelf {
            rt,
            alloc,
            asked: ListOf::new(alloc),
            book: ListOf::new(alloc),
        }
    }
}

// As many bytes are asked for at once.
const PIECE: usize = 32768;

// The file from its front, up to `most` bytes. Each turn but the last moves a byte at least.
fn read_all<F: Read>(alloc: Global, file: &mut F, most: u64) -> Result<Bytes, ShelfFault>
    ensures { IfOk result (λ b. length b ≤ most) }
{
    let mut out = ListOf::new(alloc);
    let mut buffer = [0u8; PIECE];
    let mut left = most;
    while left > 0 {
        let want = left.min(PIECE as u64) as usize;
        let Ok(count) = file.read(&mut buffer[..want]) else {
            return Err(ShelfFault::Failed);
        };
        if count == 0 {
            return Ok(out);
        }
        out.extend_from_slice(&buffer[..count])?;
        left -= count as u64;
    }
    Ok(out)
}

fn read_named<R: Files>(rt: &R, alloc: Global, name: &[u8], most: u64) -> Result<Bytes, ShelfFault>
    ensures { IfOk result (λ b. length b ≤ most) }
{
    let Ok(path) = str::from_utf8(name) else {
        return Err(ShelfFault::Failed);
    };
    let Ok(mut file) = fs::open(rt, path) else {
        return Err(ShelfFault::Failed);
    };
    read_all(alloc, &mut file, most)
}

impl<R: Files + Drop> Shelf for HostShelf<R> {
    ghost use Rattle.std.specs.Prelude.{false, None};
    ghost use Rattle.gh_outside.specs.Shelves.{times};

    ghost tells = { λ s. false };

    ghost held = { λ s n. None };

    ghost faults = { λ s n. times n s.book };

    ghost asked = { λ s. s.asked };

    fn read_file(&mut self, name: &Bytes, most: u64) -> Result<Bytes, ShelfFault> {
        ask(self.alloc, &mut self.asked, name.as_slice())?;
        match read_named(&self.rt, self.alloc, name.as_slice(), most) {
            Ok(bytes) => Ok(bytes),
            Err(ShelfFault::NoMemory) => Err(ShelfFault::NoMemory),
            Err(ShelfFault::Failed) => {
                note(self.alloc, &mut self.book, name.as_slice())?;
                Err(ShelfFault::Failed)
            }
        }
    }
}

/// A stream of the host. It tells no content, and counts its failures, of which a write that takes nothing is one.
#[derive(Drop)]
pub struct HostOut<W: Write + Drop> {
    inner: W,
    faults: u64,
}

impl<W: Write + Drop> HostOut<W> {
    /// An output over a stream of the host.
    pub fn new(inner: W) -> HostOut<W> {
        HostOut { inner, faults: 0 }
    }
}

impl<W: Write + Drop> Out for HostOut<W> {
    ghost use Rattle.std.specs.Prelude.{None};

    ghost written = { λ o. None };

    ghost faults = { λ o. o.faults };

    fn put(&mut self, piece: &[u8]) -> Result<(), OutFault> {
        let mut rest = piece;
        while rest.len() > 0 {
            match self.inner.write(rest) {
                Ok(count) if count > 0 => rest = &rest[count..],
                _ => {
                    self.faults = self.faults.saturating_add(1);
                    return Err(OutFault::Failed);
                }
            }
        }
        Ok(())
    }
}
