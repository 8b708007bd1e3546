// The machine, as callers see it.
ghost use Rattle.std.specs.Prelude.{◌≡◌, ◌+◌, ◌*◌, ◌≤◌, [], length, IfOk, OnOk, OnErr};
ghost use Rattle.gh_core.specs.Reading.{term_of};
ghost use Rattle.gh_core.specs.Bindings.{names_bound_in};
ghost use Rattle.gh_core.specs.Reduce.{reductions};
ghost use Rattle.gh_core.specs.Run.{start, program_of};
ghost use Rattle.gh_machine.specs.Prefix.{with_out};
ghost use Rattle.gh_machine.specs.Values.{status_of};

use crate::parts::Parts;
use crate::turn::Turn;
use gh_base::NoMemory;
use gh_core::Erased;
use std::alloc::Global;
use std::marker::Model;

/// A run of a program. Contracts see the program, the state of the run (the term that is demanded, what waits for it, the bytes
/// that were printed and not yet cleared, and whether it goes on), how many cells hold the environments, and for how many
/// reductions there is room.
#[derive(Drop)]
pub struct Machine<'a> {
    parts: Parts<'a>,
    spare: u32,
}

impl<'a> Model for Machine<'a> {
    ghost use Rattle.gh_machine.specs.Codes.{Seen, coded_seen};

    ghost Value = { Seen };

    ghost coded = { coded_seen };

    ghost use Rattle.std.specs.Prelude.{length};
    ghost use Rattle.gh_machine.specs.Sound.{state_of, IsHeld, HasRoom};

    ghost view = { λ m. record { program = m.parts.program; state = state_of m.parts; cells = length m.parts.cells.items; spare = m.spare } };

    ghost invariant = { λ m. IsHeld m.parts × HasRoom m.spare m.parts };
}

impl<'a> Machine<'a> {
    /// A machine before any reduction of the program's main, with no room yet.
    pub fn new(alloc: Global, program: &'a Erased) -> Result<Machine<'a>, NoMemory>
        ensures program { IfOk result (λ m. m.program ≡ program.now) }
        ensures state { IfOk result (λ m. m.state ≡ start (term_of program.now.main)) }
        ensures cells { IfOk result (λ m. m.cells ≡ 0) }
        ensures spare { IfOk result (λ m. m.spare ≡ 0) }
    {
        Ok(Machine {
            parts: Parts::new(alloc, program)?,
            spare: 0,
        })
    }

    /// Room for so many reductions, at most 1,000. A refusal changes nothing.
    pub fn reserve(&mut self, k: u32) -> Result<(), NoMemory>
        requires { k ≤ 1000 }
        ensures program { self.new.program ≡ self.old.program }
        ensures state { self.new.state ≡ self.old.state }
        ensures cells { self.new.cells ≡ self.old.cells }
        ensures ok { OnOk result (k ≤ self.new.spare) }
        ensures kept { self.old.spare ≤ self.new.spare }
        ensures err { OnErr result (self.new ≡ self.old) }
    {
        if k > self.spare {
            self.parts.reserve(k)?;
            self.spare = k;
        }
        Ok(())
    }

    /// For how many reductions there is room.
    pub fn spare(&self) -> u32
        ensures { result ≡ self.now.spare }
    {
        self.spare
    }

    /// Makes so many reductions, or fewer where the run ends or fails, and answers how the run stands then: it goes on exactly where
    /// all were made and the state still runs. It takes no memory. One reduction adds at most one cell for each name that it binds,
    /// one entry to what waits, one printed character of at most four bytes, and two to the cells and entries together: where a
    /// case binds names, their entries are gone.
    pub fn steps(&mut self, k: u32) -> Turn
        requires { k ≤ self.old.spare }
        ensures program { self.new.program ≡ self.old.program }
        ensures state { self.new.state ≡ reductions (program_of self.old.program) k self.old.state }
        ensures turn { status_of result ≡ self.new.state.status }
        ensures names { self.new.cells ≤ self.old.cells + names_bound_in (program_of self.old.program) k self.old.state }
        ensures cells { self.new.cells + length self.new.state.stack ≤ self.old.cells + length self.old.state.stack + 2 * k }
        ensures stack { length self.new.state.stack ≤ length self.old.state.stack + k }
        ensures printed { length self.new.state.out ≤ length self.old.state.out + 4 * k }
        ensures spare { self.old.spare ≤ self.new.spare + k }
    {
        self.spare -= k;
        self.parts.steps(k)
    }

    /// The bytes that were printed and not yet cleared, in UTF-8.
    pub fn pending(&self) -> &[u8]
        ensures { result.now ≡ self.now.state.out }
    {
        self.parts.pending.as_slice()
    }

    /// Forgets what was printed. Nothing else changes, and the room for further bytes stays.
    pub fn clear(&mut self)
        ensures program { self.new.program ≡ self.old.program }
        ensures state { self.new.state ≡ with_out [] self.old.state }
        ensures cells { self.new.cells ≡ self.old.cells }
        ensures spare { self.new.spare ≡ self.old.spare }
    {
        self.parts.pending.clear();
    }
}
