// One reduction after another.
ghost use Rattle.std.specs.Prelude.{◌≡◌, ◌+◌, ◌≤◌, ℕ, length};
ghost use Rattle.gh_core.specs.Bindings.{names_bound_in};
ghost use Rattle.gh_core.specs.Reduce as r;
ghost use Rattle.gh_machine.specs.Grown.{Grows};
ghost use Rattle.gh_machine.specs.Sound.{state_of, program_in, IsHeld, HasRoom};

use crate::parts::Parts;
use crate::turn::Turn;

impl<'a> Parts<'a> {
    /// So many reductions, or fewer where the run ends or fails. It takes no memory.
    pub fn steps(&mut self, k: u32) -> Turn
        requires held { IsHeld self.old }
        requires room { HasRoom k self.old }
        ensures held { IsHeld self.new }
        ensures state { state_of self.new ≡ r.reductions (program_in self.old) k (state_of self.old) }
        ensures turn { result ≡ self.new.turn }
        ensures program { self.new.program ≡ self.old.program }
        ensures room { (n : ℕ) → HasRoom (k + n) self.old → HasRoom n self.new }
        ensures grows { Grows k self.old self.new }
        ensures names { length self.new.cells.items ≤ length self.old.cells.items + names_bound_in (program_in self.old) k (state_of self.old) }
    {
        for _ in 0..k {
            match self.turn {
                Turn::Running => self.step(),
                Turn::Ended => return self.turn,
                Turn::Failed(_) => return self.turn,
            }
        }
        self.turn
    }
}
