// A run of `main` within a budget.
ghost use Rattle.std.specs.Prelude.{◌≡◌, ◌≤◌, [], OnOk, OnErr, IfOk, IsErrOf};
ghost use Rattle.gh_core.specs.Reduce.{reductions, running};
ghost use Rattle.gh_bindings.specs.Core.{core_program};
ghost use Rattle.gh_core.specs.Erase.{erased_program};
ghost use Rattle.gh_core.specs.Reading.{term_of};
ghost use Rattle.gh_core.specs.Run.{core_main, program_of, start};
ghost use Rattle.gh_machine.specs.Prefix.{with_out};
ghost use Rattle.gh_machine.specs.Values.{status_of};
ghost use Rattle.gh_run.specs.Core.{core_seen};
ghost use Rattle.gh_run.specs.declared.run.RunFault.TheVariants as fault;
ghost use Rattle.gh_outside.specs.Outside.{Rose, Appends, AppendsFront};

use gh_base::NoMemory;
use gh_bindings::core_of;
use gh_core::{Erased, erase_core};
use gh_machine::{Machine, Turn};
use gh_outside::{Out, OutFault};
use gh_tree_form::Bindings;
use std::alloc::Global;

/// Why a run is given up.
#[derive(Clone, Copy, Debug, PartialEq, Eq)]
pub enum RunFault {
    /// The output failed.
    Failed,
    /// There is not enough memory.
    NoMemory,
}

impl From<NoMemory> for RunFault {
    ghost use Rattle.std.specs.Prelude.{◌≡◌};
    ghost use Rattle.gh_run.specs.declared.run.RunFault.TheVariants as fault;

    ghost from_gives = { λ _ e. e ≡ fault.NoMemory };

    fn from(_: NoMemory) -> RunFault {
        RunFault::NoMemory
    }
}

// As many reductions are made at once.
const PIECE: u32 = 1000;

// Makes so many reductions, or fewer where the run ends or fails, and puts what they printed.
#[tactic(auto, using(crate::proofs::Appended::front_nothing))]
fn run_some<O: Out>(machine: &mut Machine<'_>, out: &mut O, count: u32) -> Result<Turn, RunFault>
    requires count { count ≤ 1000 }
    ensures program { machine.new.program ≡ machine.old.program }
    ensures after { OnOk result (machine.new.state ≡ with_out [] (reductions (program_of machine.old.program) count machine.old.state)) }
    ensures turn { IfOk result (λ t. status_of t ≡ machine.new.state.status) }
    ensures ok { OnOk result (Appends (O.written out.old) (reductions (program_of machine.old.program) count machine.old.state).out (O.written out.new)) }
    ensures err { OnErr result (AppendsFront (O.written out.old) (reductions (program_of machine.old.program) count machine.old.state).out (O.written out.new)) }
    ensures failed { IsErrOf result RunFault.Failed → Rose (O.faults out.old) (O.faults out.new) }
    ensures later { O.faults out.old ≤ O.faults out.new }
{
    machine.reserve(count)?;
    let turn = machine.steps(count);
    match out.put(machine.pending()) {
        Ok(()) => {
            machine.clear();
            Ok(turn)
        }
        Err(OutFault::Failed) => Err(RunFault::Failed),
    }
}

// Makes at most `steps` reductions of a machine that keeps nothing back, and puts what is printed before it goes on.
fn run_steps<O: Out>(machine: &mut Machine<'_>, out: &mut O, steps: u32) -> Result<Turn, RunFault>
    requires clear { machine.old.state.out ≡ [] }
    requires running { machine.old.state.status ≡ running }
    ensures stands { IfOk result (λ t. (reductions (program_of machine.old.program) steps machine.old.state).status ≡ status_of t) }
    ensures ok { OnOk result (Appends (O.written out.old) (reductions (program_of machine.old.program) steps machine.old.state).out (O.written out.new)) }
    ensures err { OnErr result (AppendsFront (O.written out.old) (reductions (program_of machine.old.program) steps machine.old.state).out (O.written out.new)) }
    ensures failed { IsErrOf result RunFault.Failed → Rose (O.faults out.old) (O.faults out.new) }
    ensures later { O.faults out.old ≤ O.faults out.new }
{
    let mut left = steps;
    while left > 0 {
        let count = left.min(PIECE);
        let turn = match run_some(machine, out, count) {
            Ok(turn) => turn,
            Err(fault) => return Err(fault),
        };
        left -= count;
        match turn {
            Turn::Running => {}
            Turn::Ended => return Ok(turn),
            Turn::Failed(_) => return Ok(turn),
        }
    }
    Ok(Turn::Running)
}

// The core of a program without its types, which is what runs.
fn erased_core(alloc: Global, bindings: &Bindings) -> Result<Erased, NoMemory>
    ensures { IfOk result (λ c. c ≡ erased_program (core_program bindings.now)) }
{
    let program = core_of(alloc, bindings.as_slice())?;
    erase_core(alloc, &program)
}

// Makes at most `steps` reductions of the main of a core.
#[tactic(auto, using(crate::proofs::Appended::front_nothing))]
fn run_core<O: Out>(alloc: Global, out: &mut O, core: &Erased, steps: u32) -> Result<Turn, RunFault>
    requires running { (start (term_of core.now.main)).status ≡ running }
    requires silent { (start (term_of core.now.main)).out ≡ [] }
    ensures stands { IfOk result (λ t. (core_main core.now steps).status ≡ status_of t) }
    ensures ok { OnOk result (Appends (O.written out.old) (core_main core.now steps).out (O.written out.new)) }
    ensures err { OnErr result (AppendsFront (O.written out.old) (core_main core.now steps).out (O.written out.new)) }
    ensures failed { IsErrOf result RunFault.Failed → Rose (O.faults out.old) (O.faults out.new) }
    ensures later { O.faults out.old ≤ O.faults out.new }
{
    let Ok(machine) = Machine::new(alloc, core) else {
        return Err(RunFault::NoMemory);
    };
    let mut machine = machine;
    run_steps(&mut machine, out, steps)
}

/// Makes at most `steps` reductions of a program, puts what is printed before it goes on, and says how the run stands
/// then.
#[tactic(auto, unfolding(crate::specs::Core::core_seen), using(crate::proofs::Appended::front_nothing, crate::proofs::Starts::starts_running, crate::proofs::Starts::starts_silent))]
pub fn run_main<O: Out>(
    alloc: Global,
    out: &mut O,
    bindings: &Bindings,
    steps: u32,
) -> Result<Turn, RunFault>
    ensures stands { IfOk result (λ t. (core_seen bindings.now steps).status ≡ status_of t) }
    ensures ok { OnOk result (Appends (O.written out.old) (core_seen bindings.now steps).out (O.written out.new)) }
    ensures err { OnErr result (AppendsFront (O.written out.old) (core_seen bindings.now steps).out (O.written out.new)) }
    ensures failed { IsErrOf result RunFault.Failed → Rose (O.faults out.old) (O.faults out.new) }
    ensures later { O.faults out.old ≤ O.faults out.new }
{
    let Ok(core) = erased_core(alloc, bindings) else {
        return Err(RunFault::NoMemory);
    };
    run_core(alloc, out, &core, steps)
}
