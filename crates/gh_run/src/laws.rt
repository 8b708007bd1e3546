// Laws on the definitions, each the contract of a function that does nothing.
ghost use Rattle.gh_run.specs.Cycles.{CyclesRunForEver};
ghost use Rattle.gh_run.specs.Keeping.{CoreKeepsMeaning};

/// For every program of the first form, what n steps of the meaning of `main` print is a prefix of what 1,000 * (n + 1)
/// reductions of its core print, an end within n steps is reached within these reductions, and for each number of
/// reductions some number of steps prints at least as much and has ended where the core has.
pub fn core_keeps_meaning()
    ensures { CoreKeepsMeaning }
{}

/// Where `main` leads to a name that leads back to itself, the core goes on after any number of reductions, and nothing
/// is printed.
pub fn cycles_run_for_ever()
    ensures { CyclesRunForEver }
{}
