// Laws on the definitions, each the contract of a function that does nothing.
ghost use Rattle.gh_bindings.specs.Laws.{CoreGoesOn, CoreKeepsMeaning, NoneFails};

/// For every program of bindings, its names bound or not: what n steps of the meaning of `main` print is a prefix of what
/// 1,000 * (n + 1) reductions of its core print, an end within n steps is reached within these reductions with the same bytes,
/// and for each number of reductions some number of steps prints at least as much and has ended where the core has. In fact
/// n + 1 reductions are enough.
pub fn core_keeps_meaning()
    ensures budget { CoreKeepsMeaning 1000 }
    ensures closely { CoreKeepsMeaning 1 }
{}

/// What the core of a program of bindings has printed stays printed after more reductions, and where it has ended nothing
/// changes any more.
pub fn core_goes_on()
    ensures { CoreGoesOn }
{}

/// Neither the meaning nor the core of a program of bindings fails, whatever names are bound.
pub fn none_fails()
    ensures { NoneFails }
{}
