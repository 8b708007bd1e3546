// Laws on the definitions, each the contract of a function that does nothing.
ghost use Rattle.gh_keeps.specs.Laws.{CoreGoesOn, KeepingComposes, KeepingEnds, ReachesEither, ReachesItself, ReachesOn};

/// What a run of core has printed stays printed after more reductions, and where it is over nothing changes any more: for every
/// program and from every state.
pub fn core_goes_on()
    ensures { CoreGoesOn }
{}

/// That one run reaches what another has shown is a partial order.
pub fn reaching_laws()
    ensures itself { ReachesItself }
    ensures on { ReachesOn }
    ensures either { ReachesEither }
{}

/// A run that keeps what a second shows, which keeps what a third shows, keeps that too, with the product of the budgets; and
/// both runs of a pair come to the same end or failure, or neither is ever over.
pub fn keeping_laws()
    ensures composes { KeepingComposes }
    ensures ends { KeepingEnds }
{}
