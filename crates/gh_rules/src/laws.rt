// Laws on the definitions, each the contract of a function that does nothing.
ghost use Rattle.gh_rules.specs.Laws.{Asks, Begins, Decides, Enters, Moves, Takes};
ghost use Rattle.gh_rules.specs.RowByRow.{RowsFollow};

/// The rules over terms of core are those of the meaning: where a row of the kernel stands beside a row of core, with the same
/// patterns against the same arguments, one step of the meaning is one step of the rules, and what they come to stands side by side
/// again. So it is where matching begins, at a pattern that asks nothing, at a newtype's pattern, at a pattern that tests, for every
/// value that comes back, where the groups are entered, and at a guard.
pub fn matching_laws()
    ensures begins { Begins }
    ensures moves { Moves }
    ensures takes { Takes }
    ensures asks { Asks }
    ensures enters { Enters }
    ensures decides { Decides }
{}

/// The contract of a compiled match can be met: rows compiled one after the other, each pattern by a case of its own, follow the rules.
pub fn rows_follow()
    ensures { RowsFollow }
{}
