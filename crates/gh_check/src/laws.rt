// Laws on the definitions, each the contract of a function that does nothing.
ghost use Rattle.gh_check.specs.Accepted.{AcceptanceIsExact};
ghost use Rattle.gh_check.specs.Scoping.{ScopeIsExact};

/// A program of which each item is of its form is accepted exactly where each use of a name is good: one binding has the
/// name, and no other does, and so it is with `main`.
pub fn scope_is_exact()
    ensures { ScopeIsExact }
{}

/// A check finds a program exactly where the file is accepted: it has a reading, a layout and a tree within the limits,
/// the tree is of the first form, and each name that is used is bound once, `main` too.
pub fn acceptance_is_exact()
    ensures { AcceptanceIsExact }
{}
