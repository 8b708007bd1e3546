// Laws on the definitions, each the contract of a function that does nothing.
ghost use Rattle.gh_scope_laws.specs.Orders.{IsOrder, OneOrder};
ghost use Rattle.gh_scope_laws.specs.Complete.{HasAll};
ghost use Rattle.gh_scope_laws.specs.Entries.{EachEntry, EachOnce};
ghost use Rattle.gh_scope_laws.specs.LinkOrders.{HasLinkOrder, NoLinkOrder, OneLinkOrder};
ghost use Rattle.gh_scope_laws.specs.Scopes.{AnswerOver, AnsweredScopes, HasScopes, OneScopes};

/// The order of the files is the one list in which, at each place, the first file by number stands that is not before it and
/// all of whose imports are, and behind which there is no such file.
pub fn one_order()
    ensures is_one { IsOrder }
    ensures no_other { OneOrder }
{}

/// Where nothing is refused before the scopes, every file is in the order.
pub fn every_file()
    ensures { HasAll }
{}

/// A list of all files in which, at each place, the first file by number stands that is not before it and all of whose
/// imports are of files before it: there is one, the order that linking takes, where no import lies on a cycle and none is of
/// an unknown module; elsewhere there is none; and there are no two.
pub fn link_order()
    ensures is_there { HasLinkOrder }
    ensures nowhere_else { NoLinkOrder }
    ensures no_other { OneLinkOrder }
{}

/// A scope has the entries that its own definitions and its imports give, no others, and each of them once.
pub fn entries_once()
    ensures each { EachEntry }
    ensures once { EachOnce }
{}

/// The scopes of all modules are told by one equation, in which an import gives what its module exports from its own scope
/// (Haskell 98 Report, 5.1 to 5.3): there are such scopes and no others. The answer of linking is the first refusal over
/// them, or the order and these scopes.
pub fn scopes_of_exports()
    ensures are_there { HasScopes }
    ensures no_others { OneScopes }
    ensures answer { AnswerOver }
    ensures answered { AnsweredScopes }
{}
