// Laws on the definitions, each the contract of a function that does nothing.
ghost use Rattle.gh_tree_form.specs.Laws.{BindingsAreSpanned, FormIsExact, FormIsUnique, NamesArePlaced, RefusalIsExact};

/// The bindings that are taken out of a tree are those of the first form that it is; a tree that is not of the first form
/// is refused.
pub fn form_is_exact()
    ensures { FormIsExact }
{}

/// A tree has one list of bindings at most.
pub fn form_is_unique()
    ensures { FormIsUnique }
{}

/// What is refused of a well-formed tree is the bytes of the first item that is of another form, or binds a name again.
pub fn refusal_is_exact()
    ensures { RefusalIsExact }
{}

/// A binding of a well-formed item has the bytes of the item's tokens.
pub fn bindings_are_spanned()
    ensures { BindingsAreSpanned }
{}

/// Where the ids of a file's tokens are of a table, so are those of the bindings in its tree.
pub fn names_are_placed()
    ensures { NamesArePlaced }
{}
