// A law on the fixed names, the contract of a function that does nothing.
ghost use Rattle.gh_base.specs.FixedNames.{ConstantsNameTheirWords};

/// Each constant of `fixed` is the number of its word in every table of names, and they are all of the fixed texts.
pub fn constants_name_their_words()
    ensures { ConstantsNameTheirWords }
{}
