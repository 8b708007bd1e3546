// Laws of the definition, as the contract of a function without code.
ghost use Rattle.gh_kind_index.specs.Laws.{AtStar, AtArrow, AnyVariables, AtArguments, FreeInTypes};

/// Kind-indexed types: Hinze's two equations, and what follows from them. Which new variables are taken plays no part; a type
/// at an arrow, at arguments, is the type of the application behind what is asked of the dependencies at the arguments; and
/// the free variables are those of the types.
pub fn kind_laws()
    ensures star { AtStar }
    ensures arrow { AtArrow }
    ensures variables { AnyVariables }
    ensures arguments { AtArguments }
    ensures free { FreeInTypes }
{}
