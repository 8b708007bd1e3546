// Laws on the definitions, each the contract of a function that does nothing.
ghost use Rattle.gh_adapt_laws.specs.Converts.{AdaptersConvert, IsPairThere, PairConverts, PairsCompose};
ghost use Rattle.gh_adapt_laws.specs.PairTypes.{AdaptersTyped, BimapsTyped};

/// The conversion at a base type goes from the base type at the right types to the base type at the left ones, and the pair of a
/// datatype has the kind-indexed type of pairs at the datatype.
pub fn typing_laws()
    ensures adapter { AdaptersTyped }
    ensures bimap { BimapsTyped }
{}

/// Conversions at types, in both directions. The pair at a type is one; each of its conversions, applied to a term, goes to what
/// the definition says in at most 23 reductions, and so does the conversion at a base type; and pairs at types put into a pair make
/// the pair at the type with these types put in, so that a field of a rebuilt value is converted at its type.
pub fn conversion_laws()
    ensures there { IsPairThere }
    ensures converts { PairConverts }
    ensures adapter { AdaptersConvert }
    ensures compose { PairsCompose }
{}
