// Laws of the meaning's steps and conversions, and worked runs, each as the contract of a function without code.
ghost use Rattle.gh_kernel.specs.ConversionLaws.{BodyInstances, ConversionsUndo, NamesThenTypes};
ghost use Rattle.gh_kernel.specs.GenericRuns.{CaseTaken, ConversionFails, DatatypeWithoutCase, NameDescribed, NestedType, RedefinitionAtList};
ghost use Rattle.gh_kernel.specs.LongerRuns.{MapAtList, ValuesAtTruths};
ghost use Rattle.gh_kernel.specs.PlainRuns.{AsPatternAgain, CellForLiteral, ErrorNotDemanded, GuardsAllFail, LetEntered, LiteralForCell, NewtypeContents, NewtypeFails, NewtypeTakes, NoRowLeft, PrimitiveOnce};
ghost use Rattle.gh_kernel.specs.StepLaws.{ContentsCount, LinksCount, MarksAreFree, OneAct, StepsAdd};

/// Steps of the meaning: one is one act, and so many and so many more are all of them. Each link of an application is one, whatever
/// the function, and contents of a newtype that are demanded pass the demand on in one; marks and annotations cost none.
pub fn step_laws()
    ensures one { OneAct }
    ensures add { StepsAdd }
    ensures links { LinksCount }
    ensures contents { ContentsCount }
    ensures marks { MarksAreFree }
{}

/// Conversions between a datatype and its representation (Hinze's embedding-projection pairs): constructor by constructor, each of
/// the two takes apart what the other puts together. The body of a generic function at a type constructor without a case has type
/// names for the parameters, as the body of a case has: an instance of it is the call at the instance of the representation,
/// converted at the function's base type.
pub fn conversion_laws()
    ensures undo { ConversionsUndo }
    ensures names { NamesThenTypes }
    ensures instances { BodyInstances }
{}

/// Worked runs of plain terms: each is over with the step whose number was counted by hand, and goes on before it.
pub fn plain_runs()
    ensures guards_all_fail { GuardsAllFail }
    ensures as_pattern_again { AsPatternAgain }
    ensures newtype_takes { NewtypeTakes }
    ensures newtype_contents { NewtypeContents }
    ensures newtype_fails { NewtypeFails }
    ensures error_not_demanded { ErrorNotDemanded }
    ensures no_row_left { NoRowLeft }
    ensures literal_for_cell { LiteralForCell }
    ensures cell_for_literal { CellForLiteral }
    ensures primitive_once { PrimitiveOnce }
    ensures let_entered { LetEntered }
{}

/// Worked runs of generic calls, counted by hand: at a datatype without a case, at a nested type, at a local redefinition, at a
/// constructor's layer, and with a case that is taken; and two longer runs to their ends, with conversions both ways.
pub fn generic_runs()
    ensures datatype_without_case { DatatypeWithoutCase }
    ensures conversion_fails { ConversionFails }
    ensures nested_type { NestedType }
    ensures redefinition_at_list { RedefinitionAtList }
    ensures name_described { NameDescribed }
    ensures case_taken { CaseTaken }
    ensures map_at_list { MapAtList }
    ensures values_at_truths { ValuesAtTruths }
{}
