// Laws of the definitions, each as the contract of a function without code.
ghost use Rattle.gh_kernel.specs.Laws.{SubstitutionsCompose, EmptyChangesNothing, OverStays, OverStaysSeen, BytesExtend};
ghost use Rattle.gh_kernel.specs.TypingLaws.{WorkedTypings, NamesAreFixed, GroupsHaveOneType, KindsAreListed, RigidAreRead, CaseVariablesDiffer, LessGeneralTypings, GroupsMayShare, ExactIsFull, VariablesAreBounded, NotesAreTyping};

/// Substitution: one after another is one, and the empty one changes nothing.
pub fn substitution_laws()
    ensures compose { SubstitutionsCompose }
    ensures empty { EmptyChangesNothing }
{}

/// Runs of the type-passing meaning: one that has ended or failed stays, and the bytes that are printed after more steps
/// begin with those that are printed after fewer.
pub fn run_laws()
    ensures stays { OverStays }
    ensures stays_seen { OverStaysSeen }
    ensures extends { BytesExtend }
{}

/// Typing (Damas and Milner, with Löh's generic calls, cases and local redefinitions), on small programs and in general.
///
/// Three programs have a full typing in which main is a text, and three have none: what a type name stands for is bound outside,
/// so it is not generalised. A fourth has none, since a name has one type inside its group. A note lists the kind of each of its
/// variables; the rigid variables of a written type are read off the type of its term, and those of a case are different. Types
/// that are bound before their node is looked at are types of values, and not too large. Some full typings are not most general,
/// and one is. A kernel with notes gives a typing of the modules of the kernel without them.
pub fn typing_laws()
    ensures worked { WorkedTypings }
    ensures names_fixed { NamesAreFixed }
    ensures group_has_one_type { GroupsHaveOneType }
    ensures kinds_listed { KindsAreListed }
    ensures rigid_read { RigidAreRead }
    ensures case_variables { CaseVariablesDiffer }
    ensures less_general { LessGeneralTypings }
    ensures most_general { GroupsMayShare }
    ensures exact_full { ExactIsFull }
    ensures variables_bounded { VariablesAreBounded }
    ensures notes_typing { NotesAreTyping }
{}
