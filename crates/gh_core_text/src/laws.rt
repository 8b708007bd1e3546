// What a text says of what it is the text of.
ghost use Rattle.std.specs.Prelude.{◌≡◌, []};
ghost use Rattle.gh_typeterm.specs.declared.kind.Kind.{Kind};
ghost use Rattle.gh_core.specs.declared.types.CoreType.{CoreType};
ghost use Rattle.gh_core.specs.SameType.{IsSame};
ghost use Rattle.gh_core_text.specs.Leveled.{AreTold};
ghost use Rattle.gh_core.specs.Levels.{Scope};
ghost use Rattle.gh_core_text.specs.Shown.{IsNamed, shown};
ghost use Rattle.gh_core.specs.Text.{Table, kind_text, type_text};

/// A law: kinds with equal texts are equal.
pub fn kinds_by_text()
    ensures { (a b : Kind) → kind_text a ≡ kind_text b → a ≡ b }
{}

/// A law: types with equal texts, inside the same binders, are equal up to the numbers of their bound variables, where
/// constructors with one text are one constructor. Its condition is that each constructor's text is a name (no space and
/// no closing bracket, a dot or a dash, and at its beginning neither a bracket nor `t`) and that levels have 64 bits at most.
pub fn types_by_text()
    ensures { (table : Table) (ts : Scope) (a b : CoreType) → IsNamed (shown table a ts) → IsNamed (shown table b ts)
        → type_text table a ts ≡ type_text table b ts → shown table a ts ≡ shown table b ts }
{}

/// A law: where the texts of the table tell the constructors of two types apart, types with equal texts are equal up to
/// the names of bound variables.
pub fn same_types_by_text()
    ensures { (table : Table) (a b : CoreType) → IsNamed (shown table a []) → IsNamed (shown table b []) → AreTold table a b
        → type_text table a [] ≡ type_text table b [] → IsSame a b }
{}
