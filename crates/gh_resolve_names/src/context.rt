// What a name is looked up in.
use crate::numbers::Numbers;
use gh_base::NameId;
use gh_scopes::Table;

/// What the uses of names in a module are looked up in.
#[derive(Drop)]
pub struct Context {
    /// The module's name.
    pub home: NameId,
    /// The names in scope at its top.
    pub scope: Table,
    /// The generic functions of the program, each with the number 0.
    pub functions: Numbers,
    /// The constructors of the program, each with its number of fields.
    pub fields: Numbers,
    /// The type synonyms of the program, each with its number of parameters.
    pub synonyms: Numbers,
}
