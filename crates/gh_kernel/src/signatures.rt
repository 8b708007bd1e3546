// Written types and what typing notes.
use gh_base::{ListOf, Span};
use gh_typeterm::{Kind, Ty};

/// A written type of a signature or annotation.
#[derive(Debug, Drop)]
pub struct Signed {
    /// The type. Its variables stand for all types of their kinds.
    pub ty: Ty,
    /// Each variable of the type once, by its number, with its kind.
    pub kinds: ListOf<(u32, Kind)>,
}

/// What typing notes of a node.
#[derive(Debug, Drop)]
pub struct Note {
    /// The bytes of the construct that the node comes from.
    pub span: Span,
    /// The node's type; of a binding, the type of its variable.
    pub ty: Ty,
    /// Of a name or constructor, the types that stand for the quantified variables of its scheme; of a pattern's
    /// constructor, the arguments of its datatype; of a binding, its quantified variables; of a generic call, the types
    /// of the non-generic variables; of a local redefinition, the types of its name and then those that the name fixes;
    /// of an annotation, the types that stand for the variables of its type.
    pub at: ListOf<Ty>,
    /// The kind of each variable of `ty` and `at`, by its number.
    pub kinds: ListOf<(u32, Kind)>,
}
