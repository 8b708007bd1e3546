// Types of core.
use gh_base::TyCon;
use gh_typeterm::Kind;
use sqlite_items::Boxed;

/// A type of core: those of the higher-order polymorphic lambda calculus. A variable is a number, bound by the
/// nearest enclosing `Forall` with that number.
#[derive(Drop)]
pub enum CoreType {
    /// A type variable.
    Var(u32),
    /// A type constructor.
    Con(TyCon),
    /// A type applied to an argument.
    App(Boxed<CoreType>, Boxed<CoreType>),
    /// A type for all types of a kind, which stand for the variable.
    Forall(u32, Kind, Boxed<CoreType>),
    /// The closed type of this kind that stands for one that typing leaves open.
    Any(Kind),
}
