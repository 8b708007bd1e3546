// Type terms.
ghost use Rattle.std.specs.Prelude.{◌≡◌, IfOk};

use crate::shared::Shared;
use gh_base::{NoMemory, TyCon};
use std::alloc::Global;

/// A type term. Its parts may be shared in memory; contracts see the plain tree.
pub type Ty = Shared<TyNode>;

/// The head of a type term (Haskell 98 Report, 4.1.2). A type with several arguments is a nest of applications, the
/// first argument innermost: `a -> b` is `App(App(Con(Arrow), a), b)`.
#[derive(Debug, Drop)]
pub enum TyNode {
    /// A type constructor.
    Con(TyCon),
    /// A type variable, by its number.
    Var(u32),
    /// A type applied to one more argument: first the type, then the argument.
    App(Ty, Ty),
    /// A type name, by its number: a parameter of a generic case, or the name of a local redefinition (Löh, Exploring
    /// Generic Haskell).
    Name(u32),
}

impl Shared<TyNode> {
    /// The type that is this constructor.
    pub fn con(alloc: Global, head: TyCon) -> Result<Ty, NoMemory>
        ensures { IfOk result (λ term. term ≡ TyNode.Con head) }
    {
        Shared::new(alloc, TyNode::Con(head))
    }

    /// The type variable of this number.
    pub fn var(alloc: Global, number: u32) -> Result<Ty, NoMemory>
        ensures { IfOk result (λ term. term ≡ TyNode.Var number) }
    {
        Shared::new(alloc, TyNode::Var(number))
    }

    /// A type applied to an argument.
    pub fn app(alloc: Global, head: Ty, arg: Ty) -> Result<Ty, NoMemory>
        ensures { IfOk result (λ term. term ≡ TyNode.App head arg) }
    {
        Shared::new(alloc, TyNode::App(head, arg))
    }

    /// The type name of this number.
    pub fn name(alloc: Global, number: u32) -> Result<Ty, NoMemory>
        ensures { IfOk result (λ term. term ≡ TyNode.Name number) }
    {
        Shared::new(alloc, TyNode::Name(number))
    }
}
