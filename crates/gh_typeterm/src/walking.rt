// Folds over type terms, by a walker that says what each node gives.
ghost use Rattle.std.specs.Prelude.{◌≡◌, IfOk};
ghost use Rattle.gh_typeterm.specs.declared.ty.TyNode.{fold-TyNode};

use crate::ty::{Ty, TyNode};
use gh_base::{NoMemory, TyCon};

/// A fold over type terms: what a node gives, from what its parts give. The walker may change while it is asked; what
/// it gives may not.
pub trait TypeWalk {
    ghost use Rattle.std.specs.Prelude.{◌≡◌, IfOk, ℕ};
    ghost use Rattle.gh_typeterm.specs.declared.ty.TyNode.TheOpen.{TyNode-F, Con, Var, App, Name};

    /// What a term gives.
    type Out;

    // The law of the walker: what one node gives, with the answers of its parts in their places.
    ghost step: { Self → TyNode-F Self.Out → Self.Out };

    /// What a constructor gives.
    fn con(&mut self, c: &TyCon) -> Result<Self::Out, NoMemory>
        ensures gives { IfOk result (λ out. out ≡ step self.old (Con c.now)) }
        ensures kept { step self.new ≡ step self.old };

    /// What a variable gives.
    fn var(&mut self, v: u32) -> Result<Self::Out, NoMemory>
        ensures gives { IfOk result (λ out. out ≡ step self.old (Var v)) }
        ensures kept { step self.new ≡ step self.old };

    /// What a type name gives.
    fn name(&mut self, n: u32) -> Result<Self::Out, NoMemory>
        ensures gives { IfOk result (λ out. out ≡ step self.old (Name n)) }
        ensures kept { step self.new ≡ step self.old };

    /// What an application gives, from what the applied type and the argument give.
    fn app(&mut self, head: Self::Out, arg: Self::Out) -> Result<Self::Out, NoMemory>
        ensures gives { IfOk result (λ out. out ≡ step self.old (App head arg)) }
        ensures kept { step self.new ≡ step self.old };
}

/// The fold of a term by a walker, from the leaves up, the applied type before the argument. It answers `NoMemory`
/// only where the walker does, and the walker then still has its law.
pub fn walk<W: TypeWalk>(term: &Ty, by: &mut W) -> Result<W::Out, NoMemory>
where
    W::Out: Drop,
    ensures gives { IfOk result (λ out. out ≡ fold-TyNode W.Out (W.step by.old) term.now) }
    ensures kept { W.step by.new ≡ W.step by.old }
{
    match term.get() {
        TyNode::Con(c) => by.con(c),
        TyNode::Var(v) => by.var(*v),
        TyNode::App(head, arg) => {
            let head = walk(head, by)?;
            let arg = walk(arg, by)?;
            by.app(head, arg)
        }
        TyNode::Name(n) => by.name(*n),
    }
}
