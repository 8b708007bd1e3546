// Chains of equations, each with a variable that was not in the earlier ones.
ghost use Rattle.std.specs.Prelude.{◌≡◌, ℕ, ◌<◌, IsTrue, length};
ghost use Rattle.gh_unify.specs.Types.{has, mono};

use gh_base::{NameId, NoMemory, Origin, Space, TyCon};
use gh_typeterm::{Ty, TyNode};
use gh_unify::Unifier;
use std::alloc::Global;

/// What the equations of a chain say.
#[derive(Clone, Copy)]
pub enum Shape {
    /// The last variable is the new one.
    Variables,
    /// The list of the last variable is the list of lists of the new one. So the type of the first variable has two
    /// nodes more with each equation.
    Lists,
}

impl Shape {
    /// The shape in words.
    pub fn name(self) -> &'static str {
        match self {
            Shape::Variables => "chain of variables",
            Shape::Lists => "chain of nested lists",
        }
    }
}

// Whether each variable of a type is one of the first ones.
fn is_below(term: &Ty, count: u32) -> bool
    ensures { IsTrue result → (v : ℕ) → IsTrue (has v (mono term.now)) → v < count }
{
    match term.get() {
        TyNode::Con(_) => true,
        TyNode::Name(_) => true,
        TyNode::Var(v) => *v < count,
        TyNode::App(head, arg) => {
            if !is_below(head, count) {
                return false;
            }
            is_below(arg, count)
        }
    }
}

fn list(alloc: Global, item: &Ty) -> Result<Ty, NoMemory> {
    let head = TyCon::Named(Origin {
        module: NameId(0),
        space: Space::Types,
        name: NameId(0),
    });
    Ty::app(alloc, Ty::con(alloc, head)?, item.share()?)
}

/// A chain of equations, solved as it grows.
#[derive(Drop)]
pub struct Chain {
    alloc: Global,
    unifier: Unifier,
    count: u32,
    last: Ty,
    ghost counted: { count ≡ length unifier },
}

impl Chain {
    /// One variable, and no equation.
    pub fn new(alloc: Global) -> Result<Chain, NoMemory> {
        let mut unifier = Unifier::new(alloc);
        let number = unifier.fresh(0)?;
        let last = Ty::var(alloc, number)?;
        Ok(Chain {
            alloc,
            unifier,
            count: 1,
            last,
        })
    }

    /// One more variable and equation. Answers whether it is met.
    pub fn grow(&mut self, shape: Shape) -> Result<bool, NoMemory> {
        if self.count >= 1_000_000 {
            return Ok(false);
        }
        let number = self.unifier.fresh(0)?;
        self.count += 1;
        let next = Ty::var(self.alloc, number)?;
        let (left, right) = match shape {
            Shape::Variables => (self.last.share()?, next.share()?),
            Shape::Lists => (
                list(self.alloc, &self.last)?,
                list(self.alloc, &list(self.alloc, &next)?)?,
            ),
        };
        self.last = next;
        if !is_below(&left, self.count) || !is_below(&right, self.count) {
            return Ok(false);
        }
        Ok(self.unifier.unify(&left, &right).is_ok())
    }
}
