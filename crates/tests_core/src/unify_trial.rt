// A unifier for tests, with the number of variables that were drawn from it.
ghost use Rattle.std.specs.Prelude.{◌≡◌, ℕ, ◌<◌, IsTrue, length};
ghost use Rattle.gh_unify.specs.Types.{has, mono};

use gh_base::NoMemory;
use gh_typeterm::{Ty, TyNode};
use gh_unify::{Unifier, UnifyFault};
use std::alloc::Global;
use std::process::Abort;

// Whether each variable of a type is one of the first ones.
fn is_below(term: &Ty, count: u32) -> bool
    ensures { IsTrue result → (v : ℕ) → IsTrue (has v (mono term.now)) → v < count }
{
    match term.get() {
        TyNode::Con(_) => true,
        TyNode::Name(_) => true,
        TyNode::Var(v) => *v < count,
        TyNode::App(head, arg) => {
            if !is_below(head, count) {
                return false;
            }
            is_below(arg, count)
        }
    }
}

/// A unifier of a test.
#[derive(Drop)]
pub struct Trial {
    alloc: Global,
    unifier: Unifier,
    count: u32,
    ghost counted: { count ≡ length unifier },
}

impl Trial {
    /// No variable and no equation.
    pub fn new(alloc: Global) -> Trial {
        Trial {
            alloc,
            unifier: Unifier::new(alloc),
            count: 0,
        }
    }

    /// A new variable of this level, counted.
    pub fn fresh(&mut self, rt: &impl Abort, level: u32) -> Result<u32, NoMemory> {
        assert!(rt; self.count < 1000);
        let number = self.unifier.fresh(level)?;
        self.count += 1;
        Ok(number)
    }

    /// A new rigid variable of this level, counted.
    pub fn rigid(&mut self, rt: &impl Abort, level: u32) -> Result<u32, NoMemory> {
        assert!(rt; self.count < 1000);
        let number = self.unifier.rigid(level)?;
        self.count += 1;
        Ok(number)
    }

    /// The equation of two types, whose variables were all drawn, given to the unifier.
    pub fn unify(&mut self, rt: &impl Abort, a: &Ty, b: &Ty) -> Result<(), UnifyFault> {
        assert!(rt; is_below(a, self.count));
        assert!(rt; is_below(b, self.count));
        self.unifier.unify(a, b)
    }

    /// Whether an equation has a solution.
    pub fn accepts(&mut self, rt: &impl Abort, a: &Ty, b: &Ty) -> bool {
        self.unify(rt, a, b).is_ok()
    }

    /// A type under the solution so far.
    pub fn read(&self, rt: &impl Abort, a: &Ty) -> Result<Ty, NoMemory> {
        assert!(rt; is_below(a, self.count));
        self.unifier.read(a)
    }

    /// The level that a variable, which was drawn, reaches.
    pub fn level(&self, rt: &impl Abort, var: u32) -> u32 {
        assert!(rt; var < self.count);
        self.unifier.level(var)
    }
}
