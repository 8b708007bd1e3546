// A value with several owners.
ghost use Rattle.std.specs.Prelude.{◌≡◌, IfOk};

use gh_base::NoMemory;
use std::alloc::Global;
use std::marker::Model;
use std::rc::Rc;

/// A value on the heap that several owners share, in one thread. Contracts see it as the value itself, so a type that
/// holds one may lead back to itself.
#[derive(Debug, Drop)]
pub struct Shared<T> {
    inner: Rc<T>,
}

impl<T> Model for Shared<T> {
    ghost Value = { T };

    ghost coded = { T.code };

    ghost view = { λ b. b.inner.value };
}

impl<T> Shared<T> {
    /// The value. It takes no memory.
    pub fn get(&self) -> &T
        ensures { result.now ≡ self.now }
    {
        &self.inner
    }
}

impl<T: Drop> Shared<T> {
    /// The value with its first owner.
    pub fn new(alloc: Global, value: T) -> Result<Shared<T>, NoMemory>
        ensures { IfOk result (λ shared. shared ≡ value) }
    {
        Ok(Shared {
            inner: Rc::new(alloc, value)?,
        })
    }

    /// One more owner of the same value, which is not copied. It answers `NoMemory` only where the owners can no
    /// longer be counted.
    pub fn share(&self) -> Result<Shared<T>, NoMemory>
        ensures { IfOk result (λ shared. shared ≡ self.now) }
    {
        Ok(Shared {
            inner: self.inner.clone()?,
        })
    }
}

#[cfg(test)]
mod tests {
    use super::Shared;
    use crate::{Ty, substitute};
    use gh_base::{ListOf, TyCon};
    use std::rc::Rc;
    use std::test::Fail;

    // A term that no replacement meets is the same node in memory after it, and so is an untouched part.
    #[test]
    fn keeps_sharing(rt: HostRuntime) -> Result<(), Fail> {
        let alloc = rt.alloc();
        let head = Ty::app(alloc, Ty::con(alloc, TyCon::Arrow)?, Ty::var(alloc, 1)?)?;
        let term = Ty::app(alloc, head, Ty::var(alloc, 2)?)?;
        let mut by = ListOf::new(alloc);
        by.push((3, Ty::con(alloc, TyCon::Int)?))?;
        let same = substitute(alloc, &term, &by)?;
        assert!(rt; Rc::ptr_eq(&same.inner, &term.inner));
        by.push((2, Ty::con(alloc, TyCon::Char)?))?;
        let changed = substitute(alloc, &term, &by)?;
        assert!(rt; !Rc::ptr_eq(&changed.inner, &term.inner));
        let shared: &Shared<crate::TyNode> = &term;
        if let (crate::TyNode::App(old, _), crate::TyNode::App(new, _)) = (
            shared.get(),
            changed.get(),
        ) {
            assert!(rt; Rc::ptr_eq(&old.inner, &new.inner));
        }
        Ok(())
    }
}
