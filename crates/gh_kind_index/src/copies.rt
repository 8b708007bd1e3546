// Copies of types of core.
ghost use Rattle.std.specs.Prelude.{◌≡◌, IfOk};

use gh_base::NoMemory;
use gh_core::CoreType;
use gh_typeterm::copy_kind;
use sqlite_items::Boxed;
use std::alloc::Global;

/// A copy of a type. Want of memory is the only refusal.
pub fn copy_type(alloc: Global, ty: &CoreType) -> Result<Boxed<CoreType>, NoMemory>
    ensures { IfOk result (λ copy. copy ≡ ty.now) }
{
    match ty {
        CoreType::Var(x) => Ok(Boxed::new(alloc, CoreType::Var(*x))?),
        CoreType::Con(c) => Ok(Boxed::new(alloc, CoreType::Con(*c))?),
        CoreType::App(f, x) => {
            let f = copy_type(alloc, f.get())?;
            let x = copy_type(alloc, x.get())?;
            Ok(Boxed::new(alloc, CoreType::App(f, x))?)
        }
        CoreType::Forall(x, kind, body) => {
            let body = copy_type(alloc, body.get())?;
            let kind = copy_kind(alloc, kind)?;
            Ok(Boxed::new(alloc, CoreType::Forall(*x, kind, body))?)
        }
        CoreType::Any(kind) => {
            let kind = copy_kind(alloc, kind)?;
            Ok(Boxed::new(alloc, CoreType::Any(kind))?)
        }
    }
}
