// Types that typing noted, as types of core.
ghost use Rattle.std.specs.Prelude.{◌≡◌, IfOk};
ghost use Rattle.gh_core.specs.SameType.{any};
ghost use Rattle.gh_core.specs.Typing.{type_of};
ghost use Rattle.gh_match.specs.Compiled.{noted_type};

use gh_base::NoMemory;
use gh_core::CoreType;
use gh_typeterm::{Kind, Ty, TyNode};
use sqlite_items::Boxed;
use std::alloc::Global;

/// A noted type: its variables keep their numbers, and a type name, which no note has, is the type that is left open.
pub fn noted_type(alloc: Global, ty: &Ty) -> Result<Boxed<CoreType>, NoMemory>
    ensures { IfOk result (λ made. type_of made ≡ noted_type ty.now) }
{
    match ty.get() {
        TyNode::Con(c) => Ok(Boxed::new(alloc, CoreType::Con(*c))?),
        TyNode::Var(x) => Ok(Boxed::new(alloc, CoreType::Var(*x))?),
        TyNode::App(f, x) => {
            let f = noted_type(alloc, f)?;
            let x = noted_type(alloc, x)?;
            Ok(Boxed::new(alloc, CoreType::App(f, x))?)
        }
        TyNode::Name(_) => open_type(alloc),
    }
}

/// The type of values that is left open.
pub fn open_type(alloc: Global) -> Result<Boxed<CoreType>, NoMemory>
    ensures { IfOk result (λ made. type_of made ≡ any Kind.Star) }
{
    Ok(Boxed::new(alloc, CoreType::Any(Kind::Star))?)
}
