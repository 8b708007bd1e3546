// The level of the outermost scope that a variable reaches, worked out by hand.
use crate::unify_trial::Trial;
use gh_base::{NameId, NoMemory, Origin, Space, TyCon};
use gh_typeterm::Ty;
use std::alloc::Global;
use std::process::Abort;
use std::test::Fail;

// The list of a type.
fn list(alloc: Global, item: &Ty) -> Result<Ty, NoMemory> {
    let head = TyCon::Named(Origin {
        module: NameId(0),
        space: Space::Types,
        name: NameId(1),
    });
    Ty::app(alloc, Ty::con(alloc, head)?, item.share()?)
}

// The levels of a variable of level 3: on its own, in the type of one of level 2, and in that of one of level 1, which
// holds the other.
fn levels(rt: &impl Abort, alloc: Global) -> Result<(u32, u32, u32), NoMemory> {
    let mut trial = Trial::new(alloc);
    let outer = Ty::var(alloc, trial.fresh(rt, 1)?)?;
    let middle = Ty::var(alloc, trial.fresh(rt, 2)?)?;
    let number = trial.fresh(rt, 3)?;
    let inner = Ty::var(alloc, number)?;
    let first = trial.level(rt, number);
    let _met = trial.accepts(rt, &middle, &list(alloc, &inner)?);
    let second = trial.level(rt, number);
    let _met = trial.accepts(rt, &list(alloc, &middle)?, &outer);
    Ok((first, second, trial.level(rt, number)))
}

#[test]
fn lowered_through_types(rt: HostRuntime) -> Result<(), Fail> {
    let found = levels(&rt, rt.alloc())?;
    assert!(rt; found.0 == 3);
    assert!(rt; found.1 == 2);
    assert!(rt; found.2 == 1);
    Ok(())
}
