// Small cases, worked out by hand.
use crate::unify_trial::Trial;
use gh_base::{NameId, NoMemory, Origin, Space, TyCon};
use gh_typeterm::{Ty, same, size};
use gh_unify::{Unifier, UnifyFault};
use std::alloc::Global;
use std::process::Abort;
use std::test::Fail;

fn named(alloc: Global, name: u32) -> Result<Ty, NoMemory> {
    Ty::con(
        alloc,
        TyCon::Named(Origin {
            module: NameId(0),
            space: Space::Types,
            name: NameId(name),
        }),
    )
}

// The list of a type: two nodes more.
fn list(alloc: Global, item: &Ty) -> Result<Ty, NoMemory> {
    Ty::app(alloc, named(alloc, 1)?, item.share()?)
}

// The pair of a type with itself: three nodes and twice its own.
fn twice(alloc: Global, part: &Ty) -> Result<Ty, NoMemory> {
    let first = Ty::app(alloc, named(alloc, 2)?, part.share()?)?;
    Ty::app(alloc, first, part.share()?)
}

// A new variable.
fn variable(trial: &mut Trial, rt: &impl Abort, alloc: Global) -> Result<Ty, NoMemory> {
    let number = trial.fresh(rt, 0)?;
    Ty::var(alloc, number)
}

// Whether an equation has no solution since these two types differ.
fn differ(trial: &mut Trial, rt: &impl Abort, a: &Ty, b: &Ty, at: (&Ty, &Ty)) -> bool {
    let Err(fault) = trial.unify(rt, a, b) else {
        return false;
    };
    match fault {
        UnifyFault::Clash { left, right } => same(&left, at.0) && same(&right, at.1),
        _other => false,
    }
}

// The variable that an equation makes a part of itself, where that is this type.
fn in_itself(trial: &mut Trial, rt: &impl Abort, a: &Ty, b: &Ty, wanted: &Ty) -> Option<u32> {
    let Err(fault) = trial.unify(rt, a, b) else {
        return None;
    };
    match fault {
        UnifyFault::Occurs { var, term } => if same(&term, wanted) { Some(var) } else { None },
        _other => None,
    }
}

// The rigid variable that an equation lets out, and the variable that would hold it.
fn let_out(trial: &mut Trial, rt: &impl Abort, a: &Ty, b: &Ty) -> Option<(u32, u32)> {
    let Err(fault) = trial.unify(rt, a, b) else {
        return None;
    };
    match fault {
        UnifyFault::Escapes { rigid, var } => Some((rigid, var)),
        _other => None,
    }
}

// The variable that an equation makes too large.
fn too_large(trial: &mut Trial, rt: &impl Abort, a: &Ty, b: &Ty) -> Option<u32> {
    let Err(fault) = trial.unify(rt, a, b) else {
        return None;
    };
    match fault {
        UnifyFault::TooLarge { var } => Some(var),
        _other => None,
    }
}

// Whether a type is this one by now.
fn reads_as(trial: &Trial, rt: &impl Abort, ty: &Ty, wanted: &Ty) -> Result<bool, NoMemory> {
    let found = trial.read(rt, ty)?;
    Ok(same(&found, wanted))
}

// The nodes of a type by now, up to 1,000.
fn size_of(trial: &Trial, rt: &impl Abort, ty: &Ty) -> Result<Option<u32>, NoMemory> {
    let found = trial.read(rt, ty)?;
    Ok(size(&found, 1000))
}

#[test]
fn starts_empty(rt: HostRuntime) -> Result<(), Fail> {
    let mut unifier = Unifier::new(rt.alloc());
    assert_eq!(rt; unifier.fresh(1)?, 0);
    assert_eq!(rt; unifier.rigid(1)?, 1);
    Ok(())
}

#[test]
fn clashes(rt: HostRuntime) -> Result<(), Fail> {
    let alloc = rt.alloc();
    let mut trial = Trial::new(alloc);
    let x = variable(&mut trial, &rt, alloc)?;
    let rigid = Ty::var(alloc, trial.rigid(&rt, 0)?)?;
    let rigid_list = list(alloc, &rigid)?;
    assert!(rt; trial.accepts(&rt, &x, &rigid_list));
    check_clash(&mut trial, &rt, alloc, &x, &rigid)?;
    assert!(rt; reads_as(&trial, &rt, &x, &rigid_list)?);
    Ok(())
}

// The list of a rigid variable is no list of integers.
fn check_clash(
    trial: &mut Trial,
    rt: &impl Abort,
    alloc: Global,
    x: &Ty,
    rigid: &Ty,
) -> Result<(), NoMemory> {
    let int = Ty::con(alloc, TyCon::Int)?;
    let other = list(alloc, &int)?;
    assert!(rt; differ(trial, rt, x, &other, (rigid, &int)));
    Ok(())
}

#[test]
fn occurs(rt: HostRuntime) -> Result<(), Fail> {
    let alloc = rt.alloc();
    let mut trial = Trial::new(alloc);
    let number = trial.fresh(&rt, 0)?;
    let x = Ty::var(alloc, number)?;
    let y = variable(&mut trial, &rt, alloc)?;
    let wanted = list(alloc, &x)?;
    assert!(rt; trial.accepts(&rt, &y, &wanted));
    assert_eq!(rt; in_itself(&mut trial, &rt, &x, &y, &wanted), Some(number));
    assert!(rt; reads_as(&trial, &rt, &x, &x)?);
    Ok(())
}

#[test]
fn escapes(rt: HostRuntime) -> Result<(), Fail> {
    let mut trial = Trial::new(rt.alloc());
    let inner = check_escape(&mut trial, &rt, rt.alloc())?;
    check_own_level(&mut trial, &rt, rt.alloc(), inner)?;
    Ok(())
}

// A rigid variable of level 2 is let out by a variable of level 2 that is one of level 1.
fn check_escape(trial: &mut Trial, rt: &impl Abort, alloc: Global) -> Result<u32, NoMemory> {
    let outer = trial.fresh(rt, 1)?;
    let x = Ty::var(alloc, outer)?;
    let number = trial.fresh(rt, 2)?;
    let y = Ty::var(alloc, number)?;
    let inner = trial.rigid(rt, 2)?;
    assert!(rt; trial.accepts(rt, &x, &y));
    check_list(trial, rt, alloc, &y, (inner, outer))?;
    let found = trial.read(rt, &x)?;
    assert!(rt; reads_as(trial, rt, &y, &found)?);
    Ok(inner)
}

// The list of a rigid variable lets it out.
fn check_list(
    trial: &mut Trial,
    rt: &impl Abort,
    alloc: Global,
    ty: &Ty,
    wanted: (u32, u32),
) -> Result<(), NoMemory> {
    let rigid = Ty::var(alloc, wanted.0)?;
    let other = list(alloc, &rigid)?;
    assert_eq!(rt; let_out(trial, rt, ty, &other), Some(wanted));
    Ok(())
}

// A variable of the level of a rigid variable takes it.
fn check_own_level(
    trial: &mut Trial,
    rt: &impl Abort,
    alloc: Global,
    inner: u32,
) -> Result<(), NoMemory> {
    let number = trial.fresh(rt, 2)?;
    let z = Ty::var(alloc, number)?;
    let rigid = Ty::var(alloc, inner)?;
    assert!(rt; trial.accepts(rt, &z, &rigid));
    let found = list(alloc, &z)?;
    let wanted = list(alloc, &rigid)?;
    assert!(rt; reads_as(trial, rt, &found, &wanted)?);
    Ok(())
}

// A new variable that is the pair of a type with itself.
fn doubled(trial: &mut Trial, rt: &impl Abort, alloc: Global, part: &Ty) -> Result<Ty, NoMemory> {
    let next = variable(trial, rt, alloc)?;
    let pair = twice(alloc, part)?;
    assert!(rt; trial.accepts(rt, &next, &pair));
    Ok(next)
}

// A variable that is doubled seven times, and has 509 nodes.
fn doubled_often(trial: &mut Trial, rt: &impl Abort, alloc: Global) -> Result<Ty, NoMemory> {
    let mut last = variable(trial, rt, alloc)?;
    for _ in 0..7u8 {
        last = doubled(trial, rt, alloc, &last)?;
    }
    assert_eq!(rt; size_of(trial, rt, &last)?, Some(509));
    Ok(last)
}

// The list of lists of a type, 245 deep.
fn listed(alloc: Global, item: Ty) -> Result<Ty, NoMemory> {
    let mut last = item;
    for _ in 0..245u8 {
        last = list(alloc, &last)?;
    }
    Ok(last)
}

// The number of a new variable, for which a type is too large.
fn refuses(trial: &mut Trial, rt: &impl Abort, alloc: Global, other: &Ty) -> Result<u32, NoMemory> {
    let number = trial.fresh(rt, 0)?;
    let large = Ty::var(alloc, number)?;
    assert_eq!(rt; too_large(trial, rt, &large, other), Some(number));
    Ok(number)
}

// A variable takes the type of 999 nodes, and no other takes its list.
fn check_limit(
    trial: &mut Trial,
    rt: &impl Abort,
    alloc: Global,
    number: u32,
    wanted: &Ty,
) -> Result<(), NoMemory> {
    let large = Ty::var(alloc, number)?;
    assert!(rt; trial.accepts(rt, &large, wanted));
    assert_eq!(rt; size_of(trial, rt, &large)?, Some(999));
    let other = list(alloc, &large)?;
    refuses(trial, rt, alloc, &other)?;
    Ok(())
}

// The types of `p x`, `p (p x)` and so on, for `p x = (x, x)`, have 5, 13, 29, 61, 125, 253, 509 and 1,021 nodes. A
// number of nodes is odd, so 999 is the greatest that is met: 509 and two for each of 245 lists.
#[test]
fn grows_to_the_limit(rt: HostRuntime) -> Result<(), Fail> {
    let alloc = rt.alloc();
    let mut trial = Trial::new(alloc);
    let last = doubled_often(&mut trial, &rt, alloc)?;
    let pair = twice(alloc, &last)?;
    let number = refuses(&mut trial, &rt, alloc, &pair)?;
    let wanted = listed(alloc, last)?;
    check_limit(&mut trial, &rt, alloc, number, &wanted)?;
    Ok(())
}
