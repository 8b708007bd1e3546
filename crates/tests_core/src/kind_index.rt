// Kind-indexed types, written out by hand.
use gh_base::fixed::EP;
use gh_base::{ListOf, NameId, NoMemory, Origin, Space, Span, TyCon};
use gh_core::{CoreType, same_type};
use gh_kernel::{Dependency, GenFun};
use gh_kind_index::{arrow, kind_indexed};
use gh_typeterm::{Kind, Ty};
use sqlite_items::Boxed;
use std::alloc::Global;
use std::process::Abort;
use std::test::Fail;

fn origin(space: Space, name: u32) -> Origin {
    Origin {
        module: NameId(900),
        space,
        name: NameId(name),
    }
}

// ---- kinds

fn star_to_star(alloc: Global) -> Result<Kind, NoMemory> {
    to(alloc, Kind::Star, Kind::Star)
}

fn to(alloc: Global, from: Kind, answer: Kind) -> Result<Kind, NoMemory> {
    let from = Boxed::new(alloc, from)?;
    let answer = Boxed::new(alloc, answer)?;
    Ok(Kind::Arrow(from, answer))
}

// ---- types

fn var(alloc: Global, x: u32) -> Result<Boxed<CoreType>, NoMemory> {
    Ok(Boxed::new(alloc, CoreType::Var(x))?)
}

fn int(alloc: Global) -> Result<Boxed<CoreType>, NoMemory> {
    Ok(Boxed::new(alloc, CoreType::Con(TyCon::Int))?)
}

fn data(alloc: Global, name: u32) -> Result<Boxed<CoreType>, NoMemory> {
    let head = TyCon::Named(origin(Space::Types, name));
    Ok(Boxed::new(alloc, CoreType::Con(head))?)
}

fn app(alloc: Global, f: Boxed<CoreType>, x: Boxed<CoreType>) -> Result<Boxed<CoreType>, NoMemory> {
    Ok(Boxed::new(alloc, CoreType::App(f, x))?)
}

fn all(
    alloc: Global,
    x: u32,
    kind: Kind,
    body: Boxed<CoreType>,
) -> Result<Boxed<CoreType>, NoMemory> {
    Ok(Boxed::new(alloc, CoreType::Forall(x, kind, body))?)
}

// `v -> Int`
fn to_int(alloc: Global, x: Boxed<CoreType>) -> Result<Boxed<CoreType>, NoMemory> {
    let answer = int(alloc)?;
    arrow(alloc, x, answer)
}

// `u -> v -> w`
fn two_arrows(
    alloc: Global,
    u: Boxed<CoreType>,
    v: Boxed<CoreType>,
    w: Boxed<CoreType>,
) -> Result<Boxed<CoreType>, NoMemory> {
    let inner = arrow(alloc, v, w)?;
    arrow(alloc, u, inner)
}

// ---- functions

fn names(alloc: Global, count: usize) -> Result<ListOf<NameId>, NoMemory> {
    let mut names = ListOf::new(alloc);
    for _ in 0..count {
        names.push(EP)?;
    }
    Ok(names)
}

fn depends(alloc: Global, on: &[u32]) -> Result<ListOf<Dependency>, NoMemory> {
    let mut dependencies = ListOf::new(alloc);
    for name in on {
        dependencies.push(Dependency {
            function: origin(Space::Values, *name),
            generic: ListOf::new(alloc),
            other: ListOf::new(alloc),
        })?;
    }
    Ok(dependencies)
}

fn function(
    alloc: Global,
    name: u32,
    generic: usize,
    other: usize,
    on: &[u32],
    base: Ty,
) -> Result<GenFun, NoMemory> {
    Ok(GenFun {
        origin: origin(Space::Values, name),
        span: Span {
            file: 1,
            from: 0,
            to: 0,
        },
        generic: names(alloc, generic)?,
        other: names(alloc, other)?,
        dependencies: depends(alloc, on)?,
        base,
        cases: ListOf::new(alloc),
    })
}

fn function_type(alloc: Global, from: Ty, answer: Ty) -> Result<Ty, NoMemory> {
    let head = Ty::app(alloc, Ty::con(alloc, TyCon::Arrow)?, from)?;
    Ty::app(alloc, head, answer)
}

// `total{|a|} :: (total) => a -> Int`
fn total(alloc: Global) -> Result<GenFun, NoMemory> {
    let base = function_type(alloc, Ty::var(alloc, 0)?, Ty::con(alloc, TyCon::Int)?)?;
    function(alloc, 1, 1, 0, &[1], base)
}

// `equal{|a, b|} :: (equal) => a -> b -> Int`
fn equal(alloc: Global) -> Result<GenFun, NoMemory> {
    let inner = function_type(alloc, Ty::var(alloc, 1)?, Ty::con(alloc, TyCon::Int)?)?;
    let base = function_type(alloc, Ty::var(alloc, 0)?, inner)?;
    function(alloc, 2, 2, 0, &[2], base)
}

// `zip{|a, b | c|} :: (zip, equal) => a -> b -> c`
fn zip(alloc: Global) -> Result<GenFun, NoMemory> {
    let inner = function_type(alloc, Ty::var(alloc, 1)?, Ty::var(alloc, 2)?)?;
    let base = function_type(alloc, Ty::var(alloc, 0)?, inner)?;
    function(alloc, 3, 2, 1, &[3, 2], base)
}

fn functions(alloc: Global) -> Result<ListOf<GenFun>, NoMemory> {
    let mut functions = ListOf::new(alloc);
    functions.push(equal(alloc)?)?;
    functions.push(total(alloc)?)?;
    functions.push(zip(alloc)?)?;
    Ok(functions)
}

// Whether this is the type of `total` at a datatype of a kind.
fn totals(alloc: Global, name: u32, kind: &Kind, wanted: &CoreType) -> Result<bool, NoMemory> {
    let function = total(alloc)?;
    let functions = functions(alloc)?;
    let mut types = ListOf::new(alloc);
    types.push(data(alloc, name)?.into_inner())?;
    let made = kind_indexed(alloc, &function, &functions, kind, &types)?;
    Ok(same_type(&made, wanted))
}

// `Main.T -> Int`
#[test]
fn at_values(rt: HostRuntime) -> Result<(), Fail> {
    let alloc = rt.alloc();
    let wanted = to_int(alloc, data(alloc, 10)?)?;
    assert!(rt; totals(alloc, 10, &Kind::Star, wanted.get())?);
    Ok(())
}

// `forall t0 : *. (t0 -> Int) -> Main.Perfect t0 -> Int`
fn wanted_at_one(alloc: Global) -> Result<Boxed<CoreType>, NoMemory> {
    let from = to_int(alloc, var(alloc, 0)?)?;
    let whole = app(alloc, data(alloc, 11)?, var(alloc, 0)?)?;
    let inner = arrow(alloc, from, to_int(alloc, whole)?)?;
    all(alloc, 0, Kind::Star, inner)
}

#[test]
fn at_one_argument(rt: HostRuntime) -> Result<(), Fail> {
    let alloc = rt.alloc();
    let wanted = wanted_at_one(alloc)?;
    let kind = star_to_star(alloc)?;
    assert!(rt; totals(alloc, 11, &kind, wanted.get())?);
    Ok(())
}

// `forall t0 : *. (t0 -> Int) -> forall t1 : *. (t1 -> Int) -> Main.P t0 t1 -> Int`: parameter by parameter
fn wanted_at_two(alloc: Global) -> Result<Boxed<CoreType>, NoMemory> {
    let head = app(alloc, data(alloc, 12)?, var(alloc, 0)?)?;
    let whole = app(alloc, head, var(alloc, 1)?)?;
    let second = to_int(alloc, var(alloc, 1)?)?;
    let inner = arrow(alloc, second, to_int(alloc, whole)?)?;
    let inner = all(alloc, 1, Kind::Star, inner)?;
    let first = to_int(alloc, var(alloc, 0)?)?;
    let inner = arrow(alloc, first, inner)?;
    all(alloc, 0, Kind::Star, inner)
}

#[test]
fn at_two_arguments(rt: HostRuntime) -> Result<(), Fail> {
    let alloc = rt.alloc();
    let wanted = wanted_at_two(alloc)?;
    let kind = to(alloc, Kind::Star, star_to_star(alloc)?)?;
    assert!(rt; totals(alloc, 12, &kind, wanted.get())?);
    Ok(())
}

// `forall t0 : * -> *. (forall t1 : *. (t1 -> Int) -> t0 t1 -> Int) -> Main.Fix t0 -> Int`
fn wanted_at_higher(alloc: Global) -> Result<Boxed<CoreType>, NoMemory> {
    let part = app(alloc, var(alloc, 0)?, var(alloc, 1)?)?;
    let from = to_int(alloc, var(alloc, 1)?)?;
    let asked = arrow(alloc, from, to_int(alloc, part)?)?;
    let asked = all(alloc, 1, Kind::Star, asked)?;
    let whole = app(alloc, data(alloc, 13)?, var(alloc, 0)?)?;
    let inner = arrow(alloc, asked, to_int(alloc, whole)?)?;
    all(alloc, 0, star_to_star(alloc)?, inner)
}

#[test]
fn at_a_higher_kind(rt: HostRuntime) -> Result<(), Fail> {
    let alloc = rt.alloc();
    let wanted = wanted_at_higher(alloc)?;
    let kind = to(alloc, star_to_star(alloc)?, Kind::Star)?;
    assert!(rt; totals(alloc, 13, &kind, wanted.get())?);
    Ok(())
}

// `forall t9 : *. forall t0 : *. forall t1 : *. (t0 -> t1 -> t9) -> (t0 -> t1 -> Int) -> Main.F t0 -> Main.G t1 -> t9`
fn wanted_of_zip(alloc: Global) -> Result<Boxed<CoreType>, NoMemory> {
    let left = app(alloc, data(alloc, 14)?, var(alloc, 0)?)?;
    let right = app(alloc, data(alloc, 15)?, var(alloc, 1)?)?;
    let answer = two_arrows(alloc, left, right, var(alloc, 9)?)?;
    let second = two_arrows(alloc, var(alloc, 0)?, var(alloc, 1)?, int(alloc)?)?;
    let first = two_arrows(alloc, var(alloc, 0)?, var(alloc, 1)?, var(alloc, 9)?)?;
    let inner = two_arrows(alloc, first, second, answer)?;
    let inner = all(alloc, 1, Kind::Star, inner)?;
    let inner = all(alloc, 0, Kind::Star, inner)?;
    all(alloc, 9, Kind::Star, inner)
}

fn zips(alloc: Global, wanted: &CoreType) -> Result<bool, NoMemory> {
    let function = zip(alloc)?;
    let functions = functions(alloc)?;
    let mut types = ListOf::new(alloc);
    types.push(data(alloc, 14)?.into_inner())?;
    types.push(data(alloc, 15)?.into_inner())?;
    let kind = star_to_star(alloc)?;
    let made = kind_indexed(alloc, &function, &functions, &kind, &types)?;
    Ok(same_type(&made, wanted))
}

#[test]
fn two_generic_variables_and_another(rt: HostRuntime) -> Result<(), Fail> {
    let alloc = rt.alloc();
    let wanted = wanted_of_zip(alloc)?;
    assert!(rt; zips(alloc, wanted.get())?);
    Ok(())
}

// New variables are none of the types': `total` at `t0 : * -> *` free
fn at_free_variable(alloc: Global) -> Result<bool, NoMemory> {
    let function = total(alloc)?;
    let functions = functions(alloc)?;
    let mut types = ListOf::new(alloc);
    types.push(CoreType::Var(0))?;
    let kind = star_to_star(alloc)?;
    let made = kind_indexed(alloc, &function, &functions, &kind, &types)?;
    let whole = app(alloc, var(alloc, 0)?, var(alloc, 5)?)?;
    let from = to_int(alloc, var(alloc, 5)?)?;
    let inner = arrow(alloc, from, to_int(alloc, whole)?)?;
    let wanted = all(alloc, 5, Kind::Star, inner)?;
    Ok(same_type(&made, wanted.get()))
}

#[test]
fn new_variables(rt: HostRuntime) -> Result<(), Fail> {
    let alloc = rt.alloc();
    assert!(rt; at_free_variable(alloc)?);
    Ok(())
}
