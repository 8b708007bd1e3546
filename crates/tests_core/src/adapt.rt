// Conversions: each call succeeds with memory, and what they do, run on the machine. Results worked out by hand.
use gh_adapt::{adapter, bimap_term, from_term, to_term};
use gh_base::fixed::{CON, CONS, EP, LIST, NIL, PRELUDE};
use gh_base::{ListOf, NameId, NoMemory, Origin, Space, TyCon};
use gh_core::{CoreName, CoreProgram, CoreTerm, CoreType, Def, erase_core};
use gh_machine::{Machine, Turn};
use gh_typeterm::{DeclCon, DeclData, Kind, Ty};
use sqlite_items::Boxed;
use std::alloc::Global;
use std::process::Abort;
use std::test::Fail;

fn prelude(space: Space, name: NameId) -> Origin {
    Origin {
        module: PRELUDE,
        space,
        name,
    }
}

fn list_type() -> TyCon {
    TyCon::Named(prelude(Space::Types, LIST))
}

fn char_type() -> CoreType {
    CoreType::Con(TyCon::Char)
}

fn strings(alloc: Global) -> Result<CoreType, NoMemory> {
    let head = Boxed::new(alloc, CoreType::Con(list_type()))?;
    Ok(CoreType::App(head, Boxed::new(alloc, char_type())?))
}

// ---- datatypes

fn data(
    alloc: Global,
    name: NameId,
    is_newtype: bool,
    constructors: ListOf<DeclCon>,
) -> Result<DeclData, NoMemory> {
    let mut params = ListOf::new(alloc);
    params.push(Kind::Star)?;
    Ok(DeclData {
        origin: prelude(Space::Types, name),
        is_newtype,
        params,
        constructors,
    })
}

// `data List a = Nil | Cons a (List a)`
fn list(alloc: Global) -> Result<DeclData, NoMemory> {
    let mut fields = ListOf::new(alloc);
    fields.push(Ty::var(alloc, 0)?)?;
    fields.push(lists(alloc)?)?;
    let mut constructors = ListOf::new(alloc);
    constructors.push(DeclCon {
        origin: prelude(Space::Values, NIL),
        fields: ListOf::new(alloc),
    })?;
    constructors.push(DeclCon {
        origin: prelude(Space::Values, CONS),
        fields,
    })?;
    data(alloc, LIST, false, constructors)
}

// `newtype Con a = Con a`, the layer of a constructor
fn layer(alloc: Global) -> Result<DeclData, NoMemory> {
    let mut fields = ListOf::new(alloc);
    fields.push(Ty::var(alloc, 0)?)?;
    let mut constructors = ListOf::new(alloc);
    constructors.push(DeclCon {
        origin: prelude(Space::Values, CON),
        fields,
    })?;
    data(alloc, CON, true, constructors)
}

// `List a`
fn lists(alloc: Global) -> Result<Ty, NoMemory> {
    Ty::app(alloc, Ty::con(alloc, list_type())?, Ty::var(alloc, 0)?)
}

// `a -> a`
fn functions(alloc: Global) -> Result<Ty, NoMemory> {
    let head = Ty::app(alloc, Ty::con(alloc, TyCon::Arrow)?, Ty::var(alloc, 0)?)?;
    Ty::app(alloc, head, Ty::var(alloc, 0)?)
}

// ---- terms

fn app(alloc: Global, f: CoreTerm, e: CoreTerm) -> Result<CoreTerm, NoMemory> {
    Ok(CoreTerm::App(Boxed::new(alloc, f)?, Boxed::new(alloc, e)?))
}

fn text(alloc: Global, chars: &[char]) -> Result<CoreTerm, NoMemory> {
    Ok(CoreTerm::Str(ListOf::from_slice(alloc, chars)?))
}

// `\c -> 'q'`, or another character
fn always(alloc: Global, c: char) -> Result<CoreTerm, NoMemory> {
    Ok(CoreTerm::Lam(0, char_type(), Boxed::new(alloc, CoreTerm::Char(c))?))
}

// `\s -> 'm' : s`, or another character
fn before(alloc: Global, c: char) -> Result<CoreTerm, NoMemory> {
    let head = CoreTerm::Con(prelude(Space::Values, CONS));
    let cell = app(alloc, head, CoreTerm::Char(c))?;
    let whole = app(alloc, cell, CoreTerm::Var(0))?;
    Ok(CoreTerm::Lam(0, strings(alloc)?, Boxed::new(alloc, whole)?))
}

fn pairs(alloc: Global, forth: CoreTerm, back: CoreTerm) -> Result<ListOf<CoreTerm>, NoMemory> {
    let head = CoreTerm::Con(prelude(Space::Values, EP));
    let mut pairs = ListOf::new(alloc);
    pairs.push(app(alloc, app(alloc, head, forth)?, back)?)?;
    Ok(pairs)
}

// The conversion at a base type of one generic variable with this pair.
fn conversion(alloc: Global, base: &Ty, pairs: &ListOf<CoreTerm>) -> Result<CoreTerm, NoMemory> {
    let mut types = ListOf::new(alloc);
    types.push((char_type(), char_type()))?;
    let others = ListOf::new(alloc);
    adapter(alloc, base, &types, &others, pairs)
}

// ---- runs

// A program with lists, and with the pair of conversions of lists.
fn program(alloc: Global, main: CoreTerm) -> Result<Boxed<CoreProgram>, NoMemory> {
    let mut decls = ListOf::new(alloc);
    decls.push(layer(alloc)?)?;
    decls.push(list(alloc)?)?;
    let mut defs = ListOf::new(alloc);
    let decl = list(alloc)?;
    defs.push(Def {
        name: CoreName::Bimap(list_type()),
        ty: char_type(),
        term: bimap_term(alloc, &decl)?,
    })?;
    Ok(Boxed::new(alloc, CoreProgram { decls, defs, main })?)
}

fn prints(rt: &impl Abort, alloc: Global, main: CoreTerm, whole: &[u8]) -> Result<(), NoMemory> {
    let program = program(alloc, main)?;
    let erased = erase_core(alloc, program.get())?;
    let mut machine = Machine::new(alloc, &erased)?;
    machine.reserve(1000)?;
    let turn = machine.steps(1000);
    assert!(rt; turn == Turn::Ended);
    assert!(rt; machine.pending() == whole);
    Ok(())
}

// Each character of a list is converted back.
#[test]
fn converts_lists(rt: HostRuntime) -> Result<(), Fail> {
    let a = rt.alloc();
    let pairs = pairs(a, always(a, 'f')?, always(a, 'b')?)?;
    let base = lists(a)?;
    let main = app(a, conversion(a, &base, &pairs)?, text(a, &['x', 'y'])?)?;
    prints(&rt, a, main, b"bb")?;
    Ok(())
}

// A function that adds a mark to its text, converted at the base type of functions by a pair that adds one each way.
fn converted_function(alloc: Global) -> Result<CoreTerm, NoMemory> {
    let pairs = pairs(alloc, before(alloc, 'f')?, before(alloc, 'b')?)?;
    let base = functions(alloc)?;
    let conversion = conversion(alloc, &base, &pairs)?;
    app(alloc, conversion, before(alloc, 'm')?)
}

// What a function is given is converted forth, and what it answers back.
#[test]
fn converts_functions(rt: HostRuntime) -> Result<(), Fail> {
    let a = rt.alloc();
    let main = app(a, converted_function(a)?, text(a, &['z'])?)?;
    prints(&rt, a, main, b"bmfz")?;
    Ok(())
}

// Into the representation and out of it.
#[test]
fn converts_there_and_back(rt: HostRuntime) -> Result<(), Fail> {
    let a = rt.alloc();
    let decl = list(a)?;
    let there = app(a, from_term(a, &decl)?, text(a, &['x', 'y'])?)?;
    let main = app(a, to_term(a, &decl)?, there)?;
    prints(&rt, a, main, b"xy")?;
    Ok(())
}
