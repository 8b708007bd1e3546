// Small cases, worked out by hand.
use gh_base::{ListOf, NameId, NoMemory, Origin, Space, Span, TyCon};
use gh_core::{
    CoreAlt, CoreName, CoreProgram, CoreTerm, CoreType, Def, Erased, ErasedAlt, ErasedTerm,
    erase_core, same_type,
};
use gh_typeterm::{DeclCon, DeclData, Kind};
use sqlite_items::Boxed;
use std::alloc::Global;
use std::test::Fail;

// A type applied to a variable.
fn applied(
    alloc: Global,
    function: Boxed<CoreType>,
    argument: u32,
) -> Result<Boxed<CoreType>, NoMemory> {
    let argument = Boxed::new(alloc, CoreType::Var(argument))?;
    Ok(Boxed::new(alloc, CoreType::App(function, argument))?)
}

// `forall a. forall b. b -> c`, with these numbers for `a`, `b` and `c`
fn quantified(alloc: Global, numbers: (u32, u32, u32)) -> Result<Boxed<CoreType>, NoMemory> {
    let (a, b, last) = numbers;
    let arrow = Boxed::new(alloc, CoreType::Con(TyCon::Arrow))?;
    let from = applied(alloc, arrow, b)?;
    let function = applied(alloc, from, last)?;
    let inner = Boxed::new(alloc, CoreType::Forall(b, Kind::Star, function))?;
    Ok(Boxed::new(alloc, CoreType::Forall(a, Kind::Star, inner))?)
}

// Whether two such types are the same.
fn same_quantified(
    alloc: Global,
    left: (u32, u32, u32),
    right: (u32, u32, u32),
) -> Result<bool, NoMemory> {
    let left = quantified(alloc, left)?;
    let right = quantified(alloc, right)?;
    Ok(same_type(left.get(), right.get()))
}

#[test]
fn compares_types(rt: HostRuntime) -> Result<(), Fail> {
    let alloc = rt.alloc();
    let pairs = [
        ((0, 1, 0), (7, 3, 7), true),
        ((0, 1, 0), (1, 0, 1), true),
        ((0, 1, 0), (0, 1, 1), false),
        ((0, 1, 0), (0, 0, 0), false),
        ((0, 1, 0), (0, 1, 2), false),
        ((4, 1, 2), (5, 6, 2), true),
    ];
    for (left, right, are_same) in pairs {
        assert_eq!(rt;
            same_quantified(alloc, left, right)?,
            are_same,
            "{left:?} and {right:?}"
        );
    }
    Ok(())
}

#[test]
fn compares_leaves(rt: HostRuntime) -> Result<(), Fail> {
    assert!(rt; same_type(&CoreType::Var(4), &CoreType::Var(4)));
    assert!(rt; !same_type(&CoreType::Var(4), &CoreType::Var(5)));
    assert!(rt; !same_type(&CoreType::Any(Kind::Star), &CoreType::Con(TyCon::Int)));
    assert!(rt; same_type(&CoreType::Any(Kind::Star), &CoreType::Any(Kind::Star)));
    Ok(())
}

fn value(name: u32) -> Origin {
    Origin {
        module: NameId(48),
        space: Space::Values,
        name: NameId(name),
    }
}

fn declared(alloc: Global, name: u32, is_newtype: bool) -> Result<DeclData, NoMemory> {
    let mut constructors = ListOf::new(alloc);
    constructors.push(DeclCon {
        origin: value(name),
        fields: ListOf::new(alloc),
    })?;
    Ok(DeclData {
        origin: value(7),
        is_newtype,
        params: ListOf::new(alloc),
        constructors,
    })
}

// `case x of { C z -> z; else stop }`
fn case(alloc: Global, place: Span) -> Result<Boxed<CoreTerm>, NoMemory> {
    let mut names = ListOf::new(alloc);
    names.push(3)?;
    let mut alternatives = ListOf::new(alloc);
    alternatives.push(CoreAlt::Con(value(1), names, CoreTerm::Var(3)))?;
    let scrutinee = Boxed::new(alloc, CoreTerm::Var(1))?;
    let stop = Boxed::new(alloc, CoreTerm::Stop(place, CoreType::Con(TyCon::Int)))?;
    let int = CoreType::Con(TyCon::Int);
    Ok(Boxed::new(
        alloc,
        CoreTerm::Case(scrutinee, int, alternatives, Some(stop)),
    )?)
}

// `\t -> \(x : t) -> letrec y : Int = 5 in case x of { C z -> z; else stop }`, applied to a type
fn function(alloc: Global, place: Span) -> Result<CoreTerm, NoMemory> {
    let case = case(alloc, place)?;
    let mut bindings = ListOf::new(alloc);
    bindings.push((2, CoreType::Con(TyCon::Int), CoreTerm::Int(5)))?;
    let bound = Boxed::new(alloc, CoreTerm::LetRec(bindings, case))?;
    let inner = Boxed::new(alloc, CoreTerm::Lam(1, CoreType::Var(0), bound))?;
    let outer = Boxed::new(alloc, CoreTerm::TyLam(0, Kind::Star, inner))?;
    Ok(CoreTerm::TyApp(outer, CoreType::Con(TyCon::Char)))
}

fn program(alloc: Global, place: Span) -> Result<Boxed<CoreProgram>, NoMemory> {
    let mut decls = ListOf::new(alloc);
    decls.push(declared(alloc, 1, false)?)?;
    decls.push(declared(alloc, 2, true)?)?;
    let term = function(alloc, place)?;
    let mut defs = ListOf::new(alloc);
    defs.push(Def {
        name: CoreName::Plain(value(9)),
        ty: CoreType::Con(TyCon::Int),
        term,
    })?;
    let main = CoreTerm::Global(CoreName::Plain(value(9)));
    Ok(Boxed::new(alloc, CoreProgram { decls, defs, main })?)
}

#[test]
fn erases(rt: HostRuntime) -> Result<(), Fail> {
    let alloc = rt.alloc();
    let place = Span {
        file: 1,
        from: 2,
        to: 3,
    };
    let erased = erased(alloc, place)?;
    assert!(rt; is_erased(erased.get(), place));
    Ok(())
}

fn erased(alloc: Global, place: Span) -> Result<Boxed<Erased>, NoMemory> {
    let program = program(alloc, place)?;
    let erased = erase_core(alloc, program.get())?;
    Ok(Boxed::new(alloc, erased)?)
}

// What is left of the program.
fn is_erased(erased: &Erased, place: Span) -> bool {
    let defs = erased.defs.as_slice();
    erased.newtypes.as_slice() == [value(2)].as_slice()
        && is_global(&erased.main)
        && defs.len() == 1
        && defs[0].0 == CoreName::Plain(value(9))
        && is_function(&defs[0].1, place)
}

fn is_global(term: &ErasedTerm) -> bool {
    match term {
        ErasedTerm::Global(name) => *name == CoreName::Plain(value(9)),
        _ => false,
    }
}

fn is_function(term: &ErasedTerm, place: Span) -> bool {
    match term {
        ErasedTerm::Lam(name, body) => *name == 1 && is_body(body.get(), place),
        _ => false,
    }
}

// `letrec y = 5 in case x of { C z -> z; else stop }`
fn is_body(term: &ErasedTerm, place: Span) -> bool {
    match term {
        ErasedTerm::LetRec(bindings, case) => {
            let bindings = bindings.as_slice();
            bindings.len() == 1 && is_binding(&bindings[0]) && is_case(case.get(), place)
        }
        _ => false,
    }
}

fn is_binding(binding: &(u32, ErasedTerm)) -> bool {
    match &binding.1 {
        ErasedTerm::Int(number) => binding.0 == 2 && *number == 5,
        _ => false,
    }
}

fn is_case(term: &ErasedTerm, place: Span) -> bool {
    match term {
        ErasedTerm::Case(scrutinee, alternatives, otherwise) => {
            let alternatives = alternatives.as_slice();
            is_variable(scrutinee.get(), 1)
                && alternatives.len() == 1
                && is_alternative(&alternatives[0])
                && is_stop(otherwise, place)
        }
        _ => false,
    }
}

fn is_variable(term: &ErasedTerm, number: u32) -> bool {
    match term {
        ErasedTerm::Var(name) => *name == number,
        _ => false,
    }
}

fn is_alternative(alternative: &ErasedAlt) -> bool {
    match alternative {
        ErasedAlt::Con(con, names, term) => {
            *con == value(1) && names.as_slice() == [3].as_slice() && is_variable(term, 3)
        }
        _ => false,
    }
}

fn is_stop(term: &Option<Boxed<ErasedTerm>>, place: Span) -> bool {
    match term {
        Some(term) => match term.get() {
            ErasedTerm::Stop(at) => *at == place,
            _ => false,
        },
        None => false,
    }
}
