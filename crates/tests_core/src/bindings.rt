// A small program, worked out by hand.
use gh_base::fixed::{APPEND, MAIN, MAIN_MODULE, PRELUDE};
use gh_base::{ListOf, NameId, NoMemory, Origin, Space, Span, TyCon};
use gh_bindings::{Binding, Operand, core_of};
use gh_core::{CoreName, CoreProgram, CoreTerm, CoreType};
use sqlite_items::Boxed;
use std::alloc::Global;
use std::test::Fail;

const PLACE: Span = Span {
    file: 1,
    from: 20,
    to: 31,
};

fn value(module: NameId, name: NameId) -> CoreName {
    CoreName::Plain(Origin {
        module,
        space: Space::Values,
        name,
    })
}

// `main = "a" ++ main`
fn binding(alloc: Global) -> Result<Binding, NoMemory> {
    let mut operands = ListOf::new(alloc);
    operands.push(Operand::Text(ListOf::from_slice(alloc, &['a'])?))?;
    operands.push(Operand::Name(MAIN, PLACE))?;
    Ok(Binding {
        name: MAIN,
        span: PLACE,
        operands,
    })
}

fn is_global(term: &CoreTerm, wanted: CoreName) -> bool {
    match term {
        CoreTerm::Global(name) => *name == wanted,
        _ => false,
    }
}

fn is_text(term: &CoreTerm) -> bool {
    match term {
        CoreTerm::Str(chars) => chars.as_slice() == ['a'].as_slice(),
        _ => false,
    }
}

// `++` at the type of characters
fn is_append(term: &CoreTerm) -> bool {
    match term {
        CoreTerm::TyApp(function, CoreType::Con(TyCon::Char)) => {
            is_global(function.get(), value(PRELUDE, APPEND))
        }
        _ => false,
    }
}

fn is_joined(term: &CoreTerm) -> bool {
    match term {
        CoreTerm::App(partial, right) => {
            is_begun(partial.get()) && is_global(right.get(), value(MAIN_MODULE, MAIN))
        }
        _ => false,
    }
}

// `++` with its first operand
fn is_begun(term: &CoreTerm) -> bool {
    match term {
        CoreTerm::App(function, left) => is_append(function.get()) && is_text(left.get()),
        _ => false,
    }
}

fn core(alloc: Global) -> Result<Boxed<CoreProgram>, NoMemory> {
    let mut bindings = ListOf::new(alloc);
    bindings.push(binding(alloc)?)?;
    let core = core_of(alloc, bindings.as_slice())?;
    Ok(Boxed::new(alloc, core)?)
}

// The program of core with the definition of `++` and that of `main`.
fn is_core(core: &CoreProgram) -> bool {
    let defs = core.defs.as_slice();
    core.decls.as_slice().len() == 1
        && is_global(&core.main, value(MAIN_MODULE, MAIN))
        && defs.len() == 2
        && defs[0].name == value(PRELUDE, APPEND)
        && defs[1].name == value(MAIN_MODULE, MAIN)
        && is_joined(&defs[1].term)
}

#[test]
fn joins_operands(rt: HostRuntime) -> Result<(), Fail> {
    let core = core(rt.alloc())?;
    assert!(rt; is_core(core.get()));
    Ok(())
}
