//! Prints how long the machine takes for a counting loop, walks through a list of 100,000 cells, a list that is printed without end,
//! deep unevaluated terms, and a difference that waits for itself. The word `go` means all of them at doubling numbers of reductions,
//! and the name of one of them means that one alone. Without a word it prints nothing.
#![tactic(auto)]

use gh_base::fixed::{CONS, EQUAL, FALSE, MAIN, MAIN_MODULE, MINUS, NIL, PRELUDE, TRUE};
use gh_base::{ListOf, NameId, NoMemory, Origin, Space, Span};
use gh_core::{CoreName, Erased, ErasedAlt, ErasedTerm};
use gh_machine::{Machine, Turn};
use sqlite_items::Boxed;
use std::alloc::Global;
use std::rt::{Clock, Env};
use std::time::Instant;
use std::{env, io};

const PLACE: Span = Span {
    file: 1,
    from: 0,
    to: 0,
};

#[derive(Clone, Copy)]
enum Shape {
    /// `loop = \n -> case n of { 0 -> loop 1; 1 -> loop 2; 2 -> loop 0 }`.
    Loop,
    /// `loop = \xs -> case xs of { _ : rest -> loop rest; [] -> loop "aa.." }`, with 100,000 characters.
    List,
    /// `loop = letrec xs = 'a' : xs in xs`.
    Print,
    /// `loop = \n -> case n == 0 of { True -> []; False -> loop (n - 1) }`, where each `n` is the next one's, less 1.
    Deep,
    /// `loop = loop - 1`, where ever more waits.
    Stack,
}

impl Shape {
    fn name(self) -> &'static str {
        match self {
            Shape::Loop => "loop",
            Shape::List => "list",
            Shape::Print => "print",
            Shape::Deep => "deep",
            Shape::Stack => "stack",
        }
    }
}

fn value(module: NameId, name: NameId) -> Origin {
    Origin {
        module,
        space: Space::Values,
        name,
    }
}

fn boxed(alloc: Global, term: ErasedTerm) -> Result<Boxed<ErasedTerm>, NoMemory> {
    Ok(Boxed::new(alloc, term)?)
}

fn prelude(alloc: Global, name: NameId) -> Result<Boxed<ErasedTerm>, NoMemory> {
    boxed(alloc, ErasedTerm::Con(value(PRELUDE, name)))
}

fn global(alloc: Global) -> Result<Boxed<ErasedTerm>, NoMemory> {
    boxed(
        alloc,
        ErasedTerm::Global(CoreName::Plain(value(MAIN_MODULE, MAIN))),
    )
}

fn var(alloc: Global, number: u32) -> Result<Boxed<ErasedTerm>, NoMemory> {
    boxed(alloc, ErasedTerm::Var(number))
}

fn int(alloc: Global, number: i64) -> Result<Boxed<ErasedTerm>, NoMemory> {
    boxed(alloc, ErasedTerm::Int(number))
}

fn app(
    alloc: Global,
    f: Boxed<ErasedTerm>,
    e: Boxed<ErasedTerm>,
) -> Result<Boxed<ErasedTerm>, NoMemory> {
    boxed(alloc, ErasedTerm::App(f, e))
}

// The definition at an argument.
fn call(alloc: Global, argument: Boxed<ErasedTerm>) -> Result<Boxed<ErasedTerm>, NoMemory> {
    let function = global(alloc)?;
    app(alloc, function, argument)
}

fn lam(alloc: Global, body: Boxed<ErasedTerm>) -> Result<Boxed<ErasedTerm>, NoMemory> {
    boxed(alloc, ErasedTerm::Lam(0, body))
}

// A primitive on two operands.
fn binary(
    alloc: Global,
    name: NameId,
    first: Boxed<ErasedTerm>,
    second: Boxed<ErasedTerm>,
) -> Result<Boxed<ErasedTerm>, NoMemory> {
    let primitive = boxed(alloc, ErasedTerm::Prim(value(PRELUDE, name), PLACE))?;
    let partial = app(alloc, primitive, first)?;
    app(alloc, partial, second)
}

// A function that chooses by the form of a term.
fn choosing(
    alloc: Global,
    of: Boxed<ErasedTerm>,
    alternatives: ListOf<ErasedAlt>,
) -> Result<Boxed<ErasedTerm>, NoMemory> {
    let case = boxed(alloc, ErasedTerm::Case(of, alternatives, None))?;
    lam(alloc, case)
}

// An alternative for a constructor of the Prelude.
fn alternative(
    alloc: Global,
    name: NameId,
    fields: &[u32],
    body: Boxed<ErasedTerm>,
) -> Result<ErasedAlt, NoMemory> {
    let fields = ListOf::from_slice(alloc, fields)?;
    Ok(ErasedAlt::Con(value(PRELUDE, name), fields, body.into_inner()))
}

fn turn(alloc: Global, from: i64, to: i64) -> Result<ErasedAlt, NoMemory> {
    let next = int(alloc, to)?;
    Ok(ErasedAlt::Int(from, call(alloc, next)?.into_inner()))
}

fn looping(alloc: Global) -> Result<Boxed<ErasedTerm>, NoMemory> {
    let mut alternatives = ListOf::new(alloc);
    for (from, to) in [(0, 1), (1, 2), (2, 0)] {
        alternatives.push(turn(alloc, from, to)?)?;
    }
    let of = var(alloc, 0)?;
    choosing(alloc, of, alternatives)
}

fn characters(alloc: Global) -> Result<Boxed<ErasedTerm>, NoMemory> {
    let mut chars = ListOf::new(alloc);
    for _ in 0..100_000 {
        chars.push('a')?;
    }
    boxed(alloc, ErasedTerm::Str(chars))
}

fn cell_of_walking(alloc: Global) -> Result<ErasedAlt, NoMemory> {
    let rest = var(alloc, 2)?;
    let body = call(alloc, rest)?;
    alternative(alloc, CONS, &[1, 2], body)
}

fn end_of_walking(alloc: Global) -> Result<ErasedAlt, NoMemory> {
    let chars = characters(alloc)?;
    let body = call(alloc, chars)?;
    alternative(alloc, NIL, &[], body)
}

fn walks(alloc: Global) -> Result<ListOf<ErasedAlt>, NoMemory> {
    let mut alternatives = ListOf::new(alloc);
    alternatives.push(cell_of_walking(alloc)?)?;
    alternatives.push(end_of_walking(alloc)?)?;
    Ok(alternatives)
}

fn walking(alloc: Global) -> Result<Boxed<ErasedTerm>, NoMemory> {
    let alternatives = walks(alloc)?;
    let of = var(alloc, 0)?;
    choosing(alloc, of, alternatives)
}

fn endless(alloc: Global) -> Result<Boxed<ErasedTerm>, NoMemory> {
    let cons = prelude(alloc, CONS)?;
    let item = boxed(alloc, ErasedTerm::Char('a'))?;
    let head = app(alloc, cons, item)?;
    let tail = var(alloc, 0)?;
    app(alloc, head, tail)
}

fn printing(alloc: Global) -> Result<Boxed<ErasedTerm>, NoMemory> {
    let list = endless(alloc)?;
    let mut bindings = ListOf::new(alloc);
    bindings.push((0, list.into_inner()))?;
    let body = var(alloc, 0)?;
    boxed(alloc, ErasedTerm::LetRec(bindings, body))
}

// A primitive on the variable and a number.
fn with_number(alloc: Global, name: NameId, number: i64) -> Result<Boxed<ErasedTerm>, NoMemory> {
    let first = var(alloc, 0)?;
    let second = int(alloc, number)?;
    binary(alloc, name, first, second)
}

fn end_of_deep(alloc: Global) -> Result<ErasedAlt, NoMemory> {
    let body = prelude(alloc, NIL)?;
    alternative(alloc, TRUE, &[], body)
}

fn further(alloc: Global) -> Result<ErasedAlt, NoMemory> {
    let less = with_number(alloc, MINUS, 1)?;
    let body = call(alloc, less)?;
    alternative(alloc, FALSE, &[], body)
}

fn depths(alloc: Global) -> Result<ListOf<ErasedAlt>, NoMemory> {
    let mut alternatives = ListOf::new(alloc);
    alternatives.push(end_of_deep(alloc)?)?;
    alternatives.push(further(alloc)?)?;
    Ok(alternatives)
}

fn deep(alloc: Global) -> Result<Boxed<ErasedTerm>, NoMemory> {
    let alternatives = depths(alloc)?;
    let test = with_number(alloc, EQUAL, 0)?;
    choosing(alloc, test, alternatives)
}

fn one_less(alloc: Global) -> Result<Boxed<ErasedTerm>, NoMemory> {
    let all = global(alloc)?;
    let one = int(alloc, 1)?;
    binary(alloc, MINUS, all, one)
}

fn definition(alloc: Global, shape: Shape) -> Result<Boxed<ErasedTerm>, NoMemory> {
    match shape {
        Shape::Loop => looping(alloc),
        Shape::List => walking(alloc),
        Shape::Print => printing(alloc),
        Shape::Deep => deep(alloc),
        Shape::Stack => one_less(alloc),
    }
}

fn start_at(alloc: Global, number: i64) -> Result<Boxed<ErasedTerm>, NoMemory> {
    let number = int(alloc, number)?;
    call(alloc, number)
}

fn start_at_nil(alloc: Global) -> Result<Boxed<ErasedTerm>, NoMemory> {
    let nil = prelude(alloc, NIL)?;
    call(alloc, nil)
}

fn start(alloc: Global, shape: Shape) -> Result<Boxed<ErasedTerm>, NoMemory> {
    match shape {
        Shape::Loop => start_at(alloc, 0),
        Shape::List => start_at_nil(alloc),
        Shape::Print | Shape::Stack => global(alloc),
        Shape::Deep => start_at(alloc, 1_000_000_000),
    }
}

fn program(alloc: Global, shape: Shape) -> Result<Erased, NoMemory> {
    let main = start(alloc, shape)?;
    let term = definition(alloc, shape)?;
    let mut defs = ListOf::new(alloc);
    defs.push((CoreName::Plain(value(MAIN_MODULE, MAIN)), term.into_inner()))?;
    Ok(Erased {
        newtypes: ListOf::new(alloc),
        defs,
        main: main.into_inner(),
    })
}

// How many bytes were printed after so many thousand reductions.
fn printed(alloc: Global, program: &Erased, thousands: u32) -> Result<u64, NoMemory> {
    let mut machine = Machine::new(alloc, program)?;
    let mut bytes: u64 = 0;
    for _ in 0..thousands {
        machine.reserve(1000)?;
        if machine.steps(1000) != Turn::Running {
            return Ok(bytes);
        }
        bytes = bytes.wrapping_add(machine.pending().len() as u64);
        machine.clear();
    }
    Ok(bytes)
}

fn measure<R: Clock + Print>(
    rt: &R,
    alloc: Global,
    shape: Shape,
    thousands: u32,
) -> io::Result<()> {
    let program = match program(alloc, shape) {
        Ok(program) => program,
        Err(NoMemory) => return rt.println("no memory"),
    };
    let start = Instant::now(rt)?;
    let bytes = match printed(alloc, &program, thousands) {
        Ok(bytes) => bytes,
        Err(NoMemory) => return rt.println("no memory"),
    };
    let time = start.elapsed(rt)?.as_millis();
    let name = shape.name();
    println!(rt; "{name}: {thousands}000 reductions, {bytes} bytes printed, {time} ms")
}

fn run<R: Clock + Print>(rt: &R, alloc: Global, word: &str) -> io::Result<()> {
    for shape in [
        Shape::Loop,
        Shape::List,
        Shape::Print,
        Shape::Deep,
        Shape::Stack,
    ] {
        if word == "go" {
            for thousands in [250, 500, 1000] {
                measure(rt, alloc, shape, thousands)?;
            }
        }
        if word == "go" || word == shape.name() {
            measure(rt, alloc, shape, 2000)?;
        }
    }
    Ok(())
}

fn main(rt: HostRuntime) -> io::Result<()> {
    for word in env::args(&rt)?.skip(1) {
        run(&rt, rt.alloc(), word.as_str())?;
    }
    Ok(())
}
