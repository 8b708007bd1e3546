// Runs worked out by hand, cut at every number of reductions.
ghost use Rattle.std.specs.Prelude.{◌≤◌, ◌<◌, ◌+◌, length};

use gh_base::fixed::{
    CHR, CON, CONS, EQ_CHAR, EQUAL, ERROR, FALSE, LESS, MAIN, MAIN_MODULE, MINUS, NIL, ORD, PLUS,
    PRELUDE, QUOT, REM, SHOW_INT, TIMES, TRUE,
};
use gh_base::{ListOf, NameId, NoMemory, Origin, Space, Span};
use gh_core::{CoreName, Erased, ErasedAlt, ErasedTerm};
use gh_machine::{Machine, Stop, StopCause, Turn};
use sqlite_items::Boxed;
use std::alloc::Global;
use std::process::Abort;
use std::test::Fail;

const PLACE: Span = Span {
    file: 1,
    from: 4,
    to: 9,
};

fn value(module: NameId, name: NameId) -> Origin {
    Origin {
        module,
        space: Space::Values,
        name,
    }
}

fn con(name: NameId) -> ErasedTerm {
    ErasedTerm::Con(value(PRELUDE, name))
}

fn app(alloc: Global, f: ErasedTerm, e: ErasedTerm) -> Result<ErasedTerm, NoMemory> {
    Ok(ErasedTerm::App(Boxed::new(alloc, f)?, Boxed::new(alloc, e)?))
}

fn lam(alloc: Global, name: u32, body: ErasedTerm) -> Result<ErasedTerm, NoMemory> {
    Ok(ErasedTerm::Lam(name, Boxed::new(alloc, body)?))
}

fn text(alloc: Global, chars: &[char]) -> Result<ErasedTerm, NoMemory> {
    Ok(ErasedTerm::Str(ListOf::from_slice(alloc, chars)?))
}

fn prim(name: NameId) -> ErasedTerm {
    ErasedTerm::Prim(value(PRELUDE, name), PLACE)
}

// A primitive on two integers.
fn sum(alloc: Global, name: NameId, first: i64, second: i64) -> Result<ErasedTerm, NoMemory> {
    let half = app(alloc, prim(name), ErasedTerm::Int(first))?;
    app(alloc, half, ErasedTerm::Int(second))
}

fn cell(alloc: Global, head: ErasedTerm, rest: ErasedTerm) -> Result<ErasedTerm, NoMemory> {
    app(alloc, app(alloc, con(CONS), head)?, rest)
}

fn main_name() -> CoreName {
    CoreName::Plain(value(MAIN_MODULE, MAIN))
}

// A program with the newtype's constructor `Con` and the definition `main = "a"`, that runs this.
fn program(alloc: Global, main: ErasedTerm) -> Result<Erased, NoMemory> {
    let newtypes = ListOf::from_slice(alloc, &[value(PRELUDE, CON)])?;
    let mut defs = ListOf::new(alloc);
    defs.push((main_name(), text(alloc, &['a'])?))?;
    Ok(Erased {
        newtypes,
        defs,
        main,
    })
}

// The machine has printed so many bytes of the whole.
fn printed(rt: &impl Abort, machine: &Machine, bytes: usize, whole: &[u8]) {
    assert!(rt; machine.pending().len() == bytes);
    assert!(rt; whole.starts_with(machine.pending()));
}

// A run of so many reductions at once, its bytes written out, and then the others at once.
fn two_pieces(
    rt: &impl Abort,
    alloc: Global,
    program: &Erased,
    k: u32,
    more: u32,
    whole: &[u8],
    last: Turn,
) -> Result<(), NoMemory>
    requires { k + more ≤ 1000 }
{
    let mut machine = Machine::new(alloc, program)?;
    machine.reserve(k)?;
    machine.steps(k);
    let mut bytes = Vec::new(alloc);
    bytes.extend_from_slice(machine.pending())?;
    machine.clear();
    machine.reserve(more)?;
    let turn = machine.steps(more);
    assert!(rt; turn == last);
    bytes.extend_from_slice(machine.pending())?;
    assert!(rt; bytes.as_slice() == whole);
    Ok(())
}

// A run of so many reductions at once.
fn one_piece(
    rt: &impl Abort,
    alloc: Global,
    program: &Erased,
    k: u32,
    bytes: usize,
    whole: &[u8],
    turn: Turn,
) -> Result<(), NoMemory>
    requires { k ≤ 1000 }
{
    let mut machine = Machine::new(alloc, program)?;
    machine.reserve(k)?;
    let came = machine.steps(k);
    assert!(rt; came == turn);
    printed(rt, &machine, bytes, whole);
    Ok(())
}

// After each number of reductions from 0, so many bytes of the whole are printed, and the run goes on but for the last number.
fn course(
    rt: &impl Abort,
    alloc: Global,
    main: ErasedTerm,
    bytes: &[usize],
    whole: &[u8],
    last: Turn,
) -> Result<(), NoMemory>
    requires some { 0 < length bytes.now }
    requires few { length bytes.now ≤ 100 }
{
    let program = program(alloc, main)?;
    let end = bytes.len() - 1;
    let mut single = Machine::new(alloc, &program)?;
    for k in 0..bytes.len() {
        let turn = if k == end { last } else { Turn::Running };
        one_piece(rt, alloc, &program, k as u32, bytes[k], whole, turn)?;
        two_pieces(rt, alloc, &program, k as u32, (end - k) as u32, whole, last)?;
        if k > 0 {
            single.reserve(1)?;
            let came = single.steps(1);
            assert!(rt; came == turn);
        }
        printed(rt, &single, bytes[k], whole);
    }
    if last != Turn::Running {
        single.reserve(3)?;
        let stayed = single.steps(3);
        assert!(rt; stayed == last);
        printed(rt, &single, whole.len(), whole);
    }
    Ok(())
}

// A run that ends.
fn ends(
    rt: &impl Abort,
    alloc: Global,
    main: ErasedTerm,
    bytes: &[usize],
    whole: &[u8],
) -> Result<(), NoMemory>
    requires some { 0 < length bytes.now }
    requires few { length bytes.now ≤ 100 }
{
    course(rt, alloc, main, bytes, whole, Turn::Ended)
}

// A run that fails and prints nothing.
fn fails(
    rt: &impl Abort,
    alloc: Global,
    main: ErasedTerm,
    bytes: &[usize],
    cause: StopCause,
) -> Result<(), NoMemory>
    requires some { 0 < length bytes.now }
    requires few { length bytes.now ≤ 100 }
{
    course(
        rt,
        alloc,
        main,
        bytes,
        b"",
        Turn::Failed(Stop { cause, span: PLACE }),
    )
}

#[test]
fn prints(rt: HostRuntime) -> Result<(), Fail> {
    let a = rt.alloc();
    ends(&rt, a, text(a, &[])?, &[0], b"")?;
    ends(&rt, a, con(NIL), &[0], b"")?;
    ends(&rt, a, text(a, &['h', 'i'])?, &[0, 1, 2], b"hi")?;
    // Two, three and four bytes.
    let wide = text(a, &['\u{e9}', '\u{20ac}', '\u{1f600}'])?;
    ends(
        &rt,
        a,
        wide,
        &[0, 2, 5, 9],
        b"\xc3\xa9\xe2\x82\xac\xf0\x9f\x98\x80",
    )?;
    // To the cell's function twice, the character, and the string after it.
    let list = cell(a, ErasedTerm::Char('h'), text(a, &['i'])?)?;
    ends(&rt, a, list, &[0, 0, 0, 1, 2], b"hi")?;
    Ok(())
}

#[test]
fn enters(rt: HostRuntime) -> Result<(), Fail> {
    let a = rt.alloc();
    ends(&rt, a, ErasedTerm::Global(main_name()), &[0, 0, 1], b"a")?;
    let id = lam(a, 0, ErasedTerm::Var(0))?;
    ends(&rt, a, app(a, id, text(a, &['b'])?)?, &[0, 0, 0, 1], b"b")?;
    // Of equal names the inner one counts: to the function twice, and two functions are entered.
    let inner = lam(a, 0, lam(a, 0, ErasedTerm::Var(0))?)?;
    let both = app(a, app(a, inner, text(a, &['a'])?)?, text(a, &['b'])?)?;
    ends(&rt, a, both, &[0, 0, 0, 0, 0, 1], b"b")?;
    // The outer name is not lost under the inner one.
    let outer = lam(a, 0, lam(a, 1, ErasedTerm::Var(0))?)?;
    let both = app(a, app(a, outer, text(a, &['a'])?)?, text(a, &['b'])?)?;
    ends(&rt, a, both, &[0, 0, 0, 0, 0, 1], b"a")?;
    Ok(())
}

#[test]
fn computes(rt: HostRuntime) -> Result<(), Fail> {
    let a = rt.alloc();
    // To the function, to the sum, to its function twice, to both operands, the sum, its text, and the characters.
    let digits = [0, 0, 0, 0, 0, 0, 0, 0, 0, 1, 2, 3];
    let shown = app(a, prim(SHOW_INT), sum(a, PLUS, 2, -45)?)?;
    ends(&rt, a, shown, &digits, b"-43")?;
    let shown = app(a, prim(SHOW_INT), sum(a, TIMES, -11, -10)?)?;
    ends(&rt, a, shown, &digits, b"110")?;
    let digits = [0, 0, 0, 0, 0, 0, 0, 0, 0, 1, 2];
    let shown = app(a, prim(SHOW_INT), sum(a, MINUS, 7, 9)?)?;
    ends(&rt, a, shown, &digits, b"-2")?;
    let shown = app(a, prim(SHOW_INT), sum(a, QUOT, -7, 2)?)?;
    ends(&rt, a, shown, &digits, b"-3")?;
    let shown = app(a, prim(SHOW_INT), sum(a, REM, -7, 2)?)?;
    ends(&rt, a, shown, &digits, b"-1")?;
    // To the cell's function twice, to chr, to ord's application, to ord, to its operand, the number, the character, and it is printed.
    let inner = app(a, prim(ORD), ErasedTerm::Char('k'))?;
    let list = cell(a, app(a, prim(CHR), inner)?, con(NIL))?;
    ends(&rt, a, list, &[0, 0, 0, 0, 0, 0, 0, 0, 0, 1], b"k")?;
    Ok(())
}

// `case of { True -> "y"; else -> "n" }`.
fn decides(a: Global, of: ErasedTerm) -> Result<ErasedTerm, NoMemory> {
    let mut alternatives = ListOf::new(a);
    let truth = ListOf::new(a);
    alternatives.push(ErasedAlt::Con(value(PRELUDE, TRUE), truth, text(a, &['y'])?))?;
    let other = Boxed::new(a, text(a, &['n'])?)?;
    Ok(ErasedTerm::Case(Boxed::new(a, of)?, alternatives, Some(other)))
}

#[test]
fn compares(rt: HostRuntime) -> Result<(), Fail> {
    let a = rt.alloc();
    // To the scrutinee, to its function twice, to both operands, the answer, the alternative, and one character.
    let end = [0, 0, 0, 0, 0, 0, 0, 0, 1];
    ends(&rt, a, decides(a, sum(a, LESS, 2, 3)?)?, &end, b"y")?;
    ends(&rt, a, decides(a, sum(a, LESS, 3, 3)?)?, &end, b"n")?;
    ends(&rt, a, decides(a, sum(a, EQUAL, 3, 3)?)?, &end, b"y")?;
    ends(&rt, a, decides(a, sum(a, EQUAL, 3, -3)?)?, &end, b"n")?;
    let half = app(a, prim(EQ_CHAR), ErasedTerm::Char('x'))?;
    let same = app(a, half, ErasedTerm::Char('x'))?;
    ends(&rt, a, decides(a, same)?, &end, b"y")?;
    // A constructor that no alternative names: to the scrutinee, the else, and one character.
    ends(&rt, a, decides(a, con(FALSE))?, &[0, 0, 0, 1], b"n")?;
    Ok(())
}

#[test]
fn stops(rt: HostRuntime) -> Result<(), Fail> {
    let a = rt.alloc();
    fails(&rt, a, ErasedTerm::Stop(PLACE), &[0, 0], StopCause::NoMatch)?;
    // The argument of error is not evaluated.
    let called = app(a, prim(ERROR), ErasedTerm::Stop(PLACE))?;
    fails(&rt, a, called, &[0, 0, 0], StopCause::ErrorCalled)?;
    // A surrogate, the number after the last character, and a negative one.
    for number in [55296, 1_114_112, -1] {
        let letter = app(a, prim(CHR), ErasedTerm::Int(number))?;
        fails(&rt, a, letter, &[0, 0, 0, 0], StopCause::NoCharacter)?;
    }
    let end = [0, 0, 0, 0, 0, 0];
    fails(&rt, a, sum(a, QUOT, 1, 0)?, &end, StopCause::DivideByZero)?;
    fails(&rt, a, sum(a, REM, 1, 0)?, &end, StopCause::DivideByZero)?;
    // To the cell's function twice, one character, and the failure.
    let late = cell(a, ErasedTerm::Char('x'), ErasedTerm::Stop(PLACE))?;
    let failed = Turn::Failed(Stop {
        cause: StopCause::NoMatch,
        span: PLACE,
    });
    course(&rt, a, late, &[0, 0, 0, 1, 1], b"x", failed)?;
    Ok(())
}

#[test]
fn stays(rt: HostRuntime) -> Result<(), Fail> {
    let a = rt.alloc();
    // A name that nothing binds, a definition that is not there, and a number that is printed.
    let end = [0, 0, 0];
    course(&rt, a, ErasedTerm::Var(7), &end, b"", Turn::Running)?;
    let gone = ErasedTerm::Global(CoreName::Plain(value(MAIN_MODULE, NIL)));
    course(&rt, a, gone, &end, b"", Turn::Running)?;
    course(&rt, a, ErasedTerm::Int(3), &end, b"", Turn::Running)?;
    // To the scrutinee, for which there is no alternative.
    let none = case(a, con(TRUE), value(PRELUDE, FALSE), &[], text(a, &['z'])?)?;
    course(&rt, a, none, &[0, 0, 0, 0], b"", Turn::Running)?;
    // And an alternative of another arity.
    let cons = cell(a, ErasedTerm::Char('x'), con(NIL))?;
    let other = case(a, cons, value(PRELUDE, CONS), &[0], text(a, &['z'])?)?;
    course(&rt, a, other, &[0, 0, 0, 0, 0, 0], b"", Turn::Running)?;
    Ok(())
}

fn case(
    a: Global,
    of: ErasedTerm,
    con: Origin,
    names: &[u32],
    body: ErasedTerm,
) -> Result<ErasedTerm, NoMemory> {
    let mut alternatives = ListOf::new(a);
    alternatives.push(ErasedAlt::Con(con, ListOf::from_slice(a, names)?, body))?;
    Ok(ErasedTerm::Case(Boxed::new(a, of)?, alternatives, None))
}

#[test]
fn chooses(rt: HostRuntime) -> Result<(), Fail> {
    let a = rt.alloc();
    // To the scrutinee, to the cell's function twice, the alternative, and one character.
    let cons = cell(a, ErasedTerm::Char('f'), text(a, &['g'])?)?;
    let rest = case(a, cons, value(PRELUDE, CONS), &[0, 1], ErasedTerm::Var(1))?;
    ends(&rt, a, rest, &[0, 0, 0, 0, 0, 1], b"g")?;
    // Of equal names the first counts.
    let cons = cell(a, text(a, &['f'])?, text(a, &['g'])?)?;
    let equal = case(a, cons, value(PRELUDE, CONS), &[5, 5], ErasedTerm::Var(5))?;
    ends(&rt, a, equal, &[0, 0, 0, 0, 0, 1], b"f")?;
    // A string is a list: to the scrutinee, the alternative, and one character.
    let word = text(a, &['f', 'g'])?;
    let list = case(a, word, value(PRELUDE, CONS), &[0, 1], ErasedTerm::Var(1))?;
    ends(&rt, a, list, &[0, 0, 0, 1], b"g")?;
    // So is the text of a number: to the scrutinee, to the function, to the number, the text, the alternative, and one character.
    let number = app(a, prim(SHOW_INT), ErasedTerm::Int(-8))?;
    let list = case(a, number, value(PRELUDE, CONS), &[0, 1], ErasedTerm::Var(1))?;
    ends(&rt, a, list, &[0, 0, 0, 0, 0, 0, 1], b"8")?;
    // The end of a string: to the scrutinee, the alternative, and one character.
    let empty = case(a, text(a, &[])?, value(PRELUDE, NIL), &[], text(a, &['z'])?)?;
    ends(&rt, a, empty, &[0, 0, 0, 1], b"z")?;
    Ok(())
}

#[test]
fn chooses_newtypes(rt: HostRuntime) -> Result<(), Fail> {
    let a = rt.alloc();
    let con = value(PRELUDE, CON);
    // The scrutinee is not evaluated: the alternative, and one character.
    let lazy = case(a, ErasedTerm::Stop(PLACE), con, &[0], text(a, &['c'])?)?;
    ends(&rt, a, lazy, &[0, 0, 1], b"c")?;
    // The alternative, to the scrutinee, to its function, the contents, and one character.
    let made = app(a, ErasedTerm::Con(con), text(a, &['d'])?)?;
    let taken = case(a, made, con, &[0], ErasedTerm::Var(0))?;
    ends(&rt, a, taken, &[0, 0, 0, 0, 0, 1], b"d")?;
    // The contents of a term that fails: the alternative, to the scrutinee, and the failure.
    let failing = case(a, ErasedTerm::Stop(PLACE), con, &[0], ErasedTerm::Var(0))?;
    fails(&rt, a, failing, &[0, 0, 0, 0], StopCause::NoMatch)?;
    Ok(())
}

// `case of { 8 -> "h"; 'x' -> "j"; else -> "i" }`.
fn literals(a: Global, of: ErasedTerm) -> Result<ErasedTerm, NoMemory> {
    let mut alternatives = ListOf::new(a);
    alternatives.push(ErasedAlt::Int(8, text(a, &['h'])?))?;
    alternatives.push(ErasedAlt::Char('x', text(a, &['j'])?))?;
    let other = Boxed::new(a, text(a, &['i'])?)?;
    Ok(ErasedTerm::Case(Boxed::new(a, of)?, alternatives, Some(other)))
}

#[test]
fn chooses_literals(rt: HostRuntime) -> Result<(), Fail> {
    let a = rt.alloc();
    // To the scrutinee, the alternative, and one character.
    let end = [0, 0, 0, 1];
    ends(&rt, a, literals(a, ErasedTerm::Int(8))?, &end, b"h")?;
    ends(&rt, a, literals(a, ErasedTerm::Char('x'))?, &end, b"j")?;
    ends(&rt, a, literals(a, ErasedTerm::Int(7))?, &end, b"i")?;
    ends(&rt, a, literals(a, ErasedTerm::Char('y'))?, &end, b"i")?;
    Ok(())
}

#[test]
fn unrolls(rt: HostRuntime) -> Result<(), Fail> {
    let a = rt.alloc();
    // For the body and for x, to the cell's function twice, and one character; then for x again.
    let mut bindings = ListOf::new(a);
    bindings.push((0, cell(a, ErasedTerm::Char('e'), ErasedTerm::Var(0))?))?;
    let ever = ErasedTerm::LetRec(bindings, Boxed::new(a, ErasedTerm::Var(0))?);
    let nine = [0, 0, 0, 0, 0, 1, 1, 1, 1, 2];
    course(&rt, a, ever, &nine, b"ee", Turn::Running)?;
    // Without bindings: for the body, and one character.
    let body = Boxed::new(a, text(a, &['k'])?)?;
    ends(
        &rt,
        a,
        ErasedTerm::LetRec(ListOf::new(a), body),
        &[0, 0, 1],
        b"k",
    )?;
    // A binding that names a later one, which names nothing: for the body, for the first, for the second, and one character.
    let mut bindings = ListOf::new(a);
    bindings.push((0, ErasedTerm::Var(1)))?;
    bindings.push((1, text(a, &['l'])?))?;
    let chain = ErasedTerm::LetRec(bindings, Boxed::new(a, ErasedTerm::Var(0))?);
    ends(&rt, a, chain, &[0, 0, 0, 0, 1], b"l")?;
    Ok(())
}
