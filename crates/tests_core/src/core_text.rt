// Small programs with their texts, written out by hand.
ghost use Rattle.std.specs.Prelude.{◌<◌, ◌≤◌, IfOk, OnOk, map};
ghost use Rattle.gh_core_text.specs.Needs.{needs_all, needs_alt, needs_decl, needs_origin, needs_program, needs_term, needs_type};

use gh_base::fixed::{CON, ERROR, FALSE, ID, MAIN_MODULE, MAYBE, PRELUDE, TRUE};
use gh_base::{Bytes, ListOf, NameId, Names, NoMemory, Origin, Space, Span, TyCon};
use gh_core::{CoreAlt, CoreName, CoreProgram, CoreTerm, CoreType, Def};
use gh_core_text::core_text;
use gh_typeterm::{DeclCon, DeclData, Kind, Ty};
use sqlite_items::Boxed;
use std::alloc::Global;
use std::process::Abort;
use std::test::Fail;

// Each name is one of the 128 that a new table has.
fn origin(space: Space, name: NameId) -> Origin
    requires { name.0 < 128 }
    ensures { needs_origin result ≤ 128 }
{
    Origin {
        module: MAIN_MODULE,
        space,
        name,
    }
}

fn value(name: NameId) -> Origin
    requires { name.0 < 128 }
    ensures { needs_origin result ≤ 128 }
{
    origin(Space::Values, name)
}

const PLACE: Span = Span {
    file: 1,
    from: 2,
    to: 30,
};

// `newtype Con a f = True (f a)`
fn newtype(alloc: Global) -> Result<DeclData, NoMemory>
    ensures { IfOk result (λ made. needs_decl made ≤ 128) }
{
    let mut params = ListOf::new(alloc);
    params.push(Kind::Star)?;
    let star = Boxed::new(alloc, Kind::Star)?;
    params.push(Kind::Arrow(star, Boxed::new(alloc, Kind::Star)?))?;
    let mut fields = ListOf::new(alloc);
    fields.push(Ty::app(alloc, Ty::var(alloc, 1)?, Ty::var(alloc, 0)?)?)?;
    let mut constructors = ListOf::new(alloc);
    constructors.push(DeclCon {
        origin: value(TRUE),
        fields,
    })?;
    Ok(DeclData {
        origin: origin(Space::Types, CON),
        is_newtype: true,
        params,
        constructors,
    })
}

// `data Maybe = False | True (Int -> Char) Int`
fn data(alloc: Global) -> Result<DeclData, NoMemory>
    ensures { IfOk result (λ made. needs_decl made ≤ 128) }
{
    let arrow = Ty::con(alloc, TyCon::Arrow)?;
    let from = Ty::app(alloc, arrow, Ty::con(alloc, TyCon::Int)?)?;
    let mut fields = ListOf::new(alloc);
    fields.push(Ty::app(alloc, from, Ty::con(alloc, TyCon::Char)?)?)?;
    fields.push(Ty::con(alloc, TyCon::Int)?)?;
    let mut constructors = ListOf::new(alloc);
    constructors.push(DeclCon {
        origin: value(FALSE),
        fields: ListOf::new(alloc),
    })?;
    constructors.push(DeclCon {
        origin: value(TRUE),
        fields,
    })?;
    Ok(DeclData {
        origin: origin(Space::Types, MAYBE),
        is_newtype: false,
        params: ListOf::new(alloc),
        constructors,
    })
}

// One more alternative.
fn push_alternative(list: &mut ListOf<CoreAlt>, alternative: CoreAlt) -> Result<(), NoMemory>
    requires list { needs_all (map needs_alt list.old) ≤ 128 }
    requires alternative { needs_alt alternative ≤ 128 }
    ensures { OnOk result (needs_all (map needs_alt list.new) ≤ 128) }
{
    list.push(alternative)
}

// A case of type `Int` with an `else`.
fn case_of(
    scrutinee: Boxed<CoreTerm>,
    alternatives: ListOf<CoreAlt>,
    otherwise: Boxed<CoreTerm>,
) -> CoreTerm
    requires scrutinee { needs_term scrutinee ≤ 128 }
    requires alternatives { needs_all (map needs_alt alternatives) ≤ 128 }
    requires otherwise { needs_term otherwise ≤ 128 }
    ensures { needs_term result ≤ 128 }
{
    let int = CoreType::Con(TyCon::Int);
    CoreTerm::Case(scrutinee, int, alternatives, Some(otherwise))
}

// A case on the variable 7 with an alternative that binds 3 and 4, and an `else`
fn case(alloc: Global) -> Result<CoreTerm, NoMemory>
    ensures { IfOk result (λ made. needs_term made ≤ 128) }
{
    let mut names = ListOf::new(alloc);
    names.push(3)?;
    names.push(4)?;
    let mut alternatives = ListOf::new(alloc);
    push_alternative(
        &mut alternatives,
        CoreAlt::Con(value(TRUE), names, CoreTerm::Var(4)),
    )?;
    push_alternative(&mut alternatives, CoreAlt::Int(-1, CoreTerm::Var(8)))?;
    push_alternative(&mut alternatives, CoreAlt::Char('b', CoreTerm::Var(9)))?;
    let stop = Boxed::new(alloc, CoreTerm::Stop(PLACE, CoreType::Any(Kind::Star)))?;
    let scrutinee = Boxed::new(alloc, CoreTerm::Var(7))?;
    Ok(case_of(scrutinee, alternatives, stop))
}

// A function of types and of values, with two recursive bindings
fn function(alloc: Global) -> Result<CoreTerm, NoMemory>
    ensures { IfOk result (λ made. needs_term made ≤ 128) }
{
    let mut bindings = ListOf::new(alloc);
    bindings.push((8, CoreType::Var(5), CoreTerm::Var(9)))?;
    bindings.push((9, CoreType::Con(TyCon::Int), CoreTerm::Var(8)))?;
    let case = Boxed::new(alloc, case(alloc)?)?;
    let bound = Boxed::new(alloc, CoreTerm::LetRec(bindings, case))?;
    let inner = Boxed::new(alloc, CoreTerm::Lam(7, CoreType::Var(5), bound))?;
    let outer = Boxed::new(alloc, CoreTerm::TyLam(5, Kind::Star, inner))?;
    Ok(CoreTerm::TyApp(outer, CoreType::Con(TyCon::Char)))
}

// `forall a. a -> a`
fn identity_type(alloc: Global) -> Result<Boxed<CoreType>, NoMemory>
    ensures { IfOk result (λ made. needs_type made ≤ 128) }
{
    let arrow = Boxed::new(alloc, CoreType::Con(TyCon::Arrow))?;
    let argument = Boxed::new(alloc, CoreType::Var(3))?;
    let from = Boxed::new(alloc, CoreType::App(arrow, argument))?;
    let value = Boxed::new(alloc, CoreType::Var(3))?;
    let body = Boxed::new(alloc, CoreType::App(from, value))?;
    Ok(Boxed::new(alloc, CoreType::Forall(3, Kind::Star, body))?)
}

fn program(alloc: Global) -> Result<Boxed<CoreProgram>, NoMemory>
    ensures { IfOk result (λ made. needs_program made ≤ 128) }
{
    let mut decls = ListOf::new(alloc);
    decls.push(newtype(alloc)?)?;
    decls.push(data(alloc)?)?;
    let ty = identity_type(alloc)?;
    let term = function(alloc)?;
    let mut defs = ListOf::new(alloc);
    defs.push(Def {
        name: CoreName::Plain(value(ID)),
        ty: ty.into_inner(),
        term,
    })?;
    let main = CoreTerm::Global(CoreName::Plain(value(ID)));
    Ok(Boxed::new(alloc, CoreProgram { decls, defs, main })?)
}

const TEXT: &[u8] =
    b"(core 1\n(newtype Main.Con ((t0 *) (t1 (=> * *))) (Main.True (t1 t0)))\n(data Main.Maybe () (Main.False) (Main.True (-> Prelude.Int Prelude.Char) Prelude.Int))\n(def Main.id (forall (t0 *) (-> t0 t0))\n (tyapp (tylam (t0 *) (lam (v0 t0) (letrec ((v1 t0 v2) (v2 Prelude.Int v1)) (case v0 Prelude.Int (alt Main.True v3 v4 v4) (int -1 v1) (char 98 v2) (else (stop 1 2 30 (any *))))))) Prelude.Char))\n(main Main.id))\n";

// The text of a program, whose names are all fixed.
#[tactic(auto, using(gh_core_text::proofs::FixedCount::fixed_count))]
fn program_text(alloc: Global, program: &CoreProgram) -> Result<Bytes, NoMemory>
    requires { needs_program program.now ≤ 128 }
{
    let names = Names::new(alloc)?;
    core_text(alloc, &names, program)
}

#[test]
fn writes_a_program(rt: HostRuntime) -> Result<(), Fail> {
    let alloc = rt.alloc();
    let program = program(alloc)?;
    let text = program_text(alloc, program.get())?;
    assert_eq!(rt; text.as_slice(), TEXT);
    Ok(())
}

// The text of a program with this term alone.
fn main_text(alloc: Global, main: CoreTerm) -> Result<Bytes, NoMemory>
    requires { needs_term main ≤ 128 }
{
    let program = CoreProgram {
        decls: ListOf::new(alloc),
        defs: ListOf::new(alloc),
        main,
    };
    let program = Boxed::new(alloc, program)?;
    program_text(alloc, program.get())
}

// The program with this term alone has this text.
fn check_main(rt: &impl Abort, alloc: Global, main: CoreTerm, wanted: &[u8]) -> Result<(), NoMemory>
    requires { needs_term main ≤ 128 }
{
    let text = main_text(alloc, main)?;
    assert_eq!(rt; text.as_slice(), wanted);
    Ok(())
}

#[test]
fn writes_literals(rt: HostRuntime) -> Result<(), Fail> {
    let alloc = rt.alloc();
    check_main(
        &rt,
        alloc,
        CoreTerm::Int(-5),
        b"(core 1\n(main (int -5)))\n",
    )?;
    let chars = ListOf::from_slice(alloc, &['h', 'i'])?;
    check_main(
        &rt,
        alloc,
        CoreTerm::Str(chars),
        b"(core 1\n(main (string 104 105)))\n",
    )?;
    let empty = CoreTerm::Str(ListOf::new(alloc));
    check_main(&rt, alloc, empty, b"(core 1\n(main (string)))\n")?;
    let body = Boxed::new(alloc, CoreTerm::Char('a'))?;
    check_main(
        &rt,
        alloc,
        CoreTerm::LetRec(ListOf::new(alloc), body),
        b"(core 1\n(main (letrec () (char 97))))\n",
    )?;
    Ok(())
}

// A case on 0 with an alternative that binds 3 twice
fn binds_twice(alloc: Global) -> Result<CoreTerm, NoMemory>
    ensures { IfOk result (λ made. needs_term made ≤ 128) }
{
    let fields = ListOf::from_slice(alloc, &[3, 3])?;
    let mut alternatives = ListOf::new(alloc);
    push_alternative(
        &mut alternatives,
        CoreAlt::Con(value(TRUE), fields, CoreTerm::Var(3)),
    )?;
    let scrutinee = Boxed::new(alloc, CoreTerm::Int(0))?;
    let otherwise = Boxed::new(alloc, CoreTerm::Int(1))?;
    Ok(case_of(scrutinee, alternatives, otherwise))
}

// A `letrec` that binds 5 twice
fn defines_twice(alloc: Global) -> Result<CoreTerm, NoMemory>
    ensures { IfOk result (λ made. needs_term made ≤ 128) }
{
    let mut bindings = ListOf::new(alloc);
    bindings.push((5, CoreType::Con(TyCon::Int), CoreTerm::Var(5)))?;
    bindings.push((5, CoreType::Con(TyCon::Char), CoreTerm::Var(5)))?;
    let body = Boxed::new(alloc, CoreTerm::Var(5))?;
    Ok(CoreTerm::LetRec(bindings, body))
}

// Of equal numbers in one list the first counts.
#[test]
fn first_of_equal_numbers(rt: HostRuntime) -> Result<(), Fail> {
    let alloc = rt.alloc();
    check_main(
        &rt,
        alloc,
        binds_twice(alloc)?,
        b"(core 1\n(main (case (int 0) Prelude.Int (alt Main.True v0 v1 v0) (else (int 1)))))\n",
    )?;
    check_main(
        &rt,
        alloc,
        defines_twice(alloc)?,
        b"(core 1\n(main (letrec ((v0 Prelude.Int v0) (v1 Prelude.Char v0)) v0)))\n",
    )?;
    Ok(())
}

#[test]
fn writes_names(rt: HostRuntime) -> Result<(), Fail> {
    let alloc = rt.alloc();
    let con = TyCon::Named(origin(Space::Types, MAYBE));
    let names = [
        (
            CoreName::Hidden(MAIN_MODULE, 3),
            b"(core 1\n(main Main.pat{3}))\n".as_slice(),
        ),
        (
            CoreName::Component(value(ID), con),
            b"(core 1\n(main Main.id{Main.Maybe}))\n".as_slice(),
        ),
        (
            CoreName::From(con),
            b"(core 1\n(main from{Main.Maybe}))\n".as_slice(),
        ),
        (
            CoreName::To(TyCon::Arrow),
            b"(core 1\n(main to{->}))\n".as_slice(),
        ),
        (
            CoreName::Bimap(TyCon::ConOf(value(TRUE))),
            b"(core 1\n(main bimap{Con.Main.True}))\n".as_slice(),
        ),
    ];
    for (name, wanted) in names {
        check_main(&rt, alloc, CoreTerm::Global(name), wanted)?;
    }
    Ok(())
}

#[test]
fn writes_primitives(rt: HostRuntime) -> Result<(), Fail> {
    let alloc = rt.alloc();
    let error = Origin {
        module: PRELUDE,
        space: Space::Values,
        name: ERROR,
    };
    let ty = CoreType::Con(TyCon::ConOf(value(TRUE)));
    check_main(
        &rt,
        alloc,
        CoreTerm::Prim(error, PLACE, Some(ty)),
        b"(core 1\n(main (prim Prelude.error 1 2 30 Prelude.Con)))\n",
    )?;
    let function = Boxed::new(alloc, CoreTerm::Prim(error, PLACE, None))?;
    let argument = Boxed::new(alloc, CoreTerm::Var(4))?;
    check_main(
        &rt,
        alloc,
        CoreTerm::App(function, argument),
        b"(core 1\n(main (app (prim Prelude.error 1 2 30) v4)))\n",
    )?;
    Ok(())
}
