// Small programs with their first faults, worked out by hand. A term is written as the list of its nodes in the order of
// their numbers: each after its parts.
use gh_base::fixed::{
    CONS, ERROR, FALSE, ID, LIST, MAIN, MAIN_MODULE, MAYBE, NIL, PLUS, PRELUDE, TRUE,
};
use gh_base::{ListOf, NameId, NoMemory, Origin, Space, Span, TyCon};
use gh_core::{CoreAlt, CoreName, CoreProgram, CoreTerm, CoreType, Def, same_type};
use gh_core_lint::{LintFault, lint};
use gh_typeterm::{DeclCon, DeclData, Kind, Ty};
use sqlite_items::Boxed;
use std::alloc::Global;
use std::process::Abort;
use std::test::Fail;

const PLACE: Span = Span {
    file: 0,
    from: 1,
    to: 2,
};

fn prelude(space: Space, name: NameId) -> Origin {
    Origin {
        module: PRELUDE,
        space,
        name,
    }
}

fn main_name(name: NameId) -> CoreName {
    CoreName::Plain(Origin {
        module: MAIN_MODULE,
        space: Space::Values,
        name,
    })
}

// ---- types

#[derive(Clone, Copy)]
enum Form {
    Int,
    Char,
    // `List`, of no argument
    List,
    // `List Char`
    Text,
    // `List` of this variable
    Of(u32),
    // `forall x. List x -> List x`, of this variable
    OnLists(u32),
}

fn apply_type(alloc: Global, f: CoreType, x: CoreType) -> Result<CoreType, NoMemory> {
    let f = Boxed::new(alloc, f)?;
    let x = Boxed::new(alloc, x)?;
    Ok(CoreType::App(f, x))
}

fn list() -> CoreType {
    CoreType::Con(TyCon::Named(prelude(Space::Types, LIST)))
}

fn on_lists(alloc: Global, number: u32) -> Result<CoreType, NoMemory> {
    let from = apply_type(alloc, list(), CoreType::Var(number))?;
    let part = apply_type(alloc, CoreType::Con(TyCon::Arrow), from)?;
    let to = apply_type(alloc, list(), CoreType::Var(number))?;
    let body = apply_type(alloc, part, to)?;
    Ok(CoreType::Forall(number, Kind::Star, Boxed::new(alloc, body)?))
}

fn type_of(alloc: Global, form: Form) -> Result<CoreType, NoMemory> {
    match form {
        Form::Int => Ok(CoreType::Con(TyCon::Int)),
        Form::Char => Ok(CoreType::Con(TyCon::Char)),
        Form::List => Ok(list()),
        Form::Text => apply_type(alloc, list(), CoreType::Con(TyCon::Char)),
        Form::Of(number) => apply_type(alloc, list(), CoreType::Var(number)),
        Form::OnLists(number) => on_lists(alloc, number),
    }
}

// ---- terms

// A node of a term, or an alternative for the case that comes next.
#[derive(Clone, Copy)]
enum Op {
    Var(u32),
    Main(NameId),
    Con(NameId),
    Int,
    Char,
    Text,
    Plus,
    Prim(NameId, Form),
    Error,
    Stop(Form),
    Lam(u32, Form),
    App,
    TyLam(u32),
    TyApp(Form),
    // one binding, of the term before the last
    Let(u32, Form),
    OnNil,
    // an alternative that binds 8 and 9
    OnCons,
    // an alternative that binds none
    OnConsAlone,
    OnInt,
    OnChar,
    Case(Form),
    // a case with an `else`
    Else(Form),
}

#[derive(Drop)]
struct Builder {
    alloc: Global,
    terms: Vec<Boxed<CoreTerm>>,
    alternatives: ListOf<CoreAlt>,
}

impl Builder {
    fn push(&mut self, term: CoreTerm) -> Result<(), NoMemory> {
        let term = Boxed::new(self.alloc, term)?;
        self.terms.push(term)?;
        Ok(())
    }

    fn pop(&mut self) -> Result<Boxed<CoreTerm>, NoMemory> {
        match self.terms.pop() {
            Some(term) => Ok(term),
            None => Err(NoMemory),
        }
    }

    fn lam(&mut self, x: u32, form: Form) -> Result<(), NoMemory> {
        let ty = type_of(self.alloc, form)?;
        let body = self.pop()?;
        self.push(CoreTerm::Lam(x, ty, body))
    }

    fn app(&mut self) -> Result<(), NoMemory> {
        let argument = self.pop()?;
        let function = self.pop()?;
        self.push(CoreTerm::App(function, argument))
    }

    fn tylam(&mut self, x: u32) -> Result<(), NoMemory> {
        let body = self.pop()?;
        self.push(CoreTerm::TyLam(x, Kind::Star, body))
    }

    fn tyapp(&mut self, form: Form) -> Result<(), NoMemory> {
        let ty = type_of(self.alloc, form)?;
        let function = self.pop()?;
        self.push(CoreTerm::TyApp(function, ty))
    }

    fn bind(&mut self, x: u32, form: Form) -> Result<(), NoMemory> {
        let ty = type_of(self.alloc, form)?;
        let body = self.pop()?;
        let term = self.pop()?;
        let mut bindings = ListOf::new(self.alloc);
        bindings.push((x, ty, term.into_inner()))?;
        self.push(CoreTerm::LetRec(bindings, body))
    }

    fn on_con(&mut self, name: NameId, count: u32) -> Result<(), NoMemory> {
        let mut names = ListOf::new(self.alloc);
        for place in 0..count {
            names.push(place.wrapping_add(8))?;
        }
        let term = self.pop()?.into_inner();
        self.alternatives
            .push(CoreAlt::Con(prelude(Space::Values, name), names, term))
    }

    fn on_int(&mut self) -> Result<(), NoMemory> {
        let term = self.pop()?.into_inner();
        self.alternatives.push(CoreAlt::Int(4, term))
    }

    fn on_char(&mut self) -> Result<(), NoMemory> {
        let term = self.pop()?.into_inner();
        self.alternatives.push(CoreAlt::Char('a', term))
    }

    fn case(&mut self, form: Form, otherwise: Option<Boxed<CoreTerm>>) -> Result<(), NoMemory> {
        let ty = type_of(self.alloc, form)?;
        let scrutinee = self.pop()?;
        let none = ListOf::new(self.alloc);
        let alternatives = std::mem::replace(&mut self.alternatives, none);
        self.push(CoreTerm::Case(scrutinee, ty, alternatives, otherwise))
    }

    fn otherwise(&mut self, form: Form) -> Result<(), NoMemory> {
        let otherwise = self.pop()?;
        self.case(form, Some(otherwise))
    }

    fn prim(&mut self, name: NameId, form: Form) -> Result<(), NoMemory> {
        let ty = type_of(self.alloc, form)?;
        self.push(CoreTerm::Prim(prelude(Space::Values, name), PLACE, Some(ty)))
    }

    fn plain(&mut self, name: NameId) -> Result<(), NoMemory> {
        self.push(CoreTerm::Prim(prelude(Space::Values, name), PLACE, None))
    }

    fn stop(&mut self, form: Form) -> Result<(), NoMemory> {
        let ty = type_of(self.alloc, form)?;
        self.push(CoreTerm::Stop(PLACE, ty))
    }

    fn add(&mut self, op: Op) -> Result<(), NoMemory> {
        match op {
            Op::Var(x) => self.push(CoreTerm::Var(x)),
            Op::Main(name) => self.push(CoreTerm::Global(main_name(name))),
            Op::Con(name) => self.push(CoreTerm::Con(prelude(Space::Values, name))),
            Op::Int => self.push(CoreTerm::Int(1)),
            Op::Char => self.push(CoreTerm::Char('a')),
            Op::Text => self.push(CoreTerm::Str(ListOf::new(self.alloc))),
            Op::Plus => self.plain(PLUS),
            Op::Error => self.plain(ERROR),
            Op::Prim(name, form) => self.prim(name, form),
            Op::Stop(form) => self.stop(form),
            Op::Lam(x, form) => self.lam(x, form),
            Op::App => self.app(),
            Op::TyLam(x) => self.tylam(x),
            Op::TyApp(form) => self.tyapp(form),
            Op::Let(x, form) => self.bind(x, form),
            Op::OnNil => self.on_con(NIL, 0),
            Op::OnCons => self.on_con(CONS, 2),
            Op::OnConsAlone => self.on_con(CONS, 0),
            Op::OnInt => self.on_int(),
            Op::OnChar => self.on_char(),
            Op::Case(form) => self.case(form, None),
            Op::Else(form) => self.otherwise(form),
        }
    }
}

fn term(alloc: Global, ops: &[Op]) -> Result<CoreTerm, NoMemory> {
    let mut builder = Builder {
        alloc,
        terms: Vec::new(alloc),
        alternatives: ListOf::new(alloc),
    };
    for op in ops {
        builder.add(*op)?;
    }
    Ok(builder.pop()?.into_inner())
}

// ---- programs

// The fields of `Cons`, of a datatype with one parameter
fn cons_fields(alloc: Global) -> Result<ListOf<Ty>, NoMemory> {
    let of = Ty::con(alloc, TyCon::Named(prelude(Space::Types, LIST)))?;
    let rest = Ty::app(alloc, of, Ty::var(alloc, 0)?)?;
    let mut fields = ListOf::new(alloc);
    fields.push(Ty::var(alloc, 0)?)?;
    fields.push(rest)?;
    Ok(fields)
}

// A field of the type `List`, of no argument
fn list_field(alloc: Global) -> Result<ListOf<Ty>, NoMemory> {
    let mut fields = ListOf::new(alloc);
    fields.push(Ty::con(alloc, TyCon::Named(prelude(Space::Types, LIST)))?)?;
    Ok(fields)
}

// A datatype with one parameter, with `Nil` by this name, and a constructor with fields
fn decl(
    alloc: Global,
    name: NameId,
    nil: NameId,
    con: NameId,
    fields: ListOf<Ty>,
) -> Result<DeclData, NoMemory> {
    let mut params = ListOf::new(alloc);
    params.push(Kind::Star)?;
    let mut constructors = ListOf::new(alloc);
    constructors.push(DeclCon {
        origin: prelude(Space::Values, nil),
        fields: ListOf::new(alloc),
    })?;
    constructors.push(DeclCon {
        origin: prelude(Space::Values, con),
        fields,
    })?;
    Ok(DeclData {
        origin: prelude(Space::Types, name),
        is_newtype: false,
        params,
        constructors,
    })
}

// `data List t0 = Nil | Cons t0 (List t0)`
fn list_decl(alloc: Global) -> Result<DeclData, NoMemory> {
    decl(alloc, LIST, NIL, CONS, cons_fields(alloc)?)
}

// A definition of `Main`: its name, type and term
type Row = (NameId, Form, &'static [Op]);

fn def_of(alloc: Global, row: &Row) -> Result<Def, NoMemory> {
    let (name, form, ops) = row;
    let ty = type_of(alloc, *form)?;
    let term = term(alloc, ops)?;
    Ok(Def {
        name: main_name(*name),
        ty,
        term,
    })
}

fn defs_of(alloc: Global, rows: &[Row]) -> Result<ListOf<Def>, NoMemory> {
    let mut defs = ListOf::new(alloc);
    for row in rows {
        defs.push(def_of(alloc, row)?)?;
    }
    Ok(defs)
}

// The datatype of lists alone
fn lists(alloc: Global) -> Result<ListOf<DeclData>, NoMemory> {
    let mut decls = ListOf::new(alloc);
    decls.push(list_decl(alloc)?)?;
    Ok(decls)
}

// The program that runs a term.
fn program(
    alloc: Global,
    decls: ListOf<DeclData>,
    defs: ListOf<Def>,
    main: &[Op],
) -> Result<Boxed<CoreProgram>, NoMemory> {
    let main = term(alloc, main)?;
    Ok(Boxed::new(alloc, CoreProgram { decls, defs, main })?)
}

// ---- answers

#[derive(Clone, Copy)]
enum Want {
    Typed,
    // at this definition and node
    Broken(u32, u32),
    Clash(u32, u32, Form, Form),
}

fn is_broken(answer: &Result<(), LintFault>, at: (u32, u32)) -> bool {
    match answer {
        Err(LintFault::Broken { def, node }) => *def == at.0 && *node == at.1,
        _ => false,
    }
}

fn is_clash(
    answer: &Result<(), LintFault>,
    at: (u32, u32),
    asked: &CoreType,
    had: &CoreType,
) -> bool {
    match answer {
        Err(
            LintFault::Clash {
                def,
                node,
                wanted,
                found,
            },
        ) => *def == at.0 && *node == at.1 && same_type(wanted, asked) && same_type(found, had),
        _ => false,
    }
}

fn is_wanted(alloc: Global, answer: &Result<(), LintFault>, want: &Want) -> Result<bool, NoMemory> {
    match want {
        Want::Typed => Ok(answer.is_ok()),
        Want::Broken(def, node) => Ok(is_broken(answer, (*def, *node))),
        Want::Clash(def, node, asked, had) => {
            let asked = type_of(alloc, *asked)?;
            let had = type_of(alloc, *had)?;
            Ok(is_clash(answer, (*def, *node), &asked, &had))
        }
    }
}

fn has_answer(alloc: Global, program: &CoreProgram, want: &Want) -> Result<bool, NoMemory> {
    let answer = lint(alloc, program);
    is_wanted(alloc, &answer, want)
}

// Whether the program that runs a term, with these definitions, has this answer.
fn defs_have(alloc: Global, main: &[Op], rows: &[Row], want: &Want) -> Result<bool, NoMemory> {
    let decls = lists(alloc)?;
    let defs = defs_of(alloc, rows)?;
    let program = program(alloc, decls, defs, main)?;
    has_answer(alloc, program.get(), want)
}

// The program that runs a term, with these definitions, has this answer.
fn check_defs(
    rt: &impl Abort,
    alloc: Global,
    main: &[Op],
    rows: &[Row],
    want: &Want,
) -> Result<(), Fail> {
    assert!(rt; defs_have(alloc, main, rows, want)?);
    Ok(())
}

const MAIN_ALONE: [Op; 1] = [Op::Main(MAIN)];

// `Main.main` of this type as this term has this answer, where `Main.main` is run.
fn check_def(
    rt: &impl Abort,
    alloc: Global,
    form: Form,
    ops: &'static [Op],
    want: &Want,
) -> Result<(), Fail> {
    check_defs(rt, alloc, &MAIN_ALONE, &[(MAIN, form, ops)], want)
}

// A term with the answer where it is `Main.main` of the type of strings
type Answer = (&'static [Op], Want);

fn check_rows(rt: &impl Abort, alloc: Global, rows: &[Answer]) -> Result<(), Fail> {
    for (ops, want) in rows {
        check_def(rt, alloc, Form::Text, ops, want)?;
    }
    Ok(())
}

const DEFINITIONS: [Answer; 4] = [
    (&[Op::Int], Want::Clash(0, 0, Form::Text, Form::Int)),
    (&[Op::Main(ID)], Want::Broken(0, 0)),
    (&[Op::Text], Want::Typed),
    (&[Op::Main(MAIN)], Want::Typed),
];

#[test]
fn finds_the_type_of_a_definition(rt: HostRuntime) -> Result<(), Fail> {
    check_rows(&rt, rt.alloc(), &DEFINITIONS)
}

const NAMES: [Answer; 4] = [
    (&[Op::Var(7)], Want::Broken(0, 0)),
    (
        &[Op::Var(2), Op::Lam(1, Form::Int), Op::Int, Op::App],
        Want::Broken(0, 0),
    ),
    (&[Op::Con(TRUE)], Want::Broken(0, 0)),
    (&[Op::Text, Op::Con(TRUE), Op::App], Want::Broken(0, 1)),
];

#[test]
fn finds_unknown_names(rt: HostRuntime) -> Result<(), Fail> {
    check_rows(&rt, rt.alloc(), &NAMES)
}

const APPLICATIONS: [Answer; 6] = [
    (&[Op::Int, Op::Int, Op::App], Want::Broken(0, 2)),
    (
        &[Op::Text, Op::Lam(1, Form::Int), Op::Char, Op::App],
        Want::Clash(0, 3, Form::Int, Form::Char),
    ),
    (&[Op::Int, Op::TyApp(Form::Int)], Want::Broken(0, 1)),
    (&[Op::Con(NIL), Op::TyApp(Form::List)], Want::Broken(0, 1)),
    (&[Op::Var(1), Op::Lam(1, Form::List)], Want::Broken(0, 1)),
    (&[Op::Stop(Form::List)], Want::Broken(0, 0)),
];

#[test]
fn finds_wrong_applications(rt: HostRuntime) -> Result<(), Fail> {
    check_rows(&rt, rt.alloc(), &APPLICATIONS)
}

const PRIMITIVES: [Answer; 6] = [
    (&[Op::Error], Want::Broken(0, 0)),
    (&[Op::Prim(ERROR, Form::List)], Want::Broken(0, 0)),
    (&[Op::Prim(PLUS, Form::Int)], Want::Broken(0, 0)),
    (&[Op::Prim(TRUE, Form::Int)], Want::Broken(0, 0)),
    (
        &[Op::Prim(ERROR, Form::Text), Op::Text, Op::App],
        Want::Typed,
    ),
    (
        &[Op::Plus, Op::Int, Op::App, Op::Int, Op::App],
        Want::Clash(0, 4, Form::Text, Form::Int),
    ),
];

#[test]
fn finds_wrong_primitives(rt: HostRuntime) -> Result<(), Fail> {
    check_rows(&rt, rt.alloc(), &PRIMITIVES)
}

const BINDINGS: [Answer; 3] = [
    (
        &[Op::Char, Op::Var(1), Op::Let(1, Form::Int)],
        Want::Clash(0, 2, Form::Int, Form::Char),
    ),
    (
        &[Op::Var(1), Op::Text, Op::Let(1, Form::List)],
        Want::Broken(0, 2),
    ),
    (
        &[Op::Var(1), Op::Var(1), Op::Let(1, Form::Text)],
        Want::Typed,
    ),
];

#[test]
fn finds_wrong_bindings(rt: HostRuntime) -> Result<(), Fail> {
    check_rows(&rt, rt.alloc(), &BINDINGS)
}

const MISSING: [Answer; 5] = [
    (
        &[
            Op::Var(1),
            Op::Lam(1, Form::Int),
            Op::Text,
            Op::Else(Form::Text),
        ],
        Want::Broken(0, 3),
    ),
    (
        &[
            Op::Con(NIL),
            Op::TyApp(Form::Char),
            Op::Text,
            Op::OnNil,
            Op::Case(Form::Text),
        ],
        Want::Broken(0, 3),
    ),
    (
        &[
            Op::Con(NIL),
            Op::TyApp(Form::Char),
            Op::Text,
            Op::OnNil,
            Op::Text,
            Op::OnNil,
            Op::Text,
            Op::OnCons,
            Op::Case(Form::Text),
        ],
        Want::Broken(0, 5),
    ),
    (
        &[Op::Int, Op::Text, Op::OnInt, Op::Case(Form::Text)],
        Want::Broken(0, 2),
    ),
    (
        &[
            Op::Con(NIL),
            Op::TyApp(Form::Char),
            Op::Text,
            Op::OnNil,
            Op::Text,
            Op::Else(Form::Text),
        ],
        Want::Typed,
    ),
];

#[test]
fn finds_missing_alternatives(rt: HostRuntime) -> Result<(), Fail> {
    check_rows(&rt, rt.alloc(), &MISSING)
}

const ALTERNATIVES: [Answer; 7] = [
    (
        &[
            Op::Int,
            Op::Text,
            Op::OnChar,
            Op::Text,
            Op::Else(Form::Text),
        ],
        Want::Broken(0, 3),
    ),
    (
        &[
            Op::Con(NIL),
            Op::TyApp(Form::Char),
            Op::Text,
            Op::OnConsAlone,
            Op::Text,
            Op::Else(Form::Text),
        ],
        Want::Broken(0, 4),
    ),
    (
        &[Op::Int, Op::Text, Op::OnNil, Op::Text, Op::Else(Form::Text)],
        Want::Broken(0, 3),
    ),
    (
        &[Op::Int, Op::Text, Op::OnInt, Op::Text, Op::Else(Form::List)],
        Want::Broken(0, 3),
    ),
    (
        &[
            Op::Con(NIL),
            Op::TyApp(Form::Char),
            Op::Int,
            Op::OnNil,
            Op::Var(8),
            Op::OnCons,
            Op::Case(Form::Text),
        ],
        Want::Clash(0, 4, Form::Text, Form::Int),
    ),
    (
        &[
            Op::Con(NIL),
            Op::TyApp(Form::Char),
            Op::Text,
            Op::OnNil,
            Op::Var(8),
            Op::OnCons,
            Op::Case(Form::Text),
        ],
        Want::Clash(0, 4, Form::Text, Form::Char),
    ),
    (
        &[Op::Int, Op::Text, Op::OnInt, Op::Int, Op::Else(Form::Text)],
        Want::Clash(0, 3, Form::Text, Form::Int),
    ),
];

#[test]
fn finds_wrong_alternatives(rt: HostRuntime) -> Result<(), Fail> {
    check_rows(&rt, rt.alloc(), &ALTERNATIVES)
}

// A function of types that gives a list's rest
const REST: [Op; 8] = [
    Op::Var(3),
    Op::Var(3),
    Op::OnNil,
    Op::Var(9),
    Op::OnCons,
    Op::Case(Form::Of(5)),
    Op::Lam(3, Form::Of(5)),
    Op::TyLam(5),
];

// The type that is found is that of the function, whatever its bound variable is called.
#[test]
fn reports_a_type_for_all_types(rt: HostRuntime) -> Result<(), Fail> {
    let want = Want::Clash(0, 5, Form::Text, Form::OnLists(0));
    check_def(&rt, rt.alloc(), Form::Text, &REST, &want)
}

// The kind of a definition's type comes before its term.
#[test]
fn finds_a_type_of_another_kind(rt: HostRuntime) -> Result<(), Fail> {
    check_def(&rt, rt.alloc(), Form::List, &REST, &Want::Broken(0, 0))
}

const ENDLESS: [Op; 11] = [
    Op::Main(ID),
    Op::TyApp(Form::Char),
    Op::Con(CONS),
    Op::TyApp(Form::Char),
    Op::Char,
    Op::App,
    Op::Var(6),
    Op::App,
    Op::Var(6),
    Op::Let(6, Form::Text),
    Op::App,
];

const TYPED: [Row; 2] = [(MAIN, Form::Text, &ENDLESS), (ID, Form::OnLists(4), &REST)];

#[test]
fn accepts_a_typed_program(rt: HostRuntime) -> Result<(), Fail> {
    check_defs(&rt, rt.alloc(), &MAIN_ALONE, &TYPED, &Want::Typed)
}

const TEXT: [Op; 1] = [Op::Text];

const DOUBLED: [Row; 2] = [(MAIN, Form::Text, &TEXT), (MAIN, Form::Text, &TEXT)];

#[test]
fn finds_doubled_definitions(rt: HostRuntime) -> Result<(), Fail> {
    check_defs(&rt, rt.alloc(), &TEXT, &DOUBLED, &Want::Broken(0, 0))
}

// Whether the program with this datatype more, whose second constructor has a field of the type `List` or none, is broken
// before all definitions.
fn is_broken_by(
    alloc: Global,
    name: NameId,
    cons: (NameId, NameId),
    has_field: bool,
) -> Result<bool, NoMemory> {
    let fields = if has_field {
        list_field(alloc)?
    } else {
        ListOf::new(alloc)
    };
    let more = decl(alloc, name, cons.0, cons.1, fields)?;
    let mut decls = ListOf::new(alloc);
    decls.push(more)?;
    decls.push(list_decl(alloc)?)?;
    let program = program(alloc, decls, ListOf::new(alloc), &TEXT)?;
    has_answer(alloc, program.get(), &Want::Broken(0, 0))
}

#[test]
fn finds_wrong_datatypes(rt: HostRuntime) -> Result<(), Fail> {
    let alloc = rt.alloc();
    assert!(rt; is_broken_by(alloc, LIST, (TRUE, FALSE), false)?);
    assert!(rt; is_broken_by(alloc, MAYBE, (NIL, FALSE), false)?);
    assert!(rt; is_broken_by(alloc, MAYBE, (TRUE, FALSE), true)?);
    Ok(())
}

const ONE: [Row; 1] = [(MAIN, Form::Text, &TEXT)];

#[test]
fn finds_the_type_of_main(rt: HostRuntime) -> Result<(), Fail> {
    let want = Want::Clash(1, 0, Form::Text, Form::Int);
    check_defs(&rt, rt.alloc(), &[Op::Int], &ONE, &want)
}
