// Small programs, linked: the order of the files and the scope of the last one, or the refusal.
use gh_base::fixed::{MAIN, MAIN_MODULE, PLUS, PRELUDE};
use gh_base::{Fault, ListOf, NameId, Names, NoMemory, Refusal, Space, Span};
use gh_layout::lay;
use gh_lexer::lex;
use gh_modules::{Linked, Scope, ScopeEntry, link};
use gh_parser::parse;
use gh_tree::ModuleTree;
use std::alloc::{AllocError, Global};
use std::process::Abort;
use std::test::Fail;

// The names of the programs.
const LETTERS: &[u8] = b"abcdefghijklmnopqrstuvwxyzABCDEFGHIJKLMNOPQRSTUVWXYZ";

// A table of names with the letters, and the number of the first one.
fn letters(alloc: Global) -> Result<(Names, u32), NoMemory> {
    let mut names = Names::new(alloc)?;
    let first = names.intern(b"a")?;
    for letter in LETTERS {
        names.intern(&[*letter])?;
    }
    Ok((names, first.0))
}

fn push_letter(text: &mut String, at: u32) -> Result<(), AllocError> {
    match LETTERS.get(at as usize) {
        Some(letter) => text.push(*letter as char),
        None => text.push('?'),
    }
}

fn push_name(text: &mut String, first: u32, name: NameId) -> Result<(), AllocError> {
    if name.0 == MAIN.0 {
        text.push_str("main")
    } else if name.0 == MAIN_MODULE.0 {
        text.push_str("Main")
    } else if name.0 == PRELUDE.0 {
        text.push_str("Prelude")
    } else if name.0 == PLUS.0 {
        text.push('+')
    } else {
        push_letter(text, name.0.wrapping_sub(first))
    }
}

// ` Q.x@M`, or `!` in the place of `@` for a type.
fn push_entry(text: &mut String, first: u32, entry: &ScopeEntry) -> Result<(), AllocError> {
    text.push(' ')?;
    if let Some(qualifier) = entry.qualifier {
        push_name(text, first, qualifier)?;
        text.push('.')?;
    }
    push_name(text, first, entry.name)?;
    text.push(match entry.origin.space {
        Space::Values => '@',
        Space::Types => '!',
    })?;
    push_name(text, first, entry.origin.module)
}

// The entries that are not of the Prelude, and how many are.
fn push_scope(
    alloc: Global,
    text: &mut String,
    first: u32,
    scope: &Scope,
) -> Result<(), AllocError> {
    let mut others = 0u32;
    for entry in scope.entries.as_slice() {
        if entry.origin.module.0 == PRELUDE.0 {
            others = others.saturating_add(1);
        } else {
            push_entry(text, first, entry)?;
        }
    }
    text.push_str(&format!(in alloc; " +{others}")?)
}

// `0 1 2: ` and the scope of the last file.
fn linked(alloc: Global, first: u32, linked: &Linked) -> Result<String, AllocError> {
    let mut text = String::new(alloc);
    for file in linked.order.as_slice() {
        text.push_str(&format!(in alloc; "{file} ")?)?;
    }
    if let Some(scope) = linked.scopes.as_slice().last() {
        push_scope(alloc, &mut text, first, scope)?;
    }
    Ok(text)
}

fn told(
    alloc: Global,
    first: u32,
    number: u32,
    span: Span,
    names: &[NameId],
) -> Result<String, AllocError> {
    let mut text = format!(in alloc; "{} at {}:{}-{}", number, span.file, span.from, span.to)?;
    for name in names {
        text.push(' ')?;
        push_name(&mut text, first, *name)?;
    }
    Ok(text)
}

// The number of a refusal, its place and its names.
fn refused(alloc: Global, first: u32, refusal: &Refusal) -> Result<String, AllocError> {
    match refusal {
        Refusal::UnknownModule { span, name } => told(alloc, first, 12, *span, &[*name]),
        Refusal::CyclicImports { span, names } => told(alloc, first, 13, *span, names.as_slice()),
        Refusal::NotExported { span, name } => told(alloc, first, 14, *span, &[*name]),
        Refusal::DoubleModule { span, name } => told(alloc, first, 15, *span, &[*name]),
        Refusal::UnknownName { span, name } => told(alloc, first, 16, *span, &[*name]),
        Refusal::AmbiguousName { span, name } => told(alloc, first, 17, *span, &[*name]),
        _ => format!(in alloc; "another"),
    }
}

fn answer(
    alloc: Global,
    first: u32,
    names: &Names,
    trees: &ListOf<ModuleTree>,
) -> Result<String, AllocError> {
    match &link(alloc, names, trees) {
        Ok(found) => linked(alloc, first, found),
        Err(Fault::Refused(refusal)) => refused(alloc, first, refusal),
        Err(Fault::NoMemory) => format!(in alloc; "no memory"),
    }
}

// The tree of a file, if it has one.
fn tree_of(
    rt: &impl Abort,
    alloc: Global,
    names: &mut Names,
    file: u32,
    text: &str,
) -> Option<ModuleTree> {
    assert!(rt; text.len() < 9000);
    let Ok(tokens) = lex(alloc, names, file, text.as_bytes()) else {
        return None;
    };
    assert!(rt; tokens.as_slice().len() < 9000);
    let Ok(laid) = lay(alloc, &tokens) else {
        return None;
    };
    match parse(alloc, &tokens, &laid) {
        Ok(tree) => Some(tree),
        Err(_) => None,
    }
}

// The trees of the files, which stand behind a `/` each. File 0 is a Prelude that has its primitives alone.
fn trees_of(
    rt: &impl Abort,
    alloc: Global,
    names: &mut Names,
    text: &str,
) -> Result<ListOf<ModuleTree>, NoMemory> {
    let mut trees = ListOf::new(alloc);
    let mut file = 0u32;
    for part in text.split('/') {
        let text = if file == 0 {
            "module Prelude where"
        } else {
            part
        };
        if let Some(tree) = tree_of(rt, alloc, names, file, text) {
            trees.push(tree)?;
        }
        file = file.saturating_add(1);
    }
    Ok(trees)
}

fn shown(rt: &impl Abort, alloc: Global, text: &str) -> Result<String, Fail> {
    let (mut names, first) = letters(alloc)?;
    let trees = trees_of(rt, alloc, &mut names, text)?;
    if trees.as_slice().len() != text.split('/').count() {
        return Ok(format!(in alloc; "no trees")?);
    }
    Ok(answer(alloc, first, &names, &trees)?)
}

// What a module that only imports has in scope.
const IMPORTS: &[(&str, &str)] = &[
    (
        "import A",
        "T!A A.T!A C@A A.C@A D@A A.D@A U!A A.U!A U@A A.U@A x@A A.x@A +28",
    ),
    (
        "import A as Q",
        "T!A Q.T!A C@A Q.C@A D@A Q.D@A U!A Q.U!A U@A Q.U@A x@A Q.x@A +28",
    ),
    (
        "import qualified A",
        "A.T!A A.C@A A.D@A A.U!A A.U@A A.x@A +28",
    ),
    (
        "import qualified A as Q",
        "Q.T!A Q.C@A Q.D@A Q.U!A Q.U@A Q.x@A +28",
    ),
    // Lists: variables, types alone, with all, some and no constructors.
    ("import A ()", "+28"),
    ("import A (x)", "x@A A.x@A +28"),
    ("import A (T)", "T!A A.T!A +28"),
    ("import A (T ())", "T!A A.T!A +28"),
    ("import A (T (..))", "T!A A.T!A C@A A.C@A D@A A.D@A +28"),
    ("import A (x, T (D),)", "T!A A.T!A D@A A.D@A x@A A.x@A +28"),
    ("import qualified A as Q (x, x)", "Q.x@A +28"),
    // What stands behind `hiding`: a type alone hides a constructor of its name too.
    (
        "import A hiding ()",
        "T!A A.T!A C@A A.C@A D@A A.D@A U!A A.U!A U@A A.U@A x@A A.x@A +28",
    ),
    (
        "import A hiding (U, x)",
        "T!A A.T!A C@A A.C@A D@A A.D@A +28",
    ),
    (
        "import A hiding (U (), x)",
        "T!A A.T!A C@A A.C@A D@A A.D@A U@A A.U@A +28",
    ),
    (
        "import A hiding (C, U (..))",
        "T!A A.T!A D@A A.D@A x@A A.x@A +28",
    ),
    (
        "import qualified A hiding (T (..))",
        "A.U!A A.U@A A.x@A +28",
    ),
    // Several imports of one module: each gives its own, and what it hides is hidden of it alone.
    (
        "import A (x); import qualified A as Q (x)",
        "x@A A.x@A Q.x@A +28",
    ),
    (
        "import A hiding (T (..), U, x); import A (x)",
        "x@A A.x@A +28",
    ),
    // An import of the Prelude comes in the place of the one that is implied.
    ("import Prelude ()", "+0"),
    ("import Prelude (Int, (+))", "+4"),
    ("import qualified Prelude as Q", "+14"),
    ("import qualified Prelude as Q; import Prelude", "+42"),
];

#[test]
fn imports_give(rt: HostRuntime) -> Result<(), Fail> {
    for (import, want) in IMPORTS {
        let text = format!(in rt.alloc();
            "/module A where {{ data T = C | D; newtype U = U T; x = x }}/module B where {{ {import} }}"
        )?;
        let want = format!(in rt.alloc(); "0 1 2  {want}")?;
        let found = shown(&rt, rt.alloc(), text.as_str())?;
        assert!(rt; found.as_str() == want.as_str(), "{import}: {found}");
    }
    Ok(())
}

// What a module exports that imports `z` of Z, and all of Z with the qualifier Y alone.
const EXPORTS: &[(&str, &str)] = &[
    ("", "T!A C@A D@A x@A +@A"),
    ("()", ""),
    ("(x)", "x@A"),
    ("(A.x, x, x,)", "x@A"),
    ("(A.+)", "no trees"),
    ("((A.+))", "+@A"),
    ("(T)", "T!A"),
    ("(T ())", "T!A"),
    ("(T (..))", "T!A C@A D@A"),
    ("(T (D), x)", "T!A D@A x@A"),
    // What is imported is exported where it is named, also with a qualifier.
    ("(z, Y.v, Y.V (..))", "z@Z v@Z V!Z E@Z"),
    // `module` exports what is in scope both with the name and without it.
    ("(module A)", "T!A C@A D@A x@A +@A"),
    ("(module Z)", "z@Z"),
    ("(module Y)", "z@Z"),
    ("(x, module Z, module A, z)", "x@A z@Z T!A C@A D@A +@A"),
];

#[test]
fn exports_name(rt: HostRuntime) -> Result<(), Fail> {
    for (exports, want) in EXPORTS {
        let text = format!(in rt.alloc();
            "/module Z where {{ data V = E; v = v; z = z }}/module A {exports} where {{ import Z (z); import qualified Z as Y; data T = C | D; x = x; (+) = x }}/module B where {{ import Prelude (); import qualified A as Q }}"
        )?;
        let found = shown(&rt, rt.alloc(), text.as_str())?;
        let want = wanted(rt.alloc(), want)?;
        assert!(rt; found.as_str() == want.as_str(), "{exports}: {found}");
    }
    Ok(())
}

// What the last of three files shows: each name with the qualifier Q.
fn wanted(alloc: Global, want: &str) -> Result<String, AllocError> {
    if want == "no trees" {
        return format!(in alloc; "no trees");
    }
    let mut text = format!(in alloc; "0 1 2 3 ")?;
    for name in want.split(' ') {
        if !name.is_empty() {
            text.push_str(&format!(in alloc; " Q.{name}")?)?;
        }
    }
    text.push_str(" +0")?;
    Ok(text)
}

// Whole programs.
const PROGRAMS: &[(&str, &str)] = &[
    // The first file that is ready comes first.
    (
        "/module A where { import B }/module B where { }/module C where { }",
        "0 2 1 3  +28",
    ),
    (
        "/module A where { import C }/module B where { import C }/module C where { x = x }",
        "0 3 1 2  x@C C.x@C +28",
    ),
    // A file without a header is Main, and exports `main` alone.
    (
        "/main = x; x = x/module B where { import Prelude (); import Main }",
        "0 1 2  main@Main Main.main@Main +0",
    ),
    ("/", "16 at 1:0-0 main"),
    // What is defined: a generic function by its signature, each name that a clause or a pattern binds.
    (
        "/module A where { import Prelude (); x{|a|} :: a -> a; x{|Q|} = x; y :: z; infix 5 `y`; (v, w) = v; C u : [t] = u; type S = T }",
        "0 1  x@A A.x@A v@A A.v@A w@A A.w@A u@A A.u@A t@A A.t@A S!A A.S!A +0",
    ),
    // A name that is hidden of one module comes in from another.
    (
        "/module A where { x = x }/module B (x) where { import A }/module C where { import A hiding (x); import B }",
        "0 1 2 3  x@A B.x@A +28",
    ),
    // Several origins under one name are no fault until the name is used.
    (
        "/module A where { x = x }/module B where { x = x; import A }",
        "no trees",
    ),
    (
        "/module A where { x = x }/module B where { import A; x = x }",
        "0 1 2  x@B B.x@B x@A A.x@A +28",
    ),
];

// Programs that are refused.
const REFUSED: &[(&str, &str)] = &[
    // 12: the import of a module that is not there.
    ("/import B\nmain = \"\"", "12 at 1:0-8 B"),
    (
        "/module A where { import qualified Q as B hiding (x) }",
        "12 at 1:17-51 Q",
    ),
    // 13: the first import on a cycle, and the shortest cycle through it.
    ("/module A where { import A }", "13 at 1:17-25 A"),
    (
        "/module A where { import B }/module B where { import A }",
        "13 at 1:17-25 A B",
    ),
    (
        "/module A where { import C }/module B where { import C; import C }/module C where { import B }",
        "13 at 2:17-25 B C",
    ),
    (
        "/module A where { import B }/module B where { import C; import D }/module C where { import A }/module D where { import A }",
        "13 at 1:17-25 A B C",
    ),
    // 14: a variable, a type and a constructor that are not exported, also behind `hiding`.
    (
        "/module A () where { x = x }/module B where { import A (x) }",
        "14 at 2:27-28 x",
    ),
    (
        "/module A (x) where { data T = C; x = x }/module B where { import A (x, T (..)) }",
        "14 at 2:30-31 T",
    ),
    (
        "/module A (T) where { data T = C }/module B where { import A (T (C)) }",
        "14 at 2:30-31 C",
    ),
    (
        "/module A where { data T = C; x = x }/module B where { import A hiding (x, C, D) }",
        "14 at 2:40-41 D",
    ),
    (
        "/module A where { }/module B where { import A ((+)) }",
        "14 at 2:27-30 +",
    ),
    // 15: a second module of one name, and one named Prelude.
    ("/module A where { }/module A where { }", "15 at 2:7-8 A"),
    ("/module Prelude where { }", "15 at 1:7-14 Prelude"),
    ("/main = main/x = x", "15 at 2:0-0 Main"),
    // 16: a variable, a type, a constructor and a module that an export list names and that are not there.
    ("/module A (x) where { }", "16 at 1:10-11 x"),
    ("/module A (Q.x) where { x = x }", "16 at 1:10-13 x"),
    ("/module A (T (..)) where { x = x }", "16 at 1:10-11 T"),
    (
        "/module A (T (C, D)) where { data T = C }",
        "16 at 1:16-17 D",
    ),
    (
        "/module A (module A, module B) where { x = x }",
        "16 at 1:27-28 B",
    ),
    // 17: a use with two origins, and the item with which one exported name has two.
    (
        "/module A (x) where { import B; x = x }/module B where { x = x }",
        "17 at 1:10-11 x",
    ),
    (
        "/module A (A.x, B.x) where { import B; x = x }/module B where { x = x }",
        "17 at 1:15-18 x",
    ),
    (
        "/module A (A.x, module B) where { import qualified B; import B; x = x }/module B where { x = x }",
        "17 at 1:15-23 x",
    ),
    ("/module A ((+)) where { (+) = x }", "17 at 1:10-13 +"),
    // The order of the refusals: 15, 13, 12, 14, and then 16 and 17.
    (
        "/module A where { import A }/module A where { }",
        "15 at 2:7-8 A",
    ),
    (
        "/module A where { import Q }/module B where { import B }",
        "13 at 2:17-25 B",
    ),
    (
        "/module A where { import B (x) }/module B where { import Q }",
        "12 at 2:17-25 Q",
    ),
    (
        "/module A (x) where { }/module B where { import A (y) }",
        "14 at 2:27-28 y",
    ),
    (
        "/module A (x) where { import B }/module B (y) where { }",
        "16 at 2:10-11 y",
    ),
];

fn agree(rt: &impl Abort, alloc: Global, cases: &[(&str, &str)]) -> Result<(), Fail> {
    for (text, want) in cases {
        let found = shown(rt, alloc, text)?;
        assert!(rt; found.as_str() == *want, "{text}: {found}");
    }
    Ok(())
}

#[test]
fn programs_are_linked(rt: HostRuntime) -> Result<(), Fail> {
    agree(&rt, rt.alloc(), PROGRAMS)
}

#[test]
fn programs_are_refused(rt: HostRuntime) -> Result<(), Fail> {
    agree(&rt, rt.alloc(), REFUSED)
}
