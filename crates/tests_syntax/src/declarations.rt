// Texts whose declarations keep the rules, and texts that do not, each with the number and the bytes that are refused.
use gh_base::{ListOf, Names, Refusal};
use gh_declarations::declaration_fault;
use gh_layout::lay;
use gh_lexer::{Token, lex};
use gh_parser::parse;
use gh_tree::ModuleTree;
use std::alloc::{AllocError, Global};
use std::process::Abort;
use std::test::Fail;

// What the rules say of a text in the file of this number.
fn shown(rt: &impl Abort, alloc: Global, file: u32, text: &str) -> Result<String, Fail> {
    assert!(rt; text.len() < 900_000);
    let mut names = Names::new(alloc)?;
    match lex(alloc, &mut names, file, text.as_bytes()) {
        Ok(tokens) => shown_tokens(rt, alloc, file, &tokens),
        Err(_) => Ok(format!(in alloc; "no tokens")?),
    }
}

fn shown_tokens(
    rt: &impl Abort,
    alloc: Global,
    file: u32,
    tokens: &ListOf<Token>,
) -> Result<String, Fail> {
    assert!(rt; tokens.as_slice().len() < 900_000);
    let Ok(laid) = lay(alloc, tokens) else {
        return Ok(format!(in alloc; "no layout")?);
    };
    match parse(alloc, tokens, &laid) {
        Ok(tree) => shown_tree(alloc, file, &tree),
        Err(_) => Ok(format!(in alloc; "no tree")?),
    }
}

fn shown_tree(alloc: Global, file: u32, tree: &ModuleTree) -> Result<String, Fail> {
    match declaration_fault(alloc, file, tree)? {
        None => Ok(format!(in alloc; "none")?),
        Some(refusal) => Ok(refused(alloc, &refusal)?),
    }
}

fn refused(alloc: Global, refusal: &Refusal) -> Result<String, AllocError> {
    match refusal.span() {
        None => format!(in alloc; "no place"),
        Some(span) => format!(in alloc; "{} {}-{}", refusal.number(), span.from, span.to),
    }
}

// Texts, each with what the rules say.
const FILES: &[(&str, &str)] = &[
    // Definitions, and clauses of one definition.
    ("x = 1", "none"),
    ("x = 1\nx = 2", "18 6-7"),
    ("f 0 = 1\nf 1 = 2", "none"),
    ("{ f 0 = 1 ; ; f 1 = 2 }", "none"),
    ("f 0 = 1\nf = 2", "19 8-13"),
    ("f = 1\nf 0 = 2", "18 6-7"),
    ("f 0 = 1\ng = 2\nf 1 = 3", "18 14-15"),
    ("f 0 = 1\n() = y\nf 1 = 2", "18 15-16"),
    ("(a +++ b) c = 1\na +++ b = 2", "19 16-27"),
    ("f = let { g 0 = 1 ; g 1 2 = 3 } in g", "19 20-29"),
    ("f = let { x = 1 ; y = 2 ; x = 3 } in x", "18 26-27"),
    // Variables of patterns that are bound are names of the list.
    ("(x, x) = e", "18 4-5"),
    ("(x) = 1\nx = 2", "18 8-9"),
    ("x = 1\n[y, x] = z", "18 10-11"),
    // Types, constructors, signatures and fixities.
    ("data T = T", "none"),
    ("data T = C | C", "18 13-14"),
    ("data T = A\ntype T = B", "18 16-17"),
    ("data T = A\nnewtype U = A B", "18 23-24"),
    ("x :: Int\nx :: Int\nx = 1", "18 9-10"),
    ("infixl 6 +++\ninfixr 5 +++\na +++ b = a", "18 22-25"),
    // A variable in one list of patterns.
    ("f x x = 1", "20 4-5"),
    ("f _ _ = 1", "none"),
    ("f (x, y) (C y) = 1", "20 12-13"),
    ("f x@(y, x) = 1", "20 8-9"),
    ("x +++ x = 1", "20 6-7"),
    ("(x +++ y) x = 1", "20 10-11"),
    ("f x = 1 where x = 2", "none"),
    ("f = \\x x -> 1", "20 7-8"),
    ("f = \\x -> \\x -> 1", "none"),
    ("f y = case y of (x, x) -> 1", "20 20-21"),
    ("f y = case y of { C x -> 1 ; D x -> 2 }", "none"),
    // Parameters.
    ("data T a a = C", "20 9-10"),
    ("type T a b a = B", "20 11-12"),
    ("newtype N a a = N a", "20 12-13"),
    // Signatures and fixities without a definition in their list.
    ("x :: Int", "22 0-1"),
    ("x, y :: Int\nx = 1", "22 3-4"),
    ("(+++) :: Int", "22 0-5"),
    ("x = 1 where y :: Int", "22 12-13"),
    ("y = 1\nx = 2 where y :: Int", "22 18-19"),
    ("infixl 6 +++\na +++ b = a", "none"),
    ("infixl 6 +++", "22 9-12"),
    ("infixl 6 `f`", "22 9-12"),
    ("infixl 6 `f`\nf a b = a", "none"),
    ("infixl 6 :+\ndata T = T :+ T", "none"),
    ("infixl 6 +", "22 9-10"),
    // Generic functions: the signature is a definition too.
    ("x{|a|} :: a\nx = 1", "18 12-13"),
    ("x{|a|} :: a\nx :: Int", "18 12-13"),
    ("x{|a|} :: a\ninfixl 5 `x`", "none"),
    ("x{|a|} :: a\nx{|Int|} = 1\nx{|Int|} y = 2", "19 25-39"),
    ("x{|a|} :: a\nx{|Int|} = 1\nx{|Char|} y = 2", "none"),
    ("x{|a|} :: a\nx{|Int|} y y = 1", "20 23-24"),
    // The first byte decides.
    ("f x x = 1\nf = 2", "20 4-5"),
    ("f 0 = 1\nf x x = 2", "19 8-17"),
    ("y :: Int\nx = 1\nx = 2", "22 0-1"),
];

#[test]
fn files_are_judged(rt: HostRuntime) -> Result<(), Fail> {
    for (text, want) in FILES {
        assert!(rt;
            shown(&rt, rt.alloc(), 1, text)?.as_str() == *want,
            "{text}"
        );
    }
    Ok(())
}

// The primitives are definitions of the Prelude, file 0.
#[test]
fn the_prelude_has_its_primitives(rt: HostRuntime) -> Result<(), Fail> {
    let text = "infixl 6 +, `quot`";
    assert!(rt; shown(&rt, rt.alloc(), 0, text)?.as_str() == "none");
    assert!(rt; shown(&rt, rt.alloc(), 0, "x + y = x")?.as_str() == "18 2-3");
    Ok(())
}

// So many bindings of different names.
fn many(alloc: Global, count: u32) -> Result<String, AllocError> {
    let mut text = format!(in alloc; "x = 1")?;
    for i in 0..count {
        let line = format!(in alloc; "\nx{i} = 1")?;
        text.push_str(line.as_str())?;
    }
    Ok(text)
}

#[test]
fn two_thousand_names_are_told_apart(rt: HostRuntime) -> Result<(), Fail> {
    let text = many(rt.alloc(), 2_000)?;
    assert!(rt; shown(&rt, rt.alloc(), 1, text.as_str())?.as_str() == "none");
    Ok(())
}
