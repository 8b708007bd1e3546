// Texts that are read, and texts that are refused, each with the item that is.
use gh_base::{Fault, ListOf, Names, Refusal, Span};
use gh_layout::lay;
use gh_lexer::{Token, lex};
use gh_parser::parse;
use gh_tree::Item;
use std::alloc::{AllocError, Global};
use std::process::Abort;
use std::test::Fail;

// What a text is: a tree with so many items, or a refusal with its bytes.
fn shown(rt: &impl Abort, alloc: Global, text: &str) -> Result<String, Fail> {
    assert!(rt; text.len() < 9000);
    let mut names = Names::new(alloc)?;
    match lex(alloc, &mut names, 1, text.as_bytes()) {
        Ok(tokens) => shown_tokens(rt, alloc, &tokens),
        Err(_) => Ok(format!(in alloc; "no tokens")?),
    }
}

fn shown_tokens(rt: &impl Abort, alloc: Global, tokens: &ListOf<Token>) -> Result<String, Fail> {
    assert!(rt; tokens.as_slice().len() < 9000);
    let Ok(laid) = lay(alloc, tokens) else {
        return Ok(format!(in alloc; "no layout")?);
    };
    match parse(alloc, tokens, &laid) {
        Ok(tree) => Ok(format!(in alloc;
            "{} {}",
            form(&tree.first),
            tree.others.as_slice().len()
        )?),
        Err(fault) => Ok(refused(alloc, &fault)?),
    }
}

fn refused(alloc: Global, fault: &Fault) -> Result<String, AllocError> {
    match fault {
        Fault::Refused(Refusal::NoParse { span }) => shown_span(alloc, "no parse", *span),
        Fault::Refused(Refusal::TooDeep { span }) => shown_span(alloc, "too deep", *span),
        _ => format!(in alloc; "other"),
    }
}

fn shown_span(alloc: Global, why: &str, span: Span) -> Result<String, AllocError> {
    format!(in alloc; "{} {}-{}", why, span.from, span.to)
}

fn form(item: &Item) -> &'static str {
    match item {
        Item::Empty => "empty",
        Item::Import(_) => "import",
        Item::Top(_) => "top",
    }
}

// Texts, each with what it is.
const FILES: &[(&str, &str)] = &[
    // Items are numbered, the empty ones too.
    ("", "empty 0"),
    ("main = \"\"", "top 0"),
    ("{ main = x ; }", "top 1"),
    ("module M (main) where { ; import A ; main = x }", "empty 2"),
    ("import A\nmain = x", "import 1"),
    // The list of a type's constructors may be empty.
    ("module M (main, T ()) where { main = x }", "top 0"),
    ("module M (T(), U(..), V(C)) where { main = x }", "top 0"),
    ("import A hiding (T())\nmain = x", "import 1"),
    ("import A (T(), U(C))\nmain = x", "import 1"),
    ("module M (T(,)) where { main = x }", "no parse 0-21"),
    ("data T a b c d e f g h i = T", "top 0"),
    // The bytes are those of the whole item, and the first item that is refused is named.
    ("main = = \"\"", "no parse 0-11"),
    ("x = y\nmain = =", "no parse 6-14"),
    ("x = =\nmain = =", "no parse 0-5"),
    ("main = x\nimport A", "no parse 9-17"),
    ("module m where { x = y }", "no parse 0-14"),
    ("{ main = x } ; y = x", "no parse 2-20"),
];

#[test]
fn files_are_read(rt: HostRuntime) -> Result<(), Fail> {
    for (text, want) in FILES {
        assert!(rt; shown(&rt, rt.alloc(), text)?.as_str() == *want, "{text}");
    }
    Ok(())
}

// The fields of a constructor do not weigh: an item, a declaration, a constructor and a field are four nodes.
fn fields(alloc: Global, count: u32) -> Result<String, AllocError> {
    let mut text = format!(in alloc; "data T = C")?;
    for _ in 0..count {
        text.push_str(" a")?;
    }
    Ok(text)
}

#[test]
fn many_fields_are_not_deep(rt: HostRuntime) -> Result<(), Fail> {
    let text = fields(rt.alloc(), 1998)?;
    assert!(rt; shown(&rt, rt.alloc(), text.as_str())?.as_str() == "top 0");
    Ok(())
}

// `x = y` has depth eight, and each pair of parentheses adds four: with 498 pairs it is 2,000.
fn nested(alloc: Global, pairs: u32) -> Result<String, AllocError> {
    let mut text = format!(in alloc; "x = ")?;
    for _ in 0..pairs {
        text.push('(')?;
    }
    text.push('y')?;
    for _ in 0..pairs {
        text.push(')')?;
    }
    Ok(text)
}

fn shown_nested(rt: &impl Abort, alloc: Global, pairs: u32) -> Result<String, Fail> {
    shown(rt, alloc, nested(alloc, pairs)?.as_str())
}

#[test]
fn depth_two_thousand_is_accepted(rt: HostRuntime) -> Result<(), Fail> {
    for (pairs, want) in [(498, "top 0"), (499, "too deep 0-1003")] {
        assert!(rt;
            shown_nested(&rt, rt.alloc(), pairs)?.as_str() == want,
            "{pairs}"
        );
    }
    Ok(())
}
