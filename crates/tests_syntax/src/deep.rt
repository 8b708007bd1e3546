// Forms that nest, each two thousand levels deep and a hundred thousand: the first are refused as too deep, and for the
// others there is an answer, so that no file ends the process.
use gh_base::{Fault, ListOf, Names, NoMemory, Refusal};
use gh_layout::lay;
use gh_lexer::{Token, TokenKind, lex};
use gh_parser::parse;
use std::alloc::{AllocError, Global};
use std::process::Abort;
use std::test::Fail;

// What stands before the levels, what opens a level, what stands inside, and what closes a level.
const FORMS: &[[&str; 4]] = &[
    // Expressions between brackets.
    ["x =", "(", "y", ")"],
    ["x =", "[", "y", "]"],
    ["x =", "[z ,", "y", "]"],
    ["x =", "( z ,", "y", ")"],
    ["x =", "(", "y", ", z )"],
    ["x =", "(", "y", "+ )"],
    ["x =", "( +", "y", ")"],
    ["x =", "( f", "y", ")"],
    ["x =", "( a +", "y", ")"],
    ["x =", "(", "y", ":: A )"],
    // Types.
    ["x ::", "(", "A", ")"],
    ["x ::", "[", "A", "]"],
    ["x ::", "( A ,", "A", ")"],
    ["x ::", "( A", "A", ")"],
    ["x ::", "( A ->", "A", ")"],
    ["data T = C", "(", "A", ")"],
    ["x = y {|", "(", "A", ")"],
    // Patterns and left sides.
    ["f", "(", "x", ")"],
    ["f", "[", "x", "]"],
    ["f", "( z ,", "x", ")"],
    ["f", "( C", "x", ")"],
    ["f", "( a :", "x", ")"],
    ["f", "x @", "x", ""],
    ["", "(", "C x", ")"],
    ["", "(", "f x", ") y"],
    // Open operands.
    ["x =", "\\ a ->", "y", ""],
    ["x =", "if a then b else", "y", ""],
    ["x =", "if a then", "y", "else c"],
    ["x =", "if", "a", "then b else c"],
    ["x =", "let { a = b } in", "y", ""],
    ["x =", "let { a =", "y", "} in z"],
    ["x =", "let { a {| b |} =", "y", "} in z"],
    // Alternatives and local declarations.
    ["x =", "case", "a", "of { b -> c }"],
    ["x =", "case a of { b ->", "c", "}"],
    ["x =", "case a of { b | c ->", "d", "}"],
    ["x =", "case a of { b |", "c", "-> d }"],
    ["x", "= y where { a", "= b", "}"],
    ["x", "| c = y where { a", "= b", "}"],
];

// Forms whose levels are two levels each, or whose drop takes the most: they are answered, however deep.
const DOUBLED: &[[&str; 4]] = &[
    ["x =", "let { a | b =", "y", "} in z"],
    ["x =", "let { a | (", "y", ") = b } in z"],
    ["x =", "case a of { b -> c where { d =", "e", "} }"],
];

// What stands behind the levels, by what stands before them.
fn end(head: &str) -> &'static str {
    match head {
        "x = y {|" => "|}",
        "f" | "" => "= y",
        _ => "",
    }
}

// A token with names alone, as it stands inside a line.
fn copied(token: &Token) -> Token {
    let kind = match &token.kind {
        TokenKind::Name(class, qualifier, name) => TokenKind::Name(*class, *qualifier, *name),
        TokenKind::Word(name) => TokenKind::Word(*name),
        TokenKind::Mark(name) => TokenKind::Mark(*name),
        TokenKind::Int(value) => TokenKind::Int(*value),
        TokenKind::Char(value) => TokenKind::Char(*value),
        TokenKind::Str(_) => TokenKind::Int(0),
    };
    Token {
        kind,
        span: token.span,
        line: 1,
        column: 1,
        first: false,
    }
}

// The tokens of a short text, so many times.
fn add(
    rt: &impl Abort,
    alloc: Global,
    names: &mut Names,
    found: ListOf<Token>,
    text: &str,
    times: u32,
) -> Result<ListOf<Token>, Fail> {
    assert!(rt; text.len() < 1000);
    match lex(alloc, names, 1, text.as_bytes()) {
        Ok(tokens) => Ok(repeated(found, tokens.as_slice(), times)?),
        Err(_) => Ok(found),
    }
}

fn repeated(found: ListOf<Token>, tokens: &[Token], times: u32) -> Result<ListOf<Token>, NoMemory> {
    let mut all = found;
    for _ in 0..times {
        for token in tokens {
            all.push(copied(token))?;
        }
    }
    Ok(all)
}

fn form(
    rt: &impl Abort,
    alloc: Global,
    form: &[&str; 4],
    levels: u32,
) -> Result<ListOf<Token>, Fail> {
    let mut names = Names::new(alloc)?;
    let [head, opening, inside, closing] = form;
    let found = ListOf::new(alloc);
    let found = add(rt, alloc, &mut names, found, head, 1)?;
    let found = add(rt, alloc, &mut names, found, opening, levels)?;
    let found = add(rt, alloc, &mut names, found, inside, 1)?;
    let found = add(rt, alloc, &mut names, found, closing, levels)?;
    add(rt, alloc, &mut names, found, end(head), 1)
}

// What the parser says of these tokens.
fn answer(rt: &impl Abort, alloc: Global, tokens: &ListOf<Token>) -> Result<&'static str, Fail> {
    assert!(rt; tokens.as_slice().len() < 10_000_000);
    let Ok(laid) = lay(alloc, tokens) else {
        return Ok("no layout");
    };
    match parse(alloc, tokens, &laid) {
        Ok(_) => Ok("a tree"),
        Err(Fault::NoMemory) => Ok("no memory"),
        Err(Fault::Refused(Refusal::TooDeep { .. })) => Ok("too deep"),
        Err(_) => Ok("no tree"),
    }
}

fn answer_of(
    rt: &impl Abort,
    alloc: Global,
    parts: &[&str; 4],
    levels: u32,
) -> Result<&'static str, Fail> {
    let tokens = form(rt, alloc, parts, levels)?;
    answer(rt, alloc, &tokens)
}

#[test]
fn two_levels_are_read(rt: HostRuntime) -> Result<(), Fail> {
    for parts in FORMS {
        assert!(rt;
            answer_of(&rt, rt.alloc(), parts, 2)? == "a tree",
            "{}",
            parts[1]
        );
    }
    Ok(())
}

#[test]
fn two_thousand_levels_are_refused(rt: HostRuntime) -> Result<(), Fail> {
    for parts in FORMS {
        assert!(rt;
            answer_of(&rt, rt.alloc(), parts, 2000)? == "too deep",
            "{}",
            parts[1]
        );
    }
    Ok(())
}

fn all_are_answered(rt: &impl Abort, alloc: Global, forms: &[[&str; 4]]) -> Result<(), Fail> {
    for parts in forms {
        let found = answer_of(rt, alloc, parts, 100_000)?;
        assert!(rt;
            found == "no memory" || found == "too deep",
            "{} {found}",
            parts[1]
        );
    }
    Ok(())
}

#[test]
fn a_hundred_thousand_levels_are_answered(rt: HostRuntime) -> Result<(), Fail> {
    all_are_answered(&rt, rt.alloc(), FORMS)?;
    all_are_answered(&rt, rt.alloc(), DOUBLED)
}

// A text with comments inside one another.
fn comments(alloc: Global, levels: u32) -> Result<String, AllocError> {
    let mut text = String::new(alloc);
    for _ in 0..levels {
        text.push_str("{-")?;
    }
    for _ in 0..levels {
        text.push_str("-}")?;
    }
    Ok(text)
}

fn count_of(rt: &impl Abort, alloc: Global, text: &str) -> Result<usize, Fail> {
    assert!(rt; text.len() < 1_000_000);
    let mut names = Names::new(alloc)?;
    match lex(alloc, &mut names, 1, text.as_bytes()) {
        Ok(tokens) => Ok(tokens.as_slice().len()),
        Err(_) => Ok(1),
    }
}

#[test]
fn a_hundred_thousand_comments_are_white_space(rt: HostRuntime) -> Result<(), Fail> {
    let text = comments(rt.alloc(), 100_000)?;
    assert_eq!(rt; count_of(&rt, rt.alloc(), text.as_str())?, 0);
    Ok(())
}
