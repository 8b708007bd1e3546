// Small files against their tokens, worked out by hand from the Report's lexical structure.
use gh_base::{Fault, ListOf, Names, NoMemory, Refusal, Span};
use gh_lexer::{NameClass, Token, TokenKind, lex};
use std::alloc::{AllocError, Global};
use std::process::Abort;
use std::test::Fail;

// What a token is to be.
enum Want {
    Name(NameClass, &'static [u8]),
    Qualified(NameClass, &'static [u8], &'static [u8]),
    Word(&'static [u8]),
    Mark(&'static [u8]),
    Int(u64),
    Char(char),
    Str(&'static [char]),
}

fn is_wanted(names: &mut Names, kind: &TokenKind, want: &Want) -> Result<bool, NoMemory> {
    match (kind, want) {
        (TokenKind::Name(class, None, id), Want::Name(wanted, text)) => {
            Ok(*class == *wanted && *id == names.intern(text)?)
        }
        (TokenKind::Name(class, Some(before), id), Want::Qualified(wanted, qualifier, text)) => {
            let same = *before == names.intern(qualifier)?;
            Ok(same && *class == *wanted && *id == names.intern(text)?)
        }
        (TokenKind::Word(id), Want::Word(text)) => Ok(*id == names.intern(text)?),
        (TokenKind::Mark(id), Want::Mark(text)) => Ok(*id == names.intern(text)?),
        (TokenKind::Int(value), Want::Int(wanted)) => Ok(*value == *wanted),
        (TokenKind::Char(value), Want::Char(wanted)) => Ok(*value == *wanted),
        (TokenKind::Str(chars), Want::Str(wanted)) => Ok(chars.as_slice() == *wanted),
        _ => Ok(false),
    }
}

fn tokens(
    rt: &impl Abort,
    alloc: Global,
    names: &mut Names,
    source: &[u8],
) -> Result<ListOf<Token>, Fault> {
    assert!(rt; source.len() <= 1048576);
    lex(alloc, names, 1, source)
}

fn are_wanted(names: &mut Names, found: &[Token], wanted: &[Want]) -> Result<bool, NoMemory> {
    if found.len() != wanted.len() {
        return Ok(false);
    }
    for (token, want) in found.iter().zip(wanted) {
        if !is_wanted(names, &token.kind, want)? {
            return Ok(false);
        }
    }
    Ok(true)
}

// Whether a file has these tokens.
fn has_tokens(
    rt: &impl Abort,
    alloc: Global,
    source: &[u8],
    wanted: &[Want],
) -> Result<bool, Fault> {
    let mut names = Names::new(alloc)?;
    let found = tokens(rt, alloc, &mut names, source)?;
    Ok(are_wanted(&mut names, found.as_slice(), wanted)?)
}

fn check(rt: &impl Abort, alloc: Global, source: &[u8], wanted: &[Want]) -> Result<(), Fault> {
    assert!(rt; has_tokens(rt, alloc, source, wanted)?);
    Ok(())
}

#[test]
fn names_and_words(rt: HostRuntime) -> Result<(), Fail> {
    check(&rt, rt.alloc(), b"", &[])?;
    check(
        &rt,
        rt.alloc(),
        b"x' _a where wherever Tree as",
        &[
            Want::Name(NameClass::VarId, b"x'"),
            Want::Name(NameClass::VarId, b"_a"),
            Want::Word(b"where"),
            Want::Name(NameClass::VarId, b"wherever"),
            Want::Name(NameClass::ConId, b"Tree"),
            Want::Name(NameClass::VarId, b"as"),
        ],
    )?;
    check(
        &rt,
        rt.alloc(),
        b"A.b A.B.c A.+ A.. A.1 A.:+",
        &[
            Want::Qualified(NameClass::VarId, b"A", b"b"),
            Want::Qualified(NameClass::ConId, b"A", b"B"),
            Want::Name(NameClass::VarSym, b"."),
            Want::Name(NameClass::VarId, b"c"),
            Want::Qualified(NameClass::VarSym, b"A", b"+"),
            Want::Qualified(NameClass::VarSym, b"A", b"."),
            Want::Name(NameClass::ConId, b"A"),
            Want::Name(NameClass::VarSym, b"."),
            Want::Int(1),
            Want::Qualified(NameClass::ConSym, b"A", b":+"),
        ],
    )?;
    Ok(())
}

#[test]
fn operators_and_marks(rt: HostRuntime) -> Result<(), Fail> {
    check(
        &rt,
        rt.alloc(),
        b"++ :*: = == => .. : |-- --> f{|a|} *|}",
        &[
            Want::Name(NameClass::VarSym, b"++"),
            Want::Name(NameClass::ConSym, b":*:"),
            Want::Mark(b"="),
            Want::Name(NameClass::VarSym, b"=="),
            Want::Mark(b"=>"),
            Want::Mark(b".."),
            Want::Mark(b":"),
            Want::Name(NameClass::VarSym, b"|--"),
            Want::Name(NameClass::VarSym, b"-->"),
            Want::Name(NameClass::VarId, b"f"),
            Want::Mark(b"{|"),
            Want::Name(NameClass::VarId, b"a"),
            Want::Mark(b"|}"),
            Want::Name(NameClass::VarSym, b"*|"),
            Want::Mark(b"}"),
        ],
    )?;
    check(
        &rt,
        rt.alloc(),
        b"(),;[]`{}",
        &[
            Want::Mark(b"("),
            Want::Mark(b")"),
            Want::Mark(b","),
            Want::Mark(b";"),
            Want::Mark(b"["),
            Want::Mark(b"]"),
            Want::Mark(b"`"),
            Want::Mark(b"{"),
            Want::Mark(b"}"),
        ],
    )?;
    Ok(())
}

#[test]
fn numbers(rt: HostRuntime) -> Result<(), Fail> {
    check(
        &rt,
        rt.alloc(),
        b"007 0x1F 0XaB 0o17 0O7 0xg 1.x 9223372036854775807 0x1.5",
        &[
            Want::Int(7),
            Want::Int(31),
            Want::Int(171),
            Want::Int(15),
            Want::Int(7),
            Want::Int(0),
            Want::Name(NameClass::VarId, b"xg"),
            Want::Int(1),
            Want::Name(NameClass::VarSym, b"."),
            Want::Name(NameClass::VarId, b"x"),
            Want::Int(9223372036854775807),
            Want::Int(1),
            Want::Name(NameClass::VarSym, b"."),
            Want::Int(5),
        ],
    )?;
    Ok(())
}

#[test]
fn characters_and_strings(rt: HostRuntime) -> Result<(), Fail> {
    check(
        &rt,
        rt.alloc(),
        b"'a' '\"' '\\n' '\\'' '\\x41' '\\o101' '\\65' '\xc3\xa9' '\\1114111'",
        &[
            Want::Char('a'),
            Want::Char('"'),
            Want::Char('\n'),
            Want::Char('\''),
            Want::Char('A'),
            Want::Char('A'),
            Want::Char('A'),
            Want::Char('\u{E9}'),
            Want::Char('\u{10FFFF}'),
        ],
    )?;
    check(
        &rt,
        rt.alloc(),
        b"\"\\a\\b\\f\\n\\r\\t\\v\\\\\\\"\\'\" \"\\233\\&1\" \"a\\ \n\t \\b'\" \"\"",
        &[
            Want::Str(&[
                '\u{7}', '\u{8}', '\u{C}', '\u{A}', '\u{D}', '\u{9}', '\u{B}', '\\', '"', '\'',
            ]),
            Want::Str(&['\u{E9}', '1']),
            Want::Str(&['a', 'b', '\'']),
            Want::Str(&[]),
        ],
    )?;
    Ok(())
}

#[test]
fn comments(rt: HostRuntime) -> Result<(), Fail> {
    check(
        &rt,
        rt.alloc(),
        b"a -- b\nc{- {- \" -} -}d{|--|\n",
        &[
            Want::Name(NameClass::VarId, b"a"),
            Want::Name(NameClass::VarId, b"c"),
            Want::Name(NameClass::VarId, b"d"),
            Want::Mark(b"{|"),
            Want::Name(NameClass::VarSym, b"--|"),
        ],
    )?;
    Ok(())
}

fn shown(alloc: Global, number: u32, span: Span) -> Result<String, AllocError> {
    format!(in alloc; "{} at {}:{}-{}", number, span.file, span.from, span.to)
}

// A refusal as text: its number, its file and its bytes.
fn told(alloc: Global, refusal: &Refusal) -> Result<String, AllocError> {
    match refusal.span() {
        Some(span) => shown(alloc, refusal.number(), span),
        None => format!(in alloc; "{}", refusal.number()),
    }
}

// What is refused of a file.
fn refusal(rt: &impl Abort, alloc: Global, source: &[u8]) -> Result<String, Fail> {
    let mut names = Names::new(alloc)?;
    match tokens(rt, alloc, &mut names, source) {
        Ok(_) => Ok(format!(in alloc; "nothing")?),
        Err(Fault::Refused(refusal)) => Ok(told(alloc, &refusal)?),
        Err(Fault::NoMemory) => Ok(format!(in alloc; "no memory")?),
    }
}

// Files that are refused, each with the number of the refusal, the file and the bytes.
const REFUSED: &[(&[u8], &str)] = &[
    // Numbers.
    (b"x 9223372036854775808", "5 at 1:2-21"),
    (b"0x8000000000000000", "5 at 1:0-18"),
    (b" 1.5", "2 at 1:1-2"),
    (b"1e+5", "2 at 1:0-1"),
    (b"99999999999999999999.5", "2 at 1:0-1"),
    // Characters and strings.
    (b"main = \"a", "4 at 1:7-8"),
    (b"'ab'", "4 at 1:0-1"),
    (b"''", "4 at 1:0-1"),
    (b"'\\&'", "4 at 1:0-1"),
    (b"\"\\q\"", "4 at 1:0-1"),
    (b"\"a\tb\"", "4 at 1:0-1"),
    (b"x \"ab\\55296c\"", "5 at 1:5-11"),
    (b"'\\1114112'", "5 at 1:1-9"),
    (b"\"\\1114112", "4 at 1:0-1"),
    // Comments.
    (b"a {- {- -} b", "3 at 1:2-3"),
    (b"{-}", "3 at 1:0-1"),
    // Bytes that are no text, and pieces that are no tokens.
    (b"a # \x01", "2 at 1:4-5"),
    (b"a \xc3\xa9", "2 at 1:2-3"),
    (b"\x01 \xff", "1 at 1:2-3"),
    (b"A.where", "2 at 1:0-1"),
    (b" A.= b", "2 at 1:1-2"),
    (b" A.-- b", "2 at 1:1-2"),
];

#[test]
fn files_are_refused(rt: HostRuntime) -> Result<(), Fail> {
    for (source, want) in REFUSED {
        assert!(rt;
            refusal(&rt, rt.alloc(), source)?.as_str() == *want,
            "{source:?}"
        );
    }
    Ok(())
}

fn are_at(found: &[Token], wanted: &[(u32, u32, bool)]) -> bool {
    if found.len() != wanted.len() {
        return false;
    }
    for (token, want) in found.iter().zip(wanted) {
        if (token.line, token.column, token.first) != *want {
            return false;
        }
    }
    true
}

// Whether each token begins at this line and column, and is the first of its line or not.
fn has_places(
    rt: &impl Abort,
    alloc: Global,
    source: &[u8],
    wanted: &[(u32, u32, bool)],
) -> Result<bool, Fault> {
    let mut names = Names::new(alloc)?;
    let found = tokens(rt, alloc, &mut names, source)?;
    Ok(are_at(found.as_slice(), wanted))
}

const PLACES: &[(u32, u32, bool)] = &[
    (1, 1, true),
    (1, 9, false),
    (2, 1, true),
    (2, 3, false),
    (3, 1, true),
    (4, 1, true),
    (6, 8, true),
    (6, 10, false),
    (7, 4, true),
];

#[test]
fn tokens_have_places(rt: HostRuntime) -> Result<(), Fail> {
    let source = b"a\tb\r\nc d\re\x0cf\n\n {-\xc3\xa9-} g \"x\\\n\\\" h\n";
    assert!(rt; has_places(&rt, rt.alloc(), source, PLACES)?);
    Ok(())
}

// What is refused of a name of so many letters.
fn refusal_of_name(rt: &impl Abort, alloc: Global, length: u32) -> Result<String, Fail> {
    let mut name: ListOf<u8> = ListOf::new(alloc);
    for _ in 0..length {
        name.push(b'a')?;
    }
    refusal(rt, alloc, name.as_slice())
}

#[test]
fn a_name_has_at_most_255_bytes(rt: HostRuntime) -> Result<(), Fail> {
    for (length, want) in [(255, "nothing"), (256, "6 at 1:0-256")] {
        assert!(rt;
            refusal_of_name(&rt, rt.alloc(), length)?.as_str() == want,
            "{length} bytes"
        );
    }
    Ok(())
}
