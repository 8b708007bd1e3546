// Layouts that were worked by hand. Beside the lines of a file stand the laid tokens: a number is a token of the file,
// and `B`, `S` and `E` are an inserted `{`, `;` and `}`. `bad` and `open` are refusals at the token of that place.
use gh_base::{Fault, ListOf, NameId, Names, NoMemory, Refusal, Span};
use gh_layout::{LaidToken, lay};
use gh_lexer::{NameClass, Token, TokenKind};
use std::alloc::{AllocError, Global};
use std::process::Abort;
use std::test::Fail;

// What a word is: the reserved words come first among the fixed texts, and then the marks.
fn kind_of(alloc: Global, word: &str, id: NameId) -> TokenKind {
    if word.starts_with('"') {
        TokenKind::Str(ListOf::new(alloc))
    } else if id.0 < 22 {
        TokenKind::Word(id)
    } else if id.0 < 44 {
        TokenKind::Mark(id)
    } else {
        TokenKind::Name(NameClass::VarId, None, id)
    }
}

// The column behind a word and a space.
fn behind(column: u32, word: &str) -> u32 {
    column
        .saturating_add(u32::try_from(word.len()).unwrap_or(0))
        .saturating_add(1)
}

// The words of a line as tokens, behind others.
fn push_line(
    alloc: Global,
    names: &mut Names,
    tokens: &mut ListOf<Token>,
    line: &str,
) -> Result<(), NoMemory> {
    let mut column: u32 = 1;
    let mut first = true;
    for word in line.split(' ') {
        if !word.is_empty() {
            let place = u32::try_from(tokens.as_slice().len()).unwrap_or(0);
            let kind = kind_of(alloc, word, names.intern(word.as_bytes())?);
            let span = Span {
                file: 1,
                from: place,
                to: place.saturating_add(1),
            };
            tokens.push(Token {
                kind,
                span,
                line: 1,
                column,
                first,
            })?;
            first = false;
        }
        column = behind(column, word);
    }
    Ok(())
}

// The tokens of a file whose words are parted by spaces. The bytes of a token are its place and the one after it.
fn tokens_of(alloc: Global, text: &str) -> Result<ListOf<Token>, NoMemory> {
    let mut names = Names::new(alloc)?;
    let mut tokens = ListOf::new(alloc);
    for line in text.split('\n') {
        push_line(alloc, &mut names, &mut tokens, line)?;
    }
    Ok(tokens)
}

// A laid file as text.
fn shown(alloc: Global, laid: &[LaidToken]) -> Result<String, AllocError> {
    let mut text = String::new(alloc);
    for token in laid {
        let part = match token {
            LaidToken::Real(place) => format!(in alloc; "{place} ")?,
            LaidToken::Begin(place) => format!(in alloc; "B{place} ")?,
            LaidToken::Semi(place) => format!(in alloc; "S{place} ")?,
            LaidToken::End(place) => format!(in alloc; "E{place} ")?,
        };
        text.push_str(&part)?;
    }
    Ok(text)
}

// A refusal as text.
fn refused(alloc: Global, fault: &Fault) -> Result<String, AllocError> {
    match fault {
        Fault::Refused(Refusal::BadLayout { span }) => format!(in alloc; "bad {} ", span.from),
        Fault::Refused(Refusal::Unclosed { span }) => format!(in alloc; "open {} ", span.from),
        Fault::Refused(_) => format!(in alloc; "another "),
        Fault::NoMemory => format!(in alloc; "no memory "),
    }
}

fn answer(rt: &impl Abort, alloc: Global, text: &str) -> Result<String, Fail> {
    let tokens = tokens_of(alloc, text)?;
    assert!(rt; tokens.as_slice().len() < 1000);
    Ok(match lay(alloc, &tokens) {
        Ok(laid) => shown(alloc, laid.as_slice())?,
        Err(fault) => refused(alloc, &fault)?,
    })
}

// Files, each with its layout.
const FILES: &[&str] = &[
    // Where blocks begin, or stand empty.
    "x = let y = 1 in y => B0 0 1 2 B3 3 4 5 E6 6 7 E8",
    "module M where\nx = 1 => 0 1 2 B3 3 4 5 E6",
    "let x = \"a\" in x => B0 0 B1 1 2 3 E4 4 5 E6",
    "x = y where\n        z = 1 => B0 0 1 2 3 B4 4 5 6 E7 E7",
    " => B0 E0",
    "x = y where\nz = 1 => B0 0 1 2 3 B4 E4 S4 4 5 6 E7",
    "x = y where => B0 0 1 2 3 B4 E4 E4",
    // What a line begins, ends, or goes on with.
    "x = 1\n  + 2\ny = 3 => B0 0 1 2 3 4 S5 5 6 7 E8",
    "x = 1\n+ 2 => B0 0 1 2 S3 3 4 E5",
    "x = y where\n  y = z where\n    z = 1\nw = 2 => B0 0 1 2 3 B4 4 5 6 7 B8 8 9 10 E11 E11 S11 11 12 13 E14",
    "  x = 1\ny = 2 => B0 0 1 2 E3 3 4 5",
    "x = (\ny => bad 3",
    "x = let y = [\n        z in y => bad 6",
    "  x = (\ny => bad 3",
    "x = let => bad 2",
    // Blocks in braces.
    "module M where {\nx = 1 ;\ny = 2 } => 0 1 2 3 4 5 6 7 8 9 10 11",
    "x = y where { z = case w of a -> 1 } => B0 0 1 2 3 4 5 6 7 8 9 B10 10 11 12 E13 13 E14",
    "{ x = 1 } => 0 1 2 3 4",
    "x = } => bad 2",
    "x = let { y = 1 } in y => B0 0 1 2 3 4 5 6 7 8 9 E10",
    // Semicolons, commas and `where`.
    "x = 1 ; y = 2 => B0 0 1 2 3 4 5 6 E7",
    "x = case y of a -> 1 ; where z = 2 => B0 0 1 2 3 4 B5 5 6 7 8 E9 9 B10 10 11 12 E13 E13",
    "x = ( case y of z -> 1 , let a = 1 in a ) => B0 0 1 2 3 4 5 B6 6 7 8 E9 9 10 B11 11 12 13 E14 14 15 16 E17",
    "x = [ let ( a , b ) = y in a ] => B0 0 1 2 3 B4 4 5 6 7 8 9 10 E11 11 12 13 E14",
    "x = let a , b = y in a => B0 0 1 2 B3 3 4 5 6 7 E8 8 9 E10",
    "x = [ case a of b -> let c = d in c , e ] => B0 0 1 2 3 4 5 B6 6 7 8 B9 9 10 11 E12 12 13 E14 14 15 16 E17",
    "x = case y of\n  z -> 1\n  where w = 1 => B0 0 1 2 3 4 B5 5 6 7 S8 E8 8 B9 9 10 11 E12 E12",
    "x = y where z = w where v = 1 => B0 0 1 2 3 B4 4 5 6 7 B8 8 9 10 E11 E11 E11",
    "where x = 1 => B0 0 B1 1 2 3 E4 E4",
    // What brackets and keywords end.
    "x = ( case y of z -> 1 ) => B0 0 1 2 3 4 5 B6 6 7 8 E9 9 E10",
    "x {| a |} = y => B0 0 1 2 3 4 5 E6",
    "x = let y = let z = 1 in z in y => B0 0 1 2 B3 3 4 5 B6 6 7 8 E9 9 10 E11 11 12 E13",
    "x = case y of z -> 1 => B0 0 1 2 3 4 B5 5 6 7 E8 E8",
    "x = if case y of z -> a then 1 else 2 => B0 0 1 2 3 4 5 B6 6 7 8 E9 9 10 11 12 E13",
    "x = ] => bad 2",
    "x = ( y ] => bad 4",
    "x = y of => bad 3",
    "x = then => bad 2",
    "x = if y else z => bad 4",
    "x = in => bad 2",
    // What is left open.
    "main = ( => open 2",
    "x = let y = 1 => open 2",
    "x = { => open 2",
    "x = ( if y then let z = 1 => open 2",
    "x = if y then ( 1 ) => open 2",
    "x = case [ y => open 2",
];

#[test]
fn files_are_laid_out(rt: HostRuntime) -> Result<(), Fail> {
    for file in FILES {
        let (text, want) = file.split_once(" => ").unwrap_or((file, ""));
        assert!(rt; answer(&rt, rt.alloc(), text)?.trim_end() == want, "{text}");
    }
    Ok(())
}
