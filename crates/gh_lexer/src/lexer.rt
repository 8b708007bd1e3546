// From bytes to tokens.
ghost use Rattle.std.specs.Prelude.{◌≡◌, ◌≤◌, ◌<◌, ◌^◌, length, IfOk, Ok, Err, ◌+◌, not, ◌==◌};
ghost use Rattle.gh_base.specs.declared.refusal.Refusal.{Refusal};
ghost use Rattle.gh_base.specs.Table.{IsGrown, grown_same};
ghost use Rattle.gh_lexer.specs.Reading.{Lexemes, read, reading, refusal_of, span_at};
ghost use Rattle.gh_lexer.specs.Seen.{lexemes_in, AllPlaced};
ghost use Rattle.gh_lexer.specs.Cut.{IsReading};

use crate::classes::{from_place, front};
use crate::kinds::{kind_of, one_byte};
use crate::place::{Place, advance};
use crate::scan::Wrong;
use crate::scanner::scan;
use crate::token::{Token, TokenKind};
use gh_base::{Fault, ListOf, Names, Refusal, Span};
use std::alloc::Global;

fn refusal(wrong: Wrong, file: u32, at: u32) -> Refusal
    requires { at < 2 ^ 31 }
    ensures { result ≡ refusal_of file at wrong }
{
    let span = one_byte(file, at);
    match wrong {
        Wrong::NoToken => Refusal::NoToken { span },
        Wrong::OpenComment => Refusal::OpenComment { span },
        Wrong::OpenText => Refusal::OpenText { span },
    }
}

// A token of so many bytes, where the last token before it began on the line `last`.
fn token_at(kind: TokenKind, file: u32, at: usize, len: usize, place: Place, last: u32) -> Token
    requires { at + len < 2 ^ 31 }
    ensures { result ≡ record {
      kind = kind;
      span = span_at file at (at + len);
      line = place.line;
      column = place.column;
      first = not (place.line == last);
    } }
{
    let span = Span {
        file,
        from: at as u32,
        to: (at + len) as u32,
    };
    let first = place.line != last;
    Token {
        kind,
        span,
        line: place.line,
        column: place.column,
        first,
    }
}

// The tokens of a file that is UTF-8.
fn tokens_of(
    alloc: Global,
    names: &mut Names,
    file: u32,
    bytes: &[u8],
) -> Result<ListOf<Token>, Fault>
    requires { length bytes.now ≤ 1048576 }
    ensures found { IfOk result (λ ts. read file bytes.now ≡ Ok (lexemes_in names.new ts)) }
    ensures refused { (r : Refusal) → result ≡ Err (Fault.Refused r) → read file bytes.now ≡ Err r }
    ensures ids { IfOk result (λ ts. AllPlaced names.new ts) }
    ensures grows { IsGrown names.old names.new }
{
    let mut tokens = ListOf::new(alloc);
    let mut at: usize = 0;
    let mut place = Place { line: 1, column: 1 };
    let mut last: u32 = 0;
    while at < bytes.len() {
        let rest = from_place(bytes, at);
        let found = match scan(rest) {
            Ok(found) => found,
            Err(wrong) => return Err(Fault::Refused(refusal(wrong, file, at as u32))),
        };
        let text = front(rest, found.len);
        let kind = match kind_of(alloc, names, file, at as u32, found.class, text) {
            Ok(kind) => kind,
            Err(fault) => return Err(fault),
        };
        let after = advance(place, rest, found.len);
        if let Some(kind) = kind {
            tokens.push(token_at(kind, file, at, found.len, place, last))?;
            last = place.line;
        }
        place = after;
        at += found.len;
    }
    Ok(tokens)
}

/// The tokens of a file (Haskell 98 Report, 2; `{|` and `|}` are those of generic calls), or its first refusal of
/// `NotUtf8`, `NoToken`, `OpenComment`, `OpenText`, `NumberOutOfRange` and `NameTooLong`. Spans are in bytes of the
/// file from 0 and have its number; lines and columns count from 1. The names of the tokens are added to the table,
/// which may have grown after a refusal too. Without memory the answer is `NoMemory`.
#[tactic(auto, using(crate::proofs::Law::reading_is, crate::proofs::Once::reading_once))]
pub fn lex(
    alloc: Global,
    names: &mut Names,
    file: u32,
    bytes: &[u8],
) -> Result<ListOf<Token>, Fault>
    requires { length bytes.now ≤ 1048576 }
    // The tokens are those of the reading, and a refusal is the reading's.
    ensures found { IfOk result (λ ts. reading file bytes.now ≡ Ok (lexemes_in names.new ts)) }
    ensures refused { (r : Refusal) → result ≡ Err (Fault.Refused r) → reading file bytes.now ≡ Err r }
    // The reading cuts the file into white space, comments and pieces of tokens, each the longest at its place.
    ensures cut { IsReading file bytes.now (reading file bytes.now) }
    // A file has at most one reading.
    ensures once { (a : Lexemes) → (b : Lexemes)
        → IsReading file bytes.now a → IsReading file bytes.now b → a ≡ b }
    // The ids are of the table, each the number that the table gives its text.
    ensures ids { IfOk result (λ ts. AllPlaced names.new ts) }
    ensures grows { IsGrown names.old names.new }
{
    if let Err(error) = str::from_utf8(bytes) {
        return Err(Fault::Refused(Refusal::NotUtf8 {
            span: one_byte(file, error.valid_up_to() as u32),
        }));
    }
    tokens_of(alloc, names, file, bytes)
}
