// Tokens by their classes and bytes.
ghost use Rattle.std.specs.Prelude.{◌≡◌, ◌+◌, ◌≤◌, ◌<◌, ◌^◌, length, take, drop, IfOk, Ok, Err, Some, None, nat_lt};
ghost use Rattle.gh_base.specs.declared.refusal.Refusal.{Refusal};
ghost use Rattle.gh_base.specs.Table.{IsGrown, grown_same};
ghost use Rattle.gh_lexer.specs.Lexeme.{Named, Word, Mark, Number, Letter, Text};
ghost use Rattle.gh_lexer.specs.Literal.{spelled, integer_of, letter_at};
ghost use Rattle.gh_lexer.specs.Reading.{span_at, byte_at, named, number, letter_meant, letter, text, body_of, valued};
ghost use Rattle.gh_lexer.specs.Seen.{piece_in, piece_if, IdsPlaced, PlacedIfSome};

use crate::classes::{at_most, from_place, without_front};
use crate::literal;
use crate::scan::{Class, Meaning};
use crate::token::{NameClass, TokenKind};
use gh_base::{Fault, ListOf, Names, NoMemory, Refusal, Span};
use std::alloc::Global;

/// The span of one byte.
pub fn one_byte(file: u32, at: u32) -> Span
    requires { at + 1 < 2 ^ 32 }
    ensures { result ≡ byte_at file at }
{
    Span {
        file,
        from: at,
        to: at + 1,
    }
}

fn plain_name(names: &mut Names, class: NameClass, text: &[u8]) -> Result<TokenKind, NoMemory>
    ensures piece { IfOk result (λ k. piece_in names.new k ≡ Named class None text.now) }
    ensures ids { IfOk result (λ k. IdsPlaced names.new k) }
    ensures grows { IsGrown names.old names.new }
{
    let id = names.intern(text)?;
    Ok(TokenKind::Name(class, None, id))
}

fn qualified_name(
    names: &mut Names,
    class: NameClass,
    qualifier: &[u8],
    text: &[u8],
) -> Result<TokenKind, NoMemory>
    ensures piece { IfOk result (λ k. piece_in names.new k ≡ Named class (Some qualifier.now) text.now) }
    ensures ids { IfOk result (λ k. IdsPlaced names.new k) }
    ensures grows { IsGrown names.old names.new }
{
    let before = names.intern(qualifier)?;
    let id = names.intern(text)?;
    Ok(TokenKind::Name(class, Some(before), id))
}

fn reserved_word(names: &mut Names, text: &[u8]) -> Result<TokenKind, NoMemory>
    ensures piece { IfOk result (λ k. piece_in names.new k ≡ Word text.now) }
    ensures ids { IfOk result (λ k. IdsPlaced names.new k) }
    ensures grows { IsGrown names.old names.new }
{
    let id = names.intern(text)?;
    Ok(TokenKind::Word(id))
}

fn mark(names: &mut Names, text: &[u8]) -> Result<TokenKind, NoMemory>
    ensures piece { IfOk result (λ k. piece_in names.new k ≡ Mark text.now) }
    ensures ids { IfOk result (λ k. IdsPlaced names.new k) }
    ensures grows { IsGrown names.old names.new }
{
    let id = names.intern(text)?;
    Ok(TokenKind::Mark(id))
}

// The span of a whole piece.
fn whole(file: u32, at: u32, text: &[u8]) -> Span
    requires { at + length text.now < 2 ^ 31 }
    ensures { result ≡ span_at file at (at + length text.now) }
{
    Span {
        file,
        from: at,
        to: at + text.len() as u32,
    }
}

// An integer, if it is less than 2^63.
fn number_value(file: u32, at: u32, text: &[u8]) -> Result<u64, Fault>
    requires { at + length text.now < 2 ^ 31 }
    ensures value { IfOk result (λ n. number file at (length text.now) (integer_of text.now) ≡ Ok (Some (Number n))) }
    ensures refused { (r : Refusal) → result ≡ Err (Fault.Refused r) → number file at (length text.now) (integer_of text.now) ≡ Err r }
{
    match literal::integer(text) {
        Some(value) => Ok(value),
        None => Err(Fault::Refused(Refusal::NumberOutOfRange {
            span: whole(file, at, text),
        })),
    }
}

// The character of a literal by the bytes after its first quote.
fn letter_value(file: u32, at: u32, rest: &[u8]) -> Result<char, Fault>
    requires { at + length rest.now < 2 ^ 30 }
    ensures value { IfOk result (λ c. letter file at (letter_at rest.now) ≡ Ok (Some (Letter c))) }
    ensures refused { (r : Refusal) → result ≡ Err (Fault.Refused r) → letter file at (letter_at rest.now) ≡ Err r }
{
    match literal::letter(rest) {
        None => Err(Fault::Refused(Refusal::OpenText {
            span: one_byte(file, at),
        })),
        Some(found) => match found.meaning {
            Meaning::Nothing => Err(Fault::Refused(Refusal::OpenText {
                span: one_byte(file, at),
            })),
            Meaning::Char(character) => Ok(character),
            Meaning::TooGreat => {
                let span = Span {
                    file,
                    from: at + 1,
                    to: at + 1 + found.len as u32,
                };
                Err(Fault::Refused(Refusal::NumberOutOfRange { span }))
            }
        },
    }
}

// The characters of a string by the bytes between its quotes.
fn text_value(alloc: Global, file: u32, at: u32, body: &[u8]) -> Result<ListOf<char>, Fault>
    requires { at + length body.now < 2 ^ 30 }
    ensures value { IfOk result (λ cs. text file at (spelled body.now) ≡ Ok (Some (Text cs))) }
    ensures refused { (r : Refusal) → result ≡ Err (Fault.Refused r) → text file at (spelled body.now) ≡ Err r }
{
    match literal::spell(alloc, body)? {
        Ok(chars) => Ok(chars),
        Err(escape) => {
            let span = Span {
                file,
                from: at + escape.from as u32,
                to: at + escape.to as u32,
            };
            Err(Fault::Refused(Refusal::NumberOutOfRange { span }))
        }
    }
}

fn body_bytes(bytes: &[u8]) -> &[u8]
    requires { 0 < length bytes.now }
    ensures value { result.now ≡ body_of bytes.now }
    ensures shorter { length result.now ≤ length bytes.now }
{
    let rest = from_place(bytes, 1);
    at_most(rest, rest.len().saturating_sub(1))
}

// Whether a name has more than 255 bytes.
fn too_long(bytes: &[u8]) -> bool
    ensures { result ≡ nat_lt 255 (length bytes.now) }
{
    bytes.len() > 255
}

// A name, if it is not too long.
fn name_kind(
    names: &mut Names,
    file: u32,
    at: u32,
    class: NameClass,
    bytes: &[u8],
) -> Result<TokenKind, Fault>
    requires { at + length bytes.now < 2 ^ 31 }
    ensures piece { IfOk result (λ k. valued file at (Class.Name class) bytes.now ≡ Ok (Some (piece_in names.new k))) }
    ensures refused { (r : Refusal) → result ≡ Err (Fault.Refused r) → valued file at (Class.Name class) bytes.now ≡ Err r }
    ensures ids { IfOk result (λ k. IdsPlaced names.new k) }
    ensures grows { IsGrown names.old names.new }
{
    if too_long(bytes) {
        return Err(Fault::Refused(Refusal::NameTooLong {
            span: whole(file, at, bytes),
        }));
    }
    let kind = plain_name(names, class, bytes)?;
    Ok(kind)
}

// A qualified name, if it is not too long.
fn qualified_kind(
    names: &mut Names,
    file: u32,
    at: u32,
    class: NameClass,
    size: usize,
    bytes: &[u8],
) -> Result<TokenKind, Fault>
    requires { at + length bytes.now < 2 ^ 31 }
    ensures piece { IfOk result (λ k. valued file at (Class.Qualified class size) bytes.now ≡ Ok (Some (piece_in names.new k))) }
    ensures refused { (r : Refusal) → result ≡ Err (Fault.Refused r) → valued file at (Class.Qualified class size) bytes.now ≡ Err r }
    ensures ids { IfOk result (λ k. IdsPlaced names.new k) }
    ensures grows { IsGrown names.old names.new }
{
    if too_long(bytes) {
        return Err(Fault::Refused(Refusal::NameTooLong {
            span: whole(file, at, bytes),
        }));
    }
    let last = without_front(without_front(bytes, size), 1);
    let kind = qualified_name(names, class, at_most(bytes, size), last)?;
    Ok(kind)
}

/// What a piece is as a token, by its class and its bytes; white space and comments are none.
pub fn kind_of(
    alloc: Global,
    names: &mut Names,
    file: u32,
    at: u32,
    class: Class,
    bytes: &[u8],
) -> Result<Option<TokenKind>, Fault>
    requires some { 0 < length bytes.now }
    requires small { at + length bytes.now < 2 ^ 30 }
    ensures piece { IfOk result (λ k. valued file at class bytes.now ≡ Ok (piece_if names.new k)) }
    ensures refused { (r : Refusal) → result ≡ Err (Fault.Refused r) → valued file at class bytes.now ≡ Err r }
    ensures ids { IfOk result (λ k. PlacedIfSome names.new k) }
    ensures grows { IsGrown names.old names.new }
{
    match class {
        Class::Skip => Ok(None),
        Class::Name(name) => Ok(Some(name_kind(names, file, at, name, bytes)?)),
        Class::Qualified(name, size) => Ok(Some(qualified_kind(
            names, file, at, name, size, bytes,
        )?)),
        Class::Word => Ok(Some(reserved_word(names, bytes)?)),
        Class::Mark => Ok(Some(mark(names, bytes)?)),
        Class::Int => Ok(Some(TokenKind::Int(number_value(file, at, bytes)?))),
        Class::Char => Ok(Some(TokenKind::Char(letter_value(file, at, from_place(bytes, 1))?))),
        Class::Str => Ok(Some(TokenKind::Str(text_value(alloc, file, at, body_bytes(bytes))?))),
    }
}
