// Numbers, characters and strings.
ghost use Rattle.std.specs.Prelude.{◌≡◌, ℕ, drop, take, ◌∷◌, ◌+◌, ◌*◌, ◌-◌, ◌<◌, ◌≤◌, ◌^◌, length, Some, None, IfSome, IfOk, IfErr};
ghost use Rattle.std.specs.List.{prefix_len};
ghost use Rattle.std.specs.Str.{continuation_len, lead_bits};
ghost use Rattle.gh_lexer.specs.Chars.{is_digit, is_octal, is_hex, is_blank};
ghost use Rattle.gh_lexer.specs.Literal.{digit_value, value_of, fits, is_based, integer_of, integer_after_zero, meaning_of, letter_escape, numeric_escape, escape_at, empty_at, character_on, plain_at, plain_item, backslash_at, item_at, letter_at, close_at, spelled};

use crate::classes::{
    begins_with, blank, blank_len, digit, digit_len, from_place, front, hex, hex_len, octal,
    octal_len,
};
use crate::scan::{Escape, Item, Meaning};
use gh_base::{Fault, ListOf, NoMemory};
use std::alloc::Global;

// Integers are less than this.
const LIMIT: u64 = 1 << 63;

fn value_of_digit(byte: u8) -> u64
    ensures value { result ≡ digit_value byte }
    ensures small { result < 256 }
{
    if byte >= b'a' {
        return (byte - 87) as u64;
    }
    if byte >= b'A' {
        return (byte - 55) as u64;
    }
    byte.saturating_sub(48) as u64
}

// One more digit after a value.
fn shifted(value: u64, base: u64, digit: u64) -> Option<u64>
    requires { digit < 256 }
    ensures { result ≡ fits (value * base + digit) }
{
    let Some(more) = value.checked_mul(base) else {
        return None;
    };
    if more >= LIMIT {
        return None;
    }
    let sum = more + digit;
    if sum >= LIMIT {
        return None;
    }
    Some(sum)
}

/// The value of digits in a base, where it is less than 2^63.
pub fn number(base: u64, digits: &[u8]) -> Option<u64>
    requires { 0 < base }
    ensures { result ≡ fits (value_of base digits.now) }
{
    let mut value = 0;
    for byte in digits {
        let Some(more) = shifted(value, base, value_of_digit(*byte)) else {
            return None;
        };
        value = more;
    }
    Some(value)
}

/// Whether one of the letters `x` and `X` stands here, and then a hexadecimal digit.
pub fn begins_hex(bytes: &[u8]) -> bool
    ensures { result ≡ is_based 120 88 is_hex bytes.now }
{
    match bytes {
        [] => false,
        [_] => false,
        [letter, first, ..] => {
            if *letter != b'x' && *letter != b'X' {
                return false;
            }
            hex(*first)
        }
    }
}

/// Whether one of the letters `o` and `O` stands here, and then an octal digit.
pub fn begins_octal(bytes: &[u8]) -> bool
    ensures { result ≡ is_based 111 79 is_octal bytes.now }
{
    match bytes {
        [] => false,
        [_] => false,
        [letter, first, ..] => {
            if *letter != b'o' && *letter != b'O' {
                return false;
            }
            octal(*first)
        }
    }
}

fn integer_after_0(rest: &[u8]) -> Option<u64>
    ensures { result ≡ fits (integer_after_zero rest.now) }
{
    if begins_hex(rest) {
        return number(16, from_place(rest, 1));
    }
    if begins_octal(rest) {
        return number(8, from_place(rest, 1));
    }
    number(10, rest)
}

/// An integer by its text, where it is less than 2^63.
#[tactic(auto, unfolding(crate::specs::Literal::integer_of))]
pub fn integer(text: &[u8]) -> Option<u64>
    ensures { result ≡ fits (integer_of text.now) }
{
    match text {
        [] => Some(0),
        [first, rest @ ..] => {
            if *first == b'0' {
                return integer_after_0(rest);
            }
            number(10, text)
        }
    }
}

fn meaning_of_number(value: Option<u64>) -> Meaning
    requires { (n : ℕ) × (value ≡ fits n) }
    ensures { (n : ℕ) → value ≡ fits n → result ≡ meaning_of n }
{
    match value {
        None => Meaning::TooGreat,
        Some(number) => {
            if number > 0x10FFFF {
                return Meaning::TooGreat;
            }
            match char::from_u32(number as u32) {
                Some(character) => Meaning::Char(character),
                None => Meaning::TooGreat,
            }
        }
    }
}

fn one_letter(byte: u8) -> Option<char>
    ensures { result ≡ letter_escape byte }
{
    match byte {
        b'a' => Some('\u{7}'),
        b'b' => Some('\u{8}'),
        b'f' => Some('\u{C}'),
        b'n' => Some('\n'),
        b'r' => Some('\r'),
        b't' => Some('\t'),
        b'v' => Some('\u{B}'),
        b'\\' => Some('\\'),
        b'"' => Some('"'),
        b'\'' => Some('\''),
        _ => None,
    }
}

#[tactic(auto, unfolding(crate::specs::Literal::numeric_escape))]
fn decimal_escape(digits: &[u8]) -> Option<Item>
    ensures value { result ≡ numeric_escape 1 10 is_digit digits.now }
    ensures within { IfSome result (λ i. (2 ≤ i.len) × (i.len ≤ length digits.now + 1)) }
{
    let count = digit_len(digits);
    if count == 0 {
        return None;
    }
    let meaning = meaning_of_number(number(10, front(digits, count)));
    Some(Item {
        len: 1 + count,
        meaning,
    })
}

#[tactic(auto, unfolding(crate::specs::Literal::numeric_escape))]
fn hex_escape(digits: &[u8]) -> Option<Item>
    ensures value { result ≡ numeric_escape 2 16 is_hex digits.now }
    ensures within { IfSome result (λ i. (2 ≤ i.len) × (i.len ≤ length digits.now + 2)) }
{
    let count = hex_len(digits);
    if count == 0 {
        return None;
    }
    let meaning = meaning_of_number(number(16, front(digits, count)));
    Some(Item {
        len: 2 + count,
        meaning,
    })
}

#[tactic(auto, unfolding(crate::specs::Literal::numeric_escape))]
fn octal_escape(digits: &[u8]) -> Option<Item>
    ensures value { result ≡ numeric_escape 2 8 is_octal digits.now }
    ensures within { IfSome result (λ i. (2 ≤ i.len) × (i.len ≤ length digits.now + 2)) }
{
    let count = octal_len(digits);
    if count == 0 {
        return None;
    }
    let meaning = meaning_of_number(number(8, front(digits, count)));
    Some(Item {
        len: 2 + count,
        meaning,
    })
}

/// An escape that is a character, by the bytes after its backslash.
#[tactic(auto, unfolding(crate::specs::Literal::escape_at))]
pub fn escape(bytes: &[u8]) -> Option<Item>
    requires { length bytes.now < 2 ^ 32 }
    ensures value { result ≡ escape_at bytes.now }
    ensures within { IfSome result (λ i. (2 ≤ i.len) × (i.len ≤ length bytes.now + 1)) }
{
    match bytes {
        [] => None,
        [first, rest @ ..] => {
            if let Some(character) = one_letter(*first) {
                return Some(Item {
                    len: 2,
                    meaning: Meaning::Char(character),
                });
            }
            if digit(*first) {
                return decimal_escape(bytes);
            }
            if *first == b'x' {
                return hex_escape(rest);
            }
            if *first == b'o' {
                return octal_escape(rest);
            }
            None
        }
    }
}

/// `\&` or a gap, by the bytes after its backslash.
#[tactic(auto, unfolding(crate::specs::Literal::empty_at))]
fn empty(bytes: &[u8]) -> Option<Item>
    requires { length bytes.now < 2 ^ 32 }
    ensures value { result ≡ empty_at bytes.now }
    ensures within { IfSome result (λ i. (2 ≤ i.len) × (i.len ≤ length bytes.now + 1)) }
{
    if begins_with(b'&', bytes) {
        return Some(Item {
            len: 2,
            meaning: Meaning::Nothing,
        });
    }
    let count = blank_len(bytes);
    if count == 0 {
        return None;
    }
    if begins_with(b'\\', from_place(bytes, count)) {
        let gap = Meaning::Nothing;
        return Some(Item {
            len: count + 2,
            meaning: gap,
        });
    }
    None
}

fn bytes_after(first: u8) -> usize
    ensures value { result ≡ continuation_len first }
    ensures few { result ≤ 3 }
{
    if first < 128 {
        return 0;
    }
    if first < 224 {
        return 1;
    }
    if first < 240 {
        return 2;
    }
    3
}

fn bits_of_first(first: u8) -> u32
    ensures value { result ≡ lead_bits first }
    ensures small { result < 128 }
{
    if first < 128 {
        return first as u32;
    }
    if first < 224 {
        return first.saturating_sub(192) as u32;
    }
    if first < 240 {
        return (first - 224) as u32;
    }
    (first - 240) as u32
}

// The value of a character, with one byte more.
fn longer(code: u32, byte: u8) -> u32
    requires { code < 2 ^ 24 }
    ensures value { result ≡ code * 64 + (byte - 128) }
    ensures small { result < code * 64 + 128 }
{
    code * 64 + byte.saturating_sub(128) as u32
}

// A character by what its first byte gives and the bytes that follow.
fn code_of(bits: u32, bytes: &[u8]) -> u32
    requires small { bits < 128 }
    requires few { length bytes.now ≤ 3 }
    ensures { result ≡ character_on bits bytes.now }
{
    match bytes {
        [] => bits,
        [second] => longer(bits, *second),
        [second, third] => longer(longer(bits, *second), *third),
        [second, third, fourth] => longer(longer(longer(bits, *second), *third), *fourth),
        _ => unreachable!(),
    }
}

fn plain_of(len: usize, code: u32) -> Option<Item>
    ensures value { result ≡ plain_item len code }
    ensures len { IfSome result (λ i. i.len ≡ len) }
{
    match char::from_u32(code) {
        Some(character) => Some(Item {
            len,
            meaning: Meaning::Char(character),
        }),
        None => None,
    }
}

/// A character that is no escape.
#[tactic(auto, unfolding(crate::specs::Literal::plain_at))]
fn plain(first: u8, rest: &[u8]) -> Option<Item>
    ensures value { result ≡ plain_at first rest.now }
    ensures within { IfSome result (λ i. (1 ≤ i.len) × (i.len ≤ length rest.now + 1)) }
{
    if first < 32 {
        return None;
    }
    let count = bytes_after(first);
    if rest.len() < count {
        return None;
    }
    plain_of(count + 1, code_of(bits_of_first(first), front(rest, count)))
}

// What stands after a backslash in a string.
#[tactic(auto, unfolding(crate::specs::Literal::backslash_at))]
fn after_backslash(bytes: &[u8]) -> Option<Item>
    requires { length bytes.now < 2 ^ 32 }
    ensures value { result ≡ backslash_at bytes.now }
    ensures within { IfSome result (λ i. (2 ≤ i.len) × (i.len ≤ length bytes.now + 1)) }
{
    match bytes {
        [] => None,
        [first, ..] => {
            if *first == b'&' {
                return empty(bytes);
            }
            if blank(*first) {
                return empty(bytes);
            }
            escape(bytes)
        }
    }
}

/// What a string has at its front.
#[tactic(auto, unfolding(crate::specs::Literal::item_at))]
pub fn item(bytes: &[u8]) -> Option<Item>
    requires { length bytes.now < 2 ^ 32 }
    ensures value { result ≡ item_at bytes.now }
    ensures within { IfSome result (λ i. (1 ≤ i.len) × (i.len ≤ length bytes.now)) }
{
    match bytes {
        [] => None,
        [first, rest @ ..] => {
            if *first == b'\\' {
                return after_backslash(rest);
            }
            plain(*first, rest)
        }
    }
}

/// What a character literal has at its front.
#[tactic(auto, unfolding(crate::specs::Literal::letter_at))]
pub fn letter(bytes: &[u8]) -> Option<Item>
    requires { length bytes.now < 2 ^ 32 }
    ensures value { result ≡ letter_at bytes.now }
    ensures within { IfSome result (λ i. (1 ≤ i.len) × (i.len ≤ length bytes.now)) }
{
    match bytes {
        [] => None,
        [first, rest @ ..] => {
            if *first == b'\'' {
                return None;
            }
            if *first == b'\\' {
                return escape(rest);
            }
            plain(*first, rest)
        }
    }
}

/// The length of a string up to and with its closing quote.
pub fn close(bytes: &[u8]) -> Option<usize>
    requires { length bytes.now < 2 ^ 32 }
    ensures value { result ≡ close_at 0 bytes.now }
    ensures within { IfSome result (λ n. (1 ≤ n) × (n ≤ length bytes.now)) }
{
    let mut at = 0;
    while at < bytes.len() {
        if bytes[at] == b'"' {
            return Some(at + 1);
        }
        match item(from_place(bytes, at)) {
            None => return None,
            Some(found) => at += found.len,
        }
    }
    None
}

/// The characters of a string by the bytes between its quotes, or its first escape that is no character.
pub fn spell(alloc: Global, body: &[u8]) -> Result<Result<ListOf<char>, Escape>, NoMemory>
    requires { length body.now < 2 ^ 32 }
    ensures value { IfOk result (λ r. r ≡ spelled body.now) }
    ensures within { IfOk result (λ r. IfErr r (λ e. (e.from ≤ e.to) × (e.to ≤ length body.now + 1))) }
{
    let mut out = ListOf::new(alloc);
    let mut at = 0;
    while at < body.len() {
        let Some(found) = item(from_place(body, at)) else {
            return Ok(Ok(out));
        };
        match found.meaning {
            Meaning::Nothing => {}
            Meaning::Char(character) => out.push(character)?,
            Meaning::TooGreat => {
                return Ok(Err(Escape {
                    from: at + 1,
                    to: at + 1 + found.len,
                }));
            }
        }
        at += found.len;
    }
    Ok(Ok(out))
}
