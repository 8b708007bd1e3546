// Classes of characters and reserved texts.
ghost use Rattle.std.specs.Prelude.{◌≡◌, ℕ, drop, take, ◌<◌, ◌≤◌, length, Bool};
ghost use Rattle.std.specs.List.{prefix_len, list_any, list_all};
ghost use Rattle.std.specs.Str.{bytes_eq};
ghost use Rattle.gh_lexer.specs.Chars.{is_small, is_large, is_digit, is_octal, is_hex, is_name_char, is_symbol, is_bracket, is_blank, is_in_line, is_dash, is_dashes, is_word, is_operator, begins, begins_with as begins_with_class, is_line_end};

use crate::scan::{OPERATORS, RESERVED};

/// A small letter: `a` to `z` or `_` (Haskell 98 Report, 2.2).
pub fn small(byte: u8) -> bool
    ensures { result ≡ is_small byte }
{
    (b'a' <= byte && byte <= b'z') || byte == b'_'
}

/// A capital letter: `A` to `Z` (Report, 2.2).
pub fn large(byte: u8) -> bool
    ensures { result ≡ is_large byte }
{
    b'A' <= byte && byte <= b'Z'
}

/// A decimal digit (Report, 2.2).
pub fn digit(byte: u8) -> bool
    ensures { result ≡ is_digit byte }
{
    b'0' <= byte && byte <= b'9'
}

/// An octal digit (Report, 2.2).
pub fn octal(byte: u8) -> bool
    ensures { result ≡ is_octal byte }
{
    b'0' <= byte && byte <= b'7'
}

/// A hexadecimal digit, in small or capital letters (Report, 2.2).
pub fn hex(byte: u8) -> bool
    ensures { result ≡ is_hex byte }
{
    digit(byte) || (b'a' <= byte && byte <= b'f') || (b'A' <= byte && byte <= b'F')
}

/// A byte that may stand in a name behind its first letter: a letter, a digit, `_` or a prime (Report, 2.4).
pub fn name_char(byte: u8) -> bool
    ensures { result ≡ is_name_char byte }
{
    small(byte) || large(byte) || digit(byte) || byte == b'\''
}

/// A symbol character, of which operators are made (Report, 2.2); `:` is one of them.
pub fn symbol(byte: u8) -> bool
    ensures { result ≡ is_symbol byte }
{
    byte == b'!'
        || (b'#' <= byte && byte <= b'&')
        || (b'*' <= byte && byte <= b'+')
        || (b'-' <= byte && byte <= b'/')
        || byte == b':'
        || (b'<' <= byte && byte <= b'@')
        || byte == b'\\'
        || byte == b'^'
        || byte == b'|'
        || byte == b'~'
}

/// A byte that is a mark by itself: a parenthesis, a bracket, a closing brace, a comma, a semicolon or a backquote
/// (Report, 2.2, special). An opening brace may begin a longer piece.
pub fn bracket(byte: u8) -> bool
    ensures { result ≡ is_bracket byte }
{
    byte == b'('
        || byte == b')'
        || byte == b','
        || byte == b';'
        || byte == b'['
        || byte == b']'
        || byte == b'`'
        || byte == b'}'
}

fn line_end(byte: u8) -> bool
    ensures { result ≡ is_line_end byte }
{
    byte == b'\n' || byte == 12 || byte == b'\r'
}

/// White space: a space, a tab, a vertical tab or a byte of a line end (Report, 2.2).
pub fn blank(byte: u8) -> bool
    ensures { result ≡ is_blank byte }
{
    byte == b' ' || (9 <= byte && byte <= 13)
}

/// A byte that ends no line.
pub fn in_line(byte: u8) -> bool
    ensures { result ≡ is_in_line byte }
{
    !line_end(byte)
}

fn dash(byte: u8) -> bool
    ensures { result ≡ is_dash byte }
{
    byte == b'-'
}

fn all_dashes(bytes: &[u8]) -> bool
    ensures { result ≡ list_all is_dash bytes.now }
{
    bytes.iter().all(|byte| dash(*byte))
}

/// Whether these are two dashes or more, and nothing else.
#[tactic(auto, unfolding(crate::specs::Chars::is_dashes))]
pub fn dashes(bytes: &[u8]) -> bool
    ensures { result ≡ is_dashes bytes.now }
{
    match bytes {
        [] => false,
        [_] => false,
        [first, second, more @ ..] => {
            if !dash(*first) {
                return false;
            }
            if !dash(*second) {
                return false;
            }
            all_dashes(more)
        }
    }
}

fn is_among(words: &[&[u8]], text: &[u8]) -> bool
    ensures { result ≡ list_any (λ w. bytes_eq w.now text.now) words.now }
{
    words.iter().any(|word| *word == text)
}

/// Whether a text is a reserved word (Report, 2.4).
pub fn word(text: &[u8]) -> bool
    ensures { result ≡ is_word text.now }
{
    is_among(&RESERVED, text)
}

/// Whether a text is a reserved operator (Report, 2.4).
pub fn operator(text: &[u8]) -> bool
    ensures { result ≡ is_operator text.now }
{
    is_among(&OPERATORS, text)
}

/// Whether the first byte is this one.
pub fn begins_with(byte: u8, bytes: &[u8]) -> bool
    ensures { result ≡ begins byte bytes.now }
{
    match bytes {
        [] => false,
        [first, ..] => *first == byte,
    }
}

/// Whether the first byte is a decimal digit.
pub fn begins_with_digit(bytes: &[u8]) -> bool
    ensures { result ≡ begins_with_class is_digit bytes.now }
{
    match bytes {
        [] => false,
        [first, ..] => digit(*first),
    }
}

/// The bytes from a place on.
pub fn from_place(bytes: &[u8], at: usize) -> &[u8]
    requires { at ≤ length bytes.now }
    ensures { result.now ≡ drop at bytes.now }
{
    &bytes[at..]
}

/// The first so many bytes.
pub fn front(bytes: &[u8], len: usize) -> &[u8]
    requires { len ≤ length bytes.now }
    ensures { result.now ≡ take len bytes.now }
{
    &bytes[..len]
}

/// How many bytes at the front are of names.
pub fn name_len(bytes: &[u8]) -> usize
    ensures value { result ≡ prefix_len is_name_char bytes.now }
    ensures within { result ≤ length bytes.now }
{
    let mut at = 0;
    for byte in bytes {
        if !name_char(*byte) {
            return at;
        }
        at += 1;
    }
    at
}

/// How many bytes at the front are symbol characters.
pub fn symbol_len(bytes: &[u8]) -> usize
    ensures value { result ≡ prefix_len is_symbol bytes.now }
    ensures within { result ≤ length bytes.now }
{
    let mut at = 0;
    for byte in bytes {
        if !symbol(*byte) {
            return at;
        }
        at += 1;
    }
    at
}

/// How many bytes at the front are decimal digits.
pub fn digit_len(bytes: &[u8]) -> usize
    ensures value { result ≡ prefix_len is_digit bytes.now }
    ensures within { result ≤ length bytes.now }
{
    let mut at = 0;
    for byte in bytes {
        if !digit(*byte) {
            return at;
        }
        at += 1;
    }
    at
}

/// How many bytes at the front are octal digits.
pub fn octal_len(bytes: &[u8]) -> usize
    ensures value { result ≡ prefix_len is_octal bytes.now }
    ensures within { result ≤ length bytes.now }
{
    let mut at = 0;
    for byte in bytes {
        if !octal(*byte) {
            return at;
        }
        at += 1;
    }
    at
}

/// How many bytes at the front are hexadecimal digits.
pub fn hex_len(bytes: &[u8]) -> usize
    ensures value { result ≡ prefix_len is_hex bytes.now }
    ensures within { result ≤ length bytes.now }
{
    let mut at = 0;
    for byte in bytes {
        if !hex(*byte) {
            return at;
        }
        at += 1;
    }
    at
}

/// How many bytes at the front are white space.
pub fn blank_len(bytes: &[u8]) -> usize
    ensures value { result ≡ prefix_len is_blank bytes.now }
    ensures within { result ≤ length bytes.now }
{
    let mut at = 0;
    for byte in bytes {
        if !blank(*byte) {
            return at;
        }
        at += 1;
    }
    at
}

/// How many bytes at the front are on this line.
pub fn line_len(bytes: &[u8]) -> usize
    ensures value { result ≡ prefix_len is_in_line bytes.now }
    ensures within { result ≤ length bytes.now }
{
    let mut at = 0;
    for byte in bytes {
        if !in_line(*byte) {
            return at;
        }
        at += 1;
    }
    at
}

/// The bytes after the first so many, of which there may be fewer.
pub fn without_front(bytes: &[u8], len: usize) -> &[u8]
    ensures { result.now ≡ drop len bytes.now }
{
    if len >= bytes.len() {
        return &[];
    }
    &bytes[len..]
}

/// The first so many bytes, of which there may be fewer.
pub fn at_most(bytes: &[u8], len: usize) -> &[u8]
    ensures { result.now ≡ take len bytes.now }
{
    if len >= bytes.len() {
        return bytes;
    }
    &bytes[..len]
}
