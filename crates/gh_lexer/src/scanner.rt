// The longest piece at the front of the bytes.
ghost use Rattle.std.specs.Prelude.{◌≡◌, ℕ, drop, take, ◌∷◌, ◌+◌, ◌<◌, ◌≤◌, ◌^◌, length, IfSome, IfOk, IsTrue, true, false, ◌==◌, ◌&&◌};
ghost use Rattle.gh_lexer.specs.Chars.{begins};
ghost use Rattle.gh_lexer.specs.Scan.{small_at, operator_class, part_at, qualified_at, large_at, is_fraction, is_exponent_part, is_exponent, decimal_at, number_at, operator_at, symbol_at, comment_end, brace_at, quote_at, text_at, other_at, scan_at, IsWithin};

use crate::classes::{
    begins_with, begins_with_digit, blank, bracket, dashes, digit, digit_len, from_place, front,
    hex_len, large, line_len, name_len, octal_len, operator, small, symbol, symbol_len, word,
};
use crate::literal::{begins_hex, begins_octal, close, letter};
use crate::scan::{Class, Scan, Wrong};
use crate::token::NameClass;

#[tactic(auto, unfolding(crate::specs::Scan::small_at))]
fn scan_small(bytes: &[u8], rest: &[u8]) -> Result<Scan, Wrong>
    requires whole { (c : ℕ) × (bytes.now ≡ c ∷ rest.now) }
    requires short { length bytes.now < 2 ^ 32 }
    ensures value { (c : ℕ) → bytes.now ≡ c ∷ rest.now → result ≡ small_at c rest.now }
    ensures within { IfOk result (λ s. IsWithin s bytes.now) }
{
    let len = name_len(rest) + 1;
    if word(front(bytes, len)) {
        return Ok(Scan {
            class: Class::Word,
            len,
        });
    }
    Ok(Scan {
        class: Class::Name(NameClass::VarId),
        len,
    })
}

fn class_of_operator(first: u8) -> NameClass
    ensures { result ≡ operator_class first }
{
    if first == b':' {
        return NameClass::ConSym;
    }
    NameClass::VarSym
}

// The part of a name after its qualifier and the dot, at whose front `more` stands after one byte.
#[tactic(auto, unfolding(crate::specs::Scan::part_at))]
fn scan_part(size: usize, part: &[u8], first: u8, more: &[u8]) -> Result<Scan, Wrong>
    requires whole { part.now ≡ first ∷ more.now }
    requires short { length part.now < 2 ^ 32 }
    requires few { size < 2 ^ 32 }
    requires some { 0 < size }
    ensures value { result ≡ part_at size first more.now }
    ensures within { IfOk result (λ s. (0 < s.len) × (s.len ≤ size + 1 + length part.now)) }
{
    if small(first) {
        let len = name_len(more);
        if word(front(part, len + 1)) {
            return Err(Wrong::NoToken);
        }
        return Ok(Scan {
            class: Class::Qualified(NameClass::VarId, size),
            len: size + 2 + len,
        });
    }
    if large(first) {
        return Ok(Scan {
            class: Class::Qualified(NameClass::ConId, size),
            len: size + 2 + name_len(more),
        });
    }
    if symbol(first) {
        let len = symbol_len(more);
        let run = front(part, len + 1);
        if operator(run) {
            return Err(Wrong::NoToken);
        }
        if dashes(run) {
            return Err(Wrong::NoToken);
        }
        return Ok(Scan {
            class: Class::Qualified(class_of_operator(first), size),
            len: size + 2 + len,
        });
    }
    Ok(Scan {
        class: Class::Name(NameClass::ConId),
        len: size,
    })
}

#[tactic(auto, unfolding(crate::specs::Scan::qualified_at))]
fn scan_qualified(size: usize, after: &[u8]) -> Result<Scan, Wrong>
    requires short { length after.now < 2 ^ 32 }
    requires few { size < 2 ^ 32 }
    requires some { 0 < size }
    ensures value { result ≡ qualified_at size after.now }
    ensures within { IfOk result (λ s. (0 < s.len) × (s.len ≤ size + length after.now)) }
{
    let alone = Scan {
        class: Class::Name(NameClass::ConId),
        len: size,
    };
    match after {
        [] => Ok(alone),
        [_] => Ok(alone),
        [dot, part @ ..] => match part {
            [] => Ok(alone),
            [first, more @ ..] => {
                if *dot != b'.' {
                    return Ok(alone);
                }
                scan_part(size, part, *first, more)
            }
        },
    }
}

fn scan_large(rest: &[u8]) -> Result<Scan, Wrong>
    requires { length rest.now < 2 ^ 31 }
    ensures value { result ≡ large_at rest.now }
    ensures within { IfOk result (λ s. (0 < s.len) × (s.len ≤ length rest.now + 1)) }
{
    let len = name_len(rest);
    scan_qualified(len + 1, from_place(rest, len))
}

fn fraction(bytes: &[u8]) -> bool
    ensures { result ≡ is_fraction bytes.now }
{
    match bytes {
        [] => false,
        [first, rest @ ..] => {
            if *first != b'.' {
                return false;
            }
            begins_with_digit(rest)
        }
    }
}

fn exponent_part(bytes: &[u8]) -> bool
    ensures { result ≡ is_exponent_part bytes.now }
{
    match bytes {
        [] => false,
        [first, rest @ ..] => {
            if digit(*first) {
                return true;
            }
            if *first == b'+' || *first == b'-' {
                return begins_with_digit(rest);
            }
            false
        }
    }
}

fn exponent(bytes: &[u8]) -> bool
    ensures { result ≡ is_exponent bytes.now }
{
    match bytes {
        [] => false,
        [first, rest @ ..] => {
            if *first != b'e' && *first != b'E' {
                return false;
            }
            exponent_part(rest)
        }
    }
}

#[tactic(auto, unfolding(crate::specs::Scan::decimal_at))]
fn scan_decimal(rest: &[u8]) -> Result<Scan, Wrong>
    requires { length rest.now < 2 ^ 32 }
    ensures value { result ≡ decimal_at rest.now }
    ensures within { IfOk result (λ s. (0 < s.len) × (s.len ≤ length rest.now + 1)) }
{
    let len = digit_len(rest);
    let after = from_place(rest, len);
    if fraction(after) {
        return Err(Wrong::NoToken);
    }
    if exponent(after) {
        return Err(Wrong::NoToken);
    }
    Ok(Scan {
        class: Class::Int,
        len: len + 1,
    })
}

#[tactic(auto, unfolding(crate::specs::Scan::number_at))]
fn scan_number(first: u8, rest: &[u8]) -> Result<Scan, Wrong>
    requires { length rest.now < 2 ^ 32 }
    ensures value { result ≡ number_at first rest.now }
    ensures within { IfOk result (λ s. (0 < s.len) × (s.len ≤ length rest.now + 1)) }
{
    if first != b'0' {
        return scan_decimal(rest);
    }
    if begins_hex(rest) {
        return Ok(Scan {
            class: Class::Int,
            len: hex_len(from_place(rest, 1)) + 2,
        });
    }
    if begins_octal(rest) {
        return Ok(Scan {
            class: Class::Int,
            len: octal_len(from_place(rest, 1)) + 2,
        });
    }
    scan_decimal(rest)
}

#[tactic(auto, unfolding(crate::specs::Scan::operator_at))]
fn scan_operator(bytes: &[u8], first: u8, rest: &[u8]) -> Result<Scan, Wrong>
    requires whole { bytes.now ≡ first ∷ rest.now }
    requires short { length bytes.now < 2 ^ 31 }
    ensures value { result ≡ operator_at first rest.now }
    ensures within { IfOk result (λ s. (0 < s.len) × (s.len ≤ length rest.now + 1)) }
{
    let len = symbol_len(rest);
    let run = front(bytes, len + 1);
    let comment = dashes(run);
    if comment {
        return Ok(Scan {
            class: Class::Skip,
            len: len + 1 + line_len(from_place(rest, len)),
        });
    }
    if operator(run) {
        return Ok(Scan {
            class: Class::Mark,
            len: len + 1,
        });
    }
    Ok(Scan {
        class: Class::Name(class_of_operator(first)),
        len: len + 1,
    })
}

#[tactic(auto, unfolding(crate::specs::Scan::symbol_at))]
fn scan_symbol(bytes: &[u8], first: u8, rest: &[u8]) -> Result<Scan, Wrong>
    requires whole { bytes.now ≡ first ∷ rest.now }
    requires short { length bytes.now < 2 ^ 31 }
    ensures value { result ≡ symbol_at first rest.now }
    ensures within { IfOk result (λ s. (0 < s.len) × (s.len ≤ length rest.now + 1)) }
{
    if first != b'|' {
        return scan_operator(bytes, first, rest);
    }
    if begins_with(b'}', rest) {
        return Ok(Scan {
            class: Class::Mark,
            len: 2,
        });
    }
    scan_operator(bytes, first, rest)
}

// Whether a byte and the next are these two.
fn is_pair(byte: u8, rest: &[u8], first: u8, second: u8) -> bool
    ensures value { result ≡ (byte == first && begins second rest.now) }
    ensures second { IsTrue result → begins second rest.now ≡ true }
{
    if byte != first {
        return false;
    }
    begins_with(second, rest)
}

/// The length of a comment after its opening, up to and with its close.
fn comment_len(bytes: &[u8]) -> Option<usize>
    requires { length bytes.now < 2 ^ 31 }
    ensures value { result ≡ comment_end false 0 bytes.now }
    ensures within { IfSome result (λ n. n ≤ length bytes.now) }
{
    let mut at = 0;
    let mut depth: usize = 0;
    while at < bytes.len() {
        let byte = bytes[at];
        let rest = from_place(bytes, at + 1);
        let closes = is_pair(byte, rest, b'-', b'}');
        let opens = is_pair(byte, rest, b'{', b'-');
        if closes {
            if depth == 0 {
                return Some(at + 2);
            }
            depth -= 1;
            at += 2;
        } else if opens {
            depth += 1;
            at += 2;
        } else {
            at += 1;
        }
    }
    None
}

#[tactic(auto, unfolding(crate::specs::Scan::brace_at))]
fn scan_brace(rest: &[u8]) -> Result<Scan, Wrong>
    requires { length rest.now < 2 ^ 31 }
    ensures value { result ≡ brace_at rest.now }
    ensures within { IfOk result (λ s. (0 < s.len) × (s.len ≤ length rest.now + 1)) }
{
    if begins_with(b'-', rest) {
        return match comment_len(from_place(rest, 1)) {
            None => Err(Wrong::OpenComment),
            Some(len) => Ok(Scan {
                class: Class::Skip,
                len: len + 2,
            }),
        };
    }
    if begins_with(b'|', rest) {
        return Ok(Scan {
            class: Class::Mark,
            len: 2,
        });
    }
    Ok(Scan {
        class: Class::Mark,
        len: 1,
    })
}

#[tactic(auto, unfolding(crate::specs::Scan::quote_at))]
fn scan_quote(rest: &[u8]) -> Result<Scan, Wrong>
    requires { length rest.now < 2 ^ 31 }
    ensures value { result ≡ quote_at rest.now }
    ensures within { IfOk result (λ s. (0 < s.len) × (s.len ≤ length rest.now + 1)) }
{
    match letter(rest) {
        None => Err(Wrong::OpenText),
        Some(found) => {
            if begins_with(b'\'', from_place(rest, found.len)) {
                return Ok(Scan {
                    class: Class::Char,
                    len: found.len + 2,
                });
            }
            Err(Wrong::OpenText)
        }
    }
}

#[tactic(auto, unfolding(crate::specs::Scan::text_at))]
fn scan_text(rest: &[u8]) -> Result<Scan, Wrong>
    requires { length rest.now < 2 ^ 31 }
    ensures value { result ≡ text_at rest.now }
    ensures within { IfOk result (λ s. (0 < s.len) × (s.len ≤ length rest.now + 1)) }
{
    match close(rest) {
        None => Err(Wrong::OpenText),
        Some(len) => Ok(Scan {
            class: Class::Str,
            len: len + 1,
        }),
    }
}

#[tactic(auto, unfolding(crate::specs::Scan::other_at))]
fn scan_other(bytes: &[u8], first: u8, rest: &[u8]) -> Result<Scan, Wrong>
    requires whole { bytes.now ≡ first ∷ rest.now }
    requires short { length bytes.now < 2 ^ 31 }
    ensures value { result ≡ other_at first rest.now }
    ensures within { IfOk result (λ s. (0 < s.len) × (s.len ≤ length rest.now + 1)) }
{
    if digit(first) {
        return scan_number(first, rest);
    }
    if symbol(first) {
        return scan_symbol(bytes, first, rest);
    }
    if first == b'"' {
        return scan_text(rest);
    }
    if first == b'\'' {
        return scan_quote(rest);
    }
    if first == b'{' {
        return scan_brace(rest);
    }
    if bracket(first) {
        return Ok(Scan {
            class: Class::Mark,
            len: 1,
        });
    }
    Err(Wrong::NoToken)
}

/// What stands at the front: white space, a comment or the longest piece of a token; or why there is none.
#[tactic(auto, unfolding(crate::specs::Scan::scan_at))]
pub fn scan(bytes: &[u8]) -> Result<Scan, Wrong>
    requires { length bytes.now < 2 ^ 31 }
    ensures value { result ≡ scan_at bytes.now }
    ensures within { IfOk result (λ s. IsWithin s bytes.now) }
{
    match bytes {
        [] => Err(Wrong::NoToken),
        [first, rest @ ..] => {
            if blank(*first) {
                return Ok(Scan {
                    class: Class::Skip,
                    len: 1,
                });
            }
            if small(*first) {
                return scan_small(bytes, rest);
            }
            if large(*first) {
                return scan_large(rest);
            }
            scan_other(bytes, *first, rest)
        }
    }
}
