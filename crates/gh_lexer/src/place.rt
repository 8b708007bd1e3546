// Lines and columns.
ghost use Rattle.std.specs.Prelude.{◌≡◌, ℕ, ◌<◌, ◌≤◌, ◌+◌, ◌*◌, ◌^◌, length, drop};
ghost use Rattle.gh_lexer.specs.Place.{past, moved};

use crate::classes::{begins_with, from_place};

/// A line and a column, both from 1.
#[derive(Clone, Copy, Debug, PartialEq, Eq)]
pub struct Place {
    pub line: u32,
    pub column: u32,
}

fn next_line(place: Place) -> Place
    requires line { place.line < 2 ^ 31 }
    ensures { result ≡ record { line = place.line + 1; column = 1 } }
{
    Place {
        line: place.line + 1,
        column: 1,
    }
}

// The place after a byte, where `rest` follows.
#[tactic(auto, unfolding(crate::specs::Place::past))]
fn after_byte(place: Place, byte: u8, rest: &[u8]) -> Place
    requires line { place.line < 2 ^ 31 }
    requires column { place.column < 2 ^ 31 }
    ensures value { result ≡ past byte rest.now place }
    ensures line { result.line ≤ place.line + 1 }
    ensures column { result.column ≤ place.column + 8 }
{
    let Place { line, column } = place;
    if byte == b'\n' || byte == 12 {
        return next_line(place);
    }
    if byte == b'\r' {
        if begins_with(b'\n', rest) {
            return place;
        }
        return next_line(place);
    }
    if byte == b'\t' {
        return Place {
            line,
            column: (column + 7) / 8 * 8 + 1,
        };
    }
    if 128 <= byte && byte <= 191 {
        return place;
    }
    Place {
        line,
        column: column + 1,
    }
}

/// The place after the first `len` bytes.
pub fn advance(place: Place, bytes: &[u8], len: usize) -> Place
    requires within { len ≤ length bytes.now }
    requires short { len ≤ 2 ^ 20 }
    requires line { place.line ≤ 2 ^ 30 }
    requires column { place.column ≤ 2 ^ 30 }
    ensures value { result ≡ moved len bytes.now place }
    ensures line { result.line ≤ place.line + len }
    ensures column { result.column ≤ place.column + 8 * len }
{
    let mut now = place;
    for at in 0..len {
        now = after_byte(now, bytes[at], from_place(bytes, at + 1));
    }
    now
}
