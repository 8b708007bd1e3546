// Lines and columns.
ghost use Rattle.std.specs.Prelude.{◌≡◌};
ghost use Rattle.gh_lines.specs.Position.{stepped, moved_over, next_line_of, next_column_of, next_tab_of};

/// A place in a file: its line and column, both from 1, and whether the byte before it is a carriage return. A character
/// takes one column, and a tab goes on to the next column of the form 8k + 1 (Haskell 98 Report, 9.3).
#[derive(Clone, Copy, Debug, PartialEq, Eq)]
pub struct Position {
    pub line: u32,
    pub column: u32,
    pub after_return: bool,
}

/// The first byte of a file.
pub const START: Position = Position {
    line: 1,
    column: 1,
    after_return: false,
};

fn next_line(position: Position, after_return: bool) -> Position
    ensures { result ≡ next_line_of position after_return }
{
    Position {
        line: position.line.saturating_add(1),
        column: 1,
        after_return,
    }
}

fn next_column(position: Position, column: u32) -> Position
    ensures { result ≡ next_column_of position column }
{
    Position {
        line: position.line,
        column,
        after_return: false,
    }
}

fn next_tab(column: u32) -> u32
    ensures { result ≡ next_tab_of column }
{
    (column.saturating_sub(1) / 8 * 8).saturating_add(9)
}

/// The place after one more byte.
fn step(position: Position, byte: u8) -> Position
    ensures { result ≡ stepped position byte }
{
    if byte == b'\n' && position.after_return {
        return Position {
            line: position.line,
            column: position.column,
            after_return: false,
        };
    }
    if byte == b'\n' || byte == 12 {
        return next_line(position, false);
    }
    if byte == b'\r' {
        return next_line(position, true);
    }
    if byte == b'\t' {
        return next_column(position, next_tab(position.column));
    }
    if 128 <= byte && byte < 192 {
        return next_column(position, position.column);
    }
    next_column(position, position.column.saturating_add(1))
}

/// The place after these bytes.
pub fn moved(position: Position, bytes: &[u8]) -> Position
    ensures { result ≡ moved_over position bytes.now }
{
    let mut position = position;
    for byte in bytes {
        position = step(position, *byte);
    }
    position
}
