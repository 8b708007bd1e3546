// What is known of each unknown: classes of unknowns that have the same kind, as trees of links.
ghost use Rattle.std.specs.Prelude.{◌≡◌, set, length, ◌<◌};
ghost use Rattle.gh_kind_unify.specs.declared.cells.Cell.TheVariants.{Link};
ghost use Rattle.gh_kind_unify.specs.Cells.{Alike, IsTidy, SameValue, cell, IsNoLink};

/// What is known of an unknown.
#[derive(Clone, Copy, Debug)]
pub enum Cell {
    /// Nothing.
    Free,
    /// Its kind is `*`.
    Star,
    /// Its kind is the arrow between those of two unknowns.
    Arrow(u32, u32),
    /// Its kind is that of an unknown of a lesser number.
    Link(u32),
}

/// The cell of an unknown. One that is not there is free.
pub fn cell_at(cells: &[Cell], at: u32) -> Cell
    ensures { result ≡ cell cells.now at }
{
    match cells.get(at as usize) {
        Some(cell) => *cell,
        None => Cell::Free,
    }
}

/// Puts a cell in the place of another.
pub fn put(cells: &mut [Cell], at: u32, to: Cell)
    requires { at < length cells.old }
    ensures { cells.new ≡ set cells.old at to }
{
    cells[at as usize] = to;
}

// Lets a link lead as far as the one behind it does.
fn shorten(cells: &mut [Cell], at: u32, up: u32)
    requires tidy { IsTidy cells.old }
    requires at { at < length cells.old }
    requires link { cell cells.old at ≡ Link up }
    ensures { Alike cells.old cells.new }
{
    if let Cell::Link(top) = cell_at(cells, up) {
        put(cells, at, Cell::Link(top));
    }
}

/// The last unknown along the links from one. The links on the way become shorter, so that later ways are short.
pub fn find(cells: &mut [Cell], from: u32) -> u32
    requires tidy { IsTidy cells.old }
    requires from { from < length cells.old }
    ensures alike { Alike cells.old cells.new }
    ensures within { result < length cells.new }
    ensures last { IsNoLink (cell cells.new result) }
    ensures value { SameValue cells.new from result }
{
    let mut at = from;
    'up: while let Cell::Link(up) = cell_at(cells, at) {
        shorten(cells, at, up);
        at = up;
    }
    at
}
