// Where the items of a file end, among its laid tokens (Haskell 98 Report, 5.1: a body is a list of declarations in braces,
// with a `;` between two).
ghost use Rattle.std.specs.Prelude.{◌≡◌, ◌≤◌, ◌<◌, ◌^◌, ◌-◌, drop, length, take};
ghost use Rattle.gh_tree.specs.Cut as spec;
ghost use Rattle.gh_tree.specs.Cut.{header_cut, header_size, item_cut, item_size, mark_of};
ghost use Rattle.gh_tree.specs.Items.{body_items, brace, top_items};

use crate::names::BlockMark;
use crate::symbol::{Kind, Sym};

// Whether a token begins a body.
fn opens_body(kind: &Kind) -> bool
    ensures { result ≡ spec.opens (brace kind.now) }
{
    matches!(kind, Kind::OpenBrace | Kind::InsertedOpen(_))
}

// How many braces are open behind a token; none where it ends the item.
fn behind(kind: &Kind, depth: usize) -> Option<usize>
    requires { depth < 2 ^ 64 - 1 }
    ensures { result ≡ spec.behind (brace kind.now) depth }
{
    match kind {
        Kind::OpenBrace | Kind::InsertedOpen(_) => Some(depth + 1),
        Kind::Semicolon | Kind::InsertedSemicolon(_) => {
            if depth == 0 { None } else { Some(depth) }
        }
        Kind::CloseBrace | Kind::InsertedClose(_) => depth.checked_sub(1),
        _ => Some(depth),
    }
}

#[tactic(auto, using(crate::proofs::Cutting::header_goes, crate::proofs::Cutting::header_ends, crate::proofs::Cutting::header_all))]
fn header_length(syms: &[Sym]) -> usize
    ensures { result ≡ header_size syms.now }
{
    for i in 0..syms.len() {
        let sym = &syms[i];
        if opens_body(&sym.kind) {
            return i;
        }
    }
    syms.len()
}

#[tactic(auto, using(crate::proofs::Cutting::item_goes, crate::proofs::Cutting::item_ends, crate::proofs::Cutting::item_all))]
fn item_length(syms: &[Sym]) -> usize
    ensures { result ≡ item_size syms.now 0 }
{
    let mut depth = 0;
    for i in 0..syms.len() {
        let sym = &syms[i];
        match behind(&sym.kind, depth) {
            Some(inside) => depth = inside,
            None => return i,
        }
    }
    syms.len()
}

/// How many of a file's laid tokens its header has. Behind them stands the `{` of the body, or nothing, and then the
/// file has one item, which is not ended. It looks once at each of them, and takes no memory.
#[tactic(auto, using(crate::proofs::Cutting::header_within, crate::proofs::Cutting::header_is_cut))]
pub fn header_end(syms: &[Sym]) -> usize
    ensures size { result ≡ header_size syms.now }
    ensures within { result ≤ length syms.now }
    ensures items { top_items syms.now ≡ header_cut (take result syms.now) (drop result syms.now) }
{
    header_length(syms)
}

/// How many tokens the first item of a body has, from its first token on. Behind them stands a `;` of the body, or its
/// `}`, or nothing, and then the item is not ended. It looks once at each of them, and takes no memory.
#[tactic(auto, using(crate::proofs::Cutting::item_within, crate::proofs::Cutting::item_is_cut))]
pub fn item_end(syms: &[Sym]) -> usize
    ensures size { result ≡ item_size syms.now 0 }
    ensures within { result ≤ length syms.now }
    ensures items { body_items syms.now 0 ≡ item_cut (take result syms.now) (drop result syms.now) }
{
    item_length(syms)
}

/// The mark of a block that a token is: inserted, with its place, or written, with its bytes.
pub fn block_mark(sym: &Sym) -> BlockMark
    ensures { result ≡ mark_of sym.now }
{
    match &sym.kind {
        Kind::InsertedOpen(place) | Kind::InsertedSemicolon(place) | Kind::InsertedClose(place) =>
            BlockMark::Inserted(*place),
        _ => BlockMark::Written(sym.span),
    }
}
