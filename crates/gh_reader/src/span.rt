// The bytes that a piece of the tokens covers.
ghost use Rattle.std.specs.Prelude.{◌≡◌};
ghost use Rattle.gh_tree.specs.Syms as syms;
ghost use Rattle.gh_reader.specs.Ends as ends;

use gh_base::Span;
use gh_tree::{Kind, Sym};

// Whether the layout inserted a token of this kind.
fn is_inserted(kind: &Kind) -> bool
    ensures { result ≡ syms.is_inserted kind.now }
{
    match kind {
        Kind::InsertedOpen(_) | Kind::InsertedSemicolon(_) | Kind::InsertedClose(_) => true,
        _ => false,
    }
}

// The bytes of the first token that stands in the file.
fn first_place(piece: &[Sym]) -> Option<Span>
    ensures { result ≡ ends.first (syms.places piece.now) }
{
    for i in 0..piece.len() {
        let sym = &piece[i];
        if !is_inserted(&sym.kind) {
            return Some(sym.span);
        }
    }
    None
}

// The bytes of the last token that stands in the file.
fn last_place(piece: &[Sym]) -> Option<Span>
    ensures { result ≡ ends.last (syms.places piece.now) }
{
    for i in 0..piece.len() {
        let sym = &piece[piece.len() - 1 - i];
        if !is_inserted(&sym.kind) {
            return Some(sym.span);
        }
    }
    None
}

/// The bytes from the first to the last token that stands in the file.
#[tactic(auto, unfolding(gh_tree::specs::Syms::cover), using(crate::proofs::Ends::joined_ends))]
pub fn cover(piece: &[Sym]) -> Span
    ensures { result ≡ syms.cover piece.now }
{
    match (first_place(piece), last_place(piece)) {
        (Some(first), Some(last)) => Span {
            file: first.file,
            from: first.from,
            to: last.to,
        },
        _ => Span {
            file: 0,
            from: 0,
            to: 0,
        },
    }
}
