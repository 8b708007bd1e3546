// The bytes of an item, which its node has as a field.
ghost use Rattle.std.specs.Prelude.{◌≡◌};
ghost use Rattle.gh_tree_form.specs.Form as spec;

use gh_base::Span;
use gh_tree::{Decl, Item, Top};

const NOWHERE: Span = Span {
    file: 0,
    from: 0,
    to: 0,
};

#[tactic(auto, using(crate::proofs::Shapes::span_signature, crate::proofs::Shapes::span_fixity, crate::proofs::Shapes::span_function, crate::proofs::Shapes::span_pattern))]
fn decl_span(node: &Decl) -> Span
    ensures { result ≡ spec.decl_span node.now }
{
    match node {
        Decl::Signature(span, ..) => *span,
        Decl::Fixity(span, ..) => *span,
        Decl::Function(span, ..) => *span,
        Decl::Pattern(span, ..) => *span,
    }
}

fn top_span(node: &Top) -> Span
    ensures { result ≡ spec.top_span node.now }
{
    match node {
        Top::Synonym(span, ..) => *span,
        Top::Data(span, ..) => *span,
        Top::Newtype(span, ..) => *span,
        Top::Signature(span, ..) => *span,
        Top::Case(span, ..) => *span,
        Top::Extends(span, ..) => *span,
        Top::Decl(decl) => decl_span(decl),
    }
}

/// The bytes of an item; an empty one has none.
pub fn item_span(node: &Item) -> Span
    ensures { result ≡ spec.item_span node.now }
{
    match node {
        Item::Empty => NOWHERE,
        Item::Import(import) => import.get().span,
        Item::Top(top) => top_span(top.get()),
    }
}
