// The first limit that a file passes.
ghost use Rattle.std.specs.Prelude.{◌≡◌, map};
ghost use Rattle.gh_limits.specs.Limits as spec;

use crate::places::{limit_at, place};
use crate::tops::{continues, span_of, top_place};
use gh_base::{Limit, Refusal, Span};
use gh_tree::{Item, ModuleTree, NextItem, Top};

fn refused(which: Option<Limit>, span: Span) -> Option<Refusal>
    ensures { result ≡ spec.refused which span }
{
    match which {
        None => None,
        Some(which) => Some(Refusal::LimitPassed { span, which }),
    }
}

fn earlier(inside: u32, span: Span, clauses: u32, whole: Span) -> Option<Refusal>
    ensures { result ≡ spec.earlier inside span clauses whole }
{
    if inside < clauses {
        refused(limit_at(inside), span)
    } else {
        refused(limit_at(clauses), whole)
    }
}

// How many clauses a definition has, and where the last one ends.
fn clauses_from(first: &Top, rest: &[NextItem]) -> (usize, u32)
    ensures { result ≡ spec.clauses_from first.now 1 (map spec.item_at rest.now) }
{
    let mut last = first;
    let mut many = 1;
    for next in rest {
        match &next.item {
            Item::Empty => {}
            Item::Import(_) => return (many, span_of(last).to),
            Item::Top(top) => {
                if !continues(last, top.get()) {
                    return (many, span_of(last).to);
                }
                last = top.get();
                many += 1;
            }
        }
    }
    (many, span_of(last).to)
}

fn goes_on_behind(before: &Item, top: &Top) -> bool
    ensures { result ≡ spec.goes_on_behind before.now top.now }
{
    match before {
        Item::Top(before) => continues(before.get(), top),
        _ => false,
    }
}

fn passed_at(before: &Item, top: &Top, rest: &[NextItem]) -> Option<Refusal>
    ensures { result ≡ spec.passed_at before.now top.now (map spec.item_at rest.now) }
{
    let inside = top_place(top);
    let span = span_of(top);
    if goes_on_behind(before, top) {
        return refused(limit_at(inside), span);
    }
    let (many, to) = clauses_from(top, rest);
    let whole = Span {
        file: span.file,
        from: span.from,
        to,
    };
    earlier(inside, span, place(Limit::Clauses, many), whole)
}

fn passed_in(before: &Item, item: &Item, rest: &[NextItem]) -> Option<Refusal>
    ensures { result ≡ spec.passed_in before.now item.now (map spec.item_at rest.now) }
{
    match item {
        Item::Top(top) => passed_at(before, top.get(), rest),
        _ => None,
    }
}

fn last_of<'a>(before: &'a Item, item: &'a Item) -> &'a Item
    ensures { result.now ≡ spec.last_of before.now item.now }
{
    match item {
        Item::Empty => before,
        _ => item,
    }
}

fn first_passed(before: &Item, items: &[NextItem]) -> Option<Refusal>
    ensures { result ≡ spec.first_passed before.now (map spec.item_at items.now) }
{
    let mut before = before;
    for i in 0..items.len() {
        let item = &items[i].item;
        if let Some(refusal) = passed_in(before, item, &items[i + 1..]) {
            return Some(refusal);
        }
        before = last_of(before, item);
    }
    None
}

/// The first limit that the tree of a file passes, or none. What is counted: the type parameters of a `type`, `data` or
/// `newtype` (at most 8), the dependencies of a generic signature (8), the constructors of a type (128), the fields of a
/// constructor (16), the arguments of a clause or of a lambda (16), the different names that one local list of
/// declarations binds and one more for each of its bindings of a pattern that is no variable (64), and the clauses of one
/// definition or case (1,000). The refusal is that of the first item; of several there the first as they stand here. Its
/// span is that of the item, and where the clauses of a definition of the top or of a case pass their limit, that of all
/// of them. It takes no memory, and looks at each token a bounded number of times.
pub fn limits(tree: &ModuleTree) -> Option<Refusal>
    ensures { result ≡ spec.limits_of tree.now }
{
    let none = Item::Empty;
    let rest = tree.others.as_slice();
    if let Some(refusal) = passed_in(&none, &tree.first, rest) {
        return Some(refusal);
    }
    first_passed(&tree.first, rest)
}
