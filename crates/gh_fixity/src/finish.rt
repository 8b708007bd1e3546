// Lists of operands and of patterns, sections and left sides of functions become trees.
ghost use Rattle.std.specs.Prelude.{◌≡◌, ◌∷◌, [], List, IfOk, OnOk, length, option_map};
ghost use Rattle.gh_fixity.specs.Arrangement.{is_list, tree_in};
ghost use Rattle.gh_fixity.specs.Built.{from_tree, left_child as left_of, no_pattern, pat_nodes, right_child as right_of, settled_tree};
ghost use Rattle.gh_fixity.specs.Finish as spec;
ghost use Rattle.gh_fixity.specs.Finish.{clash_list, sign_items};
ghost use Rattle.gh_fixity.specs.Seen.{goes_from, goes_on};
ghost use Rattle.gh_fixity.specs.Walks.{earlier, least};
ghost use Rattle.gh_fixity.specs.declared.item.Item.{Item as TheItem};

use crate::binders::Binders;
use crate::grow::{children, left_child, operands_from, pattern_from, right_child};
use crate::item::{Arranged, Fixity, Item};
use crate::part::{Clash, Part, Sign, clash_there, items, signs};
use crate::settle::{Settled, settle};
use crate::tops::Tops;
use crate::walked::{Walked, WalkedPattern};
use gh_base::{ListOf, NoMemory};
use gh_program::{Occurrence, Operands, Pattern};
use sqlite_items::{Boxed, Items};
use std::alloc::Global;

/// What holds where a part of a program is arranged: the fixities of local names, and the first clash so far.
#[derive(Drop)]
pub struct State {
    pub locals: Binders<Fixity>,
    pub found: Option<Clash>,
}

/// The two sides of a function's operator.
#[derive(Drop)]
pub struct Sides {
    pub left: Boxed<Pattern>,
    pub right: Boxed<Pattern>,
}

fn earlier_of(found: Option<Clash>, clash: Clash) -> Option<Clash>
    ensures { result ≡ earlier found clash }
{
    match found {
        None => Some(clash),
        Some(before) => {
            if clash.span.from < before.span.from {
                Some(clash)
            } else {
                Some(before)
            }
        }
    }
}

// What was read last of a list.
#[derive(Clone, Copy)]
enum Seen {
    // Nothing, or an operator.
    Start,
    // A minus sign.
    Sign,
    // An operand.
    Leaf,
}

// What was read last after one more item, where the grammar gives it.
fn after(seen: Seen, item: &Item) -> Option<Seen>
    ensures { (items : List TheItem) → goes_from seen (item.now ∷ items) ≡ goes_on result items }
{
    match seen {
        Seen::Start => match item {
            Item::Leaf(_) => Some(Seen::Leaf),
            Item::Minus(_) => Some(Seen::Sign),
            Item::Op(..) => None,
        },
        Seen::Sign => match item {
            Item::Leaf(_) => Some(Seen::Leaf),
            Item::Minus(_) => None,
            Item::Op(..) => None,
        },
        Seen::Leaf => match item {
            Item::Leaf(_) => None,
            Item::Minus(_) => None,
            Item::Op(..) => Some(Seen::Start),
        },
    }
}

fn is_complete(seen: Seen) -> bool
    ensures { result ≡ goes_from seen [] }
{
    match seen {
        Seen::Start => false,
        Seen::Sign => false,
        Seen::Leaf => true,
    }
}

// Whether the items are such as the grammar gives.
fn is_operator_list(items: &[Item]) -> bool
    ensures { result ≡ is_list items.now }
{
    let mut seen = Seen::Start;
    for item in items {
        match after(seen, item) {
            Some(next) => seen = next,
            None => return false,
        }
    }
    is_complete(seen)
}

// The tree over a list of which a place has to be the root, or any may be; or none, and the clash is noted.
fn settle_signs(
    alloc: Global,
    tops: &Tops,
    state: &mut State,
    signs: &[Sign],
    root: Option<u32>,
) -> Result<Option<Arranged>, NoMemory>
    ensures tree { IfOk result (λ tree. option_map (tree_in (sign_items tops.now state.old.locals signs.now)) tree ≡ settled_tree (spec.settle_signs tops.now state.old.locals signs.now root)) }
    ensures found { OnOk result (state.new.found ≡ least state.old.found (clash_list signs.now (spec.settle_signs tops.now state.old.locals signs.now root))) }
    ensures scope { OnOk result (state.new.locals ≡ state.old.locals) }
{
    let list = items(alloc, tops, &state.locals, signs)?;
    if !is_operator_list(list.as_slice()) {
        return Err(NoMemory);
    }
    match settle(alloc, &list, root)? {
        Settled::Tree(tree) => Ok(Some(tree)),
        Settled::Clash(left, right) => {
            state.found = earlier_of(state.found, clash_there(signs, left, right));
            Ok(None)
        }
    }
}

// The place behind the last part.
fn end(parts: &Items<Part>) -> Result<u32, NoMemory>
    ensures { IfOk result (λ place. place ≡ length parts.now) }
{
    match u32::try_from(parts.len()) {
        Ok(place) => Ok(place),
        Err(_) => Err(NoMemory),
    }
}

fn left_signs(alloc: Global, parts: &[Part], op: Occurrence) -> Result<ListOf<Sign>, NoMemory>
    ensures { IfOk result (λ all. all ≡ spec.left_signs parts.now op) }
{
    let mut all = signs(alloc, parts)?;
    all.push(Sign::Op(op))?;
    all.push(Sign::Leaf)?;
    Ok(all)
}

fn right_signs(alloc: Global, op: Occurrence, parts: &[Part]) -> Result<ListOf<Sign>, NoMemory>
    ensures { IfOk result (λ all. all ≡ spec.right_signs op parts.now) }
{
    let behind = signs(alloc, parts)?;
    let mut all = ListOf::new(alloc);
    all.push(Sign::Leaf)?;
    all.push(Sign::Op(op))?;
    all.extend_from_slice(behind.as_slice())?;
    Ok(all)
}

fn lhs_signs(
    alloc: Global,
    parts: &[Part],
    op: Occurrence,
    others: &[Part],
) -> Result<ListOf<Sign>, NoMemory>
    ensures { IfOk result (λ all. all ≡ spec.lhs_signs parts.now op others.now) }
{
    let behind = signs(alloc, others)?;
    let mut all = signs(alloc, parts)?;
    all.push(Sign::Op(op))?;
    all.extend_from_slice(behind.as_slice())?;
    Ok(all)
}

/// Operands that stand by themselves.
#[tactic(auto, unfolding(crate::specs::Finish::plain_tree, crate::specs::Finish::plain_clashes))]
pub fn plain(
    alloc: Global,
    tops: &Tops,
    state: &mut State,
    walked: Walked,
) -> Result<Boxed<Operands>, NoMemory>
    ensures value { IfOk result (λ node. node ≡ spec.plain_tree tops.now state.old.locals walked) }
    ensures found { OnOk result (state.new.found ≡ least state.old.found (spec.plain_clashes tops.now state.old.locals walked)) }
    ensures scope { OnOk result (state.new.locals ≡ state.old.locals) }
{
    match walked {
        Walked::Tree(node) => Ok(node),
        Walked::List(parts) => {
            let list = signs(alloc, parts.as_slice())?;
            let tree = settle_signs(alloc, tops, state, list.as_slice(), None)?;
            operands_from(alloc, tree, parts)
        }
    }
}

/// The operands of a section that lacks its right operand.
#[tactic(auto, unfolding(crate::specs::Finish::left_tree, crate::specs::Finish::left_clashes))]
pub fn left_section(
    alloc: Global,
    tops: &Tops,
    state: &mut State,
    walked: Walked,
    op: Occurrence,
) -> Result<Boxed<Operands>, NoMemory>
    ensures value { IfOk result (λ node. node ≡ spec.left_tree tops.now state.old.locals walked op) }
    ensures found { OnOk result (state.new.found ≡ least state.old.found (spec.left_clashes tops.now state.old.locals walked op)) }
    ensures scope { OnOk result (state.new.locals ≡ state.old.locals) }
{
    match walked {
        Walked::Tree(node) => Ok(node),
        Walked::List(parts) => {
            let place = end(&parts)?;
            let list = left_signs(alloc, parts.as_slice(), op)?;
            let tree = settle_signs(alloc, tops, state, list.as_slice(), Some(place))?;
            operands_from(alloc, left_child(tree), parts)
        }
    }
}

/// The operands of a section that lacks its left operand.
#[tactic(auto, unfolding(crate::specs::Finish::right_tree, crate::specs::Finish::right_clashes))]
pub fn right_section(
    alloc: Global,
    tops: &Tops,
    state: &mut State,
    op: Occurrence,
    walked: Walked,
) -> Result<Boxed<Operands>, NoMemory>
    ensures value { IfOk result (λ node. node ≡ spec.right_tree tops.now state.old.locals op walked) }
    ensures found { OnOk result (state.new.found ≡ least state.old.found (spec.right_clashes tops.now state.old.locals op walked)) }
    ensures scope { OnOk result (state.new.locals ≡ state.old.locals) }
{
    match walked {
        Walked::Tree(node) => Ok(node),
        Walked::List(parts) => {
            let list = right_signs(alloc, op, parts.as_slice())?;
            let tree = settle_signs(alloc, tops, state, list.as_slice(), Some(1))?;
            operands_from(alloc, right_child(tree), parts)
        }
    }
}

/// A pattern that stands by itself.
#[tactic(auto, unfolding(crate::specs::Finish::pattern_of, crate::specs::Finish::pattern_own))]
pub fn plain_pattern(
    alloc: Global,
    tops: &Tops,
    state: &mut State,
    walked: WalkedPattern,
) -> Result<Boxed<Pattern>, NoMemory>
    ensures value { IfOk result (λ node. node ≡ spec.pattern_of tops.now state.old.locals walked) }
    ensures found { OnOk result (state.new.found ≡ least state.old.found (spec.pattern_own tops.now state.old.locals walked)) }
    ensures scope { OnOk result (state.new.locals ≡ state.old.locals) }
{
    match walked {
        WalkedPattern::Tree(node) => Ok(node),
        WalkedPattern::List(parts) => {
            let list = signs(alloc, parts.as_slice())?;
            let tree = settle_signs(alloc, tops, state, list.as_slice(), None)?;
            pattern_from(alloc, tree, parts)
        }
    }
}

// The two sides of an operator that a function's left side defines, as trees. Where the operator is not the root of the
// list that both make, that clash is noted.
fn both_sides(
    alloc: Global,
    tops: &Tops,
    state: &mut State,
    parts: Items<Part>,
    op: Occurrence,
    others: Items<Part>,
) -> Result<Sides, NoMemory>
    ensures left { IfOk result (λ sides. sides.left ≡ from_tree pat_nodes no_pattern parts (left_of (settled_tree (spec.lhs_settled tops.now state.old.locals parts op others)))) }
    ensures right { IfOk result (λ sides. sides.right ≡ from_tree pat_nodes no_pattern others (right_of (settled_tree (spec.lhs_settled tops.now state.old.locals parts op others)))) }
    ensures found { OnOk result (state.new.found ≡ least state.old.found (clash_list (spec.lhs_signs parts op others) (spec.lhs_settled tops.now state.old.locals parts op others))) }
    ensures scope { OnOk result (state.new.locals ≡ state.old.locals) }
{
    let place = end(&parts)?;
    let list = lhs_signs(alloc, parts.as_slice(), op, others.as_slice())?;
    let tree = settle_signs(alloc, tops, state, list.as_slice(), Some(place))?;
    let (first, second) = children(tree);
    let left = pattern_from(alloc, first, parts)?;
    let right = pattern_from(alloc, second, others)?;
    Ok(Sides { left, right })
}

/// The left side of a function that is an operator between two patterns.
#[tactic(auto, unfolding(crate::specs::Finish::lhs_left, crate::specs::Finish::lhs_right, crate::specs::Finish::lhs_clashes))]
pub fn lhs(
    alloc: Global,
    tops: &Tops,
    state: &mut State,
    left: WalkedPattern,
    op: Occurrence,
    right: WalkedPattern,
) -> Result<Sides, NoMemory>
    ensures left { IfOk result (λ sides. sides.left ≡ spec.lhs_left tops.now state.old.locals left op right) }
    ensures right { IfOk result (λ sides. sides.right ≡ spec.lhs_right tops.now state.old.locals left op right) }
    ensures found { OnOk result (state.new.found ≡ least state.old.found (spec.lhs_clashes tops.now state.old.locals left op right)) }
    ensures scope { OnOk result (state.new.locals ≡ state.old.locals) }
{
    match left {
        WalkedPattern::Tree(first) => {
            let second = plain_pattern(alloc, tops, state, right)?;
            Ok(Sides {
                left: first,
                right: second,
            })
        }
        WalkedPattern::List(parts) => match right {
            WalkedPattern::Tree(second) => {
                let first = plain_pattern(alloc, tops, state, WalkedPattern::List(parts))?;
                Ok(Sides {
                    left: first,
                    right: second,
                })
            }
            WalkedPattern::List(others) => both_sides(alloc, tops, state, parts, op, others),
        },
    }
}
