// A reader of operator lists that keeps a stack of what is open.
ghost use Rattle.std.specs.Prelude.{◌≡◌, ℕ, [], ◌∷◌, ◌++◌, ◌+◌, ◌<◌, ◌≤◌, ◌↔◌, List, IsTrue, IfOk, OnOk, Option, Some, None, take, slice_get, length};
ghost use Rattle.gh_fixity.specs.declared.item.Item.{Item};
ghost use Rattle.gh_fixity.specs.Arrangement.{fixity_in, or_default, level_at, level_in, item_fixity, may_be_left, may_be_right, tree_in, marks_from, minus_sign, op_at, IsNearest, Arranges, Clashes, IfClash, HasOneAnswer, HasOneTree, is_list};
ghost use Rattle.gh_fixity.specs.Frames.{open_of, opens, closes_top};
ghost use Rattle.gh_fixity.specs.Settle.{settle, fails};
ghost use Rattle.gh_fixity.specs.Stack.{applied, closed, reduced, settled, allows, open_fixity, step, steps, start};

use crate::item::{ArrangeFault, Arranged, Fixity, Item, Side};
use gh_base::{ListOf, NoMemory};
use sqlite_items::Boxed;
use std::alloc::Global;

// What waits for its right operand: a minus, or the operator at a place with its left operand.
#[derive(Drop)]
enum Frame {
    Minus,
    Op(u32, Arranged),
}

const MINUS: Fixity = Fixity {
    side: Side::Left,
    level: 6,
};

fn may_go_left(above: Fixity, below: Fixity) -> bool
    ensures { result ≡ may_be_left above below }
{
    above.level < below.level
        || (above.level == below.level && above.side == Side::Left && below.side == Side::Left)
}

fn may_go_right(above: Fixity, below: Fixity) -> bool
    ensures { result ≡ may_be_right above below }
{
    above.level < below.level
        || (above.level == below.level && above.side == Side::Right && below.side == Side::Right)
}

// The fixity of the operator at a place of the list.
fn fixity_at(items: &[Item], place: u32) -> Fixity
    ensures { result ≡ or_default (fixity_in (slice_get items.now place)) }
{
    match items.get(place as usize) {
        Some(Item::Op(fixity, _)) => *fixity,
        Some(Item::Minus(_)) => MINUS,
        Some(Item::Leaf(_)) => Fixity {
            side: Side::Left,
            level: 9,
        },
        None => Fixity {
            side: Side::Left,
            level: 9,
        },
    }
}

fn frame_fixity(items: &[Item], frame: &Frame) -> Fixity
    ensures { result ≡ open_fixity (open_of items.now frame.now) }
{
    match frame {
        Frame::Minus => MINUS,
        Frame::Op(place, _) => fixity_at(items, *place),
    }
}

// Whether the innermost may be the left child of an operator.
fn is_closed_by(items: &[Item], frames: &[Frame], next: Fixity) -> bool
    ensures { result ≡ closes_top (opens items.now frames.now) next }
{
    match frames.last() {
        None => false,
        Some(frame) => may_go_left(next, frame_fixity(items, frame)),
    }
}

// Whether an operator or a minus may stand under the innermost.
fn is_allowed(items: &[Item], frames: &[Frame], next: Fixity) -> bool
    ensures { result ≡ allows (opens items.now frames.now) next }
{
    match frames.last() {
        None => true,
        Some(frame) => may_go_right(frame_fixity(items, frame), next),
    }
}

// What is open, with its right operand.
fn join(alloc: Global, frame: Frame, operand: Arranged) -> Result<Arranged, NoMemory>
    ensures { IfOk result (λ tree. (items : List Item) → tree_in items tree ≡ applied (open_of items frame) (tree_in items operand)) }
{
    let right = Boxed::new(alloc, operand)?;
    match frame {
        Frame::Minus => Ok(Arranged::Minus(right)),
        Frame::Op(place, left) => {
            let left = Boxed::new(alloc, left)?;
            Ok(Arranged::Pair(place, left, right))
        }
    }
}

// Closes what an operator takes as its left operand.
fn reduce(
    alloc: Global,
    items: &[Item],
    frames: &mut Vec<Frame>,
    leaf: Arranged,
    next: Fixity,
) -> Result<Arranged, NoMemory>
    ensures { IfOk result (λ tree. reduced (opens items.now frames.old.items) (tree_in items.now leaf) next ≡ settled (opens items.now frames.new.items) (tree_in items.now tree) next) }
{
    let mut operand = leaf;
    'closing: while is_closed_by(items, frames.as_slice(), next) {
        match frames.pop() {
            Some(frame) => operand = join(alloc, frame, operand)?,
            None => unreachable!(),
        }
    }
    Ok(operand)
}

// Closes all that is open.
fn close(alloc: Global, frames: &mut Vec<Frame>, leaf: Arranged) -> Result<Arranged, NoMemory>
    ensures { IfOk result (λ tree. (items : List Item) → tree_in items tree ≡ closed (opens items frames.old.items) (tree_in items leaf)) }
{
    let mut operand = leaf;
    while let Some(frame) = frames.pop() {
        operand = join(alloc, frame, operand)?;
    }
    Ok(operand)
}

// The nearest place before another with an operator or a minus of a level.
fn nearest(items: &[Item], right: u32, level: u8) -> u32
    requires within { right ≤ length items.now }
    requires some { (p : ℕ) × (p < right) × (level_at items.now p ≡ Some level) }
    ensures { IsNearest items.now level result right }
{
    for place in (0..right).rev() {
        if has_level(&items[place as usize], level) {
            return place;
        }
    }
    unreachable!()
}

fn has_level(item: &Item, level: u8) -> bool
    ensures { IsTrue result ↔ (level_in (item_fixity item.now) ≡ Some level) }
{
    match item {
        Item::Leaf(_) => false,
        Item::Minus(_) => level == MINUS.level,
        Item::Op(fixity, _) => level == fixity.level,
    }
}

fn put_frame(frames: &mut Vec<Frame>, frame: Frame) -> Result<(), NoMemory>
    ensures { OnOk result (frames.new.items ≡ frames.old.items ++ frame ∷ []) }
{
    frames.push(frame)?;
    Ok(())
}

// Opens a minus.
fn put_minus(items: &[Item], frames: &mut Vec<Frame>, at: u32) -> Result<(), ArrangeFault>
    requires { steps start (marks_from 0 (take at items.now)) ≡ Some (opens items.now frames.old.items, None) }
    ensures ok { OnOk result (step (opens items.now frames.old.items) None minus_sign ≡ Some (opens items.now frames.new.items, None)) }
    ensures clash { IfClash result (λ left right. (right ≡ at) × (left + 1 ≡ right) × (step (opens items.now frames.old.items) None minus_sign ≡ None)) }
{
    if !is_allowed(items, frames.as_slice(), MINUS) {
        return Err(ArrangeFault::Clash {
            left: at - 1,
            right: at,
        });
    }
    match put_frame(frames, Frame::Minus) {
        Ok(()) => Ok(()),
        Err(NoMemory) => Err(ArrangeFault::NoMemory),
    }
}

// Opens an operator, after what it takes as its left operand is closed.
fn put_operator(
    alloc: Global,
    items: &[Item],
    frames: &mut Vec<Frame>,
    leaf: u32,
    at: u32,
    fixity: Fixity,
) -> Result<(), ArrangeFault>
    requires within { at ≤ length items.now }
    requires here { or_default (fixity_in (slice_get items.now at)) ≡ fixity }
    requires reads { steps start (marks_from 0 (take at items.now)) ≡ Some (opens items.now frames.old.items, Some leaf) }
    ensures ok { OnOk result (step (opens items.now frames.old.items) (Some leaf) (op_at at fixity) ≡ Some (opens items.now frames.new.items, None)) }
    ensures clash { IfClash result (λ left right. (right ≡ at) × IsNearest items.now fixity.level left right × (step (opens items.now frames.old.items) (Some leaf) (op_at at fixity) ≡ None)) }
{
    let operand = match reduce(alloc, items, frames, Arranged::Leaf(leaf), fixity) {
        Ok(operand) => operand,
        Err(NoMemory) => return Err(ArrangeFault::NoMemory),
    };
    if !is_allowed(items, frames.as_slice(), fixity) {
        return Err(ArrangeFault::Clash {
            left: nearest(items, at, fixity.level),
            right: at,
        });
    }
    match put_frame(frames, Frame::Op(at, operand)) {
        Ok(()) => Ok(()),
        Err(NoMemory) => Err(ArrangeFault::NoMemory),
    }
}

/// The tree that arranges an operator list, by the fixities of its operators (Haskell 98 Report, sections 3.4, 4.4.2 and
/// 10.6): its leaves, operators and minus signs from left to right are the list, and each child of a node that is itself
/// a node has a higher level, or the same level where both are left-associative and it is the left child, or both are
/// right-associative and it is the right child. A prefix minus is a left-associative node of level 6.
///
/// The list has to be one that the grammar gives: operands with an operator between each two, where an operand is a leaf
/// or a minus and a leaf. At most one tree arranges a list. Where none does, `right` is the place of the first operator
/// or minus up to which none does, and `left` the nearest earlier operator or minus of its level; at a minus it is the
/// operator directly before. A list of 2^32 items or more is answered by `NoMemory`, since a place is 32 bits wide. The
/// list stays as it was.
///
/// The time is linear in the list, and no call goes as deep as the list is long. The tree may be as deep as the list is
/// long, and its destructor goes that deep.
pub fn arrange(alloc: Global, items: &ListOf<Item>) -> Result<Arranged, ArrangeFault>
    requires { IsTrue (is_list items.now) }
    ensures tree { IfOk result (λ tree. Arranges items.now (tree_in items.now tree)) }
    ensures clash { IfClash result (Clashes items.now) }
    // The two places are those that reading the list from its front gives.
    ensures settled { IfClash result (λ left right. (root : Option ℕ) → settle items.now root ≡ fails left right) }
{
    let list = items.as_slice();
    if list.len() > u32::MAX as usize {
        return Err(ArrangeFault::NoMemory);
    }
    let mut frames = Vec::new(alloc);
    let mut last = None;
    for (at, item) in list.iter().enumerate() {
        match item {
            Item::Leaf(_) => last = Some(at as u32),
            Item::Minus(_) => {
                if let Err(fault) = put_minus(list, &mut frames, at as u32) {
                    return Err(fault);
                }
            }
            Item::Op(fixity, _) => {
                let leaf = match last {
                    Some(leaf) => leaf,
                    None => unreachable!(),
                };
                if let Err(fault) = put_operator(
                    alloc,
                    list,
                    &mut frames,
                    leaf,
                    at as u32,
                    *fixity,
                ) {
                    return Err(fault);
                }
                last = None;
            }
        }
    }
    match last {
        Some(leaf) => match close(alloc, &mut frames, Arranged::Leaf(leaf)) {
            Ok(tree) => Ok(tree),
            Err(NoMemory) => Err(ArrangeFault::NoMemory),
        },
        None => unreachable!(),
    }
}

/// The law of arrangement: at most one tree arranges a list, and at most one answer stands for it.
pub fn has_one_tree()
    ensures tree { HasOneTree }
    ensures answer { HasOneAnswer }
{}
