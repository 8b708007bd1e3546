// Lists with their trees, worked out by hand, and a table against a search over all trees.
ghost use Rattle.std.specs.Prelude.{IsTrue, OnOk, IfOk};
ghost use Rattle.gh_fixity.specs.Arrangement.{is_list};

use gh_base::{ListOf, NoMemory, Span};
use gh_fixity::{ArrangeFault, Arranged, Fixity, Item, Side, arrange, has_one_tree};
use std::alloc::Global;
use std::test::Fail;

const AT: Span = Span {
    file: 0,
    from: 0,
    to: 0,
};

const LEFT4: Item = Item::Op(
    Fixity {
        side: Side::Left,
        level: 4,
    },
    AT,
);

const RIGHT4: Item = Item::Op(
    Fixity {
        side: Side::Right,
        level: 4,
    },
    AT,
);

const NONE4: Item = Item::Op(
    Fixity {
        side: Side::Neither,
        level: 4,
    },
    AT,
);

const LEFT6: Item = Item::Op(
    Fixity {
        side: Side::Left,
        level: 6,
    },
    AT,
);

const RIGHT6: Item = Item::Op(
    Fixity {
        side: Side::Right,
        level: 6,
    },
    AT,
);

const LEFT7: Item = Item::Op(
    Fixity {
        side: Side::Left,
        level: 7,
    },
    AT,
);

fn is_leaf(tree: &Arranged, place: u32) -> bool {
    match tree {
        Arranged::Leaf(at) => *at == place,
        _ => false,
    }
}

fn is_minus_of_leaf(tree: &Arranged, place: u32) -> bool {
    match tree {
        Arranged::Minus(operand) => is_leaf(operand.get(), place),
        _ => false,
    }
}

// A leaf, an operator and a leaf, at three places.
fn is_pair_of_leaves(tree: &Arranged, left: u32, place: u32, right: u32) -> bool {
    match tree {
        Arranged::Pair(at, a, b) => *at == place
            && is_leaf(a.get(), left)
            && is_leaf(b.get(), right),
        _ => false,
    }
}

// The tree of a list that has one.
fn tree_of(alloc: Global, items: &[Item]) -> Result<Arranged, Fail>
    requires { IsTrue (is_list items.now) }
{
    let items = ListOf::from_slice(alloc, items)?;
    Ok(arrange(alloc, &items)?)
}

#[test]
fn left_twice(rt: HostRuntime) -> Result<(), Fail> {
    let tree = tree_of(
        rt.alloc(),
        &[Item::Leaf(0), LEFT4, Item::Leaf(1), LEFT4, Item::Leaf(2)],
    )?;
    match &tree {
        Arranged::Pair(at, left, right) => {
            assert_eq!(rt; *at, 3);
            assert!(rt; is_pair_of_leaves(left.get(), 0, 1, 2));
            assert!(rt; is_leaf(right.get(), 4));
        }
        _ => assert!(rt; false),
    }
    Ok(())
}

#[test]
fn right_twice(rt: HostRuntime) -> Result<(), Fail> {
    let tree = tree_of(
        rt.alloc(),
        &[Item::Leaf(7), RIGHT4, Item::Leaf(8), RIGHT4, Item::Leaf(9)],
    )?;
    match &tree {
        Arranged::Pair(at, left, right) => {
            assert_eq!(rt; *at, 1);
            assert!(rt; is_leaf(left.get(), 0));
            assert!(rt; is_pair_of_leaves(right.get(), 2, 3, 4));
        }
        _ => assert!(rt; false),
    }
    Ok(())
}

#[test]
fn minus_over_a_product(rt: HostRuntime) -> Result<(), Fail> {
    let tree = tree_of(
        rt.alloc(),
        &[Item::Minus(AT), Item::Leaf(0), LEFT7, Item::Leaf(1)],
    )?;
    match &tree {
        Arranged::Minus(operand) => assert!(rt; is_pair_of_leaves(operand.get(), 1, 2, 3)),
        _ => assert!(rt; false),
    }
    Ok(())
}

#[test]
fn minus_as_left_operand(rt: HostRuntime) -> Result<(), Fail> {
    let tree = tree_of(
        rt.alloc(),
        &[Item::Minus(AT), Item::Leaf(0), LEFT6, Item::Leaf(1)],
    )?;
    match &tree {
        Arranged::Pair(at, left, right) => {
            assert_eq!(rt; *at, 2);
            assert!(rt; is_minus_of_leaf(left.get(), 1));
            assert!(rt; is_leaf(right.get(), 3));
        }
        _ => assert!(rt; false),
    }
    Ok(())
}

#[test]
fn minus_as_right_operand(rt: HostRuntime) -> Result<(), Fail> {
    let tree = tree_of(
        rt.alloc(),
        &[Item::Leaf(0), NONE4, Item::Minus(AT), Item::Leaf(1)],
    )?;
    match &tree {
        Arranged::Pair(at, left, right) => {
            assert_eq!(rt; *at, 1);
            assert!(rt; is_leaf(left.get(), 0));
            assert!(rt; is_minus_of_leaf(right.get(), 3));
        }
        _ => assert!(rt; false),
    }
    Ok(())
}

// The fault of a list, if there is one.
fn fault_of(alloc: Global, items: &[Item]) -> Result<Option<ArrangeFault>, NoMemory>
    requires { IsTrue (is_list items.now) }
{
    let items = ListOf::from_slice(alloc, items)?;
    match arrange(alloc, &items) {
        Ok(_tree) => Ok(None),
        Err(fault) => Ok(Some(fault)),
    }
}

#[test]
fn clashes(rt: HostRuntime) -> Result<(), Fail> {
    let twice = fault_of(
        rt.alloc(),
        &[Item::Leaf(0), NONE4, Item::Leaf(1), NONE4, Item::Leaf(2)],
    )?;
    assert_eq!(rt; twice, Some(ArrangeFault::Clash { left: 1, right: 3 }));
    let sides = fault_of(
        rt.alloc(),
        &[
            Item::Leaf(0),
            LEFT4,
            Item::Leaf(1),
            LEFT7,
            Item::Leaf(2),
            RIGHT4,
            Item::Leaf(3),
        ],
    )?;
    assert_eq!(rt; sides, Some(ArrangeFault::Clash { left: 1, right: 5 }));
    let tight = fault_of(
        rt.alloc(),
        &[Item::Leaf(0), LEFT7, Item::Minus(AT), Item::Leaf(1)],
    )?;
    assert_eq!(rt; tight, Some(ArrangeFault::Clash { left: 1, right: 2 }));
    let sum = fault_of(
        rt.alloc(),
        &[
            Item::Minus(AT),
            Item::Leaf(0),
            LEFT7,
            Item::Leaf(1),
            RIGHT6,
            Item::Leaf(2),
        ],
    )?;
    assert_eq!(rt; sum, Some(ArrangeFault::Clash { left: 0, right: 4 }));
    Ok(())
}

// Whether a node of this fixity may stand under the one above, on its left or its right.
fn may_stand(above: Option<(Fixity, bool)>, below: Fixity) -> bool {
    match above {
        None => true,
        Some((above, is_left)) => {
            let side = if is_left { Side::Left } else { Side::Right };
            above.level < below.level
                || (above.level == below.level && above.side == side && below.side == side)
        }
    }
}

// Whether some tree over these operators stands under the node above: each operator in turn as its root.
fn has_tree(fixities: &[Fixity], above: Option<(Fixity, bool)>) -> bool {
    if fixities.is_empty() {
        return true;
    }
    for (root, fixity) in fixities.iter().enumerate() {
        if may_stand(above, *fixity)
            && has_tree(&fixities[..root], Some((*fixity, true)))
            && has_tree(&fixities[root + 1..], Some((*fixity, false)))
        {
            return true;
        }
    }
    false
}

// One more operator and its operand.
#[tactic(auto, using(gh_fixity::proofs::Grammar::longer_list))]
fn put_operator(items: &mut ListOf<Item>, fixity: Fixity) -> Result<(), NoMemory>
    requires { IsTrue (is_list items.old) }
    ensures { OnOk result (IsTrue (is_list items.new)) }
{
    items.extend_from_slice(&[Item::Op(fixity, AT), Item::Leaf(0)])?;
    Ok(())
}

fn list_of(alloc: Global, fixities: &[Fixity]) -> Result<ListOf<Item>, NoMemory>
    ensures { IfOk result (λ items. IsTrue (is_list items)) }
{
    let mut items = ListOf::from_slice(alloc, &[Item::Leaf(0)])?;
    for fixity in fixities {
        put_operator(&mut items, *fixity)?;
    }
    Ok(items)
}

const NINE: [Fixity; 9] = [
    Fixity {
        side: Side::Left,
        level: 3,
    },
    Fixity {
        side: Side::Right,
        level: 3,
    },
    Fixity {
        side: Side::Neither,
        level: 3,
    },
    Fixity {
        side: Side::Left,
        level: 4,
    },
    Fixity {
        side: Side::Right,
        level: 4,
    },
    Fixity {
        side: Side::Neither,
        level: 4,
    },
    Fixity {
        side: Side::Left,
        level: 9,
    },
    Fixity {
        side: Side::Right,
        level: 9,
    },
    Fixity {
        side: Side::Neither,
        level: 9,
    },
];

// The operators of a number to the base 9: as many of its digits, the last one first.
fn operators(alloc: Global, code: u32, count: u32) -> Result<Vec<Fixity>, NoMemory> {
    let mut fixities = Vec::new(alloc);
    let mut rest = code;
    for _ in 0..count {
        fixities.push(NINE[rest as usize % 9])?;
        rest /= 9;
    }
    Ok(fixities)
}

fn is_arranged(alloc: Global, fixities: &[Fixity]) -> Result<bool, NoMemory> {
    let items = list_of(alloc, fixities)?;
    Ok(arrange(alloc, &items).is_ok())
}

// Every list of up to five operators over three levels and three sides.
#[test]
fn agrees_with_a_search_over_all_trees(rt: HostRuntime) -> Result<(), Fail> {
    let mut seen: u64 = 0;
    for count in 0..6u32 {
        for code in 0..9u32.wrapping_pow(count) {
            let fixities = operators(rt.alloc(), code, count)?;
            let found = is_arranged(rt.alloc(), fixities.as_slice())?;
            assert_eq!(rt; found, has_tree(fixities.as_slice(), None));
            seen = seen.wrapping_add(1);
        }
    }
    assert_eq!(rt; seen, 66_430);
    has_one_tree();
    Ok(())
}
