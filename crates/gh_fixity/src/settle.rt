// What becomes of an operator list.
ghost use Rattle.std.specs.Prelude.{◌≡◌, List, Some, IsTrue, IfOk};
ghost use Rattle.gh_fixity.specs.declared.item.Item.{Item as TheItem};
ghost use Rattle.gh_fixity.specs.Arrangement.{is_list, tree_in};
ghost use Rattle.gh_fixity.specs.Settle.{root_place, rooted, settle as settle_of};
ghost use Rattle.gh_fixity.specs.Settled.{settling_in, settled_fault};

use crate::item::{ArrangeFault, Arranged, Item};
use crate::stack::arrange;
use gh_base::{ListOf, NoMemory};
use std::alloc::Global;

/// A list's tree, or the two places at which it clashes.
#[derive(Drop)]
pub enum Settled {
    Tree(Arranged),
    Clash(u32, u32),
}

// The place of a tree's root.
fn root_of(tree: &Arranged) -> u32
    ensures { (items : List TheItem) → result ≡ root_place (tree_in items tree.now) }
{
    match tree {
        Arranged::Leaf(place) => *place,
        Arranged::Minus(_) => 0,
        Arranged::Pair(place, _, _) => *place,
    }
}

fn with_root(tree: Arranged, root: Option<u32>) -> Settled
    ensures { (items : List TheItem) → settling_in items result ≡ rooted root (tree_in items tree) }
{
    let found = root_of(&tree);
    match root {
        None => Settled::Tree(tree),
        Some(place) => {
            if found == place {
                Settled::Tree(tree)
            } else {
                Settled::Clash(found, place)
            }
        }
    }
}

fn clashed(fault: ArrangeFault) -> Result<Settled, NoMemory>
    ensures { IfOk result (λ settled. settled_fault fault ≡ Some settled) }
{
    match fault {
        ArrangeFault::Clash { left, right } => Ok(Settled::Clash(left, right)),
        ArrangeFault::NoMemory => Err(NoMemory),
    }
}

/// Arranges a list of which a place has to be the root, or any may be.
pub fn settle(alloc: Global, items: &ListOf<Item>, root: Option<u32>) -> Result<Settled, NoMemory>
    requires { IsTrue (is_list items.now) }
    ensures { IfOk result (λ settled. settling_in items.now settled ≡ settle_of items.now root) }
{
    match arrange(alloc, items) {
        Ok(tree) => Ok(with_root(tree, root)),
        Err(fault) => clashed(fault),
    }
}
