// How deep one item of a file is.
ghost use Rattle.std.specs.Prelude.{◌≡◌, ◌-◌, ◌^◌, min};
ghost use Rattle.gh_tree.specs.Depth as spec;

use crate::depth_tops;
use crate::module_tree::{Header, Item};

impl Item {
    /// The greatest weight of a path of nodes inside this item, itself one of them, in the weights of
    /// `ModuleTree::depth`; 2^32 - 1 where it is greater. An item of no tokens has depth one. It takes no memory.
    #[tactic(auto, using(crate::proofs::Capped::capped_is))]
    pub fn depth(&self) -> u32
        ensures { result ≡ min (spec.item_depth self.now) (2 ^ 32 - 1) }
    {
        depth_tops::item_depth(self)
    }
}

/// The greatest weight of a path of nodes inside a header, in the weights of `ModuleTree::depth`; 2^32 - 1 where it is
/// greater. A header without an export list, and a file without a header, have depth zero. It takes no memory.
#[tactic(auto, using(crate::proofs::Capped::capped_is))]
pub fn header_depth(header: &Option<Header>) -> u32
    ensures { result ≡ min (spec.header_depth header.now) (2 ^ 32 - 1) }
{
    depth_tops::header_depth(header)
}
