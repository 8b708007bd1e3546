// Lists of nodes, as they are built and taken apart.
ghost use Rattle.std.specs.Prelude.{◌≡◌, ◌∷◌, ◌++◌, [], reverse, OnOk, OnErr, IfOk};

use gh_base::NoMemory;
use sqlite_items::Items;
use std::alloc::Global;

/// Adds a node at the end of a list. Without memory the list stays as it was, and the node is dropped.
pub fn add<T: Drop>(list: &mut Items<T>, node: T) -> Result<(), NoMemory>
    ensures ok { OnOk result (list.new ≡ list.old ++ node ∷ []) }
    ensures err { OnErr result (list.new ≡ list.old) }
{
    list.push(node)?;
    Ok(())
}

/// The nodes of a list from its last to its first, so that `pop` takes the first of them first.
pub fn backwards<T: Drop>(alloc: Global, list: Items<T>) -> Result<Items<T>, NoMemory>
    ensures { IfOk result (λ turned. turned ≡ reverse list) }
{
    let mut waiting = list;
    let mut turned = Items::new(alloc);
    while let Some(node) = waiting.pop() {
        turned.push(node)?;
    }
    Ok(turned)
}
