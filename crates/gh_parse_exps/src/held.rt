// What a rule has read already. A list grows, and what a refused rule held is dropped, in functions of their own: the dropping
// of a large node would take room in each frame of the recursion.
ghost use Rattle.std.specs.Prelude.{◌≡◌, ◌++◌, ◌∷◌, [], IfOk};

use gh_base::{ListOf, NoMemory};

/// Drops what was held.
#[inline(never)]
pub fn discard<T: Drop>(_held: T) {}

/// One part more.
#[inline(never)]
pub fn kept<T: Drop>(found: ListOf<T>, item: T) -> Result<ListOf<T>, NoMemory>
    ensures { IfOk result (λ all. all ≡ found ++ item ∷ []) }
{
    let mut all = found;
    all.push(item)?;
    Ok(all)
}
