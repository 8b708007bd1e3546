// The injections of a constructor.
ghost use Rattle.std.specs.Prelude.{◌≡◌, ℕ, ◌<◌, length, slice_get, Some, IfOk};
ghost use Rattle.gh_typeterm.specs.Representation.{layer_of, rep_of, paths_of, Leads};
ghost use Rattle.gh_typeterm.specs.declared.decl.DeclCon.{DeclCon};
ghost use Rattle.gh_typeterm.specs.declared.decl.DeclData.{DeclData};

use gh_base::{ListOf, NoMemory};
use std::alloc::Global;

/// The injections of the constructor at place `index`, from 0, of a datatype of `count` constructors, from outside:
/// `false` for `Inl` and `true` for `Inr`.
#[tactic(auto, using(gh_typeterm::proofs::Representation::paths_lead, gh_typeterm::proofs::Representation::paths_differ))]
pub fn paths(alloc: Global, count: u32, index: u32) -> Result<ListOf<bool>, NoMemory>
    requires { index < count }
    ensures path { IfOk result (λ path. path ≡ paths_of count index) }

    // In the representation of every datatype of so many constructors the path leads to this constructor's layer.
    ensures leads { IfOk result (λ path. (decl : DeclData) (con : DeclCon) →
        length decl.constructors ≡ count → slice_get decl.constructors index ≡ Some con →
        Leads path (rep_of decl) (layer_of con)) }

    // Another constructor has another path.
    ensures different { IfOk result (λ path. (other : ℕ) → path ≡ paths_of count other → other ≡ index) }
{
    path_to(alloc, count, index)
}

fn path_to(alloc: Global, count: u32, index: u32) -> Result<ListOf<bool>, NoMemory>
    requires { index < count }
    ensures { IfOk result (λ path. path ≡ paths_of count index) }
{
    let mut path = ListOf::new(alloc);
    for _ in 0..index {
        path.push(true)?;
    }
    if index + 1 < count {
        path.push(false)?;
    }
    Ok(path)
}
