// All files of a program.
ghost use Rattle.std.specs.Prelude.{◌≡◌, IfOk};
ghost use Rattle.gh_scopes.specs.Gives.{Gives};
ghost use Rattle.gh_scopes.specs.Linking.{linked_of};
ghost use Rattle.gh_modules.specs.Files.{summaries_of};

use crate::file::summary;
use gh_base::{Fault, ListOf, Names, NoMemory};
use gh_scopes::{Linked, Summary, link_summaries};
use gh_tree::ModuleTree;
use std::alloc::Global;

fn summaries_of(alloc: Global, trees: &[ModuleTree]) -> Result<ListOf<Summary>, NoMemory>
    ensures { IfOk result (λ ss. ss ≡ summaries_of trees.now) }
{
    let mut list = ListOf::new(alloc);
    for (file, tree) in trees.iter().enumerate() {
        if file > u32::MAX as usize {
            return Err(NoMemory);
        }
        list.push(summary(alloc, file as u32, tree)?)?;
    }
    Ok(list)
}

/// The order of the files of a program and the scope of each module (Haskell 98 Report, chapter 5). The trees stand by
/// the numbers of their files, and file 0 is the Prelude. The number of a file counts in `order` and `scopes` too.
///
/// The order takes again and again the first file that was not taken and all of whose imports were, so the Prelude is
/// first. A scope has what its module defines, in the order of the text, and then what its imports give in their order,
/// each entry once.
///
/// Refused is the first fault in this order: a second module of one name (`DoubleModule`); the first import that lies on
/// a cycle, with a shortest cycle through it (`CyclicImports`); an import of a module that is not there
/// (`UnknownModule`); in the order of the files, a name that its module does not export (`NotExported`); and in the order
/// of the files, a name of an export list that is unknown (`UnknownName`), or that is ambiguous or gives an exported name
/// a second origin (`AmbiguousName`). The only other answer is that there is no memory, which is also that of more than
/// 2^32 files. Names are known by their numbers alone, so the table of names is not read. Time is linear in the trees and
/// in what definitions, imports and export parts give, each counted as often as it stands there.
pub fn link(alloc: Global, _names: &Names, trees: &ListOf<ModuleTree>) -> Result<Linked, Fault>
    ensures { Gives (linked_of (summaries_of trees.now)) result }
{
    let summaries = summaries_of(alloc, trees.as_slice())?;
    link_summaries(alloc, summaries.as_slice())
}
