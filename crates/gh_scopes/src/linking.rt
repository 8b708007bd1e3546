// All files.
ghost use Rattle.std.specs.Prelude.{◌≡◌, [], replicate, None, Ok, IfOk};
ghost use Rattle.std.specs.Option.{option_or};
ghost use Rattle.gh_scopes.specs.Gives.{Gives};
ghost use Rattle.gh_scopes.specs.Linking as spec;
ghost use Rattle.gh_scopes.specs.Graph.{graph_of};
ghost use Rattle.gh_scopes.specs.Imports.{imports_fault};

use crate::by_file::ByFile;
use crate::exports::exports_of;
use crate::graph::{before_scopes, graph_of};
use crate::imports::{imports_fault, scope_of};
use crate::order::order_of;
use crate::owners::Owners;
use crate::progress::Progress;
use crate::table::Table;
use crate::types::{Linked, Scope, Summary};
use gh_base::{Fault, ListOf, NoMemory, Refusal};
use std::alloc::Global;

fn no_exports(alloc: Global, count: usize) -> Result<ByFile<Table>, NoMemory>
    ensures { IfOk result (λ tables. tables ≡ replicate count []) }
{
    let mut tables = ByFile::new(alloc);
    for turn in 0..count {
        tables.push(Table::new(alloc))?;
    }
    Ok(tables)
}

fn no_scopes(alloc: Global, count: usize) -> Result<ByFile<Scope>, NoMemory>
    ensures { IfOk result (λ scopes. scopes ≡ replicate count spec.no_scope) }
{
    let mut scopes = ByFile::new(alloc);
    for turn in 0..count {
        scopes.push(Scope {
            entries: ListOf::new(alloc),
        })?;
    }
    Ok(scopes)
}

fn start(alloc: Global, count: usize) -> Result<Progress, NoMemory>
    ensures { IfOk result (λ p. p ≡ spec.start count) }
{
    let exports = no_exports(alloc, count)?;
    let scopes = no_scopes(alloc, count)?;
    Ok(Progress {
        exports,
        scopes,
        fault: None,
    })
}

fn earlier(first: Option<Refusal>, second: Option<Refusal>) -> Option<Refusal>
    ensures { result ≡ option_or first second }
{
    match first {
        Some(refusal) => Some(refusal),
        None => second,
    }
}

// With the scope and the exports of a file.
fn with_scope(
    alloc: Global,
    owners: &Owners,
    progress: Progress,
    file: usize,
    summary: &Summary,
) -> Result<Progress, NoMemory>
    ensures { IfOk result (λ p. p ≡ spec.scoped owners.now.summaries.now progress file summary.now) }
{
    let Progress {
        mut exports,
        mut scopes,
        fault,
    } = progress;
    let once = scope_of(alloc, owners, exports.as_slice(), summary)?;
    let given = exports_of(alloc, owners, summary, &once)?;
    exports.set(file, given.entries);
    let entries = once.into_entries();
    scopes.set(file, Scope { entries });
    Ok(Progress {
        exports,
        scopes,
        fault: earlier(fault, given.fault),
    })
}

fn with_summary(
    alloc: Global,
    owners: &Owners,
    progress: Progress,
    file: usize,
    summary: &Summary,
) -> Result<Progress, Fault>
    ensures { Gives (spec.linked_by owners.now.summaries.now progress file summary.now (imports_fault owners.now.summaries.now progress.exports summary.now)) result }
{
    match imports_fault(alloc, owners, progress.exports.as_slice(), summary) {
        Some(refusal) => Err(Fault::Refused(refusal)),
        None => Ok(with_scope(alloc, owners, progress, file, summary)?),
    }
}

#[tactic(auto, unfolding(crate::specs::Linking::with_file))]
fn with_file(
    alloc: Global,
    owners: &Owners,
    progress: Progress,
    file: usize,
) -> Result<Progress, Fault>
    ensures { Gives (spec.with_file owners.now.summaries.now progress file) result }
{
    match owners.summaries.get(file) {
        None => Ok(progress),
        Some(summary) => with_summary(alloc, owners, progress, file, summary),
    }
}

fn along(
    alloc: Global,
    owners: &Owners,
    progress: Progress,
    order: &[usize],
) -> Result<Progress, Fault>
    ensures { Gives (spec.along owners.now.summaries.now (Ok progress) order.now) result }
{
    let mut progress = progress;
    for file in order {
        progress = match with_file(alloc, owners, progress, *file) {
            Ok(next) => next,
            Err(fault) => return Err(fault),
        };
    }
    Ok(progress)
}

fn numbers(alloc: Global, order: &[usize]) -> Result<ListOf<u32>, NoMemory>
    ensures { IfOk result (λ list. list ≡ order.now) }
{
    let mut list = ListOf::new(alloc);
    for file in order {
        if *file > u32::MAX as usize {
            return Err(NoMemory);
        }
        list.push(*file as u32)?;
    }
    Ok(list)
}

fn finished(alloc: Global, order: &[usize], progress: Progress) -> Result<Linked, Fault>
    ensures { Gives (spec.linked_unless order.now progress progress.fault) result }
{
    let Progress {
        exports,
        scopes,
        fault,
    } = progress;
    drop(exports);
    match fault {
        Some(refusal) => Err(Fault::Refused(refusal)),
        None => {
            let order = numbers(alloc, order)?;
            let scopes = scopes.into_list(alloc)?;
            Ok(Linked { order, scopes })
        }
    }
}

fn link_all(alloc: Global, summaries: &[Summary], graph: &[ListOf<usize>]) -> Result<Linked, Fault>
    requires { graph.now ≡ graph_of summaries.now }
    ensures { Gives (spec.linked_after summaries.now None) result }
{
    let order = order_of(alloc, graph)?;
    let owners = Owners::new(alloc, summaries)?;
    let progress = start(alloc, summaries.len())?;
    let progress = along(alloc, &owners, progress, order.as_slice())?;
    finished(alloc, order.as_slice(), progress)
}

/// The order of the files and the scope of each, from what each file says to the others (Haskell 98 Report, chapter 5).
/// The files stand by their numbers; file 0 is the Prelude.
///
/// The order takes again and again the first file that was not taken and all of whose imports were. A scope has the own
/// definitions of its module in the order of the text, and then what its imports give in their order, each entry once.
///
/// Refused is the first fault in this order: a second module of one name; the first import that lies on a cycle, with a
/// shortest cycle through it; an import of an unknown module; in the order of the files, a name of an import list that
/// its module does not export; a name of an export list that is unknown or ambiguous, or with which an exported name has
/// two origins. The only other answer is that there is no memory.
///
/// Names are looked up in tables, so time is linear in what definitions, imports and parts of export lists give, each
/// counted as often as it stands there, but for what asks which file is meant, which looks at each file. An import with
/// a list goes over the exports of its module.
#[tactic(auto, unfolding(crate::specs::Linking::linked_of))]
pub fn link_summaries(alloc: Global, summaries: &[Summary]) -> Result<Linked, Fault>
    ensures { Gives (spec.linked_of summaries.now) result }
{
    let graph = graph_of(alloc, summaries)?;
    match before_scopes(alloc, summaries, graph.as_slice())? {
        Some(refusal) => Err(Fault::Refused(refusal)),
        None => link_all(alloc, summaries, graph.as_slice()),
    }
}
