// The order of the files.
ghost use Rattle.std.specs.Prelude.{◌≡◌, IfOk, OnOk};
ghost use Rattle.std.specs.List.{list_all};
ghost use Rattle.gh_scopes.specs.Order as spec;

use gh_base::{ListOf, NoMemory};
use std::alloc::Global;

fn is_taken(done: &[usize], file: usize) -> bool
    ensures { result ≡ spec.taken done.now file }
{
    done.iter().any(|other| *other == file)
}

fn are_taken(done: &[usize], files: &[usize]) -> bool
    ensures { result ≡ list_all (spec.taken done.now) files.now }
{
    for file in files {
        if !is_taken(done, *file) {
            return false;
        }
    }
    true
}

fn is_ready(done: &[usize], file: usize, imports: &[usize]) -> bool
    ensures { result ≡ spec.is_ready done.now file imports.now }
{
    !is_taken(done, file) && are_taken(done, imports)
}

// The first file that was not taken and all of whose imports were.
#[tactic(auto, using(crate::proofs::Loops::ready_more, crate::proofs::Loops::ready_here))]
fn first_ready(done: &[usize], graph: &[ListOf<usize>]) -> Option<usize>
    ensures { result ≡ spec.first_ready done.now 0 graph.now }
{
    for (file, imports) in graph.iter().enumerate() {
        if is_ready(done, file, imports.as_slice()) {
            return Some(file);
        }
    }
    None
}

fn take(done: &mut ListOf<usize>, file: Option<usize>) -> Result<(), NoMemory>
    ensures { OnOk result (done.new ≡ spec.with_ready done.old file) }
{
    if let Some(file) = file {
        done.push(file)?;
    }
    Ok(())
}

/// Again and again the first ready file.
#[tactic(auto, using(crate::proofs::Loops::taken_more))]
pub fn order_of(alloc: Global, graph: &[ListOf<usize>]) -> Result<ListOf<usize>, NoMemory>
    ensures { IfOk result (λ order. order ≡ spec.order_of graph.now) }
{
    let mut done = ListOf::new(alloc);
    for turn in 0..graph.len() {
        let file = first_ready(done.as_slice(), graph);
        take(&mut done, file)?;
    }
    Ok(done)
}
