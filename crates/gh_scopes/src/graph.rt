// Which files import which, and the refusals before all scopes.
ghost use Rattle.std.specs.Prelude.{◌≡◌, ℕ, suc, ◌<◌, ◌++◌, List, [], None, length, map, slice_index_or, IfOk, OnOk};
ghost use Rattle.std.specs.List.{list_any};
ghost use Rattle.std.specs.Option.{option_copied};
ghost use Rattle.gh_scopes.specs.Graph as spec;
ghost use Rattle.gh_scopes.specs.Layers.{AreLayers, IsLayer, here};

use crate::types::{Import, Summary};
use gh_base::{ListOf, NameId, NoMemory, Refusal};
use std::alloc::Global;

/// The file of a module.
pub fn file_of(summaries: &[Summary], name: NameId) -> Option<usize>
    ensures { result ≡ spec.file_of summaries.now name }
{
    summaries
        .iter()
        .position(|summary| summary.name.0 == name.0)
}

fn is_there(summaries: &[Summary], name: NameId) -> bool
    ensures { result ≡ list_any (spec.is_named name) summaries.now }
{
    summaries.iter().any(|summary| summary.name.0 == name.0)
}

fn double_at(before: &[Summary], summary: &Summary) -> Option<Refusal>
    ensures { result ≡ spec.double_at before.now summary.now }
{
    if is_there(before, summary.name) {
        return Some(Refusal::DoubleModule {
            span: summary.span,
            name: summary.name,
        });
    }
    None
}

// A second module of one name.
#[tactic(auto, using(crate::proofs::Loops::double_more, crate::proofs::Loops::double_here))]
fn first_double(summaries: &[Summary]) -> Option<Refusal>
    ensures { result ≡ spec.first_double [] summaries.now }
{
    for (at, summary) in summaries.iter().enumerate() {
        if let Some(refusal) = double_at(&summaries[..at], summary) {
            return Some(refusal);
        }
    }
    None
}

fn has_file(files: &[usize], file: usize) -> bool
    ensures { result ≡ spec.has_file files.now file }
{
    files.iter().any(|other| *other == file)
}

fn put_file(files: &mut ListOf<usize>, file: Option<usize>) -> Result<(), NoMemory>
    ensures { OnOk result (files.new ≡ spec.with_file files.old file) }
{
    match file {
        None => Ok(()),
        Some(file) => {
            if has_file(files.as_slice(), file) {
                return Ok(());
            }
            files.push(file)?;
            Ok(())
        }
    }
}

#[tactic(auto, using(crate::proofs::Loops::files_more))]
fn imported_files(
    alloc: Global,
    summaries: &[Summary],
    summary: &Summary,
) -> Result<ListOf<usize>, NoMemory>
    ensures { IfOk result (λ files. files ≡ spec.imported_files summaries.now summary.now) }
{
    let mut files = ListOf::new(alloc);
    let imports = summary.imports.as_slice();
    for import in imports {
        put_file(&mut files, file_of(summaries, import.name))?;
    }
    Ok(files)
}

/// The files that each file imports.
pub fn graph_of(alloc: Global, summaries: &[Summary]) -> Result<ListOf<ListOf<usize>>, NoMemory>
    ensures { IfOk result (λ graph. graph ≡ spec.graph_of summaries.now) }
{
    let mut graph = ListOf::new(alloc);
    for summary in summaries {
        graph.push(imported_files(alloc, summaries, summary)?)?;
    }
    Ok(graph)
}

// Walks of one length to one file, from each file.
type Layer = ListOf<Option<ListOf<usize>>>;

fn walk_from(layer: &Layer, file: usize) -> Option<&[usize]>
    ensures { option_copied result ≡ slice_index_or layer.now file None }
{
    match layer.as_slice().get(file) {
        Some(Some(walk)) => Some(walk.as_slice()),
        Some(None) => None,
        None => None,
    }
}

fn first_walk<'a>(layer: &'a Layer, files: &[usize]) -> Option<&'a [usize]>
    ensures { option_copied result ≡ spec.first_some (λ (f : ℕ). slice_index_or layer.now f None) files.now }
{
    for file in files {
        if let Some(walk) = walk_from(layer, *file) {
            return Some(walk);
        }
    }
    None
}

fn begin_with(
    alloc: Global,
    file: usize,
    walk: Option<&[usize]>,
) -> Result<Option<ListOf<usize>>, NoMemory>
    ensures { IfOk result (λ w. w ≡ spec.begin_with file (option_copied walk.entry)) }
{
    match walk {
        None => Ok(None),
        Some(walk) => {
            let mut files = ListOf::new(alloc);
            files.push(file)?;
            files.extend_from_slice(walk)?;
            Ok(Some(files))
        }
    }
}

// A walk without imports.
fn here(alloc: Global, file: usize, to: usize) -> Option<ListOf<usize>>
    ensures { result ≡ here to file }
{
    if file == to {
        Some(ListOf::new(alloc))
    } else {
        None
    }
}

// The walks without imports.
fn first_layer(alloc: Global, count: usize, to: usize) -> Result<Layer, NoMemory>
    requires { to < count }
    ensures { IfOk result (λ layer. (g : List (List ℕ)) → IsLayer g to 0 layer) }
{
    let mut layer = ListOf::new(alloc);
    for file in 0..count {
        layer.push(here(alloc, file, to))?;
    }
    Ok(layer)
}

// The walks with one import more.
fn next_layer(alloc: Global, graph: &[ListOf<usize>], layer: &Layer) -> Result<Layer, NoMemory>
    ensures { IfOk result (λ next. (to n : ℕ) → IsLayer graph.now to n layer.now → IsLayer graph.now to (suc n) next) }
{
    let mut next = ListOf::new(alloc);
    for (file, files) in graph.iter().enumerate() {
        next.push(begin_with(alloc, file, first_walk(layer, files.as_slice()))?)?;
    }
    Ok(next)
}

// All walks to a file with fewer imports than there are files.
fn layers(alloc: Global, graph: &[ListOf<usize>], to: usize) -> Result<Vec<Layer>, NoMemory>
    requires { to < length graph.now }
    ensures { IfOk result (λ layers. (length layers.items ≡ length graph.now) × AreLayers graph.now to (length graph.now) layers.items) }
{
    let mut layers = Vec::new(alloc);
    let mut layer = first_layer(alloc, graph.len(), to)?;
    for many in 0..graph.len() {
        let next = next_layer(alloc, graph, &layer)?;
        layers.push(layer)?;
        layer = next;
    }
    Ok(layers)
}

// The first of the shortest walks from a file.
fn shortest(layers: &[Layer], file: usize) -> Option<&[usize]>
    ensures { (g : List (List ℕ)) (to : ℕ) → AreLayers g to (length layers.now) layers.now → option_copied result ≡ spec.shortest g to (length layers.now) 0 file }
{
    for layer in layers {
        if let Some(walk) = walk_from(layer, file) {
            return Some(walk);
        }
    }
    None
}

fn name_at(summaries: &[Summary], file: usize) -> NameId
    ensures { result ≡ spec.name_at summaries.now file }
{
    match summaries.get(file) {
        Some(summary) => summary.name,
        None => NameId(0),
    }
}

#[tactic(auto, using(std::proofs::lemmas::List::map_more, std::proofs::Common::append_assoc))]
fn put_names(
    names: &mut ListOf<NameId>,
    summaries: &[Summary],
    files: &[usize],
) -> Result<(), NoMemory>
    ensures { OnOk result (names.new ≡ names.old ++ map (spec.name_at summaries.now) files.now) }
{
    for file in files {
        names.push(name_at(summaries, *file))?;
    }
    Ok(())
}

fn cycle_by(
    alloc: Global,
    summaries: &[Summary],
    file: usize,
    import: &Import,
    walk: Option<&[usize]>,
) -> Result<Option<Refusal>, NoMemory>
    ensures { IfOk result (λ r. r ≡ spec.cycle_by summaries.now file import.now (option_copied walk.entry)) }
{
    match walk {
        None => Ok(None),
        Some(walk) => {
            let mut names = ListOf::new(alloc);
            names.push(name_at(summaries, file))?;
            put_names(&mut names, summaries, walk)?;
            Ok(Some(Refusal::CyclicImports {
                span: import.span,
                names,
            }))
        }
    }
}

fn back(layers: &[Layer], to: Option<usize>) -> Option<&[usize]>
    ensures { (g : List (List ℕ)) (f : ℕ) → length g ≡ length layers.now → AreLayers g f (length g) layers.now → option_copied result ≡ spec.back g f to }
{
    match to {
        None => None,
        Some(file) => shortest(layers, file),
    }
}

#[tactic(auto, using(crate::proofs::Lists::first_more, crate::proofs::Lists::first_here))]
fn cycle_in(
    alloc: Global,
    summaries: &[Summary],
    graph: &[ListOf<usize>],
    file: usize,
    summary: &Summary,
) -> Result<Option<Refusal>, NoMemory>
    requires { file < length graph.now }
    ensures { IfOk result (λ r. r ≡ spec.first_some (spec.cycle_at summaries.now graph.now file) summary.now.imports) }
{
    let layers = layers(alloc, graph, file)?;
    let imports = summary.imports.as_slice();
    for import in imports {
        let walk = back(layers.as_slice(), file_of(summaries, import.name));
        if let Some(refusal) = cycle_by(alloc, summaries, file, import, walk)? {
            return Ok(Some(refusal));
        }
    }
    Ok(None)
}

// The first import that lies on a cycle.
#[tactic(auto, using(crate::proofs::Loops::cycle_more, crate::proofs::Loops::cycle_here))]
fn first_cycle(
    alloc: Global,
    summaries: &[Summary],
    graph: &[ListOf<usize>],
) -> Result<Option<Refusal>, NoMemory>
    requires { length graph.now ≡ length summaries.now }
    ensures { IfOk result (λ r. r ≡ spec.first_cycle summaries.now graph.now 0 summaries.now) }
{
    for (file, summary) in summaries.iter().enumerate() {
        if let Some(refusal) = cycle_in(alloc, summaries, graph, file, summary)? {
            return Ok(Some(refusal));
        }
    }
    Ok(None)
}

fn unknown_at(summaries: &[Summary], import: &Import) -> Option<Refusal>
    ensures { result ≡ spec.unknown_at summaries.now import.now }
{
    match file_of(summaries, import.name) {
        Some(_) => None,
        None => Some(Refusal::UnknownModule {
            span: import.span,
            name: import.name,
        }),
    }
}

#[tactic(auto, using(crate::proofs::Lists::first_more, crate::proofs::Lists::first_here))]
fn unknown_in(summaries: &[Summary], imports: &[Import]) -> Option<Refusal>
    ensures { result ≡ spec.first_some (spec.unknown_at summaries.now) imports.now }
{
    for import in imports {
        if let Some(refusal) = unknown_at(summaries, import) {
            return Some(refusal);
        }
    }
    None
}

// The first import of an unknown module.
#[tactic(auto, using(crate::proofs::Lists::first_more, crate::proofs::Lists::first_here))]
fn first_unknown(summaries: &[Summary]) -> Option<Refusal>
    ensures { result ≡ spec.first_some (spec.unknown_in summaries.now) summaries.now }
{
    for summary in summaries {
        if let Some(refusal) = unknown_in(summaries, summary.imports.as_slice()) {
            return Some(refusal);
        }
    }
    None
}

/// The first refusal before all scopes.
pub fn before_scopes(
    alloc: Global,
    summaries: &[Summary],
    graph: &[ListOf<usize>],
) -> Result<Option<Refusal>, NoMemory>
    requires { graph.now ≡ spec.graph_of summaries.now }
    ensures { IfOk result (λ r. r ≡ spec.before_scopes summaries.now) }
{
    if let Some(refusal) = first_double(summaries) {
        return Ok(Some(refusal));
    }
    if let Some(refusal) = first_cycle(alloc, summaries, graph)? {
        return Ok(Some(refusal));
    }
    Ok(first_unknown(summaries))
}
