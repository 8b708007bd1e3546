// A file.
ghost use Rattle.std.specs.Prelude.{◌≡◌, ◌++◌, ◌==◌, [], if◌then◌else◌, IfOk, OnOk, map};
ghost use Rattle.std.specs.List.{flat_map, list_any};
ghost use Rattle.gh_modules.specs.Summaries as spec;

use crate::defined::{add_built_in, add_definitions};
use crate::items::{export_list, import_of, main_alone, start_of};
use gh_base::fixed::{MAIN_MODULE, PRELUDE};
use gh_base::{ListOf, NameId, NoMemory, Span};
use gh_scopes::{Definition, Import, Listed, Selection, Summary};
use gh_tree::{Exports, Header, Item, ModuleTree, NextItem};
use std::alloc::Global;

#[tactic(auto, using(std::proofs::lemmas::List::flat_map_more))]
fn add_next_definitions(
    alloc: Global,
    list: &mut ListOf<Definition>,
    items: &[NextItem],
) -> Result<(), NoMemory>
    ensures { OnOk result (list.new ≡ list.old ++ flat_map (λ x. spec.definitions_in (spec.item_at x)) items.now) }
{
    for next in items {
        add_definitions(alloc, list, &next.item)?;
    }
    Ok(())
}

#[tactic(auto, using(std::proofs::Common::append_assoc, crate::proofs::DeclAt::over_items))]
fn add_text_definitions(
    alloc: Global,
    list: &mut ListOf<Definition>,
    tree: &ModuleTree,
) -> Result<(), NoMemory>
    ensures { OnOk result (list.new ≡ list.old ++ flat_map spec.definitions_in (spec.items_of tree.now)) }
{
    add_definitions(alloc, list, &tree.first)?;
    add_next_definitions(alloc, list, tree.others.as_slice())?;
    Ok(())
}

fn definitions_of(
    alloc: Global,
    file: u32,
    tree: &ModuleTree,
) -> Result<ListOf<Definition>, NoMemory>
    ensures { IfOk result (λ r. r ≡ spec.definitions_of file (spec.items_of tree.now)) }
{
    let mut list = ListOf::new(alloc);
    if file == 0 {
        add_built_in(&mut list)?;
        add_text_definitions(alloc, &mut list, tree)?;
        return Ok(list);
    }
    add_text_definitions(alloc, &mut list, tree)?;
    Ok(list)
}

fn add_imports(alloc: Global, list: &mut ListOf<Import>, item: &Item) -> Result<(), NoMemory>
    ensures { OnOk result (list.new ≡ list.old ++ spec.imports_in item.now) }
{
    match item {
        Item::Empty => Ok(()),
        Item::Import(import) => {
            list.push(import_of(alloc, import.get())?)?;
            Ok(())
        }
        Item::Top(_) => Ok(()),
    }
}

#[tactic(auto, using(std::proofs::lemmas::List::flat_map_more))]
fn add_next_imports(
    alloc: Global,
    list: &mut ListOf<Import>,
    items: &[NextItem],
) -> Result<(), NoMemory>
    ensures { OnOk result (list.new ≡ list.old ++ flat_map (λ x. spec.imports_in (spec.item_at x)) items.now) }
{
    for next in items {
        add_imports(alloc, list, &next.item)?;
    }
    Ok(())
}

#[tactic(auto, using(crate::proofs::DeclAt::over_items))]
fn text_imports(alloc: Global, tree: &ModuleTree) -> Result<ListOf<Import>, NoMemory>
    ensures { IfOk result (λ r. r ≡ flat_map spec.imports_in (spec.items_of tree.now)) }
{
    let mut list = ListOf::new(alloc);
    add_imports(alloc, &mut list, &tree.first)?;
    add_next_imports(alloc, &mut list, tree.others.as_slice())?;
    Ok(list)
}

fn has_prelude(imports: &[Import]) -> bool
    ensures { result ≡ list_any spec.is_prelude imports.now }
{
    imports.iter().any(|import| import.name.0 == PRELUDE.0)
}

fn implied_prelude(file: u32) -> Import
    ensures { result ≡ spec.implied_prelude file }
{
    Import {
        span: start_of(file),
        name: PRELUDE,
        qualified: false,
        qualifier: PRELUDE,
        selection: Selection::Whole,
    }
}

fn imports_of(alloc: Global, file: u32, tree: &ModuleTree) -> Result<ListOf<Import>, NoMemory>
    ensures { IfOk result (λ r. r ≡ spec.imports_of file (spec.items_of tree.now)) }
{
    if file == 0 {
        return Ok(ListOf::new(alloc));
    }
    let mut list = text_imports(alloc, tree)?;
    if has_prelude(list.as_slice()) {
        return Ok(list);
    }
    list.push(implied_prelude(file))?;
    Ok(list)
}

fn exports_by(alloc: Global, exports: &Option<Exports>) -> Result<Option<ListOf<Listed>>, NoMemory>
    ensures { IfOk result (λ r. r ≡ spec.exports_by exports.now) }
{
    match exports {
        None => Ok(None),
        Some(exports) => Ok(Some(export_list(alloc, &exports.list)?)),
    }
}

fn exports_of(
    alloc: Global,
    file: u32,
    header: &Option<Header>,
) -> Result<Option<ListOf<Listed>>, NoMemory>
    ensures { IfOk result (λ r. r ≡ spec.exports_of file header.now) }
{
    match header {
        None => {
            let mut list = ListOf::new(alloc);
            list.push(main_alone(file))?;
            Ok(Some(list))
        }
        Some(header) => exports_by(alloc, &header.exports),
    }
}

fn module_name(file: u32, header: &Option<Header>) -> NameId
    ensures { result ≡ spec.module_name file header.now }
{
    if file == 0 {
        return PRELUDE;
    }
    match header {
        None => MAIN_MODULE,
        Some(header) => header.name.id,
    }
}

fn header_span(file: u32, header: &Option<Header>) -> Span
    ensures { result ≡ spec.header_span file header.now }
{
    match header {
        None => start_of(file),
        Some(header) => header.name.span,
    }
}

/// What linking reads of the tree of a file: the name of its module with its place, what it defines at its top, its
/// imports, and its export list (Haskell 98 Report, 4.1, 4.2 and 5.1 to 5.3). File 0 is the Prelude: it has its
/// primitives and the types `Int` and `Char` beside its text, and no imports. Every other file without an import of the
/// Prelude imports it whole, behind its other imports. A file without a header is the module `Main` and exports `main`,
/// both with no bytes at its first. A clause or a binding defines the names that it binds; the signature of a generic
/// function defines it. Each definition stands in the list as often as in the text. Time is linear in the tree.
#[tactic(auto, unfolding(crate::specs::Summaries::summary_of))]
pub fn summary(alloc: Global, file: u32, tree: &ModuleTree) -> Result<Summary, NoMemory>
    ensures { IfOk result (λ r. r ≡ spec.summary_of file tree.now) }
{
    let definitions = definitions_of(alloc, file, tree)?;
    let imports = imports_of(alloc, file, tree)?;
    let exports = exports_of(alloc, file, &tree.header)?;
    Ok(Summary {
        name: module_name(file, &tree.header),
        span: header_span(file, &tree.header),
        definitions,
        imports,
        exports,
    })
}
