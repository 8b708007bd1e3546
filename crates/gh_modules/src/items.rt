// Export and import lists, and imports.
ghost use Rattle.std.specs.Prelude.{◌≡◌, IfOk, OnOk, ◌++◌, map};
ghost use Rattle.gh_modules.specs.Summaries as spec;

use gh_base::{ListOf, NameId, NoMemory, Span};
use gh_scopes::{Import, Listed, ListedKind, Parts, Selection, Used};
use gh_tree::{
    Alias, Con, Entities, Entity, Export, ExportList, ImportList, Name, NextCon, NextEntity,
    NextExport, Var,
};
use std::alloc::Global;

fn between(before: Span, name: &Name, behind: Span) -> Used
    ensures { result ≡ spec.between before name.now behind }
{
    Used {
        span: Span {
            file: before.file,
            from: before.from,
            to: behind.to,
        },
        qualifier: name.qualifier,
        name: name.id,
    }
}

fn alone(name: &Name) -> Used
    ensures { result ≡ spec.alone name.now }
{
    Used {
        span: name.span,
        qualifier: name.qualifier,
        name: name.id,
    }
}

fn used_var(var: &Var) -> Used
    ensures { result ≡ spec.used_var var.now }
{
    match var {
        Var::Word(name) => alone(name),
        Var::Symbol(open, name, close) => between(*open, name, *close),
    }
}

fn used_con(con: &Con) -> Used
    ensures { result ≡ spec.used_con con.now }
{
    match con {
        Con::Word(name) => alone(name),
        Con::Symbol(open, name, close) => between(*open, name, *close),
    }
}

#[tactic(auto, using(std::proofs::lemmas::List::map_more, std::proofs::Common::append_assoc))]
fn add_cons(list: &mut ListOf<Used>, cons: &[NextCon]) -> Result<(), NoMemory>
    ensures { OnOk result (list.new ≡ list.old ++ map spec.next_con cons.now) }
{
    for next in cons {
        list.push(used_con(&next.con))?;
    }
    Ok(())
}

fn parts_of(alloc: Global, parts: &Option<gh_tree::Parts>) -> Result<Parts, NoMemory>
    ensures { IfOk result (λ r. r ≡ spec.parts_of parts.now) }
{
    match parts {
        None => Ok(Parts::Bare),
        Some(gh_tree::Parts::Empty(..)) => Ok(Parts::Listed(ListOf::new(alloc))),
        Some(gh_tree::Parts::All(..)) => Ok(Parts::All),
        Some(gh_tree::Parts::Listed(_, _, first, others, _)) => {
            let mut list = ListOf::new(alloc);
            list.push(used_con(first))?;
            add_cons(&mut list, others.as_slice())?;
            Ok(Parts::Listed(list))
        }
    }
}

fn a_value(name: Used) -> Listed
    ensures { result ≡ spec.a_value name }
{
    Listed {
        span: name.span,
        kind: ListedKind::Value,
        name,
        parts: Parts::Bare,
    }
}

fn a_type(
    alloc: Global,
    span: Span,
    name: &Name,
    parts: &Option<gh_tree::Parts>,
) -> Result<Listed, NoMemory>
    ensures { IfOk result (λ r. r ≡ spec.a_type span name.now parts.now) }
{
    let parts = parts_of(alloc, parts)?;
    Ok(Listed {
        span,
        kind: ListedKind::Type,
        name: alone(name),
        parts,
    })
}

fn a_module(span: Span, name: &Name) -> Listed
    ensures { result ≡ spec.a_module span name.now }
{
    Listed {
        span,
        kind: ListedKind::Module,
        name: alone(name),
        parts: Parts::Bare,
    }
}

fn export_of(alloc: Global, export: &Export) -> Result<Listed, NoMemory>
    ensures { IfOk result (λ r. r ≡ spec.export_of export.now) }
{
    match export {
        Export::Var(var) => Ok(a_value(used_var(var))),
        Export::Con(span, name, parts) => a_type(alloc, *span, name, parts),
        Export::Module(span, _, name) => Ok(a_module(*span, name)),
    }
}

#[tactic(auto, using(std::proofs::lemmas::List::map_more, std::proofs::Common::append_assoc))]
fn add_exports(
    alloc: Global,
    list: &mut ListOf<Listed>,
    exports: &[NextExport],
) -> Result<(), NoMemory>
    ensures { OnOk result (list.new ≡ list.old ++ map spec.next_export exports.now) }
{
    for next in exports {
        list.push(export_of(alloc, &next.export)?)?;
    }
    Ok(())
}

/// The items of an export list, in order; without a list there is none.
pub fn export_list(alloc: Global, list: &Option<ExportList>) -> Result<ListOf<Listed>, NoMemory>
    ensures { IfOk result (λ r. r ≡ spec.export_list list.now) }
{
    let mut exports = ListOf::new(alloc);
    match list {
        None => Ok(exports),
        Some(list) => {
            exports.push(export_of(alloc, &list.first)?)?;
            add_exports(alloc, &mut exports, list.others.as_slice())?;
            Ok(exports)
        }
    }
}

fn entity_of(alloc: Global, entity: &Entity) -> Result<Listed, NoMemory>
    ensures { IfOk result (λ r. r ≡ spec.entity_of entity.now) }
{
    match entity {
        Entity::Var(var) => Ok(a_value(used_var(var))),
        Entity::Con(span, name, parts) => a_type(alloc, *span, name, parts),
    }
}

#[tactic(auto, using(std::proofs::lemmas::List::map_more, std::proofs::Common::append_assoc))]
fn add_entities(
    alloc: Global,
    list: &mut ListOf<Listed>,
    entities: &[NextEntity],
) -> Result<(), NoMemory>
    ensures { OnOk result (list.new ≡ list.old ++ map spec.next_entity entities.now) }
{
    for next in entities {
        list.push(entity_of(alloc, &next.entity)?)?;
    }
    Ok(())
}

fn entities_of(alloc: Global, list: &Option<Entities>) -> Result<ListOf<Listed>, NoMemory>
    ensures { IfOk result (λ r. r ≡ spec.entities_of list.now) }
{
    let mut entities = ListOf::new(alloc);
    match list {
        None => Ok(entities),
        Some(list) => {
            entities.push(entity_of(alloc, &list.first)?)?;
            add_entities(alloc, &mut entities, list.others.as_slice())?;
            Ok(entities)
        }
    }
}

fn selection_by(hiding: &Option<Span>, list: ListOf<Listed>) -> Selection
    ensures { result ≡ spec.selection_by hiding.now list }
{
    match hiding {
        None => Selection::Only(list),
        Some(_) => Selection::Hiding(list),
    }
}

fn selection_of(alloc: Global, list: &Option<ImportList>) -> Result<Selection, NoMemory>
    ensures { IfOk result (λ r. r ≡ spec.selection_of list.now) }
{
    match list {
        None => Ok(Selection::Whole),
        Some(list) => {
            let entities = entities_of(alloc, &list.list)?;
            Ok(selection_by(&list.hiding, entities))
        }
    }
}

fn qualifier_of(name: NameId, alias: &Option<Alias>) -> NameId
    ensures { result ≡ spec.qualifier_of name alias.now }
{
    match alias {
        None => name,
        Some(alias) => alias.name.id,
    }
}

fn is_there(mark: &Option<Span>) -> bool
    ensures { result ≡ spec.is_there mark.now }
{
    match mark {
        None => false,
        Some(_) => true,
    }
}

/// An import.
pub fn import_of(alloc: Global, import: &gh_tree::Import) -> Result<Import, NoMemory>
    ensures { IfOk result (λ r. r ≡ spec.import_of import.now) }
{
    let selection = selection_of(alloc, &import.list)?;
    Ok(Import {
        span: import.span,
        name: import.name.id,
        qualified: is_there(&import.qualified),
        qualifier: qualifier_of(import.name.id, &import.alias),
        selection,
    })
}

/// The export list of a file without a header.
pub fn main_alone(file: u32) -> Listed
    ensures { result ≡ spec.main_alone file }
{
    a_value(Used {
        span: start_of(file),
        qualifier: None,
        name: gh_base::fixed::MAIN,
    })
}

/// The place of what no text says.
pub fn start_of(file: u32) -> Span
    ensures { result ≡ spec.start_of file }
{
    Span {
        file,
        from: 0,
        to: 0,
    }
}
