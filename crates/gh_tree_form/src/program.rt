// Files of the first form.
ghost use Rattle.std.specs.Prelude.{◌≡◌, ◌∷◌, [], map, IfOk};
ghost use Rattle.gh_tree_form.specs.Form as spec;

use crate::bindings::Bindings;
use crate::item::{ItemForm, item_form};
use crate::span::item_span;
use gh_base::fixed::MAIN_MODULE;
use gh_base::{NoMemory, Span};
use gh_tree::{Header, Item, ModuleTree, NextItem};
use std::alloc::Global;

/// What the tree of a file is.
#[derive(Drop)]
pub enum Parsed {
    /// A top item that holds another form, or that binds a name again, by its bytes.
    Bad(Span),
    /// Bindings of different names.
    Program(Bindings),
}

// The bindings after an item, or none where the item is refused.
fn bind(bound: Bindings, form: ItemForm) -> Result<Option<Bindings>, NoMemory>
    ensures { IfOk result (λ o. o ≡ spec.bound_by bound form) }
{
    match form {
        ItemForm::Empty => Ok(Some(bound)),
        ItemForm::Bind(binding) => Ok(bound.with(binding)?),
        ItemForm::Other => Ok(None),
    }
}

// The bindings after an item of a file.
fn bind_item(alloc: Global, bound: Bindings, item: &Item) -> Result<Option<Bindings>, NoMemory>
    ensures { IfOk result (λ o. o ≡ spec.bound_by bound (spec.item_form item.now)) }
{
    let form = item_form(alloc, item)?;
    Ok(bind(bound, form)?)
}

// The items behind those that are bound, one by one.
fn items_form(alloc: Global, bound: Bindings, others: &[NextItem]) -> Result<Parsed, NoMemory>
    ensures { IfOk result (λ p. p ≡ spec.items_form bound (map (λ x. x.item) others.now)) }
{
    let mut bound = bound;
    for next in others {
        match bind_item(alloc, bound, &next.item)? {
            Some(more) => bound = more,
            None => return Ok(Parsed::Bad(item_span(&next.item))),
        }
    }
    Ok(Parsed::Program(bound))
}

// The items of a file.
fn body_form(alloc: Global, tree: &ModuleTree) -> Result<Parsed, NoMemory>
    ensures { IfOk result (λ p. p ≡ spec.items_form [] (spec.items_of tree.now)) }
{
    match bind_item(alloc, Bindings::new(alloc), &tree.first)? {
        Some(bound) => Ok(items_form(alloc, bound, tree.others.as_slice())?),
        None => Ok(Parsed::Bad(item_span(&tree.first))),
    }
}

// Whether a header is `module Main where`.
fn is_main(header: &Header) -> bool
    ensures { result ≡ spec.is_main header.now }
{
    header.name.qualifier.is_none() && header.name.id.0 == MAIN_MODULE.0 && header.exports.is_none()
}

/// The bindings of a file's tree, or the bytes of the first top item that holds another form or binds a name again. A file
/// without a header is read as if `module Main where` stood before it; every other header, and every import, is another
/// form. Time is linear in the tree.
#[tactic(auto, unfolding(crate::specs::Form::form_of))]
pub fn form(alloc: Global, tree: &ModuleTree) -> Result<Parsed, NoMemory>
    ensures { IfOk result (λ p. p ≡ spec.form_of tree.now) }
{
    match &tree.header {
        None => Ok(body_form(alloc, tree)?),
        Some(header) => {
            if is_main(header) {
                return Ok(body_form(alloc, tree)?);
            }
            Ok(Parsed::Bad(header.span))
        }
    }
}
