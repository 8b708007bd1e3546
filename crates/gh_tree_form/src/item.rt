// What an item of a file is (Haskell 98 Report, 4.4.3).
ghost use Rattle.std.specs.Prelude.{◌≡◌, IfOk};
ghost use Rattle.gh_tree_form.specs.Form as spec;

use crate::operand::{operands_of, word_of};
use gh_base::{ListOf, NoMemory, Span};
use gh_bindings::{Binding, Operand};
use gh_tree::{Decl, Exp, FunLhs, Item, Name, Rhs, Top, Where};
use std::alloc::Global;

/// What an item is.
#[derive(Drop)]
pub enum ItemForm {
    /// It is empty.
    Empty,
    /// It binds a name.
    Bind(Binding),
    /// It is of another form.
    Other,
}

// The operands of an expression without a type.
#[tactic(auto, using(crate::proofs::Shapes::exp_plain, crate::proofs::Shapes::exp_typed))]
fn exp_of(alloc: Global, node: &Exp) -> Result<Option<ListOf<Operand>>, NoMemory>
    ensures { IfOk result (λ os. os ≡ spec.exp_of node.now) }
{
    match node {
        Exp::Plain(operands) => Ok(operands_of(alloc, operands.get())?),
        Exp::Typed(..) => Ok(None),
    }
}

// Whether there are no local declarations.
#[tactic(auto, using(crate::proofs::Shapes::no_locals_absent, crate::proofs::Shapes::no_locals_block))]
fn no_locals(node: &Where) -> bool
    ensures { result ≡ spec.no_locals node.now }
{
    match node {
        Where::Absent => true,
        Where::Block(..) => false,
    }
}

// The operands of one right side without guards and local declarations.
#[tactic(auto, using(crate::proofs::Shapes::right_plain, crate::proofs::Shapes::right_guarded))]
fn right_of(alloc: Global, node: &Rhs) -> Result<Option<ListOf<Operand>>, NoMemory>
    ensures { IfOk result (λ os. os ≡ spec.right_of node.now) }
{
    match node {
        Rhs::Plain(_, _, body, locals) => {
            if no_locals(locals) {
                return Ok(exp_of(alloc, body)?);
            }
            Ok(None)
        }
        Rhs::Guarded(..) => Ok(None),
    }
}

// The name that is bound without arguments.
#[tactic(auto, using(crate::proofs::Shapes::left_prefix, crate::proofs::Shapes::left_infix, crate::proofs::Shapes::left_nested))]
fn left_of(node: &FunLhs) -> Option<Name>
    ensures { result ≡ spec.left_of node.now }
{
    match node {
        FunLhs::Prefix(_, var, arguments) => match arguments.as_slice() {
            [] => word_of(var),
            [_first, ..] => None,
        },
        FunLhs::Infix(..) => None,
        FunLhs::Nested(..) => None,
    }
}

// A binding with the bytes of its item.
fn bind_form(span: Span, name: Option<Name>, operands: Option<ListOf<Operand>>) -> ItemForm
    ensures { result ≡ spec.bind_form span name operands }
{
    match name {
        None => ItemForm::Other,
        Some(name) => match operands {
            None => ItemForm::Other,
            Some(operands) => ItemForm::Bind(Binding {
                name: name.id,
                span,
                operands,
            }),
        },
    }
}

// What a declaration is.
#[tactic(auto, using(crate::proofs::Shapes::decl_signature, crate::proofs::Shapes::decl_fixity, crate::proofs::Shapes::decl_function, crate::proofs::Shapes::decl_pattern))]
fn decl_form(alloc: Global, node: &Decl) -> Result<ItemForm, NoMemory>
    ensures { IfOk result (λ f. f ≡ spec.decl_form node.now) }
{
    match node {
        Decl::Function(span, left, right) => {
            let operands = right_of(alloc, right)?;
            Ok(bind_form(*span, left_of(left), operands))
        }
        Decl::Signature(..) => Ok(ItemForm::Other),
        Decl::Fixity(..) => Ok(ItemForm::Other),
        Decl::Pattern(..) => Ok(ItemForm::Other),
    }
}

// What a declaration of the top is.
fn top_form(alloc: Global, node: &Top) -> Result<ItemForm, NoMemory>
    ensures { IfOk result (λ f. f ≡ spec.top_form node.now) }
{
    match node {
        Top::Decl(decl) => Ok(decl_form(alloc, decl)?),
        Top::Synonym(..) => Ok(ItemForm::Other),
        Top::Data(..) => Ok(ItemForm::Other),
        Top::Newtype(..) => Ok(ItemForm::Other),
        Top::Signature(..) => Ok(ItemForm::Other),
        Top::Case(..) => Ok(ItemForm::Other),
        Top::Extends(..) => Ok(ItemForm::Other),
    }
}

/// What an item is: empty, a binding, or of another form.
pub fn item_form(alloc: Global, node: &Item) -> Result<ItemForm, NoMemory>
    ensures { IfOk result (λ f. f ≡ spec.item_form node.now) }
{
    match node {
        Item::Empty => Ok(ItemForm::Empty),
        Item::Import(_) => Ok(ItemForm::Other),
        Item::Top(top) => Ok(top_form(alloc, top.get())?),
    }
}
