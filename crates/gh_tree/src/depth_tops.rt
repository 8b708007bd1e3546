// How deep exports, imports, top declarations and files are.
ghost use Rattle.std.specs.Prelude.{◌≡◌, ◌-◌, ◌^◌, min, map};
ghost use Rattle.gh_tree.specs.Depth as spec;
ghost use Rattle.gh_tree.specs.Depth.{capped, deepest};

use crate::depth::{
    above, arg_patterns_depth, arg_type_depth, arg_types_depth, btype_depth, decl_depth, greater,
    list_above, rhs_depth, type_depth,
};
use crate::module_tree::{Header, Item, ModuleTree, NextItem};
use crate::tops::{
    Constr, Context, Entity, Export, Exports, Import, NextConstr, NextEntity, NextExport, Parts,
    Top,
};

#[tactic(auto, using(crate::proofs::Capped::one_is, crate::proofs::Capped::zero_is))]
fn parts_depth(parts: &Option<Parts>) -> u32
    ensures { result ≡ capped (spec.parts_depth parts.now) }
{
    match parts {
        Some(_) => 1,
        None => 0,
    }
}

#[tactic(auto, using(crate::proofs::Capped::one_is, crate::proofs::Capped::capped_adds))]
fn export_depth(node: &Export) -> u32
    ensures { result ≡ capped (spec.export_depth node.now) }
{
    match node {
        Export::Var(_) => 1,
        Export::Con(_, _, parts) => above(parts_depth(parts)),
        Export::Module(..) => 1,
    }
}

#[tactic(auto, using(crate::proofs::Capped::zero_is))]
fn next_exports_depth(parts: &[NextExport]) -> u32
    ensures { result ≡ capped (deepest (map (λ x. spec.export_depth x.export) parts.now)) }
{
    let mut most = 0;
    for part in parts {
        most = greater(most, export_depth(&part.export));
    }
    most
}

#[tactic(auto, using(crate::proofs::Capped::zero_is, crate::proofs::Capped::capped_adds, crate::proofs::Capped::capped_max))]
fn exports_depth(node: &Exports) -> u32
    ensures { result ≡ capped (spec.exports_depth node.now) }
{
    match &node.list {
        Some(list) => {
            let first = export_depth(&list.first);
            let rest = next_exports_depth(list.others.as_slice());
            above(greater(first, rest))
        }
        None => above(0),
    }
}

#[tactic(auto, using(crate::proofs::Capped::one_is, crate::proofs::Capped::capped_adds))]
fn entity_depth(node: &Entity) -> u32
    ensures { result ≡ capped (spec.entity_depth node.now) }
{
    match node {
        Entity::Var(_) => 1,
        Entity::Con(_, _, parts) => above(parts_depth(parts)),
    }
}

#[tactic(auto, using(crate::proofs::Capped::zero_is))]
fn next_entities_depth(parts: &[NextEntity]) -> u32
    ensures { result ≡ capped (deepest (map (λ x. spec.entity_depth x.entity) parts.now)) }
{
    let mut most = 0;
    for part in parts {
        most = greater(most, entity_depth(&part.entity));
    }
    most
}

#[tactic(auto, using(crate::proofs::Capped::zero_is, crate::proofs::Capped::capped_adds, crate::proofs::Capped::capped_max))]
fn import_depth(node: &Import) -> u32
    ensures { result ≡ capped (spec.import_depth node.now) }
{
    let Some(list) = &node.list else {
        return above(0);
    };
    match &list.list {
        Some(entities) => {
            let first = entity_depth(&entities.first);
            let rest = next_entities_depth(entities.others.as_slice());
            above(greater(first, rest))
        }
        None => above(0),
    }
}

#[tactic(auto, using(crate::proofs::Capped::zero_is, crate::proofs::Capped::one_is, crate::proofs::Capped::three_is))]
fn context_depth(node: &Option<Context>) -> u32
    ensures { result ≡ capped (spec.context_depth node.now) }
{
    let Some(context) = node else {
        return 0;
    };
    match &context.deps.first {
        Some(_) => 3,
        None => 1,
    }
}

#[tactic(auto, using(crate::proofs::Capped::capped_adds, crate::proofs::Capped::capped_max))]
fn constr_depth(node: &Constr) -> u32
    ensures { result ≡ capped (spec.constr_depth node.now) }
{
    match node {
        Constr::Prefix(_, _, fields) => {
            let below = arg_types_depth(fields.as_slice());
            above(below)
        }
        Constr::Infix(_, left, _, right) => {
            let left = btype_depth(left);
            above(greater(left, btype_depth(right)))
        }
    }
}

#[tactic(auto, using(crate::proofs::Capped::zero_is))]
fn next_constrs_depth(parts: &[NextConstr]) -> u32
    ensures { result ≡ capped (deepest (map (λ x. spec.constr_depth x.constr) parts.now)) }
{
    let mut most = 0;
    for part in parts {
        most = greater(most, constr_depth(&part.constr));
    }
    most
}

#[tactic(auto, using(crate::proofs::Capped::one_is, crate::proofs::Capped::capped_adds, crate::proofs::Capped::capped_max))]
fn top_depth(node: &Top) -> u32
    ensures { result ≡ capped (spec.top_depth node.now) }
{
    match node {
        Top::Synonym(_, _, _, _, _, ty) => above(type_depth(ty)),
        Top::Data(_, _, _, _, _, first, others) => {
            let first = constr_depth(first);
            let rest = next_constrs_depth(others.as_slice());
            above(greater(first, rest))
        }
        Top::Newtype(_, _, _, _, _, _, field) => above(arg_type_depth(field)),
        Top::Signature(_, _, _, _, context, ty) => {
            let context = context_depth(context);
            let ty = type_depth(ty);
            above(greater(1, greater(context, ty)))
        }
        Top::Case(_, _, _, ty, _, args, right) => {
            let ty = type_depth(ty);
            let below = arg_patterns_depth(args.as_slice());
            let right = rhs_depth(right);
            list_above(args.as_slice().len(), greater(ty, greater(below, right)))
        }
        Top::Extends(..) => 1,
        Top::Decl(decl) => above(decl_depth(decl)),
    }
}

/// The greatest weight of a path in a top item, or 2^32 - 1 where it is greater.
#[tactic(auto, using(crate::proofs::Capped::one_is, crate::proofs::Capped::capped_adds))]
pub fn item_depth(node: &Item) -> u32
    ensures { result ≡ capped (spec.item_depth node.now) }
{
    match node {
        Item::Empty => 1,
        Item::Import(import) => above(import_depth(import.get())),
        Item::Top(top) => above(top_depth(top.get())),
    }
}

#[tactic(auto, using(crate::proofs::Capped::zero_is))]
fn next_items_depth(parts: &[NextItem]) -> u32
    ensures { result ≡ capped (deepest (map (λ x. spec.item_depth x.item) parts.now)) }
{
    let mut most = 0;
    for part in parts {
        most = greater(most, item_depth(&part.item));
    }
    most
}

/// The greatest weight of a path in a file's header, or 2^32 - 1 where it is greater.
#[tactic(auto, using(crate::proofs::Capped::zero_is))]
pub fn header_depth(node: &Option<Header>) -> u32
    ensures { result ≡ capped (spec.header_depth node.now) }
{
    let Some(header) = node else {
        return 0;
    };
    match &header.exports {
        Some(exports) => exports_depth(exports),
        None => 0,
    }
}

impl ModuleTree {
    /// The greatest weight of a path of nodes inside one item, the header being one; 2^32 - 1 where it is greater. A
    /// node weighs one. One with a list of operands, arguments, elements, local bindings, alternatives, guards or
    /// types of an arrow weighs as many as that list has parts, where these are more than one; the fields of a
    /// constructor are no such list. It takes no memory.
    #[tactic(auto, using(crate::proofs::Capped::capped_max, crate::proofs::Capped::capped_is))]
    pub fn depth(&self) -> u32
        ensures { result ≡ min (spec.depth_of self.now) (2 ^ 32 - 1) }
    {
        let header = header_depth(&self.header);
        let first = item_depth(&self.first);
        let rest = next_items_depth(self.others.as_slice());
        greater(header, greater(first, rest))
    }
}
