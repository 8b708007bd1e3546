// A store of type terms, each of which stands in it once.
ghost use Rattle.std.specs.Prelude.{◌≡◌, ℕ, ◌+◌, ◌-◌, ◌<◌, ◌≤◌, ◌^◌, [], Some, min, slice_get, length, IfOk, OnOk, OnErr};
ghost use Rattle.gh_typeterm.specs.Terms.{size_of};
ghost use Rattle.gh_typeterm.specs.Stores.{Gathered, GatheredInPart, IsDistinct, IsEntered, parts_of};
ghost use Rattle.gh_typeterm.specs.Keys.{Fits, con_key as key_of_con, origin_key as key_of_origin};

use crate::ty::{Ty, TyNode};
use gh_base::{NoMemory, Origin, Space, TyCon};
use indexmap::IndexMap;
use std::alloc::Global;
use std::marker::Model;

type OriginKey = (u32, (u32, u32));

type ConKey = (u32, OriginKey);

// What tells nodes apart, part by part: the form, the number of a variable or a type name or the places of the two parts
// of an application, and the constructor.
type NodeKey = (u32, ((u32, u32), ConKey));

const NO_ORIGIN: OriginKey = (0, (0, 0));

const NO_CON: ConKey = (0, NO_ORIGIN);

/// A term of a store.
#[derive(Debug, Drop)]
pub struct Stored {
    /// The term.
    pub term: Ty,
    /// The least of its nodes and 1,001.
    pub nodes: u32,
}

/// Type terms, each of which stands there once, with all of its subterms before it. Contracts see the list of the
/// terms in the order in which they came; the place of a term counts from 0.
#[derive(Drop)]
pub struct TyStore {
    terms: IndexMap<NodeKey, Stored>,
}

impl Model for TyStore {
    ghost use Rattle.std.specs.Prelude.{List, map};
    ghost use Rattle.gh_typeterm.specs.declared.ty.TyNode.{TyNode};
    ghost use Rattle.gh_typeterm.specs.Keys.{IsStore, terms_in};
    ghost use Rattle.gh_typeterm.specs.contracts.ty.TyNode as node;
    ghost use Rattle.std.specs.Coded.{coded_list};

    ghost Value = { List TyNode };

    ghost coded = { coded_list node.the_row.coded };

    ghost view = { λ s. terms_in s.terms.entries };

    ghost invariant = { λ s. IsStore s.terms.entries };
}

// The count of nodes at which counting ends.
const MANY_NODES: u32 = 1001;

impl TyStore {
    /// A store without terms. It takes no memory.
    pub fn new(alloc: Global) -> TyStore
        ensures { result ≡ [] }
    {
        TyStore {
            terms: IndexMap::new(alloc),
        }
    }

    /// The place of a term, which goes into the store with all of its subterms, each where it is new and behind its own
    /// subterms. Without memory some of its subterms may have come in.
    pub fn add(&mut self, term: &Ty) -> Result<u32, NoMemory>
        requires { length self.old + size_of term.now < 2 ^ 32 }
        ensures place { IfOk result (λ place. slice_get self.new place ≡ Some term.now) }
        ensures terms { OnOk result (Gathered self.old (parts_of term.now) self.new) }
        ensures err { OnErr result (GatheredInPart self.old (parts_of term.now) self.new) }
    {
        self.enter(term)
    }

    fn enter(&mut self, term: &Ty) -> Result<u32, NoMemory>
        requires { length self.old + size_of term.now < 2 ^ 32 }
        ensures place { IfOk result (λ place. slice_get self.new place ≡ Some term.now) }
        ensures terms { OnOk result (Gathered self.old (parts_of term.now) self.new) }
        ensures err { OnErr result (GatheredInPart self.old (parts_of term.now) self.new) }
    {
        match term.get() {
            TyNode::Con(head) => self.put((0, ((0, 0), con_key(head))), term, 1),
            TyNode::Var(number) => self.put((1, ((*number, 0), NO_CON)), term, 1),
            TyNode::Name(number) => self.put((3, ((*number, 0), NO_CON)), term, 1),
            TyNode::App(head, arg) => {
                let head = self.enter(head)?;
                let arg = self.enter(arg)?;
                let nodes = joined(self.nodes(head), self.nodes(arg));
                self.put((2, ((head, arg), NO_CON)), term, nodes)
            }
        }
    }

    // The place of a term whose parts are there.
    fn put(&mut self, key: NodeKey, term: &Ty, nodes: u32) -> Result<u32, NoMemory>
        requires fits { Fits self.old key term.now }
        requires nodes { nodes ≡ min (size_of term.now) 1001 }
        requires room { length self.old < 2 ^ 32 - 1 }
        ensures place { IfOk result (λ place. slice_get self.new place ≡ Some term.now) }
        ensures entered { OnOk result (IsEntered self.old term.now self.new) }
        ensures err { OnErr result (self.new ≡ self.old) }
    {
        if let Some(at) = self.terms.get_index_of(&key) {
            return Ok(at as u32);
        }
        let at = self.terms.len();
        let term = term.share()?;
        self.terms.insert(key, Stored { term, nodes })?;
        Ok(at as u32)
    }

    /// The term at a place. It takes no memory.
    pub fn get(&self, place: u32) -> &Ty
        requires { place < length self.now }
        ensures { slice_get self.now place ≡ Some result.now }
    {
        &self.stored(place).term
    }

    /// How many terms there are. It takes no memory.
    pub fn len(&self) -> u32
        ensures count { result ≡ length self.now }
        ensures distinct { IsDistinct self.now }
    {
        self.terms.len() as u32
    }

    /// The least of the number of nodes of the term at a place, a shared part counted as often as it stands in the
    /// tree, and 1,001. It takes no memory.
    pub fn nodes(&self, place: u32) -> u32
        requires { place < length self.now }
        ensures { (t : TyNode) → slice_get self.now place ≡ Some t → result ≡ min (size_of t) 1001 }
    {
        self.stored(place).nodes
    }

    fn stored(&self, place: u32) -> &Stored
        requires { place < length self.now }
        ensures term { slice_get self.now place ≡ Some result.now.term }
        ensures nodes { result.now.nodes ≡ min (size_of result.now.term) 1001 }
    {
        match self.terms.get_index(place as usize) {
            Some((_, stored)) => stored,
            None => unreachable!(),
        }
    }
}

// The nodes of an application, from those of its parts.
fn joined(head: u32, arg: u32) -> u32
    requires head { head ≤ 1001 }
    requires arg { arg ≤ 1001 }
    ensures { result ≡ min (1 + head + arg) 1001 }
{
    (1 + head + arg).min(MANY_NODES)
}

// The key of a constructor.
fn con_key(head: &TyCon) -> ConKey
    ensures { result ≡ key_of_con head.now }
{
    match head {
        TyCon::Named(of) => (0, origin_key(of)),
        TyCon::Arrow => (1, NO_ORIGIN),
        TyCon::Int => (2, NO_ORIGIN),
        TyCon::Char => (3, NO_ORIGIN),
        TyCon::ConOf(of) => (4, origin_key(of)),
    }
}

fn origin_key(origin: &Origin) -> OriginKey
    ensures { result ≡ key_of_origin origin.now }
{
    let space = match origin.space {
        Space::Values => 0,
        Space::Types => 1,
    };
    (origin.module.0, (space, origin.name.0))
}
