// The least kinds that the cells allow, built in an order of their parts.
ghost use Rattle.std.specs.Prelude.{◌≡◌, ◌↔◌, ℕ, ◌+◌, ◌<◌, ◌≤◌, length, IfOk, IsTrue, MatchResult};
ghost use Rattle.std.specs.Option.{SomeIff};
ghost use Rattle.gh_typeterm.specs.declared.kind.Kind.TheVariants.{Arrow};
ghost use Rattle.gh_kind_unify.specs.Kinds.{nodes, tree};
ghost use Rattle.gh_kind_unify.specs.Cells.{IsTidy};
ghost use Rattle.gh_kind_unify.specs.Orders.{BuiltTo, Gives, HasLarger, IsBuilt, IsOrder, IsPart, Stops};

use crate::cells::{Cell, cell_at};
use gh_base::NoMemory;
use gh_typeterm::{Kind, copy_kind};
use sqlite_items::Boxed;
use std::alloc::Global;

/// Why no kinds are answered.
#[derive(Clone, Copy, Debug, PartialEq, Eq)]
pub enum Trouble {
    /// No kinds meet the rules.
    Clash,
    /// Kinds meet them, and none of at most 63 nodes.
    TooLarge,
    /// A request for memory was not met.
    NoMemory,
}

// The number of nodes of a kind. None where it passes `most`.
#[tactic(auto, using(crate::proofs::Trees::nodes_positive, crate::proofs::Trees::nodes_star, crate::proofs::Trees::nodes_arrow))]
fn size(kind: &Kind, most: u32) -> Option<u32>
    ensures { SomeIff result (nodes (tree kind.now) ≤ most) (nodes (tree kind.now)) }
{
    if most == 0 {
        return None;
    }
    match kind {
        Kind::Star => Some(1),
        Kind::Arrow(from, to) => {
            let left = size(from.get(), most - 1)?;
            let right = size(to.get(), most - 1 - left)?;
            Some(1 + left + right)
        }
    }
}

// Whether the arrow between two kinds has at most 63 nodes. It is known before the arrow is built.
fn fit(from: &Kind, to: &Kind) -> bool
    ensures { IsTrue result ↔ (nodes (tree from.now) + nodes (tree to.now) < 63) }
{
    let Some(left) = size(from, 62) else {
        return false;
    };
    size(to, 62 - left).is_some()
}

fn joined(alloc: Global, from: &Kind, to: &Kind) -> Result<Kind, NoMemory>
    ensures { IfOk result (λ made. made ≡ Arrow from.now to.now) }
{
    let from = Boxed::new(alloc, copy_kind(alloc, from)?)?;
    let to = Boxed::new(alloc, copy_kind(alloc, to)?)?;
    Ok(Kind::Arrow(from, to))
}

// The arrow between two kinds, if it is in size.
fn arrow_kind(alloc: Global, from: &Kind, to: &Kind) -> Result<Kind, Trouble>
    ensures ok { IfOk result (λ made. (made ≡ Arrow from.now to.now) × (nodes (tree from.now) + nodes (tree to.now) < 63)) }
    ensures err { MatchResult result (λ _. Unit {0}) (λ t. Stops t (62 < nodes (tree from.now) + nodes (tree to.now))) }
{
    if !fit(from, to) {
        return Err(Trouble::TooLarge);
    }
    match joined(alloc, from, to) {
        Ok(kind) => Ok(kind),
        Err(_) => Err(Trouble::NoMemory),
    }
}

// The least kind of an unknown, by those of its parts.
#[tactic(auto, using(crate::proofs::Grounding::free_gives, crate::proofs::Grounding::fixed_gives, crate::proofs::Grounding::arrow_parts, crate::proofs::Grounding::link_part, crate::proofs::Grounding::arrow_gives, crate::proofs::Grounding::arrow_larger, crate::proofs::Grounding::link_gives))]
fn kind_for(alloc: Global, cells: &[Cell], built: &[Kind], v: u32) -> Result<Kind, Trouble>
    requires tidy { IsTidy cells.now }
    requires count { length built.now ≡ length cells.now }
    requires within { v < length cells.now }
    requires parts { (w : ℕ) → IsPart cells.now v w → IsBuilt cells.now built.now w }
    ensures ok { IfOk result (λ kind. Gives cells.now v kind) }
    ensures err { MatchResult result (λ _. Unit {0}) (λ t. Stops t (HasLarger cells.now)) }
{
    match cell_at(cells, v) {
        Cell::Free => Ok(Kind::Star),
        Cell::Star => Ok(Kind::Star),
        Cell::Arrow(a, b) => {
            let from = &built[a as usize];
            let to = &built[b as usize];
            match arrow_kind(alloc, from, to) {
                Ok(kind) => Ok(kind),
                Err(trouble) => Err(trouble),
            }
        }
        Cell::Link(w) => {
            let same = &built[w as usize];
            match copy_kind(alloc, same) {
                Ok(kind) => Ok(kind),
                Err(_) => Err(Trouble::NoMemory),
            }
        }
    }
}

fn stars(alloc: Global, count: usize) -> Result<Vec<Kind>, NoMemory>
    ensures { IfOk result (λ made. length made.items ≡ count) }
{
    let mut made = Vec::new(alloc);
    for at in 0..count {
        made.push(Kind::Star)?;
    }
    Ok(made)
}

/// The least kinds that are as the cells say, by number, if they are in size.
#[tactic(auto, using(crate::proofs::Grounding::built_none, crate::proofs::Grounding::parts_built, crate::proofs::Grounding::built_next))]
pub fn build(alloc: Global, cells: &[Cell], order: &[u32]) -> Result<Vec<Kind>, Trouble>
    requires tidy { IsTidy cells.now }
    requires order { IsOrder cells.now order.now }
    ensures count { IfOk result (λ built. length built.items ≡ length cells.now) }
    ensures ok { IfOk result (λ built. BuiltTo cells.now order.now (length order.now) built.items) }
    ensures err { MatchResult result (λ _. Unit {0}) (λ t. Stops t (HasLarger cells.now)) }
{
    let Ok(mut built) = stars(alloc, cells.len()) else {
        return Err(Trouble::NoMemory);
    };
    for v in order {
        match kind_for(alloc, cells, built.as_slice(), *v) {
            Ok(kind) => {
                built[*v as usize] = kind;
            }
            Err(trouble) => return Err(trouble),
        }
    }
    Ok(built)
}
