// The items of a body.
ghost use Rattle.std.specs.Prelude.{◌≡◌, length};
ghost use Rattle.gh_parser.specs.Gives.{Gives};
ghost use Rattle.gh_parser.specs.Parse as spec;
ghost use Rattle.gh_tree.specs.Items.{brace, tops_behind};

use crate::readers::item;
use crate::refusals::no_parse;
use gh_base::{Fault, ListOf};
use gh_reader::Tokens;
use gh_tree::{BlockMark, Item, Kind, NextItem, Sym, block_mark, item_end};
use std::alloc::Global;

/// How an item ends: at a `;` of the body, or at the `}` of the file.
#[derive(Drop)]
pub enum End {
    Parted(BlockMark),
    Closed(BlockMark),
}

/// An item, and how it ends.
#[derive(Drop)]
pub struct Part {
    pub item: Item,
    pub end: End,
}

/// The items behind another, and the `}` of the body.
#[derive(Drop)]
pub struct Others {
    pub found: ListOf<NextItem>,
    pub close: BlockMark,
}

/// The items of a body, and its `}`.
#[derive(Drop)]
pub struct Body {
    pub first: Item,
    pub others: ListOf<NextItem>,
    pub close: BlockMark,
}

// How an item ends, by the mark behind its tokens, and whether that is the last token of the file.
fn end_at(mark: &Sym, is_last: bool) -> Option<End>
    ensures { result ≡ spec.end_by (brace mark.now.kind) is_last mark.now }
{
    match &mark.kind {
        Kind::Semicolon | Kind::InsertedSemicolon(_) => Some(End::Parted(block_mark(mark))),
        Kind::CloseBrace | Kind::InsertedClose(_) => {
            if is_last {
                Some(End::Closed(block_mark(mark)))
            } else {
                None
            }
        }
        _ => None,
    }
}

// How an item ends, by what stands behind its tokens.
fn end_of(rest: &[Sym]) -> Option<End>
    ensures { result ≡ spec.end_of rest.now }
{
    match rest {
        [] => None,
        [mark] => end_at(mark, true),
        [mark, ..] => end_at(mark, false),
    }
}

// The first item of a body. What stands behind it and the mark that ends it is left.
#[tactic(auto, unfolding(crate::specs::Parse::part_of, crate::specs::Parse::item_tokens, crate::specs::Parse::item_end_of, crate::specs::Parse::behind_item))]
fn next_part(alloc: Global, tokens: &mut Tokens<'_>, tops: bool) -> Result<Part, Fault>
    ensures value { Gives (spec.part_of 2000 tops tokens.old) result }
    ensures rest { tokens.new ≡ spec.behind_item tokens.old }
{
    let syms = tokens.rest();
    let size = item_end(syms);
    *tokens = Tokens::new(&syms[size..]);
    let end = end_of(tokens.rest());
    tokens.take();
    match end {
        None => Err(no_parse(syms)),
        Some(end) => {
            let item = item(alloc, &syms[..size], tops)?;
            Ok(Part { item, end })
        }
    }
}

// Whether a declaration of the top is among an item and those before it.
fn tops_behind(tops: bool, item: &Item) -> bool
    ensures { result ≡ tops_behind tops item.now }
{
    tops || matches!(item, Item::Top(_))
}

// The items behind one that ends so.
fn next_items(alloc: Global, tokens: &mut Tokens<'_>, tops: bool, end: End) -> Result<Others, Fault>
    ensures { Gives (spec.others_of 2000 (length tokens.old) tops end tokens.old) result }
{
    let mut found = ListOf::new(alloc);
    let mut before = tops;
    let mut last = end;
    for _turn in 0..tokens.rest().len() {
        match last {
            End::Closed(close) => return Ok(Others { found, close }),
            End::Parted(mark) => {
                let part = next_part(alloc, tokens, before)?;
                before = tops_behind(before, &part.item);
                last = part.end;
                found.push(NextItem {
                    mark,
                    item: part.item,
                })?;
            }
        }
    }
    match last {
        End::Closed(close) => Ok(Others { found, close }),
        End::Parted(_) => Err(no_parse(tokens.rest())),
    }
}

/// The items of a body, from behind its `{` on, unless one is refused.
#[tactic(auto, unfolding(crate::specs::Parse::body_of))]
pub fn body_items(alloc: Global, tokens: &mut Tokens<'_>) -> Result<Body, Fault>
    ensures { Gives (spec.body_of 2000 tokens.old) result }
{
    let first = next_part(alloc, tokens, false)?;
    let tops = tops_behind(false, &first.item);
    let others = next_items(alloc, tokens, tops, first.end)?;
    Ok(Body {
        first: first.item,
        others: others.found,
        close: others.close,
    })
}
