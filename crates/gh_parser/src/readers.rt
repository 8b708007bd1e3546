// The header, and one item.
ghost use Rattle.std.specs.Prelude.{◌≡◌};
ghost use Rattle.gh_parser.specs.Gives.{Finds, Gives};
ghost use Rattle.gh_parser.specs.Parse as spec;
ghost use Rattle.gh_parser.specs.Readers as readers;

use crate::refusals::{LIMIT, no_parse, too_deep};
use gh_base::Fault;
use gh_parse_heads::{parse_header, parse_import};
use gh_parse_tops::parse_top;
use gh_reader::{Stop, Tokens};
use gh_tree::{Header, Item, Kind, Sym, header_depth};
use sqlite_items::Boxed;
use std::alloc::Global;

// The header of these tokens, or none.
fn any_header(alloc: Global, syms: &[Sym]) -> Result<Option<Header>, Stop>
    ensures { Finds (readers.header_of syms.now) result }
{
    parse_header(alloc, syms)
}

// An import, where none of the declarations before it is one of the top.
fn import(alloc: Global, syms: &[Sym], tops: bool) -> Result<Item, Stop>
    ensures { Finds (readers.import_behind tops syms.now) result }
{
    if tops {
        return Err(Stop::NoParse);
    }
    let import = parse_import(alloc, syms)?;
    Ok(Item::Import(Boxed::new(alloc, import)?))
}

// A declaration of the top.
fn top(alloc: Global, syms: &[Sym]) -> Result<Item, Stop>
    ensures { Finds (readers.as_top (readers.top_of syms.now)) result }
{
    Ok(Item::Top(parse_top(alloc, syms)?))
}

// An item, by whether a declaration of the top stands before it.
#[tactic(auto, unfolding(crate::specs::Readers::item_of))]
fn any_item(alloc: Global, syms: &[Sym], tops: bool) -> Result<Item, Stop>
    ensures { Finds (readers.item_of tops syms.now) result }
{
    match Tokens::new(syms).kind() {
        None => Ok(Item::Empty),
        Some(Kind::Import) => import(alloc, syms, tops),
        Some(_) => top(alloc, syms),
    }
}

/// The header of these tokens, unless it is refused.
#[tactic(auto, unfolding(crate::specs::Parse::header_in))]
pub fn header(alloc: Global, syms: &[Sym]) -> Result<Option<Header>, Fault>
    ensures { Gives (spec.header_in 2000 syms.now) result }
{
    match any_header(alloc, syms) {
        Err(Stop::NoMemory) => Err(Fault::NoMemory),
        Err(Stop::NoParse) => Err(no_parse(syms)),
        Ok(header) => {
            if header_depth(&header) > LIMIT {
                return Err(too_deep(syms));
            }
            Ok(header)
        }
    }
}

/// The item of these tokens, unless it is refused.
#[tactic(auto, unfolding(crate::specs::Parse::item_in))]
pub fn item(alloc: Global, syms: &[Sym], tops: bool) -> Result<Item, Fault>
    ensures { Gives (spec.item_in 2000 tops syms.now) result }
{
    match any_item(alloc, syms, tops) {
        Err(Stop::NoMemory) => Err(Fault::NoMemory),
        Err(Stop::NoParse) => Err(no_parse(syms)),
        Ok(item) => {
            if item.depth() > LIMIT {
                return Err(too_deep(syms));
            }
            Ok(item)
        }
    }
}
