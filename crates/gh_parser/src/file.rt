// A file.
ghost use Rattle.std.specs.Prelude.{◌≡◌, ◌≤◌, IfOk, Err};
ghost use Rattle.gh_base.specs.declared.refusal.Fault.TheVariants as fault;
ghost use Rattle.gh_base.specs.declared.refusal.Refusal.{Refusal};
ghost use Rattle.gh_parser.specs.Faults.{FirstFault};
ghost use Rattle.gh_parser.specs.Gives.{Gives};
ghost use Rattle.gh_parser.specs.Parse as spec;
ghost use Rattle.gh_tree.specs.Depth.{depth_of};
ghost use Rattle.gh_tree.specs.Items.{items_of};
ghost use Rattle.gh_tree.specs.Print.{Spells};
ghost use Rattle.gh_tree.specs.Syms.{syms_of};

use crate::items::body_items;
use crate::readers::header;
use crate::refusals::{no_parse, span_of};
use gh_base::{Fault, ListOf};
use gh_layout::LaidToken;
use gh_lexer::Token;
use gh_reader::Tokens;
use gh_tree::{ModuleTree, Sym, block_mark, header_end, syms_of};
use std::alloc::Global;

// The tree of all these tokens.
#[tactic(auto, unfolding(crate::specs::Parse::parsed_within))]
fn tree(alloc: Global, syms: &[Sym]) -> Result<ModuleTree, Fault>
    ensures { Gives (spec.parsed_of syms.now) result }
{
    let size = header_end(syms);
    let mut tokens = Tokens::new(&syms[size..]);
    match tokens.rest() {
        [] => Err(no_parse(syms)),
        [open, ..] => {
            let header = header(alloc, &syms[..size])?;
            tokens.take();
            let body = body_items(alloc, &mut tokens)?;
            Ok(ModuleTree {
                span: span_of(syms),
                header,
                open: block_mark(open),
                first: body.first,
                others: body.others,
                close: body.close,
            })
        }
    }
}

/// The one tree whose tokens the laid tokens of a file are (Haskell 98 Report, 5.1 and 9.5). Refused is the first item
/// that is no tree's, as `NoParse`, or whose tree is deeper than 2,000, as `TooDeep`, whichever item comes first, with
/// the bytes of that item. The only other answer is that there is no memory. Time is linear in the tokens.
pub fn parse(
    alloc: Global,
    tokens: &ListOf<Token>,
    laid: &ListOf<LaidToken>,
) -> Result<ModuleTree, Fault>
    ensures value { Gives (spec.parsed_of (syms_of tokens.now laid.now)) result }
    ensures tree { IfOk result (λ t. Spells (syms_of tokens.now laid.now) t × (depth_of t ≤ 2000)) }
    ensures cause { (r : Refusal) → result ≡ Err (fault.Refused r) → FirstFault (items_of tokens.now laid.now) r }
{
    let syms = syms_of(alloc, tokens, laid)?;
    tree(alloc, syms.as_slice())
}
