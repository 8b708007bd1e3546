// The marks of blocks.
ghost use Rattle.std.specs.Prelude.{option_copied, ◌≡◌};
ghost use Rattle.gh_tree.specs.Read as read;
ghost use Rattle.gh_tree.specs.Syms as syms;
ghost use Rattle.gh_reader.specs.Reads.{Reads};
ghost use Rattle.gh_parse_exps.specs.Marks as spec;

use gh_base::{ListOf, Span};
use gh_reader::{Stop, Tokens};
use gh_tree::{BlockMark, Kind};
use std::alloc::Global;

// Whether these are the bytes of a mark that the layout inserted.
fn is_nowhere(span: Span) -> bool
    ensures { result ≡ syms.same_span span syms.nowhere }
{
    span.file == 0 && (span.from == 0 && span.to == 0)
}

// The next token, which the layout inserted.
#[tactic(auto, unfolding(crate::specs::Marks::placed))]
fn placed(tokens: &mut Tokens<'_>, mark: BlockMark) -> Result<BlockMark, Stop>
    ensures { Reads (spec.placed mark tokens.old) result tokens.new }
{
    if !is_nowhere(tokens.take()) {
        return Err(Stop::NoParse);
    }
    Ok(mark)
}

/// The `{` of a block.
#[tactic(auto, unfolding(crate::specs::Marks::block_open))]
pub fn block_open(tokens: &mut Tokens<'_>) -> Result<BlockMark, Stop>
    ensures { Reads (spec.block_open tokens.old) result tokens.new }
{
    match tokens.kind() {
        Some(Kind::OpenBrace) => Ok(BlockMark::Written(tokens.take())),
        Some(Kind::InsertedOpen(place)) => placed(tokens, BlockMark::Inserted(*place)),
        _ => Err(Stop::NoParse),
    }
}

// A `;` of a block.
#[tactic(auto, unfolding(crate::specs::Marks::semi))]
fn semi(tokens: &mut Tokens<'_>) -> Result<BlockMark, Stop>
    ensures { Reads (spec.semi tokens.old) result tokens.new }
{
    match tokens.kind() {
        Some(Kind::Semicolon) => Ok(BlockMark::Written(tokens.take())),
        Some(Kind::InsertedSemicolon(place)) => placed(tokens, BlockMark::Inserted(*place)),
        _ => Err(Stop::NoParse),
    }
}

/// The `}` of a block.
#[tactic(auto, unfolding(crate::specs::Marks::block_close))]
pub fn block_close(tokens: &mut Tokens<'_>) -> Result<BlockMark, Stop>
    ensures { Reads (spec.block_close tokens.old) result tokens.new }
{
    match tokens.kind() {
        Some(Kind::CloseBrace) => Ok(BlockMark::Written(tokens.take())),
        Some(Kind::InsertedClose(place)) => placed(tokens, BlockMark::Inserted(*place)),
        _ => Err(Stop::NoParse),
    }
}

// Whether this is a `;`.
fn is_semi(kind: Option<&Kind>) -> bool
    ensures { result ≡ spec.is_semi (option_copied kind.entry) }
{
    matches!(
        kind,
        Some(Kind::Semicolon) | Some(Kind::InsertedSemicolon(_))
    )
}

/// Each `;` that comes next.
pub fn semis(alloc: Global, tokens: &mut Tokens<'_>) -> Result<ListOf<BlockMark>, Stop>
    ensures { Reads (spec.semis tokens.old) result tokens.new }
{
    let mut found = ListOf::new(alloc);
    for _turn in 0..tokens.rest().len() {
        if !is_semi(tokens.kind()) {
            return Ok(found);
        }
        found.push(semi(tokens)?)?;
    }
    Ok(found)
}

/// Whether a part of a block comes next: neither the end of the block, nor that of the tokens.
pub fn begins_part(kind: Option<&Kind>) -> bool
    ensures { result ≡ spec.begins_part_by (option_copied kind.entry) }
{
    match kind {
        None | Some(Kind::CloseBrace) | Some(Kind::InsertedClose(_)) => false,
        _ => true,
    }
}
