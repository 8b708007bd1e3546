// How a node ends once its parts are read. Each stands in a function of its own: a frame of the recursion has no room for a
// large node.
ghost use Rattle.gh_reader.specs.Reads.{Reads};
ghost use Rattle.gh_parse_exps.specs.Decls as declarations;
ghost use Rattle.gh_parse_exps.specs.Exps as spec;

use crate::blocks::block_close;
use crate::narrow::{closed_before, is_open};
use gh_base::{ListOf, Span};
use gh_reader::{Stop, Tokens};
use gh_tree::{
    AltItem, Alts, BlockMark, DeclItem, Decls, NextOperand, Operand, OperandList, RedefItem,
    Redefs, Sym,
};
use sqlite_items::Boxed;
use std::alloc::Global;

/// The end of a block, behind its declarations.
#[inline(never)]
pub fn decls_closed(
    alloc: Global,
    tokens: &mut Tokens<'_>,
    start: &[Sym],
    left: BlockMark,
    before: ListOf<BlockMark>,
    decls: ListOf<DeclItem>,
) -> Result<Boxed<Decls>, Stop>
    ensures { Reads (declarations.decls_closed start.now left before decls tokens.old) result tokens.new }
{
    let close = block_close(tokens)?;
    let span = tokens.since(start);
    Ok(Boxed::new(
        alloc,
        Decls {
            span,
            open: left,
            before,
            decls,
            close,
        },
    )?)
}

/// The end of a block, behind its alternatives, of which there is one at least.
#[inline(never)]
pub fn alts_closed(
    alloc: Global,
    tokens: &mut Tokens<'_>,
    start: &[Sym],
    left: BlockMark,
    before: ListOf<BlockMark>,
    alts: ListOf<AltItem>,
) -> Result<Boxed<Alts>, Stop>
    ensures { Reads (spec.alts_closed start.now left before alts tokens.old) result tokens.new }
{
    let close = block_close(tokens)?;
    let span = tokens.since(start);
    if alts.as_slice().is_empty() {
        return Err(Stop::NoParse);
    }
    Ok(Boxed::new(
        alloc,
        Alts {
            span,
            open: left,
            before,
            alts,
            close,
        },
    )?)
}

/// The end of a block, behind its redefinitions, of which there is one at least.
#[inline(never)]
pub fn redefs_closed(
    alloc: Global,
    tokens: &mut Tokens<'_>,
    start: &[Sym],
    left: BlockMark,
    before: ListOf<BlockMark>,
    redefs: ListOf<RedefItem>,
) -> Result<Boxed<Redefs>, Stop>
    ensures { Reads (spec.redefs_closed start.now left before redefs tokens.old) result tokens.new }
{
    let close = block_close(tokens)?;
    let span = tokens.since(start);
    if redefs.as_slice().is_empty() {
        return Err(Stop::NoParse);
    }
    Ok(Boxed::new(
        alloc,
        Redefs {
            span,
            open: left,
            before,
            redefs,
            close,
        },
    )?)
}

/// Operands with operators between them, where each but the last ends before the next operator.
#[inline(never)]
pub fn operand_list(
    alloc: Global,
    tokens: &mut Tokens<'_>,
    start: &[Sym],
    minus: Option<Span>,
    first: Operand,
    others: ListOf<NextOperand>,
) -> Result<Boxed<OperandList>, Stop>
    ensures { Reads (spec.operand_list start.now minus first others tokens.old) result tokens.new }
{
    let span = tokens.since(start);
    if !closed_before(is_open(&first), others.as_slice()) {
        return Err(Stop::NoParse);
    }
    Ok(Boxed::new(
        alloc,
        OperandList {
            span,
            minus,
            first,
            others,
        },
    )?)
}
