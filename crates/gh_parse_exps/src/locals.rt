// Local declarations and redefinitions (Haskell 98 Report, 3.12; "Exploring Generic Haskell", on local redefinition).
ghost use Rattle.gh_reader.specs.Reads.{Reads};
ghost use Rattle.gh_parse_exps.specs.Reading.{NestsExp, NestsDecls};
ghost use Rattle.gh_parse_exps.specs.Exps as spec;

use crate::blocks::{begins_part, block_open, semis};
use crate::finished::redefs_closed;
use crate::held::{discard, kept};
use crate::levels::REDEFINITION;
use crate::marks::{banana, close_banana, equals};
use crate::ops::call_next;
use crate::reader::Reader;
use gh_base::ListOf;
use gh_parse_heads::any_var;
use gh_reader::{Stop, Tokens};
use gh_tree::{BlockMark, Decls, Exp, Kind, Locals, Name, Redef, RedefItem, Redefs, Sym};
use sqlite_items::Boxed;
use std::alloc::Global;

/// A variable without a qualifier that is no operator.
#[tactic(auto, unfolding(crate::specs::Exps::word))]
pub fn word(tokens: &mut Tokens<'_>) -> Result<Name, Stop>
    ensures { Reads (spec.word tokens.old) result tokens.new }
{
    match tokens.kind() {
        Some(Kind::VarId(None, id)) => Ok(Name {
            span: tokens.take(),
            qualifier: None,
            id: *id,
        }),
        _ => Err(Stop::NoParse),
    }
}

impl<
    F: Fn(Global, &mut Tokens<'_>, usize) -> Result<Exp, Stop>,
    G: Fn(Global, &mut Tokens<'_>, usize) -> Result<Boxed<Decls>, Stop>,
> Reader<F, G> {
    // A redefinition.
    #[tactic(auto, unfolding(crate::specs::Exps::redef))]
    #[inline(never)]
    fn redef(&self, tokens: &mut Tokens<'_>) -> Result<Redef, Stop>
        requires { NestsExp self.now.depth (F.pre self.now.exp) (F.post self.now.exp) }
        ensures { Reads (spec.redef (spec.knot self.now.depth) tokens.old) result tokens.new }
    {
        let start = tokens.rest();
        let function = any_var(tokens)?;
        let left = banana(tokens)?;
        let variable = word(tokens)?;
        let close = close_banana(tokens)?;
        let mark = equals(tokens)?;
        let body = self.exp(tokens, REDEFINITION)?;
        Ok(Redef {
            span: tokens.since(start),
            function,
            open: left,
            variable,
            close,
            equals: mark,
            body,
        })
    }

    // A redefinition with each `;` behind it.
    #[tactic(auto, unfolding(crate::specs::Exps::redef_item, crate::specs::Marks::part_ends))]
    #[inline(never)]
    fn redef_item(&self, tokens: &mut Tokens<'_>) -> Result<RedefItem, Stop>
        requires { NestsExp self.now.depth (F.pre self.now.exp) (F.post self.now.exp) }
        ensures { Reads (spec.redef_item (spec.knot self.now.depth) tokens.old) result tokens.new }
    {
        let redef = self.redef(tokens)?;
        let marks = match semis(self.alloc, tokens) {
            Ok(marks) => marks,
            Err(stop) => {
                discard(redef);
                return Err(stop);
            }
        };
        if marks.as_slice().is_empty() && begins_part(tokens.kind()) {
            discard(redef);
            return Err(Stop::NoParse);
        }
        Ok(RedefItem { redef, marks })
    }

    #[inline(never)]
    fn redef_items(&self, tokens: &mut Tokens<'_>) -> Result<ListOf<RedefItem>, Stop>
        requires { NestsExp self.now.depth (F.pre self.now.exp) (F.post self.now.exp) }
        ensures { Reads (spec.redef_items (spec.knot self.now.depth) tokens.old) result tokens.new }
    {
        let mut found = ListOf::new(self.alloc);
        for _turn in 0..tokens.rest().len() {
            if !begins_part(tokens.kind()) {
                return Ok(found);
            }
            match self.redef_item(tokens) {
                Ok(item) => found = kept(found, item)?,
                Err(stop) => {
                    discard(found);
                    return Err(stop);
                }
            }
        }
        Ok(found)
    }

    // The redefinitions of a block, and its end.
    #[tactic(auto, unfolding(crate::specs::Exps::redefs_end))]
    #[inline(never)]
    fn redefs_end(
        &self,
        tokens: &mut Tokens<'_>,
        start: &[Sym],
        left: BlockMark,
        before: ListOf<BlockMark>,
    ) -> Result<Boxed<Redefs>, Stop>
        requires { NestsExp self.now.depth (F.pre self.now.exp) (F.post self.now.exp) }
        ensures { Reads (spec.redefs_end (spec.knot self.now.depth) start.now left before tokens.old) result tokens.new }
    {
        let redefs = match self.redef_items(tokens) {
            Ok(redefs) => redefs,
            Err(stop) => {
                discard(before);
                return Err(stop);
            }
        };
        redefs_closed(self.alloc, tokens, start, left, before, redefs)
    }

    /// A block of local declarations or redefinitions.
    #[tactic(auto, unfolding(crate::specs::Exps::locals))]
    #[inline(never)]
    pub fn locals(&self, tokens: &mut Tokens<'_>) -> Result<Locals, Stop>
        requires exps { NestsExp self.now.depth (F.pre self.now.exp) (F.post self.now.exp) }
        requires decls { NestsDecls self.now.depth (G.pre self.now.decls) (G.post self.now.decls) }
        ensures { Reads (spec.locals (spec.knot self.now.depth) tokens.old) result tokens.new }
    {
        let start = tokens.rest();
        let left = block_open(tokens)?;
        let before = semis(self.alloc, tokens)?;
        if call_next(tokens) {
            return Ok(Locals::Redefs(self.redefs_end(tokens, start, left, before)?));
        }
        Ok(Locals::Decls(self.decls_end(tokens, start, left, before)?))
    }
}
