// Alternatives (Haskell 98 Report, 3.13).
ghost use Rattle.gh_reader.specs.Reads.{Reads};
ghost use Rattle.gh_parse_exps.specs.Reading.{NestsExp, NestsDecls};
ghost use Rattle.gh_parse_exps.specs.Exps as spec;

use crate::blocks::{begins_part, block_open, semis};
use crate::boxes::{boxed_alt_item, kept_alt};
use crate::finished::alts_closed;
use crate::held::{discard, kept};
use crate::levels::{ALTERNATIVE, ALTERNATIVE_GUARD};
use crate::marks::{arrow, bar, is_bar};
use crate::reader::Reader;
use gh_base::ListOf;
use gh_parse_patterns::pattern;
use gh_reader::{Stop, Tokens};
use gh_tree::{Alt, AltGuard, AltItem, Alts, BlockMark, Decls, Exp, Kind, Pattern, Sym};
use sqlite_items::Boxed;
use std::alloc::Global;

impl<
    F: Fn(Global, &mut Tokens<'_>, usize) -> Result<Exp, Stop>,
    G: Fn(Global, &mut Tokens<'_>, usize) -> Result<Boxed<Decls>, Stop>,
> Reader<F, G> {
    // A condition with its expression.
    #[tactic(auto, unfolding(crate::specs::Exps::alt_guard))]
    #[inline(never)]
    fn alt_guard(&self, tokens: &mut Tokens<'_>) -> Result<AltGuard, Stop>
        requires { NestsExp self.now.depth (F.pre self.now.exp) (F.post self.now.exp) }
        ensures { Reads (spec.alt_guard (spec.knot self.now.depth) tokens.old) result tokens.new }
    {
        let start = tokens.rest();
        let left = bar(tokens)?;
        let test = self.closed(tokens, ALTERNATIVE_GUARD)?;
        let mark = arrow(tokens)?;
        let body = match self.exp(tokens, ALTERNATIVE_GUARD) {
            Ok(body) => body,
            Err(stop) => {
                discard(test);
                return Err(stop);
            }
        };
        Ok(AltGuard {
            span: tokens.since(start),
            bar: left,
            test,
            mark,
            body,
        })
    }

    #[inline(never)]
    fn alt_guards(&self, tokens: &mut Tokens<'_>) -> Result<ListOf<AltGuard>, Stop>
        requires { NestsExp self.now.depth (F.pre self.now.exp) (F.post self.now.exp) }
        ensures { Reads (spec.alt_guards (spec.knot self.now.depth) tokens.old) result tokens.new }
    {
        let mut found = ListOf::new(self.alloc);
        for _turn in 0..tokens.rest().len() {
            if !is_bar(tokens.kind()) {
                return Ok(found);
            }
            match self.alt_guard(tokens) {
                Ok(guard) => found = kept(found, guard)?,
                Err(stop) => {
                    discard(found);
                    return Err(stop);
                }
            }
        }
        Ok(found)
    }

    // An alternative without conditions, behind its pattern.
    #[tactic(auto, unfolding(crate::specs::Exps::plain_alt))]
    #[inline(never)]
    fn plain_alt(
        &self,
        tokens: &mut Tokens<'_>,
        start: &[Sym],
        pattern: Boxed<Pattern>,
    ) -> Result<Boxed<Alt>, Stop>
        requires exps { NestsExp self.now.depth (F.pre self.now.exp) (F.post self.now.exp) }
        requires decls { NestsDecls self.now.depth (G.pre self.now.decls) (G.post self.now.decls) }
        ensures { Reads (spec.plain_alt (spec.knot self.now.depth) start.now pattern tokens.old) result tokens.new }
    {
        let mark = tokens.take();
        let body = match self.exp(tokens, ALTERNATIVE) {
            Ok(body) => body,
            Err(stop) => {
                discard(pattern);
                return Err(stop);
            }
        };
        let locals = match self.where_part(tokens) {
            Ok(locals) => locals,
            Err(stop) => {
                discard(pattern);
                discard(body);
                return Err(stop);
            }
        };
        let span = tokens.since(start);
        Ok(Boxed::new(
            self.alloc,
            Alt::Plain(span, pattern.into_inner(), mark, body, locals),
        )?)
    }

    // An alternative with conditions, behind its pattern.
    #[tactic(auto, unfolding(crate::specs::Exps::guarded_alt))]
    #[inline(never)]
    fn guarded_alt(
        &self,
        tokens: &mut Tokens<'_>,
        start: &[Sym],
        pattern: Boxed<Pattern>,
    ) -> Result<Boxed<Alt>, Stop>
        requires exps { NestsExp self.now.depth (F.pre self.now.exp) (F.post self.now.exp) }
        requires decls { NestsDecls self.now.depth (G.pre self.now.decls) (G.post self.now.decls) }
        ensures { Reads (spec.guarded_alt (spec.knot self.now.depth) start.now pattern tokens.old) result tokens.new }
    {
        let first = match self.alt_guard(tokens) {
            Ok(first) => first,
            Err(stop) => {
                discard(pattern);
                return Err(stop);
            }
        };
        let others = match self.alt_guards(tokens) {
            Ok(others) => others,
            Err(stop) => {
                discard(pattern);
                discard(first);
                return Err(stop);
            }
        };
        let locals = match self.where_part(tokens) {
            Ok(locals) => locals,
            Err(stop) => {
                discard(pattern);
                discard(first);
                discard(others);
                return Err(stop);
            }
        };
        let span = tokens.since(start);
        Ok(Boxed::new(
            self.alloc,
            Alt::Guarded(span, pattern.into_inner(), first, others, locals),
        )?)
    }

    // What stands behind the pattern of an alternative.
    #[tactic(auto, unfolding(crate::specs::Exps::behind_pattern))]
    #[inline(never)]
    fn behind_pattern(
        &self,
        tokens: &mut Tokens<'_>,
        start: &[Sym],
        pattern: Boxed<Pattern>,
    ) -> Result<Boxed<Alt>, Stop>
        requires exps { NestsExp self.now.depth (F.pre self.now.exp) (F.post self.now.exp) }
        requires decls { NestsDecls self.now.depth (G.pre self.now.decls) (G.post self.now.decls) }
        ensures { Reads (spec.behind_pattern (spec.knot self.now.depth) start.now pattern tokens.old) result tokens.new }
    {
        match tokens.kind() {
            Some(Kind::Arrow) => self.plain_alt(tokens, start, pattern),
            _ => self.guarded_alt(tokens, start, pattern),
        }
    }

    // An alternative.
    #[tactic(auto, unfolding(crate::specs::Exps::alt))]
    #[inline(never)]
    fn alt(&self, tokens: &mut Tokens<'_>) -> Result<Boxed<Alt>, Stop>
        requires exps { NestsExp self.now.depth (F.pre self.now.exp) (F.post self.now.exp) }
        requires decls { NestsDecls self.now.depth (G.pre self.now.decls) (G.post self.now.decls) }
        ensures { Reads (spec.alt (spec.knot self.now.depth) tokens.old) result tokens.new }
    {
        let start = tokens.rest();
        let pattern = pattern(self.alloc, tokens, self.depth)?;
        self.behind_pattern(tokens, start, pattern)
    }

    // An alternative with each `;` behind it.
    #[tactic(auto, unfolding(crate::specs::Exps::alt_item, crate::specs::Marks::part_ends))]
    #[inline(never)]
    fn alt_item(&self, tokens: &mut Tokens<'_>) -> Result<Boxed<AltItem>, Stop>
        requires exps { NestsExp self.now.depth (F.pre self.now.exp) (F.post self.now.exp) }
        requires decls { NestsDecls self.now.depth (G.pre self.now.decls) (G.post self.now.decls) }
        ensures { Reads (spec.alt_item (spec.knot self.now.depth) tokens.old) result tokens.new }
    {
        let alt = self.alt(tokens)?;
        let marks = match semis(self.alloc, tokens) {
            Ok(marks) => marks,
            Err(stop) => {
                discard(alt);
                return Err(stop);
            }
        };
        if marks.as_slice().is_empty() && begins_part(tokens.kind()) {
            discard(alt);
            return Err(Stop::NoParse);
        }
        Ok(boxed_alt_item(self.alloc, alt, marks)?)
    }

    #[inline(never)]
    fn alt_items(&self, tokens: &mut Tokens<'_>) -> Result<ListOf<AltItem>, Stop>
        requires exps { NestsExp self.now.depth (F.pre self.now.exp) (F.post self.now.exp) }
        requires decls { NestsDecls self.now.depth (G.pre self.now.decls) (G.post self.now.decls) }
        ensures { Reads (spec.alt_items (spec.knot self.now.depth) tokens.old) result tokens.new }
    {
        let mut found = ListOf::new(self.alloc);
        for _turn in 0..tokens.rest().len() {
            if !begins_part(tokens.kind()) {
                return Ok(found);
            }
            match self.alt_item(tokens) {
                Ok(item) => found = kept_alt(found, item)?,
                Err(stop) => {
                    discard(found);
                    return Err(stop);
                }
            }
        }
        Ok(found)
    }

    // The alternatives of a block, and its end.
    #[tactic(auto, unfolding(crate::specs::Exps::alts_end))]
    #[inline(never)]
    fn alts_end(
        &self,
        tokens: &mut Tokens<'_>,
        start: &[Sym],
        left: BlockMark,
        before: ListOf<BlockMark>,
    ) -> Result<Boxed<Alts>, Stop>
        requires exps { NestsExp self.now.depth (F.pre self.now.exp) (F.post self.now.exp) }
        requires decls { NestsDecls self.now.depth (G.pre self.now.decls) (G.post self.now.decls) }
        ensures { Reads (spec.alts_end (spec.knot self.now.depth) start.now left before tokens.old) result tokens.new }
    {
        let alts = match self.alt_items(tokens) {
            Ok(alts) => alts,
            Err(stop) => {
                discard(before);
                return Err(stop);
            }
        };
        alts_closed(self.alloc, tokens, start, left, before, alts)
    }

    /// A block of alternatives.
    #[tactic(auto, unfolding(crate::specs::Exps::alts))]
    #[inline(never)]
    pub fn alts(&self, tokens: &mut Tokens<'_>) -> Result<Boxed<Alts>, Stop>
        requires exps { NestsExp self.now.depth (F.pre self.now.exp) (F.post self.now.exp) }
        requires decls { NestsDecls self.now.depth (G.pre self.now.decls) (G.post self.now.decls) }
        ensures { Reads (spec.alts (spec.knot self.now.depth) tokens.old) result tokens.new }
    {
        let start = tokens.rest();
        let left = block_open(tokens)?;
        let before = semis(self.alloc, tokens)?;
        self.alts_end(tokens, start, left, before)
    }
}
