// Declarations and right sides (Haskell 98 Report, 4.4).
ghost use Rattle.gh_reader.specs.Reads.{Reads};
ghost use Rattle.gh_parse_exps.specs.Reading.{NestsExp, NestsDecls};
ghost use Rattle.gh_parse_exps.specs.Exps as spec;
ghost use Rattle.gh_parse_exps.specs.Decls as decls;

use crate::blocks::{begins_part, block_open, semis};
use crate::boxes::{boxed_decl, boxed_decl_item, kept_decl};
use crate::finished::decls_closed;
use crate::held::{discard, kept};
use crate::levels::{BINDING, GUARD, LOCALS};
use crate::marks::{bar, colons, equals, is_bar};
use crate::reader::Reader;
use crate::signatures::{fixity, next_vars, signature_next};
use gh_base::ListOf;
use gh_reader::{Stop, Tokens, var};
use gh_tree::{BlockMark, Decl, DeclItem, Decls, Exp, Guard, Kind, Rhs, Sym, Where};
use sqlite_items::Boxed;
use std::alloc::Global;

impl<
    F: Fn(Global, &mut Tokens<'_>, usize) -> Result<Exp, Stop>,
    G: Fn(Global, &mut Tokens<'_>, usize) -> Result<Boxed<Decls>, Stop>,
> Reader<F, G> {
    // A signature.
    #[tactic(auto, unfolding(crate::specs::Decls::signature))]
    #[inline(never)]
    fn signature(&self, tokens: &mut Tokens<'_>, start: &[Sym]) -> Result<Boxed<Decl>, Stop>
        ensures { Reads (decls.signature (spec.knot self.now.depth) start.now tokens.old) result tokens.new }
    {
        let first = var(tokens)?;
        let others = next_vars(self.alloc, tokens)?;
        let mark = colons(tokens)?;
        let of = self.type_expr(tokens)?;
        let span = tokens.since(start);
        Ok(Boxed::new(self.alloc, Decl::Signature(span, first, others, mark, of))?)
    }

    // `where` and a block of declarations.
    #[tactic(auto, unfolding(crate::specs::Decls::where_block))]
    #[inline(never)]
    fn where_block(&self, tokens: &mut Tokens<'_>) -> Result<Where, Stop>
        requires { NestsDecls self.now.depth (G.pre self.now.decls) (G.post self.now.decls) }
        ensures { Reads (decls.where_block (spec.knot self.now.depth) tokens.old) result tokens.new }
    {
        let mark = tokens.take();
        let decls = self.decls(tokens, LOCALS)?;
        Ok(Where::Block(mark, decls))
    }

    /// Local declarations, where there are any.
    #[tactic(auto, unfolding(crate::specs::Decls::where_part))]
    #[inline(never)]
    pub fn where_part(&self, tokens: &mut Tokens<'_>) -> Result<Where, Stop>
        requires { NestsDecls self.now.depth (G.pre self.now.decls) (G.post self.now.decls) }
        ensures { Reads (decls.where_part (spec.knot self.now.depth) tokens.old) result tokens.new }
    {
        match tokens.kind() {
            Some(Kind::Where) => self.where_block(tokens),
            _ => Ok(Where::Absent),
        }
    }

    // A condition with its expression.
    #[tactic(auto, unfolding(crate::specs::Decls::guard))]
    #[inline(never)]
    fn guard(&self, tokens: &mut Tokens<'_>) -> Result<Guard, Stop>
        requires { NestsExp self.now.depth (F.pre self.now.exp) (F.post self.now.exp) }
        ensures { Reads (decls.guard (spec.knot self.now.depth) tokens.old) result tokens.new }
    {
        let start = tokens.rest();
        let left = bar(tokens)?;
        let test = self.closed(tokens, GUARD)?;
        let mark = equals(tokens)?;
        let body = match self.exp(tokens, GUARD) {
            Ok(body) => body,
            Err(stop) => {
                discard(test);
                return Err(stop);
            }
        };
        Ok(Guard {
            span: tokens.since(start),
            bar: left,
            test,
            mark,
            body,
        })
    }

    #[inline(never)]
    fn guards(&self, tokens: &mut Tokens<'_>) -> Result<ListOf<Guard>, Stop>
        requires { NestsExp self.now.depth (F.pre self.now.exp) (F.post self.now.exp) }
        ensures { Reads (decls.guards (spec.knot self.now.depth) tokens.old) result tokens.new }
    {
        let mut found = ListOf::new(self.alloc);
        for _turn in 0..tokens.rest().len() {
            if !is_bar(tokens.kind()) {
                return Ok(found);
            }
            match self.guard(tokens) {
                Ok(guard) => found = kept(found, guard)?,
                Err(stop) => {
                    discard(found);
                    return Err(stop);
                }
            }
        }
        Ok(found)
    }

    // A right side without conditions.
    #[tactic(auto, unfolding(crate::specs::Decls::plain_rhs))]
    #[inline(never)]
    fn plain_rhs(&self, tokens: &mut Tokens<'_>, start: &[Sym]) -> Result<Boxed<Rhs>, Stop>
        requires exps { NestsExp self.now.depth (F.pre self.now.exp) (F.post self.now.exp) }
        requires decls { NestsDecls self.now.depth (G.pre self.now.decls) (G.post self.now.decls) }
        ensures { Reads (decls.plain_rhs (spec.knot self.now.depth) start.now tokens.old) result tokens.new }
    {
        let mark = tokens.take();
        let body = self.exp(tokens, BINDING)?;
        let locals = match self.where_part(tokens) {
            Ok(locals) => locals,
            Err(stop) => {
                discard(body);
                return Err(stop);
            }
        };
        let span = tokens.since(start);
        Ok(Boxed::new(self.alloc, Rhs::Plain(span, mark, body, locals))?)
    }

    // A right side with conditions.
    #[tactic(auto, unfolding(crate::specs::Decls::guarded_rhs))]
    #[inline(never)]
    fn guarded_rhs(&self, tokens: &mut Tokens<'_>, start: &[Sym]) -> Result<Boxed<Rhs>, Stop>
        requires exps { NestsExp self.now.depth (F.pre self.now.exp) (F.post self.now.exp) }
        requires decls { NestsDecls self.now.depth (G.pre self.now.decls) (G.post self.now.decls) }
        ensures { Reads (decls.guarded_rhs (spec.knot self.now.depth) start.now tokens.old) result tokens.new }
    {
        let first = self.guard(tokens)?;
        let others = match self.guards(tokens) {
            Ok(others) => others,
            Err(stop) => {
                discard(first);
                return Err(stop);
            }
        };
        let locals = match self.where_part(tokens) {
            Ok(locals) => locals,
            Err(stop) => {
                discard(first);
                discard(others);
                return Err(stop);
            }
        };
        let span = tokens.since(start);
        Ok(Boxed::new(self.alloc, Rhs::Guarded(span, first, others, locals))?)
    }

    /// A right side.
    #[tactic(auto, unfolding(crate::specs::Decls::rhs))]
    #[inline(never)]
    pub fn rhs(&self, tokens: &mut Tokens<'_>) -> Result<Boxed<Rhs>, Stop>
        requires exps { NestsExp self.now.depth (F.pre self.now.exp) (F.post self.now.exp) }
        requires decls { NestsDecls self.now.depth (G.pre self.now.decls) (G.post self.now.decls) }
        ensures { Reads (decls.rhs (spec.knot self.now.depth) tokens.old) result tokens.new }
    {
        let start = tokens.rest();
        match tokens.kind() {
            Some(Kind::Equals) => self.plain_rhs(tokens, start),
            _ => self.guarded_rhs(tokens, start),
        }
    }

    // A left side and a right side.
    #[tactic(auto, unfolding(crate::specs::Decls::sided), using(crate::proofs::Sided::sided_reads, crate::proofs::Sided::sided_fails))]
    #[inline(never)]
    fn sided(&self, tokens: &mut Tokens<'_>, start: &[Sym]) -> Result<Boxed<Decl>, Stop>
        requires exps { NestsExp self.now.depth (F.pre self.now.exp) (F.post self.now.exp) }
        requires decls { NestsDecls self.now.depth (G.pre self.now.decls) (G.post self.now.decls) }
        ensures { Reads (decls.sided (spec.knot self.now.depth) start.now tokens.old) result tokens.new }
    {
        let left = self.left(tokens)?;
        let right = match self.rhs(tokens) {
            Ok(right) => right,
            Err(stop) => {
                discard(left);
                return Err(stop);
            }
        };
        Ok(boxed_decl(self.alloc, left, tokens.since(start), right)?)
    }

    /// A declaration.
    #[tactic(auto, unfolding(crate::specs::Decls::decl))]
    #[inline(never)]
    pub fn decl(&self, tokens: &mut Tokens<'_>) -> Result<Boxed<Decl>, Stop>
        requires exps { NestsExp self.now.depth (F.pre self.now.exp) (F.post self.now.exp) }
        requires decls { NestsDecls self.now.depth (G.pre self.now.decls) (G.post self.now.decls) }
        ensures { Reads (decls.decl (spec.knot self.now.depth) tokens.old) result tokens.new }
    {
        let start = tokens.rest();
        match tokens.kind() {
            Some(Kind::Infixl) | Some(Kind::Infixr) | Some(Kind::Infix) => {
                fixity(self.alloc, tokens, start)
            }
            _ => {
                if signature_next(tokens) {
                    return self.signature(tokens, start);
                }
                self.sided(tokens, start)
            }
        }
    }

    // A declaration with each `;` behind it.
    #[tactic(auto, unfolding(crate::specs::Decls::decl_item, crate::specs::Marks::part_ends))]
    #[inline(never)]
    fn decl_item(&self, tokens: &mut Tokens<'_>) -> Result<Boxed<DeclItem>, Stop>
        requires exps { NestsExp self.now.depth (F.pre self.now.exp) (F.post self.now.exp) }
        requires decls { NestsDecls self.now.depth (G.pre self.now.decls) (G.post self.now.decls) }
        ensures { Reads (decls.decl_item (spec.knot self.now.depth) tokens.old) result tokens.new }
    {
        let decl = self.decl(tokens)?;
        let marks = match semis(self.alloc, tokens) {
            Ok(marks) => marks,
            Err(stop) => {
                discard(decl);
                return Err(stop);
            }
        };
        if marks.as_slice().is_empty() && begins_part(tokens.kind()) {
            discard(decl);
            return Err(Stop::NoParse);
        }
        Ok(boxed_decl_item(self.alloc, decl, marks)?)
    }

    #[inline(never)]
    fn decl_items(&self, tokens: &mut Tokens<'_>) -> Result<ListOf<DeclItem>, Stop>
        requires exps { NestsExp self.now.depth (F.pre self.now.exp) (F.post self.now.exp) }
        requires decls { NestsDecls self.now.depth (G.pre self.now.decls) (G.post self.now.decls) }
        ensures { Reads (decls.decl_items (spec.knot self.now.depth) tokens.old) result tokens.new }
    {
        let mut found = ListOf::new(self.alloc);
        for _turn in 0..tokens.rest().len() {
            if !begins_part(tokens.kind()) {
                return Ok(found);
            }
            match self.decl_item(tokens) {
                Ok(item) => found = kept_decl(found, item)?,
                Err(stop) => {
                    discard(found);
                    return Err(stop);
                }
            }
        }
        Ok(found)
    }

    /// The declarations of a block, and its end.
    #[tactic(auto, unfolding(crate::specs::Decls::decls_end))]
    #[inline(never)]
    pub fn decls_end(
        &self,
        tokens: &mut Tokens<'_>,
        start: &[Sym],
        left: BlockMark,
        before: ListOf<BlockMark>,
    ) -> Result<Boxed<Decls>, Stop>
        requires exps { NestsExp self.now.depth (F.pre self.now.exp) (F.post self.now.exp) }
        requires decls { NestsDecls self.now.depth (G.pre self.now.decls) (G.post self.now.decls) }
        ensures { Reads (decls.decls_end (spec.knot self.now.depth) start.now left before tokens.old) result tokens.new }
    {
        let decls = match self.decl_items(tokens) {
            Ok(decls) => decls,
            Err(stop) => {
                discard(before);
                return Err(stop);
            }
        };
        decls_closed(self.alloc, tokens, start, left, before, decls)
    }

    /// A block of declarations.
    #[tactic(auto, unfolding(crate::specs::Decls::whole_decls))]
    #[inline(never)]
    pub fn whole_decls(&self, tokens: &mut Tokens<'_>) -> Result<Boxed<Decls>, Stop>
        requires exps { NestsExp self.now.depth (F.pre self.now.exp) (F.post self.now.exp) }
        requires decls { NestsDecls self.now.depth (G.pre self.now.decls) (G.post self.now.decls) }
        ensures { Reads (decls.whole_decls (spec.knot self.now.depth) tokens.old) result tokens.new }
    {
        let start = tokens.rest();
        let left = block_open(tokens)?;
        let before = semis(self.alloc, tokens)?;
        self.decls_end(tokens, start, left, before)
    }
}
