// Expressions that may stand as arguments (Haskell 98 Report, 3.2 to 3.9).
ghost use Rattle.gh_reader.specs.Reads.{Reads};
ghost use Rattle.gh_parse_exps.specs.Reading.{NestsExp, NestsDecls};
ghost use Rattle.gh_parse_exps.specs.Exps as spec;
ghost use Rattle.std.specs.Prelude.{option_copied, ◌≡◌};

use crate::held::{discard, kept};
use crate::levels::{LIST, PARENTHESES, PART, SECTION};
use crate::marks::close_banana;
use crate::narrow::{operands_open, plain_of};
use crate::ops::{any_var_next, con_next, op, right_next};
use crate::reader::Reader;
use gh_base::{ListOf, Span};
use gh_parse_heads::any_var;
use gh_reader::{Stop, Tokens, close, close_list, gen_con, is_comma};
use gh_tree::{Aexp, Decls, Exp, Kind, Part, Sym, Var};
use sqlite_items::Boxed;
use std::alloc::Global;

/// Whether a token begins an argument.
pub fn begins_aexp(kind: Option<&Kind>) -> bool
    ensures { result ≡ spec.begins_aexp_by (option_copied kind.entry) }
{
    match kind {
        Some(Kind::VarId(..)) | Some(Kind::ConId(..)) => true,
        Some(Kind::Int(_)) | Some(Kind::Char(_)) | Some(Kind::Str(_)) => true,
        Some(Kind::Open) | Some(Kind::OpenList) => true,
        _ => false,
    }
}

// `)`, behind `(` and an expression.
#[tactic(auto, unfolding(crate::specs::Exps::paren))]
#[inline(never)]
fn paren(tokens: &mut Tokens<'_>, start: &[Sym], left: Span, first: Exp) -> Result<Aexp, Stop>
    ensures { Reads (spec.paren start.now left first tokens.old) result tokens.new }
{
    let close = close(tokens)?;
    Ok(Aexp::Paren(tokens.since(start), left, first, close))
}

// An operator and `)`, behind `(` and operands.
#[tactic(auto, unfolding(crate::specs::Exps::left_section))]
#[inline(never)]
fn left_section(
    tokens: &mut Tokens<'_>,
    start: &[Sym],
    left: Span,
    first: Exp,
) -> Result<Aexp, Stop>
    ensures { Reads (spec.left_section start.now left first tokens.old) result tokens.new }
{
    match plain_of(first) {
        None => Err(Stop::NoParse),
        Some(operands) => {
            if operands_open(operands.get()) {
                return Err(Stop::NoParse);
            }
            let op = op(tokens)?;
            let close = close(tokens)?;
            Ok(Aexp::Left(tokens.since(start), left, operands, op, close))
        }
    }
}

impl<
    F: Fn(Global, &mut Tokens<'_>, usize) -> Result<Exp, Stop>,
    G: Fn(Global, &mut Tokens<'_>, usize) -> Result<Boxed<Decls>, Stop>,
> Reader<F, G> {
    // A comma and an expression.
    #[tactic(auto, unfolding(crate::specs::Exps::part))]
    #[inline(never)]
    fn part(&self, tokens: &mut Tokens<'_>) -> Result<Part, Stop>
        requires { NestsExp self.now.depth (F.pre self.now.exp) (F.post self.now.exp) }
        ensures { Reads (spec.part (spec.knot self.now.depth) tokens.old) result tokens.new }
    {
        let mark = tokens.take();
        let exp = self.exp(tokens, PART)?;
        Ok(Part { mark, exp })
    }

    #[inline(never)]
    fn parts(&self, tokens: &mut Tokens<'_>) -> Result<ListOf<Part>, Stop>
        requires { NestsExp self.now.depth (F.pre self.now.exp) (F.post self.now.exp) }
        ensures { Reads (spec.parts (spec.knot self.now.depth) tokens.old) result tokens.new }
    {
        let mut found = ListOf::new(self.alloc);
        for _turn in 0..tokens.rest().len() {
            if !is_comma(tokens.kind()) {
                return Ok(found);
            }
            match self.part(tokens) {
                Ok(part) => found = kept(found, part)?,
                Err(stop) => {
                    discard(found);
                    return Err(stop);
                }
            }
        }
        Ok(found)
    }

    // The other parts of a tuple, and `)`.
    #[tactic(auto, unfolding(crate::specs::Exps::tuple))]
    #[inline(never)]
    fn tuple(
        &self,
        tokens: &mut Tokens<'_>,
        start: &[Sym],
        left: Span,
        first: Exp,
    ) -> Result<Aexp, Stop>
        requires { NestsExp self.now.depth (F.pre self.now.exp) (F.post self.now.exp) }
        ensures { Reads (spec.tuple (spec.knot self.now.depth) start.now left first tokens.old) result tokens.new }
    {
        let others = match self.parts(tokens) {
            Ok(others) => others,
            Err(stop) => {
                discard(first);
                return Err(stop);
            }
        };
        let close = match close(tokens) {
            Ok(close) => close,
            Err(stop) => {
                discard(first);
                discard(others);
                return Err(stop);
            }
        };
        let count = others.as_slice().len();
        if count == 0 || count > 6 {
            discard(first);
            discard(others);
            return Err(Stop::NoParse);
        }
        Ok(Aexp::Tuple(tokens.since(start), left, first, others, close))
    }

    // What stands behind `(` and an expression.
    #[tactic(auto, unfolding(crate::specs::Exps::behind))]
    #[inline(never)]
    fn behind(
        &self,
        tokens: &mut Tokens<'_>,
        start: &[Sym],
        left: Span,
        first: Exp,
    ) -> Result<Aexp, Stop>
        requires { NestsExp self.now.depth (F.pre self.now.exp) (F.post self.now.exp) }
        ensures { Reads (spec.behind (spec.knot self.now.depth) start.now left first tokens.old) result tokens.new }
    {
        match tokens.kind() {
            Some(Kind::Close) => paren(tokens, start, left, first),
            Some(Kind::Comma) => self.tuple(tokens, start, left, first),
            _ => left_section(tokens, start, left, first),
        }
    }

    // An operator and operands, and `)`.
    #[tactic(auto, unfolding(crate::specs::Exps::right_section))]
    #[inline(never)]
    fn right_section(
        &self,
        tokens: &mut Tokens<'_>,
        start: &[Sym],
        left: Span,
    ) -> Result<Aexp, Stop>
        requires { NestsExp self.now.depth (F.pre self.now.exp) (F.post self.now.exp) }
        ensures { Reads (spec.right_section (spec.knot self.now.depth) start.now left tokens.old) result tokens.new }
    {
        let op = op(tokens)?;
        let operands = self.plain(tokens, SECTION)?;
        let close = close(tokens)?;
        Ok(Aexp::Right(tokens.since(start), left, op, operands, close))
    }

    // An expression behind `(`, and what stands behind it.
    #[tactic(auto, unfolding(crate::specs::Exps::enclosed))]
    #[inline(never)]
    fn enclosed(&self, tokens: &mut Tokens<'_>, start: &[Sym], left: Span) -> Result<Aexp, Stop>
        requires { NestsExp self.now.depth (F.pre self.now.exp) (F.post self.now.exp) }
        ensures { Reads (spec.enclosed (spec.knot self.now.depth) start.now left tokens.old) result tokens.new }
    {
        let first = self.exp(tokens, PARENTHESES)?;
        self.behind(tokens, start, left, first)
    }

    // What stands behind `(`.
    #[tactic(auto, unfolding(crate::specs::Exps::opened))]
    #[inline(never)]
    fn opened(&self, tokens: &mut Tokens<'_>, start: &[Sym], left: Span) -> Result<Aexp, Stop>
        requires { NestsExp self.now.depth (F.pre self.now.exp) (F.post self.now.exp) }
        ensures { Reads (spec.opened (spec.knot self.now.depth) start.now left tokens.old) result tokens.new }
    {
        if right_next(tokens) {
            return self.right_section(tokens, start, left);
        }
        self.enclosed(tokens, start, left)
    }

    // What stands behind `[`.
    #[tactic(auto, unfolding(crate::specs::Exps::listed))]
    #[inline(never)]
    fn listed(&self, tokens: &mut Tokens<'_>, start: &[Sym], left: Span) -> Result<Aexp, Stop>
        requires { NestsExp self.now.depth (F.pre self.now.exp) (F.post self.now.exp) }
        ensures { Reads (spec.listed (spec.knot self.now.depth) start.now left tokens.old) result tokens.new }
    {
        let first = self.exp(tokens, LIST)?;
        let others = match self.parts(tokens) {
            Ok(others) => others,
            Err(stop) => {
                discard(first);
                return Err(stop);
            }
        };
        let close = match close_list(tokens) {
            Ok(close) => close,
            Err(stop) => {
                discard(first);
                discard(others);
                return Err(stop);
            }
        };
        Ok(Aexp::List(tokens.since(start), left, first, others, close))
    }

    // The type of a generic call, behind its function.
    #[tactic(auto, unfolding(crate::specs::Exps::generic))]
    #[inline(never)]
    fn generic(&self, tokens: &mut Tokens<'_>, start: &[Sym], name: Var) -> Result<Aexp, Stop>
        ensures { Reads (spec.generic (spec.knot self.now.depth) start.now name tokens.old) result tokens.new }
    {
        let left = tokens.take();
        let of = self.type_expr(tokens)?;
        let close = close_banana(tokens)?;
        Ok(Aexp::Generic(tokens.since(start), name, left, of, close))
    }

    // A variable, or a call of a generic function.
    #[tactic(auto, unfolding(crate::specs::Exps::var_aexp, crate::specs::Exps::after_var))]
    #[inline(never)]
    fn var_aexp(&self, tokens: &mut Tokens<'_>, start: &[Sym]) -> Result<Aexp, Stop>
        ensures { Reads (spec.var_aexp (spec.knot self.now.depth) start.now tokens.old) result tokens.new }
    {
        let name = any_var(tokens)?;
        match tokens.kind() {
            Some(Kind::OpenBanana) => self.generic(tokens, start, name),
            _ => Ok(Aexp::Var(name)),
        }
    }

    // An argument that is no constructor and no variable.
    #[tactic(auto, unfolding(crate::specs::Exps::other_aexp))]
    #[inline(never)]
    fn other_aexp(&self, tokens: &mut Tokens<'_>, start: &[Sym]) -> Result<Aexp, Stop>
        requires { NestsExp self.now.depth (F.pre self.now.exp) (F.post self.now.exp) }
        ensures { Reads (spec.other_aexp (spec.knot self.now.depth) start.now tokens.old) result tokens.new }
    {
        match tokens.kind() {
            Some(Kind::Int(value)) => Ok(Aexp::Int(tokens.take(), *value)),
            Some(Kind::Char(value)) => Ok(Aexp::Char(tokens.take(), *value)),
            Some(Kind::Str(text)) => {
                let mut copied = ListOf::new(self.alloc);
                copied.extend_from_slice(text.as_slice())?;
                Ok(Aexp::Str(tokens.take(), copied))
            }
            Some(Kind::Open) => {
                let left = tokens.take();
                self.opened(tokens, start, left)
            }
            Some(Kind::OpenList) => {
                let left = tokens.take();
                self.listed(tokens, start, left)
            }
            _ => Err(Stop::NoParse),
        }
    }

    /// An argument.
    #[tactic(auto, unfolding(crate::specs::Exps::aexp))]
    #[inline(never)]
    pub fn aexp(&self, tokens: &mut Tokens<'_>) -> Result<Aexp, Stop>
        requires { NestsExp self.now.depth (F.pre self.now.exp) (F.post self.now.exp) }
        ensures { Reads (spec.aexp (spec.knot self.now.depth) tokens.old) result tokens.new }
    {
        if con_next(tokens) {
            return Ok(Aexp::Con(gen_con(self.alloc, tokens)?));
        }
        let start = tokens.rest();
        if any_var_next(tokens) {
            return self.var_aexp(tokens, start);
        }
        self.other_aexp(tokens, start)
    }

    /// Arguments, of which there may be none.
    #[inline(never)]
    pub fn aexps(&self, tokens: &mut Tokens<'_>) -> Result<ListOf<Aexp>, Stop>
        requires { NestsExp self.now.depth (F.pre self.now.exp) (F.post self.now.exp) }
        ensures { Reads (spec.aexps (spec.knot self.now.depth) tokens.old) result tokens.new }
    {
        let mut found = ListOf::new(self.alloc);
        for _turn in 0..tokens.rest().len() {
            if !begins_aexp(tokens.kind()) {
                return Ok(found);
            }
            match self.aexp(tokens) {
                Ok(arg) => found = kept(found, arg)?,
                Err(stop) => {
                    discard(found);
                    return Err(stop);
                }
            }
        }
        Ok(found)
    }
}
