// Operands, and expressions (Haskell 98 Report, 3).
ghost use Rattle.gh_reader.specs.Reads.{Reads};
ghost use Rattle.gh_parse_exps.specs.Reading.{NestsExp, NestsDecls};
ghost use Rattle.gh_parse_exps.specs.Exps as spec;

use crate::finished::operand_list;
use crate::held::{discard, kept};
use crate::levels::{CONDITIONAL, LAMBDA, LET_BODY, OPERAND, SCRUTINEE};
use crate::marks::{arrow, else_word, in_word, of_word, then_word};
use crate::narrow::operands_open;
use crate::ops::{goes_on, minus_sign, op};
use crate::reader::Reader;
use gh_base::ListOf;
use gh_parse_patterns::args;
use gh_reader::{Stop, Tokens};
use gh_tree::{Decls, Exp, Kind, NextOperand, Open, Operand, OperandList, Sym};
use sqlite_items::Boxed;
use std::alloc::Global;

impl<
    F: Fn(Global, &mut Tokens<'_>, usize) -> Result<Exp, Stop>,
    G: Fn(Global, &mut Tokens<'_>, usize) -> Result<Boxed<Decls>, Stop>,
> Reader<F, G> {
    // A function.
    #[tactic(auto, unfolding(crate::specs::Exps::lambda))]
    #[inline(never)]
    fn lambda(&self, tokens: &mut Tokens<'_>, start: &[Sym]) -> Result<Boxed<Open>, Stop>
        requires { NestsExp self.now.depth (F.pre self.now.exp) (F.post self.now.exp) }
        ensures { Reads (spec.lambda (spec.knot self.now.depth) start.now tokens.old) result tokens.new }
    {
        let mark = tokens.take();
        let first = self.arg(tokens)?;
        let others = match args(self.alloc, tokens, self.depth) {
            Ok(others) => others,
            Err(stop) => {
                discard(first);
                return Err(stop);
            }
        };
        let to = match arrow(tokens) {
            Ok(to) => to,
            Err(stop) => {
                discard(first);
                discard(others);
                return Err(stop);
            }
        };
        let body = match self.exp(tokens, LAMBDA) {
            Ok(body) => body,
            Err(stop) => {
                discard(first);
                discard(others);
                return Err(stop);
            }
        };
        let span = tokens.since(start);
        Ok(Boxed::new(
            self.alloc,
            Open::Lambda(span, mark, first.into_inner(), others, to, body),
        )?)
    }

    // Local declarations, and an expression.
    #[tactic(auto, unfolding(crate::specs::Exps::let_in))]
    #[inline(never)]
    fn let_in(&self, tokens: &mut Tokens<'_>, start: &[Sym]) -> Result<Boxed<Open>, Stop>
        requires exps { NestsExp self.now.depth (F.pre self.now.exp) (F.post self.now.exp) }
        requires decls { NestsDecls self.now.depth (G.pre self.now.decls) (G.post self.now.decls) }
        ensures { Reads (spec.let_in (spec.knot self.now.depth) start.now tokens.old) result tokens.new }
    {
        let mark = tokens.take();
        let locals = self.locals(tokens)?;
        let to = match in_word(tokens) {
            Ok(to) => to,
            Err(stop) => {
                discard(locals);
                return Err(stop);
            }
        };
        let body = match self.exp(tokens, LET_BODY) {
            Ok(body) => body,
            Err(stop) => {
                discard(locals);
                return Err(stop);
            }
        };
        let span = tokens.since(start);
        Ok(Boxed::new(self.alloc, Open::Let(span, mark, locals, to, body))?)
    }

    // A conditional.
    #[tactic(auto, unfolding(crate::specs::Exps::conditional))]
    #[inline(never)]
    fn conditional(&self, tokens: &mut Tokens<'_>, start: &[Sym]) -> Result<Boxed<Open>, Stop>
        requires { NestsExp self.now.depth (F.pre self.now.exp) (F.post self.now.exp) }
        ensures { Reads (spec.conditional (spec.knot self.now.depth) start.now tokens.old) result tokens.new }
    {
        let mark = tokens.take();
        let test = self.exp(tokens, CONDITIONAL)?;
        let second = match then_word(tokens) {
            Ok(second) => second,
            Err(stop) => {
                discard(test);
                return Err(stop);
            }
        };
        let yes = match self.exp(tokens, CONDITIONAL) {
            Ok(yes) => yes,
            Err(stop) => {
                discard(test);
                return Err(stop);
            }
        };
        let third = match else_word(tokens) {
            Ok(third) => third,
            Err(stop) => {
                discard(test);
                discard(yes);
                return Err(stop);
            }
        };
        let not = match self.exp(tokens, CONDITIONAL) {
            Ok(not) => not,
            Err(stop) => {
                discard(test);
                discard(yes);
                return Err(stop);
            }
        };
        let span = tokens.since(start);
        Ok(Boxed::new(
            self.alloc,
            Open::If(span, mark, test, second, yes, third, not),
        )?)
    }

    // An expression with its arguments.
    #[tactic(auto, unfolding(crate::specs::Exps::apply))]
    #[inline(never)]
    fn apply(&self, tokens: &mut Tokens<'_>, start: &[Sym]) -> Result<Operand, Stop>
        requires { NestsExp self.now.depth (F.pre self.now.exp) (F.post self.now.exp) }
        ensures { Reads (spec.apply (spec.knot self.now.depth) start.now tokens.old) result tokens.new }
    {
        let first = Boxed::new(self.alloc, self.aexp(tokens)?)?;
        let others = match self.aexps(tokens) {
            Ok(others) => others,
            Err(stop) => {
                discard(first);
                return Err(stop);
            }
        };
        Ok(Operand::Apply(tokens.since(start), first, others))
    }

    // A choice between alternatives.
    #[tactic(auto, unfolding(crate::specs::Exps::case_of))]
    #[inline(never)]
    fn case_of(&self, tokens: &mut Tokens<'_>, start: &[Sym]) -> Result<Operand, Stop>
        requires exps { NestsExp self.now.depth (F.pre self.now.exp) (F.post self.now.exp) }
        requires decls { NestsDecls self.now.depth (G.pre self.now.decls) (G.post self.now.decls) }
        ensures { Reads (spec.case_of (spec.knot self.now.depth) start.now tokens.old) result tokens.new }
    {
        let mark = tokens.take();
        let scrutinee = self.exp(tokens, SCRUTINEE)?;
        let of = match of_word(tokens) {
            Ok(of) => of,
            Err(stop) => {
                discard(scrutinee);
                return Err(stop);
            }
        };
        let alts = match self.alts(tokens) {
            Ok(alts) => alts,
            Err(stop) => {
                discard(scrutinee);
                return Err(stop);
            }
        };
        Ok(Operand::Case(tokens.since(start), mark, scrutinee, of, alts))
    }

    // An operand.
    #[tactic(auto, unfolding(crate::specs::Exps::operand))]
    #[inline(never)]
    fn operand(&self, tokens: &mut Tokens<'_>) -> Result<Operand, Stop>
        requires exps { NestsExp self.now.depth (F.pre self.now.exp) (F.post self.now.exp) }
        requires decls { NestsDecls self.now.depth (G.pre self.now.decls) (G.post self.now.decls) }
        ensures { Reads (spec.operand (spec.knot self.now.depth) tokens.old) result tokens.new }
    {
        let start = tokens.rest();
        match tokens.kind() {
            Some(Kind::Case) => self.case_of(tokens, start),
            Some(Kind::Backslash) => Ok(Operand::Open(self.lambda(tokens, start)?)),
            Some(Kind::Let) => Ok(Operand::Open(self.let_in(tokens, start)?)),
            Some(Kind::If) => Ok(Operand::Open(self.conditional(tokens, start)?)),
            _ => self.apply(tokens, start),
        }
    }

    // An operator and an operand.
    #[tactic(auto, unfolding(crate::specs::Exps::next_operand))]
    #[inline(never)]
    fn next_operand(&self, tokens: &mut Tokens<'_>) -> Result<NextOperand, Stop>
        requires exps { NestsExp self.now.depth (F.pre self.now.exp) (F.post self.now.exp) }
        requires decls { NestsDecls self.now.depth (G.pre self.now.decls) (G.post self.now.decls) }
        ensures { Reads (spec.next_operand (spec.knot self.now.depth) tokens.old) result tokens.new }
    {
        let op = op(tokens)?;
        let minus = minus_sign(tokens);
        tokens.go_down(OPERAND)?;
        let operand = self.operand(tokens)?;
        tokens.go_up(OPERAND);
        Ok(NextOperand { op, minus, operand })
    }

    #[inline(never)]
    fn next_operands(&self, tokens: &mut Tokens<'_>) -> Result<ListOf<NextOperand>, Stop>
        requires exps { NestsExp self.now.depth (F.pre self.now.exp) (F.post self.now.exp) }
        requires decls { NestsDecls self.now.depth (G.pre self.now.decls) (G.post self.now.decls) }
        ensures { Reads (spec.next_operands (spec.knot self.now.depth) tokens.old) result tokens.new }
    {
        let mut found = ListOf::new(self.alloc);
        for _turn in 0..tokens.rest().len() {
            if !goes_on(tokens) {
                return Ok(found);
            }
            match self.next_operand(tokens) {
                Ok(next) => found = kept(found, next)?,
                Err(stop) => {
                    discard(found);
                    return Err(stop);
                }
            }
        }
        Ok(found)
    }

    // Operands with operators between them.
    #[tactic(auto, unfolding(crate::specs::Exps::operands))]
    #[inline(never)]
    fn operands(&self, tokens: &mut Tokens<'_>) -> Result<Boxed<OperandList>, Stop>
        requires exps { NestsExp self.now.depth (F.pre self.now.exp) (F.post self.now.exp) }
        requires decls { NestsDecls self.now.depth (G.pre self.now.decls) (G.post self.now.decls) }
        ensures { Reads (spec.operands (spec.knot self.now.depth) tokens.old) result tokens.new }
    {
        let start = tokens.rest();
        let minus = minus_sign(tokens);
        let first = self.operand(tokens)?;
        let others = match self.next_operands(tokens) {
            Ok(others) => others,
            Err(stop) => {
                discard(first);
                return Err(stop);
            }
        };
        operand_list(self.alloc, tokens, start, minus, first, others)
    }

    // The type of an expression, behind its operands.
    #[tactic(auto, unfolding(crate::specs::Exps::typed))]
    #[inline(never)]
    fn typed(
        &self,
        tokens: &mut Tokens<'_>,
        start: &[Sym],
        operands: Boxed<OperandList>,
    ) -> Result<Exp, Stop>
        ensures { Reads (spec.typed (spec.knot self.now.depth) start.now operands tokens.old) result tokens.new }
    {
        let mark = tokens.take();
        let of = self.type_expr(tokens)?;
        if operands_open(operands.get()) {
            return Err(Stop::NoParse);
        }
        Ok(Exp::Typed(tokens.since(start), operands, mark, of))
    }

    // What stands behind the operands of an expression.
    #[tactic(auto, unfolding(crate::specs::Exps::behind_operands))]
    #[inline(never)]
    fn behind_operands(
        &self,
        tokens: &mut Tokens<'_>,
        start: &[Sym],
        operands: Boxed<OperandList>,
    ) -> Result<Exp, Stop>
        ensures { Reads (spec.behind_operands (spec.knot self.now.depth) start.now operands tokens.old) result tokens.new }
    {
        match tokens.kind() {
            Some(Kind::Colons) => self.typed(tokens, start, operands),
            _ => Ok(Exp::Plain(operands)),
        }
    }

    /// An expression.
    #[tactic(auto, unfolding(crate::specs::Exps::whole_exp))]
    #[inline(never)]
    pub fn whole_exp(&self, tokens: &mut Tokens<'_>) -> Result<Exp, Stop>
        requires exps { NestsExp self.now.depth (F.pre self.now.exp) (F.post self.now.exp) }
        requires decls { NestsDecls self.now.depth (G.pre self.now.decls) (G.post self.now.decls) }
        ensures { Reads (spec.whole_exp (spec.knot self.now.depth) tokens.old) result tokens.new }
    {
        let start = tokens.rest();
        let operands = self.operands(tokens)?;
        self.behind_operands(tokens, start, operands)
    }
}
