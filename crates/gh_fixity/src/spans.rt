// The bytes of nodes.
ghost use Rattle.std.specs.Prelude.{◌≡◌};
ghost use Rattle.gh_fixity.specs.Spans as spec;

use gh_base::Span;
use gh_program::{ArgPattern, GenCon, Open, Operand, Operands, PatOperand, Pattern};

#[tactic(auto, using(crate::proofs::SpansAt::open_lambda, crate::proofs::SpansAt::open_let, crate::proofs::SpansAt::open_if))]
fn open(node: &Open) -> Span
    ensures { result ≡ spec.open_span node.now }
{
    match node {
        Open::Lambda(span, ..) => *span,
        Open::Let(span, ..) => *span,
        Open::If(span, ..) => *span,
    }
}

/// The bytes of an operand.
#[tactic(auto, using(crate::proofs::SpansAt::operand_apply, crate::proofs::SpansAt::operand_case, crate::proofs::SpansAt::operand_open))]
pub fn operand(node: &Operand) -> Span
    ensures { result ≡ spec.operand_span node.now }
{
    match node {
        Operand::Apply(span, ..) => *span,
        Operand::Case(span, ..) => *span,
        Operand::Open(inner) => open(inner.get()),
    }
}

/// The bytes of an operator list or of its tree.
#[tactic(auto, using(crate::proofs::SpansAt::operands_listed, crate::proofs::SpansAt::operands_infix, crate::proofs::SpansAt::operands_negate))]
pub fn operands(node: &Operands) -> Span
    ensures { result ≡ spec.operands_span node.now }
{
    match node {
        Operands::Listed(span, ..) => *span,
        Operands::Infix(span, ..) => *span,
        Operands::Negate(span, ..) => *span,
    }
}

fn gen_con(con: &GenCon) -> Span
    ensures { result ≡ spec.gen_con_span con.now }
{
    match con {
        GenCon::Con(name) => name.span,
        GenCon::Unit(span) => *span,
        GenCon::Nil(span) => *span,
        GenCon::Tuple(span, _) => *span,
    }
}

#[tactic(auto, using(crate::proofs::SpansAt::arg_pattern_var, crate::proofs::SpansAt::arg_pattern_as, crate::proofs::SpansAt::arg_pattern_wild, crate::proofs::SpansAt::arg_pattern_con, crate::proofs::SpansAt::arg_pattern_int, crate::proofs::SpansAt::arg_pattern_char, crate::proofs::SpansAt::arg_pattern_str, crate::proofs::SpansAt::arg_pattern_paren, crate::proofs::SpansAt::arg_pattern_tuple, crate::proofs::SpansAt::arg_pattern_list))]
fn arg_pattern(node: &ArgPattern) -> Span
    ensures { result ≡ spec.arg_pattern_span node.now }
{
    match node {
        ArgPattern::Var(name) => name.span,
        ArgPattern::As(span, ..) => *span,
        ArgPattern::Wild(span) => *span,
        ArgPattern::Con(con) => gen_con(con),
        ArgPattern::Int(span, _) => *span,
        ArgPattern::Char(span, _) => *span,
        ArgPattern::Str(span, _) => *span,
        ArgPattern::Paren(span, _) => *span,
        ArgPattern::Tuple(span, _) => *span,
        ArgPattern::List(span, _) => *span,
    }
}

/// The bytes of an operand of a pattern.
#[tactic(auto, using(crate::proofs::SpansAt::pat_operand_negative, crate::proofs::SpansAt::pat_operand_arg, crate::proofs::SpansAt::pat_operand_con))]
pub fn pat_operand(node: &PatOperand) -> Span
    ensures { result ≡ spec.pat_operand_span node.now }
{
    match node {
        PatOperand::Negative(span, _) => *span,
        PatOperand::Arg(inner) => arg_pattern(inner.get()),
        PatOperand::Con(span, ..) => *span,
    }
}

/// The bytes of a pattern.
#[tactic(auto, using(crate::proofs::SpansAt::pattern_listed, crate::proofs::SpansAt::pattern_infix))]
pub fn pattern(node: &Pattern) -> Span
    ensures { result ≡ spec.pattern_span node.now }
{
    match node {
        Pattern::Listed(span, ..) => *span,
        Pattern::Infix(span, ..) => *span,
    }
}
