// The bytes of patterns.
ghost use Rattle.std.specs.Prelude.{◌≡◌};
ghost use Rattle.gh_resolve_patterns.specs.Spans as spec;

use gh_base::Span;
use gh_resolve_names::{used_con, used_var};
use gh_tree::{ArgPattern, GenCon, NextPattern, PatOperand};

fn con_span(con: &GenCon) -> Span
    ensures { result ≡ spec.con_span con.now }
{
    match con {
        GenCon::Con(con) => used_con(*con).span,
        GenCon::Unit(span, ..) => *span,
        GenCon::Nil(span, ..) => *span,
        GenCon::Tuple(span, ..) => *span,
    }
}

#[tactic(auto, using(crate::proofs::SpansAt::arg_span_var, crate::proofs::SpansAt::arg_span_as, crate::proofs::SpansAt::arg_span_wild, crate::proofs::SpansAt::arg_span_con, crate::proofs::SpansAt::arg_span_int, crate::proofs::SpansAt::arg_span_char, crate::proofs::SpansAt::arg_span_str, crate::proofs::SpansAt::arg_span_paren, crate::proofs::SpansAt::arg_span_tuple, crate::proofs::SpansAt::arg_span_list))]
fn arg_span(node: &ArgPattern) -> Span
    ensures { result ≡ spec.arg_span node.now }
{
    match node {
        ArgPattern::Var(var) => used_var(*var).span,
        ArgPattern::As(span, ..) => *span,
        ArgPattern::Wild(span) => *span,
        ArgPattern::Con(con) => con_span(con),
        ArgPattern::Int(span, _) => *span,
        ArgPattern::Char(span, _) => *span,
        ArgPattern::Str(span, _) => *span,
        ArgPattern::Paren(span, ..) => *span,
        ArgPattern::Tuple(span, ..) => *span,
        ArgPattern::List(span, ..) => *span,
    }
}

#[tactic(auto, using(crate::proofs::SpansAt::operand_span_negative, crate::proofs::SpansAt::operand_span_arg, crate::proofs::SpansAt::operand_span_con))]
fn operand_span(node: &PatOperand) -> Span
    ensures { result ≡ spec.operand_span node.now }
{
    match node {
        PatOperand::Negative(span, ..) => *span,
        PatOperand::Arg(inner) => arg_span(inner.get()),
        PatOperand::Con(span, ..) => *span,
    }
}

fn last_span(first: Span, nodes: &[NextPattern]) -> Span
    ensures { result ≡ spec.last_span first nodes.now }
{
    let mut last = first;
    for node in nodes {
        last = operand_span(&node.operand);
    }
    last
}

/// The bytes from the first operand to the last.
pub fn list_span(first: &PatOperand, others: &[NextPattern]) -> Span
    ensures { result ≡ spec.list_span first.now others.now }
{
    let first = operand_span(first);
    let last = last_span(first, others);
    Span {
        file: first.file,
        from: first.from,
        to: last.to,
    }
}
