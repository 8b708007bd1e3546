// What the limits count in a declaration of the top.
ghost use Rattle.std.specs.Prelude.{◌≡◌, map};
ghost use Rattle.gh_base.specs.declared.refusal.Limit.TheVariants.{Dependencies, Fields};
ghost use Rattle.gh_limits.specs.Limits as spec;
ghost use Rattle.gh_limits.specs.Places.{place, first_place};

use crate::bound::var_name;
use crate::clauses::{clause_of, goes_on};
use crate::inside::{decl_place, rhs_place};
use crate::places::{NONE, earlier, others_place, place};
use crate::same_types::same_type;
use gh_base::{Limit, Span};
use gh_tree::{Constr, Context, Decl, NextConstr, Top};

fn fields_place(constr: &Constr) -> u32
    ensures { result ≡ place Fields (spec.fields_of constr.now) }
{
    match constr {
        Constr::Prefix(_, _, fields) => place(Limit::Fields, fields.as_slice().len()),
        Constr::Infix(..) => place(Limit::Fields, 2),
    }
}

fn next_constrs_place(constrs: &[NextConstr]) -> u32
    ensures { result ≡ first_place (map spec.fields_at constrs.now) }
{
    let mut best = NONE;
    for next in constrs {
        best = earlier(best, fields_place(&next.constr));
    }
    best
}

fn context_place(context: &Option<Context>) -> u32
    ensures { result ≡ place Dependencies (spec.dependencies context.now) }
{
    let Some(context) = context else {
        return place(Limit::Dependencies, 0);
    };
    let others = context.deps.others.as_slice().len();
    match &context.deps.first {
        Some(_) => others_place(Limit::Dependencies, others),
        None => place(Limit::Dependencies, others),
    }
}

/// What a declaration of the top passes.
#[tactic(auto, using(crate::proofs::Found::place_ends))]
pub fn top_place(top: &Top) -> u32
    ensures { result ≡ first_place (spec.top_counts top.now) }
{
    match top {
        Top::Synonym(_, _, _, parameters, _, _) => {
            place(Limit::Parameters, parameters.as_slice().len())
        }
        Top::Data(_, _, _, parameters, _, first, others) => {
            let parameters = place(Limit::Parameters, parameters.as_slice().len());
            let constrs = others_place(Limit::Constructors, others.as_slice().len());
            let first = fields_place(first);
            let rest = next_constrs_place(others.as_slice());
            earlier(parameters, earlier(constrs, earlier(first, rest)))
        }
        Top::Newtype(_, _, _, parameters, _, _, _) => {
            place(Limit::Parameters, parameters.as_slice().len())
        }
        Top::Signature(_, _, _, _, context, _) => context_place(context),
        Top::Case(_, _, _, _, _, args, right) => {
            let patterns = place(Limit::Arguments, args.as_slice().len());
            earlier(patterns, rhs_place(right))
        }
        Top::Extends(..) => NONE,
        Top::Decl(decl) => decl_place(decl),
    }
}

#[tactic(auto, using(crate::proofs::TopAt::out_signature, crate::proofs::TopAt::out_fixity, crate::proofs::TopAt::out_function, crate::proofs::TopAt::out_pattern))]
fn decl_span(decl: &Decl) -> Span
    ensures { result ≡ spec.decl_span decl.now }
{
    match decl {
        Decl::Signature(span, ..) => *span,
        Decl::Fixity(span, ..) => *span,
        Decl::Function(span, ..) => *span,
        Decl::Pattern(span, ..) => *span,
    }
}

/// The bytes of a declaration of the top.
pub fn span_of(top: &Top) -> Span
    ensures { result ≡ spec.span_of top.now }
{
    match top {
        Top::Synonym(span, ..) => *span,
        Top::Data(span, ..) => *span,
        Top::Newtype(span, ..) => *span,
        Top::Signature(span, ..) => *span,
        Top::Case(span, ..) => *span,
        Top::Extends(span, ..) => *span,
        Top::Decl(decl) => decl_span(decl),
    }
}

/// Whether a definition or case goes on in the next declaration of the top.
pub fn continues(top: &Top, next: &Top) -> bool
    ensures { result ≡ spec.continues top.now next.now }
{
    match top {
        Top::Decl(decl) => match next {
            Top::Decl(other) => goes_on(clause_of(decl), clause_of(other)),
            _ => false,
        },
        Top::Case(_, function, _, head, _, _, _) => match next {
            Top::Case(_, other, _, text, _, _, _) => {
                var_name(function) == var_name(other) && same_type(head, text)
            }
            _ => false,
        },
        _ => false,
    }
}
