// What a list of local declarations binds, and how many clauses its definitions have.
ghost use Rattle.std.specs.Prelude.{◌≡◌, ◌≤◌, ◌+◌, None, min, map, if◌then◌else◌};
ghost use Rattle.gh_base.specs.declared.refusal.Limit.TheVariants.{Bindings};
ghost use Rattle.gh_limits.specs.Bound as bound_spec;
ghost use Rattle.gh_limits.specs.Inside as spec;
ghost use Rattle.gh_limits.specs.Places.{place, first_place};
ghost use Rattle.gh_limits.specs.Seen.{keeps};

use crate::bound::{Seen, see, see_pattern, var_name, var_op_name};
use crate::places::{NONE, earlier, place};
use gh_base::Limit;
use gh_tree::{Decl, DeclItem, FunLhs};

/// A clause of a function, or a variable's binding.
#[derive(Clone, Copy)]
pub struct Clause {
    /// The number of the name that it defines.
    pub name: u32,
    /// Whether it has an argument.
    pub has_arguments: bool,
}

// A count up to 17, which tells that a limit on arguments is passed.
fn few(count: usize) -> usize
    ensures { result ≡ min 17 count }
{
    if count < 17 { count } else { 17 }
}

// A count, one more and another.
fn few_more(count: usize, others: usize) -> usize
    ensures { result ≡ min 17 (count + (1 + others)) }
{
    few(few(count) + 1 + few(others))
}

#[tactic(auto, using(crate::proofs::BoundAt::head_prefix, crate::proofs::BoundAt::head_infix, crate::proofs::BoundAt::head_nested))]
fn left_name(left: &FunLhs) -> u32
    ensures { result ≡ (bound_spec.head_of left.now).name }
{
    match left {
        FunLhs::Prefix(_, var, _) => var_name(var),
        FunLhs::Infix(_, _, _, op, _, _) => var_op_name(op),
        FunLhs::Nested(_, _, inner, _, _, _) => left_name(inner.get()),
    }
}

/// How many arguments a left side has, up to 17.
#[tactic(auto, using(crate::proofs::BoundAt::head_prefix, crate::proofs::BoundAt::head_infix, crate::proofs::BoundAt::head_nested, crate::proofs::Few::few_nested))]
pub fn arguments(left: &FunLhs) -> usize
    ensures { result ≡ min 17 (bound_spec.head_of left.now).arguments }
{
    match left {
        FunLhs::Prefix(_, _, args) => few(args.as_slice().len()),
        FunLhs::Infix(..) => 2,
        FunLhs::Nested(_, _, inner, _, _, others) => {
            few_more(arguments(inner.get()), others.as_slice().len())
        }
    }
}

#[tactic(auto, using(crate::proofs::Few::some_argument))]
fn clause_by(left: &FunLhs) -> Clause
    ensures { result ≡ spec.clause_by (bound_spec.head_of left.now) }
{
    Clause {
        name: left_name(left),
        has_arguments: arguments(left) > 0,
    }
}

/// The clause or variable's binding that a declaration is.
#[tactic(auto, using(crate::proofs::InsideAt::clause_signature, crate::proofs::InsideAt::clause_fixity, crate::proofs::InsideAt::clause_function, crate::proofs::InsideAt::clause_pattern))]
pub fn clause_of(decl: &Decl) -> Option<Clause>
    ensures { result ≡ (spec.decl_declared decl.now).clause }
{
    match decl {
        Decl::Signature(..) => None,
        Decl::Fixity(..) => None,
        Decl::Function(_, left, _) => Some(clause_by(left)),
        Decl::Pattern(..) => None,
    }
}

/// Whether a clause goes on in the next declaration.
pub fn goes_on(clause: Option<Clause>, next: Option<Clause>) -> bool
    ensures { result ≡ spec.goes_on clause next }
{
    match clause {
        None => false,
        Some(clause) => match next {
            None => false,
            Some(next) => clause.name == next.name && clause.has_arguments,
        },
    }
}

// How many clauses of its definition stand before a declaration.
fn clauses_before(before: Option<Clause>, many: usize, next: Option<Clause>) -> usize
    ensures count { result ≡ (if spec.goes_on before next then many else 0) }
    ensures bound { result ≤ many }
{
    if goes_on(before, next) { many } else { 0 }
}

/// What the clauses of local definitions pass.
pub fn clauses_place(decls: &[DeclItem]) -> u32
    ensures { result ≡ first_place (spec.clause_counts None 0 (map spec.clause_at decls.now)) }
{
    let mut before = None;
    let mut many = 0;
    let mut best = NONE;
    for item in decls {
        let clause = clause_of(&item.decl);
        many = 1 + clauses_before(before, many, clause);
        best = earlier(best, place(Limit::Clauses, many));
        before = clause;
    }
    best
}

#[tactic(auto, using(crate::proofs::InsideAt::names_signature, crate::proofs::InsideAt::names_fixity, crate::proofs::InsideAt::names_function, crate::proofs::InsideAt::names_pattern))]
fn see_decl(seen: &mut Seen, decl: &Decl)
    ensures { seen.new.items ≡ keeps seen.old.items (spec.decl_declared decl.now).names }
{
    match decl {
        Decl::Signature(..) => {}
        Decl::Fixity(..) => {}
        Decl::Function(_, left, _) => see(seen, left_name(left)),
        Decl::Pattern(_, pattern, _) => see_pattern(seen, pattern),
    }
}

fn see_decls(seen: &mut Seen, decls: &[DeclItem])
    ensures { seen.new.items ≡ keeps seen.old.items (bound_spec.joined (map spec.names_at decls.now)) }
{
    for item in decls {
        see_decl(seen, &item.decl);
    }
}

#[tactic(auto, using(crate::proofs::InsideAt::patterns_signature, crate::proofs::InsideAt::patterns_fixity, crate::proofs::InsideAt::patterns_function, crate::proofs::InsideAt::patterns_pattern))]
fn patterns_of(decl: &Decl) -> usize
    ensures patterns { result ≡ (spec.decl_declared decl.now).patterns }
    ensures few { result ≤ 1 }
{
    match decl {
        Decl::Signature(..) => 0,
        Decl::Fixity(..) => 0,
        Decl::Function(..) => 0,
        Decl::Pattern(..) => 1,
    }
}

// A count up to 65, which tells that a limit on bindings is passed.
fn enough(count: usize) -> usize
    ensures { result ≡ min 65 count }
{
    if count < 65 { count } else { 65 }
}

// How many bindings of patterns there are, up to 65.
fn patterns_in(decls: &[DeclItem]) -> usize
    ensures { result ≡ min 65 (spec.sum_of (map spec.patterns_at decls.now)) }
{
    let mut count = 0;
    for item in decls {
        count = enough(enough(count) + patterns_of(&item.decl));
    }
    count
}

/// What the names that local declarations bind pass.
pub fn bindings_place(decls: &[DeclItem]) -> u32
    ensures { result ≡ place Bindings (spec.bound (map spec.decl_item_declared decls.now)) }
{
    let mut seen = Seen::new();
    see_decls(&mut seen, decls);
    let patterns = patterns_in(decls);
    place(Limit::Bindings, seen.len() + patterns)
}
