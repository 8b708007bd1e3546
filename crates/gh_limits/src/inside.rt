// What the limits count inside expressions and declarations.
ghost use Rattle.std.specs.Prelude.{◌≡◌, map};
ghost use Rattle.gh_limits.specs.Inside as spec;
ghost use Rattle.gh_limits.specs.Places.{first_place, all_of};

use crate::clauses::{arguments, bindings_place, clauses_place};
use crate::places::{NONE, earlier, others_place, place};
use gh_base::Limit;
use gh_tree::{
    Aexp, Alt, AltGuard, AltItem, Alts, Decl, DeclItem, Decls, Exp, Guard, Locals, NextOperand,
    Open, Operand, OperandList, Part, RedefItem, Redefs, Rhs, Where,
};

#[cycle(exps)]
#[tactic(auto, using(crate::proofs::InsideAt::exp_plain, crate::proofs::InsideAt::exp_typed))]
fn exp_place(node: &Exp) -> u32
    ensures { result ≡ first_place (spec.exp_counts node.now) }
{
    match node {
        Exp::Plain(operands) => operands_place(operands.get()),
        Exp::Typed(_, operands, _, _) => operands_place(operands.get()),
    }
}

#[cycle(exps)]
#[tactic(auto, using(crate::proofs::InsideAt::operands_at))]
fn operands_place(node: &OperandList) -> u32
    ensures { result ≡ first_place (spec.operands_counts node.now) }
{
    let first = operand_place(&node.first);
    earlier(first, next_operands_place(node.others.as_slice()))
}

#[cycle(exps)]
#[tactic(auto, using(crate::proofs::InsideAt::operand_apply, crate::proofs::InsideAt::operand_case, crate::proofs::InsideAt::operand_open))]
fn operand_place(node: &Operand) -> u32
    ensures { result ≡ first_place (spec.operand_counts node.now) }
{
    match node {
        Operand::Apply(_, head, args) => {
            let head = aexp_place(head.get());
            earlier(head, aexps_place(args.as_slice()))
        }
        Operand::Case(_, _, exp, _, alts) => {
            let exp = exp_place(exp);
            earlier(exp, alts_place(alts.get()))
        }
        Operand::Open(inner) => open_place(inner.get()),
    }
}

#[cycle(exps)]
#[tactic(auto, using(crate::proofs::InsideAt::open_lambda, crate::proofs::InsideAt::open_let, crate::proofs::InsideAt::open_if))]
fn open_place(node: &Open) -> u32
    ensures { result ≡ first_place (spec.open_counts node.now) }
{
    match node {
        Open::Lambda(_, _, _, others, _, body) => {
            let patterns = others_place(Limit::Arguments, others.as_slice().len());
            earlier(patterns, exp_place(body))
        }
        Open::Let(_, _, locals, _, body) => {
            let locals = locals_place(locals);
            earlier(locals, exp_place(body))
        }
        Open::If(_, _, test, _, yes, _, otherwise) => {
            let test = exp_place(test);
            let yes = exp_place(yes);
            earlier(test, earlier(yes, exp_place(otherwise)))
        }
    }
}

#[cycle(exps)]
#[tactic(auto, using(crate::proofs::InsideAt::locals_decls, crate::proofs::InsideAt::locals_redefs))]
fn locals_place(node: &Locals) -> u32
    ensures { result ≡ first_place (spec.locals_counts node.now) }
{
    match node {
        Locals::Decls(block) => decls_place(block.get()),
        Locals::Redefs(block) => redefs_place(block.get()),
    }
}

#[cycle(exps)]
#[tactic(auto, using(crate::proofs::InsideAt::redefs_at))]
fn redefs_place(node: &Redefs) -> u32
    ensures { result ≡ first_place (spec.redefs_counts node.now) }
{
    redef_items_place(node.redefs.as_slice())
}

#[cycle(exps)]
#[tactic(auto, using(crate::proofs::InsideAt::decls_at))]
fn decls_place(node: &Decls) -> u32
    ensures { result ≡ first_place (spec.decls_counts node.now) }
{
    let decls = node.decls.as_slice();
    let bindings = bindings_place(decls);
    let clauses = clauses_place(decls);
    earlier(bindings, earlier(clauses, decl_items_place(decls)))
}

/// What a declaration passes.
#[cycle(exps)]
#[tactic(auto, using(crate::proofs::InsideAt::inside_signature, crate::proofs::InsideAt::inside_fixity, crate::proofs::InsideAt::inside_function, crate::proofs::InsideAt::inside_pattern, crate::proofs::Few::place_few))]
pub fn decl_place(node: &Decl) -> u32
    ensures { result ≡ first_place (spec.decl_declared node.now).inside }
{
    match node {
        Decl::Signature(..) => NONE,
        Decl::Fixity(..) => NONE,
        Decl::Function(_, left, right) => {
            let patterns = place(Limit::Arguments, arguments(left));
            earlier(patterns, rhs_place(right))
        }
        Decl::Pattern(_, _, right) => rhs_place(right),
    }
}

/// What a right side passes.
#[cycle(exps)]
#[tactic(auto, using(crate::proofs::InsideAt::rhs_plain, crate::proofs::InsideAt::rhs_guarded))]
pub fn rhs_place(node: &Rhs) -> u32
    ensures { result ≡ first_place (spec.rhs_counts node.now) }
{
    match node {
        Rhs::Plain(_, _, body, wher) => {
            let body = exp_place(body);
            earlier(body, where_place(wher))
        }
        Rhs::Guarded(_, first, others, wher) => {
            let first = guard_place(first);
            let rest = guards_place(others.as_slice());
            earlier(first, earlier(rest, where_place(wher)))
        }
    }
}

#[cycle(exps)]
#[tactic(auto, using(crate::proofs::InsideAt::where_absent, crate::proofs::InsideAt::where_block))]
fn where_place(node: &Where) -> u32
    ensures { result ≡ first_place (spec.where_counts node.now) }
{
    match node {
        Where::Absent => NONE,
        Where::Block(_, block) => decls_place(block.get()),
    }
}

#[cycle(exps)]
#[tactic(auto, using(crate::proofs::InsideAt::alts_at))]
fn alts_place(node: &Alts) -> u32
    ensures { result ≡ first_place (spec.alts_counts node.now) }
{
    alt_items_place(node.alts.as_slice())
}

#[cycle(exps)]
#[tactic(auto, using(crate::proofs::InsideAt::alt_plain, crate::proofs::InsideAt::alt_guarded))]
fn alt_place(node: &Alt) -> u32
    ensures { result ≡ first_place (spec.alt_counts node.now) }
{
    match node {
        Alt::Plain(_, _, _, body, wher) => {
            let body = exp_place(body);
            earlier(body, where_place(wher))
        }
        Alt::Guarded(_, _, first, others, wher) => {
            let first = alt_guard_place(first);
            let rest = alt_guards_place(others.as_slice());
            earlier(first, earlier(rest, where_place(wher)))
        }
    }
}

#[cycle(exps)]
#[tactic(auto, using(crate::proofs::InsideAt::guard_at))]
fn guard_place(node: &Guard) -> u32
    ensures { result ≡ first_place (spec.guard_counts node.now) }
{
    let test = operands_place(node.test.get());
    earlier(test, exp_place(&node.body))
}

#[cycle(exps)]
#[tactic(auto, using(crate::proofs::InsideAt::alt_guard_at))]
fn alt_guard_place(node: &AltGuard) -> u32
    ensures { result ≡ first_place (spec.alt_guard_counts node.now) }
{
    let test = operands_place(node.test.get());
    earlier(test, exp_place(&node.body))
}

#[cycle(exps)]
#[tactic(auto, using(crate::proofs::InsideAt::aexp_var, crate::proofs::InsideAt::aexp_generic, crate::proofs::InsideAt::aexp_con, crate::proofs::InsideAt::aexp_int, crate::proofs::InsideAt::aexp_char, crate::proofs::InsideAt::aexp_str, crate::proofs::InsideAt::aexp_paren, crate::proofs::InsideAt::aexp_tuple, crate::proofs::InsideAt::aexp_list, crate::proofs::InsideAt::aexp_left, crate::proofs::InsideAt::aexp_right))]
fn aexp_place(node: &Aexp) -> u32
    ensures { result ≡ first_place (spec.aexp_counts node.now) }
{
    match node {
        Aexp::Var(_) => NONE,
        Aexp::Generic(..) => NONE,
        Aexp::Con(_) => NONE,
        Aexp::Int(..) => NONE,
        Aexp::Char(..) => NONE,
        Aexp::Str(..) => NONE,
        Aexp::Paren(_, _, inner, _) => exp_place(inner),
        Aexp::Tuple(_, _, first, others, _) => {
            let first = exp_place(first);
            earlier(first, exp_parts_place(others.as_slice()))
        }
        Aexp::List(_, _, first, others, _) => {
            let first = exp_place(first);
            earlier(first, exp_parts_place(others.as_slice()))
        }
        Aexp::Left(_, _, operands, _, _) => operands_place(operands.get()),
        Aexp::Right(_, _, _, operands, _) => operands_place(operands.get()),
    }
}

#[cycle(exps)]
#[tactic(auto, using(crate::proofs::Found::push_place))]
fn next_operands_place(parts: &[NextOperand]) -> u32
    ensures { result ≡ first_place (all_of (map spec.next_operand_counts parts.now)) }
{
    let mut best = NONE;
    for part in parts {
        best = earlier(best, operand_place(&part.operand));
    }
    best
}

#[cycle(exps)]
#[tactic(auto, using(crate::proofs::Found::push_place))]
fn aexps_place(parts: &[Aexp]) -> u32
    ensures { result ≡ first_place (all_of (map spec.aexp_counts parts.now)) }
{
    let mut best = NONE;
    for part in parts {
        best = earlier(best, aexp_place(part));
    }
    best
}

#[cycle(exps)]
#[tactic(auto, using(crate::proofs::Found::push_place))]
fn redef_items_place(parts: &[RedefItem]) -> u32
    ensures { result ≡ first_place (all_of (map spec.redef_item_counts parts.now)) }
{
    let mut best = NONE;
    for part in parts {
        best = earlier(best, exp_place(&part.redef.body));
    }
    best
}

#[cycle(exps)]
#[tactic(auto, using(crate::proofs::Found::push_place))]
fn decl_items_place(parts: &[DeclItem]) -> u32
    ensures { result ≡ first_place (all_of (map spec.inside_at parts.now)) }
{
    let mut best = NONE;
    for part in parts {
        best = earlier(best, decl_place(&part.decl));
    }
    best
}

#[cycle(exps)]
#[tactic(auto, using(crate::proofs::Found::push_place))]
fn alt_items_place(parts: &[AltItem]) -> u32
    ensures { result ≡ first_place (all_of (map spec.alt_item_counts parts.now)) }
{
    let mut best = NONE;
    for part in parts {
        best = earlier(best, alt_place(&part.alt));
    }
    best
}

#[cycle(exps)]
#[tactic(auto, using(crate::proofs::Found::push_place))]
fn guards_place(parts: &[Guard]) -> u32
    ensures { result ≡ first_place (all_of (map spec.guard_counts parts.now)) }
{
    let mut best = NONE;
    for part in parts {
        best = earlier(best, guard_place(part));
    }
    best
}

#[cycle(exps)]
#[tactic(auto, using(crate::proofs::Found::push_place))]
fn alt_guards_place(parts: &[AltGuard]) -> u32
    ensures { result ≡ first_place (all_of (map spec.alt_guard_counts parts.now)) }
{
    let mut best = NONE;
    for part in parts {
        best = earlier(best, alt_guard_place(part));
    }
    best
}

#[cycle(exps)]
#[tactic(auto, using(crate::proofs::Found::push_place))]
fn exp_parts_place(parts: &[Part]) -> u32
    ensures { result ≡ first_place (all_of (map spec.part_counts parts.now)) }
{
    let mut best = NONE;
    for part in parts {
        best = earlier(best, exp_place(&part.exp));
    }
    best
}
