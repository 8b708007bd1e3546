// How deep a tree is.
ghost use Rattle.std.specs.Prelude.{◌≡◌, ◌+◌, max, map, length};
ghost use Rattle.gh_tree.specs.Depth as spec;
ghost use Rattle.gh_tree.specs.Depth.{capped, capped_sum, weight_of, deepest};

use crate::expressions::{
    Aexp, Alt, AltGuard, AltItem, Alts, Decl, DeclItem, Decls, Exp, Guard, Locals, NextOperand,
    Open, Operand, OperandList, Part, RedefItem, Redefs, Rhs, Where,
};
use crate::patterns::{ArgPattern, FunLhs, NextPattern, PatOperand, PatPart, Pattern};
use crate::types::{ArgType, Arrow, BType, TypeExpr, TypePart};

/// A number of parts, or the greatest `u32` where there are more.
#[tactic(auto, unfolding(crate::specs::Depth::capped))]
pub fn count_of(count: usize) -> u32
    ensures { result ≡ capped count }
{
    match u32::try_from(count) {
        Ok(count) => count,
        Err(_) => u32::MAX,
    }
}

/// A weight, and the depth below it.
#[tactic(auto, unfolding(crate::specs::Depth::capped_sum))]
pub fn stacked(weight: u32, below: u32) -> u32
    ensures { result ≡ capped_sum weight below }
{
    weight.saturating_add(below)
}

/// The greater of two depths.
pub fn greater(a: u32, b: u32) -> u32
    ensures { result ≡ max a b }
{
    if a < b { b } else { a }
}

/// A node that weighs one, over others.
#[tactic(auto, using(crate::proofs::Capped::one_is))]
pub fn above(below: u32) -> u32
    ensures { result ≡ capped_sum (capped 1) below }
{
    stacked(1, below)
}

/// A node with a list of so many parts, over others.
#[tactic(auto, using(crate::proofs::Capped::weight_is))]
pub fn list_above(count: usize, below: u32) -> u32
    ensures { result ≡ capped_sum (capped (weight_of count)) below }
{
    stacked(greater(count_of(count), 1), below)
}

/// A node with a list of one part and so many others, over others.
#[tactic(auto, using(crate::proofs::Capped::one_is, crate::proofs::Capped::capped_adds))]
pub fn parts_above(others: usize, below: u32) -> u32
    ensures { result ≡ capped_sum (capped (1 + others)) below }
{
    stacked(stacked(1, count_of(others)), below)
}

/// The greatest weight of a path in a type, or 2^32 - 1 where it is greater.
#[cycle(types)]
#[tactic(auto, using(crate::proofs::DepthAt::type_at))]
pub fn type_depth(node: &TypeExpr) -> u32
    ensures { result ≡ capped (spec.type_depth node.now) }
{
    let first = btype_depth(&node.first);
    let rest = arrows_depth(node.arrows.as_slice());
    parts_above(node.arrows.as_slice().len(), greater(first, rest))
}

/// The greatest weight of a path in a type applied to types, or 2^32 - 1 where it is greater.
#[cycle(types)]
#[tactic(auto, using(crate::proofs::DepthAt::btype_at))]
pub fn btype_depth(node: &BType) -> u32
    ensures { result ≡ capped (spec.btype_depth node.now) }
{
    let head = arg_type_depth(&node.head);
    let rest = arg_types_depth(node.args.as_slice());
    list_above(node.args.as_slice().len(), greater(head, rest))
}

/// The greatest weight of a path in an argument of a type, or 2^32 - 1 where it is greater.
#[cycle(types)]
#[tactic(auto, using(crate::proofs::DepthAt::arg_type_con, crate::proofs::DepthAt::arg_type_var, crate::proofs::DepthAt::arg_type_unit, crate::proofs::DepthAt::arg_type_no_list, crate::proofs::DepthAt::arg_type_no_arrow, crate::proofs::DepthAt::arg_type_no_tuple, crate::proofs::DepthAt::arg_type_paren, crate::proofs::DepthAt::arg_type_tuple, crate::proofs::DepthAt::arg_type_list))]
pub fn arg_type_depth(node: &ArgType) -> u32
    ensures { result ≡ capped (spec.arg_type_depth node.now) }
{
    match node {
        ArgType::Con(_) => 1,
        ArgType::Var(_) => 1,
        ArgType::Unit(..) => 1,
        ArgType::NoList(..) => 1,
        ArgType::NoArrow(..) => 1,
        ArgType::NoTuple(..) => 1,
        ArgType::Paren(_, _, inner, _) => above(type_depth(inner.get())),
        ArgType::Tuple(_, _, first, others, _) => {
            let first = type_depth(first.get());
            let rest = type_parts_depth(others.as_slice());
            parts_above(others.as_slice().len(), greater(first, rest))
        }
        ArgType::List(_, _, inner, _) => above(type_depth(inner.get())),
    }
}

/// The greatest weight of a path in the parts of a type of functions, or 2^32 - 1 where it is greater.
#[cycle(types)]
#[tactic(auto, using(crate::proofs::Capped::zero_is, crate::proofs::Capped::push_deepest))]
pub fn arrows_depth(parts: &[Arrow]) -> u32
    ensures { result ≡ capped (deepest (map spec.arrow_depth parts.now)) }
{
    let mut most = 0;
    for part in parts {
        most = greater(most, btype_depth(&part.to));
    }
    most
}

/// The greatest weight of a path in the arguments of a type, or 2^32 - 1 where it is greater.
#[cycle(types)]
#[tactic(auto, using(crate::proofs::Capped::zero_is, crate::proofs::Capped::push_deepest))]
pub fn arg_types_depth(parts: &[ArgType]) -> u32
    ensures { result ≡ capped (deepest (map spec.arg_type_depth parts.now)) }
{
    let mut most = 0;
    for part in parts {
        most = greater(most, arg_type_depth(part));
    }
    most
}

/// The greatest weight of a path in the parts of a tuple of types, or 2^32 - 1 where it is greater.
#[cycle(types)]
#[tactic(auto, using(crate::proofs::Capped::zero_is, crate::proofs::Capped::push_deepest))]
pub fn type_parts_depth(parts: &[TypePart]) -> u32
    ensures { result ≡ capped (deepest (map spec.type_part_depth parts.now)) }
{
    let mut most = 0;
    for part in parts {
        most = greater(most, type_depth(&part.part));
    }
    most
}

/// The greatest weight of a path in a pattern, or 2^32 - 1 where it is greater.
#[cycle(patterns)]
#[tactic(auto, using(crate::proofs::DepthAt::pattern_at))]
pub fn pattern_depth(node: &Pattern) -> u32
    ensures { result ≡ capped (spec.pattern_depth node.now) }
{
    let first = pat_operand_depth(&node.first);
    let rest = next_patterns_depth(node.others.as_slice());
    parts_above(node.others.as_slice().len(), greater(first, rest))
}

/// The greatest weight of a path in the further operands of a pattern, or 2^32 - 1 where it is greater.
#[cycle(patterns)]
#[tactic(auto, using(crate::proofs::Capped::zero_is, crate::proofs::Capped::push_deepest))]
pub fn next_patterns_depth(parts: &[NextPattern]) -> u32
    ensures { result ≡ capped (deepest (map spec.next_pattern_depth parts.now)) }
{
    let mut most = 0;
    for part in parts {
        most = greater(most, pat_operand_depth(&part.operand));
    }
    most
}

/// The greatest weight of a path in an operand of a pattern, or 2^32 - 1 where it is greater.
#[cycle(patterns)]
#[tactic(auto, using(crate::proofs::DepthAt::pat_operand_negative, crate::proofs::DepthAt::pat_operand_arg, crate::proofs::DepthAt::pat_operand_con, crate::proofs::Capped::one_is))]
pub fn pat_operand_depth(node: &PatOperand) -> u32
    ensures { result ≡ capped (spec.pat_operand_depth node.now) }
{
    match node {
        PatOperand::Negative(..) => 1,
        PatOperand::Arg(inner) => above(arg_pattern_depth(inner.get())),
        PatOperand::Con(_, _, first, others) => {
            let first = arg_pattern_depth(first.get());
            let rest = arg_patterns_depth(others.as_slice());
            parts_above(others.as_slice().len(), greater(1, greater(first, rest)))
        }
    }
}

/// The greatest weight of a path in an argument pattern, or 2^32 - 1 where it is greater.
#[cycle(patterns)]
#[tactic(auto, using(crate::proofs::DepthAt::arg_pattern_var, crate::proofs::DepthAt::arg_pattern_as, crate::proofs::DepthAt::arg_pattern_wild, crate::proofs::DepthAt::arg_pattern_con, crate::proofs::DepthAt::arg_pattern_int, crate::proofs::DepthAt::arg_pattern_char, crate::proofs::DepthAt::arg_pattern_str, crate::proofs::DepthAt::arg_pattern_paren, crate::proofs::DepthAt::arg_pattern_tuple, crate::proofs::DepthAt::arg_pattern_list))]
pub fn arg_pattern_depth(node: &ArgPattern) -> u32
    ensures { result ≡ capped (spec.arg_pattern_depth node.now) }
{
    match node {
        ArgPattern::Var(_) => 1,
        ArgPattern::As(_, _, _, inner) => above(arg_pattern_depth(inner.get())),
        ArgPattern::Wild(_) => 1,
        ArgPattern::Con(_) => 2,
        ArgPattern::Int(..) => 1,
        ArgPattern::Char(..) => 1,
        ArgPattern::Str(..) => 1,
        ArgPattern::Paren(_, _, inner, _) => above(pattern_depth(inner.get())),
        ArgPattern::Tuple(_, _, first, others, _) => {
            let first = pattern_depth(first.get());
            let rest = pat_parts_depth(others.as_slice());
            parts_above(others.as_slice().len(), greater(first, rest))
        }
        ArgPattern::List(_, _, first, others, _) => {
            let first = pattern_depth(first.get());
            let rest = pat_parts_depth(others.as_slice());
            parts_above(others.as_slice().len(), greater(first, rest))
        }
    }
}

/// The greatest weight of a path in argument patterns, or 2^32 - 1 where it is greater.
#[cycle(patterns)]
#[tactic(auto, using(crate::proofs::Capped::zero_is, crate::proofs::Capped::push_deepest))]
pub fn arg_patterns_depth(parts: &[ArgPattern]) -> u32
    ensures { result ≡ capped (deepest (map spec.arg_pattern_depth parts.now)) }
{
    let mut most = 0;
    for part in parts {
        most = greater(most, arg_pattern_depth(part));
    }
    most
}

/// The greatest weight of a path in the parts of a tuple or list of patterns, or 2^32 - 1 where it is greater.
#[cycle(patterns)]
#[tactic(auto, using(crate::proofs::Capped::zero_is, crate::proofs::Capped::push_deepest))]
pub fn pat_parts_depth(parts: &[PatPart]) -> u32
    ensures { result ≡ capped (deepest (map spec.pat_part_depth parts.now)) }
{
    let mut most = 0;
    for part in parts {
        most = greater(most, pattern_depth(&part.part));
    }
    most
}

// Both sides of an operator, each with its first operand and the others.
#[tactic(auto, using(crate::proofs::Capped::two_is, crate::proofs::Capped::capped_adds))]
fn sides_above(left: usize, right: usize, below: u32) -> u32
    ensures { result ≡ capped_sum (capped (2 + left + right)) below }
{
    stacked(stacked(stacked(2, count_of(left)), count_of(right)), below)
}

/// The greatest weight of a path in a function's left side, or 2^32 - 1 where it is greater.
#[tactic(auto, using(crate::proofs::DepthAt::fun_lhs_prefix, crate::proofs::DepthAt::fun_lhs_infix, crate::proofs::DepthAt::fun_lhs_nested))]
pub fn fun_lhs_depth(node: &FunLhs) -> u32
    ensures { result ≡ capped (spec.fun_lhs_depth node.now) }
{
    match node {
        FunLhs::Prefix(_, _, args) => {
            let below = arg_patterns_depth(args.as_slice());
            list_above(args.as_slice().len(), below)
        }
        FunLhs::Infix(_, left, lefts, _, right, rights) => {
            let left = pat_operand_depth(left);
            let lefts_depth = next_patterns_depth(lefts.as_slice());
            let right = pat_operand_depth(right);
            let rights_depth = next_patterns_depth(rights.as_slice());
            let below = greater(left, greater(lefts_depth, greater(right, rights_depth)));
            sides_above(lefts.as_slice().len(), rights.as_slice().len(), below)
        }
        FunLhs::Nested(_, _, inner, _, first, others) => {
            let inner = fun_lhs_depth(inner.get());
            let first = arg_pattern_depth(first.get());
            let rest = arg_patterns_depth(others.as_slice());
            parts_above(
                others.as_slice().len(),
                greater(inner, greater(first, rest)),
            )
        }
    }
}

/// The greatest weight of a path in an expression, or 2^32 - 1 where it is greater.
#[cycle(exps)]
#[tactic(auto, using(crate::proofs::DepthAt::exp_plain, crate::proofs::DepthAt::exp_typed))]
pub fn exp_depth(node: &Exp) -> u32
    ensures { result ≡ capped (spec.exp_depth node.now) }
{
    match node {
        Exp::Plain(operands) => above(operands_depth(operands.get())),
        Exp::Typed(_, operands, _, ty) => {
            let below = operands_depth(operands.get());
            above(greater(below, type_depth(ty.get())))
        }
    }
}

/// The greatest weight of a path in a list of operands, or 2^32 - 1 where it is greater.
#[cycle(exps)]
#[tactic(auto, using(crate::proofs::DepthAt::operands_at))]
pub fn operands_depth(node: &OperandList) -> u32
    ensures { result ≡ capped (spec.operands_depth node.now) }
{
    let first = operand_depth(&node.first);
    let rest = next_operands_depth(node.others.as_slice());
    parts_above(node.others.as_slice().len(), greater(first, rest))
}

/// The greatest weight of a path in an operand, or 2^32 - 1 where it is greater.
#[cycle(exps)]
#[tactic(auto, using(crate::proofs::DepthAt::operand_apply, crate::proofs::DepthAt::operand_case, crate::proofs::DepthAt::operand_open))]
pub fn operand_depth(node: &Operand) -> u32
    ensures { result ≡ capped (spec.operand_depth node.now) }
{
    match node {
        Operand::Apply(_, head, args) => {
            let head = aexp_depth(head.get());
            let rest = aexps_depth(args.as_slice());
            list_above(args.as_slice().len(), greater(head, rest))
        }
        Operand::Case(_, _, exp, _, alts) => {
            let exp = exp_depth(exp);
            above(greater(exp, alts_depth(alts.get())))
        }
        Operand::Open(inner) => above(open_depth(inner.get())),
    }
}

/// The greatest weight of a path in an expression that reaches as far to the right as it can, or 2^32 - 1 where it is
/// greater.
#[cycle(exps)]
#[tactic(auto, using(crate::proofs::DepthAt::open_lambda, crate::proofs::DepthAt::open_let, crate::proofs::DepthAt::open_if))]
pub fn open_depth(node: &Open) -> u32
    ensures { result ≡ capped (spec.open_depth node.now) }
{
    match node {
        Open::Lambda(_, _, first, others, _, body) => {
            let first = arg_pattern_depth(first);
            let rest = arg_patterns_depth(others.as_slice());
            let body = exp_depth(body);
            parts_above(others.as_slice().len(), greater(first, greater(rest, body)))
        }
        Open::Let(_, _, locals, _, body) => {
            let locals = locals_depth(locals);
            above(greater(locals, exp_depth(body)))
        }
        Open::If(_, _, test, _, yes, _, otherwise) => {
            let test = exp_depth(test);
            let yes = exp_depth(yes);
            above(greater(test, greater(yes, exp_depth(otherwise))))
        }
    }
}

/// The greatest weight of a path in local declarations or redefinitions, or 2^32 - 1 where it is greater.
#[cycle(exps)]
#[tactic(auto, using(crate::proofs::DepthAt::locals_decls, crate::proofs::DepthAt::locals_redefs))]
pub fn locals_depth(node: &Locals) -> u32
    ensures { result ≡ capped (spec.locals_depth node.now) }
{
    match node {
        Locals::Decls(block) => above(decls_depth(block.get())),
        Locals::Redefs(block) => redefs_depth(block.get()),
    }
}

/// The greatest weight of a path in a block of redefinitions, or 2^32 - 1 where it is greater.
#[cycle(exps)]
#[tactic(auto, using(crate::proofs::DepthAt::redefs_at))]
pub fn redefs_depth(node: &Redefs) -> u32
    ensures { result ≡ capped (spec.redefs_depth node.now) }
{
    list_above(
        node.redefs.as_slice().len(),
        redef_items_depth(node.redefs.as_slice()),
    )
}

/// The greatest weight of a path in a block of declarations, or 2^32 - 1 where it is greater.
#[cycle(exps)]
#[tactic(auto, using(crate::proofs::DepthAt::decls_at))]
pub fn decls_depth(node: &Decls) -> u32
    ensures { result ≡ capped (spec.decls_depth node.now) }
{
    list_above(
        node.decls.as_slice().len(),
        decl_items_depth(node.decls.as_slice()),
    )
}

/// The greatest weight of a path in a declaration, or 2^32 - 1 where it is greater.
#[cycle(exps)]
#[tactic(auto, using(crate::proofs::DepthAt::decl_signature, crate::proofs::DepthAt::decl_fixity, crate::proofs::DepthAt::decl_function, crate::proofs::DepthAt::decl_pattern))]
pub fn decl_depth(node: &Decl) -> u32
    ensures { result ≡ capped (spec.decl_depth node.now) }
{
    match node {
        Decl::Signature(_, _, _, _, ty) => above(type_depth(ty.get())),
        Decl::Fixity(..) => 2,
        Decl::Function(_, left, right) => {
            let left = fun_lhs_depth(left);
            above(greater(left, rhs_depth(right)))
        }
        Decl::Pattern(_, left, right) => {
            let left = pattern_depth(left);
            above(greater(left, rhs_depth(right)))
        }
    }
}

/// The greatest weight of a path in a right side, or 2^32 - 1 where it is greater.
#[cycle(exps)]
#[tactic(auto, using(crate::proofs::DepthAt::rhs_plain, crate::proofs::DepthAt::rhs_guarded, crate::proofs::DepthAt::guard_at, crate::proofs::DepthAt::where_absent, crate::proofs::DepthAt::where_block))]
pub fn rhs_depth(node: &Rhs) -> u32
    ensures { result ≡ capped (spec.rhs_depth node.now) }
{
    match node {
        Rhs::Plain(_, _, body, wher) => {
            let body = exp_depth(body);
            let locals = match wher {
                Where::Absent => 0,
                Where::Block(_, block) => decls_depth(block.get()),
            };
            above(greater(body, locals))
        }
        Rhs::Guarded(_, first, others, wher) => {
            let first = guard_depth(first);
            let rest = guards_depth(others.as_slice());
            let locals = match wher {
                Where::Absent => 0,
                Where::Block(_, block) => decls_depth(block.get()),
            };
            parts_above(
                others.as_slice().len(),
                greater(first, greater(rest, locals)),
            )
        }
    }
}

/// The greatest weight of a path in a block of alternatives, or 2^32 - 1 where it is greater.
#[cycle(exps)]
#[tactic(auto, using(crate::proofs::DepthAt::alts_at))]
pub fn alts_depth(node: &Alts) -> u32
    ensures { result ≡ capped (spec.alts_depth node.now) }
{
    list_above(
        node.alts.as_slice().len(),
        alt_items_depth(node.alts.as_slice()),
    )
}

/// The greatest weight of a path in an alternative, or 2^32 - 1 where it is greater.
#[cycle(exps)]
#[tactic(auto, using(crate::proofs::DepthAt::alt_plain, crate::proofs::DepthAt::alt_guarded, crate::proofs::DepthAt::alt_guard_at, crate::proofs::DepthAt::where_absent, crate::proofs::DepthAt::where_block))]
pub fn alt_depth(node: &Alt) -> u32
    ensures { result ≡ capped (spec.alt_depth node.now) }
{
    match node {
        Alt::Plain(_, pattern, _, body, wher) => {
            let pattern = pattern_depth(pattern);
            let body = exp_depth(body);
            let locals = match wher {
                Where::Absent => 0,
                Where::Block(_, block) => decls_depth(block.get()),
            };
            above(greater(pattern, greater(body, locals)))
        }
        Alt::Guarded(_, pattern, first, others, wher) => {
            let pattern = pattern_depth(pattern);
            let first = alt_guard_depth(first);
            let rest = alt_guards_depth(others.as_slice());
            let locals = match wher {
                Where::Absent => 0,
                Where::Block(_, block) => decls_depth(block.get()),
            };
            let below = greater(pattern, greater(first, greater(rest, locals)));
            parts_above(others.as_slice().len(), below)
        }
    }
}

/// The greatest weight of a path in an argument of an application, or 2^32 - 1 where it is greater.
#[cycle(exps)]
#[tactic(auto, using(crate::proofs::DepthAt::aexp_var, crate::proofs::DepthAt::aexp_generic, crate::proofs::DepthAt::aexp_con, crate::proofs::DepthAt::aexp_int, crate::proofs::DepthAt::aexp_char, crate::proofs::DepthAt::aexp_str, crate::proofs::DepthAt::aexp_paren, crate::proofs::DepthAt::aexp_tuple, crate::proofs::DepthAt::aexp_list, crate::proofs::DepthAt::aexp_left, crate::proofs::DepthAt::aexp_right))]
pub fn aexp_depth(node: &Aexp) -> u32
    ensures { result ≡ capped (spec.aexp_depth node.now) }
{
    match node {
        Aexp::Var(_) => 1,
        Aexp::Generic(_, _, _, ty, _) => above(type_depth(ty.get())),
        Aexp::Con(_) => 2,
        Aexp::Int(..) => 1,
        Aexp::Char(..) => 1,
        Aexp::Str(..) => 1,
        Aexp::Paren(_, _, inner, _) => above(exp_depth(inner)),
        Aexp::Tuple(_, _, first, others, _) => {
            let first = exp_depth(first);
            let rest = exp_parts_depth(others.as_slice());
            parts_above(others.as_slice().len(), greater(first, rest))
        }
        Aexp::List(_, _, first, others, _) => {
            let first = exp_depth(first);
            let rest = exp_parts_depth(others.as_slice());
            parts_above(others.as_slice().len(), greater(first, rest))
        }
        Aexp::Left(_, _, operands, _, _) => above(operands_depth(operands.get())),
        Aexp::Right(_, _, _, operands, _) => above(operands_depth(operands.get())),
    }
}

/// The greatest weight of a path in the further operands of a list, or 2^32 - 1 where it is greater.
#[cycle(exps)]
#[tactic(auto, using(crate::proofs::Capped::zero_is, crate::proofs::Capped::push_deepest))]
pub fn next_operands_depth(parts: &[NextOperand]) -> u32
    ensures { result ≡ capped (deepest (map spec.next_operand_depth parts.now)) }
{
    let mut most = 0;
    for part in parts {
        most = greater(most, operand_depth(&part.operand));
    }
    most
}

/// The greatest weight of a path in the arguments of an application, or 2^32 - 1 where it is greater.
#[cycle(exps)]
#[tactic(auto, using(crate::proofs::Capped::zero_is, crate::proofs::Capped::push_deepest))]
pub fn aexps_depth(parts: &[Aexp]) -> u32
    ensures { result ≡ capped (deepest (map spec.aexp_depth parts.now)) }
{
    let mut most = 0;
    for part in parts {
        most = greater(most, aexp_depth(part));
    }
    most
}

/// The greatest weight of a path in redefinitions, or 2^32 - 1 where it is greater.
#[cycle(exps)]
#[tactic(auto, using(crate::proofs::Capped::zero_is, crate::proofs::Capped::push_deepest))]
pub fn redef_items_depth(parts: &[RedefItem]) -> u32
    ensures { result ≡ capped (deepest (map spec.redef_item_depth parts.now)) }
{
    let mut most = 0;
    for part in parts {
        most = greater(most, above(exp_depth(&part.redef.body)));
    }
    most
}

/// The greatest weight of a path in declarations, or 2^32 - 1 where it is greater.
#[cycle(exps)]
#[tactic(auto, using(crate::proofs::Capped::zero_is, crate::proofs::Capped::push_deepest))]
pub fn decl_items_depth(parts: &[DeclItem]) -> u32
    ensures { result ≡ capped (deepest (map spec.decl_item_depth parts.now)) }
{
    let mut most = 0;
    for part in parts {
        most = greater(most, decl_depth(&part.decl));
    }
    most
}

/// The greatest weight of a path in alternatives, or 2^32 - 1 where it is greater.
#[cycle(exps)]
#[tactic(auto, using(crate::proofs::Capped::zero_is, crate::proofs::Capped::push_deepest))]
pub fn alt_items_depth(parts: &[AltItem]) -> u32
    ensures { result ≡ capped (deepest (map spec.alt_item_depth parts.now)) }
{
    let mut most = 0;
    for part in parts {
        most = greater(most, alt_depth(&part.alt));
    }
    most
}

/// The greatest weight of a path in guards, or 2^32 - 1 where it is greater.
#[cycle(exps)]
#[tactic(auto, using(crate::proofs::Capped::zero_is, crate::proofs::Capped::push_deepest))]
pub fn guards_depth(parts: &[Guard]) -> u32
    ensures { result ≡ capped (deepest (map spec.guard_depth parts.now)) }
{
    let mut most = 0;
    for part in parts {
        most = greater(most, guard_depth(part));
    }
    most
}

/// The greatest weight of a path in the guards of an alternative, or 2^32 - 1 where it is greater.
#[cycle(exps)]
#[tactic(auto, using(crate::proofs::Capped::zero_is, crate::proofs::Capped::push_deepest))]
pub fn alt_guards_depth(parts: &[AltGuard]) -> u32
    ensures { result ≡ capped (deepest (map spec.alt_guard_depth parts.now)) }
{
    let mut most = 0;
    for part in parts {
        most = greater(most, alt_guard_depth(part));
    }
    most
}

/// The greatest weight of a path in a guard, or 2^32 - 1 where it is greater.
#[cycle(exps)]
#[tactic(auto, using(crate::proofs::DepthAt::guard_at))]
pub fn guard_depth(node: &Guard) -> u32
    ensures { result ≡ capped (spec.guard_depth node.now) }
{
    let test = operands_depth(node.test.get());
    above(greater(test, exp_depth(&node.body)))
}

/// The greatest weight of a path in a guard of an alternative, or 2^32 - 1 where it is greater.
#[cycle(exps)]
#[tactic(auto, using(crate::proofs::DepthAt::alt_guard_at))]
pub fn alt_guard_depth(node: &AltGuard) -> u32
    ensures { result ≡ capped (spec.alt_guard_depth node.now) }
{
    let test = operands_depth(node.test.get());
    above(greater(test, exp_depth(&node.body)))
}

/// The greatest weight of a path in the parts of a tuple or list, or 2^32 - 1 where it is greater.
#[cycle(exps)]
#[tactic(auto, using(crate::proofs::Capped::zero_is, crate::proofs::Capped::push_deepest))]
pub fn exp_parts_depth(parts: &[Part]) -> u32
    ensures { result ≡ capped (deepest (map spec.part_depth parts.now)) }
{
    let mut most = 0;
    for part in parts {
        most = greater(most, exp_depth(&part.exp));
    }
    most
}
