// The names that a declaration binds, and the clause that it is.
ghost use Rattle.std.specs.Prelude.{◌≡◌, ◌++◌, ◌∷◌, [], map};
ghost use Rattle.gh_limits.specs.Bound as spec;
ghost use Rattle.gh_limits.specs.Seen.{keep, keeps};

use arrayvec::ArrayVec;
use gh_tree::{ArgPattern, NextPattern, PatOperand, PatPart, Pattern, Var, VarOp};

/// Different names, of which no more are kept than tell that a limit is passed.
pub type Seen = ArrayVec<u32, 65>;

/// The number of the name of a variable, with or without parentheses.
pub fn var_name(var: &Var) -> u32
    ensures { result ≡ spec.var_name var.now }
{
    match var {
        Var::Word(name) => name.id.0,
        Var::Symbol(_, name, _) => name.id.0,
    }
}

/// The number of the name of a variable that stands as an operator.
pub fn var_op_name(op: &VarOp) -> u32
    ensures { result ≡ spec.var_op_name op.now }
{
    match op {
        VarOp::Symbol(name) => name.id.0,
        VarOp::Quoted(_, name, _) => name.id.0,
    }
}

/// Adds a name that is not among them, while there is room.
pub fn see(seen: &mut Seen, name: u32)
    ensures { seen.new.items ≡ keep seen.old.items name }
{
    if seen.is_full() {
        return;
    }
    if !seen.as_slice().contains(&name) {
        seen.push(name);
    }
}

/// Adds the names that a pattern binds, at every depth.
#[cycle(patterns)]
#[tactic(auto, using(crate::proofs::BoundAt::pattern_at, crate::proofs::Seen::keeps_append))]
pub fn see_pattern(seen: &mut Seen, node: &Pattern)
    ensures { seen.new.items ≡ keeps seen.old.items (spec.pattern_names node.now) }
{
    see_operand(seen, &node.first);
    see_next_patterns(seen, node.others.as_slice());
}

#[cycle(patterns)]
#[tactic(auto, using(crate::proofs::BoundAt::pat_operand_negative, crate::proofs::BoundAt::pat_operand_arg, crate::proofs::BoundAt::pat_operand_con, crate::proofs::Seen::keeps_append))]
fn see_operand(seen: &mut Seen, node: &PatOperand)
    ensures { seen.new.items ≡ keeps seen.old.items (spec.pat_operand_names node.now) }
{
    match node {
        PatOperand::Negative(..) => {}
        PatOperand::Arg(inner) => see_arg_pattern(seen, inner.get()),
        PatOperand::Con(_, _, first, others) => {
            see_arg_pattern(seen, first.get());
            see_arg_patterns(seen, others.as_slice());
        }
    }
}

#[cycle(patterns)]
#[tactic(auto, using(crate::proofs::BoundAt::arg_pattern_var, crate::proofs::BoundAt::arg_pattern_as, crate::proofs::BoundAt::arg_pattern_wild, crate::proofs::BoundAt::arg_pattern_con, crate::proofs::BoundAt::arg_pattern_int, crate::proofs::BoundAt::arg_pattern_char, crate::proofs::BoundAt::arg_pattern_str, crate::proofs::BoundAt::arg_pattern_paren, crate::proofs::BoundAt::arg_pattern_tuple, crate::proofs::BoundAt::arg_pattern_list, crate::proofs::Seen::keeps_append))]
fn see_arg_pattern(seen: &mut Seen, node: &ArgPattern)
    ensures { seen.new.items ≡ keeps seen.old.items (spec.arg_pattern_names node.now) }
{
    match node {
        ArgPattern::Var(var) => see(seen, var_name(var)),
        ArgPattern::As(_, var, _, inner) => {
            see(seen, var_name(var));
            see_arg_pattern(seen, inner.get());
        }
        ArgPattern::Wild(_) => {}
        ArgPattern::Con(_) => {}
        ArgPattern::Int(..) => {}
        ArgPattern::Char(..) => {}
        ArgPattern::Str(..) => {}
        ArgPattern::Paren(_, _, inner, _) => see_pattern(seen, inner.get()),
        ArgPattern::Tuple(_, _, first, others, _) => {
            see_pattern(seen, first.get());
            see_parts(seen, others.as_slice());
        }
        ArgPattern::List(_, _, first, others, _) => {
            see_pattern(seen, first.get());
            see_parts(seen, others.as_slice());
        }
    }
}

#[cycle(patterns)]
fn see_next_patterns(seen: &mut Seen, parts: &[NextPattern])
    ensures { seen.new.items ≡ keeps seen.old.items (spec.joined (map spec.next_pattern_names parts.now)) }
{
    for part in parts {
        see_operand(seen, &part.operand);
    }
}

#[cycle(patterns)]
fn see_arg_patterns(seen: &mut Seen, parts: &[ArgPattern])
    ensures { seen.new.items ≡ keeps seen.old.items (spec.joined (map spec.arg_pattern_names parts.now)) }
{
    for part in parts {
        see_arg_pattern(seen, part);
    }
}

#[cycle(patterns)]
fn see_parts(seen: &mut Seen, parts: &[PatPart])
    ensures { seen.new.items ≡ keeps seen.old.items (spec.joined (map spec.pat_part_names parts.now)) }
{
    for part in parts {
        see_pattern(seen, &part.part);
    }
}
