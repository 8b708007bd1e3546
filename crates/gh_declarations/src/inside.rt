// Where the rules on declarations fail inside expressions and declarations.
ghost use Rattle.std.specs.Prelude.{◌≡◌, ◌++◌, OnOk};
ghost use Rattle.std.specs.List.{flat_map};
ghost use Rattle.gh_declarations.specs.Inside as spec;
ghost use Rattle.gh_declarations.specs.Lists as lists;
ghost use Rattle.gh_declarations.specs.Patterns as patterns;

use crate::declared::add_items;
use crate::lists::{add_list_failures, add_second_times};
use crate::named::{Failure, Rule};
use crate::patterns::{add_arg_pattern, add_arg_patterns, add_left, add_pattern};
use gh_base::{ListOf, NoMemory};
use gh_tree::{
    Aexp, Alt, AltGuard, AltItem, Alts, ArgPattern, Decl, DeclItem, Decls, Exp, FunLhs, Guard,
    Locals, NextOperand, Open, Operand, OperandList, Part, Pattern, RedefItem, Redefs, Rhs, Where,
};
use std::alloc::Global;

fn add_left_repeated(
    alloc: Global,
    failures: &mut ListOf<Failure>,
    left: &FunLhs,
) -> Result<(), NoMemory>
    ensures { OnOk result (failures.new ≡ failures.old ++ lists.repeated (patterns.left_variables left.now)) }
{
    let mut names = ListOf::new(alloc);
    add_left(&mut names, left)?;
    add_second_times(alloc, failures, Rule::Repeated, names.as_slice())?;
    Ok(())
}

fn add_pattern_repeated(
    alloc: Global,
    failures: &mut ListOf<Failure>,
    pattern: &Pattern,
) -> Result<(), NoMemory>
    ensures { OnOk result (failures.new ≡ failures.old ++ lists.repeated (patterns.pattern_variables pattern.now)) }
{
    let mut names = ListOf::new(alloc);
    add_pattern(&mut names, pattern)?;
    add_second_times(alloc, failures, Rule::Repeated, names.as_slice())?;
    Ok(())
}

fn add_lambda_repeated(
    alloc: Global,
    failures: &mut ListOf<Failure>,
    first: &ArgPattern,
    others: &[ArgPattern],
) -> Result<(), NoMemory>
    ensures { OnOk result (failures.new ≡ failures.old ++ lists.repeated (spec.lambda_variables first.now others.now)) }
{
    let mut names = ListOf::new(alloc);
    add_arg_pattern(&mut names, first)?;
    add_arg_patterns(&mut names, others)?;
    add_second_times(alloc, failures, Rule::Repeated, names.as_slice())?;
    Ok(())
}

/// Adds the failures of the rule on the arguments of a case of a generic function.
pub fn add_arguments_repeated(
    alloc: Global,
    failures: &mut ListOf<Failure>,
    args: &[ArgPattern],
) -> Result<(), NoMemory>
    ensures { OnOk result (failures.new ≡ failures.old ++ lists.repeated (flat_map patterns.arg_pattern_variables args.now)) }
{
    let mut names = ListOf::new(alloc);
    add_arg_patterns(&mut names, args)?;
    add_second_times(alloc, failures, Rule::Repeated, names.as_slice())?;
    Ok(())
}

fn add_own_decls(
    alloc: Global,
    failures: &mut ListOf<Failure>,
    decls: &[DeclItem],
) -> Result<(), NoMemory>
    ensures { OnOk result (failures.new ≡ failures.old ++ lists.list_failures (flat_map spec.declared_at decls.now)) }
{
    let mut list = ListOf::new(alloc);
    add_items(alloc, &mut list, decls)?;
    add_list_failures(alloc, failures, list.as_slice())?;
    Ok(())
}

#[cycle(exps)]
#[tactic(auto, using(crate::proofs::InsideAt::exp_plain, crate::proofs::InsideAt::exp_typed, std::proofs::Common::append_assoc))]
fn add_exp(alloc: Global, failures: &mut ListOf<Failure>, node: &Exp) -> Result<(), NoMemory>
    ensures { OnOk result (failures.new ≡ failures.old ++ spec.exp_failures node.now) }
{
    match node {
        Exp::Plain(operands) => {
            add_operands(alloc, failures, operands.get())?;
            Ok(())
        }
        Exp::Typed(_, operands, _, _) => {
            add_operands(alloc, failures, operands.get())?;
            Ok(())
        }
    }
}

#[cycle(exps)]
#[tactic(auto, using(crate::proofs::InsideAt::operands_at, std::proofs::Common::append_assoc))]
fn add_operands(
    alloc: Global,
    failures: &mut ListOf<Failure>,
    node: &OperandList,
) -> Result<(), NoMemory>
    ensures { OnOk result (failures.new ≡ failures.old ++ spec.operands_failures node.now) }
{
    add_operand(alloc, failures, &node.first)?;
    add_next_operands(alloc, failures, node.others.as_slice())?;
    Ok(())
}

#[cycle(exps)]
#[tactic(auto, using(crate::proofs::InsideAt::operand_apply, crate::proofs::InsideAt::operand_case, crate::proofs::InsideAt::operand_open, std::proofs::Common::append_assoc))]
fn add_operand(
    alloc: Global,
    failures: &mut ListOf<Failure>,
    node: &Operand,
) -> Result<(), NoMemory>
    ensures { OnOk result (failures.new ≡ failures.old ++ spec.operand_failures node.now) }
{
    match node {
        Operand::Apply(_, head, args) => {
            add_aexp(alloc, failures, head.get())?;
            add_aexps(alloc, failures, args.as_slice())?;
            Ok(())
        }
        Operand::Case(_, _, exp, _, alts) => {
            add_exp(alloc, failures, exp)?;
            add_alts(alloc, failures, alts.get())?;
            Ok(())
        }
        Operand::Open(inner) => {
            add_open(alloc, failures, inner.get())?;
            Ok(())
        }
    }
}

#[cycle(exps)]
#[tactic(auto, using(crate::proofs::InsideAt::open_lambda, crate::proofs::InsideAt::open_let, crate::proofs::InsideAt::open_if, std::proofs::Common::append_assoc))]
fn add_open(alloc: Global, failures: &mut ListOf<Failure>, node: &Open) -> Result<(), NoMemory>
    ensures { OnOk result (failures.new ≡ failures.old ++ spec.open_failures node.now) }
{
    match node {
        Open::Lambda(_, _, first, others, _, body) => {
            add_lambda_repeated(alloc, failures, first, others.as_slice())?;
            add_exp(alloc, failures, body)?;
            Ok(())
        }
        Open::Let(_, _, locals, _, body) => {
            add_locals(alloc, failures, locals)?;
            add_exp(alloc, failures, body)?;
            Ok(())
        }
        Open::If(_, _, test, _, yes, _, otherwise) => {
            add_exp(alloc, failures, test)?;
            add_exp(alloc, failures, yes)?;
            add_exp(alloc, failures, otherwise)?;
            Ok(())
        }
    }
}

#[cycle(exps)]
#[tactic(auto, using(crate::proofs::InsideAt::locals_decls, crate::proofs::InsideAt::locals_redefs, std::proofs::Common::append_assoc))]
fn add_locals(alloc: Global, failures: &mut ListOf<Failure>, node: &Locals) -> Result<(), NoMemory>
    ensures { OnOk result (failures.new ≡ failures.old ++ spec.locals_failures node.now) }
{
    match node {
        Locals::Decls(inner) => {
            add_decls(alloc, failures, inner.get())?;
            Ok(())
        }
        Locals::Redefs(inner) => {
            add_redefs(alloc, failures, inner.get())?;
            Ok(())
        }
    }
}

#[cycle(exps)]
#[tactic(auto, using(crate::proofs::InsideAt::redefs_at, std::proofs::Common::append_assoc))]
fn add_redefs(alloc: Global, failures: &mut ListOf<Failure>, node: &Redefs) -> Result<(), NoMemory>
    ensures { OnOk result (failures.new ≡ failures.old ++ spec.redefs_failures node.now) }
{
    add_redef_items(alloc, failures, node.redefs.as_slice())?;
    Ok(())
}

#[cycle(exps)]
#[tactic(auto, using(crate::proofs::InsideAt::decls_at, std::proofs::Common::append_assoc))]
fn add_decls(alloc: Global, failures: &mut ListOf<Failure>, node: &Decls) -> Result<(), NoMemory>
    ensures { OnOk result (failures.new ≡ failures.old ++ spec.decls_failures node.now) }
{
    add_own_decls(alloc, failures, node.decls.as_slice())?;
    add_decl_items(alloc, failures, node.decls.as_slice())?;
    Ok(())
}

/// Adds where the rules fail inside a declaration.
#[cycle(exps)]
#[tactic(auto, using(crate::proofs::InsideAt::inside_signature, crate::proofs::InsideAt::inside_fixity, crate::proofs::InsideAt::inside_function, crate::proofs::InsideAt::inside_pattern, std::proofs::Common::append_assoc))]
pub fn add_decl(alloc: Global, failures: &mut ListOf<Failure>, node: &Decl) -> Result<(), NoMemory>
    ensures { OnOk result (failures.new ≡ failures.old ++ (spec.decl_found node.now).inside) }
{
    match node {
        Decl::Signature(..) => Ok(()),
        Decl::Fixity(..) => Ok(()),
        Decl::Function(_, left, right) => {
            add_left_repeated(alloc, failures, left)?;
            add_rhs(alloc, failures, right)?;
            Ok(())
        }
        Decl::Pattern(_, _, right) => {
            add_rhs(alloc, failures, right)?;
            Ok(())
        }
    }
}

/// Adds where the rules fail inside a right side.
#[cycle(exps)]
#[tactic(auto, using(crate::proofs::InsideAt::rhs_plain, crate::proofs::InsideAt::rhs_guarded, std::proofs::Common::append_assoc))]
pub fn add_rhs(alloc: Global, failures: &mut ListOf<Failure>, node: &Rhs) -> Result<(), NoMemory>
    ensures { OnOk result (failures.new ≡ failures.old ++ spec.rhs_failures node.now) }
{
    match node {
        Rhs::Plain(_, _, body, locals) => {
            add_exp(alloc, failures, body)?;
            add_where(alloc, failures, locals)?;
            Ok(())
        }
        Rhs::Guarded(_, first, others, locals) => {
            add_guard(alloc, failures, first)?;
            add_guards(alloc, failures, others.as_slice())?;
            add_where(alloc, failures, locals)?;
            Ok(())
        }
    }
}

#[cycle(exps)]
#[tactic(auto, using(crate::proofs::InsideAt::where_absent, crate::proofs::InsideAt::where_block, std::proofs::Common::append_assoc))]
fn add_where(alloc: Global, failures: &mut ListOf<Failure>, node: &Where) -> Result<(), NoMemory>
    ensures { OnOk result (failures.new ≡ failures.old ++ spec.where_failures node.now) }
{
    match node {
        Where::Absent => Ok(()),
        Where::Block(_, inner) => {
            add_decls(alloc, failures, inner.get())?;
            Ok(())
        }
    }
}

#[cycle(exps)]
#[tactic(auto, using(crate::proofs::InsideAt::alts_at, std::proofs::Common::append_assoc))]
fn add_alts(alloc: Global, failures: &mut ListOf<Failure>, node: &Alts) -> Result<(), NoMemory>
    ensures { OnOk result (failures.new ≡ failures.old ++ spec.alts_failures node.now) }
{
    add_alt_items(alloc, failures, node.alts.as_slice())?;
    Ok(())
}

#[cycle(exps)]
#[tactic(auto, using(crate::proofs::InsideAt::alt_plain, crate::proofs::InsideAt::alt_guarded, std::proofs::Common::append_assoc))]
fn add_alt(alloc: Global, failures: &mut ListOf<Failure>, node: &Alt) -> Result<(), NoMemory>
    ensures { OnOk result (failures.new ≡ failures.old ++ spec.alt_failures node.now) }
{
    match node {
        Alt::Plain(_, pattern, _, body, locals) => {
            add_pattern_repeated(alloc, failures, pattern)?;
            add_exp(alloc, failures, body)?;
            add_where(alloc, failures, locals)?;
            Ok(())
        }
        Alt::Guarded(_, pattern, first, others, locals) => {
            add_pattern_repeated(alloc, failures, pattern)?;
            add_alt_guard(alloc, failures, first)?;
            add_alt_guards(alloc, failures, others.as_slice())?;
            add_where(alloc, failures, locals)?;
            Ok(())
        }
    }
}

#[cycle(exps)]
#[tactic(auto, using(crate::proofs::InsideAt::guard_at, std::proofs::Common::append_assoc))]
fn add_guard(alloc: Global, failures: &mut ListOf<Failure>, node: &Guard) -> Result<(), NoMemory>
    ensures { OnOk result (failures.new ≡ failures.old ++ spec.guard_failures node.now) }
{
    add_operands(alloc, failures, node.test.get())?;
    add_exp(alloc, failures, &node.body)?;
    Ok(())
}

#[cycle(exps)]
#[tactic(auto, using(crate::proofs::InsideAt::alt_guard_at, std::proofs::Common::append_assoc))]
fn add_alt_guard(
    alloc: Global,
    failures: &mut ListOf<Failure>,
    node: &AltGuard,
) -> Result<(), NoMemory>
    ensures { OnOk result (failures.new ≡ failures.old ++ spec.alt_guard_failures node.now) }
{
    add_operands(alloc, failures, node.test.get())?;
    add_exp(alloc, failures, &node.body)?;
    Ok(())
}

#[cycle(exps)]
#[tactic(auto, using(crate::proofs::InsideAt::aexp_var, crate::proofs::InsideAt::aexp_generic, crate::proofs::InsideAt::aexp_con, crate::proofs::InsideAt::aexp_int, crate::proofs::InsideAt::aexp_char, crate::proofs::InsideAt::aexp_str, crate::proofs::InsideAt::aexp_paren, crate::proofs::InsideAt::aexp_tuple, crate::proofs::InsideAt::aexp_list, crate::proofs::InsideAt::aexp_left, crate::proofs::InsideAt::aexp_right, std::proofs::Common::append_assoc))]
fn add_aexp(alloc: Global, failures: &mut ListOf<Failure>, node: &Aexp) -> Result<(), NoMemory>
    ensures { OnOk result (failures.new ≡ failures.old ++ spec.aexp_failures node.now) }
{
    match node {
        Aexp::Var(_) => Ok(()),
        Aexp::Generic(..) => Ok(()),
        Aexp::Con(_) => Ok(()),
        Aexp::Int(..) => Ok(()),
        Aexp::Char(..) => Ok(()),
        Aexp::Str(..) => Ok(()),
        Aexp::Paren(_, _, inner, _) => {
            add_exp(alloc, failures, inner)?;
            Ok(())
        }
        Aexp::Tuple(_, _, first, others, _) => {
            add_exp(alloc, failures, first)?;
            add_exp_parts(alloc, failures, others.as_slice())?;
            Ok(())
        }
        Aexp::List(_, _, first, others, _) => {
            add_exp(alloc, failures, first)?;
            add_exp_parts(alloc, failures, others.as_slice())?;
            Ok(())
        }
        Aexp::Left(_, _, operands, _, _) => {
            add_operands(alloc, failures, operands.get())?;
            Ok(())
        }
        Aexp::Right(_, _, _, operands, _) => {
            add_operands(alloc, failures, operands.get())?;
            Ok(())
        }
    }
}

#[cycle(exps)]
#[tactic(auto, using(std::proofs::lemmas::List::flat_map_more))]
fn add_next_operands(
    alloc: Global,
    failures: &mut ListOf<Failure>,
    parts: &[NextOperand],
) -> Result<(), NoMemory>
    ensures { OnOk result (failures.new ≡ failures.old ++ flat_map spec.next_operand_failures parts.now) }
{
    for part in parts {
        add_operand(alloc, failures, &part.operand)?;
    }
    Ok(())
}

#[cycle(exps)]
#[tactic(auto, using(std::proofs::lemmas::List::flat_map_more))]
fn add_aexps(alloc: Global, failures: &mut ListOf<Failure>, parts: &[Aexp]) -> Result<(), NoMemory>
    ensures { OnOk result (failures.new ≡ failures.old ++ flat_map spec.aexp_failures parts.now) }
{
    for part in parts {
        add_aexp(alloc, failures, part)?;
    }
    Ok(())
}

#[cycle(exps)]
#[tactic(auto, using(std::proofs::lemmas::List::flat_map_more))]
fn add_redef_items(
    alloc: Global,
    failures: &mut ListOf<Failure>,
    parts: &[RedefItem],
) -> Result<(), NoMemory>
    ensures { OnOk result (failures.new ≡ failures.old ++ flat_map spec.redef_item_failures parts.now) }
{
    for part in parts {
        add_exp(alloc, failures, &part.redef.body)?;
    }
    Ok(())
}

#[cycle(exps)]
#[tactic(auto, using(std::proofs::lemmas::List::flat_map_more))]
fn add_decl_items(
    alloc: Global,
    failures: &mut ListOf<Failure>,
    parts: &[DeclItem],
) -> Result<(), NoMemory>
    ensures { OnOk result (failures.new ≡ failures.old ++ flat_map spec.inside_at parts.now) }
{
    for part in parts {
        add_decl(alloc, failures, &part.decl)?;
    }
    Ok(())
}

#[cycle(exps)]
#[tactic(auto, using(std::proofs::lemmas::List::flat_map_more))]
fn add_alt_items(
    alloc: Global,
    failures: &mut ListOf<Failure>,
    parts: &[AltItem],
) -> Result<(), NoMemory>
    ensures { OnOk result (failures.new ≡ failures.old ++ flat_map spec.alt_item_failures parts.now) }
{
    for part in parts {
        add_alt(alloc, failures, &part.alt)?;
    }
    Ok(())
}

#[cycle(exps)]
#[tactic(auto, using(std::proofs::lemmas::List::flat_map_more))]
fn add_guards(
    alloc: Global,
    failures: &mut ListOf<Failure>,
    parts: &[Guard],
) -> Result<(), NoMemory>
    ensures { OnOk result (failures.new ≡ failures.old ++ flat_map spec.guard_failures parts.now) }
{
    for part in parts {
        add_guard(alloc, failures, part)?;
    }
    Ok(())
}

#[cycle(exps)]
#[tactic(auto, using(std::proofs::lemmas::List::flat_map_more))]
fn add_alt_guards(
    alloc: Global,
    failures: &mut ListOf<Failure>,
    parts: &[AltGuard],
) -> Result<(), NoMemory>
    ensures { OnOk result (failures.new ≡ failures.old ++ flat_map spec.alt_guard_failures parts.now) }
{
    for part in parts {
        add_alt_guard(alloc, failures, part)?;
    }
    Ok(())
}

#[cycle(exps)]
#[tactic(auto, using(std::proofs::lemmas::List::flat_map_more))]
fn add_exp_parts(
    alloc: Global,
    failures: &mut ListOf<Failure>,
    parts: &[Part],
) -> Result<(), NoMemory>
    ensures { OnOk result (failures.new ≡ failures.old ++ flat_map spec.part_failures parts.now) }
{
    for part in parts {
        add_exp(alloc, failures, &part.exp)?;
    }
    Ok(())
}
