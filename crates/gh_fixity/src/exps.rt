// Expressions and declarations, arranged.
ghost use Rattle.std.specs.Prelude.{◌≡◌, ◌∷◌, ◌++◌, [], map, IfOk, OnOk};
ghost use Rattle.gh_fixity.specs.declared.part.Part.TheVariants as part_spec;
ghost use Rattle.gh_fixity.specs.Exps as spec;
ghost use Rattle.gh_fixity.specs.Exps.{signed};
ghost use Rattle.gh_fixity.specs.Finish.{finished as finished_out};
ghost use Rattle.gh_fixity.specs.Walks.{all_clashes, all_trees, least, trees, walks};

use crate::finish::{State, left_section, plain, right_section};
use crate::part::Part;
use crate::patterns::{arg_patterns, fun_lhs, pattern};
use crate::scope::{enter, enter_locals, leave};
use crate::tops::Tops;
use crate::walked::Walked;
use gh_base::{NoMemory, Span};
use gh_program::{
    Aexp, Alt, Decl, Exp, Guard, Locals, NextOperand, Occurrence, Open, Operand, Operands, Redef,
    Rhs, backwards,
};
use sqlite_items::{Boxed, Items};
use std::alloc::Global;

// Each function goes down at most so many levels as `depth` says, and answers `NoMemory` below. No program that is kept in
// memory has so many.

#[cycle(exps)]
fn walked(
    alloc: Global,
    tops: &Tops,
    state: &mut State,
    depth: u32,
    node: Boxed<Operands>,
) -> Result<Walked, NoMemory>
    ensures value { IfOk result (λ found. found ≡ (spec.operands_out tops.now node state.old.locals).tree) }
    ensures found { OnOk result (state.new.found ≡ least state.old.found ((spec.operands_out tops.now node state.old.locals).clashes)) }
    ensures scope { OnOk result (state.new.locals ≡ state.old.locals) }
{
    if depth == 0 {
        return Err(NoMemory);
    }
    operands_walked(alloc, tops, state, depth - 1, node.into_inner())
}

#[cycle(exps)]
#[tactic(auto, using(crate::proofs::Loops::least_append))]
fn finished(
    alloc: Global,
    tops: &Tops,
    state: &mut State,
    depth: u32,
    node: Boxed<Operands>,
) -> Result<Boxed<Operands>, NoMemory>
    ensures value { IfOk result (λ found. found ≡ (finished_out tops.now (spec.operands_out tops.now node) state.old.locals).tree) }
    ensures found { OnOk result (state.new.found ≡ least state.old.found ((finished_out tops.now (spec.operands_out tops.now node) state.old.locals).clashes)) }
    ensures scope { OnOk result (state.new.locals ≡ state.old.locals) }
{
    let parts = walked(alloc, tops, state, depth, node)?;
    plain(alloc, tops, state, parts)
}

#[cycle(exps)]
#[tactic(auto, using(crate::proofs::ExpsAt::exp_plain_tree, crate::proofs::ExpsAt::exp_plain_clashes, crate::proofs::ExpsAt::exp_typed_tree, crate::proofs::ExpsAt::exp_typed_clashes, crate::proofs::Loops::least_append))]
fn exp(
    alloc: Global,
    tops: &Tops,
    state: &mut State,
    depth: u32,
    node: Exp,
) -> Result<Exp, NoMemory>
    ensures value { IfOk result (λ found. found ≡ (spec.exp_out tops.now node state.old.locals).tree) }
    ensures found { OnOk result (state.new.found ≡ least state.old.found ((spec.exp_out tops.now node state.old.locals).clashes)) }
    ensures scope { OnOk result (state.new.locals ≡ state.old.locals) }
{
    match node {
        Exp::Plain(inner) => {
            let inner = finished(alloc, tops, state, depth, inner)?;
            Ok(Exp::Plain(inner))
        }
        Exp::Typed(span, inner, ty) => {
            let inner = finished(alloc, tops, state, depth, inner)?;
            Ok(Exp::Typed(span, inner, ty))
        }
    }
}

#[cycle(exps)]
fn exps(
    alloc: Global,
    tops: &Tops,
    state: &mut State,
    depth: u32,
    node: Items<Exp>,
) -> Result<Items<Exp>, NoMemory>
    ensures value { IfOk result (λ found. found ≡ trees state.old.locals (map (spec.exp_out tops.now) node)) }
    ensures found { OnOk result (state.new.found ≡ least state.old.found (all_clashes state.old.locals (map (spec.exp_out tops.now) node))) }
    ensures scope { OnOk result (state.new.locals ≡ state.old.locals) }
{
    let mut waiting = backwards(alloc, node)?;
    let mut done = Items::new(alloc);
    while let Some(part) = waiting.pop() {
        let arranged = exp(alloc, tops, state, depth, part)?;
        done.push(arranged)?;
    }
    Ok(done)
}

#[cycle(exps)]
#[tactic(auto, using(crate::proofs::ExpsAt::aexp_var_tree, crate::proofs::ExpsAt::aexp_var_clashes, crate::proofs::ExpsAt::aexp_generic_tree, crate::proofs::ExpsAt::aexp_generic_clashes, crate::proofs::ExpsAt::aexp_con_tree, crate::proofs::ExpsAt::aexp_con_clashes, crate::proofs::ExpsAt::aexp_int_tree, crate::proofs::ExpsAt::aexp_int_clashes, crate::proofs::ExpsAt::aexp_char_tree, crate::proofs::ExpsAt::aexp_char_clashes, crate::proofs::ExpsAt::aexp_str_tree, crate::proofs::ExpsAt::aexp_str_clashes, crate::proofs::ExpsAt::aexp_paren_tree, crate::proofs::ExpsAt::aexp_paren_clashes, crate::proofs::ExpsAt::aexp_tuple_tree, crate::proofs::ExpsAt::aexp_tuple_clashes, crate::proofs::ExpsAt::aexp_list_tree, crate::proofs::ExpsAt::aexp_list_clashes, crate::proofs::ExpsAt::aexp_left_tree, crate::proofs::ExpsAt::aexp_left_clashes, crate::proofs::ExpsAt::aexp_right_tree, crate::proofs::ExpsAt::aexp_right_clashes, crate::proofs::Loops::least_append))]
fn aexp(
    alloc: Global,
    tops: &Tops,
    state: &mut State,
    depth: u32,
    node: Aexp,
) -> Result<Aexp, NoMemory>
    ensures value { IfOk result (λ found. found ≡ (spec.aexp_out tops.now node state.old.locals).tree) }
    ensures found { OnOk result (state.new.found ≡ least state.old.found ((spec.aexp_out tops.now node state.old.locals).clashes)) }
    ensures scope { OnOk result (state.new.locals ≡ state.old.locals) }
{
    match node {
        Aexp::Paren(span, inner) => {
            let inner = exp(alloc, tops, state, depth, inner)?;
            Ok(Aexp::Paren(span, inner))
        }
        Aexp::Tuple(span, parts) => {
            let parts = exps(alloc, tops, state, depth, parts)?;
            Ok(Aexp::Tuple(span, parts))
        }
        Aexp::List(span, parts) => {
            let parts = exps(alloc, tops, state, depth, parts)?;
            Ok(Aexp::List(span, parts))
        }
        Aexp::Left(span, inner, op) => {
            let parts = walked(alloc, tops, state, depth, inner)?;
            let inner = left_section(alloc, tops, state, parts, op)?;
            Ok(Aexp::Left(span, inner, op))
        }
        Aexp::Right(span, op, inner) => {
            let parts = walked(alloc, tops, state, depth, inner)?;
            let inner = right_section(alloc, tops, state, op, parts)?;
            Ok(Aexp::Right(span, op, inner))
        }
        Aexp::Var(name) => Ok(Aexp::Var(name)),
        Aexp::Generic(span, name, ty) => Ok(Aexp::Generic(span, name, ty)),
        Aexp::Con(con) => Ok(Aexp::Con(con)),
        Aexp::Int(span, value) => Ok(Aexp::Int(span, value)),
        Aexp::Char(span, value) => Ok(Aexp::Char(span, value)),
        Aexp::Str(span, text) => Ok(Aexp::Str(span, text)),
    }
}

#[cycle(exps)]
fn aexps(
    alloc: Global,
    tops: &Tops,
    state: &mut State,
    depth: u32,
    node: Items<Aexp>,
) -> Result<Items<Aexp>, NoMemory>
    ensures value { IfOk result (λ found. found ≡ trees state.old.locals (map (spec.aexp_out tops.now) node)) }
    ensures found { OnOk result (state.new.found ≡ least state.old.found (all_clashes state.old.locals (map (spec.aexp_out tops.now) node))) }
    ensures scope { OnOk result (state.new.locals ≡ state.old.locals) }
{
    let mut waiting = backwards(alloc, node)?;
    let mut done = Items::new(alloc);
    while let Some(part) = waiting.pop() {
        let arranged = aexp(alloc, tops, state, depth, part)?;
        done.push(arranged)?;
    }
    Ok(done)
}

#[cycle(exps)]
#[tactic(auto, using(crate::proofs::ExpsAt::guard_at_tree, crate::proofs::ExpsAt::guard_at_clashes, crate::proofs::Loops::least_append))]
fn guard(
    alloc: Global,
    tops: &Tops,
    state: &mut State,
    depth: u32,
    node: Guard,
) -> Result<Guard, NoMemory>
    ensures value { IfOk result (λ found. found ≡ (spec.guard_out tops.now node state.old.locals).tree) }
    ensures found { OnOk result (state.new.found ≡ least state.old.found ((spec.guard_out tops.now node state.old.locals).clashes)) }
    ensures scope { OnOk result (state.new.locals ≡ state.old.locals) }
{
    let Guard { span, test, body } = node;
    let test = finished(alloc, tops, state, depth, test)?;
    let body = exp(alloc, tops, state, depth, body)?;
    Ok(Guard { span, test, body })
}

#[cycle(exps)]
fn guards(
    alloc: Global,
    tops: &Tops,
    state: &mut State,
    depth: u32,
    node: Items<Guard>,
) -> Result<Items<Guard>, NoMemory>
    ensures value { IfOk result (λ found. found ≡ trees state.old.locals (map (spec.guard_out tops.now) node)) }
    ensures found { OnOk result (state.new.found ≡ least state.old.found (all_clashes state.old.locals (map (spec.guard_out tops.now) node))) }
    ensures scope { OnOk result (state.new.locals ≡ state.old.locals) }
{
    let mut waiting = backwards(alloc, node)?;
    let mut done = Items::new(alloc);
    while let Some(part) = waiting.pop() {
        let arranged = guard(alloc, tops, state, depth, part)?;
        done.push(arranged)?;
    }
    Ok(done)
}

#[cycle(exps)]
#[tactic(auto, using(crate::proofs::ExpsAt::redef_at_tree, crate::proofs::ExpsAt::redef_at_clashes, crate::proofs::Loops::least_append))]
fn redef(
    alloc: Global,
    tops: &Tops,
    state: &mut State,
    depth: u32,
    node: Redef,
) -> Result<Redef, NoMemory>
    ensures value { IfOk result (λ found. found ≡ (spec.redef_out tops.now node state.old.locals).tree) }
    ensures found { OnOk result (state.new.found ≡ least state.old.found ((spec.redef_out tops.now node state.old.locals).clashes)) }
    ensures scope { OnOk result (state.new.locals ≡ state.old.locals) }
{
    let Redef {
        span,
        function,
        variable,
        body,
    } = node;
    let body = exp(alloc, tops, state, depth, body)?;
    Ok(Redef {
        span,
        function,
        variable,
        body,
    })
}

#[cycle(exps)]
fn redefs(
    alloc: Global,
    tops: &Tops,
    state: &mut State,
    depth: u32,
    node: Items<Redef>,
) -> Result<Items<Redef>, NoMemory>
    ensures value { IfOk result (λ found. found ≡ trees state.old.locals (map (spec.redef_out tops.now) node)) }
    ensures found { OnOk result (state.new.found ≡ least state.old.found (all_clashes state.old.locals (map (spec.redef_out tops.now) node))) }
    ensures scope { OnOk result (state.new.locals ≡ state.old.locals) }
{
    let mut waiting = backwards(alloc, node)?;
    let mut done = Items::new(alloc);
    while let Some(part) = waiting.pop() {
        let arranged = redef(alloc, tops, state, depth, part)?;
        done.push(arranged)?;
    }
    Ok(done)
}

// Declarations whose fixities have been added.
#[cycle(exps)]
fn decls(
    alloc: Global,
    tops: &Tops,
    state: &mut State,
    depth: u32,
    node: Items<Decl>,
) -> Result<Items<Decl>, NoMemory>
    ensures value { IfOk result (λ found. found ≡ trees state.old.locals (walks (map (spec.decl_out tops.now) node))) }
    ensures found { OnOk result (state.new.found ≡ least state.old.found (all_clashes state.old.locals (walks (map (spec.decl_out tops.now) node)))) }
    ensures scope { OnOk result (state.new.locals ≡ state.old.locals) }
{
    if depth == 0 {
        return Err(NoMemory);
    }
    let mut waiting = backwards(alloc, node)?;
    let mut done = Items::new(alloc);
    while let Some(part) = waiting.pop() {
        let arranged = decl(alloc, tops, state, depth - 1, part)?;
        done.push(arranged)?;
    }
    Ok(done)
}

/// The declaration with its operator lists arranged.
#[cycle(exps)]
#[tactic(auto, using(crate::proofs::ExpsAt::decl_signature_tree, crate::proofs::ExpsAt::decl_signature_clashes, crate::proofs::ExpsAt::decl_fixity_tree, crate::proofs::ExpsAt::decl_fixity_clashes, crate::proofs::ExpsAt::decl_function_tree, crate::proofs::ExpsAt::decl_function_clashes, crate::proofs::ExpsAt::decl_pattern_tree, crate::proofs::ExpsAt::decl_pattern_clashes, crate::proofs::Loops::least_append))]
pub fn decl(
    alloc: Global,
    tops: &Tops,
    state: &mut State,
    depth: u32,
    node: Decl,
) -> Result<Decl, NoMemory>
    ensures value { IfOk result (λ found. found ≡ ((spec.decl_out tops.now node).walk state.old.locals).tree) }
    ensures found { OnOk result (state.new.found ≡ least state.old.found (((spec.decl_out tops.now node).walk state.old.locals).clashes)) }
    ensures scope { OnOk result (state.new.locals ≡ state.old.locals) }
{
    match node {
        Decl::Function(span, left, right) => {
            let left = fun_lhs(alloc, tops, state, depth, left)?;
            let right = rhs(alloc, tops, state, depth, right)?;
            Ok(Decl::Function(span, left, right))
        }
        Decl::Pattern(span, left, right) => {
            let left = pattern(alloc, tops, state, depth, left)?;
            let right = rhs(alloc, tops, state, depth, right)?;
            Ok(Decl::Pattern(span, left, right))
        }
        Decl::Signature(span, names, ty) => Ok(Decl::Signature(span, names, ty)),
        Decl::Fixity(span, word, level, names) => Ok(Decl::Fixity(span, word, level, names)),
    }
}

/// The right side with its operator lists arranged.
#[cycle(exps)]
#[tactic(auto, using(crate::proofs::ExpsAt::rhs_plain_tree, crate::proofs::ExpsAt::rhs_plain_clashes, crate::proofs::ExpsAt::rhs_guarded_tree, crate::proofs::ExpsAt::rhs_guarded_clashes, crate::proofs::Loops::least_append, crate::proofs::Entering::entered_dropped))]
pub fn rhs(
    alloc: Global,
    tops: &Tops,
    state: &mut State,
    depth: u32,
    node: Rhs,
) -> Result<Rhs, NoMemory>
    ensures value { IfOk result (λ found. found ≡ (spec.rhs_out tops.now node state.old.locals).tree) }
    ensures found { OnOk result (state.new.found ≡ least state.old.found ((spec.rhs_out tops.now node state.old.locals).clashes)) }
    ensures scope { OnOk result (state.new.locals ≡ state.old.locals) }
{
    let outer = state.locals.count();
    match node {
        Rhs::Plain(span, body, locals) => {
            enter(tops, state, locals.as_slice())?;
            let locals = decls(alloc, tops, state, depth, locals)?;
            let body = exp(alloc, tops, state, depth, body)?;
            leave(state, outer);
            Ok(Rhs::Plain(span, body, locals))
        }
        Rhs::Guarded(span, parts, locals) => {
            enter(tops, state, locals.as_slice())?;
            let locals = decls(alloc, tops, state, depth, locals)?;
            let parts = guards(alloc, tops, state, depth, parts)?;
            leave(state, outer);
            Ok(Rhs::Guarded(span, parts, locals))
        }
    }
}

#[cycle(exps)]
#[tactic(auto, using(crate::proofs::ExpsAt::alt_plain_tree, crate::proofs::ExpsAt::alt_plain_clashes, crate::proofs::ExpsAt::alt_guarded_tree, crate::proofs::ExpsAt::alt_guarded_clashes, crate::proofs::Loops::least_append, crate::proofs::Entering::entered_dropped))]
fn alt(
    alloc: Global,
    tops: &Tops,
    state: &mut State,
    depth: u32,
    node: Alt,
) -> Result<Alt, NoMemory>
    ensures value { IfOk result (λ found. found ≡ (spec.alt_out tops.now node state.old.locals).tree) }
    ensures found { OnOk result (state.new.found ≡ least state.old.found ((spec.alt_out tops.now node state.old.locals).clashes)) }
    ensures scope { OnOk result (state.new.locals ≡ state.old.locals) }
{
    let outer = state.locals.count();
    match node {
        Alt::Plain(span, left, body, locals) => {
            let left = pattern(alloc, tops, state, depth, left)?;
            enter(tops, state, locals.as_slice())?;
            let locals = decls(alloc, tops, state, depth, locals)?;
            let body = exp(alloc, tops, state, depth, body)?;
            leave(state, outer);
            Ok(Alt::Plain(span, left, body, locals))
        }
        Alt::Guarded(span, left, parts, locals) => {
            let left = pattern(alloc, tops, state, depth, left)?;
            enter(tops, state, locals.as_slice())?;
            let locals = decls(alloc, tops, state, depth, locals)?;
            let parts = guards(alloc, tops, state, depth, parts)?;
            leave(state, outer);
            Ok(Alt::Guarded(span, left, parts, locals))
        }
    }
}

#[cycle(exps)]
fn alts(
    alloc: Global,
    tops: &Tops,
    state: &mut State,
    depth: u32,
    node: Items<Alt>,
) -> Result<Items<Alt>, NoMemory>
    ensures value { IfOk result (λ found. found ≡ trees state.old.locals (map (spec.alt_out tops.now) node)) }
    ensures found { OnOk result (state.new.found ≡ least state.old.found (all_clashes state.old.locals (map (spec.alt_out tops.now) node))) }
    ensures scope { OnOk result (state.new.locals ≡ state.old.locals) }
{
    let mut waiting = backwards(alloc, node)?;
    let mut done = Items::new(alloc);
    while let Some(part) = waiting.pop() {
        let arranged = alt(alloc, tops, state, depth, part)?;
        done.push(arranged)?;
    }
    Ok(done)
}

#[cycle(exps)]
#[tactic(auto, using(crate::proofs::ExpsAt::locals_decls_tree, crate::proofs::ExpsAt::locals_decls_clashes, crate::proofs::ExpsAt::locals_redefs_tree, crate::proofs::ExpsAt::locals_redefs_clashes, crate::proofs::Loops::least_append))]
fn locals_inside(
    alloc: Global,
    tops: &Tops,
    state: &mut State,
    depth: u32,
    node: Locals,
) -> Result<Locals, NoMemory>
    ensures value { IfOk result (λ found. found ≡ ((spec.locals_out tops.now node).walk state.old.locals).tree) }
    ensures found { OnOk result (state.new.found ≡ least state.old.found (((spec.locals_out tops.now node).walk state.old.locals).clashes)) }
    ensures scope { OnOk result (state.new.locals ≡ state.old.locals) }
{
    match node {
        Locals::Decls(parts) => {
            let parts = decls(alloc, tops, state, depth, parts)?;
            Ok(Locals::Decls(parts))
        }
        Locals::Redefs(parts) => {
            let parts = redefs(alloc, tops, state, depth, parts)?;
            Ok(Locals::Redefs(parts))
        }
    }
}

#[cycle(exps)]
#[tactic(auto, using(crate::proofs::ExpsAt::open_lambda_tree, crate::proofs::ExpsAt::open_lambda_clashes, crate::proofs::ExpsAt::open_let_tree, crate::proofs::ExpsAt::open_let_clashes, crate::proofs::ExpsAt::open_if_tree, crate::proofs::ExpsAt::open_if_clashes, crate::proofs::Loops::least_append, crate::proofs::Entering::locals_dropped))]
fn open(
    alloc: Global,
    tops: &Tops,
    state: &mut State,
    depth: u32,
    node: Open,
) -> Result<Open, NoMemory>
    ensures value { IfOk result (λ found. found ≡ (spec.open_out tops.now node state.old.locals).tree) }
    ensures found { OnOk result (state.new.found ≡ least state.old.found ((spec.open_out tops.now node state.old.locals).clashes)) }
    ensures scope { OnOk result (state.new.locals ≡ state.old.locals) }
{
    match node {
        Open::Lambda(span, parts, body) => {
            let parts = arg_patterns(alloc, tops, state, depth, parts)?;
            let body = exp(alloc, tops, state, depth, body)?;
            Ok(Open::Lambda(span, parts, body))
        }
        Open::Let(span, locals, body) => {
            let outer = state.locals.count();
            enter_locals(tops, state, &locals)?;
            let locals = locals_inside(alloc, tops, state, depth, locals)?;
            let body = exp(alloc, tops, state, depth, body)?;
            leave(state, outer);
            Ok(Open::Let(span, locals, body))
        }
        Open::If(span, test, yes, no) => {
            let test = exp(alloc, tops, state, depth, test)?;
            let yes = exp(alloc, tops, state, depth, yes)?;
            let no = exp(alloc, tops, state, depth, no)?;
            Ok(Open::If(span, test, yes, no))
        }
    }
}

#[cycle(exps)]
#[tactic(auto, using(crate::proofs::ExpsAt::operand_apply_tree, crate::proofs::ExpsAt::operand_apply_clashes, crate::proofs::ExpsAt::operand_case_tree, crate::proofs::ExpsAt::operand_case_clashes, crate::proofs::ExpsAt::operand_open_tree, crate::proofs::ExpsAt::operand_open_clashes, crate::proofs::Loops::least_append))]
fn operand(
    alloc: Global,
    tops: &Tops,
    state: &mut State,
    depth: u32,
    node: Operand,
) -> Result<Operand, NoMemory>
    ensures value { IfOk result (λ found. found ≡ (spec.operand_out tops.now node state.old.locals).tree) }
    ensures found { OnOk result (state.new.found ≡ least state.old.found ((spec.operand_out tops.now node state.old.locals).clashes)) }
    ensures scope { OnOk result (state.new.locals ≡ state.old.locals) }
{
    match node {
        Operand::Apply(span, head, parts) => {
            let head = aexp(alloc, tops, state, depth, head.into_inner())?;
            let head = Boxed::new(alloc, head)?;
            let parts = aexps(alloc, tops, state, depth, parts)?;
            Ok(Operand::Apply(span, head, parts))
        }
        Operand::Case(span, body, parts) => {
            let body = exp(alloc, tops, state, depth, body)?;
            let parts = alts(alloc, tops, state, depth, parts)?;
            Ok(Operand::Case(span, body, parts))
        }
        Operand::Open(inner) => {
            let inner = open(alloc, tops, state, depth, inner.into_inner())?;
            let inner = Boxed::new(alloc, inner)?;
            Ok(Operand::Open(inner))
        }
    }
}

fn put_signed(
    parts: &mut Items<Part>,
    minus: Option<Span>,
    operand: Boxed<Operand>,
) -> Result<(), NoMemory>
    ensures { OnOk result (parts.new ≡ parts.old ++ signed minus (part_spec.Operand operand ∷ [])) }
{
    if let Some(span) = minus {
        parts.push(Part::Minus(span))?;
    }
    parts.push(Part::Operand(operand))?;
    Ok(())
}

fn put_operand(
    parts: &mut Items<Part>,
    op: Occurrence,
    minus: Option<Span>,
    operand: Boxed<Operand>,
) -> Result<(), NoMemory>
    ensures { OnOk result (parts.new ≡ parts.old ++ part_spec.Op op ∷ signed minus (part_spec.Operand operand ∷ [])) }
{
    parts.push(Part::Op(op))?;
    put_signed(parts, minus, operand)
}

// Adds an operator and the operand behind it.
#[cycle(exps)]
#[tactic(auto, using(crate::proofs::ExpsAt::next_operand_at_tree, crate::proofs::ExpsAt::next_operand_at_clashes, crate::proofs::Loops::least_append))]
fn next_operand(
    alloc: Global,
    tops: &Tops,
    state: &mut State,
    depth: u32,
    parts: &mut Items<Part>,
    node: NextOperand,
) -> Result<(), NoMemory>
    ensures value { OnOk result (parts.new ≡ parts.old ++ (spec.next_operand_out tops.now node state.old.locals).tree) }
    ensures found { OnOk result (state.new.found ≡ least state.old.found (spec.next_operand_out tops.now node state.old.locals).clashes) }
    ensures scope { OnOk result (state.new.locals ≡ state.old.locals) }
{
    let NextOperand {
        op,
        minus,
        operand: inner,
    } = node;
    let inner = operand(alloc, tops, state, depth, inner)?;
    put_operand(parts, op, minus, Boxed::new(alloc, inner)?)
}

#[cycle(exps)]
fn next_operands(
    alloc: Global,
    tops: &Tops,
    state: &mut State,
    depth: u32,
    parts: &mut Items<Part>,
    nodes: Items<NextOperand>,
) -> Result<(), NoMemory>
    ensures value { OnOk result (parts.new ≡ parts.old ++ all_trees state.old.locals (map (spec.next_operand_out tops.now) nodes)) }
    ensures found { OnOk result (state.new.found ≡ least state.old.found (all_clashes state.old.locals (map (spec.next_operand_out tops.now) nodes))) }
    ensures scope { OnOk result (state.new.locals ≡ state.old.locals) }
{
    let mut waiting = backwards(alloc, nodes)?;
    while let Some(part) = waiting.pop() {
        next_operand(alloc, tops, state, depth, parts, part)?;
    }
    Ok(())
}

// A list that begins with this operand.
fn first_operand(
    alloc: Global,
    minus: Option<Span>,
    operand: Operand,
) -> Result<Items<Part>, NoMemory>
    ensures { IfOk result (λ parts. parts ≡ signed minus (part_spec.Operand operand ∷ [])) }
{
    let operand = Boxed::new(alloc, operand)?;
    let mut parts = Items::new(alloc);
    put_signed(&mut parts, minus, operand)?;
    Ok(parts)
}

#[cycle(exps)]
#[tactic(auto, using(crate::proofs::ExpsAt::operands_listed_tree, crate::proofs::ExpsAt::operands_listed_clashes, crate::proofs::ExpsAt::operands_infix_tree, crate::proofs::ExpsAt::operands_infix_clashes, crate::proofs::ExpsAt::operands_negate_tree, crate::proofs::ExpsAt::operands_negate_clashes, crate::proofs::Loops::least_append, crate::proofs::Loops::signed_append))]
fn operands_walked(
    alloc: Global,
    tops: &Tops,
    state: &mut State,
    depth: u32,
    node: Operands,
) -> Result<Walked, NoMemory>
    ensures value { IfOk result (λ found. found ≡ (spec.operands_out tops.now node state.old.locals).tree) }
    ensures found { OnOk result (state.new.found ≡ least state.old.found ((spec.operands_out tops.now node state.old.locals).clashes)) }
    ensures scope { OnOk result (state.new.locals ≡ state.old.locals) }
{
    match node {
        Operands::Listed(_, minus, first, others) => {
            let first = operand(alloc, tops, state, depth, first)?;
            let mut parts = first_operand(alloc, minus, first)?;
            next_operands(alloc, tops, state, depth, &mut parts, others)?;
            Ok(Walked::List(parts))
        }
        Operands::Infix(span, left, op, right) => {
            let left = finished(alloc, tops, state, depth, left)?;
            let right = finished(alloc, tops, state, depth, right)?;
            let node = Boxed::new(alloc, Operands::Infix(span, left, op, right))?;
            Ok(Walked::Tree(node))
        }
        Operands::Negate(span, mark, inner) => {
            let inner = finished(alloc, tops, state, depth, inner)?;
            let node = Boxed::new(alloc, Operands::Negate(span, mark, inner))?;
            Ok(Walked::Tree(node))
        }
    }
}
