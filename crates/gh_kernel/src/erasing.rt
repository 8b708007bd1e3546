// Terms without their notes.
ghost use Rattle.std.specs.Prelude.{◌≡◌, IfOk, map};
ghost use Rattle.gh_kernel.specs.Erase.{erased, erased_binding, erased_body, erased_node, erased_pair, erased_pattern, erased_pattern_node, erased_row};
ghost use Rattle.gh_kernel.specs.Nodes.{noted};
ghost use Rattle.gh_kernel.specs.Reading.{term_of};

use crate::copies::{copy_lit, copy_signature, copy_signed};
use crate::patterns::{Pattern, PatternNode};
use crate::terms::{LocalBinding, Row, Term, TermNode};
use gh_base::{ListOf, NoMemory, Origin, Span};
use sqlite_items::Boxed;
use std::alloc::Global;

/// The same term without its notes: all else stays, at every depth.
pub fn erase<A>(alloc: Global, term: &Term<A>) -> Result<Term<()>, NoMemory>
    ensures value { IfOk result (λ made. made ≡ erased term.now) }
    // What the answer stands for is the text of the term, with nothing for each note.
    ensures text { IfOk result (λ made. term_of made ≡ noted (λ _. tt) (term_of term.now)) }
{
    let made = erase_term(alloc, term)?;
    Ok(made)
}

#[cycle(erase)]
fn erase_term<A>(alloc: Global, term: &Term<A>) -> Result<Term<()>, NoMemory>
    ensures { IfOk result (λ made. made ≡ erased term.now) }
{
    let node = erase_node(alloc, &term.node)?;
    Ok(Term { node, note: () })
}

#[cycle(erase)]
fn erase_boxed<A>(alloc: Global, term: &Term<A>) -> Result<Boxed<Term<()>>, NoMemory>
    ensures { IfOk result (λ made. made ≡ erased term.now) }
{
    let made = erase_term(alloc, term)?;
    Ok(Boxed::new(alloc, made)?)
}

#[cycle(erase)]
fn erase_node<A>(alloc: Global, node: &TermNode<A>) -> Result<TermNode<()>, NoMemory>
    ensures { IfOk result (λ made. made ≡ erased_node node.now) }
{
    match node {
        TermNode::Var(name) => Ok(TermNode::Var(*name)),
        TermNode::Con(con) => Ok(TermNode::Con(*con)),
        TermNode::Lit(lit) => Ok(TermNode::Lit(copy_lit(alloc, lit)?)),
        TermNode::Lam(name, body) => Ok(TermNode::Lam(*name, erase_boxed(alloc, body.get())?)),
        TermNode::App(function, argument) => {
            let function = erase_boxed(alloc, function.get())?;
            let argument = erase_boxed(alloc, argument.get())?;
            Ok(TermNode::App(function, argument))
        }
        TermNode::Let(groups, body) => {
            let groups = erase_groups(alloc, groups.as_slice())?;
            let body = erase_boxed(alloc, body.get())?;
            Ok(TermNode::Let(groups, body))
        }
        TermNode::Case(terms, rows) => {
            let terms = erase_terms(alloc, terms.as_slice())?;
            let rows = erase_rows(alloc, rows.as_slice())?;
            Ok(TermNode::Case(terms, rows))
        }
        TermNode::Call(function, at) => Ok(TermNode::Call(*function, at.share()?)),
        TermNode::Redef(number, name, pairs, body) => {
            let pairs = erase_pairs(alloc, pairs.as_slice())?;
            let body = erase_boxed(alloc, body.get())?;
            Ok(TermNode::Redef(*number, *name, pairs, body))
        }
        TermNode::Ann(term, signed) => {
            let term = erase_boxed(alloc, term.get())?;
            Ok(TermNode::Ann(term, copy_signed(alloc, signed)?))
        }
    }
}

#[cycle(erase)]
#[tactic(auto, using(crate::proofs::Shapes::push_mapped))]
fn erase_terms<A>(alloc: Global, terms: &[Term<A>]) -> Result<ListOf<Term<()>>, NoMemory>
    ensures { IfOk result (λ made. made ≡ map erased terms.now) }
{
    let mut made = ListOf::new(alloc);
    for term in terms {
        made.push(erase_term(alloc, term)?)?;
    }
    Ok(made)
}

#[cycle(erase)]
#[tactic(auto, using(crate::proofs::Shapes::push_mapped))]
fn erase_groups<A>(
    alloc: Global,
    groups: &[ListOf<LocalBinding<A>>],
) -> Result<ListOf<ListOf<LocalBinding<()>>>, NoMemory>
    ensures { IfOk result (λ made. made ≡ map (map erased_binding) groups.now) }
{
    let mut made = ListOf::new(alloc);
    for group in groups {
        let mut members = ListOf::new(alloc);
        for binding in group.as_slice() {
            members.push(erase_binding(alloc, binding)?)?;
        }
        made.push(members)?;
    }
    Ok(made)
}

#[cycle(erase)]
fn erase_binding<A>(alloc: Global, binding: &LocalBinding<A>) -> Result<LocalBinding<()>, NoMemory>
    ensures { IfOk result (λ made. made ≡ erased_binding binding.now) }
{
    let signature = copy_signature(alloc, &binding.signature)?;
    let term = erase_term(alloc, &binding.term)?;
    Ok(LocalBinding {
        name: binding.name,
        signature,
        term,
        note: (),
    })
}

#[cycle(erase)]
#[tactic(auto, using(crate::proofs::Shapes::push_mapped))]
fn erase_rows<A>(alloc: Global, rows: &[Row<A>]) -> Result<ListOf<Row<()>>, NoMemory>
    ensures { IfOk result (λ made. made ≡ map erased_row rows.now) }
{
    let mut made = ListOf::new(alloc);
    for row in rows {
        made.push(erase_row(alloc, row)?)?;
    }
    Ok(made)
}

#[cycle(erase)]
#[tactic(auto, using(crate::proofs::Shapes::row_at))]
fn erase_row<A>(alloc: Global, row: &Row<A>) -> Result<Row<()>, NoMemory>
    ensures { IfOk result (λ made. made ≡ erased_row row.now) }
{
    let patterns = erase_patterns(alloc, row.patterns.as_slice())?;
    let groups = erase_groups(alloc, row.groups.as_slice())?;
    let bodies = erase_bodies(alloc, row.bodies.as_slice())?;
    Ok(Row {
        patterns,
        groups,
        bodies,
    })
}

#[cycle(erase)]
#[tactic(auto, using(crate::proofs::Shapes::push_mapped))]
fn erase_bodies<A>(
    alloc: Global,
    bodies: &[(Option<Term<A>>, Term<A>)],
) -> Result<ListOf<(Option<Term<()>>, Term<()>)>, NoMemory>
    ensures { IfOk result (λ made. made ≡ map erased_body bodies.now) }
{
    let mut made = ListOf::new(alloc);
    for (guard, body) in bodies {
        let guard = match guard {
            Some(guard) => Some(erase_term(alloc, guard)?),
            None => None,
        };
        made.push((guard, erase_term(alloc, body)?))?;
    }
    Ok(made)
}

#[cycle(erase)]
#[tactic(auto, using(crate::proofs::Shapes::push_mapped))]
fn erase_pairs<A>(
    alloc: Global,
    pairs: &[(Origin, Span, Term<A>)],
) -> Result<ListOf<(Origin, Span, Term<()>)>, NoMemory>
    ensures { IfOk result (λ made. made ≡ map erased_pair pairs.now) }
{
    let mut made = ListOf::new(alloc);
    for (function, span, term) in pairs {
        made.push((*function, *span, erase_term(alloc, term)?))?;
    }
    Ok(made)
}

#[cycle(erase_pattern)]
fn erase_patterns<A>(
    alloc: Global,
    patterns: &[Pattern<A>],
) -> Result<ListOf<Pattern<()>>, NoMemory>
    ensures { IfOk result (λ made. made ≡ map erased_pattern patterns.now) }
{
    let mut made = ListOf::new(alloc);
    for pattern in patterns {
        made.push(erase_pattern(alloc, pattern)?)?;
    }
    Ok(made)
}

#[cycle(erase_pattern)]
fn erase_pattern<A>(alloc: Global, pattern: &Pattern<A>) -> Result<Pattern<()>, NoMemory>
    ensures { IfOk result (λ made. made ≡ erased_pattern pattern.now) }
{
    let node = erase_pattern_node(alloc, &pattern.node)?;
    Ok(Pattern { node, note: () })
}

#[cycle(erase_pattern)]
fn erase_boxed_pattern<A>(
    alloc: Global,
    pattern: &Pattern<A>,
) -> Result<Boxed<Pattern<()>>, NoMemory>
    ensures { IfOk result (λ made. made ≡ erased_pattern pattern.now) }
{
    let made = erase_pattern(alloc, pattern)?;
    Ok(Boxed::new(alloc, made)?)
}

#[cycle(erase_pattern)]
fn erase_pattern_node<A>(alloc: Global, node: &PatternNode<A>) -> Result<PatternNode<()>, NoMemory>
    ensures { IfOk result (λ made. made ≡ erased_pattern_node node.now) }
{
    match node {
        PatternNode::PVar(name) => Ok(PatternNode::PVar(*name)),
        PatternNode::PWild => Ok(PatternNode::PWild),
        PatternNode::PCon(con, patterns) => {
            let patterns = erase_patterns(alloc, patterns.as_slice())?;
            Ok(PatternNode::PCon(*con, patterns))
        }
        PatternNode::PLit(lit) => Ok(PatternNode::PLit(copy_lit(alloc, lit)?)),
        PatternNode::PAs(name, pattern) => {
            let pattern = erase_boxed_pattern(alloc, pattern.get())?;
            Ok(PatternNode::PAs(*name, pattern))
        }
    }
}
