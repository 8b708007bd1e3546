// A whole program, arranged.
ghost use Rattle.std.specs.Prelude.{◌≡◌, [], None, map, IfOk, OnOk};
ghost use Rattle.gh_fixity.specs.Programs as spec;
ghost use Rattle.gh_fixity.specs.Programs.{IsDue};
ghost use Rattle.gh_fixity.specs.Walks.{all_clashes, least, trees};

use crate::binders::Binders;
use crate::exps::{decl, rhs};
use crate::finish::State;
use crate::part::Clash;
use crate::patterns::arg_patterns;
use crate::scope::written;
use crate::tops::Tops;
use gh_base::{Fault, NoMemory, Refusal};
use gh_program::{Decl, Resolved, ResolvedModule, Top, add, backwards};
use sqlite_items::Items;
use std::alloc::Global;

#[tactic(auto, using(crate::proofs::TopsAt::tops_signature, crate::proofs::TopsAt::tops_fixity, crate::proofs::TopsAt::tops_function, crate::proofs::TopsAt::tops_pattern))]
fn declare_decl(tops: &mut Tops, decl: &Decl) -> Result<(), NoMemory>
    ensures { OnOk result (tops.new ≡ spec.decl_tops tops.old decl.now) }
{
    match decl {
        Decl::Fixity(_, word, level, ops) => {
            tops.declare_all(written(*word, *level), ops.as_slice())
        }
        Decl::Signature(..) => Ok(()),
        Decl::Function(..) => Ok(()),
        Decl::Pattern(..) => Ok(()),
    }
}

fn declare_top(tops: &mut Tops, top: &Top) -> Result<(), NoMemory>
    ensures { OnOk result (tops.new ≡ spec.item_tops tops.old top.now) }
{
    match top {
        Top::Decl(decl) => declare_decl(tops, decl),
        Top::Synonym(..) => Ok(()),
        Top::Data(..) => Ok(()),
        Top::Newtype(..) => Ok(()),
        Top::Signature(..) => Ok(()),
        Top::Case(..) => Ok(()),
        Top::Extends(..) => Ok(()),
    }
}

fn declare_tops(tops: &mut Tops, items: &[Top]) -> Result<(), NoMemory>
    ensures { OnOk result (tops.new ≡ spec.items_tops tops.old items.now) }
{
    for item in items {
        declare_top(tops, item)?;
    }
    Ok(())
}

fn declare_modules(tops: &mut Tops, modules: &[ResolvedModule]) -> Result<(), NoMemory>
    ensures { OnOk result (tops.new ≡ spec.modules_tops tops.old modules.now) }
{
    for module in modules {
        declare_tops(tops, module.tops.as_slice())?;
    }
    Ok(())
}

// A declaration of the top.
#[tactic(auto, using(crate::proofs::Loops::least_append))]
fn top(alloc: Global, tops: &Tops, state: &mut State, node: Top) -> Result<Top, NoMemory>
    ensures value { IfOk result (λ found. found ≡ (spec.top_out tops.now node state.old.locals).tree) }
    ensures found { OnOk result (state.new.found ≡ least state.old.found (spec.top_out tops.now node state.old.locals).clashes) }
    ensures scope { OnOk result (state.new.locals ≡ state.old.locals) }
{
    match node {
        Top::Decl(inner) => {
            let inner = decl(alloc, tops, state, u32::MAX, inner)?;
            Ok(Top::Decl(inner))
        }
        Top::Case(span, name, ty, parts, body) => {
            let parts = arg_patterns(alloc, tops, state, u32::MAX, parts)?;
            let body = rhs(alloc, tops, state, u32::MAX, body)?;
            Ok(Top::Case(span, name, ty, parts, body))
        }
        Top::Synonym(span, name, params, ty) => Ok(Top::Synonym(span, name, params, ty)),
        Top::Data(span, name, params, cons) => Ok(Top::Data(span, name, params, cons)),
        Top::Newtype(span, name, params, con, ty) => {
            Ok(Top::Newtype(span, name, params, con, ty))
        }
        Top::Signature(span, name, vars, deps, ty) => {
            Ok(Top::Signature(span, name, vars, deps, ty))
        }
        Top::Extends(span, name, old) => Ok(Top::Extends(span, name, old)),
    }
}

fn tops_of(
    alloc: Global,
    tops: &Tops,
    state: &mut State,
    node: Items<Top>,
) -> Result<Items<Top>, NoMemory>
    ensures value { IfOk result (λ found. found ≡ trees state.old.locals (map (spec.top_out tops.now) node)) }
    ensures found { OnOk result (state.new.found ≡ least state.old.found (all_clashes state.old.locals (map (spec.top_out tops.now) node))) }
    ensures scope { OnOk result (state.new.locals ≡ state.old.locals) }
{
    let mut waiting = backwards(alloc, node)?;
    let mut done = Items::new(alloc);
    while let Some(part) = waiting.pop() {
        let arranged = top(alloc, tops, state, part)?;
        done.push(arranged)?;
    }
    Ok(done)
}

fn state(alloc: Global) -> State
    ensures locals { result.locals ≡ [] }
    ensures found { result.found ≡ None }
{
    State {
        locals: Binders::new(alloc),
        found: None,
    }
}

// A module, or its first clash.
#[derive(Drop)]
enum Outcome {
    Arranged(ResolvedModule),
    Clash(Clash),
}

fn module(alloc: Global, tops: &Tops, node: ResolvedModule) -> Result<Outcome, NoMemory>
    ensures { IfOk result (λ outcome. spec.IsOutcome outcome (spec.module_clash tops.now node) (spec.module_tree tops.now node)) }
{
    let ResolvedModule {
        name,
        file,
        tops: items,
    } = node;
    let mut state = state(alloc);
    let items = tops_of(alloc, tops, &mut state, items)?;
    match state.found {
        Some(clash) => Ok(Outcome::Clash(clash)),
        None => Ok(Outcome::Arranged(ResolvedModule {
            name,
            file,
            tops: items,
        })),
    }
}

fn refusal(clash: Clash) -> Fault
    ensures { result ≡ spec.clash_fault clash }
{
    Fault::Refused(Refusal::FixityClash {
        span: clash.span,
        left: clash.left,
        right: clash.right,
    })
}

fn modules(
    alloc: Global,
    tops: &Tops,
    node: Items<ResolvedModule>,
) -> Result<Items<ResolvedModule>, Fault>
    ensures { spec.AreDue result (spec.modules_clash tops.now node) (map (spec.module_tree tops.now) node) }
{
    let mut waiting = backwards(alloc, node)?;
    let mut done = Items::new(alloc);
    while let Some(part) = waiting.pop() {
        match module(alloc, tops, part)? {
            Outcome::Arranged(arranged) => add(&mut done, arranged)?,
            Outcome::Clash(clash) => return Err(refusal(clash)),
        }
    }
    Ok(done)
}

/// The program with every operator list as a tree: each list of operands and of patterns, each section, and each left side
/// of a function that is an operator between two patterns (Haskell 98 Report, sections 3.4, 3.5, 4.4.2, 4.4.3 and 10.6). The
/// rest of the program stays as it is. In a section and in such a left side the operator that is written apart is the root.
///
/// An operator has the fixity of the declaration of what it stands for, wherever that stands; a local one that of its own
/// list of declarations. Without one it is `infixl 9`, and `:` is `infixr 5`. A new node reaches from the first byte of
/// its left operand, or from its minus sign, to the last of its right operand.
///
/// Refuses 11 exactly where some list has no tree, or has another root than it should: in the first such module in link
/// order, with the clash there whose right operator begins first. Its span is that of the right operator.
///
/// The tree is moved, and no part of it copied. The time is linear but for the tables of fixities. A program more than
/// 2^32 levels deep is answered by `NoMemory`.
pub fn arrange_all(alloc: Global, program: Resolved) -> Result<Resolved, Fault>
    ensures { IsDue result (spec.first_clash program) (spec.arranged program) }
{
    let Resolved {
        modules: list,
        main,
    } = program;
    let mut tops = Tops::new(alloc);
    declare_modules(&mut tops, list.as_slice())?;
    let list = modules(alloc, &tops, list)?;
    Ok(Resolved {
        modules: list,
        main,
    })
}
