// What the declarations of a list declare, name by name.
ghost use Rattle.std.specs.Prelude.{◌≡◌, ◌++◌, ◌∷◌, [], IfOk, OnOk, map};
ghost use Rattle.std.specs.List.{flat_map};
ghost use Rattle.gh_declarations.specs.Inside as spec;
ghost use Rattle.gh_declarations.specs.Patterns as patterns;
ghost use Rattle.gh_declarations.specs.declared.named.Declared.TheVariants as declares;

use crate::named::{Clause, Declared, Named, Sort, op, var};
use crate::patterns::{add_pattern, arguments, head};
use gh_base::{ListOf, NoMemory, Span};
use gh_tree::{Decl, DeclItem, FunLhs, NextOp, NextVar, Op, Pattern, Var};
use std::alloc::Global;

fn signed(name: &Var) -> Declared
    ensures { result ≡ spec.signed name.now }
{
    Declared::Name(Sort::Signature, var(name))
}

fn fixed(name: &Op) -> Declared
    ensures { result ≡ spec.fixed name.now }
{
    Declared::Name(Sort::Fixity, op(name))
}

/// A name that is defined and is no clause's.
pub fn a_value(named: Named) -> Declared
    ensures { result ≡ spec.a_value named }
{
    Declared::Name(Sort::Value, named)
}

fn clause(span: Span, left: &FunLhs) -> Result<Declared, NoMemory>
    ensures { IfOk result (λ r. r ≡ spec.clause_of span left.now) }
{
    let count = arguments(left)?;
    Ok(Declared::Clause(Clause {
        span,
        named: head(left),
        arguments: count,
    }))
}

#[tactic(auto, using(std::proofs::lemmas::List::map_more, std::proofs::Common::append_assoc))]
fn add_next_signed(list: &mut ListOf<Declared>, names: &[NextVar]) -> Result<(), NoMemory>
    ensures { OnOk result (list.new ≡ list.old ++ map spec.next_signed names.now) }
{
    for next in names {
        list.push(signed(&next.var))?;
    }
    Ok(())
}

fn add_signature(
    list: &mut ListOf<Declared>,
    first: &Var,
    others: &[NextVar],
) -> Result<(), NoMemory>
    ensures { OnOk result (list.new ≡ list.old ++ (spec.signed first.now ∷ map spec.next_signed others.now)) }
{
    list.push(signed(first))?;
    add_next_signed(list, others)?;
    Ok(())
}

#[tactic(auto, using(std::proofs::lemmas::List::map_more, std::proofs::Common::append_assoc))]
fn add_next_fixed(list: &mut ListOf<Declared>, names: &[NextOp]) -> Result<(), NoMemory>
    ensures { OnOk result (list.new ≡ list.old ++ map spec.next_fixed names.now) }
{
    for next in names {
        list.push(fixed(&next.op))?;
    }
    Ok(())
}

fn add_fixity(list: &mut ListOf<Declared>, first: &Op, others: &[NextOp]) -> Result<(), NoMemory>
    ensures { OnOk result (list.new ≡ list.old ++ (spec.fixed first.now ∷ map spec.next_fixed others.now)) }
{
    list.push(fixed(first))?;
    add_next_fixed(list, others)?;
    Ok(())
}

#[tactic(auto, using(std::proofs::lemmas::List::map_more, std::proofs::Common::append_assoc))]
fn add_values(list: &mut ListOf<Declared>, names: &[Named]) -> Result<(), NoMemory>
    ensures { OnOk result (list.new ≡ list.old ++ map spec.a_value names.now) }
{
    for named in names {
        list.push(a_value(*named))?;
    }
    Ok(())
}

fn add_bound(alloc: Global, list: &mut ListOf<Declared>, pattern: &Pattern) -> Result<(), NoMemory>
    ensures { OnOk result (list.new ≡ list.old ++ (declares.Other ∷ map spec.a_value (patterns.pattern_variables pattern.now))) }
{
    let mut names = ListOf::new(alloc);
    add_pattern(&mut names, pattern)?;
    list.push(Declared::Other)?;
    add_values(list, names.as_slice())?;
    Ok(())
}

/// Adds what a declaration declares.
#[tactic(auto, using(crate::proofs::InsideAt::declared_signature, crate::proofs::InsideAt::declared_fixity, crate::proofs::InsideAt::declared_function, crate::proofs::InsideAt::declared_pattern))]
pub fn add_declared(alloc: Global, list: &mut ListOf<Declared>, decl: &Decl) -> Result<(), NoMemory>
    ensures { OnOk result (list.new ≡ list.old ++ (spec.decl_found decl.now).declared) }
{
    match decl {
        Decl::Signature(_, first, others, _, _) => add_signature(list, first, others.as_slice()),
        Decl::Fixity(_, _, _, first, others) => add_fixity(list, first, others.as_slice()),
        Decl::Function(span, left, _) => {
            list.push(clause(*span, left)?)?;
            Ok(())
        }
        Decl::Pattern(_, pattern, _) => add_bound(alloc, list, pattern),
    }
}

/// Adds what the declarations of a local list declare.
#[tactic(auto, using(std::proofs::lemmas::List::flat_map_more))]
pub fn add_items(
    alloc: Global,
    list: &mut ListOf<Declared>,
    decls: &[DeclItem],
) -> Result<(), NoMemory>
    ensures { OnOk result (list.new ≡ list.old ++ flat_map spec.declared_at decls.now) }
{
    for item in decls {
        add_declared(alloc, list, &item.decl)?;
    }
    Ok(())
}
