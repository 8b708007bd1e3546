// What the top of a file declares, and where the rules fail at its declarations.
ghost use Rattle.std.specs.Prelude.{◌≡◌, ◌++◌, ◌∷◌, [], ◌==◌, if◌then◌else◌, map, OnOk};
ghost use Rattle.std.specs.List.{flat_map};
ghost use Rattle.gh_declarations.specs.Inside as inside;
ghost use Rattle.gh_declarations.specs.Names as names;
ghost use Rattle.gh_declarations.specs.Tops as spec;

use crate::declared::{a_value, add_declared};
use crate::inside::{add_arguments_repeated, add_decl, add_rhs};
use crate::lists::add_second_times;
use crate::named::{Declared, Failure, Named, Rule, Sort, con, constr, var, word};
use gh_base::fixed::{
    CHAR, CHR, EQ_CHAR, EQUAL, ERROR, INT, LESS, MINUS, ORD, PLUS, QUOT, REM, SHOW_INT, TIMES,
};
use gh_base::{ListOf, NameId, NoMemory, Span};
use gh_tree::{ArgPattern, Con, Constr, Item, Name, NextConstr, Rhs, Top, Var};
use std::alloc::Global;

fn a_type(named: Named) -> Declared
    ensures { result ≡ spec.a_type named }
{
    Declared::Name(Sort::Type, named)
}

#[tactic(auto, using(std::proofs::lemmas::List::map_more, std::proofs::Common::append_assoc))]
fn add_constrs(list: &mut ListOf<Declared>, constrs: &[NextConstr]) -> Result<(), NoMemory>
    ensures { OnOk result (list.new ≡ list.old ++ map spec.a_constr constrs.now) }
{
    for next in constrs {
        list.push(a_value(constr(&next.constr)))?;
    }
    Ok(())
}

fn add_data(
    list: &mut ListOf<Declared>,
    name: &Name,
    first: &Constr,
    others: &[NextConstr],
) -> Result<(), NoMemory>
    ensures { OnOk result (list.new ≡ list.old ++ (spec.a_type (names.alone name.now) ∷ inside.a_value (names.constr_named first.now) ∷ map spec.a_constr others.now)) }
{
    list.push(a_type(word(name)))?;
    list.push(a_value(constr(first)))?;
    add_constrs(list, others)?;
    Ok(())
}

fn add_newtype(list: &mut ListOf<Declared>, name: &Name, inner: &Con) -> Result<(), NoMemory>
    ensures { OnOk result (list.new ≡ list.old ++ (spec.a_type (names.alone name.now) ∷ inside.a_value (names.con_named inner.now) ∷ [])) }
{
    list.push(a_type(word(name)))?;
    list.push(a_value(con(inner)))?;
    Ok(())
}

fn add_generic(list: &mut ListOf<Declared>, name: &Var) -> Result<(), NoMemory>
    ensures { OnOk result (list.new ≡ list.old ++ (inside.a_value (names.var_named name.now) ∷ inside.signed name.now ∷ [])) }
{
    list.push(a_value(var(name)))?;
    list.push(Declared::Name(Sort::Signature, var(name)))?;
    Ok(())
}

fn add_top_declared(alloc: Global, list: &mut ListOf<Declared>, top: &Top) -> Result<(), NoMemory>
    ensures { OnOk result (list.new ≡ list.old ++ spec.top_declared top.now) }
{
    match top {
        Top::Synonym(_, _, name, _, _, _) => {
            list.push(a_type(word(name)))?;
            Ok(())
        }
        Top::Data(_, _, name, _, _, first, others) => {
            add_data(list, name, first, others.as_slice())
        }
        Top::Newtype(_, _, name, _, _, inner, _) => add_newtype(list, name, inner),
        Top::Signature(_, name, _, _, _, _) => add_generic(list, name),
        Top::Case(..) => {
            list.push(Declared::Other)?;
            Ok(())
        }
        Top::Extends(..) => {
            list.push(Declared::Other)?;
            Ok(())
        }
        Top::Decl(decl) => add_declared(alloc, list, decl),
    }
}

/// Adds what an item of a file declares.
pub fn add_item_declared(
    alloc: Global,
    list: &mut ListOf<Declared>,
    item: &Item,
) -> Result<(), NoMemory>
    ensures { OnOk result (list.new ≡ list.old ++ spec.declared_in_item item.now) }
{
    match item {
        Item::Empty => Ok(()),
        Item::Import(_) => Ok(()),
        Item::Top(top) => add_top_declared(alloc, list, top.get()),
    }
}

fn given(name: NameId) -> Named
    ensures { result ≡ spec.given name }
{
    Named {
        span: Span {
            file: 0,
            from: 0,
            to: 0,
        },
        name,
    }
}

#[tactic(auto, using(std::proofs::lemmas::List::map_more, std::proofs::Common::append_assoc))]
fn add_given(list: &mut ListOf<Declared>, ids: &[NameId]) -> Result<(), NoMemory>
    ensures { OnOk result (list.new ≡ list.old ++ map spec.given_value ids.now) }
{
    for name in ids {
        list.push(a_value(given(*name)))?;
    }
    Ok(())
}

/// Adds what the Prelude declares beside its text.
pub fn add_built_in(list: &mut ListOf<Declared>) -> Result<(), NoMemory>
    ensures { OnOk result (list.new ≡ list.old ++ spec.built_in) }
{
    list.push(a_type(given(INT)))?;
    list.push(a_type(given(CHAR)))?;
    add_given(
        list,
        &[
            PLUS, MINUS, TIMES, QUOT, REM, EQUAL, LESS, EQ_CHAR, ORD, CHR, SHOW_INT, ERROR,
        ],
    )?;
    Ok(())
}

#[tactic(auto, using(std::proofs::lemmas::List::map_more, std::proofs::Common::append_assoc))]
fn add_words(list: &mut ListOf<Named>, words: &[Name]) -> Result<(), NoMemory>
    ensures { OnOk result (list.new ≡ list.old ++ map names.alone words.now) }
{
    for name in words {
        list.push(word(name))?;
    }
    Ok(())
}

fn add_parameters_repeated(
    alloc: Global,
    failures: &mut ListOf<Failure>,
    parameters: &[Name],
) -> Result<(), NoMemory>
    ensures { OnOk result (failures.new ≡ failures.old ++ spec.parameter_failures parameters.now) }
{
    let mut list = ListOf::new(alloc);
    add_words(&mut list, parameters)?;
    add_second_times(alloc, failures, Rule::Repeated, list.as_slice())?;
    Ok(())
}

#[tactic(auto, using(std::proofs::Common::append_assoc))]
fn add_case(
    alloc: Global,
    failures: &mut ListOf<Failure>,
    args: &[ArgPattern],
    right: &Rhs,
) -> Result<(), NoMemory>
    ensures { OnOk result (failures.new ≡ failures.old ++ (spec.argument_failures args.now ++ inside.rhs_failures right.now)) }
{
    add_arguments_repeated(alloc, failures, args)?;
    add_rhs(alloc, failures, right)?;
    Ok(())
}

fn add_top(alloc: Global, failures: &mut ListOf<Failure>, top: &Top) -> Result<(), NoMemory>
    ensures { OnOk result (failures.new ≡ failures.old ++ spec.top_failures top.now) }
{
    match top {
        Top::Synonym(_, _, _, parameters, _, _) => {
            add_parameters_repeated(alloc, failures, parameters.as_slice())
        }
        Top::Data(_, _, _, parameters, _, _, _) => {
            add_parameters_repeated(alloc, failures, parameters.as_slice())
        }
        Top::Newtype(_, _, _, parameters, _, _, _) => {
            add_parameters_repeated(alloc, failures, parameters.as_slice())
        }
        Top::Signature(..) => Ok(()),
        Top::Case(_, _, _, _, _, args, right) => add_case(alloc, failures, args.as_slice(), right),
        Top::Extends(..) => Ok(()),
        Top::Decl(decl) => add_decl(alloc, failures, decl),
    }
}

/// Adds where the rules fail at the head of an item of a file, and inside it.
pub fn add_item(alloc: Global, failures: &mut ListOf<Failure>, item: &Item) -> Result<(), NoMemory>
    ensures { OnOk result (failures.new ≡ failures.old ++ spec.failures_in_item item.now) }
{
    match item {
        Item::Empty => Ok(()),
        Item::Import(_) => Ok(()),
        Item::Top(top) => add_top(alloc, failures, top.get()),
    }
}
