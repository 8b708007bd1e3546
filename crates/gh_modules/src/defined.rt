// What the declarations of the top define.
ghost use Rattle.std.specs.Prelude.{◌≡◌, ◌++◌, ◌∷◌, [], OnOk, map};
ghost use Rattle.gh_modules.specs.Summaries as spec;

use crate::patterns::{add_pattern, head_name, var_name};
use gh_base::fixed::{
    CHAR, CHR, COLON, EQ_CHAR, EQUAL, ERROR, INT, LESS, MINUS, ORD, PLUS, QUOT, REM, SHOW_INT,
    TIMES,
};
use gh_base::{ListOf, NameId, NoMemory, Space};
use gh_scopes::Definition;
use gh_tree::{Con, ConOp, Constr, Decl, Item, NextConstr, Top};
use std::alloc::Global;

fn value(name: NameId) -> Definition
    ensures { result ≡ spec.value name }
{
    Definition {
        space: Space::Values,
        name,
        owner: None,
    }
}

fn type_named(name: NameId) -> Definition
    ensures { result ≡ spec.type_named name }
{
    Definition {
        space: Space::Types,
        name,
        owner: None,
    }
}

fn constructor(owner: NameId, name: NameId) -> Definition
    ensures { result ≡ spec.constructor owner name }
{
    Definition {
        space: Space::Values,
        name,
        owner: Some(owner),
    }
}

fn con_name(con: &Con) -> NameId
    ensures { result ≡ spec.con_name con.now }
{
    match con {
        Con::Word(name) => name.id,
        Con::Symbol(_, name, _) => name.id,
    }
}

fn con_op_name(op: &ConOp) -> NameId
    ensures { result ≡ spec.con_op_name op.now }
{
    match op {
        ConOp::Symbol(name) => name.id,
        ConOp::Colon(_) => COLON,
        ConOp::Quoted(_, name, _) => name.id,
    }
}

fn constr_name(constr: &Constr) -> NameId
    ensures { result ≡ spec.constr_name constr.now }
{
    match constr {
        Constr::Prefix(_, con, _) => con_name(con),
        Constr::Infix(_, _, op, _) => con_op_name(op),
    }
}

#[tactic(auto, using(std::proofs::lemmas::List::map_more, std::proofs::Common::append_assoc))]
fn add_constrs(
    list: &mut ListOf<Definition>,
    owner: NameId,
    constrs: &[NextConstr],
) -> Result<(), NoMemory>
    ensures { OnOk result (list.new ≡ list.old ++ map (spec.next_constr owner) constrs.now) }
{
    for next in constrs {
        list.push(constructor(owner, constr_name(&next.constr)))?;
    }
    Ok(())
}

#[tactic(auto, using(std::proofs::lemmas::List::map_more, std::proofs::Common::append_assoc))]
fn add_values(list: &mut ListOf<Definition>, names: &[NameId]) -> Result<(), NoMemory>
    ensures { OnOk result (list.new ≡ list.old ++ map spec.value names.now) }
{
    for name in names {
        list.push(value(*name))?;
    }
    Ok(())
}

#[tactic(auto, using(crate::proofs::DeclAt::names_signature, crate::proofs::DeclAt::names_fixity, crate::proofs::DeclAt::names_function, crate::proofs::DeclAt::names_pattern))]
fn add_names(names: &mut ListOf<NameId>, decl: &Decl) -> Result<(), NoMemory>
    ensures { OnOk result (names.new ≡ names.old ++ spec.decl_names decl.now) }
{
    match decl {
        Decl::Signature(..) => Ok(()),
        Decl::Fixity(..) => Ok(()),
        Decl::Function(_, left, _) => {
            names.push(head_name(left))?;
            Ok(())
        }
        Decl::Pattern(_, pattern, _) => {
            add_pattern(names, pattern)?;
            Ok(())
        }
    }
}

fn add_decl(alloc: Global, list: &mut ListOf<Definition>, decl: &Decl) -> Result<(), NoMemory>
    ensures { OnOk result (list.new ≡ list.old ++ map spec.value (spec.decl_names decl.now)) }
{
    let mut names = ListOf::new(alloc);
    add_names(&mut names, decl)?;
    add_values(list, names.as_slice())?;
    Ok(())
}

fn add_data(
    list: &mut ListOf<Definition>,
    name: NameId,
    first: &Constr,
    others: &[NextConstr],
) -> Result<(), NoMemory>
    ensures { OnOk result (list.new ≡ list.old ++ (spec.type_named name ∷ spec.constructor name (spec.constr_name first.now) ∷ map (spec.next_constr name) others.now)) }
{
    list.push(type_named(name))?;
    list.push(constructor(name, constr_name(first)))?;
    add_constrs(list, name, others)?;
    Ok(())
}

fn add_newtype(list: &mut ListOf<Definition>, name: NameId, con: &Con) -> Result<(), NoMemory>
    ensures { OnOk result (list.new ≡ list.old ++ (spec.type_named name ∷ spec.constructor name (spec.con_name con.now) ∷ [])) }
{
    list.push(type_named(name))?;
    list.push(constructor(name, con_name(con)))?;
    Ok(())
}

fn add_top(alloc: Global, list: &mut ListOf<Definition>, top: &Top) -> Result<(), NoMemory>
    ensures { OnOk result (list.new ≡ list.old ++ spec.top_definitions top.now) }
{
    match top {
        Top::Synonym(_, _, name, _, _, _) => {
            list.push(type_named(name.id))?;
            Ok(())
        }
        Top::Data(_, _, name, _, _, first, others) => {
            add_data(list, name.id, first, others.as_slice())
        }
        Top::Newtype(_, _, name, _, _, con, _) => add_newtype(list, name.id, con),
        Top::Signature(_, var, _, _, _, _) => {
            list.push(value(var_name(var)))?;
            Ok(())
        }
        Top::Case(..) => Ok(()),
        Top::Extends(..) => Ok(()),
        Top::Decl(decl) => add_decl(alloc, list, decl),
    }
}

/// What an item of a file defines.
pub fn add_definitions(
    alloc: Global,
    list: &mut ListOf<Definition>,
    item: &Item,
) -> Result<(), NoMemory>
    ensures { OnOk result (list.new ≡ list.old ++ spec.definitions_in item.now) }
{
    match item {
        Item::Empty => Ok(()),
        Item::Import(_) => Ok(()),
        Item::Top(top) => add_top(alloc, list, top.get()),
    }
}

/// The primitives and types that the Prelude has beside its text.
#[tactic(auto, using(std::proofs::Common::append_assoc))]
pub fn add_built_in(list: &mut ListOf<Definition>) -> Result<(), NoMemory>
    ensures { OnOk result (list.new ≡ list.old ++ spec.built_in) }
{
    list.push(type_named(INT))?;
    list.push(type_named(CHAR))?;
    add_values(
        list,
        &[
            PLUS, MINUS, TIMES, QUOT, REM, EQUAL, LESS, EQ_CHAR, ORD, CHR, SHOW_INT, ERROR,
        ],
    )?;
    Ok(())
}
