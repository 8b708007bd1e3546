// Terms as text.
ghost use Rattle.std.specs.Prelude.{◌≡◌, ◌≤◌, ◌<◌, ◌^◌, ◌++◌, ◌+◌, codes, decimal, length, map, option_map, OnOk, IfOk};
ghost use Rattle.std.specs.Fmt.{signed_decimal};
ghost use Rattle.gh_core.specs.declared.terms.CoreTerm.TheVariants as core;
ghost use Rattle.gh_core.specs.Levels.{level_of, within_list};
ghost use Rattle.gh_core_text.specs.Needs.{needs_origin, needs_type, needs_term, needs_alt, needs_all, needs_bindings, needs_else, needs_result};
ghost use Rattle.gh_core.specs.Text.{origin_text, place_text, type_text, binder_text, binders_of, bindings_text, names_text, numbers_text, result_text, term_text, alt_text, alts_text, else_text};

use crate::binders::Binders;
use crate::types::{
    add, add_core_name, add_gap, add_number, add_origin, add_place, add_type, add_type_binder,
};
use gh_base::{Bytes, Names, NoMemory, Origin, Span};
use gh_core::{CoreAlt, CoreTerm, CoreType};
use gh_typeterm::Kind;
use itoa::Buffer;
use sqlite_items::Boxed;

fn add_integer(out: &mut Bytes, number: i64) -> Result<(), NoMemory>
    ensures { OnOk result (out.new ≡ out.old ++ signed_decimal number) }
{
    let mut buffer = Buffer::new();
    add(out, buffer.format(number).as_bytes())
}

fn add_characters(out: &mut Bytes, chars: &[char]) -> Result<(), NoMemory>
    ensures { OnOk result (out.new ≡ out.old ++ numbers_text chars.now) }
{
    for char in chars {
        add(out, b" ")?;
        add_number(out, *char as u64)?;
    }
    Ok(())
}

// A variable where it is bound, without the closing bracket.
fn add_binder(
    out: &mut Bytes,
    names: &Names,
    types: &mut Binders,
    level: usize,
    ty: &CoreType,
) -> Result<(), NoMemory>
    requires { needs_type ty.now ≤ length names.now }
    ensures text { OnOk result (out.new ≡ out.old ++ binder_text names.now level ty.now types.old) }
    ensures types { OnOk result (types.new ≡ types.old) }
{
    add(out, b"(v")?;
    add_number(out, level as u64)?;
    add(out, b" ")?;
    add_type(out, names, types, ty, false)
}

// The result's type of a primitive that has one.
fn add_result(
    out: &mut Bytes,
    names: &Names,
    types: &mut Binders,
    ty: &Option<CoreType>,
) -> Result<(), NoMemory>
    requires { needs_result ty.now ≤ length names.now }
    ensures text { OnOk result (out.new ≡ out.old ++ result_text names.now ty.now types.old) }
    ensures types { OnOk result (types.new ≡ types.old) }
{
    match ty {
        None => Ok(()),
        Some(ty) => {
            add(out, b" ")?;
            add_type(out, names, types, ty, false)
        }
    }
}

// Writes the variables of fields, and binds them.
fn add_fields(out: &mut Bytes, variables: &mut Binders, fields: &[u32]) -> Result<(), NoMemory>
    ensures text { OnOk result (out.new ≡ out.old ++ names_text (length variables.old) fields.now) }
    ensures bound { OnOk result (variables.new ≡ within_list variables.old fields.now) }
{
    let count = variables.count();
    for place in 0..fields.len() {
        add(out, b" v")?;
        add_number(out, (count + place) as u64)?;
    }
    variables.bind_list(fields)
}

// Binds the variables of bindings, and answers the number of binders before them.
fn bind_all(
    variables: &mut Binders,
    bindings: &[(u32, CoreType, CoreTerm)],
) -> Result<usize, NoMemory>
    ensures bound { OnOk result (variables.new ≡ within_list variables.old (binders_of bindings.now)) }
    ensures count { IfOk result (λ count. count ≡ length variables.old) }
    ensures most { IfOk result (λ count. count < 2 ^ 63) }
{
    let count = variables.count();
    for taken in 0..bindings.len() {
        let at = bindings.len() - 1 - taken;
        variables.bind_at(bindings[at].0, count + at)?;
    }
    Ok(count)
}

// A variable of terms.
fn add_variable(out: &mut Bytes, variables: &Binders, x: u32) -> Result<(), NoMemory>
    ensures { OnOk result (out.new ≡ out.old ++ (codes "v" ++ decimal (level_of variables.now x))) }
{
    add(out, b"v")?;
    add_number(out, variables.level(x))
}

// An integer as a term.
fn add_int(out: &mut Bytes, number: i64) -> Result<(), NoMemory>
    ensures { OnOk result (out.new ≡ out.old ++ (codes "(int " ++ (signed_decimal number ++ codes ")"))) }
{
    add(out, b"(int ")?;
    add_integer(out, number)?;
    add(out, b")")
}

// A character as a term.
fn add_char(out: &mut Bytes, char: char) -> Result<(), NoMemory>
    ensures { OnOk result (out.new ≡ out.old ++ (codes "(char " ++ (decimal char ++ codes ")"))) }
{
    add(out, b"(char ")?;
    add_number(out, char as u64)?;
    add(out, b")")
}

// A string as a term.
fn add_string(out: &mut Bytes, chars: &[char]) -> Result<(), NoMemory>
    ensures { OnOk result (out.new ≡ out.old ++ (codes "(string" ++ (numbers_text chars.now ++ codes ")"))) }
{
    add(out, b"(string")?;
    add_characters(out, chars)?;
    add(out, b")")
}

// A primitive, with the type of its result where it has one.
fn add_prim(
    out: &mut Bytes,
    names: &Names,
    types: &mut Binders,
    prim: Origin,
    place: Span,
    wanted: &Option<CoreType>,
) -> Result<(), NoMemory>
    requires prim { needs_origin prim ≤ length names.now }
    requires wanted { needs_result wanted.now ≤ length names.now }
    ensures text { OnOk result (out.new ≡ out.old ++ (codes "(prim " ++ (origin_text names.now prim ++ (codes " " ++ (place_text place ++ (result_text names.now wanted.now types.old ++ codes ")")))))) }
    ensures types { OnOk result (types.new ≡ types.old) }
{
    add(out, b"(prim ")?;
    add_origin(out, names, prim)?;
    add(out, b" ")?;
    add_place(out, place)?;
    add_result(out, names, types, wanted)?;
    add(out, b")")
}

// The end of a program at a place, where a term of this type is wanted.
fn add_stop(
    out: &mut Bytes,
    names: &Names,
    types: &mut Binders,
    place: Span,
    ty: &CoreType,
) -> Result<(), NoMemory>
    requires { needs_type ty.now ≤ length names.now }
    ensures text { OnOk result (out.new ≡ out.old ++ (codes "(stop " ++ (place_text place ++ (codes " " ++ (type_text names.now ty.now types.old ++ codes ")"))))) }
    ensures types { OnOk result (types.new ≡ types.old) }
{
    add(out, b"(stop ")?;
    add_place(out, place)?;
    add(out, b" ")?;
    add_type(out, names, types, ty, false)?;
    add(out, b")")
}

/// A term under its binders.
#[cycle(text)]
#[tactic(auto, using(crate::proofs::Weights::letrec_weight, crate::proofs::Weights::case_weight))]
pub fn add_term(
    out: &mut Bytes,
    names: &Names,
    variables: &mut Binders,
    types: &mut Binders,
    term: &CoreTerm,
) -> Result<(), NoMemory>
    requires { needs_term term.now ≤ length names.now }
    ensures text { OnOk result (out.new ≡ out.old ++ term_text names.now term.now variables.old types.old) }
    ensures variables { OnOk result (variables.new ≡ variables.old) }
    ensures types { OnOk result (types.new ≡ types.old) }
{
    match term {
        CoreTerm::Var(x) => add_variable(out, variables, *x),
        CoreTerm::Global(name) => add_core_name(out, names, *name),
        CoreTerm::Con(con) => add_origin(out, names, *con),
        CoreTerm::Int(number) => add_int(out, *number),
        CoreTerm::Char(char) => add_char(out, *char),
        CoreTerm::Str(chars) => add_string(out, chars.as_slice()),
        CoreTerm::Prim(prim, place, wanted) => {
            add_prim(out, names, types, *prim, *place, wanted)
        }
        CoreTerm::Lam(x, ty, body) => add_lam(out, names, variables, types, *x, ty, body.get()),
        CoreTerm::App(function, argument) => {
            add_app(out, names, variables, types, function.get(), argument.get())
        }
        CoreTerm::TyLam(x, kind, body) => {
            add_tylam(out, names, variables, types, *x, kind, body.get())
        }
        CoreTerm::TyApp(function, ty) => {
            add_tyapp(out, names, variables, types, function.get(), ty)
        }
        CoreTerm::LetRec(bindings, body) => {
            add_letrec(
                out,
                names,
                variables,
                types,
                bindings.as_slice(),
                body.get(),
            )
        }
        CoreTerm::Case(scrutinee, ty, alternatives, otherwise) => add_case(
            out,
            names,
            variables,
            types,
            scrutinee.get(),
            ty,
            alternatives.as_slice(),
            otherwise,
        ),
        CoreTerm::Stop(place, ty) => add_stop(out, names, types, *place, ty),
    }
}

// A function of one variable.
#[cycle(text)]
#[tactic(auto, using(crate::proofs::Places::take_back))]
fn add_lam(
    out: &mut Bytes,
    names: &Names,
    variables: &mut Binders,
    types: &mut Binders,
    x: u32,
    ty: &CoreType,
    body: &CoreTerm,
) -> Result<(), NoMemory>
    requires { needs_term (core.Lam x ty.now body.now) ≤ length names.now }
    ensures text { OnOk result (out.new ≡ out.old ++ term_text names.now (core.Lam x ty.now body.now) variables.old types.old) }
    ensures variables { OnOk result (variables.new ≡ variables.old) }
    ensures types { OnOk result (types.new ≡ types.old) }
{
    let count = variables.count();
    add(out, b"(lam ")?;
    add_binder(out, names, types, count, ty)?;
    add(out, b") ")?;
    variables.bind(x)?;
    add_term(out, names, variables, types, body)?;
    variables.keep(count);
    add(out, b")")
}

// A function and its argument.
#[cycle(text)]
fn add_app(
    out: &mut Bytes,
    names: &Names,
    variables: &mut Binders,
    types: &mut Binders,
    function: &CoreTerm,
    argument: &CoreTerm,
) -> Result<(), NoMemory>
    requires { needs_term (core.App function.now argument.now) ≤ length names.now }
    ensures text { OnOk result (out.new ≡ out.old ++ term_text names.now (core.App function.now argument.now) variables.old types.old) }
    ensures variables { OnOk result (variables.new ≡ variables.old) }
    ensures types { OnOk result (types.new ≡ types.old) }
{
    add(out, b"(app ")?;
    add_term(out, names, variables, types, function)?;
    add(out, b" ")?;
    add_term(out, names, variables, types, argument)?;
    add(out, b")")
}

// A function of one type.
#[cycle(text)]
#[tactic(auto, using(crate::proofs::Places::take_back))]
fn add_tylam(
    out: &mut Bytes,
    names: &Names,
    variables: &mut Binders,
    types: &mut Binders,
    x: u32,
    kind: &Kind,
    body: &CoreTerm,
) -> Result<(), NoMemory>
    requires { needs_term (core.TyLam x kind.now body.now) ≤ length names.now }
    ensures text { OnOk result (out.new ≡ out.old ++ term_text names.now (core.TyLam x kind.now body.now) variables.old types.old) }
    ensures variables { OnOk result (variables.new ≡ variables.old) }
    ensures types { OnOk result (types.new ≡ types.old) }
{
    let count = types.count();
    add(out, b"(tylam ")?;
    add_type_binder(out, count, kind)?;
    add(out, b" ")?;
    types.bind(x)?;
    add_term(out, names, variables, types, body)?;
    types.keep(count);
    add(out, b")")
}

// A function and the type that it is applied to.
#[cycle(text)]
fn add_tyapp(
    out: &mut Bytes,
    names: &Names,
    variables: &mut Binders,
    types: &mut Binders,
    function: &CoreTerm,
    ty: &CoreType,
) -> Result<(), NoMemory>
    requires { needs_term (core.TyApp function.now ty.now) ≤ length names.now }
    ensures text { OnOk result (out.new ≡ out.old ++ term_text names.now (core.TyApp function.now ty.now) variables.old types.old) }
    ensures variables { OnOk result (variables.new ≡ variables.old) }
    ensures types { OnOk result (types.new ≡ types.old) }
{
    add(out, b"(tyapp ")?;
    add_term(out, names, variables, types, function)?;
    add(out, b" ")?;
    add_type(out, names, types, ty, false)?;
    add(out, b")")
}

// A term under bindings that refer to one another.
#[cycle(text)]
#[tactic(auto, using(crate::proofs::Places::take_back, crate::proofs::Shapes::letrec_needs))]
fn add_letrec(
    out: &mut Bytes,
    names: &Names,
    variables: &mut Binders,
    types: &mut Binders,
    bindings: &[(u32, CoreType, CoreTerm)],
    body: &CoreTerm,
) -> Result<(), NoMemory>
    requires { needs_term (core.LetRec bindings.now body.now) ≤ length names.now }
    ensures text { OnOk result (out.new ≡ out.old ++ term_text names.now (core.LetRec bindings.now body.now) variables.old types.old) }
    ensures variables { OnOk result (variables.new ≡ variables.old) }
    ensures types { OnOk result (types.new ≡ types.old) }
{
    add(out, b"(letrec (")?;
    let count = bind_all(variables, bindings)?;
    add_bindings(out, names, variables, types, count, bindings)?;
    add(out, b") ")?;
    add_term(out, names, variables, types, body)?;
    variables.keep(count);
    add(out, b")")
}

// Bindings, the first of them at this level.
#[cycle(text)]
fn add_bindings(
    out: &mut Bytes,
    names: &Names,
    variables: &mut Binders,
    types: &mut Binders,
    count: usize,
    bindings: &[(u32, CoreType, CoreTerm)],
) -> Result<(), NoMemory>
    requires count { count + length bindings.now < 2 ^ 64 }
    requires needs { needs_bindings needs_term bindings.now ≤ length names.now }
    ensures text { OnOk result (out.new ≡ out.old ++ bindings_text names.now (term_text names.now) count 0 bindings.now variables.old types.old) }
    ensures variables { OnOk result (variables.new ≡ variables.old) }
    ensures types { OnOk result (types.new ≡ types.old) }
{
    let mut place: usize = 0;
    for (_, ty, term) in bindings {
        add_gap(out, place)?;
        add_binder(out, names, types, count + place, ty)?;
        add(out, b" ")?;
        add_term(out, names, variables, types, term)?;
        add(out, b")")?;
        place += 1;
    }
    Ok(())
}

// A choice by the form of a value.
#[cycle(text)]
#[tactic(auto, using(crate::proofs::Forms::needs_Case))]
fn add_case(
    out: &mut Bytes,
    names: &Names,
    variables: &mut Binders,
    types: &mut Binders,
    scrutinee: &CoreTerm,
    ty: &CoreType,
    alternatives: &[CoreAlt],
    otherwise: &Option<Boxed<CoreTerm>>,
) -> Result<(), NoMemory>
    requires { needs_term (core.Case scrutinee.now ty.now alternatives.now otherwise.now) ≤ length names.now }
    ensures text { OnOk result (out.new ≡ out.old ++ term_text names.now (core.Case scrutinee.now ty.now alternatives.now otherwise.now) variables.old types.old) }
    ensures variables { OnOk result (variables.new ≡ variables.old) }
    ensures types { OnOk result (types.new ≡ types.old) }
{
    add(out, b"(case ")?;
    add_term(out, names, variables, types, scrutinee)?;
    add(out, b" ")?;
    add_type(out, names, types, ty, false)?;
    add_alternatives(out, names, variables, types, alternatives)?;
    add_otherwise(out, names, variables, types, otherwise)?;
    add(out, b")")
}

// What a choice comes to where no alternative fits.
#[cycle(text)]
fn add_otherwise(
    out: &mut Bytes,
    names: &Names,
    variables: &mut Binders,
    types: &mut Binders,
    otherwise: &Option<Boxed<CoreTerm>>,
) -> Result<(), NoMemory>
    requires { needs_else (option_map needs_term otherwise.now) ≤ length names.now }
    ensures text { OnOk result (out.new ≡ out.old ++ else_text (option_map (term_text names.now) otherwise.now) variables.old types.old) }
    ensures variables { OnOk result (variables.new ≡ variables.old) }
    ensures types { OnOk result (types.new ≡ types.old) }
{
    match otherwise {
        None => Ok(()),
        Some(otherwise) => {
            add(out, b" (else ")?;
            add_term(out, names, variables, types, otherwise.get())?;
            add(out, b")")
        }
    }
}

#[cycle(text)]
fn add_alternatives(
    out: &mut Bytes,
    names: &Names,
    variables: &mut Binders,
    types: &mut Binders,
    alternatives: &[CoreAlt],
) -> Result<(), NoMemory>
    requires { needs_all (map needs_alt alternatives.now) ≤ length names.now }
    ensures text { OnOk result (out.new ≡ out.old ++ alts_text (map (alt_text names.now) alternatives.now) variables.old types.old) }
    ensures variables { OnOk result (variables.new ≡ variables.old) }
    ensures types { OnOk result (types.new ≡ types.old) }
{
    for alternative in alternatives {
        add(out, b" ")?;
        add_alternative(out, names, variables, types, alternative)?;
    }
    Ok(())
}

#[cycle(text)]
#[tactic(auto, using(crate::proofs::Places::take_back))]
fn add_alternative(
    out: &mut Bytes,
    names: &Names,
    variables: &mut Binders,
    types: &mut Binders,
    alternative: &CoreAlt,
) -> Result<(), NoMemory>
    requires { needs_alt alternative.now ≤ length names.now }
    ensures text { OnOk result (out.new ≡ out.old ++ alt_text names.now alternative.now variables.old types.old) }
    ensures variables { OnOk result (variables.new ≡ variables.old) }
    ensures types { OnOk result (types.new ≡ types.old) }
{
    match alternative {
        CoreAlt::Con(con, fields, term) => {
            let count = variables.count();
            add(out, b"(alt ")?;
            add_origin(out, names, *con)?;
            add_fields(out, variables, fields.as_slice())?;
            add(out, b" ")?;
            add_term(out, names, variables, types, term)?;
            variables.keep(count);
            add(out, b")")
        }
        CoreAlt::Int(number, term) => {
            add(out, b"(int ")?;
            add_integer(out, *number)?;
            add(out, b" ")?;
            add_term(out, names, variables, types, term)?;
            add(out, b")")
        }
        CoreAlt::Char(char, term) => {
            add(out, b"(char ")?;
            add_number(out, *char as u64)?;
            add(out, b" ")?;
            add_term(out, names, variables, types, term)?;
            add(out, b")")
        }
    }
}
