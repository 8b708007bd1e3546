// Programs as text.
ghost use Rattle.std.specs.Prelude.{◌≡◌, ◌≤◌, ◌++◌, [], length, OnOk, IfOk};
ghost use Rattle.gh_core_text.specs.Needs.{needs_type, needs_term, needs_fields, needs_con, needs_cons, needs_decl, needs_decls, needs_def, needs_defs, needs_program};
ghost use Rattle.gh_core.specs.Text.{type_text, term_text, params_text, fields_text, con_text, cons_text, data_word, decl_text, decls_text, def_text, defs_text, program_text};

use crate::binders::Binders;
use crate::terms::add_term;
use crate::types::{add, add_core_name, add_field, add_gap, add_origin, add_type, add_type_binder};
use gh_base::{Bytes, ListOf, Names, NoMemory};
use gh_core::{CoreProgram, CoreTerm, CoreType, Def};
use gh_typeterm::{DeclCon, DeclData, Kind, Ty};
use std::alloc::Global;

fn add_params(out: &mut Bytes, params: &[Kind]) -> Result<(), NoMemory>
    ensures { OnOk result (out.new ≡ out.old ++ params_text 0 params.now) }
{
    for (place, kind) in params.iter().enumerate() {
        add_gap(out, place)?;
        add_type_binder(out, place, kind)?;
    }
    Ok(())
}

fn add_field_types(out: &mut Bytes, names: &Names, fields: &[Ty]) -> Result<(), NoMemory>
    requires { needs_fields fields.now ≤ length names.now }
    ensures { OnOk result (out.new ≡ out.old ++ fields_text names.now fields.now) }
{
    for field in fields {
        add(out, b" ")?;
        add_field(out, names, field, false)?;
    }
    Ok(())
}

fn add_constructor(out: &mut Bytes, names: &Names, con: &DeclCon) -> Result<(), NoMemory>
    requires { needs_con con.now ≤ length names.now }
    ensures { OnOk result (out.new ≡ out.old ++ con_text names.now con.now) }
{
    add(out, b" (")?;
    add_origin(out, names, con.origin)?;
    add_field_types(out, names, con.fields.as_slice())?;
    add(out, b")")
}

fn add_constructors(out: &mut Bytes, names: &Names, cons: &[DeclCon]) -> Result<(), NoMemory>
    requires { needs_cons cons.now ≤ length names.now }
    ensures { OnOk result (out.new ≡ out.old ++ cons_text names.now cons.now) }
{
    for con in cons {
        add_constructor(out, names, con)?;
    }
    Ok(())
}

fn add_data_word(out: &mut Bytes, is_newtype: bool) -> Result<(), NoMemory>
    ensures { OnOk result (out.new ≡ out.old ++ data_word is_newtype) }
{
    if is_newtype {
        return add(out, b"(newtype ");
    }
    add(out, b"(data ")
}

fn add_decl(out: &mut Bytes, names: &Names, decl: &DeclData) -> Result<(), NoMemory>
    requires { needs_decl decl.now ≤ length names.now }
    ensures { OnOk result (out.new ≡ out.old ++ decl_text names.now decl.now) }
{
    add_data_word(out, decl.is_newtype)?;
    add_origin(out, names, decl.origin)?;
    add(out, b" (")?;
    add_params(out, decl.params.as_slice())?;
    add(out, b")")?;
    add_constructors(out, names, decl.constructors.as_slice())?;
    add(out, b")\n")
}

fn add_decls(out: &mut Bytes, names: &Names, decls: &[DeclData]) -> Result<(), NoMemory>
    requires { needs_decls decls.now ≤ length names.now }
    ensures { OnOk result (out.new ≡ out.old ++ decls_text names.now decls.now) }
{
    for decl in decls {
        add_decl(out, names, decl)?;
    }
    Ok(())
}

// A type that stands inside no binder.
fn add_closed_type(
    alloc: Global,
    out: &mut Bytes,
    names: &Names,
    ty: &CoreType,
) -> Result<(), NoMemory>
    requires { needs_type ty.now ≤ length names.now }
    ensures { OnOk result (out.new ≡ out.old ++ type_text names.now ty.now []) }
{
    let mut types = Binders::new(alloc);
    add_type(out, names, &mut types, ty, false)
}

// A term that stands inside no binder.
fn add_closed_term(
    alloc: Global,
    out: &mut Bytes,
    names: &Names,
    term: &CoreTerm,
) -> Result<(), NoMemory>
    requires { needs_term term.now ≤ length names.now }
    ensures { OnOk result (out.new ≡ out.old ++ term_text names.now term.now [] []) }
{
    let mut variables = Binders::new(alloc);
    let mut types = Binders::new(alloc);
    add_term(out, names, &mut variables, &mut types, term)
}

fn add_def(alloc: Global, out: &mut Bytes, names: &Names, def: &Def) -> Result<(), NoMemory>
    requires { needs_def def.now ≤ length names.now }
    ensures { OnOk result (out.new ≡ out.old ++ def_text names.now def.now) }
{
    add(out, b"(def ")?;
    add_core_name(out, names, def.name)?;
    add(out, b" ")?;
    add_closed_type(alloc, out, names, &def.ty)?;
    add(out, b"\n ")?;
    add_closed_term(alloc, out, names, &def.term)?;
    add(out, b")\n")
}

fn add_defs(alloc: Global, out: &mut Bytes, names: &Names, defs: &[Def]) -> Result<(), NoMemory>
    requires { needs_defs defs.now ≤ length names.now }
    ensures { OnOk result (out.new ≡ out.old ++ defs_text names.now defs.now) }
{
    for def in defs {
        add_def(alloc, out, names, def)?;
    }
    Ok(())
}

fn add_program(
    alloc: Global,
    out: &mut Bytes,
    names: &Names,
    program: &CoreProgram,
) -> Result<(), NoMemory>
    requires { needs_program program.now ≤ length names.now }
    ensures { OnOk result (out.new ≡ out.old ++ program_text names.now program.now) }
{
    add(out, b"(core 1\n")?;
    add_decls(out, names, program.decls.as_slice())?;
    add_defs(alloc, out, names, program.defs.as_slice())?;
    add(out, b"(main ")?;
    add_closed_term(alloc, out, names, &program.main)?;
    add(out, b"))\n")
}

/// The text of a program of typed core: a line that opens it, its datatypes, its definitions and its `main`, each
/// ended by a line feed. A variable is printed as its level: `v` for a variable of terms and `t` for one of types, with
/// the number of binders of its sort, in the same item, that were bound before it. So the text does not depend on the
/// numbers of bound variables. The ids in the program are of the table: `needs_program` is the least number of names
/// that a table with all of them has. `NoMemory` where a request for memory is not met.
pub fn core_text(alloc: Global, names: &Names, program: &CoreProgram) -> Result<Bytes, NoMemory>
    requires { needs_program program.now ≤ length names.now }
    ensures { IfOk result (λ text. text ≡ program_text names.now program.now) }
{
    let mut out = ListOf::new(alloc);
    add_program(alloc, &mut out, names, program)?;
    Ok(out)
}
