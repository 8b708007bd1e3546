// The kinds of the fields of datatypes.
ghost use Rattle.std.specs.Prelude.{◌↔◌, [], length, reverse, IfOk, IsTrue};
ghost use Rattle.gh_typeterm.specs.declared.kind.Kind.TheVariants as kind;
ghost use Rattle.gh_core.specs.Typing.{field_type, field_types, ConsFit, DeclsFit, FieldsFit, HasKind};
ghost use Rattle.gh_core_lint.specs.Programs.{program_of};

use crate::binders::Binders;
use crate::data::field;
use crate::kinds::{Round, has_kind};
use crate::known::Known;
use gh_base::NoMemory;
use gh_typeterm::{DeclCon, DeclData, Kind, Ty};
use std::alloc::Global;

// Whether a field of a datatype with parameters of these kinds is of values.
fn field_fits(alloc: Global, known: &Known, params: &[Kind], ty: &Ty) -> Result<bool, NoMemory>
    ensures { IfOk result (λ holds. IsTrue holds ↔ HasKind (program_of known.now).decls [] (reverse params.now) (field_type (length params.now) ty.now) kind.Star) }
{
    let none = Binders::new(alloc);
    let made = field(alloc, params.len(), ty)?;
    has_kind(
        alloc,
        known,
        &none,
        &Round::Params(params),
        &made,
        &Kind::Star,
    )
}

// Whether the fields of a constructor are of values.
fn constructor_fits(
    alloc: Global,
    known: &Known,
    decl: &DeclData,
    con: &DeclCon,
) -> Result<bool, NoMemory>
    ensures { IfOk result (λ holds. IsTrue holds ↔ FieldsFit (program_of known.now).decls (reverse decl.now.params) (field_types decl.now con.now)) }
{
    for ty in con.fields.as_slice() {
        if !field_fits(alloc, known, decl.params.as_slice(), ty)? {
            return Ok(false);
        }
    }
    Ok(true)
}

// Whether the fields of the constructors of a datatype are of values.
fn decl_fits(alloc: Global, known: &Known, decl: &DeclData) -> Result<bool, NoMemory>
    ensures { IfOk result (λ holds. IsTrue holds ↔ ConsFit (program_of known.now).decls decl.now decl.now.constructors) }
{
    for con in decl.constructors.as_slice() {
        if !constructor_fits(alloc, known, decl, con)? {
            return Ok(false);
        }
    }
    Ok(true)
}

/// Whether the fields of all datatypes are of values.
pub fn fields_fit(alloc: Global, known: &Known) -> Result<bool, NoMemory>
    ensures { IfOk result (λ holds. IsTrue holds ↔ DeclsFit (program_of known.now).decls (program_of known.now).decls) }
{
    for decl in known.decls() {
        if !decl_fits(alloc, known, decl)? {
            return Ok(false);
        }
    }
    Ok(true)
}
