// The alternatives of a case.
ghost use Rattle.std.specs.Prelude.{◌≡◌, ◌↔◌, ◌+◌, map, IfOk, IsTrue, None, OnOk};
ghost use Rattle.std.specs.HashMap.{get};
ghost use Rattle.gh_base.specs.declared.place.Origin.{Origin};
ghost use Rattle.gh_core.specs.declared.terms.CoreName.TheVariants as name;
ghost use Rattle.gh_core.specs.Typing.{branches_of, con_branch, names_it, times_named, Code, EachOnce, IsCovered, IsData};
ghost use Rattle.gh_core_lint.specs.Branches.{alt_code, tallied, IsChosen};
ghost use Rattle.gh_core_lint.specs.Data.{IsSeen};
ghost use Rattle.gh_core_lint.specs.Faults.{AllFit, AreFields, Fits};
ghost use Rattle.gh_core_lint.specs.Keys.{key_of, same_key};
ghost use Rattle.gh_core_lint.specs.Programs.{program_of};
ghost use Rattle.gh_core_lint.specs.Types.{type_at};

use crate::data::{Sort, is_con, types_of_fields};
use crate::index::{Key, key};
use crate::known::Known;
use crate::types::{Type, next};
use gh_base::{ListOf, NoMemory, Origin, TyCon};
use gh_core::{CoreAlt, CoreName};
use gh_typeterm::{DeclCon, DeclData};
use std::alloc::Global;
use std::collections::HashMap;

fn same_origin(a: Origin, b: Origin) -> bool
    ensures { IsTrue result ↔ (a ≡ b) }
{
    a == b
}

// The datatype and the constructor of an alternative, with the types of a scrutinee of a datatype.
fn chosen_from<'a, 'b>(
    known: &Known<'a>,
    scrutinee: &Type,
    of: &'a DeclData,
    args: &'b [Type],
    con: Origin,
) -> Option<(&'a DeclData, &'a DeclCon, &'b [Type])>
    requires { IsData (program_of known.now).decls (type_at scrutinee.now) of.now (map type_at args.now) }
    ensures { IsChosen (program_of known.now) (type_at scrutinee.now) con result }
{
    match known.constructor(con) {
        Some((decl, found)) => {
            if same_origin(decl.origin, of.origin) {
                Some((decl, found, args))
            } else {
                None
            }
        }
        None => None,
    }
}

// The datatype and the constructor of an alternative, with the types of the scrutinee; none where it is no constructor of
// the scrutinee's datatype.
fn chosen<'a, 'b>(
    known: &Known<'a>,
    scrutinee: &Type,
    sort: &'b Sort<'a>,
    con: Origin,
) -> Option<(&'a DeclData, &'a DeclCon, &'b [Type])>
    requires { IsSeen (program_of known.now).decls (type_at scrutinee.now) sort.now }
    ensures { IsChosen (program_of known.now) (type_at scrutinee.now) con result }
{
    match sort {
        Sort::Data(of, args) => chosen_from(known, scrutinee, *of, args.as_slice(), con),
        Sort::Int => None,
        Sort::Char => None,
        Sort::Other => None,
    }
}

/// The types that an alternative gives its names.
pub fn fields_for(
    alloc: Global,
    known: &Known,
    scrutinee: &Type,
    sort: &Sort,
    con: Origin,
) -> Result<ListOf<Type>, NoMemory>
    requires { IsSeen (program_of known.now).decls (type_at scrutinee.now) sort.now }
    ensures { IfOk result (λ us. AreFields (program_of known.now) (type_at scrutinee.now) con (map type_at us)) }
{
    match chosen(known, scrutinee, sort, con) {
        Some((decl, con, args)) => types_of_fields(alloc, decl, con, args),
        None => Ok(ListOf::new(alloc)),
    }
}

// Whether an alternative of this constructor fits, with these names for its fields.
fn con_fits(known: &Known, scrutinee: &Type, sort: &Sort, con: Origin, names: &[u32]) -> bool
    requires { IsSeen (program_of known.now).decls (type_at scrutinee.now) sort.now }
    ensures { (t : Code) → IsTrue result ↔ Fits (program_of known.now) (type_at scrutinee.now) (con_branch con names.now t) }
{
    match chosen(known, scrutinee, sort, con) {
        Some((_, found, _)) => found.fields.as_slice().len() == names.len(),
        None => false,
    }
}

// Whether an alternative fits its scrutinee.
fn fits(known: &Known, scrutinee: &Type, sort: &Sort, alternative: &CoreAlt) -> bool
    requires { IsSeen (program_of known.now).decls (type_at scrutinee.now) sort.now }
    ensures { IsTrue result ↔ Fits (program_of known.now) (type_at scrutinee.now) (alt_code alternative.now) }
{
    match alternative {
        CoreAlt::Con(con, names, _) => con_fits(known, scrutinee, sort, *con, names.as_slice()),
        CoreAlt::Int(_, _) => is_con(scrutinee, TyCon::Int),
        CoreAlt::Char(_, _) => is_con(scrutinee, TyCon::Char),
    }
}

/// Whether all alternatives fit the scrutinee.
pub fn all_fit(known: &Known, scrutinee: &Type, sort: &Sort, alternatives: &[CoreAlt]) -> bool
    requires { IsSeen (program_of known.now).decls (type_at scrutinee.now) sort.now }
    ensures { IsTrue result ↔ AllFit (program_of known.now) (type_at scrutinee.now) (branches_of (map alt_code alternatives.now) None) }
{
    for alternative in alternatives {
        if !fits(known, scrutinee, sort, alternative) {
            return false;
        }
    }
    true
}

// How often a table says that a constructor is named.
fn times(table: &HashMap<Key, usize>, con: Origin) -> usize
    ensures { result ≡ tallied (get same_key table.now (key_of (name.Plain con))) }
{
    match table.get(&key(CoreName::Plain(con))) {
        Some(count) => *count,
        None => 0,
    }
}

// Counts the constructor that an alternative names, if it names one.
fn count_one(table: &mut HashMap<Key, usize>, alternative: &CoreAlt) -> Result<(), NoMemory>
    ensures { OnOk result ((o : Origin) → tallied (get same_key table.new (key_of (name.Plain o)))
        ≡ names_it o (alt_code alternative.now) + tallied (get same_key table.old (key_of (name.Plain o)))) }
{
    match alternative {
        CoreAlt::Con(con, _, _) => {
            let count = next(times(&*table, *con))?;
            table.insert(key(CoreName::Plain(*con)), count)?;
            Ok(())
        }
        CoreAlt::Int(_, _) => Ok(()),
        CoreAlt::Char(_, _) => Ok(()),
    }
}

// How often alternatives name each constructor.
fn tally(alloc: Global, alternatives: &[CoreAlt]) -> Result<HashMap<Key, usize>, NoMemory>
    ensures { IfOk result (λ table. (o : Origin) → tallied (get same_key table (key_of (name.Plain o)))
        ≡ times_named o (branches_of (map alt_code alternatives.now) None)) }
{
    let mut table = HashMap::new(alloc);
    for alternative in alternatives {
        count_one(&mut table, alternative)?;
    }
    Ok(table)
}

// Whether alternatives name each of these constructors once.
fn each_once(alloc: Global, cons: &[DeclCon], alternatives: &[CoreAlt]) -> Result<bool, NoMemory>
    ensures { IfOk result (λ holds. IsTrue holds ↔ EachOnce cons.now (branches_of (map alt_code alternatives.now) None)) }
{
    let table = tally(alloc, alternatives)?;
    for con in cons {
        if times(&table, con.origin) != 1 {
            return Ok(false);
        }
    }
    Ok(true)
}

/// Whether a case without an `else` has an alternative for each constructor of its scrutinee.
pub fn covered(
    alloc: Global,
    known: &Known,
    scrutinee: &Type,
    sort: &Sort,
    alternatives: &[CoreAlt],
) -> Result<bool, NoMemory>
    requires { IsSeen (program_of known.now).decls (type_at scrutinee.now) sort.now }
    ensures { IfOk result (λ holds. IsTrue holds ↔ IsCovered (program_of known.now).decls (type_at scrutinee.now) (branches_of (map alt_code alternatives.now) None)) }
{
    match sort {
        Sort::Data(decl, _) => each_once(alloc, decl.constructors.as_slice(), alternatives),
        Sort::Int => Ok(false),
        Sort::Char => Ok(false),
        Sort::Other => Ok(false),
    }
}
