// The tables of a program.
ghost use Rattle.std.specs.Prelude.{◌≡◌, ◌++◌, length, map, option_map, slice_get, IfOk, OnOk, Some};
ghost use Rattle.std.specs.Option.{option_copied};
ghost use Rattle.gh_base.specs.declared.place.Origin.{Origin};
ghost use Rattle.gh_typeterm.specs.declared.decl.DeclCon.{DeclCon};
ghost use Rattle.gh_typeterm.specs.declared.decl.DeclData.{DeclData};
ghost use Rattle.gh_core.specs.Typing.{con_of, decl_of, def_name, global_type};
ghost use Rattle.gh_core_lint.specs.Tables.{cons_with, decl_name, def_type, flat, pair_at, ref_name};
ghost use Rattle.gh_core_lint.specs.Programs.{IsKnown, program_of};
ghost use Rattle.gh_core_lint.specs.Types.{type_at};

use crate::binders::Binders;
use crate::index::Index;
use crate::known::Known;
use crate::place::place;
use crate::types::Type;
use gh_base::{ListOf, NoMemory, Origin};
use gh_core::{CoreName, CoreProgram, Def};
use gh_typeterm::{DeclCon, DeclData};
use std::alloc::Global;

fn decl_names(alloc: Global, decls: &[DeclData]) -> Result<ListOf<CoreName>, NoMemory>
    ensures { IfOk result (λ names. names ≡ map decl_name decls.now) }
{
    let mut names = ListOf::new(alloc);
    for decl in decls {
        names.push(CoreName::Plain(decl.origin))?;
    }
    Ok(names)
}

fn def_names(alloc: Global, defs: &[Def]) -> Result<ListOf<CoreName>, NoMemory>
    ensures { IfOk result (λ names. names ≡ map def_name defs.now) }
{
    let mut names = ListOf::new(alloc);
    for def in defs {
        names.push(def.name)?;
    }
    Ok(names)
}

fn def_types(alloc: Global, defs: &[Def]) -> Result<ListOf<Type>, NoMemory>
    ensures { IfOk result (λ types. map type_at types ≡ map def_type defs.now) }
{
    let none = Binders::new(alloc);
    let mut types = ListOf::new(alloc);
    for def in defs {
        types.push(place(alloc, &none, &def.ty)?)?;
    }
    Ok(types)
}

// Adds the constructors of a datatype.
fn add_cons<'a>(
    list: &mut ListOf<(&'a DeclData, &'a DeclCon)>,
    decl: &'a DeclData,
) -> Result<(), NoMemory>
    ensures { OnOk result (map pair_at list.new ≡ map pair_at list.old ++ cons_with decl.now decl.now.constructors) }
{
    for con in decl.constructors.as_slice() {
        list.push((decl, con))?;
    }
    Ok(())
}

fn all_cons<'a>(
    alloc: Global,
    decls: &'a [DeclData],
) -> Result<ListOf<(&'a DeclData, &'a DeclCon)>, NoMemory>
    ensures { IfOk result (λ list. map pair_at list ≡ flat decls.now) }
{
    let mut list = ListOf::new(alloc);
    for decl in decls {
        add_cons(&mut list, decl)?;
    }
    Ok(list)
}

fn con_names(alloc: Global, cons: &[(&DeclData, &DeclCon)]) -> Result<ListOf<CoreName>, NoMemory>
    ensures { IfOk result (λ names. names ≡ map ref_name cons.now) }
{
    let mut names = ListOf::new(alloc);
    for place in 0..cons.len() {
        names.push(CoreName::Plain(cons[place].1.origin))?;
    }
    Ok(names)
}

fn decl_at(decls: &[DeclData], place: usize) -> Option<&DeclData>
    ensures { option_copied result ≡ slice_get decls.now place }
{
    if place < decls.len() {
        Some(&decls[place])
    } else {
        None
    }
}

fn con_at<'a>(
    cons: &[(&'a DeclData, &'a DeclCon)],
    place: usize,
) -> Option<(&'a DeclData, &'a DeclCon)>
    ensures { result ≡ slice_get cons.now place }
{
    if place < cons.len() {
        Some(cons[place])
    } else {
        None
    }
}

fn type_there(types: &[Type], place: usize) -> Result<Option<Type>, NoMemory>
    ensures { IfOk result (λ ty. ty ≡ slice_get types.now place) }
{
    if place < types.len() {
        Ok(Some(types[place].share()?))
    } else {
        Ok(None)
    }
}

impl<'a> Known<'a> {
    /// The tables of a program; none where a name is doubled.
    pub fn new(alloc: Global, program: &'a CoreProgram) -> Result<Option<Known<'a>>, NoMemory>
        ensures { IfOk result (λ made. IsKnown program.now made) }
    {
        let decls = program.decls.as_slice();
        let defs = program.defs.as_slice();
        let datatypes = match Index::new(alloc, decl_names(alloc, decls)?)? {
            Some(index) => index,
            None => return Ok(None),
        };
        let cons = all_cons(alloc, decls)?;
        let con_names = match Index::new(alloc, con_names(alloc, cons.as_slice())?)? {
            Some(index) => index,
            None => return Ok(None),
        };
        let globals = match Index::new(alloc, def_names(alloc, defs)?)? {
            Some(index) => index,
            None => return Ok(None),
        };
        let types = def_types(alloc, defs)?;
        Ok(Some(Known {
            decls,
            datatypes,
            cons,
            con_names,
            globals,
            types,
        }))
    }

    /// The datatypes in their order.
    pub fn decls(&self) -> &'a [DeclData]
        ensures { result.now ≡ (program_of self.now).decls }
    {
        self.decls
    }

    /// The datatype that has this name, if the program declares one.
    pub fn datatype(&self, origin: Origin) -> Option<&'a DeclData>
        ensures { option_copied result ≡ decl_of (program_of self.now).decls origin }
    {
        match self.datatypes.place(CoreName::Plain(origin)) {
            Some(place) => decl_at(self.decls, place),
            None => None,
        }
    }

    /// The datatype of a constructor, and the constructor in it.
    pub fn constructor(&self, origin: Origin) -> Option<(&'a DeclData, &'a DeclCon)>
        ensures found { option_map pair_at result ≡ con_of (program_of self.now).decls origin }
        ensures own { (q : DeclData × DeclCon) → con_of (program_of self.now).decls origin ≡ Some q
            → decl_of (program_of self.now).decls q.0.origin ≡ Some q.0 }
    {
        match self.con_names.place(CoreName::Plain(origin)) {
            Some(place) => con_at(self.cons.as_slice(), place),
            None => None,
        }
    }

    /// The type of a definition.
    pub fn global(&self, name: CoreName) -> Result<Option<Type>, NoMemory>
        ensures { IfOk result (λ ty. option_map type_at ty ≡ global_type (program_of self.now).globals name) }
    {
        match self.globals.place(name) {
            Some(place) => type_there(self.types.as_slice(), place),
            None => Ok(None),
        }
    }
}
