// What the terms of a program may use.
ghost use Rattle.std.specs.Prelude.{◌≡◌, length, map, Some};
ghost use Rattle.gh_base.specs.declared.place.Origin.{Origin};
ghost use Rattle.gh_typeterm.specs.declared.decl.DeclCon.{DeclCon};
ghost use Rattle.gh_typeterm.specs.declared.decl.DeclData.{DeclData};
ghost use Rattle.gh_core.specs.Typing.{con_of, decl_of};
ghost use Rattle.gh_core_lint.specs.Tables.{decl_name, flat, pair_at, pair_name};

use crate::index::Index;
use crate::types::Type;
use gh_base::ListOf;
use gh_typeterm::{DeclCon, DeclData};

/// The datatypes, constructors and definitions of a program by their names.
#[derive(Drop)]
pub struct Known<'a> {
    pub decls: &'a [DeclData],
    pub datatypes: Index,
    pub cons: ListOf<(&'a DeclData, &'a DeclCon)>,
    pub con_names: Index,
    pub globals: Index,
    pub types: ListOf<Type>,
    ghost datatypes_are: { datatypes ≡ map decl_name decls.now },
    ghost cons_are: { map pair_at cons ≡ flat decls.now },
    ghost con_names_are: { con_names ≡ map pair_name (flat decls.now) },
    ghost own: { (c : Origin) (q : DeclData × DeclCon) → con_of decls.now c ≡ Some q → decl_of decls.now q.0.origin ≡ Some q.0 },
    ghost many: { length types ≡ length globals },
}
