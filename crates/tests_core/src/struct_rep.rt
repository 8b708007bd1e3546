// The worked cases.
ghost use Rattle.std.specs.Prelude.{◌<◌};

use gh_base::fixed::{PRELUDE, PROD, SUM, UNIT};
use gh_base::{ListOf, NameId, NoMemory, Origin, Space, TyCon};
use gh_struct_rep::{paths, rep};
use gh_typeterm::{DeclCon, DeclData, Kind, Ty, same};
use std::alloc::Global;
use std::process::Abort;
use std::test::Fail;

fn named(space: Space, name: u32) -> Origin {
    Origin {
        module: NameId(900),
        space,
        name: NameId(name),
    }
}

fn prelude(alloc: Global, name: NameId) -> Result<Ty, NoMemory> {
    let origin = Origin {
        module: PRELUDE,
        space: Space::Types,
        name,
    };
    Ty::con(alloc, TyCon::Named(origin))
}

fn two(alloc: Global, join: NameId, left: Ty, right: Ty) -> Result<Ty, NoMemory> {
    let head = Ty::app(alloc, prelude(alloc, join)?, left)?;
    Ty::app(alloc, head, right)
}

fn layer(alloc: Global, con: u32, fields: Ty) -> Result<Ty, NoMemory> {
    let head = Ty::con(alloc, TyCon::ConOf(named(Space::Values, con)))?;
    Ty::app(alloc, head, fields)
}

fn tree(alloc: Global) -> Result<Ty, NoMemory> {
    let head = Ty::con(alloc, TyCon::Named(named(Space::Types, 901)))?;
    Ty::app(alloc, head, Ty::var(alloc, 0)?)
}

// `data Tree a = Leaf | Node (Tree a) a (Tree a)`
fn tree_data(alloc: Global) -> Result<DeclData, NoMemory> {
    let mut fields = ListOf::new(alloc);
    fields.push(tree(alloc)?)?;
    fields.push(Ty::var(alloc, 0)?)?;
    fields.push(tree(alloc)?)?;
    let mut constructors = ListOf::new(alloc);
    constructors.push(DeclCon {
        origin: named(Space::Values, 902),
        fields: ListOf::new(alloc),
    })?;
    constructors.push(DeclCon {
        origin: named(Space::Values, 903),
        fields,
    })?;
    let mut params = ListOf::new(alloc);
    params.push(Kind::Star)?;
    Ok(DeclData {
        origin: named(Space::Types, 901),
        is_newtype: false,
        params,
        constructors,
    })
}

#[test]
fn represents_trees(rt: HostRuntime) -> Result<(), Fail> {
    let alloc = rt.alloc();
    let made = represented(&rt, alloc)?;
    let leaf = layer(alloc, 902, prelude(alloc, UNIT)?)?;
    let wanted = two(alloc, SUM, leaf, node_layer(alloc)?)?;
    assert!(rt; same(&made, &wanted));
    Ok(())
}

fn represented(rt: &impl Abort, alloc: Global) -> Result<Ty, NoMemory> {
    let decl = tree_data(alloc)?;
    assert!(rt; !decl.constructors.as_slice().is_empty());
    rep(alloc, &decl)
}

// The layer of `Node`.
fn node_layer(alloc: Global) -> Result<Ty, NoMemory> {
    let inner = two(alloc, PROD, Ty::var(alloc, 0)?, tree(alloc)?)?;
    let fields = two(alloc, PROD, tree(alloc)?, inner)?;
    layer(alloc, 903, fields)
}

// Whether this is the path to a constructor, of so many.
fn has_path(alloc: Global, count: u32, at: u32, wanted: &[bool]) -> Result<bool, NoMemory>
    requires { at < count }
{
    let found = paths(alloc, count, at)?;
    Ok(found.as_slice() == wanted)
}

#[test]
fn finds_paths(rt: HostRuntime) -> Result<(), Fail> {
    let alloc = rt.alloc();
    assert!(rt; has_path(alloc, 3, 0, &[false])?);
    assert!(rt; has_path(alloc, 3, 1, &[true, false])?);
    assert!(rt; has_path(alloc, 3, 2, &[true, true])?);
    assert!(rt; has_path(alloc, 1, 0, &[])?);
    Ok(())
}
