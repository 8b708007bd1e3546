// Small cases, worked out by hand.
ghost use Rattle.gh_typeterm.specs.Terms.{vars_step};

use gh_base::{ListOf, NameId, NoMemory, Origin, Space, TyCon};
use gh_typeterm::{
    DeclCon, DeclData, Kind, Ty, TyNode, TypeWalk, copy_decl, copy_kind, same, same_kind,
    share_terms, size, substitute, walk,
};
use sqlite_items::Boxed;
use std::alloc::Global;
use std::process::Abort;
use std::test::Fail;

fn arrow(alloc: Global, from: Ty, to: Ty) -> Result<Ty, NoMemory> {
    let head = Ty::app(alloc, Ty::con(alloc, TyCon::Arrow)?, from)?;
    Ty::app(alloc, head, to)
}

// `v0 -> v1 -> n0`
fn two_arrows(alloc: Global) -> Result<Ty, NoMemory> {
    let inner = arrow(alloc, Ty::var(alloc, 1)?, Ty::name(alloc, 0)?)?;
    arrow(alloc, Ty::var(alloc, 0)?, inner)
}

// Nine nodes, which a smaller limit does not take.
fn has_nine_nodes(term: &Ty) -> bool {
    size(term, 9) == Some(9)
        && size(term, 1000) == Some(9)
        && size(term, 8) == None
        && size(term, 0) == None
}

#[test]
fn counts_nodes(rt: HostRuntime) -> Result<(), Fail> {
    let term = two_arrows(rt.alloc())?;
    assert!(rt; has_nine_nodes(&term));
    Ok(())
}

// Whether two types that were made are the same.
fn are_same(left: Result<Ty, NoMemory>, right: Result<Ty, NoMemory>) -> Result<bool, NoMemory> {
    Ok(same(&left?, &right?))
}

#[test]
fn compares_terms(rt: HostRuntime) -> Result<(), Fail> {
    let alloc = rt.alloc();
    assert!(rt; are_same(two_arrows(alloc), two_arrows(alloc))?);
    assert!(rt; !are_same(Ty::name(alloc, 3), Ty::var(alloc, 3))?);
    assert!(rt; !are_same(Ty::name(alloc, 3), Ty::name(alloc, 4))?);
    assert!(rt; !are_same(Ty::con(alloc, TyCon::Int), Ty::con(alloc, TyCon::Char))?);
    Ok(())
}

fn replaced(alloc: Global) -> Result<Ty, NoMemory> {
    let mut by = ListOf::new(alloc);
    by.push((1, Ty::var(alloc, 0)?))?;
    by.push((0, Ty::con(alloc, TyCon::Int)?))?;
    by.push((1, Ty::con(alloc, TyCon::Char)?))?;
    let term = two_arrows(alloc)?;
    substitute(alloc, &term, &by)
}

#[test]
fn replaces_variables(rt: HostRuntime) -> Result<(), Fail> {
    let alloc = rt.alloc();
    let inner = arrow(alloc, Ty::var(alloc, 0)?, Ty::name(alloc, 0)?)?;
    let wanted = arrow(alloc, Ty::con(alloc, TyCon::Int)?, inner)?;
    assert!(rt; same(&replaced(alloc)?, &wanted));
    Ok(())
}

#[derive(Drop)]
struct Vars {
    alloc: Global,
}

impl TypeWalk for Vars {
    type Out = ListOf<u32>;

    ghost step = { λ _ node. vars_step node };

    fn con(&mut self, _c: &TyCon) -> Result<ListOf<u32>, NoMemory> {
        Ok(ListOf::new(self.alloc))
    }

    fn var(&mut self, v: u32) -> Result<ListOf<u32>, NoMemory> {
        ListOf::from_slice(self.alloc, &[v])
    }

    fn name(&mut self, _n: u32) -> Result<ListOf<u32>, NoMemory> {
        Ok(ListOf::new(self.alloc))
    }

    fn app(&mut self, head: ListOf<u32>, arg: ListOf<u32>) -> Result<ListOf<u32>, NoMemory> {
        let mut all = head;
        all.extend_from_slice(arg.as_slice())?;
        Ok(all)
    }
}

#[test]
fn walks_from_left_to_right(rt: HostRuntime) -> Result<(), Fail> {
    let alloc = rt.alloc();
    let found = walk(&two_arrows(alloc)?, &mut Vars { alloc })?;
    assert_eq!(rt; found.as_slice(), [0, 1].as_slice());
    Ok(())
}

fn kind(alloc: Global, from: Kind, to: Kind) -> Result<Kind, NoMemory> {
    Ok(Kind::Arrow(Boxed::new(alloc, from)?, Boxed::new(alloc, to)?))
}

#[test]
fn compares_kinds(rt: HostRuntime) -> Result<(), Fail> {
    let alloc = rt.alloc();
    let left = kind(alloc, kind(alloc, Kind::Star, Kind::Star)?, Kind::Star)?;
    let right = kind(alloc, Kind::Star, kind(alloc, Kind::Star, Kind::Star)?)?;
    assert!(rt; same_kind(&left, &copy_kind(alloc, &left)?));
    assert!(rt; !same_kind(&left, &right));
    Ok(())
}

fn origin(space: Space, name: u32) -> Origin {
    Origin {
        module: NameId(900),
        space,
        name: NameId(name),
    }
}

// A newtype whose constructor has this field
fn declaration(alloc: Global, field: &Ty) -> Result<DeclData, NoMemory> {
    let mut fields = ListOf::new(alloc);
    fields.push(field.share()?)?;
    let mut params = ListOf::new(alloc);
    params.push(Kind::Star)?;
    let mut constructors = ListOf::new(alloc);
    constructors.push(DeclCon {
        origin: origin(Space::Values, 902),
        fields: share_terms(alloc, fields.as_slice())?,
    })?;
    Ok(DeclData {
        origin: origin(Space::Types, 901),
        is_newtype: true,
        params,
        constructors,
    })
}

#[test]
fn copies_a_declaration(rt: HostRuntime) -> Result<(), Fail> {
    let alloc = rt.alloc();
    let field = two_arrows(alloc)?;
    let copy = copy_decl(alloc, &declaration(alloc, &field)?)?;
    assert!(rt; is_declaration(&copy, &field));
    Ok(())
}

fn is_declaration(decl: &DeclData, field: &Ty) -> bool {
    let constructors = decl.constructors.as_slice();
    decl.origin == origin(Space::Types, 901)
        && decl.is_newtype
        && decl.params.as_slice().len() == 1
        && constructors.len() == 1
        && is_constructor(&constructors[0], field)
}

fn is_constructor(constructor: &DeclCon, field: &Ty) -> bool {
    let fields = constructor.fields.as_slice();
    constructor.origin == origin(Space::Values, 902) && fields.len() == 1 && same(&fields[0], field)
}

fn wrong(rt: &impl Abort) -> Result<(), Fail> {
    assert!(rt; false, "another number of parts");
    Ok(())
}

#[test]
fn opens_shared_terms(rt: HostRuntime) -> Result<(), Fail> {
    let alloc = rt.alloc();
    let term = Ty::app(alloc, Ty::name(alloc, 5)?, Ty::var(alloc, 6)?)?;
    let TyNode::App(head, arg) = term.get() else {
        return wrong(&rt);
    };
    assert!(rt; matches!(head.get(), TyNode::Name(5)));
    assert!(rt; matches!(arg.get(), TyNode::Var(6)));
    Ok(())
}
