// Stores of type terms, worked out by hand.
use gh_base::{NameId, NoMemory, Origin, Space, TyCon};
use gh_typeterm::{Ty, TyStore, same, size};
use std::alloc::Global;
use std::process::Abort;
use std::test::Fail;

fn named(alloc: Global, space: Space, name: u32) -> Result<Ty, NoMemory> {
    Ty::con(
        alloc,
        TyCon::Named(Origin {
            module: NameId(0),
            space,
            name: NameId(name),
        }),
    )
}

// The list of a type.
fn list(alloc: Global, item: &Ty) -> Result<Ty, NoMemory> {
    Ty::app(alloc, named(alloc, Space::Types, 1)?, item.share()?)
}

// The pair of a type with itself: three nodes and twice its own.
fn twice(alloc: Global, part: &Ty) -> Result<Ty, NoMemory> {
    let first = Ty::app(alloc, named(alloc, Space::Types, 2)?, part.share()?)?;
    Ty::app(alloc, first, part.share()?)
}

// A store of a test, which holds little.
#[derive(Drop)]
struct Shelf {
    store: TyStore,
}

impl Shelf {
    fn new(alloc: Global) -> Shelf {
        Shelf {
            store: TyStore::new(alloc),
        }
    }

    fn place(&mut self, rt: &impl Abort, term: &Ty) -> Result<u32, NoMemory> {
        let Some(nodes) = size(term, 100_000) else {
            return Err(NoMemory);
        };
        let held = self.store.len();
        assert!(rt; held < 1000);
        assert!(rt; nodes < 200_000);
        self.store.add(term)
    }

    // Whether this term stands at a place.
    fn has(&self, rt: &impl Abort, place: u32, term: &Ty) -> bool {
        assert!(rt; place < self.store.len());
        same(self.store.get(place), term)
    }

    fn nodes(&self, rt: &impl Abort, place: u32) -> u32 {
        assert!(rt; place < self.store.len());
        self.store.nodes(place)
    }
}

// Whether a list of lists of integers and a list of integers take the places that are theirs.
fn lists(rt: &impl Abort, alloc: Global, shelf: &mut Shelf) -> Result<bool, NoMemory> {
    let one = list(alloc, &Ty::con(alloc, TyCon::Int)?)?;
    let two = list(alloc, &one)?;
    Ok(shelf.place(rt, &one)? == 2 && shelf.place(rt, &two)? == 3 && shelf.has(rt, 2, &one))
}

// The list constructor, the integers, their list and the list of that: each once, however often it is asked for.
#[test]
fn each_once(rt: HostRuntime) -> Result<(), Fail> {
    let mut shelf = Shelf::new(rt.alloc());
    assert!(rt; lists(&rt, rt.alloc(), &mut shelf)?);
    assert!(rt; shelf.store.len() == 4);
    assert!(rt; lists(&rt, rt.alloc(), &mut shelf)?);
    assert!(rt; shelf.store.len() == 4);
    Ok(())
}

// Whether terms that look alike take the next places, one after another.
fn alike(rt: &impl Abort, alloc: Global, shelf: &mut Shelf) -> Result<bool, NoMemory> {
    Ok(
        shelf.place(rt, &Ty::var(alloc, 7)?)? == 0
            && shelf.place(rt, &Ty::name(alloc, 7)?)? == 1
            && shelf.place(rt, &named(alloc, Space::Types, 7)?)? == 2
            && shelf.place(rt, &named(alloc, Space::Values, 7)?)? == 3
            && shelf.place(rt, &Ty::var(alloc, 7)?)? == 0,
    )
}

#[test]
fn different_terms(rt: HostRuntime) -> Result<(), Fail> {
    let mut shelf = Shelf::new(rt.alloc());
    assert!(rt; alike(&rt, rt.alloc(), &mut shelf)?);
    assert!(rt; shelf.store.len() == 4);
    Ok(())
}

// The nodes of the pair of a type with itself, so often.
fn nodes_of_pairs(
    rt: &impl Abort,
    alloc: Global,
    shelf: &mut Shelf,
    times: u32,
) -> Result<u32, NoMemory> {
    let mut term = Ty::con(alloc, TyCon::Int)?;
    for _ in 0..times {
        term = twice(alloc, &term)?;
    }
    let place = shelf.place(rt, &term)?;
    Ok(shelf.nodes(rt, place))
}

// 509 nodes, 1,021 and 2,045, of which the last two count as 1,001.
#[test]
fn counts_nodes(rt: HostRuntime) -> Result<(), Fail> {
    let mut shelf = Shelf::new(rt.alloc());
    assert!(rt; nodes_of_pairs(&rt, rt.alloc(), &mut shelf, 7)? == 509);
    assert!(rt; nodes_of_pairs(&rt, rt.alloc(), &mut shelf, 8)? == 1001);
    assert!(rt; nodes_of_pairs(&rt, rt.alloc(), &mut shelf, 9)? == 1001);
    assert!(rt; shelf.store.len() == 20);
    Ok(())
}
