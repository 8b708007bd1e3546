// Shelves and outputs in memory and of the host, with failing calls.
use gh_base::{Bytes, ListOf};
use gh_outside::{HostOut, HostShelf, MemOut, MemShelf, Out, OutFault, Shelf, ShelfFault};
use std::alloc::Global;
use std::test::Fail;

fn bytes(alloc: Global, text: &[u8]) -> Result<Bytes, Fail> {
    Ok(ListOf::from_slice(alloc, text)?)
}

fn shelf(alloc: Global, failing: &[u32]) -> Result<MemShelf, Fail> {
    let mut files = ListOf::new(alloc);
    files.push((bytes(alloc, b"a.hs")?, bytes(alloc, b"abcdef")?))?;
    Ok(MemShelf::new(alloc, files, ListOf::from_slice(alloc, failing)?))
}

// Whether a shelf gives these bytes as the first ones of a file.
fn gives(shelf: &mut MemShelf, name: &Bytes, most: u64, wanted: &[u8]) -> bool {
    match shelf.read_file(name, most) {
        Ok(found) => found.as_slice() == wanted,
        Err(_fault) => false,
    }
}

// Whether a reading call fails.
fn fails(shelf: &mut MemShelf, name: &Bytes, most: u64) -> bool {
    matches!(shelf.read_file(name, most), Err(ShelfFault::Failed))
}

#[test]
fn a_shelf_gives_the_first_bytes(rt: HostRuntime) -> Result<(), Fail> {
    let mut shelf = shelf(rt.alloc(), &[])?;
    let name = bytes(rt.alloc(), b"a.hs")?;
    assert!(rt; gives_first(&mut shelf, &name));
    Ok(())
}

fn gives_first(shelf: &mut MemShelf, name: &Bytes) -> bool {
    gives(shelf, name, 4, b"abcd")
        && gives(shelf, name, 7, b"abcdef")
        && shelf.faults(name.as_slice()) == 0
}

#[test]
fn a_name_that_is_not_held_is_a_fault(rt: HostRuntime) -> Result<(), Fail> {
    let mut shelf = shelf(rt.alloc(), &[])?;
    let name = bytes(rt.alloc(), b"b.hs")?;
    assert!(rt; is_not_held(&mut shelf, &name));
    Ok(())
}

// A failure counts at its own name.
fn is_not_held(shelf: &mut MemShelf, name: &Bytes) -> bool {
    fails(shelf, name, 4) && shelf.faults(name.as_slice()) == 1 && shelf.faults(b"a.hs") == 0
}

#[test]
fn a_listed_reading_call_fails(rt: HostRuntime) -> Result<(), Fail> {
    let mut shelf = shelf(rt.alloc(), &[1])?;
    let name = bytes(rt.alloc(), b"a.hs")?;
    assert!(rt; fails_second(&mut shelf, &name));
    Ok(())
}

fn fails_second(shelf: &mut MemShelf, name: &Bytes) -> bool {
    gives(shelf, name, 9, b"abcdef") && fails(shelf, name, 9) && shelf.faults(name.as_slice()) == 1
}

#[test]
fn an_output_keeps_what_is_put(rt: HostRuntime) -> Result<(), Fail> {
    let mut out = MemOut::new(rt.alloc(), 5, ListOf::new(rt.alloc()))?;
    assert!(rt; keeps_five(&mut out));
    Ok(())
}

// An output with room for five bytes keeps those.
fn keeps_five(out: &mut MemOut) -> bool {
    out.put(b"abc") == Ok(())
        && out.put(b"") == Ok(())
        && out.put(b"def") == Err(OutFault::Failed)
        && out.bytes() == b"abcde".as_slice()
        && out.faults() == 1
}

#[test]
fn a_listed_writing_call_writes_nothing(rt: HostRuntime) -> Result<(), Fail> {
    let failing = ListOf::from_slice(rt.alloc(), &[1])?;
    let mut out = MemOut::new(rt.alloc(), 100, failing)?;
    assert!(rt; leaves_out_the_second(&mut out));
    Ok(())
}

fn leaves_out_the_second(out: &mut MemOut) -> bool {
    out.put(b"abc") == Ok(())
        && out.put(b"def") == Err(OutFault::Failed)
        && out.put(b"ghi") == Ok(())
        && out.bytes() == b"abcghi".as_slice()
}

#[test]
fn a_missing_host_file_is_a_fault(rt: HostRuntime) -> Result<(), Fail> {
    let alloc = rt.alloc();
    let name = bytes(alloc, b"/no/such/file.hs")?;
    let mut shelf = HostShelf::new(rt, alloc);
    let answer = shelf.read_file(&name, 9);
    match answer {
        Err(ShelfFault::Failed) => Ok(()),
        _ => Err("a missing file was read")?,
    }
}

#[test]
fn a_host_stream_takes_bytes(rt: HostRuntime) -> Result<(), Fail> {
    let mut out = HostOut::new(rt.stdout());
    assert_eq!(rt; out.put(b""), Ok(()));
    assert_eq!(rt; out.put(b"a line of a test\n"), Ok(()));
    Ok(())
}
