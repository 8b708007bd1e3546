// Outputs that fail, and what the lines on err are then.
use gh_base::{Bytes, ListOf, Names};
use gh_driver::genhs;
use gh_outside::{MemOut, MemShelf};
use std::alloc::Global;
use std::test::Fail;

// The words, the calls of out and of err that fail, and the status, out and err that are wanted.
struct Row {
    words: [&'static [u8]; 4],
    out_failing: &'static [u32],
    err_failing: &'static [u32],
    code: u8,
    out: &'static [u8],
    err: &'static [u8],
}

// The files hold `main = "hi"` as a.hs and a name without a binding as b.hs.
fn shelf(alloc: Global) -> Result<MemShelf, Fail> {
    let mut files: ListOf<(Bytes, Bytes)> = ListOf::new(alloc);
    files.push((
        ListOf::from_slice(alloc, b"a.hs")?,
        ListOf::from_slice(alloc, b"main = \"hi\"")?,
    ))?;
    files.push((
        ListOf::from_slice(alloc, b"b.hs")?,
        ListOf::from_slice(alloc, b"main = x")?,
    ))?;
    Ok(MemShelf::new(alloc, files, ListOf::new(alloc)))
}

fn words(alloc: Global, texts: &[&[u8]]) -> Result<ListOf<Bytes>, Fail> {
    let mut words = ListOf::new(alloc);
    for text in texts {
        words.push(ListOf::from_slice(alloc, text)?)?;
    }
    Ok(words)
}

fn output(alloc: Global, failing: &[u32]) -> Result<MemOut, Fail> {
    Ok(MemOut::new(alloc, 1000, ListOf::from_slice(alloc, failing)?)?)
}

fn is_met(alloc: Global, row: &Row) -> Result<bool, Fail> {
    let mut names = Names::new(alloc)?;
    let words = words(alloc, &row.words)?;
    let mut shelf = shelf(alloc)?;
    let mut out = output(alloc, row.out_failing)?;
    let mut err = output(alloc, row.err_failing)?;
    let status = genhs(
        alloc,
        &mut names,
        words.as_slice(),
        &mut shelf,
        &mut out,
        &mut err,
    );
    let code = status.code();
    Ok(code == row.code && out.bytes() == row.out && err.bytes() == row.err)
}

const WRITE: &[u8] = b"genhs: cannot write\n";

const ROWS: [Row; 10] = [
    // The first call of err fails, and the line of a failed write is tried behind it.
    Row {
        words: [b"walk", b"--", b"a", b"b"],
        out_failing: &[0],
        err_failing: &[0],
        code: 5,
        out: b"",
        err: WRITE,
    },
    Row {
        words: [b"check", b"--", b"--", b"b"],
        out_failing: &[0],
        err_failing: &[0, 1],
        code: 5,
        out: b"",
        err: b"",
    },
    Row {
        words: [b"run", b"--steps", b"9", b"b.hs"],
        out_failing: &[0],
        err_failing: &[0],
        code: 5,
        out: b"",
        err: WRITE,
    },
    Row {
        words: [b"run", b"--steps", b"9", b"c.hs"],
        out_failing: &[0],
        err_failing: &[0],
        code: 5,
        out: b"",
        err: WRITE,
    },
    Row {
        words: [b"run", b"--steps", b"9", b"c.hs"],
        out_failing: &[0],
        err_failing: &[],
        code: 5,
        out: b"",
        err: b"genhs: cannot read c.hs\n",
    },
    Row {
        words: [b"run", b"--steps", b"2", b"a.hs"],
        out_failing: &[],
        err_failing: &[0],
        code: 5,
        out: b"h",
        err: WRITE,
    },
    Row {
        words: [b"run", b"--steps", b"9", b"a.hs"],
        out_failing: &[],
        err_failing: &[0],
        code: 0,
        out: b"hi",
        err: b"",
    },
    Row {
        words: [b"run", b"--steps", b"9", b"a.hs"],
        out_failing: &[0],
        err_failing: &[],
        code: 5,
        out: b"",
        err: WRITE,
    },
    Row {
        words: [b"run", b"--steps", b"9", b"a.hs"],
        out_failing: &[0],
        err_failing: &[0],
        code: 5,
        out: b"",
        err: b"",
    },
    Row {
        words: [b"run", b"--steps", b"0", b"a.hs"],
        out_failing: &[0],
        err_failing: &[],
        code: 3,
        out: b"",
        err: b"genhs: out of steps\n",
    },
];

#[test]
fn a_failed_write_is_said_once(rt: HostRuntime) -> Result<(), Fail> {
    for row in &ROWS {
        assert!(rt; is_met(rt.alloc(), row)?);
    }
    Ok(())
}
