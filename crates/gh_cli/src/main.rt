//! The command `genhs`.
#![tactic(auto)]

use gh_base::{Bytes, ListOf, Names, NoMemory};
use gh_driver::genhs;
use gh_outside::{HostOut, HostShelf, Out};
use std::alloc::Global;
use std::env;
use std::process::ExitCode;
use std::rt::Env;

// The exit status where there is not enough memory.
const NO_MEMORY: u8 = 6;

// The words behind the program's name. Words that are no text have no meaning, as if there were none.
fn words_of<R: Env + Alloc>(rt: &R, alloc: Global) -> Result<ListOf<Bytes>, NoMemory> {
    let mut words = ListOf::new(alloc);
    let Ok(args) = env::args(rt) else {
        return Ok(words);
    };
    for word in args.skip(1) {
        words.push(ListOf::from_slice(alloc, word.as_str().as_bytes())?)?;
    }
    Ok(words)
}

fn out_of_memory<E: Out>(err: &mut E) -> ExitCode {
    let _ = err.put(b"genhs: out of memory\n");
    ExitCode::from(NO_MEMORY)
}

fn main(rt: HostRuntime) -> ExitCode {
    let alloc = rt.alloc();
    let mut out = HostOut::new(rt.stdout());
    let mut err = HostOut::new(rt.stderr());
    let Ok(words) = words_of(&rt, alloc) else {
        return out_of_memory(&mut err);
    };
    let Ok(mut names) = Names::new(alloc) else {
        return out_of_memory(&mut err);
    };
    let mut shelf = HostShelf::new(rt, alloc);
    let status = genhs(
        alloc,
        &mut names,
        words.as_slice(),
        &mut shelf,
        &mut out,
        &mut err,
    );
    ExitCode::from(status.code())
}
