//! Runs one phase on one file, so that `bench/run` can time it.
#![tactic(auto)]

use gh_base::{Bytes, ListOf, Names, NoMemory};
use gh_layout::lay;
use gh_lexer::lex;
use gh_outside::{HostOut, HostShelf, Out, Shelf};
use itoa::Buffer;
use std::alloc::Global;
use std::env;
use std::process::ExitCode;
use std::rt::Env;

// A file has at most so many bytes.
const MOST: usize = 1_048_576;

/// The number of tokens of a file, and of its laid tokens where `laid` asks for them; none where the file is refused.
fn count(alloc: Global, bytes: &[u8], laid: bool) -> Option<usize> {
    let mut names = Names::new(alloc).ok()?;
    if bytes.len() > MOST {
        return None;
    }
    let tokens = lex(alloc, &mut names, 1, bytes).ok()?;
    if !laid || tokens.as_slice().len() > u32::MAX as usize {
        return Some(tokens.as_slice().len());
    }
    let list = lay(alloc, &tokens).ok()?;
    Some(list.as_slice().len())
}

fn words_of<R: Env + Alloc>(rt: &R, alloc: Global) -> Result<ListOf<Bytes>, NoMemory> {
    let mut words = ListOf::new(alloc);
    let Ok(args) = env::args(rt) else {
        return Ok(words);
    };
    for word in args.skip(1) {
        words.push(ListOf::from_slice(alloc, word.as_str().as_bytes())?)?;
    }
    Ok(words)
}

fn main(rt: HostRuntime) -> ExitCode {
    let alloc = rt.alloc();
    let mut out = HostOut::new(rt.stdout());
    let Ok(words) = words_of(&rt, alloc) else {
        return ExitCode::from(6);
    };
    let mut shelf = HostShelf::new(rt, alloc);
    match words.as_slice() {
        [phase, file] => {
            let Ok(bytes) = shelf.read_file(file, MOST as u64) else {
                return ExitCode::from(5);
            };
            let Some(tokens) = count(
                alloc,
                bytes.as_slice(),
                phase.as_slice() == b"lay".as_slice(),
            ) else {
                return ExitCode::from(1);
            };
            let mut buffer = Buffer::new();
            let text = buffer.format(tokens);
            if out.put(text.as_bytes()).is_err() {
                return ExitCode::from(5);
            }
            ExitCode::from(0)
        }
        _ => ExitCode::from(2),
    }
}
