//! Prints how long linking takes for modules of which each imports all before it, and for export lists that name many
//! qualifiers, at doubling sizes. Without a word it prints nothing.
#![tactic(auto)]

use gh_base::{ListOf, Names, NoMemory};
use gh_layout::lay;
use gh_lexer::lex;
use gh_modules::link;
use gh_parser::parse;
use gh_tree::ModuleTree;
use std::alloc::{AllocError, Global};
use std::rt::{Clock, Env};
use std::time::Instant;
use std::{env, io};

// Reads a file: nothing where it has no tree.
fn read(
    alloc: Global,
    names: &mut Names,
    trees: &mut ListOf<ModuleTree>,
    text: &str,
) -> Result<(), NoMemory> {
    if text.len() > 1_048_576 {
        return Ok(());
    }
    let Ok(file) = u32::try_from(trees.as_slice().len()) else {
        return Ok(());
    };
    let Ok(tokens) = lex(alloc, names, file, text.as_bytes()) else {
        return Ok(());
    };
    if tokens.as_slice().len() > 1_048_576 {
        return Ok(());
    }
    let Ok(laid) = lay(alloc, &tokens) else {
        return Ok(());
    };
    if let Ok(tree) = parse(alloc, &tokens, &laid) {
        trees.push(tree)?;
    }
    Ok(())
}

// A module that imports all before it and defines so many names.
fn importing(alloc: Global, at: u32, count: u32) -> Result<String, AllocError> {
    let mut text = format!(in alloc; "module M{at} where\n")?;
    for before in 1..at {
        text.push_str(&format!(in alloc; "import M{before}\n")?)?;
    }
    for name in 0..count {
        text.push_str(&format!(in alloc; "m{at}x{name} = m\n")?)?;
    }
    Ok(text)
}

// The Prelude, and so many modules with a thousand names each.
fn modules(alloc: Global, names: &mut Names, count: u32) -> Result<ListOf<ModuleTree>, NoMemory> {
    let mut trees = ListOf::new(alloc);
    read(alloc, names, &mut trees, "module Prelude where")?;
    for at in 1..=count {
        let text = importing(alloc, at, 1000)?;
        read(alloc, names, &mut trees, text.as_str())?;
    }
    Ok(trees)
}

// A module that imports Main with so many qualifiers and exports what each of them names.
fn exporting(alloc: Global, count: u32) -> Result<String, AllocError> {
    let mut text = format!(in alloc; "module A (module Main")?;
    for at in 0..count {
        text.push_str(&format!(in alloc; ", module Q{at}")?)?;
    }
    text.push_str(") where\nimport Main\n")?;
    for at in 0..count {
        text.push_str(&format!(in alloc; "import Main as Q{at}\n")?)?;
    }
    Ok(text)
}

// The Prelude, a module with one name, and one with so many qualifiers.
fn qualifiers(
    alloc: Global,
    names: &mut Names,
    count: u32,
) -> Result<ListOf<ModuleTree>, NoMemory> {
    let mut trees = ListOf::new(alloc);
    read(alloc, names, &mut trees, "module Prelude where")?;
    read(alloc, names, &mut trees, "main = main")?;
    let text = exporting(alloc, count)?;
    read(alloc, names, &mut trees, text.as_str())?;
    Ok(trees)
}

// How many files were linked, and how many entries the last one has in scope.
fn linked(alloc: Global, names: &Names, trees: &ListOf<ModuleTree>) -> (usize, usize) {
    match &link(alloc, names, trees) {
        Ok(found) => (
            found.order.as_slice().len(),
            found
                .scopes
                .as_slice()
                .last()
                .map_or(0, |scope| scope.entries.as_slice().len()),
        ),
        Err(_) => (0, 0),
    }
}

fn measure<R: Clock + Print>(
    rt: &R,
    alloc: Global,
    name: &str,
    names: &Names,
    trees: &ListOf<ModuleTree>,
    count: u32,
) -> io::Result<()> {
    let start = Instant::now(rt)?;
    let (files, entries) = linked(alloc, names, trees);
    let time = start.elapsed(rt)?.as_millis();
    println!(rt;
        "{count} {name}: {files} files linked, {entries} entries in the last scope, {time} ms"
    )
}

fn measure_modules<R: Clock + Print>(rt: &R, alloc: Global, count: u32) -> io::Result<()> {
    let Ok(mut names) = Names::new(alloc) else {
        return rt.println("no memory");
    };
    match modules(alloc, &mut names, count) {
        Ok(trees) => measure(rt, alloc, "modules", &names, &trees, count),
        Err(NoMemory) => rt.println("no memory"),
    }
}

fn measure_qualifiers<R: Clock + Print>(rt: &R, alloc: Global, count: u32) -> io::Result<()> {
    let Ok(mut names) = Names::new(alloc) else {
        return rt.println("no memory");
    };
    match qualifiers(alloc, &mut names, count) {
        Ok(trees) => measure(rt, alloc, "qualifiers", &names, &trees, count),
        Err(NoMemory) => rt.println("no memory"),
    }
}

fn run<R: Clock + Print>(rt: &R, alloc: Global) -> io::Result<()> {
    for count in [8, 16, 32, 64] {
        measure_modules(rt, alloc, count)?;
    }
    for count in [2_500, 5_000, 10_000, 20_000] {
        measure_qualifiers(rt, alloc, count)?;
    }
    Ok(())
}

fn main(rt: HostRuntime) -> io::Result<()> {
    if env::args(&rt)?.count() > 1 {
        run(&rt, rt.alloc())?;
    }
    Ok(())
}
