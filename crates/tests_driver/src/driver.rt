// The top call over shelves and outputs in memory.
use gh_base::{Bytes, ListOf, Names};
use gh_driver::genhs;
use gh_outside::{MemOut, MemShelf};
use std::alloc::Global;
use std::test::Fail;

const HELLO: &[u8] = b"module Main where { main = \"hi\" }";

const USAGE: &[u8] = b"usage: genhs check FILES, core FILES, run [--steps N] FILES, or sample N\n";

#[derive(Drop)]
struct Outcome {
    code: u8,
    out: MemOut,
    err: MemOut,
    faults: usize,
}

fn words(alloc: Global, texts: &[&[u8]]) -> Result<ListOf<Bytes>, Fail> {
    let mut words = ListOf::new(alloc);
    for text in texts {
        words.push(ListOf::from_slice(alloc, text)?)?;
    }
    Ok(words)
}

fn call(
    alloc: Global,
    texts: &[&[u8]],
    name: &[u8],
    bytes: Bytes,
    failing: &[u32],
) -> Result<Outcome, Fail> {
    let mut names = Names::new(alloc)?;
    let words = words(alloc, texts)?;
    let mut files = ListOf::new(alloc);
    files.push((ListOf::from_slice(alloc, name)?, bytes))?;
    let mut shelf = MemShelf::new(alloc, files, ListOf::new(alloc));
    let mut out = MemOut::new(alloc, 100_000, ListOf::from_slice(alloc, failing)?)?;
    let mut err = MemOut::new(alloc, 10_000, ListOf::new(alloc))?;
    let status = genhs(
        alloc,
        &mut names,
        words.as_slice(),
        &mut shelf,
        &mut out,
        &mut err,
    );
    let faults = shelf.faults(b"b.hs");
    Ok(Outcome {
        code: status.code(),
        out,
        err,
        faults,
    })
}

fn run_hello(alloc: Global, texts: &[&[u8]]) -> Result<Outcome, Fail> {
    call(
        alloc,
        texts,
        b"a.hs",
        ListOf::from_slice(alloc, HELLO)?,
        &[],
    )
}

fn run_file(alloc: Global, text: &[u8]) -> Result<Outcome, Fail> {
    let words: [&[u8]; 2] = [b"run", b"a.hs"];
    call(
        alloc,
        &words,
        b"a.hs",
        ListOf::from_slice(alloc, text)?,
        &[],
    )
}

const COMMENTED: &[u8] = b"main = \"\"\n--";

// A program that ends in a comment of so many bytes in all.
fn padded(alloc: Global, length: usize) -> Result<Bytes, Fail> {
    let mut bytes = ListOf::from_slice(alloc, COMMENTED)?;
    for _ in COMMENTED.len()..length {
        bytes.push(b'x')?;
    }
    Ok(bytes)
}

#[test]
fn one_string_is_printed(rt: HostRuntime) -> Result<(), Fail> {
    let call = run_hello(rt.alloc(), &[b"run", b"--steps", b"200000", b"a.hs"])?;
    assert_eq!(rt; call.code, 0);
    assert_eq!(rt; call.out.bytes(), b"hi".as_slice());
    assert_eq!(rt; call.err.bytes(), b"".as_slice());
    Ok(())
}

#[test]
fn each_budget_prints_its_prefix(rt: HostRuntime) -> Result<(), Fail> {
    let budgets: [(&[u8], &[u8], u8); 6] = [
        (b"0", b"", 3),
        (b"1", b"", 3),
        (b"2", b"h", 3),
        (b"3", b"hi", 0),
        (b"4", b"hi", 0),
        (b"2000000", b"hi", 0),
    ];
    for (steps, out, code) in budgets {
        let call = run_hello(rt.alloc(), &[b"run", b"--steps", steps, b"a.hs"])?;
        assert_eq!(rt; call.code, code);
        assert_eq!(rt; call.out.bytes(), out);
        let line: &[u8] = if code == 3 {
            b"genhs: out of steps\n"
        } else {
            b""
        };
        assert_eq!(rt; call.err.bytes(), line);
    }
    Ok(())
}

// Files that are refused, with the line of their refusal.
const REFUSED: [(&[u8], &[u8]); 33] = [
    (b"module Main where { }", b"genhs: 38 NoMain\n"),
    (b"module Main where { ; ; }", b"genhs: 38 NoMain\n"),
    (b"", b"genhs: 38 NoMain\n"),
    (b"module Main where", b"genhs: 38 NoMain\n"),
    (b"module Main", b"a.hs:1:1: 9 NoParse\n"),
    (
        b"module Other where { main = \"a\" }",
        b"a.hs:1:1: 9 NoParse\n",
    ),
    (b"module Main where { x }", b"a.hs:1:21: 9 NoParse\n"),
    (
        b"module Main where {\n  ;\n  main = \"a\";\n\tmain = \"b\" }",
        b"a.hs:4:9: 9 NoParse\n",
    ),
    (
        b"module Main where { main = \"a\" } x",
        b"a.hs:1:21: 9 NoParse\n",
    ),
    (
        b"module Main where { main = \"a\"",
        b"a.hs:1:19: 8 Unclosed\n",
    ),
    (
        b"module Main where { main = \"a\" } ; }",
        b"a.hs:1:36: 7 BadLayout\n",
    ),
    (b"module Main where {", b"a.hs:1:19: 8 Unclosed\n"),
    (
        b"module Main where { main = \"a }",
        b"a.hs:1:28: 4 OpenText\n",
    ),
    (
        b"module Main where {\r\n main = ? }",
        b"a.hs:2:2: 9 NoParse\n",
    ),
    (b"main = \"a\"\n  {- x", b"a.hs:2:3: 3 OpenComment\n"),
    (b"main = \xff", b"a.hs:1:8: 1 NotUtf8\n"),
    (b"main = \x01", b"a.hs:1:8: 2 NoToken\n"),
    (
        b"main = 9223372036854775808",
        b"a.hs:1:8: 5 NumberOutOfRange\n",
    ),
    (b"main = (\n", b"a.hs:1:8: 8 Unclosed\n"),
    (b"main = = \"\"\n", b"a.hs:1:1: 9 NoParse\n"),
    (b"main = \"a\" ++\nx = \"b\"", b"a.hs:1:1: 9 NoParse\n"),
    (
        b"main = \"\"\na = \"\"\nb = a a\nc = d",
        b"a.hs:3:1: 9 NoParse\n",
    ),
    (
        b"module Main where { main = x }",
        b"a.hs:1:28: 16 UnknownName x\n",
    ),
    (
        b"module Main where { a = \"\" ++ y; main = x' }",
        b"a.hs:1:31: 16 UnknownName y\n",
    ),
    (b"a = \"\"\nb = a\nc = mai", b"genhs: 38 NoMain\n"),
    (b"a = x\na = \"s\"", b"a.hs:2:1: 9 NoParse\n"),
    (
        b"data T a b c d e f g h i = T\nmain = \"\"",
        b"a.hs:1:1: 40 LimitPassed parameters\n",
    ),
    (
        b"f x = x\ndata T a b c d e f g h i = T\nmain = \"\"",
        b"a.hs:2:1: 40 LimitPassed parameters\n",
    ),
    (
        b"data T a b c d e f g h i = T\nmain = = \"\"",
        b"a.hs:2:1: 9 NoParse\n",
    ),
    (
        b"main = \"\"\ndata T a b c d e f g h = T\nf x = x",
        b"a.hs:2:1: 9 NoParse\n",
    ),
    (b"main = \"\"\nf = \\x -> x", b"a.hs:2:1: 9 NoParse\n"),
    (b"main = \"\"\nimport A", b"a.hs:2:1: 9 NoParse\n"),
    (b"import A\nmain = x", b"a.hs:1:1: 9 NoParse\n"),
];

// A binding to a string between so many parentheses.
fn nested(alloc: Global, pairs: usize) -> Result<Bytes, Fail> {
    let mut file = ListOf::from_slice(alloc, b"main = ")?;
    for _ in 0..pairs {
        file.push(b'(')?;
    }
    file.extend_from_slice(b"\"\"")?;
    for _ in 0..pairs {
        file.push(b')')?;
    }
    Ok(file)
}

#[test]
fn trees_may_be_2000_deep(rt: HostRuntime) -> Result<(), Fail> {
    let words: [&[u8]; 2] = [b"check", b"a.hs"];
    let most = nested(rt.alloc(), 498)?;
    let whole = call(rt.alloc(), &words, b"a.hs", most, &[])?;
    assert_eq!(rt; whole.err.bytes(), b"a.hs:1:1: 9 NoParse\n".as_slice());
    let more = nested(rt.alloc(), 499)?;
    let deep = call(rt.alloc(), &words, b"a.hs", more, &[])?;
    assert_eq!(rt; deep.code, 1);
    assert_eq!(rt; deep.err.bytes(), b"a.hs:1:1: 10 TooDeep\n".as_slice());
    Ok(())
}

#[test]
fn refusals_have_their_lines(rt: HostRuntime) -> Result<(), Fail> {
    for (file, line) in REFUSED {
        let call = run_file(rt.alloc(), file)?;
        assert_eq!(rt; call.err.bytes(), line);
        assert_eq!(rt; call.code, 1);
        assert_eq!(rt; call.out.bytes(), b"".as_slice());
    }
    Ok(())
}

#[test]
fn a_check_refuses_what_a_run_refuses(rt: HostRuntime) -> Result<(), Fail> {
    let words: [&[u8]; 2] = [b"check", b"a.hs"];
    for (file, line) in REFUSED {
        let bytes = ListOf::from_slice(rt.alloc(), file)?;
        let call = call(rt.alloc(), &words, b"a.hs", bytes, &[])?;
        assert_eq!(rt; call.err.bytes(), line);
        assert_eq!(rt; call.code, 1);
        assert_eq!(rt; call.out.bytes(), b"".as_slice());
    }
    Ok(())
}

#[test]
fn a_check_writes_nothing(rt: HostRuntime) -> Result<(), Fail> {
    let words: [&[u8]; 2] = [b"check", b"a.hs"];
    let files: [&[u8]; 4] = [
        HELLO,
        b"main = \"hi\"",
        b"main = main ++ main",
        b"-- a comment\nmain = a {- and {- another -} -}\na = \"\\n\"\n",
    ];
    for file in files {
        let bytes = ListOf::from_slice(rt.alloc(), file)?;
        let call = call(rt.alloc(), &words, b"a.hs", bytes, &[0, 1])?;
        assert_eq!(rt; call.code, 0);
        assert_eq!(rt; call.out.bytes(), b"".as_slice());
        assert_eq!(rt; call.err.bytes(), b"".as_slice());
    }
    Ok(())
}

#[test]
fn escapes_are_printed_as_utf_8(rt: HostRuntime) -> Result<(), Fail> {
    let call = run_file(rt.alloc(), b"main = \"\\233\\&1\"")?;
    assert_eq!(rt; call.code, 0);
    assert_eq!(rt; call.out.bytes(), b"\xc3\xa91".as_slice());
    Ok(())
}

#[test]
fn operands_are_joined(rt: HostRuntime) -> Result<(), Fail> {
    let files: [(&[u8], &[u8]); 4] = [
        (b"main = \"a\" ++ \"b\"", b"ab"),
        (
            b"main = \"a\" ++ b ++ \"c\" ++ b\nb = \"\" ++ d\nd = \"xy\"",
            b"axycxy",
        ),
        (
            b"module Main where\n  main = a ++ a\n  a = \"1\"\n    ++ \"2\"",
            b"1212",
        ),
        (b"{ main = \"\" ++ \"\" }", b""),
    ];
    for (file, out) in files {
        let call = run_file(rt.alloc(), file)?;
        assert_eq!(rt; call.code, 0);
        assert_eq!(rt; call.out.bytes(), out);
        assert_eq!(rt; call.err.bytes(), b"".as_slice());
    }
    Ok(())
}

const ENDLESS: &[u8] = b"module Main where { main = \"ab\" ++ main }";

// Whether bytes are `ababab` without end, cut somewhere.
fn alternates(bytes: &[u8]) -> bool {
    for (at, byte) in bytes.iter().enumerate() {
        let wanted = if at % 2 == 0 { b'a' } else { b'b' };
        if *byte != wanted {
            return false;
        }
    }
    true
}

#[test]
fn a_program_may_print_for_ever(rt: HostRuntime) -> Result<(), Fail> {
    let words: [&[u8]; 4] = [b"run", b"--steps", b"0", b"a.hs"];
    let bytes = ListOf::from_slice(rt.alloc(), ENDLESS)?;
    let none = call(rt.alloc(), &words, b"a.hs", bytes, &[])?;
    assert_eq!(rt; none.code, 3);
    assert_eq!(rt; none.out.bytes(), b"".as_slice());
    assert_eq!(rt; none.err.bytes(), b"genhs: out of steps\n".as_slice());
    let some = run_file(rt.alloc(), ENDLESS)?;
    assert_eq!(rt; some.code, 3);
    assert!(rt; some.out.bytes().len() >= 4);
    assert!(rt; alternates(some.out.bytes()));
    assert_eq!(rt; some.err.bytes(), b"genhs: out of steps\n".as_slice());
    Ok(())
}

#[test]
fn each_name_takes_a_reduction(rt: HostRuntime) -> Result<(), Fail> {
    let file: &[u8] = b"module Main where { a = b; main = a; c = \"hi\"; b = c }";
    let budgets: [(&[u8], &[u8], u8); 6] = [
        (b"0", b"", 3),
        (b"1", b"", 3),
        (b"4", b"", 3),
        (b"5", b"h", 3),
        (b"6", b"hi", 0),
        (b"7", b"hi", 0),
    ];
    for (steps, out, code) in budgets {
        let words: [&[u8]; 4] = [b"run", b"--steps", steps, b"a.hs"];
        let bytes = ListOf::from_slice(rt.alloc(), file)?;
        let call = call(rt.alloc(), &words, b"a.hs", bytes, &[])?;
        assert_eq!(rt; call.code, code);
        assert_eq!(rt; call.out.bytes(), out);
    }
    Ok(())
}

#[test]
fn a_cycle_runs_for_ever(rt: HostRuntime) -> Result<(), Fail> {
    let files: [&[u8]; 3] = [
        b"module Main where { main = main }",
        b"module Main where { a = main; main = a }",
        b"module Main where { b = a; a = b; c = \"x\"; main = b }",
    ];
    let budgets: [&[u8]; 5] = [b"0", b"1", b"2", b"3", b"2000000"];
    for file in files {
        for steps in budgets {
            let words: [&[u8]; 4] = [b"run", b"--steps", steps, b"a.hs"];
            let bytes = ListOf::from_slice(rt.alloc(), file)?;
            let call = call(rt.alloc(), &words, b"a.hs", bytes, &[])?;
            assert_eq!(rt; call.code, 3);
            assert_eq!(rt; call.out.bytes(), b"".as_slice());
            assert_eq!(rt; call.err.bytes(), b"genhs: out of steps\n".as_slice());
        }
    }
    Ok(())
}

#[test]
fn the_order_of_bindings_is_free(rt: HostRuntime) -> Result<(), Fail> {
    let files: [&[u8]; 6] = [
        b"module Main where { main = a; a = b'1; b'1 = \"ok\" }",
        b"module Main where { main = a; b'1 = \"ok\"; a = b'1 }",
        b"module Main where { a = b'1; main = a; b'1 = \"ok\" }",
        b"module Main where { a = b'1; b'1 = \"ok\"; main = a }",
        b"module Main where { b'1 = \"ok\"; main = a; a = b'1 }",
        b"module Main where { b'1 = \"ok\"; a = b'1; main = a }",
    ];
    for file in files {
        let call = run_file(rt.alloc(), file)?;
        assert_eq!(rt; call.code, 0);
        assert_eq!(rt; call.out.bytes(), b"ok".as_slice());
    }
    Ok(())
}

#[test]
fn a_cycle_that_is_not_used_does_no_harm(rt: HostRuntime) -> Result<(), Fail> {
    let call = run_file(
        rt.alloc(),
        b"module Main where { a = a; main = \"x\"; b = a }",
    )?;
    assert_eq!(rt; call.code, 0);
    assert_eq!(rt; call.out.bytes(), b"x".as_slice());
    Ok(())
}

// A name of five digits behind a letter.
fn push_name(bytes: &mut Bytes, number: u32) -> Result<(), Fail> {
    bytes.push(b'n')?;
    for power in [10_000, 1000, 100, 10, 1] {
        bytes.push(b'0' + (number / power % 10) as u8)?;
    }
    Ok(())
}

#[test]
fn ten_thousand_bindings_are_linked(rt: HostRuntime) -> Result<(), Fail> {
    let mut file = ListOf::from_slice(rt.alloc(), b"module Main where { main = n00000")?;
    for number in 0..9998 {
        file.extend_from_slice(b"; ")?;
        push_name(&mut file, number)?;
        file.extend_from_slice(b" = ")?;
        push_name(&mut file, number + 1)?;
    }
    file.extend_from_slice(b"; n09998 = \"far\" }")?;
    let words: [&[u8]; 2] = [b"run", b"a.hs"];
    let call = call(rt.alloc(), &words, b"a.hs", file, &[])?;
    assert_eq!(rt; call.code, 0);
    assert_eq!(rt; call.out.bytes(), b"far".as_slice());
    Ok(())
}

#[test]
fn empty_bindings_are_allowed(rt: HostRuntime) -> Result<(), Fail> {
    let call = run_file(rt.alloc(), b"module Main where {;\n;main\t= \"a' b\";;}\n")?;
    assert_eq!(rt; call.code, 0);
    assert_eq!(rt; call.out.bytes(), b"a' b".as_slice());
    Ok(())
}

#[test]
fn a_file_may_have_a_megabyte(rt: HostRuntime) -> Result<(), Fail> {
    let words: [&[u8]; 2] = [b"check", b"a.hs"];
    let most = padded(rt.alloc(), 1_048_576)?;
    let whole = call(rt.alloc(), &words, b"a.hs", most, &[])?;
    assert_eq!(rt; whole.code, 0);
    assert_eq!(rt; whole.err.bytes(), b"".as_slice());
    let more = padded(rt.alloc(), 1_048_577)?;
    let long = call(rt.alloc(), &words, b"a.hs", more, &[])?;
    assert_eq!(rt; long.code, 1);
    assert_eq!(rt; long.err.bytes(), b"a.hs: 36 FileTooLong\n".as_slice());
    Ok(())
}

#[test]
fn words_without_a_meaning_are_usage(rt: HostRuntime) -> Result<(), Fail> {
    let lines: [&[&[u8]]; 14] = [
        &[],
        &[b"run"],
        &[b"fly", b"a.hs"],
        &[b"check", b"--steps", b"5", b"a.hs"],
        &[b"run", b"--steps", b"2000001", b"a.hs"],
        &[b"run", b"--steps", b"1", b"--steps", b"1", b"a.hs"],
        &[b"run", b"--steps", b"", b"a.hs"],
        &[b"run", b"--steps", b"00000001", b"a.hs"],
        &[b"run", b"a.hs", b"--steps"],
        &[b"run", b"-a.hs"],
        &[b"run", b"\xff"],
        &[b"sample", b"0"],
        &[b"sample", b"41"],
        &[b"--help"],
    ];
    for texts in lines {
        let call = run_hello(rt.alloc(), texts)?;
        assert_eq!(rt; call.code, 2);
        assert_eq!(rt; call.err.bytes(), USAGE);
        assert_eq!(rt; call.out.bytes(), b"".as_slice());
    }
    Ok(())
}

#[test]
fn an_option_may_stand_anywhere(rt: HostRuntime) -> Result<(), Fail> {
    let lines: [&[&[u8]]; 4] = [
        &[b"run", b"--steps=0", b"--", b"-a.hs"],
        &[b"--steps", b"0", b"run", b"--", b"-a.hs"],
        &[b"run", b"--steps", b"0000000", b"--", b"-a.hs"],
        &[b"--steps=0", b"--", b"run", b"-a.hs"],
    ];
    for texts in lines {
        let bytes = ListOf::from_slice(rt.alloc(), HELLO)?;
        let call = call(rt.alloc(), texts, b"-a.hs", bytes, &[])?;
        assert_eq!(rt; call.code, 3);
        assert_eq!(rt; call.out.bytes(), b"".as_slice());
    }
    Ok(())
}

#[test]
fn a_file_that_is_not_there_cannot_be_read(rt: HostRuntime) -> Result<(), Fail> {
    let call = run_hello(rt.alloc(), &[b"run", b"b.hs"])?;
    assert_eq!(rt; call.code, 5);
    assert_eq!(rt; call.err.bytes(), b"genhs: cannot read b.hs\n".as_slice());
    assert_eq!(rt; call.out.bytes(), b"".as_slice());
    assert_eq!(rt; call.faults, 1);
    Ok(())
}

#[test]
fn a_failing_output_keeps_a_prefix(rt: HostRuntime) -> Result<(), Fail> {
    let words: [&[u8]; 2] = [b"run", b"a.hs"];
    let file = ListOf::from_slice(rt.alloc(), ENDLESS)?;
    let first = call(rt.alloc(), &words, b"a.hs", file, &[0])?;
    assert_eq!(rt; first.code, 5);
    assert_eq!(rt; first.out.bytes().len(), 0);
    assert_eq!(rt; first.err.bytes(), b"genhs: cannot write\n".as_slice());
    let again = ListOf::from_slice(rt.alloc(), ENDLESS)?;
    let second = call(rt.alloc(), &words, b"a.hs", again, &[1])?;
    assert_eq!(rt; second.code, 5);
    assert!(rt; second.out.bytes().len() > 0);
    assert!(rt; alternates(second.out.bytes()));
    assert_eq!(rt; second.err.bytes(), b"genhs: cannot write\n".as_slice());
    Ok(())
}
