// Texts in which each character is a token: what each is read as.
use gh_base::fixed::MINUS;
use gh_base::{ListOf, NameId, NoMemory, Span};
use gh_parse_lefts::{Left, parse_left};
use gh_reader::Stop;
use gh_tree::{Kind, Sym};
use std::alloc::Global;
use std::process::Abort;
use std::test::Fail;

const NAME: NameId = NameId(200);

// `x` is a variable, `C` a constructor, `.` and `!` are a variable's and a constructor's operator with a qualifier.
fn kind_of(letter: u8) -> Kind {
    match letter {
        b'x' => Kind::VarId(None, NAME),
        b'C' => Kind::ConId(None, NAME),
        b'+' => Kind::VarSym(None, NAME),
        b'-' => Kind::VarSym(None, MINUS),
        b'.' => Kind::VarSym(Some(NAME), NAME),
        b'!' => Kind::ConSym(Some(NAME), NAME),
        b':' => Kind::Colon,
        b'5' => Kind::Int(5),
        b'(' => Kind::Open,
        b')' => Kind::Close,
        b',' => Kind::Comma,
        b'`' => Kind::Backquote,
        b'@' => Kind::At,
        _ => Kind::Underscore,
    }
}

fn syms_of(alloc: Global, text: &str) -> Result<ListOf<Sym>, NoMemory> {
    let mut syms = ListOf::new(alloc);
    let mut from = 0u32;
    for letter in text.as_bytes() {
        let span = Span {
            file: 1,
            from,
            to: from,
        };
        syms.push(Sym {
            kind: kind_of(*letter),
            span,
        })?;
        from = from.saturating_add(1);
    }
    Ok(syms)
}

// What a text is read as.
fn read(alloc: Global, text: &str) -> Result<&'static str, NoMemory> {
    let syms = syms_of(alloc, text)?;
    Ok(match &parse_left(alloc, syms.as_slice()) {
        Ok(Left::Function(_)) => "function",
        Ok(Left::Pattern(_)) => "pattern",
        Err(Stop::NoParse) => "none",
        Err(Stop::NoMemory) => "no memory",
    })
}

// Texts, parted by spaces, and what each is read as.
const FORMS: &[(&str, &str)] = &[
    // A variable with arguments is a function; the last text is empty.
    ("function", "x (+)x_(C5)"),
    ("none", "xx, "),
    // One operator is defined.
    ("function", "x+x x-5 Cx:x`x`(x,x):-5"),
    ("none", "x+x+x x.x x!x+x"),
    // A left side between parentheses has an argument.
    ("function", "(x+x)x ((x)x)x_"),
    ("none", "(x+x) ((x))x (xx)+x"),
    // A pattern is more than a variable.
    ("pattern", "(x) x@(x,_) x:x!((-5))"),
    ("none", "x: (x+x,x)"),
];

fn agree(rt: &impl Abort, alloc: Global, want: &str, texts: &str) -> Result<(), NoMemory> {
    for text in texts.split(' ') {
        assert!(rt; read(alloc, text)? == want, "{text}");
    }
    Ok(())
}

#[test]
fn left_sides_have_forms(rt: HostRuntime) -> Result<(), Fail> {
    for (want, texts) in FORMS {
        agree(&rt, rt.alloc(), want, texts)?;
    }
    Ok(())
}

// What a variable between a thousand parentheses is read as, before this text.
fn read_nested(alloc: Global, last: &str) -> Result<&'static str, NoMemory> {
    let mut text = String::new(alloc);
    for _ in 0..1000 {
        text.push('(')?;
    }
    text.push('x')?;
    for _ in 0..1000 {
        text.push(')')?;
    }
    text.push_str(last)?;
    read(alloc, text.as_str())
}

#[test]
fn nested_parentheses_are_read(rt: HostRuntime) -> Result<(), Fail> {
    for (last, want) in [("", "pattern"), ("x", "none")] {
        assert!(rt; read_nested(rt.alloc(), last)? == want, "{last}");
    }
    Ok(())
}
