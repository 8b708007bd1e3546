// Texts in which each character is a token: which of them are expressions.
use gh_base::fixed::MINUS;
use gh_base::{ListOf, NameId, NoMemory, Span};
use gh_parse_exps::parse_exp;
use gh_reader::Stop;
use gh_tree::{Kind, Sym};
use std::alloc::Global;
use std::process::Abort;
use std::test::Fail;

const NAME: NameId = NameId(200);

// `x` is a variable, `m` one with a qualifier, `C` a constructor, `.` a variable operator with a qualifier. `<` and
// `>` are `{|` and `|}`, `t` is `->`, `d` is `::`, and capital letters but `C` are words.
fn kind_of(letter: u8) -> Kind {
    match letter {
        b'x' => Kind::VarId(None, NAME),
        b'm' => Kind::VarId(Some(NAME), NAME),
        b'C' => Kind::ConId(None, NAME),
        b'+' => Kind::VarSym(None, NAME),
        b'-' => Kind::VarSym(None, MINUS),
        b'.' => Kind::VarSym(Some(NAME), NAME),
        b'!' => Kind::ConSym(None, NAME),
        b':' => Kind::Colon,
        b'5' => Kind::Int(5),
        b'(' => Kind::Open,
        b')' => Kind::Close,
        b'[' => Kind::OpenList,
        b']' => Kind::CloseList,
        b'{' => Kind::OpenBrace,
        b'}' => Kind::CloseBrace,
        b';' => Kind::Semicolon,
        b'<' => Kind::OpenBanana,
        b'>' => Kind::CloseBanana,
        b',' => Kind::Comma,
        b'`' => Kind::Backquote,
        b'=' => Kind::Equals,
        b'|' => Kind::Bar,
        b't' => Kind::Arrow,
        b'd' => Kind::Colons,
        b'\\' => Kind::Backslash,
        b'S' => Kind::Case,
        b'O' => Kind::Of,
        b'L' => Kind::Let,
        b'N' => Kind::In,
        b'I' => Kind::If,
        b'T' => Kind::Then,
        b'E' => Kind::Else,
        b'W' => Kind::Where,
        b'F' => Kind::Infixl,
        _ => Kind::Underscore,
    }
}

fn syms_of(alloc: Global, text: &str) -> Result<ListOf<Sym>, NoMemory> {
    let mut syms = ListOf::new(alloc);
    let mut from = 0u32;
    for letter in text.as_bytes() {
        let span = Span {
            file: 1,
            from,
            to: from,
        };
        syms.push(Sym {
            kind: kind_of(*letter),
            span,
        })?;
        from = from.saturating_add(1);
    }
    Ok(syms)
}

// Whether a text is an expression.
fn read(alloc: Global, text: &str) -> Result<&'static str, NoMemory> {
    let syms = syms_of(alloc, text)?;
    Ok(match &parse_exp(alloc, syms.as_slice()) {
        Ok(_) => "expression",
        Err(Stop::NoParse) => "none",
        Err(Stop::NoMemory) => "no memory",
    })
}

// Texts, parted by spaces, and what each is read as.
const FORMS: &[(&str, &str)] = &[
    // Operands have operators between them; the last text is empty.
    ("expression", "-xx5+C.-m`x`-x:x"),
    ("none", "x+ "),
    // Only the last operand goes on.
    ("expression", "x+\\xtx+x (\\xtx)+x"),
    ("none", "(\\xtx+) \\tx"),
    // Sections lack an operand.
    ("expression", "(x-) (+x)(!x)(`x`-x)(.x) (-x)(-)(!)"),
    ("none", "(:) (xdC+)"),
    // Tuples have up to seven parts.
    ("expression", "(x,x,x,x,x,x,x)()(,)[x,x][]"),
    ("none", "(x,x,x,x,x,x,x,x) [x,]"),
    // A type stands behind closed operands.
    ("expression", "xdCtC \\xtxdC m<C>x"),
    ("none", "xdCdC"),
    // Alternatives have closed conditions.
    ("expression", "SxO{;Cxtx;;_|xtx|xtxW{x=x}}"),
    ("none", "SxO{} SxO{x|xdCtx} SxO{_tx_tx}"),
    // Locals are declarations or redefinitions.
    (
        "expression",
        "L{}Nx L{x,xdC;F5+;xx=x;(x,x)|x=x}Nx L{m<x>=x;(+)<x>=x;}Nx",
    ),
    ("none", "L{m<x>=x;x=x}Nx L{x=x;x<x>=x}Nx"),
    // A conditional has three parts.
    ("expression", "IxTxExdC"),
    ("none", "IxTx"),
];

fn agree(rt: &impl Abort, alloc: Global, want: &str, texts: &str) -> Result<(), NoMemory> {
    for text in texts.split(' ') {
        assert!(rt; read(alloc, text)? == want, "{text}");
    }
    Ok(())
}

#[test]
fn expressions_have_forms(rt: HostRuntime) -> Result<(), Fail> {
    for (want, texts) in FORMS {
        agree(&rt, rt.alloc(), want, texts)?;
    }
    Ok(())
}
