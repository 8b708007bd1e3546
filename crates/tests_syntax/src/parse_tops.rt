// Texts in which each character is a token: which form of declaration each is read as.
use gh_base::fixed::EXTENDS;
use gh_base::{ListOf, NameId, NoMemory, Span};
use gh_parse_tops::parse_top;
use gh_reader::Stop;
use gh_tree::{Kind, Sym, Top};
use std::alloc::Global;
use std::process::Abort;
use std::test::Fail;

const NAME: NameId = NameId(200);

// `x` is a variable, `C` a constructor, `q` and `Q` are those with a qualifier, `e` is `extends`; `*` and `!` are
// constructor operators, the second with a qualifier.
fn name_of(letter: u8) -> Kind {
    match letter {
        b'x' => Kind::VarId(None, NAME),
        b'q' => Kind::VarId(Some(NAME), NAME),
        b'e' => Kind::VarId(None, EXTENDS),
        b'C' => Kind::ConId(None, NAME),
        b'Q' => Kind::ConId(Some(NAME), NAME),
        b'+' => Kind::VarSym(None, NAME),
        b'*' => Kind::ConSym(None, NAME),
        b'!' => Kind::ConSym(Some(NAME), NAME),
        b'5' => Kind::Int(5),
        _ => Kind::Underscore,
    }
}

// `T`, `D`, `N` and `I` are `type`, `data`, `newtype` and `infixl`; `<` and `>` are `{|` and `|}`, `#` is `::`, `-` is
// `->`, and `~` is `=>`.
fn kind_of(letter: u8) -> Kind {
    match letter {
        b'T' => Kind::TypeWord,
        b'D' => Kind::Data,
        b'N' => Kind::Newtype,
        b'I' => Kind::Infixl,
        b'=' => Kind::Equals,
        b'|' => Kind::Bar,
        b'<' => Kind::OpenBanana,
        b'>' => Kind::CloseBanana,
        b'#' => Kind::Colons,
        b'-' => Kind::Arrow,
        b'~' => Kind::DoubleArrow,
        b'(' => Kind::Open,
        b')' => Kind::Close,
        b',' => Kind::Comma,
        _ => name_of(letter),
    }
}

fn syms_of(alloc: Global, text: &str) -> Result<ListOf<Sym>, NoMemory> {
    let mut syms = ListOf::new(alloc);
    let mut from = 0u32;
    for letter in text.as_bytes() {
        let span = Span {
            file: 1,
            from,
            to: from,
        };
        syms.push(Sym {
            kind: kind_of(*letter),
            span,
        })?;
        from = from.saturating_add(1);
    }
    Ok(syms)
}

// The form of a declaration.
fn form(top: &Top) -> &'static str {
    match top {
        Top::Synonym(..) => "synonym",
        Top::Data(..) => "datatype",
        Top::Newtype(..) => "newtype",
        Top::Signature(..) => "signature",
        Top::Case(..) => "case",
        Top::Extends(..) => "extension",
        Top::Decl(_) => "declaration",
    }
}

// Which form of declaration this text is, if any.
fn read(alloc: Global, text: &str) -> Result<&'static str, NoMemory> {
    let syms = syms_of(alloc, text)?;
    Ok(match &parse_top(alloc, syms.as_slice()) {
        Ok(top) => form(top.get()),
        Err(Stop::NoParse) => "none",
        Err(Stop::NoMemory) => "no memory",
    })
}

// Texts, parted by spaces, and the form that each is read as.
const FORMS: &[(&str, &str)] = &[
    // A synonym has a constructor for its name, without a qualifier, and a type.
    ("synonym", "TCxx=C(x-x) TC=C-Q"),
    ("none", "TCx= TQ=C Tx=C"),
    // A datatype has constructors, between bars and without a qualifier.
    ("datatype", "DCxxxxxxxxx=C DCx=Cxx|Cx*x|(*)Cx|C"),
    ("none", "DC= DC=C| DC=Q DCx=x!x DCx=xC DCx=C(*)x"),
    // A newtype has one constructor with one field.
    ("newtype", "NCx=Cx NCx=(*)(x-x)"),
    ("none", "NC=C NC=CCC NC=C*C"),
    // The signature of a generic function has variables, and may have dependencies before `=>`.
    (
        "signature",
        "x<x>#x-x (+)<x,x|x,x>#(x<x>,q<x|x>)~x x<x>#()~x x<x>#() x<x>#()-x",
    ),
    ("none", "x<x>#~x x<x>#(x)~x x<>#x x<x|>#x q<x>#x"),
    // A case of a generic function has arguments and a right side.
    ("case", "x<C>x(C5)=x x<x>=x (+)<Cx-x>|x=5|x=x"),
    ("none", "x<x> x<C>#x x<C>+=x"),
    // An extension ends behind the second variable.
    ("extension", "xeq (+)e(+) eee"),
    ("declaration", "xex=x xe=x"),
    ("none", "xe qex xeC"),
    // Other declarations.
    ("declaration", "xx=x x,x#x-x I5+"),
    // No declarations; the last text is empty.
    ("none", "x =x "),
];

fn agree(rt: &impl Abort, alloc: Global, want: &str, texts: &str) -> Result<(), NoMemory> {
    for text in texts.split(' ') {
        assert!(rt; read(alloc, text)? == want, "{text}");
    }
    Ok(())
}

#[test]
fn declarations_have_forms(rt: HostRuntime) -> Result<(), Fail> {
    for (want, texts) in FORMS {
        agree(&rt, rt.alloc(), want, texts)?;
    }
    Ok(())
}
