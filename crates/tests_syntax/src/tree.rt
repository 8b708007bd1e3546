// Depths that were counted by hand, and texts whose laid tokens are those of trees in `proofs/Examples.antt`.
use gh_base::{ListOf, NameId, Names, NoMemory, Span};
use gh_layout::lay;
use gh_lexer::{Token, lex};
use gh_tree::{
    Aexp, BlockMark, Decl, Exp, FunLhs, Item, Kind, ModuleTree, Name, NextItem, Operand,
    OperandList, Rhs, Sym, Top, Var, Where, header_depth, header_end, item_end, syms_of,
};
use sqlite_items::Boxed;
use std::alloc::{AllocError, Global};
use std::process::Abort;
use std::test::Fail;

const HERE: Span = Span {
    file: 1,
    from: 0,
    to: 0,
};

fn name(id: u32) -> Name {
    Name {
        span: HERE,
        qualifier: None,
        id: NameId(id),
    }
}

// One operand, as an expression.
fn alone(alloc: Global, head: Aexp, args: ListOf<Aexp>) -> Result<Exp, NoMemory> {
    let first = Operand::Apply(HERE, Boxed::new(alloc, head)?, args);
    let list = OperandList {
        span: HERE,
        minus: None,
        first,
        others: ListOf::new(alloc),
    };
    Ok(Exp::Plain(Boxed::new(alloc, list)?))
}

fn variable(id: u32) -> Aexp {
    Aexp::Var(Var::Word(name(id)))
}

// The file of one declaration, `x = ` and this expression.
fn file(alloc: Global, body: Exp) -> Result<ModuleTree, NoMemory> {
    let left = FunLhs::Prefix(HERE, Var::Word(name(200)), ListOf::new(alloc));
    let decl = Decl::Function(HERE, left, Rhs::Plain(HERE, HERE, body, Where::Absent));
    Ok(ModuleTree {
        span: HERE,
        header: None,
        open: BlockMark::Inserted(0),
        first: Item::Top(Boxed::new(alloc, Top::Decl(decl))?),
        others: ListOf::new(alloc),
        close: BlockMark::Inserted(3),
    })
}

// The file `x = ` and an operand with so many arguments, between so many pairs of parentheses.
fn nested(alloc: Global, pairs: u32, arguments: u32) -> Result<ModuleTree, NoMemory> {
    let mut args = ListOf::new(alloc);
    for id in 0..arguments {
        args.push(variable(id))?;
    }
    let mut body = alone(alloc, variable(201), args)?;
    for _ in 0..pairs {
        body = alone(
            alloc,
            Aexp::Paren(HERE, HERE, body, HERE),
            ListOf::new(alloc),
        )?;
    }
    file(alloc, body)
}

// The depths of a file, its first item and its header.
fn depths(alloc: Global, pairs: u32, arguments: u32) -> Result<(u32, u32, u32), NoMemory> {
    let tree = nested(alloc, pairs, arguments)?;
    Ok((tree.depth(), tree.first.depth(), header_depth(&tree.header)))
}

#[test]
fn depths_are_those_of_the_longest_path(rt: HostRuntime) -> Result<(), Fail> {
    for (pairs, arguments, want) in [
        // Item, top, declaration, right side, expression, operands, operand and variable: eight nodes.
        (0, 0, 8),
        // A pair of parentheses adds four.
        (1, 0, 12),
        // An operand with three arguments weighs three.
        (0, 3, 10),
    ] {
        assert!(rt;
            depths(rt.alloc(), pairs, arguments)? == (want, want, 0),
            "{pairs} {arguments}"
        );
    }
    Ok(())
}

// An empty file has one empty item.
#[test]
fn an_empty_file_has_depth_one(rt: HostRuntime) -> Result<(), Fail> {
    let alloc = rt.alloc();
    let mut others = ListOf::new(alloc);
    others.push(NextItem {
        mark: BlockMark::Inserted(0),
        item: Item::Empty,
    })?;
    let tree = ModuleTree {
        span: HERE,
        header: None,
        open: BlockMark::Inserted(0),
        first: Item::Empty,
        others,
        close: BlockMark::Inserted(0),
    };
    assert_eq!(rt; tree.depth(), 1);
    Ok(())
}

// The laid tokens of a text, each as the grammar's word for it with the first and the last byte.
fn laid_out(rt: &impl Abort, alloc: Global, text: &[u8]) -> Result<ListOf<Sym>, Fail> {
    assert!(rt; text.len() < 100);
    let mut names = Names::new(alloc)?;
    match lex(alloc, &mut names, 1, text) {
        Err(_) => Ok(ListOf::new(alloc)),
        Ok(tokens) => laid_tokens(rt, alloc, &tokens),
    }
}

fn laid_tokens(
    rt: &impl Abort,
    alloc: Global,
    tokens: &ListOf<Token>,
) -> Result<ListOf<Sym>, Fail> {
    assert!(rt; tokens.as_slice().len() < 100);
    match lay(alloc, tokens) {
        Err(_) => Ok(ListOf::new(alloc)),
        Ok(laid) => Ok(syms_of(alloc, tokens, &laid)?),
    }
}

fn word(kind: &Kind) -> &'static str {
    match kind {
        Kind::VarId(None, _) => "variable",
        Kind::ConId(None, _) => "constructor",
        Kind::VarSym(None, _) => "operator",
        Kind::Int(1) => "one",
        Kind::Case => "case",
        Kind::Of => "of",
        Kind::Underscore => "_",
        Kind::Equals => "=",
        Kind::Arrow => "->",
        Kind::Bar => "|",
        Kind::Comma => ",",
        Kind::Open => "(",
        Kind::Close => ")",
        Kind::InsertedOpen(_) => "<{",
        Kind::InsertedSemicolon(_) => "<;",
        Kind::InsertedClose(_) => "<}",
        _ => "?",
    }
}

// Laid tokens as text, a space behind each.
fn shown(alloc: Global, syms: &[Sym]) -> Result<String, AllocError> {
    let mut text = String::new(alloc);
    for sym in syms {
        let next = format!(in alloc; "{}{}-{} ", word(&sym.kind), sym.span.from, sym.span.to)?;
        text.push_str(&next)?;
    }
    Ok(text)
}

fn shown_text(rt: &impl Abort, alloc: Global, text: &str) -> Result<String, Fail> {
    let syms = laid_out(rt, alloc, text.as_bytes())?;
    Ok(shown(alloc, syms.as_slice())?)
}

const LAID: &[(&str, &str)] = &[
    // A binding, as `decl_1` prints it.
    ("x=1", "<{0-0 variable0-1 =1-2 one2-3 <}0-0"),
    // A binding of a pattern, as `decl_2` prints it.
    (
        "(x,y)=e",
        "<{0-0 (0-1 variable1-2 ,2-3 variable3-4 )4-5 =5-6 variable6-7 <}0-0",
    ),
    // A `case` with two alternatives, the second with a guard, behind a left side.
    (
        "f=case x of\n  C y->y\n  _|a->b\n",
        "<{0-0 variable0-1 =1-2 case2-6 variable7-8 of9-11 <{0-0 constructor14-15 variable16-17 ->17-19 variable19-20 <;0-0 _23-24 |24-25 variable25-26 ->26-28 variable28-29 <}0-0 <}0-0",
    ),
    // An empty file, as `module_0` prints it.
    ("", "<{0-0 <}0-0"),
];

#[test]
fn texts_are_laid_out(rt: HostRuntime) -> Result<(), Fail> {
    for (text, want) in LAID {
        assert!(rt;
            shown_text(&rt, rt.alloc(), text)?.trim_end() == *want,
            "{text}"
        );
    }
    Ok(())
}

// How many tokens a file has, those of its header, and those of the items behind four and eight tokens.
fn ends(rt: &impl Abort, syms: &[Sym]) -> (usize, usize, usize, usize) {
    assert!(rt; syms.len() == 19);
    (
        syms.len(),
        header_end(syms),
        item_end(&syms[4..]),
        item_end(&syms[8..]),
    )
}

// `module M where <{ x = 1 <; y = case x of <{ C -> 2 <} <}`: three tokens, then three, then ten.
#[test]
fn items_end_at_the_marks_of_the_body(rt: HostRuntime) -> Result<(), Fail> {
    let text = b"module M where\nx=1\ny=case x of\n  C->2\n";
    let laid = laid_out(&rt, rt.alloc(), text)?;
    assert!(rt; ends(&rt, laid.as_slice()) == (19, 3, 3, 10));
    Ok(())
}
