// Small files, their trees written out by hand. Each token of a file has one byte, so its place is that of its byte.
use gh_base::fixed::{APPEND, COMPOSE, MAIN, MAIN_MODULE, PRELUDE};
use gh_base::{ListOf, NameId, NoMemory, Span};
use gh_bindings::Operand;
use gh_tree::{
    Aexp, BlockMark, Decl, Exp, FunLhs, Header, Import, Item, ModuleTree, Name, NextItem,
    NextOperand, Op, OperandList, Rhs, Top, Var, VarOp, Where,
};
use gh_tree_form::{Bindings, Parsed, form};
use sqlite_items::Boxed;
use std::alloc::Global;
use std::process::Abort;
use std::test::Fail;

// A name that is not fixed.
const X: NameId = NameId(200);

// So many tokens, from this one of a row that begins at a place.
fn tokens(begin: u8, skip: u8, count: u8) -> Span {
    let from = u32::from(begin) + u32::from(skip);
    Span {
        file: 1,
        from,
        to: from + u32::from(count),
    }
}

fn name(id: NameId, begin: u8, skip: u8) -> Name {
    Name {
        span: tokens(begin, skip, 1),
        qualifier: None,
        id,
    }
}

fn alone(alloc: Global, head: Aexp, span: Span) -> Result<gh_tree::Operand, NoMemory> {
    Ok(gh_tree::Operand::Apply(span, Boxed::new(alloc, head)?, ListOf::new(alloc)))
}

// `"a"`
fn text(alloc: Global, span: Span) -> Result<gh_tree::Operand, NoMemory> {
    let chars = ListOf::from_slice(alloc, &['a'])?;
    Ok(alone(alloc, Aexp::Str(span, chars), span)?)
}

// What a letter stands for.
fn id_of(letter: u8) -> NameId {
    match letter {
        b'm' => MAIN,
        b'M' => MAIN_MODULE,
        b'+' => APPEND,
        b'.' => COMPOSE,
        _ => X,
    }
}

// A variable; `q` is `Main.x`.
fn operand(alloc: Global, letter: u8, begin: u8) -> Result<gh_tree::Operand, NoMemory> {
    let mut name = name(id_of(letter), begin, 4);
    if letter == b'q' {
        name.qualifier = Some(MAIN_MODULE);
    }
    let span = name.span;
    alone(alloc, Aexp::Var(Var::Word(name)), span)
}

// `"a" op last`
fn sum(alloc: Global, begin: u8, op: u8, last: u8) -> Result<Exp, NoMemory> {
    let mut others = ListOf::new(alloc);
    others.push(NextOperand {
        op: Op::Var(VarOp::Symbol(name(id_of(op), begin, 3))),
        minus: None,
        operand: operand(alloc, last, begin)?,
    })?;
    let list = OperandList {
        span: tokens(begin, 2, 3),
        minus: None,
        first: text(alloc, tokens(begin, 2, 1))?,
        others,
    };
    Ok(Exp::Plain(Boxed::new(alloc, list)?))
}

// `bound = "a" op last`, which is five tokens.
fn binding(alloc: Global, begin: u8, bound: u8, op: u8, last: u8) -> Result<Decl, NoMemory> {
    let body = sum(alloc, begin, op, last)?;
    let right = Rhs::Plain(
        tokens(begin, 1, 4),
        tokens(begin, 1, 1),
        body,
        Where::Absent,
    );
    let left = FunLhs::Prefix(
        tokens(begin, 0, 1),
        Var::Word(name(id_of(bound), begin, 0)),
        ListOf::new(alloc),
    );
    Ok(Decl::Function(tokens(begin, 0, 5), left, right))
}

// `import x`
fn import() -> Import {
    Import {
        span: tokens(11, 0, 2),
        mark: tokens(11, 0, 1),
        qualified: None,
        name: name(X, 12, 0),
        alias: None,
        list: None,
    }
}

// The binding of three letters, `import x` for one, and an empty item for none.
fn item(alloc: Global, begin: u8, letters: &str) -> Result<Item, NoMemory> {
    match letters.as_bytes() {
        [bound, op, last] => {
            let decl = binding(alloc, begin, *bound, *op, *last)?;
            Ok(Item::Top(Boxed::new(alloc, Top::Decl(decl))?))
        }
        [_] => Ok(Item::Import(Boxed::new(alloc, import())?)),
        _ => Ok(Item::Empty),
    }
}

// `module name where`
fn header(id: NameId) -> Header {
    Header {
        span: tokens(0, 0, 3),
        mark: tokens(0, 0, 1),
        name: name(id, 0, 1),
        exports: None,
        begins: tokens(0, 2, 1),
    }
}

// An empty item and another one, each behind a `;`.
fn others(alloc: Global, last: &str) -> Result<ListOf<NextItem>, NoMemory> {
    let mut others = ListOf::new(alloc);
    others.push(NextItem {
        mark: BlockMark::Written(tokens(9, 0, 1)),
        item: Item::Empty,
    })?;
    others.push(NextItem {
        mark: BlockMark::Written(tokens(10, 0, 1)),
        item: item(alloc, 11, last)?,
    })?;
    Ok(others)
}

// A file of two items with an empty one between them, behind three tokens of a header, which may lack. The bytes of the
// file play no part.
fn tree(alloc: Global, module: &str, first: &str, last: &str) -> Result<ModuleTree, NoMemory> {
    let others = others(alloc, last)?;
    Ok(ModuleTree {
        span: tokens(0, 0, 17),
        header: match module.as_bytes() {
            [letter] => Some(header(id_of(*letter))),
            _ => None,
        },
        open: BlockMark::Written(tokens(3, 0, 1)),
        first: item(alloc, 4, first)?,
        others,
        close: BlockMark::Written(tokens(16, 0, 1)),
    })
}

// The bindings `main = "a" ++ x` and `x = "a" ++ main`.
fn is_pair(bindings: &Bindings) -> bool {
    match bindings.as_slice() {
        [first, last] => {
            first.name == MAIN
                && first.span == tokens(4, 0, 5)
                && last.name == X
                && last.span == tokens(11, 0, 5)
                && is_sum(first.operands.as_slice(), X, tokens(8, 0, 1))
                && is_sum(last.operands.as_slice(), MAIN, tokens(15, 0, 1))
        }
        _ => false,
    }
}

// The operands of `"a" ++ name`.
fn is_sum(operands: &[Operand], wanted: NameId, place: Span) -> bool {
    match operands {
        [Operand::Text(chars), Operand::Name(name, span)] => {
            chars.as_slice() == ['a'].as_slice() && *name == wanted && *span == place
        }
        _ => false,
    }
}

// Whether a file is refused with the bytes of so many tokens from a place on, or has the pair of bindings.
fn is_answer(parsed: &Parsed, refused: &Option<(u8, u8)>) -> bool {
    match (parsed, refused) {
        (Parsed::Bad(span), Some((begin, count))) => *span == tokens(*begin, 0, *count),
        (Parsed::Program(bindings), None) => {
            is_pair(bindings) && bindings.has(MAIN) && bindings.has(X) && !bindings.has(PRELUDE)
        }
        _ => false,
    }
}

// The letters of a header's name and of two items, and the place and the number of the tokens that are refused, if any.
struct File {
    module: &'static str,
    first: &'static str,
    last: &'static str,
    refused: Option<(u8, u8)>,
}

fn agrees(alloc: Global, file: &File) -> Result<bool, NoMemory> {
    let tree = tree(alloc, file.module, file.first, file.last)?;
    let parsed = form(alloc, &tree)?;
    Ok(is_answer(&parsed, &file.refused))
}

const FILES: &[File] = &[
    // `module Main where { main = "a" ++ x ; ; x = "a" ++ main }`
    File {
        module: "M",
        first: "m+x",
        last: "x+m",
        refused: None,
    },
    // The same without its header.
    File {
        module: "",
        first: "m+x",
        last: "x+m",
        refused: None,
    },
    // A header of another name.
    File {
        module: "x",
        first: "",
        last: "",
        refused: Some((0, 3)),
    },
    // A second binding: `main = "a" ++ x ; ; main = "a" ++ x`
    File {
        module: "",
        first: "m+x",
        last: "m+x",
        refused: Some((11, 5)),
    },
    // `main = "a" ++ Main.x` and `x = "a" . x`: the first is refused.
    File {
        module: "",
        first: "m+q",
        last: "x.x",
        refused: Some((4, 5)),
    },
    // `import x`, behind an empty item.
    File {
        module: "",
        first: "",
        last: "i",
        refused: Some((11, 2)),
    },
];

#[test]
fn files_have_forms(rt: HostRuntime) -> Result<(), Fail> {
    for file in FILES {
        assert!(rt;
            agrees(rt.alloc(), file)?,
            "{} {} {}",
            file.module,
            file.first,
            file.last
        );
    }
    Ok(())
}
