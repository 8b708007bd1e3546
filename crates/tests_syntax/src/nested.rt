// A name between parentheses, as tokens.
use gh_base::{ListOf, NameId, NoMemory, Span};
use gh_tree::{Kind, Sym};
use std::alloc::Global;

fn sym(kind: Kind, from: u32) -> Sym {
    Sym {
        kind,
        span: Span {
            file: 1,
            from,
            to: from,
        },
    }
}

/// So many opening brackets, a name, and so many closing ones.
pub fn nested(alloc: Global, opening: u32, closing: u32) -> Result<ListOf<Sym>, NoMemory> {
    let mut syms = ListOf::new(alloc);
    for i in 0..opening {
        syms.push(sym(Kind::Open, i))?;
    }
    syms.push(sym(Kind::ConId(None, NameId(200)), opening))?;
    for i in 0..closing {
        syms.push(sym(Kind::Close, i))?;
    }
    Ok(syms)
}
