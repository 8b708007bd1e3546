// One call with ample memory, on a term with every form of node.
use gh_base::{ListOf, NameId, NoMemory, Origin, Space, Span, TyCon};
use gh_kernel::{
    Lit, LocalBinding, Pattern, PatternNode, Row, Signed, Term, TermNode, VarName, erase,
};
use gh_typeterm::{Ty, same};
use sqlite_items::Boxed;
use std::alloc::Global;
use std::test::Fail;

fn value(name: u32) -> Origin {
    Origin {
        module: NameId(48),
        space: Space::Values,
        name: NameId(name),
    }
}

fn place() -> Span {
    Span {
        file: 1,
        from: 2,
        to: 3,
    }
}

fn variable(name: u32) -> Term<u32> {
    Term {
        node: TermNode::Var(VarName::Local(name)),
        note: name,
    }
}

// `let x = y in case x of { C z@_ | x -> z; .. }`, each node with a number for its note
fn noted(alloc: Global) -> Result<Boxed<Term<u32>>, NoMemory> {
    let mut members = ListOf::new(alloc);
    members.push(LocalBinding {
        name: 1,
        signature: None,
        term: variable(2),
        note: 7,
    })?;
    let mut groups = ListOf::new(alloc);
    groups.push(members)?;
    let body = Boxed::new(alloc, noted_case(alloc)?)?;
    let node = TermNode::Let(groups, body);
    Ok(Boxed::new(alloc, Term { node, note: 9 })?)
}

fn noted_case(alloc: Global) -> Result<Term<u32>, NoMemory> {
    let mut terms = ListOf::new(alloc);
    terms.push(variable(1))?;
    let mut patterns = ListOf::new(alloc);
    patterns.push(noted_pattern(alloc)?)?;
    let mut bodies = ListOf::new(alloc);
    bodies.push((Some(variable(1)), variable(3)))?;
    let mut rows = ListOf::new(alloc);
    rows.push(Row {
        patterns,
        groups: ListOf::new(alloc),
        bodies,
    })?;
    Ok(Term {
        node: TermNode::Case(terms, rows),
        note: 8,
    })
}

fn noted_pattern(alloc: Global) -> Result<Pattern<u32>, NoMemory> {
    let wild = Boxed::new(
        alloc,
        Pattern {
            node: PatternNode::PWild,
            note: 5,
        },
    )?;
    let mut parts = ListOf::new(alloc);
    parts.push(Pattern {
        node: PatternNode::PAs(3, wild),
        note: 6,
    })?;
    Ok(Pattern {
        node: PatternNode::PCon(value(4), parts),
        note: 4,
    })
}

// The term without its notes.
fn erased(alloc: Global, term: Boxed<Term<u32>>) -> Result<Boxed<Term<()>>, NoMemory> {
    let made = erase(alloc, term.get())?;
    Ok(Boxed::new(alloc, made)?)
}

#[test]
fn erases_a_let(rt: HostRuntime) -> Result<(), Fail> {
    let alloc = rt.alloc();
    let made = erased(alloc, noted(alloc)?)?;
    assert!(rt; is_let(made.get()));
    Ok(())
}

fn is_let(term: &Term<()>) -> bool {
    match &term.node {
        TermNode::Let(groups, body) => {
            let groups = groups.as_slice();
            groups.len() == 1 && is_group(&groups[0]) && is_case(body.get())
        }
        _ => false,
    }
}

fn is_group(group: &ListOf<LocalBinding<()>>) -> bool {
    let members = group.as_slice();
    members.len() == 1 && members[0].name == 1 && is_variable(&members[0].term, 2)
}

fn is_case(term: &Term<()>) -> bool {
    match &term.node {
        TermNode::Case(terms, rows) => {
            let terms = terms.as_slice();
            let rows = rows.as_slice();
            terms.len() == 1 && is_variable(&terms[0], 1) && rows.len() == 1 && is_row(&rows[0])
        }
        _ => false,
    }
}

fn is_row(row: &Row<()>) -> bool {
    let patterns = row.patterns.as_slice();
    let bodies = row.bodies.as_slice();
    patterns.len() == 1 && is_pattern(&patterns[0]) && bodies.len() == 1 && is_body(&bodies[0])
}

fn is_pattern(pattern: &Pattern<()>) -> bool {
    match &pattern.node {
        PatternNode::PCon(con, parts) => {
            let parts = parts.as_slice();
            *con == value(4) && parts.len() == 1 && is_as(&parts[0])
        }
        _ => false,
    }
}

fn is_as(pattern: &Pattern<()>) -> bool {
    match &pattern.node {
        PatternNode::PAs(name, inner) => *name == 3
            && matches!(inner.get().node, PatternNode::PWild),
        _ => false,
    }
}

fn is_body(body: &(Option<Term<()>>, Term<()>)) -> bool {
    match &body.0 {
        Some(guard) => is_variable(guard, 1) && is_variable(&body.1, 3),
        None => false,
    }
}

fn is_variable(term: &Term<()>, name: u32) -> bool {
    match &term.node {
        TermNode::Var(VarName::Local(number)) => *number == name,
        _ => false,
    }
}

// `let { f{|e|} = \x -> 'a' } in f{|Int|} "b" :: Int`
fn redefined(alloc: Global) -> Result<Boxed<Term<u32>>, NoMemory> {
    let body = annotated(alloc)?;
    let mut pairs = ListOf::new(alloc);
    pairs.push((value(6), place(), right_side(alloc)?))?;
    let node = TermNode::Redef(0, NameId(9), pairs, body);
    Ok(Boxed::new(alloc, Term { node, note: 3 })?)
}

// `\x -> 'a'`
fn right_side(alloc: Global) -> Result<Term<u32>, NoMemory> {
    let node = TermNode::Lit(Lit::Char('a'));
    let char = Boxed::new(alloc, Term { node, note: 1 })?;
    Ok(Term {
        node: TermNode::Lam(5, char),
        note: 2,
    })
}

fn annotated(alloc: Global) -> Result<Boxed<Term<u32>>, NoMemory> {
    let applied = applied(alloc)?;
    let signed = Signed {
        ty: Ty::con(alloc, TyCon::Int)?,
        kinds: ListOf::new(alloc),
    };
    let node = TermNode::Ann(applied, signed);
    Ok(Boxed::new(alloc, Term { node, note: 7 })?)
}

// `f{|Int|} "b"`
fn applied(alloc: Global) -> Result<Boxed<Term<u32>>, NoMemory> {
    let node = TermNode::Call(value(6), Ty::con(alloc, TyCon::Int)?);
    let call = Boxed::new(alloc, Term { node, note: 4 })?;
    let node = TermNode::Lit(Lit::Str(ListOf::from_slice(alloc, &['b'])?));
    let text = Boxed::new(alloc, Term { node, note: 5 })?;
    let node = TermNode::App(call, text);
    Ok(Boxed::new(alloc, Term { node, note: 6 })?)
}

#[test]
fn erases_a_redefinition(rt: HostRuntime) -> Result<(), Fail> {
    let alloc = rt.alloc();
    let int = Ty::con(alloc, TyCon::Int)?;
    let made = erased(alloc, redefined(alloc)?)?;
    assert!(rt; is_redefinition(made.get(), &int));
    Ok(())
}

fn is_redefinition(term: &Term<()>, int: &Ty) -> bool {
    match &term.node {
        TermNode::Redef(number, name, pairs, body) => {
            let pairs = pairs.as_slice();
            *number == 0
                && *name == NameId(9)
                && pairs.len() == 1
                && is_pair(&pairs[0])
                && is_annotated(body.get(), int)
        }
        _ => false,
    }
}

fn is_pair(pair: &(Origin, Span, Term<()>)) -> bool {
    pair.0 == value(6) && pair.1 == place() && matches!(pair.2.node, TermNode::Lam(5, _))
}

fn is_annotated(term: &Term<()>, ty: &Ty) -> bool {
    match &term.node {
        TermNode::Ann(inner, signed) => same(&signed.ty, ty) && is_applied(inner.get(), ty),
        _ => false,
    }
}

fn is_applied(term: &Term<()>, ty: &Ty) -> bool {
    match &term.node {
        TermNode::App(call, text) => match (&call.get().node, &text.get().node) {
            (TermNode::Call(function, at), TermNode::Lit(Lit::Str(chars))) => {
                *function == value(6) && same(at, ty) && chars.as_slice() == ['b'].as_slice()
            }
            _ => false,
        },
        _ => false,
    }
}
