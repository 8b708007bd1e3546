// Each limit at its number and one more.
use gh_base::{Limit, ListOf, NameId, NoMemory, Refusal, Span};
use gh_limits::limits;
use gh_tree::{
    Aexp, ArgPattern, ArgType, BType, BlockMark, Con, Constr, Context, Decl, DeclItem, Decls, Dep,
    Deps, Exp, FunLhs, GenVars, Item, ModuleTree, Name, NextConstr, NextDep, NextItem, Operand,
    OperandList, Rhs, Top, TypeExpr, Var, Where,
};
use sqlite_items::Boxed;
use std::alloc::Global;
use std::process::Abort;
use std::test::Fail;

const HERE: Span = Span {
    file: 1,
    from: 0,
    to: 0,
};

fn at(from: u32) -> Span {
    Span {
        file: 1,
        from,
        to: from,
    }
}

fn name(id: u32) -> Name {
    Name {
        span: HERE,
        qualifier: None,
        id: NameId(id),
    }
}

fn ty(alloc: Global) -> TypeExpr {
    TypeExpr {
        span: HERE,
        first: BType {
            span: HERE,
            head: ArgType::Con(name(300)),
            args: ListOf::new(alloc),
        },
        arrows: ListOf::new(alloc),
    }
}

fn exp(alloc: Global) -> Result<Exp, NoMemory> {
    let head = Aexp::Var(Var::Word(name(300)));
    let first = Operand::Apply(HERE, Boxed::new(alloc, head)?, ListOf::new(alloc));
    let list = OperandList {
        span: HERE,
        minus: None,
        first,
        others: ListOf::new(alloc),
    };
    Ok(Exp::Plain(Boxed::new(alloc, list)?))
}

fn wildcards(alloc: Global, count: u32) -> Result<ListOf<ArgPattern>, NoMemory> {
    let mut args = ListOf::new(alloc);
    for _ in 0..count {
        args.push(ArgPattern::Wild(HERE))?;
    }
    Ok(args)
}

// A clause of a function with so many arguments and these local declarations.
fn clause(
    alloc: Global,
    from: u32,
    function: u32,
    arguments: u32,
    wher: Where,
) -> Result<Decl, NoMemory> {
    let right = Rhs::Plain(HERE, HERE, exp(alloc)?, wher);
    let args = wildcards(alloc, arguments)?;
    let left = FunLhs::Prefix(HERE, Var::Word(name(function)), args);
    Ok(Decl::Function(at(from), left, right))
}

fn synonym(alloc: Global, count: u32) -> Result<Top, NoMemory> {
    let mut parameters = ListOf::new(alloc);
    for i in 0..count {
        parameters.push(name(i))?;
    }
    Ok(Top::Synonym(at(5), HERE, name(200), parameters, HERE, ty(alloc)))
}

fn constr(alloc: Global, fields: u32) -> Result<Constr, NoMemory> {
    let mut types = ListOf::new(alloc);
    for _ in 0..fields {
        types.push(ArgType::Con(name(300)))?;
    }
    Ok(Constr::Prefix(HERE, Con::Word(name(201)), types))
}

// A type with so many constructors, the first with so many fields.
fn data(alloc: Global, constrs: u32, fields: u32) -> Result<Top, NoMemory> {
    let mut others = ListOf::new(alloc);
    for _ in 1..constrs {
        others.push(NextConstr {
            mark: HERE,
            constr: constr(alloc, 0)?,
        })?;
    }
    Ok(Top::Data(
        at(5),
        HERE,
        name(200),
        ListOf::new(alloc),
        HERE,
        constr(alloc, fields)?,
        others,
    ))
}

fn vars(alloc: Global) -> GenVars {
    GenVars {
        span: HERE,
        open: HERE,
        first: name(1),
        others: ListOf::new(alloc),
        rest: None,
        close: HERE,
    }
}

fn dep(alloc: Global) -> Dep {
    Dep {
        span: HERE,
        function: Var::Word(name(200)),
        vars: vars(alloc),
    }
}

fn deps(alloc: Global, count: u32) -> Result<Deps, NoMemory> {
    let mut others = ListOf::new(alloc);
    for _ in 1..count {
        others.push(NextDep {
            mark: HERE,
            dep: dep(alloc),
        })?;
    }
    Ok(Deps {
        span: HERE,
        open: HERE,
        first: Some(dep(alloc)),
        others,
        close: HERE,
    })
}

// The signature of a generic function with so many dependencies.
fn signature(alloc: Global, count: u32) -> Result<Top, NoMemory> {
    let context = Context {
        deps: deps(alloc, count)?,
        mark: HERE,
    };
    Ok(Top::Signature(
        at(5),
        Var::Word(name(200)),
        vars(alloc),
        HERE,
        Some(context),
        ty(alloc),
    ))
}

// So many clauses; each of a name of its own, or all of one.
fn decls(alloc: Global, count: u32, own: bool) -> Result<ListOf<DeclItem>, NoMemory> {
    let mut decls = ListOf::new(alloc);
    for i in 0..count {
        let function = if own { i } else { 100 };
        decls.push(DeclItem {
            decl: clause(alloc, 7, function, 1, Where::Absent)?,
            marks: ListOf::new(alloc),
        })?;
    }
    Ok(decls)
}

// A clause with so many local ones.
fn local(alloc: Global, count: u32, own: bool) -> Result<Decl, NoMemory> {
    let block = Decls {
        span: HERE,
        open: BlockMark::Inserted(0),
        before: ListOf::new(alloc),
        decls: decls(alloc, count, own)?,
        close: BlockMark::Inserted(0),
    };
    let wher = Where::Block(HERE, Boxed::new(alloc, block)?);
    clause(alloc, 5, 200, 1, wher)
}

// What a file has so many of.
enum Form {
    Parameters,
    Constructors,
    Fields,
    Dependencies,
    Arguments,
    Bindings,
    LocalClauses,
    Clauses,
}

fn top(alloc: Global, form: &Form, count: u32) -> Result<Top, NoMemory> {
    match form {
        Form::Parameters => synonym(alloc, count),
        // The first of 128 constructors has 16 fields, which is allowed, and that of 129 has 17.
        Form::Constructors => data(alloc, count, count.saturating_sub(112)),
        Form::Fields => data(alloc, 1, count),
        Form::Dependencies => signature(alloc, count),
        Form::Arguments => Ok(Top::Decl(clause(alloc, 5, 200, count, Where::Absent)?)),
        Form::Bindings => Ok(Top::Decl(local(alloc, count, true)?)),
        Form::LocalClauses => Ok(Top::Decl(local(alloc, count, false)?)),
        Form::Clauses => Ok(Top::Decl(clause(alloc, 0, 200, 1, Where::Absent)?)),
    }
}

fn next(item: Item) -> NextItem {
    NextItem {
        mark: BlockMark::Inserted(0),
        item,
    }
}

// The clause of this number, as an item.
fn next_clause(alloc: Global, number: u32) -> Result<NextItem, NoMemory> {
    let decl = clause(alloc, number, 200, 1, Where::Absent)?;
    Ok(next(Item::Top(Boxed::new(alloc, Top::Decl(decl))?)))
}

// The clauses of one function from the second on, with an empty item before each.
fn others(alloc: Global, count: u32) -> Result<ListOf<NextItem>, NoMemory> {
    let mut others = ListOf::new(alloc);
    for number in 1..count {
        others.push(next(Item::Empty))?;
        others.push(next_clause(alloc, number)?)?;
    }
    Ok(others)
}

fn file(alloc: Global, form: &Form, count: u32) -> Result<ModuleTree, NoMemory> {
    let others = match form {
        Form::Clauses => others(alloc, count)?,
        _ => ListOf::new(alloc),
    };
    Ok(ModuleTree {
        span: HERE,
        header: None,
        open: BlockMark::Inserted(0),
        first: Item::Top(Boxed::new(alloc, top(alloc, form, count)?)?),
        others,
        close: BlockMark::Inserted(0),
    })
}

// The limit that a file passes, with the first byte and the end of its span.
fn told(alloc: Global, form: &Form, count: u32) -> Result<Option<(Limit, u32, u32)>, NoMemory> {
    let tree = file(alloc, form, count)?;
    Ok(match limits(&tree) {
        Some(Refusal::LimitPassed { span, which }) => Some((which, span.from, span.to)),
        _ => None,
    })
}

// Whether this number passes no limit and one more passes this one, at the declaration or from the first clause to the last.
fn is_limit(alloc: Global, form: &Form, count: u32, limit: Limit) -> Result<bool, NoMemory> {
    let (from, to) = match form {
        Form::Clauses => (0, count),
        _ => (5, 5),
    };
    let most = told(alloc, form, count)?;
    let more = told(alloc, form, count.saturating_add(1))?;
    Ok(most == None && more == Some((limit, from, to)))
}

const LIMITS: &[(Form, u32, Limit)] = &[
    (Form::Parameters, 8, Limit::Parameters),
    (Form::Constructors, 128, Limit::Constructors),
    (Form::Fields, 16, Limit::Fields),
    (Form::Dependencies, 8, Limit::Dependencies),
    (Form::Arguments, 16, Limit::Arguments),
    (Form::Bindings, 64, Limit::Bindings),
    (Form::LocalClauses, 1000, Limit::Clauses),
    (Form::Clauses, 1000, Limit::Clauses),
];

#[test]
fn each_limit_is_passed_behind_its_number(rt: HostRuntime) -> Result<(), Fail> {
    for (form, count, limit) in LIMITS {
        assert!(rt;
            is_limit(rt.alloc(), form, *count, *limit)?,
            "{limit:?} {count}"
        );
    }
    Ok(())
}
