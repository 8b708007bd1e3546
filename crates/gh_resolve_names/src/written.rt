// Names as they are used.
ghost use Rattle.std.specs.Prelude.{◌≡◌};
ghost use Rattle.gh_resolve_names.specs.Written as spec;

use gh_base::Span;
use gh_scopes::Used;
use gh_tree::{Con, Name, Var, VarOp};

/// A name between two marks.
pub fn between(before: Span, name: Name, behind: Span) -> Used
    ensures { result ≡ spec.between before name behind }
{
    Used {
        span: Span {
            file: before.file,
            from: before.from,
            to: behind.to,
        },
        qualifier: name.qualifier,
        name: name.id,
    }
}

/// A name that is one token.
pub fn used_name(name: Name) -> Used
    ensures { result ≡ spec.used_name name }
{
    Used {
        span: name.span,
        qualifier: name.qualifier,
        name: name.id,
    }
}

/// A variable, with its parentheses where it has them.
pub fn used_var(var: Var) -> Used
    ensures { result ≡ spec.used_var var }
{
    match var {
        Var::Word(name) => used_name(name),
        Var::Symbol(before, name, behind) => between(before, name, behind),
    }
}

/// A constructor, with its parentheses where it has them.
pub fn used_con(con: Con) -> Used
    ensures { result ≡ spec.used_con con }
{
    match con {
        Con::Word(name) => used_name(name),
        Con::Symbol(before, name, behind) => between(before, name, behind),
    }
}

/// An operator that is a variable, with its backquotes where it has them.
pub fn used_var_op(op: VarOp) -> Used
    ensures { result ≡ spec.used_var_op op }
{
    match op {
        VarOp::Symbol(name) => used_name(name),
        VarOp::Quoted(before, name, behind) => between(before, name, behind),
    }
}
