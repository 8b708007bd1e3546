// The two knots: expressions, and blocks of declarations.
ghost use Rattle.std.specs.Prelude.{MatchResult};
ghost use Rattle.gh_reader.specs.Reads.{Reads};
ghost use Rattle.gh_parse_exps.specs.Exps as spec;
ghost use Rattle.gh_parse_exps.specs.Decls as declarations;
ghost use Rattle.gh_parse_exps.specs.Wholes.{Spells, Refuses};

use crate::reader::Reader;
use gh_reader::{Stop, Tokens};
use gh_tree::{Decl, Decls, Exp, Rhs, Sym};
use sqlite_items::Boxed;
use std::alloc::Global;

/// An expression from the front of these tokens, where expressions and declarations in it nest at most so deep.
#[cycle(exps)]
pub fn exp(alloc: Global, tokens: &mut Tokens<'_>, depth: usize) -> Result<Exp, Stop>
    ensures { Reads ((spec.knot depth).exp tokens.old) result tokens.new }
{
    if depth == 0 {
        return Err(Stop::NoParse);
    }
    Reader {
        alloc,
        depth: depth - 1,
        exp,
        decls,
    }
    .whole_exp(tokens)
}

/// A block of declarations from the front of these tokens, where expressions and declarations in it nest at most so
/// deep.
#[cycle(exps)]
pub fn decls(alloc: Global, tokens: &mut Tokens<'_>, depth: usize) -> Result<Boxed<Decls>, Stop>
    ensures { Reads ((spec.knot depth).decls tokens.old) result tokens.new }
{
    if depth == 0 {
        return Err(Stop::NoParse);
    }
    Reader {
        alloc,
        depth: depth - 1,
        exp,
        decls,
    }
    .whole_decls(tokens)
}

/// A declaration from the front of these tokens, where expressions and declarations in it nest at most so deep.
pub fn decl(alloc: Global, tokens: &mut Tokens<'_>, depth: usize) -> Result<Decl, Stop>
    ensures { Reads (declarations.decl (spec.knot depth) tokens.old) result tokens.new }
{
    let reader = Reader {
        alloc,
        depth,
        exp,
        decls,
    };
    Ok(reader.decl(tokens)?.into_inner())
}

/// A right side from the front of these tokens, where expressions and declarations in it nest at most so deep.
pub fn rhs(alloc: Global, tokens: &mut Tokens<'_>, depth: usize) -> Result<Rhs, Stop>
    ensures { Reads (declarations.rhs (spec.knot depth) tokens.old) result tokens.new }
{
    let reader = Reader {
        alloc,
        depth,
        exp,
        decls,
    };
    Ok(reader.rhs(tokens)?.into_inner())
}

/// The one expression whose tokens these are.
pub fn parse_exp(alloc: Global, syms: &[Sym]) -> Result<Exp, Stop>
    ensures { MatchResult result (Spells syms.now) (λ e. Refuses e syms.now) }
{
    let mut tokens = Tokens::new(syms);
    let found = exp(alloc, &mut tokens, syms.len())?;
    if !tokens.is_empty() {
        return Err(Stop::NoParse);
    }
    Ok(found)
}
