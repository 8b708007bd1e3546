// Declarations of the top (Haskell 98 Report, 4; generic declarations after "Exploring Generic Haskell").
ghost use Rattle.std.specs.Prelude.{◌≡◌, MatchResult};
ghost use Rattle.gh_tree.specs.ReadTypes as types;
ghost use Rattle.gh_reader.specs.Reads.{Reads};
ghost use Rattle.gh_parse_exps.specs.Exps.{knot};
ghost use Rattle.gh_parse_tops.specs.Tops as spec;
ghost use Rattle.gh_parse_tops.specs.Whole.{Spells, Refuses};

use crate::constrs::{constr, next_constrs};
use crate::generics::context;
use crate::looks::{extension_next, gen_vars_next, generic_next};
use crate::words::{gen_vars, words};
use gh_base::ListOf;
use gh_parse_exps::{banana, close_banana, colons, decl, equals, rhs};
use gh_parse_heads::{any_var, con, module_name};
use gh_parse_patterns::args;
use gh_parse_types::{arg_type, type_expr};
use gh_reader::{Stop, Tokens, var};
use gh_tree::{Kind, Sym, Top, Var};
use sqlite_items::Boxed;
use std::alloc::Global;

// A type synonym.
#[tactic(auto, unfolding(crate::specs::Tops::synonym))]
fn synonym(alloc: Global, tokens: &mut Tokens<'_>, depth: usize, start: &[Sym]) -> Result<Top, Stop>
    ensures { Reads (spec.synonym (types.type_expr depth) start.now tokens.old) result tokens.new }
{
    let word = tokens.take();
    let name = module_name(tokens)?;
    let parameters = words(alloc, tokens)?;
    let mark = equals(tokens)?;
    let of = type_expr(alloc, tokens, depth)?;
    let span = tokens.since(start);
    Ok(Top::Synonym(span, word, name, parameters, mark, of.into_inner()))
}

// A datatype.
#[tactic(auto, unfolding(crate::specs::Tops::datatype))]
fn datatype(
    alloc: Global,
    tokens: &mut Tokens<'_>,
    depth: usize,
    start: &[Sym],
) -> Result<Top, Stop>
    ensures { Reads (spec.datatype (types.type_expr depth) start.now tokens.old) result tokens.new }
{
    let word = tokens.take();
    let name = module_name(tokens)?;
    let parameters = words(alloc, tokens)?;
    let mark = equals(tokens)?;
    let first = constr(alloc, tokens, depth)?;
    let others = next_constrs(alloc, tokens, depth)?;
    let span = tokens.since(start);
    Ok(Top::Data(span, word, name, parameters, mark, first, others))
}

// A datatype of one constructor with one field that has its representation.
#[tactic(auto, unfolding(crate::specs::Tops::newtype))]
fn newtype(alloc: Global, tokens: &mut Tokens<'_>, depth: usize, start: &[Sym]) -> Result<Top, Stop>
    ensures { Reads (spec.newtype (types.type_expr depth) start.now tokens.old) result tokens.new }
{
    let word = tokens.take();
    let name = module_name(tokens)?;
    let parameters = words(alloc, tokens)?;
    let mark = equals(tokens)?;
    let con = con(tokens)?;
    let field = arg_type(alloc, tokens, depth)?;
    let span = tokens.since(start);
    Ok(Top::Newtype(span, word, name, parameters, mark, con, field))
}

// The signature of a generic function, behind its name.
#[tactic(auto, unfolding(crate::specs::Tops::gen_signature))]
fn gen_signature(
    alloc: Global,
    tokens: &mut Tokens<'_>,
    depth: usize,
    start: &[Sym],
    name: Var,
) -> Result<Top, Stop>
    ensures { Reads (spec.gen_signature (types.type_expr depth) start.now name tokens.old) result tokens.new }
{
    let vars = gen_vars(alloc, tokens)?;
    let mark = colons(tokens)?;
    let context = context(alloc, tokens)?;
    let of = type_expr(alloc, tokens, depth)?;
    let span = tokens.since(start);
    Ok(Top::Signature(span, name, vars, mark, context, of.into_inner()))
}

// A case of a generic function, behind its name.
#[tactic(auto, unfolding(crate::specs::Tops::gen_case))]
fn gen_case(
    alloc: Global,
    tokens: &mut Tokens<'_>,
    depth: usize,
    start: &[Sym],
    name: Var,
) -> Result<Top, Stop>
    ensures { Reads (spec.gen_case (knot depth) start.now name tokens.old) result tokens.new }
{
    let left = banana(tokens)?;
    let at = type_expr(alloc, tokens, depth)?;
    let close = close_banana(tokens)?;
    let patterns = args(alloc, tokens, depth)?;
    let right = rhs(alloc, tokens, depth)?;
    let span = tokens.since(start);
    Ok(Top::Case(span, name, left, at.into_inner(), close, patterns, right))
}

// A signature or a case of a generic function.
#[tactic(auto, unfolding(crate::specs::Tops::generic))]
fn generic(alloc: Global, tokens: &mut Tokens<'_>, depth: usize, start: &[Sym]) -> Result<Top, Stop>
    ensures { Reads (spec.generic (knot depth) start.now tokens.old) result tokens.new }
{
    let name = var(tokens)?;
    if gen_vars_next(tokens) {
        return gen_signature(alloc, tokens, depth, start, name);
    }
    gen_case(alloc, tokens, depth, start, name)
}

// A generic function that extends another.
#[tactic(auto, unfolding(crate::specs::Tops::extension))]
fn extension(tokens: &mut Tokens<'_>, start: &[Sym]) -> Result<Top, Stop>
    ensures { Reads (spec.extension start.now tokens.old) result tokens.new }
{
    let name = var(tokens)?;
    let mark = tokens.take();
    let extended = any_var(tokens)?;
    Ok(Top::Extends(tokens.since(start), name, mark, extended))
}

// A declaration of the top that begins with no word of its own.
fn other_top(
    alloc: Global,
    tokens: &mut Tokens<'_>,
    depth: usize,
    start: &[Sym],
) -> Result<Top, Stop>
    ensures { Reads (spec.other_top (knot depth) start.now tokens.old) result tokens.new }
{
    if generic_next(tokens) {
        return generic(alloc, tokens, depth, start);
    }
    if extension_next(tokens) {
        return extension(tokens, start);
    }
    Ok(Top::Decl(decl(alloc, tokens, depth)?))
}

// A declaration of the top from the front of these tokens.
#[tactic(auto, unfolding(crate::specs::Tops::top))]
fn top(alloc: Global, tokens: &mut Tokens<'_>, depth: usize) -> Result<Top, Stop>
    ensures { Reads (spec.top (knot depth) tokens.old) result tokens.new }
{
    let start = tokens.rest();
    match tokens.kind() {
        Some(Kind::TypeWord) => synonym(alloc, tokens, depth, start),
        Some(Kind::Data) => datatype(alloc, tokens, depth, start),
        Some(Kind::Newtype) => newtype(alloc, tokens, depth, start),
        _ => other_top(alloc, tokens, depth, start),
    }
}

// A declaration of the top in a box: a small value.
fn boxed_top(alloc: Global, tokens: &mut Tokens<'_>, depth: usize) -> Result<Boxed<Top>, Stop>
    ensures { Reads (spec.top (knot depth) tokens.old) result tokens.new }
{
    Ok(Boxed::new(alloc, top(alloc, tokens, depth)?)?)
}

/// The one declaration of the top whose tokens these are (Haskell 98 Report, 4; generic declarations after "Exploring
/// Generic Haskell"). `NoParse` where there is none, `NoMemory` where memory ran out.
pub fn parse_top(alloc: Global, syms: &[Sym]) -> Result<Boxed<Top>, Stop>
    ensures { MatchResult result (Spells syms.now) (λ e. Refuses e syms.now) }
{
    let mut tokens = Tokens::new(syms);
    let found = boxed_top(alloc, &mut tokens, syms.len())?;
    if !tokens.is_empty() {
        return Err(Stop::NoParse);
    }
    Ok(found)
}
