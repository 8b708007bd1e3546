// Constructors of datatypes (Haskell 98 Report, 4.2.1).
ghost use Rattle.std.specs.Prelude.{◌≡◌};
ghost use Rattle.gh_tree.specs.Print as printed;
ghost use Rattle.gh_tree.specs.ReadTypes as types;
ghost use Rattle.gh_reader.specs.Reads.{Reads};
ghost use Rattle.gh_parse_tops.specs.Tops as spec;

use crate::looks::symbol_next;
use gh_base::ListOf;
use gh_parse_exps::is_bar;
use gh_parse_heads::con;
use gh_parse_types::{arg_types, btype};
use gh_reader::{Stop, Tokens, con_op, con_op_next};
use gh_tree::{ArgType, BType, Con, ConOp, Constr, NextConstr, Sym};
use std::alloc::Global;

// Whether an operator that is a constructor has no qualifier.
fn plain_con_op(op: &ConOp) -> bool
    ensures { result ≡ printed.plain_con_op op.now }
{
    match op {
        ConOp::Colon(_) => true,
        ConOp::Symbol(name) | ConOp::Quoted(_, name, _) => name.qualifier.is_none(),
    }
}

// A constructor operator and its second field, behind the first.
#[tactic(auto, unfolding(crate::specs::Tops::infix_constr))]
fn infix_constr(
    alloc: Global,
    tokens: &mut Tokens<'_>,
    depth: usize,
    start: &[Sym],
    left: BType,
) -> Result<Constr, Stop>
    ensures { Reads (spec.infix_constr (types.type_expr depth) start.now left tokens.old) result tokens.new }
{
    let op = con_op(tokens)?;
    let right = btype(alloc, tokens, depth)?;
    if !plain_con_op(&op) {
        return Err(Stop::NoParse);
    }
    Ok(Constr::Infix(tokens.since(start), left, op, right))
}

// The constructor and the fields that an applied type stands for.
#[tactic(auto, unfolding(crate::specs::Tops::fields_of), using(crate::proofs::Fields::fields_con, crate::proofs::Fields::fields_var, crate::proofs::Fields::fields_unit, crate::proofs::Fields::fields_no_list, crate::proofs::Fields::fields_no_arrow, crate::proofs::Fields::fields_no_tuple, crate::proofs::Fields::fields_paren, crate::proofs::Fields::fields_tuple, crate::proofs::Fields::fields_list))]
fn fields_of(applied: BType) -> Option<(Con, ListOf<ArgType>)>
    ensures { result ≡ spec.fields_of applied }
{
    let BType { head, args, .. } = applied;
    match head {
        ArgType::Con(name) => {
            if name.qualifier.is_none() {
                Some((Con::Word(name), args))
            } else {
                None
            }
        }
        _ => None,
    }
}

// What an applied type is where no operator follows: a constructor and its fields.
#[tactic(auto, unfolding(crate::specs::Tops::prefix_constr))]
fn prefix_constr(
    tokens: &mut Tokens<'_>,
    depth: usize,
    start: &[Sym],
    left: BType,
) -> Result<Constr, Stop>
    ensures { Reads (spec.prefix_constr (types.type_expr depth) start.now left tokens.old) result tokens.new }
{
    match fields_of(left) {
        None => Err(Stop::NoParse),
        Some((con, fields)) => Ok(Constr::Prefix(tokens.since(start), con, fields)),
    }
}

// A constructor operator between parentheses, and its fields.
#[tactic(auto, unfolding(crate::specs::Tops::symbol_constr))]
fn symbol_constr(
    alloc: Global,
    tokens: &mut Tokens<'_>,
    depth: usize,
    start: &[Sym],
) -> Result<Constr, Stop>
    ensures { Reads (spec.symbol_constr (types.type_expr depth) start.now tokens.old) result tokens.new }
{
    let con = con(tokens)?;
    let fields = arg_types(alloc, tokens, depth)?;
    Ok(Constr::Prefix(tokens.since(start), con, fields))
}

// A constructor that begins with an applied type.
#[tactic(auto, unfolding(crate::specs::Tops::other_constr))]
fn other_constr(
    alloc: Global,
    tokens: &mut Tokens<'_>,
    depth: usize,
    start: &[Sym],
) -> Result<Constr, Stop>
    ensures { Reads (spec.other_constr (types.type_expr depth) start.now tokens.old) result tokens.new }
{
    let left = btype(alloc, tokens, depth)?;
    if con_op_next(tokens) {
        return infix_constr(alloc, tokens, depth, start, left);
    }
    prefix_constr(tokens, depth, start, left)
}

/// A constructor of a datatype.
#[tactic(auto, unfolding(crate::specs::Tops::constr))]
pub fn constr(alloc: Global, tokens: &mut Tokens<'_>, depth: usize) -> Result<Constr, Stop>
    ensures { Reads (spec.constr (types.type_expr depth) tokens.old) result tokens.new }
{
    let start = tokens.rest();
    if symbol_next(tokens) {
        return symbol_constr(alloc, tokens, depth, start);
    }
    other_constr(alloc, tokens, depth, start)
}

// `|` and a constructor.
#[tactic(auto, unfolding(crate::specs::Tops::next_constr))]
fn next_constr(alloc: Global, tokens: &mut Tokens<'_>, depth: usize) -> Result<NextConstr, Stop>
    ensures { Reads (spec.next_constr (types.type_expr depth) tokens.old) result tokens.new }
{
    let mark = tokens.take();
    let constr = constr(alloc, tokens, depth)?;
    Ok(NextConstr { mark, constr })
}

/// The other constructors of a datatype.
pub fn next_constrs(
    alloc: Global,
    tokens: &mut Tokens<'_>,
    depth: usize,
) -> Result<ListOf<NextConstr>, Stop>
    ensures { Reads (spec.next_constrs (types.type_expr depth) tokens.old) result tokens.new }
{
    let mut found = ListOf::new(alloc);
    for _turn in 0..tokens.rest().len() {
        if !is_bar(tokens.kind()) {
            return Ok(found);
        }
        found.push(next_constr(alloc, tokens, depth)?)?;
    }
    Ok(found)
}
