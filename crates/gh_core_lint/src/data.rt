// Datatypes at types.
ghost use Rattle.std.specs.Prelude.{◌≡◌, ◌↔◌, ◌+◌, ◌++◌, map, reverse, IfOk, IsTrue, OnOk};
ghost use Rattle.gh_base.specs.declared.place.TyCon.TheVariants as tycon;
ghost use Rattle.gh_core.specs.SameType.{con};
ghost use Rattle.gh_core.specs.Typing.{arrows, at_types, con_type, field_type, field_types, fields_at, foralls, applied_to, params_from, param_index, IsScrutinee};
ghost use Rattle.gh_core_lint.specs.Data.{args_of, head_of, named_head, AreArguments, IsSeen};
ghost use Rattle.gh_core_lint.specs.Programs.{program_of};
ghost use Rattle.gh_core_lint.specs.Types.{type_at};

use crate::known::Known;
use crate::place::layer;
use crate::types::{Node, Type, make_app, make_arrow, make_bound, make_con, make_forall, plus};
use gh_base::{ListOf, NoMemory, Origin, TyCon};
use gh_typeterm::{DeclCon, DeclData, Kind, Ty, TyNode};
use std::alloc::Global;

/// What a scrutinee is: of a datatype at types for its parameters, an integer, a character, or nothing that a case takes.
#[derive(Drop)]
pub enum Sort<'a> {
    Data(&'a DeclData, ListOf<Type>),
    Int,
    Char,
    Other,
}

fn named(c: TyCon) -> Option<Origin>
    ensures { result ≡ named_head (con c) }
{
    match c {
        TyCon::Named(origin) => Some(origin),
        TyCon::Arrow => None,
        TyCon::Int => None,
        TyCon::Char => None,
        TyCon::ConOf(_) => None,
    }
}

// The name at the head of a type, whose arguments are added to a list.
fn split(ty: &Type, args: &mut ListOf<Type>) -> Result<Option<Origin>, NoMemory>
    ensures name { IfOk result (λ name. name ≡ named_head (head_of (type_at ty.now))) }
    ensures args { OnOk result (map type_at args.new ≡ map type_at args.old ++ args_of (type_at ty.now)) }
{
    match ty.get() {
        Node::App(f, x) => {
            let name = split(f, args)?;
            args.push(x.share()?)?;
            Ok(name)
        }
        Node::Con(c) => Ok(named(*c)),
        Node::Bound(_) => Ok(None),
        Node::Free(_) => Ok(None),
        Node::Forall(_, _) => Ok(None),
        Node::Any(_) => Ok(None),
    }
}

// The datatype of a type, with the types for its parameters.
fn data_of<'a>(
    alloc: Global,
    known: &Known<'a>,
    ty: &Type,
) -> Result<Option<(&'a DeclData, ListOf<Type>)>, NoMemory>
    ensures { IfOk result (λ made. AreArguments (program_of known.now).decls (type_at ty.now) made) }
{
    let mut args = ListOf::new(alloc);
    let origin = match split(ty, &mut args)? {
        Some(origin) => origin,
        None => return Ok(None),
    };
    match known.datatype(origin) {
        Some(decl) => {
            if args.as_slice().len() == decl.params.as_slice().len() {
                Ok(Some((decl, args)))
            } else {
                Ok(None)
            }
        }
        None => Ok(None),
    }
}

/// Whether a type is this constructor.
pub fn is_con(ty: &Type, c: TyCon) -> bool
    ensures { IsTrue result ↔ (type_at ty.now ≡ con c) }
{
    match ty.get() {
        Node::Con(d) => *d == c,
        _ => false,
    }
}

/// What a scrutinee of a type is.
pub fn sort_of<'a>(alloc: Global, known: &Known<'a>, ty: &Type) -> Result<Sort<'a>, NoMemory>
    ensures { IfOk result (λ sort. IsSeen (program_of known.now).decls (type_at ty.now) sort) }
{
    if let Some((decl, args)) = data_of(alloc, known, ty)? {
        return Ok(Sort::Data(decl, args));
    }
    if is_con(ty, TyCon::Int) {
        return Ok(Sort::Int);
    }
    if is_con(ty, TyCon::Char) {
        return Ok(Sort::Char);
    }
    Ok(Sort::Other)
}

fn index_of_param(count: usize, number: u32) -> Result<usize, NoMemory>
    ensures { IfOk result (λ index. index ≡ param_index count number) }
{
    let number = number as usize;
    if number < count {
        return Ok(count - 1 - number);
    }
    plus(count, number)
}

fn index_of_name(count: usize, number: u32) -> Result<usize, NoMemory>
    ensures { IfOk result (λ index. index ≡ count + number) }
{
    plus(count, number as usize)
}

/// The type of a field of a datatype with so many parameters.
pub fn field(alloc: Global, count: usize, ty: &Ty) -> Result<Type, NoMemory>
    ensures { IfOk result (λ made. type_at made ≡ field_type count ty.now) }
{
    match ty.get() {
        TyNode::Con(c) => make_con(alloc, layer(*c)),
        TyNode::Var(number) => make_bound(alloc, index_of_param(count, *number)?),
        TyNode::App(f, x) => {
            let f = field(alloc, count, f)?;
            let x = field(alloc, count, x)?;
            make_app(alloc, f, x)
        }
        TyNode::Name(number) => make_bound(alloc, index_of_name(count, *number)?),
    }
}

fn fields(alloc: Global, count: usize, terms: &[Ty]) -> Result<ListOf<Type>, NoMemory>
    ensures { IfOk result (λ made. map type_at made ≡ map (field_type count) terms.now) }
{
    let mut made = ListOf::new(alloc);
    for term in terms {
        made.push(field(alloc, count, term)?)?;
    }
    Ok(made)
}

fn make_arrows(alloc: Global, from: &[Type], to: Type) -> Result<Type, NoMemory>
    ensures { IfOk result (λ made. type_at made ≡ arrows (map type_at from.now) (type_at to)) }
{
    let mut made = to;
    let mut left = from.len();
    while left > 0 {
        left -= 1;
        made = make_arrow(alloc, from[left].share()?, made)?;
    }
    Ok(made)
}

fn make_foralls(alloc: Global, params: &[Kind], body: Type) -> Result<Type, NoMemory>
    ensures { IfOk result (λ made. type_at made ≡ foralls params.now (type_at body)) }
{
    let mut made = body;
    let mut left = params.len();
    while left > 0 {
        left -= 1;
        made = make_forall(alloc, &params[left], made)?;
    }
    Ok(made)
}

// A datatype at its parameters.
fn make_data(alloc: Global, origin: Origin, count: usize) -> Result<Type, NoMemory>
    ensures { IfOk result (λ made. type_at made ≡ applied_to (con (tycon.Named origin)) (params_from count)) }
{
    let mut made = make_con(alloc, TyCon::Named(origin))?;
    let mut left = count;
    while left > 0 {
        left -= 1;
        made = make_app(alloc, made, make_bound(alloc, left)?)?;
    }
    Ok(made)
}

/// The type of a constructor.
pub fn type_of_con(alloc: Global, decl: &DeclData, con: &DeclCon) -> Result<Type, NoMemory>
    ensures { IfOk result (λ made. type_at made ≡ con_type (decl.now, con.now)) }
{
    let params = decl.params.as_slice();
    let from = fields(alloc, params.len(), con.fields.as_slice())?;
    let data = make_data(alloc, decl.origin, params.len())?;
    let body = make_arrows(alloc, from.as_slice(), data)?;
    make_foralls(alloc, params, body)
}

// A type with types for the parameters of a datatype.
fn with_types(alloc: Global, args: &[Type], ty: &Type) -> Result<Type, NoMemory>
    ensures { IfOk result (λ made. type_at made ≡ at_types (reverse (map type_at args.now)) (type_at ty.now)) }
{
    match ty.get() {
        Node::Bound(index) => {
            if *index < args.len() {
                args[args.len() - 1 - *index].share()
            } else {
                ty.share()
            }
        }
        Node::App(f, x) => {
            let f = with_types(alloc, args, f)?;
            let x = with_types(alloc, args, x)?;
            make_app(alloc, f, x)
        }
        Node::Free(_) => ty.share(),
        Node::Con(_) => ty.share(),
        Node::Forall(_, _) => ty.share(),
        Node::Any(_) => ty.share(),
    }
}

/// The types of the fields of a constructor, where the datatype is at these types.
pub fn types_of_fields(
    alloc: Global,
    decl: &DeclData,
    con: &DeclCon,
    args: &[Type],
) -> Result<ListOf<Type>, NoMemory>
    ensures { IfOk result (λ made. map type_at made ≡ fields_at (decl.now, con.now) (map type_at args.now)) }
{
    let terms = fields(alloc, decl.params.as_slice().len(), con.fields.as_slice())?;
    let mut made = ListOf::new(alloc);
    for place in 0..terms.as_slice().len() {
        made.push(with_types(alloc, args, &terms.as_slice()[place])?)?;
    }
    Ok(made)
}
