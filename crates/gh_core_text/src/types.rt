// Names, kinds and types as text.
ghost use Rattle.std.specs.Prelude.{◌≡◌, ◌≤◌, ◌++◌, codes, length, IfOk, OnOk, decimal};
ghost use Rattle.gh_base.specs.Ids.{text_in};
ghost use Rattle.gh_core_text.specs.Needs.{needs_id, needs_origin, needs_tycon, needs_name, needs_type, needs_field};
ghost use Rattle.gh_core.specs.Levels.{level_of, within};
ghost use Rattle.gh_core.specs.Text.{origin_text, tycon_text, head_text, braced, core_name_text, kind_text, opening, closing, type_binder, spine_text, field_text, place_text, gap};

use crate::binders::Binders;
use gh_base::{Bytes, NameId, Names, NoMemory, Origin, Span, TyCon};
use gh_core::{CoreName, CoreType};
use gh_typeterm::{Kind, Ty, TyNode};
use itoa::Buffer;

/// Bytes go to the end of the text. Where there is no memory for all of them, the text stays as it was.
pub fn add(out: &mut Bytes, text: &[u8]) -> Result<(), NoMemory>
    ensures { OnOk result (out.new ≡ out.old ++ text.now) }
{
    out.extend_from_slice(text)
}

/// A number in decimal goes to the end of the text.
pub fn add_number(out: &mut Bytes, number: u64) -> Result<(), NoMemory>
    ensures { OnOk result (out.new ≡ out.old ++ decimal number) }
{
    let mut buffer = Buffer::new();
    add(out, buffer.format(number).as_bytes())
}

fn add_text(out: &mut Bytes, names: &Names, id: NameId) -> Result<(), NoMemory>
    requires { needs_id id ≤ length names.now }
    ensures { OnOk result (out.new ≡ out.old ++ text_in names.now id) }
{
    add(out, names.text(id))
}

/// A name with its module.
pub fn add_origin(out: &mut Bytes, names: &Names, origin: Origin) -> Result<(), NoMemory>
    requires { needs_origin origin ≤ length names.now }
    ensures { OnOk result (out.new ≡ out.old ++ origin_text names.now origin) }
{
    add_text(out, names, origin.module)?;
    add(out, b".")?;
    add_text(out, names, origin.name)
}

#[tactic(auto, unfolding(gh_core::specs::Text::tycon_text))]
fn add_tycon(out: &mut Bytes, names: &Names, con: TyCon) -> Result<(), NoMemory>
    requires { needs_tycon con ≤ length names.now }
    ensures { OnOk result (out.new ≡ out.old ++ tycon_text names.now con) }
{
    match con {
        TyCon::Named(origin) => add_origin(out, names, origin),
        TyCon::Arrow => add(out, b"->"),
        TyCon::Int => add(out, b"Prelude.Int"),
        TyCon::Char => add(out, b"Prelude.Char"),
        TyCon::ConOf(_) => add(out, b"Prelude.Con"),
    }
}

#[tactic(auto, unfolding(gh_core::specs::Text::head_text))]
fn add_head(out: &mut Bytes, names: &Names, con: TyCon) -> Result<(), NoMemory>
    requires { needs_tycon con ≤ length names.now }
    ensures { OnOk result (out.new ≡ out.old ++ head_text names.now con) }
{
    match con {
        TyCon::Named(origin) => add_origin(out, names, origin),
        TyCon::Arrow => add(out, b"->"),
        TyCon::Int => add(out, b"Prelude.Int"),
        TyCon::Char => add(out, b"Prelude.Char"),
        TyCon::ConOf(origin) => {
            add(out, b"Con.")?;
            add_origin(out, names, origin)
        }
    }
}

fn add_braced(out: &mut Bytes, names: &Names, con: TyCon) -> Result<(), NoMemory>
    requires { needs_tycon con ≤ length names.now }
    ensures { OnOk result (out.new ≡ out.old ++ braced (head_text names.now con)) }
{
    add(out, b"{")?;
    add_head(out, names, con)?;
    add(out, b"}")
}

fn add_braced_number(out: &mut Bytes, number: u32) -> Result<(), NoMemory>
    ensures { OnOk result (out.new ≡ out.old ++ braced (decimal number)) }
{
    add(out, b"{")?;
    add_number(out, number as u64)?;
    add(out, b"}")
}

/// The name of a definition.
#[tactic(auto, unfolding(gh_core::specs::Text::core_name_text))]
pub fn add_core_name(out: &mut Bytes, names: &Names, name: CoreName) -> Result<(), NoMemory>
    requires { needs_name name ≤ length names.now }
    ensures { OnOk result (out.new ≡ out.old ++ core_name_text names.now name) }
{
    match name {
        CoreName::Plain(origin) => add_origin(out, names, origin),
        CoreName::Hidden(module, number) => {
            add_text(out, names, module)?;
            add(out, b".pat")?;
            add_braced_number(out, number)
        }
        CoreName::Component(origin, con) => {
            add_origin(out, names, origin)?;
            add_braced(out, names, con)
        }
        CoreName::From(con) => {
            add(out, b"from")?;
            add_braced(out, names, con)
        }
        CoreName::To(con) => {
            add(out, b"to")?;
            add_braced(out, names, con)
        }
        CoreName::Bimap(con) => {
            add(out, b"bimap")?;
            add_braced(out, names, con)
        }
    }
}

fn add_kind(out: &mut Bytes, kind: &Kind) -> Result<(), NoMemory>
    ensures { OnOk result (out.new ≡ out.old ++ kind_text kind.now) }
{
    match kind {
        Kind::Star => add(out, b"*"),
        Kind::Arrow(from, to) => {
            add(out, b"(=> ")?;
            add_kind(out, from.get())?;
            add(out, b" ")?;
            add_kind(out, to.get())?;
            add(out, b")")
        }
    }
}

/// A type variable where it is bound.
pub fn add_type_binder(out: &mut Bytes, level: usize, kind: &Kind) -> Result<(), NoMemory>
    ensures { OnOk result (out.new ≡ out.old ++ type_binder level kind.now) }
{
    add(out, b"(t")?;
    add_number(out, level as u64)?;
    add(out, b" ")?;
    add_kind(out, kind)?;
    add(out, b")")
}

fn add_opening(out: &mut Bytes, inside: bool) -> Result<(), NoMemory>
    ensures { OnOk result (out.new ≡ out.old ++ opening inside) }
{
    if inside {
        return Ok(());
    }
    add(out, b"(")
}

fn add_closing(out: &mut Bytes, inside: bool) -> Result<(), NoMemory>
    ensures { OnOk result (out.new ≡ out.old ++ closing inside) }
{
    if inside {
        return Ok(());
    }
    add(out, b")")
}

// A variable of types.
fn add_type_variable(out: &mut Bytes, types: &Binders, x: u32) -> Result<(), NoMemory>
    ensures { OnOk result (out.new ≡ out.old ++ (codes "t" ++ decimal (level_of types.now x))) }
{
    add(out, b"t")?;
    add_number(out, types.level(x))
}

// A type that stands for any of its kind.
fn add_any(out: &mut Bytes, kind: &Kind) -> Result<(), NoMemory>
    ensures { OnOk result (out.new ≡ out.old ++ (codes "(any " ++ (kind_text kind.now ++ codes ")"))) }
{
    add(out, b"(any ")?;
    add_kind(out, kind)?;
    add(out, b")")
}

// What stands before the body of a type for all types, whose variable it binds. Answers the number of binders before.
fn open_forall(out: &mut Bytes, types: &mut Binders, x: u32, kind: &Kind) -> Result<usize, NoMemory>
    ensures text { OnOk result (out.new ≡ out.old ++ (codes "(forall " ++ (type_binder (length types.old) kind.now ++ codes " "))) }
    ensures bound { OnOk result (types.new ≡ within types.old x) }
    ensures count { IfOk result (λ count. count ≡ length types.old) }
{
    let count = types.count();
    add(out, b"(forall ")?;
    add_type_binder(out, count, kind)?;
    add(out, b" ")?;
    types.bind(x)?;
    Ok(count)
}

/// A type, by itself or as the head of a spine.
#[tactic(auto, using(crate::proofs::Places::take_back))]
pub fn add_type(
    out: &mut Bytes,
    names: &Names,
    types: &mut Binders,
    ty: &CoreType,
    inside: bool,
) -> Result<(), NoMemory>
    requires { needs_type ty.now ≤ length names.now }
    ensures text { OnOk result (out.new ≡ out.old ++ spine_text names.now ty.now inside types.old) }
    ensures types { OnOk result (types.new ≡ types.old) }
{
    match ty {
        CoreType::Var(x) => add_type_variable(out, types, *x),
        CoreType::Con(con) => add_tycon(out, names, *con),
        CoreType::App(function, argument) => {
            add_opening(out, inside)?;
            add_type(out, names, types, function.get(), true)?;
            add(out, b" ")?;
            add_type(out, names, types, argument.get(), false)?;
            add_closing(out, inside)
        }
        CoreType::Forall(x, kind, body) => {
            let count = open_forall(out, types, *x, kind)?;
            add_type(out, names, types, body.get(), false)?;
            types.keep(count);
            add(out, b")")
        }
        CoreType::Any(kind) => add_any(out, kind),
    }
}

/// The type of a field, by itself or as the head of a spine.
pub fn add_field(out: &mut Bytes, names: &Names, ty: &Ty, inside: bool) -> Result<(), NoMemory>
    requires { needs_field ty.now ≤ length names.now }
    ensures { OnOk result (out.new ≡ out.old ++ field_text names.now ty.now inside) }
{
    match ty.get() {
        TyNode::Con(con) => add_tycon(out, names, *con),
        TyNode::Var(x) => {
            add(out, b"t")?;
            add_number(out, *x as u64)
        }
        TyNode::App(function, argument) => {
            add_opening(out, inside)?;
            add_field(out, names, function, true)?;
            add(out, b" ")?;
            add_field(out, names, argument, false)?;
            add_closing(out, inside)
        }
        TyNode::Name(x) => {
            add(out, b"n")?;
            add_number(out, *x as u64)
        }
    }
}

/// The file of a place and its first and last byte, in decimal with a space before each, go to the end of the text.
pub fn add_place(out: &mut Bytes, place: Span) -> Result<(), NoMemory>
    ensures { OnOk result (out.new ≡ out.old ++ place_text place) }
{
    add_number(out, place.file as u64)?;
    add(out, b" ")?;
    add_number(out, place.from as u64)?;
    add(out, b" ")?;
    add_number(out, place.to as u64)
}

/// What stands before an item of a bracketed list.
pub fn add_gap(out: &mut Bytes, place: usize) -> Result<(), NoMemory>
    ensures { OnOk result (out.new ≡ out.old ++ gap place) }
{
    if place == 0 {
        return Ok(());
    }
    add(out, b" ")
}
