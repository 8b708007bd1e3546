// The lines on err.
ghost use Rattle.std.specs.Prelude.{◌≡◌, ◌+◌, ◌<◌, ◌≤◌, ◌++◌, ◌∷◌, [], length, take, IfOk, OnOk, Some, decimal, vec_len, vec_capacity};
ghost use Rattle.gh_base.specs.Ids.{text_in};
ghost use Rattle.gh_base.specs.Refusals.{span_of};
ghost use Rattle.gh_lines.specs.Lines.{variant_of, limit_of, tycon_of, pair_of, field, names_of, pairs_of, fields_of, position_of, located, is_whole_file, place_of_refusal, refusal_line_of, source_of, IsId, AreIds, IsHead, ArePairs, IsNamed, read_line_of, cause_of, stopped_line_of, longest_name, IsRoom};

use crate::position::{Position, START, moved};
use crate::source::Source;
use gh_base::{Bytes, Limit, ListOf, NameId, Names, NoMemory, Origin, Refusal, Span, TyCon};
use gh_machine::{Stop, StopCause};
use itoa::Buffer;
use std::alloc::Global;

fn add(out: &mut Bytes, text: &[u8]) -> Result<(), NoMemory>
    ensures { OnOk result (out.new ≡ out.old ++ text.now) }
{
    out.extend_from_slice(text)
}

fn add_number(out: &mut Bytes, number: u32) -> Result<(), NoMemory>
    ensures { OnOk result (out.new ≡ out.old ++ decimal number) }
{
    let mut buffer = Buffer::new();
    add(out, buffer.format(number).as_bytes())
}

#[tactic(auto, unfolding(crate::specs::Lines::variant_of))]
fn variant(refusal: &Refusal) -> &'static [u8]
    ensures { result.now ≡ variant_of refusal.now }
{
    match refusal {
        Refusal::NotUtf8 { .. } => b"NotUtf8",
        Refusal::NoToken { .. } => b"NoToken",
        Refusal::OpenComment { .. } => b"OpenComment",
        Refusal::OpenText { .. } => b"OpenText",
        Refusal::NumberOutOfRange { .. } => b"NumberOutOfRange",
        Refusal::NameTooLong { .. } => b"NameTooLong",
        Refusal::BadLayout { .. } => b"BadLayout",
        Refusal::Unclosed { .. } => b"Unclosed",
        Refusal::NoParse { .. } => b"NoParse",
        Refusal::TooDeep { .. } => b"TooDeep",
        Refusal::FixityClash { .. } => b"FixityClash",
        Refusal::UnknownModule { .. } => b"UnknownModule",
        Refusal::CyclicImports { .. } => b"CyclicImports",
        Refusal::NotExported { .. } => b"NotExported",
        Refusal::DoubleModule { .. } => b"DoubleModule",
        Refusal::UnknownName { .. } => b"UnknownName",
        Refusal::AmbiguousName { .. } => b"AmbiguousName",
        Refusal::DoubleDefinition { .. } => b"DoubleDefinition",
        Refusal::UnequalArity { .. } => b"UnequalArity",
        Refusal::RepeatedVariable { .. } => b"RepeatedVariable",
        Refusal::ConstructorArity { .. } => b"ConstructorArity",
        Refusal::SignatureAlone { .. } => b"SignatureAlone",
        Refusal::SynonymCycle { .. } => b"SynonymCycle",
        Refusal::SynonymArity { .. } => b"SynonymArity",
        Refusal::KindClash { .. } => b"KindClash",
        Refusal::KindTooLarge { .. } => b"KindTooLarge",
        Refusal::TypeClash { .. } => b"TypeClash",
        Refusal::TypeTooLarge { .. } => b"TypeTooLarge",
        Refusal::BadSignature { .. } => b"BadSignature",
        Refusal::NotClosed { .. } => b"NotClosed",
        Refusal::BadCaseHead { .. } => b"BadCaseHead",
        Refusal::DoubleCase { .. } => b"DoubleCase",
        Refusal::MissingDependency { .. } => b"MissingDependency",
        Refusal::NoCase { .. } => b"NoCase",
        Refusal::BadExtends { .. } => b"BadExtends",
        Refusal::FileTooLong { .. } => b"FileTooLong",
        Refusal::TooManyFiles => b"TooManyFiles",
        Refusal::NoMain => b"NoMain",
        Refusal::MainNotText { .. } => b"MainNotText",
        Refusal::LimitPassed { .. } => b"LimitPassed",
    }
}

#[tactic(auto, unfolding(crate::specs::Lines::limit_of))]
fn limit(which: Limit) -> &'static [u8]
    ensures { result.now ≡ limit_of which }
{
    match which {
        Limit::Parameters => b"parameters",
        Limit::Dependencies => b"dependencies",
        Limit::Constructors => b"constructors",
        Limit::Fields => b"fields",
        Limit::Arguments => b"arguments",
        Limit::Bindings => b"bindings",
        Limit::Clauses => b"clauses",
    }
}

fn add_name(out: &mut Bytes, names: &Names, name: NameId) -> Result<(), NoMemory>
    requires { IsId names.now name }
    ensures { OnOk result (out.new ≡ out.old ++ field (text_in names.now name)) }
{
    add(out, b" ")?;
    add(out, names.text(name))
}

fn add_names(out: &mut Bytes, names: &Names, list: &[NameId]) -> Result<(), NoMemory>
    requires { AreIds names.now list.now }
    ensures { OnOk result (out.new ≡ out.old ++ names_of names.now list.now) }
{
    for name in list {
        add_name(out, names, *name)?;
    }
    Ok(())
}

#[tactic(auto, unfolding(crate::specs::Lines::tycon_of))]
fn add_head(out: &mut Bytes, names: &Names, head: TyCon) -> Result<(), NoMemory>
    requires { IsHead names.now head }
    ensures { OnOk result (out.new ≡ out.old ++ tycon_of names.now head) }
{
    match head {
        TyCon::Named(origin) => add(out, names.text(origin.name)),
        TyCon::Arrow => add(out, b"->"),
        TyCon::Int => add(out, b"Int"),
        TyCon::Char => add(out, b"Char"),
        TyCon::ConOf(origin) => {
            add(out, b"Con.")?;
            add(out, names.text(origin.name))
        }
    }
}

fn add_pair(out: &mut Bytes, names: &Names, origin: Origin, head: TyCon) -> Result<(), NoMemory>
    requires origin { IsId names.now origin.name }
    requires head { IsHead names.now head }
    ensures { OnOk result (out.new ≡ out.old ++ field (pair_of names.now origin head)) }
{
    add_name(out, names, origin.name)?;
    add(out, b"{")?;
    add_head(out, names, head)?;
    add(out, b"}")
}

fn add_pairs(out: &mut Bytes, names: &Names, pairs: &[(Origin, TyCon)]) -> Result<(), NoMemory>
    requires { ArePairs names.now pairs.now }
    ensures { OnOk result (out.new ≡ out.old ++ pairs_of names.now pairs.now) }
{
    for (origin, head) in pairs {
        add_pair(out, names, *origin, *head)?;
    }
    Ok(())
}

#[tactic(auto, unfolding(crate::specs::Lines::fields_of, crate::specs::Lines::IsNamed))]
fn add_fields(out: &mut Bytes, names: &Names, refusal: &Refusal) -> Result<(), NoMemory>
    requires { IsNamed names.now refusal.now }
    ensures { OnOk result (out.new ≡ out.old ++ fields_of names.now refusal.now) }
{
    match refusal {
        Refusal::NotUtf8 { .. } => Ok(()),
        Refusal::NoToken { .. } => Ok(()),
        Refusal::OpenComment { .. } => Ok(()),
        Refusal::OpenText { .. } => Ok(()),
        Refusal::NumberOutOfRange { .. } => Ok(()),
        Refusal::NameTooLong { .. } => Ok(()),
        Refusal::BadLayout { .. } => Ok(()),
        Refusal::Unclosed { .. } => Ok(()),
        Refusal::NoParse { .. } => Ok(()),
        Refusal::TooDeep { .. } => Ok(()),
        Refusal::FixityClash { left, right, .. } => add_names(out, names, &[*left, *right]),
        Refusal::UnknownModule { name, .. } => add_names(out, names, &[*name]),
        Refusal::CyclicImports { names: list, .. } => add_names(out, names, list.as_slice()),
        Refusal::NotExported { name, .. } => add_names(out, names, &[*name]),
        Refusal::DoubleModule { name, .. } => add_names(out, names, &[*name]),
        Refusal::UnknownName { name, .. } => add_names(out, names, &[*name]),
        Refusal::AmbiguousName { name, .. } => add_names(out, names, &[*name]),
        Refusal::DoubleDefinition { name, .. } => add_names(out, names, &[*name]),
        Refusal::UnequalArity { name, .. } => add_names(out, names, &[*name]),
        Refusal::RepeatedVariable { name, .. } => add_names(out, names, &[*name]),
        Refusal::ConstructorArity { name, .. } => add_names(out, names, &[*name]),
        Refusal::SignatureAlone { name, .. } => add_names(out, names, &[*name]),
        Refusal::SynonymCycle { name, .. } => add_names(out, names, &[*name]),
        Refusal::SynonymArity { name, .. } => add_names(out, names, &[*name]),
        Refusal::KindClash { .. } => Ok(()),
        Refusal::KindTooLarge { .. } => Ok(()),
        Refusal::TypeClash { .. } => Ok(()),
        Refusal::TypeTooLarge { .. } => Ok(()),
        Refusal::BadSignature { rule, .. } => {
            add(out, b" ")?;
            add_number(out, *rule)
        }
        Refusal::NotClosed { x, y, z, .. } => add_names(out, names, &[*x, *y, *z]),
        Refusal::BadCaseHead { .. } => Ok(()),
        Refusal::DoubleCase { .. } => Ok(()),
        Refusal::MissingDependency { function, name, .. } => add_names(
            out,
            names,
            &[*function, *name],
        ),
        Refusal::NoCase { chain, .. } => add_pairs(out, names, chain.as_slice()),
        Refusal::BadExtends { .. } => Ok(()),
        Refusal::FileTooLong { .. } => Ok(()),
        Refusal::TooManyFiles => Ok(()),
        Refusal::NoMain => Ok(()),
        Refusal::MainNotText { .. } => Ok(()),
        Refusal::LimitPassed { which, .. } => {
            add(out, b" ")?;
            add(out, limit(*which))
        }
    }
}

#[tactic(auto, using(crate::proofs::Fronts::whole_front_of))]
fn front(bytes: &[u8], to: usize) -> &[u8]
    ensures { result.now ≡ take to bytes.now }
{
    if to >= bytes.len() {
        return bytes;
    }
    &bytes[..to]
}

// The name of a span's file. A file that is not there has no name.
fn name_of<'a>(files: &'a [Source], span: Span) -> &'a [u8]
    ensures { result.now ≡ (source_of files.now span).name }
{
    match files.get((span.file as usize).saturating_sub(1)) {
        Some(source) => source.name.as_slice(),
        None => &[],
    }
}

// The bytes of a span's file. A file that is not there has none.
fn bytes_of<'a>(files: &'a [Source], span: Span) -> &'a [u8]
    ensures { result.now ≡ (source_of files.now span).bytes }
{
    match files.get((span.file as usize).saturating_sub(1)) {
        Some(source) => source.bytes.as_slice(),
        None => &[],
    }
}

// Where a span begins.
fn begins_at(files: &[Source], span: Span) -> Position
    ensures { result ≡ position_of files.now span }
{
    moved(START, front(bytes_of(files, span), span.from as usize))
}

fn add_located(out: &mut Bytes, files: &[Source], span: Span) -> Result<(), NoMemory>
    ensures { OnOk result (out.new ≡ out.old ++ located files.now span) }
{
    let position = begins_at(files, span);
    add(out, name_of(files, span))?;
    add(out, b":")?;
    add_number(out, position.line)?;
    add(out, b":")?;
    add_number(out, position.column)?;
    add(out, b": ")
}

fn add_place(out: &mut Bytes, files: &[Source], refusal: &Refusal) -> Result<(), NoMemory>
    ensures { OnOk result (out.new ≡ out.old ++ place_of_refusal files.now (span_of refusal.now) (is_whole_file refusal.now)) }
{
    let Some(span) = refusal.span() else {
        return add(out, b"genhs: ");
    };
    if refusal.number() == 36 {
        add(out, name_of(files, span))?;
        return add(out, b": ");
    }
    add_located(out, files, span)
}

/// The line that says why a program is refused, with its line end: the file, line and column, the number and the name of
/// the refusal, and its further fields. Lines and columns count from 1. The names are those of the table, and the
/// files count from 1.
#[tactic(auto, unfolding(crate::specs::Lines::refusal_line_of))]
pub fn refusal_line(
    alloc: Global,
    names: &Names,
    files: &ListOf<Source>,
    refusal: &Refusal,
) -> Result<Bytes, NoMemory>
    requires named { IsNamed names.now refusal.now }
    ensures { IfOk result (λ line. line ≡ refusal_line_of names.now files.now refusal.now) }
{
    let mut out = ListOf::new(alloc);
    add_place(&mut out, files.as_slice(), refusal)?;
    add_number(&mut out, refusal.number())?;
    add(&mut out, b" ")?;
    add(&mut out, variant(refusal))?;
    add_fields(&mut out, names, refusal)?;
    add(&mut out, b"\n")?;
    Ok(out)
}

/// The line that says that a file could not be read.
#[tactic(auto, unfolding(crate::specs::Lines::read_line_of))]
pub fn read_line(alloc: Global, file: &[u8]) -> Result<Bytes, NoMemory>
    ensures { IfOk result (λ line. line ≡ read_line_of file.now) }
{
    let mut out = ListOf::new(alloc);
    add(&mut out, b"genhs: cannot read ")?;
    add(&mut out, file)?;
    add(&mut out, b"\n")?;
    Ok(out)
}

// The length of the longest name of a file.
fn longest(files: &[Source]) -> usize
    ensures { result ≡ longest_name files.now }
{
    let mut most: usize = 0;
    for source in files {
        most = most.max(source.name.as_slice().len());
    }
    most
}

/// Room for the line of a run that fails in one of these files.
pub fn line_room(alloc: Global, files: &ListOf<Source>) -> Result<Vec<u8>, NoMemory>
    ensures { IfOk result (λ room. IsRoom files.now room) }
{
    let Some(size) = longest(files.as_slice()).checked_add(128) else {
        return Err(NoMemory);
    };
    Ok(Vec::with_capacity(alloc, size)?)
}

// More bytes in room that was taken before.
fn fill(to: &mut Vec<u8>, text: &[u8])
    requires { vec_len to.old + length text.now ≤ vec_capacity to.old }
    ensures items { to.new.items ≡ to.old.items ++ text.now }
    ensures len { vec_len to.new ≡ vec_len to.old + length text.now }
    ensures capacity { vec_capacity to.old ≤ vec_capacity to.new }
{
    match to.extend_from_slice(text) {
        Ok(()) => {}
        Err(_) => unreachable!(),
    }
}

// A number more, of 40 bytes at most.
fn fill_number(to: &mut Vec<u8>, number: u32)
    requires { vec_len to.old + 40 ≤ vec_capacity to.old }
    ensures items { to.new.items ≡ to.old.items ++ decimal number }
    ensures len { vec_len to.new ≤ vec_len to.old + 40 }
    ensures capacity { vec_capacity to.old ≤ vec_capacity to.new }
{
    let mut buffer = Buffer::new();
    fill(to, buffer.format(number).as_bytes());
}

// The file, line and column of a span: the name, two numbers and four marks.
fn fill_located(to: &mut Vec<u8>, files: &[Source], span: Span)
    requires { vec_len to.old + length (source_of files.now span).name + 84 ≤ vec_capacity to.old }
    ensures items { to.new.items ≡ to.old.items ++ located files.now span }
    ensures len { vec_len to.new ≤ vec_len to.old + length (source_of files.now span).name + 84 }
    ensures capacity { vec_capacity to.old ≤ vec_capacity to.new }
{
    let position = begins_at(files, span);
    fill(to, name_of(files, span));
    fill(to, b":");
    fill_number(to, position.line);
    fill(to, b":");
    fill_number(to, position.column);
    fill(to, b": ");
}

#[tactic(auto, unfolding(crate::specs::Lines::cause_of))]
fn cause(cause: StopCause) -> &'static [u8]
    ensures text { result.now ≡ cause_of cause }
    ensures short { length result.now ≤ 12 }
{
    match cause {
        StopCause::ErrorCalled => b"ErrorCalled",
        StopCause::NoMatch => b"NoMatch",
        StopCause::DivideByZero => b"DivideByZero",
        StopCause::NoCharacter => b"NoCharacter",
    }
}

/// The line that says why and where a run has failed, in room that was taken before the run. It takes no memory.
#[tactic(auto, unfolding(crate::specs::Lines::stopped_line_of), using(crate::proofs::Rooms::name_within))]
pub fn stopped_line(room: Vec<u8>, files: &ListOf<Source>, stop: Stop) -> Vec<u8>
    requires { IsRoom files.now room }
    ensures { result.items ≡ stopped_line_of files.now stop }
{
    let mut line = room;
    fill_located(&mut line, files.as_slice(), stop.span);
    fill(&mut line, b"stopped ");
    fill(&mut line, cause(stop.cause));
    fill(&mut line, b"\n");
    line
}
