// The fixities of local names, as lists of declarations are entered and left.
ghost use Rattle.std.specs.Prelude.{◌≡◌, ◌-◌, length, drop, map, OnOk};
ghost use Rattle.gh_fixity.specs.Exps.{decl_out, locals_out};
ghost use Rattle.gh_fixity.specs.Fixities.{level_of, side_of, with_local, with_locals, written_fixity};
ghost use Rattle.gh_fixity.specs.Walks.{entered};

use crate::binders::Binders;
use crate::finish::State;
use crate::item::{Fixity, Side};
use crate::tops::Tops;
use gh_base::NoMemory;
use gh_program::{Decl, FixityWord, Locals, Occurrence, Referent};

fn side(word: FixityWord) -> Side
    ensures { result ≡ side_of word }
{
    match word {
        FixityWord::Left => Side::Left,
        FixityWord::Right => Side::Right,
        FixityWord::Neither => Side::Neither,
    }
}

fn level(written: u64) -> u8
    ensures { result ≡ level_of written }
{
    if written < 9 { written as u8 } else { 9 }
}

/// The fixity that a declaration writes.
pub fn written(word: FixityWord, number: u64) -> Fixity
    ensures { result ≡ written_fixity word number }
{
    Fixity {
        side: side(word),
        level: level(number),
    }
}

fn bind(locals: &mut Binders<Fixity>, fixity: Fixity, op: Occurrence) -> Result<(), NoMemory>
    ensures value { OnOk result (locals.new ≡ with_local fixity locals.old op.referent) }
{
    match op.referent {
        Referent::Top(_) => Ok(()),
        Referent::Local(number) => locals.bind(number, fixity),
    }
}

fn bind_all(
    locals: &mut Binders<Fixity>,
    fixity: Fixity,
    ops: &[Occurrence],
) -> Result<(), NoMemory>
    ensures value { OnOk result (locals.new ≡ with_locals fixity locals.old ops.now) }
{
    for op in ops {
        bind(locals, fixity, *op)?;
    }
    Ok(())
}

#[tactic(auto, using(crate::proofs::ExpsAt::decl_signature_enter, crate::proofs::ExpsAt::decl_fixity_enter, crate::proofs::ExpsAt::decl_function_enter, crate::proofs::ExpsAt::decl_pattern_enter))]
fn enter_decl(tops: &Tops, state: &mut State, decl: &Decl) -> Result<(), NoMemory>
    ensures value { OnOk result (state.new.locals ≡ (decl_out tops.now decl.now).enter state.old.locals) }
    ensures found { OnOk result (state.new.found ≡ state.old.found) }
{
    match decl {
        Decl::Fixity(_, word, number, ops) => {
            bind_all(&mut state.locals, written(*word, *number), ops.as_slice())
        }
        Decl::Signature(..) => Ok(()),
        Decl::Function(..) => Ok(()),
        Decl::Pattern(..) => Ok(()),
    }
}

/// Adds the fixities that a list of declarations gives to local names.
pub fn enter(tops: &Tops, state: &mut State, decls: &[Decl]) -> Result<(), NoMemory>
    ensures value { OnOk result (state.new.locals ≡ entered (map (decl_out tops.now) decls.now) state.old.locals) }
    ensures found { OnOk result (state.new.found ≡ state.old.found) }
{
    for decl in decls {
        enter_decl(tops, state, decl)?;
    }
    Ok(())
}

/// The fixities that a list of local declarations declares become the nearest ones.
#[tactic(auto, using(crate::proofs::ExpsAt::locals_decls_enter, crate::proofs::ExpsAt::locals_redefs_enter))]
pub fn enter_locals(tops: &Tops, state: &mut State, locals: &Locals) -> Result<(), NoMemory>
    ensures value { OnOk result (state.new.locals ≡ (locals_out tops.now locals.now).enter state.old.locals) }
    ensures found { OnOk result (state.new.found ≡ state.old.found) }
{
    match locals {
        Locals::Decls(decls) => enter(tops, state, decls.as_slice()),
        Locals::Redefs(_) => Ok(()),
    }
}

/// Takes away the fixities but the outermost ones, of which there are so many.
pub fn leave(state: &mut State, outer: usize)
    ensures value { state.new.locals ≡ drop (length state.old.locals - outer) state.old.locals }
    ensures found { state.new.found ≡ state.old.found }
{
    state.locals.keep(outer);
}
