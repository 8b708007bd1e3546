// What a case and a letrec have.
ghost use Rattle.std.specs.Prelude.{◌≡◌, ℕ, List, length, option_map, map, MatchOption};
ghost use Rattle.std.specs.Option.{option_copied};
ghost use Rattle.gh_base.specs.declared.place.Origin.{Origin};
ghost use Rattle.gh_core.specs.Terms.{Term, Alts};
ghost use Rattle.gh_core.specs.Closing.{Env, close_alts};
ghost use Rattle.gh_core.specs.Reduce as r;
ghost use Rattle.gh_core.specs.Bindings.{names_chosen, names_begun, binding_count};
ghost use Rattle.gh_core.specs.Reading.{term_of, alt_of};
ghost use Rattle.gh_machine.specs.Unload.{alts_in, binds_in, body_in, bound_at, scrutinee_in, first_con};
ghost use Rattle.gh_machine.specs.Values.{literal_of};
ghost use Rattle.gh_machine.specs.Picks.{goes_on, picked_names, plain_on, HasNames, fits_con, fits_literal, alt_names, alt_body, IsDemanding, IsOnNewtype};

use crate::primitive::{Literal, prelude_value};
use gh_base::Origin;
use gh_base::fixed::NIL;
use gh_core::{ErasedAlt, ErasedTerm};
use sqlite_items::at;

/// With what a case goes on.
#[derive(Clone, Copy)]
pub enum Picked<'a> {
    /// With a term, and names for the arguments.
    Bound(&'a [u32], &'a ErasedTerm),
    /// With a term.
    Plain(&'a ErasedTerm),
    /// With nothing.
    Nothing,
}

/// The first alternative for a constructor with so many arguments.
pub fn pick_con<'a>(case: &'a ErasedTerm, con: Origin, count: usize) -> Picked<'a>
    ensures is { (ρ : Env) (es : List Term) (stack : List r.Waiting) (out : List ℕ) (s : r.State) → length es ≡ count → r.choose (close_alts (alts_in (term_of case.now)) ρ) con es stack out s ≡ goes_on result ρ es stack out s }
    ensures bound { (ρ : Env) (es : List Term) → length es ≡ count → names_chosen (close_alts (alts_in (term_of case.now)) ρ) con es ≡ picked_names result }
    ensures names { HasNames count result }
{
    let ErasedTerm::Case(_, alternatives, other) = case else {
        return Picked::Nothing;
    };
    for alternative in alternatives.as_slice() {
        if takes_con(alternative, con, count) {
            return Picked::Bound(names_of(alternative), body_of(alternative));
        }
    }
    match other {
        Some(body) => Picked::Plain(body.get()),
        None => Picked::Nothing,
    }
}

// Whether an alternative is for a constructor with so many arguments.
fn takes_con(alternative: &ErasedAlt, con: Origin, count: usize) -> bool
    ensures { result ≡ fits_con (alt_of alternative.now) con count }
{
    match alternative {
        ErasedAlt::Con(constructor, names, _) => {
            con == *constructor && names.as_slice().len() == count
        }
        ErasedAlt::Int(_, _) => false,
        ErasedAlt::Char(_, _) => false,
    }
}

// Whether an alternative is for a literal.
fn takes_literal(alternative: &ErasedAlt, literal: Literal) -> bool
    ensures { result ≡ fits_literal (alt_of alternative.now) (literal_of literal) }
{
    match alternative {
        ErasedAlt::Con(_, _, _) => false,
        ErasedAlt::Int(number, _) => match literal {
            Literal::Int(other) => other == *number,
            Literal::Char(_) => false,
        },
        ErasedAlt::Char(c, _) => match literal {
            Literal::Int(_) => false,
            Literal::Char(other) => other == *c,
        },
    }
}

// The names of an alternative.
fn names_of(alternative: &ErasedAlt) -> &[u32]
    ensures { result.now ≡ alt_names (alt_of alternative.now) }
{
    match alternative {
        ErasedAlt::Con(_, names, _) => names.as_slice(),
        ErasedAlt::Int(_, _) => &[],
        ErasedAlt::Char(_, _) => &[],
    }
}

// The term with which an alternative goes on.
fn body_of(alternative: &ErasedAlt) -> &ErasedTerm
    ensures { term_of result.now ≡ alt_body (alt_of alternative.now) }
{
    match alternative {
        ErasedAlt::Con(_, _, body) => body,
        ErasedAlt::Int(_, body) => body,
        ErasedAlt::Char(_, body) => body,
    }
}

/// The first alternative for a literal.
pub fn pick_literal<'a>(case: &'a ErasedTerm, literal: Literal) -> Option<&'a ErasedTerm>
    ensures { (ρ : Env) (stack : List r.Waiting) (out : List ℕ) (s : r.State) → r.choose_literal (close_alts (alts_in (term_of case.now)) ρ) (literal_of literal) stack out s ≡ plain_on (option_copied result) ρ stack out s }
{
    let ErasedTerm::Case(_, alternatives, other) = case else {
        return None;
    };
    for alternative in alternatives.as_slice() {
        if takes_literal(alternative, literal) {
            return Some(body_of(alternative));
        }
    }
    match other {
        Some(body) => Some(body.get()),
        None => None,
    }
}

/// The one name of an alternative, and the term that it goes on with.
#[derive(Clone, Copy)]
pub struct Single<'a> {
    pub name: u32,
    pub body: &'a ErasedTerm,
}

/// The first alternative of a case, where it has a newtype's constructor with one name.
pub fn on_newtype<'a>(newtypes: &[Origin], case: &'a ErasedTerm) -> Option<Single<'a>>
    ensures is { MatchOption result (IsDemanding newtypes.now (term_of case.now)) (λ one. IsOnNewtype newtypes.now (term_of case.now) one) }
    ensures bound { MatchOption result Unit (λ one. (ρ : Env) → names_begun newtypes.now (close_alts (alts_in (term_of case.now)) ρ) ≡ 1) }
{
    let ErasedTerm::Case(_, alternatives, _) = case else {
        return None;
    };
    match at(alternatives.as_slice(), 0) {
        Some(ErasedAlt::Con(con, names, body)) => {
            let names = names.as_slice();
            if names.len() == 1 && is_newtype(newtypes, *con) {
                Some(Single {
                    name: names[0],
                    body,
                })
            } else {
                None
            }
        }
        Some(ErasedAlt::Int(_, _)) => None,
        Some(ErasedAlt::Char(_, _)) => None,
        None => None,
    }
}

fn is_newtype(newtypes: &[Origin], con: Origin) -> bool
    ensures { result ≡ r.is_newtype newtypes.now con }
{
    for newtype in newtypes {
        if *newtype == con {
            return true;
        }
    }
    false
}

/// The constructor that a case names first.
pub fn newtype_of(case: &ErasedTerm) -> Origin
    ensures { result ≡ first_con (alts_in (term_of case.now)) }
{
    let ErasedTerm::Case(_, alternatives, _) = case else {
        return prelude_value(NIL);
    };
    match at(alternatives.as_slice(), 0) {
        Some(ErasedAlt::Con(con, _, _)) => *con,
        Some(ErasedAlt::Int(_, _)) => prelude_value(NIL),
        Some(ErasedAlt::Char(_, _)) => prelude_value(NIL),
        None => prelude_value(NIL),
    }
}

/// The scrutinee of a case.
pub fn scrutinee_of(case: &ErasedTerm) -> &ErasedTerm
    ensures { term_of result.now ≡ scrutinee_in (term_of case.now) }
{
    match case {
        ErasedTerm::Case(scrutinee, _, _) => scrutinee.get(),
        _ => case,
    }
}

/// How many bindings a `letrec` has.
pub fn count_bindings(term: &ErasedTerm) -> usize
    ensures { result ≡ binding_count (binds_in (term_of term.now)) }
{
    match term {
        ErasedTerm::LetRec(bindings, _) => bindings.as_slice().len(),
        _ => 0,
    }
}

/// A binding of a `letrec` by its place from 0, or else the term in which the bindings stand.
pub fn binding_of(term: &ErasedTerm, index: usize) -> &ErasedTerm
    ensures { term_of result.now ≡ bound_at (binds_in (term_of term.now)) index (body_in (term_of term.now)) }
{
    match term {
        ErasedTerm::LetRec(bindings, body) => match at(bindings.as_slice(), index) {
            Some(binding) => &binding.1,
            None => body.get(),
        },
        _ => term,
    }
}
