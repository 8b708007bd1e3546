// Strings, taken apart as their lists of characters.
ghost use Rattle.std.specs.Prelude.{◌≡◌, ℕ, [], slice_index_or, MatchOption, length, ◌+◌, ◌<◌, ◌≤◌, ◌^◌, ◌-◌, true, ◌↔◌};
ghost use Rattle.std.specs.Fmt.{signed_decimal};
ghost use Rattle.gh_core.specs.Reading.{term_of};
ghost use Rattle.gh_machine.specs.Unload.{chars_in};
ghost use Rattle.gh_machine.specs.Texts.{text_of, IsPair, IsHead};
ghost use Rattle.gh_machine.specs.Reach.{reach_of, text_reach, head_reach, demand_reach};

use crate::closure::{Closure, Demand};
use gh_base::Origin;
use gh_core::ErasedTerm;
use itoa::Buffer;

/// A list of characters from one of them on, counted from 0.
#[derive(Clone, Copy)]
pub enum Text<'a> {
    /// Of a string of the program.
    Letters(u32, &'a ErasedTerm),
    /// Of an integer's decimal text.
    Digits(u32, i64),
}

/// A character and the rest.
#[derive(Clone, Copy)]
pub struct Pair<'a> {
    pub first: Closure<'a>,
    pub rest: Closure<'a>,
}

/// What a list that is printed may begin with.
#[derive(Clone, Copy)]
pub enum Head<'a> {
    Chars(Text<'a>),
    Con(Origin),
    Other,
}

// The characters of a string.
fn chars_of(term: &ErasedTerm) -> &[char]
    ensures { result.now ≡ chars_in (term_of term.now) }
{
    match term {
        ErasedTerm::Str(chars) => chars.as_slice(),
        ErasedTerm::Var(_) => &[],
        ErasedTerm::Global(_) => &[],
        ErasedTerm::Con(_) => &[],
        ErasedTerm::Int(_) => &[],
        ErasedTerm::Char(_) => &[],
        ErasedTerm::Prim(_, _) => &[],
        ErasedTerm::Lam(_, _) => &[],
        ErasedTerm::App(_, _) => &[],
        ErasedTerm::LetRec(_, _) => &[],
        ErasedTerm::Case(_, _, _) => &[],
        ErasedTerm::Stop(_) => &[],
    }
}

/// The character at this place of a string.
pub fn letter(at: u32, term: &ErasedTerm) -> char
    ensures { result ≡ slice_index_or (chars_in (term_of term.now)) at 0 }
{
    let at = at as usize;
    let chars = chars_of(term);
    if at < chars.len() { chars[at] } else { '\0' }
}

/// The character at this place of the decimal text of an integer.
pub fn digit(at: u32, number: i64) -> char
    ensures { result ≡ slice_index_or (signed_decimal number) at 0 }
{
    let at = at as usize;
    let mut buffer = Buffer::new();
    let text = buffer.format(number).as_bytes();
    if at < text.len() {
        text[at] as char
    } else {
        '\0'
    }
}

// How many characters the decimal text of an integer has.
fn digits(number: i64) -> usize
    ensures { result ≡ length (signed_decimal number) }
{
    let mut buffer = Buffer::new();
    buffer.format(number).len()
}

/// Its first character and the rest.
pub fn split<'a>(text: Text<'a>) -> Option<Pair<'a>>
    requires room { text_reach text < 2 ^ 32 - 1 }
    ensures value { MatchOption result (text_of text.entry ≡ []) (λ p. IsPair (text_of text.entry) p) }
    ensures first { MatchOption result Unit (λ p. reach_of p.first ≡ 0) }
    ensures rest { MatchOption result Unit (λ p. reach_of p.rest ≡ text_reach text.entry + 1) }
{
    match text {
        Text::Letters(at, term) => split_letters(at, term),
        Text::Digits(at, number) => split_digits(at, number),
    }
}

fn split_letters<'a>(at: u32, term: &'a ErasedTerm) -> Option<Pair<'a>>
    requires room { at < 2 ^ 32 - 1 }
    ensures value { MatchOption result (text_of (Text.Letters at term.entry) ≡ []) (λ p. IsPair (text_of (Text.Letters at term.entry)) p) }
    ensures first { MatchOption result Unit (λ p. reach_of p.first ≡ 0) }
    ensures rest { MatchOption result Unit (λ p. reach_of p.rest ≡ at + 1) }
{
    if (at as usize) < chars_of(term).len() {
        Some(Pair {
            first: Closure::Letter(at, term),
            rest: Closure::Rest(at + 1, term),
        })
    } else {
        None
    }
}

fn split_digits<'a>(at: u32, number: i64) -> Option<Pair<'a>>
    requires room { at < 2 ^ 32 - 1 }
    ensures value { MatchOption result (text_of (Text.Digits at number) ≡ []) (λ p. IsPair (text_of (Text.Digits at number)) p) }
    ensures first { MatchOption result Unit (λ p. reach_of p.first ≡ 0) }
    ensures rest { MatchOption result Unit (λ p. reach_of p.rest ≡ at + 1) }
{
    if (at as usize) < digits(number) {
        Some(Pair {
            first: Closure::Digit(at, number),
            rest: Closure::Digits(at + 1, number),
        })
    } else {
        None
    }
}

/// What is demanded, as a list that is printed sees it.
pub fn list_head<'a>(demand: Demand<'a>) -> Head<'a>
    ensures is { IsHead demand.entry result }
    ensures near { head_reach result ≤ demand_reach demand.entry }
{
    match demand {
        Demand::At(value) => head_of(value),
        Demand::Binding(_, _, _) => Head::Other,
        Demand::Value(_) => Head::Other,
        Demand::Con(con) => Head::Con(con),
    }
}

fn head_of<'a>(value: Closure<'a>) -> Head<'a>
    ensures is { IsHead (Demand.At value.entry) result }
    ensures near { head_reach result ≤ reach_of value.entry }
{
    match value {
        Closure::Term(env, term) => head_in(env, term),
        Closure::Contents(_, _) => Head::Other,
        Closure::Rest(at, term) => Head::Chars(Text::Letters(at, term)),
        Closure::Letter(_, _) => Head::Other,
        Closure::Digits(at, number) => Head::Chars(Text::Digits(at, number)),
        Closure::Digit(_, _) => Head::Other,
    }
}

fn head_in<'a>(env: u32, term: &'a ErasedTerm) -> Head<'a>
    ensures is { IsHead (Demand.At (Closure.Term env term.entry)) result }
    ensures near { head_reach result ≡ 0 }
{
    match term {
        ErasedTerm::Var(_) => Head::Other,
        ErasedTerm::Global(_) => Head::Other,
        ErasedTerm::Con(con) => Head::Con(*con),
        ErasedTerm::Int(_) => Head::Other,
        ErasedTerm::Char(_) => Head::Other,
        ErasedTerm::Str(_) => Head::Chars(Text::Letters(0, term)),
        ErasedTerm::Prim(_, _) => Head::Other,
        ErasedTerm::Lam(_, _) => Head::Other,
        ErasedTerm::App(_, _) => Head::Other,
        ErasedTerm::LetRec(_, _) => Head::Other,
        ErasedTerm::Case(_, _, _) => Head::Other,
        ErasedTerm::Stop(_) => Head::Other,
    }
}

/// How far texts are taken apart with this closure too.
pub fn further(before: u32, value: Closure) -> u32
    ensures kept { before ≤ result }
    ensures near { reach_of value.entry ≤ result }
    ensures most { (n : ℕ) → before ≤ n → reach_of value.entry ≤ n → result ≤ n }
{
    match value {
        Closure::Rest(at, _) => larger(before, at),
        Closure::Digits(at, _) => larger(before, at),
        Closure::Term(_, _) => before,
        Closure::Contents(_, _) => before,
        Closure::Letter(_, _) => before,
        Closure::Digit(_, _) => before,
    }
}

fn larger(one: u32, other: u32) -> u32
    ensures one { one ≤ result }
    ensures other { other ≤ result }
    ensures most { (n : ℕ) → one ≤ n → other ≤ n → result ≤ n }
{
    if one < other { other } else { one }
}
