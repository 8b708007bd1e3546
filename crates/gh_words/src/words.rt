// The words of the command line.
ghost use Rattle.std.specs.Prelude.{◌≡◌, ◌↔◌, ℕ, ◌+◌, ◌^◌, ◌<◌, ◌≤◌, nat_eq, length, Ok, Err, Some, None, IfOk, OnOk, IfErr, option_map, IsTrue, ◌++◌, ◌∷◌, [], false, drop, codes};
ghost use Rattle.std.specs.List.{list_all, starts_with};
ghost use Rattle.std.specs.Str.{bytes_eq, is_utf8};
ghost use Rattle.gh_words.specs.Words.{number_within, is_digit, is_option, split_of, value_from, budget_of, run_of, files_of, meaning_of, built_of, meaning_of_split};
ghost use Rattle.gh_words.specs.declared.words.WordsFault.TheVariants as fault;

use gh_base::{Bytes, ListOf, NoMemory};
use std::alloc::Global;
use std::str;
use thiserror::Error;

/// What the words ask for.
#[derive(Debug, Drop)]
pub enum Words {
    /// Checks these files.
    Check(ListOf<Bytes>),
    /// Writes the core of these files.
    Core(ListOf<Bytes>),
    /// Runs `main` of these files for at most so many reductions.
    Run { steps: u32, files: ListOf<Bytes> },
    /// Compiles and runs the sample program of this number.
    Sample(u32),
}

/// Why the words are not read.
#[derive(Clone, Copy, Debug, PartialEq, Eq, Error)]
pub enum WordsFault {
    /// The words have no meaning.
    #[error("usage")]
    Usage,
    /// A request for memory was not met.
    #[error("out of memory")]
    NoMemory,
}

impl From<NoMemory> for WordsFault {
    ghost use Rattle.std.specs.Prelude.{◌≡◌};
    ghost use Rattle.gh_words.specs.declared.words.WordsFault.TheVariants as fault;

    ghost from_gives = { λ _ e. e ≡ fault.NoMemory };

    fn from(_: NoMemory) -> WordsFault {
        WordsFault::NoMemory
    }
}

/// The values of `--steps` and the positionals, each in their order.
#[derive(Drop)]
pub struct Arguments {
    pub steps: ListOf<Bytes>,
    pub positionals: ListOf<Bytes>,
}

fn digit(byte: u8) -> bool
    ensures { result ≡ is_digit byte }
{
    b'0' <= byte && byte <= b'9'
}

// The number that at most `most` digits spell, where it lies within the bounds.
fn number(text: &[u8], most: usize, least: u32, greatest: u32) -> Option<u32>
    requires { most ≤ 7 }
    ensures { result ≡ number_within most least greatest text.now }
{
    if text.is_empty() || text.len() > most {
        return None;
    }
    let mut value: u32 = 0;
    for byte in text {
        if !digit(*byte) {
            return None;
        }
        value = value * 10 + (*byte - b'0') as u32;
    }
    if value < least || value > greatest {
        return None;
    }
    Some(value)
}

fn is_word(text: &[u8], word: &[u8]) -> bool
    ensures { result ≡ bytes_eq text.now word.now }
{
    text == word
}

fn option(word: &[u8]) -> bool
    ensures { result ≡ is_option word.now }
{
    match word {
        [] => false,
        [_only] => false,
        [first, _second, ..] => *first == b'-',
    }
}

#[tactic(auto, using(crate::proofs::Texts::is_text, crate::proofs::Texts::is_no_text))]
fn utf8(word: &[u8]) -> bool
    ensures { result ≡ is_utf8 word.now }
{
    match str::from_utf8(word) {
        Ok(_) => true,
        Err(_) => false,
    }
}

fn all_utf8(words: &[Bytes]) -> bool
    ensures { result ≡ list_all is_utf8 words.now }
{
    for word in words {
        if !utf8(word.as_slice()) {
            return false;
        }
    }
    true
}

fn add(alloc: Global, list: &mut ListOf<Bytes>, text: &[u8]) -> Result<(), NoMemory>
    ensures { OnOk result (list.new ≡ list.old ++ text.now ∷ []) }
{
    let text = ListOf::from_slice(alloc, text)?;
    list.push(text)
}

fn add_all(alloc: Global, list: &mut ListOf<Bytes>, words: &[Bytes]) -> Result<(), NoMemory>
    ensures { OnOk result (list.new ≡ list.old ++ words.now) }
{
    for word in words {
        add(alloc, list, word.as_slice())?;
    }
    Ok(())
}

fn after(words: &[Bytes], at: usize) -> &[Bytes]
    requires { at ≤ length words.now }
    ensures { result.now ≡ drop at words.now }
{
    &words[at..]
}

fn gives_steps(text: &[u8]) -> bool
    ensures { result ≡ starts_with nat_eq text.now (codes "--steps=") }
{
    text.starts_with(b"--steps=")
}

fn tail(text: &[u8], at: usize) -> &[u8]
    requires { at ≤ length text.now }
    ensures { result.now ≡ drop at text.now }
{
    &text[at..]
}

// The options and the positionals, or none where a word is no option.
fn split(alloc: Global, words: &[Bytes]) -> Result<Option<Arguments>, NoMemory>
    ensures { IfOk result (λ s. s ≡ split_of false words.now) }
{
    let mut steps: ListOf<Bytes> = ListOf::new(alloc);
    let mut positionals: ListOf<Bytes> = ListOf::new(alloc);
    let mut wants_value = false;
    for (at, word) in words.iter().enumerate() {
        let text = word.as_slice();
        if wants_value {
            add(alloc, &mut steps, text)?;
            wants_value = false;
        } else if is_word(text, b"--") {
            add_all(alloc, &mut positionals, after(words, at + 1))?;
            return Ok(Some(Arguments { steps, positionals }));
        } else if is_word(text, b"--steps") {
            wants_value = true;
        } else if gives_steps(text) {
            add(alloc, &mut steps, tail(text, 8))?;
        } else if option(text) {
            return Ok(None);
        } else {
            add(alloc, &mut positionals, text)?;
        }
    }
    if wants_value {
        return Ok(None);
    }
    Ok(Some(Arguments { steps, positionals }))
}

fn budget(steps: &[Bytes]) -> Option<u32>
    ensures { result ≡ budget_of steps.now }
{
    match steps {
        [] => Some(200_000),
        [value] => number(value.as_slice(), 7, 0, 2_000_000),
        [_first, _second, ..] => None,
    }
}

fn run_one(alloc: Global, steps: u32, file: &[u8]) -> Result<Words, NoMemory>
    ensures { IfOk result (λ w. w ≡ Words.Run steps (file.now ∷ [])) }
{
    let mut files = ListOf::new(alloc);
    add(alloc, &mut files, file)?;
    Ok(Words::Run { steps, files })
}

// The run of a file with these values of `--steps`.
fn run_mode(alloc: Global, steps: &[Bytes], file: &[u8]) -> Result<Option<Words>, NoMemory>
    ensures { IfOk result (λ w. w ≡ built_of (run_of steps.now (file.now ∷ []))) }
{
    match budget(steps) {
        Some(steps) => Ok(Some(run_one(alloc, steps, file)?)),
        None => Ok(None),
    }
}

// The check of a file, which takes no `--steps`.
fn check_mode(alloc: Global, steps: &[Bytes], file: &[u8]) -> Result<Option<Words>, NoMemory>
    ensures { IfOk result (λ w. w ≡ built_of (files_of (λ fs. Words.Check fs) steps.now (file.now ∷ []))) }
{
    if !steps.is_empty() {
        return Ok(None);
    }
    let mut files = ListOf::new(alloc);
    add(alloc, &mut files, file)?;
    Ok(Some(Words::Check(files)))
}

// The meaning of the words behind the options, where it is built.
fn mode(alloc: Global, split: &Arguments) -> Result<Option<Words>, NoMemory>
    ensures { IfOk result (λ w. w ≡ built_of (meaning_of_split (Some split.now))) }
{
    let steps = split.steps.as_slice();
    match split.positionals.as_slice() {
        [mode, file] => {
            if is_word(mode.as_slice(), b"run") {
                return Ok(run_mode(alloc, steps, file.as_slice())?);
            }
            if is_word(mode.as_slice(), b"check") {
                return Ok(check_mode(alloc, steps, file.as_slice())?);
            }
            Ok(None)
        }
        [] => Ok(None),
        [_mode] => Ok(None),
        [_mode, _file, _more, ..] => Ok(None),
    }
}

/// The meaning of the words behind the program's name, where it is the check or a run of one file; every other meaning
/// is not built yet, and is `Usage` like words that have none. An option may stand at any place before `--`.
#[tactic(auto, unfolding(crate::specs::Words::meaning_of))]
pub fn read_words(alloc: Global, words: &[Bytes]) -> Result<Words, WordsFault>
    ensures ok { IfOk result (λ w. built_of (meaning_of words.now) ≡ Some w) }
    ensures usage { result ≡ Err WordsFault.Usage → built_of (meaning_of words.now) ≡ None }
{
    if !all_utf8(words) {
        return Err(WordsFault::Usage);
    }
    let Some(split) = split(alloc, words)? else {
        return Err(WordsFault::Usage);
    };
    match mode(alloc, &split)? {
        Some(words) => Ok(words),
        None => Err(WordsFault::Usage),
    }
}
