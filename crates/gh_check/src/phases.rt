// From bytes to a program or a refusal.
ghost use Rattle.std.specs.Prelude.{◌≡◌, ◌<◌, ◌^◌, length, IfOk, Ok};
ghost use Rattle.gh_base.specs.Table.{IsGrown};
ghost use Rattle.gh_check.specs.Check.{checked_of, formed_of, laid_of, limited_of, on_layout, RefusalNamed};

use crate::link::link;
use gh_base::{Fault, ListOf, Names, NoMemory, Refusal, Span};
use gh_layout::{LaidToken, lay};
use gh_lexer::{Token, lex};
use gh_limits::limits;
use gh_parser::parse;
use gh_tree::ModuleTree;
use gh_tree_form::{Bindings, Parsed, form};
use std::alloc::Global;

/// A refusal, or a program.
#[derive(Drop)]
pub enum Checked {
    /// The first refusal, in the order of the phases.
    Refused(Refusal),
    /// The bindings of a program whose names all have bindings, `main` among them.
    Program(Bindings),
}

const NOWHERE: Span = Span {
    file: 1,
    from: 0,
    to: 0,
};

// What a tree is that passes no limit: a program of the form that is built, or the first item of another form.
#[tactic(auto, unfolding(crate::specs::Check::formed_of))]
fn check_form(alloc: Global, tree: &ModuleTree) -> Result<Checked, NoMemory>
    ensures { IfOk result (λ c. c ≡ formed_of tree.now) }
{
    match form(alloc, tree) {
        Err(_) => Err(NoMemory),
        Ok(Parsed::Bad(span)) => Ok(Checked::Refused(Refusal::NoParse { span })),
        Ok(Parsed::Program(bindings)) => Ok(link(bindings)),
    }
}

// What the tree of a file is.
#[tactic(auto, unfolding(crate::specs::Check::limited_of))]
fn check_tree(alloc: Global, tree: &ModuleTree) -> Result<Checked, NoMemory>
    ensures { IfOk result (λ c. c ≡ limited_of tree.now) }
{
    if let Some(refusal) = limits(tree) {
        return Ok(Checked::Refused(refusal));
    }
    Ok(check_form(alloc, tree)?)
}

// What the laid tokens of a file are.
fn check_laid(
    alloc: Global,
    tokens: &ListOf<Token>,
    laid: &ListOf<LaidToken>,
) -> Result<Checked, NoMemory>
    requires { length tokens.now < 2 ^ 32 }
    ensures { IfOk result (λ c. c ≡ on_layout tokens.now (Ok laid.now)) }
{
    match parse(alloc, tokens, laid) {
        Err(Fault::NoMemory) => Err(NoMemory),
        Err(Fault::Refused(refusal)) => Ok(Checked::Refused(refusal)),
        Ok(tree) => Ok(check_tree(alloc, &tree)?),
    }
}

// What the tokens of a file are.
#[tactic(auto, unfolding(crate::specs::Check::laid_of))]
fn check_tokens(alloc: Global, tokens: &ListOf<Token>) -> Result<Checked, NoMemory>
    requires { length tokens.now < 2 ^ 32 }
    ensures { IfOk result (λ c. c ≡ laid_of tokens.now) }
{
    match lay(alloc, tokens) {
        Err(Fault::NoMemory) => Err(NoMemory),
        Err(Fault::Refused(refusal)) => Ok(Checked::Refused(refusal)),
        Ok(laid) => Ok(check_laid(alloc, tokens, &laid)?),
    }
}

/// What the bytes of a file are.
#[tactic(auto, unfolding(crate::specs::Check::checked_of), using(gh_base::specs::Table::grown_same, crate::proofs::Plain::long_named, crate::proofs::Plain::few_tokens, crate::proofs::Plain::reading_named, crate::proofs::Plain::laid_named, crate::proofs::Plain::tokens_are))]
pub fn check(alloc: Global, names: &mut Names, bytes: &[u8]) -> Result<Checked, NoMemory>
    ensures value { IfOk result (λ c. c ≡ checked_of names.new bytes.now) }
    ensures named { IfOk result (λ c. RefusalNamed names.new c) }
    ensures grows { IsGrown names.old names.new }
{
    if bytes.len() > 1_048_576 {
        return Ok(Checked::Refused(Refusal::FileTooLong { span: NOWHERE }));
    }
    match lex(alloc, names, 1, bytes) {
        Err(Fault::NoMemory) => Err(NoMemory),
        Err(Fault::Refused(refusal)) => Ok(Checked::Refused(refusal)),
        Ok(tokens) => Ok(check_tokens(alloc, &tokens)?),
    }
}
