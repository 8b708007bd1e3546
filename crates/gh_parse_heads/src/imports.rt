// Imports.
ghost use Rattle.std.specs.Prelude.{option_copied, ◌≡◌, MatchResult};
ghost use Rattle.gh_tree.specs.Read as read;
ghost use Rattle.gh_parse_heads.specs.Imports as spec;
ghost use Rattle.gh_parse_heads.specs.Imports.{Spells, Refuses};
ghost use Rattle.gh_reader.specs.Reads.{Reads};

use crate::lists::{goes_on, last_comma, left_mark};
use crate::names::module_name;
use crate::parts::any_parts;
use gh_base::fixed::{AS, HIDING, QUALIFIED};
use gh_base::{ListOf, NameId, Span};
use gh_reader::{Stop, Tokens, close, var};
use gh_tree::{Alias, Entities, Entity, Import, ImportList, Kind, Name, NextEntity, Sym};
use std::alloc::Global;

// Whether this is a word that is a variable name elsewhere.
fn word_is(word: NameId, kind: Option<&Kind>) -> bool
    ensures { result ≡ spec.word_is word (option_copied kind.entry) }
{
    match kind {
        Some(Kind::VarId(None, name)) => name.0 == word.0,
        _ => false,
    }
}

// A word, where it comes next.
#[tactic(auto, unfolding(crate::specs::Imports::any_word))]
fn any_word(tokens: &mut Tokens<'_>, word: NameId) -> Option<Span>
    ensures { spec.any_word word tokens.old ≡ read.taken result tokens.new }
{
    if word_is(word, tokens.kind()) {
        return Some(tokens.take());
    }
    None
}

// The constructors of a type, behind its name.
#[tactic(auto, unfolding(crate::specs::Imports::con_entity))]
fn con_entity(
    alloc: Global,
    tokens: &mut Tokens<'_>,
    start: &[Sym],
    name: Name,
) -> Result<Entity, Stop>
    ensures { Reads (spec.con_entity start.now name tokens.old) result tokens.new }
{
    let parts = any_parts(alloc, tokens)?;
    Ok(Entity::Con(tokens.since(start), name, parts))
}

#[tactic(auto, unfolding(crate::specs::Imports::entity))]
fn entity(alloc: Global, tokens: &mut Tokens<'_>) -> Result<Entity, Stop>
    ensures { Reads (spec.entity tokens.old) result tokens.new }
{
    let start = tokens.rest();
    match tokens.kind() {
        Some(Kind::ConId(None, id)) => {
            let name = Name {
                span: tokens.take(),
                qualifier: None,
                id: *id,
            };
            con_entity(alloc, tokens, start, name)
        }
        _ => Ok(Entity::Var(var(tokens)?)),
    }
}

// A comma and an entity.
#[tactic(auto, unfolding(crate::specs::Imports::next_entity))]
fn next_entity(alloc: Global, tokens: &mut Tokens<'_>) -> Result<NextEntity, Stop>
    ensures { Reads (spec.next_entity tokens.old) result tokens.new }
{
    let mark = tokens.take();
    let entity = entity(alloc, tokens)?;
    Ok(NextEntity { mark, entity })
}

fn next_entities(alloc: Global, tokens: &mut Tokens<'_>) -> Result<ListOf<NextEntity>, Stop>
    ensures { Reads (spec.next_entities tokens.old) result tokens.new }
{
    let mut found = ListOf::new(alloc);
    for _turn in 0..tokens.rest().len() {
        if !goes_on(tokens) {
            return Ok(found);
        }
        found.push(next_entity(alloc, tokens)?)?;
    }
    Ok(found)
}

// Entities, of which there is one at least.
#[tactic(auto, unfolding(crate::specs::Imports::some_entities))]
fn some_entities(alloc: Global, tokens: &mut Tokens<'_>) -> Result<Option<Entities>, Stop>
    ensures { Reads (spec.some_entities tokens.old) result tokens.new }
{
    let first = entity(alloc, tokens)?;
    let others = next_entities(alloc, tokens)?;
    Ok(Some(Entities { first, others }))
}

#[tactic(auto, unfolding(crate::specs::Imports::entities))]
fn entities(alloc: Global, tokens: &mut Tokens<'_>) -> Result<Option<Entities>, Stop>
    ensures { Reads (spec.entities tokens.old) result tokens.new }
{
    match tokens.kind() {
        Some(Kind::Close) | Some(Kind::Comma) => Ok(None),
        _ => some_entities(alloc, tokens),
    }
}

// What is imported or hidden.
#[tactic(auto, unfolding(crate::specs::Imports::some_list))]
fn some_list(alloc: Global, tokens: &mut Tokens<'_>) -> Result<Option<ImportList>, Stop>
    ensures { Reads (spec.some_list tokens.old) result tokens.new }
{
    let hiding = any_word(tokens, HIDING);
    let open = left_mark(tokens)?;
    let list = entities(alloc, tokens)?;
    let comma = last_comma(tokens);
    let close = close(tokens)?;
    Ok(Some(ImportList {
        hiding,
        open,
        list,
        comma,
        close,
    }))
}

// Whether a list comes next.
fn list_next(tokens: &Tokens<'_>) -> bool
    ensures { result ≡ spec.list_next tokens.now }
{
    match tokens.kind() {
        Some(Kind::Open) => true,
        kind => word_is(HIDING, kind),
    }
}

#[tactic(auto, unfolding(crate::specs::Imports::import_list))]
fn import_list(alloc: Global, tokens: &mut Tokens<'_>) -> Result<Option<ImportList>, Stop>
    ensures { Reads (spec.import_list tokens.old) result tokens.new }
{
    if list_next(tokens) {
        return some_list(alloc, tokens);
    }
    Ok(None)
}

// `as` and a module's name.
#[tactic(auto, unfolding(crate::specs::Imports::some_alias))]
fn some_alias(tokens: &mut Tokens<'_>) -> Result<Option<Alias>, Stop>
    ensures { Reads (spec.some_alias tokens.old) result tokens.new }
{
    let mark = tokens.take();
    let name = module_name(tokens)?;
    Ok(Some(Alias { mark, name }))
}

#[tactic(auto, unfolding(crate::specs::Imports::alias))]
fn alias(tokens: &mut Tokens<'_>) -> Result<Option<Alias>, Stop>
    ensures { Reads (spec.alias tokens.old) result tokens.new }
{
    if word_is(AS, tokens.kind()) {
        return some_alias(tokens);
    }
    Ok(None)
}

// `import`
fn import_mark(tokens: &mut Tokens<'_>) -> Result<Span, Stop>
    ensures { Reads (read.expect spec.is_import tokens.old) result tokens.new }
{
    match tokens.kind() {
        Some(Kind::Import) => Ok(tokens.take()),
        _ => Err(Stop::NoParse),
    }
}

#[tactic(auto, unfolding(crate::specs::Imports::import_item))]
fn import_item(alloc: Global, tokens: &mut Tokens<'_>) -> Result<Import, Stop>
    ensures { Reads (spec.import_item tokens.old) result tokens.new }
{
    let start = tokens.rest();
    let mark = import_mark(tokens)?;
    let qualified = any_word(tokens, QUALIFIED);
    let name = module_name(tokens)?;
    let alias = alias(tokens)?;
    let list = import_list(alloc, tokens)?;
    Ok(Import {
        span: tokens.since(start),
        mark,
        qualified,
        name,
        alias,
        list,
    })
}

/// The one import whose tokens these are.
pub fn parse_import(alloc: Global, syms: &[Sym]) -> Result<Import, Stop>
    ensures { MatchResult result (Spells syms.now) (λ e. Refuses e syms.now) }
{
    let mut tokens = Tokens::new(syms);
    let found = import_item(alloc, &mut tokens)?;
    if !tokens.is_empty() {
        return Err(Stop::NoParse);
    }
    Ok(found)
}
