// Names in a table.
ghost use Rattle.std.specs.Prelude.{◌≡◌, ◌<◌, get_or, length, IfOk};
ghost use Rattle.std.specs.HashMap.{get};
ghost use Rattle.gh_core.specs.declared.terms.CoreName.{CoreName};
ghost use Rattle.gh_core_lint.specs.Keys.{con_key, first_from, key_of, origin_key, same_key, space_number};
ghost use Rattle.gh_core_lint.specs.Tables.{IsIndex};

use gh_base::{ListOf, NoMemory, Origin, Space, TyCon};
use gh_core::CoreName;
use std::alloc::Global;
use std::collections::HashMap;
use std::marker::Model;

type OriginKey = (u32, (u32, u32));

type ConKey = (u32, OriginKey);

/// What tells names apart, part by part.
pub type Key = (u32, (OriginKey, ConKey));

const NO_ORIGIN: OriginKey = (0, (0, 0));

const NO_CON: ConKey = (0, NO_ORIGIN);

fn space(space: Space) -> u32
    ensures { result ≡ space_number space }
{
    match space {
        Space::Values => 0,
        Space::Types => 1,
    }
}

fn origin(origin: Origin) -> OriginKey
    ensures { result ≡ origin_key origin }
{
    (origin.module.0, (space(origin.space), origin.name.0))
}

fn con(con: TyCon) -> ConKey
    ensures { result ≡ con_key con }
{
    match con {
        TyCon::Named(of) => (0, origin(of)),
        TyCon::Arrow => (1, NO_ORIGIN),
        TyCon::Int => (2, NO_ORIGIN),
        TyCon::Char => (3, NO_ORIGIN),
        TyCon::ConOf(of) => (4, origin(of)),
    }
}

/// The key of a name.
pub fn key(name: CoreName) -> Key
    ensures { result ≡ key_of name }
{
    match name {
        CoreName::Plain(of) => (0, (origin(of), NO_CON)),
        CoreName::Hidden(module, number) => (1, ((module.0, (number, 0)), NO_CON)),
        CoreName::Component(of, at) => (2, (origin(of), con(at))),
        CoreName::From(of) => (3, (NO_ORIGIN, con(of))),
        CoreName::To(of) => (4, (NO_ORIGIN, con(of))),
        CoreName::Bimap(of) => (5, (NO_ORIGIN, con(of))),
    }
}

fn place_of(places: &HashMap<Key, usize>, name: CoreName) -> Option<usize>
    ensures { result ≡ get same_key places.now (key_of name) }
{
    places.get(&key(name)).copied()
}

fn name_at(names: &ListOf<CoreName>, place: usize) -> CoreName
    requires { place < length names.now }
    ensures { result ≡ get_or names.now place result }
{
    names.as_slice()[place]
}

/// Names in their order, each once, with their places.
#[derive(Drop)]
pub struct Index {
    names: ListOf<CoreName>,
    places: HashMap<Key, usize>,
    ghost agrees: { (name : CoreName) → get same_key places (key_of name) ≡ first_from 0 names name },
}

impl Model for Index {
    ghost use Rattle.std.specs.Prelude.{List};
    ghost use Rattle.gh_core.specs.declared.terms.CoreName.{CoreName};

    ghost Value = { List CoreName };

    ghost view = { λ index. index.names };
}

impl Index {
    /// A table of these names; none where one of them is doubled.
    pub fn new(alloc: Global, names: ListOf<CoreName>) -> Result<Option<Index>, NoMemory>
        ensures { IfOk result (λ made. IsIndex names made) }
    {
        let mut places = HashMap::new(alloc);
        let mut left = names.as_slice().len();
        while left > 0 {
            left -= 1;
            let name = name_at(&names, left);
            match place_of(&places, name) {
                Some(_) => return Ok(None),
                None => {
                    places.insert(key(name), left)?;
                }
            }
        }
        Ok(Some(Index { names, places }))
    }

    /// The place of a name.
    pub fn place(&self, name: CoreName) -> Option<usize>
        ensures { result ≡ first_from 0 self.now name }
    {
        place_of(&self.places, name)
    }
}
