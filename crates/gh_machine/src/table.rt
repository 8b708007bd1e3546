// The definitions of a program, by their names.
ghost use Rattle.std.specs.Prelude.{◌≡◌, IfOk};
ghost use Rattle.gh_machine.specs.Keys.{IsTable, key_of, con_key, origin_key, space_number};

use gh_base::{NoMemory, Origin, Space, TyCon};
use gh_core::{CoreName, ErasedTerm};
use std::alloc::Global;
use std::collections::HashMap;

type OriginKey = (u32, (u32, u32));

type ConKey = (u32, OriginKey);

/// What tells names apart, part by part.
pub type Key = (u32, (OriginKey, ConKey));

const NO_ORIGIN: OriginKey = (0, (0, 0));

const NO_CON: ConKey = (0, NO_ORIGIN);

fn space(space: Space) -> u32
    ensures { result ≡ space_number space }
{
    match space {
        Space::Values => 0,
        Space::Types => 1,
    }
}

fn origin(origin: Origin) -> OriginKey
    ensures { result ≡ origin_key origin }
{
    (origin.module.0, (space(origin.space), origin.name.0))
}

fn con(con: TyCon) -> ConKey
    ensures { result ≡ con_key con }
{
    match con {
        TyCon::Named(of) => (0, origin(of)),
        TyCon::Arrow => (1, NO_ORIGIN),
        TyCon::Int => (2, NO_ORIGIN),
        TyCon::Char => (3, NO_ORIGIN),
        TyCon::ConOf(of) => (4, origin(of)),
    }
}

/// The key of a name.
pub fn key(name: CoreName) -> Key
    ensures { result ≡ key_of name }
{
    match name {
        CoreName::Plain(of) => (0, (origin(of), NO_CON)),
        CoreName::Hidden(module, number) => (1, ((module.0, (number, 0)), NO_CON)),
        CoreName::Component(of, at) => (2, (origin(of), con(at))),
        CoreName::From(of) => (3, (NO_ORIGIN, con(of))),
        CoreName::To(of) => (4, (NO_ORIGIN, con(of))),
        CoreName::Bimap(of) => (5, (NO_ORIGIN, con(of))),
    }
}

/// The definitions by their keys; of those with one name the first.
pub fn table<'a>(
    alloc: Global,
    defs: &'a [(CoreName, ErasedTerm)],
) -> Result<HashMap<Key, &'a ErasedTerm>, NoMemory>
    ensures { IfOk result (λ m. IsTable defs.now m) }
{
    let mut table = HashMap::new(alloc);
    let mut left = defs.len();
    while left > 0 {
        left -= 1;
        let (name, term) = &defs[left];
        table.insert(key(*name), term)?;
    }
    Ok(table)
}
