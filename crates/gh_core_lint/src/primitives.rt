// The types of the primitives.
ghost use Rattle.std.specs.Prelude.{◌≡◌, option_map, map, IfOk};
ghost use Rattle.gh_core.specs.Primitives as p;
ghost use Rattle.gh_core.specs.Typing as t;
ghost use Rattle.gh_core_lint.specs.Stops.{entry_of, plain_type, primitive_of};
ghost use Rattle.gh_core_lint.specs.Types.{type_at};

use crate::types::{Type, make_app, make_arrow, make_con};
use gh_base::fixed::{
    BOOL, CHR, EQ_CHAR, EQUAL, ERROR, LESS, LIST, MINUS, ORD, PLUS, PRELUDE, QUOT, REM, SHOW_INT,
    TIMES,
};
use gh_base::{NameId, NoMemory, Origin, Space, TyCon};
use std::alloc::Global;

/// The primitives of the Prelude that core's check knows.
#[derive(Clone, Copy)]
pub enum Primitive {
    Error,
    Ord,
    Chr,
    ShowInt,
    Plus,
    Minus,
    Times,
    Quot,
    Rem,
    Equal,
    Less,
    EqChar,
}

fn prelude_value(name: NameId) -> Origin
    ensures { result ≡ p.prelude_value name }
{
    Origin {
        module: PRELUDE,
        space: Space::Values,
        name,
    }
}

// The first primitive of this name in a table.
fn first_named(table: &[(NameId, Primitive)], origin: Origin) -> Option<Primitive>
    ensures { option_map primitive_of result ≡ p.named (map entry_of table.now) origin }
{
    for (name, primitive) in table {
        if prelude_value(*name) == origin {
            return Some(*primitive);
        }
    }
    None
}

/// The primitive that an origin stands for, if it stands for one.
pub fn primitive_named(origin: Origin) -> Option<Primitive>
    ensures { option_map primitive_of result ≡ p.named p.primitives origin }
{
    let table = [
        (PLUS, Primitive::Plus),
        (MINUS, Primitive::Minus),
        (TIMES, Primitive::Times),
        (QUOT, Primitive::Quot),
        (REM, Primitive::Rem),
        (EQUAL, Primitive::Equal),
        (LESS, Primitive::Less),
        (EQ_CHAR, Primitive::EqChar),
        (ORD, Primitive::Ord),
        (CHR, Primitive::Chr),
        (SHOW_INT, Primitive::ShowInt),
        (ERROR, Primitive::Error),
    ];
    first_named(&table, origin)
}

/// The type of integers.
pub fn int_type(alloc: Global) -> Result<Type, NoMemory>
    ensures { IfOk result (λ made. type_at made ≡ t.int_type) }
{
    make_con(alloc, TyCon::Int)
}

/// The type of characters.
pub fn char_type(alloc: Global) -> Result<Type, NoMemory>
    ensures { IfOk result (λ made. type_at made ≡ t.char_type) }
{
    make_con(alloc, TyCon::Char)
}

fn prelude_type(name: NameId) -> TyCon
    ensures { result ≡ t.prelude_type name }
{
    TyCon::Named(Origin {
        module: PRELUDE,
        space: Space::Types,
        name,
    })
}

fn bool_type(alloc: Global) -> Result<Type, NoMemory>
    ensures { IfOk result (λ made. type_at made ≡ t.bool_type) }
{
    make_con(alloc, prelude_type(BOOL))
}

/// The type of lists of characters.
pub fn string_type(alloc: Global) -> Result<Type, NoMemory>
    ensures { IfOk result (λ made. type_at made ≡ t.string_type) }
{
    let list = make_con(alloc, prelude_type(LIST))?;
    make_app(alloc, list, char_type(alloc)?)
}

fn arithmetic(alloc: Global) -> Result<Type, NoMemory>
    ensures { IfOk result (λ made. type_at made ≡ t.arrow t.int_type (t.arrow t.int_type t.int_type)) }
{
    let inner = make_arrow(alloc, int_type(alloc)?, int_type(alloc)?)?;
    make_arrow(alloc, int_type(alloc)?, inner)
}

fn comparison(alloc: Global) -> Result<Type, NoMemory>
    ensures { IfOk result (λ made. type_at made ≡ t.arrow t.int_type (t.arrow t.int_type t.bool_type)) }
{
    let inner = make_arrow(alloc, int_type(alloc)?, bool_type(alloc)?)?;
    make_arrow(alloc, int_type(alloc)?, inner)
}

fn character_comparison(alloc: Global) -> Result<Type, NoMemory>
    ensures { IfOk result (λ made. type_at made ≡ t.arrow t.char_type (t.arrow t.char_type t.bool_type)) }
{
    let inner = make_arrow(alloc, char_type(alloc)?, bool_type(alloc)?)?;
    make_arrow(alloc, char_type(alloc)?, inner)
}

/// The type of a primitive that has no type written with it; none for `error`.
pub fn type_of_primitive(alloc: Global, primitive: Primitive) -> Result<Option<Type>, NoMemory>
    ensures { IfOk result (λ made. option_map type_at made ≡ plain_type (primitive_of primitive)) }
{
    let made = match primitive {
        Primitive::Error => return Ok(None),
        Primitive::Ord => make_arrow(alloc, char_type(alloc)?, int_type(alloc)?)?,
        Primitive::Chr => make_arrow(alloc, int_type(alloc)?, char_type(alloc)?)?,
        Primitive::ShowInt => make_arrow(alloc, int_type(alloc)?, string_type(alloc)?)?,
        Primitive::Plus => arithmetic(alloc)?,
        Primitive::Minus => arithmetic(alloc)?,
        Primitive::Times => arithmetic(alloc)?,
        Primitive::Quot => arithmetic(alloc)?,
        Primitive::Rem => arithmetic(alloc)?,
        Primitive::Equal => comparison(alloc)?,
        Primitive::Less => comparison(alloc)?,
        Primitive::EqChar => character_comparison(alloc)?,
    };
    Ok(Some(made))
}
