// How many are allowed of what is counted, and the order in which limits are told.
ghost use Rattle.std.specs.Prelude.{◌≡◌, ◌+◌, min};
ghost use Rattle.gh_limits.specs.Places as spec;
ghost use Rattle.gh_limits.specs.Places.{place};

use gh_base::Limit;

/// The end of the table of limits: no limit is passed.
pub const NONE: u32 = 7;

// How many are allowed.
fn number_of(which: Limit) -> usize
    ensures { result ≡ spec.number_of which }
{
    match which {
        Limit::Parameters => 8,
        Limit::Dependencies => 8,
        Limit::Constructors => 128,
        Limit::Fields => 16,
        Limit::Arguments => 16,
        Limit::Bindings => 64,
        Limit::Clauses => 1000,
    }
}

// Where a limit stands in the table.
fn place_of(which: Limit) -> u32
    ensures { result ≡ spec.place_of which }
{
    match which {
        Limit::Parameters => 0,
        Limit::Dependencies => 1,
        Limit::Constructors => 2,
        Limit::Fields => 3,
        Limit::Arguments => 4,
        Limit::Bindings => 5,
        Limit::Clauses => 6,
    }
}

/// The place of a limit that so many pass, and the table's end where they do not.
#[tactic(auto, unfolding(crate::specs::Places::place))]
pub fn place(which: Limit, many: usize) -> u32
    ensures { result ≡ place which many }
{
    if number_of(which) < many {
        place_of(which)
    } else {
        NONE
    }
}

/// The earlier of two places.
pub fn earlier(a: u32, b: u32) -> u32
    ensures { result ≡ min a b }
{
    if a < b { a } else { b }
}

/// The limit at a place of the table.
pub fn limit_at(place: u32) -> Option<Limit>
    ensures { result ≡ spec.limit_at place }
{
    match place {
        0 => Some(Limit::Parameters),
        1 => Some(Limit::Dependencies),
        2 => Some(Limit::Constructors),
        3 => Some(Limit::Fields),
        4 => Some(Limit::Arguments),
        5 => Some(Limit::Bindings),
        6 => Some(Limit::Clauses),
        _ => None,
    }
}

/// The place of a limit that one and so many others pass.
#[tactic(auto, unfolding(crate::specs::Places::place))]
pub fn others_place(which: Limit, others: usize) -> u32
    ensures { result ≡ place which (1 + others) }
{
    if number_of(which) <= others {
        place_of(which)
    } else {
        NONE
    }
}
