// Why a reader gives no tree.
ghost use Rattle.std.specs.Prelude.{◌≡◌};
ghost use Rattle.gh_reader.specs.declared.stop.Stop.TheVariants as stop;

use gh_base::NoMemory;
use std::alloc::AllocError;

/// Why a reader gives no tree.
#[derive(Debug, Drop)]
pub enum Stop {
    /// No tree begins with these tokens.
    NoParse,
    /// There was no memory.
    NoMemory,
}

impl From<NoMemory> for Stop {
    ghost from_gives = { λ _ e. e ≡ stop.NoMemory };

    fn from(_: NoMemory) -> Stop {
        Stop::NoMemory
    }
}

impl From<AllocError> for Stop {
    ghost from_gives = { λ _ e. e ≡ stop.NoMemory };

    fn from(_: AllocError) -> Stop {
        Stop::NoMemory
    }
}
