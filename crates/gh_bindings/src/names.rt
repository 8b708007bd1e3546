// The names that the core of a program speaks of.
ghost use Rattle.std.specs.Prelude.{◌≡◌};
ghost use Rattle.gh_core.specs.Primitives.{prelude_value};
ghost use Rattle.gh_bindings.specs.Core.{list_name};
ghost use Rattle.gh_bindings.specs.Meaning.{main_value};

use gh_base::fixed::{LIST, MAIN_MODULE, PRELUDE};
use gh_base::{NameId, Origin, Space};

/// A name that the program binds.
pub fn main_value(name: NameId) -> Origin
    ensures { result ≡ main_value name }
{
    Origin {
        module: MAIN_MODULE,
        space: Space::Values,
        name,
    }
}

/// A variable or constructor of the Prelude.
pub fn prelude_value(name: NameId) -> Origin
    ensures { result ≡ prelude_value name }
{
    Origin {
        module: PRELUDE,
        space: Space::Values,
        name,
    }
}

/// The type of lists.
pub fn list_name() -> Origin
    ensures { result ≡ list_name }
{
    Origin {
        module: PRELUDE,
        space: Space::Types,
        name: LIST,
    }
}
