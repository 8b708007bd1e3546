// Sums of layers of products.
ghost use Rattle.std.specs.Prelude.{◌≡◌, ◌<◌, length, map, IfOk};
ghost use Rattle.gh_typeterm.specs.Representation.{prelude_type, joined, nested, layer_of, rep_of};

use gh_base::fixed::{PRELUDE, PROD, SUM, UNIT};
use gh_base::{ListOf, NameId, NoMemory, Origin, Space, TyCon};
use gh_typeterm::{DeclCon, DeclData, Ty};
use std::alloc::Global;

/// The structural representation of a declared datatype over its own parameters, which stay `Var(0)` and up. The
/// constructors are nested to the right with `Sum`, and one alone gives no sum. Each constructor gives its layer,
/// `ConOf` applied to its fields nested to the right with `Prod`: `Unit` for no field, and one field for itself (Löh,
/// Exploring Generic Haskell; Hinze, Polytypic Values Possess Polykinded Types). Fields are shared with the
/// declaration.
pub fn rep(alloc: Global, decl: &DeclData) -> Result<Ty, NoMemory>
    requires { 0 < length decl.now.constructors }
    ensures { IfOk result (λ term. term ≡ rep_of decl.now) }
{
    let layers = layers(alloc, decl.constructors.as_slice())?;
    nest(alloc, SUM, layers.as_slice())
}

/// The layer of each constructor, in order.
pub fn layers(alloc: Global, constructors: &[DeclCon]) -> Result<ListOf<Ty>, NoMemory>
    ensures { IfOk result (λ made. made ≡ map layer_of constructors.now) }
{
    let mut made = ListOf::new(alloc);
    for con in constructors {
        made.push(layer(alloc, con)?)?;
    }
    Ok(made)
}

fn layer(alloc: Global, con: &DeclCon) -> Result<Ty, NoMemory>
    ensures { IfOk result (λ term. term ≡ layer_of con.now) }
{
    let fields = nest(alloc, PROD, con.fields.as_slice())?;
    let head = Ty::con(alloc, TyCon::ConOf(con.origin))?;
    Ty::app(alloc, head, fields)
}

/// The parts nested to the right with a type of the Prelude of two arguments: `Unit` for none, and one alone for itself.
pub fn nest(alloc: Global, join: NameId, parts: &[Ty]) -> Result<Ty, NoMemory>
    ensures { IfOk result (λ term. term ≡ nested (joined join) parts.now) }
{
    let count = parts.len();
    if count == 0 {
        return of_prelude(alloc, UNIT);
    }
    let mut term = parts[count - 1].share()?;
    for at in (0..count - 1).rev() {
        term = pair(alloc, join, parts[at].share()?, term)?;
    }
    Ok(term)
}

fn pair(alloc: Global, join: NameId, left: Ty, right: Ty) -> Result<Ty, NoMemory>
    ensures { IfOk result (λ term. term ≡ joined join left right) }
{
    let head = Ty::app(alloc, of_prelude(alloc, join)?, left)?;
    Ty::app(alloc, head, right)
}

fn of_prelude(alloc: Global, name: NameId) -> Result<Ty, NoMemory>
    ensures { IfOk result (λ term. term ≡ prelude_type name) }
{
    let origin = Origin {
        module: PRELUDE,
        space: Space::Types,
        name,
    };
    Ty::con(alloc, TyCon::Named(origin))
}
