// Kinds.
ghost use Rattle.std.specs.Prelude.{◌≡◌, ◌↔◌, IfOk, IsTrue};

use gh_base::NoMemory;
use sqlite_items::Boxed;
use std::alloc::Global;

/// A kind (Haskell 98 Report, 4.1.1).
#[derive(Debug, Drop)]
pub enum Kind {
    /// The kind of the types of values.
    Star,
    /// The kind of type functions: the kind of the argument, and that of the answer.
    Arrow(Boxed<Kind>, Boxed<Kind>),
}

/// A copy of a kind.
pub fn copy_kind(alloc: Global, kind: &Kind) -> Result<Kind, NoMemory>
    ensures { IfOk result (λ copy. copy ≡ kind.now) }
{
    match kind {
        Kind::Star => Ok(Kind::Star),
        Kind::Arrow(from, to) => {
            let from = Boxed::new(alloc, copy_kind(alloc, from.get())?)?;
            let to = Boxed::new(alloc, copy_kind(alloc, to.get())?)?;
            Ok(Kind::Arrow(from, to))
        }
    }
}

/// Whether two kinds are equal.
pub fn same_kind(a: &Kind, b: &Kind) -> bool
    ensures { IsTrue result ↔ (a.now ≡ b.now) }
{
    match (a, b) {
        (Kind::Star, Kind::Star) => true,
        (Kind::Arrow(a, x), Kind::Arrow(b, y)) => {
            same_kind(a.get(), b.get()) && same_kind(x.get(), y.get())
        }
        _ => false,
    }
}
