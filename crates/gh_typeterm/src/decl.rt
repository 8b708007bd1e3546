// Declarations of datatypes.
ghost use Rattle.std.specs.Prelude.{◌≡◌, IfOk};

use crate::kind::{Kind, copy_kind};
use crate::ty::Ty;
use gh_base::{ListOf, NoMemory, Origin};
use std::alloc::Global;

/// A declared datatype (Haskell 98 Report, 4.2.1 and 4.2.3). Lists, tuples and the empty tuple count as declared.
#[derive(Debug, Drop)]
pub struct DeclData {
    /// The type's name.
    pub origin: Origin,
    /// Whether it is a `newtype`.
    pub is_newtype: bool,
    /// The kinds of the parameters, in order. The parameter at place `i`, from 0, is `Var(i)` in the fields.
    pub params: ListOf<Kind>,
    /// The constructors, in order.
    pub constructors: ListOf<DeclCon>,
}

/// A constructor of a declared datatype.
#[derive(Debug, Drop)]
pub struct DeclCon {
    /// The constructor's name.
    pub origin: Origin,
    /// The types of its fields, in order.
    pub fields: ListOf<Ty>,
}

/// A list of the same terms, which are shared and not copied.
pub fn share_terms(alloc: Global, terms: &[Ty]) -> Result<ListOf<Ty>, NoMemory>
    ensures { IfOk result (λ copy. copy ≡ terms.now) }
{
    let mut copy = ListOf::new(alloc);
    for term in terms {
        copy.push(term.share()?)?;
    }
    Ok(copy)
}

/// A copy of a declaration, which shares its types.
pub fn copy_decl(alloc: Global, decl: &DeclData) -> Result<DeclData, NoMemory>
    ensures { IfOk result (λ copy. copy ≡ decl.now) }
{
    let params = copy_params(alloc, decl.params.as_slice())?;
    let constructors = copy_constructors(alloc, decl.constructors.as_slice())?;
    Ok(DeclData {
        origin: decl.origin,
        is_newtype: decl.is_newtype,
        params,
        constructors,
    })
}

fn copy_params(alloc: Global, params: &[Kind]) -> Result<ListOf<Kind>, NoMemory>
    ensures { IfOk result (λ copy. copy ≡ params.now) }
{
    let mut copy = ListOf::new(alloc);
    for kind in params {
        copy.push(copy_kind(alloc, kind)?)?;
    }
    Ok(copy)
}

fn copy_constructors(alloc: Global, constructors: &[DeclCon]) -> Result<ListOf<DeclCon>, NoMemory>
    ensures { IfOk result (λ copy. copy ≡ constructors.now) }
{
    let mut copy = ListOf::new(alloc);
    for con in constructors {
        let fields = share_terms(alloc, con.fields.as_slice())?;
        copy.push(DeclCon {
            origin: con.origin,
            fields,
        })?;
    }
    Ok(copy)
}
