// Copies of literals and written types.
ghost use Rattle.std.specs.Prelude.{◌≡◌, IfOk};

use crate::names::Lit;
use crate::signatures::Signed;
use gh_base::{ListOf, NoMemory};
use gh_typeterm::{Kind, copy_kind};
use std::alloc::Global;

/// The same literal.
pub fn copy_lit(alloc: Global, lit: &Lit) -> Result<Lit, NoMemory>
    ensures { IfOk result (λ copy. copy ≡ lit.now) }
{
    match lit {
        Lit::Int(number) => Ok(Lit::Int(*number)),
        Lit::Char(char) => Ok(Lit::Char(*char)),
        Lit::Str(chars) => Ok(Lit::Str(ListOf::from_slice(alloc, chars.as_slice())?)),
    }
}

/// The same signature, where there is one.
pub fn copy_signature(alloc: Global, signature: &Option<Signed>) -> Result<Option<Signed>, NoMemory>
    ensures { IfOk result (λ copy. copy ≡ signature.now) }
{
    match signature {
        Some(signed) => Ok(Some(copy_signed(alloc, signed)?)),
        None => Ok(None),
    }
}

/// The same written type, which is shared and not copied.
pub fn copy_signed(alloc: Global, signed: &Signed) -> Result<Signed, NoMemory>
    ensures { IfOk result (λ copy. copy ≡ signed.now) }
{
    let ty = signed.ty.share()?;
    let kinds = copy_kinds(alloc, signed.kinds.as_slice())?;
    Ok(Signed { ty, kinds })
}

fn copy_kinds(alloc: Global, kinds: &[(u32, Kind)]) -> Result<ListOf<(u32, Kind)>, NoMemory>
    ensures { IfOk result (λ copy. copy ≡ kinds.now) }
{
    let mut copy = ListOf::new(alloc);
    for (variable, kind) in kinds {
        copy.push((*variable, copy_kind(alloc, kind)?))?;
    }
    Ok(copy)
}
