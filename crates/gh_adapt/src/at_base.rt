// The conversion at a base type.
ghost use Rattle.std.specs.Prelude.{◌≡◌, map, IfOk};
ghost use Rattle.gh_core.specs.Typing.{type_of, code_of};
ghost use Rattle.gh_adapt.specs.PairGoes.{MarkerGoes, KeptGoes, ArrowGoes, DataGoes};
ghost use Rattle.gh_adapt.specs.Pairs.{adapter_of};
ghost use Rattle.gh_adapt.specs.TypedPairs.{adapter_code};
ghost use Rattle.gh_adapt.specs.Untyped.{untyped, first_type, second_type};

use crate::pairs::converted;
use crate::ways::Way;
use gh_base::{ListOf, NoMemory};
use gh_core::{CoreTerm, CoreType};
use gh_kind_index::copy_type;
use gh_typeterm::Ty;
use sqlite_items::Boxed;
use std::alloc::Global;

/// The conversion of a value at a base type, from the right types of the generic variables to the left ones. For each generic
/// variable `types` has the two types of its pair, and `pairs` the pair; `others` has a type for each other variable.
pub fn adapter(
    alloc: Global,
    base: &Ty,
    types: &ListOf<(CoreType, CoreType)>,
    others: &ListOf<CoreType>,
    pairs: &ListOf<CoreTerm>,
) -> Result<CoreTerm, NoMemory>
    ensures term { IfOk result (λ made. untyped made ≡ adapter_of (map untyped pairs.now) base.now) }

    // Applied to a term, by the form of the base type: at a variable with a pair that pair's conversion back goes on with the
    // term; where nothing is converted the term goes on; a function goes to one that converts what it is given the other way,
    // and what it answers; a datatype goes to the case that rebuilds.
    ensures marker { IfOk result (λ made. MarkerGoes (map untyped pairs.now) base.now (untyped made)) }
    ensures kept { IfOk result (λ made. KeptGoes (map untyped pairs.now) base.now (untyped made)) }
    ensures function { IfOk result (λ made. ArrowGoes (map untyped pairs.now) base.now (untyped made)) }
    ensures datatype { IfOk result (λ made. DataGoes (map untyped pairs.now) base.now (untyped made)) }
{
    let made = adapted(alloc, base, types, others, pairs)?;
    Ok(made.into_inner())
}

fn adapted(
    alloc: Global,
    base: &Ty,
    types: &ListOf<(CoreType, CoreType)>,
    others: &ListOf<CoreType>,
    pairs: &ListOf<CoreTerm>,
) -> Result<Boxed<CoreTerm>, NoMemory>
    ensures { IfOk result (λ made. code_of made ≡ adapter_code base.now (map first_type types.now) (map second_type types.now) (map type_of others.now) (map code_of pairs.now)) }
{
    let left = lefts(alloc, types.as_slice())?;
    let right = rights(alloc, types.as_slice())?;
    converted(
        alloc,
        Way::Back,
        left.as_slice(),
        right.as_slice(),
        others.as_slice(),
        pairs.as_slice(),
        base,
    )
}

fn lefts(alloc: Global, types: &[(CoreType, CoreType)]) -> Result<ListOf<CoreType>, NoMemory>
    ensures { IfOk result (λ made. map type_of made ≡ map first_type types.now) }
{
    let mut made = ListOf::new(alloc);
    for (left, _) in types {
        made.push(copy_type(alloc, left)?.into_inner())?;
    }
    Ok(made)
}

fn rights(alloc: Global, types: &[(CoreType, CoreType)]) -> Result<ListOf<CoreType>, NoMemory>
    ensures { IfOk result (λ made. map type_of made ≡ map second_type types.now) }
{
    let mut made = ListOf::new(alloc);
    for (_, right) in types {
        made.push(copy_type(alloc, right)?.into_inner())?;
    }
    Ok(made)
}
