// The type of a generic function at a kind.
ghost use Rattle.std.specs.Prelude.{◌≡◌, map, IfOk, option_copied};
ghost use Rattle.gh_core.specs.Typing.{type_of};
ghost use Rattle.gh_kind_index.specs.KindIndex.{function_of, indexed, kind_type};

use crate::above::{above_all, raised};
use crate::base::base_type;
use crate::binders::{arrow, each_applied, quantified, variables};
use gh_base::{ListOf, NoMemory, Origin};
use gh_core::CoreType;
use gh_kernel::GenFun;
use gh_typeterm::Kind;
use sqlite_items::Boxed;
use std::alloc::Global;

/// The kind-indexed type of a generic function at types of a kind (Hinze, Polytypic Values Possess Polykinded Types): at
/// the kind of values its base type; at `k -> l`, for all types of kind `k`, one for each generic variable, from what each
/// dependency is at them, in order, to what the function is at the types applied to them. The non-generic variables are
/// quantified outermost, once. `functions` has the dependencies, and `types` one type for each generic variable.
pub fn kind_indexed(
    alloc: Global,
    function: &GenFun,
    functions: &ListOf<GenFun>,
    kind: &Kind,
    types: &ListOf<CoreType>,
) -> Result<CoreType, NoMemory>
    ensures { IfOk result (λ made. type_of made ≡ kind_type functions.now function.now kind.now (map type_of types.now)) }
{
    let level = above_all(types.as_slice())?;
    let count = function.other.as_slice().len();
    let inside = raised(level, count)?;
    let others = variables(alloc, level, count)?;
    let made = indexed(
        alloc,
        functions.as_slice(),
        others.as_slice(),
        function,
        kind,
        inside,
        types.as_slice(),
    )?;
    let made = quantified(alloc, &Kind::Star, level, count, made)?;
    Ok(made.into_inner())
}

// The type at a kind, its new variables having the numbers from `level` on.
fn indexed(
    alloc: Global,
    functions: &[GenFun],
    others: &[CoreType],
    function: &GenFun,
    kind: &Kind,
    level: u32,
    types: &[CoreType],
) -> Result<Boxed<CoreType>, NoMemory>
    ensures { IfOk result (λ made. type_of made ≡ indexed functions.now (map type_of others.now) kind.now function.now level (map type_of types.now)) }
{
    match kind {
        Kind::Star => base_type(alloc, &function.base, types, others),
        Kind::Arrow(from, to) => {
            let count = types.len();
            let inside = raised(level, count)?;
            let arguments = variables(alloc, level, count)?;
            let given = arguments.as_slice();
            let at = each_applied(alloc, types, level)?;
            let mut made = indexed(
                alloc,
                functions,
                others,
                function,
                to.get(),
                inside,
                at.as_slice(),
            )?;
            let dependencies = function.dependencies.as_slice();
            for i in (0..dependencies.len()).rev() {
                if let Some(needed) = function_of(functions, dependencies[i].function) {
                    let part = indexed(
                        alloc,
                        functions,
                        others,
                        needed,
                        from.get(),
                        inside,
                        given,
                    )?;
                    made = arrow(alloc, part, made)?;
                }
            }
            quantified(alloc, from.get(), level, count, made)
        }
    }
}

// The first function of this name.
fn function_of<'a>(functions: &'a [GenFun], name: Origin) -> Option<&'a GenFun>
    ensures { option_copied result ≡ function_of functions.now name }
{
    for function in functions {
        if function.origin == name {
            return Some(function);
        }
    }
    None
}
