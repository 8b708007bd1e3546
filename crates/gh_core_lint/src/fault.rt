// The answer of the check of a program.
ghost use Rattle.std.specs.Prelude.{IfOk};
ghost use Rattle.gh_core_lint.specs.Reports.{Reports};

use crate::rules::Stop;
use crate::written::{narrow, written};
use gh_base::NoMemory;
use gh_core::CoreType;
use std::alloc::Global;

/// Why a program is not typed: its first fault. Definitions are counted from 0 in their order, and `main` comes after the
/// last. The nodes of a definition are its terms, counted from 0, each after its parts and the parts from left to right.
#[derive(Drop)]
pub enum LintFault {
    /// Two types should be equal and differ.
    Clash {
        /// The number of the definition.
        def: u32,
        /// The number of the node.
        node: u32,
        /// The type that is asked, the variables of the type functions round the node being their levels.
        wanted: CoreType,
        /// The type of the part.
        found: CoreType,
    },
    /// Another rule does not hold. A fault of the datatypes and a doubled name are at definition 0 and node 0.
    Broken {
        /// The number of the definition.
        def: u32,
        /// The number of the node.
        node: u32,
    },
    /// There was no memory, or a number was none of 32 bits.
    NoMemory,
}

impl From<NoMemory> for LintFault {
    ghost use Rattle.std.specs.Prelude.{◌≡◌};
    ghost use Rattle.gh_core_lint.specs.declared.fault.LintFault.TheVariants as answer;

    ghost from_gives = { λ _ e. e ≡ answer.NoMemory };

    fn from(_: NoMemory) -> LintFault {
        LintFault::NoMemory
    }
}

fn report_all(alloc: Global, def: usize, stop: &Stop) -> Result<LintFault, NoMemory>
    ensures { IfOk result (λ made. Reports def stop.now made) }
{
    let def = narrow(def)?;
    match stop {
        Stop::Broken(node) => Ok(LintFault::Broken { def, node: *node }),
        Stop::Clash(node, wanted, found) => {
            let wanted = written(alloc, wanted)?;
            let found = written(alloc, found)?;
            Ok(LintFault::Clash {
                def,
                node: *node,
                wanted,
                found,
            })
        }
        Stop::NoMemory => Err(NoMemory),
    }
}

/// The fault of a stop in a definition.
pub fn report(alloc: Global, def: usize, stop: &Stop) -> LintFault
    ensures { Reports def stop.now result }
{
    match report_all(alloc, def, stop) {
        Ok(fault) => fault,
        Err(_) => LintFault::NoMemory,
    }
}
