//! Trees of a whole program with each name resolved: what it stands for in place of how it is written. The marks of the
//! grammar are left out, since no phase behind the parser reads them, and so are headers, exports and imports, which
//! linking has read by then.
#![tactic(auto)]

mod expressions;
mod lists;
mod names;
mod patterns;
mod tops;
mod types;

pub use expressions::{
    Aexp, Alt, Decl, Exp, Guard, Locals, NextOperand, Open, Operand, Operands, Redef, Rhs,
};
pub use lists::{add, backwards};
pub use names::{FixityWord, GenCon, Occurrence, Referent};
pub use patterns::{ArgPattern, FunLhs, NextPattern, PatOperand, Pattern};
pub use tops::{Constr, Dep, GenVars, Resolved, ResolvedModule, Top};
pub use types::{ArgType, BType, TypeExpr};
