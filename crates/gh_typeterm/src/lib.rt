//! Type terms, kinds and declarations, and folds over type terms.
#![tactic(auto)]

mod decl;
mod kind;
mod shared;
mod store;
mod terms;
mod ty;
mod walking;

pub use decl::{DeclCon, DeclData, copy_decl, share_terms};
pub use kind::{Kind, copy_kind, same_kind};
pub use shared::Shared;
pub use store::TyStore;
pub use terms::{same, size, substitute};
pub use ty::{Ty, TyNode};
pub use walking::{TypeWalk, walk};
