//! Terms of core that convert: between a datatype and its structural representation, and at base types.
#![tactic(auto)]

mod arrows;
mod at_base;
mod bimap;
mod copies;
mod into;
mod out_of;
mod pairs;
mod params;
mod select;
mod terms;
mod types;
mod ways;

pub use at_base::adapter;
pub use bimap::bimap_term;
pub use into::from_term;
pub use out_of::to_term;
