//! When one run keeps what another shows, and how such a law is proved; what core has shown stays.
#![tactic(auto)]

mod laws;

pub use laws::{core_goes_on, keeping_laws, reaching_laws};
