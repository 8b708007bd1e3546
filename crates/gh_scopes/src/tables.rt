// What is found under a name.
use gh_base::Origin;

/// What entries have for a use.
#[derive(Clone, Copy)]
pub struct Found {
    // The first origin.
    pub origin: Origin,
    // Whether another entry serves the use too.
    pub many: bool,
}
