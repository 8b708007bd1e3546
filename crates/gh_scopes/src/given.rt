// What a list of exports gives.
use crate::table::Table;
use gh_base::Refusal;

/// The exports of a module, and the first fault of its list.
#[derive(Drop)]
pub struct Given {
    pub entries: Table,
    pub fault: Option<Refusal>,
}
