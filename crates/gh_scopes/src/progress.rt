// What is known while the files are linked.
use crate::by_file::ByFile;
use crate::table::Table;
use crate::types::Scope;
use gh_base::Refusal;

/// The exports and the scopes of the files so far, and the first fault of an export list.
#[derive(Drop)]
pub struct Progress {
    pub exports: ByFile<Table>,
    pub scopes: ByFile<Scope>,
    pub fault: Option<Refusal>,
}
