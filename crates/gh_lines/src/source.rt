// Files with their names.
use gh_base::Bytes;

/// A file of the program: its name as the words give it, and its bytes.
#[derive(Debug, Drop)]
pub struct Source {
    pub name: Bytes,
    pub bytes: Bytes,
}
