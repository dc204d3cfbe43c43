use crate::ByteList;
use trace_types::Text;

/// A file in memory.
#[derive(Debug, Drop)]
pub struct MemFile {
    /// Its name. If several files of a list share a name, the first is used.
    pub name: Text,
    /// Its content.
    pub bytes: ByteList,
}
