ghost use Rattle.std.specs.Prelude.{◌≡◌, IfOk};

use std::alloc::{AllocError, Global};

/// Copies marks. The only error is out of memory.
pub(crate) fn copy_marks(alloc: Global, marks: &[u8]) -> Result<Vec<u8>, AllocError>
    ensures { IfOk result (λ copy. copy.items ≡ marks.now) }
{
    let mut copy = Vec::with_capacity(alloc, marks.len())?;
    copy.extend_from_slice(marks)?;
    Ok(copy)
}
