ghost use Rattle.std.specs.Prelude.{◌≡◌, IfOk, map, take};
ghost use Rattle.certificates.specs.Claims.{line_fields};

use std::alloc::{AllocError, Global};

/// One more than the fields of the longest line.
const FIELDS: usize = 6;

/// Cuts a line at its tabs, into at most 6 fields, one more than any line of the form has. The only
/// error is out of memory.
pub(crate) fn first_fields(alloc: Global, line: &[u8]) -> Result<Vec<&[u8]>, AllocError>
    ensures { IfOk result (λ fields.
        map (λ f. f.now) fields.items ≡ take 6 (line_fields line.now)) }
{
    line.split(|byte| *byte == b'\t')
        .take(FIELDS)
        .collect(alloc)
}
