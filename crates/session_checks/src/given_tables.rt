//! Digests that are given to sessions, as tables.
ghost use Rattle.std.specs.Prelude.{IfOk};
ghost use Rattle.digest_merging.specs.Merges.{IsGivenTable};

use digest_laws::laws::what_is_read_gives_a_digest;
use digest_merging::merge_all;
use digest_reading::read_digests;
use digest_text::DigestTable;
use std::alloc::{AllocError, Global};

/// Makes the table of the digest of no trace.
pub(crate) fn nothing_given(alloc: Global) -> Result<DigestTable, AllocError>
    ensures { IfOk result IsGivenTable }
{
    let Ok(table) = merge_all(alloc, &[]) else {
        return Err(AllocError);
    };
    Ok(table)
}

/// Makes the table of the digest that a text says. A text that says none is an error too.
pub(crate) fn table_of_text(alloc: Global, text: &[u8]) -> Result<DigestTable, AllocError>
    ensures { IfOk result IsGivenTable }
{
    if text.len() > 67_108_864 {
        return Err(AllocError);
    }
    // For the proof alone.
    what_is_read_gives_a_digest();
    let Ok(tables) = read_digests(alloc, text) else {
        return Err(AllocError);
    };
    let Ok(table) = merge_all(alloc, &tables) else {
        return Err(AllocError);
    };
    Ok(table)
}
