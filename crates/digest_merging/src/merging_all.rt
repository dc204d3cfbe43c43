ghost use Rattle.std.specs.Prelude.{◌≡◌, List, ℕ, None, IfErr, IfOk};
ghost use Rattle.trace_types.specs.Segments.{SegmentName};
ghost use Rattle.digest_facts.specs.Digests.{Digest, empty_digest};
ghost use Rattle.digest_merging.specs.Limits.{limit_passed};
ghost use Rattle.digest_merging.specs.Merges.{IsFaultOfAll, IsGivenBy, IsMergeOfAll, IsOutOfMemory};
ghost use Rattle.digest_merging.specs.Merges.{IsTableOf};

use crate::MergeFault;
use crate::limits::check_limits;
use crate::merging::merge_digests;
use digest_text::DigestTable;
use std::alloc::Global;

/// Makes the table of the digest of no trace. It takes no memory.
fn empty_table(alloc: Global) -> DigestTable
    ensures { IsTableOf empty_digest result }
{
    DigestTable {
        traces: 0,
        days: Vec::new(alloc),
        tasks: Vec::new(alloc),
        names: Vec::new(alloc),
    }
}

/// Merges the digests of all tables: those of the one half, those of the other, and both merges, so
/// that each digest is copied once for each halving. Where all of them pass no limit, the only error
/// is out of memory; a limit that a part passes may be another one than that of all.
fn merge_halves(alloc: Global, tables: &[DigestTable]) -> Result<DigestTable, MergeFault>
    ensures merge { IfOk result (IsMergeOfAll tables.now) }
    ensures fault { IfErr result (λ e. (given : Digest SegmentName (List ℕ))
        → IsGivenBy tables.now given → limit_passed given ≡ None → IsOutOfMemory e) }
{
    match tables {
        [] => Ok(empty_table(alloc)),
        [one] => merge_digests(alloc, one, &empty_table(alloc)),
        [first, second] => merge_digests(alloc, first, second),
        _ => {
            let (left, right) = tables.split_at(tables.len() / 2);
            let left = merge_halves(alloc, left)?;
            let right = merge_halves(alloc, right)?;
            merge_digests(alloc, &left, &right)
        }
    }
}

/// Merges the digests of all tables: the table of the digest of the traces of all; of no table that
/// of no trace. The errors are `Memory`, and `Limit` where the merged digest has more than 512
/// names, 64 tasks or 18,446,744,073,709,551,615 traces, with the first of these.
pub fn merge_all(alloc: Global, tables: &[DigestTable]) -> Result<DigestTable, MergeFault>
    ensures merge { IfOk result (IsMergeOfAll tables.now) }
    ensures fault { IfErr result (IsFaultOfAll tables.now) }
{
    match merge_halves(alloc, tables) {
        Ok(table) => Ok(table),
        Err(fault) => {
            check_limits(alloc, tables)?;
            Err(fault)
        }
    }
}
