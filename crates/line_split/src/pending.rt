ghost use Rattle.std.specs.Prelude.{◌≡◌, ◌<◌, [], ℕ, List, IfErr, OnErr, OnOk, slice_set as set};
ghost use Rattle.mystery_io.specs.Counts.{faults_after};
ghost use Rattle.output_files.specs.Written.{WrittenFile};
ghost use Rattle.line_split.specs.inner.Pending.{BeginsFiles, IsOver, TellsFiles, WholeFiles};
ghost use Rattle.line_split.specs.inner.Pending.{buffer_count, buffers_of};
ghost use Rattle.line_split.specs.inner.Steps.{IsStoreFault, read_faults, write_faults};

use crate::SplitFault;
use mystery_io::Failed;
use output_files::{OutputFiles, write_all};

/// Flush a buffer at this size.
const FLUSH_SIZE: usize = 16_384;

/// What is to be written to files that were made one after another: a buffer for each.
#[derive(Drop)]
pub(crate) struct Pending {
    /// How many files were made before them.
    pub(crate) base: usize,
    /// A buffer for each file.
    pub(crate) buffers: Vec<Vec<u8>>,
}

/// Writes a buffer to its file, and empties it.
pub(crate) fn flush<P: OutputFiles>(
    files: &mut P,
    pending: &mut Pending,
    index: usize,
) -> Result<(), Failed>
    requires over { IsOver (P.written files.old) pending.old }
    requires within { index < buffer_count pending.old }
    ensures over { OnOk result (IsOver (P.written files.new) pending.new) }
    ensures many { OnOk result (buffer_count pending.new ≡ buffer_count pending.old) }
    ensures told { OnOk result ((count : ℕ) (before : List WrittenFile) (all : ℕ → WrittenFile)
        → TellsFiles count before all (P.written files.old) pending.old
        → TellsFiles count before all (P.written files.new) pending.new) }
    ensures begun { OnErr result ((count : ℕ) (before : List WrittenFile) (all : ℕ → WrittenFile)
        → TellsFiles count before all (P.written files.old) pending.old
        → BeginsFiles count before all (P.written files.new)) }
    ensures emptied { OnOk result (buffers_of pending.new ≡ set (buffers_of pending.old) index []) }
    ensures counted { P.faults files.new ≡ faults_after result (P.faults files.old) }
{
    write_all(files, pending.base + index, &pending.buffers[index])?;
    pending.buffers[index].clear();
    Ok(())
}

/// Flushes a buffer where it is full.
pub(crate) fn flush_full<P: OutputFiles>(
    files: &mut P,
    pending: &mut Pending,
    index: usize,
) -> Result<(), Failed>
    requires over { IsOver (P.written files.old) pending.old }
    requires within { index < buffer_count pending.old }
    ensures over { OnOk result (IsOver (P.written files.new) pending.new) }
    ensures many { OnOk result (buffer_count pending.new ≡ buffer_count pending.old) }
    ensures told { OnOk result ((count : ℕ) (before : List WrittenFile) (all : ℕ → WrittenFile)
        → TellsFiles count before all (P.written files.old) pending.old
        → TellsFiles count before all (P.written files.new) pending.new) }
    ensures begun { OnErr result ((count : ℕ) (before : List WrittenFile) (all : ℕ → WrittenFile)
        → TellsFiles count before all (P.written files.old) pending.old
        → BeginsFiles count before all (P.written files.new)) }
    ensures counted { P.faults files.new ≡ faults_after result (P.faults files.old) }
{
    if pending.buffers[index].len() < FLUSH_SIZE {
        return Ok(());
    }
    flush(files, pending, index)
}

/// Writes all buffers to their files.
pub(crate) fn flush_all<P: OutputFiles>(
    files: &mut P,
    pending: &mut Pending,
) -> Result<(), SplitFault>
    requires { IsOver (P.written files.old) pending.old }
    ensures whole { OnOk result ((count : ℕ) (before : List WrittenFile) (all : ℕ → WrittenFile)
        → TellsFiles count before all (P.written files.old) pending.old
        → WholeFiles count before all (P.written files.new)) }
    ensures begun { OnErr result ((count : ℕ) (before : List WrittenFile) (all : ℕ → WrittenFile)
        → TellsFiles count before all (P.written files.old) pending.old
        → BeginsFiles count before all (P.written files.new)) }
    ensures stored { IfErr result IsStoreFault }
    ensures counted { P.faults files.new ≡ write_faults result (P.faults files.old) }
    ensures unread { (count : ℕ) → read_faults result count ≡ count }
{
    'buffers: for index in 0..pending.buffers.len() {
        let Ok(()) = flush(files, pending, index) else {
            return Err(SplitFault::Write);
        };
    }
    Ok(())
}
