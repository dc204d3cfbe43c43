ghost use Rattle.std.specs.Prelude.{◌≡◌, ◌<◌, ◌++◌, ◌∷◌, [], ℕ, List, IfErr, OnErr, OnOk, codes, decimal};
ghost use Rattle.output_files.specs.Written.{WrittenFile};
ghost use Rattle.line_split.specs.inner.Pending.{BeginsFiles, IsOver, TellsFiles, added, buffer_count};
ghost use Rattle.line_split.specs.inner.Steps.{IsStoreFault, write_faults};

use crate::SplitFault;
use crate::pending::{Pending, flush_full};
use itoa::Buffer;
use mystery_io::Failed;
use output_files::OutputFiles;
use std::alloc::AllocError;

/// Appends a line, and a line feed.
fn push_line(buffer: &mut Vec<u8>, line: &[u8]) -> Result<(), AllocError>
    ensures { OnOk result (buffer.new.items ≡ buffer.old.items ++ (line.now ++ 10 ∷ [])) }
{
    buffer.extend_from_slice(line)?;
    buffer.push(b'\n')?;
    Ok(())
}

/// Appends a row of the origins: the number of a file, from 1, and of a line.
fn push_origin(buffer: &mut Vec<u8>, file: u64, number: u64) -> Result<(), AllocError>
    ensures { OnOk result (buffer.new.items ≡ buffer.old.items
        ++ (decimal file ++ codes "\t" ++ decimal number ++ codes "\n")) }
{
    let mut digits = Buffer::new();
    buffer.extend_from_slice(digits.format(file).as_bytes())?;
    buffer.extend_from_slice(b"\t")?;
    buffer.extend_from_slice(digits.format(number).as_bytes())?;
    buffer.extend_from_slice(b"\n")
}

/// Appends a line to the file with this index.
pub(crate) fn put_line<P: OutputFiles>(
    files: &mut P,
    pending: &mut Pending,
    index: usize,
    line: &[u8],
) -> Result<(), SplitFault>
    requires over { IsOver (P.written files.old) pending.old }
    requires within { index < buffer_count pending.old }
    ensures over { OnOk result (IsOver (P.written files.new) pending.new) }
    ensures many { OnOk result (buffer_count pending.new ≡ buffer_count pending.old) }
    ensures told { OnOk result ((count : ℕ) (before : List WrittenFile) (all : ℕ → WrittenFile)
        → TellsFiles count before all (P.written files.old) pending.old
        → TellsFiles count before (added all index (line.now ++ 10 ∷ [])) (P.written files.new)
        pending.new) }
    ensures begun { OnErr result ((count : ℕ) (before : List WrittenFile) (all : ℕ → WrittenFile)
        → TellsFiles count before all (P.written files.old) pending.old
        → BeginsFiles count before (added all index (line.now ++ 10 ∷ [])) (P.written files.new)) }
    ensures stored { IfErr result IsStoreFault }
    ensures counted { P.faults files.new ≡ write_faults result (P.faults files.old) }
{
    push_line(&mut pending.buffers[index], line)?;
    match flush_full(files, pending, index) {
        Ok(()) => Ok(()),
        Err(Failed) => Err(SplitFault::Write),
    }
}

/// Appends a row of the origins to the file with this index.
pub(crate) fn put_origin<P: OutputFiles>(
    files: &mut P,
    pending: &mut Pending,
    index: usize,
    file: u64,
    number: u64,
) -> Result<(), SplitFault>
    requires over { IsOver (P.written files.old) pending.old }
    requires within { index < buffer_count pending.old }
    ensures over { OnOk result (IsOver (P.written files.new) pending.new) }
    ensures many { OnOk result (buffer_count pending.new ≡ buffer_count pending.old) }
    ensures told { OnOk result ((count : ℕ) (before : List WrittenFile) (all : ℕ → WrittenFile)
        → TellsFiles count before all (P.written files.old) pending.old
        → TellsFiles count before
        (added all index (decimal file ++ codes "\t" ++ decimal number ++ codes "\n"))
        (P.written files.new) pending.new) }
    ensures begun { OnErr result ((count : ℕ) (before : List WrittenFile) (all : ℕ → WrittenFile)
        → TellsFiles count before all (P.written files.old) pending.old
        → BeginsFiles count before
        (added all index (decimal file ++ codes "\t" ++ decimal number ++ codes "\n"))
        (P.written files.new)) }
    ensures stored { IfErr result IsStoreFault }
    ensures counted { P.faults files.new ≡ write_faults result (P.faults files.old) }
{
    push_origin(&mut pending.buffers[index], file, number)?;
    match flush_full(files, pending, index) {
        Ok(()) => Ok(()),
        Err(Failed) => Err(SplitFault::Write),
    }
}
