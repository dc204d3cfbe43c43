ghost use Rattle.std.specs.Prelude.{◌≡◌, ◌<◌, ◌≤◌, ◌+◌, List, IfErr, IfOk, OnErr, OnOk, []};
ghost use Rattle.output_files.specs.Written.{WrittenFile, after_create};
ghost use Rattle.line_split.specs.inner.Calls.{call_of_line};
ghost use Rattle.line_split.specs.inner.Pending.{IsBegun, Tells, TellsFiles};
ghost use Rattle.line_split.specs.inner.Steps.{Fits, IsStoreFault, write_faults};
ghost use Rattle.line_split.specs.Parts.{made_name, part_file};

use crate::SplitFault;
use crate::command_line::CommandLine;
use crate::names::{beginning_of, name_of};
use crate::pending::Pending;
use output_files::{CreateFault, OutputFiles};
use std::alloc::Global;

/// Makes the file with this index.
fn create<P: OutputFiles>(
    alloc: Global,
    files: &mut P,
    call: CommandLine<'_>,
    index: u32,
) -> Result<(), SplitFault>
    requires most { call.parts ≤ 256 }
    requires within { index < call.parts + call.parts }
    ensures made { OnOk result (P.written files.new
        ≡ after_create (P.written files.old) (made_name (call_of_line call.entry) index)) }
    ensures stays { OnErr result (P.written files.new ≡ P.written files.old) }
    ensures stored { IfErr result IsStoreFault }
    ensures counted { P.faults files.new ≡ write_faults result (P.faults files.old) }
{
    let name = name_of(alloc, call, index)?;
    match files.create(&name) {
        Ok(()) => Ok(()),
        Err(CreateFault::Memory) => Err(SplitFault::Memory),
        Err(CreateFault::Failed) => Err(SplitFault::Write),
    }
}

/// Makes the file with this index, and a buffer with what it begins with.
fn make_file<P: OutputFiles>(
    alloc: Global,
    files: &mut P,
    pending: &mut Pending,
    call: CommandLine<'_>,
    index: u32,
) -> Result<(), SplitFault>
    requires most { call.parts ≤ 256 }
    requires within { index < call.parts + call.parts }
    ensures told { OnOk result ((before : List WrittenFile)
        → TellsFiles index before (part_file (call_of_line call.entry) []) (P.written files.old)
        pending.old
        → TellsFiles (index + 1) before (part_file (call_of_line call.entry) []) (P.written files.new)
        pending.new) }
    ensures begun { OnErr result ((before : List WrittenFile)
        → TellsFiles index before (part_file (call_of_line call.entry) []) (P.written files.old)
        pending.old
        → IsBegun (call_of_line call.entry) before [] (P.written files.new)) }
    ensures stored { IfErr result IsStoreFault }
    ensures counted { P.faults files.new ≡ write_faults result (P.faults files.old) }
{
    let beginning = beginning_of(alloc, call, index)?;
    create(alloc, files, call, index)?;
    pending.buffers.push(beginning)?;
    Ok(())
}

/// Makes all files of a call, with a buffer for each.
pub(crate) fn make_files<P: OutputFiles>(
    alloc: Global,
    files: &mut P,
    call: CommandLine<'_>,
) -> Result<Pending, SplitFault>
    requires most { call.parts ≤ 256 }
    ensures fits { IfOk result (λ pending. Fits (call_of_line call.entry) (P.written files.new) pending) }
    ensures told { IfOk result (λ pending.
        Tells (call_of_line call.entry) (P.written files.old) [] (P.written files.new) pending) }
    ensures begun { OnErr result
        (IsBegun (call_of_line call.entry) (P.written files.old) [] (P.written files.new)) }
    ensures stored { IfErr result IsStoreFault }
    ensures counted { P.faults files.new ≡ write_faults result (P.faults files.old) }
{
    let mut pending = Pending {
        base: files.count(),
        buffers: Vec::new(alloc),
    };
    'files: for index in 0..call.parts + call.parts {
        make_file(alloc, files, &mut pending, call, index)?;
    }
    // The count of all files fits 64 bits, and so does the index of each.
    let _count = files.count();
    Ok(pending)
}
