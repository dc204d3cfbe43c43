ghost use Rattle.std.specs.Prelude.{◌≡◌, ◌+◌, ◌≤◌, ◌<◌, ◌^◌, [], All, IfOk, IfErr, List, OnOk, Some};
ghost use Rattle.std.specs.Prelude.{length, slice_get, ℕ};
ghost use Rattle.event_lines.specs.GoodLines.{IsTimely};
ghost use Rattle.event_lines.specs.LineParts.{lines_of_runs};
ghost use Rattle.mystery_io.specs.Counts.{counted_up};
ghost use Rattle.mystery_io.specs.Input.{input_limit};
ghost use Rattle.mystery_io.specs.ReadFaults.{files_seen};
ghost use Rattle.mystery_io.specs.Readings.{OnlyGrow, new_readings};
ghost use Rattle.inspect_run.specs.Endings.{IsQuality, ReadsAll, StopsReading};
ghost use Rattle.inspect_run.specs.inner.InputReadings.{ReadsOne, StopsAt, read_faults};
ghost use Rattle.inspect_run.specs.inner.Leaving.{IsText};

use crate::Outcome;
use event_lines::LineRun;
use line_quality::{Findings, judge_lines};
use mystery_io::Files;
use std::alloc::Global;
use std::thread::Threads;
use trace_types::Text;
use whole_files::{FileReadFault, read_file};

/// The most bytes that the files may have together.
const MAX_INPUT: usize = 67_108_864;

/// The lines of files, and what was found of bad ones.
#[derive(Drop)]
pub(crate) struct Judged {
    pub(crate) runs: Vec<LineRun>,
    pub(crate) findings: Findings,
}

impl Judged {
    /// Makes what no line leaves.
    fn new(alloc: Global) -> Judged
        ensures lines { lines_of_runs result.runs.items ≡ [] }
        ensures first { result.findings.first.items ≡ [] }
        ensures reasons { result.findings.reasons.items ≡ [] }
    {
        Judged {
            runs: Vec::new(alloc),
            findings: Findings {
                first: Vec::new(alloc),
                reasons: Vec::new(alloc),
            },
        }
    }
}

/// Reads the file with this index, after so many bytes of others, and judges its lines. The result
/// is how many bytes there are then.
fn read_one<R: Threads + Sync, F: Files>(
    rt: &R,
    alloc: Global,
    files: &mut F,
    name: &str,
    index: u32,
    size: usize,
    judged: &mut Judged,
) -> Result<usize, Outcome>
    requires { size ≤ input_limit }
    ensures opens { F.opens files.new ≡ counted_up (F.opens files.old) }
    ensures tallied { F.faults files.new ≡ read_faults result (F.faults files.old) }
    ensures reads { IfOk result (λ next. ReadsOne index name.now size next
        (lines_of_runs judged.old.runs.items) (lines_of_runs judged.new.runs.items)
        judged.old.findings judged.new.findings (F.given files.old) (F.given files.new)) }
    ensures cause { IfErr result (StopsAt index size name.now (F.given files.old)
        (F.given files.new)) }
{
    match read_file(alloc, files, name, MAX_INPUT - size) {
        Err(FileReadFault::Memory) => Err(Outcome::Memory),
        Err(FileReadFault::Failed) => Err(Outcome::File { index }),
        Err(FileReadFault::TooBig) => Err(Outcome::Size),
        Ok(bytes) => {
            judge_lines(
                rt,
                alloc,
                index,
                &bytes,
                &mut judged.findings,
                &mut judged.runs,
            )?;
            Ok(size + bytes.len())
        }
    }
}

/// Gives the name with this index.
fn name_at(words: &[Text], index: usize) -> &str
    requires { index < length words.now }
    ensures { slice_get words.now index ≡ Some result.now }
{
    words[index].as_str()
}

/// Reads the files of these names, one after another, and judges their lines; or tells how the run
/// ends before that: out of memory, at a file that could not be read, or at the byte that passes the
/// limit.
pub(crate) fn read_input<R: Threads + Sync, F: Files>(
    rt: &R,
    alloc: Global,
    files: &mut F,
    words: &[Text],
) -> Result<Judged, Outcome>
    requires { length words.now < 2 ^ 30 }
    ensures read { OnOk result (ReadsAll (files_seen F.given F.opens files.old files.new) words.now) }
    ensures told { IfOk result (λ j. (text : List ℕ)
        → IsText words.now (lines_of_runs j.runs.items) j.findings text
        → IsQuality words.now (new_readings (F.given files.old) (F.given files.new)) text) }
    ensures timely { IfOk result (λ j. All IsTimely (lines_of_runs j.runs.items)) }
    ensures few { IfOk result (λ j.
        length (lines_of_runs j.runs.items) + length j.findings.reasons.items < 2 ^ 31) }
    ensures cause { IfErr result (λ outcome. StopsReading outcome
        (files_seen F.given F.opens files.old files.new) words.now) }
    ensures tallied { F.faults files.new ≡ read_faults result (F.faults files.old) }
    ensures grows { OnlyGrow (F.given files.old) (F.given files.new) }
{
    let mut judged = Judged::new(alloc);
    let mut size = 0usize;
    for index in 0..words.len() {
        let name = name_at(words, index);
        size = read_one(rt, alloc, files, name, index as u32, size, &mut judged)?;
    }
    Ok(judged)
}
