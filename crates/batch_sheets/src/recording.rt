ghost use Rattle.std.specs.Prelude.{◌^◌, ◌<◌, ◌≤◌, All, length, IfOk};
ghost use Rattle.refute_tests.specs.Clearing.{HaveNamesBelow};
ghost use Rattle.batch_sheets.specs.Recorded.{AreLinesOfDay, AreRecorded, IsSheetOfDay};
ghost use Rattle.batch_sheets.specs.declared.days.DayTraces.{DayTraces};

use crate::days::DayTraces;
use day_partitions::DatedSheet;
use mystery_io::Gate;
use std::alloc::{AllocError, Global};
use std::thread::Threads;
use trace_pass::laws::{numbers_are_within, shares_are_whole};
use trace_pass::{Recorder, RecorderFault, WatchLines, offer_all};

/// The watch lines of one day of a batch.
#[derive(Debug, Drop)]
pub struct DayLines {
    /// The day, in days of 86,400 seconds since 1970.
    pub day: u32,
    /// Its lines, by worker and then by how many traces the worker had offered.
    pub lines: WatchLines,
}

/// One day of a batch: its sheet and its watch lines.
#[derive(Drop)]
struct RecordedDay {
    sheet: DatedSheet,
    watched: DayLines,
}

/// The days of a batch.
#[derive(Drop)]
pub struct RecordedDays {
    /// The sheet of each day; days rise.
    pub sheets: Vec<DatedSheet>,
    /// The watch lines of each day.
    pub watched: Vec<DayLines>,
}

/// Records the traces of a day by so many workers, as `offer_all` does.
fn record_day<R: Threads + Sync, G: Gate + Sync>(
    rt: &R,
    alloc: Global,
    names: u32,
    workers: u32,
    every: u32,
    split: DayTraces,
    gate: &G,
) -> Result<RecordedDay, AllocError>
    requires names { names ≤ 512 }
    requires workers { 0 < workers }
    requires below { All (HaveNamesBelow names) split.traces.items }
    requires few { length split.traces.items < 2 ^ 32 }
    ensures sheet { IfOk result (λ r. IsSheetOfDay names split r.sheet) }
    ensures watched { IfOk result (λ r. AreLinesOfDay every workers split r.watched) }
{
    // For the proof alone.
    numbers_are_within();
    shares_are_whole();
    let DayTraces { day, traces } = split;
    let (recorder, recording) = Recorder::open(alloc, names, workers)?;
    let Ok((recording, lines)) = offer_all(rt, &recorder, recording, traces, every, gate) else {
        return Err(AllocError);
    };
    match recorder.close(recording) {
        Ok(sheet) => Ok(RecordedDay {
            sheet: DatedSheet { day, sheet },
            watched: DayLines { day, lines },
        }),
        Err(RecorderFault::Memory { .. }) => Err(AllocError),
        Err(RecorderFault::PassesOut { .. }) => unreachable!(),
    }
}

/// Records the traces of each day by so many workers, with a watch number after every so many of a
/// worker's traces; 0 for none. The only error is out of memory.
pub fn record_days<R: Threads + Sync, G: Gate + Sync>(
    rt: &R,
    alloc: Global,
    names: u32,
    workers: u32,
    every: u32,
    split: Vec<DayTraces>,
    gate: &G,
) -> Result<RecordedDays, AllocError>
    requires names { names ≤ 512 }
    requires workers { 0 < workers }
    requires below { All (λ (s : DayTraces). All (HaveNamesBelow names) s.traces.items)
        split.items }
    requires few { All (λ (s : DayTraces). length s.traces.items < 2 ^ 32) split.items }
    ensures { IfOk result (λ r. AreRecorded names every workers split.items r.sheets.items
        r.watched.items) }
{
    let mut sheets = Vec::with_capacity(alloc, split.len())?;
    let mut watched = Vec::with_capacity(alloc, split.len())?;
    for traces in split {
        let recorded = record_day(rt, alloc, names, workers, every, traces, gate)?;
        sheets.push(recorded.sheet)?;
        watched.push(recorded.watched)?;
    }
    Ok(RecordedDays { sheets, watched })
}
