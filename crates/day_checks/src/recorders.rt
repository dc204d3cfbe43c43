//! A recorder's whole story: traces are offered to a `Recorder`, it is closed, and the sheet of the
//! day is rolled into a shared book.
ghost use Rattle.std.specs.Prelude.{◌≡◌, ◌<◌, [], ◌∷◌, IfSome};
ghost use Rattle.refute_tests.specs.Clearing.{HaveNamesBelow};
ghost use Rattle.day_partitions.specs.Books.{IsSheetOf};
ghost use Rattle.live_journal.specs.declared.entry.Entry.TheVariants.{Rolled};
ghost use Rattle.live_book.specs.Callers.{AddsEntry, IsOfBook};

use crate::callers::{ask_last, read_two};
use crate::traces::{BOTH, trace_of};
use live_book::{Caller, LiveBook};
use pipeline_tests::DaySheet;
use std::alloc::Global;
use std::sync::Wait;
use std::test::Fail;
use trace_pass::Recorder;
use trace_types::NamedTrace;

/// Offers a trace to a recorder of its own and closes it. Gives nothing where memory ran out.
fn record(alloc: Global, trace: NamedTrace) -> Option<DaySheet>
    requires { HaveNamesBelow 2 trace }
    ensures sheet { IfSome result (λ d. IsSheetOf 2 trace.day d) }
    ensures traces { IfSome result (λ d. d.traces ≡ trace ∷ []) }
{
    let Ok((recorder, mut recording)) = Recorder::open(alloc, 2, 1) else {
        return None;
    };
    let Ok(()) = recorder.offer(&mut recording, trace) else {
        return None;
    };
    match recorder.close(recording) {
        Ok(sheet) => Some(sheet),
        Err(_) => None,
    }
}

/// Records a trace and rolls its day's sheet into the book: the new entry has exactly this trace.
/// It answers the entry's position, or nothing where memory ran out.
fn record_and_roll<R: Wait>(
    rt: &R,
    alloc: Global,
    book: &LiveBook,
    caller: &mut Caller,
    trace: NamedTrace,
) -> Option<u32>
    requires names { book.now.names ≡ 2 }
    requires of { IsOfBook book.now caller.old }
    requires turn { 0 < caller.old.turns }
    requires below { HaveNamesBelow 2 trace }
    ensures of { IsOfBook book.now caller.new }
    ensures rolled { IfSome result
        (λ _. AddsEntry (Rolled trace.day (trace ∷ [])) caller.old caller.new) }
{
    let day = trace.day;
    let Some(sheet) = record(alloc, trace) else {
        return None;
    };
    match book.roll(rt, caller, day, sheet) {
        Ok(position) => Some(position),
        Err(_) => None,
    }
}

/// Records a trace of the day and rolls it, where a turn is left.
fn record_day<R: Wait>(
    rt: &R,
    alloc: Global,
    book: &LiveBook,
    caller: &mut Caller,
    day: u32,
    touching: bool,
) -> Option<u32>
    requires names { book.now.names ≡ 2 }
    requires of { IsOfBook book.now caller.old }
    ensures of { IsOfBook book.now caller.new }
{
    let Ok(trace) = trace_of(alloc, day, touching) else {
        return None;
    };
    if caller.turns() == 0 {
        return None;
    }
    record_and_roll(rt, alloc, book, caller, trace)
}

#[test]
fn recorded_days_are_rolled_and_asked_for(rt: HostRuntime) -> Result<(), Fail> {
    let alloc = rt.alloc();
    let (book, mut caller) = LiveBook::open(alloc, 2, 4)?;
    assert_eq!(rt;
        record_day(&rt, alloc, &book, &mut caller, 3, true),
        Some(0)
    );
    assert_eq!(rt;
        record_day(&rt, alloc, &book, &mut caller, 5, false),
        Some(1)
    );
    assert_eq!(rt; ask_last(&rt, alloc, &book, &mut caller), Some(BOTH));
    let rows = read_two(&rt, &book, &mut caller, 0);
    assert_eq!(rt; rows, Some((('r', 3, 1), ('r', 5, 1))));
    Ok(())
}
