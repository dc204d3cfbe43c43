ghost use Rattle.std.specs.Prelude.{◌≡◌, ◌≢◌, ◌<◌, ◌++◌, ◌∷◌, [], ℕ, List, All, AllPairs, Contains};
ghost use Rattle.std.specs.Prelude.{length, map, slice_index_or, IfOk, IfSome, IfNone, OnOk};
ghost use Rattle.std.specs.List.Sorted.{IsNonDecreasingBy};
ghost use Rattle.std.specs.Ordering.{nat_cmp};
ghost use Rattle.trace_types.specs.Listing.{ListsExactly};
ghost use Rattle.trace_types.specs.declared.named_trace.NamedTrace.{NamedTrace};
ghost use Rattle.batch_sheets.specs.Splitting.{AreSplit, AreSplitSoFar, named_day, split_day};
ghost use Rattle.batch_sheets.specs.declared.days.DayTraces.{DayTraces};

use std::alloc::{AllocError, Global};
use trace_types::NamedTrace;

/// The traces of one day of a batch, in their order.
#[derive(Debug, Drop)]
pub struct DayTraces {
    /// The day, in days of 86,400 seconds since 1970.
    pub day: u32,
    /// Its traces.
    pub traces: Vec<NamedTrace>,
}

/// Lists the different days of traces, rising.
pub fn list_days(alloc: Global, traces: &[NamedTrace]) -> Result<Vec<u32>, AllocError>
    ensures { IfOk result
        (λ days. ListsExactly nat_cmp (Contains (map named_day traces.now)) days.items) }
{
    let mut days = Vec::with_capacity(alloc, traces.len())?;
    for trace in traces {
        days.push(trace.day)?;
    }
    days.sort_unstable();
    days.dedup();
    Ok(days)
}

/// Makes a list of no traces for each day.
fn no_traces(alloc: Global, days: &[u32]) -> Result<Vec<DayTraces>, AllocError>
    ensures { IfOk result (λ split. AreSplitSoFar days.now [] split.items) }
{
    let mut split = Vec::with_capacity(alloc, days.len())?;
    for day in days {
        split.push(DayTraces {
            day: *day,
            traces: Vec::new(alloc),
        })?;
    }
    Ok(split)
}

/// Finds the list of a day, where the days of the lists rise.
fn find_day(split: &[DayTraces], day: u32) -> Option<usize>
    requires { IsNonDecreasingBy split_day split.now }
    ensures some { IfSome result (λ place. (place < length split.now)
        × ((d : DayTraces) → (slice_index_or split.now place d).day ≡ day)) }
    ensures none { IfNone result (All (λ (s : DayTraces). s.day ≢ day) split.now) }
{
    split.binary_search_by_key(&day, |list| list.day).ok()
}

/// Appends a trace to those of its day, where the days of the lists rise.
fn put_trace(split: &mut Vec<DayTraces>, trace: NamedTrace) -> Result<(), AllocError>
    requires rising { IsNonDecreasingBy split_day split.old.items }
    requires listed { Contains (map split_day split.old.items) trace.day }
    ensures { OnOk result ((days : List ℕ) (named : List NamedTrace) → AllPairs (λ x y. x ≢ y) days
        → AreSplitSoFar days named split.old.items
        → AreSplitSoFar days (named ++ trace ∷ []) split.new.items) }
{
    let Some(place) = find_day(split, trace.day) else {
        unreachable!();
    };
    split[place].traces.push(trace)?;
    Ok(())
}

/// Makes one list of traces that all are of this day. No trace is moved.
fn keep_one_day(
    alloc: Global,
    named: Vec<NamedTrace>,
    day: u32,
) -> Result<Vec<DayTraces>, AllocError>
    requires { All (λ (t : NamedTrace). t.day ≡ day) named.items }
    ensures { IfOk result (λ split. AreSplitSoFar (day ∷ []) named.items split.items) }
{
    let traces = named;
    Ok(vec![in alloc; DayTraces { day, traces }]?)
}

/// Splits traces by their days, of which these are all, rising. The traces of a day stay in their
/// order. The only error is out of memory.
pub fn split_by_day(
    alloc: Global,
    named: Vec<NamedTrace>,
    days: &[u32],
) -> Result<Vec<DayTraces>, AllocError>
    requires { ListsExactly nat_cmp (Contains (map named_day named.items)) days.now }
    ensures { IfOk result (λ split. AreSplit days.now named.items split.items) }
{
    if days.len() == 1 {
        let split = keep_one_day(alloc, named, days[0])?;
        return Ok(split);
    }
    let mut split = no_traces(alloc, days)?;
    for trace in named {
        put_trace(&mut split, trace)?;
    }
    Ok(split)
}
