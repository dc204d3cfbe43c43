ghost use Rattle.std.specs.Prelude.{◌≡◌, ◌+◌, ◌&&◌, ◌<◌, ◌^◌, ℕ, IfOk, IfSome, Some, length, slice_get};
ghost use Rattle.trace_groups.specs.Groups.{counts_cut, counts_grouped, is_grouped, lacks_usual};
ghost use Rattle.trace_quality.specs.Measures.{one_if};
ghost use Rattle.trace_quality.specs.Tallies.{IsTally};
ghost use Rattle.trace_quality.specs.inner.Adding.{first_or};
ghost use Rattle.trace_groups.specs.inner.Counts.{AreCounted, AreTotals};
ghost use Rattle.trace_types.specs.Batch.{PlainTrace};

use crate::counts::{Counts, count_names, count_of};
use crate::names::{Name, begin_of, gather_names};
use crate::usual::{count_usual, total_usual};
use event_table::GatheredEvents;
use indexmap::IndexMap;
use std::alloc::{AllocError, Global};
use trace_quality::Tally;

/// The fewest traces of a group.
const FEWEST: usize = 10;

/// Tells whether a trace is in a group.
fn is_grouped(counts: &Counts, gathered: &GatheredEvents, index: usize) -> bool
    requires index { index < length gathered.now.traces }
    requires counts { AreCounted gathered.now.texts gathered.now.traces counts.now }
    ensures { (t : PlainTrace) → slice_get gathered.now.traces index ≡ Some t
        → result ≡ is_grouped gathered.now.traces t }
{
    let begin = begin_of(&gathered.trace(index));
    FEWEST <= count_of(counts, &(begin, begin))
}

/// Tells whether a trace lacks a usual name of its group.
fn lacks_usual(
    alloc: Global,
    counts: &Counts,
    totals: &IndexMap<Name, usize>,
    gathered: &GatheredEvents,
    index: usize,
) -> Result<bool, AllocError>
    requires index { index < length gathered.now.traces }
    requires counts { AreCounted gathered.now.texts gathered.now.traces counts.now }
    requires totals { AreTotals counts.now totals.now }
    ensures { IfOk result (λ lacks. (t : PlainTrace) → slice_get gathered.now.traces index ≡ Some t
        → lacks ≡ lacks_usual gathered.now.traces t) }
{
    // For the proof alone: no key of a map is there twice.
    let _count = counts.len();
    let raw = gathered.trace(index);
    let begin = begin_of(&raw);
    let names = gather_names(alloc, &raw)?;
    Ok(count_usual(counts, begin, names.as_slice()) < count_of(totals, &begin))
}

/// Tells whether a trace is in a group and lacks a usual name of it.
fn is_cut(
    alloc: Global,
    counts: &Counts,
    totals: &IndexMap<Name, usize>,
    gathered: &GatheredEvents,
    index: usize,
) -> Result<bool, AllocError>
    requires index { index < length gathered.now.traces }
    requires counts { AreCounted gathered.now.texts gathered.now.traces counts.now }
    requires totals { AreTotals counts.now totals.now }
    ensures { IfOk result (λ cut. (t : PlainTrace) → slice_get gathered.now.traces index ≡ Some t
        → cut ≡ (is_grouped gathered.now.traces t && lacks_usual gathered.now.traces t)) }
{
    if !is_grouped(counts, gathered, index) {
        return Ok(false);
    }
    lacks_usual(alloc, counts, totals, gathered, index)
}

/// Counts one where a test passes.
fn one_if(passes: bool) -> u64
    ensures { result ≡ one_if passes }
{
    if passes { 1 } else { 0 }
}

/// Adds the trace with this index: whether it is in a group, and whether it then is cut short.
fn add_trace(tally: Tally, index: usize, grouped: bool, cut: bool) -> Tally
    requires count { tally.count + 1 < 2 ^ 64 }
    requires of { tally.of + 1 < 2 ^ 64 }
    ensures count { result.count ≡ tally.count + one_if cut }
    ensures of { result.of ≡ tally.of + one_if grouped }
    ensures first { result.first ≡ first_or tally.first index (one_if cut) }
{
    let first = match tally.first {
        Some(first) => Some(first),
        None => { if cut { Some(index) } else { None } }
    };
    Tally {
        count: tally.count + one_if(cut),
        of: tally.of + one_if(grouped),
        first,
    }
}

/// Counts the traces that lack an event that nine of ten of their group have, of those that are in
/// groups: a group is all traces that begin with the same task and event, at least ten. The only
/// error is out of memory.
pub fn tally_cut(alloc: Global, gathered: &GatheredEvents) -> Result<Tally, AllocError>
    requires { length gathered.now.traces < 2 ^ 32 }
    ensures tally { IfOk result (IsTally (counts_cut gathered.now.traces)
        (counts_grouped gathered.now.traces) gathered.now.traces) }
    ensures within { IfOk result (λ t.
        IfSome t.first (λ index. index < length gathered.now.traces)) }
{
    let counts = count_names(alloc, gathered)?;
    let totals = total_usual(alloc, &counts)?;
    let mut sum = Tally {
        count: 0,
        of: 0,
        first: None,
    };
    'traces: for index in 0..gathered.len() {
        let cut = is_cut(alloc, &counts, &totals, gathered, index)?;
        sum = add_trace(sum, index, is_grouped(&counts, gathered, index), cut);
    }
    Ok(sum)
}
