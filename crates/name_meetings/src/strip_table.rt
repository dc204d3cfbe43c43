ghost use Rattle.std.specs.Prelude.{◌≡◌, ◌+◌, ◌*◌, ◌<◌, ◌≤◌, ◌^◌, ℕ, All, IfOk, length, map};
ghost use Rattle.std.specs.Prelude.{slice_index_or};
ghost use Rattle.std.specs.Borrow.{Bor};
ghost use Rattle.name_meetings.specs.inner.Noting.{AreBelow, AreNew, AreTimed, TellsBoth};
ghost use Rattle.name_meetings.specs.inner.Noting.{met_onward, met_turned};
ghost use Rattle.name_meetings.specs.inner.Strips.{AreNewStrips, AreStripsOf, AreWhole};
ghost use Rattle.trace_types.specs.declared.named_trace.NamedTrace.{NamedTrace};

use crate::circle::{ROWS, is_in_row, steps_between, width};
use crate::gap::Gap;
use crate::noting::note_traces;
use crate::pair_figures::PairFigures;
use evidence_rules::Between;
use std::alloc::{AllocError, Global};
use std::thread;
use std::thread::Threads;
use trace_types::NamedTrace;
use worker_limit::WorkerLimit;

/// The rows of all names, sixteen in a strip.
#[derive(Drop)]
pub(crate) struct StripTable<G> {
    pub(crate) names: u32,
    pub(crate) strips: Vec<Vec<PairFigures<G>>>,
    ghost whole: { AreWhole names strips.items },
}

impl<G: Gap> StripTable<G> {
    ghost use Rattle.std.specs.Prelude.{◌≡◌, ◌*◌, ◌/◌, ◌<◌, true};
    ghost use Rattle.name_meetings.specs.inner.Circles.{is_in_row, place};
    ghost use Rattle.name_meetings.specs.inner.Noting.{entry, onwards, turneds};
    ghost use Rattle.name_meetings.specs.inner.Pairs.{onward_of, turned_of};
    ghost use Rattle.name_meetings.specs.inner.Strips.{figures_in, strip_at};

    /// Lends the entry of two names, the second of which stands in the row of the first.
    fn entry(&self, one: u32, other: u32) -> &PairFigures<G>
        requires one { one < self.now.names }
        requires other { other < self.now.names }
        requires near { is_in_row self.now.names one other ≡ true }
        ensures onward { onward_of G.value result.now
            ≡ entry (onwards G.value (strip_at self.now.strips.items (one / 16)))
            (place self.now.names (16 * (one / 16)) one other) }
        ensures turned { turned_of G.value result.now
            ≡ entry (turneds G.value (strip_at self.now.strips.items (one / 16)))
            (place self.now.names (16 * (one / 16)) one other) }
    {
        let strip = &self.strips[(one / ROWS) as usize];
        let row = (one % ROWS) as usize * width(self.names);
        &strip[row + steps_between(self.names, one, other) as usize]
    }

    /// Gives the figures of two names.
    pub(crate) fn between(&self, first: u32, second: u32) -> Between
        requires first { first < self.now.names }
        requires second { second < self.now.names }
        ensures { result
            ≡ figures_in G.value self.now.names self.now.strips.items first second }
    {
        if is_in_row(self.names, first, second) {
            self.entry(first, second).onward()
        } else {
            self.entry(second, first).turned()
        }
    }
}

/// Makes a strip without a meeting for this number of names. The only error is out of memory.
fn new_strip<G: Gap>(alloc: Global, names: u32) -> Result<Vec<PairFigures<G>>, AllocError>
    requires { names ≤ 512 }
    ensures { IfOk result (λ strip. AreNew G.value names strip.items) }
{
    let count = width(names) * ROWS as usize;
    let mut strip = Vec::with_capacity(alloc, count)?;
    'entries: for made in 0..count {
        strip.push(PairFigures::none())?;
    }
    Ok(strip)
}

/// Makes strips without a meeting for this number of names. The only error is out of memory.
fn new_strips<G: Gap>(alloc: Global, names: u32) -> Result<Vec<Vec<PairFigures<G>>>, AllocError>
    requires { names ≤ 512 }
    ensures { IfOk result (λ strips. AreNewStrips G.value names strips.items) }
{
    let count = names.div_ceil(ROWS) as usize;
    let mut strips = Vec::with_capacity(alloc, count)?;
    'strips: for made in 0..count {
        strips.push(new_strip(alloc, names)?)?;
    }
    Ok(strips)
}

/// Adds the meetings in traces to new strips, by up to as many threads as the limit allows.
fn fill<R: Threads + Sync, G: Gap>(
    workers: &WorkerLimit<'_, R>,
    names: u32,
    strips: &mut [Vec<PairFigures<G>>],
    traces: &[&NamedTrace],
)
    requires new { AreNewStrips G.value names strips.old }
    requires few_names { names ≤ 512 }
    requires few { length traces.now < 2 ^ 32 }
    requires below { All (λ (t : Bor NamedTrace). AreBelow names t.now.segments) traces.now }
    requires timed { All (λ (t : Bor NamedTrace). AreTimed G.fits t.now.segments) traces.now }
    ensures long { length strips.new ≡ length strips.old }
    ensures told { (k : ℕ) (d : _) → k < length strips.old
        → TellsBoth G.value names (16 * k) (slice_index_or strips.new k d).items
        (met_onward (map (λ (t : Bor NamedTrace). t.now) traces.now))
        (met_turned (map (λ (t : Bor NamedTrace). t.now) traces.now)) }
{
    let threads = workers.most.max(1) as usize;
    thread::for_each_mut(
        workers.runtime,
        strips,
        threads,
        &|at, strip: &mut Vec<PairFigures<G>>|
            requires new { AreNew G.value names strip.old.items }
            requires at { at < 32 }
            requires few_names { names ≤ 512 }
            requires few { length traces.now < 2 ^ 32 }
            requires below { All (λ (t : Bor NamedTrace). AreBelow names t.now.segments)
                traces.now }
            requires timed { All (λ (t : Bor NamedTrace). AreTimed G.fits t.now.segments)
                traces.now }
            ensures { TellsBoth G.value names (16 * at) strip.new.items
                (met_onward (map (λ (t : Bor NamedTrace). t.now) traces.entry.now))
                (met_turned (map (λ (t : Bor NamedTrace). t.now) traces.entry.now)) }
        { note_traces(names, ROWS * at as u32, strip.as_mut_slice(), traces) },
    );
}

/// Makes the strips of the meetings of each two names below a number in traces: one pass over the
/// traces for each strip, shared by up to as many threads as the limit allows. The only error is
/// out of memory.
pub(crate) fn strips_of<R: Threads + Sync, G: Gap>(
    workers: &WorkerLimit<'_, R>,
    alloc: Global,
    names: u32,
    traces: &[&NamedTrace],
) -> Result<StripTable<G>, AllocError>
    requires few_names { names ≤ 512 }
    requires few { length traces.now < 2 ^ 32 }
    requires below { All (λ (t : Bor NamedTrace). AreBelow names t.now.segments) traces.now }
    requires timed { All (λ (t : Bor NamedTrace). AreTimed G.fits t.now.segments) traces.now }
    ensures names { IfOk result (λ table. table.names ≡ names) }
    ensures told { IfOk result (λ table. AreStripsOf G.value names
        (map (λ (t : Bor NamedTrace). t.now) traces.now) table.strips.items) }
{
    let mut strips = new_strips::<G>(alloc, names)?;
    fill(workers, names, strips.as_mut_slice(), traces);
    Ok(StripTable { names, strips })
}
