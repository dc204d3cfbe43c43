ghost use Rattle.std.specs.Prelude.{◌≡◌};
ghost use Rattle.std.specs.Str.{bytes_eq};
ghost use Rattle.trace_quality.specs.Measures.{counted, counted_of, is_refused_for, one_if};
ghost use Rattle.trace_quality.specs.Times.{span_of};

use crate::{Refusal, Times, TraceFacts};
use segment_cut::TraceFault;

/// A day of 86,400 seconds, in nanoseconds.
const NANOSECONDS_PER_DAY: u64 = 86_400_000_000_000;

/// What is counted in a trace.
#[derive(Clone, Copy, Debug, PartialEq, Eq)]
pub enum Measure {
    /// Whether all its events have one time; of traces.
    NoTime,
    /// Whether it lasted longer than a day; of traces.
    OverADay,
    /// Whether it is valid; of traces.
    Valid,
    /// Whether it is refused for this reason; of traces.
    Refused {
        /// The reason.
        refusal: Refusal,
    },
    /// Its machines but the reference that have no offset; of all of these.
    NoOffset,
    /// Its machines but the reference whose delays contradict each other; of those with an offset.
    Contradiction,
    /// Its messages that are sent and never received; of those that are sent.
    NeverReceived,
    /// Its messages that are received and never sent; of those that are received.
    NeverSent,
    /// Its segments that are waits; of its segments.
    Wait,
}

/// So many of so many.
#[derive(Clone, Copy, Debug)]
pub(crate) struct Share {
    pub(crate) count: u32,
    pub(crate) of: u32,
}

/// Gives how long a trace lasted by its events' own clocks, in nanoseconds.
pub(crate) fn span_of(times: Times) -> u64
    ensures { result ≡ span_of times }
{
    times.greatest.saturating_sub(times.least)
}

/// Counts a trace once where a test passes.
pub(crate) fn one_if(passes: bool) -> u32
    ensures { result ≡ one_if passes }
{
    if passes { 1 } else { 0 }
}

/// Tells whether a fault is this reason.
fn is_refused_for(refusal: Refusal, fault: Option<TraceFault>) -> bool
    ensures { result ≡ is_refused_for refusal fault }
{
    match fault {
        Some(fault) => fault.reason() == refusal.reason(),
        None => false,
    }
}

/// Gives what a measure counts in a trace, and of how many.
pub(crate) fn share_of(measure: Measure, facts: &TraceFacts) -> Share
    ensures count { result.count ≡ counted measure facts.now }
    ensures of { result.of ≡ counted_of measure facts.now }
{
    match measure {
        Measure::NoTime => Share {
            count: one_if(span_of(facts.times) == 0),
            of: 1,
        },
        Measure::OverADay => Share {
            count: one_if(NANOSECONDS_PER_DAY < span_of(facts.times)),
            of: 1,
        },
        Measure::Valid => Share {
            count: one_if(facts.verdict.fault.is_none()),
            of: 1,
        },
        Measure::Refused { refusal } => Share {
            count: one_if(is_refused_for(refusal, facts.verdict.fault)),
            of: 1,
        },
        Measure::NoOffset => Share {
            count: facts.clocks.unreached,
            of: facts.clocks.all,
        },
        Measure::Contradiction => Share {
            count: facts.clocks.contradicted,
            of: facts.clocks.reached,
        },
        Measure::NeverReceived => Share {
            count: facts.messages.lost,
            of: facts.messages.sent,
        },
        Measure::NeverSent => Share {
            count: facts.messages.unsent,
            of: facts.messages.received,
        },
        Measure::Wait => Share {
            count: facts.verdict.waits,
            of: facts.verdict.segments,
        },
    }
}
