ghost use Rattle.std.specs.Prelude.{◌≡◌, ◌++◌, ◌<◌, ◌^◌, All, IfOk, IfSome, OnOk, Option, length, ℕ};
ghost use Rattle.std.specs.List.{AllZip, flat_map};
ghost use Rattle.trace_types.specs.Batch.{PlainTrace};
ghost use Rattle.trace_types.specs.Times.{AreTimely};
ghost use Rattle.trace_groups.specs.Groups.{counts_cut, counts_grouped};
ghost use Rattle.trace_quality.specs.Facts.{IsFacts};
ghost use Rattle.trace_quality.specs.Slowest.{counts_slow, counts_slow_refused};
ghost use Rattle.trace_quality.specs.Tallies.{IsTally};
ghost use Rattle.inspect_run.specs.TraceRows.{count_days, cut_row, days_row, example_at};
ghost use Rattle.inspect_run.specs.TraceRows.{extremes_row, level_of_times};
ghost use Rattle.inspect_run.specs.TraceRows.{measure_row, message_rows, requests_in};
ghost use Rattle.inspect_run.specs.TraceRows.{slowest_row, slowest_tally_row, tally_row, times_row};
ghost use Rattle.inspect_run.specs.TraceRows.{verdict_rows};
ghost use Rattle.inspect_run.specs.inner.Traces.{AppendsClocks, AppendsTraceRows};

use crate::Level;
use crate::machine_rows::push_machine_rows;
use crate::measures::{
    example_of, is_left_out, kind_of, level_of, share_level, slowest_level, text_of,
};
use crate::row::{Row, push_row};
use event_table::GatheredEvents;
use machine_quality::find_told;
use std::alloc::{AllocError, Global};
use std::thread::Threads;
use trace_groups::tally_cut;
use trace_quality::{
    Measure, Refusal, Tally, Times, TraceFacts, add_up, find_extremes, find_facts, tally_slowest,
};
use worker_limit::WorkerLimit;

/// A day of 86,400 seconds, in nanoseconds.
const NANOSECONDS_PER_DAY: u64 = 86_400_000_000_000;

/// A year of 365 days, in nanoseconds.
const NANOSECONDS_PER_YEAR: u64 = 365 * NANOSECONDS_PER_DAY;

/// The measures whose rows stand before that of the slowest traces.
const FIRST_MEASURES: [Measure; 8] = [
    Measure::NoTime,
    Measure::OverADay,
    Measure::Valid,
    Measure::Refused {
        refusal: Refusal::ManyEvents,
    },
    Measure::Refused {
        refusal: Refusal::EventTwice,
    },
    Measure::Refused {
        refusal: Refusal::SentTwice,
    },
    Measure::Refused {
        refusal: Refusal::ReceivedTwice,
    },
    Measure::Refused {
        refusal: Refusal::ClockRange,
    },
];

/// The measures on clocks.
const CLOCK_MEASURES: [Measure; 2] = [Measure::NoOffset, Measure::Contradiction];

/// The measures on messages.
const MESSAGE_MEASURES: [Measure; 2] = [Measure::NeverReceived, Measure::NeverSent];

/// Lends the request of the trace with this index, or `-`.
fn example_at(traces: &GatheredEvents, index: Option<usize>) -> &str
    requires { IfSome index (λ i. i < length traces.now.traces) }
    ensures { result.now ≡ example_at (requests_in traces.now.traces) index }
{
    match index {
        Some(index) => traces.trace(index).request().as_str(),
        None => "-",
    }
}

/// Appends the row of a measure that counted so many.
fn push_tally(
    text: &mut Vec<u8>,
    traces: &GatheredEvents,
    measure: Measure,
    tally: Tally,
) -> Result<(), AllocError>
    requires { IfSome tally.first (λ i. i < length traces.now.traces) }
    ensures { OnOk result (text.new.items
        ≡ text.old.items ++ tally_row (requests_in traces.now.traces) measure tally) }
{
    if is_left_out(measure, tally) {
        return Ok(());
    }
    push_row(
        text,
        Row {
            kind: kind_of(measure),
            level: level_of(measure, tally),
            count: tally.count,
            of: tally.of,
            example: example_at(traces, example_of(measure, tally)),
            what: text_of(measure),
        },
    )
}

/// Appends the row of a measure.
fn push_measure(
    text: &mut Vec<u8>,
    traces: &GatheredEvents,
    facts: &[TraceFacts],
    measure: Measure,
) -> Result<(), AllocError>
    requires one { length facts.now ≡ length traces.now.traces }
    requires few { length facts.now < 2 ^ 32 }
    ensures { OnOk result (text.new.items
        ≡ text.old.items ++ measure_row (requests_in traces.now.traces) facts.now measure) }
{
    push_tally(text, traces, measure, add_up(measure, facts))
}

/// Appends the rows of measures.
fn push_measures(
    text: &mut Vec<u8>,
    traces: &GatheredEvents,
    facts: &[TraceFacts],
    measures: &[Measure],
) -> Result<(), AllocError>
    requires one { length facts.now ≡ length traces.now.traces }
    requires few { length facts.now < 2 ^ 32 }
    ensures { OnOk result (text.new.items ≡ text.old.items
        ++ flat_map (measure_row (requests_in traces.now.traces) facts.now) measures.now) }
{
    for measure in measures {
        push_measure(text, traces, facts, *measure)?;
    }
    Ok(())
}

/// Appends the row of the slowest traces, beside the valid ones among all.
fn push_slowest_tally(
    text: &mut Vec<u8>,
    traces: &GatheredEvents,
    valid: Tally,
    slowest: Tally,
) -> Result<(), AllocError>
    requires { IfSome slowest.first (λ i. i < length traces.now.traces) }
    ensures { OnOk result (text.new.items ≡ text.old.items
        ++ slowest_tally_row (requests_in traces.now.traces) valid slowest) }
{
    push_row(
        text,
        Row {
            kind: "refused",
            level: slowest_level(valid, slowest),
            count: slowest.count,
            of: slowest.of,
            example: example_at(traces, slowest.first),
            what: "slowest twentieth",
        },
    )
}

/// Appends the row of the slowest traces.
fn push_slowest(
    text: &mut Vec<u8>,
    traces: &GatheredEvents,
    facts: &[TraceFacts],
    slowest: Tally,
) -> Result<(), AllocError>
    requires one { length facts.now ≡ length traces.now.traces }
    requires few { length facts.now < 2 ^ 32 }
    requires tally { IsTally (counts_slow_refused facts.now) (counts_slow facts.now) facts.now
        slowest }
    requires within { IfSome slowest.first (λ i. i < length facts.now) }
    ensures { OnOk result (text.new.items
        ≡ text.old.items ++ slowest_row (requests_in traces.now.traces) facts.now) }
{
    push_slowest_tally(text, traces, add_up(Measure::Valid, facts), slowest)
}

/// Appends the row of the traces that were cut short.
fn push_cut(text: &mut Vec<u8>, traces: &GatheredEvents, cut: Tally) -> Result<(), AllocError>
    requires tally { IsTally (counts_cut traces.now.traces) (counts_grouped traces.now.traces)
        traces.now.traces cut }
    requires within { IfSome cut.first (λ i. i < length traces.now.traces) }
    ensures { OnOk result (text.new.items ≡ text.old.items ++ cut_row traces.now.traces) }
{
    push_row(
        text,
        Row {
            kind: "cut",
            level: share_level(cut),
            count: cut.count,
            of: cut.of,
            example: example_at(traces, cut.first),
            what: "lacks what nine of ten have",
        },
    )
}

/// Appends the row of these times.
fn push_extremes(
    text: &mut Vec<u8>,
    level: Level,
    least: u64,
    greatest: u64,
) -> Result<(), AllocError>
    ensures { OnOk result (text.new.items
        ≡ text.old.items ++ extremes_row level least greatest) }
{
    push_row(
        text,
        Row {
            kind: "time",
            level,
            count: least,
            of: greatest,
            example: "-",
            what: "least and greatest",
        },
    )
}

/// Tells how good the greatest time is.
fn level_of_times(greatest: u64) -> Level
    ensures { result ≡ level_of_times greatest }
{
    if greatest < NANOSECONDS_PER_YEAR {
        Level::Note
    } else {
        Level::Fine
    }
}

/// Appends the row of the least and the greatest time.
fn push_times(text: &mut Vec<u8>, times: Option<Times>) -> Result<(), AllocError>
    ensures { OnOk result (text.new.items ≡ text.old.items ++ times_row times) }
{
    match times {
        Some(Times { least, greatest }) => {
            push_extremes(text, level_of_times(greatest), least, greatest)
        }
        None => push_extremes(text, Level::Fine, 0, 0),
    }
}

/// Counts the days from the first event to the last one.
fn count_days(times: Option<Times>) -> u64
    ensures { result ≡ count_days times }
{
    match times {
        Some(times) => {
            let first = times.least / NANOSECONDS_PER_DAY;
            (times.greatest / NANOSECONDS_PER_DAY).saturating_sub(first) + 1
        }
        None => 0,
    }
}

/// Appends the row of the days.
fn push_days(text: &mut Vec<u8>, times: Option<Times>, traces: u64) -> Result<(), AllocError>
    ensures { OnOk result (text.new.items ≡ text.old.items ++ days_row times traces) }
{
    push_row(
        text,
        Row {
            kind: "time",
            level: Level::Fine,
            count: count_days(times),
            of: traces,
            example: "-",
            what: "days",
        },
    )
}

/// Appends the rows on the times of so many traces.
fn push_time_rows(text: &mut Vec<u8>, times: Option<Times>, traces: u64) -> Result<(), AllocError>
    ensures { OnOk result (text.new.items
        ≡ text.old.items ++ times_row times ++ days_row times traces) }
{
    push_times(text, times)?;
    push_days(text, times, traces)
}

/// Appends the rows on times and verdicts.
fn push_verdicts(
    text: &mut Vec<u8>,
    traces: &GatheredEvents,
    facts: &[TraceFacts],
    times: Option<Times>,
    slowest: Tally,
) -> Result<(), AllocError>
    requires one { length facts.now ≡ length traces.now.traces }
    requires few { length facts.now < 2 ^ 32 }
    requires tally { IsTally (counts_slow_refused facts.now) (counts_slow facts.now) facts.now
        slowest }
    requires within { IfSome slowest.first (λ i. i < length facts.now) }
    ensures { OnOk result (text.new.items
        ≡ text.old.items ++ verdict_rows traces.now.traces facts.now times) }
{
    push_time_rows(text, times, facts.len() as u64)?;
    push_measures(text, traces, facts, &FIRST_MEASURES)?;
    push_slowest(text, traces, facts, slowest)
}

/// Appends the rows on the clocks of machines of traces, whose facts these are.
fn push_clocks(
    alloc: Global,
    text: &mut Vec<u8>,
    traces: &GatheredEvents,
    facts: &[TraceFacts],
) -> Result<(), AllocError>
    requires found { AllZip IsFacts traces.now.traces facts.now }
    requires one { length facts.now ≡ length traces.now.traces }
    requires count { length facts.now < 2 ^ 32 }
    requires few { All (λ (t : PlainTrace). length t.events < 2 ^ 32) traces.now.traces }
    requires timely { All (λ (t : PlainTrace). AreTimely t.events) traces.now.traces }
    ensures { OnOk result (AppendsClocks traces.now.traces facts.now text.old.items
        text.new.items) }
{
    let told = find_told(alloc, traces, facts)?;
    push_measures(text, traces, facts, &CLOCK_MEASURES)?;
    push_machine_rows(alloc, text, traces, &told)
}

/// Appends the rows on messages, on traces that were cut short, and on waits.
fn push_messages(
    text: &mut Vec<u8>,
    traces: &GatheredEvents,
    facts: &[TraceFacts],
    cut: Tally,
) -> Result<(), AllocError>
    requires one { length facts.now ≡ length traces.now.traces }
    requires few { length facts.now < 2 ^ 32 }
    requires tally { IsTally (counts_cut traces.now.traces) (counts_grouped traces.now.traces)
        traces.now.traces cut }
    requires within { IfSome cut.first (λ i. i < length traces.now.traces) }
    ensures { OnOk result (text.new.items
        ≡ text.old.items ++ message_rows traces.now.traces facts.now) }
{
    push_measures(text, traces, facts, &MESSAGE_MEASURES)?;
    push_cut(text, traces, cut)?;
    push_measure(text, traces, facts, Measure::Wait)
}

/// Appends the rows on traces, whose facts these are.
fn push_found(
    alloc: Global,
    text: &mut Vec<u8>,
    traces: &GatheredEvents,
    facts: &[TraceFacts],
) -> Result<(), AllocError>
    requires found { AllZip IsFacts traces.now.traces facts.now }
    requires one { length facts.now ≡ length traces.now.traces }
    requires count { length facts.now < 2 ^ 32 }
    requires few { All (λ (t : PlainTrace). length t.events < 2 ^ 32) traces.now.traces }
    requires timely { All (λ (t : PlainTrace). AreTimely t.events) traces.now.traces }
    ensures { OnOk result (AppendsTraceRows traces.now.traces text.old.items text.new.items) }
{
    let times = find_extremes(facts);
    let slowest = tally_slowest(alloc, facts)?;
    let cut = tally_cut(alloc, traces)?;
    push_verdicts(text, traces, facts, times, slowest)?;
    push_clocks(alloc, text, traces, facts)?;
    push_messages(text, traces, facts, cut)
}

/// Finds the facts of traces.
fn find_all<R: Threads + Sync>(
    workers: &WorkerLimit<'_, R>,
    alloc: Global,
    traces: &GatheredEvents,
) -> Result<Vec<TraceFacts>, AllocError>
    requires few { All (λ (t : PlainTrace). length t.events < 2 ^ 32) traces.now.traces }
    requires timely { All (λ (t : PlainTrace). AreTimely t.events) traces.now.traces }
    ensures found { IfOk result (λ facts. AllZip IsFacts traces.now.traces facts.items) }
    ensures one { IfOk result (λ facts. length facts.items ≡ length traces.now.traces) }
{
    find_facts(workers, alloc, traces)
}

/// Appends the rows on traces. The only error is out of memory.
pub(crate) fn push_trace_rows<R: Threads + Sync>(
    workers: &WorkerLimit<'_, R>,
    alloc: Global,
    text: &mut Vec<u8>,
    traces: &GatheredEvents,
) -> Result<(), AllocError>
    requires count { length traces.now.traces < 2 ^ 32 }
    requires few { All (λ (t : PlainTrace). length t.events < 2 ^ 32) traces.now.traces }
    requires timely { All (λ (t : PlainTrace). AreTimely t.events) traces.now.traces }
    ensures { OnOk result (AppendsTraceRows traces.now.traces text.old.items text.new.items) }
{
    let facts = find_all(workers, alloc, traces)?;
    push_found(alloc, text, traces, &facts)
}
