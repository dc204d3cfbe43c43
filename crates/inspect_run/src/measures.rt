ghost use Rattle.std.specs.Prelude.{◌≡◌};
ghost use Rattle.inspect_run.specs.Levels.{all_level, any_level, share_level, slowest_level};
ghost use Rattle.inspect_run.specs.Levels.{valid_level};
ghost use Rattle.inspect_run.specs.TraceRows.{is_left_out, measure_example, measure_kind};
ghost use Rattle.inspect_run.specs.TraceRows.{measure_level, measure_text};

use crate::Level;
use trace_quality::{Measure, Tally};

/// Gives the level of a share: fine where there is none, a note below one in a hundred.
pub(crate) fn share_level(tally: Tally) -> Level
    ensures { result ≡ share_level tally }
{
    if tally.count == 0 {
        Level::Fine
    } else if 100 * u128::from(tally.count) < u128::from(tally.of) {
        Level::Note
    } else {
        Level::Warn
    }
}

/// Gives the level where any trace is one too many.
fn any_level(tally: Tally) -> Level
    ensures { result ≡ any_level tally }
{
    if tally.count == 0 {
        Level::Fine
    } else {
        Level::Warn
    }
}

/// Gives the level where only all traces are too many.
fn all_level(tally: Tally) -> Level
    ensures { result ≡ all_level tally }
{
    if tally.count > 0 && tally.count == tally.of {
        Level::Warn
    } else {
        Level::Fine
    }
}

/// Gives the level of valid traces among all of them.
fn valid_level(tally: Tally) -> Level
    ensures { result ≡ valid_level tally }
{
    if tally.count == tally.of {
        Level::Fine
    } else if tally.count == 0 {
        Level::Warn
    } else {
        Level::Note
    }
}

/// Gives the level of refused traces among the slowest ones, beside the valid ones among all.
pub(crate) fn slowest_level(valid: Tally, slowest: Tally) -> Level
    ensures { result ≡ slowest_level valid slowest }
{
    if slowest.count == 0 {
        return Level::Fine;
    }
    let refused = valid.of.saturating_sub(valid.count);
    let share_of_all = u128::from(refused) * u128::from(slowest.of);
    let share_of_slowest = u128::from(slowest.count) * u128::from(valid.of);
    if share_of_all < share_of_slowest / 2 + share_of_slowest % 2 {
        Level::Warn
    } else {
        Level::Note
    }
}

/// Gives the kind of the row of a measure.
pub(crate) fn kind_of(measure: Measure) -> &'static str
    ensures { result.now ≡ measure_kind measure }
{
    match measure {
        Measure::NoTime | Measure::OverADay => "time",
        Measure::Valid => "traces",
        Measure::Refused { .. } => "refused",
        Measure::NoOffset | Measure::Contradiction => "clock",
        Measure::NeverReceived | Measure::NeverSent => "message",
        Measure::Wait => "wait",
    }
}

/// Gives what a measure counts, as it is printed.
pub(crate) fn text_of(measure: Measure) -> &'static str
    ensures { result.now ≡ measure_text measure }
{
    match measure {
        Measure::NoTime => "no time passes",
        Measure::OverADay => "longer than a day",
        Measure::Valid => "valid",
        Measure::Refused { refusal } => refusal.reason(),
        Measure::NoOffset => "no offset",
        Measure::Contradiction => "delays contradict",
        Measure::NeverReceived => "never received",
        Measure::NeverSent => "never sent",
        Measure::Wait => "from a send to a receipt",
    }
}

/// Gives the level by a measure that counted so many.
pub(crate) fn level_of(measure: Measure, tally: Tally) -> Level
    ensures { result ≡ measure_level measure tally }
{
    match measure {
        Measure::NoTime => all_level(tally),
        Measure::OverADay => any_level(tally),
        Measure::Valid => valid_level(tally),
        Measure::Refused { .. }
        | Measure::NoOffset
        | Measure::Contradiction
        | Measure::NeverReceived
        | Measure::NeverSent
        | Measure::Wait => share_level(tally),
    }
}

/// Gives the index of the trace that is the example, if there is one.
pub(crate) fn example_of(measure: Measure, tally: Tally) -> Option<usize>
    ensures { result ≡ measure_example measure tally.first }
{
    match measure {
        Measure::Valid => None,
        Measure::NoTime
        | Measure::OverADay
        | Measure::Refused { .. }
        | Measure::NoOffset
        | Measure::Contradiction
        | Measure::NeverReceived
        | Measure::NeverSent
        | Measure::Wait => tally.first,
    }
}

/// Tells whether the row of a measure that counted so many is left out.
pub(crate) fn is_left_out(measure: Measure, tally: Tally) -> bool
    ensures { result ≡ is_left_out measure tally }
{
    match measure {
        Measure::Refused { .. } => tally.count == 0,
        Measure::NoTime
        | Measure::OverADay
        | Measure::Valid
        | Measure::NoOffset
        | Measure::Contradiction
        | Measure::NeverReceived
        | Measure::NeverSent
        | Measure::Wait => false,
    }
}
