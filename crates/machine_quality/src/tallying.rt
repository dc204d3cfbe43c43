ghost use Rattle.std.specs.Prelude.{◌≡◌, ◌++◌, ◌<◌, ℤ, List, length};
ghost use Rattle.event_table.specs.Numbers.{text_under};
ghost use Rattle.trace_quality.specs.Clocks.{is_contradicted, is_reached};
ghost use Rattle.machine_quality.specs.MachineTallies.{is_unreached, machine_tally, offset_in};
ghost use Rattle.machine_quality.specs.MachineTallies.{range_of};
ghost use Rattle.machine_quality.specs.Told.{AreBelow, clocks_under};
ghost use Rattle.machine_quality.specs.inner.Numbered.{count_numbered, count_numbered_passing};
ghost use Rattle.machine_quality.specs.inner.Numbered.{offsets_numbered};

use crate::{MachineTally, NumberedClock, OffsetRange};
use clock_offsets::Clock;
use event_table::GatheredEvents;
use trace_quality::{is_contradicted, is_reached};

/// Counts the clocks of a machine.
fn count_told(told: &[NumberedClock], machine: u32) -> usize
    ensures { result ≡ count_numbered told.now machine }
{
    told.iter().filter(|c| c.machine == machine).count()
}

/// Counts those that have an offset.
fn count_reached(told: &[NumberedClock], machine: u32) -> usize
    ensures { result ≡ count_numbered_passing is_reached told.now machine }
{
    told.iter()
        .filter(|c| c.machine == machine && is_reached(c.clock))
        .count()
}

/// Counts those that have none.
fn count_unreached(told: &[NumberedClock], machine: u32) -> usize
    ensures { result ≡ count_numbered_passing is_unreached told.now machine }
{
    told.iter()
        .filter(|c| c.machine == machine && !is_reached(c.clock))
        .count()
}

/// Counts those whose delays contradict each other.
fn count_contradicted(told: &[NumberedClock], machine: u32) -> usize
    ensures { result ≡ count_numbered_passing is_contradicted told.now machine }
{
    told.iter()
        .filter(|c| c.machine == machine && is_contradicted(c.clock))
        .count()
}

/// Widens a range of offsets by the offset of a clock, if it has one.
fn widen(range: Option<OffsetRange>, clock: Clock) -> Option<OffsetRange>
    ensures { (os : List ℤ) → range ≡ range_of os → result ≡ range_of (os ++ offset_in clock) }
{
    let Clock::Reached { offset, .. } = clock else {
        return range;
    };
    match range {
        None => Some(OffsetRange {
            least: offset,
            greatest: offset,
        }),
        Some(range) => Some(OffsetRange {
            least: range.least.min(offset),
            greatest: range.greatest.max(offset),
        }),
    }
}

/// Finds the least and the greatest offset of a machine.
fn find_range(told: &[NumberedClock], machine: u32) -> Option<OffsetRange>
    ensures { result ≡ range_of (offsets_numbered told.now machine) }
{
    let mut range = None;
    for clock in told {
        if clock.machine == machine {
            range = widen(range, clock.clock);
        }
    }
    range
}

/// Adds up what is told of a machine, by its number in the batch's texts.
pub fn tally_machine(
    gathered: &GatheredEvents,
    told: &[NumberedClock],
    machine: u32,
) -> MachineTally
    requires told { AreBelow (length gathered.now.texts.machines) told.now }
    requires machine { machine < length gathered.now.texts.machines }
    ensures { result ≡ machine_tally (clocks_under gathered.now.texts.machines told.now)
        (text_under gathered.now.texts.machines machine) }
{
    gathered.texts().machines().tell_texts_apart();
    MachineTally {
        told: count_told(told, machine) as u64,
        reached: count_reached(told, machine) as u64,
        unreached: count_unreached(told, machine) as u64,
        contradicted: count_contradicted(told, machine) as u64,
        range: find_range(told, machine),
    }
}
