ghost use Rattle.std.specs.Prelude.{◌≡◌, ◌++◌, ◌<◌, ◌≤◌, All, OnOk, ℕ, length, map, take};
ghost use Rattle.std.specs.List.{flat_map};
ghost use Rattle.event_table.specs.Numbers.{text_under};
ghost use Rattle.machine_quality.specs.MachineTallies.{machine_tally, machines_told};
ghost use Rattle.machine_quality.specs.Told.{AreBelow, clocks_under};
ghost use Rattle.inspect_run.specs.MachineRows.{clock_row, machine_rows, range_row};
ghost use Rattle.inspect_run.specs.MachineRows.{rows_of_machine, tally_rows};

use crate::Level;
use crate::measures::share_level;
use crate::row::{Row, push_row, push_signed_row};
use event_table::GatheredEvents;
use machine_quality::{MachineTally, NumberedClock, OffsetRange, list_machines, tally_machine};
use std::alloc::{AllocError, Global};
use trace_quality::Tally;

/// The most machines that have rows of their own.
const MOST_MACHINES: usize = 100;

/// Appends the row of in how many of so many traces this is told of a machine.
fn push_clock(
    text: &mut Vec<u8>,
    machine: &str,
    count: u64,
    of: u64,
    what: &str,
) -> Result<(), AllocError>
    ensures { OnOk result (text.new.items
        ≡ text.old.items ++ clock_row machine.now count of what.now) }
{
    let first = None;
    push_row(
        text,
        Row {
            kind: "clock",
            level: share_level(Tally { count, of, first }),
            count,
            of,
            example: machine,
            what,
        },
    )
}

/// Appends the row of the least and the greatest offset of a machine, where it has any.
fn push_range(
    text: &mut Vec<u8>,
    machine: &str,
    range: Option<OffsetRange>,
) -> Result<(), AllocError>
    ensures { OnOk result (text.new.items ≡ text.old.items ++ range_row machine.now range) }
{
    match range {
        Some(OffsetRange { least, greatest }) => push_signed_row(
            text,
            "clock",
            Level::Fine,
            least,
            greatest,
            machine,
            "least and greatest offset",
        ),
        None => Ok(()),
    }
}

/// Appends the rows of a machine of which this is told.
fn push_machine(text: &mut Vec<u8>, machine: &str, tally: MachineTally) -> Result<(), AllocError>
    ensures { OnOk result (text.new.items ≡ text.old.items ++ tally_rows machine.now tally) }
{
    push_clock(text, machine, tally.unreached, tally.told, "no offset")?;
    push_clock(
        text,
        machine,
        tally.contradicted,
        tally.reached,
        "delays contradict",
    )?;
    push_range(text, machine, tally.range)
}

/// Appends the rows of the machine with this number.
fn push_numbered(
    text: &mut Vec<u8>,
    traces: &GatheredEvents,
    told: &[NumberedClock],
    machine: u32,
) -> Result<(), AllocError>
    requires told { AreBelow (length traces.now.texts.machines) told.now }
    requires machine { machine < length traces.now.texts.machines }
    ensures { OnOk result (text.new.items ≡ text.old.items
        ++ rows_of_machine (clocks_under traces.now.texts.machines told.now)
        (text_under traces.now.texts.machines machine)) }
{
    let name = traces.texts().machines().text(machine).as_str();
    push_machine(text, name, tally_machine(traces, told, machine))
}

/// Appends the rows of the machines with these numbers.
fn push_machines(
    text: &mut Vec<u8>,
    traces: &GatheredEvents,
    told: &[NumberedClock],
    machines: &[u32],
) -> Result<(), AllocError>
    requires told { AreBelow (length traces.now.texts.machines) told.now }
    requires machines { All (λ m. m < length traces.now.texts.machines) machines.now }
    ensures { OnOk result (text.new.items ≡ text.old.items
        ++ flat_map (λ m. rows_of_machine (clocks_under traces.now.texts.machines told.now)
        (text_under traces.now.texts.machines m)) machines.now) }
{
    for machine in machines {
        push_numbered(text, traces, told, *machine)?;
    }
    Ok(())
}

/// Appends the rows of the first machines of these, at most so many as have rows.
fn push_first_machines(
    text: &mut Vec<u8>,
    traces: &GatheredEvents,
    told: &[NumberedClock],
    machines: &[u32],
) -> Result<(), AllocError>
    requires told { AreBelow (length traces.now.texts.machines) told.now }
    requires machines { All (λ m. m < length traces.now.texts.machines) machines.now }
    requires are { map (text_under traces.now.texts.machines) machines.now
        ≡ machines_told (clocks_under traces.now.texts.machines told.now) }
    ensures { OnOk result (text.new.items ≡ text.old.items
        ++ machine_rows (clocks_under traces.now.texts.machines told.now)) }
{
    let count = machines.len().min(MOST_MACHINES);
    push_machines(text, traces, told, &machines[..count])
}

/// Appends the rows of each machine of which something is told. The only error is out of memory.
pub(crate) fn push_machine_rows(
    alloc: Global,
    text: &mut Vec<u8>,
    traces: &GatheredEvents,
    told: &[NumberedClock],
) -> Result<(), AllocError>
    requires { AreBelow (length traces.now.texts.machines) told.now }
    ensures { OnOk result (text.new.items ≡ text.old.items
        ++ machine_rows (clocks_under traces.now.texts.machines told.now)) }
{
    let machines = list_machines(alloc, traces, told)?;
    push_first_machines(text, traces, told, &machines)
}
