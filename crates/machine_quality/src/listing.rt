ghost use Rattle.std.specs.Prelude.{◌≡◌, ◌++◌, ◌∷◌, [], ◌<◌, All, IfOk, OnOk, false, true, length};
ghost use Rattle.std.specs.Prelude.{if◌then◌else◌, map, nat_eq, replicate, slice_index_or, slice_set};
ghost use Rattle.event_table.specs.Numbers.{text_under};
ghost use Rattle.trace_types.specs.Firsts.{firsts_of};
ghost use Rattle.machine_quality.specs.MachineTallies.{machines_told};
ghost use Rattle.machine_quality.specs.Told.{AreBelow, clocks_under};
ghost use Rattle.machine_quality.specs.inner.Numbered.{numbers_of};

use crate::NumberedClock;
use event_table::GatheredEvents;
use std::alloc::{AllocError, Global};

/// Appends a machine, unless it is seen, which it then is.
fn push_new(machines: &mut Vec<u32>, is_seen: &mut [bool], machine: u32) -> Result<(), AllocError>
    requires { machine < length is_seen.old }
    ensures first { OnOk result (machines.new.items
        ≡ (if slice_index_or is_seen.old machine false then machines.old.items
        else machines.old.items ++ machine ∷ [])) }
    ensures seen { OnOk result (is_seen.new ≡ slice_set is_seen.old machine true) }
{
    if !is_seen[machine as usize] {
        machines.push(machine)?;
    }
    is_seen[machine as usize] = true;
    Ok(())
}

/// Appends the machines of clocks, where none is seen.
fn push_first(
    machines: &mut Vec<u32>,
    is_seen: &mut [bool],
    told: &[NumberedClock],
) -> Result<(), AllocError>
    requires within { AreBelow (length is_seen.old) told.now }
    requires empty { machines.old.items ≡ [] }
    requires none { is_seen.old ≡ replicate (length is_seen.old) false }
    ensures { OnOk result (machines.new.items ≡ firsts_of nat_eq (numbers_of told.now)) }
{
    for clock in told {
        push_new(machines, is_seen, clock.machine)?;
    }
    Ok(())
}

/// Lists the machines of clocks by their numbers, of which there are so many.
fn list_numbers(alloc: Global, told: &[NumberedClock], count: usize) -> Result<Vec<u32>, AllocError>
    requires { AreBelow count told.now }
    ensures { IfOk result (λ machines. machines.items ≡ firsts_of nat_eq (numbers_of told.now)) }
{
    let mut is_seen = vec![in alloc; false; count]?;
    let mut machines = Vec::new(alloc);
    push_first(&mut machines, &mut is_seen, told)?;
    Ok(machines)
}

/// Lists the machines that are told of, in the order of first sight, by their numbers in the batch's
/// texts. The only error is out of memory.
pub fn list_machines(
    alloc: Global,
    gathered: &GatheredEvents,
    told: &[NumberedClock],
) -> Result<Vec<u32>, AllocError>
    requires { AreBelow (length gathered.now.texts.machines) told.now }
    ensures machines { IfOk result (λ machines.
        map (text_under gathered.now.texts.machines) machines.items
        ≡ machines_told (clocks_under gathered.now.texts.machines told.now)) }
    ensures within { IfOk result (λ machines.
        All (λ m. m < length gathered.now.texts.machines) machines.items) }
{
    let machines = gathered.texts().machines();
    machines.tell_texts_apart();
    list_numbers(alloc, told, machines.len())
}
