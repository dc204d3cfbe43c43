ghost use Rattle.std.specs.Prelude.{◌≡◌, ◌+◌, ◌<◌, ◌≤◌, ◌++◌, ◌∷◌, [], ℕ, List, length, IfOk, OnOk};
ghost use Rattle.std.specs.Prelude.{All, slice_index, sum_by};
ghost use Rattle.event_table.specs.declared.event_numbers.EventNumbers.{EventNumbers};
ghost use Rattle.event_table.specs.inner.Groups.{block_groups};
ghost use Rattle.event_table.specs.inner.Placing.{AreNowhere, AreSome, AreStarts};
ghost use Rattle.event_table.specs.Texts.{AreDifferent};
ghost use Rattle.event_table.specs.inner.Placing.{IsPlacing, ends_from, groups_of, no_place};
ghost use Rattle.event_table.specs.inner.Renumbering.{IsOwn, part_events, renumbered, whole_events};

use crate::block::Block;
use crate::event_numbers::{EventNumbers, NO_EVENT};
use crate::numbered_part::NumberedPart;
use std::alloc::{AllocError, Global};

/// Stands for the place of a request whose events stand in another block.
const NO_PLACE: u32 = 4_294_967_295;

/// Puts the start of each request's events in the place of its number, and lists their ends. Gives
/// how many events there are. The only error is out of memory.
fn start_requests(
    counts: &[u32],
    requests: &[u32],
    next: &mut [u32],
    ends: &mut Vec<u32>,
) -> Result<u32, AllocError>
    requires within { All (λ r. r < length counts.now) requests.now }
    requires long { length next.old ≡ length counts.now }
    requires apart { AreDifferent requests.now }
    requires few { sum_by (slice_index counts.now) requests.now ≤ no_place }
    requires nowhere { AreNowhere [] next.old }
    requires empty { ends.old.items ≡ [] }
    ensures starts { OnOk result (AreStarts (slice_index counts.now) next.new 0 requests.now) }
    ensures nowhere { OnOk result (AreNowhere requests.now next.new) }
    ensures ends { OnOk result (ends.new.items ≡ ends_from (slice_index counts.now) 0 requests.now) }
    ensures sum { IfOk result (λ n. n ≡ sum_by (slice_index counts.now) requests.now) }
    ensures long { length next.new ≡ length next.old }
{
    let mut end = 0;
    for request in requests {
        next[*request as usize] = end;
        end += counts[*request as usize];
        ends.push(end)?;
    }
    Ok(end)
}

/// Puts an event of a part in the next place of its request, unless it stands in another block.
fn place_event(
    events: &mut [EventNumbers],
    next: &mut [u32],
    part: &NumberedPart,
    event: &EventNumbers,
)
    requires own { IsOwn part.now event.now }
    requires placing { (done : List EventNumbers) × (all : List EventNumbers)
        × (later : List EventNumbers) × (requests : List ℕ)
        × (all ≡ done ++ renumbered part.now event.now ∷ later)
        × IsPlacing done all requests next.old events.old }
    ensures placing { (done all later : List EventNumbers) (requests : List ℕ)
        → all ≡ done ++ renumbered part.now event.now ∷ later
        → IsPlacing done all requests next.old events.old
        → IsPlacing (done ++ renumbered part.now event.now ∷ []) all requests next.new
        events.new }
{
    let request = part.request(event) as usize;
    let place = next[request];
    if place != NO_PLACE {
        events[place as usize] = part.renumber(event);
        next[request] = place + 1;
    }
}

/// Puts the events of a part in their places.
fn place_part(events: &mut [EventNumbers], next: &mut [u32], part: &NumberedPart)
    requires placing { (done : List EventNumbers) × (all : List EventNumbers)
        × (later : List EventNumbers) × (requests : List ℕ)
        × (all ≡ done ++ (part_events part.now ++ later))
        × IsPlacing done all requests next.old events.old }
    ensures placing { (done all later : List EventNumbers) (requests : List ℕ)
        → all ≡ done ++ (part_events part.now ++ later)
        → IsPlacing done all requests next.old events.old
        → IsPlacing (done ++ part_events part.now) all requests next.new events.new }
{
    for event in &part.events {
        place_event(events, next, part, event);
    }
}

/// Puts the events of all parts in their places.
fn place_parts(events: &mut [EventNumbers], next: &mut [u32], parts: &[NumberedPart])
    requires placing { (requests : List ℕ)
        × IsPlacing [] (whole_events parts.now) requests next.old events.old }
    ensures placing { (requests : List ℕ)
        → IsPlacing [] (whole_events parts.now) requests next.old events.old
        → IsPlacing (whole_events parts.now) (whole_events parts.now) requests next.new
        events.new }
{
    for part in parts {
        place_part(events, next, part);
    }
}

/// Makes the block of these requests: of each all its events, in order. The only error is out of
/// memory.
pub(crate) fn place_block(
    alloc: Global,
    parts: &[NumberedPart],
    counts: &[u32],
    requests: &[u32],
) -> Result<Block, AllocError>
    requires { AreSome (whole_events parts.now) counts.now requests.now }
    ensures { IfOk result (λ b. block_groups b ≡ groups_of (whole_events parts.now) requests.now) }
{
    let mut next = Vec::from_elem(alloc, NO_PLACE, counts.len())?;
    let mut ends = Vec::with_capacity(alloc, requests.len())?;
    let count = start_requests(counts, requests, &mut next, &mut ends)?;
    let mut events = Vec::from_elem(alloc, NO_EVENT, count as usize)?;
    place_parts(&mut events, &mut next, parts);
    Ok(Block { events, ends })
}
