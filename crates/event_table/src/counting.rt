ghost use Rattle.std.specs.Prelude.{◌≡◌, ◌+◌, ◌<◌, ◌≤◌, ◌++◌, ◌∷◌, [], ◌==◌, List, length};
ghost use Rattle.std.specs.Prelude.{IfOk, OnOk, slice_index, slice_set, if◌then◌else◌};
ghost use Rattle.event_table.specs.declared.event_numbers.EventNumbers.{EventNumbers};
ghost use Rattle.event_table.specs.inner.Placing.{AreCounted, HaveRequestsBelow, no_place};
ghost use Rattle.event_table.specs.inner.Renumbering.{part_events, whole_events};

use crate::numbered_part::NumberedPart;
use std::alloc::{AllocError, Global};

/// The requests in the order of their first events, and the number of events of each.
#[derive(Drop)]
pub(crate) struct RequestCounts {
    pub(crate) requests: Vec<u32>,
    pub(crate) counts: Vec<u32>,
}

/// Counts one event more of a request, which is appended at its first event.
fn count_event(requests: &mut Vec<u32>, counts: &mut [u32], request: u32) -> Result<(), AllocError>
    requires within { request < length counts.old }
    requires few { slice_index counts.old request < no_place }
    ensures counts { OnOk result (counts.new
        ≡ slice_set counts.old request (slice_index counts.old request + 1)) }
    ensures requests { OnOk result (requests.new.items
        ≡ if slice_index counts.old request == 0 then requests.old.items ++ request ∷ []
        else requests.old.items) }
    ensures long { length counts.new ≡ length counts.old }
{
    let count = counts[request as usize];
    if count == 0 {
        requests.push(request)?;
    }
    counts[request as usize] = count + 1;
    Ok(())
}

/// Counts the events of a part.
fn count_part(
    requests: &mut Vec<u32>,
    counts: &mut [u32],
    part: &NumberedPart,
) -> Result<(), AllocError>
    requires below { HaveRequestsBelow (length counts.old) (part_events part.now) }
    requires counted { (done : List EventNumbers)
        × AreCounted done requests.old.items counts.old
        × (length done + length part.now.events.items ≤ no_place) }
    ensures counted { OnOk result ((done : List EventNumbers)
        → AreCounted done requests.old.items counts.old
        → AreCounted (done ++ part_events part.now) requests.new.items counts.new) }
    ensures long { length counts.new ≡ length counts.old }
{
    for event in &part.events {
        count_event(requests, counts, part.request(event))?;
    }
    Ok(())
}

/// Counts the events of all parts, whose requests have numbers below this count. The only error is
/// out of memory.
pub(crate) fn count_requests(
    alloc: Global,
    count: usize,
    parts: &[NumberedPart],
) -> Result<RequestCounts, AllocError>
    requires below { HaveRequestsBelow count (whole_events parts.now) }
    requires few { length (whole_events parts.now) ≤ no_place }
    ensures counted { IfOk result (λ c. AreCounted (whole_events parts.now)
        c.requests.items c.counts.items) }
    ensures long { IfOk result (λ c. length c.counts.items ≡ count) }
{
    let mut requests = Vec::with_capacity(alloc, count)?;
    let mut counts = Vec::from_elem(alloc, 0, count)?;
    for part in parts {
        count_part(&mut requests, &mut counts, part)?;
    }
    Ok(RequestCounts { requests, counts })
}
