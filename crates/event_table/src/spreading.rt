ghost use Rattle.std.specs.Prelude.{◌≡◌, ◌<◌, ◌≤◌, length, IfOk};
ghost use Rattle.std.specs.Thread.{IsSync};
ghost use Rattle.event_table.specs.inner.Groups.{block_groups, groups_of_blocks};
ghost use Rattle.event_table.specs.inner.Placing.{AreSome, HaveRequestsBelow};
ghost use Rattle.event_table.specs.inner.Placing.{groups_of, no_place, request_numbers};
ghost use Rattle.event_table.specs.inner.Renumbering.{whole_events};

use crate::block::Block;
use crate::counting::{RequestCounts, count_requests};
use crate::numbered_part::NumberedPart;
use crate::placing::place_block;
use std::alloc::{AllocError, Global};
use std::thread::{Threads, join};

/// A further worker is worth its start from this many events on.
const LEAST_EVENTS: usize = 4096;

/// Finds the index from which on the requests have at least this many events, or 0.
fn last_range(counts: &[u32], requests: &[u32], least: usize) -> usize
    ensures { result ≤ length requests.now }
{
    let mut start = requests.len();
    let mut events = 0usize;
    while start > 0 && events < least {
        start -= 1;
        let count = counts.get(requests[start] as usize).copied().unwrap_or(0);
        events = events.saturating_add(count as usize);
    }
    start
}

/// Places these requests in up to `ranges` blocks in parallel; each but the first has at least
/// `least` events while requests last. The only error is out of memory.
fn place_ranges<R: Threads + Sync>(
    rt: &R,
    alloc: Global,
    parts: &[NumberedPart],
    counts: &[u32],
    requests: &[u32],
    ranges: usize,
    least: usize,
) -> Result<Vec<Block>, AllocError>
    requires { AreSome (whole_events parts.now) counts.now requests.now }
    ensures { IfOk result (λ v. groups_of_blocks v.items
        ≡ groups_of (whole_events parts.now) requests.now) }
{
    if requests.is_empty() {
        return Ok(Vec::new(alloc));
    }
    if ranges <= 1 {
        let mut blocks = Vec::new(alloc);
        blocks.push(place_block(alloc, parts, counts, requests)?)?;
        return Ok(blocks);
    }
    let (front, back) = requests.split_at(last_range(counts, requests, least));
    let (last, blocks) = join(
        rt,
        move || -> Result<Block, AllocError>
            requires { AreSome (whole_events parts.now) counts.now back.now }
            ensures { IfOk result (λ b. block_groups b
                ≡ groups_of (whole_events parts.entry.now) back.entry.now) }
        { place_block(alloc, parts, counts, back) },
        move || -> Result<Vec<Block>, AllocError>
            requires sync { IsSync R.row }
            requires ranges { 1 < ranges }
            requires some { AreSome (whole_events parts.now) counts.now front.now }
            ensures { IfOk result (λ v. groups_of_blocks v.items
                ≡ groups_of (whole_events parts.entry.now) front.entry.now) }
        { place_ranges(rt, alloc, parts, counts, front, ranges - 1, least) },
    );
    let mut blocks = blocks?;
    blocks.push(last?)?;
    Ok(blocks)
}

/// Counts the events of all parts.
fn count_events(parts: &[NumberedPart]) -> usize {
    let mut count = 0usize;
    for part in parts {
        count = count.saturating_add(part.events.len());
    }
    count
}

/// Events in blocks of groups of one request each, and how many groups there are.
#[derive(Drop)]
pub(crate) struct GroupedEvents {
    pub(crate) blocks: Vec<Block>,
    pub(crate) count: usize,
}

/// Groups the events of all parts by their requests, in the order of their first events. The
/// requests have numbers below this count. Up to so many workers place the events in parallel; few
/// events are placed by the caller alone. The only error is out of memory.
pub(crate) fn group_events<R: Threads + Sync>(
    rt: &R,
    alloc: Global,
    count: usize,
    parts: &[NumberedPart],
    workers: u32,
) -> Result<GroupedEvents, AllocError>
    requires below { HaveRequestsBelow count (whole_events parts.now) }
    requires few { length (whole_events parts.now) ≤ no_place }
    ensures groups { IfOk result (λ g. groups_of_blocks g.blocks.items
        ≡ groups_of (whole_events parts.now) (request_numbers (whole_events parts.now))) }
    ensures count { IfOk result (λ g. g.count ≡ length (request_numbers (whole_events parts.now))) }
{
    let RequestCounts { requests, counts } = count_requests(alloc, count, parts)?;
    let events = count_events(parts);
    let ranges = (workers as usize).min(events / LEAST_EVENTS).max(1);
    let least = events / ranges;
    let count = requests.len();
    let blocks = place_ranges(rt, alloc, parts, &counts, &requests, ranges, least)?;
    Ok(GroupedEvents { blocks, count })
}
