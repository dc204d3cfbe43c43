ghost use Rattle.std.specs.Prelude.{◌≡◌, ◌+◌, ◌^◌, ◌<◌, MatchOption, length};
ghost use Rattle.std.specs.Cmp.Lexicographic.{slice_cmp};
ghost use Rattle.std.specs.Ordering.{nat_cmp, is_lt};
ghost use Rattle.trace_types.specs.Events.{machine_at};
ghost use Rattle.clock_offsets.specs.inner.Links.{AreNumbers, AreLinks, LeadBelow};
ghost use Rattle.clock_offsets.specs.inner.Search.{AreVisitedTo, IsFrontier, IsBest, HasNone};
ghost use Rattle.clock_offsets.specs.inner.Search.{HaveOffsetsTo};

use crate::link::Link;
use event_table::RawEvents;
use trace_types::Text;

/// Lends the name of the machine of the event at this index.
fn machine_name<'a>(trace: &RawEvents<'a>, at: usize) -> &'a Text
    requires { at < length trace.now.trace.events }
    ensures { result.now ≡ machine_at trace.now.trace.events at }
{
    trace.texts().machines().text(trace.machine(at))
}

/// Tells whether the machine of an event has a lesser name than that of another.
fn is_before(trace: &RawEvents<'_>, at: usize, other: usize) -> bool
    requires here { at < length trace.now.trace.events }
    requires there { other < length trace.now.trace.events }
    ensures { result ≡ is_lt (slice_cmp nat_cmp (machine_at trace.now.trace.events at)
        (machine_at trace.now.trace.events other)) }
{
    machine_name(trace, at) < machine_name(trace, other)
}

/// Finds the link to the machine of this depth whose name is least in byte order.
pub(crate) fn find_parent(
    trace: &RawEvents<'_>,
    links: &[Link],
    depths: &[Option<usize>],
    depth: usize,
) -> Option<Link>
    requires within { LeadBelow (length depths.now) links.now }
    requires each { length depths.now ≡ length trace.now.trace.events }
    ensures { MatchOption result (HasNone depths.now depth links.now)
        (IsBest trace.now.trace.events depths.now depth links.now) }
{
    let mut best: Option<Link> = None;
    for link in links {
        if depths[link.to] != Some(depth) {
            continue;
        }
        let is_less = match best {
            Some(known) => is_before(trace, link.to, known.to),
            None => true,
        };
        if is_less {
            best = Some(*link);
        }
    }
    best
}

/// Sets each frontier machine's offset to its parent's offset plus its own relative to the parent.
/// The depth is that of the parents.
pub(crate) fn set_offsets(
    trace: &RawEvents<'_>,
    numbers: &[usize],
    links: &[Vec<Link>],
    depths: &[Option<usize>],
    frontier: &[usize],
    depth: usize,
    offsets: &mut [i128],
)
    requires numbered { AreNumbers trace.now.trace.events numbers.now }
    requires linked { AreLinks trace.now.trace.events numbers.now links.now }
    requires visited { AreVisitedTo trace.now.trace.events numbers.now (depth + 1) depths.now }
    requires frontier { IsFrontier (depth + 1) depths.now frontier.now }
    requires low { depth < 2 ^ 32 }
    requires set { HaveOffsetsTo trace.now.trace.events depth depths.now offsets.old }
    ensures { HaveOffsetsTo trace.now.trace.events (depth + 1) depths.now offsets.new }
{
    for machine in frontier {
        if let Some(link) = find_parent(trace, &links[*machine], depths, depth) {
            offsets[*machine] = offsets[link.to] + i128::from(link.offset);
        }
    }
}
