ghost use Rattle.std.specs.Prelude.{◌≡◌, ◌<◌, pos};
ghost use Rattle.name_meetings.specs.inner.Adding.{first_of, greater_gap, greater_of, lesser_of};
ghost use Rattle.name_meetings.specs.inner.Adding.{one_more};

use crate::gap::Gap;
use evidence_rules::Between;

/// How many meetings refute a relation, and the first of them. Of no meetings each figure is 0.
#[derive(Drop)]
pub(crate) struct Refuting {
    /// How many refute it.
    pub(crate) count: u32,
    /// The index of the trace of the first that refutes it.
    pub(crate) first: u32,
}

/// What meetings of two names tell of one order of the two. Gaps are in nanoseconds, from the end
/// of the name that is first in this order to the start of the other. Of no meetings each figure is
/// 0.
#[derive(Drop)]
pub(crate) struct OrderFigures<G> {
    /// Those that refute the order.
    pub(crate) refuting: Refuting,
    /// The least gap.
    pub(crate) least: G,
    /// The greatest gap.
    pub(crate) greatest: G,
}

/// The figures of the meetings of two names, in either order. Gaps are in nanoseconds. Of no
/// meetings each figure is 0.
#[derive(Drop)]
pub(crate) struct PairFigures<G> {
    /// How many traces have both.
    pub(crate) traces: u32,
    /// Those that refute that the two are mutually exclusive.
    pub(crate) both: Refuting,
    /// The least of the gaps between the two, in whichever order they come.
    pub(crate) nearest: G,
    /// That the first happens before the second.
    pub(crate) onward: OrderFigures<G>,
    /// That the second happens before the first.
    pub(crate) turned: OrderFigures<G>,
}

/// The gaps of two segments of a trace that meet, in nanoseconds.
#[derive(Drop)]
pub(crate) struct GapMeeting<G> {
    /// The index of the trace.
    pub(crate) trace: u32,
    /// The trace's grace, in nanoseconds.
    pub(crate) grace: u64,
    /// From the end of the first segment to the start of the second.
    pub(crate) gap: G,
    /// From the end of the second segment to the start of the first.
    pub(crate) back: G,
}

/// Gives the figures of an order without a meeting.
fn no_order<G: Gap>() -> OrderFigures<G>
    ensures count { result.refuting.count ≡ 0 }
    ensures first { result.refuting.first ≡ 0 }
    ensures least { G.value result.least ≡ pos 0 }
    ensures greatest { G.value result.greatest ≡ pos 0 }
{
    OrderFigures {
        refuting: Refuting { count: 0, first: 0 },
        least: G::zero(),
        greatest: G::zero(),
    }
}

/// Counts a meeting, of the trace with this index, where it refutes.
fn note_refuting(refuting: &mut Refuting, trace: u32, is_refuted: bool)
    requires { refuting.old.count < 4294967295 }
    ensures count { refuting.new.count ≡ one_more is_refuted refuting.old.count }
    ensures first { refuting.new.first
        ≡ first_of refuting.old.count is_refuted refuting.old.first trace }
{
    if is_refuted {
        if refuting.count == 0 {
            refuting.first = trace;
        }
        refuting.count += 1;
    }
}

/// Keeps the lesser of two gaps; where it is the first gap, this one.
fn note_least<G: Gap>(least: &mut G, is_first: bool, gap: G)
    ensures { G.value least.new ≡ lesser_of is_first (G.value least.old) (G.value gap) }
{
    if is_first || gap.is_less(*least) {
        *least = gap;
    }
}

/// Keeps the greater of two gaps; where it is the first gap, this one.
fn note_greatest<G: Gap>(greatest: &mut G, is_first: bool, gap: G)
    ensures { G.value greatest.new
        ≡ greater_of is_first (G.value greatest.old) (G.value gap) }
{
    if is_first || greatest.is_less(gap) {
        *greatest = gap;
    }
}

/// Adds a meeting to the figures of an order, which it refutes or not.
fn note_order<G: Gap>(
    order: &mut OrderFigures<G>,
    is_first: bool,
    trace: u32,
    is_refuted: bool,
    gap: G,
)
    requires { order.old.refuting.count < 4294967295 }
    ensures count { order.new.refuting.count ≡ one_more is_refuted order.old.refuting.count }
    ensures first { order.new.refuting.first
        ≡ first_of order.old.refuting.count is_refuted order.old.refuting.first trace }
    ensures least { G.value order.new.least
        ≡ lesser_of is_first (G.value order.old.least) (G.value gap) }
    ensures greatest { G.value order.new.greatest
        ≡ greater_of is_first (G.value order.old.greatest) (G.value gap) }
{
    note_refuting(&mut order.refuting, trace, is_refuted);
    note_least(&mut order.least, is_first, gap);
    note_greatest(&mut order.greatest, is_first, gap);
}

/// Gives the greater of two gaps.
fn greater<G: Gap>(one: G, other: G) -> G
    ensures { G.value result ≡ greater_gap (G.value one) (G.value other) }
{
    if one.is_less(other) { other } else { one }
}

impl<G: Gap> PairFigures<G> {
    ghost use Rattle.std.specs.Prelude.{◌≡◌, ◌≤◌};
    ghost use Rattle.name_meetings.specs.inner.Adding.{IsCounted, turned_round, with_meeting};
    ghost use Rattle.name_meetings.specs.inner.Pairs.{meeting_of, onward_of, told_of, turned_of};
    ghost use Rattle.name_meetings.specs.Tables.{no_figures};
    ghost use Rattle.trace_types.specs.Limits.{most_grace};

    /// Gives the figures of two names without a meeting.
    pub(crate) fn none() -> PairFigures<G>
        ensures onward { onward_of G.value result ≡ no_figures }
        ensures turned { turned_of G.value result ≡ no_figures }
    {
        PairFigures {
            traces: 0,
            both: Refuting { count: 0, first: 0 },
            nearest: G::zero(),
            onward: no_order(),
            turned: no_order(),
        }
    }

    /// Gives the figures where this is the order of the two names, and that the other one.
    fn told(&self, order: &OrderFigures<G>, other: &OrderFigures<G>) -> Between
        ensures { result ≡ told_of G.value self.now order.now other.now }
    {
        Between {
            traces: self.traces,
            early: order.refuting.count,
            turned: other.refuting.count,
            both: self.both.count,
            first_early: order.refuting.first,
            first_both: self.both.first,
            least: order.least.wide(),
            greatest: order.greatest.wide(),
            nearest: self.nearest.wide(),
        }
    }

    /// Gives the figures of the first name and the second.
    pub(crate) fn onward(&self) -> Between
        ensures { result ≡ onward_of G.value self.now }
    {
        self.told(&self.onward, &self.turned)
    }

    /// Gives the figures of the second name and the first.
    pub(crate) fn turned(&self) -> Between
        ensures { result ≡ turned_of G.value self.now }
    {
        self.told(&self.turned, &self.onward)
    }

    /// Adds a meeting to figures of fewer than 4,294,967,295 meetings.
    pub(crate) fn note(&mut self, met: &GapMeeting<G>)
        requires counted { IsCounted (onward_of G.value self.old) 4294967294 }
        requires grace { met.now.grace ≤ most_grace }
        ensures onward { onward_of G.value self.new
            ≡ with_meeting (onward_of G.value self.old) (meeting_of G.value met.now) }
        ensures turned { turned_of G.value self.new
            ≡ with_meeting (turned_of G.value self.old)
            (turned_round (meeting_of G.value met.now)) }
    {
        let is_first = self.traces == 0;
        let early = met.gap.is_beyond(met.grace);
        let turned = met.back.is_beyond(met.grace);
        self.traces += 1;
        note_order(&mut self.onward, is_first, met.trace, early, met.gap);
        note_order(&mut self.turned, is_first, met.trace, turned, met.back);
        note_refuting(&mut self.both, met.trace, early && turned);
        note_least(&mut self.nearest, is_first, greater(met.gap, met.back));
    }
}
