ghost use Rattle.std.specs.Prelude.{◌≡◌, ◌^◌, ◌+◌, ◌<◌, ◌≤◌, All, List, length, map};
ghost use Rattle.std.specs.Prelude.{IfErr, IfOk, OnOk};
ghost use Rattle.batch_sheets.specs.Named.{HasFewSegments, cut_trace};
ghost use Rattle.book_laws.specs.Shown.{AreShown};
ghost use Rattle.kept_books.specs.KeptBooks.{IsKeptBook, under_catalogue};
ghost use Rattle.refute_tests.specs.Clearing.{HaveNamesBelow};
ghost use Rattle.segment_cut.specs.NumberedCuts.{NumberedCut};
ghost use Rattle.segment_names.specs.Known.{with_traces};
ghost use Rattle.segment_names.specs.Limits.{PassesLimit};
ghost use Rattle.segment_names.specs.declared.name_fault.NameLimit.{NameLimit};
ghost use Rattle.session_rules.specs.KeptTraces.{kept_with};
ghost use Rattle.session_rules.specs.Sessions.{State};
ghost use Rattle.session.specs.Carrying.{kept_count};
ghost use Rattle.session.specs.SessionStates.{Shows};
ghost use Rattle.session.specs.Sheets.{graced_by};
ghost use Rattle.session.specs.inner.AddFaults.{HasAddCause, HasNamesCause};
ghost use Rattle.session.specs.inner.AddSteps.{AreBooked, AreNamed, HasDaysCause, IsAddOf};
ghost use Rattle.trace_types.specs.Batch.{PlainTrace, requests_of, traces_of};
ghost use Rattle.trace_types.specs.Limits.{most_grace};
ghost use Rattle.trace_types.specs.Times.{AreTimely};
ghost use Rattle.trace_types.specs.declared.event.Event.{Event};
ghost use Rattle.trace_types.specs.declared.trace.Trace.{Trace};

use crate::Session;
use crate::add_fault::AddFault;
use crate::batch_records::{can_count, list_days_within, record_batch};
use crate::laws::{
    add_is_told, add_leads_on, add_passes_days, add_passes_traces, names_grow, no_more_are_sheeted,
    no_more_are_valid,
};
use batch_sheets::{DayLines, judge_batch, name_batch};
use event_lines::EventParts;
use event_table::laws::traces_keep_facts;
use event_table::{GatheredEvents, Texts, gather};
use kept_books::KeptBook;
use mystery_io::Gate;
use segment_cut::CutTrace;
use session_rules::{Limit, Refused};
use std::alloc::Global;
use std::thread::Threads;
use trace_types::NamedTrace;

/// A session after an add, and what is printed of the add.
#[derive(Drop)]
pub(crate) struct AddedBatch {
    /// The session with the valid traces.
    pub(crate) session: Session,
    /// The refused traces, in order.
    pub(crate) refused: Vec<Refused>,
    /// The watch lines of each day of the valid traces.
    pub(crate) watched: Vec<DayLines>,
}

/// A session that knows the names of a batch, and the traces of the batch by number.
#[derive(Drop)]
struct NamedBatch {
    session: Session,
    named: Vec<NamedTrace>,
}

/// A book that knows the names of a batch, and the traces of the batch by number.
#[derive(Drop)]
struct BookAndBatch {
    book: KeptBook,
    named: Vec<NamedTrace>,
}

/// Adds the names and tasks of traces to the catalogue of a book, widens the book to the names, and
/// names the traces with this grace, in nanoseconds, by up to so many workers. The texts are those
/// that the numbers of the traces stand for. After an error the book is gone.
fn name_and_widen<R: Threads + Sync>(
    rt: &R,
    alloc: Global,
    book: KeptBook,
    texts: &Texts,
    traces: Vec<CutTrace<'_>>,
    grace: u64,
    workers: u32,
) -> Result<BookAndBatch, AddFault>
    requires few { All HasFewSegments (map cut_trace traces.items) }
    requires texts { All (λ (c : NumberedCut). c.texts ≡ texts.now) traces.items }
    requires grace { grace ≤ most_grace }
    ensures kept { IsKeptBook book }
    ensures none { OnOk result ((limit : NameLimit)
        → PassesLimit book.known (map cut_trace traces.entry.items) limit → ⊥) }
    ensures added { IfOk result (λ b. b.book
        ≡ under_catalogue (with_traces book.known (map cut_trace traces.entry.items)) book.book) }
    ensures shown { IfOk result (λ b. AreShown b.book.known b.named.items
        (map (kept_with grace) (map cut_trace traces.entry.items))) }
    ensures below { IfOk result
        (λ b. All (HaveNamesBelow (length b.book.known.names)) b.named.items) }
    ensures cause { IfErr result (HasNamesCause book.known (map cut_trace traces.entry.items)) }
{
    // For the proof alone.
    names_grow();
    let (mut catalogue, days) = book.into_parts();
    let named = name_batch(rt, alloc, &mut catalogue, texts, traces, grace, workers)?;
    let book = KeptBook::of(catalogue, days)?;
    Ok(BookAndBatch { book, named })
}

impl Session {
    /// Adds the names and tasks of valid traces, whose numbers are those of the texts, names these
    /// by all workers and gives them their grace, and widens the book to the names. After an error
    /// the session is gone.
    fn add_names<R: Threads + Sync>(
        self,
        rt: &R,
        texts: &Texts,
        valid: Vec<CutTrace<'_>>,
    ) -> Result<NamedBatch, AddFault>
        requires few { All HasFewSegments (map cut_trace valid.items) }
        requires texts { All (λ (c : NumberedCut). c.texts ≡ texts.now) valid.items }
        ensures added { IfOk result (λ b.
            AreNamed self (map cut_trace valid.entry.items) b.session) }
        ensures shown { IfOk result (λ b. AreShown b.session.known b.named.items
            (graced_by b.session.grace (map cut_trace valid.entry.items))) }
        ensures below { IfOk result
            (λ b. All (HaveNamesBelow (length b.session.known.names)) b.named.items) }
        ensures cause { IfErr result (HasNamesCause self.known (map cut_trace valid.entry.items)) }
    {
        let Session {
            alloc,
            workers,
            book,
            given,
            watch,
            grace,
        } = self;
        let nanos = 1000 * u64::from(grace);
        let BookAndBatch { book, named } = name_and_widen(
            rt, alloc, book, texts, valid, nanos, workers,
        )?;
        Ok(NamedBatch {
            session: Session {
                alloc,
                workers,
                book,
                given,
                watch,
                grace,
            },
            named,
        })
    }

    /// Records named traces, and adds their days to the book, all or, after an error, none. Where
    /// there would be too many days, or else too many traces to be counted, none is recorded.
    /// Returns their watch lines.
    fn add_days<R: Threads + Sync, G: Gate + Sync>(
        &mut self,
        rt: &R,
        named: Vec<NamedTrace>,
        gate: &G,
    ) -> Result<Vec<DayLines>, AddFault>
        requires shown { (valid : List Trace) × AreShown self.old.known named.items
            (graced_by self.old.grace valid) }
        requires below { All (HaveNamesBelow (length self.old.known.names)) named.items }
        requires many { kept_count self.old + length named.items < 2 ^ 32 }
        ensures booked { IfOk result (λ watched. (valid : List Trace) → AreShown self.old.known
            named.items (graced_by self.old.grace valid) → AreBooked self.old valid self.new
            watched.items) }
        ensures kept { IfOk result (λ _. kept_count self.new
            ≤ kept_count self.old + length named.items) }
        ensures cause { IfErr result (λ fault. (valid : List Trace) → AreShown self.old.known
            named.items (graced_by self.old.grace valid) → HasDaysCause self.old valid fault) }
    {
        // For the proof alone.
        no_more_are_sheeted();
        let days = list_days_within(self.alloc, &self.book, &named)?;
        if !can_count(&self.given, &self.book, named.len()) {
            return Err(AddFault::Over {
                limit: Limit::Traces,
            });
        }
        let recorded = record_batch(
            rt,
            self.alloc,
            &self.book,
            named,
            &days,
            self.workers,
            self.watch,
            gate,
        )?;
        self.book.add_all(recorded.sheets)?;
        Ok(recorded.watched)
    }

    /// Adds the traces of a gathered batch and prints nothing yet. Workers may wait for the gate.
    /// After an error the session is gone.
    fn add_gathered<R: Threads + Sync, G: Gate + Sync>(
        self,
        rt: &R,
        gathered: &GatheredEvents,
        gate: &G,
    ) -> Result<AddedBatch, AddFault>
        requires timely { All (λ (t : PlainTrace). AreTimely t.events) gathered.now.traces }
        requires short { All (λ (t : PlainTrace). length t.events < 2 ^ 32) gathered.now.traces }
        requires few { (events : List Event) × (gathered.now.traces ≡ traces_of events)
            × (kept_count self + length (requests_of events) < 2 ^ 32) }
        ensures added { IfOk result (λ a. (events : List Event)
            → gathered.now.traces ≡ traces_of events → (s : State) → Shows self s
            → IsAddOf self.workers events s a.session a.refused.items a.watched.items) }
        ensures workers { IfOk result (λ a. a.session.workers ≡ self.workers) }
        ensures kept { IfOk result (λ a. (events : List Event)
            → gathered.now.traces ≡ traces_of events
            → kept_count a.session ≤ kept_count self + length (requests_of events)) }
        ensures cause { IfErr result (λ fault. (events : List Event)
            → gathered.now.traces ≡ traces_of events → (s : State) → Shows self s
            → HasAddCause events s fault) }
    {
        // For the proof alone.
        no_more_are_valid();
        add_leads_on();
        add_passes_days();
        add_passes_traces();
        add_is_told();
        let judged = judge_batch(rt, self.alloc, gathered, self.workers)?;
        let NamedBatch { mut session, named } = self.add_names(rt, gathered.texts(), judged.valid)?;
        let watched = session.add_days(rt, named, gate)?;
        Ok(AddedBatch {
            session,
            refused: judged.refused,
            watched,
        })
    }

    /// Adds the traces of a batch of events and prints nothing yet. Workers may wait for the gate.
    /// After an error the session is gone.
    pub(crate) fn add_batch<R: Threads + Sync, G: Gate + Sync>(
        self,
        rt: &R,
        events: EventParts,
        gate: &G,
    ) -> Result<AddedBatch, AddFault>
        requires timely { AreTimely events }
        requires short { length events < 2 ^ 32 }
        requires few { kept_count self + length (requests_of events) < 2 ^ 32 }
        ensures added { IfOk result (λ a. (s : State) → Shows self s
            → IsAddOf self.workers events s a.session a.refused.items a.watched.items) }
        ensures workers { IfOk result (λ a. a.session.workers ≡ self.workers) }
        ensures kept { IfOk result
            (λ a. kept_count a.session ≤ kept_count self + length (requests_of events)) }
        ensures cause { IfErr result (λ fault. (s : State) → Shows self s
            → HasAddCause events s fault) }
    {
        // For the proof alone.
        traces_keep_facts();
        let gathered = gather(rt, self.alloc, events.into_parts(), self.workers)?;
        self.add_gathered(rt, &gathered, gate)
    }
}
