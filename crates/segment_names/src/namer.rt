ghost use Rattle.std.specs.Prelude.{◌≡◌, ◌≢◌, ◌<◌, ◌≤◌, None, All, IsTrue, length};
ghost use Rattle.std.specs.Prelude.{IfNone, IfOk, IfSome, is_some};
ghost use Rattle.trace_types.specs.Limits.{most_names, most_tasks};
ghost use Rattle.trace_types.specs.Segments.{name_of};
ghost use Rattle.segment_cut.specs.NumberedCuts.{HasTexts, segment_under, segments_under};
ghost use Rattle.segment_names.specs.Known.{name_number};
ghost use Rattle.segment_names.specs.Naming.{HasUnknown, IsNamed};
ghost use Rattle.segment_names.specs.inner.Numbering.{AreNumbered};
ghost use Rattle.segment_names.specs.inner.Slots.{AreSlots, IsKnownAs, IsOf, no_name};

use crate::Catalogue;
use crate::naming::number_element;
use crate::slot::{EMPTY, NO_NAME, Slot};
use event_table::Texts;
use indexmap::IndexSet;
use segment_cut::{CutSegment, CutTrace, copy_element, element_of};
use std::alloc::{AllocError, Global};
use std::marker::Model;
use trace_types::laws::numbering_is_one_to_one;
use trace_types::{NameText, NamedSegment, NamedSegmentList, NamedTrace, Text};

/// How many names a namer remembers: one for each number that `slot_index` may give.
const SLOTS: usize = 1024;

/// Names traces of a batch whose names are all in a catalogue, and remembers what it looked up by
/// the numbers of the texts. Seen as the catalogue and the texts.
#[derive(Drop)]
pub struct Namer<'a> {
    catalogue: &'a Catalogue,
    texts: &'a Texts,
    slots: Vec<Slot>,
}

impl<'a> Model for Namer<'a> {
    ghost use Rattle.segment_names.specs.Namers.{NamesBy};
    ghost use Rattle.segment_names.specs.inner.Slots.{AreSlots};

    ghost Value = { NamesBy };

    ghost view = { λ n. record { known = n.catalogue.now; texts = n.texts.now } };

    ghost invariant = { λ n. AreSlots n.catalogue.now n.texts.now n.slots.items };
}

/// Gives the index of the slot of a segment's name. Names may share one.
fn slot_index(segment: &CutSegment) -> usize
    ensures { result < 1024 }
{
    let mixed = u64::from(segment.task) << 32
        ^ u64::from(segment.start_event) << 16
        ^ u64::from(segment.end_event);
    (mixed.wrapping_mul(0x9e37_79b9_7f4a_7c15) >> 54) as usize
}

/// Tells whether a slot is filled, by a segment with the numbers of this one.
fn is_of(slot: &Slot, segment: &CutSegment) -> bool
    ensures filled { IsTrue result → slot.now.name ≢ no_name }
    ensures of { IsTrue result → IsOf slot.now segment.now }
{
    slot.name != NO_NAME
        && slot.task == segment.task
        && slot.start_event == segment.start_event
        && slot.end_event == segment.end_event
}

/// Looks the name of a segment up by its texts.
fn look_up(catalogue: &Catalogue, texts: &Texts, segment: &CutSegment) -> Option<Slot>
    requires { HasTexts texts.now segment.now }
    ensures absent { IfNone result (name_number catalogue.now
        (name_of (segment_under texts.now segment.now)) ≡ None) }
    ensures of { IfSome result (λ slot. IsOf slot segment.now) }
    ensures known { IfSome result (IsKnownAs catalogue.now (segment_under texts.now segment.now)) }
{
    let task = texts.tasks().text(segment.task);
    let start = texts.names().text(segment.start_event);
    let end = texts.names().text(segment.end_event);
    let (name, known_task) = catalogue.look_up(task, start, end)?;
    Some(Slot {
        task: segment.task,
        start_event: segment.start_event,
        end_event: segment.end_event,
        name: name as u16,
        known_task: known_task as u8,
        has_element: element_of(start.as_str()).is_some(),
    })
}

/// Gives what the catalogue has for the name of a segment. Looks at its slot first, and else fills
/// it.
fn find(
    catalogue: &Catalogue,
    texts: &Texts,
    slots: &mut [Slot],
    segment: &CutSegment,
) -> Option<Slot>
    requires within { HasTexts texts.now segment.now }
    requires slots { AreSlots catalogue.now texts.now slots.old }
    ensures slots { AreSlots catalogue.now texts.now slots.new }
    ensures absent { IfNone result (name_number catalogue.now
        (name_of (segment_under texts.now segment.now)) ≡ None) }
    ensures known { IfSome result (IsKnownAs catalogue.now (segment_under texts.now segment.now)) }
{
    let index = slot_index(segment);
    let slot = slots[index];
    if is_of(&slot, segment) {
        return Some(slot);
    }
    let found = look_up(catalogue, texts, segment)?;
    slots[index] = found;
    Some(found)
}

/// Copies the data element of a segment, where it is told to have one.
fn copy_told_element(
    alloc: Global,
    texts: &Texts,
    segment: &CutSegment,
    has_element: bool,
) -> Result<Option<Text>, AllocError>
    requires within { HasTexts texts.now segment.now }
    requires told { has_element ≡ is_some (segment_under texts.now segment.now).element }
    ensures { IfOk result (λ element. element ≡ (segment_under texts.now segment.now).element) }
{
    if !has_element {
        return Ok(None);
    }
    copy_element(alloc, texts.names().text(segment.start_event))
}

/// Makes the named segment by the numbers of its slot.
fn make_by_slot(segment: &CutSegment, slot: &Slot, element: Option<u32>) -> NamedSegment
    requires name { slot.now.name < most_names }
    requires task { slot.now.known_task < most_tasks }
    ensures name { result.name ≡ slot.now.name }
    ensures task { result.task ≡ slot.now.known_task }
    ensures element { result.element ≡ element }
    ensures start { result.start ≡ segment.now.start }
    ensures end { result.end ≡ segment.now.end }
{
    NamedSegment {
        name: u32::from(slot.name),
        task: u32::from(slot.known_task),
        element,
        start: segment.start,
        end: segment.end,
    }
}

/// Names segments, and numbers their elements by first sight. Gives `None` where some name is not
/// in the catalogue.
fn name_segments(
    alloc: Global,
    catalogue: &Catalogue,
    texts: &Texts,
    slots: &mut [Slot],
    segments: &[CutSegment],
) -> Result<Option<Vec<NamedSegment>>, AllocError>
    requires few { length segments.now ≤ 4096 }
    requires within { All (HasTexts texts.now) segments.now }
    requires slots { AreSlots catalogue.now texts.now slots.old }
    ensures slots { AreSlots catalogue.now texts.now slots.new }
    ensures named { IfOk result (λ named. IfSome named (λ list. AreNumbered catalogue.now
        (segments_under texts.now segments.now) list.items)) }
    ensures unknown { IfOk result (λ named. IfNone named (HasUnknown catalogue.now
        (segments_under texts.now segments.now))) }
{
    // For the proof alone.
    let _names = catalogue.names();
    let mut elements = IndexSet::new(alloc);
    let mut named = Vec::with_capacity(alloc, segments.len())?;
    for segment in segments {
        let Some(slot) = find(catalogue, texts, slots, segment) else {
            return Ok(None);
        };
        let element = copy_told_element(alloc, texts, segment, slot.has_element)?;
        let number = number_element(&mut elements, element)?;
        named.push(make_by_slot(segment, &slot, number))?;
    }
    Ok(Some(named))
}

impl<'a> Namer<'a> {
    /// Makes a namer by this catalogue for traces whose texts are these. The only error is out of
    /// memory.
    pub fn new(
        alloc: Global,
        catalogue: &'a Catalogue,
        texts: &'a Texts,
    ) -> Result<Namer<'a>, AllocError>
        ensures known { IfOk result (λ namer. namer.known ≡ catalogue.now) }
        ensures texts { IfOk result (λ namer. namer.texts ≡ texts.now) }
    {
        Ok(Namer {
            catalogue,
            texts,
            slots: Vec::from_elem(alloc, EMPTY, SLOTS)?,
        })
    }

    /// Names the segments of a trace by the catalogue's numbers, and its elements by their own,
    /// from 0 by first sight. The grace is 0. Gives `None` exactly where some name of the trace is
    /// not in the catalogue. The only error is out of memory.
    pub fn name(
        &mut self,
        alloc: Global,
        trace: &CutTrace<'_>,
    ) -> Result<Option<NamedTrace>, AllocError>
        requires texts { trace.now.texts ≡ self.old.texts }
        requires few { length trace.now.trace.segments ≤ 4096 }
        ensures unchanged { self.new ≡ self.old }
        ensures request { IfOk result
            (λ r. IfSome r (λ named. named.request ≡ trace.now.trace.request)) }
        ensures day { IfOk result (λ r. IfSome r (λ named. named.day ≡ trace.now.trace.day)) }
        ensures latency { IfOk result
            (λ r. IfSome r (λ named. named.latency ≡ trace.now.trace.latency)) }
        ensures named { IfOk result
            (λ r. IfSome r (λ named. IsNamed self.new.known named trace.now.trace)) }
        ensures unknown { IfOk result
            (λ r. IfNone r (HasUnknown self.new.known trace.now.trace.segments)) }
    {
        // For the proof alone.
        numbering_is_one_to_one::<NameText>();
        numbering_is_one_to_one::<Text>();
        let named = name_segments(
            alloc,
            self.catalogue,
            self.texts,
            &mut self.slots,
            trace.segments(),
        )?;
        let Some(segments) = named else {
            return Ok(None);
        };
        Ok(Some(NamedTrace {
            request: trace.request().copy(alloc)?,
            day: trace.day(),
            latency: trace.latency(),
            grace: 0,
            segments: NamedSegmentList::of(segments),
        }))
    }
}
