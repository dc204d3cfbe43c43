ghost use Rattle.std.specs.Prelude.{◌≡◌, ◌<◌, ◌≤◌, ◌^◌, ◌-◌, ◌++◌, List, ℕ, Some, None, length};
ghost use Rattle.std.specs.Prelude.{slice_get, IfErr, IfNone, IfOk, IfSome, OnOk};
ghost use Rattle.std.specs.Option.{option_to_list};
ghost use Rattle.std.specs.Str.{bytes_eq};
ghost use Rattle.trace_types.specs.Firsts.{firsts_of};
ghost use Rattle.trace_types.specs.Limits.{most_names, most_tasks};
ghost use Rattle.trace_types.specs.Segments.{name_of};
ghost use Rattle.segment_names.specs.Known.{name_number};
ghost use Rattle.segment_names.specs.Limits.{Fits};
ghost use Rattle.segment_names.specs.Naming.{IsFirstUnknown, IsNamed, IsRefused};
ghost use Rattle.event_table.specs.Texts.{AreDifferent};
ghost use Rattle.segment_names.specs.inner.Filing.{known_in};
ghost use Rattle.segment_names.specs.inner.Numbering.{AreNumbered, IsElementAt, IsCause};

use crate::tables::{Tables, intern};
use crate::unnamed::Unnamed;
use crate::{Catalogue, NameOne};
use indexmap::IndexSet;
use std::alloc::{AllocError, Global};
use trace_types::laws::numbering_is_one_to_one;
use trace_types::{NameText, NamedSegment, NamedSegmentList, NamedTrace, Segment, Text, Trace};

/// Gives the number of an element, which is the next one where the element is new.
pub(crate) fn number_element(
    elements: &mut IndexSet<Text>,
    element: Option<Text>,
) -> Result<Option<u32>, AllocError>
    requires differ { AreDifferent elements.old.keys }
    requires few { length elements.old.keys < 2 ^ 32 - 1 }
    ensures differ { AreDifferent elements.new.keys }
    ensures grown { (more : List (List ℕ)) × (elements.new.keys ≡ elements.old.keys ++ more) }
    ensures keys { OnOk result (elements.new.keys
        ≡ firsts_of bytes_eq (elements.old.keys ++ option_to_list element)) }
    ensures number { IfOk result (λ number. IsElementAt elements.new.keys number element) }
{
    match element {
        Some(text) => {
            let index = intern(elements, text)?;
            Ok(Some(index as u32))
        }
        None => Ok(None),
    }
}

/// Gives the numbers of the name of these texts and of its task.
pub(crate) fn numbers(tables: &Tables, task: &Text, start: &Text, end: &Text) -> Option<(u32, u32)>
    requires { Fits (known_in tables.now) }
    ensures absent { IfNone result (name_number (known_in tables.now) (task.now, start.now, end.now)
        ≡ None) }
    ensures number { IfSome result (λ r. name_number (known_in tables.now)
        (task.now, start.now, end.now) ≡ Some r.0) }
    ensures name { IfSome result (λ r. slice_get (known_in tables.now).names r.0
        ≡ Some (task.now, start.now, end.now)) }
    ensures task { IfSome result (λ r. slice_get (known_in tables.now).tasks r.1
        ≡ Some task.now) }
    ensures below { IfSome result (λ r. (r.0 < most_names) × (r.1 < most_tasks)) }
{
    let (name, task) = tables.look_up(task, start, end)?;
    Some((name as u32, task as u32))
}

/// Copies a text, where there is one.
fn copy_optional(alloc: Global, text: &Option<Text>) -> Result<Option<Text>, AllocError>
    ensures { IfOk result (λ copy. copy ≡ text.now) }
{
    match text {
        Some(text) => Ok(Some(text.copy(alloc)?)),
        None => Ok(None),
    }
}

/// Makes the named segment by these numbers.
fn make_by_numbers(segment: &Segment, name: u32, task: u32, element: Option<u32>) -> NamedSegment
    requires name { name < most_names }
    requires task { task < most_tasks }
    ensures name { result.name ≡ name }
    ensures task { result.task ≡ task }
    ensures element { result.element ≡ element }
    ensures start { result.start ≡ segment.now.start }
    ensures end { result.end ≡ segment.now.end }
{
    NamedSegment {
        name,
        task,
        element,
        start: segment.start,
        end: segment.end,
    }
}

/// Names segments, and numbers their elements by first sight.
fn name_segments(
    catalogue: &Catalogue,
    alloc: Global,
    segments: &[Segment],
) -> Result<Vec<NamedSegment>, Unnamed>
    requires { length segments.now ≤ 4096 }
    ensures named { IfOk result (λ named. AreNumbered catalogue.now segments.now named.items) }
    ensures cause { IfErr result (IsCause catalogue.now segments.now) }
{
    let tables = &catalogue.tables;
    let mut elements = IndexSet::new(alloc);
    let mut named = Vec::with_capacity(alloc, segments.len())?;
    for (index, segment) in segments.iter().enumerate() {
        let Some((name, task)) = numbers(
            tables,
            &segment.task,
            &segment.start_event,
            &segment.end_event,
        ) else {
            return Err(Unnamed::Unknown {
                segment: index as u32,
            });
        };
        let element = copy_optional(alloc, &segment.element)?;
        let number = number_element(&mut elements, element)?;
        named.push(make_by_numbers(segment, name, task, number))?;
    }
    Ok(named)
}

impl Catalogue {
    /// Names the segments of a trace by the catalogue's numbers, and its elements by their own,
    /// from 0 by first sight. The grace is 0.
    pub fn name(&self, alloc: Global, trace: Trace) -> Result<NamedTrace, NameOne>
        requires { length trace.segments ≤ 4096 }
        ensures request { IfOk result (λ named. named.request ≡ trace.request) }
        ensures day { IfOk result (λ named. named.day ≡ trace.day) }
        ensures latency { IfOk result (λ named. named.latency ≡ trace.latency) }
        ensures named { IfOk result (λ named. IsNamed self.now named trace) }
        ensures refused { IfErr result (IsRefused self.now trace) }
    {
        // For the proof alone.
        numbering_is_one_to_one::<NameText>();
        numbering_is_one_to_one::<Text>();
        match name_segments(self, alloc, trace.segments.items()) {
            Ok(segments) => Ok(NamedTrace {
                request: trace.request,
                day: trace.day,
                latency: trace.latency,
                grace: 0,
                segments: NamedSegmentList::of(segments),
            }),
            Err(Unnamed::Memory) => Err(NameOne::Memory { trace }),
            Err(Unnamed::Unknown { segment }) => Err(NameOne::Unknown { trace, segment }),
        }
    }
}
