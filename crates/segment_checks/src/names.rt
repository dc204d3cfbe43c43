//! Names and tasks by number, and traces of one segment named by them.
ghost use Rattle.std.specs.Prelude.{◌≡◌, length};

use segment_names::{Catalogue, NameFault, NameLimit, NameOne};
use std::process::Abort;
use std::rt::HostRuntime;
use trace_types::{NameText, NamedTrace, Segment, SegmentList, Text, Trace};

/// Makes a text.
fn text(rt: &(impl Abort + AllocGlobal), text: &str) -> Text {
    Text::new(rt.alloc(), text).expect(rt, "memory")
}

/// A trace of one segment.
fn single(rt: &(impl Abort + AllocGlobal), task: &str, start: &str) -> Trace
    ensures { length result.segments ≡ 1 }
{
    let segment = Segment {
        task: text(rt, task),
        start_event: text(rt, start),
        end_event: text(rt, "e"),
        start: 5,
        end: 9,
        element: Some(text(rt, "page")),
    };
    Trace {
        request: text(rt, "r1"),
        day: 3,
        latency: 4,
        segments: SegmentList::of(vec![in rt.alloc(); segment].expect(rt, "memory")),
    }
}

/// A catalogue of the names (b, s, e) and (a, s, e), in this order.
fn two_names(rt: &(impl Abort + AllocGlobal)) -> Catalogue {
    let mut catalogue = Catalogue::new(rt.alloc());
    assert!(rt; catalogue.add(rt.alloc(), &single(rt, "b", "s")) == Ok(()));
    assert!(rt; catalogue.add(rt.alloc(), &single(rt, "a", "s")) == Ok(()));
    assert!(rt; catalogue.add(rt.alloc(), &single(rt, "b", "s")) == Ok(()));
    catalogue
}

/// Tells whether a catalogue of two names has them and their tasks in their order.
fn are_in_order(catalogue: &Catalogue, second: &NameText) -> bool {
    catalogue.find(second) == Some(1)
        && catalogue.find_task(&second.task) == Some(1)
        && catalogue.names() == 2
        && catalogue.tasks() == 2
        && catalogue.text_of(0).task.as_str() == "b"
        && catalogue.task_text(1).as_str() == "a"
}

/// Makes the name of the task `a`.
fn second_name(rt: &(impl Abort + AllocGlobal)) -> NameText {
    NameText {
        task: text(rt, "a"),
        start: text(rt, "s"),
        end: text(rt, "e"),
    }
}

#[test]
fn names_and_tasks_are_numbered_by_first_sight(rt: HostRuntime) {
    let catalogue = two_names(&rt);
    let told = are_in_order(&catalogue, &second_name(&rt));
    assert!(rt; told);
}

/// Gives the numbers of the name, the task and the element of the only segment.
fn only_numbers(named: &NamedTrace) -> Option<(u32, u32, Option<u32>)> {
    let segments = named.segments.items();
    if segments.len() != 1 {
        return None;
    }
    Some((segments[0].name, segments[0].task, segments[0].element))
}

/// Names the trace of one segment of a task, and gives its numbers, unless its name is unknown.
fn numbers_given(
    rt: &(impl Abort + AllocGlobal),
    catalogue: &Catalogue,
    task: &str,
) -> Option<(u32, u32, Option<u32>)> {
    match catalogue.name(rt.alloc(), single(rt, task, "s")) {
        Ok(named) => only_numbers(&named),
        Err(_fault) => None,
    }
}

#[test]
fn a_trace_is_named(rt: HostRuntime) {
    let catalogue = two_names(&rt);
    let numbers = numbers_given(&rt, &catalogue, "a");
    assert!(rt; numbers == Some((1, 1, Some(0))));
}

/// Names the trace of one segment of a task. Gives its first unknown segment and its day, if its
/// name is unknown.
fn unknown_given(
    rt: &(impl Abort + AllocGlobal),
    catalogue: &Catalogue,
    task: &str,
) -> Option<(u32, u32)> {
    match catalogue.name(rt.alloc(), single(rt, task, "s")) {
        Err(NameOne::Unknown { trace, segment }) => Some((segment, trace.day)),
        Err(_fault) => None,
        Ok(_named) => None,
    }
}

#[test]
fn an_unknown_segment_is_told(rt: HostRuntime) {
    let catalogue = two_names(&rt);
    let unknown = unknown_given(&rt, &catalogue, "c");
    assert!(rt; unknown == Some((0, 3)));
}

/// Adds one name a turn, of one task or each of its own, and gives the first fault.
fn first_fault(
    rt: &(impl Abort + AllocGlobal),
    catalogue: &mut Catalogue,
    one_task: bool,
) -> Option<NameFault> {
    for number in 0..600u32 {
        let event = format!(in rt.alloc(); "x{number}").expect(rt, "memory");
        let task = if one_task { "a" } else { event.as_str() };
        let trace = single(rt, task, event.as_str());
        if let Err(fault) = catalogue.add(rt.alloc(), &trace) {
            return Some(fault);
        }
    }
    None
}

/// Gives the first fault, and how many names and tasks there are then.
fn first_limit(rt: &(impl Abort + AllocGlobal), one_task: bool) -> (Option<NameFault>, u32, u32) {
    let mut catalogue = Catalogue::new(rt.alloc());
    let fault = first_fault(rt, &mut catalogue, one_task);
    (fault, catalogue.names(), catalogue.tasks())
}

/// The fault of too many names, with how many there would be.
fn over_names(count: u32) -> Option<NameFault> {
    Some(NameFault::Over {
        limit: NameLimit::Names { count },
    })
}

/// The fault of too many tasks, with how many there would be.
fn over_tasks(count: u32) -> Option<NameFault> {
    Some(NameFault::Over {
        limit: NameLimit::Tasks { count },
    })
}

#[test]
fn limits_are_told_and_nothing_is_added(rt: HostRuntime) {
    let (fault, names, tasks) = first_limit(&rt, true);
    assert!(rt; fault == over_names(513));
    assert!(rt; names == 512 && tasks == 1);
    let (fault, names, tasks) = first_limit(&rt, false);
    assert!(rt; fault == over_tasks(65));
    assert!(rt; names == 64 && tasks == 64);
}
