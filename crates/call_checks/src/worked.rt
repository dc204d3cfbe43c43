ghost use Rattle.std.specs.Prelude.{◌≡◌, ◌<◌, length, IfOk};
ghost use Rattle.call_contexts.specs.Contexts.{AreContexts, HaveAbove, frames_of};
ghost use Rattle.linked_groups.specs.Groups.{AreLinksBelow};
ghost use Rattle.span_calls.specs.Calls.{AreBefore, StartInOrder};

use call_contexts::{Contexts, find_contexts, find_threads, order_contexts};
use context_forks::{Forks, calls_below, find_forks};
use linked_groups::find_groups;
use span_calls::{Call, find_calls};
use span_requests::find_requests;
use span_types::{Span, SpanKind};
use std::alloc::{AllocError, Global};
use trace_types::Text;

/// Makes a span of one trace and one machine, with an empty parent for none.
fn made(alloc: Global, texts: [&str; 3], times: (u64, u64)) -> Result<Span, AllocError> {
    let parent = if texts[1].is_empty() {
        None
    } else {
        Some(Text::new(alloc, texts[1])?)
    };
    Ok(Span {
        trace: Text::new(alloc, "t")?,
        id: Text::new(alloc, texts[0])?,
        parent,
        service: Text::new(alloc, "s")?,
        machine: Text::new(alloc, "h")?,
        name: Text::new(alloc, texts[2])?,
        kind: SpanKind::Internal,
        start: times.0,
        end: times.1,
    })
}

/// Makes spans of rows.
fn all_made(alloc: Global, rows: &[([&str; 3], (u64, u64))]) -> Result<Vec<Span>, AllocError>
    ensures { IfOk result (λ spans. length spans.items ≡ length rows.now) }
{
    let mut spans = Vec::with_capacity(alloc, rows.len())?;
    for (texts, times) in rows {
        spans.push(made(alloc, *texts, *times)?)?;
    }
    Ok(spans)
}

/// Lists the calls of spans, or none where spans have a fault.
fn calls_of<'a>(alloc: Global, spans: &'a [Span]) -> Result<Vec<Call<'a>>, AllocError>
    requires { length spans.now < u32.MAX }
    ensures before { IfOk result (λ calls. AreBefore calls.items) }
    ensures rise { IfOk result (λ calls. StartInOrder calls.items) }
{
    match find_requests(alloc, spans) {
        Ok(requests) => find_calls(alloc, &requests, None),
        Err(_) => Ok(Vec::new(alloc)),
    }
}

/// Finds the forks of calls with these contexts.
fn forks_of(
    alloc: Global,
    calls: &[Call<'_>],
    contexts: &Contexts<'_>,
    grace: u64,
) -> Result<Forks, AllocError>
    requires before { AreBefore calls.now }
    requires rise { StartInOrder calls.now }
    requires contexts { AreContexts calls.now contexts.now.numbers.items
        (frames_of contexts.now.contexts.items) }
    ensures same { IfOk result
        (λ forks. length forks.forked.items ≡ length contexts.now.contexts.items) }
    ensures within { IfOk result
        (λ forks. AreLinksBelow (length contexts.now.contexts.items) forks.links.items) }
{
    let below = calls_below(alloc, calls)?;
    let count = contexts.contexts.len();
    find_forks(alloc, calls, &below, &contexts.numbers, count, grace)
}

/// Tells whether the worked calls have these contexts in this order.
fn are_placed(alloc: Global, contexts: &Contexts<'_>) -> Result<bool, AllocError>
    requires { HaveAbove (frames_of contexts.now.contexts.items) }
{
    let order = order_contexts(alloc, &contexts.contexts)?;
    Ok(
        contexts.numbers.as_slice() == [0usize, 1, 2, 3, 4, 5].as_slice()
            && order.order.as_slice() == [0usize, 1, 5, 2, 3, 4].as_slice(),
    )
}

/// Tells whether contexts with these forks have these threads.
fn are_run(
    alloc: Global,
    contexts: &Contexts<'_>,
    forks: &Forks,
    wanted: &[usize],
) -> Result<bool, AllocError>
    requires above { HaveAbove (frames_of contexts.now.contexts.items) }
    requires same { length forks.now.forked.items ≡ length contexts.now.contexts.items }
{
    let threads = find_threads(alloc, &contexts.contexts, &forks.forked)?;
    Ok(threads.as_slice() == wanted)
}

/// Tells whether links make these groups.
fn are_grouped(
    alloc: Global,
    count: usize,
    links: &[(usize, usize)],
    wanted: &[usize],
) -> Result<bool, AllocError>
    requires { AreLinksBelow count links.now }
{
    let groups = find_groups(alloc, count, links)?;
    Ok(groups.as_slice() == wanted)
}

/// What is wanted of forks.
#[derive(Clone, Copy)]
struct Wanted<'a> {
    forked: &'a [bool],
    links: &'a [(usize, usize)],
    groups: &'a [usize],
    threads: &'a [usize],
}

/// Tells whether calls with these contexts have the forks, groups and threads that are wanted.
fn are_forked(
    alloc: Global,
    calls: &[Call<'_>],
    contexts: &Contexts<'_>,
    grace: u64,
    wanted: &Wanted<'_>,
) -> Result<bool, AllocError>
    requires before { AreBefore calls.now }
    requires rise { StartInOrder calls.now }
    requires contexts { AreContexts calls.now contexts.now.numbers.items
        (frames_of contexts.now.contexts.items) }
{
    let forks = forks_of(alloc, calls, contexts, grace)?;
    let run = are_run(alloc, contexts, &forks, wanted.threads)?;
    let count = contexts.contexts.len();
    let grouped = are_grouped(alloc, count, &forks.links, wanted.groups)?;
    Ok(
        run && grouped
            && forks.forked.as_slice() == wanted.forked
            && forks.links.as_slice() == wanted.links,
    )
}

/// Tells whether spans have the worked contexts, and the forks that are wanted.
fn are_worked(
    alloc: Global,
    spans: &[Span],
    grace: u64,
    wanted: &Wanted<'_>,
) -> Result<bool, AllocError>
    requires { length spans.now < u32.MAX }
{
    let calls = calls_of(alloc, spans)?;
    let contexts = find_contexts(alloc, &calls)?;
    let placed = are_placed(alloc, &contexts)?;
    let forked = are_forked(alloc, &calls, &contexts, grace, wanted)?;
    Ok(placed && forked)
}

// Two calls `y` run beside the first call `x`; the second call `x` begins as the first one ends.
#[test]
fn calls_that_overlap_are_forked(rt: HostRuntime) -> Result<(), AllocError> {
    let spans = all_made(
        rt.alloc(),
        &[
            (["d", "r", "x"], (60, 70)),
            (["e", "b", "z"], (21, 28)),
            (["c", "r", "y"], (25, 50)),
            (["r", "", "w"], (0, 100)),
            (["b", "r", "y"], (20, 30)),
            (["a", "r", "x"], (10, 60)),
        ],
    )?;
    let beside = Wanted {
        forked: &[false, true, true, false, true, false],
        links: &[(1, 2), (1, 4)],
        groups: &[0, 1, 1, 3, 1, 5],
        threads: &[0, 1, 2, 2, 4, 0],
    };
    let found = are_worked(rt.alloc(), &spans, 0, &beside)?;
    assert!(rt; found);
    let within_grace = Wanted {
        forked: &[false, false, false, false, false, false],
        links: &[],
        groups: &[0, 1, 2, 3, 4, 5],
        threads: &[0, 0, 0, 0, 0, 0],
    };
    let found = are_worked(rt.alloc(), &spans, 40, &within_grace)?;
    assert!(rt; found);
    Ok(())
}
