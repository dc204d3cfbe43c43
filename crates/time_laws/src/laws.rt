//! Laws over the definitions alone: each function does nothing, and its contract is the law.
ghost use Rattle.time_laws.specs.NestedCalls.{NestedSpansHaveNestedCalls};
ghost use Rattle.time_laws.specs.OwnTimes.{SegmentsAreOwnTime};

/// At each instant as many segments of the threads of requests run as calls of them run themselves.
pub fn segments_are_own_time()
    ensures { SegmentsAreOwnTime }
{}

/// Where spans of one machine run within their callers, so do their calls, as they are seen.
pub fn nested_spans_have_nested_calls()
    ensures { NestedSpansHaveNestedCalls }
{}
