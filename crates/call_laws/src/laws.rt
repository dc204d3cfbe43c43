//! Laws over the definitions alone: each function does nothing, and its contract is the law.
ghost use Rattle.call_laws.specs.CallLaws.{CallsAreTogether, EntriesAreCalledByNone};
ghost use Rattle.call_laws.specs.CallLaws.{EverySpanIsCalled, InputsHaveCalls, SpansAreCalledOnce};
ghost use Rattle.call_laws.specs.ContextLaws.{ContextsAreOfOneCall, GroupsHaveOneAbove};
ghost use Rattle.call_laws.specs.OrderLaws.{RequestsKeepTheirCalls};
ghost use Rattle.call_laws.specs.OverlapLaws.{ForksAreOfOverlaps, GroupsAreOfOverlaps};
ghost use Rattle.call_laws.specs.OverlapLaws.{PartnersTellOverlaps};

/// The calls of an input are those of which the laws below speak.
pub fn inputs_have_calls()
    ensures { InputsHaveCalls }
{}

/// Each span of the requests that are asked for is one call.
pub fn spans_are_called_once()
    ensures { SpansAreCalledOnce }
{}

/// Where no request is asked for, each span is a call.
pub fn every_span_is_called()
    ensures { EverySpanIsCalled }
{}

/// A call without a caller is an entry.
pub fn entries_are_called_by_none()
    ensures { EntriesAreCalledByNone }
{}

/// The calls of a request stand together: no entry stands between a call and its caller.
pub fn calls_are_together()
    ensures { CallsAreTogether }
{}

/// Two calls of one request that have one context are one call.
pub fn contexts_are_of_one_call()
    ensures { ContextsAreOfOneCall }
{}

/// Two contexts of one group are below the same context.
pub fn groups_have_one_above()
    ensures { GroupsHaveOneAbove }
{}

/// A call has a partner exactly where it overlaps some earlier call.
pub fn partners_tell_overlaps()
    ensures { PartnersTellOverlaps }
{}

/// Contexts are forked as all overlaps of calls tell, pair by pair.
pub fn forks_are_of_overlaps()
    ensures { ForksAreOfOverlaps }
{}

/// Contexts are grouped as all overlaps of calls join them, pair by pair.
pub fn groups_are_of_overlaps()
    ensures { GroupsAreOfOverlaps }
{}

/// The calls of a request do not depend on the order of the spans in the input.
pub fn requests_keep_their_calls()
    ensures { RequestsKeepTheirCalls }
{}
