ghost use Rattle.std.specs.Prelude.{◌≡◌, ◌<◌, ◌&&◌, All, length, nat_lt, map, IfOk};
ghost use Rattle.context_forks.specs.Partners.{end_of, later_of, start_of};
ghost use Rattle.thread_steps.specs.Parts.{fork_together, grouping_of, parts_of};
ghost use Rattle.thread_steps.specs.inner.CutParts.{goes_on, part_of, part_with};
ghost use Rattle.thread_steps.specs.inner.Groupings.{IsGrouping};

use crate::Forking;
use crate::forking::{group_of, is_forked};
use span_calls::Call;
use std::alloc::{AllocError, Global};

/// A part of the calls of one caller.
#[derive(Clone, Copy, Debug)]
pub(crate) struct Part {
    /// The first call.
    pub(crate) first: usize,
    /// The call that ends last; of several the first.
    pub(crate) last: usize,
}

/// Tells whether two calls are forked, in one group.
fn fork_together(forking: Forking<'_>, one: usize, other: usize) -> bool
    requires grouping { IsGrouping (grouping_of forking) }
    requires one { one < length forking.numbers.now }
    requires other { other < length forking.numbers.now }
    ensures { result ≡ fork_together (grouping_of forking.entry) one other }
{
    is_forked(forking, one)
        && is_forked(forking, other)
        && group_of(forking, one) == group_of(forking, other)
}

/// Tells whether a part goes on with a call.
fn goes_on(calls: &[Call<'_>], forking: Forking<'_>, part: Part, call: usize) -> bool
    requires grouping { IsGrouping (grouping_of forking) }
    requires numbers { length forking.numbers.now ≡ length calls.now }
    requires first { part.first < length calls.now }
    requires last { part.last < length calls.now }
    requires call { call < length calls.now }
    ensures { result ≡ goes_on calls.now (grouping_of forking.entry) part call }
{
    fork_together(forking, part.first, call) && calls[call].start < calls[part.last].end
}

/// Gives which of two calls ends last; of both the first.
fn later_of(calls: &[Call<'_>], one: usize, other: usize) -> usize
    requires one { one < length calls.now }
    requires other { other < length calls.now }
    ensures { result ≡ later_of calls.now one other }
{
    if calls[one].end < calls[other].end {
        other
    } else {
        one
    }
}

/// Gives a part with one more call.
fn part_with(calls: &[Call<'_>], part: Part, call: usize) -> Part
    requires last { part.last < length calls.now }
    requires call { call < length calls.now }
    ensures { result ≡ part_with calls.now part call }
{
    Part {
        first: part.first,
        last: later_of(calls, part.last, call),
    }
}

/// Gives the part of one call.
fn part_from(call: usize) -> Part
    ensures { result ≡ record { first = call; last = call } }
{
    Part {
        first: call,
        last: call,
    }
}

/// Cuts the calls of one caller into parts. The only error is out of memory.
pub(crate) fn cut_parts(
    alloc: Global,
    calls: &[Call<'_>],
    forking: Forking<'_>,
    below: &[usize],
) -> Result<Vec<Part>, AllocError>
    requires grouping { IsGrouping (grouping_of forking) }
    requires numbers { length forking.numbers.now ≡ length calls.now }
    requires within { All (λ j. j < length calls.now) below.now }
    ensures { IfOk result (λ parts. parts.items ≡ map (part_of calls.now)
        (parts_of calls.now (grouping_of forking.entry) below.now)) }
{
    let mut parts = Vec::new(alloc);
    if below.is_empty() {
        return Ok(parts);
    }
    let mut part = part_from(below[0]);
    'calls: for at in 1..below.len() {
        let call = below[at];
        if goes_on(calls, forking, part, call) {
            part = part_with(calls, part, call);
        } else {
            parts.push(part)?;
            part = part_from(call);
        }
    }
    parts.push(part)?;
    Ok(parts)
}
