//! How many traces are printed together, and how many of them by one thread. It changes only time
//! and memory.
ghost use Rattle.std.specs.Prelude.{◌≡◌, ◌<◌, ◌≤◌, length, IfOk};
ghost use Rattle.trace_rows.specs.inner.Pieces.{traces_of_pieces};

use std::alloc::{AllocError, Global};
use trace_types::NamedTrace;

/// How much the traces of a chunk cost together, at most, unless one alone costs more.
const CHUNK_COST: u64 = 16_000_000;

/// A piece may always cost this much; less is not worth a thread.
const PIECE_COST: u64 = 250_000;

/// A piece may cost one part in so many of its chunk.
const CHUNK_PARTS: u64 = 16;

/// How much each trace costs besides its pairs of segments.
const TRACE_COST: u64 = 1_000;

/// Estimates the cost of a trace: its pairs of segments, and what each trace costs.
fn trace_cost(trace: &NamedTrace) -> u64 {
    let segments = trace.segments.items().len() as u64;
    segments.saturating_mul(segments).saturating_add(TRACE_COST)
}

/// Counts the first of these traces that cost at most so much together: at least one, whatever it
/// costs.
fn count_within(traces: &[&NamedTrace], most: u64) -> usize
    requires { 0 < length traces.now }
    ensures some { 0 < result }
    ensures within { result ≤ length traces.now }
{
    let mut cost = trace_cost(traces[0]);
    for place in 1..traces.len() {
        cost = cost.saturating_add(trace_cost(traces[place]));
        if cost > most {
            return place;
        }
    }
    traces.len()
}

/// Counts the first of these traces that make a chunk: at least one.
pub(crate) fn chunk_length(traces: &[&NamedTrace]) -> usize
    requires { 0 < length traces.now }
    ensures some { 0 < result }
    ensures within { result ≤ length traces.now }
{
    count_within(traces, CHUNK_COST)
}

/// Gives how much a piece of these traces costs at most, unless one trace alone costs more.
fn piece_cost(traces: &[&NamedTrace]) -> u64 {
    let cost = traces
        .iter()
        .fold(0u64, |cost, trace| cost.saturating_add(trace_cost(trace)));
    PIECE_COST.max(cost / CHUNK_PARTS)
}

/// Traces that one thread makes a text of.
#[derive(Clone, Copy)]
pub(crate) struct Piece<'a> {
    pub(crate) traces: &'a [&'a NamedTrace],
}

/// Cuts traces into pieces, each as long as its cost allows and of at least one trace. The only
/// error is that memory ran out.
pub(crate) fn cut_pieces<'a>(
    alloc: Global,
    traces: &'a [&'a NamedTrace],
) -> Result<Vec<Piece<'a>>, AllocError>
    ensures { IfOk result (λ pieces. traces_of_pieces pieces.items ≡ traces.now) }
{
    let most = piece_cost(traces);
    let mut pieces = Vec::new(alloc);
    let mut at = 0;
    'pieces: while at < traces.len() {
        let end = at + count_within(&traces[at..], most);
        pieces.push(Piece {
            traces: &traces[at..end],
        })?;
        at = end;
    }
    Ok(pieces)
}
