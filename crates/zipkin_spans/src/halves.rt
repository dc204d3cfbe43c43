ghost use Rattle.std.specs.Prelude.{◌≡◌, ◌&&◌, ◌||◌, ℕ, List, IfOk, OnOk, option_map};
ghost use Rattle.std.specs.Prelude.{string_bytes};
ghost use Rattle.std.specs.BTreeSet.{contains_text};
ghost use Rattle.span_text.specs.declared.placed.Placed.{Placed as APlaced};
ghost use Rattle.zipkin_spans.specs.Halves.{is_server, is_client, full_id, half_id};
ghost use Rattle.zipkin_spans.specs.Halves.{is_half, has_half};
ghost use Rattle.zipkin_spans.specs.Halves.{parent_apart, as_half, as_child, span_apart, apart};
ghost use Rattle.zipkin_spans.specs.declared.halves.Side.TheVariants.{Client, Server};
ghost use Rattle.zipkin_spans.specs.inner.Sides.{is_side, HasIds, HaveIds};

use span_text::Placed;
use span_types::{Span, SpanKind};
use std::alloc::{AllocError, Global};
use std::collections::BTreeSet;
use trace_types::Text;

/// A side of a call.
#[derive(Clone, Copy, Debug)]
pub(crate) enum Side {
    /// Who calls.
    Client,
    /// Who is called.
    Server,
}

/// Tells whether a kind is of this side.
fn is_of(side: Side, kind: SpanKind) -> bool
    ensures { result ≡ is_side side kind }
{
    match side {
        Side::Client => matches!(kind, SpanKind::Client),
        Side::Server => matches!(kind, SpanKind::Server),
    }
}

/// Gives the id of a span among all traces.
fn full_id(alloc: Global, trace: &str, id: &str) -> Result<String, AllocError>
    ensures { IfOk result (λ s. string_bytes s ≡ full_id trace.now id.now) }
{
    let mut full = String::from_str(alloc, trace)?;
    full.push_str("/")?;
    full.push_str(id)?;
    Ok(full)
}

/// Gives an id with an `s` behind it.
fn half_id(alloc: Global, id: &str) -> Result<Text, AllocError>
    ensures { IfOk result (λ t. t ≡ half_id id.now) }
{
    let mut half = String::from_str(alloc, id)?;
    half.push_str("s")?;
    Text::new(alloc, half.as_str())
}

/// Adds the id of a span among all traces, where it is of the side.
fn add_id(
    alloc: Global,
    side: Side,
    placed: &Placed,
    ids: &mut BTreeSet<String>,
) -> Result<(), AllocError>
    ensures { OnOk result ((q : List ℕ) → contains_text ids.new q
        ≡ (contains_text ids.old q || is_half (is_side side) q placed.now)) }
{
    if !is_of(side, placed.span.kind) {
        return Ok(());
    }
    let full = full_id(alloc, placed.span.trace.as_str(), placed.span.id.as_str())?;
    ids.insert(full)?;
    Ok(())
}

/// Collects the ids among all traces of the spans of a side.
fn ids_of_side(alloc: Global, side: Side, spans: &[Placed]) -> Result<BTreeSet<String>, AllocError>
    ensures { IfOk result (λ ids. HasIds side spans.now ids) }
{
    let mut ids = BTreeSet::new(alloc);
    for placed in spans {
        add_id(alloc, side, placed, &mut ids)?;
    }
    Ok(ids)
}

/// Tells whether a span is the server's half of a shared span.
fn is_server_half(
    alloc: Global,
    clients: &BTreeSet<String>,
    span: &Span,
) -> Result<bool, AllocError>
    ensures { IfOk result (λ b. (all : List APlaced) → HasIds Client all clients.now
        → b ≡ (is_server span.now.kind
        && has_half is_client all (full_id span.now.trace span.now.id))) }
{
    if !is_of(Side::Server, span.kind) {
        return Ok(false);
    }
    let full = full_id(alloc, span.trace.as_str(), span.id.as_str())?;
    Ok(clients.contains(full.as_str()))
}

/// Gives the id of a parent; of a shared span, that of its server's half.
fn parent_apart(
    alloc: Global,
    clients: &BTreeSet<String>,
    servers: &BTreeSet<String>,
    trace: &Text,
    id: Text,
) -> Result<Text, AllocError>
    ensures { IfOk result (λ t. (all : List APlaced) → HaveIds all clients.now servers.now
        → t ≡ parent_apart all trace.now id) }
{
    let full = full_id(alloc, trace.as_str(), id.as_str())?;
    if clients.contains(full.as_str()) && servers.contains(full.as_str()) {
        return half_id(alloc, id.as_str());
    }
    Ok(id)
}

/// Gives the id of a parent that may be absent.
fn parent_if_any(
    alloc: Global,
    clients: &BTreeSet<String>,
    servers: &BTreeSet<String>,
    trace: &Text,
    parent: Option<Text>,
) -> Result<Option<Text>, AllocError>
    ensures { IfOk result (λ t. (all : List APlaced) → HaveIds all clients.now servers.now
        → t ≡ option_map (parent_apart all trace.now) parent) }
{
    match parent {
        Some(id) => {
            let apart = parent_apart(alloc, clients, servers, trace, id)?;
            Ok(Some(apart))
        }
        None => Ok(None),
    }
}

/// Makes the server's half of a shared span a child of the client's.
fn server_half(alloc: Global, span: Span) -> Result<Span, AllocError>
    ensures { IfOk result (λ s. s ≡ as_half span) }
{
    let Span {
        trace,
        id,
        parent: _,
        service,
        machine,
        name,
        kind,
        start,
        end,
    } = span;
    let half = half_id(alloc, id.as_str())?;
    Ok(Span {
        trace,
        id: half,
        parent: Some(id),
        service,
        machine,
        name,
        kind,
        start,
        end,
    })
}

/// Makes a span whose parent is shared a child of the server's half.
fn child_apart(
    alloc: Global,
    clients: &BTreeSet<String>,
    servers: &BTreeSet<String>,
    span: Span,
) -> Result<Span, AllocError>
    ensures { IfOk result (λ s. (all : List APlaced) → HaveIds all clients.now servers.now
        → s ≡ as_child all span) }
{
    let Span {
        trace,
        id,
        parent,
        service,
        machine,
        name,
        kind,
        start,
        end,
    } = span;
    let parent = parent_if_any(alloc, clients, servers, &trace, parent)?;
    Ok(Span {
        trace,
        id,
        parent,
        service,
        machine,
        name,
        kind,
        start,
        end,
    })
}

/// Tells the ids of a span apart from those of the other half.
fn span_apart(
    alloc: Global,
    clients: &BTreeSet<String>,
    servers: &BTreeSet<String>,
    span: Span,
) -> Result<Span, AllocError>
    ensures { IfOk result (λ s. (all : List APlaced) → HaveIds all clients.now servers.now
        → s ≡ span_apart all span) }
{
    if is_server_half(alloc, clients, &span)? {
        return server_half(alloc, span);
    }
    child_apart(alloc, clients, servers, span)
}

/// Tells spans apart, given the ids of the spans of both sides.
fn all_apart(
    alloc: Global,
    clients: &BTreeSet<String>,
    servers: &BTreeSet<String>,
    spans: Vec<Placed>,
) -> Result<Vec<Placed>, AllocError>
    requires { HaveIds spans.items clients.now servers.now }
    ensures { IfOk result (λ v. v.items ≡ apart spans.items) }
{
    let mut told = Vec::with_capacity(alloc, spans.len())?;
    'spans: for placed in spans {
        let span = span_apart(alloc, clients, servers, placed.span)?;
        told.push(Placed {
            place: placed.place,
            span,
        })?;
    }
    Ok(told)
}

/// Tells the halves of shared spans apart. The only error is out of memory.
pub(crate) fn tell_apart(alloc: Global, spans: Vec<Placed>) -> Result<Vec<Placed>, AllocError>
    ensures { IfOk result (λ v. v.items ≡ apart spans.items) }
{
    let clients = ids_of_side(alloc, Side::Client, &spans)?;
    let servers = ids_of_side(alloc, Side::Server, &spans)?;
    all_apart(alloc, &clients, &servers, spans)
}
