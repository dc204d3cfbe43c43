ghost use Rattle.std.specs.Prelude.{◌≡◌, ◌<◌, ◌++◌, [], ◌∷◌, codes, decimal, length};
ghost use Rattle.std.specs.List.{flat_map, range_with_len};
ghost use Rattle.session_rules.specs.Parts.{GraphOf};
ghost use Rattle.session_rules.specs.TraceTexts.{edges_of};
ghost use Rattle.text_rows.specs.Printing.{PrintsText};
ghost use Rattle.trace_rows.specs.inner.ComputedParts.{IsReducedUnderBook};
ghost use Rattle.trace_rows.specs.inner.NumberedTraces.{edge_row, edge_rows, graph_rows};
ghost use Rattle.trace_rows.specs.inner.NumberedTraces.{row_of_trace, vertex_row};
ghost use Rattle.weighted_dag.specs.Graphs.{order_of};

use crate::laws::names_are_shown;
use crate::numbered_trace::NumberedTrace;
use crate::prepared_book::PreparedBook;
use crate::trace_texts::TraceTexts;
use crate::vertex_rows::{VertexRows, print_first};
use judged_books::laws::{judged_graph_is_shown, judged_words_tell};
use mystery_io::Sink;
use session_rules::SessionPart;
use std::alloc::{AllocError, Global};
use text_rows::laws::{calls_follow, part_calls_follow};
use text_rows::{Field, PrintFault, RowBuffer, Rows, print_row, print_rows};
use trace_graph::OrderedGraph;
use trace_types::NamedTrace;
use weighted_dag::{Dag, reduce};

/// The reduced graphs of traces.
#[derive(Clone, Copy)]
pub(crate) struct GraphTexts;

/// The vertices of a graph.
#[derive(Drop)]
struct NumberRows<'a> {
    trace: &'a NumberedTrace<'a>,
}

/// The edges of a graph, by the vertex that they begin with.
#[derive(Drop)]
struct EdgeRows<'a> {
    graph: &'a Dag,
}

/// The edges that begin with one vertex, by the vertex that they lead to.
#[derive(Clone, Copy)]
struct EdgesFrom {
    vertex: u32,
}

impl VertexRows for NumberRows<'_> {
    ghost text = { λ rows v. vertex_row rows.trace.now v };

    ghost has = { λ rows v. v < length rows.trace.now.order };

    fn print<S: Sink>(
        &self,
        sink: &mut S,
        buffer: &mut RowBuffer,
        vertex: u32,
    ) -> Result<(), PrintFault> {
        let name = self.trace.name(vertex);
        print_row(
            sink,
            buffer,
            &[
                Field::Word("vertex"),
                Field::Number(u128::from(vertex)),
                Field::Word(name.task.as_str()),
                Field::Word(name.start.as_str()),
                Field::Word(name.end.as_str()),
                Field::Number(u128::from(self.trace.weights()[vertex as usize])),
            ],
        )
    }
}

impl Rows for EdgesFrom {
    type Item = u32;

    ghost text = { λ rows w. edge_row rows.vertex w };

    fn print<S: Sink>(
        &self,
        sink: &mut S,
        buffer: &mut RowBuffer,
        item: &u32,
    ) -> Result<(), PrintFault> {
        print_row(
            sink,
            buffer,
            &[
                Field::Word("edge"),
                Field::Number(u128::from(self.vertex)),
                Field::Number(u128::from(*item)),
            ],
        )
    }
}

impl VertexRows for EdgeRows<'_> {
    ghost text = { λ rows v. edge_rows rows.graph.now v };

    ghost has = { λ rows v. v < order_of rows.graph.now };

    fn print<S: Sink>(
        &self,
        sink: &mut S,
        buffer: &mut RowBuffer,
        vertex: u32,
    ) -> Result<(), PrintFault> {
        let successors = self.graph.successors(vertex);
        print_rows(sink, buffer, &EdgesFrom { vertex }, successors)
    }
}

/// Counts the edges of a graph.
fn count_edges(graph: &Dag) -> u128
    ensures { result ≡ length (edges_of graph.now) }
{
    let mut count = 0;
    for vertex in 0..graph.weights().len() as u32 {
        count += graph.successors(vertex).len() as u128;
    }
    count
}

/// Prints the row of a trace with the numbers of vertices and edges.
fn print_counts_row<S: Sink>(
    sink: &mut S,
    buffer: &mut RowBuffer,
    numbered: &NumberedTrace<'_>,
    graph: &Dag,
) -> Result<(), PrintFault>
    ensures { PrintsText S.written S.faults result sink.old sink.new buffer.old buffer.new
        (row_of_trace (codes "trace") numbered.now.trace
        (decimal (order_of graph.now) ∷ decimal (length (edges_of graph.now)) ∷ [])) }
{
    let trace = numbered.trace();
    print_row(
        sink,
        buffer,
        &[
            Field::Word("trace"),
            Field::Word(trace.request.as_str()),
            Field::Number(u128::from(trace.day)),
            Field::Number(u128::from(trace.latency)),
            Field::Number(graph.weights().len() as u128),
            Field::Number(count_edges(graph)),
        ],
    )
}

/// Prints the vertices and the edges of a graph.
fn print_parts_of_graph<S: Sink>(
    sink: &mut S,
    buffer: &mut RowBuffer,
    numbered: &NumberedTrace<'_>,
    graph: &Dag,
) -> Result<(), PrintFault>
    requires { graph.now.weights ≡ numbered.now.weights }
    ensures { PrintsText S.written S.faults result sink.old sink.new buffer.old buffer.new
        (flat_map (vertex_row numbered.now) (range_with_len 0 (order_of graph.now))
        ++ flat_map (edge_rows graph.now) (range_with_len 0 (order_of graph.now))) }
{
    // For the proof alone.
    calls_follow::<S>();
    let count = numbered.count();
    print_first(sink, buffer, &NumberRows { trace: numbered }, count)?;
    print_first(sink, buffer, &EdgeRows { graph }, count)
}

/// Prints a graph: its row, its vertices and its edges.
fn print_graph<S: Sink>(
    sink: &mut S,
    buffer: &mut RowBuffer,
    numbered: &NumberedTrace<'_>,
    graph: &Dag,
) -> Result<(), PrintFault>
    requires { graph.now.weights ≡ numbered.now.weights }
    ensures { PrintsText S.written S.faults result sink.old sink.new buffer.old buffer.new
        (graph_rows numbered.now graph.now) }
{
    // For the proof alone.
    calls_follow::<S>();
    print_counts_row(sink, buffer, numbered, graph)?;
    print_parts_of_graph(sink, buffer, numbered, graph)
}

impl TraceTexts for GraphTexts {
    type Computed = OrderedGraph;

    ghost part = { λ _ given kept k. GraphOf given kept k };

    ghost computes = { λ _ b t reduced. IsReducedUnderBook b t reduced.order reduced.dag };

    fn compute(
        &self,
        alloc: Global,
        book: &PreparedBook<'_>,
        trace: &NamedTrace,
    ) -> Result<OrderedGraph, AllocError> {
        let OrderedGraph { order, dag } = book.graph_of(alloc, trace)?;
        let reduced = reduce(alloc, &dag)?;
        Ok(OrderedGraph {
            order,
            dag: reduced,
        })
    }

    fn print<S: Sink>(
        &self,
        book: &PreparedBook<'_>,
        trace: &NamedTrace,
        computed: &OrderedGraph,
        sink: &mut S,
        buffer: &mut RowBuffer,
    ) -> Result<(), PrintFault> {
        // For the proof alone.
        judged_graph_is_shown();
        judged_words_tell();
        names_are_shown();
        part_calls_follow::<S, SessionPart>();
        let numbered = NumberedTrace::new(
            book.catalogue(),
            trace,
            computed.order.items(),
            computed.dag.weights(),
        );
        print_graph(sink, buffer, &numbered, &computed.dag)
    }
}
