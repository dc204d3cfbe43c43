ghost use Rattle.std.specs.Prelude.{◌≡◌, ◌<◌, [], ◌∷◌, codes, decimal, length};
ghost use Rattle.session_rules.specs.Parts.{SlacksOf};
ghost use Rattle.text_rows.specs.Printing.{PrintsText};
ghost use Rattle.trace_rows.specs.inner.ComputedParts.{AreSlacksUnderBook};
ghost use Rattle.trace_rows.specs.inner.NumberedTraces.{row_of_trace, vertex_slack_row, slack_rows};

use crate::laws::names_are_shown;
use crate::numbered_trace::NumberedTrace;
use crate::prepared_book::PreparedBook;
use crate::trace_texts::TraceTexts;
use crate::vertex_rows::{VertexRows, print_first};
use judged_books::laws::{judged_graph_is_shown, judged_words_tell};
use mystery_io::Sink;
use session_rules::SessionPart;
use slack::{SlackTable, longest_and_slacks};
use std::alloc::{AllocError, Global};
use text_rows::laws::{calls_follow, part_calls_follow};
use text_rows::{Field, PrintFault, RowBuffer, print_row};
use trace_graph::OrderedGraph;
use trace_types::NamedTrace;

/// The slacks of traces.
#[derive(Clone, Copy)]
pub(crate) struct SlackTexts;

/// The longest length of a trace's graph and its slacks, and the graph.
#[derive(Drop)]
pub(crate) struct TraceSlacks {
    graph: OrderedGraph,
    table: SlackTable,
}

/// The segments of a trace with their slacks.
#[derive(Drop)]
struct SegmentRows<'a> {
    trace: &'a NumberedTrace<'a>,
    slacks: &'a [u128],
}

impl VertexRows for SegmentRows<'_> {
    ghost text = { λ rows v. vertex_slack_row rows.trace.now rows.slacks.now v };

    ghost has = { λ rows v. (v < length rows.trace.now.order) × (v < length rows.slacks.now) };

    fn print<S: Sink>(
        &self,
        sink: &mut S,
        buffer: &mut RowBuffer,
        vertex: u32,
    ) -> Result<(), PrintFault> {
        let name = self.trace.name(vertex);
        print_row(
            sink,
            buffer,
            &[
                Field::Word("segment"),
                Field::Word(name.task.as_str()),
                Field::Word(name.start.as_str()),
                Field::Word(name.end.as_str()),
                Field::Number(u128::from(self.trace.weights()[vertex as usize])),
                Field::Number(self.slacks[vertex as usize]),
            ],
        )
    }
}

/// Prints the row of a trace with its longest length.
fn print_length_row<S: Sink>(
    sink: &mut S,
    buffer: &mut RowBuffer,
    numbered: &NumberedTrace<'_>,
    longest: u128,
) -> Result<(), PrintFault>
    ensures { PrintsText S.written S.faults result sink.old sink.new buffer.old buffer.new
        (row_of_trace (codes "trace") numbered.now.trace (decimal longest ∷ [])) }
{
    let trace = numbered.trace();
    print_row(
        sink,
        buffer,
        &[
            Field::Word("trace"),
            Field::Word(trace.request.as_str()),
            Field::Number(u128::from(trace.day)),
            Field::Number(u128::from(trace.latency)),
            Field::Number(longest),
        ],
    )
}

/// Prints the slacks of a trace.
fn print_table<S: Sink>(
    sink: &mut S,
    buffer: &mut RowBuffer,
    numbered: &NumberedTrace<'_>,
    table: &SlackTable,
) -> Result<(), PrintFault>
    requires { length table.now.slacks.items ≡ length numbered.now.order }
    ensures { PrintsText S.written S.faults result sink.old sink.new buffer.old buffer.new
        (slack_rows numbered.now table.now.longest table.now.slacks.items) }
{
    // For the proof alone.
    calls_follow::<S>();
    print_length_row(sink, buffer, numbered, table.longest)?;
    let slacks = table.slacks.as_slice();
    let rows = SegmentRows {
        trace: numbered,
        slacks,
    };
    print_first(sink, buffer, &rows, numbered.count())
}

impl TraceTexts for SlackTexts {
    type Computed = TraceSlacks;

    ghost part = { λ _ given kept k. SlacksOf given kept k };

    ghost computes = { λ _ b t slacks. AreSlacksUnderBook b t slacks.graph.order slacks.graph.dag
        slacks.table.longest slacks.table.slacks.items };

    fn compute(
        &self,
        alloc: Global,
        book: &PreparedBook<'_>,
        trace: &NamedTrace,
    ) -> Result<TraceSlacks, AllocError> {
        let graph = book.graph_of(alloc, trace)?;
        let table = longest_and_slacks(alloc, &graph.dag)?;
        Ok(TraceSlacks { graph, table })
    }

    fn print<S: Sink>(
        &self,
        book: &PreparedBook<'_>,
        trace: &NamedTrace,
        computed: &TraceSlacks,
        sink: &mut S,
        buffer: &mut RowBuffer,
    ) -> Result<(), PrintFault> {
        // For the proof alone.
        judged_graph_is_shown();
        judged_words_tell();
        names_are_shown();
        part_calls_follow::<S, SessionPart>();
        let numbered = NumberedTrace::new(
            book.catalogue(),
            trace,
            computed.graph.order.items(),
            computed.graph.dag.weights(),
        );
        print_table(sink, buffer, &numbered, &computed.table)
    }
}
