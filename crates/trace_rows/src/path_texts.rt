ghost use Rattle.std.specs.Prelude.{◌<◌, [], ◌∷◌, codes, decimal, length};
ghost use Rattle.std.specs.List.{All};
ghost use Rattle.session_rules.specs.Parts.{PathOf};
ghost use Rattle.text_rows.specs.Printing.{PrintsText};
ghost use Rattle.trace_rows.specs.inner.ComputedParts.{IsPathUnderBook};
ghost use Rattle.trace_rows.specs.inner.NumberedTraces.{row_of_trace, path_rows, vertex_step_row};

use crate::laws::names_are_shown;
use crate::numbered_trace::NumberedTrace;
use crate::prepared_book::PreparedBook;
use crate::trace_texts::TraceTexts;
use crate::vertex_rows::{VertexRows, print_chain};
use critical_path::{Chain, critical};
use judged_books::laws::{judged_graph_is_shown, judged_words_tell};
use mystery_io::Sink;
use session_rules::SessionPart;
use std::alloc::{AllocError, Global};
use text_rows::laws::{calls_follow, part_calls_follow};
use text_rows::{Field, PrintFault, RowBuffer, print_row};
use trace_graph::OrderedGraph;
use trace_types::NamedTrace;

/// The critical paths of traces.
#[derive(Clone, Copy)]
pub(crate) struct PathTexts;

/// The critical path of a trace, and its graph.
#[derive(Drop)]
pub(crate) struct TracePath {
    graph: OrderedGraph,
    chain: Chain,
}

/// The steps of a path.
#[derive(Drop)]
struct StepRows<'a> {
    trace: &'a NumberedTrace<'a>,
}

impl VertexRows for StepRows<'_> {
    ghost text = { λ rows v. vertex_step_row rows.trace.now v };

    ghost has = { λ rows v. v < length rows.trace.now.order };

    fn print<S: Sink>(
        &self,
        sink: &mut S,
        buffer: &mut RowBuffer,
        vertex: u32,
    ) -> Result<(), PrintFault> {
        let name = self.trace.name(vertex);
        print_row(
            sink,
            buffer,
            &[
                Field::Word("step"),
                Field::Word(name.task.as_str()),
                Field::Word(name.start.as_str()),
                Field::Word(name.end.as_str()),
                Field::Number(u128::from(self.trace.weights()[vertex as usize])),
            ],
        )
    }
}

/// Prints the row of a trace with its path.
fn print_path_row<S: Sink>(
    sink: &mut S,
    buffer: &mut RowBuffer,
    numbered: &NumberedTrace<'_>,
    chain: &Chain,
) -> Result<(), PrintFault>
    ensures { PrintsText S.written S.faults result sink.old sink.new buffer.old buffer.new
        (row_of_trace (codes "path") numbered.now.trace
        (decimal chain.now.length ∷ decimal (length chain.now.vertices) ∷ [])) }
{
    let trace = numbered.trace();
    print_row(
        sink,
        buffer,
        &[
            Field::Word("path"),
            Field::Word(trace.request.as_str()),
            Field::Number(u128::from(trace.day)),
            Field::Number(u128::from(trace.latency)),
            Field::Number(chain.length),
            Field::Number(chain.vertices.items().len() as u128),
        ],
    )
}

/// Prints a path of a trace.
fn print_path<S: Sink>(
    sink: &mut S,
    buffer: &mut RowBuffer,
    numbered: &NumberedTrace<'_>,
    chain: &Chain,
) -> Result<(), PrintFault>
    requires { All (λ v. v < length numbered.now.order) chain.now.vertices }
    ensures { PrintsText S.written S.faults result sink.old sink.new buffer.old buffer.new
        (path_rows numbered.now chain.now.length chain.now.vertices) }
{
    // For the proof alone.
    calls_follow::<S>();
    print_path_row(sink, buffer, numbered, chain)?;
    print_chain(
        sink,
        buffer,
        &StepRows { trace: numbered },
        chain.vertices.items(),
    )
}

impl TraceTexts for PathTexts {
    type Computed = TracePath;

    ghost part = { λ _ given kept k. PathOf given kept k };

    ghost computes = { λ _ b t path.
        IsPathUnderBook b t path.graph.order path.graph.dag path.chain.length path.chain.vertices };

    fn compute(
        &self,
        alloc: Global,
        book: &PreparedBook<'_>,
        trace: &NamedTrace,
    ) -> Result<TracePath, AllocError> {
        let graph = book.graph_of(alloc, trace)?;
        let chain = critical(alloc, &graph.dag)?;
        Ok(TracePath { graph, chain })
    }

    fn print<S: Sink>(
        &self,
        book: &PreparedBook<'_>,
        trace: &NamedTrace,
        computed: &TracePath,
        sink: &mut S,
        buffer: &mut RowBuffer,
    ) -> Result<(), PrintFault> {
        // For the proof alone.
        judged_graph_is_shown();
        judged_words_tell();
        names_are_shown();
        part_calls_follow::<S, SessionPart>();
        let numbered = NumberedTrace::new(
            book.catalogue(),
            trace,
            computed.graph.order.items(),
            computed.graph.dag.weights(),
        );
        print_path(sink, buffer, &numbered, &computed.chain)
    }
}
