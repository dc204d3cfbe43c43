use crate::book_lists::list_exclusions;
use judged_books::JudgedBook;
use model_meet::Exclusions;
use segment_names::Catalogue;
use std::alloc::{AllocError, Global};
use trace_graph::{OrderedGraph, graph_by};
use trace_types::NamedTrace;

/// A book with the mutual exclusions that survive it and the given digest, from which the graphs of
/// all of its traces are made. It is seen as the judged book.
#[derive(Drop)]
pub(crate) struct PreparedBook<'a> {
    book: &'a JudgedBook<'a>,
    exclusions: Exclusions<'a>,
}

impl<'a> std::marker::Model for PreparedBook<'a> {
    ghost use Rattle.judged_books.specs.JudgedBooks.{JudgedState};
    ghost use Rattle.trace_rows.specs.inner.PreparedBooks.{AreExclusionsOf};

    ghost Value = { JudgedState };

    ghost view = { λ p. p.book.now };

    ghost invariant = { λ p. AreExclusionsOf p.book.now p.exclusions };
}

impl<'a> PreparedBook<'a> {
    ghost use Rattle.std.specs.Prelude.{◌≡◌, IfOk, length};
    ghost use Rattle.refute_tests.specs.Clearing.{HaveNamesBelow};
    ghost use Rattle.segment_names.specs.Limits.{IsKept};
    ghost use Rattle.model_meet.specs.RelationBits.{KeepsExclusion};
    ghost use Rattle.trace_rules.specs.TraceGraphs.{IsTraceGraph};
    ghost use Rattle.trace_rows.specs.inner.NumberedTraces.{IsNumbered};
    ghost use Rattle.trace_types.specs.Parts.{by_number};
    ghost use Rattle.weighted_dag.specs.Graphs.{IsGraph};

    /// Lists the mutual exclusions that survive a book and its given digest. The only error is that
    /// memory ran out.
    pub(crate) fn of(
        alloc: Global,
        book: &'a JudgedBook<'a>,
    ) -> Result<PreparedBook<'a>, AllocError>
        ensures { IfOk result (λ p. p ≡ book.now) }
    {
        let exclusions = list_exclusions(alloc, book)?;
        Ok(PreparedBook { book, exclusions })
    }

    /// Lends the catalogue.
    pub(crate) fn catalogue(&self) -> &Catalogue
        ensures catalogue { result.now ≡ self.now.book.known }
        ensures kept { IsKept self.now.book.known }
    {
        self.book.book().catalogue()
    }

    /// Makes the graph of a trace by the mutual exclusions that survive. The only error is that
    /// memory ran out.
    pub(crate) fn graph_of(
        &self,
        alloc: Global,
        trace: &NamedTrace,
    ) -> Result<OrderedGraph, AllocError>
        requires { HaveNamesBelow (length self.now.book.known.names) trace.now }
        ensures graph { IfOk result (λ g. IsTraceGraph by_number
            (KeepsExclusion self.now.words) trace.now g.order g.dag) }
        ensures numbered { IfOk result (λ g. IsNumbered (record {
          names = self.now.book.known.names;
          trace = trace.now;
          order = g.order;
          weights = g.dag.weights;
        })) }
        ensures form { IfOk result (λ g. IsGraph g.dag) }
    {
        let made = graph_by(alloc, trace, &self.exclusions)?;
        // For the proof alone.
        let _weights = made.dag.weights();
        Ok(made)
    }
}
