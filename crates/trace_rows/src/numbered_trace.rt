use segment_names::Catalogue;
use std::marker::Model;
use trace_types::{NameText, NamedTrace};

/// A trace with the order and the weights of its graph's vertices, and the catalogue of its names.
#[derive(Drop)]
pub(crate) struct NumberedTrace<'a> {
    catalogue: &'a Catalogue,
    trace: &'a NamedTrace,
    order: &'a [u32],
    weights: &'a [u64],
}

impl<'a> Model for NumberedTrace<'a> {
    ghost use Rattle.trace_rows.specs.inner.NumberedTraces as numbered;

    ghost Value = { numbered.NumberedTrace };

    ghost view = { λ n. record {
      names = n.catalogue.now.names;
      trace = n.trace.now;
      order = n.order.now;
      weights = n.weights.now;
    } };

    ghost invariant = { λ n. numbered.IsNumbered (record {
      names = n.catalogue.now.names;
      trace = n.trace.now;
      order = n.order.now;
      weights = n.weights.now;
    }) };
}

impl<'a> NumberedTrace<'a> {
    ghost use Rattle.std.specs.Prelude.{◌≡◌, ◌<◌, length};
    ghost use Rattle.trace_rows.specs.inner.NumberedTraces.{IsNumbered, vertex_name};

    /// Lends a trace, the order and the weights of its graph's vertices, and the catalogue. It takes
    /// no memory.
    pub(crate) fn new(
        catalogue: &'a Catalogue,
        trace: &'a NamedTrace,
        order: &'a [u32],
        weights: &'a [u64],
    ) -> NumberedTrace<'a>
        requires { IsNumbered (record {
          names = catalogue.now.names;
          trace = trace.now;
          order = order.now;
          weights = weights.now;
        }) }
        ensures { result ≡ record {
          names = catalogue.now.names;
          trace = trace.now;
          order = order.now;
          weights = weights.now;
        } }
    {
        NumberedTrace {
            catalogue,
            trace,
            order,
            weights,
        }
    }

    /// Lends the trace.
    pub(crate) fn trace(&self) -> &NamedTrace
        ensures { result.now ≡ self.now.trace }
    {
        self.trace
    }

    /// Returns the number of vertices.
    pub(crate) fn count(&self) -> u32
        ensures count { result ≡ length self.now.weights }
        ensures each { result ≡ length self.now.order }
    {
        self.weights.len() as u32
    }

    /// Returns the weight of each vertex, in nanoseconds.
    pub(crate) fn weights(&self) -> &[u64]
        ensures weights { result.now ≡ self.now.weights }
        ensures each { length result.now ≡ length self.now.order }
    {
        self.weights
    }

    /// Returns the name of a vertex's segment.
    pub(crate) fn name(&self, vertex: u32) -> &NameText
        requires { vertex < length self.now.order }
        ensures { result.now ≡ vertex_name self.now vertex }
    {
        let place = self.order[vertex as usize];
        let segment = self.trace.segments.items()[place as usize];
        self.catalogue.text_of(segment.name)
    }
}
