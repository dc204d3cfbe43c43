ghost use Rattle.std.specs.Prelude.{ℕ, ◌<◌, List};
ghost use Rattle.std.specs.List.{All, flat_map, range_with_len};
ghost use Rattle.text_rows.specs.Printing.{PrintsText};

use mystery_io::Sink;
use text_rows::laws::{calls_follow, texts_follow};
use text_rows::{PrintFault, RowBuffer};

/// A kind of rows of vertices.
pub(crate) trait VertexRows {
    /// The rows of a vertex.
    ghost text: { Self → ℕ → List ℕ };

    /// The vertex has rows.
    ghost has: { Self → ℕ → Type 0 };

    /// Prints the rows of a vertex.
    fn print<S: Sink>(
        &self,
        sink: &mut S,
        buffer: &mut RowBuffer,
        vertex: u32,
    ) -> Result<(), PrintFault>
        requires { has self.now vertex }
        ensures { PrintsText S.written S.faults result sink.old sink.new buffer.old buffer.new
            (text self.now vertex) };
}

/// Prints the rows of these vertices, in order.
pub(crate) fn print_chain<S: Sink, K: VertexRows>(
    sink: &mut S,
    buffer: &mut RowBuffer,
    rows: &K,
    vertices: &[u32],
) -> Result<(), PrintFault>
    requires { All (K.has rows.now) vertices.now }
    ensures { PrintsText S.written S.faults result sink.old sink.new buffer.old buffer.new
        (flat_map (K.text rows.now) vertices.now) }
{
    // For the proof alone.
    texts_follow();
    calls_follow::<S>();
    for vertex in vertices {
        rows.print(sink, buffer, *vertex)?;
    }
    Ok(())
}

/// Prints the rows of the first so many vertices.
pub(crate) fn print_first<S: Sink, K: VertexRows>(
    sink: &mut S,
    buffer: &mut RowBuffer,
    rows: &K,
    count: u32,
) -> Result<(), PrintFault>
    requires { (v : ℕ) → v < count → K.has rows.now v }
    ensures { PrintsText S.written S.faults result sink.old sink.new buffer.old buffer.new
        (flat_map (K.text rows.now) (range_with_len 0 count)) }
{
    // For the proof alone.
    texts_follow();
    calls_follow::<S>();
    for vertex in 0..count {
        rows.print(sink, buffer, vertex)?;
    }
    Ok(())
}
