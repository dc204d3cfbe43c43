ghost use Rattle.std.specs.Prelude.{ℕ, List};
ghost use Rattle.text_rows.specs.TextsOfParts.{PrintsPart, PrintsTexts};

use crate::{PrintFault, RowBuffer};
use mystery_io::Sink;
use std::alloc::Global;

/// A kind of parts with what they share: which bytes are a text of an item is a relation.
pub trait Parts {
    /// What a part is made of.
    type Item;

    /// The bytes are a text of the part of an item.
    ghost is_text: { Self → Self.Item → List ℕ → Type 0 };

    /// Prints a text of the part of an item. An error leaves a prefix of such a text, or comes
    /// before there was one.
    fn print<S: Sink>(
        &self,
        alloc: Global,
        sink: &mut S,
        buffer: &mut RowBuffer,
        item: &Self::Item,
    ) -> Result<(), PrintFault>
        ensures { PrintsPart S.written S.faults result sink.old sink.new
            (is_text self.now item.now) buffer.old buffer.new };
}

/// What is a text of a part, for contracts and laws alone: a part is what clauses see of the type,
/// of which no value has to be made. A type with `impl Model` has the parts as its `Value`.
pub trait PartTexts {
    /// The bytes are a text of the part.
    ghost is_text: { Self → List ℕ → Type 0 };
}

/// Prints a text of the part of each item, in order, each made when its turn comes.
pub fn print_parts<S: Sink, K: Parts>(
    alloc: Global,
    sink: &mut S,
    buffer: &mut RowBuffer,
    parts: &K,
    items: &[K::Item],
) -> Result<(), PrintFault>
    ensures { PrintsTexts S.written S.faults result sink.old sink.new (K.is_text parts.now)
        items.now buffer.old buffer.new }
{
    for item in items {
        parts.print(alloc, sink, buffer, item)?;
    }
    Ok(())
}
