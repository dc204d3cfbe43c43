ghost use Rattle.std.specs.Prelude.{◌≡◌, ℕ, List, map};
ghost use Rattle.std.specs.List.{All};
ghost use Rattle.session_rules.specs.Parts.{IsPart, Part};
ghost use Rattle.text_rows.specs.Printing.{PrintsText, print_faults};
ghost use Rattle.text_rows.specs.TextsOfParts.{PrintsTexts};

use mystery_io::Sink;
use session_rules::SessionPart;
use text_rows::laws::{part_calls_follow, parts_follow};
use text_rows::{PrintFault, RowBuffer};

/// A kind of rows of names.
pub(crate) trait NamedRows {
    /// What a row is made of.
    type Item;

    /// The row of an item.
    ghost text: { Self → Self.Item → List ℕ };

    /// The item has a name.
    ghost has: { Self → Self.Item → Type 0 };

    /// Prints the row of an item.
    fn print<S: Sink>(
        &self,
        sink: &mut S,
        buffer: &mut RowBuffer,
        item: &Self::Item,
    ) -> Result<(), PrintFault>
        requires { has self.now item.now }
        ensures { PrintsText S.written S.faults result sink.old sink.new buffer.old buffer.new
            (text self.now item.now) };
}

/// Prints the row of each item, in order, each as a part.
pub(crate) fn print_each<S: Sink, K: NamedRows>(
    sink: &mut S,
    buffer: &mut RowBuffer,
    rows: &K,
    items: &[K::Item],
) -> Result<(), PrintFault>
    requires { All (K.has rows.now) items.now }
    ensures printed { (part : K.Item → Part)
        → All (λ item. IsPart (part item) (K.text rows.now item)) items.now
        → PrintsTexts S.written S.faults result sink.old sink.new IsPart (map part items.now)
        buffer.old buffer.new }
    ensures counted { S.faults sink.new ≡ print_faults result (S.faults sink.old) }
{
    // For the proof alone.
    parts_follow::<SessionPart>();
    part_calls_follow::<S, SessionPart>();
    for item in items {
        rows.print(sink, buffer, item)?;
    }
    Ok(())
}
