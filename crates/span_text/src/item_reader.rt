ghost use Rattle.std.specs.Prelude.{List, Result, map};
ghost use Rattle.json.specs.Json.{Json};
ghost use Rattle.json.specs.Value.{value_view};
ghost use Rattle.span_text.specs.declared.placed.Placed.{Placed as APlaced};
ghost use Rattle.span_text.specs.declared.why.Why.{Why as AWhy};
ghost use Rattle.span_text.specs.Outcomes.{Gives, after, gather};

use crate::{Placed, ReadError};
use json::Value;
use std::alloc::Global;

/// What reads the spans that an item of a list has.
pub trait ItemReader {
    /// The spans that an item has, or why it is refused.
    ghost says: { Self → Json → Result (List APlaced) AWhy };

    /// Appends the spans of an item.
    fn read_item(
        &self,
        alloc: Global,
        item: &Value<'_>,
        spans: &mut Vec<Placed>,
    ) -> Result<(), ReadError>
        ensures { Gives (λ _. spans.new.items) result
            (after spans.old.items (says self.now (value_view item.now))) };
}

/// Appends the spans of all items, in order, up to the first that is refused.
pub fn read_items<R: ItemReader>(
    alloc: Global,
    reader: &R,
    items: &[Value<'_>],
    spans: &mut Vec<Placed>,
) -> Result<(), ReadError>
    ensures { Gives (λ _. spans.new.items) result
        (after spans.old.items (gather (R.says reader.now) (map value_view items.now))) }
{
    for item in items {
        reader.read_item(alloc, item, spans)?;
    }
    Ok(())
}
