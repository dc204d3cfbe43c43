ghost use Rattle.std.specs.Prelude.{ℕ, ◌+◌, List, length, Result, map};
ghost use Rattle.json.specs.Json.{Json};
ghost use Rattle.json.specs.Value.{value_view};
ghost use Rattle.span_text.specs.declared.placed.Placed.{Placed as APlaced};
ghost use Rattle.span_text.specs.declared.placed.Fault.{Fault as AFault};
ghost use Rattle.span_text.specs.Outcomes.{after};
ghost use Rattle.span_text.specs.Places.{GivesAt, gather_from};

use crate::{Placed, SpanError};
use json::Value;
use std::alloc::Global;

/// What reads the spans that an item of a list has, where spans are numbered from 1 on.
pub trait NumberedReader {
    /// The spans that an item has whose first span has this number, or the first fault.
    ghost says: { Self → ℕ → Json → Result (List APlaced) AFault };

    /// Appends the spans of an item. The next span has the number of spans so far, and 1.
    fn read_numbered_item(
        &self,
        alloc: Global,
        item: &Value<'_>,
        spans: &mut Vec<Placed>,
    ) -> Result<(), SpanError>
        ensures { GivesAt (λ _. spans.new.items) result (after spans.old.items
            (says self.now (length spans.old.items + 1) (value_view item.now))) };
}

/// Appends the spans of all items, in order, up to the first fault.
pub fn read_numbered_items<R: NumberedReader>(
    alloc: Global,
    reader: &R,
    items: &[Value<'_>],
    spans: &mut Vec<Placed>,
) -> Result<(), SpanError>
    ensures { GivesAt (λ _. spans.new.items) result (after spans.old.items
        (gather_from (R.says reader.now) (length spans.old.items + 1) (map value_view items.now))) }
{
    for item in items {
        reader.read_numbered_item(alloc, item, spans)?;
    }
    Ok(())
}
