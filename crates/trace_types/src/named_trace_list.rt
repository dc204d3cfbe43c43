ghost use Rattle.std.specs.Prelude.{◌≡◌};

use crate::NamedTrace;
use std::marker::Model;

/// Named traces in order, seen as their list.
#[derive(Debug, Drop)]
pub struct NamedTraceList {
    items: Vec<NamedTrace>,
}

impl Model for NamedTraceList {
    ghost use Rattle.std.specs.Prelude.{List};
    ghost use Rattle.trace_types.specs.declared.named_trace.NamedTrace.{NamedTrace};

    ghost Value = { List NamedTrace };

    ghost view = { λ a. a.items.items };
}

impl NamedTraceList {
    /// Makes the list of these traces. Takes no memory.
    pub fn of(items: Vec<NamedTrace>) -> NamedTraceList
        ensures { result ≡ items.items }
    {
        NamedTraceList { items }
    }

    /// Lends the traces, in order.
    pub fn items(&self) -> &[NamedTrace]
        ensures { result.now ≡ self.now }
    {
        &self.items
    }

    /// Gives the traces back. Takes no memory.
    pub fn into_items(self) -> Vec<NamedTrace>
        ensures { result.items ≡ self }
    {
        self.items
    }
}
