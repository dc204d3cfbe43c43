ghost use Rattle.std.specs.Prelude.{◌≡◌};

use std::marker::Model;
use trace_rules::WatchLine;

/// Watch lines in order, seen as their list.
#[derive(Debug, Drop)]
pub struct WatchLines {
    items: Vec<WatchLine>,
}

impl Model for WatchLines {
    ghost use Rattle.std.specs.Prelude.{List};
    ghost use Rattle.trace_rules.specs.declared.watch_line.WatchLine.{WatchLine};

    ghost Value = { List WatchLine };

    ghost view = { λ a. a.items.items };
}

impl WatchLines {
    /// Makes the list of these lines. Takes no memory.
    pub fn of(items: Vec<WatchLine>) -> WatchLines
        ensures { result ≡ items.items }
    {
        WatchLines { items }
    }

    /// Lends the lines, in order.
    pub fn items(&self) -> &[WatchLine]
        ensures { result.now ≡ self.now }
    {
        &self.items
    }

    /// Gives the lines back. Takes no memory.
    pub fn into_items(self) -> Vec<WatchLine>
        ensures { result.items ≡ self }
    {
        self.items
    }
}
