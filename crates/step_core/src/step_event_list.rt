ghost use Rattle.std.specs.Prelude.{◌≡◌};

use std::marker::Model;
use word_rows::StepEvent;

/// Steps in order, seen as their list.
#[derive(Debug, Drop)]
pub struct StepEventList {
    items: Vec<StepEvent>,
}

impl Model for StepEventList {
    ghost use Rattle.std.specs.Prelude.{List};
    ghost use Rattle.word_rows.specs.declared.events.StepEvent.{StepEvent};

    ghost Value = { List StepEvent };

    ghost view = { λ a. a.items.items };
}

impl StepEventList {
    /// Makes the list of these steps. Takes no memory.
    pub fn of(items: Vec<StepEvent>) -> StepEventList
        ensures { result ≡ items.items }
    {
        StepEventList { items }
    }

    /// Lends the steps, in order.
    pub fn items(&self) -> &[StepEvent]
        ensures { result.now ≡ self.now }
    {
        &self.items
    }

    /// Gives the steps back. Takes no memory.
    pub fn into_items(self) -> Vec<StepEvent>
        ensures { result.items ≡ self }
    {
        self.items
    }
}
