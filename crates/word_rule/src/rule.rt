use atomic_table::TableRule;
use std::collections::LinkedList;
use word_rows::{StepEvent, View};

/// What is fixed when a table is opened.
#[derive(Clone, Copy)]
pub struct Plan {
    /// The number of words.
    pub width: u32,
    /// The number of all shares.
    pub all: u32,
}

/// What a seat did and was told, and the pasts that it knows: the events up to its last offer
/// or read, or after a join those of both seats. No value of it is made.
pub struct Knowledge {
    pub view: View,
    pub pasts: LinkedList<LinkedList<StepEvent>>,
}

/// The rule of a table: between any two atomic steps of any threads it is the step machine after
/// one list of events.
pub struct OneHistory;

impl TableRule<(), Knowledge, Plan> for OneHistory {
    ghost use Rattle.std.specs.Prelude.{[]};
    ghost use Rattle.word_rows.specs.Changes.{first_view};
    ghost use Rattle.word_rule.specs.Rule.{HasHistory};

    ghost holds = { HasHistory };

    ghost first = { λ plan. record { view = first_view plan.all; pasts = [] } };
}
