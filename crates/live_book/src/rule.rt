use atomic_table::TableRule;
use live_journal::{Entry, JournaledBook};
use std::collections::LinkedList;

/// What is fixed when a book is opened.
#[derive(Clone, Copy)]
pub struct Plan {
    /// The number of names.
    pub names: u32,
    /// The number of all turns.
    pub turns: u64,
}

/// How far a caller is with a turn. No value of it is made.
pub enum Stage {
    /// It holds no ticket.
    Resting,
    /// It waits for its turn.
    Waiting {
        ticket: u64,
    },
    /// Its turn has come, and the book that it took had this journal.
    InTurn {
        ticket: u64,
        found: LinkedList<Entry>,
    },
    /// In its turn it has seen the whole journal, which was this when its turn came.
    Seeing {
        ticket: u64,
        found: LinkedList<Entry>,
    },
}

/// A turn that was passed on. No value of it is made.
pub struct Turn {
    /// The ticket that was served.
    pub ticket: u64,
    /// The whole journal when the turn came.
    pub found: LinkedList<Entry>,
    /// The whole journal when the turn was passed on.
    pub left: LinkedList<Entry>,
}

/// What a caller has left, did and knows. No value of it is made.
pub struct Knowledge {
    /// The number of names at opening.
    pub names: u32,
    /// The number of all turns at opening.
    pub all: u64,
    /// The calls that it may still make.
    pub turns: u64,
    /// The journal as far as it has seen it.
    pub front: LinkedList<Entry>,
    /// The positions of its own entries, in the order of its calls.
    pub positions: LinkedList<u64>,
    /// How many turns it had and passed on.
    pub passes: u64,
    /// These turns, in the order of its calls.
    pub history: LinkedList<Turn>,
    /// How far it is with a turn.
    pub stage: Stage,
    /// Fronts of callers that were joined, until it has told that they begin its own.
    pub heard: LinkedList<LinkedList<Entry>>,
}

/// The rule of a shared book: turns, tickets, fronts, positions, histories and the place of the
/// book fit together between any two atomic steps of any threads.
pub struct OneJournal;

impl TableRule<Option<JournaledBook>, Knowledge, Plan> for OneJournal {
    ghost use Rattle.live_book.specs.Rule.{IsLiveBook};
    ghost use Rattle.live_book.specs.Views.{first_caller_view};

    ghost holds = { IsLiveBook };

    ghost first = { first_caller_view };
}
