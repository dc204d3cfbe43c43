ghost use Rattle.std.specs.Prelude.{◌≡◌};
ghost use Rattle.word_rows.specs.Changes.{new_view};
ghost use Rattle.word_rule.specs.Holdings.{IsOfTable, together, with_view};
ghost use Rattle.word_rule.specs.Histories.{IsOfOneHistory};

use crate::passes::Pass;
use crate::rule::Knowledge;
use crate::single_steps::{join_seats, split_shares, tell_seat};
use crate::tables::MeetTable;
use atomic_table::Seat;
use std::marker::{Brand, Model};

/// A seat with no shares, which tells another pass what a pass has done and seen. Contracts see its
/// table, its view and the pasts that it knows.
#[derive(Drop)]
pub struct Note {
    pub(crate) seat: Seat<(), Knowledge>,
}

impl Model for Note {
    ghost use Rattle.word_rule.specs.Holdings.{Holding};
    ghost use Rattle.word_rule.specs.inner.Keeping.{IsNote};

    ghost Value = { Holding };

    ghost view = { λ n. record {
      table_id = n.seat.table_id;
      view = n.seat.me.0.view;
      pasts = n.seat.me.0.pasts;
    } };

    ghost invariant = { λ n. IsNote n.seat.me };
}

impl MeetTable {
    /// Makes a note that has seen what the pass has done and seen.
    pub fn note(&self, pass: &mut Pass) -> Note
        requires { IsOfTable self.now pass.old }
        ensures same { pass.new ≡ pass.old }
        ensures note { result ≡ with_view pass.old (new_view 0 pass.old.view) }
    {
        let seat = split_shares::<Brand>(&self.table.shared, &mut pass.seat, 0);
        Note { seat }
    }

    /// Takes in a note, which has no share: the pass has then seen what the note has. What both
    /// knew is of one history.
    pub fn meet(&self, pass: &mut Pass, note: Note)
        requires pass { IsOfTable self.now pass.old }
        requires note { IsOfTable self.now note }
        ensures together { pass.new ≡ together pass.old note }
        ensures no_share { note.view.shares ≡ 0 }
        ensures one { IsOfOneHistory self.now.width self.now.all pass.new.pasts pass.new.view }
    {
        let Note { seat } = note;
        join_seats(&self.table.shared, &mut pass.seat, seat);
        tell_seat::<Brand>(&self.table.shared, &mut pass.seat);
    }
}
