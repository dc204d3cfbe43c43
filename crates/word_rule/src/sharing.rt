ghost use Rattle.std.specs.Prelude.{◌≡◌, ◌<◌};
ghost use Rattle.word_rows.specs.Changes.{left_view, new_view};
ghost use Rattle.word_rule.specs.Holdings.{IsOfTable, together, with_view};
ghost use Rattle.word_rule.specs.Histories.{IsOfOneHistory};

use crate::passes::Pass;
use crate::single_steps::{join_seats, split_shares, tell_seat};
use crate::tables::MeetTable;
use std::marker::Brand;

impl MeetTable {
    /// Makes a new pass with so many of the pass's shares, which has seen what the pass has done
    /// and seen.
    pub fn split(&self, pass: &mut Pass, shares: u32) -> Pass
        requires table { IsOfTable self.now pass.old }
        requires some { 0 < shares }
        requires fewer { shares < pass.old.view.shares }
        ensures old { pass.new ≡ with_view pass.old (left_view shares pass.old.view) }
        ensures new { result ≡ with_view pass.old (new_view shares pass.old.view) }
    {
        let seat = split_shares::<Brand>(&self.table.shared, &mut pass.seat, shares);
        pass.shares -= shares;
        Pass { seat, shares }
    }

    /// Takes in another pass: the shares add up, and the other's done rows, seen rows and readings
    /// follow the pass's. What both knew is of one history.
    pub fn join(&self, pass: &mut Pass, other: Pass)
        requires pass { IsOfTable self.now pass.old }
        requires other { IsOfTable self.now other }
        ensures together { pass.new ≡ together pass.old other }
        ensures one { IsOfOneHistory self.now.width self.now.all pass.new.pasts pass.new.view }
    {
        let Pass { seat, shares } = other;
        join_seats(&self.table.shared, &mut pass.seat, seat);
        tell_seat::<Brand>(&self.table.shared, &mut pass.seat);
        pass.shares += shares;
    }

    /// Learns that what the pass knows is of one history, after which a seat has its view. Reads one
    /// word, which is no step of the step machine, and changes nothing.
    pub fn tell(&self, pass: &mut Pass)
        requires { IsOfTable self.now pass.old }
        ensures same { pass.new ≡ pass.old }
        ensures one { IsOfOneHistory self.now.width self.now.all pass.new.pasts pass.new.view }
    {
        tell_seat::<Brand>(&self.table.shared, &mut pass.seat);
    }
}
