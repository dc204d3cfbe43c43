ghost use Rattle.std.specs.Prelude.{◌≡◌, ℕ, ◌<◌, length, IsTrue};
ghost use Rattle.word_rows.specs.Rows.{below};
ghost use Rattle.word_rows.specs.Changes.{with_done};
ghost use Rattle.word_rule.specs.Holdings.{IsOfTable};
ghost use Rattle.word_rule.specs.Histories.{IsClearBetween, IsOnePast, KnowsMore, offered_until};

use crate::passes::Pass;
use crate::single_steps::offer_entry;
use crate::tables::MeetTable;
use std::marker::Brand;
use word_rows::Row;
use word_rows::laws::row_is_same;

impl MeetTable {
    /// Clears the bits of the row, one step of the step machine for each entry. The row is then the
    /// last of the pass's done rows. A word that lacks an entry's bits already is read and not
    /// written.
    pub fn offer(&self, pass: &mut Pass, row: &Row)
        requires table { IsOfTable self.now pass.old }
        requires row { IsTrue (below self.now.width row.now) }
        ensures table { pass.new.table_id ≡ pass.old.table_id }
        ensures done { pass.new.view ≡ with_done pass.old.view row.now }

        // Each entry is cleared by one step of every history that goes on from what the pass then
        // knows.
        ensures stands { (k : ℕ) → k < length row.now
            → IsClearBetween self.now.width self.now.all pass.old.pasts
            (offered_until pass.old.view row.now k) row.now pass.new.pasts }
        ensures more { KnowsMore pass.old.pasts pass.new.pasts }
        ensures one { IsOnePast pass.new.pasts }
    {
        // For the proof alone.
        row_is_same();
        let entries = row.entries();
        for at in 0..entries.len() {
            offer_entry::<Brand>(&self.table.shared, &mut pass.seat, entries, at);
        }
    }
}
