ghost use Rattle.std.specs.Prelude.{◌≡◌, ℕ, ◌<◌, List, length, slice_index, IsTrue};
ghost use Rattle.word_rows.specs.declared.events.StepEvent.{StepEvent};
ghost use Rattle.word_rows.specs.Words.{bit_of};
ghost use Rattle.word_rows.specs.Accounts.{AreZero};
ghost use Rattle.word_rows.specs.Changes.{is_idle, readings_from, with_readings};
ghost use Rattle.word_rule.specs.Holdings.{IsOfTable};
ghost use Rattle.word_rule.specs.inner.Keeping.{IsSeated};
ghost use Rattle.word_rule.specs.Shown.{shows};
ghost use Rattle.word_rule.specs.Histories.{ArePrefixes, IsLoadBetween, IsOnePast, KnowsMore, WasCleared, read_until};

use crate::passes::Pass;
use crate::rule::{Knowledge, OneHistory, Plan};
use crate::single_steps::load_word;
use crate::tables::MeetTable;
use atomic_table::{Seat, Shared};
use std::marker::Brand;
use word_rows::laws::events_keep_sound;

/// Reads all words, the words rising.
fn load_words(
    shared: &Shared<(), Knowledge, Plan, OneHistory>,
    seat: &mut Seat<(), Knowledge>,
    into: &mut [u64],
)
    requires table { IsSeated seat.old.table_id shared.now.table_id shared.now.key }
    requires width { length into.old ≡ shared.now.key.width }
    requires share { 0 < seat.old.me.0.view.shares }
    requires rests { IsTrue (is_idle seat.old.me.0.view) }
    ensures table { seat.new.table_id ≡ seat.old.table_id }
    ensures view { seat.new.me.0.view ≡ with_readings seat.old.me.0.view
        (readings_from 0 into.new) }
    ensures held { seat.new.me.1 ≡ seat.old.me.1 }
    ensures shown { AreZero into.new (shows seat.old.me.0.view) }
    ensures stands { (i : ℕ) → i < length into.new
        → IsLoadBetween shared.now.key.width shared.now.key.all seat.old.me.0.pasts
        (read_until seat.old.me.0.view into.new i) i (slice_index into.new i) seat.new.me.0.pasts }
    ensures more { KnowsMore seat.old.me.0.pasts seat.new.me.0.pasts }
    ensures one { IsOnePast seat.new.me.0.pasts }
{
    for word in 0..into.len() {
        into[word] = load_word::<Brand>(shared, seat, word);
    }
}

impl MeetTable {
    /// Reads the words, one step of the step machine for each, the words rising. The readings are
    /// then the last of the pass's.
    pub fn read(&self, pass: &mut Pass, into: &mut [u64])
        requires table { IsOfTable self.now pass.old }
        requires width { length into.old ≡ self.now.width }
        ensures table { pass.new.table_id ≡ pass.old.table_id }
        ensures readings { pass.new.view ≡ with_readings pass.old.view (readings_from 0 into.new) }

        // The words lack all bits of the pass's done and seen rows, and all that its earlier
        // readings lack.
        ensures shown { AreZero into.new (shows pass.old.view) }

        // Each value is the machine's reply to one load in every history that goes on from what the
        // pass then knows.
        ensures stands { (i : ℕ) → i < length into.new
            → IsLoadBetween self.now.width self.now.all pass.old.pasts
            (read_until pass.old.view into.new i) i (slice_index into.new i) pass.new.pasts }
        ensures more { KnowsMore pass.old.pasts pass.new.pasts }
        ensures one { IsOnePast pass.new.pasts }

        // In every such history this word is loaded with this value when some view has cleared each
        // bit that is 0.
        ensures cleared { (i b : ℕ) → i < length into.new → b < 64 → bit_of into.new i b ≡ 0
            → (history : List StepEvent) → ArePrefixes pass.new.pasts history
            → WasCleared self.now.width self.now.all history i (slice_index into.new i) b }
    {
        // For the proof alone.
        events_keep_sound();
        load_words(&self.table.shared, &mut pass.seat, into);
    }
}
