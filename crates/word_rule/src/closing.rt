ghost use Rattle.std.specs.Prelude.{◌≡◌, ◌<◌, ◌≤◌, [], vec_capacity, IfOk, IfErr, IsTrue};
ghost use Rattle.std.specs.Mem.Slots.{slots_items, slots_len, IsFull};
ghost use Rattle.word_rows.specs.Words.{IsMeet, full_words};
ghost use Rattle.word_rows.specs.Accounts.{LackOnly};
ghost use Rattle.word_rows.specs.Changes.{is_idle};
ghost use Rattle.word_rows.specs.Keeping.{KnowsAll};
ghost use Rattle.word_rule.specs.Holdings.{IsOfTable};
ghost use Rattle.word_rule.specs.Histories.{EndsWith};
ghost use Rattle.word_rule.specs.Faults.{IsCloseFault};

use crate::passes::Pass;
use crate::rule::{Knowledge, OneHistory, Plan};
use crate::tables::MeetTable;
use atomic_table::{Closed as Ended, Seat, Table};
use std::alloc::Global;
use word_rows::Sheet;
use word_rows::laws::{events_keep_sound, whole_share_knows_all};

/// What is left of a table that was closed.
#[derive(Drop)]
pub struct Closed {
    pub words: Sheet,
}

/// Why a table was not closed. The table and the pass are unchanged.
#[derive(Drop)]
pub enum CloseFault {
    /// Memory for the words ran out.
    Memory {
        table: MeetTable,
        pass: Pass,
    },
    /// The pass has fewer than all shares.
    PassesOut {
        table: MeetTable,
        pass: Pass,
        have: u32,
        all: u32,
    },
}

/// Copies the words, for which there is room.
#[tactic(auto, using(crate::proofs::ListLemmas::take_at))]
fn copy_words(from: &Ended<(), Global>, into: &mut Vec<u64>)
    requires from { IsFull from.now.words }
    requires room { (into.old.items ≡ []) × (slots_len from.now.words ≤ vec_capacity into.old) }
    ensures { into.new.items ≡ slots_items from.now.words }
{
    for index in 0..from.words.len() {
        into.push_reserved(from.word(index));
    }
}

/// Ends the table. The seat that has all shares knows its words.
fn end(
    table: Table<(), Knowledge, Plan, OneHistory, Global>,
    seat: Seat<(), Knowledge>,
) -> Ended<(), Global>
    requires table { seat.table_id ≡ table.shared.table_id }
    requires share { 0 < seat.me.0.view.shares }
    requires rests { IsTrue (is_idle seat.me.0.view) }
    requires whole { table.shared.key.all ≤ seat.me.0.view.shares }
    ensures counts { (slots_len result.words ≡ table.shared.table_id.words)
        × (slots_len result.slots ≡ table.shared.table_id.slots) }
    ensures full { IsFull result.words × IsFull result.slots }
    ensures met { IsMeet (full_words table.shared.key.width) seat.me.0.view.done
        (slots_items result.words) }
    ensures known { KnowsAll (slots_items result.words) table.shared.key.all seat.me.0.view }
    ensures ends { EndsWith table.shared.key.width table.shared.key.all seat.me.0.pasts
        seat.me.0.view (slots_items result.words) }
{
    // For the proof alone.
    events_keep_sound();
    whole_share_knows_all();
    table.close_with(seat)
}

impl MeetTable {
    /// Ends the table, where the pass has all shares, and gives its words.
    pub fn close(self, alloc: Global, pass: Pass) -> Result<Closed, CloseFault>
        requires { IsOfTable self pass }
        ensures whole { IfOk result (λ _. pass.view.shares ≡ self.all) }
        ensures words { IfOk result (λ c. IsMeet (full_words self.width) pass.view.done c.words) }
        ensures readings { IfOk result (λ _. LackOnly pass.view.readings pass.view.done) }

        // One history goes on from all that the pass knows, ends with these words, and is sound.
        ensures ends { IfOk result
            (λ c. EndsWith self.width self.all pass.pasts pass.view c.words) }
        ensures fault { IfErr result (IsCloseFault self pass) }
    {
        let (have, all) = (pass.shares(), self.all);
        if have < all {
            return Err(CloseFault::PassesOut {
                table: self,
                pass,
                have,
                all,
            });
        }
        let Ok(mut words) = Vec::with_capacity(alloc, self.width as usize) else {
            return Err(CloseFault::Memory { table: self, pass });
        };
        let Pass { seat, shares: _ } = pass;
        let MeetTable { table, .. } = self;
        let ended = end(table, seat);
        copy_words(&ended, &mut words);
        ended.free();
        Ok(Closed {
            words: Sheet::of(words),
        })
    }
}
