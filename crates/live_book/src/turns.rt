//! A turn: from the ticket to the pass.
ghost use Rattle.std.specs.Prelude.{◌≡◌, ◌<◌, [], ◌∷◌, None};
ghost use Rattle.live_journal.specs.Journals.{journal};
ghost use Rattle.live_journal.specs.Replays.{IsJournal};
ghost use Rattle.live_book.specs.declared.rule.Stage.TheVariants.{Resting, Waiting};
ghost use Rattle.live_book.specs.Histories.{AreOfOneHistory};
ghost use Rattle.live_book.specs.Plays.{TakesBook};
ghost use Rattle.live_book.specs.Views.{committed_view, found_in, passed_view};
ghost use Rattle.live_book.specs.inner.Seats.{IsSeated, IsSeeing};
ghost use Rattle.live_book.specs.inner.Turns.{IsInTurn, IsOneMore};

use crate::single_steps::{BookSeat, SharedBook, commit, draw_ticket, pass, see, watch};
use live_journal::JournaledBook;
use std::marker::Brand;
use std::sync::Wait;
use std::thread;

/// Waits until the ticket is the one served.
fn await_turn<R: Wait>(rt: &R, shared: &SharedBook, seat: &mut BookSeat, ticket: u64)
    requires table { IsSeated seat.old.table_id shared.now.table_id shared.now.key seat.old.me.0 }
    requires waits { seat.old.me.0.stage ≡ Waiting ticket }
    ensures table { seat.new.table_id ≡ seat.old.table_id }
    ensures seat { TakesBook seat.old.me seat.new.me }
{
    for _ in rt.forever() {
        if watch(shared, seat, ticket) {
            return;
        }
        thread::yield_now();
    }
    unreachable!()
}

/// Draws a ticket, waits for its turn, sees the whole journal and takes the book.
pub(crate) fn begin_turn<R: Wait>(rt: &R, shared: &SharedBook, seat: &mut BookSeat) -> JournaledBook
    requires table { IsSeated seat.old.table_id shared.now.table_id shared.now.key seat.old.me.0 }
    requires rests { seat.old.me.0.stage ≡ Resting }
    requires turn { 0 < seat.old.me.0.turns }
    requires no_slot { seat.old.me.1 ≡ [] }
    ensures table { seat.new.table_id ≡ seat.old.table_id }
    ensures turn { IsInTurn seat.old.me.0 seat.new.me result.entries }
    ensures names { result.names ≡ seat.old.me.0.names }
{
    let ticket = draw_ticket(shared, seat);
    await_turn(rt, shared, seat, ticket);
    see(shared, seat);
    let book = shared.exchange(seat, 0, None).unwrap();
    // Its clause tells that the entries are a journal.
    let _entries = book.count();
    book
}

/// Brings the book back, which is as it was found or has its new entry counted, and passes the
/// turn on.
pub(crate) fn end_turn(shared: &SharedBook, seat: &mut BookSeat, book: JournaledBook)
    requires table { IsSeated seat.old.table_id shared.now.table_id shared.now.key seat.old.me.0 }
    requires turn { IsSeeing seat.old.me.0.stage }
    requires slot { seat.old.me.1 ≡ (0, None) ∷ [] }
    requires book { book ≡ journal seat.old.me.0.names seat.old.me.0.front }
    ensures table { seat.new.table_id ≡ seat.old.table_id }
    ensures seat { seat.new.me ≡ (passed_view seat.old.me.0, []) }
    ensures history { AreOfOneHistory seat.new.me.0.history }
{
    shared.exchange(seat, 0, Some(book));
    pass(shared, seat);
}

/// Counts the entry that the book has more, brings the book back and passes the turn on.
pub(crate) fn commit_turn(shared: &SharedBook, seat: &mut BookSeat, book: JournaledBook)
    requires table { IsSeated seat.old.table_id shared.now.table_id shared.now.key seat.old.me.0 }
    requires turn { IsSeeing seat.old.me.0.stage }
    requires slot { seat.old.me.1 ≡ (0, None) ∷ [] }
    requires fresh { found_in seat.old.me.0.stage ≡ seat.old.me.0.front }
    requires names { book.names ≡ seat.old.me.0.names }
    requires one { IsOneMore seat.old.me.0.front book.entries }
    requires journal { IsJournal book.entries }
    ensures table { seat.new.table_id ≡ seat.old.table_id }
    ensures seat { seat.new.me ≡ (passed_view (committed_view seat.old.me.0 book.entries), []) }
    ensures history { AreOfOneHistory seat.new.me.0.history }
{
    commit::<Brand>(shared, seat, &book);
    end_turn(shared, seat, book);
}
