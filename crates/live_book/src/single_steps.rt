//! The steps of a seat, one function for each kind. Each keeps the rule.
ghost use Rattle.std.specs.Prelude.{◌≡◌, ◌+◌, ◌^◌, ◌<◌, ◌≤◌, [], ◌∷◌, length, MatchBool, Some};
ghost use mathlib.Core.List.{IsPrefix};
ghost use Rattle.live_book.specs.declared.rule.Stage.TheVariants.{Resting, Waiting, InTurn};
ghost use Rattle.live_book.specs.Histories.{AreOfOneHistory};
ghost use Rattle.live_book.specs.Plays.{TakesBook, Tells};
ghost use Rattle.live_book.specs.Views.{committed_view, joined_caller_view, left_caller_view, new_caller_view};
ghost use Rattle.live_book.specs.Views.{passed_view, seeing_view, waiting_view};
ghost use Rattle.live_book.specs.Views.{found_in, ticket_in};
ghost use Rattle.live_book.specs.inner.Seats.{IsSeated, IsSeeing, HasHeard};

use crate::plays::{Commit, Counted, DrawTicket, JoinUp, Left, Pass, See, SplitOff, Tell, Watch};
use crate::rule::{Knowledge, OneJournal, Plan};
use atomic_table::{Seat, Shared};
use live_journal::JournaledBook;

/// The shared part of a book.
pub(crate) type SharedBook = Shared<Option<JournaledBook>, Knowledge, Plan, OneJournal>;
/// The seat of a caller.
pub(crate) type BookSeat = Seat<Option<JournaledBook>, Knowledge>;

/// Draws a ticket.
pub(crate) fn draw_ticket(shared: &SharedBook, seat: &mut BookSeat) -> u64
    requires table { IsSeated seat.old.table_id shared.now.table_id shared.now.key seat.old.me.0 }
    requires rests { seat.old.me.0.stage ≡ Resting }
    requires turn { 0 < seat.old.me.0.turns }
    ensures table { seat.new.table_id ≡ seat.old.table_id }
    ensures seat { seat.new.me ≡ (waiting_view seat.old.me.0 result, seat.old.me.1) }
{
    shared.fetch_add::<DrawTicket>(seat, 0, 1)
}

/// Reads the ticket served, and tells whether it is the one held: then the seat has the slot.
pub(crate) fn watch(shared: &SharedBook, seat: &mut BookSeat, ticket: u64) -> bool
    requires table { IsSeated seat.old.table_id shared.now.table_id shared.now.key seat.old.me.0 }
    requires waits { seat.old.me.0.stage ≡ Waiting ticket }
    ensures table { seat.new.table_id ≡ seat.old.table_id }
    ensures seat { MatchBool result (TakesBook seat.old.me seat.new.me)
        (seat.new.me ≡ seat.old.me) }
{
    shared.load::<Watch>(seat, 1) == ticket
}

/// Sees the whole journal, which the watch found.
pub(crate) fn see(shared: &SharedBook, seat: &mut BookSeat)
    requires table { IsSeated seat.old.table_id shared.now.table_id shared.now.key seat.old.me.0 }
    requires turn { seat.old.me.0.stage
        ≡ InTurn (ticket_in seat.old.me.0.stage) (found_in seat.old.me.0.stage) }
    ensures table { seat.new.table_id ≡ seat.old.table_id }
    ensures seat { seat.new.me ≡ (seeing_view seat.old.me.0, seat.old.me.1) }
{
    shared.load::<See>(seat, 2);
}

/// Counts one entry more: the last of the book that the seat has taken. A turn counts at most one.
pub(crate) fn commit<L: Left>(shared: &SharedBook, seat: &mut BookSeat, book: &JournaledBook)
    requires table { IsSeated seat.old.table_id shared.now.table_id shared.now.key seat.old.me.0 }
    requires turn { IsSeeing seat.old.me.0.stage }
    requires fresh { found_in seat.old.me.0.stage ≡ seat.old.me.0.front }
    requires left { L.entries ≡ book.now.entries }
    requires more { IsPrefix seat.old.me.0.front book.now.entries }
    requires one { length book.now.entries ≡ length seat.old.me.0.front + 1 }
    requires few { length book.now.entries ≤ 10000 }
    ensures table { seat.new.table_id ≡ seat.old.table_id }
    ensures seat { seat.new.me ≡ (committed_view seat.old.me.0 book.now.entries, seat.old.me.1) }
{
    shared.fetch_add::<Commit<L>>(seat, 2, 1);
}

/// Passes the turn on, and the slot goes home. The turn stands in the one history.
pub(crate) fn pass(shared: &SharedBook, seat: &mut BookSeat)
    requires table { IsSeated seat.old.table_id shared.now.table_id shared.now.key seat.old.me.0 }
    requires turn { IsSeeing seat.old.me.0.stage }
    requires slot { seat.old.me.1
        ≡ (0, Some (record { names = seat.old.me.0.names; entries = seat.old.me.0.front })) ∷ [] }
    ensures table { seat.new.table_id ≡ seat.old.table_id }
    ensures seat { seat.new.me ≡ (passed_view seat.old.me.0, []) }
    ensures history { AreOfOneHistory seat.new.me.0.history }
{
    shared.fetch_add::<Pass>(seat, 1, 1);
}

/// Splits off so many turns, at most those of the seat.
pub(crate) fn split_turns<N: Counted>(
    shared: &SharedBook,
    seat: &mut BookSeat,
    count: u64,
) -> BookSeat
    requires table { IsSeated seat.old.table_id shared.now.table_id shared.now.key seat.old.me.0 }
    requires count { (N.count ≡ count) × (count ≤ seat.old.me.0.turns) }
    requires rests { seat.old.me.0.stage ≡ Resting }
    ensures old { (seat.new.table_id ≡ seat.old.table_id)
        × (seat.new.me ≡ (left_caller_view count seat.old.me.0, seat.old.me.1)) }
    ensures new { (result.table_id ≡ seat.old.table_id)
        × (result.me ≡ (new_caller_view count seat.old.me.0, [])) }
{
    shared.split_seat::<SplitOff<N>>(seat)
}

/// Takes in another seat.
pub(crate) fn join_seats(shared: &SharedBook, seat: &mut BookSeat, other: BookSeat)
    requires table { IsSeated seat.old.table_id shared.now.table_id shared.now.key seat.old.me.0 }
    requires rests { seat.old.me.0.stage ≡ Resting }
    requires same_table { other.table_id ≡ shared.now.table_id }
    requires other { (other.me.0.stage ≡ Resting) × (other.me.1 ≡ []) }
    ensures table { seat.new.table_id ≡ seat.old.table_id }
    ensures seat { seat.new.me ≡ (joined_caller_view seat.old.me.0 other.me.0, seat.old.me.1) }
{
    shared.join_seat::<JoinUp>(seat, other);
}

/// Learns what the rule says of the seat.
pub(crate) fn tell(shared: &SharedBook, seat: &mut BookSeat)
    requires table { IsSeated seat.old.table_id shared.now.table_id shared.now.key seat.old.me.0 }
    requires heard { HasHeard seat.old.me.0 }
    ensures table { seat.new.table_id ≡ seat.old.table_id }
    ensures seat { Tells seat.old.me seat.new.me }
{
    shared.load::<Tell>(seat, 0);
}
