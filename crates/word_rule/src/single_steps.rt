//! The steps of a seat, one function for each kind. Each keeps the rule, since it is a step of the
//! step machine or changes nothing.
ghost use Rattle.std.specs.Prelude.{◌≡◌, ℕ, ◌^◌, ◌<◌, ◌≤◌, true, [], length, IsTrue, MatchBool};
ghost use Rattle.std.specs.Int.{bit_not, w64};
ghost use Rattle.word_rows.specs.Rows.{below, is_row};
ghost use Rattle.word_rows.specs.Changes.{is_idle};
ghost use Rattle.word_rows.specs.Machine.{can_clear};
ghost use Rattle.word_rule.specs.inner.Keeping.{IsSeated};
ghost use Rattle.word_rule.specs.Plays.{Clears, Loads, TellsOneHistory, joined_knowledge, left_knowledge, new_knowledge};

use crate::plays::{Clear, Counted, JoinUp, Load, Offered, Planned, Skip, SplitOff, Tell};
use crate::rule::{Knowledge, OneHistory, Plan};
use atomic_table::{Seat, Shared};
use word_rows::Entry;
use word_rows::laws::{complement_clears, events_keep_sound};

/// Gives the bits that a mask leaves.
fn complement(mask: u64) -> u64
    ensures bits { result ≡ bit_not w64 mask }
    ensures fits { mask < 2 ^ 64 }
{
    !mask
}

/// Clears the next entry of the row.
fn clear_entry<L: Offered>(
    shared: &Shared<(), Knowledge, Plan, OneHistory>,
    seat: &mut Seat<(), Knowledge>,
    row: &[Entry],
    at: usize,
)
    requires table { IsSeated seat.old.table_id shared.now.table_id shared.now.key }
    requires plan { L.plan ≡ shared.now.key }
    requires row { L.entries ≡ row.now }
    requires form { is_row row.now ≡ true }
    requires width { below shared.now.key.width row.now ≡ true }
    requires at { at ≡ seat.old.me.0.view.cleared }
    requires inside { at < length row.now }
    requires next { can_clear seat.old.me.0.view row.now ≡ true }
    requires share { 0 < seat.old.me.0.view.shares }
    ensures table { seat.new.table_id ≡ seat.old.table_id }
    ensures seat { Clears shared.now.key row.now seat.old.me seat.new.me }
{
    // For the proof alone.
    events_keep_sound();
    complement_clears();
    let Entry { word, mask } = row[at];
    shared.fetch_and::<Clear<L>>(seat, word as usize, complement(mask));
}

/// Reads the word of the next entry of the row, and counts the entry as cleared where the word
/// lacks all its bits. Answers whether it did.
fn skip_entry<L: Offered>(
    shared: &Shared<(), Knowledge, Plan, OneHistory>,
    seat: &mut Seat<(), Knowledge>,
    row: &[Entry],
    at: usize,
) -> bool
    requires table { IsSeated seat.old.table_id shared.now.table_id shared.now.key }
    requires plan { L.plan ≡ shared.now.key }
    requires row { L.entries ≡ row.now }
    requires form { is_row row.now ≡ true }
    requires width { below shared.now.key.width row.now ≡ true }
    requires at { at ≡ seat.old.me.0.view.cleared }
    requires inside { at < length row.now }
    requires next { can_clear seat.old.me.0.view row.now ≡ true }
    requires share { 0 < seat.old.me.0.view.shares }
    ensures table { seat.new.table_id ≡ seat.old.table_id }
    ensures seat { MatchBool result (Clears shared.now.key row.now seat.old.me seat.new.me)
        (seat.new.me ≡ seat.old.me) }
{
    // For the proof alone.
    events_keep_sound();
    let Entry { word, mask } = row[at];
    shared.load::<Skip<L>>(seat, word as usize) & mask == 0
}

/// Clears the next entry of the row, and writes no word that lacks all its bits already.
pub(crate) fn offer_entry<L: Offered>(
    shared: &Shared<(), Knowledge, Plan, OneHistory>,
    seat: &mut Seat<(), Knowledge>,
    row: &[Entry],
    at: usize,
)
    requires table { IsSeated seat.old.table_id shared.now.table_id shared.now.key }
    requires plan { L.plan ≡ shared.now.key }
    requires row { L.entries ≡ row.now }
    requires form { is_row row.now ≡ true }
    requires width { below shared.now.key.width row.now ≡ true }
    requires at { at ≡ seat.old.me.0.view.cleared }
    requires inside { at < length row.now }
    requires next { can_clear seat.old.me.0.view row.now ≡ true }
    requires share { 0 < seat.old.me.0.view.shares }
    ensures table { seat.new.table_id ≡ seat.old.table_id }
    ensures seat { Clears shared.now.key row.now seat.old.me seat.new.me }
{
    if !skip_entry::<L>(shared, seat, row, at) {
        clear_entry::<L>(shared, seat, row, at);
    }
}

/// Reads one word.
pub(crate) fn load_word<P: Planned>(
    shared: &Shared<(), Knowledge, Plan, OneHistory>,
    seat: &mut Seat<(), Knowledge>,
    word: usize,
) -> u64
    requires table { IsSeated seat.old.table_id shared.now.table_id shared.now.key }
    requires plan { P.plan ≡ shared.now.key }
    requires word { word < shared.now.key.width }
    requires share { 0 < seat.old.me.0.view.shares }
    requires rests { IsTrue (is_idle seat.old.me.0.view) }
    ensures table { seat.new.table_id ≡ seat.old.table_id }
    ensures seat { Loads shared.now.key word result seat.old.me seat.new.me }
{
    // For the proof alone.
    events_keep_sound();
    shared.load::<Load<P>>(seat, word)
}

/// Splits off so many shares, fewer than the seat has.
pub(crate) fn split_shares<N: Counted>(
    shared: &Shared<(), Knowledge, Plan, OneHistory>,
    seat: &mut Seat<(), Knowledge>,
    count: u32,
) -> Seat<(), Knowledge>
    requires table { IsSeated seat.old.table_id shared.now.table_id shared.now.key }
    requires count { (N.count ≡ count) × (count < seat.old.me.0.view.shares) }
    requires rests { IsTrue (is_idle seat.old.me.0.view) }
    ensures old { (seat.new.table_id ≡ seat.old.table_id)
        × (seat.new.me ≡ (left_knowledge count seat.old.me.0, seat.old.me.1)) }
    ensures new { (result.table_id ≡ seat.old.table_id)
        × (result.me ≡ (new_knowledge count seat.old.me.0, [])) }
{
    // For the proof alone.
    events_keep_sound();
    shared.split_seat::<SplitOff<N>>(seat)
}

/// Takes in another seat.
pub(crate) fn join_seats(
    shared: &Shared<(), Knowledge, Plan, OneHistory>,
    seat: &mut Seat<(), Knowledge>,
    other: Seat<(), Knowledge>,
)
    requires table { IsSeated seat.old.table_id shared.now.table_id shared.now.key }
    requires same_table { other.table_id ≡ shared.now.table_id }
    requires share { 0 < seat.old.me.0.view.shares }
    requires rests { IsTrue (is_idle seat.old.me.0.view) }
    requires other { IsTrue (is_idle other.me.0.view) × (other.me.1 ≡ []) }
    requires carried { other.me.0.view.all ≡ shared.now.key.all }
    ensures table { seat.new.table_id ≡ seat.old.table_id }
    ensures seat { seat.new.me ≡ (joined_knowledge seat.old.me.0 other.me.0, seat.old.me.1) }
{
    // For the proof alone.
    events_keep_sound();
    shared.join_seat::<JoinUp>(seat, other);
}

/// Learns that the seat has at most all shares and that what it knows is of one history. Changes
/// nothing.
pub(crate) fn tell_seat<P: Planned>(
    shared: &Shared<(), Knowledge, Plan, OneHistory>,
    seat: &mut Seat<(), Knowledge>,
)
    requires table { IsSeated seat.old.table_id shared.now.table_id shared.now.key }
    requires plan { P.plan ≡ shared.now.key }
    requires share { 0 < seat.old.me.0.view.shares }
    ensures table { seat.new.table_id ≡ seat.old.table_id }
    ensures seat { TellsOneHistory shared.now.key seat.old.me seat.new.me }
{
    // For the proof alone.
    events_keep_sound();
    shared.load::<Tell<P>>(seat, 0);
}
