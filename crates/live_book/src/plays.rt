//! The kinds of atomic step: what each makes of the seat that makes it.
ghost use Rattle.std.specs.Prelude.{ℕ, List, []};
ghost use Rattle.live_journal.specs.declared.entry.Entry.{Entry};
ghost use Rattle.live_book.specs.Plays.{CommitPlay, PassPlay, SeePlay};
ghost use Rattle.live_book.specs.Plays.{TellTurnsPlay, TicketPlay, WatchPlay};
ghost use Rattle.live_book.specs.Views.{empty_caller_view, joined_caller_view, left_caller_view, new_caller_view};

use crate::rule::Knowledge;
use atomic_table::{Join, Play, Split};
use live_journal::JournaledBook;
use std::marker::{Brand, PhantomData};

/// A ticket is drawn, by one more on the first word.
pub struct DrawTicket;

impl Play<Option<JournaledBook>, Knowledge> for DrawTicket {
    ghost then = { TicketPlay };
}

/// The ticket served is read; where it is the ticket held, the turn has come, and the seat takes
/// the slot.
pub struct Watch;

impl Play<Option<JournaledBook>, Knowledge> for Watch {
    ghost then = { WatchPlay };
}

/// In its turn, the number of entries is read, and the front is the whole journal.
pub struct See;

impl Play<Option<JournaledBook>, Knowledge> for See {
    ghost then = { SeePlay };
}

/// The journal that a commit leaves. Each call picks it.
pub trait Left {
    ghost entries: { List Entry };
}

impl Left for Brand {
    ghost entries = { [] };
}

/// In its turn, after the see: there is one entry more.
pub struct Commit<L> {
    of: PhantomData<L>,
}

impl<L: Left> Play<Option<JournaledBook>, Knowledge> for Commit<L> {
    ghost then = { CommitPlay L.entries };
}

/// In its turn, after the see: the next ticket is served, and the slot goes home.
pub struct Pass;

impl Play<Option<JournaledBook>, Knowledge> for Pass {
    ghost then = { PassPlay };
}

/// One word is read, and the seat learns that the fronts it heard of begin its own, that its
/// positions differ, and that it has at most all turns.
pub struct Tell;

impl Play<Option<JournaledBook>, Knowledge> for Tell {
    ghost then = { TellTurnsPlay };
}

/// How many turns are split off. Each call picks it.
pub trait Counted {
    ghost count: { ℕ };
}

impl Counted for Brand {
    ghost count = { 0 };
}

/// So many turns go to a new seat, which has the same front.
pub struct SplitOff<N> {
    of: PhantomData<N>,
}

impl<N: Counted> Split<Knowledge> for SplitOff<N> {
    ghost left = { left_caller_view N.count };

    ghost right = { new_caller_view N.count };
}

/// Two seats become one.
pub struct JoinUp;

impl Join<Knowledge> for JoinUp {
    ghost both = { joined_caller_view };

    ghost spent = { empty_caller_view };
}
