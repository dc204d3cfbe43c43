//! The kinds of atomic step: what each makes of the seat that makes it.
ghost use Rattle.std.specs.Prelude.{ℕ, List, []};
ghost use Rattle.word_rows.specs.declared.entries.Entry.{Entry};
ghost use Rattle.word_rule.specs.declared.rule.Plan.{Plan};
ghost use Rattle.word_rule.specs.Plays.{ClearPlay, LoadPlay, SkipPlay, TellPlay, joined_knowledge, left_knowledge, new_knowledge, no_knowledge};

use crate::rule::Knowledge;
use atomic_table::{Join, Play, Split};
use std::marker::{Brand, PhantomData};

/// What was fixed when the table was opened. Each call picks it.
pub trait Planned {
    ghost plan: { Plan };
}

impl Planned for Brand {
    ghost plan = { record { width = 0; all = 0 } };
}

/// Which row is offered, and what was fixed when the table was opened. Each call picks it.
pub trait Offered {
    ghost plan: { Plan };

    ghost entries: { List Entry };
}

impl Offered for Brand {
    ghost plan = { record { width = 0; all = 0 } };

    ghost entries = { [] };
}

/// The next entry of the row is cleared.
pub struct Clear<L> {
    of: PhantomData<L>,
}

impl<L: Offered> Play<(), Knowledge> for Clear<L> {
    ghost then = { ClearPlay L.plan L.entries };
}

/// The next entry of the row counts as cleared where its word lacks all its bits already.
pub struct Skip<L> {
    of: PhantomData<L>,
}

impl<L: Offered> Play<(), Knowledge> for Skip<L> {
    ghost then = { SkipPlay L.plan L.entries };
}

/// One word is read, and the pair of it and its value is the last reading.
pub struct Load<P> {
    of: PhantomData<P>,
}

impl<P: Planned> Play<(), Knowledge> for Load<P> {
    ghost then = { LoadPlay P.plan };
}

/// One word is read, the seat stays as it is, and learns that it has at most all shares and that
/// what it knows is of one history.
pub struct Tell<P> {
    of: PhantomData<P>,
}

impl<P: Planned> Play<(), Knowledge> for Tell<P> {
    ghost then = { TellPlay P.plan };
}

/// How many shares are split off. Each call picks it.
pub trait Counted {
    ghost count: { ℕ };
}

impl Counted for Brand {
    ghost count = { 0 };
}

/// So many shares go to a new seat, which has seen what the old one has done and seen.
pub struct SplitOff<N> {
    of: PhantomData<N>,
}

impl<N: Counted> Split<Knowledge> for SplitOff<N> {
    ghost left = { left_knowledge N.count };

    ghost right = { new_knowledge N.count };
}

/// Two seats become one.
pub struct JoinUp;

impl Join<Knowledge> for JoinUp {
    ghost both = { joined_knowledge };

    ghost spent = { no_knowledge };
}
