ghost use Rattle.std.specs.Prelude.{◌≡◌, ◌<◌, ◌≤◌, IfOk, List, ℕ};
ghost use Rattle.digest_facts.specs.Digests.{Digest};
ghost use Rattle.digest_merging.specs.Merges.{IsGivenTable, IsTableOf};
ghost use Rattle.judged_books.specs.JudgedBooks.{IsJudgedOf};
ghost use Rattle.session_rules.specs.Sessions.{State, first_state};
ghost use Rattle.session.specs.Carrying.{kept_count};
ghost use Rattle.session.specs.SessionStates.{Shows};
ghost use Rattle.trace_types.specs.Segments.{SegmentName};

use day_partitions::DayBook;
use digest_text::DigestTable;
use judged_books::{GivenDigest, JudgedBook};
use kept_books::KeptBook;
use std::alloc::{AllocError, Global};
use std::marker::Model;

/// A session: the kept traces with a catalogue that grows with each add, the given digest, the watch
/// number and the grace of later adds, and how many workers there are.
#[derive(Drop)]
pub struct Session {
    pub(crate) alloc: Global,
    pub(crate) workers: u32,
    pub(crate) book: KeptBook,
    pub(crate) given: GivenDigest,
    pub(crate) watch: u32,
    pub(crate) grace: u32,
}

impl Model for Session {
    ghost use Rattle.session.specs.SessionStates.{IsSession, SessionState};

    ghost Value = { SessionState };

    ghost view = { λ s. record {
      workers = s.workers;
      known = s.book.known;
      book = s.book.book;
      given = s.given;
      watch = s.watch;
      grace = s.grace;
    } };

    ghost invariant = { λ s. IsSession (record {
      workers = s.workers;
      known = s.book.known;
      book = s.book.book;
      given = s.given;
      watch = s.watch;
      grace = s.grace;
    }) };
}

impl Session {
    /// Starts a session without traces, for 1 to 64 workers, to which a digest is given by its
    /// table. The only error is that memory ran out.
    pub fn new(alloc: Global, workers: u32, given: DigestTable) -> Result<Session, AllocError>
        requires some { 0 < workers }
        requires few { workers ≤ 64 }
        requires table { IsGivenTable given }
        ensures workers { IfOk result (λ s. s.workers ≡ workers) }
        ensures first { IfOk result (λ s. (digest : Digest SegmentName (List ℕ))
            → IsTableOf digest given → Shows s (first_state digest)) }
    {
        let (given, catalogue) = GivenDigest::of(alloc, given)?;
        let days = DayBook::new(alloc, 0)?;
        Ok(Session {
            alloc,
            workers,
            book: KeptBook::of(catalogue, days)?,
            given,
            watch: 0,
            grace: 0,
        })
    }

    /// Returns how many traces are kept.
    pub fn trace_count(&self) -> u32
        ensures { result ≡ kept_count self.now }
    {
        self.book.trace_count()
    }

    /// Judges the kept traces together with the given digest.
    pub(crate) fn judge(&self) -> Result<JudgedBook<'_>, AllocError>
        ensures { IfOk result (λ judged. (s : State) → Shows self.now s
            → IsJudgedOf judged s.given s.kept) }
    {
        JudgedBook::judge(self.alloc, &self.book, &self.given)
    }
}
