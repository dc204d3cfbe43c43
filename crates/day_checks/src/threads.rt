//! A shared book that callers use in threads beside one another.
ghost use Rattle.std.specs.Prelude.{◌≡◌};
ghost use Rattle.std.specs.Thread.{IsSync};
ghost use Rattle.live_book.specs.Callers.{IsOfBook};

use crate::callers::{ask, drop_day, keep, read, read_two, roll};
use crate::traces::{BOTH, FULL, SWAPPED, TOUCHED, day_sheet};
use live_book::{Caller, DeedFault, Entry, LiveBook};
use live_journal::JournaledBook;
use std::alloc::{AllocError, Global};
use std::process::Abort;
use std::sync::Wait;
use std::sync::atomic::{AtomicU64, Ordering};
use std::test::Fail;
use std::thread::{self, Threads};
use trace_types::NamedTrace;

/// Says that one thread is here, and waits for the other for so many turns. Answers whether the
/// other came.
fn meets(mine: &AtomicU64, other: &AtomicU64) -> bool {
    mine.store(1, Ordering::SeqCst);
    for _ in 0..10_000_000u64 {
        if other.load(Ordering::SeqCst) == 1 {
            return true;
        }
        thread::yield_now();
    }
    false
}

/// Rolls a day, waits until the other thread has rolled its own, and asks. Gives the caller back
/// with the last word, or with 0 where something failed.
fn roll_meet_and_ask<R: Wait>(
    rt: &R,
    alloc: Global,
    book: &LiveBook,
    mut caller: Caller,
    day: u32,
    mine: &AtomicU64,
    other: &AtomicU64,
) -> (Caller, u64)
    requires names { book.now.names ≡ 2 }
    requires of { IsOfBook book.now caller }
    ensures { IsOfBook book.now result.0 }
{
    let Some(Ok(_)) = roll(rt, alloc, book, &mut caller, day, day == 0) else {
        return (caller, 0);
    };
    if !meets(mine, other) {
        return (caller, 0);
    }
    match ask(rt, alloc, book, &mut caller) {
        Some(words) => (caller, words.get(126).copied().unwrap_or(0)),
        None => (caller, 0),
    }
}

/// Rolls a day each in two threads, which ask when both have rolled. Joins their callers, and gives
/// the last words that they were answered.
fn roll_beside<R: Threads + Wait + Sync>(
    rt: &R,
    alloc: Global,
    book: &LiveBook,
    first: Caller,
    second: Caller,
) -> (Caller, (u64, u64))
    requires names { book.now.names ≡ 2 }
    requires first { IsOfBook book.now first }
    requires second { IsOfBook book.now second }
    ensures { IsOfBook book.now result.0 }
{
    let (zero, one) = (AtomicU64::new(0), AtomicU64::new(0));
    let (here, there) = (&zero, &one);
    let ((mut first, left), (second, right)) = thread::join(
        rt,
        move || -> (Caller, u64)
            requires { IsSync R.row × IsOfBook book.now first × (book.now.names ≡ 2) }
            ensures { IsOfBook book.entry.now result.0 }
        { roll_meet_and_ask(rt, alloc, book, first, 0, here, there) },
        move || -> (Caller, u64)
            requires { IsSync R.row × IsOfBook book.now second × (book.now.names ≡ 2) }
            ensures { IsOfBook book.entry.now result.0 }
        { roll_meet_and_ask(rt, alloc, book, second, 1, there, here) },
    );
    book.join(&mut first, second);
    (first, (left, right))
}

/// Asserts that a caller reads both days, in either order, with its last turn.
fn expect_both<R: Wait + Abort>(rt: &R, book: &LiveBook, caller: &mut Caller)
    requires of { IsOfBook book.now caller.old }
{
    let rows = read_two(rt, book, caller, 0);
    let both = (('r', 0, 1), ('r', 1, 1));
    assert!(rt; rows == Some(both) || rows == Some((both.1, both.0)));
    assert_eq!(rt; caller.turns(), 0);
}

#[test]
fn two_threads_see_what_both_rolled(rt: HostRuntime) -> Result<(), Fail> {
    let (book, mut first) = LiveBook::open(rt.alloc(), 2, 5)?;
    let second = book.split(&mut first, 2);
    let (mut caller, words) = roll_beside(&rt, rt.alloc(), &book, first, second);
    assert_eq!(rt; words, (BOTH, BOTH));
    expect_both(&rt, &book, &mut caller);
    Ok(())
}

/// Makes so many calls, drawn from a seed: it rolls one of six days, drops one, keeps the newest,
/// or asks.
fn work<R: Wait>(rt: &R, alloc: Global, book: &LiveBook, mut caller: Caller, seed: u32) -> Caller
    requires names { book.now.names ≡ 2 }
    requires of { IsOfBook book.now caller }
    ensures { IsOfBook book.now result }
{
    let mut seed = seed;
    'calls: for _ in 0..100u32 {
        seed = seed.wrapping_mul(1_664_525).wrapping_add(1_013_904_223);
        let draw = seed >> 16;
        let day = draw % 6;
        let done = match draw / 8 % 8 {
            0 | 1 => drop_day(rt, book, &mut caller, day).is_some(),
            2 => keep(rt, book, &mut caller, 2 + draw % 4).is_some(),
            3 => ask(rt, alloc, book, &mut caller).is_some(),
            _ => roll(rt, alloc, book, &mut caller, day, draw % 16 < 8).is_some(),
        };
        if !done {
            return caller;
        }
    }
    caller
}

/// Works in as many threads as 2 to this power, and joins their callers.
fn work_beside<R: Threads + Wait + Sync>(
    rt: &R,
    alloc: Global,
    book: &LiveBook,
    mut caller: Caller,
    power: u32,
    seed: u32,
) -> Caller
    requires names { book.now.names ≡ 2 }
    requires of { IsOfBook book.now caller }
    ensures { IsOfBook book.now result }
{
    if power == 0 {
        return work(rt, alloc, book, caller, seed);
    }
    let half = caller.turns() / 2;
    let other = book.split(&mut caller, half);
    let less = power - 1;
    let (left, right) = (seed.wrapping_mul(2), seed.wrapping_mul(2).wrapping_add(1));
    let (mut caller, other) = thread::join(
        rt,
        move || -> Caller
            requires { IsSync R.row × IsOfBook book.now caller × (book.now.names ≡ 2) }
            ensures { IsOfBook book.entry.now result }
        { work_beside(rt, alloc, book, caller, less, left) },
        move || -> Caller
            requires { IsSync R.row × IsOfBook book.now other × (book.now.names ≡ 2) }
            ensures { IsOfBook book.entry.now result }
        { work_beside(rt, alloc, book, other, less, right) },
    );
    book.join(&mut caller, other);
    caller
}

/// How many touching and how many swapped traces a day has.
type Counts = [(u64, u64); 6];

/// Clears all days with traces but the last so many, and tells how many traces they had.
fn keep_last(counts: &mut Counts, days: u32) -> u64 {
    let mut left = days;
    let mut dropped = 0u64;
    for below in 0..6usize {
        let day = 5 - below;
        if counts[day] != (0, 0) {
            if left == 0 {
                dropped = dropped
                    .wrapping_add(counts[day].0)
                    .wrapping_add(counts[day].1);
                counts[day] = (0, 0);
            } else {
                left -= 1;
            }
        }
    }
    dropped
}

/// Clears a day, and tells how many traces it had.
fn clear(counts: &mut Counts, day: u32) -> u64 {
    if day >= 6 {
        return 0;
    }
    let day = day as usize;
    let had = counts[day].0.wrapping_add(counts[day].1);
    counts[day] = (0, 0);
    had
}

/// Counts one trace more.
fn count(counts: &mut Counts, day: u32, touching: bool) {
    if day >= 6 {
        return;
    }
    let day = day as usize;
    if touching {
        counts[day].0 = counts[day].0.wrapping_add(1);
    } else {
        counts[day].1 = counts[day].1.wrapping_add(1);
    }
}

/// Tells whether the first trace of the list is a touching one: its segment 0 comes first.
fn is_touching(traces: &[NamedTrace]) -> bool {
    match traces.first() {
        Some(trace) => matches!(trace.segments.items().first(), Some(segment) if segment.name == 0),
        None => false,
    }
}

/// Rolls a trace into a fresh book, and tells whether it was taken.
fn roll_again(alloc: Global, book: &mut JournaledBook, day: u32, touching: bool) -> bool
    requires { book.old.names ≡ 2 }
    ensures { book.new.names ≡ 2 }
{
    match day_sheet(alloc, day, touching) {
        Ok(sheet) => book.roll(day, sheet).is_ok(),
        Err(_) => false,
    }
}

/// Tells whether a drop or a keep had so many traces.
fn had(done: Result<u32, DeedFault>, traces: u64) -> bool {
    match done {
        Ok(dropped) => u64::from(dropped) == traces,
        Err(_) => false,
    }
}

/// Does what the entry says to a fresh book and to plain counts. Answers whether both dropped the
/// same number of traces.
fn redo(alloc: Global, book: &mut JournaledBook, counts: &mut Counts, entry: &Entry) -> bool
    requires { book.old.names ≡ 2 }
    ensures { book.new.names ≡ 2 }
{
    match entry {
        Entry::Rolled { day, traces } => {
            let touching = is_touching(traces.items());
            count(counts, *day, touching);
            traces.items().len() == 1 && roll_again(alloc, book, *day, touching)
        }
        Entry::Dropped { day } => {
            let traces = clear(counts, *day);
            had(book.drop_day(*day), traces)
        }
        Entry::Kept { days } => {
            let traces = keep_last(counts, *days);
            had(book.keep_newest(*days), traces)
        }
    }
}

/// The last word of two names when so many traces of each day are kept.
fn plain_word(counts: &Counts) -> u64 {
    let touching = counts.iter().any(|day| day.0 > 0);
    let swapped = counts.iter().any(|day| day.1 > 0);
    match (touching, swapped) {
        (true, true) => BOTH,
        (true, false) => TOUCHED,
        (false, true) => SWAPPED,
        (false, false) => FULL,
    }
}

/// Does what the entries say to a fresh book and to plain counts. Answers whether all agree with
/// each other and with these words.
fn redo_all(alloc: Global, entries: &[Entry], words: &[u64]) -> Result<bool, AllocError> {
    let mut fresh = JournaledBook::new(alloc, 2)?;
    let mut counts = [(0u64, 0u64); 6];
    'entries: for entry in entries {
        if !redo(alloc, &mut fresh, &mut counts, entry) {
            return Ok(false);
        }
    }
    Ok(words.get(126).copied() == Some(plain_word(&counts)) && fresh.words() == words)
}

/// Reads the journal, and tells whether these words are its own, and whether it has over 400 entries.
fn has_words<R: Wait>(
    rt: &R,
    alloc: Global,
    book: &LiveBook,
    caller: &mut Caller,
    words: &[u64],
) -> Option<bool>
    requires of { IsOfBook book.now caller.old }
    ensures of { IsOfBook book.now caller.new }
{
    let entries = read(rt, book, caller, 0)?;
    let same = redo_all(alloc, &entries, words).ok()?;
    Some(same && entries.len() > 400)
}

/// Asks, and tells whether the words are those of the journal.
fn agrees<R: Wait>(rt: &R, alloc: Global, book: &LiveBook, caller: &mut Caller) -> Option<bool>
    requires names { book.now.names ≡ 2 }
    requires of { IsOfBook book.now caller.old }
    ensures of { IsOfBook book.now caller.new }
{
    let words = ask(rt, alloc, book, caller)?;
    has_words(rt, alloc, book, caller, &words)
}

/// Works in eight threads, and tells whether all turns but two were used.
fn work_by_eight<R: Threads + Wait + Sync>(
    rt: &R,
    alloc: Global,
    book: &LiveBook,
    mut caller: Caller,
) -> (Caller, bool)
    requires names { book.now.names ≡ 2 }
    requires of { IsOfBook book.now caller }
    ensures { IsOfBook book.now result.0 }
{
    if caller.turns() < 2 {
        return (caller, false);
    }
    let last = book.split(&mut caller, 2);
    let mut caller = work_beside(rt, alloc, book, caller, 3, 1);
    let done = caller.turns() == 0;
    book.join(&mut caller, last);
    (caller, done)
}

#[test]
fn eight_threads_leave_one_journal(rt: HostRuntime) -> Result<(), Fail> {
    let (book, caller) = LiveBook::open(rt.alloc(), 2, 802)?;
    let (mut caller, done) = work_by_eight(&rt, rt.alloc(), &book, caller);
    assert!(rt; done);
    assert_eq!(rt; agrees(&rt, rt.alloc(), &book, &mut caller), Some(true));
    Ok(())
}
