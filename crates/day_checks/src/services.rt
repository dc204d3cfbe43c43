//! A service over one shared book: two threads record days and roll them, a third asks for the
//! relations that survive and drops days. Whatever the order of their turns, the journal accounts
//! for each trace.
ghost use Rattle.std.specs.Prelude.{◌≡◌};
ghost use Rattle.std.specs.Thread.{IsSync};
ghost use Rattle.live_book.specs.Callers.{IsOfBook};

use crate::answers::answers;
use crate::callers::{ask, ask_full, drop_day, keep, read, roll};
use crate::entries::row_of;
use crate::traces::{FULL, TOUCHED};
use live_book::{Caller, Entry, LiveBook};
use std::alloc::Global;
use std::process::Abort;
use std::sync::Wait;
use std::test::Fail;
use std::thread::{self, Threads};

/// Rolls one trace into each second of eight days, in order. Tells how many were rolled.
fn record<R: Wait>(
    rt: &R,
    alloc: Global,
    book: &LiveBook,
    mut caller: Caller,
    first: u32,
) -> (Caller, u32)
    requires names { book.now.names ≡ 2 }
    requires of { IsOfBook book.now caller }
    ensures { IsOfBook book.now result.0 }
{
    let mut rolled = 0u32;
    'days: for place in 0..4u32 {
        let day = first.wrapping_add(2 * place);
        if let Some(Ok(_)) = roll(rt, alloc, book, &mut caller, day, true) {
            rolled = rolled.wrapping_add(1);
        }
    }
    (caller, rolled)
}

/// What a thread that asks and drops has found.
#[derive(Clone, Copy)]
struct Watched {
    /// How many traces its drops had.
    dropped: u32,
    /// Whether each answer had all relations, or all but those that a rolled trace refutes.
    sound: bool,
}

/// Asks and then drops a day, for each of eight days in order.
fn watch<R: Wait>(rt: &R, alloc: Global, book: &LiveBook, mut caller: Caller) -> (Caller, Watched)
    requires names { book.now.names ≡ 2 }
    requires of { IsOfBook book.now caller }
    ensures { IsOfBook book.now result.0 }
{
    let mut watched = Watched {
        dropped: 0,
        sound: true,
    };
    'days: for day in 0..8u32 {
        if let Some(words) = ask(rt, alloc, book, &mut caller) {
            let last = words.get(126).copied().unwrap_or(0);
            watched.sound = watched.sound && (last == FULL || last == TOUCHED);
        }
        if let Some(Ok(dropped)) = drop_day(rt, book, &mut caller, day) {
            watched.dropped = watched.dropped.wrapping_add(dropped);
        }
    }
    (caller, watched)
}

/// Records the even and the odd days in two threads. Joins their callers, and tells how many traces
/// were rolled.
fn record_beside<R: Threads + Wait + Sync>(
    rt: &R,
    alloc: Global,
    book: &LiveBook,
    even: Caller,
    odd: Caller,
) -> (Caller, u32)
    requires names { book.now.names ≡ 2 }
    requires even { IsOfBook book.now even }
    requires odd { IsOfBook book.now odd }
    ensures { IsOfBook book.now result.0 }
{
    let ((mut even, first), (odd, second)) = thread::join(
        rt,
        move || -> (Caller, u32)
            requires { IsSync R.row × IsOfBook book.now even × (book.now.names ≡ 2) }
            ensures { IsOfBook book.entry.now result.0 }
        { record(rt, alloc, book, even, 0) },
        move || -> (Caller, u32)
            requires { IsSync R.row × IsOfBook book.now odd × (book.now.names ≡ 2) }
            ensures { IsOfBook book.entry.now result.0 }
        { record(rt, alloc, book, odd, 1) },
    );
    book.join(&mut even, odd);
    (even, first.wrapping_add(second))
}

/// Serves: two threads record days while a third asks and drops. Joins their callers, and tells how
/// many traces were rolled and what the third found.
fn serve<R: Threads + Wait + Sync>(
    rt: &R,
    alloc: Global,
    book: &LiveBook,
    even: Caller,
    odd: Caller,
    watcher: Caller,
) -> (Caller, u32, Watched)
    requires names { book.now.names ≡ 2 }
    requires even { IsOfBook book.now even }
    requires odd { IsOfBook book.now odd }
    requires watcher { IsOfBook book.now watcher }
    ensures { IsOfBook book.now result.0 }
{
    let ((mut caller, rolled), (watcher, watched)) = thread::join(
        rt,
        move || -> (Caller, u32)
            requires { IsSync R.row × IsOfBook book.now even × IsOfBook book.now odd
                × (book.now.names ≡ 2) }
            ensures { IsOfBook book.entry.now result.0 }
        { record_beside(rt, alloc, book, even, odd) },
        move || -> (Caller, Watched)
            requires { IsSync R.row × IsOfBook book.now watcher × (book.now.names ≡ 2) }
            ensures { IsOfBook book.entry.now result.0 }
        { watch(rt, alloc, book, watcher) },
    );
    book.join(&mut caller, watcher);
    (caller, rolled, watched)
}

/// Tells whether the days of the entries of this kind rise, of those with this remainder by two.
fn days_rise(entries: &[Entry], kind: char, remainder: u32) -> bool {
    let mut next = 0u32;
    for entry in entries {
        let (letter, day, _) = row_of(entry);
        if letter == kind && day % 2 == remainder {
            if day < next {
                return false;
            }
            next = day.wrapping_add(1);
        }
    }
    true
}

/// How many entries are of this kind.
fn count_kind(entries: &[Entry], kind: char) -> usize {
    entries
        .iter()
        .filter(|entry| row_of(entry).0 == kind)
        .count()
}

/// Tells whether entries are eight rolls and eight drops, whose days rise in each thread, and one
/// keep.
fn account(entries: &[Entry]) -> bool {
    let kinds = (
        count_kind(entries, 'r'),
        count_kind(entries, 'd'),
        count_kind(entries, 'k'),
    );
    let rolls = days_rise(entries, 'r', 0) && days_rise(entries, 'r', 1);
    let drops = days_rise(entries, 'd', 0) && days_rise(entries, 'd', 1);
    kinds == (8, 8, 1) && rolls && drops
}

/// Reads the journal, and tells whether it accounts for each trace.
fn accounts<R: Wait>(rt: &R, book: &LiveBook, caller: &mut Caller) -> Option<bool>
    requires of { IsOfBook book.now caller.old }
    ensures of { IsOfBook book.now caller.new }
{
    let entries = read(rt, book, caller, 0)?;
    Some(account(&entries))
}

/// Splits a caller of 27 turns, serves by three threads, and joins all callers again.
fn serve_by_three<R: Threads + Wait + Sync>(
    rt: &R,
    alloc: Global,
    book: &LiveBook,
    caller: &mut Caller,
) -> Option<(u32, Watched)>
    requires names { book.now.names ≡ 2 }
    requires of { IsOfBook book.now caller.old }
    ensures of { IsOfBook book.now caller.new }
{
    if caller.turns() < 24 {
        return None;
    }
    let even = book.split(caller, 4);
    let odd = book.split(caller, 4);
    let watcher = book.split(caller, 16);
    let (others, rolled, watched) = serve(rt, alloc, book, even, odd, watcher);
    book.join(caller, others);
    Some((rolled, watched))
}

/// Asserts that the drops and a last keep had all eight traces, and that the journal accounts for
/// them with the last turn.
fn expect_accounts<R: Wait + Abort>(
    rt: &R,
    alloc: Global,
    book: &LiveBook,
    caller: &mut Caller,
    dropped: u32,
)
    requires names { book.now.names ≡ 2 }
    requires of { IsOfBook book.now caller.old }
{
    assert!(rt; dropped <= 8);
    assert!(rt; answers(keep(rt, book, caller, 0), 8 - dropped));
    assert_eq!(rt; ask_full(rt, alloc, book, caller), Some(127));
    assert_eq!(rt; accounts(rt, book, caller), Some(true));
    assert_eq!(rt; caller.turns(), 0);
}

#[test]
fn a_service_accounts_for_each_trace(rt: HostRuntime) -> Result<(), Fail> {
    let (book, mut caller) = LiveBook::open(rt.alloc(), 2, 27)?;
    let (rolled, watched) = serve_by_three(&rt, rt.alloc(), &book, &mut caller).ok_or(
        "too few turns",
    )?;
    assert!(rt; watched.sound && rolled == 8);
    expect_accounts(&rt, rt.alloc(), &book, &mut caller, watched.dropped);
    Ok(())
}
