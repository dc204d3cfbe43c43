//! Tables of words that passes clear and read, in one thread and in two.
ghost use Rattle.std.specs.Prelude.{◌≡◌, ◌<◌, [], ◌∷◌, IfOk};
ghost use Rattle.word_rule.specs.Holdings.{IsOfTable};

use std::alloc::{AllocError, Global};
use std::sync::atomic::{AtomicU64, Ordering};
use std::test::Fail;
use std::thread;
use word_rows::{Entry, Row};
use word_rule::uses::offer_and_read_beside;
use word_rule::{CloseFault, MeetTable, Pass};

/// What is left of the full word where bits 0 and 2 are cleared.
const LEFT: u64 = 0xffff_ffff_ffff_fffa;

/// Makes the row of one entry in word 0.
fn row_of(alloc: Global, mask: u64) -> Result<Row, AllocError>
    requires { 0 < mask }
    ensures { IfOk result (λ r. r ≡ record { word = 0; mask = mask } ∷ []) }
{
    let mut entries = Vec::with_capacity(alloc, 1)?;
    entries.push_reserved(Entry { word: 0, mask });
    Ok(Row::of(entries))
}

/// Offers the row of one entry in word 0, the only one of the table.
fn offer_mask(
    alloc: Global,
    table: &MeetTable,
    pass: &mut Pass,
    mask: u64,
) -> Result<(), AllocError>
    requires table { IsOfTable table.now pass.old }
    requires width { table.now.width ≡ 1 }
    requires mask { 0 < mask }
    ensures { IsOfTable table.now pass.new }
{
    let row = row_of(alloc, mask)?;
    table.offer(pass, &row);
    Ok(())
}

/// Tells whether a table closes with these words.
fn closes_with(alloc: Global, table: MeetTable, pass: Pass, words: &[u64]) -> bool
    requires { IsOfTable table pass }
{
    match table.close(alloc, pass) {
        Ok(closed) => closed.words.words() == words,
        Err(_) => false,
    }
}

/// Says that one thread is here, and waits for the other for so many turns. Answers whether the
/// other came.
fn holds_for(mine: &AtomicU64, other: &AtomicU64) -> bool {
    mine.store(1, Ordering::SeqCst);
    for _ in 0..10_000_000u64 {
        if other.load(Ordering::SeqCst) == 1 {
            return true;
        }
        thread::yield_now();
    }
    false
}

/// Makes the row that clears bit 0 of the words 0 and 1.
fn row_of_two(alloc: Global) -> Result<Row, AllocError>
    ensures { IfOk result (λ r. r ≡
        record { word = 0; mask = 1 } ∷ record { word = 1; mask = 1 } ∷ []) }
{
    let mut entries = Vec::with_capacity(alloc, 2)?;
    entries.push_reserved(Entry { word: 0, mask: 1 });
    entries.push_reserved(Entry { word: 1, mask: 1 });
    Ok(Row::of(entries))
}

#[test]
fn the_pass_with_all_shares_closes(rt: HostRuntime) -> Result<(), Fail> {
    let (table, mut first) = MeetTable::open(rt.alloc(), 1, 4)?;
    let mut second = table.split(&mut first, 1);
    assert_eq!(rt; (first.shares(), second.shares()), (3, 1));
    offer_mask(rt.alloc(), &table, &mut first, 1)?;
    offer_mask(rt.alloc(), &table, &mut second, 4)?;
    let (table, mut first) = match table.close(rt.alloc(), first) {
        Err(
            CloseFault::PassesOut {
                table,
                pass,
                have,
                all,
            },
        ) => {
            assert_eq!(rt; (have, all), (3, 4));
            (table, pass)
        }
        Err(CloseFault::Memory { .. }) => return Err(Fail::from("memory")),
        Ok(_) => return Err(Fail::from("closed")),
    };
    table.join(&mut first, second);
    assert!(rt; closes_with(rt.alloc(), table, first, &[LEFT]));
    Ok(())
}

// The replies are those of the step machine, as `two_seats` of its worked examples computes them.
#[test]
fn what_another_pass_offered_is_read_without_a_note(rt: HostRuntime) -> Result<(), Fail> {
    let (table, mut first) = MeetTable::open(rt.alloc(), 1, 2)?;
    let mut second = table.split(&mut first, 1);
    offer_mask(rt.alloc(), &table, &mut first, 1)?;
    offer_mask(rt.alloc(), &table, &mut second, 4)?;
    let mut into = [0u64];
    table.read(&mut first, &mut into);
    assert_eq!(rt; into, [LEFT]);
    table.join(&mut first, second);
    assert!(rt; closes_with(rt.alloc(), table, first, &[LEFT]));
    Ok(())
}

// The replies are those of the step machine, as `whole_rows` of its worked examples computes them.
#[test]
fn whole_rows_run_as_on_the_step_machine(rt: HostRuntime) -> Result<(), Fail> {
    let (table, mut pass) = MeetTable::open(rt.alloc(), 2, 1)?;
    assert_eq!(rt; (table.width(), table.all(), pass.shares()), (2, 1, 1));
    table.offer(&mut pass, &row_of_two(rt.alloc())?);
    table.offer(&mut pass, &row_of_two(rt.alloc())?);
    let mut into = [0u64; 2];
    table.read(&mut pass, &mut into);
    assert_eq!(rt; into, [u64::MAX - 1; 2]);
    assert!(rt; closes_with(rt.alloc(), table, pass, &[u64::MAX - 1; 2]));
    Ok(())
}

#[test]
fn a_note_tells_what_was_offered(rt: HostRuntime) -> Result<(), Fail> {
    let (table, mut first) = MeetTable::open(rt.alloc(), 1, 2)?;
    let mut second = table.split(&mut first, 1);
    offer_mask(rt.alloc(), &table, &mut first, 1)?;
    let note = table.note(&mut first);
    table.meet(&mut second, note);
    let mut into = [0u64];
    table.read(&mut second, &mut into);
    assert_eq!(rt; into[0] & 1, 0);
    assert_eq!(rt; into[0], u64::MAX - 1);
    Ok(())
}

#[test]
fn two_threads_offer_beside_each_other(rt: HostRuntime) -> Result<(), Fail> {
    let (table, mut first) = MeetTable::open(rt.alloc(), 1, 2)?;
    let mut second = table.split(&mut first, 1);
    let low = row_of(rt.alloc(), 1)?;
    let high = row_of(rt.alloc(), 4)?;
    let (here, there) = (AtomicU64::new(0), AtomicU64::new(0));
    let shared = &table;
    let ((mut first, one), (second, other)) = thread::join(
        &rt,
        || {
            let came = holds_for(&here, &there);
            shared.offer(&mut first, &low);
            (first, came)
        },
        || {
            let came = holds_for(&there, &here);
            shared.offer(&mut second, &high);
            (second, came)
        },
    );
    assert_eq!(rt; (one, other), (true, true));
    table.join(&mut first, second);
    assert!(rt; closes_with(rt.alloc(), table, first, &[LEFT]));
    Ok(())
}

/// Tells whether a reading of one word lacks this mask's bits and no other than those of two masks.
fn lacks_own(word: u64, own: u64, other: u64) -> bool {
    word & own == 0 && (word | own | other) == u64::MAX
}

// Which of the two misses the other's row is the schedule's choice, but never both.
#[test]
fn two_threads_offer_and_then_read(rt: HostRuntime) -> Result<(), Fail> {
    let (low, high) = (row_of(rt.alloc(), 1)?, row_of(rt.alloc(), 4)?);
    let Some((first, second, words)) = offer_and_read_beside(&rt, rt.alloc(), 1, &low, &high) else {
        return Err(Fail::from("memory"));
    };
    assert_eq!(rt; words.words(), [LEFT].as_slice());
    assert_eq!(rt; (first.len(), second.len()), (1, 1));
    let (one, other) = (first[0], second[0]);
    assert!(rt; lacks_own(one, 1, 4) && lacks_own(other, 4, 1));
    assert!(rt; one == LEFT || other == LEFT);
    Ok(())
}
