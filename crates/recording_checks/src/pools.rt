//! Rows of words by id: taken, written, met, widened, given back.
ghost use Rattle.std.specs.Prelude.{◌≡◌, ◌≢◌, ◌<◌, length};
ghost use Rattle.row_pool.specs.Pools.{IsLive, IsMet, row_at, with_row};
ghost use Rattle.recording_checks.specs.inner.Holding.{AreHeld};

use row_pool::{RowId, RowPool, Steps};
use std::marker::{Brand, Send, Sync};
use std::process::Abort;
use std::sync::ledger::{Blank, Ledger};
use std::test::Fail;

const FULL: u64 = u64::MAX;

/// Asks of a type that it may be shared among threads and sent to them.
fn cross_threads<T: Send + Sync>(_value: &T) {}

#[tactic(auto, using(row_pool::proofs::CallerLemmas::pool_facts))]
#[test]
fn rows_are_taken_given_back_and_taken_again(rt: HostRuntime) -> Result<(), Fail> {
    let mut pool = RowPool::new(rt.alloc(), 2);
    assert!(rt; pool.take().is_none());
    pool.reserve(1)?;
    assert_eq!(rt; pool.spare(), 1);
    let Some(id) = pool.take() else {
        panic!(rt; "no row");
    };
    assert_eq!(rt; pool.row(&id), [FULL, FULL].as_slice());
    assert_eq!(rt; pool.spare(), 0);
    let None = pool.take() else {
        panic!(rt; "a row too many");
    };
    pool.give_back(id);
    assert_eq!(rt; pool.spare(), 1);
    assert!(rt; pool.take().is_some());
    assert_eq!(rt; pool.spare(), 0);
    cross_threads(&pool);
    Ok(())
}

#[tactic(auto, using(row_pool::proofs::CallerLemmas::pool_facts))]
#[test]
fn a_wider_row_ends_with_full_words(rt: HostRuntime) -> Result<(), Fail> {
    let mut pool = RowPool::new(rt.alloc(), 2);
    pool.reserve(1)?;
    let Some(id) = pool.take() else {
        panic!(rt; "no row");
    };
    pool.write(&id, &[5, 6]);
    pool.new_width(3)?;
    assert_eq!(rt; pool.row(&id), [5, 6, FULL].as_slice());
    pool.fill(&id);
    assert_eq!(rt; pool.row(&id), [FULL, FULL, FULL].as_slice());
    Ok(())
}

/// Meets two rows with a counter that nobody reads.
fn meet_with<L: Ledger>(pool: &mut RowPool, to: &RowId, a: &RowId, b: &RowId, blank: Blank)
    requires name { blank.name ≡ L.name }
    requires parts { (blank.parts ≡ L.parts) × (0 < L.parts) }
    requires live { IsLive pool.old to.now × IsLive pool.old a.now × IsLive pool.old b.now }
    requires apart { (to.now ≢ a.now) × (to.now ≢ b.now) }
    ensures met { IsMet pool.old a.now b.now pool.new to.now }
    ensures others { pool.new ≡ with_row pool.old to.now (row_at pool.new to.now) }
{
    let mut steps = Steps::<L>::new(blank);
    pool.meet_into(to, a, b, &mut steps);
}

#[tactic(auto, using(row_pool::proofs::CallerLemmas::pool_facts))]
#[test]
fn a_meet_keeps_the_common_bits_and_its_sources(rt: HostRuntime) -> Result<(), Fail> {
    let mut pool = RowPool::new(rt.alloc(), 2);
    pool.reserve(3)?;
    let Some(to) = pool.take() else {
        panic!(rt; "no row");
    };
    let Some(a) = pool.take() else {
        panic!(rt; "no row");
    };
    let Some(b) = pool.take() else {
        panic!(rt; "no row");
    };
    pool.write(&a, &[6, 3]);
    pool.write(&b, &[3, 9]);
    meet_with::<Brand>(&mut pool, &to, &a, &b, Blank::new(1));
    assert_eq!(rt; pool.row(&to), [2, 1].as_slice());
    assert_eq!(rt; pool.row(&a), [6, 3].as_slice());
    assert_eq!(rt; pool.row(&b), [3, 9].as_slice());
    Ok(())
}

/// Compares each live row of width 1 with the word that was written to it.
fn compare(rt: &impl Abort, pool: &RowPool, ids: &[Option<RowId>], words: &[u64])
    requires held { AreHeld pool.now ids.now }
    requires words { length words.now ≡ length ids.now }
{
    'slots: for slot in 0..ids.len() {
        if let Some(id) = &ids[slot] {
            assert_eq!(rt; pool.row(id), [words[slot]].as_slice());
        }
    }
}

/// Takes a spare row of width 1 into a slot, and writes a word to it.
#[tactic(auto, using(row_pool::proofs::CallerLemmas::pool_facts))]
fn fill_slot(rt: &impl Abort, pool: &mut RowPool, ids: &mut [Option<RowId>], slot: usize, word: u64)
    requires width { pool.old.width ≡ 1 }
    requires held { AreHeld pool.old ids.old }
    requires slot { slot < length ids.old }
    ensures width { pool.new.width ≡ 1 }
    ensures held { AreHeld pool.new ids.new }
    ensures ids { length ids.new ≡ length ids.old }
{
    let Some(id) = pool.take() else {
        panic!(rt; "no spare row");
    };
    assert_eq!(rt; pool.row(&id), [FULL].as_slice());
    pool.write(&id, &[word]);
    ids[slot] = Some(id);
}

/// Gives back the row of a slot, if it has one.
fn empty_slot(pool: &mut RowPool, ids: &mut [Option<RowId>], slot: usize)
    requires width { pool.old.width ≡ 1 }
    requires held { AreHeld pool.old ids.old }
    requires slot { slot < length ids.old }
    ensures width { pool.new.width ≡ 1 }
    ensures held { AreHeld pool.new ids.new }
    ensures ids { length ids.new ≡ length ids.old }
{
    let Some(id) = ids[slot].take() else {
        return;
    };
    pool.give_back(id);
}

/// Fills each empty slot, and compares all live rows after each call.
fn fill_slots(
    rt: &impl Abort,
    pool: &mut RowPool,
    ids: &mut [Option<RowId>],
    words: &mut [u64],
    from: u64,
)
    requires width { pool.old.width ≡ 1 }
    requires held { AreHeld pool.old ids.old }
    requires words { length words.old ≡ length ids.old }
    ensures width { pool.new.width ≡ 1 }
    ensures held { AreHeld pool.new ids.new }
    ensures ids { length ids.new ≡ length ids.old }
    ensures words { length words.new ≡ length words.old }
{
    'slots: for slot in 0..ids.len() {
        if ids[slot].is_none() {
            words[slot] = from.wrapping_add(slot as u64);
            fill_slot(rt, pool, ids, slot, words[slot]);
            compare(rt, pool, ids, words);
        }
    }
}

/// Empties each slot whose number, counted from 1, this divides, and compares all live rows after
/// each call.
fn empty_slots(
    rt: &impl Abort,
    pool: &mut RowPool,
    ids: &mut [Option<RowId>],
    words: &[u64],
    every: usize,
)
    requires width { pool.old.width ≡ 1 }
    requires held { AreHeld pool.old ids.old }
    requires words { length words.now ≡ length ids.old }
    requires every { 0 < every }
    ensures width { pool.new.width ≡ 1 }
    ensures held { AreHeld pool.new ids.new }
    ensures ids { length ids.new ≡ length ids.old }
{
    'slots: for slot in 0..ids.len() {
        if slot % every == every - 1 {
            empty_slot(pool, ids, slot);
            compare(rt, pool, ids, words);
        }
    }
}

#[tactic(auto, using(row_pool::proofs::CallerLemmas::pool_facts))]
#[test]
fn live_rows_keep_their_words_through_three_rounds(rt: HostRuntime) -> Result<(), Fail> {
    let mut pool = RowPool::new(rt.alloc(), 1);
    pool.reserve(8)?;
    let mut ids: [Option<RowId>; 8] = [None, None, None, None, None, None, None, None];
    let mut words = [0; 8];
    'rounds: for round in 0..3u64 {
        fill_slots(&rt, &mut pool, &mut ids, &mut words, 100 * round);
        assert_eq!(rt; pool.spare(), 0);
        empty_slots(&rt, &mut pool, &mut ids, &words, 2);
        assert_eq!(rt; pool.spare(), 4);
        fill_slots(&rt, &mut pool, &mut ids, &mut words, 100 * round + 50);
        assert_eq!(rt; pool.spare(), 0);
        empty_slots(&rt, &mut pool, &mut ids, &words, 1);
        assert_eq!(rt; pool.spare(), 8);
    }
    Ok(())
}
