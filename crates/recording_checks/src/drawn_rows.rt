//! The rows of drawn traces are what a plain loop over the pairs of segments says. Of few segments,
//! or of many whose names lie far apart, a row is made pair by pair, and of others word by word.
ghost use Rattle.std.specs.Prelude.{◌<◌};
ghost use Rattle.hypothesis_index.specs.Places.{IsRelation};

use crate::drawn_traces::{Kind, draw_trace, next};
use hypothesis_index::{Relation, place};
use refute_tests::segment_row;
use std::alloc::{AllocError, Global};
use std::test::Fail;
use trace_types::{NamedSegment, NamedTrace};
use word_rows::Row;

/// Sets the bit of a relation that is refuted.
fn expect_cleared(masks: &mut [u64], refuted: bool, relation: Relation)
    requires { IsRelation relation }
{
    let place = place(relation);
    if refuted && place.bit < 64 {
        if let Some(mask) = masks.get_mut(place.word as usize) {
            *mask |= 1 << place.bit;
        }
    }
}

/// Sets the bits of all that two segments refute, the first having the lesser name.
fn expect_pair(masks: &mut [u64], low: &NamedSegment, high: &NamedSegment, grace: u64)
    requires { low.now.name < high.now.name }
{
    let forward = high
        .start
        .checked_add_unsigned(grace)
        .is_some_and(|limit| limit < low.end);
    let backward = low
        .start
        .checked_add_unsigned(grace)
        .is_some_and(|limit| limit < high.end);
    let (first, second) = (low.name, high.name);
    expect_cleared(masks, forward, Relation::Before { first, second });
    let (low, high) = (first, second);
    let (first, second) = (high, low);
    expect_cleared(masks, backward, Relation::Before { first, second });
    expect_cleared(
        masks,
        forward && backward,
        Relation::Exclusive { low, high },
    );
    expect_cleared(masks, true, Relation::Apart { low, high });
}

/// Makes the masks of all words by a plain loop over the pairs.
fn plain_masks(
    alloc: Global,
    segments: &[NamedSegment],
    grace: u64,
) -> Result<Vec<u64>, AllocError> {
    let mut masks = Vec::from_elem(alloc, 0, 8302)?;
    for high in segments {
        for low in segments {
            if low.name < high.name {
                expect_pair(masks.as_mut_slice(), low, high, grace);
            }
        }
    }
    Ok(masks)
}

/// Tells whether the row has these masks.
fn has_masks(row: &Row, mut masks: Vec<u64>) -> bool {
    for entry in row.entries() {
        match masks.get_mut(entry.word as usize) {
            Some(mask) if *mask == entry.mask => *mask = 0,
            _ => return false,
        }
    }
    masks.iter().all(|mask| *mask == 0)
}

/// Tells whether the row of a trace is what the plain loop says.
fn has_plain_row(alloc: Global, trace: &NamedTrace) -> Result<bool, AllocError> {
    let row = segment_row(alloc, trace)?;
    let masks = plain_masks(alloc, trace.segments.items(), trace.grace)?;
    Ok(has_masks(&row, masks))
}

/// Tells whether the row of a drawn trace is what the plain loop says.
fn is_plain(alloc: Global, kind: &Kind, seed: u64) -> Result<bool, AllocError> {
    let trace = draw_trace(alloc, kind, seed)?;
    has_plain_row(alloc, &trace)
}

const EARLY: i64 = i64::MIN;

const LATE: i64 = i64::MAX - 40;

/// Kinds of traces: the count, the gap, the base, the span and the grace of each.
const KINDS: [(u32, u64, i64, u64, u64); 14] = [
    (0, 1, 0, 1, 0),
    (1, 1, 0, 9, 0),
    (2, 1, 0, 9, 0),
    (17, 1, 0, 9, 2),
    (40, 12, -50, 100, 0),
    (40, 12, EARLY, 40, 30),
    (40, 3, LATE, 80, 30),
    (100, 5, -1000, 2000, 1_000_000_000),
    (120, 1, 0, 9, 2),
    (120, 3, EARLY, 40, 30),
    (120, 3, LATE, 80, 30),
    (120, 2, -1000, 2000, 1_000_000_000),
    (256, 2, 0, 1_000_000, 1000),
    (512, 1, 0, 100_000, 100),
];

#[test]
fn both_ways_are_the_plain_pairs(rt: HostRuntime) -> Result<(), Fail> {
    let mut seed = 7;
    for (count, gap, base, span, grace) in KINDS {
        let kind = Kind {
            count,
            gap,
            base,
            span,
            grace,
        };
        for _ in 0..3 {
            seed = next(seed);
            let plain = is_plain(rt.alloc(), &kind, seed)?;
            assert!(rt; plain, "{count} segments from {base}");
        }
    }
    Ok(())
}
