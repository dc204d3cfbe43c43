//! The place of each relation in the words.
use hypothesis_index::{BitPlace, Relation, place, unplace, width};
use std::rt::HostRuntime;

const FIRST: Relation = Relation::Before {
    first: 0,
    second: 1,
};

#[test]
fn places_of_the_first_and_the_last_pairs(rt: HostRuntime) {
    let back = Relation::Before {
        first: 1,
        second: 0,
    };
    let last = Relation::Exclusive {
        low: 510,
        high: 511,
    };
    let pipe = Relation::Pipe { from: 1, to: 0 };
    let unshared = Relation::Unshared { low: 62, high: 63 };
    let rows = [
        (place(FIRST), 126, 0),
        (place(back), 126, 1),
        (place(Relation::Apart { low: 0, high: 1 }), 126, 3),
        (place(last), 8301, 62),
        (place(pipe), 0, 1),
        (place(unshared), 125, 62),
    ];
    for (found, word, bit) in rows {
        assert_eq!(rt; (found.word, found.bit), (word, bit));
    }
}

#[test]
fn a_place_is_read_back(rt: HostRuntime) {
    let last = Relation::Exclusive {
        low: 510,
        high: 511,
    };
    let unshared = Relation::Unshared { low: 62, high: 63 };
    let rows = [
        (126, 0, Some(FIRST)),
        (8301, 62, Some(last)),
        (125, 62, Some(unshared)),
        (125, 63, None),
        (8302, 0, None),
        (126, 64, None),
    ];
    for (word, bit, relation) in rows {
        assert!(rt; unplace(BitPlace { word, bit }) == relation);
    }
}

#[test]
fn widths(rt: HostRuntime) {
    for (names, words) in [
        (0, 126),
        (1, 126),
        (2, 127),
        (6, 127),
        (7, 128),
        (512, 8302),
    ] {
        assert_eq!(rt; width(names), words);
    }
}
