//! Segments of worked traces.
use crate::cuts::cuts;
use std::test::Fail;

#[test]
fn tasks_are_cut_by_time_and_line(rt: HostRuntime) -> Result<(), Fail> {
    let day = 86_400_000_000_000;
    let rows = [
        ("m", "b", "e1", 3 * day + 50, None, None),
        ("m", "a", "late", 3 * day + 70, None, None),
        ("m", "b", "e2", 3 * day + 20, None, None),
        ("m", "a", "first", 3 * day + 60, None, None),
        ("m", "a", "tie", 3 * day + 60, None, None),
        ("m", "alone", "e", 4 * day, None, None),
    ];
    let at = 3 * day as i64;
    let expected = [
        ("b", "e2", "e1", at + 20, at + 50, None),
        ("a", "first", "tie", at + 60, at + 60, None),
        ("a", "tie", "late", at + 60, at + 70, None),
    ];
    cuts(&rt, &rows, 3, day - 20, &expected)
}

#[test]
fn elements_stand_after_the_first_at_sign(rt: HostRuntime) -> Result<(), Fail> {
    let rows = [
        ("m", "a", "recv@x", 0, None, None),
        ("m", "a", "work@y@z", 1, None, None),
        ("m", "a", "none@", 2, None, None),
        ("m", "a", "@w", 3, None, None),
        ("m", "a", "plain", 4, None, None),
        ("m", "a", "end@v", 5, None, None),
    ];
    let expected = [
        ("a", "recv@x", "work@y@z", 0, 1, Some("x")),
        ("a", "work@y@z", "none@", 1, 2, Some("y@z")),
        ("a", "none@", "@w", 2, 3, None),
        ("a", "@w", "plain", 3, 4, Some("w")),
        ("a", "plain", "end@v", 4, 5, None),
    ];
    cuts(&rt, &rows, 0, 5, &expected)
}

#[test]
fn times_are_adjusted_by_the_machine(rt: HostRuntime) -> Result<(), Fail> {
    // there 130 and back -90, so that n is 110 ahead of m
    let rows = [
        ("m", "a", "s", 1000, Some("x"), None),
        ("n", "b", "r", 1130, None, Some("x")),
        ("n", "b", "s", 2000, Some("y"), None),
        ("m", "a", "r", 1910, None, Some("y")),
    ];
    let expected = [
        ("a", "s", "r", 1000, 1910, None),
        ("b", "r", "s", 1020, 1890, None),
    ];
    cuts(&rt, &rows, 0, 910, &expected)
}
