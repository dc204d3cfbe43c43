use crate::running::expect_page;
use std::test::Fail;

/// The rows of five boxes: `a` happens before `b`, and `b` before `c`; `d` and `e` each before the
/// other; `a` and `d` are mutually exclusive, and a pipeline.
const CIRCLE: &[u8] =
    b"report\ttraces=0\tcritical=0\nlatency\t0\t0\t0\t0\ntail\ttraces=0\tslow=0\tfloor=0\nranks\ttraces=0\tbuckets=1\nbucket\t0\t0\t0\t0\t0\ngain\ttraces=0\tcritical=0\nroom\ttraces=0\nloads\tloads=0\nbox\t0\ta\ts\tt\nbox\t1\tb\ts\tt\nbox\t2\tc\ts\tt\nbox\t3\td\nbox\t4\te\ts\tt\nbetween\t0\t1\t1\t1\t0\nbetween\t0\t3\t1\t0\t1\nbetween\t1\t2\t1\t1\t0\nbetween\t3\t0\t1\t0\t1\nbetween\t3\t4\t1\t1\t0\nbetween\t4\t3\t1\t1\t0\npipe\ta\td\n";

/// The same boxes: `a` happens before `b`, `b` before `c`, and `a` before `c`; one of two pairs of
/// `b` and `d` is before.
const IMPLIED: &[u8] =
    b"report\ttraces=0\tcritical=0\nlatency\t0\t0\t0\t0\ntail\ttraces=0\tslow=0\tfloor=0\nranks\ttraces=0\tbuckets=1\nbucket\t0\t0\t0\t0\t0\ngain\ttraces=0\tcritical=0\nroom\ttraces=0\nloads\tloads=0\nbox\t0\ta\ts\tt\nbox\t1\tb\ts\tt\nbox\t2\tc\ts\tt\nbox\t3\td\nbox\t4\te\ts\tt\nbetween\t0\t1\t1\t1\t0\nbetween\t0\t2\t1\t1\t0\nbetween\t1\t2\t1\t1\t0\nbetween\t1\t3\t2\t1\t0\n";

#[test]
fn a_joined_pair_is_counted_and_a_circle_has_both_arrows(rt: HostRuntime) -> Result<(), Fail> {
    expect_page(
        &rt,
        rt.alloc(),
        CIRCLE,
        &[
            b"<svg class=\"graph\" width=\"492\" height=\"196\"",
            b"<path class=\"hb\" d=\"M243 38C243 58 407 58 407 38\"",
            b"<path class=\"hb\" d=\"M407 38C407 58 243 58 243 38\"",
            b"<path class=\"mx\" d=\"M64 38C64 58 228 58 228 38\"",
            b"<path class=\"pipe\" d=\"M94 38C94 58 258 58 258 38\"",
            b"5 boxes; 4 arrows stand for 4 relations. Pairs that a chain of arrows joins and that have no relation of their own: 1 (see the matrix).",
        ],
        &[],
    )
}

#[test]
fn an_implied_relation_has_no_arrow(rt: HostRuntime) -> Result<(), Fail> {
    expect_page(
        &rt,
        rt.alloc(),
        IMPLIED,
        &[b"5 boxes; 2 arrows stand for 3 relations.</p>"],
        &[b"Pairs that a chain"],
    )
}
