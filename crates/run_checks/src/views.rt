use crate::rows::{BRANCHES, INSIDE, OPPOSITE, OVERLAP, Row, TOUCHING};
use crate::running::{Printed, expect_texts};
use Row::{Event, Line};
use std::test::Fail;

const WITHOUT_DURATION: [Row<'static>; 4] = [
    Event("r1", "a", "s", "5"),
    Event("r1", "a", "e", "5"),
    Event("r1", "b", "s", "5"),
    Event("r1", "b", "e", "5"),
];

const NEVER_TOGETHER: [Row<'static>; 4] = [
    Event("r1", "a", "s", "0"),
    Event("r1", "a", "e", "10"),
    Event("r2", "b", "s", "0"),
    Event("r2", "b", "e", "10"),
];

pub(crate) const PIPELINE: [Row<'static>; 6] = [
    Event("r1", "t", "x@d", "0"),
    Event("r1", "t", "x@e", "10"),
    Event("r1", "t", "z", "20"),
    Event("r1", "u", "y@d", "20"),
    Event("r1", "u", "y@e", "30"),
    Event("r1", "u", "w", "40"),
];

/// The elements are in another order in the second task.
const OTHER_ORDER: [Row<'static>; 6] = [
    Event("r2", "t", "x@d", "0"),
    Event("r2", "t", "x@e", "10"),
    Event("r2", "t", "z", "20"),
    Event("r2", "u", "y@e", "30"),
    Event("r2", "u", "y@d", "40"),
    Event("r2", "u", "w", "50"),
];

const EQUAL_BRANCHES: [Row<'static>; 8] = [
    Event("r1", "a", "s", "0"),
    Event("r1", "a", "e", "5"),
    Event("r1", "b", "s", "5"),
    Event("r1", "b", "e", "15"),
    Event("r1", "c", "s", "5"),
    Event("r1", "c", "e", "15"),
    Event("r1", "d", "s", "15"),
    Event("r1", "d", "e", "18"),
];

const TURNED: [Row<'static>; 8] = [
    Event("r1", "a", "s", "0"),
    Event("r1", "a", "e", "5"),
    Event("r1", "c", "s", "5"),
    Event("r1", "c", "e", "15"),
    Event("r1", "b", "s", "5"),
    Event("r1", "b", "e", "15"),
    Event("r1", "d", "s", "15"),
    Event("r1", "d", "e", "18"),
];

const LONE: Row<'static> = Event("r1", "a", "s", "7");

const ONE_MICROSECOND: Row<'static> = Line("{\"do\":\"grace\",\"micros\":1}");

const TEN_MICROSECONDS: Row<'static> = Line("{\"do\":\"grace\",\"micros\":10}");

/// Times in nanoseconds and in microseconds.
const BOTH_UNITS: [Row<'static>; 4] = [
    Line("{\"request\":\"r1\",\"machine\":\"m\",\"task\":\"a\",\"event\":\"s\",\"nanos\":0}"),
    Line("{\"request\":\"r1\",\"machine\":\"m\",\"task\":\"a\",\"event\":\"e\",\"nanos\":1500}"),
    Line("{\"request\":\"r1\",\"machine\":\"m\",\"task\":\"b\",\"event\":\"s\",\"time\":2}"),
    Line("{\"request\":\"r1\",\"machine\":\"m\",\"task\":\"b\",\"event\":\"e\",\"nanos\":2500}"),
];

#[test]
fn relations_survive_or_are_refuted(rt: HostRuntime) -> Result<(), Fail> {
    let table: [Printed<'_>; 10] = [
        (
            "model",
            &[&[]],
            b"model\ttraces=0\tdays=0\tsegments=0\ttasks=0\thb=0\tmx=0\tpipe=0\n",
        ),
        (
            "model",
            &[&TOUCHING],
            b"model\ttraces=1\tdays=1\tsegments=2\ttasks=2\thb=1\tmx=0\tpipe=0\n\
                hb\ta\ts\te\tb\ts\te\n",
        ),
        (
            "model",
            &[&TOUCHING, &OPPOSITE],
            b"model\ttraces=2\tdays=1\tsegments=2\ttasks=2\thb=0\tmx=1\tpipe=0\n\
                mx\ta\ts\te\tb\ts\te\n",
        ),
        (
            "model",
            &[&TOUCHING, &OPPOSITE, &OVERLAP],
            b"model\ttraces=3\tdays=1\tsegments=2\ttasks=2\thb=0\tmx=0\tpipe=0\n",
        ),
        (
            "model",
            &[&WITHOUT_DURATION],
            b"model\ttraces=1\tdays=1\tsegments=2\ttasks=2\thb=2\tmx=0\tpipe=0\n\
                hb\ta\ts\te\tb\ts\te\nhb\tb\ts\te\ta\ts\te\n",
        ),
        (
            "model",
            &[&NEVER_TOGETHER],
            b"model\ttraces=2\tdays=1\tsegments=2\ttasks=2\thb=0\tmx=0\tpipe=0\n",
        ),
        (
            "model",
            &[&PIPELINE],
            b"model\ttraces=1\tdays=1\tsegments=4\ttasks=2\thb=6\tmx=0\tpipe=1\n\
                hb\tt\tx@d\tx@e\tt\tx@e\tz\nhb\tt\tx@d\tx@e\tu\ty@d\ty@e\n\
                hb\tt\tx@d\tx@e\tu\ty@e\tw\nhb\tt\tx@e\tz\tu\ty@d\ty@e\nhb\tt\tx@e\tz\tu\ty@e\tw\n\
                hb\tu\ty@d\ty@e\tu\ty@e\tw\npipe\tt\tu\n",
        ),
        (
            "model",
            &[&PIPELINE, &OTHER_ORDER],
            b"model\ttraces=2\tdays=1\tsegments=6\ttasks=2\thb=11\tmx=0\tpipe=0\n\
                hb\tt\tx@d\tx@e\tt\tx@e\tz\nhb\tt\tx@d\tx@e\tu\ty@d\tw\n\
                hb\tt\tx@d\tx@e\tu\ty@d\ty@e\nhb\tt\tx@d\tx@e\tu\ty@e\tw\n\
                hb\tt\tx@d\tx@e\tu\ty@e\ty@d\nhb\tt\tx@e\tz\tu\ty@d\tw\n\
                hb\tt\tx@e\tz\tu\ty@d\ty@e\nhb\tt\tx@e\tz\tu\ty@e\tw\nhb\tt\tx@e\tz\tu\ty@e\ty@d\n\
                hb\tu\ty@d\ty@e\tu\ty@e\tw\nhb\tu\ty@e\ty@d\tu\ty@d\tw\n",
        ),
        (
            "model",
            &[&[ONE_MICROSECOND], &TOUCHING, &OPPOSITE, &OVERLAP],
            b"model\ttraces=3\tdays=1\tsegments=2\ttasks=2\thb=0\tmx=1\tpipe=0\n\
                mx\ta\ts\te\tb\ts\te\n",
        ),
        (
            "model",
            &[&[TEN_MICROSECONDS], &INSIDE],
            b"model\ttraces=1\tdays=1\tsegments=2\ttasks=2\thb=1\tmx=0\tpipe=0\n\
                hb\tb\ts\te\ta\ts\te\n",
        ),
    ];
    expect_texts(&rt, rt.alloc(), "4", &table)
}

#[test]
fn paths_slacks_and_graphs_are_printed(rt: HostRuntime) -> Result<(), Fail> {
    let table: [Printed<'_>; 13] = [
        (
            "graph",
            &[&WITHOUT_DURATION],
            b"graph\ttraces=1\ntrace\tr1\t0\t0\t2\t1\nvertex\t0\ta\ts\te\t0\n\
                vertex\t1\tb\ts\te\t0\nedge\t0\t1\n",
        ),
        (
            "paths",
            &[&WITHOUT_DURATION],
            b"paths\ttraces=1\npath\tr1\t0\t0\t0\t0\n",
        ),
        (
            "paths",
            &[&[LONE]],
            b"paths\ttraces=1\npath\tr1\t0\t0\t0\t0\n",
        ),
        (
            "slack",
            &[&BRANCHES],
            b"slack\ttraces=1\ntrace\tr1\t0\t18000\t18000\nsegment\ta\ts\te\t5000\t0\n\
                segment\tc\ts\te\t4000\t6000\nsegment\tb\ts\te\t10000\t0\n\
                segment\td\ts\te\t3000\t0\n",
        ),
        (
            "paths",
            &[&BRANCHES],
            b"paths\ttraces=1\npath\tr1\t0\t18000\t18000\t3\nstep\ta\ts\te\t5000\n\
                step\tb\ts\te\t10000\nstep\td\ts\te\t3000\n",
        ),
        (
            "graph",
            &[&BRANCHES],
            b"graph\ttraces=1\ntrace\tr1\t0\t18000\t4\t4\nvertex\t0\ta\ts\te\t5000\n\
                vertex\t1\tc\ts\te\t4000\nvertex\t2\tb\ts\te\t10000\nvertex\t3\td\ts\te\t3000\n\
                edge\t0\t1\nedge\t0\t2\nedge\t1\t3\nedge\t2\t3\n",
        ),
        (
            "paths",
            &[&EQUAL_BRANCHES],
            b"paths\ttraces=1\npath\tr1\t0\t18000\t18000\t3\nstep\ta\ts\te\t5000\n\
                step\tb\ts\te\t10000\nstep\td\ts\te\t3000\n",
        ),
        (
            "slack",
            &[&EQUAL_BRANCHES],
            b"slack\ttraces=1\ntrace\tr1\t0\t18000\t18000\nsegment\ta\ts\te\t5000\t0\n\
                segment\tb\ts\te\t10000\t0\nsegment\tc\ts\te\t10000\t0\n\
                segment\td\ts\te\t3000\t0\n",
        ),
        (
            "graph",
            &[&EQUAL_BRANCHES],
            b"graph\ttraces=1\ntrace\tr1\t0\t18000\t4\t4\nvertex\t0\ta\ts\te\t5000\n\
                vertex\t1\tb\ts\te\t10000\nvertex\t2\tc\ts\te\t10000\nvertex\t3\td\ts\te\t3000\n\
                edge\t0\t1\nedge\t0\t2\nedge\t1\t3\nedge\t2\t3\n",
        ),
        (
            "paths",
            &[&TURNED],
            b"paths\ttraces=1\npath\tr1\t0\t18000\t18000\t3\nstep\ta\ts\te\t5000\n\
                step\tc\ts\te\t10000\nstep\td\ts\te\t3000\n",
        ),
        (
            "slack",
            &[&TURNED],
            b"slack\ttraces=1\ntrace\tr1\t0\t18000\t18000\nsegment\ta\ts\te\t5000\t0\n\
                segment\tc\ts\te\t10000\t0\nsegment\tb\ts\te\t10000\t0\n\
                segment\td\ts\te\t3000\t0\n",
        ),
        (
            "paths",
            &[&[TEN_MICROSECONDS], &INSIDE],
            b"paths\ttraces=1\npath\tr1\t0\t100000\t104000\t2\nstep\ta\ts\te\t100000\n\
                step\tb\ts\te\t4000\n",
        ),
        (
            "paths",
            &[&BOTH_UNITS],
            b"paths\ttraces=1\npath\tr1\t0\t2500\t2000\t2\nstep\ta\ts\te\t1500\n\
                step\tb\ts\te\t500\n",
        ),
    ];
    expect_texts(&rt, rt.alloc(), "4", &table)
}
