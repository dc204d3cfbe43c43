use crate::rows::{ADD, MODEL, OPPOSITE, OVERLAP, Row, TOUCHING, input_of};
use crate::running::{Printed, SETTING, Setting, expect, expect_texts};
use Row::{Event, Line, Table};
use std::test::Fail;

pub(crate) const LATER_OVERLAP: [Row<'static>; 4] = [
    Event("r3", "a", "s", "86400000000"),
    Event("r3", "a", "e", "86400000010"),
    Event("r3", "b", "s", "86400000009"),
    Event("r3", "b", "e", "86400000020"),
];

const DROPS: [Row<'static>; 5] = [
    ADD,
    MODEL,
    Line("{\"do\":\"drop\",\"day\":1}"),
    MODEL,
    Line("{\"do\":\"drop\",\"day\":1}"),
];

const KEEP: [Row<'static>; 15] = [
    Event("r1", "a", "s", "1710720000000000"),
    Event("r1", "a", "e", "1710720000000010"),
    Event("r1", "b", "s", "1710720000000010"),
    Event("r1", "b", "e", "1710720000000030"),
    Event("r2", "b", "s", "1710892800000000"),
    Event("r2", "b", "e", "1710892800000005"),
    Event("r2", "a", "s", "1710892800000005"),
    Event("r2", "a", "e", "1710892800000009"),
    Line("{\"do\":\"add\"}"),
    Line("{\"do\":\"keep\",\"days\":1}"),
    Line("{\"do\":\"model\"}"),
    Event("r3", "a", "s", "1710720000000000"),
    Event("r3", "a", "e", "1710720000000001"),
    Line("{\"do\":\"add\"}"),
    Line("{\"do\":\"model\"}"),
];

const NEW_NAMES: [Row<'static>; 11] = [
    Event("r1", "a", "s", "0"),
    Event("r1", "a", "e", "10"),
    Event("r1", "b", "s", "10"),
    Event("r1", "b", "e", "30"),
    Line("{\"do\":\"add\"}"),
    Event("r2", "a", "s", "0"),
    Event("r2", "a", "e", "10"),
    Event("r2", "c", "s", "10"),
    Event("r2", "c", "e", "12"),
    Line("{\"do\":\"add\"}"),
    Line("{\"do\":\"model\"}"),
];

const GRACE: Row<'static> = Line("{\"do\":\"grace\",\"micros\":1}");

const NO_GRACE: Row<'static> = Line("{\"do\":\"grace\",\"micros\":0}");

/// The grace holds for later adds alone.
const LATE_GRACE: [Row<'static>; 3] = [ADD, GRACE, MODEL];

#[test]
fn sessions_carry_out_their_control_lines(rt: HostRuntime) -> Result<(), Fail> {
    let table: [Printed<'_>; 7] = [
        (
            "session",
            &[&TOUCHING, &OPPOSITE, &LATER_OVERLAP, &DROPS],
            b"model\ttraces=3\tdays=2\tsegments=2\ttasks=2\thb=0\tmx=0\tpipe=0\ndrop\t1\t1\n\
                model\ttraces=2\tdays=1\tsegments=2\ttasks=2\thb=0\tmx=1\tpipe=0\n\
                mx\ta\ts\te\tb\ts\te\ndrop\t1\t0\n",
        ),
        (
            "session",
            &[&KEEP],
            b"keep\t1\t1\nmodel\ttraces=1\tdays=1\tsegments=2\ttasks=2\thb=1\tmx=0\tpipe=0\n\
                hb\tb\ts\te\ta\ts\te\n\
                model\ttraces=2\tdays=2\tsegments=2\ttasks=2\thb=1\tmx=0\tpipe=0\n\
                hb\tb\ts\te\ta\ts\te\n",
        ),
        (
            "session",
            &[&NEW_NAMES],
            b"model\ttraces=2\tdays=1\tsegments=3\ttasks=3\thb=2\tmx=0\tpipe=0\n\
                hb\ta\ts\te\tb\ts\te\nhb\ta\ts\te\tc\ts\te\n",
        ),
        (
            "session",
            &[&TOUCHING, &OPPOSITE, &OVERLAP, &LATE_GRACE],
            b"model\ttraces=3\tdays=1\tsegments=2\ttasks=2\thb=0\tmx=0\tpipe=0\n",
        ),
        (
            "session",
            &[
                &[GRACE],
                &TOUCHING,
                &OPPOSITE,
                &OVERLAP,
                &[ADD, NO_GRACE, MODEL],
            ],
            b"model\ttraces=3\tdays=1\tsegments=2\ttasks=2\thb=0\tmx=1\tpipe=0\n\
                mx\ta\ts\te\tb\ts\te\n",
        ),
        ("session", &[&TOUCHING], b""),
        ("session", &[&[ADD]], b""),
    ];
    expect_texts(&rt, rt.alloc(), "4", &table)
}

#[test]
fn a_view_carries_out_the_control_lines_of_its_files(rt: HostRuntime) -> Result<(), Fail> {
    let first = input_of(rt.alloc(), &[&TOUCHING, &[ADD, MODEL]])?;
    let second = input_of(rt.alloc(), &[&OPPOSITE])?;
    let setting = Setting {
        words: &["model", "f", "g"],
        f: &first,
        g: &second,
        ..SETTING
    };
    let out =
        b"model\ttraces=1\tdays=1\tsegments=2\ttasks=2\thb=1\tmx=0\tpipe=0\nhb\ta\ts\te\tb\ts\te\n\
            model\ttraces=2\tdays=1\tsegments=2\ttasks=2\thb=0\tmx=1\tpipe=0\n\
            mx\ta\ts\te\tb\ts\te\n";
    expect(&rt, rt.alloc(), setting, 0, out, b"")
}

/// All requests but r3 are refused.
const REPEATED: &str = "\
r1|m|a|s|0||
r1|m|a|s|5||
r2|m|a|s|0|x|
r3|m|a|s|0|x|
r2|m|a|e|4|x|
r3|m|a|e|4||
r4|m|a|s|0||x
r4|m|a|e|4||x
";

/// The least of the adjusted times of r5 is the least that is good.
const LEAST_TIME: &str = "\
r5|c|a|s|0|x|
r5|w|b|s|4102444800000000||x
r5|w|b|e|4102444800000000|y|
r5|c|a|e|0||y
r5|w|b|u|0|u|
r5|d|k|s|4102444800000000||u
r5|d|k|e|4102444800000000|v|
r5|w|b|v|0||v
";

/// Its adjusted time is below the least.
const BELOW: &str = "r5|d|k|z|0||\n";

const ANOTHER: &str = "\
r6|m|b|s|1||
r6|m|b|e|2||
r6|m|b|f|3||
";

#[test]
fn refused_traces_are_printed_by_their_add(rt: HostRuntime) -> Result<(), Fail> {
    let table: [Printed<'_>; 2] = [
        (
            "model",
            &[&[
                Table(REPEATED),
                Table(LEAST_TIME),
                Table(BELOW),
                Table(ANOTHER),
            ]],
            b"refused\tr1\trepeated event\t2\nrefused\tr2\trepeated send\t5\n\
                refused\tr4\trepeated receive\t8\nrefused\tr5\tclock out of range\t17\n\
                model\ttraces=2\tdays=1\tsegments=3\ttasks=2\thb=1\tmx=0\tpipe=0\n\
                hb\tb\ts\te\tb\te\tf\n",
        ),
        (
            "model",
            &[&[Table(LEAST_TIME)]],
            b"model\ttraces=1\tdays=1\tsegments=5\ttasks=3\thb=12\tmx=0\tpipe=0\n\
                hb\ta\ts\te\tb\ts\te\nhb\tb\ts\te\ta\ts\te\nhb\tb\tu\tv\ta\ts\te\n\
                hb\tb\tu\tv\tb\ts\te\nhb\tb\tu\tv\tb\tv\ts\nhb\tb\tu\tv\tk\ts\te\n\
                hb\tb\tv\ts\ta\ts\te\nhb\tb\tv\ts\tb\ts\te\nhb\tk\ts\te\ta\ts\te\n\
                hb\tk\ts\te\tb\ts\te\nhb\tk\ts\te\tb\tu\tv\nhb\tk\ts\te\tb\tv\ts\n",
        ),
    ];
    expect_texts(&rt, rt.alloc(), "4", &table)
}
