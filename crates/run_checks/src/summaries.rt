use crate::page_load::{FIRST, PAGE_LOAD_MODEL, PAGE_LOAD_PATHS, SECOND};
use crate::rows::{ADD, OPPOSITE, OVERLAP, Row, TOUCHING, input_of};
use crate::running::{Printed, SETTING, Setting, expect, expect_texts, run_setting};
use Row::Line;
use std::alloc::Global;
use std::process::Abort;
use std::test::Fail;
use std::thread::Threads;

/// The digest of no trace.
const NOTHING: &[u8] = b"summary\ttraces=0\tdays=0\ttasks=0\tnames=0\n";

/// The digest of a trace whose first segment ends where the second begins.
pub(crate) const ONE_ORDER: &[u8] = b"summary\ttraces=1\tdays=1\ttasks=2\tnames=2\nday\t0\n\
    task\ta\t\ntask\tb\t.\nname\ta\ts\te\t\nname\tb\ts\te\t2\n";

/// The digest of a trace with the opposite order.
const OTHER_ORDER: &[u8] = b"summary\ttraces=1\tdays=1\ttasks=2\tnames=2\nday\t0\n\
    task\ta\t\ntask\tb\t.\nname\ta\ts\te\t\nname\tb\ts\te\t1\n";

/// The digest of both.
const TWO_ORDERS: &[u8] = b"summary\ttraces=2\tdays=1\ttasks=2\tnames=2\nday\t0\n\
    task\ta\t\ntask\tb\t.\nname\ta\ts\te\t\nname\tb\ts\te\t3\n";

/// The digest of a trace whose segments overlap.
const NO_ORDER: &[u8] = b"summary\ttraces=1\tdays=1\ttasks=2\tnames=2\nday\t0\n\
    task\ta\t\ntask\tb\t.\nname\ta\ts\te\t\nname\tb\ts\te\t7\n";

const SUMMARIZE: Row<'static> = Line("{\"do\":\"summarize\"}");

const DROP: Row<'static> = Line("{\"do\":\"drop\",\"day\":0}");

#[test]
fn the_digest_of_the_kept_traces_is_printed(rt: HostRuntime) -> Result<(), Fail> {
    let table: [Printed<'_>; 5] = [
        ("summarize", &[], NOTHING),
        ("summarize", &[&TOUCHING], ONE_ORDER),
        ("summarize", &[&OPPOSITE, &TOUCHING], TWO_ORDERS),
        (
            "summarize",
            &[&TOUCHING, &[ADD, DROP], &OVERLAP],
            b"drop\t0\t1\nsummary\ttraces=1\tdays=1\t\
            tasks=2\tnames=2\nday\t0\ntask\ta\t\ntask\tb\t.\nname\ta\ts\te\t\nname\tb\ts\te\t7\n",
        ),
        (
            "session",
            &[&TOUCHING, &[SUMMARIZE, ADD, SUMMARIZE]],
            b"summary\ttraces=0\tdays=0\ttasks=0\t\
            names=0\nsummary\ttraces=1\tdays=1\ttasks=2\tnames=2\nday\t0\ntask\ta\t\ntask\tb\t.\n\
            name\ta\ts\te\t\nname\tb\ts\te\t2\n",
        ),
    ];
    expect_texts(&rt, rt.alloc(), "4", &table)
}

/// What is printed where something is given: the arguments, the given files `g` and the pieces of
/// the input `f`, and the text.
type Judged<'t> = (&'t [&'t str], &'t [u8], &'t [&'t [Row<'t>]], &'t [u8]);

/// Runs with something given and compares the text.
fn expect_judged<R: Threads + Sync + Abort>(
    rt: &R,
    alloc: Global,
    judged: Judged<'_>,
) -> Result<(), Fail> {
    let (words, g, pieces, out) = judged;
    let f = input_of(alloc, pieces)?;
    let setting = Setting {
        words,
        f: &f,
        g,
        ..SETTING
    };
    expect(rt, alloc, setting, 0, out, b"")
}

/// The report of one trace of which no order is left.
const MODEL_OF_TWO: &[u8] =
    b"model\ttraces=2\tdays=1\tsegments=2\ttasks=2\thb=0\tmx=1\tpipe=0\nmx\ta\ts\te\tb\ts\te\n";

#[test]
fn traces_are_judged_under_what_is_given(rt: HostRuntime) -> Result<(), Fail> {
    let table: [Judged<'_>; 9] = [
        (&["--given", "g", "summarize"], ONE_ORDER, &[], ONE_ORDER),
        (
            &["--given", "g", "summarize", "f"],
            ONE_ORDER,
            &[&OPPOSITE],
            TWO_ORDERS,
        ),
        (
            &["--given", "g", "--given", "g", "model"],
            NOTHING,
            &[],
            b"model\ttraces=0\tdays=0\t\
            segments=0\ttasks=0\thb=0\tmx=0\tpipe=0\n",
        ),
        (
            &["--workers", "2", "--given", "g", "model"],
            TWO_ORDERS,
            &[],
            MODEL_OF_TWO,
        ),
        (
            &["--given", "g", "model", "f"],
            ONE_ORDER,
            &[&OPPOSITE],
            MODEL_OF_TWO,
        ),
        (
            &["--given", "g", "model", "f"],
            NOTHING,
            &[&OPPOSITE, &TOUCHING],
            MODEL_OF_TWO,
        ),
        (
            &["--given", "g", "graph", "f"],
            OTHER_ORDER,
            &[&TOUCHING],
            b"graph\ttraces=1\ntrace\tr1\t0\t30000\t2\t1\nvertex\t0\ta\ts\te\t10000\n\
                vertex\t1\tb\ts\te\t20000\nedge\t0\t1\n",
        ),
        (
            &["--given", "g", "paths", "f"],
            OTHER_ORDER,
            &[&TOUCHING],
            b"paths\ttraces=1\npath\tr1\t0\t30000\t30000\t2\nstep\ta\ts\te\t10000\n\
                step\tb\ts\te\t20000\n",
        ),
        (
            &["--given", "g", "paths", "f"],
            NO_ORDER,
            &[&TOUCHING],
            b"paths\ttraces=1\npath\tr1\t0\t30000\t20000\t1\nstep\tb\ts\te\t20000\n",
        ),
    ];
    for judged in table {
        expect_judged(&rt, rt.alloc(), judged)?;
    }
    Ok(())
}

/// Gives the text of a run that succeeds.
fn text_of<R: Threads + Sync + Abort>(
    rt: &R,
    alloc: Global,
    words: &[&str],
    f: &[u8],
    g: &[u8],
) -> Result<Vec<u8>, Fail> {
    let setting = Setting {
        words,
        f,
        g,
        ..SETTING
    };
    let ending = run_setting(rt, alloc, setting)?;
    assert_eq!(rt; ending.err.bytes(), b"".as_slice());
    assert_eq!(rt; ending.status, 0);
    Ok(ending.out.bytes().to_vec(alloc)?)
}

/// Compares what is printed of two shards, by their digests, with what is printed of the whole.
fn expect_whole<R: Threads + Sync + Abort>(
    rt: &R,
    alloc: Global,
    first: &[u8],
    second: &[u8],
    whole: &[u8],
) -> Result<(), Fail> {
    for words in [
        ["--given", "f", "--given", "g", "summarize"],
        ["--given", "g", "--given", "f", "summarize"],
    ] {
        let setting = Setting {
            words: &words,
            f: first,
            g: second,
            ..SETTING
        };
        expect(rt, alloc, setting, 0, whole, b"")?;
    }
    let setting = Setting {
        words: &["--given", "f", "--given", "g", "model"],
        f: first,
        g: second,
        ..SETTING
    };
    expect(rt, alloc, setting, 0, PAGE_LOAD_MODEL, b"")
}

/// Compares what is printed of a shard under the digest of the other with what is printed of the
/// whole.
fn expect_under<R: Threads + Sync + Abort>(
    rt: &R,
    alloc: Global,
    f: &[u8],
    other: &[u8],
    whole: &[u8],
) -> Result<(), Fail> {
    let setting = Setting {
        words: &["--given", "g", "summarize", "f"],
        f,
        g: other,
        ..SETTING
    };
    expect(rt, alloc, setting, 0, whole, b"")?;
    let words: &[&str] = &["--given", "g", "model", "f"];
    let model = Setting { words, ..setting };
    expect(rt, alloc, model, 0, PAGE_LOAD_MODEL, b"")
}

/// Compares the paths of an input under its own digest with those without.
fn expect_own_paths<R: Threads + Sync + Abort>(
    rt: &R,
    alloc: Global,
    f: &[u8],
    whole: &[u8],
) -> Result<(), Fail> {
    let setting = Setting {
        words: &["--given", "g", "paths", "f"],
        f,
        g: whole,
        ..SETTING
    };
    expect(rt, alloc, setting, 0, PAGE_LOAD_PATHS, b"")
}

#[test]
fn two_shards_tell_what_the_whole_tells(rt: HostRuntime) -> Result<(), Fail> {
    let f = input_of(rt.alloc(), &[&FIRST])?;
    let g = input_of(rt.alloc(), &[&SECOND])?;
    let whole = text_of(&rt, rt.alloc(), &["summarize", "f", "g"], &f, &g)?;
    let first = text_of(&rt, rt.alloc(), &["summarize", "f"], &f, b"")?;
    let second = text_of(&rt, rt.alloc(), &["summarize", "f"], &g, b"")?;
    expect_whole(&rt, rt.alloc(), &first, &second, &whole)?;
    expect_under(&rt, rt.alloc(), &f, &second, &whole)?;
    expect_under(&rt, rt.alloc(), &g, &first, &whole)
}

#[test]
fn traces_that_are_given_again_change_no_path(rt: HostRuntime) -> Result<(), Fail> {
    let f = input_of(rt.alloc(), &[&FIRST, &SECOND])?;
    let whole = text_of(&rt, rt.alloc(), &["summarize", "f"], &f, b"")?;
    expect_own_paths(&rt, rt.alloc(), &f, &whole)
}
