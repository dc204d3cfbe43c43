use crate::running::{SETTING, Setting, expect, expect_page};
use std::test::Fail;

/// The rows of no load.
const NONE: &[u8] =
    b"report\ttraces=0\tcritical=0\nlatency\t0\t0\t0\t0\ntail\ttraces=0\tslow=0\tfloor=0\nranks\ttraces=0\tbuckets=1\nbucket\t0\t0\t0\t0\t0\ngain\ttraces=0\tcritical=0\nroom\ttraces=0\nloads\tloads=0\n";

/// The rows of one load of 30 ns: a segment of 7 ns whose task looks like a script, one of 21 ns
/// whose events look like an attribute and a reference, and 2 ns between.
const ODD: &[u8] =
    b"report\ttraces=1\tcritical=28\nlatency\t1\t30\t30\t30\nsegment\t<script>\ts\tt\t1\t7\t7\t7\t1\t7\nsegment\tb\t\" onload=\"x\t&amp;\t1\t21\t21\t21\t1\t21\ntail\ttraces=1\tslow=1\tfloor=30\nsegment\t<script>\ts\tt\t1\t7\t0\t0\nsegment\tb\t\" onload=\"x\t&amp;\t1\t21\t0\t0\nranks\ttraces=1\tbuckets=1\nbucket\t0\t1\t30\t28\t30\nrank\t<script>\ts\tt\t7\nrank\tb\t\" onload=\"x\t&amp;\t21\ngain\ttraces=1\tcritical=28\ngain\t<script>\ts\tt\t7\t4\ngain\tb\t\" onload=\"x\t&amp;\t21\t11\nroom\ttraces=1\nroom\t<script>\ts\tt\t1\t1\t0\t0\t0\t0\t0\nroom\tb\t\" onload=\"x\t&amp;\t1\t0\t2000\t2000\t2000\t2000\t2000\nloads\tloads=1\nload\tmedian\t0\t<script>\t19800\t0\t30\t28\t2\t2\t1\nbar\t0\t<script>\ts\tt\t0\t7\t0\t1\nbar\t1\tb\t\" onload=\"x\t&amp;\t9\t21\t0\t1\n";

/// The rows of two loads and of three traces that were refused, for two reasons: two segments of
/// tasks that are a pipeline, and one beside the second that has a sign that is not seen and one that
/// turns the text.
const TWO: &[u8] =
    b"refused\tr1\tlate\t7\nrefused\tr2\tlate\t9\nrefused\tr3\tloop\t11\nreport\ttraces=2\tcritical=40000000\nlatency\t2\t60000000\t20000000\t40000000\nsegment\ta\ts\tt\t2\t20000000\t10000000\t10000000\t2\t20000000\nsegment\tb\tt\tu\t2\t20000000\t5000000\t15000000\t2\t20000000\nsegment\tc\xe2\x80\x8b\ts\xe2\x80\xae\tu\t2\t8000000\t4000000\t4000000\t0\t0\ntail\ttraces=2\tslow=1\tfloor=40000000\nsegment\ta\ts\tt\t1\t10000000\t1\t10000000\nsegment\tb\tt\tu\t1\t15000000\t1\t5000000\nsegment\tc\xe2\x80\x8b\ts\xe2\x80\xae\tu\t0\t0\t0\t0\nranks\ttraces=2\tbuckets=2\nbucket\t0\t1\t20000000\t15000000\t20000000\nbucket\t1\t1\t40000000\t25000000\t40000000\nrank\ta\ts\tt\t10000000\t10000000\nrank\tb\tt\tu\t5000000\t15000000\nrank\tc\xe2\x80\x8b\ts\xe2\x80\xae\tu\t0\t0\ngain\ttraces=2\tcritical=40000000\ngain\ta\ts\tt\t20000000\t10000000\ngain\tb\tt\tu\t20000000\t10000000\nroom\ttraces=2\nroom\ta\ts\tt\t2\t2\t0\t0\t0\t0\t0\nroom\tb\tt\tu\t2\t2\t0\t0\t0\t0\t0\nroom\tc\xe2\x80\x8b\ts\xe2\x80\xae\tu\t2\t0\t200000\t200000\t300000\t300000\t300000\nloads\tloads=0\nbox\t0\ta\ts\tt\nbox\t1\tb\tt\tu\nbox\t2\tc\xe2\x80\x8b\ts\xe2\x80\xae\tu\nbetween\t0\t1\t1\t1\t0\nbetween\t1\t0\t1\t0\t0\nbetween\t1\t2\t1\t0\t0\t19800\t3\tr9\nbetween\t2\t1\t1\t0\t0\t19800\t3\tr9\npipe\ta\tb\n";

#[test]
fn a_page_of_no_load_is_drawn(rt: HostRuntime) -> Result<(), Fail> {
    expect_page(
        &rt,
        rt.alloc(),
        NONE,
        &[
            b"<!DOCTYPE html>",
            b"</main></body></html>",
            b"No two segments overlap",
        ],
        &[
            b"Further",
            b"Without slack",
            b"on no critical path and",
            b"A slow load takes",
        ],
    )
}

#[test]
fn names_are_text_and_never_markup(rt: HostRuntime) -> Result<(), Fail> {
    expect_page(
        &rt,
        rt.alloc(),
        ODD,
        &[b"&#60;script&#62;", b"&#34; onload=&#34;x", b"&#38;amp;"],
        &[b"<script", b"onload=\"x"],
    )
}

#[test]
fn hidden_signs_stand_by_their_numbers(rt: HostRuntime) -> Result<(), Fail> {
    expect_page(
        &rt,
        rt.alloc(),
        TWO,
        &["c⟨200B⟩".as_bytes(), "s⟨202E⟩".as_bytes()],
        &[b"\xe2\x80\x8b", b"\xe2\x80\xae"],
    )
}

#[test]
fn slow_loads_refusals_and_overlaps_are_told(rt: HostRuntime) -> Result<(), Fail> {
    expect_page(
        &rt,
        rt.alloc(),
        TWO,
        &[
            b"Refused traces: 3<ul><li><bdi>late</bdi>: 2, the first <bdi>r1</bdi> at line 7</li>",
            b"A slow load takes 40 ms on average, another one 20 ms: <b>+20 ms</b>, of which +10 ms on",
            b"<rect class=\"h3\" x=\"0.000%\" width=\"49.600%\" height=\"18\"><title>Loads: 1, per load 5 ms",
            b"<rect class=\"pip\" x=\"236\" y=\"0\"",
            b"<bdi>r9</bdi> <small>day 19800, number 3</small>",
            b"Pairs in one load: 2. The one before the other: 1;",
            b"<text x=\"12.000%\" y=\"11\">100 \xc2\xb5s",
        ],
        &[b"Further", b"<text x=\"12.000%\" y=\"11\">1 \xc2\xb5s"],
    )
}

#[test]
fn a_failed_write_ends_the_run(rt: HostRuntime) -> Result<(), Fail> {
    let setting = Setting {
        f: NONE,
        most: 15,
        out_failing: 2,
        ..SETTING
    };
    expect(
        &rt,
        rt.alloc(),
        setting,
        5,
        b"<!DOCTYPE html>",
        b"write failed\n",
    )
}
