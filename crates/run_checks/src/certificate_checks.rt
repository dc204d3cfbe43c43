use crate::rows::{ADD, MODEL, OPPOSITE, OVERLAP, Row, TOUCHING, input_of};
use crate::running::{
    Printed, ROOM, SETTING, Setting, expect, expect_ending, expect_texts, line_feeds, run_over,
    run_setting, texts,
};
use crate::sessions::LATER_OVERLAP;
use crate::views::PIPELINE;
use Row::Line;
use mystery_io::{MemFiles, OpenGate};
use std::alloc::{AllocError, Global};
use std::process::Abort;
use std::test::Fail;
use std::thread::Threads;

/// The certificate of two traces, of which each refutes the order of the other one.
const TWO_ORDERS: &[u8] = b"why\ttraces=2\trefuted=2\n\
    refuted\tbefore\ta\ts\te\tb\ts\te\t0\t1\tr2\n\
    refuted\tbefore\tb\ts\te\ta\ts\te\t0\t0\tr1\n";

const MISSING_FIRST: &[u8] = b"file 1: read failed\n";

const MISSING_SECOND: &[u8] = b"file 2: read failed\n";

#[test]
fn the_first_trace_that_refutes_is_printed(rt: HostRuntime) -> Result<(), Fail> {
    let table: [Printed<'_>; 5] = [
        ("why", &[], b"why\ttraces=0\trefuted=0\n"),
        ("why", &[&TOUCHING, &OPPOSITE], TWO_ORDERS),
        (
            "why",
            &[&TOUCHING, &OPPOSITE, &OVERLAP],
            b"why\ttraces=3\trefuted=3\nrefuted\tbefore\ta\ts\te\tb\ts\te\t0\t1\tr2\n\
                refuted\tbefore\tb\ts\te\ta\ts\te\t0\t0\tr1\n\
                refuted\texclusive\ta\ts\te\tb\ts\te\t0\t2\tr3\n",
        ),
        (
            "why",
            &[&TOUCHING, &[ADD], &LATER_OVERLAP],
            b"why\ttraces=2\trefuted=3\nrefuted\tbefore\ta\ts\te\tb\ts\te\t1\t0\tr3\n\
                refuted\tbefore\tb\ts\te\ta\ts\te\t0\t0\tr1\n\
                refuted\texclusive\ta\ts\te\tb\ts\te\t1\t0\tr3\n",
        ),
        (
            "why",
            &[&PIPELINE],
            b"why\ttraces=1\trefuted=7\nrefuted\tbefore\tt\tx@e\tz\tt\tx@d\tx@e\t0\t0\tr1\n\
                refuted\tbefore\tu\ty@d\ty@e\tt\tx@d\tx@e\t0\t0\tr1\n\
                refuted\tbefore\tu\ty@d\ty@e\tt\tx@e\tz\t0\t0\tr1\n\
                refuted\tbefore\tu\ty@e\tw\tt\tx@d\tx@e\t0\t0\tr1\n\
                refuted\tbefore\tu\ty@e\tw\tt\tx@e\tz\t0\t0\tr1\n\
                refuted\tbefore\tu\ty@e\tw\tu\ty@d\ty@e\t0\t0\tr1\n\
                refuted\tpipe\tu\tt\t0\t0\tr1\n",
        ),
    ];
    expect_texts(&rt, rt.alloc(), "4", &table)
}

/// Checks a certificate over an input and compares the status and what is written.
fn expect_check<R: Threads + Sync + Abort>(
    rt: &R,
    alloc: Global,
    certificate: &[u8],
    pieces: &[&[Row<'_>]],
    status: u8,
    out: &[u8],
    err: &[u8],
) -> Result<(), Fail> {
    let f = input_of(alloc, pieces)?;
    let setting = Setting {
        words: &["verify", "g", "f"],
        f: &f,
        g: certificate,
        ..SETTING
    };
    expect(rt, alloc, setting, status, out, err)
}

#[test]
fn each_claim_of_a_certificate_is_shown_or_not(rt: HostRuntime) -> Result<(), Fail> {
    let table: [(&[u8], &[u8]); 8] = [
        (TWO_ORDERS, b"shown\t2\nshown\t3\nverified\t2\t2\n"),
        (
            b"why\ttraces=2\trefuted=2\nrefuted\tbefore\ta\ts\te\tb\ts\te\t0\t1\tr2\n\
                refuted\tbefore\tb\ts\te\ta\ts\te\t0\t1\tr1\n",
            b"shown\t2\nnot shown\t3\nverified\t1\t2\n",
        ),
        (
            // No trace has the request, the index, the day, the second name or the second task.
            b"why\ttraces=0\trefuted=0\nrefuted\tbefore\ta\ts\te\tb\ts\te\t0\t1\tr1\n\
                refuted\tbefore\ta\ts\te\tb\ts\te\t0\t4294967295\tr2\n\
                refuted\tbefore\ta\ts\te\tb\ts\te\t4294967295\t1\tr2\n\
                refuted\tbefore\ta\ts\te\tb\ts\tx\t0\t1\tr2\n\
                refuted\tpipe\ta\tc\t0\t1\tr2\n",
            b"not shown\t2\nnot shown\t3\nnot shown\t4\nnot shown\t5\nnot shown\t6\n\
                verified\t0\t5\n",
        ),
        (
            // A relation is one of two names.
            b"why\ttraces=2\trefuted=1\nrefuted\tbefore\ta\ts\te\ta\ts\te\t0\t1\tr2",
            b"not shown\t2\nverified\t0\t1\n",
        ),
        (b"", b"verified\t0\t0\n"),
        (b"\n \t\r\n", b"verified\t0\t0\n"),
        (b"why\ttraces=7\trefuted=7\n", b"verified\t0\t0\n"),
        (
            b"\nwhy\ttraces=2\trefuted=2\n \nrefuted\tbefore\tb\ts\te\ta\ts\te\t0\t0\tr1\n\n",
            b"shown\t4\nverified\t1\t1\n",
        ),
    ];
    for (certificate, out) in table {
        expect_check(
            &rt,
            rt.alloc(),
            certificate,
            &[&TOUCHING, &OPPOSITE],
            0,
            out,
            b"",
        )?;
    }
    Ok(())
}

#[test]
fn a_true_claim_need_not_name_the_first_trace(rt: HostRuntime) -> Result<(), Fail> {
    expect_check(
        &rt,
        rt.alloc(),
        b"why\ttraces=3\trefuted=1\nrefuted\tbefore\ta\ts\te\tb\ts\te\t0\t2\tr3\n",
        &[&TOUCHING, &OPPOSITE, &OVERLAP],
        0,
        b"shown\t2\nverified\t1\t1\n",
        b"",
    )
}

#[test]
fn a_claim_is_about_the_traces_that_are_kept(rt: HostRuntime) -> Result<(), Fail> {
    let drop = Line("{\"do\":\"drop\",\"day\":0}");
    let table: [(&[&[Row<'_>]], &[u8]); 3] = [
        (
            &[&TOUCHING, &OPPOSITE, &[ADD, drop]],
            b"drop\t0\t2\nnot shown\t2\nnot shown\t3\nverified\t0\t2\n",
        ),
        (
            &[&OPPOSITE, &[ADD], &TOUCHING],
            b"not shown\t2\nnot shown\t3\nverified\t0\t2\n",
        ),
        (
            &[&TOUCHING, &[ADD], &OPPOSITE],
            b"shown\t2\nshown\t3\nverified\t2\t2\n",
        ),
    ];
    for (pieces, out) in table {
        expect_check(&rt, rt.alloc(), TWO_ORDERS, pieces, 0, out, b"")?;
    }
    Ok(())
}

/// Finds where the certificate begins in a text.
fn find_certificate(text: &[u8]) -> Option<&[u8]> {
    for start in 0..text.len() {
        if text[start..].starts_with(b"why\t") {
            return Some(&text[start..]);
        }
    }
    None
}

/// Checks a certificate over an input, and asserts that each of nine claims is shown.
fn expect_nine<R: Threads + Sync + Abort>(
    rt: &R,
    alloc: Global,
    setting: Setting<'_>,
) -> Result<(), Fail> {
    let checked = run_setting(rt, alloc, setting)?;
    assert_eq!(rt; checked.status, 0);
    assert!(rt; checked.out.bytes().ends_with(b"\nverified\t9\t9\n"));
    Ok(())
}

/// Asserts that a print of nine claims is a certificate from its header on, and not whole.
fn expect_header<R: Threads + Sync + Abort>(
    rt: &R,
    alloc: Global,
    f: &[u8],
    print: &[u8],
) -> Result<(), Fail> {
    let setting = Setting {
        words: &["verify", "g", "f"],
        f,
        g: print,
        ..SETTING
    };
    expect(rt, alloc, setting, 3, b"", b"line 1: bad certificate\n")?;
    let g = find_certificate(print).ok_or("no certificate")?;
    expect_nine(rt, alloc, Setting { g, ..setting })
}

/// Certifies an input, and asserts the same of what is printed.
fn expect_print<R: Threads + Sync + Abort>(rt: &R, alloc: Global, f: &[u8]) -> Result<(), Fail> {
    let setting = Setting {
        words: &["why", "f"],
        f,
        ..SETTING
    };
    let ending = run_setting(rt, alloc, setting)?;
    assert_eq!(rt; ending.status, 0);
    expect_header(rt, alloc, f, ending.out.bytes())
}

#[test]
fn a_print_is_a_certificate_from_its_header_on(rt: HostRuntime) -> Result<(), Fail> {
    let f = input_of(
        rt.alloc(),
        &[&TOUCHING, &[ADD, MODEL], &OPPOSITE, &PIPELINE],
    )?;
    expect_print(&rt, rt.alloc(), &f)
}

/// A line that is no event line.
const BAD_EVENT: Row<'static> = Line("{");

#[test]
fn a_bad_certificate_is_told_before_a_bad_event_line(rt: HostRuntime) -> Result<(), Fail> {
    let table: [(&[u8], &[u8]); 5] = [
        (b"hello\n", b"line 1: bad certificate\n"),
        (
            b"\nwhy\ttraces=2\trefuted=2\nwhy\ttraces=2\trefuted=2\n",
            b"line 3: bad certificate\n",
        ),
        (
            b"why\ttraces=2\trefuted=2\nrefuted\tbefore\ta\ts\te\tb\ts\te\t4294967296\t1\tr2\n",
            b"line 2: bad certificate\n",
        ),
        (
            b"why\ttraces=2\trefuted=2\nrefuted\tbefore\ta\ts\te\tb\ts\te\t0\t1\tr2\t\n",
            b"line 2: bad certificate\n",
        ),
        (TWO_ORDERS, b"line 5: not a JSON object\n"),
    ];
    for (certificate, err) in table {
        expect_check(
            &rt,
            rt.alloc(),
            certificate,
            &[&TOUCHING, &[BAD_EVENT]],
            3,
            b"",
            err,
        )?;
    }
    expect_check(
        &rt,
        rt.alloc(),
        b"hello",
        &[&TOUCHING],
        3,
        b"",
        b"line 1: bad certificate\n",
    )
}

#[test]
fn the_certificate_is_file_1(rt: HostRuntime) -> Result<(), Fail> {
    let table: [(&[&str], &[u8]); 4] = [
        (&["verify", "missing", "f"], MISSING_FIRST),
        (&["verify", "g", "missing"], MISSING_SECOND),
        (&["verify", "missing", "missing"], MISSING_FIRST),
        (&["verify", "g", "f", "missing"], b"file 3: read failed\n"),
    ];
    for (words, err) in table {
        // A bad certificate is told only once the files were read.
        for g in [TWO_ORDERS, b"hello"] {
            let setting = Setting {
                words,
                g,
                ..SETTING
            };
            expect(&rt, rt.alloc(), setting, 4, b"", err)?;
        }
    }
    Ok(())
}

#[test]
fn each_call_on_a_certificate_and_a_file_fails_in_turn(rt: HostRuntime) -> Result<(), Fail> {
    // Calls 1 to 3 open and read the certificate, 4 to 6 open and read the file.
    let table = [
        (1, MISSING_FIRST),
        (2, MISSING_FIRST),
        (3, MISSING_FIRST),
        (4, MISSING_SECOND),
        (5, MISSING_SECOND),
        (6, MISSING_SECOND),
    ];
    for (failing, err) in table {
        let setting = Setting {
            words: &["verify", "g", "f"],
            f: b" ",
            g: TWO_ORDERS,
            failing,
            ..SETTING
        };
        expect(&rt, rt.alloc(), setting, 4, b"", err)?;
    }
    Ok(())
}

/// Makes the files of a certificate and of an input of so many line feeds.
fn blank_files(alloc: Global, certificate: usize, input: usize) -> Result<MemFiles, AllocError> {
    let mut all = Vec::new(alloc);
    all.push(line_feeds(alloc, "c", certificate)?)?;
    all.push(line_feeds(alloc, "f", input)?)?;
    Ok(MemFiles::new(all, ROOM, Vec::new(alloc)))
}

/// Checks a certificate over an input of these files and compares the status and what is written.
fn expect_over<R: Threads + Sync + Abort>(
    rt: &R,
    alloc: Global,
    files: &mut MemFiles,
    status: u8,
    out: &[u8],
    err: &[u8],
) -> Result<(), Fail> {
    let words = texts(alloc, &["verify", "c", "f"])?;
    let ending = run_over(rt, alloc, &words, files, SETTING, &OpenGate)?;
    expect_ending(rt, &ending, status, out, err);
    Ok(())
}

/// Checks a certificate of so many line feeds over an input of so many, and compares the status and
/// what is written.
fn expect_sizes<R: Threads + Sync + Abort>(
    rt: &R,
    alloc: Global,
    certificate: usize,
    input: usize,
    status: u8,
    out: &[u8],
    err: &[u8],
) -> Result<(), Fail> {
    let mut files = blank_files(alloc, certificate, input)?;
    expect_over(rt, alloc, &mut files, status, out, err)
}

#[test]
fn a_certificate_and_an_input_have_a_limit_each(rt: HostRuntime) -> Result<(), Fail> {
    let alloc = rt.alloc();
    let limit: &[u8] = b"limit: input over 67108864 bytes\n";
    let table: [(usize, usize, u8, &[u8], &[u8]); 3] = [
        (67_108_864, 67_108_864, 0, b"verified\t0\t0\n", b""),
        (67_108_865, 0, 6, b"", limit),
        (0, 67_108_865, 6, b"", limit),
    ];
    for (certificate, input, status, out, err) in table {
        expect_sizes(&rt, alloc, certificate, input, status, out, err)?;
    }
    Ok(())
}
