//! Printed certificates, and the printed check of one.
ghost use Rattle.std.specs.Prelude.{◌≡◌, ◌≢◌, ◌<◌, ◌≤◌, ◌≤ℤ◌, ◌∷◌, [], Some, IfOk, length};
ghost use Rattle.day_partitions.specs.Books.{IsSheetOf};
ghost use Rattle.refute_tests.specs.Clearing.{HaveNamesBelow};

use crate::catalogues::two_names;
use crate::worked_batches::name;
use certificate_rows::{print_certificate, print_verdicts};
use certificates::{Claim, Matter};
use day_partitions::DayBook;
use kept_books::KeptBook;
use mystery_io::MemSink;
use pipeline_tests::DaySheet;
use std::alloc::{AllocError, Global};
use std::process::Abort;
use std::test::Fail;
use text_rows::RowBuffer;
use trace_types::{NamedSegment, NamedSegmentList, NamedTrace, Text};

/// A segment of the task with the name's number, which handles element 0.
fn segment(name: u32, start: i64, end: i64) -> NamedSegment
    requires name { name ≤ 1 }
    requires ordered { start ≤ℤ end }
    ensures name { result.name ≡ name }
    ensures task { result.task ≡ name }
    ensures element { result.element ≡ Some 0 }
{
    NamedSegment {
        name,
        task: name,
        element: Some(0),
        start,
        end,
    }
}

/// A trace of day 5 with two such segments.
fn pair(
    alloc: Global,
    request: &str,
    first: NamedSegment,
    second: NamedSegment,
) -> Result<NamedTrace, AllocError>
    requires names { first.name ≢ second.name }
    requires tasks { first.task ≢ second.task }
    requires one { first.element ≡ Some 0 }
    requires other { second.element ≡ Some 0 }
    ensures day { IfOk result (λ t. t.day ≡ 5) }
    ensures segments { IfOk result (λ t. t.segments ≡ first ∷ second ∷ []) }
{
    let request = Text::new(alloc, request)?;
    let segments = Vec::from_array(alloc, [first, second])?;
    Ok(NamedTrace {
        request,
        day: 5,
        latency: 30,
        grace: 0,
        segments: NamedSegmentList::of(segments),
    })
}

/// The sheet of one trace of two names.
fn sheet_of(alloc: Global, trace: NamedTrace) -> Result<DaySheet, AllocError>
    requires named { HaveNamesBelow 2 trace }
    requires day { trace.day ≡ 5 }
    ensures sheet { IfOk result (IsSheetOf 2 5) }
    ensures one { IfOk result (λ d. length d.traces ≡ 1) }
{
    let traces = Vec::from_array(alloc, [trace])?;
    DaySheet::plain(alloc, traces, 2)
}

/// Adds the sheet of one trace of two names to day 5.
fn keep(rt: &impl Abort, book: &mut DayBook, sheet: DaySheet)
    requires names { book.old.names ≡ 2 }
    requires sheet { IsSheetOf 2 5 sheet }
    requires one { length sheet.traces ≡ 1 }
    ensures { book.new.names ≡ 2 }
{
    assert!(rt; book.trace_count() < 1000);
    let Ok(()) = book.add(5, sheet) else {
        panic!(rt; "not added");
    };
}

/// Keeps a trace of day 5 with two such segments.
fn keep_pair(
    rt: &impl Abort,
    alloc: Global,
    book: &mut DayBook,
    request: &str,
    first: NamedSegment,
    second: NamedSegment,
) -> Result<(), AllocError>
    requires book { book.old.names ≡ 2 }
    requires names { first.name ≢ second.name }
    requires low { first.name < 2 }
    requires high { second.name < 2 }
    requires tasks { first.task ≢ second.task }
    requires one { first.element ≡ Some 0 }
    requires other { second.element ≡ Some 0 }
    ensures { book.new.names ≡ 2 }
{
    let trace = pair(alloc, request, first, second)?;
    let sheet = sheet_of(alloc, trace)?;
    keep(rt, book, sheet);
    Ok(())
}

/// A book of three traces: in r1 name 1 starts when name 0 ends, in r2 name 0 when name 1 ends, and
/// in r3 name 1 starts before name 0 ends.
fn three_traces(rt: &impl Abort, alloc: Global) -> Result<DayBook, AllocError> {
    let mut book = DayBook::new(alloc, 2)?;
    keep_pair(
        rt,
        alloc,
        &mut book,
        "r1",
        segment(0, 0, 10),
        segment(1, 10, 30),
    )?;
    keep_pair(
        rt,
        alloc,
        &mut book,
        "r2",
        segment(1, 0, 5),
        segment(0, 5, 9),
    )?;
    keep_pair(
        rt,
        alloc,
        &mut book,
        "r3",
        segment(0, 0, 10),
        segment(1, 9, 20),
    )?;
    Ok(book)
}

/// The three traces under two names: name 0 is (b, s, e) and name 1 is (a, s, e), so that numbers and
/// texts stand in opposite orders.
fn kept_book(rt: &impl Abort, alloc: Global) -> Result<KeptBook, AllocError> {
    let days = three_traces(rt, alloc)?;
    let catalogue = two_names(rt, alloc, "b", "a")?;
    assert!(rt; days.names() == catalogue.names());
    KeptBook::of(catalogue, days)
}

/// Each relation with the first trace that refutes it.
const CERTIFICATE: &[u8] = b"why\ttraces=3\trefuted=5\n\
    refuted\tbefore\ta\ts\te\tb\ts\te\t5\t0\tr1\n\
    refuted\tbefore\tb\ts\te\ta\ts\te\t5\t1\tr2\n\
    refuted\texclusive\ta\ts\te\tb\ts\te\t5\t2\tr3\n\
    refuted\tpipe\ta\tb\t5\t0\tr1\n\
    refuted\tpipe\tb\ta\t5\t1\tr2\n";

/// Tells whether this is the certificate of a book.
fn is_certificate(alloc: Global, book: &KeptBook, sink: &mut MemSink, expected: &[u8]) -> bool {
    let mut buffer = RowBuffer::new(alloc);
    let printed = print_certificate(alloc, book, sink, &mut buffer).is_ok();
    printed && buffer.bytes() == expected
}

/// Makes a sink of 64 bytes, to which nothing is written as long as the buffer is not full.
fn small_sink(alloc: Global) -> Result<MemSink, AllocError> {
    MemSink::new(alloc, 64, Vec::new(alloc), 64)
}

#[test]
fn the_first_trace_that_refutes_is_printed_for_each_relation(rt: HostRuntime) -> Result<(), Fail> {
    let book = kept_book(&rt, rt.alloc())?;
    let mut sink = small_sink(rt.alloc())?;
    assert!(rt; is_certificate(rt.alloc(), &book, &mut sink, CERTIFICATE));
    Ok(())
}

/// Makes the relation that b happens before a.
fn turned(alloc: Global) -> Result<Matter, AllocError> {
    let first = name(alloc, "b")?;
    let second = name(alloc, "a")?;
    Ok(Matter::Before { first, second })
}

/// The claim of line 7 that a trace of day 5 refutes that b happens before a.
fn claim_by(alloc: Global, index: u32, request: &str) -> Result<Claim, AllocError> {
    let matter = turned(alloc)?;
    let request = Text::new(alloc, request)?;
    Ok(Claim {
        line: 7,
        matter,
        day: 5,
        index,
        request,
    })
}

/// Tells whether this is the check of these claims.
fn is_check(
    alloc: Global,
    book: &KeptBook,
    claims: &[Claim],
    sink: &mut MemSink,
    expected: &[u8],
) -> bool
    requires { length claims.now < 4294967296 }
{
    let mut buffer = RowBuffer::new(alloc);
    let printed = print_verdicts(book, claims, sink, &mut buffer).is_ok();
    printed && buffer.bytes() == expected
}

/// Tells whether this is the check of the claim by a trace with this index and request.
fn is_checked(
    alloc: Global,
    book: &KeptBook,
    index: u32,
    request: &str,
    expected: &[u8],
) -> Result<bool, AllocError> {
    let claim = claim_by(alloc, index, request)?;
    let mut sink = small_sink(alloc)?;
    Ok(is_check(
        alloc,
        book,
        std::slice::from_ref(&claim),
        &mut sink,
        expected,
    ))
}

/// The check of one claim that is shown, and of one that is not.
const SHOWN: &[u8] = b"shown\t7\nverified\t1\t1\n";

const NOT_SHOWN: &[u8] = b"not shown\t7\nverified\t0\t1\n";

#[test]
fn a_claim_is_shown_by_any_trace_that_refutes(rt: HostRuntime) -> Result<(), Fail> {
    let book = kept_book(&rt, rt.alloc())?;
    for (index, request, expected) in [
        (0, "r1", NOT_SHOWN),
        (1, "r2", SHOWN),
        (2, "r3", SHOWN),
        (2, "r2", NOT_SHOWN),
    ] {
        let checked = is_checked(rt.alloc(), &book, index, request, expected)?;
        assert!(rt; checked, "{request} at {index}");
    }
    Ok(())
}
