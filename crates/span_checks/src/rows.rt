use span_text::{Placed, SpanError};
use std::alloc::{AllocError, Global};
use std::process::Abort;
use std::test::Fail;

/// A reader of spans.
#[derive(Clone, Copy)]
pub(crate) enum Reader {
    Jaeger,
    Otlp,
    Zipkin,
}

/// Reads the spans of a file.
fn read(alloc: Global, reader: Reader, input: &str) -> Result<Vec<Placed>, SpanError> {
    match reader {
        Reader::Jaeger => jaeger_spans::read_spans(alloc, input.as_bytes()),
        Reader::Otlp => otlp_spans::read_spans(alloc, input.as_bytes()),
        Reader::Zipkin => zipkin_spans::read_spans(alloc, input.as_bytes()),
    }
}

/// Gives the row of a span.
fn row(alloc: Global, placed: &Placed) -> Result<String, AllocError> {
    let s = &placed.span;
    format!(in alloc;
        "{} {:?} {:?} {:?} {:?} {:?} {:?} {:?} {} {}\n",
        placed.place, s.trace, s.id, s.parent, s.service, s.machine, s.name, s.kind, s.start, s.end
    )
}

/// Gives the rows of spans.
fn rows(alloc: Global, spans: &[Placed]) -> Result<String, AllocError> {
    let mut all = String::new(alloc);
    for placed in spans {
        all.push_str(row(alloc, placed)?.as_str())?;
    }
    Ok(all)
}

/// Gives what a reading gives: the rows of the spans, or the fault.
fn answer(alloc: Global, read: &Result<Vec<Placed>, SpanError>) -> Result<String, AllocError> {
    match read {
        Ok(spans) => rows(alloc, spans),
        Err(SpanError::Memory) => Err(AllocError),
        Err(SpanError::Refused(fault)) => {
            let parts = fault.why.parts();
            format!(in alloc; "{}: {}{}\n", fault.place, parts.0, parts.1)
        }
    }
}

/// Expects these rows of a file.
pub(crate) fn expect<R: Abort>(
    rt: &R,
    alloc: Global,
    reader: Reader,
    input: &str,
    wanted: &str,
) -> Result<(), Fail> {
    let given = answer(alloc, &read(alloc, reader, input))?;
    assert_eq!(rt; given.as_str(), wanted);
    Ok(())
}
