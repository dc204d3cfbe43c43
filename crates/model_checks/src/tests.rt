use crate::inputs::{are_below, cut_traces, name_traces};
use crate::model_texts::relations_text;
use crate::worked_inputs::{IN_ORDER, TURNED, page_load, push_request};
use pipeline_tests::DaySheet;
use segment_names::Catalogue;
use std::alloc::{AllocError, Global};
use std::rt::HostRuntime;
use std::test::Fail;
use std::thread::Threads;
use trace_types::{Event, NamedTrace};

/// The names of the page load's segments by their codes, each with tabs between its fields.
const NAMES: [(&str, &str); 9] = [
    ("AC", "ads call\tcall start\tcall end"),
    ("AR", "ads ranking\trank start\trank end"),
    ("RE", "browser render\tpaint start\tpaint end"),
    ("BR", "browser request\ttap\trequest sent"),
    ("DL", "download\tfirst byte@html\tlast byte"),
    ("PB", "page body\twrite body\tbody flushed"),
    ("PH", "page head\twrite head@html\thead flushed"),
    ("UQ", "user query\tquery start\tquery end"),
    ("WA", "web accept\trequest received\tparsed"),
];

/// The pairs of which the first happens before the second in the page load, by codes.
const ORDERS: [(&str, &str); 29] = [
    ("AC", "RE"),
    ("AC", "DL"),
    ("AC", "PB"),
    ("AR", "RE"),
    ("AR", "DL"),
    ("AR", "PB"),
    ("BR", "AC"),
    ("BR", "AR"),
    ("BR", "RE"),
    ("BR", "DL"),
    ("BR", "PB"),
    ("BR", "PH"),
    ("BR", "UQ"),
    ("BR", "WA"),
    ("DL", "RE"),
    ("PB", "RE"),
    ("PH", "RE"),
    ("PH", "DL"),
    ("PH", "PB"),
    ("UQ", "RE"),
    ("UQ", "DL"),
    ("UQ", "PB"),
    ("WA", "AC"),
    ("WA", "AR"),
    ("WA", "RE"),
    ("WA", "DL"),
    ("WA", "PB"),
    ("WA", "PH"),
    ("WA", "UQ"),
];

/// Tells the relations that named traces leave.
fn relations_of_named(
    alloc: Global,
    catalogue: &Catalogue,
    named: Vec<NamedTrace>,
) -> Option<String> {
    let count = catalogue.names();
    if count > 512 || !are_below(&named, count) {
        return None;
    }
    let sheet = DaySheet::plain(alloc, named, count).ok()?;
    relations_text(alloc, catalogue, sheet.words().words()).ok()
}

/// Tells the relations that the traces of events leave, each trace with this grace.
fn relations_of<R: Threads + Sync>(
    rt: &R,
    alloc: Global,
    events: Vec<Event>,
    grace: u64,
) -> Option<String> {
    let traces = cut_traces(rt, alloc, events)?;
    let (catalogue, named) = name_traces(alloc, traces, grace)?;
    relations_of_named(alloc, &catalogue, named)
}

/// The name with this code.
fn name_of(code: &str) -> &str {
    for (other, name) in &NAMES {
        if *other == code {
            return name;
        }
    }
    ""
}

/// Tells whether the relations that the traces of events leave are these rows.
fn leave_relations<R: Threads + Sync>(
    rt: &R,
    alloc: Global,
    events: Vec<Event>,
    rows: &str,
) -> bool {
    relations_of(rt, alloc, events, 0).as_deref() == Some(rows)
}

/// The rows of the page load's relations.
fn page_load_rows(alloc: Global) -> Result<String, AllocError> {
    let mut rows = String::new(alloc);
    for (first, second) in &ORDERS {
        for field in ["hb\t", name_of(first), "\t", name_of(second), "\n"] {
            rows.push_str(field)?;
        }
    }
    rows.push_str("pipe\tpage head\tdownload\n")?;
    Ok(rows)
}

#[test]
fn page_load_has_its_relations(rt: HostRuntime) -> Result<(), Fail> {
    let rows = page_load_rows(rt.alloc())?;
    let events = page_load(rt.alloc())?;
    assert!(rt; leave_relations(&rt, rt.alloc(), events, &rows));
    Ok(())
}

/// The events of the request whose elements are taken in order.
fn in_order(alloc: Global) -> Result<Vec<Event>, AllocError> {
    let mut events = Vec::new(alloc);
    push_request(&mut events, alloc, "r1", &IN_ORDER)?;
    Ok(events)
}

/// The events of that request and of one whose elements are turned.
fn in_both_orders(alloc: Global) -> Result<Vec<Event>, AllocError> {
    let mut events = in_order(alloc)?;
    push_request(&mut events, alloc, "r2", &TURNED)?;
    Ok(events)
}

#[test]
fn pipelines_stand_while_elements_are_in_order(rt: HostRuntime) -> Result<(), Fail> {
    let rows = "hb\tt\tx@d\tx@e\tt\tx@e\tz\nhb\tt\tx@d\tx@e\tu\ty@d\ty@e\n\
        hb\tt\tx@d\tx@e\tu\ty@e\tw\nhb\tt\tx@e\tz\tu\ty@d\ty@e\nhb\tt\tx@e\tz\tu\ty@e\tw\n\
        hb\tu\ty@d\ty@e\tu\ty@e\tw\npipe\tt\tu\n";
    let events = in_order(rt.alloc())?;
    assert!(rt; leave_relations(&rt, rt.alloc(), events, rows));
    Ok(())
}

#[test]
fn pipelines_stand_until_elements_are_turned(rt: HostRuntime) -> Result<(), Fail> {
    let rows = "hb\tt\tx@d\tx@e\tt\tx@e\tz\nhb\tt\tx@d\tx@e\tu\ty@d\tw\n\
        hb\tt\tx@d\tx@e\tu\ty@d\ty@e\nhb\tt\tx@d\tx@e\tu\ty@e\tw\n\
        hb\tt\tx@d\tx@e\tu\ty@e\ty@d\nhb\tt\tx@e\tz\tu\ty@d\tw\nhb\tt\tx@e\tz\tu\ty@d\ty@e\n\
        hb\tt\tx@e\tz\tu\ty@e\tw\nhb\tt\tx@e\tz\tu\ty@e\ty@d\nhb\tu\ty@d\ty@e\tu\ty@e\tw\n\
        hb\tu\ty@e\ty@d\tu\ty@d\tw\n";
    let events = in_both_orders(rt.alloc())?;
    assert!(rt; leave_relations(&rt, rt.alloc(), events, rows));
    Ok(())
}
