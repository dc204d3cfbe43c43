//! Certificates that are read: their claims, or the first line outside the form.
use certificates::{CertFault, Claim, ClaimList, Matter, read_certificate};
use std::alloc::{AllocError, Global};
use std::test::Fail;
use trace_types::{NameText, Text};

/// Reads a short certificate; none where it has a bad line, or memory ran out.
fn claims_of(alloc: Global, bytes: &[u8]) -> Option<Vec<Claim>> {
    if bytes.len() > 1000 {
        return None;
    }
    read_certificate(alloc, bytes).ok()
}

/// Finds the first bad line of a short certificate.
fn bad_line_of(alloc: Global, bytes: &[u8]) -> Option<u32> {
    if bytes.len() > 1000 {
        return None;
    }
    match read_certificate(alloc, bytes).err()? {
        CertFault::Memory => None,
        CertFault::Bad { line } => Some(line),
    }
}

/// Headers that are outside the form.
const BAD_HEADERS: [&str; 13] = [
    "hello",
    "why",
    "why\ttraces=1",
    "why\ttraces=1\trefuted=1\t",
    "why\ttraces=1\trefuted=1\trefuted=1",
    "why\trefuted=1\ttraces=1",
    "why traces=1 refuted=1",
    "why\ttraces=\trefuted=1",
    "why\ttraces=01\trefuted=1",
    "why\ttraces=+1\trefuted=1",
    "why\ttraces=1\trefuted=4294967296",
    "Why\ttraces=1\trefuted=1",
    "refuted\tpipe\ta\tb\t0\t0\tr1",
];

/// Lines that are outside the form, each after a header and a claim.
const BAD_LINES: [&str; 16] = [
    "hello",
    "why\ttraces=1\trefuted=1",
    "refuted",
    "refuted\tapart\ta\ts\te\tb\ts\te\t0\t0\tr1",
    "refuted\tbefore\ta\ts\te\tb\ts\t0\t0\tr1",
    "refuted\tbefore\ta\ts\te\tb\ts\te\t0\t0\tr1\t",
    "refuted\tbefore\ta\ts\te\tb\ts\te\t0\tr1",
    "refuted\tbefore\ta\ts\te\tb\ts\te\t0\t4294967296\tr1",
    "refuted\tbefore\ta\ts\te\tb\ts\te\t00\t0\tr1",
    "refuted\tbefore\ta\ts\te\tb\ts\te\t0\t-1\tr1",
    "refuted\tbefore\ta\t\te\tb\ts\te\t0\t0\tr1",
    "refuted\tbefore\ta\ts\te\tb\ts\te\t0\t0\tr\u{7f}",
    "refuted\tpipe\ta\tb\tc\t0\t0\tr1",
    "refuted\tpipe\ta\t0\t0\tr1",
    " refuted\tpipe\ta\tb\t0\t0\tr1",
    "refuted\tpipe\ta\tb\t0\t0\tr1\r",
];

#[test]
fn a_line_outside_the_form_is_bad(rt: HostRuntime) -> Result<(), Fail> {
    for line in BAD_HEADERS {
        let text = format!(in rt.alloc(); "\n{line}\nx\n")?;
        assert_eq!(rt; bad_line_of(rt.alloc(), text.as_bytes()), Some(2));
    }
    for line in BAD_LINES {
        let text = format!(in rt.alloc();
            "\nwhy\ttraces=1\trefuted=9\n \t\r\nrefuted\tpipe\ta\tb\t0\t0\tr1\n{line}\nx\n"
        )?;
        assert_eq!(rt; bad_line_of(rt.alloc(), text.as_bytes()), Some(5));
    }
    Ok(())
}

/// Counts the claims of a certificate with one line, of a pipeline from this task; or gives its
/// first bad line.
fn read_task(alloc: Global, task: &str) -> Result<Result<usize, Option<u32>>, AllocError> {
    let text = format!(in alloc; "why\ttraces=1\trefuted=1\nrefuted\tpipe\t{task}\tb\t0\t0\tr1")?;
    Ok(match claims_of(alloc, text.as_bytes()) {
        Some(claims) => Ok(claims.len()),
        None => Err(bad_line_of(alloc, text.as_bytes())),
    })
}

#[test]
fn a_text_has_at_most_64_bytes(rt: HostRuntime) -> Result<(), Fail> {
    let full = "abcdefghijklmnopqrstuvwxyz_abcdefghijklmnopqrstuvwxyz_0123456789";
    let longer = "abcdefghijklmnopqrstuvwxyz_abcdefghijklmnopqrstuvwxyz_01234567890";
    assert_eq!(rt; read_task(rt.alloc(), full)?, Ok(1));
    assert_eq!(rt; read_task(rt.alloc(), longer)?, Err(Some(2)));
    let text = b"why\ttraces=1\trefuted=1\nrefuted\tpipe\t\xff\tb\t0\t0\tr1";
    assert_eq!(rt; bad_line_of(rt.alloc(), text), Some(2));
    Ok(())
}

#[test]
fn a_certificate_without_a_line_makes_no_claims(rt: HostRuntime) -> Result<(), Fail> {
    for text in ["", "\n", " \t\r\n\n  ", "why\ttraces=0\trefuted=0\n"] {
        let claims = claims_of(rt.alloc(), text.as_bytes()).ok_or("bad")?;
        assert_eq!(rt; claims.len(), 0);
    }
    Ok(())
}

/// Tells whether a name has these texts.
fn is_name(name: &NameText, [task, start, end]: [&str; 3]) -> bool {
    name.task.as_str() == task && name.start.as_str() == start && name.end.as_str() == end
}

/// Tells whether a claim has this line, day, index and request.
fn stands_at(claim: &Claim, line: u32, day: u32, index: u32, request: &str) -> bool {
    claim.line == line
        && claim.day == day
        && claim.index == index
        && claim.request.as_str() == request
}

/// Tells whether a relation is that the first name happens before the second.
fn is_before(matter: &Matter, one: [&str; 3], other: [&str; 3]) -> bool {
    match matter {
        Matter::Before { first, second } => is_name(first, one) && is_name(second, other),
        _ => false,
    }
}

/// Tells whether a relation is that the two names are mutually exclusive.
fn is_exclusive(matter: &Matter, one: [&str; 3], other: [&str; 3]) -> bool {
    match matter {
        Matter::Exclusive { first, second } => is_name(first, one) && is_name(second, other),
        _ => false,
    }
}

/// Tells whether a relation is the pipeline between these tasks.
fn is_pipe(matter: &Matter, first: &str, second: &str) -> bool {
    match matter {
        Matter::Pipe { from, to } => from.as_str() == first && to.as_str() == second,
        _ => false,
    }
}

/// Tells whether these are the three claims of the certificate below.
fn are_in_order(claims: &[Claim]) -> bool {
    let [first, second, third] = claims else {
        return false;
    };
    stands_at(first, 2, 20000, 1, "r2")
        && is_before(&first.matter, ["a", "b.s", "b.e"], ["c", "s", "e"])
        && stands_at(second, 4, 20000, 2, "r3")
        && is_exclusive(&second.matter, ["c", "s", "e"], ["a", "b.s", "b.e"])
        && stands_at(third, 5, u32::MAX, 0, "\u{e9}")
        && is_pipe(&third.matter, "a", "c d")
}

#[test]
fn claims_are_read_in_order(rt: HostRuntime) -> Result<(), Fail> {
    let text = b"why\ttraces=4294967295\trefuted=0\n\
                 refuted\tbefore\ta\tb.s\tb.e\tc\ts\te\t20000\t1\tr2\n\n\
                 refuted\texclusive\tc\ts\te\ta\tb.s\tb.e\t20000\t2\tr3\n\
                 refuted\tpipe\ta\tc d\t4294967295\t0\t\xc3\xa9";
    let claims = claims_of(rt.alloc(), text).ok_or("bad")?;
    assert!(rt; are_in_order(&claims));
    Ok(())
}

#[test]
fn a_list_gives_its_claims(rt: HostRuntime) -> Result<(), Fail> {
    let text = b"why\ttraces=1\trefuted=1\nrefuted\tpipe\ta\tb\t0\t0\tr1";
    let claims = claims_of(rt.alloc(), text).ok_or("bad")?;
    let given = ClaimList::of(claims).into_items();
    assert_eq!(rt; given.len(), 1);
    Ok(())
}
