//! Whether claims are shown by the traces that they name.
use crate::catalogues::two_names;
use crate::first_refuters::three_requests;
use crate::worked_batches::name;
use certificates::{Claim, Matter};
use counterexamples::shown;
use day_partitions::DayBook;
use std::alloc::{AllocError, Global};
use std::process::Abort;
use std::test::Fail;
use trace_types::Text;

/// The relation of this kind between two names, or between two tasks.
fn matter_of(alloc: Global, kind: &str, first: &str, second: &str) -> Result<Matter, AllocError> {
    if kind == "pipe" {
        let from = Text::new(alloc, first)?;
        let to = Text::new(alloc, second)?;
        return Ok(Matter::Pipe { from, to });
    }
    let first = name(alloc, first)?;
    let second = name(alloc, second)?;
    if kind == "before" {
        Ok(Matter::Before { first, second })
    } else {
        Ok(Matter::Exclusive { first, second })
    }
}

/// A claim of this kind on two names or tasks.
fn claim_of(
    alloc: Global,
    kind: &str,
    names: (&str, &str),
    day: u32,
    index: u32,
    request: &str,
) -> Result<Claim, AllocError> {
    let request = Text::new(alloc, request)?;
    let matter = matter_of(alloc, kind, names.0, names.1)?;
    Ok(Claim {
        line: 2,
        matter,
        day,
        index,
        request,
    })
}

/// Tells whether the book shows the claim, where name 0 is that of the task `a` and name 1 that of `b`.
fn is_shown_by(
    rt: &impl Abort,
    alloc: Global,
    book: &DayBook,
    claim: &Claim,
) -> Result<bool, AllocError> {
    let catalogue = two_names(rt, alloc, "a", "b")?;
    Ok(shown(book, &catalogue, claim))
}

/// Tells whether the book of r1, r2 and r3 shows the claim.
fn is_shown_there(rt: &impl Abort, alloc: Global, claim: &Claim) -> Result<bool, AllocError> {
    let book = three_requests(rt, alloc)?;
    is_shown_by(rt, alloc, &book, claim)
}

/// Tells whether the book of r1, r2 and r3 shows a claim of this kind on two names or tasks.
fn is_shown(
    rt: &impl Abort,
    alloc: Global,
    kind: &str,
    names: (&str, &str),
    day: u32,
    index: u32,
    request: &str,
) -> Result<bool, AllocError> {
    let claim = claim_of(alloc, kind, names, day, index, request)?;
    is_shown_there(rt, alloc, &claim)
}

#[test]
fn claims_are_shown_by_the_trace_that_they_name(rt: HostRuntime) -> Result<(), Fail> {
    let alloc = rt.alloc();
    assert!(rt; is_shown(&rt, alloc, "before", ("a", "b"), 5, 1, "r2")?);
    assert!(rt; is_shown(&rt, alloc, "before", ("b", "a"), 5, 0, "r1")?);
    assert!(rt; !is_shown(&rt, alloc, "before", ("a", "b"), 5, 0, "r1")?);
    assert!(rt; is_shown(&rt, alloc, "exclusive", ("a", "b"), 5, 2, "r3")?);
    assert!(rt; is_shown(&rt, alloc, "exclusive", ("b", "a"), 5, 2, "r3")?);
    assert!(rt; !is_shown(&rt, alloc, "exclusive", ("b", "a"), 5, 1, "r2")?);
    assert!(rt; !is_shown(&rt, alloc, "pipe", ("a", "b"), 5, 2, "r3")?);
    Ok(())
}

#[test]
fn a_later_refuter_shows_a_claim_too(rt: HostRuntime) -> Result<(), Fail> {
    assert!(rt; is_shown(&rt, rt.alloc(), "before", ("a", "b"), 5, 2, "r3")?);
    Ok(())
}

#[test]
fn claims_on_what_is_not_kept_are_not_shown(rt: HostRuntime) -> Result<(), Fail> {
    let alloc = rt.alloc();
    assert!(rt; !is_shown(&rt, alloc, "before", ("a", "b"), 5, 2, "r2")?);
    assert!(rt; !is_shown(&rt, alloc, "before", ("a", "b"), 5, 3, "r3")?);
    assert!(rt; !is_shown(&rt, alloc, "before", ("a", "b"), 6, 2, "r3")?);
    assert!(rt; !is_shown(&rt, alloc, "before", ("a", "c"), 5, 2, "r3")?);
    assert!(rt; !is_shown(&rt, alloc, "before", ("a", "a"), 5, 2, "r3")?);
    Ok(())
}
