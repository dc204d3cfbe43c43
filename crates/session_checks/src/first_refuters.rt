//! Which kept trace is the first that refutes a relation.
ghost use Rattle.std.specs.Prelude.{◌≡◌, ◌≢◌, ◌<◌, ◌≤ℤ◌, pos, None, IfOk, length};
ghost use Rattle.day_partitions.specs.Books.{IsSheetOf};
ghost use Rattle.refute_tests.specs.Clearing.{HaveNamesBelow};

use crate::refuters::{NAMES, TASKS, lone, pair};
use counterexamples::{Finding, FirstRefuters, find, find_all};
use day_partitions::DayBook;
use hypothesis_index::Relation;
use pipeline_tests::DaySheet;
use std::alloc::{AllocError, Global};
use std::process::Abort;
use std::test::Fail;
use trace_types::{NamedSegment, NamedTrace};

/// A trace of the day in which name 0 is from 0 to 10, and name 1 from a start to 30.
fn two(alloc: Global, day: u32, start: i64) -> Result<NamedTrace, AllocError>
    requires { start ≤ℤ pos 30 }
    ensures day { IfOk result (λ t. t.day ≡ day) }
    ensures named { IfOk result (HaveNamesBelow 2) }
{
    pair(alloc, "r1", day, lone(0, 0, 10), lone(1, start, 30), 0)
}

/// The sheet of one trace of two names.
fn sheet_of(alloc: Global, trace: NamedTrace) -> Result<DaySheet, AllocError>
    requires { HaveNamesBelow 2 trace }
    ensures sheet { IfOk result (λ d. IsSheetOf 2 trace.day d) }
    ensures one { IfOk result (λ d. length d.traces ≡ 1) }
{
    let traces = Vec::from_array(alloc, [trace])?;
    DaySheet::plain(alloc, traces, 2)
}

/// Adds the sheet of one trace of two names to its day.
fn keep(rt: &impl Abort, book: &mut DayBook, day: u32, sheet: DaySheet)
    requires names { book.old.names ≡ 2 }
    requires sheet { IsSheetOf 2 day sheet }
    requires one { length sheet.traces ≡ 1 }
    ensures { book.new.names ≡ 2 }
{
    assert!(rt; book.trace_count() < 1000);
    let Ok(()) = book.add(day, sheet) else {
        panic!(rt; "not added");
    };
}

/// Keeps a trace of the day in which name 0 is from 0 to 10, and name 1 from a start to 30.
fn keep_two(
    rt: &impl Abort,
    alloc: Global,
    book: &mut DayBook,
    day: u32,
    start: i64,
) -> Result<(), AllocError>
    requires names { book.old.names ≡ 2 }
    requires start { start ≤ℤ pos 30 }
    ensures { book.new.names ≡ 2 }
{
    let trace = two(alloc, day, start)?;
    let sheet = sheet_of(alloc, trace)?;
    keep(rt, book, day, sheet);
    Ok(())
}

/// A book of the days 3 and 5, in whose traces name 0 is from 0 to 10 and name 1 starts then or
/// before.
fn two_days(rt: &impl Abort, alloc: Global) -> Result<DayBook, AllocError> {
    let mut book = DayBook::new(alloc, 2)?;
    keep_two(rt, alloc, &mut book, 5, 10)?;
    keep_two(rt, alloc, &mut book, 5, 9)?;
    keep_two(rt, alloc, &mut book, 5, 9)?;
    keep_two(rt, alloc, &mut book, 3, 10)?;
    Ok(book)
}

#[test]
fn an_empty_book_has_no_refuter(rt: HostRuntime) -> Result<(), Fail> {
    let empty = DayBook::new(rt.alloc(), 2)?;
    assert!(rt; find(&empty, NAMES[3]) == None);
    Ok(())
}

#[test]
fn the_first_refuter_is_found_by_day_and_index(rt: HostRuntime) -> Result<(), Fail> {
    let book = two_days(&rt, rt.alloc())?;
    let second = Some(Finding { place: 1, index: 1 });
    assert!(rt; find(&book, NAMES[0]) == second);
    assert!(rt; find(&book, NAMES[1]) == Some(Finding { place: 0, index: 0 }));
    assert!(rt; find(&book, NAMES[2]) == second);
    for relation in &TASKS {
        assert!(rt; find(&book, *relation) == None);
    }
    Ok(())
}

/// Tells whether the first refuters among all of the ordered pair, as names and as tasks, are those
/// that are found alone.
fn agrees_on(book: &DayBook, all: &FirstRefuters, one: u32, other: u32) -> bool
    requires differ { one ≢ other }
    requires one { one < 64 }
    requires other { other < 64 }
{
    let before = Relation::Before {
        first: one,
        second: other,
    };
    let pipe = Relation::Pipe {
        from: one,
        to: other,
    };
    all.find(before) == find(book, before) && all.find(pipe) == find(book, pipe)
}

/// Tells whether they are those of the pair where its order does not matter.
fn agrees_on_pair(book: &DayBook, all: &FirstRefuters, low: u32, high: u32) -> bool
    requires rises { low < high }
    requires high { high < 64 }
{
    let exclusive = Relation::Exclusive { low, high };
    let apart = Relation::Apart { low, high };
    let unshared = Relation::Unshared { low, high };
    all.find(exclusive) == find(book, exclusive)
        && all.find(apart) == find(book, apart)
        && all.find(unshared) == find(book, unshared)
}

/// Tells whether all first refuters of the book are those that are found alone.
fn all_agree(alloc: Global, book: &DayBook) -> Result<bool, AllocError> {
    let all = find_all(alloc, book)?;
    Ok(
        agrees_on(book, &all, 0, 1)
            && agrees_on(book, &all, 1, 0)
            && agrees_on_pair(book, &all, 0, 1),
    )
}

#[test]
fn first_refuters_among_all_are_those_found_alone(rt: HostRuntime) -> Result<(), Fail> {
    let book = two_days(&rt, rt.alloc())?;
    assert!(rt; all_agree(rt.alloc(), &book)?);
    Ok(())
}

/// A trace of day 5 with a segment of each of the names 0 and 1.
fn request(
    alloc: Global,
    request: &str,
    first: NamedSegment,
    second: NamedSegment,
) -> Result<NamedTrace, AllocError>
    requires names { first.name ≢ second.name }
    requires tasks { first.task ≢ second.task }
    requires one { first.element ≡ None }
    requires other { second.element ≡ None }
    requires low { first.name < 2 }
    requires high { second.name < 2 }
    ensures day { IfOk result (λ t. t.day ≡ 5) }
    ensures named { IfOk result (HaveNamesBelow 2) }
{
    pair(alloc, request, 5, first, second, 0)
}

/// Keeps a trace of day 5 with a segment of each of the names 0 and 1.
fn keep_request(
    rt: &impl Abort,
    alloc: Global,
    book: &mut DayBook,
    name: &str,
    first: NamedSegment,
    second: NamedSegment,
) -> Result<(), AllocError>
    requires book { book.old.names ≡ 2 }
    requires names { first.name ≢ second.name }
    requires tasks { first.task ≢ second.task }
    requires one { first.element ≡ None }
    requires other { second.element ≡ None }
    requires low { first.name < 2 }
    requires high { second.name < 2 }
    ensures { book.new.names ≡ 2 }
{
    let trace = request(alloc, name, first, second)?;
    let sheet = sheet_of(alloc, trace)?;
    keep(rt, book, 5, sheet);
    Ok(())
}

/// A book of day 5 with two traces: in r1 name 1 starts when name 0 ends, and in r2 name 0 when
/// name 1 ends.
fn two_requests(rt: &impl Abort, alloc: Global) -> Result<DayBook, AllocError>
    ensures { IfOk result (λ b. b.names ≡ 2) }
{
    let mut book = DayBook::new(alloc, 2)?;
    keep_request(rt, alloc, &mut book, "r1", lone(0, 0, 10), lone(1, 10, 30))?;
    keep_request(rt, alloc, &mut book, "r2", lone(1, 0, 5), lone(0, 5, 9))?;
    Ok(book)
}

/// The same book with r3, in which name 1 starts before name 0 ends.
pub(crate) fn three_requests(rt: &impl Abort, alloc: Global) -> Result<DayBook, AllocError> {
    let mut book = two_requests(rt, alloc)?;
    keep_request(rt, alloc, &mut book, "r3", lone(0, 0, 10), lone(1, 9, 20))?;
    Ok(book)
}

/// The first refuters of the two orders of the names 0 and 1, and of their mutual exclusion.
type Noted = (Option<Finding>, Option<Finding>, Option<Finding>);

/// Notes the first refuters of all relations of a book, and gives those of the names 0 and 1.
fn noted_in(alloc: Global, book: &DayBook) -> Result<Noted, AllocError> {
    let all = find_all(alloc, book)?;
    Ok((all.find(NAMES[0]), all.find(NAMES[1]), all.find(NAMES[2])))
}

#[test]
fn the_first_refuter_of_each_relation_is_noted(rt: HostRuntime) -> Result<(), Fail> {
    let book = two_requests(&rt, rt.alloc())?;
    let noted = noted_in(rt.alloc(), &book)?;
    assert!(rt; noted.0 == Some(Finding { place: 0, index: 1 }));
    assert!(rt; noted.1 == Some(Finding { place: 0, index: 0 }));
    assert!(rt; noted.2 == None);
    Ok(())
}

#[test]
fn the_first_refuter_stays_where_another_trace_is_added(rt: HostRuntime) -> Result<(), Fail> {
    let book = three_requests(&rt, rt.alloc())?;
    let noted = noted_in(rt.alloc(), &book)?;
    assert!(rt; noted.0 == Some(Finding { place: 0, index: 1 }));
    assert!(rt; noted.2 == Some(Finding { place: 0, index: 2 }));
    Ok(())
}
