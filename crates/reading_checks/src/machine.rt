//! The plain machine: what its steps answer, and whole rows beside the table of words.
ghost use Rattle.std.specs.Prelude.{◌≡◌, ◌+◌, ◌<◌, ◌≤◌, [], ◌∷◌, length, IfOk};

use std::alloc::{AllocError, Global};
use std::test::Fail;
use step_core::{Machine, StepFault};
use word_rows::{Entry, Reply, Row, StepEvent};
use word_rule::{CloseFault, MeetTable};

/// Makes the row of one entry.
fn row_of(alloc: Global, word: u32, mask: u64) -> Result<Row, AllocError>
    requires { 0 < mask }
    ensures { IfOk result (λ r. r ≡ record { word = word; mask = mask } ∷ []) }
{
    let mut entries = Vec::with_capacity(alloc, 1)?;
    entries.push_reserved(Entry { word, mask });
    Ok(Row::of(entries))
}

/// Makes the row that clears bit 0 of the words 0 and 1.
fn row_of_two(alloc: Global) -> Result<Row, AllocError> {
    let mut entries = Vec::with_capacity(alloc, 2)?;
    entries.push_reserved(Entry { word: 0, mask: 1 });
    entries.push_reserved(Entry { word: 1, mask: 1 });
    Ok(Row::of(entries))
}

/// Writes what a step answered, words of a close in decimal.
fn told(alloc: Global, answer: Result<Reply, StepFault>) -> Result<String, AllocError> {
    match answer {
        Ok(Reply::Cleared { old }) => format!(in alloc; "cleared {old:016x}\n"),
        Ok(Reply::Loaded { value }) => format!(in alloc; "loaded {value:016x}\n"),
        Ok(Reply::Split { seat }) => format!(in alloc; "split {seat}\n"),
        Ok(Reply::Joined) => String::from_str(alloc, "joined\n"),
        Ok(Reply::Closed { words }) => {
            let words = words.into_words();
            format!(in alloc; "closed {words:?}\n")
        }
        Err(fault) => format!(in alloc; "{fault:?}\n"),
    }
}

/// Makes the steps one after another, and writes what they answer.
fn tell(alloc: Global, machine: &mut Machine, events: &[StepEvent]) -> Result<String, AllocError>
    requires { length machine.old.views + length events.now < 1000 }
    ensures { length machine.new.views ≤ length machine.old.views + length events.now }
{
    let mut text = String::new(alloc);
    'events: for event in events {
        let line = told(alloc, machine.step(event))?;
        text.push_str(line.as_str())?;
    }
    Ok(text)
}

/// Makes a machine with so many words and shares and the steps one after another, and writes what
/// they answer.
fn tell_anew(
    alloc: Global,
    width: u32,
    shares: u32,
    events: &[StepEvent],
) -> Result<String, AllocError>
    requires width { 0 < width }
    requires shares { 0 < shares }
    requires few { length events.now < 900 }
{
    let mut machine = Machine::new(alloc, width, shares)?;
    tell(alloc, &mut machine, events)
}

/// Gives the number of words and of shares of a new machine.
fn size_of(alloc: Global, width: u32, shares: u32) -> Result<(u32, u32), AllocError>
    requires width { 0 < width }
    requires shares { 0 < shares }
{
    let machine = Machine::new(alloc, width, shares)?;
    Ok((machine.width(), machine.all_shares()))
}

/// The steps of two seats that each clear a bit.
fn steps_of_two(low: Row, high: Row) -> [StepEvent; 8] {
    [
        StepEvent::Split { seat: 0, shares: 1 },
        StepEvent::Clear { seat: 0, row: low },
        StepEvent::Clear { seat: 1, row: high },
        StepEvent::Load { seat: 0, word: 0 },
        StepEvent::Close { seat: 0 },
        StepEvent::Join { seat: 0, other: 1 },
        StepEvent::Close { seat: 0 },
        StepEvent::Load { seat: 0, word: 0 },
    ]
}

/// Writes what these steps answer.
fn text_of_two(alloc: Global) -> Result<String, AllocError> {
    let low = row_of(alloc, 0, 1)?;
    let high = row_of(alloc, 0, 4)?;
    tell_anew(alloc, 1, 2, &steps_of_two(low, high))
}

#[test]
fn two_seats_clear_a_bit_each(rt: HostRuntime) -> Result<(), Fail> {
    assert_eq!(rt; size_of(rt.alloc(), 1, 2)?, (1, 2));
    let text = text_of_two(rt.alloc())?;
    let wanted = "split 1
cleared ffffffffffffffff
cleared fffffffffffffffe
loaded fffffffffffffffa
SharesOut { have: 1, all: 2 }
joined
closed [18446744073709551610]
NoSeat { seat: 0 }
";
    assert_eq!(rt; text.as_str(), wanted);
    Ok(())
}

/// The steps of a row in progress: its own row again is let through.
fn steps_in_progress(rows: (Row, Row), past: Row, other: Row) -> [StepEvent; 9] {
    let (row, again) = rows;
    [
        StepEvent::Clear { seat: 0, row },
        StepEvent::Load { seat: 0, word: 0 },
        StepEvent::Clear {
            seat: 0,
            row: again,
        },
        StepEvent::Load { seat: 0, word: 1 },
        StepEvent::Clear { seat: 0, row: past },
        StepEvent::Split { seat: 0, shares: 1 },
        StepEvent::Split { seat: 0, shares: 0 },
        StepEvent::Clear {
            seat: 1,
            row: other,
        },
        StepEvent::Close { seat: 0 },
    ]
}

/// Makes the row of two entries twice.
fn same_rows(alloc: Global) -> Result<(Row, Row), AllocError> {
    let row = row_of_two(alloc)?;
    Ok((row, row_of_two(alloc)?))
}

/// Writes what these steps answer.
fn text_in_progress(alloc: Global, rows: (Row, Row)) -> Result<String, AllocError> {
    let past = row_of(alloc, 2, 1)?;
    let other = row_of(alloc, 0, 2)?;
    tell_anew(alloc, 2, 1, &steps_in_progress(rows, past, other))
}

#[test]
fn a_row_in_progress_holds_its_seat(rt: HostRuntime) -> Result<(), Fail> {
    let text = text_in_progress(rt.alloc(), same_rows(rt.alloc())?)?;
    let wanted = "cleared ffffffffffffffff
RowOpen { seat: 0 }
cleared ffffffffffffffff
loaded fffffffffffffffe
BadWord { word: 2, width: 2 }
BadShare { have: 1, asked: 1 }
split 1
BadShare { have: 0, asked: 1 }
closed [18446744073709551614, 18446744073709551614]
";
    assert_eq!(rt; text.as_str(), wanted);
    Ok(())
}

/// What two seats with a share each see: the word once both have cleared, the shares of the first
/// and all shares as it is refused to close, and the word at the close.
#[derive(Clone, Copy, Debug, PartialEq)]
struct Seen {
    read: u64,
    have: u32,
    all: u32,
    last: u64,
}

/// Runs the two seats on the running table.
fn seen_on_table(alloc: Global, low: &Row, high: &Row) -> Option<Seen>
    requires low { low.now ≡ record { word = 0; mask = 1 } ∷ [] }
    requires high { high.now ≡ record { word = 0; mask = 4 } ∷ [] }
{
    let (table, mut first) = MeetTable::open(alloc, 1, 2).ok()?;
    let mut second = table.split(&mut first, 1);
    table.offer(&mut first, low);
    table.offer(&mut second, high);
    let mut into = [0u64];
    table.read(&mut first, &mut into);
    let (table, mut first, have, all) = match table.close(alloc, first) {
        Err(
            CloseFault::PassesOut {
                table,
                pass,
                have,
                all,
            },
        ) => (table, pass, have, all),
        _ => return None,
    };
    table.join(&mut first, second);
    let closed = table.close(alloc, first).ok()?;
    let last = closed.words.words().first().copied()?;
    Some(Seen {
        read: into[0],
        have,
        all,
        last,
    })
}

/// Splits a machine's seat, and clears a row with each of the two.
fn clear_both(alloc: Global, machine: &mut Machine, low: Row, high: Row) -> Result<(), AllocError>
    requires { length machine.old.views < 900 }
    ensures { length machine.new.views ≤ length machine.old.views + 3 }
{
    let events = [
        StepEvent::Split { seat: 0, shares: 1 },
        StepEvent::Clear { seat: 0, row: low },
        StepEvent::Clear { seat: 1, row: high },
    ];
    tell(alloc, machine, &events)?;
    Ok(())
}

/// Closes a machine that has shares out, and tells how many there are and are wanted.
fn shares_at_close(machine: &mut Machine) -> Option<(u32, u32)>
    requires { length machine.old.views < 900 }
    ensures { length machine.new.views ≤ length machine.old.views + 1 }
{
    match machine.step(&StepEvent::Close { seat: 0 }) {
        Err(StepFault::SharesOut { have, all }) => Some((have, all)),
        _ => None,
    }
}

/// Joins the two seats of a machine, closes it, and gives its first word.
fn word_at_close(machine: &mut Machine) -> Option<u64>
    requires { length machine.old.views < 900 }
{
    machine.step(&StepEvent::Join { seat: 0, other: 1 }).ok()?;
    match machine.step(&StepEvent::Close { seat: 0 }) {
        Ok(Reply::Closed { words }) => words.words().first().copied(),
        _ => None,
    }
}

/// What a machine sees whose two seats have cleared their rows.
fn seen_after(machine: &mut Machine) -> Option<Seen>
    requires { length machine.old.views < 800 }
{
    let read = machine.words().first().copied()?;
    let (have, all) = shares_at_close(machine)?;
    let last = word_at_close(machine)?;
    Some(Seen {
        read,
        have,
        all,
        last,
    })
}

/// Runs the two seats on the plain machine.
fn seen_on_machine(alloc: Global, low: Row, high: Row) -> Result<Option<Seen>, AllocError> {
    let mut machine = Machine::new(alloc, 1, 2)?;
    clear_both(alloc, &mut machine, low, high)?;
    Ok(seen_after(&mut machine))
}

/// Runs the two seats on the running table and on the plain machine.
fn seen_on_both(alloc: Global) -> Result<(Option<Seen>, Option<Seen>), AllocError> {
    let low = row_of(alloc, 0, 1)?;
    let high = row_of(alloc, 0, 4)?;
    let on_table = seen_on_table(alloc, &low, &high);
    Ok((on_table, seen_on_machine(alloc, low, high)?))
}

#[test]
fn whole_rows_run_as_on_the_table_of_words(rt: HostRuntime) -> Result<(), Fail> {
    let (on_table, on_machine) = seen_on_both(rt.alloc())?;
    let seen = Seen {
        read: 0xffff_ffff_ffff_fffa,
        have: 1,
        all: 2,
        last: 0xffff_ffff_ffff_fffa,
    };
    assert_eq!(rt; on_table, Some(seen));
    assert_eq!(rt; on_machine, Some(seen));
    Ok(())
}
