//! Files of steps that are read: their steps, or the first line outside the form.
use std::alloc::Global;
use std::test::Fail;
use step_core::{Start, StepEvent, StepFile, StepLineError, plain_number, read_steps};

/// Finds the first bad line of a short file.
fn bad_line_of(alloc: Global, bytes: &[u8]) -> Option<u32> {
    if bytes.len() > 1000 {
        return None;
    }
    match read_steps(alloc, bytes).err()? {
        StepLineError::Memory => None,
        StepLineError::Bad { line } => Some(line),
    }
}

/// Reads a short file; none where it has a bad line, or memory ran out.
fn file_of(alloc: Global, bytes: &[u8]) -> Option<StepFile> {
    if bytes.len() > 1000 {
        return None;
    }
    read_steps(alloc, bytes).ok()
}

/// Lines that are outside the form, each after a line that opens the machine.
const BAD: [&str; 41] = [
    "open 1 1",
    "load",
    "load 0",
    "load 0 0 0",
    "load 0  0",
    "load  0 0",
    "load 0 0 ",
    " load 0 0",
    "load\t0 0",
    "load 0 0\r",
    "Load 0 0",
    "store 0 0",
    "load +0 0",
    "load -0 0",
    "load 00 0",
    "load 01 0",
    "load 0x1 0",
    "load a 0",
    "load 4294967296 0",
    "load 99999999999999999999 0",
    "split 0",
    "split 0 1 1",
    "join 0",
    "join 0 a",
    "close",
    "close 0 0",
    "close -1",
    "clear",
    "clear 0",
    "clear 0 0",
    "clear 0 0:",
    "clear 0 :1",
    "clear 0 0:1:1",
    "clear 0 0:A",
    "clear 0 0:0x1",
    "clear 0 0:00000000000000001",
    "clear 0 1:0",
    "clear 0 0:1 1:0",
    "clear 0 0:1 0:2",
    "clear 0 1:1 0:1",
    "clear 0 0:1  1:1",
];

/// First lines that open no machine.
const BAD_STARTS: [&str; 11] = [
    "open",
    "open 1",
    "open 1 1 1",
    "open  1 1",
    "open 0 1",
    "open 8303 1",
    "open 1 0",
    "open 01 1",
    "open 1 4294967296",
    "Open 1 1",
    "load 0 0",
];

#[test]
fn a_line_outside_the_form_is_bad(rt: HostRuntime) -> Result<(), Fail> {
    for line in BAD {
        let text = format!(in rt.alloc(); "\nopen 2 1\n \t\r\nload 0 0\n{line}\nload 0 0\nx\n")?;
        assert_eq!(rt; bad_line_of(rt.alloc(), text.as_bytes()), Some(5));
    }
    for line in BAD_STARTS {
        let text = format!(in rt.alloc(); "\n{line}\nx\n")?;
        assert_eq!(rt; bad_line_of(rt.alloc(), text.as_bytes()), Some(2));
    }
    Ok(())
}

#[test]
fn numbers_are_plain_digits(rt: HostRuntime) {
    assert_eq!(rt; plain_number(b"0"), Some(0));
    assert_eq!(rt; plain_number(b"10"), Some(10));
    assert_eq!(rt; plain_number(b"4294967295"), Some(4_294_967_295));
    assert_eq!(rt; plain_number(b"4294967296"), None);
    assert_eq!(rt; plain_number(b"00"), None);
    assert_eq!(rt; plain_number(b""), None);
}

#[test]
fn a_file_without_a_line_opens_nothing(rt: HostRuntime) -> Result<(), Fail> {
    for text in ["", "\n", " \t\r\n\n  "] {
        let file = file_of(rt.alloc(), text.as_bytes()).ok_or("bad")?;
        assert_eq!(rt; file.start, None);
        assert_eq!(rt; file.events.items().len(), 0);
    }
    Ok(())
}

#[test]
fn a_file_opens_the_widest_machine(rt: HostRuntime) -> Result<(), Fail> {
    let file = file_of(rt.alloc(), b"open 8302 4294967295").ok_or("bad")?;
    let start = Start {
        width: 8302,
        shares: 4_294_967_295,
    };
    assert_eq!(rt; file.start, Some(start));
    Ok(())
}

/// Tells whether a step clears these words and masks at a seat.
fn clears(event: &StepEvent, at: u32, words: &[(u32, u64)]) -> bool {
    let StepEvent::Clear { seat, row } = event else {
        return false;
    };
    let entries = row.entries();
    *seat == at
        && entries.len() == words.len()
        && entries
            .iter()
            .zip(words)
            .all(|(e, w)| e.word == w.0 && e.mask == w.1)
}

#[test]
fn steps_are_read_in_order(rt: HostRuntime) -> Result<(), Fail> {
    let text = b"open 1 2\nsplit 0 1\nclear 0 0:1\nclear 1 0:4\nload 0 0\nclose 0\n\
                 join 0 1\nclose 0\nload 0 0\n";
    let file = file_of(rt.alloc(), text).ok_or("bad")?;
    assert_eq!(rt;
        file.start,
        Some(Start {
            width: 1,
            shares: 2
        })
    );
    let events = file.events.into_items();
    assert_eq!(rt; events.len(), 8);
    assert!(rt; matches!(events[0], StepEvent::Split { seat: 0, shares: 1 }));
    assert!(rt; clears(&events[1], 0, &[(0, 1)]));
    assert!(rt; clears(&events[2], 1, &[(0, 4)]));
    assert!(rt; matches!(events[3], StepEvent::Load { seat: 0, word: 0 }));
    assert!(rt; matches!(events[4], StepEvent::Close { seat: 0 }));
    assert!(rt; matches!(events[5], StepEvent::Join { seat: 0, other: 1 }));
    Ok(())
}

#[test]
fn rows_are_read_entry_by_entry(rt: HostRuntime) -> Result<(), Fail> {
    let text = b"open 2 1\n\nclear 0 0:1 1:1\nload 0 0\nclear 0 0:1 1:1\nload 0 1\n\
                 clear 0 2:1\nsplit 0 1\nsplit 0 0\nclear 1 0:2\nclose 0\n\
                 clear 3 0:0\nclear 7 5:00fedcba98765432 4294967295:ffffffffffffffff";
    let file = file_of(rt.alloc(), text).ok_or("bad")?;
    let events = file.events.into_items();
    assert_eq!(rt; events.len(), 11);
    assert!(rt; clears(&events[0], 0, &[(0, 1), (1, 1)]));
    assert!(rt; clears(&events[4], 0, &[(2, 1)]));
    assert!(rt; clears(&events[7], 1, &[(0, 2)]));
    assert!(rt; clears(&events[9], 3, &[(0, 0)]));
    let last = [(5, 0x00fe_dcba_9876_5432), (u32::MAX, u64::MAX)];
    assert!(rt; clears(&events[10], 7, &last));
    Ok(())
}
