//! Good and bad control lines, one by one, and blank lines.
use crate::single_lines::fault_of;
use event_lines::{Command, is_blank_line, read_lines};
use std::alloc::Global;
use std::test::Fail;
use std::thread::Threads;

/// Rows of a reason and a control line that is bad for it; some lines have later reasons too.
pub(crate) const BAD: &str = r#"
wrong kind|{"do":null}
wrong kind|{"do":5}
wrong kind|{"do":5,"day":-1}
wrong kind|{"do":["add"]}
wrong kind|{"request":"r1","machine":"m","task":"a","event":"s","time":0,"do":{}}
unknown command|{"do":"stop"}
unknown command|{"do":"","day":-1}
unknown command|{"do":"Add"}
unknown command|{"do":"add "}
unknown command|{"do":"drill"}
missing member|{"do":"drop"}
missing member|{"do":"drop","days":1}
missing member|{"do":"keep"}
missing member|{"do":"keep","day":1}
missing member|{"do":"watch"}
missing member|{"do":"watch","days":1}
missing member|{"do":"grace"}
missing member|{"do":"grace","every":1}
wrong kind|{"do":"drop","day":null}
wrong kind|{"do":"drop","day":"5"}
wrong kind|{"do":"keep","days":true}
wrong kind|{"do":"watch","every":[]}
wrong kind|{"do":"grace","micros":"5"}
wrong kind|{"do":"drop","day":18446744073709551616}
out of range|{"do":"drop","day":-1}
out of range|{"do":"drop","day":1000001}
out of range|{"do":"keep","days":-1}
out of range|{"do":"keep","days":1000001}
out of range|{"do":"watch","every":-9223372036854775808}
out of range|{"do":"watch","every":1000001}
out of range|{"do":"grace","micros":-1}
out of range|{"do":"grace","micros":18446744073709551615}
"#;

/// Good control lines, and their commands.
pub(crate) const GOOD: [(&str, Command); 21] = [
    (r#"{"do":"add"}"#, Command::Add),
    (r#" { "do" : "add" } "#, Command::Add),
    (r#"{"do":"\u0061dd","day":-1}"#, Command::Add),
    (r#"{"do":"drop","day":0}"#, Command::Drop { day: 0 }),
    (
        r#"{"do":"drop","day":1000000,"days":"x"}"#,
        Command::Drop { day: 1_000_000 },
    ),
    (r#"{"do":"keep","days":0}"#, Command::Keep { days: 0 }),
    (
        r#"{"days":1000000,"do":"keep"}"#,
        Command::Keep { days: 1_000_000 },
    ),
    (r#"{"do":"watch","every":0}"#, Command::Watch { every: 0 }),
    (
        r#"{"do":"watch","every":1000000}"#,
        Command::Watch { every: 1_000_000 },
    ),
    (r#"{"do":"grace","micros":0}"#, Command::Grace { micros: 0 }),
    (
        r#"{"do":"grace","micros":1000000,"request":5}"#,
        Command::Grace { micros: 1_000_000 },
    ),
    (r#"{"do":"model"}"#, Command::Model),
    (r#"{"do":"model","time":-1}"#, Command::Model),
    (r#"{"do":"paths"}"#, Command::Paths),
    (r#"{"do":"slack"}"#, Command::Slack),
    (r#"{"do":"report"}"#, Command::Report),
    (r#"{"do":"report","day":-1,"request":5}"#, Command::Report),
    (r#"{"do":"graph"}"#, Command::Graph),
    (r#"{"do":"summarize"}"#, Command::Summarize),
    (
        r#"{"request":"r1","machine":"m","task":"a","event":"s","time":0,"do":"graph"}"#,
        Command::Graph,
    ),
    (r#"{"do":"slack","do2":"graph"}"#, Command::Slack),
];

/// Finds the number and the command of the only line of a short input.
fn command_of<R: Threads + Sync>(rt: &R, alloc: Global, bytes: &[u8]) -> Option<(u32, Command)> {
    if bytes.len() > 1000 {
        return None;
    }
    let runs = read_lines(rt, alloc, bytes, 1).ok()?.into_runs();
    match runs.as_slice() {
        [first, last] if first.events.is_empty() && last.events.is_empty() => {
            let control = first.control?;
            Some((control.line, control.command))
        }
        _ => None,
    }
}

#[test]
fn a_bad_control_line_has_the_first_reason_that_holds(rt: HostRuntime) -> Result<(), Fail> {
    let mut rows = 0usize;
    for row in BAD.lines() {
        if let Some((reason, line)) = row.split_once('|') {
            rows = rows.wrapping_add(1);
            let found = fault_of(&rt, rt.alloc(), line.as_bytes()).ok_or("a fault")?;
            assert_eq!(rt; found, (1, reason), "{line}");
        }
    }
    assert_eq!(rt; rows, 32);
    Ok(())
}

#[test]
fn a_good_control_line_is_its_command(rt: HostRuntime) {
    for (line, command) in GOOD {
        let found = command_of(&rt, rt.alloc(), line.as_bytes());
        assert!(rt; found == Some((1, command)), "{line}");
    }
}

#[test]
fn a_blank_line_has_spaces_tabs_and_carriage_returns_alone(rt: HostRuntime) {
    assert!(rt; is_blank_line(b""));
    assert!(rt; is_blank_line(b" \t\r "));
    assert!(rt; !is_blank_line(b" \x0c"));
    assert!(rt; !is_blank_line(b"\n"));
}
