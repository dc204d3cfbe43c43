//! Lines are read in three ways: byte by byte, from their tokens, and by their JSON value. A member
//! that means nothing has a line read in another way, and it says the same.
use crate::control_lines;
use crate::single_lines::{BAD, GOOD};
use event_lines::{LineError, LineRun, read_lines};
use std::alloc::{AllocError, Global};
use std::test::Fail;
use std::thread::Threads;

/// Odd lines, one a row.
const ODD: &str = r#"
{"request":"r","machine":"m","task":"t","event":"e","time":1,"request":"r2"}
{"request":5,"machine":"m","task":"t","event":"e","time":1,"request":"r2"}
{"request":"r","machine":"m","task":"t","event":"e","time":1,"time":2}
{"request":"r","machine":"m","task":"t","event":"e","time":"x","time":2}
{"request":"r","machine":"m","task":"t","event":"e","time":1,"nanos":2,"nanos":3}
{"request":"r","machine":"m","task":"t","event":"e","time":1,"nanos":2,"nanos":null}
{"request":"r","machine":"m","task":"t","event":"e","time":1,"send":"x","send":null}
{"request":"r","machine":"m","task":"t","event":"e","time":1,"send":null,"send":"x"}
{"request":"r","machine":"m","task":"t","event":"e","time":1,"do":"add","do":5}
{"do":"drop","day":1,"day":2}
{"request":"r","machine":"m","task":"t","event":"e","time":1.0}
{"request":"r","machine":"m","task":"t","event":"e","time":1.5}
{"request":"r","machine":"m","task":"t","event":"e","time":1e3}
{"request":"r","machine":"m","task":"t","event":"e","time":1E+3}
{"request":"r","machine":"m","task":"t","event":"e","time":-0}
{"request":"r","machine":"m","task":"t","event":"e","time":00}
{"request":"r","machine":"m","task":"t","event":"e","time":+1}
{"request":"r","machine":"m","task":"t","event":"e","time":18446744073709551615}
{"request":"r","machine":"m","task":"t","event":"e","time":18446744073709551616}
{"request":"r","machine":"m","task":"t","event":"e","time":-9223372036854775809}
{"request":"r","machine":"m","task":"t","event":"e","time":1,"other":-1}
{"request":"r","machine":"m","task":"t","event":"e","time":1,"other":1e400}
{"request":"r","machine":"m","task":"t","event":"e","time":1,"other":1.25}
{"request":"r","machine":"m","task":"t","event":"e","time":1,"other":true,"more":null}
{"request":"r","machine":"m","task":"t","event":"e","time":1,"other":[1,{"do":"add"}]}
{"request":"r","machine":"m","task":"t","event":"e","time":1,"":""}
{"reque\u0073t":"\u0072","machine":"m\"","task":"t\\","event":"\/e","time":1}
{"request":"\ud83d\ude00","machine":"\u00e9","task":"tä","event":"e😀","time":1}
{"request":"\ud83d","machine":"m","task":"t","event":"e","time":1}
{"request":"r\u0000","machine":"m","task":"t","event":"e","time":1}
{"request":"r","machine":"m","task":"t","event":"e","time":1,"d\u006f":"add"}
  { "request" : "r" , "machine":"m","task":"t","event":"e" , "time" : 1 }  
{"request":"r","machine":"m","task":"t","event":"e","time":1}x
{"request":"r","machine":"m","task":"t","event":"e","time":1} {}
{"request":"r","machine":"m","task":"t","event":"e","time":1,}
{"request":"r","machine":"m","task":"t","event":"e","time":1
{"request":"r","machine":"m","task":"t","event":"e","time":}
{"request":"r","machine":"m","task":"t","event":"e","time" 1}
{request:"r","machine":"m","task":"t","event":"e","time":1}
{'request':"r","machine":"m","task":"t","event":"e","time":1}
{"request":"r" "machine":"m","task":"t","event":"e","time":1}
{"request":"r","machine":"m","task":"t","event":"e","time":1,"send":"a@b","recv":""}
{"request":"0123456789012345678901234567890123456789012345678901234567890123","machine":"m","task":"t","event":"e","time":1}
{"request":"01234567890123456789012345678901234567890123456789012345678901234","machine":"m","task":"t","event":"e","time":1}
{"do":"add"} x
"request"
null
5
{"":{}}
"#;

/// Lines that are read straight from their tokens: none is read byte by byte.
const FLAT: &str = r#"
{"request":"r1","machine":"m","task":"a","event":"s","time":0}
{"request":"r1","machine":"m","task":"a","event":"s@d","nanos":1500,"send":"x","recv":"y"}
{"more":"x","number":5,"time":7,"event":"\u0065","task":"t","machine":"m","request":"r"}
 {"request":"r1","machine":"m","task":"","event":"s","time":0}
"#;

/// Lines that are read byte by byte.
const PLAIN: &str = r#"
{"request":"r1","machine":"m","task":"a","event":"s","time":1}
{"request":"r1","machine":"m","task":"a","event":"s@d","nanos":1500,"send":"x","recv":"y"}
{"more":"x","number":5,"time":7,"event":"tä😀","task":"t","machine":"m","request":"r"}
{ "request": "r", "machine": "m", "task":  "t", "event": "e", "time": 12}  
{"request":"0123456789012345678901234567890123456789012345678901234567890123","machine":"m","task":"t","event":"e","time":18446744073}
"#;

/// Lines that are not read byte by byte.
const NOT_PLAIN: &str = r#"
{"request":"r1","machine":"m","task":"a","event":"s","time":0}
{"request":"r1","machine":"m","task":"","event":"s","time":1}
{"request":"01234567890123456789012345678901234567890123456789012345678901234","machine":"m","task":"t","event":"e","time":1}
{"request":"\u0072","machine":"m","task":"a","event":"s","time":1}
{"request":"r1","machine":"m","task":"a","event":"s","time":1,"more":true}
{"request":"r1","machine":"m","task":"a","event":"s","time":1,"do":"add"}
{"request":"r1","machine":"m","task":"a","event":"s","time":18446744073709551616}
{"request":"r1","machine":"m","task":"a","event":"s","time":1}}
{"request":"r1","machine":"m","task":"a","event":"s","time":1 }
{"request":"r1","machine":"m","task":"a","event":"s","time":1,}
{"request":"r1","machine":"m","task":"a","event":"s"}
{}
"#;

/// Prints the events of a run and its control line.
fn print_run(alloc: Global, run: &LineRun) -> Result<String, AllocError> {
    let mut printed = Vec::new(alloc);
    for index in 0..run.events.len() {
        printed.push(format!(in alloc; "{:?}", run.events.event(index))?)?;
    }
    if let Some(control) = run.control {
        printed.push(format!(in alloc; "{control:?}")?)?;
    }
    printed.join(alloc, ",")
}

/// Prints these runs, one after another.
fn print_runs(alloc: Global, runs: &[LineRun]) -> Result<String, AllocError> {
    let mut printed = Vec::new(alloc);
    for run in runs {
        printed.push(print_run(alloc, run)?)?;
    }
    printed.join(alloc, ";")
}

/// Prints what a short line says, or why it is bad.
fn print_line<R: Threads + Sync>(rt: &R, alloc: Global, line: &[u8]) -> Result<String, AllocError> {
    if line.len() > 1000 {
        return Err(AllocError);
    }
    match read_lines(rt, alloc, line, 1) {
        Err(LineError::Memory) => Err(AllocError),
        Err(LineError::Bad { line, why }) => format!(in alloc; "{line} {}", why.as_str()),
        Ok(lines) => print_runs(alloc, &lines.into_runs()),
    }
}

/// Cuts a line after its first opening brace, if it has one.
fn cut_at_brace(line: &[u8]) -> Option<(&[u8], &[u8])> {
    let brace = line.iter().position(|byte| *byte == b'{')?;
    line.split_at_checked(brace.wrapping_add(1))
}

/// Joins the parts of an object and a member between them.
fn join_parts(
    alloc: Global,
    front: &[u8],
    member: &[u8],
    back: &[u8],
) -> Result<Vec<u8>, AllocError> {
    let mut line = Vec::new(alloc);
    line.extend_from_slice(front)?;
    line.extend_from_slice(member)?;
    if !back.starts_with(b"}") {
        line.push(b',')?;
    }
    line.extend_from_slice(back)?;
    Ok(line)
}

/// Tells whether a line says this when it has a member more, the first one.
fn says_with<R: Threads + Sync>(
    rt: &R,
    alloc: Global,
    line: &[u8],
    member: &[u8],
    said: &str,
) -> Result<bool, AllocError> {
    let Some((front, back)) = cut_at_brace(line) else {
        return Ok(true);
    };
    let longer = join_parts(alloc, front, member, back)?;
    let found = print_line(rt, alloc, longer.as_slice())?;
    Ok(found.as_str() == said)
}

/// Tells whether all ways read a line alike. A number 0 is not read byte by byte, and of a truth
/// value the line's JSON value is made.
fn is_read_alike<R: Threads + Sync>(
    rt: &R,
    alloc: Global,
    line: &[u8],
) -> Result<bool, AllocError> {
    let said = print_line(rt, alloc, line)?;
    Ok(
        says_with(rt, alloc, line, b"\"zero\":0", &said)?
            && says_with(rt, alloc, line, b"\"true\":true", &said)?,
    )
}

/// Finds a line that the ways do not read alike. A row is a line, or other words, a bar and a line.
fn find_difference<'a, R: Threads + Sync>(
    rt: &R,
    alloc: Global,
    rows: &'a str,
) -> Result<Option<&'a str>, AllocError> {
    for row in rows.lines() {
        let line = match row.split_once('|') {
            Some((_, line)) => line,
            None => row,
        };
        if !is_read_alike(rt, alloc, line.as_bytes())? {
            return Ok(Some(line));
        }
    }
    Ok(None)
}

#[test]
fn all_ways_read_every_kind_of_line_alike(rt: HostRuntime) -> Result<(), Fail> {
    for rows in [BAD, GOOD, control_lines::BAD, ODD, FLAT, PLAIN, NOT_PLAIN] {
        assert_eq!(rt; find_difference(&rt, rt.alloc(), rows)?, None);
    }
    Ok(())
}

#[test]
fn all_ways_read_control_lines_alike(rt: HostRuntime) -> Result<(), Fail> {
    for (line, _) in control_lines::GOOD {
        let alike = is_read_alike(&rt, rt.alloc(), line.as_bytes())?;
        assert!(rt; alike, "{line}");
    }
    Ok(())
}

/// Lines of which some bytes are no text, or a mark before the text.
const BYTES: [&[u8]; 6] = [
    b" \t{\t\"request\":\"r\",\"machine\":\"m\",\"task\":\"t\",\"event\":\"e\",\"time\":0 }\t\r",
    b"{\"request\":\"\xff\",\"machine\":\"m\",\"task\":\"t\",\"event\":\"e\",\"time\":0}",
    b"{\"request\":\"\xc3\xa9\",\"machine\":\"m\",\"task\":\"t\",\"event\":\"e\",\"time\":0}",
    b"{\"request\":\"\t\",\"machine\":\"m\",\"task\":\"t\",\"event\":\"e\",\"time\":0}",
    b"\xef\xbb\xbf{\"request\":\"r\",\"machine\":\"m\",\"task\":\"t\",\"event\":\"e\",\"time\":0}",
    b"{\"request\":\"r\",\"machine\":\"m\",\"task\":\"t\",\"event\":\"e\",\"time\":0}\0",
];

#[test]
fn all_ways_read_bytes_that_are_no_text_alike(rt: HostRuntime) -> Result<(), Fail> {
    for line in BYTES {
        assert!(rt; is_read_alike(&rt, rt.alloc(), line)?, "{line:?}");
    }
    Ok(())
}
