//! Good and bad event lines, one by one.
use event_lines::{LineError, LineRun, read_lines};
use std::alloc::{AllocError, Global};
use std::test::Fail;
use std::thread::Threads;

/// Finds the first bad line of a short input, and its printed reason.
pub(crate) fn fault_of<R: Threads + Sync>(
    rt: &R,
    alloc: Global,
    bytes: &[u8],
) -> Option<(u32, &'static str)> {
    if bytes.len() > 1000 {
        return None;
    }
    match read_lines(rt, alloc, bytes, 1).err()? {
        LineError::Memory => None,
        LineError::Bad { line, why } => Some((line, why.as_str())),
    }
}

/// Appends the times of the events of a run.
fn push_times(run: &LineRun, times: &mut Vec<u64>) -> Result<(), AllocError> {
    for index in 0..run.events.len() {
        times.push(run.events.event(index).time)?;
    }
    Ok(())
}

/// Gives the times of the events of runs.
fn times_in(alloc: Global, runs: &[LineRun]) -> Result<Vec<u64>, AllocError> {
    let mut times = Vec::new(alloc);
    for run in runs {
        push_times(run, &mut times)?;
    }
    Ok(times)
}

/// Reads the times of the events of a short input.
fn times_of<R: Threads + Sync>(rt: &R, alloc: Global, bytes: &[u8]) -> Result<Vec<u64>, LineError> {
    if bytes.len() > 1000 {
        return Ok(Vec::new(alloc));
    }
    let runs = read_lines(rt, alloc, bytes, 1)?.into_runs();
    Ok(times_in(alloc, &runs)?)
}

/// Rows of a reason and a line that is bad for it; some lines have later reasons too.
pub(crate) const BAD: &str = r#"
not a JSON object|[]
not a JSON object|x
not a JSON object|{"do":"add"
not a JSON object|{} {}
not a JSON object|{"task":"\ud800"}
missing member|{}
missing member|{"machine":"m","task":"a","event":"s","time":0}
missing member|{"request":"r1","task":"a","event":"s","time":0}
missing member|{"request":"r1","machine":"m","event":"s","time":0}
missing member|{"request":"r1","machine":"m","task":"a","time":0}
missing member|{"request":"r1","machine":"m","task":"a","event":"s"}
missing member|{"request":"r1","machine":5,"task":"","time":-1}
missing member|{"Do":"add"}
missing member|{"request":"r1","machine":"m","task":"a","event":"s","nanos":null}
wrong kind|{"request":"r1","machine":"m","task":"a","event":"s","time":"5"}
wrong kind|{"request":"r1","machine":"m","task":"a","event":"s","time":true}
wrong kind|{"request":"r1","machine":"m","task":"a","event":"s","time":null}
wrong kind|{"request":null,"machine":"m","task":"a","event":"s","time":0}
wrong kind|{"request":"r1","machine":[],"task":"a","event":"s","time":0}
wrong kind|{"request":"r1","machine":"m","task":{},"event":"s","time":0}
wrong kind|{"request":"r1","machine":"","task":"a","event":7,"time":-1}
wrong kind|{"request":"r1","machine":"m","task":"a","event":"s","time":0,"send":5}
wrong kind|{"request":"r1","machine":"m","task":"a","event":"s","time":0,"recv":false}
wrong kind|{"request":"r1","machine":"m","task":"a","event":"s","time":0,"nanos":"5"}
out of range|{"request":"r1","machine":"m","task":"a","event":"s","time":-1}
out of range|{"request":"r1","machine":"m","task":"","event":"s","time":4102444800000001}
out of range|{"request":"r1","machine":"m","task":"a","event":"s","time":0,"nanos":-1}
out of range|{"request":"r1","machine":"m","task":"a","event":"s","nanos":4102444800000000001}
bad text|{"request":"","machine":"m","task":"a","event":"s","time":0}
bad text|{"request":"r1","machine":"","task":"a","event":"s","time":0}
bad text|{"request":"r1","machine":"m","task":"\u001f","event":"s","time":0}
bad text|{"request":"r1","machine":"m","task":"a","event":"\n@","time":0}
bad text|{"request":"r1","machine":"m","task":"a","event":"s","time":0,"send":""}
bad text|{"request":"r1","machine":"m","task":"a","event":"s","time":0,"recv":"\u007f"}
"#;

/// Rows of a time in nanoseconds and a good line that has it.
pub(crate) const GOOD: &str = r#"
0|{"request":"r1","machine":"m","task":"a","event":"s","time":0}
4102444800000000000|{"request":"r1","machine":"m","task":"a","event":"s","time":4102444800000000}
5000|{"request":"r1","machine":"m","task":"a","event":"s","time":5,"send":null,"nanos":null}
1500|{"request":"r1","machine":"m","task":"a","event":"s","time":"x","nanos":1500}
0|{"request":"r1","machine":"m","task":"a","event":"s","time":-1,"nanos":0}
3| {"nanos":3,"request":"r","machine":"m","task":"a","event":"s"}
4102444800000000000|{"nanos":4102444800000000000,"request":"r","machine":"m","task":"a","event":"s"}
2000|{"request":"r1","machine":"\u0080","task":"\u00e9","event":"s","time":2,"recv":"x","more":[{}]}
9000|{"request":"r1","machine":"m","task":"t","event":"x@d","time":9}
"#;

#[test]
fn a_bad_line_has_the_first_reason_that_holds(rt: HostRuntime) -> Result<(), Fail> {
    let mut rows = 0usize;
    for row in BAD.lines() {
        if let Some((reason, line)) = row.split_once('|') {
            rows = rows.wrapping_add(1);
            let found = fault_of(&rt, rt.alloc(), line.as_bytes()).ok_or("a fault")?;
            assert_eq!(rt; found, (1, reason), "{line}");
        }
    }
    assert_eq!(rt; rows, 34);
    Ok(())
}

#[test]
fn a_good_line_gives_its_time_in_nanoseconds(rt: HostRuntime) -> Result<(), Fail> {
    for row in GOOD.lines() {
        if let Some((time, line)) = row.split_once('|') {
            let times = times_of(&rt, rt.alloc(), line.as_bytes())
                .ok()
                .ok_or("good")?;
            assert_eq!(rt;
                times.as_slice(),
                [time.parse::<u64>()?].as_slice(),
                "{line}"
            );
        }
    }
    Ok(())
}

/// Makes a line with this task, and a member of which so many arrays are within one another.
fn nested_line(alloc: Global, task: &str, nested: usize) -> Result<String, AllocError> {
    let opened = "[".repeat(alloc, nested)?;
    let closed = "]".repeat(alloc, nested)?;
    format!(in alloc;
        "{{\"request\":\"r1\",\"machine\":\"m\",\"task\":\"{task}\",\"event\":\"s\",\"time\":0,\
         \"more\":{opened}0{closed}}}"
    )
}

/// The same, where the task is this text so many times.
fn long_line(alloc: Global, text: &str, times: usize, nested: usize) -> Result<String, AllocError> {
    let task = text.repeat(alloc, times)?;
    nested_line(alloc, &task, nested)
}

#[test]
fn texts_have_at_most_64_bytes_and_values_at_most_127_levels(rt: HostRuntime) -> Result<(), Fail> {
    for (text, times, nested, fault) in [
        ("x", 64, 0, None),
        ("x", 65, 0, Some((1, "bad text"))),
        ("\u{e9}", 32, 0, None),
        ("\u{e9}", 33, 0, Some((1, "bad text"))),
        ("x", 1, 126, None),
        ("x", 1, 127, Some((1, "not a JSON object"))),
    ] {
        let line = long_line(rt.alloc(), text, times, nested)?;
        assert_eq!(rt;
            fault_of(&rt, rt.alloc(), line.as_str().as_bytes()),
            fault,
            "{line}"
        );
    }
    Ok(())
}

#[test]
fn bytes_that_are_no_text_are_no_object(rt: HostRuntime) {
    let fault = Some((1, "not a JSON object"));
    assert_eq!(rt; fault_of(&rt, rt.alloc(), b"{\"a\":\"\xff\"}"), fault);
    assert_eq!(rt; fault_of(&rt, rt.alloc(), b"{\"a\":\"\t\"}"), fault);
}
