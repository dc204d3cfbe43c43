//! Inputs that are read in pieces, by several workers or one after another.
ghost use Rattle.std.specs.Prelude.{◌<◌};

use event_lines::{LineError, LineParts, LineReader, LineRun, read_lines};
use std::alloc::{AllocError, Global};
use std::test::Fail;
use std::thread::Threads;

/// Inputs, and what they say: the numbers of their lines, each with the name of its event or its
/// command, or the number of the first bad line with its reason.
const INPUTS: [(&str, &str); 13] = [
    ("", ""),
    ("\n\r\n \n\t\n", ""),
    (r#"{"do":"add"}"#, "1 Add"),
    (r#"{"do":"stop"}"#, "1 unknown command"),
    (
        "{\"do\":\"add\"}\n\n \t\r\n\n\n{\"do\":\"model\"}\n",
        "1 Add,6 Model",
    ),
    (
        "{\"do\":\"watch\",\"every\":2}\n\n\
            {\"request\":\"r\",\"machine\":\"m\",\"task\":\"t\",\"event\":\"x@d\",\"time\":3}\n\
            \t\r\n{\"do\":\"add\"}\r\n{\"do\":\"model\"}",
        "1 Watch { every: 2 },3 x@d,5 Add,6 Model",
    ),
    (
        "\n \t\r\n{\"request\":\"r\",\"machine\":\"m\",\"task\":\"t\",\"event\":\"s\",\"time\":7}\r\n\
            \n[]\n{}\n",
        "5 not a JSON object",
    ),
    (
        "{\"do\":\"add\"}\n{\"do\":\"add\"}\n\n{\"do\":\"stop\"}\n{\"do\":\"add\"}",
        "4 unknown command",
    ),
    (
        "{\"do\":\"add\"}\n{\"do\":\"stop\"}\n{\"do\":\"add\"}\n\n[]\n{}\n",
        "2 unknown command",
    ),
    (
        "{\"do\":\"add\"}\n{\"do\":\n\"add\"}\n",
        "2 not a JSON object",
    ),
    (
        "{\"do\":\"add\"}\n{\"do\":\"graph\"}\n{\"do\":\"paths\"}\n{\"do\":\"slack\"}\n{\"do\":\"model\"}",
        "1 Add,2 Graph,3 Paths,4 Slack,5 Model",
    ),
    (
        "{\"request\":\"r\",\"machine\":\"m\",\"task\":\"t\",\"event\":\"\\u0061\\u00e9b\",\"time\":1}\n\n\
            {\"do\":\"add\"}",
        "1 a\u{e9}b,3 Add",
    ),
    (
        "{\"do\":\"add\"}\n[\n{\"do\":\"add\"}\n[",
        "2 not a JSON object",
    ),
];

/// Prints the number of each line of a run with the name of its event or its command.
fn print_run(alloc: Global, run: &LineRun, printed: &mut Vec<String>) -> Result<(), AllocError> {
    for index in 0..run.events.len() {
        let event = run.events.event(index);
        printed.push(format!(in alloc; "{} {}", event.line, event.event.as_str())?)?;
    }
    if let Some(control) = run.control {
        printed.push(format!(in alloc; "{} {:?}", control.line, control.command)?)?;
    }
    Ok(())
}

/// Prints what runs say, one after another.
fn print_runs(alloc: Global, runs: &[LineRun]) -> Result<String, AllocError> {
    let mut printed = Vec::new(alloc);
    for run in runs {
        print_run(alloc, run, &mut printed)?;
    }
    printed.join(alloc, ",")
}

/// Prints what lines say.
fn print_lines(alloc: Global, lines: LineParts) -> Result<String, AllocError> {
    let runs = lines.into_runs();
    print_runs(alloc, &runs)
}

/// Prints what lines say, or the first bad one.
fn print_reading(
    alloc: Global,
    reading: Result<LineParts, LineError>,
) -> Result<String, AllocError> {
    match reading {
        Err(LineError::Memory) => Err(AllocError),
        Err(LineError::Bad { line, why }) => format!(in alloc; "{line} {}", why.as_str()),
        Ok(lines) => print_lines(alloc, lines),
    }
}

/// Makes the lines of an input but the last one longer, by so many spaces at the end.
fn widen(alloc: Global, input: &str, spaces: usize) -> Result<String, AllocError> {
    let blanks = " ".repeat(alloc, spaces)?;
    let end = format!(in alloc; "{blanks}\n")?;
    input.replace(alloc, "\n", &end)
}

/// Prints what an input says that so many workers share.
fn print_shared<R: Threads + Sync>(
    rt: &R,
    alloc: Global,
    bytes: &[u8],
    workers: u32,
) -> Result<String, AllocError> {
    if bytes.len() > 10_000_000 {
        return Err(AllocError);
    }
    print_reading(alloc, read_lines(rt, alloc, bytes, workers))
}

/// Tells whether an input says this when its lines are so much longer and so many workers share it.
fn says_shared<R: Threads + Sync>(
    rt: &R,
    alloc: Global,
    input: &str,
    said: &str,
    workers: u32,
    spaces: usize,
) -> Result<bool, AllocError> {
    let wide = widen(alloc, input, spaces)?;
    let printed = print_shared(rt, alloc, wide.as_bytes(), workers)?;
    Ok(printed.as_str() == said)
}

/// A worker has at least 65,536 bytes to read: so a piece has one line or three.
#[test]
fn an_input_says_the_same_in_any_number_of_pieces(rt: HostRuntime) -> Result<(), Fail> {
    for (input, said) in INPUTS {
        for workers in [1, 2, 3, 64] {
            for spaces in [0, 25_000, 70_000] {
                let same = says_shared(&rt, rt.alloc(), input, said, workers, spaces)?;
                assert!(rt; same, "{said}: {workers} workers, {spaces} spaces");
            }
        }
    }
    Ok(())
}

/// Inputs whose pieces end and begin with blank lines wherever they are cut, what they say, and the
/// number of the line after those without a bad line.
const BLANK_ENDS: [(&str, &str, Option<u32>); 4] = [
    ("", "", Some(2)),
    ("\n\n\r\n\n \n\n\n\n\t\n", "", Some(11)),
    (
        "\n\r\n{\"do\":\"add\"}\n\n \t\n{\"do\":\"model\"}\n\n\n{\"do\":\"graph\"}\n\r\n\n\
            {\"do\":\"paths\"}\n\n\n{\"do\":\"slack\"}\n\n",
        "3 Add,6 Model,9 Graph,12 Paths,15 Slack",
        Some(18),
    ),
    (
        "\n\r\n{\"do\":\"add\"}\n\n \t\n{\"do\":\"model\"}\n\n\n\n{\"do\":\"stop\"}\n\r\n\
            {\"do\":5}\n\n\n{\"do\":\"slack\"}\n\n",
        "10 unknown command",
        None,
    ),
];

/// Takes bytes, where there is room for them.
fn take<R: Threads + Sync>(
    rt: &R,
    reader: &mut LineReader,
    bytes: &[u8],
) -> Result<(), AllocError> {
    if bytes.len() > reader.room() as usize {
        return Err(AllocError);
    }
    reader.take(rt, bytes)
}

/// Reads bytes that so many workers share, and a control line after them.
fn read_with_control<R: Threads + Sync>(
    rt: &R,
    alloc: Global,
    bytes: &[u8],
    workers: u32,
) -> Result<LineParts, LineError> {
    let mut reader = LineReader::new(alloc, workers);
    take(rt, &mut reader, bytes)?;
    take(rt, &mut reader, b"\n{\"do\":\"add\"}")?;
    reader.finish()
}

/// Finds the number of the last control line.
fn last_control(runs: &[LineRun]) -> Option<u32> {
    let mut last = None;
    for run in runs {
        if let Some(control) = run.control {
            last = Some(control.line);
        }
    }
    last
}

/// Finds the number of a control line after an input whose lines are wide and that so many workers
/// share.
fn number_after<R: Threads + Sync>(
    rt: &R,
    alloc: Global,
    input: &str,
    workers: u32,
) -> Option<u32> {
    let wide = widen(alloc, input, 25_000).ok()?;
    let lines = read_with_control(rt, alloc, wide.as_bytes(), workers).ok()?;
    last_control(&lines.into_runs())
}

#[test]
fn blank_lines_at_the_ends_of_pieces_are_numbered(rt: HostRuntime) -> Result<(), Fail> {
    for (input, said, next) in BLANK_ENDS {
        for workers in [1, 2, 3, 7] {
            let same = says_shared(&rt, rt.alloc(), input, said, workers, 25_000)?;
            assert!(rt; same, "{said}: {workers} workers");
            let found = number_after(&rt, rt.alloc(), input, workers);
            assert_eq!(rt; found, next, "{workers} workers");
        }
    }
    Ok(())
}

/// Prints what an input says that a reader takes in pieces of this length.
fn print_taken<R: Threads + Sync>(
    rt: &R,
    alloc: Global,
    bytes: &[u8],
    length: usize,
) -> Result<String, AllocError>
    requires { 0 < length }
{
    let mut reader = LineReader::new(alloc, 2);
    for piece in bytes.chunks(length) {
        take(rt, &mut reader, piece)?;
    }
    print_reading(alloc, reader.finish())
}

/// Tells whether an input says this that a reader takes in pieces of this length.
fn says_taken<R: Threads + Sync>(
    rt: &R,
    alloc: Global,
    input: &str,
    said: &str,
    length: usize,
) -> Result<bool, AllocError>
    requires { 0 < length }
{
    let printed = print_taken(rt, alloc, input.as_bytes(), length)?;
    Ok(printed.as_str() == said)
}

#[test]
fn an_input_says_the_same_wherever_it_is_cut(rt: HostRuntime) -> Result<(), Fail> {
    for (input, said) in INPUTS {
        for length in [1, 7, 20, 1000] {
            let same = says_taken(&rt, rt.alloc(), input, said, length)?;
            assert!(rt; same, "{said}: pieces of {length} bytes");
        }
    }
    Ok(())
}

/// Gives how many events each run has.
fn lengths_of(alloc: Global, runs: &[LineRun]) -> Result<Vec<usize>, AllocError> {
    let mut lengths = Vec::new(alloc);
    for run in runs {
        lengths.push(run.events.len())?;
    }
    Ok(lengths)
}

/// Counts the events of each run of the lines of an input that so many workers read.
fn count_events<R: Threads + Sync>(
    rt: &R,
    alloc: Global,
    bytes: &[u8],
    workers: u32,
) -> Option<Vec<usize>> {
    if bytes.len() > 10_000_000 {
        return None;
    }
    let lines = read_lines(rt, alloc, bytes, workers).ok()?;
    lengths_of(alloc, &lines.into_runs()).ok()
}

/// Makes so many lines of 99 bytes, which begin with this text and go on with spaces.
fn long_lines(alloc: Global, text: &str, lines: usize) -> Result<String, AllocError> {
    let line = format!(in alloc; "{text:99}\n")?;
    line.repeat(alloc, lines)
}

/// A piece of fewer than 65,536 events is one run.
#[test]
fn a_long_input_is_read_in_a_piece_for_each_worker(rt: HostRuntime) -> Result<(), Fail> {
    for (lines, workers, runs) in [
        (1310, 64, 1),
        (1311, 64, 2),
        (2000, 0, 1),
        (2000, 1, 1),
        (2000, 2, 2),
        (2000, 3, 3),
        (2000, 64, 3),
    ] {
        let input = long_lines(rt.alloc(), "", lines)?;
        let counts = count_events(&rt, rt.alloc(), input.as_bytes(), workers).ok_or("read")?;
        assert_eq!(rt; counts.len(), runs, "{lines} lines, {workers} workers");
    }
    Ok(())
}

const EVENT: &str = r#"{"request":"r","machine":"m","task":"t","event":"e","time":1}"#;

/// Tells whether four pieces of so many lines are read by about the same time. The lines of all
/// pieces before one are counted first, and counting a line takes a twentieth of the time of reading
/// it.
fn end_alike(lines: &[usize]) -> bool {
    let [first, second, third, fourth] = lines else {
        return false;
    };
    let two = first.wrapping_add(*second);
    let ends = [
        *first,
        (first / 20).wrapping_add(*second),
        (two / 20).wrapping_add(*third),
        (two / 20 + third / 20).wrapping_add(*fourth),
    ];
    ends.iter().all(|end| 10_750 < *end && *end < 10_810)
}

#[test]
fn four_pieces_are_read_by_about_the_same_time(rt: HostRuntime) -> Result<(), Fail> {
    let input = long_lines(rt.alloc(), EVENT, 40_000)?;
    let lines = count_events(&rt, rt.alloc(), input.as_bytes(), 4).ok_or("read")?;
    assert!(rt; end_alike(&lines), "{lines:?}");
    Ok(())
}
