//! The event lines of traces whose times are drawn.
use drill_input::generate;
use std::alloc::{AllocError, Global};
use std::test::Fail;

/// The input of one trace by draws from 1.
const ONE_TRACE: &str =
    r#"{"request":"r0","machine":"c","task":"client","event":"start","time":1710720000000000}
{"request":"r0","machine":"c","task":"client","event":"sent","time":1710720000000838,"send":"q"}
{"request":"r0","machine":"w","task":"web","event":"got","time":1710720000000943,"recv":"q"}
{"request":"r0","machine":"w","task":"web","event":"built","time":1710720000001701}
{"request":"r0","machine":"w","task":"db","event":"begin@page","time":1710720000001701}
{"request":"r0","machine":"w","task":"db","event":"end","time":1710720000001814}
{"request":"r0","machine":"w","task":"ads","event":"begin@page","time":1710720000001701}
{"request":"r0","machine":"w","task":"ads","event":"end","time":1710720000002216}
{"request":"r0","machine":"w","task":"web","event":"replied","time":1710720000002216,"send":"p"}
{"request":"r0","machine":"c","task":"render","event":"shown@page","time":1710720000002121,"recv":"p"}
{"request":"r0","machine":"c","task":"render","event":"done","time":1710720000002172}
"#;

/// The second trace by draws from 1.
const SECOND_TRACE: &str =
    r#"{"request":"r1","machine":"c","task":"client","event":"start","time":1710720001000000}
{"request":"r1","machine":"c","task":"client","event":"sent","time":1710720001000627,"send":"q"}
{"request":"r1","machine":"w","task":"web","event":"got","time":1710720001000732,"recv":"q"}
{"request":"r1","machine":"w","task":"web","event":"built","time":1710720001000742}
{"request":"r1","machine":"w","task":"db","event":"begin@page","time":1710720001000742}
{"request":"r1","machine":"w","task":"db","event":"end","time":1710720001001161}
{"request":"r1","machine":"w","task":"ads","event":"begin@page","time":1710720001000742}
{"request":"r1","machine":"w","task":"ads","event":"end","time":1710720001000954}
{"request":"r1","machine":"w","task":"web","event":"replied","time":1710720001001161,"send":"p"}
{"request":"r1","machine":"c","task":"render","event":"shown@page","time":1710720001001066,"recv":"p"}
{"request":"r1","machine":"c","task":"render","event":"done","time":1710720001001152}
"#;

/// The first trace of the second day by draws from 1.
const NEXT_DAY: &str =
    r#"{"request":"r1000","machine":"c","task":"client","event":"start","time":1710806400000000}
{"request":"r1000","machine":"c","task":"client","event":"sent","time":1710806400000482,"send":"q"}
{"request":"r1000","machine":"w","task":"web","event":"got","time":1710806400000587,"recv":"q"}
{"request":"r1000","machine":"w","task":"web","event":"built","time":1710806400001503}
{"request":"r1000","machine":"w","task":"db","event":"begin@page","time":1710806400001503}
{"request":"r1000","machine":"w","task":"db","event":"end","time":1710806400001976}
{"request":"r1000","machine":"w","task":"ads","event":"begin@page","time":1710806400001503}
{"request":"r1000","machine":"w","task":"ads","event":"end","time":1710806400002288}
{"request":"r1000","machine":"w","task":"web","event":"replied","time":1710806400002288,"send":"p"}
{"request":"r1000","machine":"c","task":"render","event":"shown@page","time":1710806400002193,"recv":"p"}
{"request":"r1000","machine":"c","task":"render","event":"done","time":1710806400002514}
"#;

/// The input of one trace by draws from the greatest number.
const GREATEST: &str =
    r#"{"request":"r0","machine":"c","task":"client","event":"start","time":1710720000000000}
{"request":"r0","machine":"c","task":"client","event":"sent","time":1710720000000929,"send":"q"}
{"request":"r0","machine":"w","task":"web","event":"got","time":1710720000001034,"recv":"q"}
{"request":"r0","machine":"w","task":"web","event":"built","time":1710720000001443}
{"request":"r0","machine":"w","task":"db","event":"begin@page","time":1710720000001443}
{"request":"r0","machine":"w","task":"db","event":"end","time":1710720000002305}
{"request":"r0","machine":"w","task":"ads","event":"begin@page","time":1710720000001443}
{"request":"r0","machine":"w","task":"ads","event":"end","time":1710720000002161}
{"request":"r0","machine":"w","task":"web","event":"replied","time":1710720000002305,"send":"p"}
{"request":"r0","machine":"c","task":"render","event":"shown@page","time":1710720000002210,"recv":"p"}
{"request":"r0","machine":"c","task":"render","event":"done","time":1710720000002923}
"#;

/// Gives the time of a line.
fn time_of(line: &str) -> Option<u64> {
    let (_, rest) = line.split_once("\"time\":")?;
    let digits = match rest.split_once(',') {
        Some((digits, _)) => digits,
        None => rest.strip_suffix('}')?,
    };
    digits.parse().ok()
}

/// Gives the times of these lines, in order.
fn times_of(alloc: Global, lines: &str) -> Result<Vec<u64>, AllocError> {
    let mut times = Vec::new(alloc);
    for line in lines.lines() {
        if let Some(time) = time_of(line) {
            times.push(time)?;
        }
    }
    Ok(times)
}

/// Gives by how much the time of a line is greater than that of an earlier one.
fn drawn_between(times: &[u64], earlier: usize, later: usize) -> Option<u64> {
    times.get(later)?.checked_sub(*times.get(earlier)?)
}

/// A draw lies between two lines; the last of these is that of the second trace.
#[test]
fn draws_are_those_of_the_sequence(rt: HostRuntime) -> Result<(), Fail> {
    let bytes = generate(rt.alloc(), 1, 2)?;
    let times = times_of(rt.alloc(), std::str::from_utf8(bytes.as_slice())?)?;
    let draws = [
        (0, 1, 838),
        (2, 3, 758),
        (4, 5, 113),
        (6, 7, 515),
        (9, 10, 51),
        (11, 12, 627),
    ];
    for (earlier, later, draw) in draws {
        assert_eq!(rt; drawn_between(&times, earlier, later), Some(draw));
    }
    Ok(())
}

#[test]
fn a_trace_has_eleven_lines(rt: HostRuntime) -> Result<(), Fail> {
    let alloc = rt.alloc();
    assert_eq!(rt; generate(alloc, 1, 1)?.as_slice(), ONE_TRACE.as_bytes());
    Ok(())
}

#[test]
fn draws_go_on_in_the_next_trace(rt: HostRuntime) -> Result<(), Fail> {
    let alloc = rt.alloc();
    let bytes = generate(alloc, 1, 2)?;
    assert_eq!(rt; bytes.len(), ONE_TRACE.len() + SECOND_TRACE.len());
    assert_eq!(rt; bytes.starts_with(ONE_TRACE.as_bytes()), true);
    assert_eq!(rt; bytes.ends_with(SECOND_TRACE.as_bytes()), true);
    Ok(())
}

#[test]
fn a_day_has_a_thousand_traces(rt: HostRuntime) -> Result<(), Fail> {
    let alloc = rt.alloc();
    let bytes = generate(alloc, 1, 1001)?;
    assert_eq!(rt; bytes.len(), 1_008_810);
    assert_eq!(rt; bytes.ends_with(NEXT_DAY.as_bytes()), true);
    Ok(())
}

#[test]
fn no_trace_is_an_empty_input(rt: HostRuntime) -> Result<(), Fail> {
    let alloc = rt.alloc();
    assert_eq!(rt; generate(alloc, 1, 0)?.is_empty(), true);
    Ok(())
}

#[test]
fn draws_start_from_any_number(rt: HostRuntime) -> Result<(), Fail> {
    let alloc = rt.alloc();
    assert_eq!(rt;
        generate(alloc, 2_147_483_647, 1)?.as_slice(),
        GREATEST.as_bytes()
    );
    Ok(())
}
