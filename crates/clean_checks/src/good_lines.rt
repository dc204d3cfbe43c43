use crate::running::{SETTING, Setting, expect};
use std::test::Fail;

/// Lines of each kind: an empty one, a good event with members that are ignored, spaces and tabs
/// alone, no JSON, an event without a machine, a good control line with odd spaces, an unknown one,
/// an array, and a good event that a carriage return ends and no line feed.
const F: &[u8] =
    b"\n{\"x\": [1,2], \"request\":\"r1\",\"machine\":\"m\",\"task\":\"t\",\"event\":\"e\",\"time\":1}\n \t\r\nnonsense\n{\"request\":\"r1\",\"task\":\"t\",\"event\":\"e\",\"time\":2}\n  {\"do\" : \"add\"} \n{\"do\":\"jump\"}\n[]\n{\"request\":\"r1\",\"machine\":\"m\",\"task\":\"t\",\"event\":\"e2\",\"nanos\":3}\r";

/// A line that is not UTF-8, a good one, one with a time that is no number, and a good one.
const G: &[u8] =
    b"\xff\xfe\n{\"do\":\"grace\",\"micros\":5}\n{\"request\":\"r2\",\"machine\":\"m\",\"task\":\"t\",\"event\":\"e\",\"time\":\"4\"}\n{\"do\":\"model\"}\n";

/// What is printed of `F` and then of `G`.
const CLEAN: &[u8] =
    b"{\"x\": [1,2], \"request\":\"r1\",\"machine\":\"m\",\"task\":\"t\",\"event\":\"e\",\"time\":1}\n  {\"do\" : \"add\"} \n{\"request\":\"r1\",\"machine\":\"m\",\"task\":\"t\",\"event\":\"e2\",\"nanos\":3}\r\n{\"do\":\"grace\",\"micros\":5}\n{\"do\":\"model\"}\n";

#[test]
fn good_lines_are_printed_as_they_stand(rt: HostRuntime) -> Result<(), Fail> {
    for most in [1, 2, 7, 64, 4096] {
        let setting = Setting {
            words: &["f", "g"],
            f: F,
            g: G,
            most,
            ..SETTING
        };
        expect(&rt, rt.alloc(), setting, 0, CLEAN, b"")?;
    }
    Ok(())
}

#[test]
fn bad_lines_alone_print_nothing(rt: HostRuntime) -> Result<(), Fail> {
    let table: [&[u8]; 5] = [b"", b"\n", b"{\n}", b"{\"do\":\"add\"", b"null\n\n \n{}\n"];
    for f in table {
        let setting = Setting { f, ..SETTING };
        expect(&rt, rt.alloc(), setting, 0, b"", b"")?;
    }
    Ok(())
}
