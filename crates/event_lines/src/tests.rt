//! In which way a line is read: no clause says it, since only time depends on it.
use crate::flat_lines::flat_fields;
use crate::plain_lines::plain_fields;
use json::Scratch;
use std::test::Fail;

/// Lines that are read straight from their tokens.
const FLAT: &str = r#"
{"request":"r1","machine":"m","task":"a","event":"s","time":0}
{"request":"r1","machine":"m","task":"a","event":"s@d","nanos":1500,"send":"x","recv":"y"}
{"more":"x","number":5,"time":7,"event":"\u0065","task":"t","machine":"m","request":"r"}
 {"request":"r1","machine":"m","task":"","event":"s","time":0}
{"zero":0,"request":"r1","machine":"m","task":"a","event":"s","time":1}
"#;

/// A line with a truth value, of which a JSON value is made.
const NOT_FLAT: &str =
    r#"{"true":true,"request":"r1","machine":"m","task":"a","event":"s","time":1}"#;

/// Lines that are read byte by byte.
const PLAIN: &str = r#"
{"request":"r1","machine":"m","task":"a","event":"s","time":1}
{"request":"r1","machine":"m","task":"a","event":"s@d","nanos":1500,"send":"x","recv":"y"}
{"more":"x","number":5,"time":7,"event":"tä😀","task":"t","machine":"m","request":"r"}
{ "request": "r", "machine": "m", "task":  "t", "event": "e", "time": 12}  
{"request":"0123456789012345678901234567890123456789012345678901234567890123","machine":"m","task":"t","event":"e","time":18446744073}
"#;

/// Lines that are not read byte by byte.
const NOT_PLAIN: &str = r#"
{"request":"r1","machine":"m","task":"a","event":"s","time":0}
{"request":"r1","machine":"m","task":"","event":"s","time":1}
{"request":"01234567890123456789012345678901234567890123456789012345678901234","machine":"m","task":"t","event":"e","time":1}
{"request":"\u0072","machine":"m","task":"a","event":"s","time":1}
{"request":"r1","machine":"m","task":"a","event":"s","time":1,"more":true}
{"request":"r1","machine":"m","task":"a","event":"s","time":1,"do":"add"}
{"zero":0,"request":"r1","machine":"m","task":"a","event":"s","time":1}
{"true":true,"request":"r1","machine":"m","task":"a","event":"s","time":1}
{"request":"r1","machine":"m","task":"a","event":"s","time":18446744073709551616}
{"request":"r1","machine":"m","task":"a","event":"s","time":1}}
{"request":"r1","machine":"m","task":"a","event":"s","time":1 }
{"request":"r1","machine":"m","task":"a","event":"s","time":1,}
{"request":"r1","machine":"m","task":"a","event":"s"}
{}
"#;

#[test]
fn flat_event_lines_need_no_json_value(rt: HostRuntime) -> Result<(), Fail> {
    let mut scratch = Scratch::new(rt.alloc());
    for line in FLAT.lines() {
        if !line.is_empty() {
            let fields = flat_fields(line.as_bytes(), &mut scratch)?;
            assert!(rt; fields.is_some(), "{line}");
        }
    }
    let fields = flat_fields(NOT_FLAT.as_bytes(), &mut scratch)?;
    assert!(rt; fields.is_none());
    Ok(())
}

#[test]
fn plain_event_lines_are_read_byte_by_byte(rt: HostRuntime) {
    for line in PLAIN.lines() {
        if !line.is_empty() {
            assert!(rt; plain_fields(line.as_bytes()).is_some(), "{line}");
        }
    }
    for line in NOT_PLAIN.lines() {
        if !line.is_empty() {
            assert!(rt; plain_fields(line.as_bytes()).is_none(), "{line}");
        }
    }
}
