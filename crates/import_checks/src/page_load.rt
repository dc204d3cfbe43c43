use crate::running::{SETTING, Setting, expect};
use std::test::Fail;

/// A web server asks a server of advertisements, and answers meanwhile.
const CALLS: &[u8] = b"\
{\"request\":\"r1\",\"machine\":\"web\",\"task\":\"ads call\",\"event\":\"start\",\"time\":250,\"send\":\"m2\"}
{\"request\":\"r1\",\"machine\":\"ads\",\"task\":\"ranking\",\"event\":\"start\",\"time\":60,\"recv\":\"m2\"}
{\"request\":\"r1\",\"machine\":\"ads\",\"task\":\"ranking\",\"event\":\"end\",\"time\":960,\"send\":\"m3\"}
{\"request\":\"r1\",\"machine\":\"web\",\"task\":\"ads call\",\"event\":\"end\",\"time\":1350,\"recv\":\"m3\"}
";

/// The same lines, of which none waits.
const WITHOUT_WAITS: &[u8] = b"\
{\"request\":\"r1\",\"machine\":\"web\",\"task\":\"ads call\",\"event\":\"start\",\"nanos\":250000,\"send\":\"m2\"}
{\"request\":\"r1\",\"machine\":\"ads\",\"task\":\"ranking\",\"event\":\"start\",\"nanos\":60000,\"recv\":\"m2\"}
{\"request\":\"r1\",\"machine\":\"ads\",\"task\":\"ranking\",\"event\":\"end\",\"nanos\":960000,\"send\":\"m3\"}
{\"request\":\"r1\",\"machine\":\"web\",\"task\":\"ads call/2\",\"event\":\"end\",\"nanos\":1350000,\"recv\":\"m3\"}
";

/// A task of another request has the name that the second piece would get.
const NAMESAKE: &[u8] = b"\
{\"request\":\"r2\",\"machine\":\"web\",\"task\":\"ads call/2\",\"event\":\"end\",\"time\":9}
";

/// The lines of both files.
const WITH_NAMESAKE: &[u8] = b"\
{\"request\":\"r1\",\"machine\":\"web\",\"task\":\"ads call\",\"event\":\"start\",\"nanos\":250000,\"send\":\"m2\"}
{\"request\":\"r1\",\"machine\":\"ads\",\"task\":\"ranking\",\"event\":\"start\",\"nanos\":60000,\"recv\":\"m2\"}
{\"request\":\"r1\",\"machine\":\"ads\",\"task\":\"ranking\",\"event\":\"end\",\"nanos\":960000,\"send\":\"m3\"}
{\"request\":\"r1\",\"machine\":\"web\",\"task\":\"ads call/3\",\"event\":\"end\",\"nanos\":1350000,\"recv\":\"m3\"}
{\"request\":\"r2\",\"machine\":\"web\",\"task\":\"ads call/2\",\"event\":\"end\",\"nanos\":9000}
";

#[test]
fn a_receipt_after_a_send_goes_on_as_the_second_piece(rt: HostRuntime) -> Result<(), Fail> {
    let setting = Setting {
        f: CALLS,
        ..SETTING
    };
    expect(&rt, rt.alloc(), setting, 0, WITHOUT_WAITS, b"")
}

#[test]
fn lines_without_waits_stay(rt: HostRuntime) -> Result<(), Fail> {
    let setting = Setting {
        f: WITHOUT_WAITS,
        ..SETTING
    };
    expect(&rt, rt.alloc(), setting, 0, WITHOUT_WAITS, b"")
}

#[test]
fn a_name_of_the_input_is_skipped(rt: HostRuntime) -> Result<(), Fail> {
    let setting = Setting {
        words: &["events", "f", "g"],
        f: CALLS,
        g: NAMESAKE,
        ..SETTING
    };
    expect(&rt, rt.alloc(), setting, 0, WITH_NAMESAKE, b"")
}

#[test]
fn few_bytes_a_call_give_the_same(rt: HostRuntime) -> Result<(), Fail> {
    let setting = Setting {
        f: CALLS,
        most: 7,
        ..SETTING
    };
    expect(&rt, rt.alloc(), setting, 0, WITHOUT_WAITS, b"")
}

/// Control lines of each form, with members that mean nothing.
const COMMANDS: &[u8] = b"\
{\"do\":\"add\",\"more\":1}
 {\"day\":7, \"do\":\"drop\"}

{\"do\":\"keep\",\"days\":3}
{\"do\":\"watch\",\"every\":0}
{\"do\":\"grace\",\"micros\":25}
{\"do\":\"report\"}
{\"do\":\"model\"}
";

/// The same, as they are written.
const PLAIN_COMMANDS: &[u8] = b"\
{\"do\":\"add\"}
{\"do\":\"drop\",\"day\":7}
{\"do\":\"keep\",\"days\":3}
{\"do\":\"watch\",\"every\":0}
{\"do\":\"grace\",\"micros\":25}
{\"do\":\"report\"}
{\"do\":\"model\"}
";

#[test]
fn control_lines_stay(rt: HostRuntime) -> Result<(), Fail> {
    let setting = Setting {
        f: COMMANDS,
        ..SETTING
    };
    expect(&rt, rt.alloc(), setting, 0, PLAIN_COMMANDS, b"")
}
