use crate::rows::{Row, made, make_row, print};
use span_lines::fold_names;
use span_requests::SpanFault;
use span_types::SpanKind;

/// Three requests of one trace, of which one begins with a span that misses its parent.
fn requests() -> [Row; 3] {
    [
        make_row(["t", "a", ""], ["s", "h@", "n"], SpanKind::Internal, [5, 6]),
        make_row(
            ["t", "c", "gone"],
            ["s", "h@", "n"],
            SpanKind::Internal,
            [1, 2],
        ),
        make_row(
            ["t", "b", ""],
            ["s", "h%40", "n 12345678"],
            SpanKind::Consumer,
            [0, 9],
        ),
    ]
}

#[test]
fn later_requests_of_a_trace_have_the_ids_of_their_entries(
    rt: HostRuntime,
) -> Result<(), SpanFault> {
    let lines = r#"{"request":"t","machine":"h%40","task":"s n","event":"s n start","nanos":5}
{"request":"t","machine":"h%40","task":"s n","event":"s n end","nanos":6}
{"request":"t.c","machine":"h%40","task":"s n","event":"s n start","nanos":1}
{"request":"t.c","machine":"h%40","task":"s n","event":"s n end","nanos":2}
{"request":"t.b","machine":"h%2540","task":"s n 12345678","event":"s n 12345678 start","nanos":0}
{"request":"t.b","machine":"h%2540","task":"s n 12345678","event":"s n 12345678 end","nanos":9}
"#;
    let printed = print(rt.alloc(), &requests(), 0, None)?;
    assert_eq!(rt; printed.text.as_slice(), lines.as_bytes());
    assert_eq!(rt; printed.missing, 1);
    Ok(())
}

#[test]
fn requests_of_one_kind_keep_their_names(rt: HostRuntime) -> Result<(), SpanFault> {
    let lines = r#"{"request":"t","machine":"h%40","task":"s n","event":"s n start","nanos":5}
{"request":"t","machine":"h%40","task":"s n","event":"s n end","nanos":6}
{"request":"t.c","machine":"h%40","task":"s n","event":"s n start","nanos":1}
{"request":"t.c","machine":"h%40","task":"s n","event":"s n end","nanos":2}
"#;
    let printed = print(rt.alloc(), &requests(), 0, Some("s n"))?;
    assert_eq!(rt; printed.text.as_slice(), lines.as_bytes());
    assert_eq!(rt; printed.missing, 1);
    Ok(())
}

#[test]
fn parents_in_a_circle_are_refused(rt: HostRuntime) -> Result<(), SpanFault> {
    let rows = [
        make_row(["t", "a", "b"], ["s", "h", "n"], SpanKind::Internal, [0, 9]),
        make_row(["t", "b", "a"], ["s", "h", "n"], SpanKind::Internal, [1, 8]),
    ];
    match print(rt.alloc(), &rows, 0, None) {
        Ok(_) => assert!(rt; false),
        Err(fault) => assert_eq!(rt; fault, SpanFault::Circle { span: 0 }),
    }
    Ok(())
}

#[test]
fn names_are_folded(rt: HostRuntime) -> Result<(), SpanFault> {
    let mut spans = made(rt.alloc(), &requests())?;
    fold_names(rt.alloc(), &mut spans)?;
    assert_eq!(rt; spans[1].name.as_str(), "n");
    assert_eq!(rt; spans[2].name.as_str(), "n {}");
    Ok(())
}
