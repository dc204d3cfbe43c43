use crate::rows::{Row, make_row, print};
use span_requests::SpanFault;
use span_types::SpanKind;

#[test]
fn a_client_sends_to_its_first_call_and_hears_the_last(rt: HostRuntime) -> Result<(), SpanFault> {
    let rows = [
        make_row(
            ["t", "a", ""],
            ["web", "h1", "GET /"],
            SpanKind::Server,
            [1000, 2000],
        ),
        make_row(
            ["t", "b", "a"],
            ["web", "h1", "call"],
            SpanKind::Client,
            [1100, 1800],
        ),
        make_row(
            ["t", "c", "b"],
            ["api", "h2", "serve"],
            SpanKind::Server,
            [1150, 1700],
        ),
        make_row(
            ["t", "d", "b"],
            ["api", "h3", "serve"],
            SpanKind::Server,
            [1200, 1790],
        ),
    ];
    let lines =
        r#"{"request":"t","machine":"h1","task":"web GET /","event":"web GET / start","nanos":1000}
{"request":"t","machine":"h1","task":"web GET /","event":"web call start","nanos":1100,"send":"c>"}
{"request":"t","machine":"h2","task":"web GET /","event":"api serve forks","nanos":1150}
{"request":"t","machine":"h3","task":"web GET /#1/2","event":"api serve joined","nanos":1790}
{"request":"t","machine":"h1","task":"web GET /#1/2","event":"web call end","nanos":1800,"recv":"d<"}
{"request":"t","machine":"h1","task":"web GET /#1/2","event":"web GET / end","nanos":2000}
{"request":"t","machine":"h2","task":"api serve","event":"api serve start","nanos":1150,"recv":"c>"}
{"request":"t","machine":"h2","task":"api serve","event":"api serve end","nanos":1700}
{"request":"t","machine":"h3","task":"api serve#2","event":"api serve start","nanos":1200}
{"request":"t","machine":"h3","task":"api serve#2","event":"api serve end","nanos":1790,"send":"d<"}
"#;
    let printed = print(rt.alloc(), &rows, 0, None)?;
    assert_eq!(rt; printed.text.as_slice(), lines.as_bytes());
    Ok(())
}

/// Calls that overlap in one request and not in the other.
fn overlapping() -> [Row; 6] {
    [
        make_row(
            ["t", "a", ""],
            ["web", "h", "GET /"],
            SpanKind::Server,
            [0, 100],
        ),
        make_row(
            ["t", "b", "a"],
            ["web", "h", "x"],
            SpanKind::Internal,
            [10, 40],
        ),
        make_row(
            ["t", "c", "a"],
            ["web", "h", "y"],
            SpanKind::Internal,
            [30, 60],
        ),
        make_row(
            ["u", "a", ""],
            ["web", "h", "GET /"],
            SpanKind::Server,
            [200, 300],
        ),
        make_row(
            ["u", "b", "a"],
            ["web", "h", "x"],
            SpanKind::Internal,
            [210, 220],
        ),
        make_row(
            ["u", "c", "a"],
            ["web", "h", "y"],
            SpanKind::Internal,
            [230, 340],
        ),
    ]
}

#[test]
fn calls_that_overlap_are_forked_in_each_request(rt: HostRuntime) -> Result<(), SpanFault> {
    let lines =
        r#"{"request":"t","machine":"h","task":"web GET /","event":"web GET / start","nanos":0}
{"request":"t","machine":"h","task":"web GET /","event":"web x forks","nanos":10}
{"request":"t","machine":"h","task":"web GET /#1/2","event":"web x joined","nanos":60}
{"request":"t","machine":"h","task":"web GET /#1/2","event":"web GET / end","nanos":100}
{"request":"t","machine":"h","task":"web x","event":"web x start","nanos":10}
{"request":"t","machine":"h","task":"web x","event":"web x end","nanos":40}
{"request":"t","machine":"h","task":"web y","event":"web y start","nanos":30}
{"request":"t","machine":"h","task":"web y","event":"web y end","nanos":60}
{"request":"u","machine":"h","task":"web GET /","event":"web GET / start","nanos":200}
{"request":"u","machine":"h","task":"web GET /","event":"web x forks","nanos":210}
{"request":"u","machine":"h","task":"web GET /#1/2.1","event":"web x joined","nanos":220}
{"request":"u","machine":"h","task":"web GET /#1/2.1","event":"web x forks","nanos":230}
{"request":"u","machine":"h","task":"web GET /#1/2","event":"web x joined","nanos":300}
{"request":"u","machine":"h","task":"web GET /#1/2","event":"web GET / end","nanos":300}
{"request":"u","machine":"h","task":"web x","event":"web x start","nanos":210}
{"request":"u","machine":"h","task":"web x","event":"web x end","nanos":220}
{"request":"u","machine":"h","task":"web y","event":"web y start","nanos":230}
{"request":"u","machine":"h","task":"web y","event":"web y end","nanos":340}
"#;
    let printed = print(rt.alloc(), &overlapping(), 0, None)?;
    assert_eq!(rt; printed.text.as_slice(), lines.as_bytes());
    assert_eq!(rt; printed.long, 0);
    Ok(())
}

#[test]
fn calls_that_overlap_within_the_grace_are_not_forked(rt: HostRuntime) -> Result<(), SpanFault> {
    let lines =
        r#"{"request":"t","machine":"h","task":"web GET /","event":"web GET / start","nanos":0}
{"request":"t","machine":"h","task":"web GET /","event":"web x start","nanos":10}
{"request":"t","machine":"h","task":"web GET /","event":"web x end","nanos":40}
{"request":"t","machine":"h","task":"web GET /","event":"web y forks","nanos":30}
{"request":"t","machine":"h","task":"web GET /#1/2","event":"web y joined","nanos":60}
{"request":"t","machine":"h","task":"web GET /#1/2","event":"web GET / end","nanos":100}
{"request":"t","machine":"h","task":"web y","event":"web y start","nanos":30}
{"request":"t","machine":"h","task":"web y","event":"web y end","nanos":60}
{"request":"u","machine":"h","task":"web GET /","event":"web GET / start","nanos":200}
{"request":"u","machine":"h","task":"web GET /","event":"web x start","nanos":210}
{"request":"u","machine":"h","task":"web GET /","event":"web x end","nanos":220}
{"request":"u","machine":"h","task":"web GET /","event":"web y forks","nanos":230}
{"request":"u","machine":"h","task":"web GET /#1/2","event":"web y joined","nanos":300}
{"request":"u","machine":"h","task":"web GET /#1/2","event":"web GET / end","nanos":300}
{"request":"u","machine":"h","task":"web y","event":"web y start","nanos":230}
{"request":"u","machine":"h","task":"web y","event":"web y end","nanos":340}
"#;
    let printed = print(rt.alloc(), &overlapping(), 10, None)?;
    assert_eq!(rt; printed.text.as_slice(), lines.as_bytes());
    Ok(())
}
