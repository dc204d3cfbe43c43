use crate::running::{SETTING, Setting, expect};
use std::test::Fail;

/// Two requests of a web server and one that a queue hands over: a call to a database, two that run
/// beside each other, and a span whose parent is missing.
const OTLP: &str =
    r#"{"resourceSpans":[{"resource":{"attributes":[{"key":"service.name","value":{"stringValue":"web"}},{"key":"host.name","value":{"stringValue":"web-1"}}]},"scopeSpans":[{"spans":[{"traceId":"0af7651916cd43dd8448eb211c80319c","spanId":"00000000000000a1","name":"GET /user/17","kind":2,"startTimeUnixNano":"1760000000000000000","endTimeUnixNano":"1760000000009000000"}]}]}]}
{"resourceSpans":[{"resource":{"attributes":[{"key":"service.name","value":{"stringValue":"web"}},{"key":"host.name","value":{"stringValue":"web-1"}}]},"scopeSpans":[{"spans":[{"traceId":"0af7651916cd43dd8448eb211c80319c","spanId":"00000000000000a2","parentSpanId":"00000000000000a1","name":"db/Get","kind":3,"startTimeUnixNano":"1760000000001000000","endTimeUnixNano":"1760000000003000000"}]}]}]}
{"resourceSpans":[{"resource":{"attributes":[{"key":"service.name","value":{"stringValue":"db"}},{"key":"host.name","value":{"stringValue":"db-1"}}]},"scopeSpans":[{"spans":[{"traceId":"0af7651916cd43dd8448eb211c80319c","spanId":"00000000000000b1","parentSpanId":"00000000000000a2","name":"Get","kind":2,"startTimeUnixNano":"1760000000001500000","endTimeUnixNano":"1760000000002500000"}]}]}]}
{"resourceSpans":[{"resource":{"attributes":[{"key":"service.name","value":{"stringValue":"web"}},{"key":"host.name","value":{"stringValue":"web-1"}}]},"scopeSpans":[{"spans":[{"traceId":"0af7651916cd43dd8448eb211c80319c","spanId":"00000000000000a3","parentSpanId":"00000000000000a1","name":"render","kind":1,"startTimeUnixNano":"1760000000004000000","endTimeUnixNano":"1760000000006000000"}]}]}]}
{"resourceSpans":[{"resource":{"attributes":[{"key":"service.name","value":{"stringValue":"web"}},{"key":"host.name","value":{"stringValue":"web-1"}}]},"scopeSpans":[{"spans":[{"traceId":"0af7651916cd43dd8448eb211c80319c","spanId":"00000000000000a4","parentSpanId":"00000000000000a1","name":"render","kind":1,"startTimeUnixNano":"1760000000005000000","endTimeUnixNano":"1760000000008000000"}]}]}]}
{"resourceSpans":[{"resource":{"attributes":[{"key":"service.name","value":{"stringValue":"mail"}},{"key":"host.name","value":{"stringValue":"mail-1"}}]},"scopeSpans":[{"spans":[{"traceId":"0af7651916cd43dd8448eb211c80319c","spanId":"00000000000000c1","parentSpanId":"00000000000000a4","name":"send","kind":5,"startTimeUnixNano":"1760000000008500000","endTimeUnixNano":"1760000000009500000"}]}]}]}
{"resourceSpans":[{"resource":{"attributes":[{"key":"service.name","value":{"stringValue":"web"}},{"key":"host.name","value":{"stringValue":"web-1"}}]},"scopeSpans":[{"spans":[{"traceId":"0af7651916cd43dd8448eb211c80319c","spanId":"00000000000000d1","parentSpanId":"00000000000000ff","name":"tick","kind":1,"startTimeUnixNano":"1760000000020000000","endTimeUnixNano":"1760000000020000000"}]}]}]}
"#;

/// The same by Jaeger.
const JAEGER: &str =
    r#"{"data":[{"traceID":"0af7651916cd43dd8448eb211c80319c","spans":[{"traceID":"0af7651916cd43dd8448eb211c80319c","spanID":"00000000000000a1","operationName":"GET /user/17","processID":"p1","startTime":1760000000000000,"duration":9000,"tags":[{"key":"span.kind","value":"server"}]},
{"traceID":"0af7651916cd43dd8448eb211c80319c","spanID":"00000000000000a2","operationName":"db/Get","processID":"p1","startTime":1760000000001000,"duration":2000,"references":[{"refType":"CHILD_OF","traceID":"0af7651916cd43dd8448eb211c80319c","spanID":"00000000000000a1"}],"tags":[{"key":"span.kind","value":"client"}]},
{"traceID":"0af7651916cd43dd8448eb211c80319c","spanID":"00000000000000b1","operationName":"Get","processID":"p2","startTime":1760000000001500,"duration":1000,"references":[{"refType":"CHILD_OF","traceID":"0af7651916cd43dd8448eb211c80319c","spanID":"00000000000000a2"}],"tags":[{"key":"span.kind","value":"server"}]},
{"traceID":"0af7651916cd43dd8448eb211c80319c","spanID":"00000000000000a3","operationName":"render","processID":"p1","startTime":1760000000004000,"duration":2000,"references":[{"refType":"CHILD_OF","traceID":"0af7651916cd43dd8448eb211c80319c","spanID":"00000000000000a1"}],"tags":[{"key":"span.kind","value":"internal"}]},
{"traceID":"0af7651916cd43dd8448eb211c80319c","spanID":"00000000000000a4","operationName":"render","processID":"p1","startTime":1760000000005000,"duration":3000,"references":[{"refType":"CHILD_OF","traceID":"0af7651916cd43dd8448eb211c80319c","spanID":"00000000000000a1"}],"tags":[{"key":"span.kind","value":"internal"}]},
{"traceID":"0af7651916cd43dd8448eb211c80319c","spanID":"00000000000000c1","operationName":"send","processID":"p3","startTime":1760000000008500,"duration":1000,"references":[{"refType":"FOLLOWS_FROM","traceID":"0af7651916cd43dd8448eb211c80319c","spanID":"00000000000000a4"}]},
{"traceID":"0af7651916cd43dd8448eb211c80319c","spanID":"00000000000000d1","operationName":"tick","processID":"p1","startTime":1760000000020000,"duration":0,"references":[{"refType":"CHILD_OF","traceID":"0af7651916cd43dd8448eb211c80319c","spanID":"00000000000000ff"}],"tags":[{"key":"span.kind","value":"internal"}]}],
"processes":{"p1":{"serviceName":"web","tags":[{"key":"hostname","value":"web-1"}]},"p2":{"serviceName":"db","tags":[{"key":"hostname","value":"db-1"}]},"p3":{"serviceName":"mail","tags":[{"key":"hostname","value":"mail-1"}]}}}]}"#;

/// The same by Zipkin, where the call to the database is one span of both sides.
const ZIPKIN: &str =
    r#"[{"traceId":"0af7651916cd43dd8448eb211c80319c","id":"00000000000000a1","name":"GET /user/17","timestamp":1760000000000000,"duration":9000,"localEndpoint":{"serviceName":"web"},"tags":{"host.name":"web-1"},"kind":"SERVER"},
{"traceId":"0af7651916cd43dd8448eb211c80319c","id":"00000000000000a2","parentId":"00000000000000a1","name":"db/Get","timestamp":1760000000001000,"duration":2000,"localEndpoint":{"serviceName":"web"},"tags":{"host.name":"web-1"},"kind":"CLIENT"},
{"traceId":"0af7651916cd43dd8448eb211c80319c","id":"00000000000000a2","parentId":"00000000000000a1","name":"Get","timestamp":1760000000001500,"duration":1000,"localEndpoint":{"serviceName":"db"},"tags":{"host.name":"db-1"},"kind":"SERVER"},
{"traceId":"0af7651916cd43dd8448eb211c80319c","id":"00000000000000a3","parentId":"00000000000000a1","name":"render","timestamp":1760000000004000,"duration":2000,"localEndpoint":{"serviceName":"web"},"tags":{"host.name":"web-1"}},
{"traceId":"0af7651916cd43dd8448eb211c80319c","id":"00000000000000a4","parentId":"00000000000000a1","name":"render","timestamp":1760000000005000,"duration":3000,"localEndpoint":{"serviceName":"web"},"tags":{"host.name":"web-1"}},
{"traceId":"0af7651916cd43dd8448eb211c80319c","id":"00000000000000c1","parentId":"00000000000000a4","name":"send","timestamp":1760000000008500,"duration":1000,"localEndpoint":{"serviceName":"mail"},"tags":{"host.name":"mail-1"},"kind":"CONSUMER"},
{"traceId":"0af7651916cd43dd8448eb211c80319c","id":"00000000000000d1","parentId":"00000000000000ff","name":"tick","timestamp":1760000000020000,"duration":0,"localEndpoint":{"serviceName":"web"},"tags":{"host.name":"web-1"}}]"#;

/// Their lines.
const LINES: &str =
    r#"{"request":"0af7651916cd43dd8448eb211c80319c","machine":"web-1","task":"web GET /user/17","event":"web GET /user/17 start","nanos":1760000000000000000}
{"request":"0af7651916cd43dd8448eb211c80319c","machine":"web-1","task":"web GET /user/17","event":"web db/Get start","nanos":1760000000001000000,"send":"00000000000000b1>"}
{"request":"0af7651916cd43dd8448eb211c80319c","machine":"db-1","task":"web GET /user/17","event":"db Get start","nanos":1760000000001500000,"recv":"00000000000000b1>"}
{"request":"0af7651916cd43dd8448eb211c80319c","machine":"db-1","task":"web GET /user/17","event":"db Get end","nanos":1760000000002500000,"send":"00000000000000b1<"}
{"request":"0af7651916cd43dd8448eb211c80319c","machine":"web-1","task":"web GET /user/17","event":"web db/Get end","nanos":1760000000003000000,"recv":"00000000000000b1<"}
{"request":"0af7651916cd43dd8448eb211c80319c","machine":"web-1","task":"web GET /user/17","event":"web render forks","nanos":1760000000004000000}
{"request":"0af7651916cd43dd8448eb211c80319c","machine":"web-1","task":"web GET /user/17#1/2","event":"web render joined","nanos":1760000000008000000}
{"request":"0af7651916cd43dd8448eb211c80319c","machine":"web-1","task":"web GET /user/17#1/2","event":"web GET /user/17 end","nanos":1760000000009000000}
{"request":"0af7651916cd43dd8448eb211c80319c","machine":"web-1","task":"web render","event":"web render start","nanos":1760000000004000000}
{"request":"0af7651916cd43dd8448eb211c80319c","machine":"web-1","task":"web render","event":"web render end","nanos":1760000000006000000}
{"request":"0af7651916cd43dd8448eb211c80319c","machine":"web-1","task":"web render#2","event":"web render start","nanos":1760000000005000000}
{"request":"0af7651916cd43dd8448eb211c80319c","machine":"web-1","task":"web render#2","event":"web render end","nanos":1760000000008000000}
{"request":"0af7651916cd43dd8448eb211c80319c.00000000000000d1","machine":"web-1","task":"web tick","event":"web tick start","nanos":1760000000020000000}
{"request":"0af7651916cd43dd8448eb211c80319c.00000000000000d1","machine":"web-1","task":"web tick","event":"web tick end","nanos":1760000000020000000}
{"request":"0af7651916cd43dd8448eb211c80319c.00000000000000c1","machine":"mail-1","task":"mail send","event":"mail send start","nanos":1760000000008500000}
{"request":"0af7651916cd43dd8448eb211c80319c.00000000000000c1","machine":"mail-1","task":"mail send","event":"mail send end","nanos":1760000000009500000}
"#;

/// The request of the tick alone.
const TICK: &str =
    r#"{"request":"0af7651916cd43dd8448eb211c80319c.00000000000000d1","machine":"web-1","task":"web tick","event":"web tick start","nanos":1760000000020000000}
{"request":"0af7651916cd43dd8448eb211c80319c.00000000000000d1","machine":"web-1","task":"web tick","event":"web tick end","nanos":1760000000020000000}
"#;

/// That of the page where a millisecond of overlap does not count.
const GRACED: &str =
    r#"{"request":"0af7651916cd43dd8448eb211c80319c","machine":"web-1","task":"web GET /user/17","event":"web GET /user/17 start","nanos":1760000000000000000}
{"request":"0af7651916cd43dd8448eb211c80319c","machine":"web-1","task":"web GET /user/17","event":"web db/Get start","nanos":1760000000001000000,"send":"00000000000000b1>"}
{"request":"0af7651916cd43dd8448eb211c80319c","machine":"db-1","task":"web GET /user/17","event":"db Get start","nanos":1760000000001500000,"recv":"00000000000000b1>"}
{"request":"0af7651916cd43dd8448eb211c80319c","machine":"db-1","task":"web GET /user/17","event":"db Get end","nanos":1760000000002500000,"send":"00000000000000b1<"}
{"request":"0af7651916cd43dd8448eb211c80319c","machine":"web-1","task":"web GET /user/17","event":"web db/Get end","nanos":1760000000003000000,"recv":"00000000000000b1<"}
{"request":"0af7651916cd43dd8448eb211c80319c","machine":"web-1","task":"web GET /user/17","event":"web render start","nanos":1760000000004000000}
{"request":"0af7651916cd43dd8448eb211c80319c","machine":"web-1","task":"web GET /user/17","event":"web render end","nanos":1760000000006000000}
{"request":"0af7651916cd43dd8448eb211c80319c","machine":"web-1","task":"web GET /user/17","event":"web render#2 start","nanos":1760000000005000000}
{"request":"0af7651916cd43dd8448eb211c80319c","machine":"web-1","task":"web GET /user/17","event":"web render#2 end","nanos":1760000000008000000}
{"request":"0af7651916cd43dd8448eb211c80319c","machine":"web-1","task":"web GET /user/17","event":"web GET /user/17 end","nanos":1760000000009000000}
"#;

const NOTE: &[u8] = b"note: spans whose parent is missing: 1\n";

#[test]
fn the_forms_of_one_trace_give_the_same_lines(rt: HostRuntime) -> Result<(), Fail> {
    let table: [(&[&str], &str); 2] = [(&["otlp", "f"], OTLP), (&["jaeger", "f"], JAEGER)];
    for (words, input) in table {
        let setting = Setting {
            words,
            f: input.as_bytes(),
            ..SETTING
        };
        expect(&rt, rt.alloc(), setting, 0, LINES.as_bytes(), NOTE)?;
    }
    Ok(())
}

#[test]
fn the_servers_half_of_a_shared_span_is_a_call(rt: HostRuntime) -> Result<(), Fail> {
    let alloc = rt.alloc();
    let lines = LINES.replace(alloc, "00000000000000b1", "00000000000000a2s")?;
    let setting = Setting {
        words: &["zipkin", "f"],
        f: ZIPKIN.as_bytes(),
        ..SETTING
    };
    expect(&rt, alloc, setting, 0, lines.as_str().as_bytes(), NOTE)
}

#[test]
fn options_choose_requests_and_overlaps(rt: HostRuntime) -> Result<(), Fail> {
    let table: [(&[&str], &str); 3] = [
        (&["otlp", "--entry", "web tick", "f"], TICK),
        (
            &["otlp", "--entry", "x", "--entry", "web tick", "--fold", "f"],
            TICK,
        ),
        (
            &[
                "otlp",
                "--grace",
                "1000",
                "--entry",
                "web GET /user/17",
                "f",
            ],
            GRACED,
        ),
    ];
    for (words, lines) in table {
        let setting = Setting {
            words,
            f: OTLP.as_bytes(),
            ..SETTING
        };
        expect(&rt, rt.alloc(), setting, 0, lines.as_bytes(), NOTE)?;
    }
    Ok(())
}

/// A span, as OpenTelemetry has it, and another one that says otherwise.
const ONE: &[u8] =
    b"{\"resourceSpans\":[{\"scopeSpans\":[{\"spans\":[{\"traceId\":\"00000000000000000000000000000001\",\"spanId\":\"0000000000000001\",\"name\":\"a\",\"startTimeUnixNano\":1,\"endTimeUnixNano\":2}]}]}]}\n";

const OTHER: &[u8] =
    b"\n{\"resourceSpans\":[{\"scopeSpans\":[{\"spans\":[{\"traceId\":\"00000000000000000000000000000001\",\"spanId\":\"0000000000000001\",\"name\":\"b\",\"startTimeUnixNano\":1,\"endTimeUnixNano\":2}]}]}]}\n";

/// What is refused: the arguments, the file `g`, and the message.
const REFUSED: [(&[&str], &[u8], &[u8]); 13] = [
    (
        &["otlp", "f", "g"],
        OTHER,
        b"file 2: line 2: span id twice in a trace\n",
    ),
    (
        &["otlp", "f", "g"],
        b"{}",
        b"file 2: line 1: missing resourceSpans\n",
    ),
    (&["otlp", "f", "g"], b"\n{\n", b"file 2: line 2: not JSON\n"),
    (
        &["otlp", "g", "f"],
        b"{\"resourceSpans\":[{\"scopeSpans\":[{\"spans\":[{\"traceId\":\"00000000000000000000000000000002\",\"spanId\":\"1\",\"name\":\"a\",\"startTimeUnixNano\":1,\"endTimeUnixNano\":2}]}]}]}\n",
        b"file 1: line 1: bad spanId\n",
    ),
    (
        &["otlp", "f", "g"],
        b"{\"resourceSpans\":[{\"scopeSpans\":[{\"spans\":[{\"traceId\":\"00000000000000000000000000000002\",\"spanId\":\"0000000000000001\",\"startTimeUnixNano\":1,\"endTimeUnixNano\":2}]}]}]}\n",
        b"file 2: line 1: missing name\n",
    ),
    (
        &["otlp", "f", "g"],
        b"{\"resourceSpans\":[{\"scopeSpans\":[{\"spans\":[{\"traceId\":\"00000000000000000000000000000002\",\"spanId\":\"0000000000000001\",\"name\":\"a\",\"startTimeUnixNano\":1,\"endTimeUnixNano\":2,\"kind\":6}]}]}]}\n",
        b"file 2: line 1: bad kind\n",
    ),
    (
        &["otlp", "f", "g"],
        b"{\"resourceSpans\":[{\"scopeSpans\":[{\"spans\":[{\"traceId\":\"00000000000000000000000000000002\",\"spanId\":\"0000000000000001\",\"name\":\"a\",\"startTimeUnixNano\":1,\"endTimeUnixNano\":0}]}]}]}\n",
        b"file 2: line 1: end before start\n",
    ),
    (
        &["otlp", "f", "g"],
        b"{\"resourceSpans\":[{\"scopeSpans\":[{\"spans\":[{\"traceId\":\"00000000000000000000000000000002\",\"spanId\":\"0000000000000001\",\"name\":\"a\",\"startTimeUnixNano\":1,\"endTimeUnixNano\":\"4102444800000000001\"}]}]}]}\n",
        b"file 2: line 1: time out of range\n",
    ),
    (
        &["otlp", "f", "g"],
        b"{\"resourceSpans\":[{\"scopeSpans\":[{\"spans\":[{\"traceId\":\"00000000000000000000000000000002\",\"spanId\":\"0000000000000001\",\"name\":\"a\",\"startTimeUnixNano\":1,\"endTimeUnixNano\":2,\"parentSpanId\":\"0000000000000002\"}]}]}]}\n{\"resourceSpans\":[{\"scopeSpans\":[{\"spans\":[{\"traceId\":\"00000000000000000000000000000002\",\"spanId\":\"0000000000000002\",\"name\":\"a\",\"startTimeUnixNano\":1,\"endTimeUnixNano\":2,\"parentSpanId\":\"0000000000000001\"}]}]}]}\n",
        b"file 2: line 1: parents form a circle\n",
    ),
    (
        &["zipkin", "g"],
        b"[{\"traceId\":\"1\",\"id\":\"1\",\"timestamp\":1},{\"traceId\":\"1\",\"id\":\"2\"}]",
        b"file 1: span 2: missing timestamp\n",
    ),
    (&["zipkin", "g"], b"{}", b"file 1: span 1: not an array\n"),
    (&["jaeger", "g"], b"{", b"file 1: span 1: not JSON\n"),
    (&["jaeger", "g"], b"{}", b"file 1: span 1: missing data\n"),
];

#[test]
fn the_first_span_that_is_refused_is_told(rt: HostRuntime) -> Result<(), Fail> {
    for (words, g, message) in REFUSED {
        let setting = Setting {
            words,
            f: ONE,
            g,
            ..SETTING
        };
        expect(&rt, rt.alloc(), setting, 3, b"", message)?;
    }
    Ok(())
}

#[test]
fn an_exact_repetition_counts_once(rt: HostRuntime) -> Result<(), Fail> {
    let once =
        b"{\"request\":\"00000000000000000000000000000001\",\"machine\":\"unknown_service\",\"task\":\"unknown_service a\",\"event\":\"unknown_service a start\",\"nanos\":1}\n{\"request\":\"00000000000000000000000000000001\",\"machine\":\"unknown_service\",\"task\":\"unknown_service a\",\"event\":\"unknown_service a end\",\"nanos\":2}\n";
    let setting = Setting {
        words: &["otlp", "f", "f"],
        f: ONE,
        ..SETTING
    };
    expect(&rt, rt.alloc(), setting, 0, once, b"")
}
