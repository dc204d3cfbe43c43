use crate::rows::{Reader, expect};
use std::test::Fail;

const SPANS: [(&str, &str); 2] = [
    (
        "\
         [{\"traceId\":\"1A\",\"id\":\"b\",\"timestamp\":5,\"duration\":7,\
         \"localEndpoint\":{\"serviceName\":\"s\",\"ipv4\":\"10.0.0.1\"},\"name\":\"n\",\
         \"kind\":\"CLIENT\",\"parentId\":\"a\"},{\"traceId\":\"1A\",\"id\":\"b\",\
         \"timestamp\":5,\"duration\":7,\"localEndpoint\":{\"serviceName\":\"t\"},\
         \"name\":\"n\",\"kind\":\"SERVER\",\"parentId\":\"a\",\"shared\":true},\
         {\"traceId\":\"1A\",\"id\":\"c\",\"timestamp\":5,\"duration\":7,\
         \"localEndpoint\":{\"serviceName\":\"s\",\"ipv4\":\"10.0.0.1\"},\"name\":\"n\",\
         \"parentId\":\"B\"},{\"traceId\":\"1A\",\"id\":\"d\",\"timestamp\":5,\
         \"duration\":7,\"localEndpoint\":{\"serviceName\":\"s\",\"ipv4\":\"10.0.0.1\"},\
         \"name\":\"n\",\"kind\":\"SERVER\"},{\"traceId\":\"2\",\"id\":\"b\",\
         \"timestamp\":5,\"duration\":7,\"localEndpoint\":{\"serviceName\":\"s\",\
         \"ipv4\":\"10.0.0.1\"},\"name\":\"n\",\"kind\":\"SERVER\"},{\"traceId\":\"2\",\
         \"id\":\"e\",\"timestamp\":5,\"duration\":7,\
         \"localEndpoint\":{\"serviceName\":\"s\",\"ipv4\":\"10.0.0.1\"},\"name\":\"n\",\
         \"parentId\":\"b\"}]",
        "\
         1 \"1a\" \"b\" Some(\"a\") \"s\" \"10.0.0.1\" \"n\" Client 5000 12000\n\
         2 \"1a\" \"bs\" Some(\"b\") \"t\" \"t\" \"n\" Server 5000 12000\n\
         3 \"1a\" \"c\" Some(\"bs\") \"s\" \"10.0.0.1\" \"n\" Internal 5000 12000\n\
         4 \"1a\" \"d\" None \"s\" \"10.0.0.1\" \"n\" Server 5000 12000\n\
         5 \"2\" \"b\" None \"s\" \"10.0.0.1\" \"n\" Server 5000 12000\n\
         6 \"2\" \"e\" Some(\"b\") \"s\" \"10.0.0.1\" \"n\" Internal 5000 12000\n",
    ),
    (
        "\
         [{\"traceId\":\"1A\",\"id\":\"b\",\"timestamp\":5,\"duration\":7,\
         \"localEndpoint\":{\"serviceName\":\"s\",\"ipv4\":\"10.0.0.1\"},\"name\":\"n\"},\
         {\"traceId\":\"1A\",\"id\":\"b\",\"timestamp\":5,\"duration\":7,\"name\":\"n\"},\
         {\"traceId\":\"1A\",\"id\":\"b\",\"timestamp\":5,\"duration\":7,\
         \"localEndpoint\":{\"serviceName\":\"s\",\"ipv4\":\"10.0.0.1\"},\"name\":\"n\",\
         \"tags\":{\"host.name\":\"h\"}},{\"traceId\":\"1A\",\"id\":\"b\",\"timestamp\":5,\
         \"localEndpoint\":{\"serviceName\":\"s\",\"ipv4\":\"10.0.0.1\"}},\
         {\"traceId\":\"1A\",\"id\":\"b\",\"timestamp\":5,\"duration\":7,\
         \"localEndpoint\":{\"serviceName\":\"s\"},\"name\":\"n\"}]",
        "\
         1 \"1a\" \"b\" None \"s\" \"10.0.0.1\" \"n\" Internal 5000 12000\n\
         2 \"1a\" \"b\" None \"unknown_service\" \"unknown_service\" \"n\" Internal 5000 \
         12000\n\
         3 \"1a\" \"b\" None \"s\" \"h\" \"n\" Internal 5000 12000\n\
         4 \"1a\" \"b\" None \"s\" \"10.0.0.1\" \"unknown\" Internal 5000 5000\n\
         5 \"1a\" \"b\" None \"s\" \"s\" \"n\" Internal 5000 12000\n",
    ),
];

const FAULTS: [(&str, &str); 7] = [
    ("[", "1: not JSON\n"),
    ("{}", "1: not an array\n"),
    (
        "\
         [{\"traceId\":\"1A\",\"id\":\"b\",\"timestamp\":5,\"duration\":7,\
         \"localEndpoint\":{\"serviceName\":\"s\",\"ipv4\":\"10.0.0.1\"},\"name\":\"n\"},\
         {\"traceId\":\"1A\",\"id\":\"b\",\"duration\":7,\
         \"localEndpoint\":{\"serviceName\":\"s\",\"ipv4\":\"10.0.0.1\"},\"name\":\"n\"}]",
        "2: missing timestamp\n",
    ),
    (
        "\
         [{\"traceId\":\"1A\",\"id\":\"b\",\"timestamp\":5,\"duration\":7,\
         \"localEndpoint\":{\"serviceName\":\"s\",\"ipv4\":\"10.0.0.1\"},\"name\":\"n\"},\
         {\"traceId\":\"1A\",\"id\":\"0\",\"timestamp\":5,\"duration\":7,\
         \"localEndpoint\":{\"serviceName\":\"s\",\"ipv4\":\"10.0.0.1\"},\"name\":\"n\"}]",
        "2: bad id\n",
    ),
    (
        "\
         [{\"traceId\":\"1A\",\"id\":\"b\",\"timestamp\":4102444800000000,\"duration\":7,\
         \"localEndpoint\":{\"serviceName\":\"s\",\"ipv4\":\"10.0.0.1\"},\"name\":\"n\"}]",
        "1: time out of range\n",
    ),
    (
        "\
         [{\"traceId\":\"1A\",\"id\":\"b\",\"timestamp\":5,\"duration\":-1,\
         \"localEndpoint\":{\"serviceName\":\"s\",\"ipv4\":\"10.0.0.1\"},\"name\":\"n\"}]",
        "1: bad duration\n",
    ),
    (
        "\
         [{\"traceId\":\"1A\",\"id\":\"b\",\"timestamp\":5,\"duration\":7,\
         \"localEndpoint\":{\"serviceName\":\"s\",\"ipv4\":\"10.0.0.1\"},\"name\":\"n\"},3]",
        "2: missing traceId\n",
    ),
];

#[test]
fn halves_of_shared_spans_are_told_apart(rt: HostRuntime) -> Result<(), Fail> {
    for (input, rows) in SPANS {
        expect(&rt, rt.alloc(), Reader::Zipkin, input, rows)?;
    }
    Ok(())
}

#[test]
fn the_first_fault_is_told(rt: HostRuntime) -> Result<(), Fail> {
    for (input, rows) in FAULTS {
        expect(&rt, rt.alloc(), Reader::Zipkin, input, rows)?;
    }
    Ok(())
}
