use crate::rows::{Reader, expect};
use std::test::Fail;

const SPANS: [(&str, &str); 2] = [
    (
        "\
         {\"data\":[{\"traceID\":\"1a\",\"spans\":[{\"traceID\":\"1A\",\"spanID\":\"b\",\
         \"operationName\":\"op\",\"startTime\":5,\"duration\":7,\"processID\":\"p1\",\
         \"tags\":[{\"key\":\"span.kind\",\"type\":\"string\",\"value\":\"client\"}]},\
         {\"traceID\":\"1A\",\"spanID\":\"C\",\"operationName\":\"op\",\"startTime\":5,\
         \"duration\":7,\"processID\":\"p1\",\"tags\":[{\"key\":\"span.kind\",\
         \"type\":\"string\",\"value\":\"client\"}],\"references\":[\
         {\"refType\":\"CHILD_OF\",\"traceID\":\"2b\",\"spanID\":\"d\"},\
         {\"refType\":\"FOLLOWS_FROM\",\"traceID\":\"1a\",\"spanID\":\"e\"},\
         {\"refType\":\"CHILD_OF\",\"traceID\":\"1A\",\"spanID\":\"F\"}]},\
         {\"traceID\":\"1A\",\"spanID\":\"d\",\"operationName\":\"op\",\"startTime\":5,\
         \"duration\":7,\"processID\":\"p1\",\"tags\":[{\"key\":\"span.kind\",\
         \"type\":\"string\",\"value\":\"client\"}],\"references\":[\
         {\"refType\":\"FOLLOWS_FROM\",\"traceID\":\"1a\",\"spanID\":\"e\"}]},\
         {\"traceID\":\"1A\",\"spanID\":\"e\",\"operationName\":\"op\",\"startTime\":5,\
         \"duration\":7,\"processID\":\"p1\",\"tags\":[{\"key\":\"span.kind\",\
         \"type\":\"string\",\"value\":\"client\"}],\"references\":[\
         {\"refType\":\"CHILD_OF\",\"traceID\":\"2b\",\"spanID\":\"d\"}]},\
         {\"traceID\":\"1A\",\"spanID\":\"f\",\"operationName\":\"op\",\"startTime\":5,\
         \"duration\":7,\"processID\":\"p1\",\"tags\":[]}],\
         \"processes\":{\"p1\":{\"serviceName\":\"s\",\"tags\":[{\"key\":\"ip\",\
         \"type\":\"string\",\"value\":\"10.0.0.1\"}]}}}]}",
        "\
         1 \"1a\" \"b\" None \"s\" \"10.0.0.1\" \"op\" Client 5000 12000\n\
         2 \"1a\" \"c\" Some(\"f\") \"s\" \"10.0.0.1\" \"op\" Client 5000 12000\n\
         3 \"1a\" \"d\" Some(\"e\") \"s\" \"10.0.0.1\" \"op\" Consumer 5000 12000\n\
         4 \"1a\" \"e\" None \"s\" \"10.0.0.1\" \"op\" Client 5000 12000\n\
         5 \"1a\" \"f\" None \"s\" \"10.0.0.1\" \"op\" Unspecified 5000 12000\n",
    ),
    (
        "\
         {\"data\":[{\"traceID\":\"1a\",\"spans\":[{\"traceID\":\"1A\",\"spanID\":\"b\",\
         \"operationName\":\"op\",\"startTime\":5,\"duration\":7,\"processID\":\"p1\",\
         \"tags\":[{\"key\":\"span.kind\",\"type\":\"string\",\"value\":\"client\"}]},\
         {\"traceID\":\"1A\",\"spanID\":\"b\",\"operationName\":\"op\",\"startTime\":5,\
         \"duration\":7,\"processID\":\"p2\",\"tags\":[{\"key\":\"span.kind\",\
         \"type\":\"string\",\"value\":\"client\"}]},{\"traceID\":\"1A\",\"spanID\":\"b\",\
         \"operationName\":\"op\",\"startTime\":5,\"duration\":7,\"processID\":\"p3\",\
         \"tags\":[{\"key\":\"span.kind\",\"type\":\"string\",\"value\":\"client\"}]}],\
         \"processes\":{\"p1\":{\"serviceName\":\"s\"},\"p2\":{\"serviceName\":\"s\",\
         \"tags\":[{\"key\":\"ip\",\"value\":\"i\"},{\"key\":\"hostname\",\
         \"value\":\"h\"}]},\"p3\":{\"serviceName\":\"s\",\"tags\":[{\"key\":\"ip\",\
         \"value\":\"i\"}]}}}]}",
        "\
         1 \"1a\" \"b\" None \"s\" \"s\" \"op\" Client 5000 12000\n\
         2 \"1a\" \"b\" None \"s\" \"h\" \"op\" Client 5000 12000\n\
         3 \"1a\" \"b\" None \"s\" \"i\" \"op\" Client 5000 12000\n",
    ),
];

const FAULTS: [(&str, &str); 12] = [
    ("{\"data\":[", "1: not JSON\n"),
    ("{}", "1: missing data\n"),
    ("{\"data\":3}", "1: bad data\n"),
    (
        "\
         {\"data\":[{\"traceID\":\"1a\",\"spans\":[{\"traceID\":\"1A\",\"spanID\":\"b\",\
         \"operationName\":\"op\",\"startTime\":5,\"duration\":7,\"processID\":\"p1\",\
         \"tags\":[{\"key\":\"span.kind\",\"type\":\"string\",\"value\":\"client\"}]},\
         {\"traceID\":\"1A\",\"spanID\":\"b\",\"operationName\":\"op\",\"startTime\":5,\
         \"duration\":7,\"processID\":\"p9\",\"tags\":[{\"key\":\"span.kind\",\
         \"type\":\"string\",\"value\":\"client\"}]}],\
         \"processes\":{\"p1\":{\"serviceName\":\"s\",\"tags\":[{\"key\":\"ip\",\
         \"type\":\"string\",\"value\":\"10.0.0.1\"}]}}}]}",
        "2: bad processID\n",
    ),
    (
        "\
         {\"data\":[{\"spans\":[{\"traceID\":\"1A\",\"spanID\":\"b\",\
         \"operationName\":\"op\",\"startTime\":5,\"duration\":7,\"processID\":\"p1\",\
         \"tags\":[{\"key\":\"span.kind\",\"type\":\"string\",\"value\":\"client\"}]}]}]}",
        "1: missing processes\n",
    ),
    ("{\"data\":[{\"processes\":{}}]}", "1: missing spans\n"),
    (
        "\
         {\"data\":[{\"traceID\":\"1a\",\"spans\":[{\"traceID\":\"1A\",\"spanID\":\"b\",\
         \"operationName\":\"op\",\"startTime\":5,\"duration\":7,\"processID\":\"p1\",\
         \"tags\":[{\"key\":\"span.kind\",\"type\":\"string\",\"value\":\"client\"}]},\
         {\"traceID\":\"1A\",\"spanID\":\"0\",\"operationName\":\"op\",\"startTime\":5,\
         \"duration\":7,\"processID\":\"p1\",\"tags\":[{\"key\":\"span.kind\",\
         \"type\":\"string\",\"value\":\"client\"}]}],\
         \"processes\":{\"p1\":{\"serviceName\":\"s\",\"tags\":[{\"key\":\"ip\",\
         \"type\":\"string\",\"value\":\"10.0.0.1\"}]}}}]}",
        "2: bad spanID\n",
    ),
    (
        "\
         {\"data\":[{\"traceID\":\"1a\",\"spans\":[{\"traceID\":\"1A\",\
         \"spanID\":\"11111111111111111\",\"operationName\":\"op\",\"startTime\":5,\
         \"duration\":7,\"processID\":\"p1\",\"tags\":[{\"key\":\"span.kind\",\
         \"type\":\"string\",\"value\":\"client\"}]}],\
         \"processes\":{\"p1\":{\"serviceName\":\"s\",\"tags\":[{\"key\":\"ip\",\
         \"type\":\"string\",\"value\":\"10.0.0.1\"}]}}}]}",
        "1: bad spanID\n",
    ),
    (
        "\
         {\"data\":[{\"traceID\":\"1a\",\"spans\":[{\"traceID\":\"1A\",\"spanID\":\"b\",\
         \"operationName\":\"op\",\"startTime\":5,\"duration\":7,\"processID\":\"p1\",\
         \"tags\":[{\"key\":\"span.kind\",\"type\":\"string\",\"value\":\"client\"}]},\
         {\"traceID\":\"1A\",\"spanID\":\"b\",\"operationName\":\"op\",\"startTime\":5,\
         \"processID\":\"p1\",\"tags\":[{\"key\":\"span.kind\",\"type\":\"string\",\
         \"value\":\"client\"}]}],\"processes\":{\"p1\":{\"serviceName\":\"s\",\"tags\":[\
         {\"key\":\"ip\",\"type\":\"string\",\"value\":\"10.0.0.1\"}]}}}]}",
        "2: missing duration\n",
    ),
    (
        "\
         {\"data\":[{\"traceID\":\"1a\",\"spans\":[{\"traceID\":\"1A\",\"spanID\":\"b\",\
         \"operationName\":\"op\",\"startTime\":4102444800000000,\"duration\":7,\
         \"processID\":\"p1\",\"tags\":[{\"key\":\"span.kind\",\"type\":\"string\",\
         \"value\":\"client\"}]}],\"processes\":{\"p1\":{\"serviceName\":\"s\",\"tags\":[\
         {\"key\":\"ip\",\"type\":\"string\",\"value\":\"10.0.0.1\"}]}}}]}",
        "1: time out of range\n",
    ),
    (
        "\
         {\"data\":[{\"traceID\":\"1a\",\"spans\":[{\"traceID\":\"1A\",\"spanID\":\"b\",\
         \"operationName\":\"op\",\"startTime\":5,\"duration\":-1,\"processID\":\"p1\",\
         \"tags\":[{\"key\":\"span.kind\",\"type\":\"string\",\"value\":\"client\"}]}],\
         \"processes\":{\"p1\":{\"serviceName\":\"s\",\"tags\":[{\"key\":\"ip\",\
         \"type\":\"string\",\"value\":\"10.0.0.1\"}]}}}]}",
        "1: bad duration\n",
    ),
    (
        "\
         {\"data\":[{\"traceID\":\"1a\",\"spans\":[{\"traceID\":\"1A\",\"spanID\":\"b\",\
         \"startTime\":5,\"duration\":7,\"processID\":\"p1\",\"tags\":[\
         {\"key\":\"span.kind\",\"type\":\"string\",\"value\":\"client\"}]}],\
         \"processes\":{\"p1\":{\"serviceName\":\"s\",\"tags\":[{\"key\":\"ip\",\
         \"type\":\"string\",\"value\":\"10.0.0.1\"}]}}}]}",
        "1: missing operationName\n",
    ),
];

#[test]
fn spans_have_what_their_traces_say(rt: HostRuntime) -> Result<(), Fail> {
    for (input, rows) in SPANS {
        expect(&rt, rt.alloc(), Reader::Jaeger, input, rows)?;
    }
    Ok(())
}

#[test]
fn the_first_fault_is_told(rt: HostRuntime) -> Result<(), Fail> {
    for (input, rows) in FAULTS {
        expect(&rt, rt.alloc(), Reader::Jaeger, input, rows)?;
    }
    Ok(())
}
