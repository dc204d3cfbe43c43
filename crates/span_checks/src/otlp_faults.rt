use crate::rows::{Reader, expect};
use std::test::Fail;

const FAULTS: [(&str, &str); 18] = [
    (
        "\
         {\"resourceSpans\":[{\"scopeSpans\":[{\"spans\":[\
         {\"traceId\":\"0af7651916cd43dd8448eb211c80319c\",\"spanId\":\"b7ad6b7169203331\",\
         \"name\":\"x\",\"startTimeUnixNano\":\"1000\",\
         \"endTimeUnixNano\":\"2000\"}]}]}]}\n\
         \n\
         {\"resourceSpans\":[\n\
         {\"x\"",
        "3: not JSON\n",
    ),
    (
        "\
         {\"resourceSpans\":[{\"scopeSpans\":[{\"spans\":[\
         {\"traceId\":\"0af7651916cd43dd8448eb211c80319c\",\"spanId\":\"b7ad6b7169203331\",\
         \"name\":\"x\",\"startTimeUnixNano\":\"1000\",\
         \"endTimeUnixNano\":\"2000\"}]}]}]}\n\
         \n\
         {}\n\
         {\"x\"",
        "3: missing resourceSpans\n",
    ),
    (
        "\
         {\"resourceSpans\":[{\"scopeSpans\":[{\"spans\":[\
         {\"traceId\":\"0af7651916cd43dd8448eb211c80319c\",\"spanId\":\"b7ad6b7169203331\",\
         \"name\":\"x\",\"startTimeUnixNano\":\"1000\",\
         \"endTimeUnixNano\":\"2000\"}]}]}]}\n\
         \n\
         {\"resourceSpans\":null}\n\
         {\"x\"",
        "3: missing resourceSpans\n",
    ),
    (
        "\
         {\"resourceSpans\":[{\"scopeSpans\":[{\"spans\":[\
         {\"traceId\":\"0af7651916cd43dd8448eb211c80319c\",\"spanId\":\"b7ad6b7169203331\",\
         \"name\":\"x\",\"startTimeUnixNano\":\"1000\",\
         \"endTimeUnixNano\":\"2000\"}]}]}]}\n\
         \n\
         {\"resourceSpans\":[{\"scopeSpans\":[{\"spans\":[\
         {\"traceId\":\"0af7651916cd43dd8448eb211c80319c\",\"spanId\":\"b7ad6b7169203331\",\
         \"name\":\"x\",\"startTimeUnixNano\":\"1000\",\"endTimeUnixNano\":\"2000\",\
         \"kind\":6}]}]}]}\n\
         {\"x\"",
        "3: bad kind\n",
    ),
    (
        "\
         {\"resourceSpans\":[{\"scopeSpans\":[{\"spans\":[\
         {\"traceId\":\"0af7651916cd43dd8448eb211c80319c\",\"spanId\":\"b7ad6b7169203331\",\
         \"name\":\"x\",\"startTimeUnixNano\":\"1000\",\
         \"endTimeUnixNano\":\"2000\"}]}]}]}\n\
         \n\
         {\"resourceSpans\":[{\"scopeSpans\":[{\"spans\":[\
         {\"traceId\":\"00000000000000000000000000000000\",\"spanId\":\"b7ad6b7169203331\",\
         \"name\":\"x\",\"startTimeUnixNano\":\"1000\",\
         \"endTimeUnixNano\":\"2000\"}]}]}]}\n\
         {\"x\"",
        "3: bad traceId\n",
    ),
    (
        "\
         {\"resourceSpans\":[{\"scopeSpans\":[{\"spans\":[\
         {\"traceId\":\"0af7651916cd43dd8448eb211c80319c\",\"spanId\":\"b7ad6b7169203331\",\
         \"name\":\"x\",\"startTimeUnixNano\":\"1000\",\
         \"endTimeUnixNano\":\"2000\"}]}]}]}\n\
         \n\
         {\"resourceSpans\":[{\"scopeSpans\":[{\"spans\":[\
         {\"traceId\":\"af7651916cd43dd8448eb211c80319c\",\"spanId\":\"b7ad6b7169203331\",\
         \"name\":\"x\",\"startTimeUnixNano\":\"1000\",\
         \"endTimeUnixNano\":\"2000\"}]}]}]}\n\
         {\"x\"",
        "3: bad traceId\n",
    ),
    (
        "\
         {\"resourceSpans\":[{\"scopeSpans\":[{\"spans\":[\
         {\"traceId\":\"0af7651916cd43dd8448eb211c80319c\",\"spanId\":\"b7ad6b7169203331\",\
         \"name\":\"x\",\"startTimeUnixNano\":\"1000\",\
         \"endTimeUnixNano\":\"2000\"}]}]}]}\n\
         \n\
         {\"resourceSpans\":[{\"scopeSpans\":[{\"spans\":[\
         {\"traceId\":\"0af7651916cd43dd8448eb211c80319c\",\"spanId\":\"b7ad6b716920333g\",\
         \"name\":\"x\",\"startTimeUnixNano\":\"1000\",\
         \"endTimeUnixNano\":\"2000\"}]}]}]}\n\
         {\"x\"",
        "3: bad spanId\n",
    ),
    (
        "\
         {\"resourceSpans\":[{\"scopeSpans\":[{\"spans\":[\
         {\"traceId\":\"0af7651916cd43dd8448eb211c80319c\",\"spanId\":\"b7ad6b7169203331\",\
         \"name\":\"x\",\"startTimeUnixNano\":\"1000\",\
         \"endTimeUnixNano\":\"2000\"}]}]}]}\n\
         \n\
         {\"resourceSpans\":[{\"scopeSpans\":[{\"spans\":[{\"spanId\":\"b7ad6b7169203331\",\
         \"name\":\"x\",\"startTimeUnixNano\":\"1000\",\
         \"endTimeUnixNano\":\"2000\"}]}]}]}\n\
         {\"x\"",
        "3: missing traceId\n",
    ),
    (
        "\
         {\"resourceSpans\":[{\"scopeSpans\":[{\"spans\":[\
         {\"traceId\":\"0af7651916cd43dd8448eb211c80319c\",\"spanId\":\"b7ad6b7169203331\",\
         \"name\":\"x\",\"startTimeUnixNano\":\"1000\",\
         \"endTimeUnixNano\":\"2000\"}]}]}]}\n\
         \n\
         {\"resourceSpans\":[{\"scopeSpans\":[{\"spans\":[\
         {\"traceId\":\"0af7651916cd43dd8448eb211c80319c\",\"spanId\":\"b7ad6b7169203331\",\
         \"startTimeUnixNano\":\"1000\",\"endTimeUnixNano\":\"2000\"}]}]}]}\n\
         {\"x\"",
        "3: missing name\n",
    ),
    (
        "\
         {\"resourceSpans\":[{\"scopeSpans\":[{\"spans\":[\
         {\"traceId\":\"0af7651916cd43dd8448eb211c80319c\",\"spanId\":\"b7ad6b7169203331\",\
         \"name\":\"x\",\"startTimeUnixNano\":\"1000\",\
         \"endTimeUnixNano\":\"2000\"}]}]}]}\n\
         \n\
         {\"resourceSpans\":[{\"scopeSpans\":[{\"spans\":[\
         {\"traceId\":\"0af7651916cd43dd8448eb211c80319c\",\"spanId\":\"b7ad6b7169203331\",\
         \"name\":5,\"startTimeUnixNano\":\"1000\",\"endTimeUnixNano\":\"2000\"}]}]}]}\n\
         {\"x\"",
        "3: bad name\n",
    ),
    (
        "\
         {\"resourceSpans\":[{\"scopeSpans\":[{\"spans\":[\
         {\"traceId\":\"0af7651916cd43dd8448eb211c80319c\",\"spanId\":\"b7ad6b7169203331\",\
         \"name\":\"x\",\"startTimeUnixNano\":\"1000\",\
         \"endTimeUnixNano\":\"2000\"}]}]}]}\n\
         \n\
         {\"resourceSpans\":[{\"scopeSpans\":[{\"spans\":[\
         {\"traceId\":\"0af7651916cd43dd8448eb211c80319c\",\"spanId\":\"b7ad6b7169203331\",\
         \"name\":\"x\",\"endTimeUnixNano\":\"2000\"}]}]}]}\n\
         {\"x\"",
        "3: missing startTimeUnixNano\n",
    ),
    (
        "\
         {\"resourceSpans\":[{\"scopeSpans\":[{\"spans\":[\
         {\"traceId\":\"0af7651916cd43dd8448eb211c80319c\",\"spanId\":\"b7ad6b7169203331\",\
         \"name\":\"x\",\"startTimeUnixNano\":\"1000\",\
         \"endTimeUnixNano\":\"2000\"}]}]}]}\n\
         \n\
         {\"resourceSpans\":[{\"scopeSpans\":[{\"spans\":[\
         {\"traceId\":\"0af7651916cd43dd8448eb211c80319c\",\"spanId\":\"b7ad6b7169203331\",\
         \"name\":\"x\",\"startTimeUnixNano\":\"-1\",\"endTimeUnixNano\":\"2000\"}]}]}]}\n\
         {\"x\"",
        "3: bad startTimeUnixNano\n",
    ),
    (
        "\
         {\"resourceSpans\":[{\"scopeSpans\":[{\"spans\":[\
         {\"traceId\":\"0af7651916cd43dd8448eb211c80319c\",\"spanId\":\"b7ad6b7169203331\",\
         \"name\":\"x\",\"startTimeUnixNano\":\"1000\",\
         \"endTimeUnixNano\":\"2000\"}]}]}]}\n\
         \n\
         {\"resourceSpans\":[{\"scopeSpans\":[{\"spans\":[\
         {\"traceId\":\"0af7651916cd43dd8448eb211c80319c\",\"spanId\":\"b7ad6b7169203331\",\
         \"name\":\"x\",\"startTimeUnixNano\":\"1000\",\"endTimeUnixNano\":2000.5}]}]}]}\n\
         {\"x\"",
        "3: bad endTimeUnixNano\n",
    ),
    (
        "\
         {\"resourceSpans\":[{\"scopeSpans\":[{\"spans\":[\
         {\"traceId\":\"0af7651916cd43dd8448eb211c80319c\",\"spanId\":\"b7ad6b7169203331\",\
         \"name\":\"x\",\"startTimeUnixNano\":\"1000\",\
         \"endTimeUnixNano\":\"2000\"}]}]}]}\n\
         \n\
         {\"resourceSpans\":[{\"scopeSpans\":[{\"spans\":[\
         {\"traceId\":\"0af7651916cd43dd8448eb211c80319c\",\"spanId\":\"b7ad6b7169203331\",\
         \"name\":\"x\",\"startTimeUnixNano\":\"1000\",\"endTimeUnixNano\":\"999\"}]}]}]}\n\
         {\"x\"",
        "3: end before start\n",
    ),
    (
        "\
         {\"resourceSpans\":[{\"scopeSpans\":[{\"spans\":[\
         {\"traceId\":\"0af7651916cd43dd8448eb211c80319c\",\"spanId\":\"b7ad6b7169203331\",\
         \"name\":\"x\",\"startTimeUnixNano\":\"1000\",\
         \"endTimeUnixNano\":\"2000\"}]}]}]}\n\
         \n\
         {\"resourceSpans\":[{\"scopeSpans\":[{\"spans\":[\
         {\"traceId\":\"0af7651916cd43dd8448eb211c80319c\",\"spanId\":\"b7ad6b7169203331\",\
         \"name\":\"x\",\"startTimeUnixNano\":\"1000\",\
         \"endTimeUnixNano\":\"4102444800000000001\"}]}]}]}\n\
         {\"x\"",
        "3: time out of range\n",
    ),
    (
        "\
         {\"resourceSpans\":[{\"scopeSpans\":[{\"spans\":[\
         {\"traceId\":\"0af7651916cd43dd8448eb211c80319c\",\"spanId\":\"b7ad6b7169203331\",\
         \"name\":\"x\",\"startTimeUnixNano\":\"1000\",\
         \"endTimeUnixNano\":\"2000\"}]}]}]}\n\
         \n\
         {\"resourceSpans\":[{\"scopeSpans\":[{\"spans\":[\
         {\"traceId\":\"0af7651916cd43dd8448eb211c80319c\",\"spanId\":\"b7ad6b7169203331\",\
         \"name\":\"x\",\"startTimeUnixNano\":\"1000\",\"endTimeUnixNano\":\"2000\",\
         \"parentSpanId\":\"b7ad\"}]}]}]}\n\
         {\"x\"",
        "3: bad parentSpanId\n",
    ),
    (
        "\
         {\"resourceSpans\":[{\"scopeSpans\":[{\"spans\":[\
         {\"traceId\":\"0af7651916cd43dd8448eb211c80319c\",\"spanId\":\"b7ad6b7169203331\",\
         \"name\":\"x\",\"startTimeUnixNano\":\"1000\",\
         \"endTimeUnixNano\":\"2000\"}]}]}]}\n\
         \n\
         {\"resourceSpans\":{}}\n\
         {\"x\"",
        "3: bad resourceSpans\n",
    ),
    ("{\"resourceSpans\":[\n", "1: not JSON\n"),
];

#[test]
fn the_first_fault_is_told(rt: HostRuntime) -> Result<(), Fail> {
    for (input, rows) in FAULTS {
        expect(&rt, rt.alloc(), Reader::Otlp, input, rows)?;
    }
    Ok(())
}
