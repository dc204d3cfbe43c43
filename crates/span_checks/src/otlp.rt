use crate::rows::{Reader, expect};
use std::test::Fail;

const SPANS: [(&str, &str); 5] = [
    (
        "\
         {\"resourceSpans\":[{\"scopeSpans\":[{\"spans\":[\
         {\"traceId\":\"0af7651916cd43dd8448eb211c80319c\",\"spanId\":\"b7ad6b7169203331\",\
         \"name\":\"x\",\"startTimeUnixNano\":\"1000\",\"endTimeUnixNano\":\"2000\",\
         \"kind\":0}]}]}]}\n\
         {\"resourceSpans\":[{\"scopeSpans\":[{\"spans\":[\
         {\"traceId\":\"0af7651916cd43dd8448eb211c80319c\",\"spanId\":\"b7ad6b7169203331\",\
         \"name\":\"x\",\"startTimeUnixNano\":\"1000\",\"endTimeUnixNano\":\"2000\",\
         \"kind\":1}]}]}]}\n\
         {\"resourceSpans\":[{\"scopeSpans\":[{\"spans\":[\
         {\"traceId\":\"0af7651916cd43dd8448eb211c80319c\",\"spanId\":\"b7ad6b7169203331\",\
         \"name\":\"x\",\"startTimeUnixNano\":\"1000\",\"endTimeUnixNano\":\"2000\",\
         \"kind\":2}]}]}]}\n\
         {\"resourceSpans\":[{\"scopeSpans\":[{\"spans\":[\
         {\"traceId\":\"0af7651916cd43dd8448eb211c80319c\",\"spanId\":\"b7ad6b7169203331\",\
         \"name\":\"x\",\"startTimeUnixNano\":\"1000\",\"endTimeUnixNano\":\"2000\",\
         \"kind\":3}]}]}]}\n\
         {\"resourceSpans\":[{\"scopeSpans\":[{\"spans\":[\
         {\"traceId\":\"0af7651916cd43dd8448eb211c80319c\",\"spanId\":\"b7ad6b7169203331\",\
         \"name\":\"x\",\"startTimeUnixNano\":\"1000\",\"endTimeUnixNano\":\"2000\",\
         \"kind\":4}]}]}]}\n\
         {\"resourceSpans\":[{\"scopeSpans\":[{\"spans\":[\
         {\"traceId\":\"0af7651916cd43dd8448eb211c80319c\",\"spanId\":\"b7ad6b7169203331\",\
         \"name\":\"x\",\"startTimeUnixNano\":\"1000\",\"endTimeUnixNano\":\"2000\",\
         \"kind\":5}]}]}]}\n\
         {\"resourceSpans\":[{\"scopeSpans\":[{\"spans\":[\
         {\"traceId\":\"0af7651916cd43dd8448eb211c80319c\",\"spanId\":\"b7ad6b7169203331\",\
         \"name\":\"x\",\"startTimeUnixNano\":\"1000\",\"endTimeUnixNano\":\"2000\",\
         \"kind\":\"SPAN_KIND_SERVER\"}]}]}]}\n\
         {\"resourceSpans\":[{\"scopeSpans\":[{\"spans\":[\
         {\"traceId\":\"0af7651916cd43dd8448eb211c80319c\",\"spanId\":\"b7ad6b7169203331\",\
         \"name\":\"x\",\"startTimeUnixNano\":\"1000\",\"endTimeUnixNano\":\"2000\",\
         \"kind\":\"SPAN_KIND_CONSUMER\"}]}]}]}\n\
         {\"resourceSpans\":[{\"scopeSpans\":[{\"spans\":[\
         {\"traceId\":\"0af7651916cd43dd8448eb211c80319c\",\"spanId\":\"b7ad6b7169203331\",\
         \"name\":\"x\",\"startTimeUnixNano\":\"1000\",\"endTimeUnixNano\":\"2000\",\
         \"kind\":\"SPAN_KIND_UNSPECIFIED\"}]}]}]}",
        "\
         1 \"0af7651916cd43dd8448eb211c80319c\" \"b7ad6b7169203331\" None \
         \"unknown_service\" \"unknown_service\" \"x\" Unspecified 1000 2000\n\
         2 \"0af7651916cd43dd8448eb211c80319c\" \"b7ad6b7169203331\" None \
         \"unknown_service\" \"unknown_service\" \"x\" Internal 1000 2000\n\
         3 \"0af7651916cd43dd8448eb211c80319c\" \"b7ad6b7169203331\" None \
         \"unknown_service\" \"unknown_service\" \"x\" Server 1000 2000\n\
         4 \"0af7651916cd43dd8448eb211c80319c\" \"b7ad6b7169203331\" None \
         \"unknown_service\" \"unknown_service\" \"x\" Client 1000 2000\n\
         5 \"0af7651916cd43dd8448eb211c80319c\" \"b7ad6b7169203331\" None \
         \"unknown_service\" \"unknown_service\" \"x\" Producer 1000 2000\n\
         6 \"0af7651916cd43dd8448eb211c80319c\" \"b7ad6b7169203331\" None \
         \"unknown_service\" \"unknown_service\" \"x\" Consumer 1000 2000\n\
         7 \"0af7651916cd43dd8448eb211c80319c\" \"b7ad6b7169203331\" None \
         \"unknown_service\" \"unknown_service\" \"x\" Server 1000 2000\n\
         8 \"0af7651916cd43dd8448eb211c80319c\" \"b7ad6b7169203331\" None \
         \"unknown_service\" \"unknown_service\" \"x\" Consumer 1000 2000\n\
         9 \"0af7651916cd43dd8448eb211c80319c\" \"b7ad6b7169203331\" None \
         \"unknown_service\" \"unknown_service\" \"x\" Unspecified 1000 2000\n",
    ),
    (
        "\
         {\"resourceSpans\":[{\"scopeSpans\":[{\"spans\":[\
         {\"traceId\":\"0AF7651916CD43DD8448EB211C80319C\",\"spanId\":\"B7AD6B7169203331\",\
         \"name\":\"x\",\"startTimeUnixNano\":\"1000\",\"endTimeUnixNano\":\"2000\",\
         \"parentSpanId\":\"00F067AA0BA902B7\"}]}]}]}",
        "\
         1 \"0af7651916cd43dd8448eb211c80319c\" \"b7ad6b7169203331\" \
         Some(\"00f067aa0ba902b7\") \"unknown_service\" \"unknown_service\" \"x\" \
         Unspecified 1000 2000\n",
    ),
    (
        "\
         {\"resourceSpans\":[{\"scopeSpans\":[{\"spans\":[\
         {\"traceId\":\"0af7651916cd43dd8448eb211c80319c\",\"spanId\":\"b7ad6b7169203331\",\
         \"name\":\"x\",\"startTimeUnixNano\":\"1000\",\"endTimeUnixNano\":\"2000\"}]}],\
         \"resource\":{\"attributes\":[{\"key\":\"service.name\",\
         \"value\":{\"stringValue\":\"s\"}}]}}]}\n\
         {\"resourceSpans\":[{\"scopeSpans\":[{\"spans\":[\
         {\"traceId\":\"0af7651916cd43dd8448eb211c80319c\",\"spanId\":\"b7ad6b7169203331\",\
         \"name\":\"x\",\"startTimeUnixNano\":\"1000\",\"endTimeUnixNano\":\"2000\"}]}],\
         \"resource\":{\"attributes\":[{\"key\":\"service.name\",\
         \"value\":{\"stringValue\":\"s\"}},{\"key\":\"service.instance.id\",\
         \"value\":{\"stringValue\":\"i\"}}]}}]}\n\
         {\"resourceSpans\":[{\"scopeSpans\":[{\"spans\":[\
         {\"traceId\":\"0af7651916cd43dd8448eb211c80319c\",\"spanId\":\"b7ad6b7169203331\",\
         \"name\":\"x\",\"startTimeUnixNano\":\"1000\",\"endTimeUnixNano\":\"2000\"}]}],\
         \"resource\":{\"attributes\":[{\"key\":\"host.name\",\
         \"value\":{\"stringValue\":\"h\"}},{\"key\":\"service.name\",\
         \"value\":{\"stringValue\":\"s\"}},{\"key\":\"service.instance.id\",\
         \"value\":{\"stringValue\":\"i\"}}]}}]}\n\
         {\"resourceSpans\":[{\"scopeSpans\":[{\"spans\":[\
         {\"traceId\":\"0af7651916cd43dd8448eb211c80319c\",\"spanId\":\"b7ad6b7169203331\",\
         \"name\":\"x\",\"startTimeUnixNano\":\"1000\",\"endTimeUnixNano\":\"2000\"}]}],\
         \"resource\":{\"attributes\":[{\"key\":\"host.name\",\
         \"value\":{\"stringValue\":\"\"}},{\"key\":\"service.name\",\
         \"value\":{\"stringValue\":\"\"}}]}}]}\n\
         {\"resourceSpans\":[{\"scopeSpans\":[{\"spans\":[\
         {\"traceId\":\"0af7651916cd43dd8448eb211c80319c\",\"spanId\":\"b7ad6b7169203331\",\
         \"name\":\"x\",\"startTimeUnixNano\":\"1000\",\"endTimeUnixNano\":\"2000\"}]}]}]}",
        "\
         1 \"0af7651916cd43dd8448eb211c80319c\" \"b7ad6b7169203331\" None \"s\" \"s\" \
         \"x\" Unspecified 1000 2000\n\
         2 \"0af7651916cd43dd8448eb211c80319c\" \"b7ad6b7169203331\" None \"s\" \"i\" \
         \"x\" Unspecified 1000 2000\n\
         3 \"0af7651916cd43dd8448eb211c80319c\" \"b7ad6b7169203331\" None \"s\" \"h\" \
         \"x\" Unspecified 1000 2000\n\
         4 \"0af7651916cd43dd8448eb211c80319c\" \"b7ad6b7169203331\" None \
         \"unknown_service\" \"unknown_service\" \"x\" Unspecified 1000 2000\n\
         5 \"0af7651916cd43dd8448eb211c80319c\" \"b7ad6b7169203331\" None \
         \"unknown_service\" \"unknown_service\" \"x\" Unspecified 1000 2000\n",
    ),
    (
        "\
         {\"resourceSpans\":[{\"instrumentationLibrarySpans\":[{\"spans\":[\
         {\"traceId\":\"0af7651916cd43dd8448eb211c80319c\",\"spanId\":\"b7ad6b7169203331\",\
         \"name\":\"x\",\"startTimeUnixNano\":\"1000\",\"endTimeUnixNano\":\"2000\"},\
         {\"traceId\":\"0af7651916cd43dd8448eb211c80319c\",\"spanId\":\"b7ad6b7169203332\",\
         \"name\":\"x\",\"startTimeUnixNano\":\"1000\",\"endTimeUnixNano\":\"2000\",\
         \"parentSpanId\":\"b7ad6b7169203331\"}]}],\"resource\":{\"attributes\":[\
         {\"key\":\"service.name\",\"value\":{\"stringValue\":\"s\"}}]}}]}",
        "\
         1 \"0af7651916cd43dd8448eb211c80319c\" \"b7ad6b7169203331\" None \"s\" \"s\" \
         \"x\" Unspecified 1000 2000\n\
         1 \"0af7651916cd43dd8448eb211c80319c\" \"b7ad6b7169203332\" \
         Some(\"b7ad6b7169203331\") \"s\" \"s\" \"x\" Unspecified 1000 2000\n",
    ),
    (
        "\
         {\"resourceSpans\":[{\"scopeSpans\":[{\"spans\":[\
         {\"traceId\":\"0af7651916cd43dd8448eb211c80319c\",\"spanId\":\"b7ad6b7169203331\",\
         \"name\":\"x\",\"startTimeUnixNano\":1000,\
         \"endTimeUnixNano\":4102444800000000000}]}]}]}",
        "\
         1 \"0af7651916cd43dd8448eb211c80319c\" \"b7ad6b7169203331\" None \
         \"unknown_service\" \"unknown_service\" \"x\" Unspecified 1000 \
         4102444800000000000\n",
    ),
];

const FILES: [(&str, &str); 3] = [
    (
        "\
         \n  \n\
         {\"resourceSpans\":[{\"scopeSpans\":[{\"spans\":[\
         {\"traceId\":\"0af7651916cd43dd8448eb211c80319c\",\"spanId\":\"b7ad6b7169203331\",\
         \"name\":\"x\",\"startTimeUnixNano\":\"1000\",\
         \"endTimeUnixNano\":\"2000\"}]}]}]}\n\
         \n\
         {\"resourceSpans\":[{\"scopeSpans\":[{\"spans\":[\
         {\"traceId\":\"0af7651916cd43dd8448eb211c80319c\",\"spanId\":\"0000000000000001\",\
         \"name\":\"x\",\"startTimeUnixNano\":\"1000\",\
         \"endTimeUnixNano\":\"2000\"}]}]}]}\n",
        "\
         3 \"0af7651916cd43dd8448eb211c80319c\" \"b7ad6b7169203331\" None \
         \"unknown_service\" \"unknown_service\" \"x\" Unspecified 1000 2000\n\
         5 \"0af7651916cd43dd8448eb211c80319c\" \"0000000000000001\" None \
         \"unknown_service\" \"unknown_service\" \"x\" Unspecified 1000 2000\n",
    ),
    (
        "\
         {\"resourceMetrics\":[]}\n\
         {\"resourceLogs\":[]}\n\
         {\"resourceSpans\":[{\"scopeSpans\":[{\"spans\":[\
         {\"traceId\":\"0af7651916cd43dd8448eb211c80319c\",\"spanId\":\"b7ad6b7169203331\",\
         \"name\":\"x\",\"startTimeUnixNano\":\"1000\",\
         \"endTimeUnixNano\":\"2000\"}]}]}]}\n",
        "\
         3 \"0af7651916cd43dd8448eb211c80319c\" \"b7ad6b7169203331\" None \
         \"unknown_service\" \"unknown_service\" \"x\" Unspecified 1000 2000\n",
    ),
    (
        "\
         {\n  \"resourceSpans\": [\n    {\n      \"scopeSpans\": [\n        {\n          \
         \"spans\": [\n            {\n              \"traceId\": \
         \"0af7651916cd43dd8448eb211c80319c\",\n              \"spanId\": \
         \"b7ad6b7169203331\",\n              \"name\": \"x\",\n              \
         \"startTimeUnixNano\": \"1000\",\n              \"endTimeUnixNano\": \"2000\"\n            \
         }\n          ]\n        }\n      ]\n    }\n  ]\n\
         }",
        "\
         1 \"0af7651916cd43dd8448eb211c80319c\" \"b7ad6b7169203331\" None \
         \"unknown_service\" \"unknown_service\" \"x\" Unspecified 1000 2000\n",
    ),
];

#[test]
fn spans_have_what_their_values_say(rt: HostRuntime) -> Result<(), Fail> {
    for (input, rows) in SPANS {
        expect(&rt, rt.alloc(), Reader::Otlp, input, rows)?;
    }
    Ok(())
}

#[test]
fn a_file_has_a_value_a_line_or_one(rt: HostRuntime) -> Result<(), Fail> {
    for (input, rows) in FILES {
        expect(&rt, rt.alloc(), Reader::Otlp, input, rows)?;
    }
    Ok(())
}
