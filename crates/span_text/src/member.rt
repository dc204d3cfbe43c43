ghost use Rattle.std.specs.Prelude.{◌≡◌};
ghost use Rattle.span_text.specs.Members.{member_name};

/// A member of the JSON objects that spans are exported in.
#[derive(Clone, Copy, Debug, PartialEq, Eq)]
pub enum Member {
    /// The attributes of a resource or a span, by OpenTelemetry.
    Attributes,
    /// The traces, by Jaeger.
    Data,
    /// How long a span took, by Jaeger and Zipkin.
    Duration,
    /// When a span ended, by OpenTelemetry.
    EndTimeUnixNano,
    /// The tag that names a host.
    HostName,
    /// The id of a span, by Zipkin.
    Id,
    /// The spans of a library, by an older OpenTelemetry.
    InstrumentationLibrarySpans,
    /// An address of a host, by Zipkin.
    Ipv4,
    /// The key of a tag.
    Key,
    /// The kind of a span.
    Kind,
    /// Where a span was recorded, by Zipkin.
    LocalEndpoint,
    /// The name of a span.
    Name,
    /// The name of a span, by Jaeger.
    OperationName,
    /// The id of a span's parent, by Zipkin.
    ParentId,
    /// The id of a span's parent, by OpenTelemetry.
    ParentSpanId,
    /// The processes of a trace, by Jaeger.
    Processes,
    /// The process of a span, by Jaeger.
    ProcessId,
    /// How a span refers to another, by Jaeger.
    RefType,
    /// The spans that a span refers to, by Jaeger.
    References,
    /// What recorded spans, by OpenTelemetry.
    Resource,
    /// The log records of resources, by OpenTelemetry.
    ResourceLogs,
    /// The metrics of resources, by OpenTelemetry.
    ResourceMetrics,
    /// The spans of resources, by OpenTelemetry.
    ResourceSpans,
    /// The spans of a scope, by OpenTelemetry.
    ScopeSpans,
    /// The name of a service, by Jaeger and Zipkin.
    ServiceName,
    /// The id of a span, by OpenTelemetry.
    SpanId,
    /// The id of a span, by Jaeger.
    SpanIdOfJaeger,
    /// The spans.
    Spans,
    /// When a span started, by Jaeger.
    StartTime,
    /// When a span started, by OpenTelemetry.
    StartTimeUnixNano,
    /// The text of a value, by OpenTelemetry.
    StringValue,
    /// The tags of a span or a process, by Jaeger and Zipkin.
    Tags,
    /// When a span started, by Zipkin.
    Timestamp,
    /// The id of a trace, by OpenTelemetry and Zipkin.
    TraceId,
    /// The id of a trace, by Jaeger.
    TraceIdOfJaeger,
    /// The value of a tag.
    Value,
}

impl Member {
    /// Gives the name of the member.
    pub fn name(self) -> &'static str
        ensures { result.now ≡ member_name self }
    {
        match self {
            Member::Attributes => "attributes",
            Member::Data => "data",
            Member::Duration => "duration",
            Member::EndTimeUnixNano => "endTimeUnixNano",
            Member::HostName => "host.name",
            Member::Id => "id",
            Member::InstrumentationLibrarySpans => "instrumentationLibrarySpans",
            Member::Ipv4 => "ipv4",
            Member::Key => "key",
            Member::Kind => "kind",
            Member::LocalEndpoint => "localEndpoint",
            Member::Name => "name",
            Member::OperationName => "operationName",
            Member::ParentId => "parentId",
            Member::ParentSpanId => "parentSpanId",
            Member::Processes => "processes",
            Member::ProcessId => "processID",
            Member::RefType => "refType",
            Member::References => "references",
            Member::Resource => "resource",
            Member::ResourceLogs => "resourceLogs",
            Member::ResourceMetrics => "resourceMetrics",
            Member::ResourceSpans => "resourceSpans",
            Member::ScopeSpans => "scopeSpans",
            Member::ServiceName => "serviceName",
            Member::SpanId => "spanId",
            Member::SpanIdOfJaeger => "spanID",
            Member::Spans => "spans",
            Member::StartTime => "startTime",
            Member::StartTimeUnixNano => "startTimeUnixNano",
            Member::StringValue => "stringValue",
            Member::Tags => "tags",
            Member::Timestamp => "timestamp",
            Member::TraceId => "traceId",
            Member::TraceIdOfJaeger => "traceID",
            Member::Value => "value",
        }
    }
}
