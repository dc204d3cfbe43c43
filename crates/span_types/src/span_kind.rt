/// On which side of a call or of a queue a span stands: OpenTelemetry Protocol 1.x, `SpanKind`.
#[derive(Clone, Copy, Debug, PartialEq, Eq)]
pub enum SpanKind {
    /// The exporter does not say it.
    Unspecified,
    /// Work within a service.
    Internal,
    /// A call from elsewhere is served.
    Server,
    /// Another service is called, and its answer awaited.
    Client,
    /// A message is handed to a queue.
    Producer,
    /// A message is taken from a queue, perhaps long after it was handed over.
    Consumer,
}
