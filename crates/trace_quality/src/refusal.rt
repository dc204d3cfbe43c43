ghost use Rattle.std.specs.Prelude.{◌≡◌};
ghost use Rattle.trace_quality.specs.Measures.{refusal_text};

/// Why a trace is refused.
#[derive(Clone, Copy, Debug, PartialEq, Eq)]
pub enum Refusal {
    /// It has over 4,096 events.
    ManyEvents,
    /// A task has an event twice.
    EventTwice,
    /// A message is sent twice.
    SentTwice,
    /// A message is received twice.
    ReceivedTwice,
    /// An adjusted time is out of range.
    ClockRange,
}

impl Refusal {
    /// Gives the reason as it is printed.
    pub fn reason(self) -> &'static str
        ensures { result.now ≡ refusal_text self }
    {
        match self {
            Refusal::ManyEvents => "too many events",
            Refusal::EventTwice => "repeated event",
            Refusal::SentTwice => "repeated send",
            Refusal::ReceivedTwice => "repeated receive",
            Refusal::ClockRange => "clock out of range",
        }
    }
}
