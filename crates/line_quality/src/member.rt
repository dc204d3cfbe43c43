ghost use Rattle.std.specs.Prelude.{◌≡◌, ◌≤◌, length};
ghost use Rattle.line_quality.specs.Members.{is_number, member_name};

/// A member of a line, or the line as a whole.
#[derive(Clone, Copy, Debug, PartialEq, Eq)]
pub enum Member {
    /// The line as a whole.
    Whole,
    /// The request of an event.
    Request,
    /// Its machine.
    Machine,
    /// Its task.
    Task,
    /// Its name.
    Event,
    /// Its time in microseconds.
    Time,
    /// Its time in nanoseconds.
    Nanos,
    /// The message that it sends.
    Send,
    /// The message that it receives.
    Recv,
    /// The name of a command.
    Do,
    /// The number of `drop`.
    Day,
    /// The number of `keep`.
    Days,
    /// The number of `watch`.
    Every,
    /// The number of `grace`.
    Micros,
}

impl Member {
    /// Gives the member's name, by which it stands in a line; `-` for the line as a whole.
    pub fn as_str(self) -> &'static str
        ensures told { result.now ≡ member_name self }
        ensures short { length result.now ≤ 10 }
    {
        match self {
            Member::Whole => "-",
            Member::Request => "request",
            Member::Machine => "machine",
            Member::Task => "task",
            Member::Event => "event",
            Member::Time => "time",
            Member::Nanos => "nanos",
            Member::Send => "send",
            Member::Recv => "recv",
            Member::Do => "do",
            Member::Day => "day",
            Member::Days => "days",
            Member::Every => "every",
            Member::Micros => "micros",
        }
    }

    /// Tells whether the member is a number.
    pub(crate) fn is_number(self) -> bool
        ensures { result ≡ is_number self }
    {
        match self {
            Member::Time
            | Member::Nanos
            | Member::Day
            | Member::Days
            | Member::Every
            | Member::Micros => true,
            Member::Whole
            | Member::Request
            | Member::Machine
            | Member::Task
            | Member::Event
            | Member::Send
            | Member::Recv
            | Member::Do => false,
        }
    }
}
