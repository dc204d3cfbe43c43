ghost use Rattle.std.specs.Prelude.{◌≡◌};
ghost use Rattle.drill_input.specs.inner.Messages.{message_members};

use std::marker::Model;

/// What an event does with a message, by the message's name.
#[derive(Clone, Copy, Debug)]
pub(crate) enum Message {
    /// There is no message.
    Absent,
    /// The event sends it.
    Sent(&'static str),
    /// The event receives it.
    Received(&'static str),
}

/// An event of a trace, with its time in microseconds.
#[derive(Debug, Drop)]
pub(crate) struct TraceLine {
    pub(crate) machine: &'static str,
    pub(crate) task: &'static str,
    pub(crate) event: &'static str,
    pub(crate) time: u64,
    pub(crate) message: Message,
}

impl Model for TraceLine {
    ghost use Rattle.drill_input.specs.DrillInput.{Line};
    ghost use Rattle.drill_input.specs.inner.Messages.{message_members};

    ghost Value = { Line };

    ghost view = { λ a. record {
      machine = a.machine.now;
      task = a.task.now;
      event = a.event.now;
      time = a.time;
      message = message_members a.message;
    } };
}

impl TraceLine {
    /// Makes an event of a trace.
    pub(crate) fn new(
        machine: &'static str,
        task: &'static str,
        event: &'static str,
        time: u64,
        message: Message,
    ) -> TraceLine
        ensures machine { result.machine ≡ machine.now }
        ensures task { result.task ≡ task.now }
        ensures event { result.event ≡ event.now }
        ensures time { result.time ≡ time }
        ensures message { result.message ≡ message_members message }
    {
        TraceLine {
            machine,
            task,
            event,
            time,
            message,
        }
    }
}
