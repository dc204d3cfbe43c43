//! Laws over the definitions alone: each function does nothing, and its contract is the law.
ghost use Rattle.name_laws.specs.GoodNames.{EventsAreGood, EventsTellEndings, MachinesAreGood, TasksAreGood};

/// The names of the events of contexts are texts that a line may have.
pub fn events_are_good()
    ensures { EventsAreGood }
{}

/// The name of an event tells that of its context, and its ending.
pub fn events_tell_endings()
    ensures { EventsTellEndings }
{}

/// The names of the pieces of threads are texts that a line may have.
pub fn tasks_are_good()
    ensures { TasksAreGood }
{}

/// The names of machines are texts that a line may have.
pub fn machines_are_good()
    ensures { MachinesAreGood }
{}
