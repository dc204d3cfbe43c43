ghost use Rattle.std.specs.Prelude.{◌≡◌, []};
ghost use Rattle.event_table.specs.inner.Growth.{AreAllDifferent};

use crate::TextTable;
use std::alloc::Global;
use std::marker::Model;

/// The different texts of events, each kind in a table of its own.
#[derive(Drop)]
pub struct Texts {
    pub(crate) requests: TextTable,
    pub(crate) machines: TextTable,
    pub(crate) tasks: TextTable,
    pub(crate) names: TextTable,
}

impl Model for Texts {
    ghost use Rattle.event_table.specs.Texts.{TextLists};

    ghost Value = { TextLists };

    ghost view = { λ t. record {
      requests = t.requests;
      machines = t.machines;
      tasks = t.tasks;
      names = t.names;
    } };
}

impl Texts {
    /// Makes empty tables. Takes no memory.
    pub(crate) fn new(alloc: Global) -> Texts
        ensures { result ≡ record { requests = []; machines = []; tasks = []; names = [] } }
    {
        Texts {
            requests: TextTable::new(alloc),
            machines: TextTable::new(alloc),
            tasks: TextTable::new(alloc),
            names: TextTable::new(alloc),
        }
    }

    /// Lends the requests.
    pub fn requests(&self) -> &TextTable
        ensures { result.now ≡ self.now.requests }
    {
        &self.requests
    }

    /// Lends the machines.
    pub fn machines(&self) -> &TextTable
        ensures { result.now ≡ self.now.machines }
    {
        &self.machines
    }

    /// Lends the tasks.
    pub fn tasks(&self) -> &TextTable
        ensures { result.now ≡ self.now.tasks }
    {
        &self.tasks
    }

    /// Lends the names of events.
    pub fn names(&self) -> &TextTable
        ensures { result.now ≡ self.now.names }
    {
        &self.names
    }

    /// In each table, no text stands twice. Does nothing.
    pub(crate) fn tell_texts_apart(&self)
        ensures { AreAllDifferent self.now }
    {
        self.requests.tell_texts_apart();
        self.machines.tell_texts_apart();
        self.tasks.tell_texts_apart();
        self.names.tell_texts_apart();
    }
}
