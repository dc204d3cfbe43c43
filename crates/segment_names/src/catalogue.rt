use crate::NameFault;
use crate::naming::numbers;
use crate::tables::Tables;
use std::alloc::Global;
use std::marker::Model;
use trace_types::{NameText, Text, Trace};

/// Segment names and tasks, numbered from 0 by first sight: at most 512 names and 64 tasks.
#[derive(Drop)]
pub struct Catalogue {
    pub(crate) tables: Tables,
}

impl Model for Catalogue {
    ghost use Rattle.segment_names.specs.Known.{Known};
    ghost use Rattle.segment_names.specs.Limits.{IsKept};
    ghost use Rattle.segment_names.specs.inner.Filing.{known_in};

    ghost Value = { Known };

    ghost view = { λ c. known_in c.tables };

    ghost invariant = { λ c. IsKept (known_in c.tables) };
}

impl Catalogue {
    ghost use Rattle.std.specs.Prelude.{◌≡◌, ◌<◌, ◌≤◌, length, [], slice_get, Some, OnOk};
    ghost use Rattle.std.specs.Prelude.{OnErr, IfErr, IfNone, IfSome, None};
    ghost use Rattle.trace_types.specs.Limits.{most_names, most_tasks};
    ghost use Rattle.segment_names.specs.Known.{name_number, task_number, with_segments};
    ghost use Rattle.segment_names.specs.Limits.{Fits, HasCause, IsKept, IsPassed};

    /// An empty catalogue. It takes no memory.
    pub fn new(alloc: Global) -> Catalogue
        ensures { result ≡ record { names = []; tasks = [] } }
    {
        Catalogue {
            tables: Tables::new(alloc),
        }
    }

    /// Adds the names and the tasks of a trace. New ones stand last, in the order of its segments.
    /// After an error the catalogue is unchanged.
    pub fn add(&mut self, alloc: Global, trace: &Trace) -> Result<(), NameFault>
        requires { length trace.now.segments ≤ 4096 }
        ensures added { OnOk result (self.new ≡ with_segments self.old trace.now.segments) }
        ensures fits { OnOk result (Fits self.new) }
        ensures cause { IfErr result (HasCause (IsPassed
            (with_segments self.old trace.now.segments))) }
        ensures unchanged { OnErr result (self.new ≡ self.old) }
    {
        let marks = self.tables.marks();
        let added = self.tables.note_within(alloc, trace.segments.items());
        if added.is_err() {
            self.tables.cut(marks);
        }
        added
    }

    /// The number of a name, or `None` where it is not in the catalogue. It takes no memory.
    pub fn find(&self, name: &NameText) -> Option<u32>
        ensures { result ≡ name_number self.now name.now }
    {
        match self.tables.look_up(&name.task, &name.start, &name.end) {
            Some((number, _)) => Some(number as u32),
            None => None,
        }
    }

    /// Looks a name up by its three texts, and gives its number and that of its task. It takes no
    /// memory.
    pub(crate) fn look_up(&self, task: &Text, start: &Text, end: &Text) -> Option<(u32, u32)>
        ensures absent { IfNone result (name_number self.now (task.now, start.now, end.now)
            ≡ None) }
        ensures number { IfSome result (λ r. name_number self.now (task.now, start.now, end.now)
            ≡ Some r.0) }
        ensures name { IfSome result (λ r. slice_get self.now.names r.0
            ≡ Some (task.now, start.now, end.now)) }
        ensures task { IfSome result (λ r. slice_get self.now.tasks r.1 ≡ Some task.now) }
        ensures below { IfSome result (λ r. (r.0 < most_names) × (r.1 < most_tasks)) }
    {
        numbers(&self.tables, task, start, end)
    }

    /// The number of a task, or `None` where it is not in the catalogue. It takes no memory.
    pub fn find_task(&self, task: &Text) -> Option<u32>
        ensures { result ≡ task_number self.now task.now }
    {
        match self.tables.find_task(task) {
            Some(number) => Some(number as u32),
            None => None,
        }
    }

    /// How many names there are.
    pub fn names(&self) -> u32
        ensures count { result ≡ length self.now.names }
        ensures kept { IsKept self.now }
    {
        self.tables.name_count() as u32
    }

    /// How many tasks there are.
    pub fn tasks(&self) -> u32
        ensures count { result ≡ length self.now.tasks }
        ensures kept { IsKept self.now }
    {
        self.tables.task_count() as u32
    }

    /// The texts of the name with this number.
    pub fn text_of(&self, name: u32) -> &NameText
        requires { name < length self.now.names }
        ensures { slice_get self.now.names name ≡ Some result.now }
    {
        self.tables.name_at(name as usize)
    }

    /// The text of the task with this number.
    pub fn task_text(&self, task: u32) -> &Text
        requires { task < length self.now.tasks }
        ensures { slice_get self.now.tasks task ≡ Some result.now }
    {
        self.tables.task_at(task as usize)
    }
}
