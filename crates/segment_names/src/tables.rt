ghost use Rattle.std.specs.Prelude.{◌≡◌, List, ℕ, ◌∷◌, [], ◌++◌, slice_get, Some, IfOk, OnOk};
ghost use Rattle.std.specs.Str.{bytes_eq};
ghost use Rattle.trace_types.specs.Firsts.{firsts_of};
ghost use Rattle.trace_types.specs.Segments.{name_of};
ghost use Rattle.event_table.specs.Texts.{AreDifferent};
ghost use Rattle.segment_names.specs.inner.Filing.{IsFiledAs};

use crate::hints::{HINTS, hint_of};
use crate::name_key::NameKey;
use crate::{NameFault, NameLimit};
use indexmap::{IndexMap, IndexSet};
use std::alloc::{AllocError, Global};
use std::marker::Model;
use trace_types::{NameText, Segment, Text};

/// The greatest number of names.
const MOST_NAMES: u32 = 512;

/// The greatest number of tasks.
const MOST_TASKS: u32 = 64;

/// How many elements each table has.
#[derive(Clone, Copy, Drop)]
pub(crate) struct Marks {
    tasks: usize,
    events: usize,
    names: usize,
}

/// The tables of a catalogue, without its limits. Each is in the order of first sight. A hint is
/// where to look for a name first; the hints are no part of what the tables know.
#[derive(Drop)]
pub(crate) struct Tables {
    tasks: IndexSet<Text>,
    events: IndexSet<Text>,
    names: IndexMap<NameKey, NameText>,
    hints: Vec<u16>,
}

impl Model for Tables {
    ghost use Rattle.segment_names.specs.inner.Filing.{IsFiled, Filed};

    ghost Value = { Filed };

    ghost view = { λ t. record {
      tasks = t.tasks.keys;
      events = t.events.keys;
      names =
          t.names.entries;
    } };

    ghost invariant = { λ t. IsFiled t.tasks.keys t.events.keys t.names.entries };
}

/// Gives the index of a text, which stands last if it is new.
pub(crate) fn intern(texts: &mut IndexSet<Text>, text: Text) -> Result<usize, AllocError>
    requires { AreDifferent texts.old.keys }
    ensures differ { AreDifferent texts.new.keys }
    ensures grown { (more : List (List ℕ)) × (texts.new.keys ≡ texts.old.keys ++ more) }
    ensures keys { OnOk result (texts.new.keys
        ≡ firsts_of bytes_eq (texts.old.keys ++ text ∷ [])) }
    ensures index { IfOk result (λ i. slice_get texts.new.keys i ≡ Some text) }
{
    let (index, _added) = texts.insert_full(text)?;
    Ok(index)
}

/// Copies the name of a segment.
fn copy_name(alloc: Global, segment: &Segment) -> Result<NameText, AllocError>
    ensures { IfOk result (λ name. name ≡ name_of segment.now) }
{
    Ok(NameText {
        task: segment.task.copy(alloc)?,
        start: segment.start_event.copy(alloc)?,
        end: segment.end_event.copy(alloc)?,
    })
}

/// Gives the key of a segment's name. Texts that are new stand last in their sets.
fn intern_name(
    alloc: Global,
    tasks: &mut IndexSet<Text>,
    events: &mut IndexSet<Text>,
    segment: &Segment,
) -> Result<NameKey, AllocError>
    requires tasks { AreDifferent tasks.old.keys }
    requires events { AreDifferent events.old.keys }
    ensures tasks_differ { AreDifferent tasks.new.keys }
    ensures events_differ { AreDifferent events.new.keys }
    ensures tasks_grown { (more : List (List ℕ)) × (tasks.new.keys ≡ tasks.old.keys ++ more) }
    ensures events_grown { (more : List (List ℕ)) × (events.new.keys ≡ events.old.keys ++ more) }
    ensures tasks { OnOk result (tasks.new.keys
        ≡ firsts_of bytes_eq (tasks.old.keys ++ segment.now.task ∷ [])) }
    ensures filed { IfOk result (λ key. IsFiledAs tasks.new.keys events.new.keys key
        (name_of segment.now)) }
{
    let task = intern(tasks, segment.task.copy(alloc)?)?;
    let start = intern(events, segment.start_event.copy(alloc)?)?;
    let end = intern(events, segment.end_event.copy(alloc)?)?;
    Ok(NameKey { task, start, end })
}

impl Tables {
    ghost use Rattle.std.specs.Prelude.{◌^◌, ◌<◌, ◌≤◌, None, length, IfErr, IfNone, IfSome};
    ghost use Rattle.std.specs.Prelude.{MatchResult};
    ghost use Rattle.segment_names.specs.Known.{name_number, task_number, with_segments};
    ghost use Rattle.segment_names.specs.Limits.{Fits, HasCause, IsPassed};
    ghost use Rattle.segment_names.specs.inner.Filing.{AreFiled, Filed, Grows, known_in, marks_of};

    /// Makes empty tables.
    pub(crate) fn new(alloc: Global) -> Tables
        ensures { result ≡ record { tasks = []; events = []; names = [] } }
    {
        Tables {
            tasks: IndexSet::new(alloc),
            events: IndexSet::new(alloc),
            names: IndexMap::new(alloc),
            hints: Vec::new(alloc),
        }
    }

    /// Looks for a name where its hint points to. Returns its number and that of its task if all
    /// three texts stand there.
    fn look_up_by_hint(&self, task: &Text, start: &Text, end: &Text) -> Option<(usize, usize)>
        ensures name { IfSome result (λ r. name_number (known_in self.now)
            (task.now, start.now, end.now) ≡ Some r.0) }
        ensures task { IfSome result (λ r. slice_get (known_in self.now).tasks r.1
            ≡ Some task.now) }
    {
        let number = usize::from(*self.hints.get(hint_of(task, start, end))?);
        let (key, name) = self.names.get_index(number)?;
        if name.task == *task && name.start == *start && name.end == *end {
            return Some((number, key.task));
        }
        None
    }

    /// Looks for a name by its key.
    fn search(&self, task: &Text, start: &Text, end: &Text) -> Option<(usize, usize)>
        ensures absent { IfNone result (name_number (known_in self.now)
            (task.now, start.now, end.now) ≡ None) }
        ensures name { IfSome result (λ r. name_number (known_in self.now)
            (task.now, start.now, end.now) ≡ Some r.0) }
        ensures task { IfSome result (λ r. slice_get (known_in self.now).tasks r.1
            ≡ Some task.now) }
    {
        let task_index = self.tasks.get_index_of(task)?;
        let start_index = self.events.get_index_of(start)?;
        let end_index = self.events.get_index_of(end)?;
        let key = NameKey {
            task: task_index,
            start: start_index,
            end: end_index,
        };
        let name_index = self.names.get_index_of(&key)?;
        Some((name_index, task_index))
    }

    /// Looks up a name by its three texts, and gives its number and that of its task.
    pub(crate) fn look_up(&self, task: &Text, start: &Text, end: &Text) -> Option<(usize, usize)>
        ensures absent { IfNone result (name_number (known_in self.now)
            (task.now, start.now, end.now) ≡ None) }
        ensures name { IfSome result (λ r. name_number (known_in self.now)
            (task.now, start.now, end.now) ≡ Some r.0) }
        ensures task { IfSome result (λ r. slice_get (known_in self.now).tasks r.1
            ≡ Some task.now) }
        ensures filed { AreFiled self.now }
    {
        // For the proof alone.
        let _names = &self.names;
        match self.look_up_by_hint(task, start, end) {
            Some(found) => Some(found),
            None => self.search(task, start, end),
        }
    }

    /// Looks up a task.
    pub(crate) fn find_task(&self, task: &Text) -> Option<usize>
        ensures { result ≡ task_number (known_in self.now) task.now }
    {
        self.tasks.get_index_of(task)
    }

    /// Counts the names.
    pub(crate) fn name_count(&self) -> usize
        ensures { result ≡ length (known_in self.now).names }
    {
        self.names.len()
    }

    /// Counts the tasks.
    pub(crate) fn task_count(&self) -> usize
        ensures { result ≡ length (known_in self.now).tasks }
    {
        self.tasks.len()
    }

    /// Gives the name with this number.
    pub(crate) fn name_at(&self, name: usize) -> &NameText
        requires { name < length (known_in self.now).names }
        ensures { slice_get (known_in self.now).names name ≡ Some result.now }
    {
        self.names.get_index(name).unwrap().1
    }

    /// Gives the task with this number.
    pub(crate) fn task_at(&self, task: usize) -> &Text
        requires { task < length (known_in self.now).tasks }
        ensures { slice_get (known_in self.now).tasks task ≡ Some result.now }
    {
        self.tasks.get_index(task).unwrap()
    }

    /// Makes the hints, if there are none yet. They point to the first name.
    fn make_hints(&mut self, alloc: Global) -> Result<(), AllocError>
        ensures { self.new ≡ self.old }
    {
        if self.hints.is_empty() {
            self.hints = Vec::from_elem(alloc, 0, HINTS)?;
        }
        Ok(())
    }

    /// Points the hint of a segment's name to the last name.
    fn hint_last(&mut self, segment: &Segment)
        ensures { self.new ≡ self.old }
    {
        let hint = hint_of(&segment.task, &segment.start_event, &segment.end_event);
        let last = self.names.len().saturating_sub(1);
        if hint < self.hints.len() && last < 1 << 16 {
            self.hints[hint] = last as u16;
        }
    }

    /// Notes the name and the task of a segment, whose name is not there.
    fn note_new(&mut self, alloc: Global, segment: &Segment) -> Result<(), AllocError>
        requires filed { AreFiled self.old }
        requires new { name_number (known_in self.old) (name_of segment.now) ≡ None }
        ensures filed { AreFiled self.new }
        ensures grown { Grows self.old self.new }
        ensures noted { OnOk result (known_in self.new
            ≡ with_segments (known_in self.old) (segment.now ∷ [])) }
    {
        let name = copy_name(alloc, segment)?;
        let key = intern_name(alloc, &mut self.tasks, &mut self.events, segment)?;
        self.names.insert(key, name)?;
        Ok(())
    }

    /// Notes the name and the task of a segment, unless its name is there.
    fn note(&mut self, alloc: Global, segment: &Segment) -> Result<(), AllocError>
        ensures filed { AreFiled self.new }
        ensures grown { Grows self.old self.new }
        ensures noted { OnOk result (known_in self.new
            ≡ with_segments (known_in self.old) (segment.now ∷ [])) }
    {
        if self
            .look_up(&segment.task, &segment.start_event, &segment.end_event)
            .is_some()
        {
            return Ok(());
        }
        self.make_hints(alloc)?;
        self.note_new(alloc, segment)?;
        self.hint_last(segment);
        Ok(())
    }

    /// Notes the names and the tasks of all these segments.
    fn note_all(&mut self, alloc: Global, segments: &[Segment]) -> Result<(), AllocError>
        requires { AreFiled self.old }
        ensures filed { AreFiled self.new }
        ensures grown { Grows self.old self.new }
        ensures noted { OnOk result (known_in self.new
            ≡ with_segments (known_in self.old) segments.now) }
    {
        for segment in segments {
            self.note(alloc, segment)?;
        }
        Ok(())
    }

    /// Tells the limit that is passed, the names first.
    fn check_limits(&self) -> Result<(), NameLimit>
        requires names { length (known_in self.now).names < 2 ^ 32 }
        requires tasks { length (known_in self.now).tasks < 2 ^ 32 }
        ensures { MatchResult result (λ _. Fits (known_in self.now)) (IsPassed
            (known_in self.now)) }
    {
        let names = self.name_count() as u32;
        if names > MOST_NAMES {
            return Err(NameLimit::Names { count: names });
        }
        let tasks = self.task_count() as u32;
        if tasks > MOST_TASKS {
            return Err(NameLimit::Tasks { count: tasks });
        }
        Ok(())
    }

    /// Notes the segments, and tells the limit that is passed then.
    pub(crate) fn note_within(
        &mut self,
        alloc: Global,
        segments: &[Segment],
    ) -> Result<(), NameFault>
        requires filed { AreFiled self.old }
        requires fits { Fits (known_in self.old) }
        requires few { length segments.now ≤ 4096 }
        ensures filed { AreFiled self.new }
        ensures grown { Grows self.old self.new }
        ensures noted { OnOk result (known_in self.new
            ≡ with_segments (known_in self.old) segments.now) }
        ensures fits { OnOk result (Fits (known_in self.new)) }
        ensures cause { IfErr result (HasCause (IsPassed (with_segments
            (known_in self.old) segments.now))) }
    {
        self.note_all(alloc, segments)?;
        self.check_limits()?;
        Ok(())
    }

    /// Tells how many elements each table has.
    pub(crate) fn marks(&self) -> Marks
        ensures marks { result ≡ marks_of self.now }
        ensures filed { AreFiled self.now }
    {
        Marks {
            tasks: self.tasks.len(),
            events: self.events.len(),
            names: self.names.len(),
        }
    }

    /// Drops what was noted after these marks were taken.
    pub(crate) fn cut(&mut self, marks: Marks)
        requires { (was : Filed) × AreFiled was × Grows was self.old × (marks ≡ marks_of was) }
        ensures { (was : Filed) → Grows was self.old → marks ≡ marks_of was → self.new ≡ was }
    {
        self.names.truncate(marks.names);
        self.tasks.truncate(marks.tasks);
        self.events.truncate(marks.events);
    }
}
