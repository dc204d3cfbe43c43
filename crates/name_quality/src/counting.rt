ghost use Rattle.std.specs.Prelude.{◌≡◌, ◌<◌, All, IfOk, length, map};
ghost use Rattle.std.specs.Str.{bytes_eq};
ghost use Rattle.alike_groups.specs.Groups.{groups_of};
ghost use Rattle.alike_groups.specs.declared.group.Group.{Group};
ghost use Rattle.event_table.specs.Numbers.{text_under};
ghost use Rattle.event_table.specs.Texts.{AreDifferent};
ghost use Rattle.segment_names.specs.Known.{same_name};
ghost use Rattle.name_quality.specs.Names.{HasTexts, different_names, different_tasks, first_of};
ghost use Rattle.name_quality.specs.Names.{first_task_of, names_under, tasks_in};
ghost use Rattle.name_quality.specs.inner.Adding.{task_number};

use crate::NameNumbers;
use alike_groups::{Group, group_alike};
use event_table::Texts;
use std::alloc::{AllocError, Global};

/// States that texts differ where their numbers do.
fn state_texts_differ(texts: &Texts)
    ensures tasks { AreDifferent texts.now.tasks }
    ensures names { AreDifferent texts.now.names }
{
    texts.tasks().tell_texts_apart();
    texts.names().tell_texts_apart();
}

/// Groups the names of segments: a group for each different name, in the order in which a catalogue
/// numbers them, with how many segments have it. A trace has at most one segment of a name, so this
/// is in how many traces it occurs. The only error is out of memory.
pub fn group_names(
    alloc: Global,
    texts: &Texts,
    names: &[NameNumbers],
) -> Result<Vec<Group>, AllocError>
    requires { All (HasTexts texts.now) names.now }
    ensures groups { IfOk result
        (λ groups. groups.items ≡ groups_of same_name (names_under texts.now names.now)) }
    ensures different { IfOk result (λ groups. map (first_of (names_under texts.now names.now))
        groups.items ≡ different_names (names_under texts.now names.now)) }
    ensures within { IfOk result (λ groups.
        All (λ (g : Group). g.first < length names.now) groups.items) }
{
    state_texts_differ(texts);
    group_alike(alloc, names)
}

/// Lists the numbers of the tasks of names.
fn list_tasks(alloc: Global, names: &[NameNumbers]) -> Result<Vec<u32>, AllocError>
    ensures { IfOk result (λ tasks. tasks.items ≡ map task_number names.now) }
{
    let mut tasks = Vec::with_capacity(alloc, names.len())?;
    'names: for index in 0..names.len() {
        tasks.push(names[index].0)?;
    }
    Ok(tasks)
}

/// Groups the tasks of segments with these names: a group for each different task, in the order in
/// which a catalogue numbers them, with how many segments it has. The only error is out of memory.
pub fn group_tasks(
    alloc: Global,
    texts: &Texts,
    names: &[NameNumbers],
) -> Result<Vec<Group>, AllocError>
    requires { All (HasTexts texts.now) names.now }
    ensures groups { IfOk result
        (λ groups. groups.items ≡ groups_of bytes_eq (tasks_in (names_under texts.now names.now))) }
    ensures different { IfOk result (λ groups. map (first_task_of (names_under texts.now names.now))
        groups.items ≡ different_tasks (names_under texts.now names.now)) }
    ensures within { IfOk result (λ groups.
        All (λ (g : Group). g.first < length names.now) groups.items) }
{
    state_texts_differ(texts);
    let tasks = list_tasks(alloc, names)?;
    group_alike(alloc, &tasks)
}
