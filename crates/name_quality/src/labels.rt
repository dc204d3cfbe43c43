ghost use Rattle.std.specs.Prelude.{◌≡◌, ◌++◌, ◌<◌, All, IfOk, List, OnOk, length, map, ℕ};
ghost use Rattle.std.specs.Str.{bytes_eq};
ghost use Rattle.alike_groups.specs.Groups.{groups_of};
ghost use Rattle.alike_groups.specs.declared.group.Group.{Group};
ghost use Rattle.event_table.specs.Numbers.{text_under};
ghost use Rattle.name_patterns.specs.Families.{AreFamilies};
ghost use Rattle.name_patterns.specs.Patterns.{pattern_of};
ghost use Rattle.name_patterns.specs.inner.Lists.{bytes_in};
ghost use Rattle.segment_names.specs.Known.{same_name};
ghost use Rattle.name_quality.specs.Names.{HasTexts, different_names, different_tasks, name_label};
ghost use Rattle.name_quality.specs.Names.{tasks_in};
ghost use Rattle.name_quality.specs.Names.{name_pattern, name_under, names_under};
ghost use Rattle.name_quality.specs.inner.Labels.{name_pattern_at, task_pattern_at};

use crate::NameNumbers;
use alike_groups::Group;
use event_table::Texts;
use name_patterns::{find_families, push_pattern};
use std::alloc::{AllocError, Global};

/// Appends a name: a task, a start event and an end event. The only error is out of memory.
#[tactic(auto, unfolding(crate::specs::Names::name_label))]
pub fn push_label(
    text: &mut Vec<u8>,
    task: &[u8],
    start: &[u8],
    end: &[u8],
) -> Result<(), AllocError>
    ensures { OnOk result (text.new.items
        ≡ text.old.items ++ name_label (task.now, start.now, end.now)) }
{
    text.extend_from_slice(task)?;
    text.extend_from_slice(b": ")?;
    text.extend_from_slice(start)?;
    text.extend_from_slice(b" -> ")?;
    text.extend_from_slice(end)
}

/// Appends the pattern of a name.
#[tactic(auto, unfolding(crate::specs::Names::name_label))]
fn push_label_pattern(
    text: &mut Vec<u8>,
    task: &[u8],
    start: &[u8],
    end: &[u8],
) -> Result<(), AllocError>
    ensures { OnOk result (text.new.items
        ≡ text.old.items ++ name_pattern (task.now, start.now, end.now)) }
{
    push_pattern(text, task)?;
    text.extend_from_slice(b": ")?;
    push_pattern(text, start)?;
    text.extend_from_slice(b" -> ")?;
    push_pattern(text, end)
}

/// Lends the bytes of the text of a task.
fn task_bytes(texts: &Texts, number: u32) -> &[u8]
    requires { number < length texts.now.tasks }
    ensures { result.now ≡ text_under texts.now.tasks number }
{
    texts.tasks().text(number).as_str().as_bytes()
}

/// Lends the bytes of the name of an event.
fn event_bytes(texts: &Texts, number: u32) -> &[u8]
    requires { number < length texts.now.names }
    ensures { result.now ≡ text_under texts.now.names number }
{
    texts.names().text(number).as_str().as_bytes()
}

/// Appends the name of a segment: its task, its start event and its end event.
pub fn push_name(text: &mut Vec<u8>, texts: &Texts, name: NameNumbers) -> Result<(), AllocError>
    requires { HasTexts texts.now name }
    ensures { OnOk result
        (text.new.items ≡ text.old.items ++ name_label (name_under texts.now name)) }
{
    let task = task_bytes(texts, name.0);
    push_label(
        text,
        task,
        event_bytes(texts, name.1),
        event_bytes(texts, name.2),
    )
}

/// Appends the pattern of the name of a segment.
pub fn push_name_pattern(
    text: &mut Vec<u8>,
    texts: &Texts,
    name: NameNumbers,
) -> Result<(), AllocError>
    requires { HasTexts texts.now name }
    ensures { OnOk result
        (text.new.items ≡ text.old.items ++ name_pattern (name_under texts.now name)) }
{
    let task = task_bytes(texts, name.0);
    push_label_pattern(
        text,
        task,
        event_bytes(texts, name.1),
        event_bytes(texts, name.2),
    )
}

/// Appends the task of the name of a segment.
pub fn push_task(text: &mut Vec<u8>, texts: &Texts, name: NameNumbers) -> Result<(), AllocError>
    requires { HasTexts texts.now name }
    ensures { OnOk result
        (text.new.items ≡ text.old.items ++ (name_under texts.now name).0) }
{
    text.extend_from_slice(task_bytes(texts, name.0))
}

/// Appends the pattern of the task of the name of a segment.
pub fn push_task_pattern(
    text: &mut Vec<u8>,
    texts: &Texts,
    name: NameNumbers,
) -> Result<(), AllocError>
    requires { HasTexts texts.now name }
    ensures { OnOk result
        (text.new.items ≡ text.old.items ++ pattern_of (name_under texts.now name).0) }
{
    push_pattern(text, task_bytes(texts, name.0))
}

/// Makes the pattern of a name.
fn make_name_pattern(alloc: Global, texts: &Texts, name: NameNumbers) -> Result<Vec<u8>, AllocError>
    requires { HasTexts texts.now name }
    ensures { IfOk result (λ text. text.items ≡ name_pattern (name_under texts.now name)) }
{
    let mut text = Vec::new(alloc);
    push_name_pattern(&mut text, texts, name)?;
    Ok(text)
}

/// Makes the pattern of the task of a name.
fn make_task_pattern(alloc: Global, texts: &Texts, name: NameNumbers) -> Result<Vec<u8>, AllocError>
    requires { HasTexts texts.now name }
    ensures { IfOk result (λ text. text.items ≡ pattern_of (name_under texts.now name).0) }
{
    let mut text = Vec::new(alloc);
    push_task_pattern(&mut text, texts, name)?;
    Ok(text)
}

/// Lists the patterns of the first name of each group.
fn list_name_patterns(
    alloc: Global,
    texts: &Texts,
    names: &[NameNumbers],
    groups: &[Group],
) -> Result<Vec<Vec<u8>>, AllocError>
    requires texts { All (HasTexts texts.now) names.now }
    requires within { All (λ (g : Group). g.first < length names.now) groups.now }
    ensures { IfOk result (λ patterns. map bytes_in patterns.items
        ≡ map (name_pattern_at texts.now names.now) groups.now) }
{
    let mut patterns = Vec::with_capacity(alloc, groups.len())?;
    'groups: for index in 0..groups.len() {
        patterns.push(make_name_pattern(alloc, texts, names[groups[index].first])?)?;
    }
    Ok(patterns)
}

/// Lists the patterns of the task of the first name of each group.
fn list_task_patterns(
    alloc: Global,
    texts: &Texts,
    names: &[NameNumbers],
    groups: &[Group],
) -> Result<Vec<Vec<u8>>, AllocError>
    requires texts { All (HasTexts texts.now) names.now }
    requires within { All (λ (g : Group). g.first < length names.now) groups.now }
    ensures { IfOk result (λ patterns. map bytes_in patterns.items
        ≡ map (task_pattern_at texts.now names.now) groups.now) }
{
    let mut patterns = Vec::with_capacity(alloc, groups.len())?;
    'groups: for index in 0..groups.len() {
        patterns.push(make_task_pattern(alloc, texts, names[groups[index].first])?)?;
    }
    Ok(patterns)
}

/// Finds the families of names, of which these are the groups: of each the index of the group of
/// its first name, and how many names it has. The only error is out of memory.
pub fn find_name_families(
    alloc: Global,
    texts: &Texts,
    names: &[NameNumbers],
    groups: &[Group],
) -> Result<Vec<Group>, AllocError>
    requires texts { All (HasTexts texts.now) names.now }
    requires groups { groups.now ≡ groups_of same_name (names_under texts.now names.now) }
    requires within { All (λ (g : Group). g.first < length names.now) groups.now }
    ensures families { IfOk result (λ families. AreFamilies
        (map name_pattern (different_names (names_under texts.now names.now))) families.items) }
    ensures within { IfOk result (λ families.
        All (λ (g : Group). g.first < length groups.now) families.items) }
{
    let patterns = list_name_patterns(alloc, texts, names, groups)?;
    find_families(alloc, &patterns)
}

/// Finds the families of tasks likewise.
pub fn find_task_families(
    alloc: Global,
    texts: &Texts,
    names: &[NameNumbers],
    groups: &[Group],
) -> Result<Vec<Group>, AllocError>
    requires texts { All (HasTexts texts.now) names.now }
    requires groups { groups.now ≡ groups_of bytes_eq (tasks_in (names_under texts.now names.now)) }
    requires within { All (λ (g : Group). g.first < length names.now) groups.now }
    ensures families { IfOk result (λ families. AreFamilies
        (map pattern_of (different_tasks (names_under texts.now names.now))) families.items) }
    ensures within { IfOk result (λ families.
        All (λ (g : Group). g.first < length groups.now) families.items) }
{
    let patterns = list_task_patterns(alloc, texts, names, groups)?;
    find_families(alloc, &patterns)
}
