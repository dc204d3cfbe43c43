ghost use Rattle.std.specs.Prelude.{◌≡◌, ◌++◌, ◌<◌, ◌^◌, All, List, OnOk, drop, length};
ghost use Rattle.std.specs.List.{AllZip, flat_map};
ghost use Rattle.alike_groups.specs.declared.group.Group.{Group};
ghost use Rattle.name_quality.specs.Names.{HasNames, HasTexts, all_names, names_under};
ghost use Rattle.trace_types.specs.Batch.{PlainTrace};
ghost use Rattle.trace_types.specs.Segments.{SegmentName};
ghost use Rattle.trace_types.specs.Times.{AreTimely};
ghost use Rattle.inspect_run.specs.NameRows.{alone_level, alone_row, family_row, limit_level};
ghost use Rattle.inspect_run.specs.NameRows.{limit_row, subject_kind};
ghost use Rattle.inspect_run.specs.Rows.{row_text};
ghost use Rattle.inspect_run.specs.declared.level.Level.TheVariants.{Note};
ghost use Rattle.inspect_run.specs.inner.Listing.{AppendsNameRows, AppendsNames, AppendsTasks};
ghost use Rattle.inspect_run.specs.inner.Listing.{label_of, labels_at, name_at, pattern_for};
ghost use Rattle.inspect_run.specs.inner.Listing.{patterns_at};

use crate::Level;
use crate::listed::Listed;
use crate::row::push_byte_row;
use crate::subject::Subject;
use alike_groups::Group;
use event_table::{GatheredEvents, Texts};
use name_quality::{
    NameNumbers, find_name_families, find_task_families, gather_names, group_names, group_tasks,
    list_alone,
};
use std::alloc::{AllocError, Global};

/// Lends the groups beyond so many.
fn groups_beyond(groups: &[Group], limit: usize) -> &[Group]
    ensures { result.now ≡ drop limit groups.now }
{
    if limit < groups.len() {
        &groups[limit..]
    } else {
        &[]
    }
}

/// Gives the level of so many, where other commands take at most a limit.
fn limit_level(count: usize, limit: usize) -> Level
    ensures { result ≡ limit_level count limit }
{
    if limit < count {
        Level::Warn
    } else {
        Level::Fine
    }
}

/// Appends the row that tells how many there are, against the most that other commands take.
fn push_limit(alloc: Global, text: &mut Vec<u8>, listed: &Listed<'_>) -> Result<(), AllocError>
    ensures { OnOk result (text.new.items ≡ text.old.items
        ++ limit_row listed.now.subject (labels_at listed.now listed.now.groups.now)) }
{
    let subject = listed.subject;
    let limit = subject.limit();
    let count = listed.groups.len();
    let example = listed.make_example(alloc, groups_beyond(listed.groups, limit))?;
    push_byte_row(
        text,
        subject.kind(),
        limit_level(count, limit),
        count as u64,
        limit as u64,
        &example,
        subject.text().as_bytes(),
    )
}

/// Gives the level of so many names that one trace alone has.
fn alone_level(count: usize) -> Level
    ensures { result ≡ alone_level count }
{
    if count == 0 { Level::Fine } else { Level::Note }
}

/// Appends the row of the names that one trace alone has.
fn push_alone(
    alloc: Global,
    text: &mut Vec<u8>,
    listed: &Listed<'_>,
    alone: &[Group],
) -> Result<(), AllocError>
    requires { All (λ (g : Group). g.first < length listed.now.names.now) alone.now }
    ensures { OnOk result (text.new.items ≡ text.old.items ++ alone_row
        (labels_at listed.now listed.now.groups.now) (labels_at listed.now alone.now)) }
{
    let example = listed.make_example(alloc, alone)?;
    push_byte_row(
        text,
        "name",
        alone_level(alone.len()),
        alone.len() as u64,
        listed.groups.len() as u64,
        &example,
        b"in one trace alone",
    )
}

/// Appends the row of a family of so many, by the group of its first.
fn push_group(
    alloc: Global,
    text: &mut Vec<u8>,
    listed: &Listed<'_>,
    group: Group,
    count: u64,
) -> Result<(), AllocError>
    requires { group.first < length listed.now.names.now }
    ensures { OnOk result (text.new.items ≡ text.old.items ++ row_text
        (subject_kind listed.now.subject) Note count (length listed.now.groups.now)
        (label_of listed.now.subject (name_at listed.now group))
        (pattern_for listed.now.subject (name_at listed.now group))) }
{
    let label = listed.make_label(alloc, group)?;
    let pattern = listed.make_pattern(alloc, group)?;
    push_byte_row(
        text,
        listed.subject.kind(),
        Level::Note,
        count,
        listed.groups.len() as u64,
        &label,
        &pattern,
    )
}

/// Appends the row of a family.
fn push_family(
    alloc: Global,
    text: &mut Vec<u8>,
    listed: &Listed<'_>,
    family: Group,
) -> Result<(), AllocError>
    requires { family.first < length listed.now.groups.now }
    ensures { OnOk result (text.new.items ≡ text.old.items ++ family_row listed.now.subject
        (labels_at listed.now listed.now.groups.now)
        (patterns_at listed.now listed.now.groups.now) family) }
{
    push_group(
        alloc,
        text,
        listed,
        listed.groups[family.first],
        family.count as u64,
    )
}

/// Appends the rows of families.
fn push_families(
    alloc: Global,
    text: &mut Vec<u8>,
    listed: &Listed<'_>,
    families: &[Group],
) -> Result<(), AllocError>
    requires { All (λ (f : Group). f.first < length listed.now.groups.now) families.now }
    ensures { OnOk result (text.new.items ≡ text.old.items ++ flat_map
        (family_row listed.now.subject (labels_at listed.now listed.now.groups.now)
        (patterns_at listed.now listed.now.groups.now)) families.now) }
{
    'families: for index in 0..families.len() {
        push_family(alloc, text, listed, families[index])?;
    }
    Ok(())
}

/// Appends the rows on names that are listed.
fn push_name_list(
    alloc: Global,
    text: &mut Vec<u8>,
    listed: &Listed<'_>,
    alone: &[Group],
    families: &[Group],
) -> Result<(), AllocError>
    requires alone { All (λ (g : Group). g.first < length listed.now.names.now) alone.now }
    requires within { All (λ (f : Group). f.first < length listed.now.groups.now) families.now }
    ensures { OnOk result (text.new.items ≡ text.old.items
        ++ (limit_row listed.now.subject (labels_at listed.now listed.now.groups.now)
        ++ alone_row (labels_at listed.now listed.now.groups.now) (labels_at listed.now alone.now)
        ++ flat_map (family_row listed.now.subject (labels_at listed.now listed.now.groups.now)
        (patterns_at listed.now listed.now.groups.now)) families.now)) }
{
    push_limit(alloc, text, listed)?;
    push_alone(alloc, text, listed, alone)?;
    push_families(alloc, text, listed, families)
}

/// Appends the rows on tasks that are listed.
fn push_task_list(
    alloc: Global,
    text: &mut Vec<u8>,
    listed: &Listed<'_>,
    families: &[Group],
) -> Result<(), AllocError>
    requires { All (λ (f : Group). f.first < length listed.now.groups.now) families.now }
    ensures { OnOk result (text.new.items ≡ text.old.items
        ++ (limit_row listed.now.subject (labels_at listed.now listed.now.groups.now)
        ++ flat_map (family_row listed.now.subject (labels_at listed.now listed.now.groups.now)
        (patterns_at listed.now listed.now.groups.now)) families.now)) }
{
    push_limit(alloc, text, listed)?;
    push_families(alloc, text, listed, families)
}

/// Appends the rows on the names of segments.
fn push_names(
    alloc: Global,
    text: &mut Vec<u8>,
    texts: &Texts,
    names: &[NameNumbers],
) -> Result<(), AllocError>
    requires { All (HasTexts texts.now) names.now }
    ensures { (traces : List PlainTrace) (named : List (List SegmentName))
        → AllZip HasNames traces named → names_under texts.now names.now ≡ all_names named
        → OnOk result (AppendsNames named text.old.items text.new.items) }
{
    let groups = group_names(alloc, texts, names)?;
    let alone = list_alone(alloc, &groups)?;
    let families = find_name_families(alloc, texts, names, &groups)?;
    let listed = Listed {
        subject: Subject::Names,
        texts,
        names,
        groups: &groups,
    };
    push_name_list(alloc, text, &listed, &alone, &families)
}

/// Appends the rows on the tasks of segments.
fn push_tasks(
    alloc: Global,
    text: &mut Vec<u8>,
    texts: &Texts,
    names: &[NameNumbers],
) -> Result<(), AllocError>
    requires { All (HasTexts texts.now) names.now }
    ensures { OnOk result (AppendsTasks (names_under texts.now names.now) text.old.items
        text.new.items) }
{
    let groups = group_tasks(alloc, texts, names)?;
    let families = find_task_families(alloc, texts, names, &groups)?;
    let listed = Listed {
        subject: Subject::Tasks,
        texts,
        names,
        groups: &groups,
    };
    push_task_list(alloc, text, &listed, &families)
}

/// Appends the rows on the names and the tasks of the segments of traces. The only error is out of
/// memory.
pub(crate) fn push_name_rows(
    alloc: Global,
    text: &mut Vec<u8>,
    traces: &GatheredEvents,
) -> Result<(), AllocError>
    requires few { All (λ (t : PlainTrace). length t.events < 2 ^ 32) traces.now.traces }
    requires timely { All (λ (t : PlainTrace). AreTimely t.events) traces.now.traces }
    ensures { OnOk result (AppendsNameRows traces.now.traces text.old.items text.new.items) }
{
    let names = gather_names(alloc, traces)?;
    push_names(alloc, text, traces.texts(), &names)?;
    push_tasks(alloc, text, traces.texts(), &names)
}
