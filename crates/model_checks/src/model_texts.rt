ghost use Rattle.std.specs.Prelude.{◌≡◌, ◌≤◌, length};
ghost use Rattle.hypothesis_index.specs.Places.{width_of};

use crate::plain::PlainModel;
use hypothesis_index::width;
use model_meet::Model;
use segment_names::Catalogue;
use std::alloc::{AllocError, Global};
use trace_types::NameText;

/// Lists the numbers of all names, by name order.
fn names_in_order(alloc: Global, catalogue: &Catalogue) -> Result<Vec<u32>, AllocError> {
    let mut texts = Vec::with_capacity(alloc, 16)?;
    for name in 0..catalogue.names() {
        texts.push((catalogue.text_of(name).copy(alloc)?, name))?;
    }
    texts.sort()?;
    let mut names = Vec::with_capacity(alloc, texts.len())?;
    for entry in &texts {
        names.push(entry.1)?;
    }
    Ok(names)
}

/// Appends a row of fields, separated by tabs.
fn push_row(text: &mut String, fields: &[&str]) -> Result<(), AllocError> {
    let mut separator = "";
    for field in fields {
        text.push_str(separator)?;
        text.push_str(field)?;
        separator = "\t";
    }
    text.push_str("\n")
}

/// Appends a row of two names.
fn push_pair(
    text: &mut String,
    word: &str,
    first: &NameText,
    second: &NameText,
) -> Result<(), AllocError> {
    push_row(
        text,
        &[
            word,
            first.task.as_str(),
            first.start.as_str(),
            first.end.as_str(),
            second.task.as_str(),
            second.start.as_str(),
            second.end.as_str(),
        ],
    )
}

/// Appends the rows of ordered pairs of these names that the words tell.
fn push_orders(
    text: &mut String,
    catalogue: &Catalogue,
    words: &[u64],
    names: &[u32],
) -> Result<(), AllocError>
    requires few { length catalogue.now.names ≤ 512 }
    requires width { length words.now ≡ width_of (length catalogue.now.names) }
{
    let count = catalogue.names();
    let model = Model::new(words, count);
    for a in names {
        for b in names {
            let (a, b) = (*a, *b);
            if a != b && a < count && b < count && model.lists_order(a, b) {
                push_pair(text, "hb", catalogue.text_of(a), catalogue.text_of(b))?;
            }
        }
    }
    Ok(())
}

/// Appends the rows of exclusive pairs of these names that the words tell.
fn push_exclusions(
    text: &mut String,
    catalogue: &Catalogue,
    words: &[u64],
    names: &[u32],
) -> Result<(), AllocError>
    requires few { length catalogue.now.names ≤ 512 }
    requires width { length words.now ≡ width_of (length catalogue.now.names) }
{
    let count = catalogue.names();
    let model = Model::new(words, count);
    for (place, a) in names.iter().enumerate() {
        for b in &names[place..] {
            let (a, b) = (*a, *b);
            if a != b && a < count && b < count && model.lists_exclusion(a, b) {
                push_pair(text, "mx", catalogue.text_of(a), catalogue.text_of(b))?;
            }
        }
    }
    Ok(())
}

/// Appends the rows of pipelines of tasks that the words tell, in their order by number.
fn push_pipes(text: &mut String, catalogue: &Catalogue, words: &[u64]) -> Result<(), AllocError>
    requires few { length catalogue.now.names ≤ 512 }
    requires width { length words.now ≡ width_of (length catalogue.now.names) }
{
    let model = Model::new(words, catalogue.names());
    let tasks = catalogue.tasks().min(64);
    for t in 0..tasks {
        for u in 0..tasks {
            if t != u && model.lists_pipe(t, u) {
                let (from, to) = (catalogue.task_text(t), catalogue.task_text(u));
                push_row(text, &["pipe", from.as_str(), to.as_str()])?;
            }
        }
    }
    Ok(())
}

/// Appends the rows of ordered pairs and of exclusive pairs of these names, and of pipelines.
fn push_relations(
    text: &mut String,
    catalogue: &Catalogue,
    words: &[u64],
    names: &[u32],
) -> Result<(), AllocError>
    requires few { length catalogue.now.names ≤ 512 }
    requires width { length words.now ≡ width_of (length catalogue.now.names) }
{
    push_orders(text, catalogue, words, names)?;
    push_exclusions(text, catalogue, words, names)?;
    push_pipes(text, catalogue, words)
}

/// Lists the rows of ordered pairs and of exclusive pairs of names that the model tells, in name
/// order, and of pipelines of tasks, in their order by number.
pub(crate) fn relations_text(
    alloc: Global,
    catalogue: &Catalogue,
    words: &[u64],
) -> Result<String, AllocError> {
    let count = catalogue.names();
    let names = names_in_order(alloc, catalogue)?;
    let mut text = String::new(alloc);
    if count <= 512 && words.len() == width(count) as usize {
        push_relations(&mut text, catalogue, words, names.as_slice())?;
    }
    Ok(text)
}

/// Lists the same rows of names by a plain model.
pub(crate) fn plain_relations_text(
    alloc: Global,
    model: &PlainModel,
) -> Result<String, AllocError> {
    let mut text = String::new(alloc);
    for pair in model.hb.items() {
        push_pair(&mut text, "hb", &pair.first, &pair.second)?;
    }
    for pair in model.mx.items() {
        push_pair(&mut text, "mx", &pair.first, &pair.second)?;
    }
    Ok(text)
}
