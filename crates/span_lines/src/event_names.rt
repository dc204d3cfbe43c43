ghost use Rattle.std.specs.Prelude.{◌≡◌, ◌<◌, ◌++◌, [], codes, length, map, slice_index_or, IfOk};

use std::alloc::{AllocError, Global};
use std::marker::Model;
use trace_types::Text;

/// The names of the events of contexts, seen as the list of the names of contexts: those of starts
/// and ends are made once.
#[derive(Debug, Drop)]
pub(crate) struct EventNames {
    labels: Vec<Text>,
    starts: Vec<Text>,
    ends: Vec<Text>,
}

impl Model for EventNames {
    ghost use Rattle.std.specs.Prelude.{List, ℕ};
    ghost use Rattle.span_lines.specs.inner.LabelTables.{AreLabelled};

    ghost Value = { List (List ℕ) };

    ghost view = { λ a. a.labels.items };

    ghost invariant = { λ a. AreLabelled a.labels.items a.starts.items a.ends.items };
}

/// Makes the name of a context with a word behind it.
fn with_word(alloc: Global, label: &Text, word: &str) -> Result<Text, AllocError>
    ensures { IfOk result (λ name. name ≡ label.now ++ word.now) }
{
    let mut name = String::from_str(alloc, label.as_str())?;
    name.push_str(word)?;
    Text::new(alloc, name.as_str())
}

/// Makes the names of contexts with a word behind each.
fn with_words(alloc: Global, labels: &[Text], word: &str) -> Result<Vec<Text>, AllocError>
    ensures { IfOk result (λ names. names.items ≡ map (λ l. l ++ word.now) labels.now) }
{
    let mut names = Vec::with_capacity(alloc, labels.len())?;
    for label in labels {
        names.push(with_word(alloc, label, word)?)?;
    }
    Ok(names)
}

impl EventNames {
    /// Makes the names of the events of contexts with these names. The only error is out of memory.
    pub(crate) fn new(alloc: Global, labels: Vec<Text>) -> Result<EventNames, AllocError>
        ensures { IfOk result (λ names. names ≡ labels.items) }
    {
        let starts = with_words(alloc, &labels, " start")?;
        let ends = with_words(alloc, &labels, " end")?;
        Ok(EventNames {
            labels,
            starts,
            ends,
        })
    }

    /// Lends the name of the starts of a context.
    pub(crate) fn start(&self, context: usize) -> &Text
        requires { context < length self.now }
        ensures { result.now ≡ slice_index_or self.now context [] ++ codes " start" }
    {
        &self.starts[context]
    }

    /// Lends the name of the ends of a context.
    pub(crate) fn end(&self, context: usize) -> &Text
        requires { context < length self.now }
        ensures { result.now ≡ slice_index_or self.now context [] ++ codes " end" }
    {
        &self.ends[context]
    }

    /// Makes the name of the forks of a context. The only error is out of memory.
    pub(crate) fn fork(&self, alloc: Global, context: usize) -> Result<Text, AllocError>
        requires { context < length self.now }
        ensures { IfOk result
            (λ name. name ≡ slice_index_or self.now context [] ++ codes " forks") }
    {
        with_word(alloc, &self.labels[context], " forks")
    }

    /// Makes the name of the joins of a context. The only error is out of memory.
    pub(crate) fn join(&self, alloc: Global, context: usize) -> Result<Text, AllocError>
        requires { context < length self.now }
        ensures { IfOk result
            (λ name. name ≡ slice_index_or self.now context [] ++ codes " joined") }
    {
        with_word(alloc, &self.labels[context], " joined")
    }
}
