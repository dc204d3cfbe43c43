ghost use Rattle.std.specs.Prelude.{◌≡◌, ◌∷◌, ℕ, List, codes};
ghost use Rattle.std.specs.List.{flat_map};
ghost use Rattle.digest_facts.specs.Digests.{Digest};
ghost use Rattle.judged_books.specs.JudgedBooks.{IsJudgedOf};
ghost use Rattle.view_rows.specs.inner.Found.{figures_in};
ghost use Rattle.session_rules.specs.KeptTraces.{Kept};
ghost use Rattle.session_rules.specs.ModelTexts.{IsModelHead, IsModelText, header_row, model_text};
ghost use Rattle.session_rules.specs.ModelTexts.{pair_row, pipe_row};
ghost use Rattle.text_rows.specs.Printing.{print_faults, PrintsText};
ghost use Rattle.text_rows.specs.TextsOfParts.{PrintsPart};
ghost use Rattle.trace_types.specs.Segments.{SegmentName};

use crate::found_model::{FoundModel, find_model};
use crate::name_pair::NamePair;
use crate::shown::found_is_shown;
use crate::task_pair::TaskPair;
use judged_books::JudgedBook;
use mystery_io::Sink;
use std::alloc::Global;
use text_rows::laws::calls_follow;
use text_rows::{Field, PrintFault, RowBuffer, Rows, print_row, print_rows};
use trace_types::NameText;

/// Rows of pairs of names, with the word that they begin with.
#[derive(Clone, Copy)]
struct NameRows<'a> {
    word: &'a str,
}

impl<'a> Rows for NameRows<'a> {
    type Item = NamePair<'a>;

    ghost text = { λ rows pair. pair_row rows.word.now pair };

    fn print<S: Sink>(
        &self,
        sink: &mut S,
        buffer: &mut RowBuffer,
        pair: &NamePair<'a>,
    ) -> Result<(), PrintFault> {
        print_pair(sink, buffer, self.word, pair.first, pair.second)
    }
}

/// Prints the row of two names.
fn print_pair<S: Sink>(
    sink: &mut S,
    buffer: &mut RowBuffer,
    word: &str,
    first: &NameText,
    second: &NameText,
) -> Result<(), PrintFault>
    ensures { PrintsText S.written S.faults result sink.old sink.new buffer.old buffer.new
        (pair_row word.now (first.now, second.now)) }
{
    print_row(
        sink,
        buffer,
        &[
            Field::Word(word),
            Field::Word(first.task.as_str()),
            Field::Word(first.start.as_str()),
            Field::Word(first.end.as_str()),
            Field::Word(second.task.as_str()),
            Field::Word(second.start.as_str()),
            Field::Word(second.end.as_str()),
        ],
    )
}

/// Rows of pipelines.
#[derive(Clone, Copy)]
struct PipeRows<'a> {
    word: &'a str,
}

impl<'a> Rows for PipeRows<'a> {
    type Item = TaskPair<'a>;

    ghost use Rattle.std.specs.Prelude.{◌∷◌, []};
    ghost use Rattle.text_rows.specs.Rows.{row_of};

    ghost text = { λ rows pair. row_of (rows.word.now ∷ pair.0 ∷ pair.1 ∷ []) };

    fn print<S: Sink>(
        &self,
        sink: &mut S,
        buffer: &mut RowBuffer,
        pair: &TaskPair<'a>,
    ) -> Result<(), PrintFault> {
        print_row(
            sink,
            buffer,
            &[
                Field::Word(self.word),
                Field::Word(pair.from.as_str()),
                Field::Word(pair.to.as_str()),
            ],
        )
    }
}

/// Prints the header.
fn print_header<S: Sink>(
    sink: &mut S,
    buffer: &mut RowBuffer,
    model: &FoundModel<'_>,
) -> Result<(), PrintFault>
    ensures { PrintsText S.written S.faults result sink.old sink.new buffer.old buffer.new
        (header_row model.now.traces (figures_in model.now)) }
{
    print_row(
        sink,
        buffer,
        &[
            Field::Word("model"),
            Field::Figure("traces", model.traces),
            Field::Figure("days", model.days),
            Field::Figure("segments", u128::from(model.names)),
            Field::Figure("tasks", u128::from(model.tasks)),
            Field::Figure("hb", model.hb.len() as u128),
            Field::Figure("mx", model.mx.len() as u128),
            Field::Figure("pipe", model.pipe.len() as u128),
        ],
    )
}

/// Prints the ordered pairs of names.
fn print_orders<S: Sink>(
    sink: &mut S,
    buffer: &mut RowBuffer,
    model: &FoundModel<'_>,
) -> Result<(), PrintFault>
    ensures { PrintsText S.written S.faults result sink.old sink.new buffer.old buffer.new
        (flat_map (pair_row (codes "hb")) model.now.hb.items) }
{
    print_rows(sink, buffer, &NameRows { word: "hb" }, &model.hb)
}

/// Prints the mutually exclusive pairs of names.
fn print_exclusions<S: Sink>(
    sink: &mut S,
    buffer: &mut RowBuffer,
    model: &FoundModel<'_>,
) -> Result<(), PrintFault>
    ensures { PrintsText S.written S.faults result sink.old sink.new buffer.old buffer.new
        (flat_map (pair_row (codes "mx")) model.now.mx.items) }
{
    print_rows(sink, buffer, &NameRows { word: "mx" }, &model.mx)
}

/// Prints the pipelines.
fn print_pipes<S: Sink>(
    sink: &mut S,
    buffer: &mut RowBuffer,
    model: &FoundModel<'_>,
) -> Result<(), PrintFault>
    ensures { PrintsText S.written S.faults result sink.old sink.new buffer.old buffer.new
        (flat_map pipe_row model.now.pipe.items) }
{
    print_rows(sink, buffer, &PipeRows { word: "pipe" }, &model.pipe)
}

/// Prints a model that was found.
fn print_found<S: Sink>(
    sink: &mut S,
    buffer: &mut RowBuffer,
    model: &FoundModel<'_>,
) -> Result<(), PrintFault>
    ensures { PrintsText S.written S.faults result sink.old sink.new buffer.old buffer.new
        (model_text model.now.traces (figures_in model.now)) }
{
    // For the proof alone.
    calls_follow::<S>();
    print_header(sink, buffer, model)?;
    print_orders(sink, buffer, model)?;
    print_exclusions(sink, buffer, model)?;
    print_pipes(sink, buffer, model)
}

/// Prints the model of the given digest and the kept traces of a book: a header with the figures, the ordered pairs of
/// names, the mutually exclusive pairs and the pipelines, each kind in rising order. All pairs are
/// found before the header is printed. After an error a prefix of the text was printed, or nothing
/// of it.
pub fn print_model<S: Sink>(
    alloc: Global,
    book: &JudgedBook<'_>,
    sink: &mut S,
    buffer: &mut RowBuffer,
) -> Result<(), PrintFault>
    ensures printed { (given : Digest SegmentName (List ℕ)) (kept : List Kept)
        → IsJudgedOf book.now given kept
        → PrintsPart S.written S.faults result sink.old sink.new (IsModelText given kept)
        buffer.old buffer.new }
    ensures counted { S.faults sink.new ≡ print_faults result (S.faults sink.old) }
{
    found_is_shown();
    let model = find_model(alloc, book)?;
    print_found(sink, buffer, &model)
}

/// Prints the header alone of what `print_model` prints.
pub(crate) fn print_model_head<S: Sink>(
    alloc: Global,
    book: &JudgedBook<'_>,
    sink: &mut S,
    buffer: &mut RowBuffer,
) -> Result<(), PrintFault>
    ensures printed { (given : Digest SegmentName (List ℕ)) (kept : List Kept)
        → IsJudgedOf book.now given kept
        → PrintsPart S.written S.faults result sink.old sink.new (IsModelHead given kept)
        buffer.old buffer.new }
    ensures counted { S.faults sink.new ≡ print_faults result (S.faults sink.old) }
{
    found_is_shown();
    let model = find_model(alloc, book)?;
    print_header(sink, buffer, &model)
}
