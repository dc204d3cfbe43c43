ghost use Rattle.std.specs.Prelude.{◌≡◌, ◌+◌, ◌<◌, ◌≤◌, ◌∷◌, [], codes, map, length, decimal};
ghost use Rattle.std.specs.Prelude.{Some, Err, IfOk, IfSome, IsTrue, OnErr, OnOk};
ghost use Rattle.std.specs.List.{concat};
ghost use Rattle.std.specs.Io.KnownBytes.{append_known};
ghost use Rattle.mystery_io.specs.Prefixes.{AppendsPrefix};
ghost use Rattle.text_rows.specs.Fields.{field_text};
ghost use Rattle.text_rows.specs.Printing.{print_faults, PrintsText};
ghost use Rattle.text_rows.specs.Rows.{row_of};
ghost use Rattle.word_rows.specs.Machine.{step};
ghost use Rattle.step_core.specs.StepLines.{is_start};
ghost use Rattle.mystery_run.specs.ReplayTexts.{hex_word, operand_of, replay_rows, replay_text};
ghost use Rattle.mystery_run.specs.ReplayTexts.{reply_row, seat_of, step_row};
ghost use Rattle.mystery_run.specs.inner.Replaying.{row_of_fault, steps_text};

use crate::hex::hex_text;
use arrayvec::ArrayString;
use mystery_io::Sink;
use std::alloc::{AllocError, Global};
use step_core::{Machine, Start, StepFault, StepFile};
use text_rows::laws::{calls_follow, flush_ends_a_text, texts_follow};
use text_rows::{Field, PrintFault, RowBuffer, flush, print_row};
use word_rows::{Reply, StepEvent};

/// Gives the seat that makes a step.
fn seat_of(step: &StepEvent) -> u64
    ensures { result ≡ seat_of step.now }
{
    match step {
        StepEvent::Clear { seat, .. } => u64::from(*seat),
        StepEvent::Load { seat, .. } => u64::from(*seat),
        StepEvent::Split { seat, .. } => u64::from(*seat),
        StepEvent::Join { seat, .. } => u64::from(*seat),
        StepEvent::Close { seat } => u64::from(*seat),
    }
}

/// Gives the number of a step besides its seat; 0 where it has none.
fn operand_of(step: &StepEvent) -> u64
    ensures { result ≡ operand_of step.now }
{
    match step {
        StepEvent::Clear { .. } => 0,
        StepEvent::Load { word, .. } => u64::from(*word),
        StepEvent::Split { shares, .. } => u64::from(*shares),
        StepEvent::Join { other, .. } => u64::from(*other),
        StepEvent::Close { .. } => 0,
    }
}

/// Makes the hexadecimal digits of words. The only error is that memory ran out.
fn hex_texts(alloc: Global, words: &[u64]) -> Result<Vec<ArrayString<16>>, AllocError>
    ensures { IfOk result (λ texts. map (λ text. text.bytes) texts.items
        ≡ map hex_word words.now) }
{
    let mut texts = Vec::with_capacity(alloc, words.len())?;
    for word in words {
        texts.push(hex_text(*word))?;
    }
    Ok(texts)
}

/// Makes the fields of the row of a close. The only error is that memory ran out.
fn close_fields<'t>(
    alloc: Global,
    seat: u64,
    words: &'t [ArrayString<16>],
) -> Result<Vec<Field<'t>>, AllocError>
    ensures { IfOk result (λ fields. map field_text fields.items
        ≡ codes "closed" ∷ decimal seat ∷ map (λ text. text.bytes) words.now) }
{
    let mut fields = Vec::new(alloc);
    fields.push(Field::Word("closed"))?;
    fields.push(Field::Number(u128::from(seat)))?;
    for word in words {
        fields.push(Field::Word(word.as_str()))?;
    }
    Ok(fields)
}

/// Prints the row of a reply to a close.
fn print_closed<S: Sink>(
    alloc: Global,
    out: &mut S,
    buffer: &mut RowBuffer,
    seat: u64,
    words: &[u64],
) -> Result<(), PrintFault>
    ensures { PrintsText S.written S.faults result out.old out.new buffer.old buffer.new
        (row_of (codes "closed" ∷ decimal seat ∷ map hex_word words.now)) }
{
    let texts = hex_texts(alloc, words)?;
    let fields = close_fields(alloc, seat, &texts)?;
    print_row(out, buffer, &fields)
}

/// Prints a row of a name, a seat and a word of the table.
fn print_word<S: Sink>(
    out: &mut S,
    buffer: &mut RowBuffer,
    name: &str,
    seat: u64,
    word: u64,
) -> Result<(), PrintFault>
    ensures { PrintsText S.written S.faults result out.old out.new buffer.old buffer.new
        (row_of (name.now ∷ decimal seat ∷ hex_word word ∷ [])) }
{
    let digits = hex_text(word);
    print_row(
        out,
        buffer,
        &[
            Field::Word(name),
            Field::Number(u128::from(seat)),
            Field::Word(digits.as_str()),
        ],
    )
}

/// Prints the row of a reply to a load.
fn print_loaded<S: Sink>(
    out: &mut S,
    buffer: &mut RowBuffer,
    seat: u64,
    word: u64,
    value: u64,
) -> Result<(), PrintFault>
    ensures { PrintsText S.written S.faults result out.old out.new buffer.old buffer.new
        (row_of (codes "loaded" ∷ decimal seat ∷ decimal word ∷ hex_word value ∷ [])) }
{
    let digits = hex_text(value);
    print_row(
        out,
        buffer,
        &[
            Field::Word("loaded"),
            Field::Number(u128::from(seat)),
            Field::Number(u128::from(word)),
            Field::Word(digits.as_str()),
        ],
    )
}

/// Prints the row of a reply.
fn print_reply<S: Sink>(
    alloc: Global,
    out: &mut S,
    buffer: &mut RowBuffer,
    step: &StepEvent,
    reply: &Reply,
) -> Result<(), PrintFault>
    ensures { PrintsText S.written S.faults result out.old out.new buffer.old buffer.new
        (reply_row step.now reply.now) }
{
    let seat = seat_of(step);
    let operand = operand_of(step);
    match reply {
        Reply::Cleared { old } => print_word(out, buffer, "cleared", seat, *old),
        Reply::Loaded { value } => print_loaded(out, buffer, seat, operand, *value),
        Reply::Split { seat: made } => {
            print_numbers(out, buffer, "split", seat, u64::from(*made))
        }
        Reply::Joined => print_numbers(out, buffer, "joined", seat, operand),
        Reply::Closed { words } => print_closed(alloc, out, buffer, seat, words.words()),
    }
}

/// Prints a row of a name and two numbers.
fn print_numbers<S: Sink>(
    out: &mut S,
    buffer: &mut RowBuffer,
    name: &str,
    first: u64,
    second: u64,
) -> Result<(), PrintFault>
    ensures { PrintsText S.written S.faults result out.old out.new buffer.old buffer.new
        (row_of (name.now ∷ decimal first ∷ decimal second ∷ [])) }
{
    print_row(
        out,
        buffer,
        &[
            Field::Word(name),
            Field::Number(u128::from(first)),
            Field::Number(u128::from(second)),
        ],
    )
}

/// Prints a row of a name and a number.
fn print_number<S: Sink>(
    out: &mut S,
    buffer: &mut RowBuffer,
    name: &str,
    number: u32,
) -> Result<(), PrintFault>
    ensures { PrintsText S.written S.faults result out.old out.new buffer.old buffer.new
        (row_of (name.now ∷ decimal number ∷ [])) }
{
    print_row(
        out,
        buffer,
        &[Field::Word(name), Field::Number(u128::from(number))],
    )
}

/// Prints the row of a fault; an allocation failure is an error.
fn print_fault<S: Sink>(
    out: &mut S,
    buffer: &mut RowBuffer,
    fault: StepFault,
) -> Result<(), PrintFault>
    ensures prints { PrintsText S.written S.faults result out.old out.new buffer.old
        buffer.new (row_of_fault fault) }
    ensures memory { fault ≡ StepFault.Memory → result ≡ Err PrintFault.Memory }
{
    match fault {
        StepFault::Memory => Err(PrintFault::Memory),
        StepFault::NoSeat { seat } => print_number(out, buffer, "no seat", seat),
        StepFault::BadShare { have, asked } => {
            print_numbers(out, buffer, "bad share", u64::from(have), u64::from(asked))
        }
        StepFault::BadWord { word, width } => {
            print_numbers(out, buffer, "bad word", u64::from(word), u64::from(width))
        }
        StepFault::SharesOut { have, all } => {
            print_numbers(out, buffer, "shares out", u64::from(have), u64::from(all))
        }
        StepFault::RowOpen { seat } => print_number(out, buffer, "row open", seat),
    }
}

/// Makes a step and prints the row of its reply or its fault.
fn print_step<S: Sink>(
    alloc: Global,
    out: &mut S,
    buffer: &mut RowBuffer,
    machine: &mut Machine,
    event: &StepEvent,
) -> Result<(), PrintFault>
    requires { length machine.old.views < 4294967295 }
    ensures prints { PrintsText S.written S.faults result out.old out.new buffer.old
        buffer.new (step_row (event.now, (step machine.old event.now).1)) }
    ensures stepped { OnOk result (machine.new ≡ (step machine.old event.now).0) }
    ensures seats { length machine.new.views ≤ length machine.old.views + 1 }
{
    // For the proof alone.
    texts_follow();
    match machine.step(event) {
        Ok(reply) => print_reply(alloc, out, buffer, event, &reply),
        Err(fault) => print_fault(out, buffer, fault),
    }
}

/// Makes steps and prints a row for each.
fn print_steps<S: Sink>(
    alloc: Global,
    out: &mut S,
    buffer: &mut RowBuffer,
    machine: &mut Machine,
    events: &[StepEvent],
) -> Result<(), PrintFault>
    requires { length machine.old.views + length events.now ≤ 4294967295 }
    ensures { PrintsText S.written S.faults result out.old out.new buffer.old buffer.new
        (steps_text machine.old events.now) }
{
    // For the proof alone.
    texts_follow();
    for event in events {
        print_step(alloc, out, buffer, machine, event)?;
    }
    Ok(())
}

/// Opens a machine, makes the steps, and prints a row for the opening and for each step.
fn print_run<S: Sink>(
    alloc: Global,
    out: &mut S,
    buffer: &mut RowBuffer,
    start: Start,
    events: &[StepEvent],
) -> Result<(), PrintFault>
    requires start { IsTrue (is_start start) }
    requires few { length events.now < 4294967295 }
    ensures { PrintsText S.written S.faults result out.old out.new buffer.old buffer.new
        (concat (replay_rows (Some start) events.now)) }
{
    // For the proof alone.
    calls_follow::<S>();
    let mut machine = Machine::new(alloc, start.width, start.shares)?;
    let (width, shares) = (u64::from(start.width), u64::from(start.shares));
    print_numbers(out, buffer, "opened", width, shares)?;
    print_steps(alloc, out, buffer, &mut machine, events)
}

/// Prints the rows of a replay; the last of them may still be in the buffer.
fn print_rows<S: Sink>(
    alloc: Global,
    out: &mut S,
    buffer: &mut RowBuffer,
    file: &StepFile,
) -> Result<(), PrintFault>
    requires start { IfSome file.now.start (λ start. IsTrue (is_start start)) }
    requires few { length file.now.events < 4294967295 }
    ensures { PrintsText S.written S.faults result out.old out.new buffer.old buffer.new
        (replay_text file.now) }
{
    match file.start {
        Some(start) => print_run(alloc, out, buffer, start, file.events.items()),
        None => Ok(()),
    }
}

/// Replays a file of steps: opens the machine, makes the steps, and prints a row for the opening
/// and for each step. A file without a start prints nothing.
pub(crate) fn print_replay<S: Sink>(
    alloc: Global,
    out: &mut S,
    file: &StepFile,
) -> Result<(), PrintFault>
    requires start { IfSome file.now.start (λ start. IsTrue (is_start start)) }
    requires few { length file.now.events < 4294967295 }
    ensures all { OnOk result
        (S.written out.new ≡ append_known (S.written out.old) (replay_text file.now)) }
    ensures prefix { OnErr result
        (AppendsPrefix (S.written out.old) (S.written out.new) (replay_text file.now)) }
    ensures counted { S.faults out.new ≡ print_faults result (S.faults out.old) }
{
    // For the proof alone.
    flush_ends_a_text();
    let mut buffer = RowBuffer::new(alloc);
    print_rows(alloc, out, &mut buffer, file)?;
    flush(out, &mut buffer)
}
