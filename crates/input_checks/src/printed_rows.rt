//! Rows, parts and texts that are printed through a buffer.
ghost use Rattle.std.specs.Prelude.{ℕ, ◌≡◌, ◌≤◌, ◌<◌, ◌++◌, ◌∷◌, [], codes, decimal};
ghost use Rattle.text_rows.specs.Printing.{PrintsText};
ghost use Rattle.text_rows.specs.Rows.{row_of, figure};

use mystery_io::{MemSink, Sink};
use std::alloc::{AllocError, Global};
use std::test::Fail;
use text_rows::laws::calls_follow;
use text_rows::{
    Field, Parts, PrintFault, RowBuffer, Rows, TextSink, flush, print_parts, print_row, print_rows,
    print_texts,
};

/// Rows of a number after a word.
#[derive(Drop)]
struct CountRows<'w> {
    word: &'w str,
}

impl Rows for CountRows<'_> {
    type Item = u64;

    ghost text = { λ rows count. row_of (rows.word.now ∷ decimal count ∷ []) };

    fn print<S: Sink>(
        &self,
        sink: &mut S,
        buffer: &mut RowBuffer,
        item: &u64,
    ) -> Result<(), PrintFault> {
        print_row(
            sink,
            buffer,
            &[Field::Word(self.word), Field::Number(u128::from(*item))],
        )
    }
}

/// Parts of two rows: a number, and one that is not greater.
#[derive(Clone, Copy)]
struct HalfParts;

impl Parts for HalfParts {
    type Item = u64;

    ghost is_text = { λ _ number text. (half : ℕ) × (half ≤ number)
        × (text ≡ row_of (codes "number" ∷ decimal number ∷ [])
        ++ row_of (codes "half" ∷ decimal half ∷ [])) };

    fn print<S: Sink>(
        &self,
        _alloc: Global,
        sink: &mut S,
        buffer: &mut RowBuffer,
        item: &u64,
    ) -> Result<(), PrintFault> {
        print_halves(sink, buffer, *item, *item / 2)?;
        Ok(())
    }
}

/// Prints the rows of a number and of one that is not greater.
fn print_halves<S: Sink>(
    sink: &mut S,
    buffer: &mut RowBuffer,
    number: u64,
    half: u64,
) -> Result<(), PrintFault>
    ensures { PrintsText S.written S.faults result sink.old sink.new buffer.old buffer.new
        (row_of (codes "number" ∷ decimal number ∷ [])
        ++ row_of (codes "half" ∷ decimal half ∷ [])) }
{
    calls_follow::<S>();
    CountRows { word: "number" }.print(sink, buffer, &number)?;
    CountRows { word: "half" }.print(sink, buffer, &half)
}

/// Prints parts of these numbers and flushes the buffer.
fn print_and_flush<S: Sink>(
    alloc: Global,
    sink: &mut S,
    numbers: &[u64],
) -> Result<(), PrintFault> {
    let mut buffer = RowBuffer::new(alloc);
    print_parts(alloc, sink, &mut buffer, &HalfParts, numbers)?;
    flush(sink, &mut buffer)
}

/// Prints a row and flushes the buffer, and tells whether it was in the buffer alone and then in
/// the sink alone.
fn prints_then_flushes<S: Sink>(
    sink: &mut S,
    buffer: &mut RowBuffer,
    fields: &[Field<'_>],
    row: &[u8],
) -> bool {
    let printed = print_row(sink, buffer, fields) == Ok(());
    let held = buffer.bytes() == row;
    let flushed = flush(sink, buffer) == Ok(());
    printed && held && flushed && buffer.bytes().is_empty()
}

/// The same, with a sink in memory.
fn is_row(alloc: Global, fields: &[Field<'_>], row: &[u8]) -> Result<bool, AllocError> {
    let mut sink = MemSink::new(alloc, 1, Vec::new(alloc), 100)?;
    let before = print_row(&mut sink, &mut RowBuffer::new(alloc), fields).is_ok()
        && sink.bytes().is_empty();
    let whole = prints_then_flushes(&mut sink, &mut RowBuffer::new(alloc), fields, row);
    Ok(before && whole && sink.bytes() == row)
}

#[test]
fn fields_are_tab_separated(rt: HostRuntime) -> Result<(), Fail> {
    let table: [(&[Field<'_>], &[u8]); 5] = [
        (&[], b"\n"),
        (&[Field::Word("")], b"\n"),
        (
            &[Field::Word("a"), Field::Word(""), Field::Number(0)],
            b"a\t\t0\n",
        ),
        (
            &[Field::Word("model"), Field::Figure("traces", 12)],
            b"model\ttraces=12\n",
        ),
        (
            &[Field::Number(u128::MAX)],
            b"340282366920938463463374607431768211455\n",
        ),
    ];
    for (fields, want) in table {
        assert!(rt; is_row(rt.alloc(), fields, want)?);
    }
    Ok(())
}

/// Prints rows of these numbers and flushes the buffer.
fn print_steps<S: Sink>(alloc: Global, sink: &mut S, numbers: &[u64]) -> Result<(), PrintFault> {
    let mut buffer = RowBuffer::new(alloc);
    print_rows(sink, &mut buffer, &CountRows { word: "step" }, numbers)?;
    flush(sink, &mut buffer)
}

#[test]
fn rows_stand_in_the_order_of_the_items(rt: HostRuntime) -> Result<(), Fail> {
    let alloc = rt.alloc();
    let mut sink = MemSink::new(alloc, 3, Vec::new(alloc), 100)?;
    assert_eq!(rt; print_steps(alloc, &mut sink, &[7, 5, 6]), Ok(()));
    assert_eq!(rt; sink.bytes(), b"step\t7\nstep\t5\nstep\t6\n".as_slice());
    Ok(())
}

/// Makes a sink that takes so many bytes at a time and fails at this call.
fn sink_failing_at(alloc: Global, most: usize, call: u32) -> Result<MemSink, AllocError>
    requires { 0 < most }
{
    let failing = [call].to_vec(alloc)?;
    MemSink::new(alloc, most, failing, 100_000)
}

/// Prints parts to a sink that fails at this call, and tells whether these bytes were written.
fn print_cut(
    alloc: Global,
    call: u32,
    written: &[u8],
) -> Result<(Result<(), PrintFault>, bool), AllocError> {
    // A write takes 5 bytes, and each part has 16.
    let mut sink = sink_failing_at(alloc, 5, call)?;
    let answer = print_and_flush(alloc, &mut sink, &[8, 3]);
    Ok((answer, sink.bytes() == written))
}

#[test]
fn a_cut_text_is_whole_parts_and_a_prefix_of_one(rt: HostRuntime) -> Result<(), Fail> {
    let table: [(u32, Result<(), PrintFault>, &[u8]); 4] = [
        (1, Err(PrintFault::Write), b""),
        (2, Err(PrintFault::Write), b"numbe"),
        (5, Err(PrintFault::Write), b"number\t8\nhalf\t4\nnumb"),
        (9, Ok(()), b"number\t8\nhalf\t4\nnumber\t3\nhalf\t1\n"),
    ];
    for (call, want, written) in table {
        assert_eq!(rt; print_cut(rt.alloc(), call, written)?, (want, true));
    }
    Ok(())
}

const WORD: &str = "abcdefghijklmnopqrstuvwxyzabcdefghijklmnopqrstuvwxyzabcdefghijk";

/// Prints so many rows of 1,024 bytes.
fn print_long_rows<S: Sink>(
    sink: &mut S,
    buffer: &mut RowBuffer,
    count: u32,
) -> Result<(), PrintFault> {
    for _ in 0..count {
        print_row(sink, buffer, &[Field::Word(WORD); 16])?;
    }
    Ok(())
}

/// Prints so many rows of 1,024 bytes, and gives how many bytes the buffer has then.
fn held_after<S: Sink>(alloc: Global, sink: &mut S, count: u32) -> Result<usize, PrintFault> {
    let mut buffer = RowBuffer::new(alloc);
    print_long_rows(sink, &mut buffer, count)?;
    Ok(buffer.bytes().len())
}

/// Prints so many of the rows, and gives how many bytes the buffer and the sink have then.
fn held_and_written(
    alloc: Global,
    count: u32,
) -> Result<(Result<usize, PrintFault>, usize), AllocError> {
    let mut sink = MemSink::new(alloc, 100_000, Vec::new(alloc), 200_000)?;
    let held = held_after(alloc, &mut sink, count);
    Ok((held, sink.bytes().len()))
}

#[test]
fn a_full_buffer_is_flushed(rt: HostRuntime) -> Result<(), Fail> {
    let table = [
        (63, 64_512, 0),
        (64, 0, 65_536),
        (65, 1_024, 65_536),
        (128, 0, 131_072),
    ];
    for (count, held, written) in table {
        assert_eq!(rt; held_and_written(rt.alloc(), count)?, (Ok(held), written));
    }
    Ok(())
}

/// Prints a row, and these texts after it.
fn print_made<S: Sink>(
    sink: &mut S,
    buffer: &mut RowBuffer,
    texts: &[Vec<u8>],
) -> Result<(), PrintFault> {
    print_row(sink, buffer, &[Field::Word("head")])?;
    print_texts(sink, buffer, texts)
}

/// Prints a row and these texts to a list of bytes, and tells whether the last text stayed in the
/// buffer.
fn print_to_list(
    alloc: Global,
    sink: &mut TextSink,
    texts: &[Vec<u8>],
) -> Result<bool, PrintFault> {
    let mut buffer = RowBuffer::new(alloc);
    print_made(sink, &mut buffer, texts)?;
    let held = buffer.bytes() == b"c\n".as_slice();
    flush(sink, &mut buffer)?;
    Ok(held)
}

/// Makes a short text, a long one of equal bytes and a short one.
fn three_texts(alloc: Global, middle: Vec<u8>) -> Result<Vec<Vec<u8>>, AllocError> {
    let mut texts = Vec::new(alloc);
    texts.push(b"a\n".to_vec(alloc)?)?;
    texts.push(middle)?;
    texts.push(b"c\n".to_vec(alloc)?)?;
    Ok(texts)
}

/// Gives the bytes of a row and these texts; none where the last text did not stay in the buffer.
fn printed_texts(alloc: Global, texts: &[Vec<u8>]) -> Option<Vec<u8>> {
    let mut sink = TextSink::new(alloc);
    match print_to_list(alloc, &mut sink, texts) {
        Ok(true) => Some(sink.into_bytes()),
        _ => None,
    }
}

/// Tells whether these are all bytes of the row and the three texts.
fn are_all_bytes(bytes: &[u8]) -> bool {
    bytes.len() == 70_009 && bytes.starts_with(b"head\na\nb") && bytes.ends_with(b"bbc\n")
}

#[test]
fn made_texts_stand_in_order_after_what_the_buffer_held(rt: HostRuntime) -> Result<(), Fail> {
    let middle = Vec::from_elem(rt.alloc(), b'b', 70_000)?;
    let texts = three_texts(rt.alloc(), middle)?;
    let bytes = printed_texts(rt.alloc(), &texts).ok_or("not printed")?;
    assert!(rt; are_all_bytes(&bytes));
    Ok(())
}

/// Prints a row and these texts to a sink that fails at this call, and gives how many bytes were
/// written.
fn written_until(
    alloc: Global,
    texts: &[Vec<u8>],
    call: u32,
) -> Result<(Result<(), PrintFault>, usize), AllocError> {
    let mut sink = sink_failing_at(alloc, 30_000, call)?;
    let answer = print_made(&mut sink, &mut RowBuffer::new(alloc), texts);
    Ok((answer, sink.bytes().len()))
}

#[test]
fn a_made_text_is_cut_where_a_write_fails(rt: HostRuntime) -> Result<(), Fail> {
    let text = Vec::from_elem(rt.alloc(), b'b', 65_536)?;
    // The first write is that of the buffer.
    for (call, written) in [(1, 0), (2, 5), (3, 30_005)] {
        let got = written_until(rt.alloc(), std::slice::from_ref(&text), call)?;
        assert_eq!(rt; got, (Err(PrintFault::Write), written));
    }
    Ok(())
}
