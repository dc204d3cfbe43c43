//! Files and sinks in memory, and those that never fail.
ghost use Rattle.std.specs.Prelude.{◌<◌, ◌^◌, length};

use mystery_io::{
    ByteList, Failed, Files, Gate, MemFile, MemFiles, MemSink, OpenGate, ReadFault, Sink,
    SureFiles, SureSink, laws, read_all, read_into, send_text, write_text,
};
use std::alloc::{AllocError, Global};
use std::test::Fail;
use trace_types::Text;

/// Makes the list of these names.
fn names_of(alloc: Global, names: &[&str]) -> Result<Vec<Text>, AllocError> {
    let mut all = Vec::new(alloc);
    for name in names {
        all.push(Text::new(alloc, name)?)?;
    }
    Ok(all)
}

/// Makes files of these names and contents.
fn files_of(alloc: Global, files: &[(&str, &[u8])]) -> Result<Vec<MemFile>, AllocError> {
    let mut all = Vec::new(alloc);
    for (name, bytes) in files {
        all.push(MemFile {
            name: Text::new(alloc, name)?,
            bytes: ByteList::of(bytes.to_vec(alloc)?),
        })?;
    }
    Ok(all)
}

const FILES: [(&str, &[u8]); 5] = [
    ("plain", b"ab"),
    ("ended", b"c\n"),
    ("empty", b""),
    ("feed", b"\n"),
    ("plain", b"second of this name"),
];

/// Tells whether these files have these bytes.
fn has_bytes(alloc: Global, names: &[Text], want: &[u8]) -> Result<bool, AllocError>
    requires { length names.now < 2 ^ 32 }
{
    let mut files = SureFiles::new(files_of(alloc, &FILES)?);
    Ok(match read_all(alloc, &mut files, names) {
        Ok(bytes) => bytes.as_slice() == want,
        Err(_) => false,
    })
}

/// The same, where so many bytes are taken at a time.
fn has_pieces(alloc: Global, names: &[Text], most: usize, want: &[u8]) -> Result<bool, AllocError>
    requires few { length names.now < 2 ^ 32 }
    requires some { 0 < most }
{
    let mut files = SureFiles::new(files_of(alloc, &FILES)?);
    Ok(
        match read_into(alloc, &mut files, names, Vec::new(alloc), most) {
            Ok(bytes) => bytes.as_slice() == want,
            Err(_) => false,
        },
    )
}

/// Tells whether at most three files of these names have these bytes, however many are taken at a
/// time.
fn reads(alloc: Global, names: &[&str], want: &[u8]) -> Result<bool, AllocError> {
    let names = names_of(alloc, names)?;
    if names.len() > 3 {
        return Ok(false);
    }
    Ok(
        has_bytes(alloc, &names, want)?
            && has_pieces(alloc, &names, 1, want)?
            && has_pieces(alloc, &names, 2, want)?
            && has_pieces(alloc, &names, 3, want)?,
    )
}

#[test]
fn each_file_ends_its_last_line(rt: HostRuntime) -> Result<(), Fail> {
    let table: [(&[&str], &[u8]); 6] = [
        (&[], b""),
        (&["plain"], b"ab\n"),
        (&["empty", "ended", "empty"], b"c\n"),
        (&["plain", "ended"], b"ab\nc\n"),
        (&["feed", "plain", "plain"], b"\nab\nab\n"),
        (&["missing", "plain"], b"ab\n"),
    ];
    for (names, want) in table {
        assert!(rt; reads(rt.alloc(), names, want)?);
    }
    Ok(())
}

/// Reads files of these names byte by byte, where these calls fail.
fn read_planned(
    alloc: Global,
    names: &[Text],
    failing: &[u32],
) -> Result<Result<(), ReadFault>, AllocError>
    requires { length names.now < 2 ^ 32 }
{
    let failing = failing.to_vec(alloc)?;
    let mut files = MemFiles::new(files_of(alloc, &FILES)?, 1, failing);
    Ok(read_all(alloc, &mut files, names).map(|_| ()))
}

/// The same by the names of two files.
fn read_two(
    alloc: Global,
    names: [&str; 2],
    failing: &[u32],
) -> Result<Result<(), ReadFault>, AllocError> {
    let names = names_of(alloc, &names)?;
    if names.len() > 2 {
        return Ok(Ok(()));
    }
    read_planned(alloc, &names, failing)
}

#[test]
fn a_fault_names_the_file_that_was_opened_last(rt: HostRuntime) -> Result<(), Fail> {
    // Bytes are read one by one: calls 1 to 4 open and read the first file, 5 to 8 the second.
    let table = [
        (1, Err(ReadFault::File { index: 0 })),
        (2, Err(ReadFault::File { index: 0 })),
        (4, Err(ReadFault::File { index: 0 })),
        (5, Err(ReadFault::File { index: 1 })),
        (8, Err(ReadFault::File { index: 1 })),
        (9, Ok(())),
    ];
    for (call, want) in table {
        let got = read_two(rt.alloc(), ["plain", "ended"], &[call])?;
        assert_eq!(rt; got, want, "call {call}");
    }
    let got = read_two(rt.alloc(), ["plain", "missing"], &[])?;
    assert_eq!(rt; got, Err(ReadFault::File { index: 1 }));
    Ok(())
}

/// Makes the list of one file of so many equal bytes.
fn equal_bytes(alloc: Global, byte: u8, count: usize) -> Result<Vec<MemFile>, AllocError> {
    let name = Text::new(alloc, "f")?;
    let bytes = ByteList::of(vec![in alloc; byte; count]?);
    let mut all = Vec::new(alloc);
    all.push(MemFile { name, bytes })?;
    Ok(all)
}

/// Reads the file of one name, and gives how many bytes the input has.
fn read_length(alloc: Global, names: &[Text], files: Vec<MemFile>) -> Result<usize, ReadFault>
    requires { length names.now < 2 ^ 32 }
{
    let mut files = MemFiles::new(files, 65_536, Vec::new(alloc));
    Ok(read_all(alloc, &mut files, names)?.len())
}

/// The same, of so many equal bytes.
fn length_of(
    alloc: Global,
    count: usize,
    byte: u8,
) -> Result<Result<usize, ReadFault>, AllocError> {
    let names = names_of(alloc, &["f"])?;
    if names.len() > 1 {
        return Ok(Ok(0));
    }
    let files = equal_bytes(alloc, byte, count)?;
    Ok(read_length(alloc, &names, files))
}

#[test]
fn a_line_feed_may_pass_the_size(rt: HostRuntime) -> Result<(), Fail> {
    laws::the_input_has_one_limit();
    let table = [
        (67_108_863, b'x', Ok(67_108_864)),
        (67_108_864, b'x', Err(ReadFault::TooBig)),
        (67_108_864, b'\n', Ok(67_108_864)),
        (67_108_865, b'\n', Err(ReadFault::TooBig)),
    ];
    for (count, byte, want) in table {
        assert_eq!(rt; length_of(rt.alloc(), count, byte)?, want);
    }
    Ok(())
}

/// Writes to a sink that takes so many bytes at a time, fails at a call and has this much room, and
/// gives the answer, and whether these bytes were written.
fn write_planned(
    alloc: Global,
    most: usize,
    call: u32,
    room: usize,
    written: &[u8],
) -> Result<(Result<(), Failed>, bool), AllocError>
    requires { 0 < most }
{
    let failing = [call].to_vec(alloc)?;
    let mut sink = MemSink::new(alloc, most, failing, room)?;
    let answer = write_text(&mut sink, b"hello");
    Ok((answer, sink.bytes() == written))
}

/// Sends a text to a sink that takes two bytes at a time and fails at the second call, and tells
/// whether two bytes were written.
fn sends_two(alloc: Global) -> Result<bool, AllocError> {
    let failing = [2].to_vec(alloc)?;
    let mut sink = MemSink::new(alloc, 2, failing, 10)?;
    send_text(&mut sink, b"hello");
    Ok(sink.bytes() == b"he".as_slice())
}

#[test]
fn a_sink_in_memory_fails_as_planned(rt: HostRuntime) -> Result<(), Fail> {
    let table: [((usize, u32, usize), Result<(), Failed>, &[u8]); 6] = [
        ((10, 9, 10), Ok(()), b"hello"),
        ((1, 9, 5), Ok(()), b"hello"),
        ((1, 3, 10), Err(Failed), b"he"),
        ((2, 1, 10), Err(Failed), b""),
        ((10, 9, 3), Err(Failed), b"hel"),
        ((10, 9, 0), Err(Failed), b""),
    ];
    for ((most, call, room), want, written) in table {
        assert!(rt; most > 0);
        let got = write_planned(rt.alloc(), most, call, room, written)?;
        assert_eq!(rt; got, (want, true));
    }
    assert!(rt; sends_two(rt.alloc())?);
    Ok(())
}

/// Reads before and after a file that is missing is opened.
fn read_missing(
    alloc: Global,
) -> Result<
    (
        Result<usize, Failed>,
        Result<(), Failed>,
        Result<usize, Failed>,
    ),
    AllocError,
> {
    let mut files = SureFiles::new(files_of(alloc, &FILES)?);
    let before = files.read(&mut [0; 4]);
    let opened = files.open("missing");
    Ok((before, opened, files.read(&mut [0; 4])))
}

/// Tells whether a list lends and gives its bytes.
fn lends_and_gives(alloc: Global) -> Result<bool, AllocError> {
    let bytes = ByteList::of([1, 2].to_vec(alloc)?);
    let lent = bytes.items() == [1, 2].as_slice();
    Ok(bytes.into_items().len() == 2 && lent)
}

#[test]
fn sure_objects_never_fail(rt: HostRuntime) -> Result<(), Fail> {
    assert_eq!(rt; read_missing(rt.alloc())?, (Ok(0), Ok(()), Ok(0)));
    assert_eq!(rt; SureSink::new().write(b"hello"), Ok(5));
    OpenGate.turn(0, 0);
    assert!(rt; lends_and_gives(rt.alloc())?);
    Ok(())
}
