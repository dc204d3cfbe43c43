use crate::rows::{Row, input_of};
use mystery_io::{ByteList, Gate, MemFile, MemFiles, MemSink, OpenGate};
use mystery_run::run;
use std::alloc::{AllocError, Global};
use std::process::Abort;
use std::test::Fail;
use std::thread::Threads;
use trace_types::Text;

pub(crate) const EMPTY: &[u8] =
    b"model\ttraces=0\tdays=0\tsegments=0\ttasks=0\thb=0\tmx=0\tpipe=0\n";

pub(crate) const ROOM: usize = 65_536;

/// Makes the list of these arguments.
pub(crate) fn texts(alloc: Global, words: &[&str]) -> Result<Vec<Text>, AllocError> {
    let mut all = Vec::new(alloc);
    for word in words {
        all.push(Text::new(alloc, word)?)?;
    }
    Ok(all)
}

/// Makes a file in memory.
pub(crate) fn mem_file(alloc: Global, name: &str, bytes: &[u8]) -> Result<MemFile, AllocError> {
    let name = Text::new(alloc, name)?;
    let bytes = ByteList::of(bytes.to_vec(alloc)?);
    Ok(MemFile { name, bytes })
}

/// What a run meets: its arguments, the files `f` and `g`, the calls on files, on `out` and on
/// `err` that fail, how many bytes a call gives or takes, and how many `out` takes in all.
#[derive(Clone, Copy)]
pub(crate) struct Setting<'t> {
    pub(crate) words: &'t [&'t str],
    pub(crate) f: &'t [u8],
    pub(crate) g: &'t [u8],
    pub(crate) most: usize,
    pub(crate) failing: u32,
    pub(crate) out_failing: u32,
    pub(crate) out_most: usize,
    pub(crate) out_room: usize,
    pub(crate) err_failing: u32,
    pub(crate) err_most: usize,
}

pub(crate) const SETTING: Setting<'static> = Setting {
    words: &["model", "f"],
    f: b"",
    g: b"",
    most: 4096,
    failing: 0,
    out_failing: 0,
    out_most: ROOM,
    out_room: ROOM,
    err_failing: 0,
    err_most: ROOM,
};

/// How a run ended: its status, and the sinks with what was written.
#[derive(Drop)]
pub(crate) struct Ending {
    pub(crate) status: u8,
    pub(crate) out: MemSink,
    pub(crate) err: MemSink,
}

/// Makes the files `f` and `g` in memory.
fn two_files(alloc: Global, setting: Setting<'_>) -> Result<Vec<MemFile>, AllocError> {
    let mut all = Vec::new(alloc);
    all.push(mem_file(alloc, "f", setting.f)?)?;
    all.push(mem_file(alloc, "g", setting.g)?)?;
    Ok(all)
}

/// Makes the files of a setting.
fn files_of<R: Abort>(rt: &R, alloc: Global, setting: Setting<'_>) -> Result<MemFiles, Fail> {
    assert!(rt; setting.most > 0);
    let all = two_files(alloc, setting)?;
    let failing = [setting.failing].to_vec(alloc)?;
    Ok(MemFiles::new(all, setting.most, failing))
}

/// Makes a sink that takes so many bytes in a call, fails at this call, and has so much room.
fn make_sink<R: Abort>(
    rt: &R,
    alloc: Global,
    most: usize,
    failing: u32,
    room: usize,
) -> Result<MemSink, Fail> {
    assert!(rt; most > 0);
    Ok(MemSink::new(alloc, most, [failing].to_vec(alloc)?, room)?)
}

/// Runs with these arguments over these files and these sinks.
fn run_into<R: Threads + Sync, G: Gate + Sync>(
    rt: &R,
    alloc: Global,
    words: &[Text],
    files: &mut MemFiles,
    mut out: MemSink,
    mut err: MemSink,
    gate: &G,
) -> Ending {
    let status = run(rt, alloc, words, files, &mut out, &mut err, gate);
    Ending { status, out, err }
}

/// Runs with these arguments over these files, and over the sinks of a setting.
pub(crate) fn run_over<R: Threads + Sync + Abort, G: Gate + Sync>(
    rt: &R,
    alloc: Global,
    words: &[Text],
    files: &mut MemFiles,
    setting: Setting<'_>,
    gate: &G,
) -> Result<Ending, Fail> {
    let out = make_sink(
        rt,
        alloc,
        setting.out_most,
        setting.out_failing,
        setting.out_room,
    )?;
    let err = make_sink(rt, alloc, setting.err_most, setting.err_failing, ROOM)?;
    Ok(run_into(rt, alloc, words, files, out, err, gate))
}

/// Runs with these arguments over files and sinks in memory.
fn run_words<R: Threads + Sync + Abort>(
    rt: &R,
    alloc: Global,
    words: &[Text],
    setting: Setting<'_>,
) -> Result<Ending, Fail> {
    let mut files = files_of(rt, alloc, setting)?;
    run_over(rt, alloc, words, &mut files, setting, &OpenGate)
}

/// Compares how a run ended with this status and these texts.
pub(crate) fn expect_ending<R: Abort>(rt: &R, ending: &Ending, status: u8, out: &[u8], err: &[u8]) {
    assert_eq!(rt; ending.err.bytes(), err);
    assert_eq!(rt; ending.status, status);
    assert_eq!(rt; ending.out.bytes(), out);
}

/// Makes a file in memory that has line feeds alone.
pub(crate) fn line_feeds(alloc: Global, name: &str, count: usize) -> Result<MemFile, AllocError> {
    let bytes = ByteList::of(vec![in alloc; b'\n'; count]?);
    Ok(MemFile {
        name: Text::new(alloc, name)?,
        bytes,
    })
}

/// Runs with the arguments of the setting over files and sinks in memory.
pub(crate) fn run_setting<R: Threads + Sync + Abort>(
    rt: &R,
    alloc: Global,
    setting: Setting<'_>,
) -> Result<Ending, Fail> {
    let words = texts(alloc, setting.words)?;
    run_words(rt, alloc, &words, setting)
}

/// Runs with the arguments of the setting and compares the status and what was written.
pub(crate) fn expect<R: Threads + Sync + Abort>(
    rt: &R,
    alloc: Global,
    setting: Setting<'_>,
    status: u8,
    out: &[u8],
    err: &[u8],
) -> Result<(), Fail> {
    let words = texts(alloc, setting.words)?;
    expect_run(rt, alloc, &words, setting, status, out, err)
}

/// Runs with these arguments over files and sinks in memory and compares the status and what was
/// written.
fn expect_run<R: Threads + Sync + Abort>(
    rt: &R,
    alloc: Global,
    words: &[Text],
    setting: Setting<'_>,
    status: u8,
    out: &[u8],
    err: &[u8],
) -> Result<(), Fail> {
    let ending = run_words(rt, alloc, words, setting)?;
    expect_ending(rt, &ending, status, out, err);
    Ok(())
}

/// What is printed: the command, the pieces of the input, and the text.
pub(crate) type Printed<'t> = (&'t str, &'t [&'t [Row<'t>]], &'t [u8]);

/// Makes the arguments of a command over the file `f` with so many workers.
fn words_of(alloc: Global, workers: &str, command: &str) -> Result<Vec<Text>, AllocError> {
    texts(alloc, &["--workers", workers, command, "f"])
}

/// Runs a command with so many workers over this input and compares the text.
fn expect_text<R: Threads + Sync + Abort>(
    rt: &R,
    alloc: Global,
    workers: &str,
    command: &str,
    f: &[u8],
    out: &[u8],
) -> Result<(), Fail> {
    let words = words_of(alloc, workers, command)?;
    let setting = Setting { f, ..SETTING };
    expect_run(rt, alloc, &words, setting, 0, out, b"")
}

/// Runs a command with so many workers over its input and compares the text.
fn expect_printed<R: Threads + Sync + Abort>(
    rt: &R,
    alloc: Global,
    workers: &str,
    printed: Printed<'_>,
) -> Result<(), Fail> {
    let (command, pieces, out) = printed;
    let f = input_of(alloc, pieces)?;
    expect_text(rt, alloc, workers, command, &f, out)
}

/// Runs each command with so many workers over its input and compares the text.
pub(crate) fn expect_texts<R: Threads + Sync + Abort>(
    rt: &R,
    alloc: Global,
    workers: &str,
    table: &[Printed<'_>],
) -> Result<(), Fail> {
    for printed in table {
        expect_printed(rt, alloc, workers, *printed)?;
    }
    Ok(())
}
