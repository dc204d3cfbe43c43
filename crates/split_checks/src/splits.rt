//! Runs over files in memory.
use line_split::run;
use mystery_io::{ByteList, MemFile, MemFiles, MemSink};
use output_files::MemOutputs;
use std::alloc::{AllocError, Global};
use std::test::Fail;
use std::thread::Threads;
use trace_types::Text;

/// Makes the list of these words.
fn words_of(alloc: Global, words: &[&str]) -> Result<Vec<Text>, AllocError> {
    let mut all = Vec::new(alloc);
    for word in words {
        all.push(Text::new(alloc, word)?)?;
    }
    Ok(all)
}

/// Makes files of these names and contents.
fn files_of(alloc: Global, files: &[(&str, &[u8])]) -> Result<Vec<MemFile>, AllocError> {
    let mut all = Vec::new(alloc);
    for (name, bytes) in files {
        all.push(MemFile {
            name: Text::new(alloc, name)?,
            bytes: ByteList::of(bytes.to_vec(alloc)?),
        })?;
    }
    Ok(all)
}

/// An event line of request `r1`, which stands in part 0 of 2 under the seed `x`.
const EVENT: &[u8] =
    b"{\"request\":\"r1\",\"machine\":\"m\",\"task\":\"t\",\"event\":\"e\",\"time\":1}\n";

/// A blank line, one of `r3`, which stands in part 1, and one of `r1` without a line feed.
const MIXED: &[u8] =
    b" \t\r\n{\"request\":\"r3\",\"machine\":\"m\",\"task\":\"t\",\"event\":\"e\",\"time\":2}\n{\"request\":\"r1\",\"machine\":\"m\",\"task\":\"t\",\"event\":\"e\",\"time\":1}";

/// An event line, a control line and a line that is no JSON.
const CONTROL: &[u8] =
    b"{\"request\":\"r1\",\"machine\":\"m\",\"task\":\"t\",\"event\":\"e\",\"time\":1}\n{\"do\":\"add\"}\nnonsense\n";

const FILES: [(&str, &[u8]); 3] = [("a", EVENT), ("b", MIXED), ("c", CONTROL)];

/// The files of parts 0 and 1 of `a` and `b`, and of their origins, with a grace of 5.
const PARTS: [(&str, &[u8]); 4] = [
    (
        "p000",
        b"{\"do\":\"grace\",\"micros\":5}\n{\"request\":\"r1\",\"machine\":\"m\",\"task\":\"t\",\"event\":\"e\",\"time\":1}\n{\"request\":\"r1\",\"machine\":\"m\",\"task\":\"t\",\"event\":\"e\",\"time\":1}\n",
    ),
    (
        "p001",
        b"{\"do\":\"grace\",\"micros\":5}\n{\"request\":\"r3\",\"machine\":\"m\",\"task\":\"t\",\"event\":\"e\",\"time\":2}\n",
    ),
    ("p000.origins", b"0\t0\n1\t1\n2\t3\n"),
    ("p001.origins", b"0\t0\n2\t2\n"),
];

/// Runs over the files, of which a read gives at most three bytes and the calls with these numbers
/// fail, and tells whether the status and the message are these.
fn ends<R: Threads + Sync>(
    rt: &R,
    alloc: Global,
    words: &[Text],
    failing: Vec<u32>,
    outputs: &mut MemOutputs,
    status: u8,
    message: &str,
) -> Result<bool, AllocError> {
    let mut files = MemFiles::new(files_of(alloc, &FILES)?, 3, failing);
    let mut err = MemSink::new(alloc, 7, Vec::new(alloc), 200)?;
    let ended = run(rt, alloc, words, &mut files, outputs, &mut err);
    Ok(ended == status && err.bytes() == message.as_bytes())
}

/// The same, where the files that are made fail at the calls with these numbers.
fn ends_so<R: Threads + Sync>(
    rt: &R,
    alloc: Global,
    words: &[&str],
    failing: &[u32],
    unmade: &[u32],
    status: u8,
    message: &str,
) -> Result<bool, AllocError> {
    let words = words_of(alloc, words)?;
    let mut outputs = MemOutputs::new(alloc, 5, unmade.to_vec(alloc)?);
    let failing = failing.to_vec(alloc)?;
    ends(rt, alloc, &words, failing, &mut outputs, status, message)
}

/// Tells whether these are all files that were made.
fn are_files(outputs: &MemOutputs, want: &[(&str, &[u8])]) -> bool {
    let files = outputs.files();
    if files.len() != want.len() {
        return false;
    }
    files.iter().zip(want.iter()).all(|(file, want)| {
        file.name.as_str() == want.0 && file.bytes.as_slice() == want.1
    })
}

/// Splits `a` and `b`, and tells whether all is well.
fn splits_both<R: Threads + Sync>(rt: &R, alloc: Global) -> Result<bool, AllocError> {
    let words = words_of(alloc, &["--grace", "5", "2", "x", "p", "a", "b"])?;
    let mut outputs = MemOutputs::new(alloc, 5, Vec::new(alloc));
    let done = ends(rt, alloc, &words, Vec::new(alloc), &mut outputs, 0, "")?;
    Ok(done && are_files(&outputs, &PARTS))
}

#[test]
fn lines_of_one_request_stand_in_one_part(rt: HostRuntime) -> Result<(), Fail> {
    assert!(rt; splits_both(&rt, rt.alloc())?);
    Ok(())
}

#[test]
fn the_first_bad_line_is_told_by_file_and_line(rt: HostRuntime) -> Result<(), Fail> {
    let words = ["2", "x", "p", "b", "c", "a"];
    let message = "c: line 2: control line\n";
    assert!(rt; ends_so(&rt, rt.alloc(), &words, &[], &[], 3, message)?);
    Ok(())
}

#[test]
fn a_failed_read_is_told_by_file(rt: HostRuntime) -> Result<(), Fail> {
    let words = ["2", "x", "p", "a", "b"];
    let message = "a: read failed\n";
    assert!(rt; ends_so(&rt, rt.alloc(), &words, &[3], &[], 4, message)?);
    Ok(())
}

#[test]
fn a_failed_write_is_told(rt: HostRuntime) -> Result<(), Fail> {
    let words = ["2", "x", "p", "a", "b"];
    assert!(rt; ends_so(&rt, rt.alloc(), &words, &[], &[6], 5, "write failed\n")?);
    assert!(rt; ends_so(&rt, rt.alloc(), &words, &[], &[2], 5, "write failed\n")?);
    Ok(())
}

#[test]
fn arguments_outside_the_grammar_touch_nothing(rt: HostRuntime) -> Result<(), Fail> {
    let message = "usage: mystery split [--grace MICROS] N SEED PREFIX FILE...\n";
    assert!(rt; ends_so(&rt, rt.alloc(), &["2", "x", "p"], &[], &[1], 2, message)?);
    assert!(rt;
        ends_so(
            &rt,
            rt.alloc(),
            &["257", "x", "p", "a"],
            &[],
            &[1],
            2,
            message
        )?
    );
    Ok(())
}
