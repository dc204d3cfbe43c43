//! The real files, and a writer of std as a sink.
use mystery_io::{Failed, Files, RealFiles, RealSink, Sink};
use std::alloc::Global;
use std::env::temp_dir;
use std::fs;
use std::path::PathBuf;
use std::rt::Env;
use std::test::Fail;

/// Writes to a list, and tells what the sink answered, and whether the list has the bytes.
fn write_hello(alloc: Global) -> (Result<usize, Failed>, bool) {
    let mut list = Vec::new(alloc);
    let answer = RealSink::new(&mut list).write(b"hello");
    (answer, list.as_slice() == b"hello".as_slice())
}

#[test]
fn a_writer_gets_the_bytes(rt: HostRuntime) {
    assert_eq!(rt; write_hello(rt.alloc()), (Ok(5), true));
}

/// What two calls of `open` answer, and what a read after them answers with its first byte.
type Seen = ([Result<(), Failed>; 2], Result<usize, Failed>, u8);

/// Opens two files, the second in place of the first, and reads.
fn open_both<R: std::rt::Files>(rt: &R, first: &str, second: &str) -> Seen {
    let mut files = RealFiles::new(rt);
    let mut into = [0; 8];
    let opened = [files.open(first), files.open(second)];
    let read = files.read(&mut into);
    (opened, read, into[0])
}

/// Reads before a file is opened and twice after, and gives the bytes of the second read.
fn read_thrice<R: std::rt::Files>(rt: &R, name: &str) -> ([Result<usize, Failed>; 3], [u8; 8]) {
    let mut files = RealFiles::new(rt);
    let mut into = [0; 8];
    let before = files.read(&mut into);
    let _ = files.open(name);
    let bytes = files.read(&mut into);
    ([before, bytes, files.read(&mut [0; 8])], into)
}

/// Makes a path in the folder for temporary files.
fn path_of<R: Env + Alloc>(rt: &R, name: &str) -> Result<PathBuf<R::A>, Fail> {
    let mut path = temp_dir(rt)?;
    path.push(name)?;
    Ok(path)
}

#[test]
fn a_real_file_is_read_to_its_end(rt: HostRuntime) -> Result<(), Fail> {
    let path = path_of(&rt, "mystery_io_reads_this")?;
    fs::write(&rt, path.as_str(), "hello")?;
    let seen = read_thrice(&rt, path.as_str());
    fs::remove_file(&rt, path.as_str())?;
    assert_eq!(rt; seen, ([Ok(0), Ok(5), Ok(0)], *b"hello\0\0\0"));
    Ok(())
}

#[test]
fn a_missing_file_is_not_opened(rt: HostRuntime) -> Result<(), Fail> {
    let path = path_of(&rt, "mystery_io_has_no_such_file")?;
    let seen = open_both(&rt, "/", path.as_str());
    assert_eq!(rt; seen, ([Ok(()), Err(Failed)], Ok(0), 0));
    Ok(())
}

/// Writes two files, opens one and then the other, and removes both.
fn open_written<R: std::rt::Files>(rt: &R, first: &str, second: &str) -> Result<Seen, Fail> {
    fs::write(rt, first, "a")?;
    fs::write(rt, second, "b")?;
    let seen = open_both(rt, first, second);
    fs::remove_file(rt, first)?;
    fs::remove_file(rt, second)?;
    Ok(seen)
}

#[test]
fn a_second_file_replaces_the_first(rt: HostRuntime) -> Result<(), Fail> {
    let first = path_of(&rt, "mystery_io_first")?;
    let second = path_of(&rt, "mystery_io_second")?;
    let seen = open_written(&rt, first.as_str(), second.as_str())?;
    assert_eq!(rt; seen, ([Ok(()); 2], Ok(1), b'b'));
    Ok(())
}

#[test]
fn a_folder_is_opened_but_not_read(rt: HostRuntime) {
    let seen = open_both(&rt, "/", "/");
    assert_eq!(rt; seen, ([Ok(()); 2], Err(Failed), 0));
}

#[test]
fn a_space_at_the_end_of_a_name_counts(rt: HostRuntime) -> Result<(), Fail> {
    let path = path_of(&rt, "mystery_io_with_a_space ")?;
    fs::write(&rt, path.as_str(), "x")?;
    let seen = open_both(&rt, path.as_str().trim_end(), path.as_str());
    fs::remove_file(&rt, path.as_str())?;
    assert_eq!(rt; seen, ([Err(Failed), Ok(())], Ok(1), b'x'));
    Ok(())
}
