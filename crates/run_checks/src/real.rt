use crate::running::{EMPTY, texts};
use mystery_io::{OpenGate, RealFiles, RealSink};
use mystery_run::run;
use std::alloc::{AllocError, Global};
use std::env::temp_dir;
use std::fs;
use std::process::Abort;
use std::rt::Files;
use std::test::Fail;
use std::thread::Threads;

/// Prints the model of a real file to these lists, and gives the status.
fn run_real<R: Files + Threads + Sync>(
    rt: &R,
    alloc: Global,
    name: &str,
    written: &mut Vec<u8>,
    told: &mut Vec<u8>,
) -> Result<u8, AllocError> {
    let words = texts(alloc, &["model", name])?;
    Ok(run(
        rt,
        alloc,
        &words,
        &mut RealFiles::new(rt),
        &mut RealSink::new(written),
        &mut RealSink::new(told),
        &OpenGate,
    ))
}

/// Prints the model of a real file and compares the status and what is written.
fn expect_real<R: Files + Threads + Sync + Abort>(
    rt: &R,
    alloc: Global,
    name: &str,
    status: u8,
    out: &[u8],
    err: &[u8],
) -> Result<(), AllocError> {
    let mut written = Vec::new(alloc);
    let mut told = Vec::new(alloc);
    let got = run_real(rt, alloc, name, &mut written, &mut told)?;
    assert_eq!(rt; got, status, "{name}");
    assert_eq!(rt; written.as_slice(), out);
    assert_eq!(rt; told.as_slice(), err);
    Ok(())
}

#[test]
fn real_files_are_read_and_each_stream_gets_its_bytes(rt: HostRuntime) -> Result<(), Fail> {
    let mut path = temp_dir(&rt)?;
    path.push("mystery_run_with_a_space ")?;
    fs::write(&rt, path.as_str(), "\n")?;
    let table: [(&str, u8, &[u8], &[u8]); 3] = [
        (path.as_str(), 0, EMPTY, b""),
        (path.as_str().trim_end(), 4, b"", b"file 1: read failed\n"),
        (".", 4, b"", b"file 1: read failed\n"),
    ];
    for (name, status, out, err) in table {
        expect_real(&rt, rt.alloc(), name, status, out, err)?;
    }
    fs::remove_file(&rt, path.as_str())?;
    Ok(())
}
