ghost use Rattle.std.specs.Prelude.{◌≤◌};

use crate::page_load::{FIRST, SECOND};
use crate::rows::input_of;
use crate::running::{SETTING, Setting, expect, run_setting};
use drill_input::generate;
use std::alloc::{AllocError, Global};
use std::process::Abort;
use std::test::Fail;
use std::thread::Threads;

/// Appends the row of a claim that is shown, on this line.
fn put_row(alloc: Global, text: &mut Vec<u8>, line: u32) -> Result<(), AllocError> {
    let row = format!(in alloc; "shown\t{line}\n")?;
    text.extend_from_slice(row.as_bytes())
}

/// Appends the rows of so many claims that are shown, and their count.
fn put_shown(alloc: Global, text: &mut Vec<u8>, claims: u32) -> Result<(), AllocError>
    requires { claims ≤ 1000 }
{
    for claim in 0..claims {
        put_row(alloc, text, claim + 2)?;
    }
    let row = format!(in alloc; "verified\t{claims}\t{claims}\n")?;
    text.extend_from_slice(row.as_bytes())
}

/// Makes the text of a check that shows each of so many claims, on the lines from 2 on.
fn all_shown(alloc: Global, claims: u32) -> Result<Vec<u8>, AllocError>
    requires { claims ≤ 1000 }
{
    let mut text = Vec::new(alloc);
    put_shown(alloc, &mut text, claims)?;
    Ok(text)
}

/// Runs and compares the text with a check that shows each of so many claims.
fn expect_all<R: Threads + Sync + Abort>(
    rt: &R,
    alloc: Global,
    setting: Setting<'_>,
    claims: u32,
) -> Result<(), Fail>
    requires { claims ≤ 1000 }
{
    let shown = all_shown(alloc, claims)?;
    expect(rt, alloc, setting, 0, &shown, b"")
}

/// Runs `why` over an input, and `verify` with what it prints over the same input. Compares the
/// header, and the check with one that shows each of so many claims.
fn expect_shown<R: Threads + Sync + Abort>(
    rt: &R,
    alloc: Global,
    input: &[u8],
    header: &[u8],
    claims: u32,
) -> Result<(), Fail>
    requires { claims ≤ 1000 }
{
    let setting = Setting {
        words: &["why", "f"],
        f: input,
        ..SETTING
    };
    let printed = run_setting(rt, alloc, setting)?;
    assert_eq!(rt; printed.status, 0);
    let certificate = printed.out.bytes();
    assert!(rt; certificate.starts_with(header));
    let setting = Setting {
        words: &["verify", "g", "f"],
        g: certificate,
        ..setting
    };
    expect_all(rt, alloc, setting, claims)
}

#[test]
fn what_is_printed_of_the_page_load_is_shown(rt: HostRuntime) -> Result<(), Fail> {
    let alloc = rt.alloc();
    let input = input_of(alloc, &[&FIRST, &SECOND])?;
    expect_shown(&rt, alloc, &input, b"why\ttraces=2\trefuted=51\n", 51)
}

#[test]
fn what_is_printed_of_a_large_input_is_shown(rt: HostRuntime) -> Result<(), Fail> {
    let alloc = rt.alloc();
    let input = generate(alloc, 1, 4000)?;
    expect_shown(&rt, alloc, &input, b"why\ttraces=4000\trefuted=25\n", 25)
}
