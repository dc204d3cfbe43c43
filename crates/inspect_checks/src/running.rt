use inspect_run::run;
pub(crate) use run_settings::{SETTING, Setting};
use std::alloc::Global;
use std::process::Abort;
use std::test::Fail;
use std::thread::Threads;

/// Runs with the arguments of the setting over files and sinks in memory, and compares the status
/// and what was written.
pub(crate) fn expect<R: Threads + Sync + Abort>(
    rt: &R,
    alloc: Global,
    setting: Setting<'_>,
    status: u8,
    out_bytes: &[u8],
    err_bytes: &[u8],
) -> Result<(), Fail> {
    assert!(rt; setting.most > 0);
    let words = setting.words(alloc)?;
    let mut files = setting.files(alloc)?;
    let mut out = setting.sink(alloc, setting.out_failing)?;
    let mut err = setting.sink(alloc, setting.err_failing)?;
    let ended = run(rt, alloc, &words, &mut files, &mut out, &mut err);
    assert_eq!(rt; err.bytes(), err_bytes);
    assert_eq!(rt; ended, status);
    assert_eq!(rt; out.bytes(), out_bytes);
    Ok(())
}
