use memchr::memmem;
pub(crate) use run_settings::{SETTING, Setting};
use std::alloc::Global;
use std::process::Abort;
use std::test::Fail;
use view_run::run;

/// Runs with the arguments of the setting over files and sinks in memory, and compares the status
/// and what was written.
pub(crate) fn expect<R: Abort>(
    rt: &R,
    alloc: Global,
    setting: Setting<'_>,
    status: u8,
    out_bytes: &[u8],
    err_bytes: &[u8],
) -> Result<(), Fail> {
    assert!(rt; setting.most > 0);
    let words = setting.words(alloc)?;
    let mut files = setting.files(alloc)?;
    let mut out = setting.sink(alloc, setting.out_failing)?;
    let mut err = setting.sink(alloc, setting.err_failing)?;
    let ended = run(alloc, &words, &mut files, &mut out, &mut err);
    assert_eq!(rt; err.bytes(), err_bytes);
    assert_eq!(rt; ended, status);
    assert_eq!(rt; out.bytes(), out_bytes);
    Ok(())
}

/// Runs over a file `f`, and holds that the page has each of these texts and none of those.
pub(crate) fn expect_page<R: Abort>(
    rt: &R,
    alloc: Global,
    f: &[u8],
    has: &[&[u8]],
    lacks: &[&[u8]],
) -> Result<(), Fail> {
    let setting = Setting { f, ..SETTING };
    assert!(rt; setting.most > 0);
    let words = setting.words(alloc)?;
    let mut files = setting.files(alloc)?;
    let mut out = setting.sink(alloc, 0)?;
    let mut err = setting.sink(alloc, 0)?;
    assert_eq!(rt; run(alloc, &words, &mut files, &mut out, &mut err), 0);
    for text in has {
        assert!(rt; memmem::find(out.bytes(), text).is_some());
    }
    for text in lacks {
        assert!(rt; memmem::find(out.bytes(), text).is_none());
    }
    Ok(())
}
