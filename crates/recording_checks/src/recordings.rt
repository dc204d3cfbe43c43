//! Recordings that are split, read, joined and closed.
use crate::traces::{BOTH, swapped, touching};
use std::test::Fail;
use trace_pass::{Recorder, RecorderFault};

#[test]
fn two_recordings_become_one_sheet(rt: HostRuntime) -> Result<(), Fail> {
    let alloc = rt.alloc();
    let (recorder, mut first) = Recorder::open(alloc, 2, 2)?;
    let mut second = recorder.split(&mut first, 1);
    let Ok(()) = recorder.offer(&mut first, touching(alloc, 1)?) else {
        return Err(Fail::from("memory"));
    };
    let Ok(()) = recorder.offer(&mut second, swapped(alloc, 2)?) else {
        return Err(Fail::from("memory"));
    };
    let Err(
        RecorderFault::PassesOut {
            recorder,
            recording: mut first,
            have,
            all,
        },
    ) = recorder.close(first)
    else {
        return Err(Fail::from("closed"));
    };
    assert_eq!(rt; (have, all), (1, 2));
    let note = recorder.note(&mut first);
    recorder.meet(&mut second, note);
    let mut into = Vec::from_elem(alloc, 0u64, recorder.width() as usize)?;
    recorder.read(&mut second, into.as_mut_slice());
    assert_eq!(rt; into.len(), 127);
    assert_eq!(rt; into[126] & 10, 0);
    let Ok(()) = recorder.join(&mut first, second) else {
        return Err(Fail::from("memory"));
    };
    assert_eq!(rt; (first.shares(), first.traces().len()), (2, 2));
    let Ok(sheet) = recorder.close(first) else {
        return Err(Fail::from("not closed"));
    };
    let words = sheet.words().words();
    assert_eq!(rt; (sheet.traces().len(), words.len()), (2, 127));
    assert_eq!(rt; words[126], BOTH);
    Ok(())
}
