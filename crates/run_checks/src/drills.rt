use crate::running::{SETTING, Setting, expect};
use std::test::Fail;

const ONE_TRACE: &[u8] = b"model\ttraces=1\tdays=1\tsegments=6\ttasks=5\thb=12\tmx=0\tpipe=2\n\
        report\ttraces=1\tcritical=2162000\nlatency\t1\t2172000\t2172000\t2172000\n";

/// Each latency is 10 microseconds more than the length of the critical path.
const FIFTY_TRACES: &[u8] = b"model\ttraces=50\tdays=1\tsegments=6\ttasks=5\thb=12\tmx=0\tpipe=2\n\
        report\ttraces=50\tcritical=99711000\nlatency\t50\t100211000\t1963000\t3048000\n";

/// Here too: the sum of the latencies is 20,000 times 10 microseconds more than `critical`.
const MANY_TRACES: &[u8] =
    b"model\ttraces=20000\tdays=20\tsegments=6\ttasks=5\thb=12\tmx=0\tpipe=2\n\
        report\ttraces=20000\tcritical=42932195000\nlatency\t20000\t43132195000\t2160000\t3939000\n";

#[test]
fn a_drill_opens_no_file_and_prints_its_summary(rt: HostRuntime) -> Result<(), Fail> {
    let table: [(&[&str], &[u8]); 7] = [
        (&["drill", "1", "1"], ONE_TRACE),
        (&["--workers", "1", "drill", "1", "50"], FIFTY_TRACES),
        (&["drill", "1", "50"], FIFTY_TRACES),
        (&["--workers", "64", "drill", "1", "50"], FIFTY_TRACES),
        (&["--workers", "1", "drill", "1", "20000"], MANY_TRACES),
        (&["drill", "1", "20000"], MANY_TRACES),
        (&["--workers", "64", "drill", "1", "20000"], MANY_TRACES),
    ];
    for (words, out) in table {
        // The first call on files would fail.
        let setting = Setting {
            words,
            failing: 1,
            ..SETTING
        };
        expect(&rt, rt.alloc(), setting, 0, out, b"")?;
    }
    Ok(())
}
