use crate::rows::{BRANCHES, input_of};
use crate::running::{SETTING, Setting, expect};
use std::test::Fail;

#[test]
fn a_forecast_tells_how_long_the_paths_would_be(rt: HostRuntime) -> Result<(), Fail> {
    let alloc = rt.alloc();
    let f = input_of(alloc, &[&BRANCHES])?;
    let table: [(&[&str], &[u8]); 5] = [
        (
            &["whatif", "b", "s", "e", "0", "1", "f"],
            b"whatif\ttraces=1\tbefore=18000\tafter=12000\nforecast\tr1\t0\t18000\t12000\n",
        ),
        (
            &["whatif", "b", "s", "e", "1", "2", "f"],
            b"whatif\ttraces=1\tbefore=18000\tafter=13000\nforecast\tr1\t0\t18000\t13000\n",
        ),
        (
            &["whatif", "c", "s", "e", "0", "1", "f"],
            b"whatif\ttraces=1\tbefore=18000\tafter=18000\nforecast\tr1\t0\t18000\t18000\n",
        ),
        (
            &["whatif", "x", "s", "e", "0", "1", "f"],
            b"whatif\ttraces=1\tbefore=18000\tafter=18000\nforecast\tr1\t0\t18000\t18000\n",
        ),
        (
            &["whatif", "b", "s", "e", "0", "1000000", "g"],
            b"whatif\ttraces=0\tbefore=0\tafter=0\n",
        ),
    ];
    for (words, out) in table {
        let setting = Setting {
            words,
            f: &f,
            ..SETTING
        };
        expect(&rt, alloc, setting, 0, out, b"")?;
    }
    Ok(())
}
