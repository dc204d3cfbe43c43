use crate::running::{SETTING, Setting, expect};
use std::test::Fail;

/// Lines that lack a member, or have one of the wrong kind, out of range or with a bad text, each at
/// another member.
const F: &[u8] =
    b"{\"request\":\"r\",\"machine\":\"m\",\"task\":\"t\",\"event\":\"e\"}\n{\"request\":\"r\",\"machine\":\"m\",\"task\":\"t\",\"event\":\"e\",\"nanos\":null}\n{\"request\":\"r\",\"machine\":\"m\",\"task\":7,\"event\":\"e\",\"time\":true}\n{\"request\":\"r\",\"machine\":\"m\",\"task\":\"t\",\"event\":\"e\",\"nanos\":1.5}\n{\"request\":\"r\",\"machine\":\"m\",\"task\":\"t\",\"event\":\"e\",\"time\":1,\"send\":null,\"recv\":3}\n{\"request\":\"r\",\"machine\":\"m\",\"task\":\"t\",\"event\":\"e\",\"nanos\":-1}\n{\"request\":\"r\",\"machine\":\"m\",\"task\":\"t\",\"event\":\"\",\"time\":1,\"send\":\"\"}\n{\"do\":5}\n{\"do\":\"drop\"}\n{\"do\":\"keep\",\"days\":\"2\"}\n{\"do\":\"grace\",\"micros\":1000001}\n";

/// Their rows.
const ROWS: &[u8] =
    b"lines\twarn\t0\t11\t-\tevent lines\nlines\twarn\t3\t11\t-\tmissing member\nlines\twarn\t5\t11\t-\twrong kind\nlines\twarn\t2\t11\t-\tout of range\nlines\twarn\t1\t11\t-\tbad text\nbad\twarn\tf\t1\tmissing member\ttime\nbad\twarn\tf\t2\tmissing member\ttime\nbad\twarn\tf\t3\twrong kind\ttask\nbad\twarn\tf\t4\twrong kind\tnanos\nbad\twarn\tf\t5\twrong kind\trecv\nbad\twarn\tf\t6\tout of range\tnanos\nbad\twarn\tf\t7\tbad text\tevent\nbad\twarn\tf\t8\twrong kind\tdo\nbad\twarn\tf\t9\tmissing member\tday\nbad\twarn\tf\t10\twrong kind\tdays\nbad\twarn\tf\t11\tout of range\tmicros\ntime\tok\t0\t0\t-\tleast and greatest\ntime\tok\t0\t0\t-\tdays\ntime\tok\t0\t0\t-\tno time passes\ntime\tok\t0\t0\t-\tlonger than a day\ntraces\tok\t0\t0\t-\tvalid\nrefused\tok\t0\t0\t-\tslowest twentieth\nclock\tok\t0\t0\t-\tno offset\nclock\tok\t0\t0\t-\tdelays contradict\nmessage\tok\t0\t0\t-\tnever received\nmessage\tok\t0\t0\t-\tnever sent\ncut\tok\t0\t0\t-\tlacks what nine of ten have\nwait\tok\t0\t0\t-\tfrom a send to a receipt\nname\tok\t0\t512\t-\tsegment names\nname\tok\t0\t0\t-\tin one trace alone\ntask\tok\t0\t64\t-\ttasks\ngrace\tok\t0\t0\t-\trefuted by few, by less than 1 ms\n";

#[test]
fn the_first_member_at_fault_is_told(rt: HostRuntime) -> Result<(), Fail> {
    let setting = Setting { f: F, ..SETTING };
    expect(&rt, rt.alloc(), setting, 0, ROWS, b"")
}
