use crate::running::{SETTING, Setting, expect};
use std::test::Fail;

/// Three requests. In the first n is 110 ns ahead of m, by delays of 130 and -90, and p only logs; in
/// the second n is 75 behind, by delays of -100 and 50, which contradict each other; in the third n
/// is the reference, and no message goes to m.
const F: &[u8] =
    b"{\"request\":\"r1\",\"machine\":\"m\",\"task\":\"a\",\"event\":\"ask\",\"nanos\":10000,\"send\":\"q\"}\n{\"request\":\"r1\",\"machine\":\"n\",\"task\":\"b\",\"event\":\"asked\",\"nanos\":10130,\"recv\":\"q\"}\n{\"request\":\"r1\",\"machine\":\"n\",\"task\":\"b\",\"event\":\"answer\",\"nanos\":20000,\"send\":\"w\"}\n{\"request\":\"r1\",\"machine\":\"p\",\"task\":\"c\",\"event\":\"late\",\"nanos\":20005}\n{\"request\":\"r1\",\"machine\":\"m\",\"task\":\"a\",\"event\":\"answered\",\"nanos\":19910,\"recv\":\"w\"}\n{\"request\":\"r2\",\"machine\":\"m\",\"task\":\"a\",\"event\":\"ask\",\"nanos\":30000,\"send\":\"q\"}\n{\"request\":\"r2\",\"machine\":\"n\",\"task\":\"b\",\"event\":\"asked\",\"nanos\":29900,\"recv\":\"q\"}\n{\"request\":\"r2\",\"machine\":\"n\",\"task\":\"b\",\"event\":\"answer\",\"nanos\":31000,\"send\":\"w\"}\n{\"request\":\"r2\",\"machine\":\"m\",\"task\":\"a\",\"event\":\"answered\",\"nanos\":31050,\"recv\":\"w\"}\n{\"request\":\"r3\",\"machine\":\"n\",\"task\":\"b\",\"event\":\"asked\",\"nanos\":40000}\n{\"request\":\"r3\",\"machine\":\"m\",\"task\":\"a\",\"event\":\"ask\",\"nanos\":40010}\n";

/// Their rows.
const ROWS: &[u8] =
    b"lines\tok\t11\t11\t-\tevent lines\ntime\tnote\t10000\t40010\t-\tleast and greatest\ntime\tok\t1\t3\t-\tdays\ntime\tok\t0\t3\t-\tno time passes\ntime\tok\t0\t3\t-\tlonger than a day\ntraces\tok\t3\t3\t-\tvalid\nrefused\tok\t0\t1\t-\tslowest twentieth\nclock\twarn\t2\t4\tr1\tno offset\nclock\twarn\t1\t2\tr2\tdelays contradict\nclock\tok\t0\t2\tn\tno offset\nclock\twarn\t1\t2\tn\tdelays contradict\nclock\tok\t-75\t110\tn\tleast and greatest offset\nclock\twarn\t1\t1\tp\tno offset\nclock\tok\t0\t0\tp\tdelays contradict\nclock\twarn\t1\t1\tm\tno offset\nclock\tok\t0\t0\tm\tdelays contradict\nmessage\tok\t0\t4\t-\tnever received\nmessage\tok\t0\t4\t-\tnever sent\ncut\tok\t0\t0\t-\tlacks what nine of ten have\nwait\twarn\t2\t4\tr1\tfrom a send to a receipt\nname\tok\t2\t512\t-\tsegment names\nname\tok\t0\t2\t-\tin one trace alone\ntask\tok\t2\t64\t-\ttasks\ngrace\tok\t0\t3\t-\trefuted by few, by less than 1 ms\n";

#[test]
fn the_clock_of_each_machine_is_told(rt: HostRuntime) -> Result<(), Fail> {
    let setting = Setting { f: F, ..SETTING };
    expect(&rt, rt.alloc(), setting, 0, ROWS, b"")
}
