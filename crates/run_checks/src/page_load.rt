use crate::rows::Row::{self, Table};
use crate::running::expect_texts;
use std::test::Fail;

/// A request for a page, over a phone, a web server and a server of advertisements.
const FIRST_LOAD: &str = "\
req 4711|phone-17|browser request|tap|1710720000000000||
req 4711|phone-17|browser request|request sent|1710720000001200|m1|
req 4711|web-03|web accept|request received|1710720000031450||m1
req 4711|web-03|web accept|parsed|1710720000032250||
req 4711|web-03|page head|write head@html|1710720000032250||
req 4711|web-03|page head|head flushed|1710720000033750|m5|
req 4711|web-03|user query|query start|1710720000032250||
req 4711|web-03|user query|query end|1710720000039250||
req 4711|web-03|ads call|call start|1710720000032250|m2|
req 4711|ads-02|ads ranking|rank start|1710720000032060||m2
req 4711|ads-02|ads ranking|rank end|1710720000046960|m3|
req 4711|web-03|ads call|call end|1710720000047350||m3
req 4711|web-03|page body|write body|1710720000047350||
req 4711|web-03|page body|body flushed|1710720000049350|m4|
req 4711|phone-17|download|first byte@html|1710720000063500||m5
req 4711|phone-17|download|last byte|1710720000079100||m4
req 4711|phone-17|browser render|paint start|1710720000079100||
req 4711|phone-17|browser render|paint end|1710720000084100||
";

/// Another one, over another phone.
const SECOND_LOAD: &str = "\
req 4712|phone-22|browser request|tap|1710720001000000||
req 4712|phone-22|browser request|request sent|1710720001000900|m1|
req 4712|web-03|web accept|request received|1710720001019900||m1
req 4712|web-03|web accept|parsed|1710720001020500||
req 4712|web-03|page head|write head@html|1710720001020500||
req 4712|web-03|page head|head flushed|1710720001021500|m5|
req 4712|web-03|user query|query start|1710720001020500||
req 4712|web-03|user query|query end|1710720001040500||
req 4712|web-03|ads call|call start|1710720001020500|m2|
req 4712|ads-02|ads ranking|rank start|1710720001020310||m2
req 4712|ads-02|ads ranking|rank end|1710720001032310|m3|
req 4712|web-03|ads call|call end|1710720001032700||m3
req 4712|web-03|page body|write body|1710720001040500||
req 4712|web-03|page body|body flushed|1710720001043000|m4|
req 4712|phone-22|download|first byte@html|1710720001042500||m5
req 4712|phone-22|download|last byte|1710720001064000||m4
req 4712|phone-22|browser render|paint start|1710720001064000||
req 4712|phone-22|browser render|paint end|1710720001067000||
";

/// The first request.
pub(crate) const FIRST: [Row<'static>; 1] = [Table(FIRST_LOAD)];

/// The second request.
pub(crate) const SECOND: [Row<'static>; 1] = [Table(SECOND_LOAD)];

pub(crate) const PAGE_LOAD_MODEL: &[u8] =
    b"model\ttraces=2\tdays=1\tsegments=9\ttasks=9\thb=29\tmx=0\tpipe=1\n\
        hb\tads call\tcall start\tcall end\tbrowser render\tpaint start\tpaint end\n\
        hb\tads call\tcall start\tcall end\tdownload\tfirst byte@html\tlast byte\n\
        hb\tads call\tcall start\tcall end\tpage body\twrite body\tbody flushed\n\
        hb\tads ranking\trank start\trank end\tbrowser render\tpaint start\tpaint end\n\
        hb\tads ranking\trank start\trank end\tdownload\tfirst byte@html\tlast byte\n\
        hb\tads ranking\trank start\trank end\tpage body\twrite body\tbody flushed\n\
        hb\tbrowser request\ttap\trequest sent\tads call\tcall start\tcall end\n\
        hb\tbrowser request\ttap\trequest sent\tads ranking\trank start\trank end\n\
        hb\tbrowser request\ttap\trequest sent\tbrowser render\tpaint start\tpaint end\n\
        hb\tbrowser request\ttap\trequest sent\tdownload\tfirst byte@html\tlast byte\n\
        hb\tbrowser request\ttap\trequest sent\tpage body\twrite body\tbody flushed\n\
        hb\tbrowser request\ttap\trequest sent\tpage head\twrite head@html\thead flushed\n\
        hb\tbrowser request\ttap\trequest sent\tuser query\tquery start\tquery end\n\
        hb\tbrowser request\ttap\trequest sent\tweb accept\trequest received\tparsed\n\
        hb\tdownload\tfirst byte@html\tlast byte\tbrowser render\tpaint start\tpaint end\n\
        hb\tpage body\twrite body\tbody flushed\tbrowser render\tpaint start\tpaint end\n\
        hb\tpage head\twrite head@html\thead flushed\tbrowser render\tpaint start\tpaint end\n\
        hb\tpage head\twrite head@html\thead flushed\tdownload\tfirst byte@html\tlast byte\n\
        hb\tpage head\twrite head@html\thead flushed\tpage body\twrite body\tbody flushed\n\
        hb\tuser query\tquery start\tquery end\tbrowser render\tpaint start\tpaint end\n\
        hb\tuser query\tquery start\tquery end\tdownload\tfirst byte@html\tlast byte\n\
        hb\tuser query\tquery start\tquery end\tpage body\twrite body\tbody flushed\n\
        hb\tweb accept\trequest received\tparsed\tads call\tcall start\tcall end\n\
        hb\tweb accept\trequest received\tparsed\tads ranking\trank start\trank end\n\
        hb\tweb accept\trequest received\tparsed\tbrowser render\tpaint start\tpaint end\n\
        hb\tweb accept\trequest received\tparsed\tdownload\tfirst byte@html\tlast byte\n\
        hb\tweb accept\trequest received\tparsed\tpage body\twrite body\tbody flushed\n\
        hb\tweb accept\trequest received\tparsed\tpage head\twrite head@html\thead flushed\n\
        hb\tweb accept\trequest received\tparsed\tuser query\tquery start\tquery end\n\
        pipe\tpage head\tdownload\n";

pub(crate) const PAGE_LOAD_PATHS: &[u8] =
    b"paths\ttraces=2\npath\treq 4711\t19800\t84100000\t37700000\t5\n\
        step\tbrowser request\ttap\trequest sent\t1200000\n\
        step\tweb accept\trequest received\tparsed\t800000\n\
        step\tads call\tcall start\tcall end\t15100000\n\
        step\tdownload\tfirst byte@html\tlast byte\t15600000\n\
        step\tbrowser render\tpaint start\tpaint end\t5000000\n\
        path\treq 4712\t19800\t67000000\t46000000\t5\n\
        step\tbrowser request\ttap\trequest sent\t900000\n\
        step\tweb accept\trequest received\tparsed\t600000\n\
        step\tuser query\tquery start\tquery end\t20000000\n\
        step\tdownload\tfirst byte@html\tlast byte\t21500000\n\
        step\tbrowser render\tpaint start\tpaint end\t3000000\n";

pub(crate) const PAGE_LOAD_REPORT: &[u8] = b"report\ttraces=2\tcritical=83700000\n\
        latency\t2\t151100000\t67000000\t84100000\n\
        segment\tads call\tcall start\tcall end\t2\t27300000\t12200000\t15100000\t1\t15100000\n\
        segment\tads ranking\trank start\trank end\t2\t26900000\t12000000\t14900000\t0\t0\n\
        segment\tbrowser render\tpaint start\tpaint end\t2\t8000000\t3000000\t5000000\t2\t8000000\n\
        segment\tbrowser request\ttap\trequest sent\t2\t2100000\t900000\t1200000\t2\t2100000\n\
        segment\tdownload\tfirst byte@html\tlast byte\t\
        2\t37100000\t15600000\t21500000\t2\t37100000\n\
        segment\tpage body\twrite body\tbody flushed\t2\t4500000\t2000000\t2500000\t0\t0\n\
        segment\tpage head\twrite head@html\thead flushed\t2\t2500000\t1000000\t1500000\t0\t0\n\
        segment\tuser query\tquery start\tquery end\t2\t27000000\t7000000\t20000000\t1\t20000000\n\
        segment\tweb accept\trequest received\tparsed\t2\t1400000\t600000\t800000\t2\t1400000\n";

pub(crate) const PAGE_LOAD_TAIL: &[u8] = b"tail\ttraces=2\tslow=1\tfloor=84100000\n\
        segment\tads call\tcall start\tcall end\t1\t15100000\t0\t0\n\
        segment\tads ranking\trank start\trank end\t0\t0\t0\t0\n\
        segment\tbrowser render\tpaint start\tpaint end\t1\t5000000\t1\t3000000\n\
        segment\tbrowser request\ttap\trequest sent\t1\t1200000\t1\t900000\n\
        segment\tdownload\tfirst byte@html\tlast byte\t1\t15600000\t1\t21500000\n\
        segment\tpage body\twrite body\tbody flushed\t0\t0\t0\t0\n\
        segment\tpage head\twrite head@html\thead flushed\t0\t0\t0\t0\n\
        segment\tuser query\tquery start\tquery end\t0\t0\t1\t20000000\n\
        segment\tweb accept\trequest received\tparsed\t1\t800000\t1\t600000\n";

#[test]
fn the_page_load_prints_the_same_with_any_number_of_workers(rt: HostRuntime) -> Result<(), Fail> {
    for workers in ["1", "4", "64"] {
        expect_texts(
            &rt,
            rt.alloc(),
            workers,
            &[
                ("model", &[&FIRST, &SECOND], PAGE_LOAD_MODEL),
                ("paths", &[&FIRST, &SECOND], PAGE_LOAD_PATHS),
                ("report", &[&FIRST, &SECOND], PAGE_LOAD_REPORT),
                ("tail", &[&FIRST, &SECOND], PAGE_LOAD_TAIL),
            ],
        )?;
    }
    Ok(())
}
