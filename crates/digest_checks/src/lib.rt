//! Tests of digests over texts in memory: the two page loads of the examples, each a shard.
#![tactic(auto)]

use digest_merging::{DigestLimit, MergeFault, merge_all, merge_digests};
use digest_reading::{DigestFault, read_digests};
use digest_text::{DigestTable, make_text};
use std::alloc::{AllocError, Global};
use std::rt::HostRuntime;
use std::vec::Vec;

/// The digest of the first page load, worked out by hand.
const FIRST: &str = concat!(
    "summary\ttraces=1\tdays=1\ttasks=9\tnames=9\n",
    "day\t19800\n",
    "task\tads call\t\n",
    "task\tads ranking\t.\n",
    "task\tbrowser render\t..\n",
    "task\tbrowser request\t...\n",
    "task\tdownload\t....\n",
    "task\tpage body\t.....\n",
    "task\tpage head\t....1.\n",
    "task\tuser query\t.......\n",
    "task\tweb accept\t........\n",
    "name\tads call\tcall start\tcall end\t\n",
    "name\tads ranking\trank start\trank end\t7\n",
    "name\tbrowser render\tpaint start\tpaint end\t22\n",
    "name\tbrowser request\ttap\trequest sent\t111\n",
    "name\tdownload\tfirst byte@html\tlast byte\t2212\n",
    "name\tpage body\twrite body\tbody flushed\t22121\n",
    "name\tpage head\twrite head@html\thead flushed\t771211\n",
    "name\tuser query\tquery start\tquery end\t7712117\n",
    "name\tweb accept\trequest received\tparsed\t11121111\n",
);

/// The digest of the second page load: the download begins while the body of the page is written.
const SECOND: &str = concat!(
    "summary\ttraces=1\tdays=1\ttasks=9\tnames=9\n",
    "day\t19800\n",
    "task\tads call\t\n",
    "task\tads ranking\t.\n",
    "task\tbrowser render\t..\n",
    "task\tbrowser request\t...\n",
    "task\tdownload\t....\n",
    "task\tpage body\t.....\n",
    "task\tpage head\t....1.\n",
    "task\tuser query\t.......\n",
    "task\tweb accept\t........\n",
    "name\tads call\tcall start\tcall end\t\n",
    "name\tads ranking\trank start\trank end\t7\n",
    "name\tbrowser render\tpaint start\tpaint end\t22\n",
    "name\tbrowser request\ttap\trequest sent\t111\n",
    "name\tdownload\tfirst byte@html\tlast byte\t2212\n",
    "name\tpage body\twrite body\tbody flushed\t22127\n",
    "name\tpage head\twrite head@html\thead flushed\t771211\n",
    "name\tuser query\tquery start\tquery end\t7712117\n",
    "name\tweb accept\trequest received\tparsed\t11121111\n",
);

/// The digest of both.
const BOTH: &str = concat!(
    "summary\ttraces=2\tdays=1\ttasks=9\tnames=9\n",
    "day\t19800\n",
    "task\tads call\t\n",
    "task\tads ranking\t.\n",
    "task\tbrowser render\t..\n",
    "task\tbrowser request\t...\n",
    "task\tdownload\t....\n",
    "task\tpage body\t.....\n",
    "task\tpage head\t....1.\n",
    "task\tuser query\t.......\n",
    "task\tweb accept\t........\n",
    "name\tads call\tcall start\tcall end\t\n",
    "name\tads ranking\trank start\trank end\t7\n",
    "name\tbrowser render\tpaint start\tpaint end\t22\n",
    "name\tbrowser request\ttap\trequest sent\t111\n",
    "name\tdownload\tfirst byte@html\tlast byte\t2212\n",
    "name\tpage body\twrite body\tbody flushed\t22127\n",
    "name\tpage head\twrite head@html\thead flushed\t771211\n",
    "name\tuser query\tquery start\tquery end\t7712117\n",
    "name\tweb accept\trequest received\tparsed\t11121111\n",
);

/// The most bytes that are read.
const MOST_BYTES: usize = 67_108_864;

/// Reads digests; out of memory where the text is too long to be read.
fn tables_of(alloc: Global, texts: &[u8]) -> Result<Vec<DigestTable>, DigestFault> {
    if texts.len() > MOST_BYTES {
        return Err(DigestFault::Memory);
    }
    read_digests(alloc, texts)
}

/// Reads the shards as one text, merges them, and prints the merge; none where any of it fails.
fn merged_text(alloc: Global, texts: &[u8]) -> Option<Vec<u8>> {
    let Ok(tables) = tables_of(alloc, texts) else {
        return None;
    };
    let Ok(all) = merge_all(alloc, &tables) else {
        return None;
    };
    make_text(alloc, &all).ok()
}

/// Reads two shards as one text, and prints their merge; none where any of it fails.
fn text_of_both(alloc: Global, texts: &[u8]) -> Option<Vec<u8>> {
    let Ok(tables) = tables_of(alloc, texts) else {
        return None;
    };
    let [first, second] = tables.as_slice() else {
        return None;
    };
    let Ok(both) = merge_digests(alloc, first, second) else {
        return None;
    };
    make_text(alloc, &both).ok()
}

/// Prints the merge of no digest; none where it fails.
fn text_of_none(alloc: Global) -> Option<Vec<u8>> {
    let Ok(none) = merge_all(alloc, &[]) else {
        return None;
    };
    make_text(alloc, &none).ok()
}

/// Reads the digests of a text, and tells which limit their merge passes; none where it passes
/// none, or any of it fails.
fn limit_passed(alloc: Global, texts: &[u8]) -> Option<DigestLimit> {
    let Ok(tables) = tables_of(alloc, texts) else {
        return None;
    };
    match merge_all(alloc, &tables) {
        Err(MergeFault::Limit(limit)) => Some(limit),
        _ => None,
    }
}

/// Appends the text of a digest of the most traces, with 40 tasks, which have these numbers from
/// `from` on, each with so many names.
fn put_digest(alloc: Global, text: &mut String, from: u32, each: u32) -> Result<(), AllocError> {
    let names = u64::from(each) * 40;
    let header = format!(in alloc;
        "summary\ttraces=18446744073709551615\tdays=1\ttasks=40\tnames={names}\nday\t7\n"
    )?;
    text.push_str(&header)?;
    for number in 0..40u32 {
        let task = u64::from(from) + u64::from(number);
        let row = format!(in alloc; "task\t{task}\t")?;
        text.push_str(&row)?;
        put_marks(text, u64::from(number))?;
    }
    for number in 0..40u32 {
        put_names(alloc, text, from, number, each)?;
    }
    Ok(())
}

/// Appends the rows of the names of a task.
fn put_names(
    alloc: Global,
    text: &mut String,
    from: u32,
    number: u32,
    each: u32,
) -> Result<(), AllocError> {
    let task = u64::from(from) + u64::from(number);
    for start in 0..each {
        let row = format!(in alloc; "name\t{task}\tstart {start}\tend\t")?;
        text.push_str(&row)?;
        put_marks(text, u64::from(number) * u64::from(each) + u64::from(start))?;
    }
    Ok(())
}

/// Appends so many marks of pairs of which nothing is known, and ends the row.
fn put_marks(text: &mut String, count: u64) -> Result<(), AllocError> {
    for _ in 0..count {
        text.push('.')?;
    }
    text.push('\n')?;
    Ok(())
}

/// Tells the line that is outside the form in these bytes; 0 where there is none.
fn bad_line(alloc: Global, bytes: &[u8]) -> u32 {
    match tables_of(alloc, bytes) {
        Err(DigestFault::Bad { line }) => line,
        _ => 0,
    }
}

#[test]
fn two_shards_are_the_whole(rt: HostRuntime) {
    let alloc = rt.alloc();
    let mut shards = Vec::new(alloc);
    assert!(rt; shards.extend_from_slice(FIRST.as_bytes()).is_ok());
    assert!(rt; shards.extend_from_slice(SECOND.as_bytes()).is_ok());
    let both = merged_text(alloc, &shards);
    assert!(rt; both.is_some_and(|text| text.as_slice() == BOTH.as_bytes()));
}

#[test]
fn a_digest_that_was_cut_is_refused(rt: HostRuntime) {
    let alloc = rt.alloc();
    let bytes = FIRST.as_bytes();
    let mut refused = true;
    for end in 0..bytes.len() {
        refused = refused && bad_line(alloc, &bytes[..end]) > 0;
    }
    assert!(rt; refused);
}

#[test]
fn the_first_line_outside_the_form_is_told(rt: HostRuntime) {
    let alloc = rt.alloc();
    assert_eq!(rt; bad_line(alloc, b""), 1);
    assert_eq!(rt;
        bad_line(alloc, b"summary\ttraces=0\tdays=0\ttasks=0\tnames=0\n"),
        0
    );
    assert_eq!(rt;
        bad_line(alloc, b"summary\ttraces=0\tdays=0\ttasks=0\tnames=0\n\n"),
        2
    );
    assert_eq!(rt;
        bad_line(alloc, b"summary\ttraces=1\tdays=2\ttasks=0\tnames=0\n"),
        1
    );
    assert_eq!(rt;
        bad_line(
            alloc,
            b"summary\ttraces=2\tdays=2\ttasks=0\tnames=0\nday\t7\nday\t7\n"
        ),
        3
    );
    assert_eq!(rt;
        bad_line(
            alloc,
            b"summary\ttraces=18446744073709551616\tdays=1\ttasks=0\tnames=0\nday\t7\n"
        ),
        1
    );
}

#[test]
fn two_are_merged_alike(rt: HostRuntime) {
    let alloc = rt.alloc();
    let mut shards = Vec::new(alloc);
    assert!(rt; shards.extend_from_slice(SECOND.as_bytes()).is_ok());
    assert!(rt; shards.extend_from_slice(FIRST.as_bytes()).is_ok());
    let both = text_of_both(alloc, &shards);
    assert!(rt; both.is_some_and(|text| text.as_slice() == BOTH.as_bytes()));
}

#[test]
fn no_digest_is_that_of_no_trace(rt: HostRuntime) {
    let none = text_of_none(rt.alloc());
    let empty = b"summary\ttraces=0\tdays=0\ttasks=0\tnames=0\n";
    assert!(rt; none.is_some_and(|text| text.as_slice() == empty.as_slice()));
}

#[test]
fn five_shards_count_alone(rt: HostRuntime) {
    let alloc = rt.alloc();
    let mut shards = Vec::new(alloc);
    for _ in 0..5 {
        assert!(rt; shards.extend_from_slice(SECOND.as_bytes()).is_ok());
    }
    let header = b"summary\ttraces=5\tdays=1\ttasks=9\tnames=9\n";
    let rows = SECOND.as_bytes().get(header.len()..).unwrap_or(b"");
    let all = merged_text(alloc, &shards);
    assert!(rt; all.is_some_and(|text| text.starts_with(header) && text.ends_with(rows)));
}

#[test]
fn a_day_after_the_latest_is_refused(rt: HostRuntime) {
    let alloc = rt.alloc();
    let header = "summary\ttraces=1\tdays=1\ttasks=0\tnames=0\n";
    let latest = concat!(
        "summary\ttraces=1\tdays=1\ttasks=0\tnames=0\n",
        "day\t47482\n"
    );
    let later = concat!(
        "summary\ttraces=1\tdays=1\ttasks=0\tnames=0\n",
        "day\t47483\n"
    );
    assert_eq!(rt; bad_line(alloc, header.as_bytes()), 2);
    assert_eq!(rt; bad_line(alloc, latest.as_bytes()), 0);
    assert_eq!(rt; bad_line(alloc, later.as_bytes()), 2);
}

#[test]
fn too_many_traces_are_told_last(rt: HostRuntime) {
    let alloc = rt.alloc();
    let mut text = String::new(alloc);
    assert!(rt; put_digest(alloc, &mut text, 100, 1).is_ok());
    assert!(rt; put_digest(alloc, &mut text, 120, 1).is_ok());
    assert!(rt; limit_passed(alloc, text.as_bytes()) == Some(DigestLimit::Traces));
}

#[test]
fn too_many_tasks_are_told_before_traces(rt: HostRuntime) {
    let alloc = rt.alloc();
    let mut text = String::new(alloc);
    assert!(rt; put_digest(alloc, &mut text, 100, 1).is_ok());
    assert!(rt; put_digest(alloc, &mut text, 130, 1).is_ok());
    assert!(rt; put_digest(alloc, &mut text, 150, 1).is_ok());
    assert!(rt; limit_passed(alloc, text.as_bytes()) == Some(DigestLimit::Tasks { count: 90 }));
}

#[test]
fn too_many_names_are_told_first(rt: HostRuntime) {
    let alloc = rt.alloc();
    let mut text = String::new(alloc);
    assert!(rt; put_digest(alloc, &mut text, 100, 9).is_ok());
    assert!(rt; put_digest(alloc, &mut text, 130, 9).is_ok());
    assert!(rt; limit_passed(alloc, text.as_bytes()) == Some(DigestLimit::Names { count: 630 }));
}
