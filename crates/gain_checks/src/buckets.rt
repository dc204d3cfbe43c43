use latency_ranks::{bucket_count, find_buckets};
use std::test::Fail;

#[test]
fn of_equal_latencies_the_later_listed_come_after(rt: HostRuntime) -> Result<(), Fail> {
    let buckets = find_buckets(rt.alloc(), &[30, 10, 30, 20])?;
    assert_eq!(rt; buckets.as_slice(), [2u32, 0, 3, 1].as_slice());
    Ok(())
}

#[test]
fn there_are_as_many_buckets_as_traces_but_one_to_twenty(rt: HostRuntime) -> Result<(), Fail> {
    for (traces, buckets) in [(0, 1), (1, 1), (7, 7), (20, 20), (41, 20)] {
        assert_eq!(rt; bucket_count(traces), buckets);
    }
    Ok(())
}
