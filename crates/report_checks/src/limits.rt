//! How many workers share a piece of work.
use std::test::Fail;
use worker_limit::WorkerLimit;

#[test]
fn a_list_goes_to_as_many_workers_as_halving_makes(rt: HostRuntime) -> Result<(), Fail> {
    for (most, length, fewest, expected) in [
        (1, 100, 16, 100),
        (2, 100, 16, 50),
        (3, 100, 16, 50),
        (4, 100, 16, 25),
        (64, 100, 16, 16),
        (4, 5, 1, 2),
        (4, 3, 1, 1),
        (0, 7, 1, 7),
    ] {
        let workers = WorkerLimit { runtime: &rt, most };
        assert_eq!(rt; workers.piece_length(length, fewest), expected);
    }
    Ok(())
}
