use slack_spread::{Spread, measure_spread};
use std::test::Fail;

#[test]
fn members_are_those_at_tenths_of_the_way(rt: HostRuntime) -> Result<(), Fail> {
    let mut numbers = [8u128, 0, 2, 0];
    let wanted = Spread {
        count: 4,
        zero: 2,
        least: 0,
        tenth: 0,
        median: 0,
        ninetieth: 2,
        greatest: 8,
    };
    assert_eq!(rt; measure_spread(&mut numbers), wanted);
    Ok(())
}

#[test]
fn of_no_numbers_each_figure_is_0(rt: HostRuntime) -> Result<(), Fail> {
    let mut numbers: [u128; 0] = [];
    let wanted = Spread {
        count: 0,
        zero: 0,
        least: 0,
        tenth: 0,
        median: 0,
        ninetieth: 0,
        greatest: 0,
    };
    assert_eq!(rt; measure_spread(&mut numbers), wanted);
    Ok(())
}
