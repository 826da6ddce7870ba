//! The trigger time: the first whole millisecond from the disturbance time on, before any recovery,
//! with the dip at least the trigger.
use crate::traces::{at, high, low, record_a, triggers};
use std::test::Fail;

// 49,850 falling by 2 a ms: 49,800 after 25 ms, 49,799 between 25 and 26 ms, 49,750 at the sample.
#[test]
fn record_a_reaches_200_at_20025(rt: HostRuntime) -> Result<(), Fail> {
    let a = record_a();
    triggers(&rt, &a, low(20_001), 200, Some(20_025))?;
    triggers(&rt, &a, low(20_001), 201, Some(20_026))?;
    triggers(&rt, &a, low(20_001), 250, Some(20_050))?;
    triggers(&rt, &a, low(20_001), 251, None)
}

// 200 a ms: the dip is 200 at the disturbance time and 400 one ms later.
#[test]
fn the_disturbance_time_itself_may_be_it(rt: HostRuntime) -> Result<(), Fail> {
    let steep = [at(0, 50_000), at(10, 48_000)];
    triggers(&rt, &steep, low(1), 151, Some(1))?;
    triggers(&rt, &steep, low(1), 200, Some(1))?;
    triggers(&rt, &steep, low(1), 201, Some(2))?;
    triggers(&rt, &steep, low(1), 2_000, Some(10))
}

// 3 a ms: 200 after 66.7 ms.
#[test]
fn a_high_disturbance_reaches_it_above(rt: HostRuntime) -> Result<(), Fail> {
    let rising = [at(0, 50_000), at(100, 50_300)];
    triggers(&rt, &rising, high(51), 151, Some(51))?;
    triggers(&rt, &rising, high(51), 200, Some(67))?;
    triggers(&rt, &rising, high(51), 300, Some(100))?;
    triggers(&rt, &rising, high(51), 301, None)
}

// Recovered at 17 ms (30 a ms from 49,800 at 10 ms); the dip of 300 comes at 28 ms.
#[test]
fn a_dip_after_the_recovery_does_not_count(rt: HostRuntime) -> Result<(), Fail> {
    let twice = [
        at(0, 50_000),
        at(10, 49_800),
        at(20, 50_100),
        at(30, 49_600),
    ];
    triggers(&rt, &twice, low(8), 200, Some(10))?;
    triggers(&rt, &twice, low(8), 300, None)
}

// The record starts low: what lies before the disturbance time does not count.
#[test]
fn a_dip_before_the_disturbance_does_not_count(rt: HostRuntime) -> Result<(), Fail> {
    let early = [
        at(0, 49_000),
        at(10, 50_000),
        at(20, 49_800),
        at(30, 49_700),
    ];
    triggers(&rt, &early, low(18), 200, Some(20))?;
    triggers(&rt, &early, low(18), 300, Some(30))?;
    triggers(&rt, &early, low(18), 301, None)
}
