//! The recovery: the first whole millisecond after the disturbance time with the dip below 0.
use crate::traces::{at, high, low, record_a, recovers};
use recording::sample::Sample;
use std::test::Fail;

// From nominal to a second sample after 10 ms, and then to the last two.
fn from_nominal(second: u32, third: u32, last: u32) -> [Sample; 4] {
    [at(0, 50_000), at(10, second), at(20, third), at(30, last)]
}

// It falls by 20 a ms, so that the edge is passed after 7.5 ms; then it goes to the last two
// samples.
fn dipped(third: u32, last: u32) -> [Sample; 4] {
    from_nominal(49_800, third, last)
}

// The same the other way.
fn raised(third: u32, last: u32) -> [Sample; 4] {
    from_nominal(50_200, third, last)
}

// 250 at 10 a ms: on 50,000 at 20,075.
#[test]
fn record_a_recovers_at_20076(rt: HostRuntime) -> Result<(), Fail> {
    recovers(&rt, &record_a(), low(20_001), Some(20_076))
}

#[test]
fn a_line_that_only_touches_nominal_has_not_recovered(rt: HostRuntime) -> Result<(), Fail> {
    recovers(&rt, &dipped(50_000, 49_800), low(8), None)?;
    recovers(&rt, &dipped(50_000, 50_000), low(8), None)?;
    recovers(&rt, &raised(50_000, 50_200), high(8), None)
}

// 25 a ms: on 50,000 after 8 ms, past it after 9, one ms before the sample.
#[test]
fn one_millisecond_before_a_sample(rt: HostRuntime) -> Result<(), Fail> {
    recovers(&rt, &dipped(50_050, 50_050), low(8), Some(19))?;
    recovers(&rt, &raised(49_950, 49_950), high(8), Some(19))
}

// 20.1 a ms: 180.9 of 200 after 9 ms.
#[test]
fn exactly_on_a_sample(rt: HostRuntime) -> Result<(), Fail> {
    recovers(&rt, &dipped(50_001, 50_001), low(8), Some(20))?;
    recovers(&rt, &raised(49_999, 49_999), high(8), Some(20))
}

// On 50,000 at the sample, past it at the next millisecond.
#[test]
fn one_millisecond_after_a_sample(rt: HostRuntime) -> Result<(), Fail> {
    recovers(&rt, &dipped(50_000, 50_001), low(8), Some(21))?;
    recovers(&rt, &raised(50_000, 49_900), high(8), Some(21))
}

#[test]
fn on_the_last_sample(rt: HostRuntime) -> Result<(), Fail> {
    recovers(&rt, &dipped(49_900, 50_001), low(8), Some(30))?;
    recovers(&rt, &raised(50_100, 49_999), high(8), Some(30))
}

#[test]
fn a_record_that_ends_before_has_none(rt: HostRuntime) -> Result<(), Fail> {
    recovers(&rt, &dipped(49_900, 49_999), low(8), None)?;
    recovers(&rt, &record_a()[0..3], low(20_001), None)?;
    recovers(&rt, &[at(0, 50_000), at(10, 50_200)], high(8), None)
}

// Before the disturbance the frequency is above 50,000 already. 110 a ms either way: past the edge
// after 2.3 ms, back on 50,000 after 9.1 ms.
#[test]
fn what_lies_before_the_disturbance_does_not_count(rt: HostRuntime) -> Result<(), Fail> {
    recovers(
        &rt,
        &[at(0, 50_100), at(10, 49_000), at(20, 50_100)],
        low(3),
        Some(20),
    )
}

// A second dip comes after the recovery.
#[test]
fn the_first_recovery_counts(rt: HostRuntime) -> Result<(), Fail> {
    recovers(
        &rt,
        &[
            at(0, 50_000),
            at(10, 49_800),
            at(20, 50_050),
            at(30, 49_000),
            at(40, 50_500),
        ],
        low(8),
        Some(19),
    )
}
