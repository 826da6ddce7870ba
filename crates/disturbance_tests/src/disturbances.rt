//! The disturbance time and direction.
use crate::traces::{at, high, is_disturbed, is_undisturbed, low, record_a};
use std::test::Fail;

// 49,850 falling by 2 a ms is 49,848 one ms later.
#[test]
fn record_a_leaves_low_at_20001(rt: HostRuntime) -> Result<(), Fail> {
    is_disturbed(&rt, &record_a(), low(20_001))
}

#[test]
fn the_edges_are_inside(rt: HostRuntime) -> Result<(), Fail> {
    is_undisturbed(
        &rt,
        &[
            at(0, 49_850),
            at(100, 50_150),
            at(200, 49_850),
            at(300, 49_850),
        ],
    )
}

// From the edge on, every later time is outside, however flat the line.
#[test]
fn one_beyond_the_edge_is_outside_at_once(rt: HostRuntime) -> Result<(), Fail> {
    is_disturbed(&rt, &[at(100, 49_850), at(150, 49_849)], low(101))?;
    is_disturbed(&rt, &[at(100, 50_150), at(150, 50_151)], high(101))
}

// 3 a ms: at 50 ms the line is on the edge and still inside.
#[test]
fn a_line_on_the_edge_is_inside(rt: HostRuntime) -> Result<(), Fail> {
    is_disturbed(&rt, &[at(0, 50_000), at(100, 49_700)], low(51))?;
    is_disturbed(&rt, &[at(0, 50_000), at(100, 50_300)], high(51))
}

// 1,000 in 7 ms: 142 and 6/7 after 1 ms, 285 and 5/7 after 2.
#[test]
fn an_edge_between_milliseconds_counts_from_the_next(rt: HostRuntime) -> Result<(), Fail> {
    is_disturbed(&rt, &[at(0, 50_000), at(7, 49_000)], low(2))?;
    is_disturbed(&rt, &[at(0, 50_000), at(7, 51_000)], high(2))
}

// 151 in 100 ms: 149.49 after 99 ms.
#[test]
fn the_time_may_be_the_later_samples_own(rt: HostRuntime) -> Result<(), Fail> {
    is_disturbed(&rt, &[at(0, 50_000), at(100, 49_849)], low(100))?;
    is_disturbed(&rt, &[at(10, 50_000), at(11, 52_000)], high(11))
}

// Two times 50,000 do not leave; then 100 a ms, over the edge after 1.5 ms.
#[test]
fn the_first_pair_that_leaves_counts(rt: HostRuntime) -> Result<(), Fail> {
    is_disturbed(
        &rt,
        &[
            at(0, 50_000),
            at(10, 50_000),
            at(20, 49_000),
            at(30, 50_000),
            at(40, 51_000),
        ],
        low(12),
    )
}

// It starts low; the first pair that leaves is 50,000 to 51,000, 10 a ms, on the edge after 15 ms.
#[test]
fn a_record_that_starts_outside_is_disturbed_later(rt: HostRuntime) -> Result<(), Fail> {
    is_disturbed(
        &rt,
        &[at(0, 49_000), at(100, 50_000), at(200, 51_000)],
        high(116),
    )
}

#[test]
fn from_one_side_straight_to_the_other_is_none(rt: HostRuntime) -> Result<(), Fail> {
    is_undisturbed(&rt, &[at(0, 49_000), at(100, 51_000)])?;
    is_undisturbed(&rt, &[at(0, 51_000), at(100, 49_000), at(200, 51_000)])
}

#[test]
fn coming_back_inside_is_none(rt: HostRuntime) -> Result<(), Fail> {
    is_undisturbed(&rt, &[at(0, 49_849), at(100, 49_850)])?;
    is_undisturbed(&rt, &[at(0, 50_151), at(100, 50_150), at(200, 49_850)])
}

#[test]
fn no_pair_no_disturbance(rt: HostRuntime) -> Result<(), Fail> {
    is_undisturbed(&rt, &[])?;
    is_undisturbed(&rt, &[at(0, 50_000)])?;
    is_undisturbed(&rt, &[at(0, 47_000)])
}

// 1 in 400 ms down, 1 in 600 ms up: 150 after 60,000 and 90,000 ms.
#[test]
fn the_longest_lines(rt: HostRuntime) -> Result<(), Fail> {
    is_disturbed(&rt, &[at(0, 50_000), at(1_200_000, 47_000)], low(60_001))?;
    is_disturbed(&rt, &[at(0, 50_000), at(1_200_000, 52_000)], high(90_001))?;
    is_disturbed(&rt, &[at(0, 49_851), at(1_200_000, 49_849)], low(600_001))?;
    is_disturbed(
        &rt,
        &[at(1_199_999, 50_150), at(1_200_000, 50_151)],
        high(1_200_000),
    )
}
