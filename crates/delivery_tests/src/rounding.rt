//! Rounding: halves go up, at each step that is rounded and at no other. Powers count in hundredths
//! of a watt up to the value of a window.
use crate::asking::*;
use crate::records::*;
use crate::rules::*;
use figure::report::Verdict;
use recording::sample::Sample;
use response::service::Service;
use response::weighing::Weight;
use std::test::Fail;

// A base of a quarter of a power; the last power before the window lasts through it, from 26,001 to
// 26,002.
fn quarter(power: i32, last: i32) -> [Sample; 8] {
    [
        at(5_000, 50_000, 0),
        at(5_001, 50_000, 0),
        at(5_002, 50_000, 0),
        at(5_003, 50_000, power),
        at(20_000, 49_850, 0),
        at(20_001, 49_800, 0),
        at(25_000, 49_900, last),
        at(27_002, 50_100, 9),
    ]
}

// -0.25, 0.25 and -0.75 W, times 2.
#[test]
fn the_value_of_a_window(rt: HostRuntime) -> Result<(), Fail> {
    delivers(
        &rt,
        variable(plain(&quarter(1, 0), Service::R60)),
        level(20_001, 26_002, 0),
    )?;
    delivers(
        &rt,
        variable(plain(&quarter(-1, 0), Service::R60)),
        met(20_001, 26_002, 1),
    )?;
    delivers(
        &rt,
        variable(plain(&quarter(-1, -1), Service::R60)),
        short(20_001, 26_002, -1),
    )
}

// 19 ms from 30 to 600 W and 1 ms level: 329.25, times 2 is 658.5.
#[test]
fn the_multiplier_comes_first(rt: HostRuntime) -> Result<(), Fail> {
    let samples = [
        at(5_000, 50_000, 0),
        at(19_980, 49_850, 0),
        at(20_000, 49_750, 600),
        at(20_001, 50_050, 700),
        at(20_040, 50_000, 0),
    ];
    delivers(
        &rt,
        variable(plain(&samples, Service::R6)),
        met(19_981, 20_001, 659),
    )
}

// A base of an eighth of a power.
fn eighth(power: i32) -> [Sample; 12] {
    [
        at(5_000, 50_000, 0),
        at(5_001, 50_000, 0),
        at(5_002, 50_000, 0),
        at(5_003, 50_000, 0),
        at(5_004, 50_000, 0),
        at(5_005, 50_000, 0),
        at(5_006, 50_000, 0),
        at(5_007, 50_000, power),
        at(20_000, 49_850, 0),
        at(20_001, 49_800, 0),
        at(25_000, 49_900, 0),
        at(27_002, 50_100, 9),
    ]
}

// 12.5 hundredths go to 13: -0.13 * 2 * 2 = -0.52. -12.5 go to -12: 0.48.
#[test]
fn the_base(rt: HostRuntime) -> Result<(), Fail> {
    let rule = double(None);
    delivers(
        &rt,
        ruled(plain(&eighth(1), Service::R60), &rule),
        short(20_001, 26_002, -1),
    )?;
    delivers(
        &rt,
        ruled(plain(&eighth(-1), Service::R60), &rule),
        level(20_001, 26_002, 0),
    )
}

// No power up to the recovery at 26,002.
fn still() -> [Sample; 5] {
    [
        at(5_000, 50_000, 0),
        at(20_000, 49_850, 0),
        at(20_001, 49_800, 0),
        at(25_000, 49_900, 0),
        at(27_002, 50_100, 9),
    ]
}

// The trajectory is at 0.17 W at the disturbance time: -17 hundredths * 3/2 = -25.5 go to -25, and
// -0.5 to 0.
#[test]
fn the_weighed_response(rt: HostRuntime) -> Result<(), Fail> {
    let targets = [target(5_000, 0), target(19_984, 0), target(20_084, 1)];
    delivers(
        &rt,
        ruled(
            aimed(&still(), Service::R60, &targets),
            &always(Weight { n: 3, d: 2 }),
        ),
        level(20_001, 26_002, 0),
    )
}

// At 5,000 the trajectory is at -25.5 hundredths, which round to -25, at the disturbance time at 0:
// base 0.25 W, -0.5 goes to 0.
#[test]
fn the_targets_at_each_time(rt: HostRuntime) -> Result<(), Fail> {
    let targets = [
        target(4_745, 0),
        target(5_745, -1),
        target(6_000, 0),
        target(30_000, 0),
    ];
    delivers(
        &rt,
        variable(aimed(&still(), Service::R60, &targets)),
        level(20_001, 26_002, 0),
    )
}

// The trajectory, turned, is at -7.16, -7.15 and -1.62 W: raises of 5.54 and 5.53 W, base 2.54 W.
// From -8.04 W 1 ms of 7.71 W in the mean and 24 ms at 23.46 W: 570.75/25 = 22.83, times 2.
#[test]
fn targets_count_in_hundredths(rt: HostRuntime) -> Result<(), Fail> {
    let samples = [
        at(5_000, 50_000, -11),
        at(5_003, 50_000, 17),
        at(20_000, 50_150, 37),
        at(20_002, 50_428, -26),
        at(20_049, 49_589, -31),
    ];
    delivers(
        &rt,
        variable(aimed(&samples, Service::L6, &[target(0, 9), target(21_684, 1)])),
        met(20_001, 20_026, 46),
    )
}

// Turned, the trajectory is at 0.5 hundredths, which round to 1, and at 2.0001, which round to 2:
// base 18.01 W. (18 * -6.955 + 3 * 11.99)/21 = -4.2486, times 2.
#[test]
fn targets_of_a_high_disturbance_are_turned_first(rt: HostRuntime) -> Result<(), Fail> {
    let samples = [
        at(5_000, 50_000, -18),
        at(20_000, 50_150, 10),
        at(20_019, 50_410, -30),
        at(20_022, 49_841, 0),
    ];
    delivers(
        &rt,
        variable(aimed(
            &samples,
            Service::L6,
            &[target(0, 0), target(1_000_000, -1)],
        )),
        short(20_001, 20_022, -8),
    )
}

// -24 W before and -61 W after it: -2,492.5 hundredths at the start go to -2,492. (-1,675.44 -
// 183)/42 = -44.2486, times 2.
#[test]
fn a_window_start_between_samples(rt: HostRuntime) -> Result<(), Fail> {
    let samples = [
        at(5_000, 50_000, 44),
        at(5_003, 50_000, 52),
        at(20_000, 49_850, 24),
        at(20_040, 49_571, -13),
        at(20_043, 50_105, 56),
    ];
    delivers(
        &rt,
        variable(plain(&samples, Service::R6)),
        short(20_001, 20_043, -88),
    )
}

// 1 W or -1 W, weighed, at 20,002; the window lasts from 20,001 to 20,003.
fn brief(power: i32) -> [Sample; 4] {
    [
        at(5_000, 50_000, 0),
        at(20_000, 49_850, 0),
        at(20_002, 49_752, power),
        at(20_004, 50_250, 0),
    ]
}

// 128.5 hundredths go to 129: (193 + 257)/2 = 225, times 2 is 4.5 W. -71.5 go to -71: (-107 -
// 143)/2 = -125, times 2 is -2.5 W.
#[test]
fn a_half_at_a_window_start(rt: HostRuntime) -> Result<(), Fail> {
    delivers(
        &rt,
        ruled(
            plain(&brief(1), Service::R6),
            &always(Weight { n: 257, d: 100 }),
        ),
        met(20_001, 20_003, 5),
    )?;
    delivers(
        &rt,
        ruled(
            plain(&brief(-1), Service::R6),
            &always(Weight { n: 143, d: 100 }),
        ),
        short(20_001, 20_003, -2),
    )
}

// 0.25 W up to 79,991, then a fall to -0.75 W at 83,991: 24.75 hundredths at 80,001 go to 25, so
// that the first value is 0.5 W, and goes to 1.
#[test]
fn a_window_end_between_samples(rt: HostRuntime) -> Result<(), Fail> {
    let samples = [
        at(5_000, 50_000, 0),
        at(5_001, 50_000, 0),
        at(5_002, 50_000, 0),
        at(5_003, 50_000, -1),
        at(19_991, 50_000, 0),
        at(20_000, 49_850, 0),
        at(20_001, 49_800, 0),
        at(23_991, 49_900, 0),
        at(27_991, 49_900, 0),
        at(31_991, 49_900, 0),
        at(35_991, 49_900, 0),
        at(39_991, 49_900, 0),
        at(43_991, 49_900, 0),
        at(47_991, 49_900, 0),
        at(51_991, 49_900, 0),
        at(55_991, 49_900, 0),
        at(59_991, 49_900, 0),
        at(63_991, 49_900, 0),
        at(67_991, 49_900, 0),
        at(71_991, 49_900, 0),
        at(75_991, 49_900, 0),
        at(79_991, 49_900, 0),
        at(83_991, 49_900, -1),
        at(83_992, 50_100, 0),
    ];
    delivers(
        &rt,
        variable(plain(&samples, Service::R60)),
        both(Some(83_992), 1, -1, -1, Verdict::Short),
    )
}
