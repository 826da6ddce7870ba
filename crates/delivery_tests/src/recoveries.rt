//! Recovery at the start and the end of each window, and 1 ms to either side; after the last sample
//! before it the power counts as level.
use crate::asking::*;
use crate::long::*;
use crate::records::*;
use disturbance::direction::Direction;
use figure::report::Verdict;
use recording::sample::Sample;
use response::service::Service;
use response::settings::Proposal;
use std::test::Fail;

// 26 ms level at 1,000 W, whatever the power of the next sample: (24,990 + 26,000)/75 = 679.87,
// times 2.
#[test]
fn the_power_after_recovery_does_not_count(rt: HostRuntime) -> Result<(), Fail> {
    delivers(
        &rt,
        variable(plain(&fallen(at(20_100, 50_250, 3_000)), Service::R6)),
        met(20_001, 20_076, 1_360),
    )
}

// 49,995.98 at 20,099 and 50,001 at 20,100. 50 ms level: (24,990 + 50,000)/99 = 757.47, times 2.
#[test]
fn a_sample_on_the_recovery_does_not_count(rt: HostRuntime) -> Result<(), Fail> {
    delivers(
        &rt,
        variable(plain(&fallen(at(20_100, 50_001, 3_000)), Service::R6)),
        met(20_001, 20_100, 1_515),
    )
}

// At 25,000 the weight is 350/100, cut to 3: 6,000 W, level from 26,001 to 26,501, times 2.
#[test]
fn a_window_may_lie_wholly_in_the_level_part(rt: HostRuntime) -> Result<(), Fail> {
    let samples = fallen_long(at(25_000, 49_750, 2_000), at(28_000, 50_250, 4_000));
    delivers(
        &rt,
        variable(plain(&samples, Service::R60)),
        met(20_001, 26_501, 12_000),
    )
}

// At rate 10 the ramp dip is 199.99 at 25,000: the weight is 49.99/20, and stays so while the power
// is level: 4,999 W, times 2.
#[test]
fn the_weight_does_not_grow_in_the_level_part(rt: HostRuntime) -> Result<(), Fail> {
    let samples = fallen_long(at(25_000, 49_830, 2_000), at(28_000, 50_170, 4_000));
    let slope = Proposal { rate: 10, ..PLAIN };
    delivers(
        &rt,
        variable(with(slope, plain(&samples, Service::R60))),
        met(20_001, 26_501, 9_998),
    )
}

// From 20,100 to 20,125 the line is on 50,000. (24,990 + 100,000 + 78,000)/125 = 1,623.92, times 2.
#[test]
fn a_line_on_nominal_has_not_recovered(rt: HostRuntime) -> Result<(), Fail> {
    let samples = [
        at(5_000, 50_000, 0),
        at(20_000, 49_850, 0),
        at(20_050, 49_750, 1_000),
        at(20_100, 50_000, 3_000),
        at(20_125, 50_000, 3_000),
        at(20_150, 50_001, 0),
    ];
    delivers(
        &rt,
        variable(plain(&samples, Service::R6)),
        met(20_001, 20_126, 3_248),
    )
}

// The window of a slow service starts at 26,001. Level at 2,000 W in a window of 1 ms, times 2.
#[test]
fn around_the_start_of_a_slow_services_window(rt: HostRuntime) -> Result<(), Fail> {
    let fourth = at(25_000, 49_900, 2_000);
    let before = fallen_long(fourth, at(26_998, 50_100, 4_000));
    refuses(&rt, variable(plain(&before, Service::R60)), 14)?;
    let on = fallen_long(fourth, at(27_000, 50_100, 4_000));
    refuses(&rt, variable(plain(&on, Service::R60)), 14)?;
    let after = fallen_long(fourth, at(27_002, 50_100, 4_000));
    delivers(
        &rt,
        variable(plain(&after, Service::R60)),
        met(20_001, 26_002, 4_000),
    )
}

// The window of a delayed service starts at 80,001.
#[test]
fn around_the_start_of_a_delayed_services_window(rt: HostRuntime) -> Result<(), Fail> {
    let fourth = at(79_000, 49_900, 2_000);
    let before = fallen_long(fourth, at(80_998, 50_100, 4_000));
    refuses(&rt, variable(plain(&before, Service::R5)), 14)?;
    let on = fallen_long(fourth, at(81_000, 50_100, 4_000));
    refuses(&rt, variable(plain(&on, Service::R5)), 14)?;
    let after = fallen_long(fourth, at(81_002, 50_100, 4_000));
    delivers(
        &rt,
        variable(plain(&after, Service::R5)),
        met(20_001, 80_002, 4_000),
    )
}

// One sample on the start and the next, 1 ms later, on the recovery: the dip of 200 weighs 3, 6,000
// W, times 2. One ms later the gap before them, of 5,952 ms, reaches into the window.
#[test]
fn recovery_on_a_sample_just_after_the_start(rt: HostRuntime) -> Result<(), Fail> {
    let on = fallen_long(at(26_001, 49_800, 2_000), at(26_002, 50_200, 9_000));
    delivers(
        &rt,
        variable(plain(&on, Service::R60)),
        met(20_001, 26_002, 12_000),
    )?;
    let later = fallen_long(at(26_002, 49_800, 2_000), at(26_003, 50_200, 9_000));
    refuses(&rt, variable(plain(&later, Service::R60)), 16)
}

// (1,625,000,000 + 49 * 300,000)/5,999 = 273,328.9, times 2; with the 6,000 ms full 273,333.33,
// times 2; then a second window of 1 ms, level at 300,000 W, times 2.
#[test]
fn between_the_windows_of_a_fast_service(rt: HostRuntime) -> Result<(), Fail> {
    let mut samples = fast_record(Direction::Low);
    samples[123] = at(26_002, 50_200, 900_000);
    delivers(
        &rt,
        variable(plain(&samples[0..124], Service::R6)),
        both(Some(26_002), 546_667, 600_000, 546_667, Verdict::Met),
    )?;
    samples[122] = at(26_000, 49_800, 100_000);
    samples[123] = at(26_001, 50_200, 900_000);
    delivers(
        &rt,
        variable(plain(&samples[0..124], Service::R6)),
        met(20_001, 26_001, 546_667),
    )?;
    samples[122] = at(25_999, 49_800, 100_000);
    samples[123] = at(26_000, 50_200, 900_000);
    delivers(
        &rt,
        variable(plain(&samples[0..124], Service::R6)),
        met(20_001, 26_000, 546_658),
    )
}

#[test]
fn at_the_end_of_a_fast_service(rt: HostRuntime) -> Result<(), Fail> {
    let mut samples = fast_record(Direction::Low);
    delivers(
        &rt,
        variable(plain(&samples, Service::R6)),
        both(Some(80_002), 546_667, 405_600, 405_600, Verdict::Met),
    )?;
    samples[1_202] = at(80_000, 49_800, 35_260);
    samples[1_203] = at(80_001, 50_200, 900_000);
    delivers(
        &rt,
        variable(plain(&samples, Service::R6)),
        both(Some(80_001), 546_667, 405_600, 405_600, Verdict::Met),
    )?;
    samples[1_202] = at(79_999, 49_800, 35_260);
    samples[1_203] = at(80_000, 50_200, 900_000);
    delivers(
        &rt,
        variable(plain(&samples, Service::R6)),
        both(Some(80_000), 546_667, 405_604, 405_604, Verdict::Met),
    )
}

// The second window of 1 ms is level at 3 * 115,000 W, times 2.
#[test]
fn between_the_windows_of_a_slow_service(rt: HostRuntime) -> Result<(), Fail> {
    let mut samples = slow_record(Direction::Low);
    samples[18] = at(80_002, 50_200, 900_000);
    delivers(
        &rt,
        variable(plain(&samples[0..19], Service::R60)),
        both(Some(80_002), 649_500, 690_000, 649_500, Verdict::Met),
    )?;
    samples[17] = at(80_000, 49_800, 114_000);
    samples[18] = at(80_001, 50_200, 900_000);
    delivers(
        &rt,
        variable(plain(&samples[0..19], Service::R60)),
        met(20_001, 80_001, 649_278),
    )?;
    samples[17] = at(79_999, 49_800, 114_000);
    samples[18] = at(80_000, 50_200, 900_000);
    delivers(
        &rt,
        variable(plain(&samples[0..19], Service::R60)),
        met(20_001, 80_000, 649_277),
    )
}

#[test]
fn at_the_end_of_a_slow_service(rt: HostRuntime) -> Result<(), Fail> {
    let mut samples = slow_record(Direction::Low);
    delivers(
        &rt,
        variable(plain(&samples, Service::R60)),
        both(Some(320_002), 649_500, 330_000, 330_000, Verdict::Met),
    )?;
    samples[77] = at(320_000, 49_800, -3_000);
    samples[78] = at(320_001, 50_200, 900_000);
    delivers(
        &rt,
        variable(plain(&samples, Service::R60)),
        both(Some(320_001), 649_500, 330_100, 330_100, Verdict::Met),
    )?;
    samples[77] = at(319_999, 49_800, -3_000);
    samples[78] = at(320_000, 50_200, 900_000);
    delivers(
        &rt,
        variable(plain(&samples, Service::R60)),
        both(Some(320_000), 649_500, 330_101, 330_101, Verdict::Met),
    )
}

// The second window of 1 ms is level at 3 * 175,000 W, times 1.
#[test]
fn between_the_windows_of_a_delayed_service(rt: HostRuntime) -> Result<(), Fail> {
    let mut samples = delayed_record(Direction::Low);
    samples[78] = at(320_002, 50_200, 900_000);
    delivers(
        &rt,
        variable(plain(&samples[0..79], Service::R5)),
        both(Some(320_002), 870_000, 525_000, 525_000, Verdict::Met),
    )?;
    samples[77] = at(320_000, 49_800, 174_000);
    samples[78] = at(320_001, 50_200, 900_000);
    delivers(
        &rt,
        variable(plain(&samples[0..79], Service::R5)),
        met(20_001, 320_001, 869_950),
    )?;
    samples[77] = at(319_999, 49_800, 174_000);
    samples[78] = at(320_000, 50_200, 900_000);
    delivers(
        &rt,
        variable(plain(&samples[0..79], Service::R5)),
        met(20_001, 320_000, 869_949),
    )
}

#[test]
fn at_the_end_of_a_delayed_service(rt: HostRuntime) -> Result<(), Fail> {
    let mut samples = delayed_record(Direction::Low);
    delivers(
        &rt,
        variable(plain(&samples, Service::R5)),
        both(Some(920_002), 870_000, 300_000, 300_000, Verdict::Met),
    )?;
    samples[227] = at(920_000, 49_800, 26_000);
    samples[228] = at(920_001, 50_200, 900_000);
    delivers(
        &rt,
        variable(plain(&samples, Service::R5)),
        both(Some(920_001), 870_000, 300_010, 300_010, Verdict::Met),
    )?;
    samples[227] = at(919_999, 49_800, 26_000);
    samples[228] = at(920_000, 50_200, 900_000);
    delivers(
        &rt,
        variable(plain(&samples, Service::R5)),
        both(Some(920_000), 870_000, 300_010, 300_010, Verdict::Met),
    )
}

// The disturbance at 20,001 and the recovery at 20,002 are both on samples: 1 ms level at 1,000 W,
// times 2.
#[test]
fn recovery_at_the_millisecond_after_the_disturbance(rt: HostRuntime) -> Result<(), Fail> {
    let samples = [
        at(5_000, 50_000, 0),
        at(20_000, 49_850, 0),
        at(20_001, 49_849, 1_000),
        at(20_002, 50_001, 9_000),
    ];
    delivers(
        &rt,
        variable(plain(&samples, Service::R6)),
        met(20_001, 20_002, 2_000),
    )
}

// A battery that draws 20,000 W, answers with 1,000,000 W above that, and has another power at
// 20,200, where the network is at this frequency. The weighed responses from 20,000 on are 0,
// 400,004 * 6.25/5 = 500,005, and twice 1,000,000: over three times 50 ms they average 250,002.5,
// 750,002.5 and 1,000,000.
fn held_until(frequency: u32, power: i32) -> [Sample; 9] {
    [
        at(4_000, 50_000, -19_000),
        at(10_000, 50_000, -21_000),
        at(19_950, 49_900, -20_000),
        at(20_000, 49_849, -20_000),
        at(20_050, 49_845, 380_004),
        at(20_100, 49_895, 980_000),
        at(20_150, 49_951, 980_000),
        at(20_200, frequency, power),
        at(20_250, 50_050, -20_000),
    ]
}

// 50,000 at 20,199 and 50,001 at 20,200, the very sample at which the battery has stepped back, or
// further up. The last 50 ms are level: 3,000,005/4 = 750,001.25, times 2. With the step back
// counted in it would be 1,250,003.
#[test]
fn a_step_at_recovery_does_not_count(rt: HostRuntime) -> Result<(), Fail> {
    let back = held_until(50_001, -20_000);
    delivers(
        &rt,
        variable(plain(&back, Service::R6)),
        met(20_000, 20_200, 1_500_003),
    )?;
    let up = held_until(50_001, 1_980_000);
    delivers(
        &rt,
        variable(plain(&up, Service::R6)),
        met(20_000, 20_200, 1_500_003),
    )
}

// 50,000.98 at 20,199: 49 ms are level, 149,000,250/199 = 748,744.97, times 2.
#[test]
fn a_step_a_millisecond_after_recovery_does_not_count(rt: HostRuntime) -> Result<(), Fail> {
    let samples = held_until(50_002, -20_000);
    delivers(
        &rt,
        variable(plain(&samples, Service::R6)),
        met(20_000, 20_199, 1_497_490),
    )
}

// 50,000 at 20,200 and 50,001 at 20,201: down to 0 in the last 50 ms, and 1 ms level there.
// 125,000,250/201 = 621,891.79, times 2.
#[test]
fn a_step_a_millisecond_before_recovery_counts(rt: HostRuntime) -> Result<(), Fail> {
    let samples = held_until(50_000, -20_000);
    delivers(
        &rt,
        variable(plain(&samples, Service::R6)),
        met(20_000, 20_201, 1_243_784),
    )
}
