//! The shift of a rule with a trigger: the windows begin later or earlier, down to before the
//! disturbance.
use crate::asking::*;
use crate::long::*;
use crate::records::*;
use crate::rules::*;
use disturbance::direction::Direction;
use figure::report::Verdict;
use recording::sample::Sample;
use response::service::Service;
use response::settings::Proposal;
use response::setup::Trigger;
use std::test::Fail;

// Plain settings with another rate.
fn rated(rate: u32, samples: &[Sample]) -> Case<'_> {
    with(Proposal { rate, ..PLAIN }, plain(samples, Service::R6))
}

// A dip of 200 at 20,025, 24 ms after the disturbance, less 5 ms: from 20,020 on 30 ms from 400 W
// to 1,000 W and 26 ms level, 47,000/56 = 839.29, times 2. At rate 125 it is less 400 ms.
#[test]
fn the_windows_move_with_the_trigger_time(rt: HostRuntime) -> Result<(), Fail> {
    let a = record_a();
    delivers(
        &rt,
        switching(rated(10_000, &a)),
        met(20_001, 20_076, 1_679),
    )?;
    refuses(&rt, switching(rated(125, &a)), 16)
}

// The dip of 200 is reached only on the sample at 20,050: from 20,045 on (5 * 950 + 23 * 1,000)/28,
// times 2. One of 250 on the sample of the other record: from 20,040 on (10 * 900 + 26 * 1,000)/36,
// times 2.
#[test]
fn a_trigger_may_just_be_reached(rt: HostRuntime) -> Result<(), Fail> {
    let samples = [
        at(5_000, 50_000, 0),
        at(20_000, 49_850, 0),
        at(20_050, 49_800, 1_000),
        at(20_100, 50_250, 1_000),
    ];
    delivers(
        &rt,
        switching(rated(10_000, &samples)),
        met(20_001, 20_073, 1_982),
    )?;
    let highest = Proposal {
        rate: 10_000,
        switch_dip: 250,
        ..PLAIN
    };
    let a = record_a();
    delivers(
        &rt,
        switching(with(highest, plain(&a, Service::R6))),
        met(20_001, 20_076, 1_944),
    )
}

// The dip is 250 at the disturbance time, so the shift is -5: 320 W at 19,996, 200 W at 20,000,
// 1,000 W at 20,002 and level: (4 * 260 + 2 * 600 + 18 * 1,000)/24 = 843.33, times 2.
#[test]
fn a_negative_shift_begins_before_the_disturbance(rt: HostRuntime) -> Result<(), Fail> {
    delivers(
        &rt,
        switching(rated(10_000, &record_c())),
        met(20_001, 20_020, 1_687),
    )?;
    let high = [
        at(5_000, 50_000, 0),
        at(19_990, 50_100, -500),
        at(20_000, 50_150, -200),
        at(20_002, 50_350, -1_000),
        at(20_022, 49_950, 0),
    ];
    let steep = Proposal {
        rate: 10_000,
        ..PLAIN
    };
    delivers(
        &rt,
        switching(with(steep, plain(&high, Service::L6))),
        met(20_001, 20_020, 1_687),
    )
}

// 50,000/9,000 is 5.6, so 6: from 19,995 on (5 * 275 + 2 * 600 + 18 * 1,000)/25 = 823, times 2.
// 50,000/3,000 is 16.7, so 17: from 19,984 on, where the gap is wide.
#[test]
fn the_quotient_of_the_shift_is_rounded_up(rt: HostRuntime) -> Result<(), Fail> {
    let c = record_c();
    delivers(&rt, switching(rated(9_000, &c)), met(20_001, 20_020, 1_646))?;
    refuses(&rt, switching(rated(3_000, &c)), 16)
}

// The dip reaches 200 at 20,003: 2 - 50 ms. From 97.5 W over the base at 19,953 on
// (27 * 198.75 + 20 * 250 + 10 * 500 + 31 * 800)/88 = 456.43, times 2.
#[test]
fn a_negative_shift_may_pass_over_samples(rt: HostRuntime) -> Result<(), Fail> {
    let samples = [
        at(5_000, 50_000, 100),
        at(19_940, 49_990, 100),
        at(19_980, 49_900, 400),
        at(20_000, 49_850, 300),
        at(20_010, 49_650, 900),
        at(20_045, 50_050, 700),
    ];
    delivers(
        &rt,
        switching(rated(1_000, &samples)),
        met(20_001, 20_041, 913),
    )
}

// The shift of -376 starts a slow service's window at 25,625, before the recovery at 25,701.
#[test]
fn a_negative_shift_may_fill_an_empty_window(rt: HostRuntime) -> Result<(), Fail> {
    let samples = fallen_long(at(25_600, 49_900, 2_000), at(25_800, 50_100, 0));
    delivers(
        &rt,
        switching(plain(&samples, Service::R60)),
        met(20_001, 25_701, 4_000),
    )?;
    refuses(&rt, variable(plain(&samples, Service::R60)), 14)
}

// A dip of 210 at 20,030, less 60,000 ms: a delayed service's window starts at 20,030 already.
// (16,000 + 5,925,000 + 2,002,000)/4,971 = 1,597.87, times 2.
#[test]
fn at_the_least_rate_the_shift_is_longest(rt: HostRuntime) -> Result<(), Fail> {
    let samples = fallen_long(at(24_000, 49_900, 2_000), at(26_000, 50_100, 0));
    let flat = Proposal {
        rate: 1,
        switch_dip: 210,
        ..PLAIN
    };
    delivers(
        &rt,
        switching(with(flat, plain(&samples, Service::R5))),
        met(20_001, 25_001, 3_196),
    )
}

// The window starts at 19,996, on the first sample, or 1 ms before it. With base 320 W:
// (4 * -60 + 2 * 280 + 18 * 680)/24 = 523.33, times 2.
#[test]
fn a_window_may_begin_on_the_first_sample(rt: HostRuntime) -> Result<(), Fail> {
    let near = Proposal {
        rate: 10_000,
        base_begin: 5,
        base_end: 4,
        ..PLAIN
    };
    let on = [
        at(19_996, 49_900, 320),
        at(20_000, 49_850, 200),
        at(20_002, 49_650, 1_000),
        at(20_022, 50_050, 0),
    ];
    delivers(
        &rt,
        switching(with(near, plain(&on, Service::R6))),
        met(20_001, 20_020, 1_047),
    )?;
    let late = [
        at(19_997, 49_900, 320),
        at(20_000, 49_850, 200),
        at(20_002, 49_650, 1_000),
        at(20_022, 50_050, 0),
    ];
    refuses(&rt, switching(with(near, plain(&late, Service::R6))), 15)
}

// The disturbance is at 51, the dip of 200 at 75: the window starts at -325.
#[test]
fn a_window_that_begins_before_time_0_is_refused(rt: HostRuntime) -> Result<(), Fail> {
    let samples = [
        at(0, 50_000, 0),
        at(10, 50_000, 0),
        at(50, 49_850, 0),
        at(100, 49_750, 1_000),
        at(150, 50_250, 1_000),
    ];
    let near = Proposal {
        base_begin: 60,
        base_end: 0,
        ..PLAIN
    };
    refuses(&rt, switching(with(near, plain(&samples, Service::R6))), 15)
}

// From 19,977 to 19,980: base 300 W. (4 * -90 + 2 * 300 + 18 * 700)/24 = 535, times 2.
#[test]
fn the_base_window_does_not_move(rt: HostRuntime) -> Result<(), Fail> {
    let samples = [
        at(19_976, 50_000, 100),
        at(19_980, 50_000, 300),
        at(20_000, 49_850, 200),
        at(20_002, 49_650, 1_000),
        at(20_022, 50_050, 0),
    ];
    let near = Proposal {
        rate: 10_000,
        base_begin: 24,
        base_end: 21,
        ..PLAIN
    };
    delivers(
        &rt,
        switching(with(near, plain(&samples, Service::R6))),
        met(20_001, 20_020, 1_070),
    )
}

// 320 W and 200 W count once, 1,000 W double: (1,040 + 2,200 + 36,000)/24 = 1,635, times 2. With
// 600 W at the disturbance time, which counts double: (1,040 + 700 + 1,600 + 36,000)/24 = 1,639.17,
// times 2.
#[test]
fn samples_are_weighed_from_the_disturbance_time_on(rt: HostRuntime) -> Result<(), Fail> {
    delivers(
        &rt,
        ruled(rated(10_000, &record_c()), &double(SWITCH)),
        met(20_001, 20_020, 3_270),
    )?;
    let samples = [
        at(5_000, 50_000, 0),
        at(19_990, 49_900, 500),
        at(20_000, 49_850, 200),
        at(20_001, 49_750, 600),
        at(20_002, 49_650, 1_000),
        at(20_022, 50_050, 0),
    ];
    delivers(
        &rt,
        ruled(rated(10_000, &samples), &double(SWITCH)),
        met(20_001, 20_020, 3_278),
    )
}

// The rule's trigger is 250, the switch dip of the settings 200: from 20,040 on
// (10 * 900 + 26 * 1,000)/36 = 972.22, times 2, at weight 2.
#[test]
fn the_trigger_is_the_rules_own(rt: HostRuntime) -> Result<(), Fail> {
    let rule = double(Some(Trigger { dip: 250 }));
    delivers(
        &rt,
        ruled(rated(10_000, &record_a()), &rule),
        met(20_001, 20_076, 3_889),
    )
}

// At 20,050 the offset is 49, the weight 1.49: from 596 W at 20,020 (30 * 1,043 + 26 * 1,490)/56 =
// 1,250.54, times 2.
#[test]
fn the_offset_is_counted_from_the_disturbance_time(rt: HostRuntime) -> Result<(), Fail> {
    let rule = Growing { trigger: SWITCH };
    delivers(
        &rt,
        ruled(rated(10_000, &record_a()), &rule),
        met(20_001, 20_076, 2_501),
    )
}

// The dip is 200 at the disturbance time, so the shift is -1. The first window from 20,000 on:
// (50,000 + 5,999 * 100,000)/6,000 = 99,991.67, times 2. The second to 80,000, where the power is
// 35,201.2 W: (100,000 + 53,999 * 67,600.6)/54,000 = 67,601.2, times 2.
#[test]
fn both_windows_begin_earlier(rt: HostRuntime) -> Result<(), Fail> {
    let settings = Proposal {
        rate: 10_000,
        switch_dip: 160,
        ..PLAIN
    };
    delivers(
        &rt,
        switching(with(
            settings,
            plain(&fast_record(Direction::Low)[0..1_203], Service::R6),
        )),
        both(None, 199_983, 135_202, 135_202, Verdict::Met),
    )
}

// The dip is 300 on the sample at 24,001 alone: 4,000 - 15 ms. The first window from 29,986 on, at
// 102,496.25 W: (50,015 * 108,748.125 + 3,985 * 114,003.75)/54,000 = 109,135.97, times 2. The
// second from 83,986 on, at 113,007.5 W, to the recovery: (236,015 * 54,003.75 - 5,000)/236,016 =
// 54,003.5, times 2.
#[test]
fn both_windows_begin_later(rt: HostRuntime) -> Result<(), Fail> {
    let settings = Proposal {
        rate: 10_000,
        switch_dip: 300,
        ..PLAIN
    };
    let mut samples = slow_record(Direction::Low);
    samples[3] = at(24_001, 49_700, 101_000);
    delivers(
        &rt,
        switching(with(settings, plain(&samples, Service::R60))),
        both(Some(320_002), 218_272, 108_007, 108_007, Verdict::Met),
    )
}

// A dip of 2,000 at 20,050: 49 - 1,850,000 ms, so that every window lies long before time 0.
#[test]
fn at_the_greatest_trigger_no_window_is_in_the_record(rt: HostRuntime) -> Result<(), Fail> {
    let samples = [
        at(5_000, 50_000, 0),
        at(20_000, 49_850, 0),
        at(20_050, 48_000, 1_000),
        at(20_100, 50_250, 1_000),
    ];
    let farthest = Proposal {
        rate: 1,
        switch_dip: 2_000,
        ..PLAIN
    };
    refuses(
        &rt,
        switching(with(farthest, plain(&samples, Service::R6))),
        15,
    )?;
    refuses(
        &rt,
        switching(with(farthest, plain(&samples, Service::R5))),
        15,
    )
}
