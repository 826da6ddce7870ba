//! The verdict: a delivery compared with the enabled amount, from the least delivery to the
//! greatest.
use crate::asking::*;
use crate::long::*;
use crate::records::*;
use crate::rules::*;
use disturbance::direction::Direction;
use figure::report::Verdict;
use figure::request::Enablement;
use recording::sample::Sample;
use response::service::Service;
use response::weighing::Weight;
use std::test::Fail;

fn enabled(samples: &[Sample], service: Service, watts: i64) -> Case<'_> {
    Case {
        enablement: Enablement { service, watts },
        ..plain(samples, service)
    }
}

// From 20 W at 20,001 to 1,000 W at 20,050, then 26 ms level: (24,990 + 26,000)/75 = 679.87, times
// 2.
#[test]
fn a_delivery_is_met_level_or_short(rt: HostRuntime) -> Result<(), Fail> {
    let a = record_a();
    delivers(
        &rt,
        variable(enabled(&a, Service::R6, 1_359)),
        met(20_001, 20_076, 1_360),
    )?;
    delivers(
        &rt,
        variable(enabled(&a, Service::R6, 1_360)),
        level(20_001, 20_076, 1_360),
    )?;
    delivers(
        &rt,
        variable(enabled(&a, Service::R6, 1_361)),
        short(20_001, 20_076, 1_360),
    )?;
    delivers(
        &rt,
        variable(enabled(&a, Service::R6, 1_000_000_000)),
        short(20_001, 20_076, 1_360),
    )
}

// Record A with another power after the disturbance.
fn pushed(power: i32) -> [Sample; 4] {
    [
        at(5_000, 50_000, 0),
        at(20_000, 49_850, 0),
        at(20_050, 49_750, power),
        at(20_100, 50_250, power),
    ]
}

#[test]
fn a_delivery_of_0_or_below(rt: HostRuntime) -> Result<(), Fail> {
    delivers(
        &rt,
        variable(enabled(&pushed(-1_000), Service::R6, 0)),
        short(20_001, 20_076, -1_360),
    )?;
    delivers(
        &rt,
        variable(enabled(&pushed(0), Service::R6, 0)),
        level(20_001, 20_076, 0),
    )?;
    delivers(
        &rt,
        variable(enabled(&pushed(0), Service::R6, 1)),
        short(20_001, 20_076, 0),
    )
}

// One power up to the disturbance and another from then on.
fn turning(before: i32, after: i32) -> [Sample; 5] {
    [
        at(5_000, 50_000, before),
        at(20_000, 49_850, before),
        at(20_050, 49_750, after),
        at(25_000, 49_750, after),
        at(28_000, 50_250, after),
    ]
}

// 2,000,000,000 W over or under the base, weight 3, times 2.
#[test]
fn the_greatest_delivery_and_the_least(rt: HostRuntime) -> Result<(), Fail> {
    let up = turning(-1_000_000_000, 1_000_000_000);
    delivers(
        &rt,
        variable(enabled(&up, Service::R60, 0)),
        met(20_001, 26_501, 12_000_000_000),
    )?;
    delivers(
        &rt,
        variable(enabled(&up, Service::R60, 1_000_000_000)),
        met(20_001, 26_501, 12_000_000_000),
    )?;
    let down = turning(1_000_000_000, -1_000_000_000);
    delivers(
        &rt,
        variable(enabled(&down, Service::R60, 0)),
        short(20_001, 26_501, -12_000_000_000),
    )
}

// The second window of a delayed service counts once.
#[test]
fn the_greatest_delivery_and_the_least_over_both_windows(rt: HostRuntime) -> Result<(), Fail> {
    delivers(
        &rt,
        variable(plain(&greatest_record(Direction::Low), Service::R5)),
        both(
            None,
            12_000_000_000,
            6_000_000_000,
            6_000_000_000,
            Verdict::Met,
        ),
    )?;
    delivers(
        &rt,
        variable(plain(&greatest_record(Direction::High), Service::L5)),
        both(
            None,
            -12_000_000_000,
            -6_000_000_000,
            -12_000_000_000,
            Verdict::Short,
        ),
    )
}

// 679.8667 of 1,000, as in record A: of 4,000,000,000 at weight 1 and of 12,000,000,000 at weight
// 3.
#[test]
fn great_deliveries_between_samples(rt: HostRuntime) -> Result<(), Fail> {
    let samples = [
        at(5_000, 50_000, -1_000_000_000),
        at(20_000, 49_850, -1_000_000_000),
        at(20_050, 49_750, 1_000_000_000),
        at(20_100, 50_250, 1_000_000_000),
    ];
    let case = plain(&samples, Service::R6);
    delivers(&rt, variable(case), met(20_001, 20_076, 2_719_466_667))?;
    delivers(
        &rt,
        ruled(case, &always(Weight { n: 3, d: 1 })),
        met(20_001, 20_076, 8_158_400_000),
    )
}

// 273,333.33 and 202,800 W in the mean, times 2: it is the second value that is delivered.
#[test]
fn the_lesser_of_two_values_is_met_level_or_short(rt: HostRuntime) -> Result<(), Fail> {
    let samples = fast_record(Direction::Low);
    let whole = &samples[0..1_203];
    delivers(
        &rt,
        variable(enabled(whole, Service::R6, 405_599)),
        both(None, 546_667, 405_600, 405_600, Verdict::Met),
    )?;
    delivers(
        &rt,
        variable(enabled(whole, Service::R6, 405_600)),
        both(None, 546_667, 405_600, 405_600, Verdict::Level),
    )?;
    delivers(
        &rt,
        variable(enabled(whole, Service::R6, 405_601)),
        both(None, 546_667, 405_600, 405_600, Verdict::Short),
    )
}

// 2,000,000,000 W at just less than weight 3 are 5,999,999,333.33 W, times 2.
#[test]
fn the_greatest_delivery_at_the_finest_weight(rt: HostRuntime) -> Result<(), Fail> {
    let up = turning(-1_000_000_000, 1_000_000_000);
    let finest = always(Weight {
        n: 8_999_999,
        d: 3_000_000,
    });
    delivers(
        &rt,
        ruled(enabled(&up, Service::R60, 0), &finest),
        met(20_001, 26_501, 11_999_998_667),
    )
}
