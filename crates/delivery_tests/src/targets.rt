//! Targets: they raise the base where they rise, have to reach over the base samples and the
//! disturbance, and have to be a timeline.
use crate::asking::*;
use crate::records::*;
use recording::sample::Sample;
use response::service::Service;
use response::settings::Proposal;
use std::process::Abort;
use std::test::Fail;
use timeline::target::Target;

// A delivery with targets is refused.
fn refused_with<'a>(
    rt: &impl Abort,
    samples: &'a [Sample],
    targets: &'a [Target],
    number: u8,
) -> Result<(), Fail> {
    refuses(rt, variable(aimed(samples, Service::R6, targets)), number)
}

// Targets, and the base window from so long before the disturbance up to it.
fn up_to_it<'a>(samples: &'a [Sample], base_begin: u32, targets: &'a [Target]) -> Case<'a> {
    let settings = Proposal {
        base_begin,
        base_end: 0,
        ..PLAIN
    };
    with(settings, aimed(samples, Service::R6, targets))
}

// Base 300 W: (49 * 210 + 26 * 700)/75 = 379.87, times 2.
#[test]
fn rising_targets_raise_the_base(rt: HostRuntime) -> Result<(), Fail> {
    let a = record_a();
    delivers(
        &rt,
        variable(aimed(&a, Service::R6, &[target(5_000, 0), target(20_001, 300)])),
        met(20_001, 20_076, 760),
    )
}

#[test]
fn falling_targets_leave_the_base(rt: HostRuntime) -> Result<(), Fail> {
    let a = record_a();
    delivers(
        &rt,
        variable(aimed(&a, Service::R6, &[target(5_000, 300), target(20_001, 0)])),
        met(20_001, 20_076, 1_360),
    )
}

// 60 - 0 at 5,000, and nothing at 6,000, where the trajectory is at 66.67: base 80 W, 1,359.73 -
// 160.
#[test]
fn each_base_sample_is_raised_for_itself(rt: HostRuntime) -> Result<(), Fail> {
    let samples = [
        at(5_000, 50_000, 0),
        at(6_000, 50_000, 100),
        at(20_000, 49_850, 0),
        at(20_050, 49_750, 1_000),
        at(20_100, 50_250, 1_000),
    ];
    let targets = [
        target(5_000, 0),
        target(5_500, 80),
        target(7_000, 40),
        target(20_001, 60),
        target(20_002, 0),
    ];
    delivers(
        &rt,
        variable(aimed(&samples, Service::R6, &targets)),
        met(20_001, 20_076, 1_200),
    )
}

// The base sample is at 5,000, the disturbance at 20,001.
#[test]
fn targets_that_do_not_reach_are_refused(rt: HostRuntime) -> Result<(), Fail> {
    let a = record_a();
    refused_with(&rt, &a, &[target(5_001, 0), target(20_001, 300)], 12)?;
    refused_with(&rt, &a, &[target(5_000, 0), target(20_000, 300)], 12)?;
    refused_with(&rt, &a, &[target(5_000, 0)], 12)?;
    refused_with(&rt, &a, &[target(20_001, 0)], 12)
}

// The disturbance and the one base sample are at 19,301: base 700 W, (39 * 150 + 26 * 300)/65 =
// 210, times 2.
#[test]
fn one_target_reaches_its_own_time(rt: HostRuntime) -> Result<(), Fail> {
    let b = record_b();
    delivers(
        &rt,
        variable(up_to_it(&b, 1, &[target(19_301, 5)])),
        met(19_301, 19_366, 420),
    )?;
    refuses(&rt, variable(up_to_it(&b, 1, &[target(19_300, 5)])), 12)?;
    refuses(&rt, variable(up_to_it(&b, 1, &[target(19_302, 5)])), 12)?;
    delivers(
        &rt,
        variable(up_to_it(&b, 1, &[target(19_301, 0), target(30_000, 100)])),
        met(19_301, 19_366, 420),
    )
}

// Base samples at 19,000 and 19,301: 7 + 50 and 700, 378.5 in the mean; (39 * 471.5 + 26 *
// 621.5)/65 = 531.5, times 2. If the trajectory is at 49.22 at 19,000, 7.78 and 700: 353.89 in the
// mean, 556.11, times 2.
#[test]
fn base_samples_on_targets(rt: HostRuntime) -> Result<(), Fail> {
    let b = record_b();
    delivers(
        &rt,
        variable(up_to_it(&b, 301, &[target(19_000, 0), target(19_301, 50)])),
        met(19_301, 19_366, 1_063),
    )?;
    refuses(
        &rt,
        variable(up_to_it(&b, 301, &[target(19_001, 0), target(19_301, 50)])),
        12,
    )?;
    refuses(
        &rt,
        variable(up_to_it(&b, 301, &[target(19_000, 0), target(19_300, 50)])),
        12,
    )?;
    delivers(
        &rt,
        variable(up_to_it(
            &b,
            301,
            &[target(0, 0), target(19_301, 50), target(30_000, 0)],
        )),
        met(19_301, 19_366, 1_112),
    )
}

#[test]
fn targets_that_are_no_timeline_are_refused(rt: HostRuntime) -> Result<(), Fail> {
    let a = record_a();
    refused_with(&rt, &a, &[target(100, 0), target(100, 0)], 10)?;
    refused_with(&rt, &a, &[target(20_001, 0), target(5_000, 0)], 10)?;
    refused_with(&rt, &a, &[target(0, 0), target(1_200_001, 0)], 10)?;
    refused_with(&rt, &a, &[target(0, 0), target(30_000, 1_000_000_001)], 10)?;
    refused_with(&rt, &a, &[target(0, 0), target(30_000, -1_000_000_001)], 10)
}

#[test]
fn more_targets_than_places_are_refused(rt: HostRuntime) -> Result<(), Fail> {
    let a = record_a();
    refuses(
        &rt,
        variable(Case {
            count: 2,
            ..aimed(&a, Service::R6, &[target(20_001, 0)])
        }),
        10,
    )
}

// From -1,000,000,000 W at 0 to 1,000,000,000 W at 1,200,000 the base is raised by 15,001/1,200,000
// of 2,000,000,000 W, 25,001,666.67 W; the figure is twice 679.8667 less that.
#[test]
fn the_widest_targets_and_a_place_beyond_the_count(rt: HostRuntime) -> Result<(), Fail> {
    let a = record_a();
    let targets = [
        target(0, -1_000_000_000),
        target(1_200_000, 1_000_000_000),
        target(5, 0),
    ];
    delivers(
        &rt,
        variable(Case {
            count: 2,
            ..aimed(&a, Service::R6, &targets)
        }),
        short(20_001, 20_076, -50_001_974),
    )
}

// The content of the table is not looked at.
#[test]
fn a_count_of_0_is_no_target(rt: HostRuntime) -> Result<(), Fail> {
    let a = record_a();
    delivers(
        &rt,
        variable(Case {
            count: 0,
            ..aimed(&a, Service::R6, &[target(100, 0), target(100, 300)])
        }),
        met(20_001, 20_076, 1_360),
    )
}

// More than put allows, but in order. Base 300 W, as with the first and the last alone.
#[test]
fn seventeen_targets_in_order_are_followed(rt: HostRuntime) -> Result<(), Fail> {
    let a = record_a();
    let targets = [
        target(5_000, 0),
        target(5_001, 0),
        target(5_002, 0),
        target(5_003, 0),
        target(5_004, 0),
        target(5_005, 0),
        target(5_006, 0),
        target(5_007, 0),
        target(5_008, 0),
        target(5_009, 0),
        target(5_010, 0),
        target(5_011, 0),
        target(5_012, 0),
        target(5_013, 0),
        target(5_014, 0),
        target(5_015, 0),
        target(20_001, 300),
    ];
    delivers(
        &rt,
        variable(aimed(&a, Service::R6, &targets)),
        met(20_001, 20_076, 760),
    )
}
