//! High disturbances: powers and targets count the other way round.
use crate::asking::*;
use crate::records::*;
use response::service::Service;
use response::settings::Proposal;
use std::test::Fail;

// As the low record: (24,990 + 26,000)/75 = 679.87, times 2.
#[test]
fn a_high_disturbance_is_the_low_one_turned(rt: HostRuntime) -> Result<(), Fail> {
    let samples = risen(at(20_100, 49_750, -1_000));
    delivers(
        &rt,
        variable(plain(&samples, Service::L6)),
        met(20_001, 20_076, 1_360),
    )?;
    let steep = Proposal {
        rate: 10_000,
        ..PLAIN
    };
    delivers(
        &rt,
        switching(with(steep, plain(&samples, Service::L6))),
        met(20_001, 20_076, 1_679),
    )?;
    refuses(&rt, variable(plain(&samples, Service::R6)), 9)?;
    refuses(&rt, variable(plain(&samples, Service::L60)), 14)?;
    refuses(&rt, variable(plain(&samples, Service::L5)), 14)
}

// Level at 2,000 W, with weight 3 at a dip of 250 and weight 1 at one of 100, times 2.
#[test]
fn slow_and_delayed_services(rt: HostRuntime) -> Result<(), Fail> {
    let slow = risen_long(at(25_000, 50_100, -2_000), at(27_002, 49_900, -4_000));
    delivers(
        &rt,
        variable(plain(&slow, Service::L60)),
        met(20_001, 26_002, 4_000),
    )?;
    let weighed = risen_long(at(25_000, 50_250, -2_000), at(28_000, 49_750, -4_000));
    delivers(
        &rt,
        variable(plain(&weighed, Service::L60)),
        met(20_001, 26_501, 12_000),
    )?;
    let delayed = risen_long(at(79_000, 50_100, -2_000), at(81_002, 49_900, -4_000));
    delivers(
        &rt,
        variable(plain(&delayed, Service::L5)),
        met(20_001, 80_002, 4_000),
    )
}

#[test]
fn power_into_the_network_counts_against(rt: HostRuntime) -> Result<(), Fail> {
    let samples = [
        at(5_000, 50_000, 0),
        at(20_000, 50_150, 0),
        at(20_050, 50_250, 1_000),
        at(20_100, 49_750, 1_000),
    ];
    delivers(
        &rt,
        variable(plain(&samples, Service::L6)),
        short(20_001, 20_076, -1_360),
    )
}

// Base 300 W: (49 * 210 + 26 * 700)/75 = 379.87, times 2.
#[test]
fn falling_targets_raise_the_base(rt: HostRuntime) -> Result<(), Fail> {
    let samples = risen(at(20_100, 49_750, -1_000));
    delivers(
        &rt,
        variable(aimed(
            &samples,
            Service::L6,
            &[target(5_000, 0), target(20_001, -300)],
        )),
        met(20_001, 20_076, 760),
    )?;
    delivers(
        &rt,
        variable(aimed(
            &samples,
            Service::L6,
            &[target(5_000, 0), target(20_001, 300)],
        )),
        met(20_001, 20_076, 1_360),
    )
}

// Record B turned: 7 + 50 and 700 W, 378.5 in the mean; (39 * 471.5 + 26 * 621.5)/65 = 531.5, times
// 2. From 700 W alone (39 * 150 + 26 * 300)/65 = 210, times 2.
#[test]
fn targets_at_the_disturbance_time_and_at_base_samples(rt: HostRuntime) -> Result<(), Fail> {
    let samples = [
        at(19_000, 49_850, -7),
        at(19_301, 50_151, -700),
        at(19_340, 50_250, -1_000),
        at(19_390, 49_750, -1_000),
    ];
    let pair = [target(19_000, 0), target(19_301, -50)];
    let long = Proposal {
        base_begin: 301,
        base_end: 0,
        ..PLAIN
    };
    let brief = Proposal {
        base_begin: 1,
        base_end: 0,
        ..PLAIN
    };
    delivers(
        &rt,
        variable(with(long, aimed(&samples, Service::L6, &pair))),
        met(19_301, 19_366, 1_063),
    )?;
    let one = aimed(&samples, Service::L6, &pair[1..2]);
    delivers(&rt, variable(with(brief, one)), met(19_301, 19_366, 420))?;
    refuses(&rt, variable(with(long, one)), 12)
}

// 50 ms level at 1,000 W: (24,990 + 50,000)/99 = 757.47, times 2.
#[test]
fn a_sample_on_the_recovery_does_not_count(rt: HostRuntime) -> Result<(), Fail> {
    let samples = risen(at(20_100, 49_999, -3_000));
    delivers(
        &rt,
        variable(plain(&samples, Service::L6)),
        met(20_001, 20_100, 1_515),
    )
}

// The greatest dip is 250; it ends at 20,100 without recovery; a gap of 150 ms.
#[test]
fn what_is_refused(rt: HostRuntime) -> Result<(), Fail> {
    let samples = risen(at(20_100, 49_750, -1_000));
    let far = Proposal {
        switch_dip: 251,
        ..PLAIN
    };
    refuses(&rt, switching(with(far, plain(&samples, Service::L6))), 13)?;
    let unrecovered = risen(at(20_100, 50_250, -1_000));
    refuses(&rt, variable(plain(&unrecovered, Service::L6)), 15)?;
    let wide = risen(at(20_200, 49_750, -1_000));
    refuses(&rt, variable(plain(&wide, Service::L6)), 16)
}
