//! The widest gap between neighbours in a window: 50 ms for a fast service, 4,000 ms for the
//! others.
use crate::asking::*;
use crate::long::*;
use crate::records::*;
use disturbance::direction::Direction;
use figure::report::Verdict;
use response::service::Service;
use response::settings::Proposal;
use std::test::Fail;

#[test]
fn fast_services(rt: HostRuntime) -> Result<(), Fail> {
    delivers(
        &rt,
        variable(plain(&record_a(), Service::R6)),
        met(20_001, 20_076, 1_360),
    )?;
    refuses(
        &rt,
        variable(plain(&fallen(at(20_101, 50_250, 1_000)), Service::R6)),
        16,
    )?;
    // across the start
    let across = [
        at(5_000, 50_000, 0),
        at(19_999, 49_850, 0),
        at(20_050, 49_750, 1_000),
        at(20_100, 50_250, 1_000),
    ];
    refuses(&rt, variable(plain(&across, Service::R6)), 16)
}

// Level at 2,000 W with weight 1, times 2.
#[test]
fn slow_and_delayed_services(rt: HostRuntime) -> Result<(), Fail> {
    let slow = fallen_long(at(25_000, 49_900, 2_000), at(29_000, 50_100, 0));
    delivers(
        &rt,
        variable(plain(&slow, Service::R60)),
        met(20_001, 27_001, 4_000),
    )?;
    let slow_wide = fallen_long(at(25_000, 49_900, 2_000), at(29_001, 50_100, 0));
    refuses(&rt, variable(plain(&slow_wide, Service::R60)), 16)?;
    let delayed = fallen_long(at(79_000, 49_900, 2_000), at(83_000, 50_100, 0));
    delivers(
        &rt,
        variable(plain(&delayed, Service::R5)),
        met(20_001, 81_001, 4_000),
    )?;
    let delayed_wide = fallen_long(at(79_000, 49_900, 2_000), at(83_001, 50_100, 0));
    refuses(&rt, variable(plain(&delayed_wide, Service::R5)), 16)
}

// The neighbours at 20,050 and 20,200, and those at 20,060 and 20,111, of which 2 ms lie in the
// window.
#[test]
fn a_gap_over_the_recovery_counts_whole(rt: HostRuntime) -> Result<(), Fail> {
    refuses(
        &rt,
        variable(plain(&fallen(at(20_200, 50_250, 1_000)), Service::R6)),
        16,
    )?;
    let little = fallen_long(at(20_060, 49_999, 1_000), at(20_111, 50_050, 0));
    refuses(&rt, variable(plain(&little, Service::R6)), 16)
}

// From the recovery on, and up to the disturbance time.
#[test]
fn a_wide_gap_may_touch_a_window(rt: HostRuntime) -> Result<(), Fail> {
    let after = fallen_long(at(20_100, 50_001, 3_000), at(21_000, 50_000, 0));
    delivers(
        &rt,
        variable(plain(&after, Service::R6)),
        met(20_001, 20_100, 1_515),
    )?;
    let near = Proposal {
        base_begin: 1,
        base_end: 0,
        ..PLAIN
    };
    let b = record_b();
    delivers(
        &rt,
        variable(with(near, plain(&b, Service::R6))),
        met(19_301, 19_366, 420),
    )
}

#[test]
fn the_second_window_has_it_too(rt: HostRuntime) -> Result<(), Fail> {
    let mut samples = slow_record(Direction::Low);
    samples[18] = at(84_001, 49_800, 115_000);
    samples[19] = at(84_002, 50_200, 0);
    delivers(
        &rt,
        variable(plain(&samples[0..20], Service::R60)),
        both(Some(84_002), 649_500, 690_000, 649_500, Verdict::Met),
    )?;
    samples[18] = at(84_002, 49_800, 115_000);
    samples[19] = at(84_003, 50_200, 0);
    refuses(&rt, variable(plain(&samples[0..20], Service::R60)), 16)
}
