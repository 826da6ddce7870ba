//! Which samples the base is taken from.
use crate::asking::*;
use crate::records::*;
use recording::sample::Sample;
use response::service::Service;
use response::settings::Proposal;
use std::test::Fail;

// Plain settings with another base window.
fn based(samples: &[Sample], base_begin: u32, base_end: u32) -> Case<'_> {
    with(
        Proposal {
            base_begin,
            base_end,
            ..PLAIN
        },
        plain(samples, Service::R6),
    )
}

// From 700 W at 19,301: (39 * 150 + 26 * 300)/65 = 210, times 2. With 7 W at 19,000 as well 353.5
// W: 556.5, times 2. From 7 W alone: (39 * 843 + 26 * 993)/65 = 903, times 2.
#[test]
fn a_sample_at_the_disturbance_time_counts_with_end_0(rt: HostRuntime) -> Result<(), Fail> {
    let b = record_b();
    delivers(&rt, variable(based(&b, 1, 0)), met(19_301, 19_366, 420))?;
    delivers(&rt, variable(based(&b, 300, 0)), met(19_301, 19_366, 420))?;
    delivers(&rt, variable(based(&b, 301, 0)), met(19_301, 19_366, 1_113))?;
    delivers(&rt, variable(based(&b, 301, 1)), met(19_301, 19_366, 1_806))
}

// The sample is at 5,000, 15,001 ms before the disturbance.
#[test]
fn both_ends_of_the_base_window_are_in_it(rt: HostRuntime) -> Result<(), Fail> {
    let a = record_a();
    delivers(
        &rt,
        variable(based(&a, 20_000, 15_001)),
        met(20_001, 20_076, 1_360),
    )?;
    refuses(&rt, variable(based(&a, 20_000, 15_002)), 11)?;
    delivers(
        &rt,
        variable(based(&a, 15_001, 8_000)),
        met(20_001, 20_076, 1_360),
    )?;
    refuses(&rt, variable(based(&a, 15_000, 8_000)), 11)
}

// The disturbance is at 101: the base window ends at -7,899.
#[test]
fn a_base_window_before_time_0_holds_no_sample(rt: HostRuntime) -> Result<(), Fail> {
    let early = [
        at(0, 50_000, 0),
        at(100, 49_850, 0),
        at(150, 49_750, 1_000),
        at(200, 50_250, 1_000),
    ];
    refuses(&rt, variable(plain(&early, Service::R6)), 11)?;
    let flat = [at(0, 50_000, 0), at(100, 49_850, 0), at(150, 49_849, 0)];
    refuses(&rt, variable(plain(&flat, Service::R6)), 11)
}

// The disturbance is at 51: the window begins at -9, or long before. Base (0 + 300 + 0)/3 = 100 W:
// (49 * 410 + 26 * 900)/75 = 579.87, times 2.
#[test]
fn a_base_window_may_begin_before_time_0(rt: HostRuntime) -> Result<(), Fail> {
    let samples = [
        at(0, 50_000, 0),
        at(10, 50_000, 300),
        at(50, 49_850, 0),
        at(100, 49_750, 1_000),
        at(150, 50_250, 1_000),
    ];
    delivers(&rt, variable(based(&samples, 60, 0)), met(51, 126, 1_160))?;
    delivers(
        &rt,
        variable(based(&samples, 60_000, 0)),
        met(51, 126, 1_160),
    )
}
