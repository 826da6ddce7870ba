//! The disturbance for which a delivery is computed.
use crate::asking::*;
use crate::records::*;
use disturbance::disturbance::find_disturbance;
use disturbance::trace::Trace;
use recording::sample::Sample;
use response::service::Service;
use std::test::Fail;

fn undisturbed(samples: &[Sample]) -> bool {
    Trace::new(samples).is_some_and(|trace| find_disturbance(trace).is_none())
}

#[test]
fn without_a_sample_inside_then_one_outside_there_is_none(rt: HostRuntime) {
    assert!(rt; undisturbed(&[at(0, 49_000, 0), at(100, 51_000, 0)]));
    assert!(rt; undisturbed(&[at(0, 50_000, 0), at(100, 49_850, 0), at(200, 50_150, 0)]));
    assert!(rt; undisturbed(&[at(0, 49_000, 0), at(100, 50_000, 0)]));
    assert!(rt; undisturbed(&[at(0, 50_000, 0)]));
}

// Low at 0 and inside at 5,000, which is the only base sample.
#[test]
fn a_record_that_starts_outside(rt: HostRuntime) -> Result<(), Fail> {
    let samples = [
        at(0, 49_000, 0),
        at(5_000, 50_000, 0),
        at(20_000, 50_150, 0),
        at(20_050, 50_250, -1_000),
        at(20_100, 49_750, -1_000),
    ];
    delivers(
        &rt,
        variable(plain(&samples, Service::L6)),
        met(20_001, 20_076, 1_360),
    )
}

#[test]
fn a_later_disturbance_does_not_count(rt: HostRuntime) -> Result<(), Fail> {
    let samples = [
        at(5_000, 50_000, 0),
        at(20_000, 49_850, 0),
        at(20_050, 49_750, 1_000),
        at(20_100, 50_250, 1_000),
        at(20_150, 50_000, 0),
        at(20_200, 49_000, 0),
    ];
    delivers(
        &rt,
        variable(plain(&samples, Service::R6)),
        met(20_001, 20_076, 1_360),
    )
}

// 8 a ms from 50,150: 49,846 at 20,038. 760 W there: (10,560 + 26,000)/38 = 962.11, times 2.
#[test]
fn a_fall_through_the_whole_band(rt: HostRuntime) -> Result<(), Fail> {
    let samples = [
        at(5_000, 50_000, 0),
        at(20_000, 50_150, 0),
        at(20_050, 49_750, 1_000),
        at(20_100, 50_250, 1_000),
    ];
    delivers(
        &rt,
        variable(plain(&samples, Service::R6)),
        met(20_038, 20_076, 1_924),
    )
}
