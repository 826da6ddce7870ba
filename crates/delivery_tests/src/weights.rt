//! How responses are weighed, by the variable rule and by rules of the tests' own.
use crate::asking::*;
use crate::records::*;
use crate::rules::*;
use recording::sample::Sample;
use response::service::Service;
use response::settings::Proposal;
use response::weighing::Weight;
use std::test::Fail;

// 1,359.73 at weight 1, so 2,719.47 at 2 and 2,039.6 at 3/2. With the window from 20,020 on
// 1,678.57 at weight 1, so 3,357.14 at 2.
#[test]
fn one_weight_at_every_sample(rt: HostRuntime) -> Result<(), Fail> {
    let a = record_a();
    let case = plain(&a, Service::R6);
    delivers(
        &rt,
        ruled(case, &always(Weight { n: 1, d: 1 })),
        met(20_001, 20_076, 1_360),
    )?;
    delivers(
        &rt,
        ruled(case, &always(Weight { n: 2, d: 1 })),
        met(20_001, 20_076, 2_719),
    )?;
    delivers(
        &rt,
        ruled(case, &always(Weight { n: 3, d: 2 })),
        met(20_001, 20_076, 2_040),
    )?;
    let steep = Proposal {
        rate: 10_000,
        ..PLAIN
    };
    delivers(
        &rt,
        ruled(with(steep, case), &double(SWITCH)),
        met(20_001, 20_076, 3_357),
    )
}

// Recovered at 20,069, by 22 a ms from 49,810.
fn uneven() -> [Sample; 7] {
    [
        at(5_000, 50_000, 0),
        at(20_000, 49_850, 0),
        at(20_005, 49_750, 1_000),
        at(20_020, 49_700, 1_300),
        at(20_040, 49_750, 500),
        at(20_060, 49_810, 700),
        at(20_080, 50_250, 0),
    ]
}

// 90/150, raised to 1; 240/200; 300/150, with the ramp dip held at 400; 300/90, cut to 3. 1,000,
// 1,560, 1,000 and 2,100 W: (4 * 600 + 15 * 1,280 + 20 * 1,280 + 20 * 1,550 + 9 * 2,100)/68 =
// 1,427.94, times 2.
#[test]
fn weights_of_the_variable_rule(rt: HostRuntime) -> Result<(), Fail> {
    let settings = Proposal {
        rate: 10_000,
        reference_dip: 400,
        dead_band: 100,
        ..PLAIN
    };
    delivers(
        &rt,
        variable(with(settings, plain(&uneven(), Service::R6))),
        met(20_001, 20_069, 2_856),
    )
}

// 279.987/250 and 346.647/190: 559.97 and 1,277.12 W.
// (2,400 + 17,250 + 18,599.7 + 18,370.9 + 11,494.08)/68 = 1,001.69, times 2.
#[test]
fn a_ramp_dip_between_whole_millihertz(rt: HostRuntime) -> Result<(), Fail> {
    let settings = Proposal {
        rate: 3_333,
        reference_dip: 2_000,
        dead_band: 0,
        ..PLAIN
    };
    delivers(
        &rt,
        variable(with(settings, plain(&uneven(), Service::R6))),
        met(20_001, 20_069, 2_003),
    )
}

// 240/150 at 20,020; a dip of 100 at 20,040 weighs 1; one of 101 at 20,060 weighs 400/1, cut to 3.
// (19 * 840 + 20 * 1,250 + 20 * 1,800 + 14 * 2,700)/73 = 1,572.05, times 2.
#[test]
fn a_dip_on_the_dead_band_weighs_1(rt: HostRuntime) -> Result<(), Fail> {
    let samples = [
        at(5_000, 50_000, 0),
        at(20_000, 49_850, 0),
        at(20_020, 49_750, 1_000),
        at(20_040, 49_900, 900),
        at(20_060, 49_899, 900),
        at(20_080, 50_050, 0),
    ];
    let settings = Proposal {
        rate: 10_000,
        dead_band: 100,
        ..PLAIN
    };
    delivers(
        &rt,
        variable(with(settings, plain(&samples, Service::R6))),
        met(20_001, 20_074, 3_144),
    )
}

// At the disturbance time 150/151, raised to 1; at 19,340 the ramp dip is held at 500: 500/250. 693
// and 1,986 W over the base of 7 W: (39 * 1,339.5 + 26 * 1,986)/65 = 1,598.1, times 2.
#[test]
fn a_sample_at_the_disturbance_time_has_offset_0(rt: HostRuntime) -> Result<(), Fail> {
    let settings = Proposal {
        rate: 10_000,
        dead_band: 0,
        base_begin: 301,
        base_end: 1,
        ..PLAIN
    };
    delivers(
        &rt,
        variable(with(settings, plain(&record_b(), Service::R6))),
        met(19_301, 19_366, 3_196),
    )
}
