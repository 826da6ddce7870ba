//! Every refusal of a delivery, and which comes first where several apply.
use crate::asking::*;
use crate::records::*;
use figure::request::Enablement;
use recording::sample::Sample;
use response::service::Service;
use response::settings::Proposal;
use std::test::Fail;
use timeline::target::Target;

const FAR_TRIGGER: Proposal = Proposal {
    switch_dip: 300,
    ..PLAIN
};

const NO_BASE: Proposal = Proposal {
    base_begin: 10_000,
    ..PLAIN
};

const NEITHER: Proposal = Proposal {
    switch_dip: 300,
    base_begin: 10_000,
    ..PLAIN
};

// Two targets at one time.
fn unordered() -> [Target; 2] {
    [target(100, 0), target(100, 0)]
}

// Targets that end 1 ms before the disturbance.
fn ending() -> [Target; 2] {
    [target(0, 0), target(20_000, 0)]
}

// Targets that end with the disturbance.
fn reaching() -> [Target; 2] {
    [target(0, 0), target(20_001, 0)]
}

fn enabling(watts: i64, case: Case<'_>) -> Case<'_> {
    Case {
        enablement: Enablement {
            service: case.enablement.service,
            watts,
        },
        ..case
    }
}

// It stays low, and ends at 20,100.
fn unrecovered() -> [Sample; 4] {
    fallen(at(20_100, 49_750, 1_000))
}

#[test]
fn each_by_itself(rt: HostRuntime) -> Result<(), Fail> {
    let a = record_a();
    refuses(&rt, variable(enabling(-1, plain(&a, Service::R6))), 8)?;
    refuses(
        &rt,
        variable(enabling(1_000_000_001, plain(&a, Service::R6))),
        8,
    )?;
    refuses(&rt, variable(plain(&a, Service::L6)), 9)?;
    refuses(&rt, variable(aimed(&a, Service::R6, &unordered())), 10)?;
    refuses(&rt, variable(with(NO_BASE, plain(&a, Service::R6))), 11)?;
    refuses(&rt, variable(aimed(&a, Service::R6, &ending())), 12)?;
    refuses(
        &rt,
        switching(with(FAR_TRIGGER, plain(&a, Service::R6))),
        13,
    )?;
    refuses(&rt, variable(plain(&a, Service::R60)), 14)?;
    refuses(&rt, variable(plain(&a, Service::R5)), 14)?;
    refuses(&rt, variable(plain(&unrecovered(), Service::R6)), 15)?;
    refuses(&rt, switching(plain(&a, Service::R6)), 16)
}

// The greatest dip is 250; a dip of 300 comes only after the recovery.
#[test]
fn a_trigger_that_is_not_reached_in_time(rt: HostRuntime) -> Result<(), Fail> {
    let a = record_a();
    let steep = Proposal {
        rate: 10_000,
        switch_dip: 251,
        ..PLAIN
    };
    refuses(&rt, switching(with(steep, plain(&a, Service::R6))), 13)?;
    let twice = fallen_long(at(20_100, 50_250, 1_000), at(20_150, 49_000, 0));
    let far = Proposal {
        rate: 10_000,
        ..FAR_TRIGGER
    };
    refuses(&rt, switching(with(far, plain(&a, Service::R6))), 13)?;
    refuses(&rt, switching(with(far, plain(&twice, Service::R6))), 13)
}

// Each step mends the defect that the one before was refused for.
#[test]
fn all_of_them_mended_one_by_one(rt: HostRuntime) -> Result<(), Fail> {
    let a = record_a();
    let unordered = unordered();
    let ending = ending();
    let reaching = reaching();
    let lower = with(NEITHER, aimed(&a, Service::L60, &unordered));
    refuses(&rt, switching(enabling(-1, lower)), 8)?;
    refuses(&rt, switching(lower), 9)?;
    let raise = aimed(&a, Service::R60, &unordered);
    refuses(&rt, switching(with(NEITHER, raise)), 10)?;
    let ordered = aimed(&a, Service::R60, &ending);
    refuses(&rt, switching(with(NEITHER, ordered)), 11)?;
    refuses(&rt, switching(with(FAR_TRIGGER, ordered)), 12)?;
    let covered = aimed(&a, Service::R60, &reaching);
    refuses(&rt, switching(with(FAR_TRIGGER, covered)), 13)?;
    refuses(&rt, switching(covered), 14)?;
    refuses(&rt, switching(aimed(&a, Service::R6, &reaching)), 16)?;
    let steep = Proposal {
        rate: 10_000,
        ..PLAIN
    };
    delivers(
        &rt,
        switching(with(steep, aimed(&a, Service::R6, &reaching))),
        met(20_001, 20_076, 1_679),
    )
}

#[test]
fn the_first_of_two(rt: HostRuntime) -> Result<(), Fail> {
    let a = record_a();
    refuses(&rt, variable(enabling(-1, plain(&a, Service::L6))), 8)?;
    refuses(&rt, variable(aimed(&a, Service::L6, &unordered())), 9)?;
    refuses(
        &rt,
        variable(with(NO_BASE, aimed(&a, Service::R6, &unordered()))),
        10,
    )?;
    refuses(
        &rt,
        variable(with(NO_BASE, aimed(&a, Service::R6, &ending()))),
        11,
    )?;
    refuses(&rt, variable(with(NO_BASE, plain(&a, Service::R60))), 11)?;
    refuses(
        &rt,
        switching(with(FAR_TRIGGER, aimed(&a, Service::R6, &ending()))),
        12,
    )?;
    refuses(&rt, variable(aimed(&a, Service::R60, &ending())), 12)?;
    refuses(
        &rt,
        variable(aimed(&unrecovered(), Service::R6, &ending())),
        12,
    )?;
    let wide = fallen(at(20_200, 50_250, 1_000));
    refuses(&rt, variable(aimed(&wide, Service::R6, &ending())), 12)
}

// With no shift the window would be empty, or outside the record, or have a wide gap.
#[test]
fn without_a_trigger_time_no_window_is_looked_at(rt: HostRuntime) -> Result<(), Fail> {
    refuses(
        &rt,
        switching(with(FAR_TRIGGER, plain(&record_a(), Service::R60))),
        13,
    )?;
    refuses(
        &rt,
        switching(with(FAR_TRIGGER, plain(&unrecovered(), Service::R6))),
        13,
    )?;
    let wide = fallen(at(20_200, 50_250, 1_000));
    refuses(
        &rt,
        switching(with(FAR_TRIGGER, plain(&wide, Service::R6))),
        13,
    )
}

// The gap after the recovery is wide, but the first window is empty. A window outside the record is
// refused before a wide gap, be it the second window's and the gap in the first.
#[test]
fn the_windows_one_after_another(rt: HostRuntime) -> Result<(), Fail> {
    let late = fallen_long(at(20_100, 50_250, 1_000), at(400_000, 50_250, 0));
    refuses(&rt, variable(plain(&late, Service::R60)), 14)?;
    refuses(
        &rt,
        variable(plain(&fallen(at(20_101, 49_750, 1_000)), Service::R6)),
        15,
    )?;
    refuses(
        &rt,
        variable(plain(&fallen(at(80_100, 49_800, 0)), Service::R60)),
        15,
    )
}

#[test]
fn every_service_of_the_other_direction(rt: HostRuntime) -> Result<(), Fail> {
    let low = record_a();
    refuses(&rt, variable(plain(&low, Service::L6)), 9)?;
    refuses(&rt, variable(plain(&low, Service::L60)), 9)?;
    refuses(&rt, variable(plain(&low, Service::L5)), 9)?;
    let high = risen(at(20_100, 49_750, -1_000));
    refuses(&rt, variable(plain(&high, Service::R6)), 9)?;
    refuses(&rt, variable(plain(&high, Service::R60)), 9)?;
    refuses(&rt, variable(plain(&high, Service::R5)), 9)
}
