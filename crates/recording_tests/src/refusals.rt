//! The list of refusals: number, layer and field of each reason.
use recording::refusal::{Field, Layer, Reason, Refusal};
use std::process::Abort;

fn is_listed(rt: &impl Abort, reason: Reason, number: u8, layer: Layer, field: u8) {
    let refusal = Refusal {
        reason,
        place: 3,
        position: 36,
    };
    assert_eq!(rt; refusal.number(), number);
    assert_eq!(rt; refusal.layer(), layer);
    assert_eq!(rt; refusal.field(), field);
}

#[test]
fn recording_and_reading(rt: HostRuntime) {
    is_listed(&rt, Reason::BeyondEnd, 2, Layer::Recording, 0);
    is_listed(&rt, Reason::CutRecord, 3, Layer::Recording, 0);
    is_listed(
        &rt,
        Reason::OutsideLimits(Field::Time),
        4,
        Layer::Reading,
        1,
    );
    is_listed(
        &rt,
        Reason::OutsideLimits(Field::Frequency),
        4,
        Layer::Reading,
        2,
    );
    is_listed(
        &rt,
        Reason::OutsideLimits(Field::Power),
        4,
        Layer::Reading,
        3,
    );
}

#[test]
fn docket_and_setup(rt: HostRuntime) {
    is_listed(&rt, Reason::OtherTable, 1, Layer::Docket, 0);
    is_listed(&rt, Reason::BeyondCount, 2, Layer::Docket, 0);
    is_listed(&rt, Reason::Full, 5, Layer::Docket, 0);
    is_listed(&rt, Reason::OutOfOrder, 6, Layer::Docket, 0);
    is_listed(&rt, Reason::NoDisturbance, 7, Layer::Docket, 0);
    is_listed(&rt, Reason::SettingOutside, 17, Layer::Setup, 0);
    is_listed(&rt, Reason::UnknownCode, 18, Layer::Setup, 0);
}

#[test]
fn delivery(rt: HostRuntime) {
    is_listed(&rt, Reason::AmountOutside, 8, Layer::Delivery, 0);
    is_listed(&rt, Reason::OtherDirection, 9, Layer::Delivery, 0);
    is_listed(&rt, Reason::OtherTargets, 10, Layer::Delivery, 0);
    is_listed(&rt, Reason::NoBaseSample, 11, Layer::Delivery, 0);
    is_listed(&rt, Reason::OutsideTargets, 12, Layer::Delivery, 0);
    is_listed(&rt, Reason::NoTriggerTime, 13, Layer::Delivery, 0);
    is_listed(&rt, Reason::EmptyFirstWindow, 14, Layer::Delivery, 0);
    is_listed(&rt, Reason::WindowOutside, 15, Layer::Delivery, 0);
    is_listed(&rt, Reason::WideGap, 16, Layer::Delivery, 0);
}
