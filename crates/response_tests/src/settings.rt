//! Settings at both sides of each limit.
use recording::refusal::{Layer, Reason, Refusal};
use response::base::BaseWindow;
use response::settings::{Proposal, Settings};
use response::setup::{Rate, Response, Trigger};
use std::process::Abort;
use std::test::Fail;

// Written out in each test crate that uses it, since test crates share no crate.
const PLAIN: Proposal = Proposal {
    rate: 125,
    reference_dip: 500,
    dead_band: 150,
    switch_dip: 200,
    base_begin: 20_000,
    base_end: 8_000,
};

// The refusal of a setting outside its limits. Written out, since a constant cannot call a
// function.
const OUTSIDE: Refusal = Refusal {
    reason: Reason::SettingOutside,
    place: 0,
    position: 0,
};

// The proposal is refused.
fn refused(rt: &impl Abort, proposal: Proposal) {
    assert_eq!(rt; Settings::new(proposal), Err(OUTSIDE));
}

// The proposal is granted.
fn granted(rt: &impl Abort, proposal: Proposal) {
    assert!(rt; Settings::new(proposal).is_ok());
}

#[test]
fn the_refusal_is_number_17_of_layer_setup(rt: HostRuntime) {
    assert_eq!(rt; OUTSIDE.number(), 17);
    assert_eq!(rt; OUTSIDE.layer(), Layer::Setup);
    assert_eq!(rt; OUTSIDE.field(), 0);
}

#[test]
fn rate_limits(rt: HostRuntime) {
    let asked = |rate| Proposal { rate, ..PLAIN };
    refused(&rt, asked(0));
    granted(&rt, asked(1));
    granted(&rt, asked(10_000));
    refused(&rt, asked(10_001));
    assert_eq!(rt; Rate::new(0), Err(OUTSIDE));
    assert_eq!(rt; Rate::new(1), Ok(Rate { mhz_per_s: 1 }));
    assert_eq!(rt; Rate::new(10_000), Ok(Rate { mhz_per_s: 10_000 }));
    assert_eq!(rt; Rate::new(10_001), Err(OUTSIDE));
}

#[test]
fn reference_limits(rt: HostRuntime) {
    let asked = |reference_dip| Proposal {
        reference_dip,
        ..PLAIN
    };
    refused(&rt, asked(159));
    granted(&rt, asked(160));
    granted(&rt, asked(2_000));
    refused(&rt, asked(2_001));
}

#[test]
fn dead_band_limits(rt: HostRuntime) {
    let asked = |dead_band| Proposal { dead_band, ..PLAIN };
    granted(&rt, asked(0));
    granted(&rt, asked(150));
    refused(&rt, asked(151));
}

#[test]
fn switch_limits(rt: HostRuntime) {
    let asked = |switch_dip| Proposal {
        switch_dip,
        ..PLAIN
    };
    refused(&rt, asked(150));
    granted(&rt, asked(151));
    granted(&rt, asked(2_000));
    refused(&rt, asked(2_001));
    assert_eq!(rt; Trigger::new(150), Err(OUTSIDE));
    assert_eq!(rt; Trigger::new(151), Ok(Trigger { dip: 151 }));
}

#[test]
fn base_limits(rt: HostRuntime) {
    let asked = |base_begin, base_end| Proposal {
        base_begin,
        base_end,
        ..PLAIN
    };
    refused(&rt, asked(0, 0));
    granted(&rt, asked(1, 0));
    refused(&rt, asked(1, 1));
    granted(&rt, asked(60_000, 59_999));
    refused(&rt, asked(60_000, 60_000));
    refused(&rt, asked(60_001, 0));
}

#[test]
fn what_the_rules_read(rt: HostRuntime) -> Result<(), Fail> {
    let rate = Rate::new(125)?;
    let switch_dip = Trigger::new(200)?;
    assert_eq!(rt;
        Response::new(rate, 500, 150, switch_dip),
        Ok(Settings::plain().response)
    );
    assert_eq!(rt; Response::new(rate, 500, 151, switch_dip), Err(OUTSIDE));
    Ok(())
}

#[test]
fn a_refused_change_changes_nothing(rt: HostRuntime) {
    let mut settings = Settings::plain();
    let asked = |base_end| Proposal {
        rate: 250,
        base_end,
        ..PLAIN
    };
    assert_eq!(rt; settings.change(asked(20_000)), Err(OUTSIDE));
    assert_eq!(rt; settings, Settings::plain());
    assert_eq!(rt; settings.response.rate, Rate { mhz_per_s: 125 });
    assert_eq!(rt;
        settings.base(),
        BaseWindow {
            begin: 20_000,
            end: 8_000
        }
    );
    assert_eq!(rt; settings.change(asked(19_999)), Ok(()));
    assert_eq!(rt; settings.response.rate, Rate { mhz_per_s: 250 });
    assert_eq!(rt;
        settings.base(),
        BaseWindow {
            begin: 20_000,
            end: 19_999
        }
    );
}
