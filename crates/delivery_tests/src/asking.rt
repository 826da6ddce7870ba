//! How the tests ask for a delivery, and what they expect of the answer.
use delivery::deliver::deliver;
use disturbance::disturbance::find_disturbance;
use disturbance::trace::Trace;
use figure::report::{Report, Verdict};
use figure::request::{Enablement, Request};
use recording::refusal::Refusal;
use recording::sample::Sample;
use response::rule::ResponseRule;
use response::service::Service;
use response::settings::{Proposal, Settings};
use response::switching::Switching;
use response::variable::Variable;
use std::process::Abort;
use std::test::Fail;
use timeline::target::Target;

// Written out in each test crate that asks with it, since no crate is shared by tests.
pub(crate) const PLAIN: Proposal = Proposal {
    rate: 125,
    reference_dip: 500,
    dead_band: 150,
    switch_dip: 200,
    base_begin: 20_000,
    base_end: 8_000,
};

// The request for a delivery, apart from the rule.
#[derive(Clone, Copy)]
pub(crate) struct Case<'a> {
    pub samples: &'a [Sample],
    pub settings: Proposal,
    pub targets: &'a [Target],
    pub count: usize,
    pub enablement: Enablement,
}

// Plain settings, no target, and nothing enabled.
pub(crate) fn plain(samples: &[Sample], service: Service) -> Case<'_> {
    Case {
        samples,
        settings: PLAIN,
        targets: &[],
        count: 0,
        enablement: Enablement { service, watts: 0 },
    }
}

// Other settings.
pub(crate) fn with(settings: Proposal, case: Case<'_>) -> Case<'_> {
    Case { settings, ..case }
}

// Plain settings, and all of these targets.
pub(crate) fn aimed<'a>(
    samples: &'a [Sample],
    service: Service,
    targets: &'a [Target],
) -> Case<'a> {
    Case {
        targets,
        count: targets.len(),
        ..plain(samples, service)
    }
}

pub(crate) fn target(time: u32, power: i32) -> Target {
    Target { time, power }
}

// The answer under a rule.
pub(crate) fn ruled<R: ResponseRule>(
    case: Case,
    rule: &R,
) -> Result<Result<Report, Refusal>, Fail> {
    let settings = Settings::new(case.settings)?;
    let trace = Trace::new(case.samples).ok_or("sound samples were expected")?;
    let disturbance = find_disturbance(trace).ok_or("a disturbance was expected")?;
    let request = Request {
        settings: &settings,
        rule,
        targets: case.targets,
        count: case.count,
        enablement: case.enablement,
    };
    Ok(deliver(trace, disturbance, request))
}

// The answer under the variable rule, with the rate of the settings.
pub(crate) fn variable(case: Case) -> Result<Result<Report, Refusal>, Fail> {
    let response = Settings::new(case.settings)?.response;
    let rate = response.rate;
    ruled(case, &Variable { response, rate })
}

// The answer under the switching rule.
pub(crate) fn switching(case: Case) -> Result<Result<Report, Refusal>, Fail> {
    let response = Settings::new(case.settings)?.response;
    ruled(case, &Switching { response })
}

// A report with one value.
fn one(disturbance: u32, recovery: u32, first: i64, verdict: Verdict) -> Report {
    Report {
        disturbance,
        recovery: Some(recovery),
        first,
        second: None,
        delivery: first,
        verdict,
    }
}

// A delivery of the one value, above the enabled amount. This and the two like it are names in
// place of a parameter, so that an example says its verdict in a word.
pub(crate) fn met(disturbance: u32, recovery: u32, value: i64) -> Report {
    one(disturbance, recovery, value, Verdict::Met)
}

// Equal to it.
pub(crate) fn level(disturbance: u32, recovery: u32, value: i64) -> Report {
    one(disturbance, recovery, value, Verdict::Level)
}

// Below it.
pub(crate) fn short(disturbance: u32, recovery: u32, value: i64) -> Report {
    one(disturbance, recovery, value, Verdict::Short)
}

// A report of a disturbance at 20,001 with two values, of which the delivery is one.
pub(crate) fn both(
    recovery: Option<u32>,
    first: i64,
    second: i64,
    delivery: i64,
    verdict: Verdict,
) -> Report {
    Report {
        disturbance: 20_001,
        recovery,
        first,
        second: Some(second),
        delivery,
        verdict,
    }
}

// The answer is this report.
pub(crate) fn delivers(
    rt: &impl Abort,
    answer: Result<Result<Report, Refusal>, Fail>,
    expected: Report,
) -> Result<(), Fail> {
    assert_eq!(rt; answer?, Ok(expected));
    Ok(())
}

// The answer is the refusal with this number, which names no place, no byte and no field.
pub(crate) fn refuses(
    rt: &impl Abort,
    answer: Result<Result<Report, Refusal>, Fail>,
    number: u8,
) -> Result<(), Fail> {
    let refusal = answer?.err().ok_or("a refusal was expected")?;
    assert_eq!(rt; refusal.number(), number);
    assert_eq!(rt;
        (refusal.place, refusal.position, refusal.field()),
        (0, 0, 0)
    );
    Ok(())
}
