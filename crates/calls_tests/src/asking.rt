//! What the examples share: readings, requests and expected answers.
use calls::answer::Answer;
use figure::report::{Report, Verdict};
use figure::request::{Enablement, Request};
use recording::reading::{Reading, WholeReading};
use recording::refusal::{Reason, Refusal};
use recording::sample::Sample;
use response::service::Service;
use response::settings::Settings;

// What the table holds before it is used.
pub(crate) const BLANK: Sample = Sample {
    time: 0,
    frequency: 0,
    power: 0,
};

// What the places for answers hold before a list of calls is run; no call has this answer.
pub(crate) const UNANSWERED: Answer = Answer::Counted(usize::MAX);

pub(crate) fn reading(time: u32, frequency: u32, power: i32) -> Reading {
    Reading::Whole(WholeReading {
        time,
        frequency,
        power,
    })
}

pub(crate) fn sample(time: u32, frequency: u32, power: i32) -> Sample {
    Sample {
        time,
        frequency,
        power,
    }
}

// A request with no targets.
pub(crate) fn request<'a, R>(
    settings: &'a Settings,
    rule: &'a R,
    service: Service,
    watts: i64,
) -> Request<'a, R> {
    Request {
        settings,
        rule,
        targets: &[],
        count: 0,
        enablement: Enablement { service, watts },
    }
}

// A report of one value, for a disturbance at 20,001.
pub(crate) fn report(recovery: u32, watts: i64, verdict: Verdict) -> Report {
    Report {
        disturbance: 20_001,
        recovery: Some(recovery),
        first: watts,
        second: None,
        delivery: watts,
        verdict,
    }
}

// A refusal at a place, with no byte position.
pub(crate) fn refusal(reason: Reason, place: usize) -> Refusal {
    Refusal {
        reason,
        place,
        position: 0,
    }
}

// The answer of a call with this refusal.
pub(crate) fn refused(reason: Reason, place: usize) -> Answer {
    Answer::Refused(refusal(reason, place))
}
