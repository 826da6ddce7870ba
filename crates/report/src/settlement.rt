//! The settlement of a recording: every service delivered on a docket of its own.
ghost use Rattle.std.specs.Prelude.{◌≡◌, ◌<◌, List, length, map, slice_index_or, Result as Either};
ghost use Rattle.std.specs.List.{All};
ghost use Rattle.recording.specs.declared.refusal.Refusal.{Refusal as SentBack};
ghost use Rattle.timeline.specs.Timelines.{over};
ghost use Rattle.docket.specs.Calls.{of_closed, deliver, reported};
ghost use Rattle.calls.specs.Answers.{told};
ghost use Rattle.calls.specs.Calls.{meaning_of};
ghost use Rattle.report.specs.declared.settlement.Delivery.{Delivery as Settled};
ghost use Rattle.report.specs.Settlements.{services, bare, in_turn, taken, OfDelivery, Settles};

use calls::answer::Answer;
use calls::call::Call;
use calls::run::run;
use figure::report::Report;
use figure::request::{Enablement, Request};
use recording::interface::Recording;
use recording::refusal::Refusal;
use recording::sample::Sample;
use response::rule::ResponseRule;
use response::service::Service;
use response::settings::Settings;

/// The answer for a service.
#[derive(Clone, Copy)]
pub struct Delivery {
    /// The service that is delivered.
    pub service: Service,
    /// The report of the delivery, or its refusal.
    pub answer: Result<Report, Refusal>,
}

/// The deliveries of the six services, in the order R6, L6, R60, L60, R5, L5.
pub type Settlement = [Delivery; 6];

// The call that delivers a service, with no targets and 0 W enabled.
fn delivering<'a, R: Recording, P: ResponseRule>(
    settings: &'a Settings,
    rule: &'a P,
    service: Service,
) -> Call<'a, R, P>
    ensures { meaning_of R.meaning P.ResponseRule.triggers P.ResponseRule.weighs result
        ≡ of_closed (deliver
        (bare settings.now (P.ResponseRule.triggers rule.now) (P.ResponseRule.weighs rule.now) service)) }
{
    let enablement = Enablement { service, watts: 0 };
    Call::Deliver(Request {
        settings,
        rule,
        targets: &[],
        count: 0,
        enablement,
    })
}

// The calls that settle a recording: load, close and six deliveries.
fn settling<'a, R: Recording, P: ResponseRule>(
    recording: &'a R,
    settings: &'a Settings,
    rule: &'a P,
) -> [Call<'a, R, P>; 8]
    ensures { map (meaning_of R.meaning P.ResponseRule.triggers P.ResponseRule.weighs) result
        ≡ in_turn (R.meaning recording.now)
        (bare settings.now (P.ResponseRule.triggers rule.now) (P.ResponseRule.weighs rule.now)) }
{
    [
        Call::Load(recording),
        Call::Close,
        delivering(settings, rule, Service::R6),
        delivering(settings, rule, Service::L6),
        delivering(settings, rule, Service::R60),
        delivering(settings, rule, Service::L60),
        delivering(settings, rule, Service::R5),
        delivering(settings, rule, Service::L5),
    ]
}

// The delivery of a service, from the answer at a place.
fn delivery_at(service: Service, answers: &[Answer], place: usize) -> Delivery
    requires answers { All OfDelivery answers.now }
    requires place { place < length answers.now }
    ensures service { result.service ≡ service }
    ensures answer { (d : _) → told (reported result.answer) ≡ slice_index_or answers.now place d }
{
    let answer = match answers[place] {
        Answer::Reported(report) => Ok(report),
        Answer::Refused(refusal) => Err(refusal),
        Answer::Counted(_) | Answer::Closed(_) | Answer::Reopened => unreachable!(),
    };
    Delivery { service, answer }
}

// The deliveries that the six answers make.
fn deliveries(answers: &[Answer]) -> Settlement
    requires answers { All OfDelivery answers.now }
    requires all { length answers.now ≡ 6 }
    ensures services { map (λ d. d.service) result ≡ services }
    ensures answers { map (λ d. told (reported d.answer)) result ≡ answers.now }
{
    [
        delivery_at(Service::R6, answers, 0),
        delivery_at(Service::L6, answers, 1),
        delivery_at(Service::R60, answers, 2),
        delivery_at(Service::L60, answers, 3),
        delivery_at(Service::R5, answers, 4),
        delivery_at(Service::L5, answers, 5),
    ]
}

/// Loads a recording into a new docket, closes it and delivers every service with no targets and 0
/// W enabled, in one list of calls. The six answers, or the refusal of load or close.
pub fn settle<R: Recording, P: ResponseRule>(
    table: &mut [Sample],
    recording: &R,
    settings: &Settings,
    rule: &P,
) -> Result<Settlement, Refusal>
    ensures the_six_deliveries_or_the_refusal { Settles (length table.old) (R.meaning recording.now)
        (bare settings.now (P.ResponseRule.triggers rule.now) (P.ResponseRule.weighs rule.now)) result }
    ensures no_other_settlement { (o : Either (List Settled) SentBack)
        → Settles (length table.old) (R.meaning recording.now)
        (bare settings.now (P.ResponseRule.triggers rule.now) (P.ResponseRule.weighs rule.now)) o → o ≡ result }
    ensures the_accepted_samples_over_the_table { table.new
        ≡ over (taken (length table.old) (R.meaning recording.now)) table.old }
{
    let calls = settling(recording, settings, rule);
    let mut answers = [Answer::Reopened; 8];
    // The run's own result is not needed: it stops early only after a refused close.
    let _ = run(table, &calls, &mut answers);
    if let Answer::Refused(refusal) = answers[0] {
        return Err(refusal);
    }
    if let Answer::Refused(refusal) = answers[1] {
        return Err(refusal);
    }
    Ok(deliveries(&answers[2..]))
}
