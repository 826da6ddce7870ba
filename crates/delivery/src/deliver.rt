//! A delivery: from a record with its disturbance to the report or the refusal.
ghost use Rattle.std.specs.Prelude.{◌≡◌, IfOk, Result as Answer};
ghost use Rattle.recording.specs.declared.refusal.Refusal.{Refusal as Refused};
ghost use Rattle.response.specs.Groups.{Sound as SoundRow};
ghost use Rattle.figure.specs.declared.report.Report.{Report as Reported};
ghost use Rattle.figure.specs.Asked.{TriggerTime, asked, with_row};
ghost use Rattle.figure.specs.Exactness.{Faithful};
ghost use Rattle.figure.specs.Reports.{Delivers};

use crate::base::basis;
use crate::defects::{early_defect, span_defect};
use crate::footing::Footing;
use crate::judging::judged;
use crate::shift::shift;
use crate::spans::placed_row;
use crate::values::window_values;
use disturbance::disturbance::Disturbance;
use disturbance::recovery::recovery;
use disturbance::trace::Trace;
use disturbance::trigger::trigger_time;
use figure::report::Report;
use figure::request::Request;
use recording::refusal::Refusal;
use response::group::Row;
use response::rule::ResponseRule;
use response::service::Side;
use response::setup::Trigger;

// The time at which the rule's trigger is reached; none without a trigger.
fn reached(
    trace: Trace,
    disturbance: Disturbance,
    recovery: Option<u32>,
    trigger: Option<Trigger>,
) -> Option<u32>
    ensures { TriggerTime trace.entry.samples.now disturbance recovery trigger result }
{
    trigger_time(trace, disturbance, recovery, trigger?.dip)
}

// The delivery of a request, for a side and any row of windows.
fn deliver_over<R: ResponseRule>(
    trace: Trace,
    disturbance: Disturbance,
    request: Request<'_, R>,
    side: Side,
    row: Row,
) -> Result<Report, Refusal>
    requires { SoundRow row }
    ensures { Delivers trace.entry.samples.now disturbance
        (with_row side row (asked R.ResponseRule.triggers R.ResponseRule.weighs request.entry)) result }
{
    let Request {
        settings,
        rule,
        targets,
        count,
        enablement,
    } = request;
    let recovered = recovery(trace, disturbance);
    let trigger = rule.trigger();
    let triggered = reached(trace, disturbance, recovered, trigger);
    let footing = Footing {
        trace,
        disturbance,
        window: settings.base(),
    };
    let counted = early_defect(footing, targets, count, side, enablement.watts)?;
    let time = disturbance.time;
    let direction = disturbance.direction;
    let shifted_by = shift(settings.response.rate, time, trigger, triggered)?;
    let spans = placed_row(time, shifted_by, recovered, row);
    span_defect(trace, spans)?;
    let counted_from = basis(footing, counted);
    let values = window_values(trace, direction, recovered, spans, counted_from, rule);
    Ok(judged(time, recovered, values, enablement.watts))
}

/// The delivery of a request on a sound record with its disturbance: the report, or the first
/// defect, refusals 8 to 16 with place and position 0. Changes nothing. Takes record and
/// disturbance as two parameters, since a closed docket keeps its disturbance without the record.
pub fn deliver<R: ResponseRule>(
    trace: Trace,
    disturbance: Disturbance,
    request: Request<'_, R>,
) -> Result<Report, Refusal>
    ensures the_report_of_the_steps_or_the_first_defect { Delivers trace.entry.samples.now
        disturbance (asked R.ResponseRule.triggers R.ResponseRule.weighs request.entry) result }
    ensures no_other_answer { (s : Answer Reported Refused)
        → Delivers trace.entry.samples.now disturbance
        (asked R.ResponseRule.triggers R.ResponseRule.weighs request.entry) s → s ≡ result }
    ensures less_than_a_watt_from_exact_and_fair { IfOk result
        (Faithful trace.entry.samples.now disturbance
        (asked R.ResponseRule.triggers R.ResponseRule.weighs request.entry)) }
{
    let service = request.enablement.service;
    let row = service.group().row();
    deliver_over(trace, disturbance, request, service.side(), row)
}
