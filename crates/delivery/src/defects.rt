//! What bars a delivery, in the order of the checks.
ghost use Rattle.std.specs.Prelude.{◌≡◌, ◌⊎◌, take, IfOk, Decides};
ghost use Rattle.std.specs.Result.{result_err};
ghost use Rattle.timeline.specs.Checks.{FirstFault};
ghost use Rattle.figure.specs.Defects.{BadAmount, WrongSide, Beyond};
ghost use Rattle.delivery.specs.Checking.{early_defects, span_defects, unplaced};

use crate::footing::Footing;
use crate::gaps::is_gapped;
use crate::spans::{Spans, is_beyond, is_empty};
use crate::targets::{Targets, counted};
use disturbance::direction::Direction;
use disturbance::trace::Trace;
use recording::refusal::Reason;
use response::service::Side;
use timeline::target::Target;

// The greatest amount that can be enabled, in W.
const GREATEST_AMOUNT: i64 = 1_000_000_000;

// Whether an enabled amount is outside its limits.
fn is_bad_amount(enabled: i64) -> bool
    ensures { Decides result (BadAmount enabled) }
{
    !(0..=GREATEST_AMOUNT).contains(&enabled)
}

// Whether services of a side belong to the other direction.
fn is_wrong_side(side: Side, direction: Direction) -> bool
    ensures { Decides result (WrongSide side direction) }
{
    side.direction() != direction
}

// The first defect from 8 to 12, which needs neither recovery nor windows; else the counted
// targets.
pub(crate) fn early_defect<'a>(
    footing: Footing,
    table: &'a [Target],
    count: usize,
    side: Side,
    watts: i64,
) -> Result<Targets<'a>, Reason>
    ensures defect { FirstFault (early_defects footing.entry.trace.samples.now footing.entry.disturbance
        footing.entry.window table.now count side watts) (unplaced (result_err result)) }
    ensures counted { IfOk result (λ targets. targets.all.now ≡ take count table.now) }
{
    if is_bad_amount(watts) {
        return Err(Reason::AmountOutside);
    }
    if is_wrong_side(side, footing.disturbance.direction) {
        return Err(Reason::OtherDirection);
    }
    let targets = counted(table, count)?;
    if footing.lacks_base() {
        return Err(Reason::NoBaseSample);
    }
    if footing.is_missed(targets) {
        return Err(Reason::OutsideTargets);
    }
    Ok(targets)
}

// Whether a window that is not empty begins before the first sample or ends after the last.
fn is_one_beyond(trace: Trace, spans: Spans) -> bool
    ensures { Decides result (Beyond trace.entry.samples.now spans.first
        ⊎ Beyond trace.entry.samples.now spans.second) }
{
    is_beyond(trace, spans.first) || is_beyond(trace, spans.second)
}

// The first defect of the two windows, from 14 to 16.
pub(crate) fn span_defect(trace: Trace, spans: Spans) -> Result<(), Reason>
    ensures { FirstFault (span_defects trace.entry.samples.now spans.widest_gap spans.first spans.second)
        (unplaced (result_err result)) }
{
    if is_empty(spans.first) {
        return Err(Reason::EmptyFirstWindow);
    }
    if is_one_beyond(trace, spans) {
        return Err(Reason::WindowOutside);
    }
    if is_gapped(trace.samples, spans) {
        return Err(Reason::WideGap);
    }
    Ok(())
}
