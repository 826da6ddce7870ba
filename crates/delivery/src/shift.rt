//! How far the windows of a service are shifted.
ghost use Rattle.std.specs.Prelude.{◌≡◌, ◌^◌, IfOk};
ghost use Rattle.std.specs.Option.{ok_or};
ghost use Rattle.exact.specs.Limits.{Within};
ghost use Rattle.figure.specs.Windows.{ramp_time, shift_of};
ghost use Rattle.delivery.specs.Limits.{widest_shift};

use recording::refusal::Reason;
use response::limits::RAMP_START;
use response::setup::{Rate, Trigger};

// The whole milliseconds in which a dip that grows at the ramp rate reaches the trigger, rounded
// up.
fn ramp_time(rate: Rate, trigger: Trigger) -> u32
    ensures { result ≡ ramp_time rate.mhz_per_s trigger }
{
    ((trigger.dip - RAMP_START) * 1_000).div_ceil(rate.mhz_per_s)
}

// The shift in ms: 0 without a trigger, a defect if the trigger time does not exist.
pub(crate) fn shift(
    rate: Rate,
    disturbance: u32,
    trigger: Option<Trigger>,
    trigger_time: Option<u32>,
) -> Result<i64, Reason>
    ensures is { result ≡ ok_or (shift_of rate.mhz_per_s disturbance trigger trigger_time) Reason.NoTriggerTime }
    ensures within { IfOk result (λ z. Within widest_shift z) }
{
    let Some(dip) = trigger else {
        return Ok(0);
    };
    let reached = trigger_time.ok_or(Reason::NoTriggerTime)?;
    Ok(reached as i64 - disturbance as i64 - ramp_time(rate, dip) as i64)
}
