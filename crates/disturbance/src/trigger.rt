//! The trigger time of a disturbance.
ghost use Rattle.std.specs.Prelude.{◌≡◌, ℕ, ◌+◌, true, false, Decides, Option as Maybe};
ghost use Rattle.exact.specs.First.{FirstOrNone};
ghost use Rattle.disturbance.specs.Direction.{nominal};
ghost use Rattle.disturbance.specs.Passing.{PassedFrom};
ghost use Rattle.disturbance.specs.Trigger.{Before, Triggered};

use crate::direction::NOMINAL;
use crate::disturbance::Disturbance;
use crate::passing::{Mark, Search, first_on_line};
use crate::trace::Trace;

// Whether a time is before any recovery.
fn is_before(time: u32, recovery: Option<u32>) -> bool
    ensures { Decides result (Before recovery time) }
{
    recovery.is_none_or(|end| time < end)
}

// The first whole millisecond from the disturbance time on at which the dip is at least the
// trigger, whether before recovery or not.
fn first_reaching(trace: Trace, disturbance: Disturbance, trigger: u32) -> Option<u32>
    ensures { FirstOrNone (PassedFrom trace.entry.samples.now disturbance.direction (nominal + trigger)
        false disturbance.time) result }
{
    let level = NOMINAL as u64 + trigger as u64;
    let sought = Search {
        side: disturbance.direction,
        mark: Mark::Reach(level),
        from: disturbance.time as u64,
    };
    first_on_line(trace, sought)
}

/// The first whole millisecond from the disturbance time on, before any recovery, at which the
/// line's dip is at least the trigger, or none. Times are in ms, the trigger in mHz.
pub fn trigger_time(
    trace: Trace,
    disturbance: Disturbance,
    recovery: Option<u32>,
    trigger: u32,
) -> Option<u32>
    ensures first_time_of_trigger_or_none { FirstOrNone
        (Triggered trace.entry.samples.now disturbance recovery trigger) result }
    ensures no_other_answer { (o : Maybe ℕ)
        → FirstOrNone (Triggered trace.entry.samples.now disturbance recovery trigger) o → o ≡ result }
{
    first_reaching(trace, disturbance, trigger).filter(|t| is_before(*t, recovery))
}
