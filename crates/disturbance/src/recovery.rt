//! The recovery from a disturbance.
ghost use Rattle.std.specs.Prelude.{◌≡◌, ℕ, ◌+◌, ◌-◌, true, Option as Maybe};
ghost use Rattle.exact.specs.First.{FirstOrNone};
ghost use Rattle.disturbance.specs.Direction.{nominal};
ghost use Rattle.disturbance.specs.Passing.{PassedFrom};
ghost use Rattle.disturbance.specs.Recovery.{recovery_dip, Recovered};

use crate::direction::{Direction, NOMINAL};
use crate::disturbance::Disturbance;
use crate::passing::{Mark, Search, first_on_line};
use crate::trace::Trace;

/// The dip below which the network has recovered, in mHz.
pub const RECOVERY_DIP: u32 = 0;

// The first whole millisecond after a time at which the dip is below the recovery dip. A dip below
// it is a height above it on the other side of nominal.
fn first_above(trace: Trace, side: Direction, time: u32) -> Option<u32>
    ensures { FirstOrNone (PassedFrom trace.entry.samples.now side (nominal - recovery_dip) true (time + 1)) result }
{
    let level = (NOMINAL - RECOVERY_DIP) as u64;
    let sought = Search {
        side,
        mark: Mark::Exceed(level),
        from: time as u64 + 1,
    };
    first_on_line(trace, sought)
}

/// The first whole millisecond after the disturbance time at which the line's dip is below the
/// recovery dip, or none.
pub fn recovery(trace: Trace, disturbance: Disturbance) -> Option<u32>
    ensures first_time_of_recovery_or_none { FirstOrNone (Recovered trace.entry.samples.now disturbance) result }
    ensures no_other_answer { (o : Maybe ℕ)
        → FirstOrNone (Recovered trace.entry.samples.now disturbance) o → o ≡ result }
{
    first_above(trace, disturbance.direction.other(), disturbance.time)
}
