//! The first whole millisecond at which the line is past a threshold. A height is a dip plus
//! nominal: never negative, and the same for both directions.
ghost use Rattle.std.specs.Prelude.{◌≡◌, ◌-◌, ◌^◌, ◌≤◌};
ghost use Rattle.exact.specs.First.{FirstOrNone};
ghost use Rattle.disturbance.specs.Passing.{height, goal, level, is_above, PassedBetween, PassedFrom};

use crate::crossing::Slope;
use crate::direction::{Direction, NOMINAL};
use crate::scan::first_found;
use crate::stretch::Stretch;
use crate::trace::Trace;

// A threshold for a height: at least a level in mHz, or above it.
#[derive(Clone, Copy)]
pub(crate) enum Mark {
    Reach(u64),
    Exceed(u64),
}

// A search along the line: for the height on one side of nominal to be past a threshold, from a
// time in ms on.
#[derive(Clone, Copy)]
pub(crate) struct Search {
    pub(crate) side: Direction,
    pub(crate) mark: Mark,
    pub(crate) from: u64,
    ghost low: { level mark ≤ 2 ^ 33 },
}

// The height of a frequency, in mHz.
fn height_of(side: Direction, frequency: u32) -> u32
    requires { frequency ≤ 100000 }
    ensures is { result ≡ height side frequency }
    ensures small { result ≤ 100000 }
{
    match side {
        Direction::Low => 2 * NOMINAL - frequency,
        Direction::High => frequency,
    }
}

impl Stretch {
    // The heights of the line on one side.
    fn slope(self, side: Direction) -> Slope
        ensures start { result.start ≡ self.before.time }
        ensures x { result.x ≡ height side self.before.frequency }
        ensures end { result.end ≡ self.after.time }
        ensures y { result.y ≡ height side self.after.frequency }
    {
        Slope {
            start: self.before.time,
            x: height_of(side, self.before.frequency),
            end: self.after.time,
            y: height_of(side, self.after.frequency),
        }
    }

    // The least height past the threshold, multiplied by the length of the stretch in ms.
    fn goal(self, sought: Search) -> u64
        ensures { result ≡ goal (level sought.mark) (is_above sought.mark) (self.after.time - self.before.time) }
    {
        let span = (self.after.time - self.before.time) as u64;
        match sought.mark {
            Mark::Reach(level) => level * span,
            Mark::Exceed(level) => level * span + 1,
        }
    }

    // The first whole millisecond found after the one sample and up to the other, or none.
    pub(crate) fn first_passed(self, sought: Search) -> Option<u32>
        ensures { FirstOrNone (PassedBetween sought.side (level sought.mark) (is_above sought.mark)
            self.before self.after sought.from) result }
    {
        if sought.from > self.after.time as u64 {
            return None;
        }
        let from = (sought.from as u32).max(self.before.time + 1);
        self.slope(sought.side)
            .first_reached(self.goal(sought), from)
    }
}

// The first whole millisecond found on a trace, or none.
pub(crate) fn first_on_line(trace: Trace, sought: Search) -> Option<u32>
    ensures { FirstOrNone (PassedFrom trace.entry.samples.now sought.side (level sought.mark) (is_above sought.mark)
        sought.from) result }
{
    first_found(trace, |stretch| stretch.first_passed(sought))
}
