//! The disturbance on a trace: its time and its direction.
ghost use Rattle.std.specs.Prelude.{◌≡◌, ◌+◌, true};
ghost use Rattle.exact.specs.First.{FirstOrNone};
ghost use Rattle.disturbance.specs.Band.{highest};
ghost use Rattle.disturbance.specs.Passing.{PassedBetween};
ghost use Rattle.disturbance.specs.Disturbance.{Answers, disturbance_of, DisturbanceLaws};

use crate::band::{HIGHEST_INSIDE, is_inside, side};
use crate::direction::Direction;
use crate::passing::{Mark, Search};
use crate::stretch::Stretch;
use crate::trace::Trace;

/// A departure from the band.
#[derive(Clone, Copy, Debug, PartialEq, Eq)]
pub struct Disturbance {
    /// The first whole millisecond at which the frequency is outside, in ms.
    pub time: u32,
    /// The side on which it is outside.
    pub direction: Direction,
}

impl Stretch {
    // The first whole millisecond at which the line to the later sample is past the edge of the
    // band. The band is as wide on either side, so its edge has one height.
    fn first_past_edge(self, direction: Direction) -> Option<u32>
        ensures { FirstOrNone (PassedBetween direction highest true self.before self.after
            (self.before.time + 1)) result }
    {
        self.first_passed(Search {
            side: direction,
            mark: Mark::Exceed(HIGHEST_INSIDE as u64),
            from: self.before.time as u64 + 1,
        })
    }
}

/// The disturbance on the first stretch that begins inside and ends outside, or none.
pub fn find_disturbance(trace: Trace) -> Option<Disturbance>
    ensures first_departure_from_the_band_or_none { Answers trace.entry.samples.now result }
    ensures as_computed_from_the_samples { result ≡ disturbance_of trace.entry.samples.now }
{
    // By index, with the stretch made only where the line leaves the band: this costs least.
    let samples = trace.samples;
    for k in 1..samples.len() {
        if !is_inside(samples[k - 1]) {
            continue;
        }
        if is_inside(samples[k]) {
            continue;
        }
        let stretch = Stretch {
            before: samples[k - 1],
            after: samples[k],
        };
        // The later sample is outside, so it has a side, and the line passes the edge on the way.
        let direction = side(stretch.after).unwrap();
        let time = stretch.first_past_edge(direction).unwrap();
        return Some(Disturbance { time, direction });
    }
    None
}

/// Sound samples have one disturbance at most, and it can be computed from them.
pub fn disturbance_laws()
    ensures one_disturbance_and_it_can_be_worked_out { DisturbanceLaws }
{}
