//! Samples as they count for the direction of a disturbance.
ghost use Rattle.std.specs.Prelude.{◌≡◌, Some};
ghost use Rattle.figure.specs.Points.{turned, course};
ghost use Rattle.figure.specs.Steps.{used_points};

use disturbance::direction::{Direction, dip, push};
use disturbance::trace::Trace;
use figure::point::Point;
use recording::sample::Sample;

// A sample with its dip and its push.
pub(crate) fn turned(direction: Direction, sample: Sample) -> Point
    ensures { result ≡ turned direction sample }
{
    Point {
        time: sample.time,
        dip: dip(direction, sample.frequency),
        push: push(direction, sample.power),
    }
}

// The samples before a time.
fn before(trace: Trace<'_>, time: u32) -> Trace<'_>
    ensures { (d : _) → course d result.samples.now ≡ used_points (Some time) (course d trace.entry.samples.now) }
{
    let count = trace.samples.partition_point(|sample| sample.time < time);
    Trace {
        samples: &trace.samples[0..count],
    }
}

// The samples that are used: those before any recovery.
pub(crate) fn used(trace: Trace<'_>, recovery: Option<u32>) -> Trace<'_>
    ensures { (d : _) → course d result.samples.now ≡ used_points recovery (course d trace.entry.samples.now) }
{
    match recovery {
        Some(time) => before(trace, time),
        None => trace,
    }
}
