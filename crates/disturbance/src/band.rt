//! The normal operating frequency band: inside and outside.
ghost use Rattle.std.specs.Prelude.{◌≡◌, true, Decides, MatchOption};
ghost use Rattle.disturbance.specs.Band.{Inside, Beyond};

use crate::direction::Direction;
use recording::sample::Sample;

// The lowest frequency inside, in mHz.
pub(crate) const LOWEST_INSIDE: u32 = 49_850;

// The highest frequency inside, in mHz.
pub(crate) const HIGHEST_INSIDE: u32 = 50_150;

// Whether a sample is inside the band.
pub(crate) fn is_inside(sample: Sample) -> bool
    ensures { Decides result (Inside sample) }
{
    (LOWEST_INSIDE..=HIGHEST_INSIDE).contains(&sample.frequency)
}

// The side on which a sample is outside, or none inside.
pub(crate) fn side(sample: Sample) -> Option<Direction>
    ensures { MatchOption result (Inside sample) (λ d. Beyond d sample) }
{
    if sample.frequency < LOWEST_INSIDE {
        Some(Direction::Low)
    } else if sample.frequency > HIGHEST_INSIDE {
        Some(Direction::High)
    } else {
        None
    }
}
