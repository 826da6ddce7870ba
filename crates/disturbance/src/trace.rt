//! A trace: samples within their limits, at times that strictly rise.
ghost use Rattle.std.specs.Prelude.{◌≡◌, ◌<◌, Decides, MatchOption};
ghost use Rattle.disturbance.specs.Trace.{Sound, Within};

use recording::sample::{Sample, is_frequency, is_power, is_time};

/// Sound samples: whoever has a trace may rely on their limits and their order.
#[derive(Clone, Copy)]
pub struct Trace<'a> {
    /// The samples, in order of their times.
    pub samples: &'a [Sample],
    ghost sound: { Sound samples.now },
}

// Whether a sample is within its limits.
fn is_within(sample: Sample) -> bool
    ensures { Decides result (Within sample) }
{
    is_time(sample.time) && is_frequency(sample.frequency) && is_power(sample.power)
}

// Whether a sample may come after another: it is within its limits, and later.
fn may_follow(before: Sample, sample: Sample) -> bool
    ensures { Decides result (Within sample × (before.time < sample.time)) }
{
    is_within(sample) && before.time < sample.time
}

/// Whether samples are within their limits and at times that strictly rise. One pass, which ends at
/// the first sample that breaks either.
pub fn is_sound(samples: &[Sample]) -> bool
    ensures true_exactly_where_the_samples_are_sound { Decides result (Sound samples.now) }
{
    samples.first().is_none_or(|first| is_within(*first))
        && samples.is_sorted_by(|before, sample| may_follow(*before, *sample))
}

impl<'a> Trace<'a> {
    /// The trace of sound samples, or none if they are not sound.
    pub fn new(samples: &'a [Sample]) -> Option<Trace<'a>>
        ensures trace_of_the_samples_or_none_where_unsound { MatchOption result (Sound samples.now → ⊥)
            (λ trace. trace.samples.now ≡ samples.now) }
    {
        if is_sound(samples) {
            Some(Trace { samples })
        } else {
            None
        }
    }
}
