//! Samples as entries of a timeline.
ghost use Rattle.std.specs.Prelude.{◌≡◌, refl};
ghost use Rattle.timeline.specs.Checks.{TheFirst};
ghost use Rattle.timeline.specs.Samples.{samples, sample_fields};

use crate::entry::Entry;
use recording::refusal::Field;
use recording::sample::{Sample, is_frequency, is_power, is_time};

/// The greatest count of a timeline of samples.
pub const MOST_SAMPLES: usize = 4096;

impl Entry for Sample {
    ghost kind = { samples };

    const MOST: usize = MOST_SAMPLES;

    ghost MOST = { 4096 };

    ghost most_is = { refl };

    fn time(&self) -> u32 {
        self.time
    }

    fn outside(&self) -> Option<Field>
        ensures answers_the_first_field_outside { result ≡ samples.outside self.now }
        ensures first_of_time_frequency_and_power { TheFirst (sample_fields self.now) result }
    {
        if !is_time(self.time) {
            return Some(Field::Time);
        }
        if !is_frequency(self.frequency) {
            return Some(Field::Frequency);
        }
        if !is_power(self.power) {
            return Some(Field::Power);
        }
        None
    }
}
