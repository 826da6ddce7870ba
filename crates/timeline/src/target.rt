//! Dispatch targets, as entries of a timeline.
ghost use Rattle.std.specs.Prelude.{◌≡◌, refl};
ghost use Rattle.timeline.specs.Checks.{TheFirst};
ghost use Rattle.timeline.specs.Targets.{targets, target_fields};

use crate::entry::Entry;
use recording::refusal::Field;
use recording::sample::{is_power, is_time};

/// The greatest count of a timeline of targets.
pub const MOST_TARGETS: usize = 16;

/// The power that a plant is to reach at a time.
#[derive(Clone, Copy, Debug, PartialEq, Eq)]
pub struct Target {
    /// In ms.
    pub time: u32,
    /// In W, with flow into the network positive.
    pub power: i32,
}

impl Entry for Target {
    ghost kind = { targets };

    const MOST: usize = MOST_TARGETS;

    ghost MOST = { 16 };

    ghost most_is = { refl };

    fn time(&self) -> u32 {
        self.time
    }

    fn outside(&self) -> Option<Field>
        ensures answers_the_first_field_outside { result ≡ targets.outside self.now }
        ensures first_of_time_and_power { TheFirst (target_fields self.now) result }
    {
        if !is_time(self.time) {
            return Some(Field::Time);
        }
        if !is_power(self.power) {
            return Some(Field::Power);
        }
        None
    }
}
