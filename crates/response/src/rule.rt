//! The interface of response rules.
ghost use Rattle.std.specs.Prelude.{◌≡◌, ℕ, ℤ, Option as Maybe};
ghost use Rattle.response.specs.declared.setup.Trigger.{Trigger as Triggering};
ghost use Rattle.response.specs.Weights.{Factor, Weighs};

use crate::setup::Trigger;
use crate::weighing::{Dip, Offset, Weight};

/// A rule means a trigger, or none, and a weight at each dip and offset. Both questions answer that
/// meaning every time and leave the rule unchanged.
pub trait ResponseRule {
    ghost triggers: { Self → Maybe Triggering };

    ghost weighs: { Self → ℤ → ℕ → Factor };

    /// The dip that triggers the response, or none.
    fn trigger(&self) -> Option<Trigger>
        ensures answers_the_trigger_or_none { result ≡ triggers self.now }
        ensures rule_as_before { self.exit.now ≡ self.entry.now };

    /// The weight of a response at this dip and this offset from the disturbance time.
    fn weight(&self, dip: Dip, offset: Offset) -> Weight
        ensures answers_the_factor_of_the_rule { Weighs result (weighs self.now dip.mhz offset.ms) }
        ensures rule_as_before { self.exit.now ≡ self.entry.now };
}
