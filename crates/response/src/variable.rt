//! The variable rule: the response follows the dip, weighed by the ramp dip over the actual one.
ghost use Rattle.std.specs.Prelude.{◌≡◌, ℕ, ◌≤◌, None};
ghost use Rattle.response.specs.VariableRule.{VariableLaws, WeightOf, factor_of};
ghost use Rattle.response.specs.Weights.{Weighs, weight_value};

use crate::limits::RAMP_START;
use crate::rule::ResponseRule;
use crate::setup::{Rate, Response, Trigger};
use crate::weighing::{Dip, Offset, Weight};

/// The rule with its settings and a ramp rate.
#[derive(Clone, Copy)]
pub struct Variable {
    /// The settings, of which the rule reads reference dip and dead band.
    pub response: Response,
    /// The ramp rate, which may differ from that of the settings.
    pub rate: Rate,
}

impl ResponseRule for Variable {
    ghost triggers = { λ _. None };

    ghost weighs = { factor_of };

    fn trigger(&self) -> Option<Trigger> {
        None
    }

    fn weight(&self, dip: Dip, offset: Offset) -> Weight
        ensures answers_the_factor_of_the_rule { Weighs result (factor_of self.now dip.mhz offset.ms) }
        ensures rule_as_before { self.exit.now ≡ self.entry.now }
        ensures weight_as_the_rule_says { WeightOf self.now dip.mhz offset.ms (weight_value result) }
    {
        self.factor(dip, offset)
    }
}

impl Variable {
    // The weight, with numerator and denominator in thousandths of a mHz, so that both are whole.
    fn factor(&self, dip: Dip, offset: Offset) -> Weight
        ensures { Weighs result (factor_of self.now dip.mhz offset.ms) }
    {
        let dead = self.response.dead_band;
        if dip.mhz <= dead as i32 {
            return Weight { n: 1, d: 1 };
        }
        let d = 1_000 * (dip.mhz as u32 - dead);
        let ramp = 1_000 * RAMP_START as u64 + offset.ms as u64 * self.rate.mhz_per_s as u64;
        let over = ramp.min(1_000 * self.response.reference_dip as u64) as u32 - 1_000 * dead;
        Weight {
            n: over.clamp(d, 3 * d),
            d,
        }
    }
}

/// There is one ramp dip and one weight at each dip and offset, and the rule's factor has its
/// value.
pub fn variable_laws()
    ensures one_ramp_dip_and_one_weight_at_each_dip { VariableLaws }
{}
