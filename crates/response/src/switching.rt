//! The switching rule: the whole response comes once the dip reaches the switch dip.
ghost use Rattle.std.specs.Prelude.{◌≡◌, Some};
ghost use Rattle.response.specs.Weights.{Weighs, one};

use crate::rule::ResponseRule;
use crate::setup::{Response, Trigger};
use crate::weighing::{Dip, Offset, Weight};

/// The rule with its settings: its trigger is their switch dip, its weight is 1.
#[derive(Clone, Copy)]
pub struct Switching {
    /// The settings, of which the rule reads the switch dip.
    pub response: Response,
}

impl ResponseRule for Switching {
    ghost triggers = { λ s. Some s.response.switch_dip };

    ghost weighs = { λ _ _ _. one };

    fn trigger(&self) -> Option<Trigger> {
        Some(self.response.switch_dip)
    }

    fn weight(&self, dip: Dip, offset: Offset) -> Weight {
        Weight { n: 1, d: 1 }
    }
}
