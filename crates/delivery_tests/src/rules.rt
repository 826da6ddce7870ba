//! Response rules of the tests' own, behind the interface.
ghost use Rattle.std.specs.Prelude.{◌≡◌, ℕ};
ghost use Rattle.delivery_tests.specs.Rules.{growing, same};
ghost use Rattle.response.specs.Weights.{Weighs};

use response::rule::ResponseRule;
use response::setup::Trigger;
use response::weighing::{Dip, Offset, Weight};

/// One weight at every dip and offset.
#[derive(Clone, Copy)]
pub struct Constant {
    pub weight: Weight,
    pub trigger: Option<Trigger>,
}

impl ResponseRule for Constant {
    ghost triggers = { λ s. s.trigger };

    ghost weighs = { λ s _ _. same s.weight };

    fn trigger(&self) -> Option<Trigger> {
        self.trigger
    }

    fn weight(&self, dip: Dip, offset: Offset) -> Weight {
        self.weight
    }
}

/// A weight that grows by 1/100 with each ms since the disturbance, up to 3.
#[derive(Clone, Copy)]
pub struct Growing {
    pub trigger: Option<Trigger>,
}

impl ResponseRule for Growing {
    ghost triggers = { λ s. s.trigger };

    ghost weighs = { λ _ _ ms. growing ms };

    fn trigger(&self) -> Option<Trigger> {
        self.trigger
    }

    fn weight(&self, dip: Dip, offset: Offset) -> Weight {
        Weight {
            n: (100 + offset.ms).min(300),
            d: 100,
        }
    }
}

// A trigger at a dip of 200.
pub(crate) const SWITCH: Option<Trigger> = Some(Trigger { dip: 200 });

// This weight at every sample, and no trigger.
pub(crate) fn always(weight: Weight) -> Constant {
    Constant {
        weight,
        trigger: None,
    }
}

// Weight 2 at every sample.
pub(crate) fn double(trigger: Option<Trigger>) -> Constant {
    Constant {
        weight: Weight { n: 2, d: 1 },
        trigger,
    }
}
