//! Either of the two rules, so that one list of calls may hold both.
ghost use Rattle.response.specs.Chosen.{triggers_of, weighs_of};

use crate::rule::ResponseRule;
use crate::setup::Trigger;
use crate::switching::Switching;
use crate::variable::Variable;
use crate::weighing::{Dip, Offset, Weight};

/// A rule that is chosen at run time. It means what the chosen rule means.
#[derive(Clone, Copy)]
pub enum Rule {
    Variable(Variable),
    Switching(Switching),
}

impl ResponseRule for Rule {
    ghost triggers = { triggers_of };

    ghost weighs = { weighs_of };

    fn trigger(&self) -> Option<Trigger> {
        match self {
            Rule::Variable(variable) => variable.trigger(),
            Rule::Switching(switching) => switching.trigger(),
        }
    }

    fn weight(&self, dip: Dip, offset: Offset) -> Weight {
        match self {
            Rule::Variable(variable) => variable.weight(dip, offset),
            Rule::Switching(switching) => switching.weight(dip, offset),
        }
    }
}
