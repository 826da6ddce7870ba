//! The values of a service's two windows.
ghost use Rattle.std.specs.Prelude.{◌≡◌, ◌≤◌, option_map};
ghost use Rattle.exact.specs.Fractions.{whole};
ghost use Rattle.figure.specs.Points.{course};
ghost use Rattle.figure.specs.Steps.{used_points};
ghost use Rattle.delivery.specs.Areas.{compensated_z, value_of};
ghost use Rattle.figure.specs.Windows.{Empty, on_clock, unless_empty};
ghost use Rattle.figure.specs.Defects.{Beyond};

use crate::basis::Basis;
use crate::points::used;
use crate::spans::{Spans, is_empty, on_clock};
use crate::windows::window_value;
use disturbance::direction::Direction;
use disturbance::trace::Trace;
use response::rule::ResponseRule;

// In watts. The second value is none if the second window is empty.
#[derive(Clone, Copy)]
pub(crate) struct Values {
    pub(crate) first: i64,
    pub(crate) second: Option<i64>,
}

// The values of two windows, from the samples before any recovery.
pub(crate) fn window_values<R: ResponseRule>(
    trace: Trace,
    direction: Direction,
    recovery: Option<u32>,
    spans: Spans,
    basis: Basis,
    rule: &R,
) -> Values
    requires times { (spans.first.multiplier ≤ 2) × (spans.second.multiplier ≤ 2) }
    requires stand { ((Empty spans.first → ⊥)) × (((Beyond trace.samples.now spans.first → ⊥))
        × ((Beyond trace.samples.now spans.second → ⊥))) }
    ensures first { whole result.first ≡ value_of (compensated_z (R.ResponseRule.weighs rule.now) basis)
        (used_points recovery (course direction trace.entry.samples.now)) (on_clock spans.first) }
    ensures second { option_map whole result.second ≡ option_map (value_of
        (compensated_z (R.ResponseRule.weighs rule.now) basis)
        (used_points recovery (course direction trace.entry.samples.now))) (unless_empty spans.second) }
{
    let before = used(trace, recovery);
    let first = window_value(before, direction, on_clock(spans.first), basis, rule);
    let second = if is_empty(spans.second) {
        None
    } else {
        Some(window_value(before, direction, on_clock(spans.second), basis, rule))
    };
    Values { first, second }
}
