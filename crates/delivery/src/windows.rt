//! The value of a window.
ghost use Rattle.std.specs.Prelude.{◌≡◌, ◌-◌, ◌*◌, ◌^◌};
ghost use Rattle.exact.specs.Fractions.{whole};
ghost use Rattle.exact.specs.Limits.{Within};
ghost use Rattle.figure.specs.Points.{course};
ghost use Rattle.delivery.specs.Areas.{area_of, compensated_z, value_of};
ghost use Rattle.delivery.specs.Limits.{BeginsBy, widest_strip};
ghost use Rattle.figure.specs.Windows.{Proper};

use crate::basis::Basis;
use crate::compensation::compensated;
use crate::points::turned;
use crate::rounding::{half_up, straight_half_up, strip};
use disturbance::direction::Direction;
use disturbance::trace::Trace;
use response::group::Window;
use response::rule::ResponseRule;

// Twice the area under the compensated response in a window. One pass over the samples, which asks
// the rule once for each and ends at the window's end.
fn area<R: ResponseRule>(
    trace: Trace,
    direction: Direction,
    window: Window,
    basis: Basis,
    rule: &R,
) -> i128
    requires { (Proper window) × (BeginsBy (λ p. p.time) window.start (course direction trace.samples.now)) }
    ensures is { result ≡ area_of (compensated_z (R.ResponseRule.weighs rule.now) basis)
        (course direction trace.entry.samples.now) window.start window.end }
    ensures within { Within (widest_strip * (window.end - window.start)) result }
{
    let mut t1: u32 = 0;
    let mut v1: i128 = 0;
    let mut sum: i128 = 0;
    for sample in trace.samples {
        let point = turned(direction, *sample);
        let v = compensated(point, basis, rule);
        if point.time <= window.start {
            t1 = point.time;
            v1 = v;
            continue;
        }
        let t0 = window.start.max(t1);
        let v0 = straight_half_up(t1, v1, point.time, v, t0);
        if window.end <= point.time {
            let last = straight_half_up(t1, v1, point.time, v, window.end);
            return sum + strip(v0, last, window.end - t0);
        }
        sum += strip(v0, v, point.time - t0);
        t1 = point.time;
        v1 = v;
    }
    sum + strip(v1, v1, window.end - window.start.max(t1))
}

// A window's value in watts: the multiplier times the trapezoid average, half-up.
pub(crate) fn window_value<R: ResponseRule>(
    trace: Trace,
    direction: Direction,
    window: Window,
    basis: Basis,
    rule: &R,
) -> i64
    requires { (Proper window) × (BeginsBy (λ p. p.time) window.start (course direction trace.samples.now)) }
    ensures { whole result ≡ value_of (compensated_z (R.ResponseRule.weighs rule.now) basis)
        (course direction trace.entry.samples.now) window }
{
    let sum = area(trace, direction, window, basis, rule);
    let length = window.end - window.start;
    half_up(sum * window.multiplier as i128, 200 * length as u64) as i64
}
