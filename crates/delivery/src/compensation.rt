//! The compensated response at a point.
ghost use Rattle.std.specs.Prelude.{◌≡◌, ◌^◌};
ghost use Rattle.exact.specs.Limits.{Within};
ghost use Rattle.response.specs.Weights.{Weighs};
ghost use Rattle.delivery.specs.Areas.{weight_at, compensated_z};
ghost use Rattle.delivery.specs.Limits.{Tame, widest_response};

use crate::base::power;
use crate::basis::Basis;
use crate::rounding::half_up;
use figure::point::Point;
use response::rule::ResponseRule;
use response::weighing::{Dip, Offset, Weight};

// The weight at a point: the rule's from the disturbance time on, 1 before it.
fn weight_at<R: ResponseRule>(point: Point, disturbance: u32, rule: &R) -> Weight
    requires { Tame point }
    ensures { Weighs result (weight_at (R.ResponseRule.weighs rule.now) disturbance point) }
{
    if point.time < disturbance {
        return Weight { n: 1, d: 1 };
    }
    let dip = Dip {
        mhz: point.dip as i32,
    };
    let offset = Offset {
        ms: point.time - disturbance,
    };
    rule.weight(dip, offset)
}

// The compensated response in hundredths of a watt: the response times the weight, half-up.
pub(crate) fn compensated<R: ResponseRule>(point: Point, basis: Basis, rule: &R) -> i128
    requires { Tame point }
    ensures is { result ≡ compensated_z (R.ResponseRule.weighs rule.now) basis point }
    ensures within { Within widest_response result }
{
    let weight = weight_at(point, basis.disturbance, rule);
    let response = power(point) - basis.base;
    half_up(response * weight.n as i128, weight.d as u64)
}
