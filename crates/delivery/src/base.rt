//! The base: the power of a plant before the disturbance, in hundredths of a watt.
ghost use Rattle.std.specs.Prelude.{◌≡◌, [], pos, ◌*ℤ◌};
ghost use Rattle.exact.specs.Fractions.{whole};
ghost use Rattle.exact.specs.Limits.{Within};
ghost use Rattle.exact.specs.Wholes.{Is};
ghost use Rattle.figure.specs.Steps.{power as power_of, trajectory as trajectory_of, base_push, base, to_half_up};
ghost use Rattle.figure.specs.Defects.{MissedByTargets};
ghost use Rattle.delivery.specs.Limits.{BeginsBy, widest_base, widest_height, widest_power};
ghost use Rattle.delivery.specs.Footings.{points_on, case_on};

use crate::basis::Basis;
use crate::footing::Footing;
use crate::points::turned;
use crate::rounding::{half_up, straight_half_up};
use crate::targets::Targets;
use disturbance::direction::push;
use figure::point::Point;

// Watts in hundredths.
fn in_hundredths(watts: i64) -> i128
    ensures { result ≡ watts *ℤ pos 100 }
{
    watts as i128 * 100
}

// The push of a point, in hundredths of a watt.
pub(crate) fn power(point: Point) -> i128
    requires { Within widest_power point.push }
    ensures is { whole result ≡ power_of point }
    ensures within { Within widest_height result }
{
    in_hundredths(point.push)
}

// The trajectory of the targets at a time, in hundredths of a watt.
fn trajectory(footing: Footing, targets: Targets, time: u32) -> i128
    requires { BeginsBy (λ g. g.time) time targets.all.now }
    ensures is { whole result ≡ trajectory_of to_half_up (case_on footing.entry targets.entry.all.now) time }
    ensures within { Within widest_height result }
{
    let mut t0 = 0;
    let mut v0: i128 = 0;
    for target in targets.all {
        let v = in_hundredths(push(footing.disturbance.direction, target.power));
        if time < target.time {
            return straight_half_up(t0, v0, target.time, v, time);
        }
        t0 = target.time;
        v0 = v;
    }
    v0
}

// The push of a base point in hundredths of a watt, raised by as much as the trajectory rises from
// there to the disturbance time.
fn base_push(footing: Footing, targets: Targets, point: Point) -> i128
    requires small { Within widest_power point.push }
    requires begins { (BeginsBy (λ g. g.time) footing.disturbance.time targets.all.now)
        × (BeginsBy (λ g. g.time) point.time targets.all.now) }
    ensures is { Is (base_push to_half_up (case_on footing.entry targets.entry.all.now) point) result 1 }
    ensures within { Within widest_base result }
{
    let pushed = power(point);
    if targets.all.is_empty() {
        return pushed;
    }
    let there = trajectory(footing, targets, footing.disturbance.time);
    let here = trajectory(footing, targets, point.time);
    pushed + (there - here).max(0)
}

// The base: the mean of the base pushes, half-up. One pass for both sum and count.
pub(crate) fn basis(footing: Footing, targets: Targets) -> Basis
    requires some { points_on footing ≡ [] → ⊥ }
    requires reached { MissedByTargets targets.all.now footing.disturbance.time (points_on footing) → ⊥ }
    ensures time { result.disturbance ≡ footing.entry.disturbance.time }
    ensures base { whole result.base ≡ base to_half_up (case_on footing.entry targets.entry.all.now) }
{
    let mut sum: i128 = 0;
    let mut count: u64 = 0;
    for sample in footing.trace.samples {
        let point = turned(footing.disturbance.direction, *sample);
        if footing.counts(point.time) {
            sum += base_push(footing, targets, point);
            count += 1;
        }
    }
    Basis {
        disturbance: footing.disturbance.time,
        base: half_up(sum, count),
    }
}
