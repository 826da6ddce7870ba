//! The report of a delivery, and its verdict.
ghost use Rattle.std.specs.Prelude.{◌≡◌, option_map};
ghost use Rattle.exact.specs.Fractions.{whole};
ghost use Rattle.figure.specs.Reports.{Judged};
ghost use Rattle.figure.specs.Steps.{lesser_of};
ghost use Rattle.delivery.specs.Filling.{Filled};

use crate::values::Values;
use figure::report::{Report, Verdict};
use std::cmp::Ordering;

// The verdict on a delivery, for an enabled amount.
fn verdict(watts: i64, enabled: i64) -> Verdict
    ensures { Judged watts enabled result }
{
    match watts.cmp(&enabled) {
        Ordering::Greater => Verdict::Met,
        Ordering::Equal => Verdict::Level,
        Ordering::Less => Verdict::Short,
    }
}

// The lesser value, or the first alone.
fn lesser(values: Values) -> i64
    ensures { whole result ≡ lesser_of (whole values.first) (option_map whole values.second) }
{
    let first = values.first;
    values.second.map_or(first, |second| first.min(second))
}

// The report of two values, for an enabled amount in W.
pub(crate) fn judged(disturbance: u32, recovery: Option<u32>, values: Values, watts: i64) -> Report
    ensures { Filled disturbance recovery values watts result }
{
    let delivery = lesser(values);
    Report {
        disturbance,
        recovery,
        first: values.first,
        second: values.second,
        delivery,
        verdict: verdict(delivery, watts),
    }
}
