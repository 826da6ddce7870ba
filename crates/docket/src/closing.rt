//! Closing a docket on the disturbance of its samples.
ghost use Rattle.std.specs.Prelude.{◌≡◌, take, Err, MatchResult};
ghost use Rattle.timeline.specs.Orders.{Sound};
ghost use Rattle.timeline.specs.Samples.{samples};
ghost use Rattle.disturbance.specs.Disturbance.{Disturbed, Undisturbed, Answers};

use disturbance::disturbance::{Disturbance, find_disturbance};
use disturbance::trace::Trace;
use recording::refusal::Reason;
use recording::sample::Sample;
use timeline::fault::check_table;

// The disturbance to close on, or the reason for the refusal: 1 or 7.
pub(crate) fn closing_disturbance(table: &[Sample], count: usize) -> Result<Disturbance, Reason>
    ensures own { Sound samples count table.now → MatchResult result
        (λ d. Disturbed (take count table.now) d)
        (λ why. Undisturbed (take count table.now) × (why ≡ Reason.NoDisturbance)) }
    ensures other { (Sound samples count table.now → ⊥) → result ≡ Err Reason.OtherTable }
{
    check_table(table, count)?;
    counted_disturbance(table, count).ok_or(Reason::NoDisturbance)
}

// The disturbance of the counted samples of a sound table.
fn counted_disturbance(table: &[Sample], count: usize) -> Option<Disturbance>
    requires { Sound samples count table.now }
    ensures { Answers (take count table.now) result }
{
    let samples = &table[0..count];
    find_disturbance(Trace { samples })
}
