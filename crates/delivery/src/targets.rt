//! The counted targets of a table.
ghost use Rattle.std.specs.Prelude.{◌≡◌, ℕ, ◌<◌, length, take, slice_index_or, Decides, MatchResult};
ghost use Rattle.timeline.specs.Orders.{Sound};
ghost use Rattle.timeline.specs.Targets.{targets as kind};
ghost use Rattle.figure.specs.Defects.{BadTargets, Missed};
ghost use Rattle.delivery.specs.Limits.{Aimed, RisingTargets, no_target};

use recording::refusal::Reason;
use timeline::fault::check_table;
use timeline::target::Target;

// Targets within their limits, each later than the one before.
#[derive(Clone, Copy)]
pub(crate) struct Targets<'a> {
    pub(crate) all: &'a [Target],
    ghost aimed: { (k : ℕ) → k < length all.now → Aimed (slice_index_or all.now k no_target) },
    ghost rising: { RisingTargets all.now },
}

// The counted entries of a table, if it has them all, within their limits and in order.
pub(crate) fn counted(table: &[Target], count: usize) -> Result<Targets<'_>, Reason>
    ensures { MatchResult result
        (λ targets. (Sound kind count table.now) × (targets.all.now ≡ take count table.now))
        (λ why. (BadTargets count table.now) × (why ≡ Reason.OtherTargets)) }
{
    check_table(table, count).map_err(|_| Reason::OtherTargets)?;
    Ok(Targets {
        all: &table[0..count],
    })
}

impl Targets<'_> {
    // Whether there are targets, and a time lies before the first or after the last.
    pub(crate) fn miss(self, time: u32) -> bool
        ensures { Decides result ((0 < length self.entry.all.now) × (Missed self.entry.all.now time)) }
    {
        let (Some(first), Some(last)) = (self.all.first(), self.all.last()) else {
            return false;
        };
        time < first.time || last.time < time
    }
}
