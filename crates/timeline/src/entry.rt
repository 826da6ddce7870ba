//! The interface of a timeline's entries, which samples and targets meet.
ghost use Rattle.std.specs.Prelude.{◌≡◌, ℕ, []};
ghost use Rattle.timeline.specs.Checks.{Allows};
ghost use Rattle.timeline.specs.Entries.{Kind};
ghost use Rattle.timeline.specs.Faults.{outside_limits};

use recording::refusal::{Field, Reason};

/// What carries a time and has limits.
pub trait Entry {
    ghost kind: { Kind Self };

    ghost MOST: { ℕ };
    // What each `impl` must prove.
    ghost most_is: { MOST ≡ kind.most };

    /// The greatest count of a timeline of such entries.
    const MOST: usize;

    /// The time, in ms.
    fn time(&self) -> u32
        ensures answers_the_time_of_the_entry { result ≡ kind.time self.now };

    /// The first field that is outside its limits, or none.
    fn outside(&self) -> Option<Field>
        ensures answers_the_first_field_outside { result ≡ kind.outside self.now };
}

// Checks the fields of an entry: the first one outside its limits is the reason.
pub(crate) fn check_fields<E: Entry>(e: &E) -> Result<(), Reason>
    ensures { Allows (outside_limits E.kind e.now []) tt result }
{
    match e.outside() {
        None => Ok(()),
        Some(field) => Err(Reason::OutsideLimits(field)),
    }
}
