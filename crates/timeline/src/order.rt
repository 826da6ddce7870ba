//! The order of entries: whether a table is in order, and the times of neighbours.
ghost use Rattle.std.specs.Prelude.{◌≡◌, ◌<◌, None, Decides};
ghost use Rattle.timeline.specs.Orders.{Ordered, Sound, is_sound, misplaced, time_before, time_after};

use crate::entry::Entry;

// Whether a time is not later than the entry before, or not earlier than the entry after.
pub(crate) fn is_misplaced(before: Option<u32>, after: Option<u32>, time: u32) -> bool
    ensures { result ≡ misplaced before after time }
{
    before.is_some_and(|earlier| time <= earlier) || after.is_some_and(|later| later <= time)
}

/// The time in ms of the entry before a place, or none if there is no such entry.
pub fn time_before<E: Entry>(entries: &[E], place: usize) -> Option<u32>
    ensures time_of_the_entry_before_or_none { result ≡ time_before E.kind entries.now place }
{
    let entry = entries.get(place.checked_sub(1)?)?;
    Some(entry.time())
}

// The time of the entry after a place, or none if there is no such entry.
pub(crate) fn time_after<E: Entry>(entries: &[E], place: usize) -> Option<u32>
    ensures { result ≡ time_after E.kind entries.now place }
{
    let entry = entries.get(place.checked_add(1)?)?;
    Some(entry.time())
}

// Whether an entry may come after another: it is within its limits, and later.
fn may_follow<E: Entry>(before: &E, entry: &E) -> bool
    ensures { Decides result ((E.kind.outside entry.now ≡ None) × (E.kind.time before.now < E.kind.time entry.now)) }
{
    entry.outside().is_none() && before.time() < entry.time()
}

// Whether entries are in order. One pass, which ends at the first entry that is outside its limits
// or not later than the one before.
fn are_ordered<E: Entry>(entries: &[E]) -> bool
    ensures { Decides result (Ordered E.kind entries.now) }
{
    entries
        .first()
        .is_none_or(|first| first.outside().is_none())
        && entries.is_sorted_by(may_follow)
}

/// Whether a table has the counted entries, each within its limits and later than the one before.
pub fn is_sound<E: Entry>(table: &[E], count: usize) -> bool
    ensures as_computed_from_the_table { result ≡ is_sound E.kind count table.now }
    ensures true_exactly_where_the_table_is_sound { Decides result (Sound E.kind count table.now) }
{
    table.get(..count).is_some_and(are_ordered)
}
